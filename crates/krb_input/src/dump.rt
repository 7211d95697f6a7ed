//! Dumps: lines of an offset and of octets in hexadecimal.

ghost use Rattle.std.specs.Prelude.{◌≡◌, ◌<◌, ◌≤◌, [], Ok, length, IfErr, IfOk, IfSome};
ghost use Rattle.krb_input.specs.Characters.{begins_blank, count_digits, skip_blanks};
ghost use Rattle.krb_input.specs.Dumps.{blanks_alone, begins_dump, begins_octets, begins_wrong, count_zeros, ends_groups, dump, first_group, groups, is_bar, is_group, line, most_blanks, after_offset_read};
ghost use Rattle.krb_input.specs.inner.Results.{Appends, AppendsLine, IsFault, IsPair};

use crate::characters::{count_digits, is_blank, octet_of, skip_blanks};
use crate::lines::{after_line, split_line};
use crate::offset::{after_offset, is_offset_long, is_prefixed, without_prefix};
use crate::text_fault::TextFault;
use std::alloc::Global;

/// Returns how many `0` a text begins with.
fn count_zeros(text: &[u8]) -> usize
    ensures count { result ≡ count_zeros text.now }
    ensures within { result ≤ length text.now }
{
    let mut rest = text;
    let mut count = 0;
    while let [octet, others @ ..] = rest {
        if *octet != b'0' {
            return count;
        }
        count += 1;
        rest = others;
    }
    count
}

/// Returns whether a text begins with a blank.
fn begins_blank(text: &[u8]) -> bool
    ensures { result ≡ begins_blank text.now }
{
    match text {
        [first, ..] => is_blank(*first),
        [] => false,
    }
}

/// Returns whether a text goes on as a dump's after its first offset.
fn begins_octets(as_of_od: bool, text: &[u8]) -> bool
    ensures { result ≡ begins_octets as_of_od text.now }
{
    let [first, others @ ..] = text else {
        return false;
    };
    let digits = count_digits(skip_blanks(others));
    if *first == b':' {
        begins_blank(others) && 2 <= digits
    } else {
        is_blank(*first) && (digits == 2 || as_of_od)
    }
}

/// Returns whether a text begins as a dump.
pub(crate) fn begins_dump(text: &[u8]) -> bool
    ensures { result ≡ begins_dump text.now }
{
    let line = skip_blanks(text);
    let offset = without_prefix(line);
    let zeros = count_zeros(offset);
    let as_of_od = zeros == 7 && !is_prefixed(line);
    is_offset_long(zeros) && begins_octets(as_of_od, &offset[zeros..])
}

/// Returns the octets of a dump.
#[tactic(auto, using(crate::proofs::Prepends::prepends, crate::proofs::DumpLines::dump_lines))]
pub(crate) fn read_dump(alloc: Global, text: &[u8]) -> Result<Vec<u8>, TextFault>
    ensures octets { IfOk result (λ octets. dump text.now ≡ Ok octets.items) }
    ensures fault { IfErr result (IsFault (dump text.now)) }
{
    let mut octets = Vec::with_capacity(alloc, text.len() / 3)?;
    let mut rest = Some(text);
    while let Some(text) = rest {
        let (line, after) = split_line(text);
        match append_line(&mut octets, line) {
            Ok(is_last) => {
                if is_last {
                    return if_blanks(octets, after);
                }
            }
            Err(fault) => return Err(fault.before(after)),
        }
        rest = after_line(after);
    }
    Ok(octets)
}

/// Returns octets, if a text that follows has blanks alone.
fn if_blanks(octets: Vec<u8>, following: &[u8]) -> Result<Vec<u8>, TextFault>
    ensures octets { IfOk result (λ made. (blanks_alone (skip_blanks following.now) ≡ Ok []) × (made.items ≡ octets.items)) }
    ensures fault { IfErr result (IsFault (blanks_alone (skip_blanks following.now))) }
{
    let left = skip_blanks(following).len();
    if left == 0 {
        Ok(octets)
    } else {
        Err(TextFault::Left(left))
    }
}

/// Appends the octets of a line to those before it, and returns whether it is an offset alone.
#[tactic(auto, using(crate::proofs::Prepends::prepends))]
fn append_line(octets: &mut Vec<u8>, text: &[u8]) -> Result<bool, TextFault>
    ensures { AppendsLine (line (length octets.old.items) text.now) octets.old.items octets.new.items result }
{
    let text = skip_blanks(text);
    if text.is_empty() {
        return Ok(false);
    }
    match after_offset(octets.len(), text) {
        Some(after) => append_after_offset(octets, text.len(), after),
        None => Err(TextFault::Left(text.len())),
    }
}

/// Appends the octets of what follows the offset of a line, and returns whether that is nothing. The
/// line has `left` octets.
fn append_after_offset(octets: &mut Vec<u8>, left: usize, text: &[u8]) -> Result<bool, TextFault>
    ensures { AppendsLine (after_offset_read left text.now) octets.old.items octets.new.items result }
{
    let [first, others @ ..] = text else {
        return Ok(true);
    };
    if *first == b':' {
        append_first_group(octets, true, others)?;
        return Ok(false);
    }
    if !is_blank(*first) {
        return Err(TextFault::Left(left));
    }
    if skip_blanks(others).is_empty() {
        return Ok(true);
    }
    append_first_group(octets, false, text)?;
    Ok(false)
}

/// Appends the octets of groups, the first of which comes after blanks.
#[tactic(auto, using(crate::proofs::Prepends::prepends))]
fn append_first_group(octets: &mut Vec<u8>, are_words: bool, text: &[u8]) -> Result<(), TextFault>
    ensures { Appends (first_group are_words text.now) octets.old.items octets.new.items result }
{
    let begun = skip_blanks(text);
    if begins_blank(text) && count_digits(begun) != 0 {
        append_groups(octets, are_words, begun)
    } else {
        Err(TextFault::Left(begun.len()))
    }
}

/// Returns whether a group may have so many digits.
fn is_group(are_words: bool, digits: usize) -> bool
    ensures { result ≡ is_group are_words digits }
{
    if are_words {
        2 <= digits && digits <= 32 && digits % 2 == 0
    } else {
        digits == 2
    }
}

/// Returns whether an octet begins the text beside octets.
fn is_bar(octet: u8) -> bool
    ensures { result ≡ is_bar octet }
{
    octet == b'|' || octet == b'>'
}

/// Returns how many blanks there are at most between groups.
fn most_blanks(are_words: bool) -> usize
    ensures most { result ≡ most_blanks are_words }
    ensures few { (1 ≤ result) × (result ≤ 2) }
{
    if are_words { 1 } else { 2 }
}

/// Returns whether an octet after blanks begins the text beside octets.
fn ends_groups(are_words: bool, blanks: usize, octet: u8) -> bool
    ensures { result ≡ ends_groups are_words blanks octet }
{
    blanks != 0 && !are_words && is_bar(octet)
}

/// Returns whether a group that does not fit begins after blanks.
fn begins_wrong(are_words: bool, blanks: usize, text: &[u8]) -> bool
    ensures { result ≡ begins_wrong are_words blanks (count_digits text.now) }
{
    blanks != 0 && !is_group(are_words, count_digits(text))
}

/// Appends the octets of groups, which follow a blank.
#[tactic(auto, using(crate::proofs::Prepends::prepends))]
fn append_groups(octets: &mut Vec<u8>, are_words: bool, text: &[u8]) -> Result<(), TextFault>
    ensures { Appends (groups are_words 1 text.now) octets.old.items octets.new.items result }
{
    let most = most_blanks(are_words);
    let mut blanks = 1;
    let mut rest = text;
    while let [first, others @ ..] = rest {
        if is_blank(*first) {
            if blanks == most {
                return Ok(());
            }
            blanks += 1;
            rest = others;
        } else {
            if ends_groups(are_words, blanks, *first) {
                return Ok(());
            }
            if begins_wrong(are_words, blanks, rest) {
                return Err(TextFault::Left(rest.len()));
            }
            let Some((octet, others)) = first_pair(rest) else {
                return Err(TextFault::Left(rest.len()));
            };
            octets.push(octet)?;
            blanks = 0;
            rest = others;
        }
    }
    Ok(())
}

/// Returns the octet of two digits at the beginning of a text, and what follows them.
fn first_pair(text: &[u8]) -> Option<(u8, &[u8])>
    ensures pair { IsPair text.now result }
    ensures shorter { IfSome result (λ found. length found.1.now < length text.now) }
{
    let [high, low, others @ ..] = text else {
        return None;
    };
    let octet = octet_of(*high, *low)?;
    Some((octet, others))
}
