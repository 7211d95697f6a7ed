//! Hexadecimal digits, with blanks anywhere between them.

ghost use Rattle.std.specs.Prelude.{◌≡◌, ◌*◌, ◌<◌, ◌≤◌, length, take, true, Some, Ok, IfErr, IfOk};
ghost use Rattle.std.specs.List.{list_all};
ghost use Rattle.hex.specs.Hex.{decode_pairs, hex_digit_value, is_hex_digit};
ghost use Rattle.krb_input.specs.Digits.{are_digits, digits};
ghost use Rattle.krb_input.specs.Readings.{prepend};
ghost use Rattle.krb_input.specs.inner.Results.{IsFault};

use crate::characters::{is_blank, is_digit, octet_of};
use crate::text_fault::TextFault;
use std::alloc::{AllocError, Global};

/// Returns whether a text has digits and blanks alone, all of which are looked at.
fn are_fit(text: &[u8]) -> bool
    ensures { result ≡ are_digits text.now }
{
    let mut are = true;
    for octet in text {
        are &= is_digit(*octet) | is_blank(*octet);
    }
    are
}

/// Returns whether a text has digits alone.
fn has_no_blank(text: &[u8]) -> bool
    ensures { result ≡ list_all is_hex_digit text.now }
{
    let mut are = true;
    for octet in text {
        are &= is_digit(*octet);
    }
    are
}

/// Returns how many pairs of digits a text is found to begin with: all but an odd octet at its end, or
/// none, if another octet is no digit.
pub(crate) fn count_pairs(text: &[u8]) -> usize
    ensures within { 2 * result ≤ length text.now }
    ensures digits { list_all is_hex_digit (take (2 * result) text.now) ≡ true }
{
    let count = text.len() / 2;
    if has_no_blank(&text[..2 * count]) {
        count
    } else {
        0
    }
}

/// Returns whether a text, which begins with pairs of digits, has digits and blanks alone.
pub(crate) fn are_digits(pairs: usize, text: &[u8]) -> bool
    requires within { 2 * pairs ≤ length text.now }
    requires digits { list_all is_hex_digit (take (2 * pairs) text.now) ≡ true }
    ensures { result ≡ are_digits text.now }
{
    are_fit(&text[2 * pairs..])
}

/// Returns the value of a digit.
fn value_of(digit: u8) -> u8
    requires { is_hex_digit digit ≡ true }
    ensures value { hex_digit_value digit ≡ Some result }
    ensures small { result < 16 }
{
    digit % 16 + 9 * (digit / 64)
}

/// Fills room with the octets of digits, two digits for each.
fn fill_octets(room: &mut [u8], digits: &[u8])
    requires count { length digits.now ≡ 2 * length room.old }
    requires digits { list_all is_hex_digit digits.now ≡ true }
    ensures { decode_pairs 0 digits.now ≡ Ok room.new }
{
    for index in 0..room.len() {
        let high = value_of(digits[2 * index]);
        let low = value_of(digits[2 * index + 1]);
        room[index] = 16 * high + low;
    }
}

/// Returns the octets of the pairs of digits that a text begins with, and what follows them.
fn read_pairs(alloc: Global, pairs: usize, text: &[u8]) -> Result<(Vec<u8>, &[u8]), AllocError>
    requires within { 2 * pairs ≤ length text.now }
    requires digits { list_all is_hex_digit (take (2 * pairs) text.now) ≡ true }
    ensures { IfOk result (λ made. digits text.now ≡ prepend made.0.items (digits made.1.now)) }
{
    let mut octets = Vec::with_capacity(alloc, text.len() / 2)?;
    let (digits, rest) = text.split_at(2 * pairs);
    octets.resize(pairs, 0)?;
    fill_octets(octets.as_mut_slice(), digits);
    Ok((octets, rest))
}

/// Returns the octets of digits, two digits for each, of a text that begins with pairs of digits.
#[tactic(auto, using(crate::proofs::Prepends::prepends))]
pub(crate) fn read_digits(alloc: Global, pairs: usize, text: &[u8]) -> Result<Vec<u8>, TextFault>
    requires within { 2 * pairs ≤ length text.now }
    requires digits { list_all is_hex_digit (take (2 * pairs) text.now) ≡ true }
    ensures octets { IfOk result (λ octets. digits text.now ≡ Ok octets.items) }
    ensures fault { IfErr result (IsFault (digits text.now)) }
{
    let (mut octets, mut rest) = read_pairs(alloc, pairs, text)?;
    let mut high = None;
    while let [octet, others @ ..] = rest {
        if !is_blank(*octet) {
            match high {
                None => high = Some(*octet),
                Some(first) => {
                    let Some(made) = octet_of(first, *octet) else {
                        return Err(TextFault::Left(rest.len()));
                    };
                    octets.push(made)?;
                    high = None;
                }
            }
        }
        rest = others;
    }
    match high {
        None => Ok(octets),
        Some(_) => Err(TextFault::Left(0)),
    }
}
