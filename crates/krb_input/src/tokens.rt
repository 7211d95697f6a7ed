//! Hexadecimal tokens, with marks between them.

ghost use Rattle.std.specs.Prelude.{◌≡◌, ◌≤◌, Ok, true, false, length, IfErr, IfOk, IfSome};
ghost use Rattle.krb_input.specs.Characters.{is_x};
ghost use Rattle.krb_input.specs.Comments.{text_left};
ghost use Rattle.krb_input.specs.Tokens.{are_whole, first_unfit, is_mark, is_token, tokens};
ghost use Rattle.krb_input.specs.inner.Results.{IsFault, IsNext};

use crate::characters::{digit_value, is_blank, is_digit, octet_of};
use crate::text::Text;
use crate::text_fault::TextFault;
use std::alloc::Global;

/// Returns whether an octet is a mark, which stands between tokens.
fn is_mark(octet: u8) -> bool
    ensures { result ≡ is_mark octet }
{
    is_blank(octet)
        || matches!(
            octet,
            b',' | b';' | b':' | b'-' | b'"' | b'\'' | b'[' | b']' | b'(' | b')'
        )
}

/// Returns whether an octet is the `x` of `0x`, of either case.
pub(crate) fn is_x(octet: u8) -> bool
    ensures { result ≡ is_x octet }
{
    octet == b'x' || octet == b'X'
}

/// Returns how many octets there are from the first on that no token or mark has, if there is one.
pub(crate) fn first_unfit(text: Text<'_>) -> Option<usize>
    ensures { result ≡ first_unfit false (text_left text.entry) }
{
    let mut rest = text;
    let mut is_after_zero = false;
    while let Some((octet, others)) = rest.split_first() {
        if !(is_digit(octet) || is_mark(octet) || is_after_zero && is_x(octet)) {
            return Some(rest.left());
        }
        is_after_zero = octet == b'0';
        rest = others;
    }
    None
}

/// Returns whether so many digits are a token's.
fn are_whole(count: usize) -> bool
    ensures { result ≡ are_whole count }
{
    count != 0 && count % 2 == 0
}

/// Returns whether a token begins a text: digits, an even number, maybe after `0x`, or `0x` and one
/// digit.
fn is_token(text: Text<'_>) -> bool
    ensures { result ≡ is_token (text_left text.entry) }
{
    let Some((first, others)) = text.split_first() else {
        return false;
    };
    match others.split_first() {
        Some((second, digits)) if first == b'0' && is_x(second) => {
            let count = digits.count_digits();
            count == 1 || are_whole(count)
        }
        _ => are_whole(text.count_digits()),
    }
}

/// Returns the octets of tokens.
#[tactic(auto, using(crate::proofs::Prepends::prepends))]
pub(crate) fn read_tokens(alloc: Global, text: Text<'_>) -> Result<Vec<u8>, TextFault>
    ensures octets { IfOk result (λ octets. tokens true (text_left text.entry) ≡ Ok octets.items) }
    ensures fault { IfErr result (IsFault (tokens true (text_left text.entry))) }
{
    let mut octets = Vec::with_capacity(alloc, text.left() / 2)?;
    let mut rest = text;
    let mut begins = true;
    while let Some((first, others)) = rest.split_first() {
        if is_mark(first) {
            begins = true;
            rest = others;
        } else if begins && !is_token(rest) {
            return Err(TextFault::Left(rest.left()));
        } else {
            let Some((octet, others)) = next_octet(begins, first, others) else {
                return Err(TextFault::Left(rest.left()));
            };
            if let Some(octet) = octet {
                octets.push(octet)?;
            }
            begins = false;
            rest = others;
        }
    }
    Ok(octets)
}

/// Returns the next octet of a token, or no octet for `0x`, and what follows.
fn next_octet(begins: bool, first: u8, others: Text<'_>) -> Option<(Option<u8>, Text<'_>)>
    ensures next { IsNext begins first (text_left others.entry) result }
    ensures shorter { IfSome result (λ found. length (text_left found.1) ≤ length (text_left others.entry)) }
{
    let (second, behind) = others.split_first()?;
    let is_prefixed = begins && is_x(second);
    if !is_prefixed {
        let octet = octet_of(first, second)?;
        return Some((Some(octet), behind));
    }
    let (digit, after) = behind.split_first()?;
    let is_lone = behind.count_digits() == 1;
    if is_lone {
        let octet = digit_value(digit)?;
        return Some((Some(octet), after));
    }
    Some((None, behind))
}
