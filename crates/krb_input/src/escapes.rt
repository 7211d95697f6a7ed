//! Escapes: `\x` and two digits are an octet.

ghost use Rattle.std.specs.Prelude.{◌≡◌, ◌≤◌, Ok, length, IfErr, IfOk, IfSome};
ghost use Rattle.krb_input.specs.Comments.{text_left};
ghost use Rattle.krb_input.specs.Escapes.{escapes, has_escape, is_between};
ghost use Rattle.krb_input.specs.inner.Results.{IsFault, IsEscape};

use crate::characters::{contains, is_blank, octet_of};
use crate::text::Text;
use crate::text_fault::TextFault;
use std::alloc::Global;

/// Returns whether `\x` stands in a text.
pub(crate) fn has_escape(text: Text<'_>) -> bool
    ensures { result ≡ has_escape (text_left text.entry) }
{
    let mut rest = text;
    while let Some((octet, others)) = rest.split_first() {
        if octet == b'\\' && others.begins_with(b'x') {
            return true;
        }
        rest = others;
    }
    false
}

/// Returns whether `\x` stands in a text that has no comments.
#[tactic(auto, using(crate::proofs::Passes::no_escape))]
pub(crate) fn has_plain_escape(text: &[u8]) -> bool
    ensures { result ≡ has_escape text.now }
{
    contains(b'\\', text) && has_escape(Text::new(text))
}

/// Returns whether an octet may stand between escapes.
fn is_between(octet: u8) -> bool
    ensures { result ≡ is_between octet }
{
    is_blank(octet) || octet == b'"' || octet == b'\'' || octet == b',' || octet == b';'
}

/// Returns the octets of a text of escapes.
#[tactic(auto, using(crate::proofs::Prepends::prepends))]
pub(crate) fn read_escapes(alloc: Global, text: Text<'_>) -> Result<Vec<u8>, TextFault>
    ensures octets { IfOk result (λ octets. escapes (text_left text.entry) ≡ Ok octets.items) }
    ensures fault { IfErr result (IsFault (escapes (text_left text.entry))) }
{
    let mut octets = Vec::with_capacity(alloc, text.left() / 4)?;
    let mut rest = text;
    while let Some((first, others)) = rest.split_first() {
        if first == b'\\' {
            let Some((octet, others)) = after_backslash(others) else {
                return Err(TextFault::Left(rest.left()));
            };
            if let Some(octet) = octet {
                octets.push(octet)?;
            }
            rest = others;
        } else if is_between(first) {
            rest = others;
        } else {
            return Err(TextFault::Left(rest.left()));
        }
    }
    Ok(octets)
}

/// Returns the octet of `x` and two digits after a `\`, or no octet at a line's end, and what follows.
fn after_backslash(text: Text<'_>) -> Option<(Option<u8>, Text<'_>)>
    ensures escape { IsEscape (text_left text.entry) result }
    ensures shorter { IfSome result (λ found. length (text_left found.1) ≤ length (text_left text.entry)) }
{
    let (first, others) = text.split_first()?;
    if first == b'\n' {
        return Some((None, others));
    }
    if first == b'\r' {
        if others.begins_with(b'\n') {
            return Some((None, others));
        }
        return None;
    }
    if first != b'x' {
        return None;
    }
    let (high, others) = others.split_first()?;
    let (low, others) = others.split_first()?;
    let octet = octet_of(high, low)?;
    Some((Some(octet), others))
}
