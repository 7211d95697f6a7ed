//! What stands in braces, as in an array of C.

ghost use Rattle.std.specs.Prelude.{◌≡◌, ◌≤◌, Ok, length, IfErr, IfOk};
ghost use Rattle.krb_input.specs.Braces.{after_first, block, block_length, braces, unended};
ghost use Rattle.krb_input.specs.Comments.{unclosed};
ghost use Rattle.krb_input.specs.inner.Results.{IsPart, IsFault};

use crate::characters::contains;
use crate::escapes::{has_escape, read_escapes};
use crate::text::{Text, unclosed};
use crate::text_fault::TextFault;
use crate::tokens::read_tokens;
use std::alloc::Global;

/// Returns what follows the first of an octet in a text, if it is there.
#[tactic(auto, using(crate::proofs::Passes::no_first))]
pub(crate) fn after_first(octet: u8, text: &[u8]) -> Option<&[u8]>
    ensures { IsPart (after_first octet text.now) result }
{
    if !contains(octet, text) {
        return None;
    }
    let mut rest = text;
    while let [first, others @ ..] = rest {
        if *first == octet {
            return Some(others);
        }
        rest = others;
    }
    None
}

/// Returns how many octets there are before the first `}` that stands in no comment, or in all.
#[tactic(auto, using(crate::proofs::Blanked::blanks))]
fn block_length(text: &[u8]) -> usize
    ensures count { result ≡ block_length text.now }
    ensures within { result ≤ length text.now }
{
    Text::with_comments(text).length_before(b'}')
}

/// Returns the octets of what is between a `{` and the next `}` that stands in no comment. The text
/// is what follows the `{`.
pub(crate) fn read_braces(alloc: Global, text: &[u8]) -> Result<Vec<u8>, TextFault>
    ensures octets { IfOk result (λ octets. braces text.now ≡ Ok octets.items) }
    ensures fault { IfErr result (IsFault (braces text.now)) }
{
    let (inside, following) = text.split_at(block_length(text));
    if following.is_empty() {
        return Err(unended(text));
    }
    match read_block(alloc, inside) {
        Ok(octets) => Ok(octets),
        Err(fault) => Err(fault.before(following)),
    }
}

/// Returns the fault of a block that no `}` ends: a comment that does not end, or else the text's
/// end.
fn unended(text: &[u8]) -> TextFault
    ensures { IsFault (unended (unclosed text.now)) result }
{
    match unclosed(text) {
        Some(left) => TextFault::Left(left),
        None => TextFault::Left(0),
    }
}

/// Returns the octets of a text in which comments are blanks: escapes, if it has one, or else tokens.
fn read_block(alloc: Global, text: &[u8]) -> Result<Vec<u8>, TextFault>
    ensures octets { IfOk result (λ octets. block text.now ≡ Ok octets.items) }
    ensures fault { IfErr result (IsFault (block text.now)) }
{
    let uncommented = Text::with_comments(text);
    if has_escape(uncommented) {
        return read_escapes(alloc, uncommented);
    }
    read_tokens(alloc, uncommented)
}
