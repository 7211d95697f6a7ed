//! Inputs, read.

ghost use Rattle.std.specs.Prelude.{◌≡◌, None, Ok, Err, IfErr, IfOk};
ghost use Rattle.krb_input.specs.Base64.{first_octet};
ghost use Rattle.krb_input.specs.Readings.{Reading};
ghost use Rattle.krb_input.specs.Inputs.{IsFaultOf, as_form, is_first, is_first_of, line_spelled, spelled, spelled_in_braces, spelled_in_field, spelled_in_octets, spelled_in_text, spelled_otherwise, spelled_plainly};
ghost use Rattle.krb_input.specs.inner.Results.{IsSpelled, Reads};

use crate::base64::{first_octet, read_base64};
use crate::braces::{after_first, read_braces};
use crate::digits::{are_digits, count_pairs, read_digits};
use crate::dump::{begins_dump, read_dump};
use crate::escapes::{has_plain_escape, read_escapes};
use crate::header::token_of;
use crate::octets::{begin_message, first_no_text, is_marked, is_tag, without_mark};
use crate::spelled::{InputFault, Misspelling, Spelled};
use crate::text::Text;
use crate::text_fault::TextFault;
use crate::tokens::{first_unfit, read_tokens};
use krb_source::Spelling;
use std::alloc::Global;

/// Returns the octets that an input spells. These are the input itself, if it has an octet that is
/// no text and begins as a message; else it is read as text, by the first of these that it is: a dump,
/// hexadecimal digits and blanks, what is in braces, escapes, a header field of HTTP, hexadecimal
/// tokens, or base64. EF BB BF in front of a text is passed over.
#[tactic(auto, using(crate::proofs::Told::spelled_ok, crate::proofs::Told::spelled_err), unfolding(crate::specs::Inputs::spelled))]
pub fn read_input(alloc: Global, input: &[u8]) -> Result<Spelled, InputFault>
    ensures octets { IfOk result (λ made. spelled input.now ≡ Ok (made.form, made.octets.items)) }
    ensures fault { IfErr result (IsFaultOf (spelled input.now)) }
{
    let text = without_mark(input);
    match first_no_text(text) {
        Some(left) => read_octets(alloc, left, input),
        None => read_text(alloc, input.len(), text),
    }
}

/// Returns the octets that a line spells, which is an input of its own, but neither a dump nor octets
/// that are no text. EF BB BF in front of it is passed over.
#[tactic(auto, using(crate::proofs::Told::spelled_ok, crate::proofs::Told::spelled_err), unfolding(crate::specs::Inputs::line_spelled))]
pub fn read_line(alloc: Global, line: &[u8]) -> Result<Spelled, InputFault>
    ensures octets { IfOk result (λ made. line_spelled line.now ≡ Ok (made.form, made.octets.items)) }
    ensures fault { IfErr result (IsFaultOf (line_spelled line.now)) }
{
    let text = without_mark(line);
    match first_no_text(text) {
        Some(left) => Err(misspelled(line.len(), Spelling::Hex, left)),
        None => read_plainly(alloc, line.len(), text),
    }
}

/// Returns an input that has an octet that is no text, with which `left` octets are left of it.
fn read_octets(alloc: Global, left: usize, input: &[u8]) -> Result<Spelled, InputFault>
    ensures { IsSpelled (spelled_in_octets left input.now) result }
{
    if is_marked(input) || !begin_message(input) {
        return Err(misspelled(input.len(), Spelling::Hex, left));
    }
    let mut octets = Vec::with_capacity(alloc, input.len())?;
    octets.extend_from_slice(input)?;
    let form = Spelling::Octets;
    Ok(Spelled { form, octets })
}

/// Returns the fault of a text at the end of an input of `size` octets, of which `left` are left.
fn misspelled(size: usize, form: Spelling, left: usize) -> InputFault
    ensures { IsFaultOf (as_form size form (Err left)) result }
{
    let place = size.saturating_sub(left) as u64;
    InputFault::Misspelled(Misspelling { form, place })
}

/// Returns what a rule read of a text at the end of an input of `size` octets.
fn told(
    size: usize,
    form: Spelling,
    read: Result<Vec<u8>, TextFault>,
) -> Result<Spelled, InputFault>
    ensures { (reading : Reading) → Reads reading read → IsSpelled (as_form size form reading) result }
{
    match read {
        Ok(octets) => Ok(Spelled { form, octets }),
        Err(TextFault::Left(left)) => Err(misspelled(size, form, left)),
        Err(TextFault::Memory) => Err(InputFault::Memory),
    }
}

/// Returns the octets of a text at the end of an input of `size` octets.
fn read_text(alloc: Global, size: usize, text: &[u8]) -> Result<Spelled, InputFault>
    ensures { IsSpelled (spelled_in_text size text.now) result }
{
    if begins_dump(text) {
        told(size, Spelling::Dump, read_dump(alloc, text))
    } else {
        read_plainly(alloc, size, text)
    }
}

/// Returns the octets of a text that is no dump.
fn read_plainly(alloc: Global, size: usize, text: &[u8]) -> Result<Spelled, InputFault>
    ensures { IsSpelled (spelled_plainly size text.now) result }
{
    let pairs = count_pairs(text);
    if are_digits(pairs, text) {
        return told(size, Spelling::Hex, read_digits(alloc, pairs, text));
    }
    match after_first(b'{', text) {
        Some(block) => told(size, Spelling::Hex, read_braces(alloc, block)),
        None => read_escaped(alloc, size, text),
    }
}

/// Returns the octets of a text that has no `{`.
fn read_escaped(alloc: Global, size: usize, text: &[u8]) -> Result<Spelled, InputFault>
    ensures { IsSpelled (spelled_in_braces size None text.now) result }
{
    if has_plain_escape(text) {
        return told(size, Spelling::Hex, read_escapes(alloc, Text::new(text)));
    }
    match token_of(text) {
        Some(token) => told(size, Spelling::Base64, read_base64(alloc, token)),
        None => read_bare(alloc, size, text),
    }
}

/// Returns the octets of a text that is no header field.
fn read_bare(alloc: Global, size: usize, text: &[u8]) -> Result<Spelled, InputFault>
    ensures { IsSpelled (spelled_in_field size None text.now) result }
{
    match first_unfit(Text::new(text)) {
        None => told(size, Spelling::Hex, read_tokens(alloc, Text::new(text))),
        Some(unfit) => read_otherwise(alloc, size, unfit, text),
    }
}

/// Returns the octets of a text that has an octet of no token, with which `unfit` are left.
fn read_otherwise(
    alloc: Global,
    size: usize,
    unfit: usize,
    text: &[u8],
) -> Result<Spelled, InputFault>
    ensures { IsSpelled (spelled_otherwise size unfit text.now) result }
{
    if begins_base64(text) {
        told(size, Spelling::Base64, read_base64(alloc, text))
    } else {
        Err(misspelled(size, Spelling::Hex, unfit))
    }
}

/// Returns whether a text begins as a message in base64.
fn begins_base64(text: &[u8]) -> bool
    ensures { result ≡ is_first_of (first_octet text.now) }
{
    match first_octet(text) {
        Some(octet) => is_first(octet),
        None => false,
    }
}

/// Returns whether an octet begins a message, what it is in, or NTLM.
fn is_first(octet: u8) -> bool
    ensures { result ≡ is_first octet }
{
    is_tag(octet) || octet == 0x00 || octet == 0xA0 || octet == 0xA1 || octet == 0x4E
}
