//! The run over a message, a Ticket or a token, as octets or as text.

ghost use Rattle.std.specs.Prelude.{◌≡◌, IfErr, IfOk, OnErr};
ghost use Rattle.krb_input.specs.Inputs.{spelled};
ghost use Rattle.krb_run.specs.declared.transfer.ReaderState.TheVariants as reader;
ghost use Rattle.krb_decode.specs.Decoded.{accepted, decoded_input, decoded_octets, decoded_spelled, end_of, refused};
ghost use Rattle.krb_decode.specs.Runs.{DecodesInput, FailsToDecodeInput};
ghost use Rattle.krb_decode.specs.Given.{decoded_given, decoded_of};

use crate::found::put_octets;
use crate::parts::Parts;
use krb_convert::read_most;
use krb_der::Profile;
use krb_input::{InputFault, read_input};
use krb_record::{Form, Label};
use krb_run::{CountedReader, RunEnd, RunFault, write_all};
use krb_tool::{list_octets, run_message_in};
use std::alloc::Global;
use std::io::{Read, Write};

/// The greatest number of octets of an input that spells a message, and one more.
const MOST: usize = 16777217;

/// What is said of an input that was decoded.
#[derive(Drop)]
pub struct InputEnd {
    /// Lines that say what is left out, and why.
    pub said: Vec<u8>,
    /// How the run ended: it is clean if nothing is said, and refused at once if the input is refused.
    pub end: RunEnd,
}

/// What is decoded of an input.
#[derive(Drop)]
pub struct DecodedInput {
    /// Lines of JSON, of messages or Tickets.
    pub lines: Vec<u8>,
    /// What is said of it.
    pub end: InputEnd,
}

/// Decodes one message of a profile that an input spells, as `krb_tool` reads it: writes its line of
/// JSON. A Ticket has a line, too, and of a KRB-CRED whose EncryptedData is not encrypted each of its
/// tickets. What is refused is said as it is listed with names, and what is not encrypted by its path.
/// All is read first, or 16777217 octets, which settle that there are too many.
pub fn run_decode_input<R: Read, W: Write>(
    alloc: Global,
    profile: Profile,
    reader: &mut R,
    writer: &mut W,
) -> Result<InputEnd, RunFault>
    ensures decoded { IfOk result (DecodesInput profile (R.remaining reader.old) (R.remaining reader.new) (W.contents writer.old) (W.contents writer.new)) }
    ensures fault { OnErr result (FailsToDecodeInput profile (R.remaining reader.old) (R.remaining reader.new) (W.contents writer.old) (W.contents writer.new)) }
{
    let mut counted = CountedReader::new(reader);
    decode_source(alloc, profile, &mut counted, writer)
}

/// Decodes what all that a reader has spells.
fn decode_source<R: Read, W: Write>(
    alloc: Global,
    profile: Profile,
    counted: &mut CountedReader<'_, R>,
    writer: &mut W,
) -> Result<InputEnd, RunFault>
    requires open { counted.old.state ≡ reader.Open }
    ensures same_reader { counted.new.reader.ghost_name ≡ counted.old.reader.ghost_name }
    ensures decoded { IfOk result (DecodesInput profile (R.remaining counted.old.reader.now) (R.remaining counted.new.reader.now) (W.contents writer.old) (W.contents writer.new)) }
    ensures fault { OnErr result (FailsToDecodeInput profile (R.remaining counted.old.reader.now) (R.remaining counted.new.reader.now) (W.contents writer.old) (W.contents writer.new)) }
{
    let octets = read_most(alloc, counted, MOST)?;
    let made = decode_input(alloc, profile, octets.as_slice())?;
    write_all(writer, made.lines.as_slice())?;
    Ok(made.end)
}

/// Returns what is decoded of an input: what its listing says if it is refused, and else what it
/// spells.
fn decode_input(alloc: Global, profile: Profile, input: &[u8]) -> Result<DecodedInput, RunFault>
    ensures { IfOk result (λ made. decoded_of made ≡ decoded_input profile input.now) }
{
    let mut reader = input;
    let mut said = Vec::new(alloc);
    let label = Label::none(Form::NamedLines);
    let ended = run_message_in(alloc, &label, profile, &mut reader, &mut said)?;
    match ended {
        RunEnd::Clean => decode_accepted(alloc, profile, input),
        RunEnd::Refused | RunEnd::RefusedAtOnce => Ok(refused(alloc, said)),
    }
}

/// Returns what is decoded of octets that are a message, a Ticket or a token, and are never read as
/// text: what their listing says if they are refused, and else what they are.
pub fn decode_given(
    alloc: Global,
    profile: Profile,
    octets: &[u8],
) -> Result<DecodedInput, RunFault>
    ensures { IfOk result (λ made. decoded_of made ≡ decoded_given profile octets.now) }
{
    let listed = list_octets(alloc, Form::NamedLines, profile, octets)?;
    match listed.end {
        RunEnd::Clean => decode_octets(alloc, profile, octets),
        RunEnd::Refused | RunEnd::RefusedAtOnce => {
            Ok(refused(alloc, listed.text.into_string().into_bytes()))
        }
    }
}

/// Returns no line, of an input of whose refusal this is said.
fn refused(alloc: Global, said: Vec<u8>) -> DecodedInput
    ensures { decoded_of result ≡ refused said.items }
{
    let end = RunEnd::RefusedAtOnce;
    DecodedInput {
        lines: Vec::new(alloc),
        end: InputEnd { said, end },
    }
}

/// Returns what is decoded of an input that is not refused.
fn decode_accepted(alloc: Global, profile: Profile, input: &[u8]) -> Result<DecodedInput, RunFault>
    ensures { IfOk result (λ made. decoded_of made ≡ accepted (decoded_spelled profile (spelled input.now))) }
{
    match read_input(alloc, input) {
        Ok(made) => decode_octets(alloc, profile, made.octets.as_slice()),
        Err(InputFault::Misspelled(_)) => Ok(finished(Parts::new(alloc))),
        Err(InputFault::Memory) => Err(RunFault::Memory),
    }
}

/// Returns what is decoded of octets.
fn decode_octets(alloc: Global, profile: Profile, octets: &[u8]) -> Result<DecodedInput, RunFault>
    ensures { IfOk result (λ made. decoded_of made ≡ accepted (decoded_octets profile octets.now)) }
{
    let mut parts = Parts::new(alloc);
    put_octets(&mut parts, profile, octets)?;
    Ok(finished(parts))
}

/// Returns what is decoded of an input that is not refused, by its parts.
fn finished(parts: Parts) -> DecodedInput
    ensures { decoded_of result ≡ accepted (record { lines = parts.lines.items; said = parts.said }) }
{
    let said = parts.said.into_string().into_bytes();
    let end = end_of(said.as_slice());
    DecodedInput {
        lines: parts.lines,
        end: InputEnd { said, end },
    }
}

/// Returns how a run ends that accepts a source of which something is said, or nothing.
pub(crate) fn end_of(said: &[u8]) -> RunEnd
    ensures { result ≡ end_of said.now }
{
    if said.is_empty() {
        RunEnd::Clean
    } else {
        RunEnd::Refused
    }
}
