//! A run over one message that is all of a source, without the octets of a length: a datagram, or
//! the file of a KRB-CRED.

ghost use Rattle.std.specs.Prelude.{◌≡◌, ◌<◌, ◌^◌, length, [], IfErr, IfOk, OnErr};
ghost use Rattle.krb_run.specs.Faults.{IsWrite};
ghost use Rattle.krb_json.specs.Unencrypted.{unencrypted_in};
ghost use Rattle.krb_msg.specs.Views.{message_of_der};
ghost use Rattle.krb_convert.specs.Decoding.{All, line_and, decoded_whole, DecodesWhole, FailsToDecodeWhole, ReadsMost};
ghost use Rattle.krb_run.specs.Files.{ReadsSome};
ghost use Rattle.krb_run.specs.declared.transfer.ReaderState.TheVariants as reader;
ghost use Rattle.krb_convert.specs.inner.JsonLines.{IsOfMessage};
ghost use Rattle.krb_convert.specs.inner.WholeRuns.{converted_of};

use crate::decode_run::DecodeEnd;
use crate::json_lines::JsonLines;
use krb_der::{Profile, Refusal, Why};
use krb_frame::Limit;
use krb_judge::read_message_in;
use krb_record::Form;
use krb_run::{CountedReader, RunFault, piece_buffer, write_all};
use krb_tool::refused_path;
use std::alloc::Global;
use std::io::{Read, Write};

/// The line of a message, or none, and how its run ends.
#[derive(Drop)]
struct MessageLine {
    text: Vec<u8>,
    end: DecodeEnd,
}

/// Decodes the one message of a profile that all of a source is, without the octets of a length:
/// writes its line of JSON, as [`run_decode`](crate::run_decode) does, unless it is refused or not
/// encrypted. A source of more than `limit` octets is refused as TooLong at place 0, and one of none as
/// Empty. At most one octet more than `limit` is read, by at most 2^40 reads of at most 64 KiB, and
/// nothing is written before that. If a read fails or memory runs out, nothing is written.
pub fn run_decode_unframed<R: Read, W: Write>(
    alloc: Global,
    profile: Profile,
    reader: &mut R,
    writer: &mut W,
    limit: Limit,
) -> Result<DecodeEnd, RunFault>
    ensures decoded { IfOk result (DecodesWhole profile limit (R.remaining reader.old) (R.remaining reader.new) (W.contents writer.old) (W.contents writer.new)) }
    ensures fault { IfErr result (FailsToDecodeWhole profile limit (R.remaining reader.old) (R.remaining reader.new) (W.contents writer.old) (W.contents writer.new)) }
{
    let mut counted = CountedReader::new(reader);
    decode_source(alloc, profile, &mut counted, writer, limit)
}

/// Decodes the one message that is all that a reader has.
fn decode_source<R: Read, W: Write>(
    alloc: Global,
    profile: Profile,
    counted: &mut CountedReader<'_, R>,
    writer: &mut W,
    limit: Limit,
) -> Result<DecodeEnd, RunFault>
    requires open { counted.old.state ≡ reader.Open }
    ensures same_reader { counted.new.reader.ghost_name ≡ counted.old.reader.ghost_name }
    ensures decoded { IfOk result (DecodesWhole profile limit (R.remaining counted.old.reader.now) (R.remaining counted.new.reader.now) (W.contents writer.old) (W.contents writer.new)) }
    ensures fault { IfErr result (FailsToDecodeWhole profile limit (R.remaining counted.old.reader.now) (R.remaining counted.new.reader.now) (W.contents writer.old) (W.contents writer.new)) }
{
    let octets = read_most(alloc, counted, limit.get() as usize + 1)?;
    let line = decode_message(alloc, profile, limit, octets.as_slice())?;
    write_all(writer, line.text.as_slice())?;
    Ok(line.end)
}

/// Reads what a reader has, `most` octets of it if it has more.
pub fn read_most<R: Read>(
    alloc: Global,
    counted: &mut CountedReader<'_, R>,
    most: usize,
) -> Result<Vec<u8>, RunFault>
    requires open { counted.old.state ≡ reader.Open }
    ensures same_reader { counted.new.reader.ghost_name ≡ counted.old.reader.ghost_name }
    ensures read { IfOk result (λ octets. ReadsMost (R.remaining counted.old.reader.now) (R.remaining counted.new.reader.now) most octets.items) }
    ensures taken { OnErr result (ReadsSome (R.remaining counted.old.reader.now) (R.remaining counted.new.reader.now)) }
    ensures fault { IfErr result (λ e. IsWrite e → ⊥) }
{
    let mut buffer = piece_buffer(alloc)?;
    let mut octets = Vec::new(alloc);
    'pieces: while octets.len() < most {
        buffer.truncate(most - octets.len());
        let count = counted.read(buffer.as_mut_slice())?;
        if count == 0 {
            return Ok(octets);
        }
        octets.extend_from_slice(&buffer[..count])?;
    }
    Ok(octets)
}

/// Returns the line of a message, judged by a profile, or why there is none.
fn decode_message(
    alloc: Global,
    profile: Profile,
    limit: Limit,
    octets: &[u8],
) -> Result<MessageLine, RunFault>
    ensures decoded { IfOk result (λ line. converted_of line ≡ decoded_whole profile limit octets.now) }
    ensures fault { IfErr result (λ e. e ≡ RunFault.Memory) }
{
    if octets.len() > limit.get() as usize {
        let place = 0;
        let why = Why::TooLong;
        return Ok(refused(alloc, Refusal { place, why }, None));
    }
    match read_message_in(profile, octets) {
        Ok(_) => put_message(alloc, octets),
        Err(refusal) => {
            let path = refused_path(alloc, Form::NamedLines, profile, octets, refusal)?;
            Ok(refused(alloc, refusal, path))
        }
    }
}

/// Returns no line, of octets that are refused.
fn refused(alloc: Global, refusal: Refusal, path: Option<String>) -> MessageLine
    ensures text { result.text.items ≡ [] }
    ensures end { result.end ≡ DecodeEnd.Refused 0 refusal path }
{
    let text = Vec::new(alloc);
    let messages = 0;
    let end = DecodeEnd::Refused {
        messages,
        refusal,
        path,
    };
    MessageLine { text, end }
}

/// Returns the line of the message whose DER octets are, or no line if it is not encrypted.
fn put_message(alloc: Global, octets: &[u8]) -> Result<MessageLine, RunFault>
    requires short { length octets.now < 2 ^ 31 }
    requires message { IsOfMessage Profile.Lenient octets.now }
    ensures put { IfOk result (λ line. converted_of line ≡ line_and 1 octets.now (unencrypted_in (message_of_der octets.now)) (record { text = []; end = All })) }
    ensures fault { IfErr result (λ e. e ≡ RunFault.Memory) }
{
    let mut lines = JsonLines::new(alloc);
    lines.put_message(octets)?;
    match lines.unencrypted.take() {
        Some(path) => Ok(MessageLine {
            text: lines.text,
            end: DecodeEnd::Unencrypted { message: 1, path },
        }),
        None => Ok(MessageLine {
            text: lines.text,
            end: DecodeEnd::Clean,
        }),
    }
}
