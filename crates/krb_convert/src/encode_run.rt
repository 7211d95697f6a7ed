//! Runs that write the messages that lines of JSON spell.

ghost use Rattle.std.specs.Prelude.{IfErr, IfOk, true, false};
ghost use Rattle.krb_convert.specs.Encoding.{Encodes, FailsToEncode};

use crate::json_reader::{EncodeRequest, JsonReader};
use krb_der::Profile;
use krb_frame::Limit;
use krb_json::LineFault;
use krb_run::{CountedReader, RunFault, list_all};
use std::alloc::Global;
use std::io::{Read, Write};

/// How a run ends that encoded messages. Lines count from 1, those of blanks too.
#[derive(PartialEq, Eq, Debug, Drop)]
pub enum EncodeEnd {
    /// All was read, and the message of each line is written.
    Clean,
    /// A line spells no message. The messages before it are written.
    Fault {
        /// The number of the line.
        line: u64,
        /// What is wrong with it: never [`LineFault::Memory`].
        fault: LineFault,
    },
    /// A line is too long. The messages before it are written, and no octet is looked at after the
    /// one that shows it.
    LongLine {
        /// The number of the line.
        line: u64,
        /// The greatest number of octets that one may have.
        most: u64,
    },
    /// A line follows one message where no second one is allowed. The first one is written.
    SecondMessage {
        /// The number of the line.
        line: u64,
    },
    /// There is no message where one has to be.
    NoMessage,
}

/// Encodes the messages that lines of JSON spell, each as a frame (RFC 4120, 7.2.2). A line is what
/// comes before a line feed, and the rest if it is not empty; a line of spaces, tabs and CR alone is
/// passed over. The first line that spells no message of the profile of at most `limit` octets ends
/// the run, and nothing after it is looked at. So does a line, even of blanks, that has more octets
/// than 8 times `limit` and 65536, as soon as these came. The reader is asked at most 2^40 times, for 64 KiB
/// each, and the frames of the lines that end in what came are written before it is asked again. It
/// is not asked again after an error, its end or a fault. If a read fails, the frames of the lines
/// that ended before that are written, and if memory runs out, the first octets of these. Memory is
/// allocated for a line, its JSON and its message.
pub fn run_encode<R: Read, W: Write>(
    alloc: Global,
    profile: Profile,
    reader: &mut R,
    writer: &mut W,
    limit: Limit,
) -> Result<EncodeEnd, RunFault>
    ensures encoded { IfOk result (Encodes true profile limit (R.remaining reader.old) (R.remaining reader.new) (W.contents writer.old) (W.contents writer.new)) }
    ensures fault { IfErr result (FailsToEncode true profile limit (R.remaining reader.old) (R.remaining reader.new) (W.contents writer.old) (W.contents writer.new)) }
{
    encode(alloc, profile, true, reader, writer, limit)
}

/// Encodes the one message that a line of JSON spells, without the octets of a length, as
/// [`run_encode`] does. A second line that is not blank ends the run, whatever it has, and the
/// message before it stays written; there has to be a message.
pub fn run_encode_unframed<R: Read, W: Write>(
    alloc: Global,
    profile: Profile,
    reader: &mut R,
    writer: &mut W,
    limit: Limit,
) -> Result<EncodeEnd, RunFault>
    ensures encoded { IfOk result (Encodes false profile limit (R.remaining reader.old) (R.remaining reader.new) (W.contents writer.old) (W.contents writer.new)) }
    ensures fault { IfErr result (FailsToEncode false profile limit (R.remaining reader.old) (R.remaining reader.new) (W.contents writer.old) (W.contents writer.new)) }
{
    encode(alloc, profile, false, reader, writer, limit)
}

/// Encodes messages as frames, or one without its length.
fn encode<R: Read, W: Write>(
    alloc: Global,
    profile: Profile,
    is_framed: bool,
    reader: &mut R,
    writer: &mut W,
    limit: Limit,
) -> Result<EncodeEnd, RunFault>
    ensures encoded { IfOk result (Encodes is_framed profile limit (R.remaining reader.old) (R.remaining reader.new) (W.contents writer.old) (W.contents writer.new)) }
    ensures fault { IfErr result (FailsToEncode is_framed profile limit (R.remaining reader.old) (R.remaining reader.new) (W.contents writer.old) (W.contents writer.new)) }
{
    let mut counted = CountedReader::new(reader);
    let request = EncodeRequest {
        profile,
        limit,
        is_framed,
    };
    list_all::<JsonReader, _, _>(alloc, request, &mut counted, writer)
}
