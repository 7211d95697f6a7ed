//! Runs that write messages as lines of JSON.

ghost use Rattle.std.specs.Prelude.{IfErr, IfOk};
ghost use Rattle.krb_convert.specs.Decoding.{Decodes, FailsToDecode};

use crate::json_lines::{DecodeRequest, JsonLister};
use krb_der::{Profile, Refusal};
use krb_frame::Limit;
use krb_run::{CountedReader, RunFault, list_all};
use std::alloc::Global;
use std::io::{Read, Write};

/// How a run ends that decoded messages.
#[derive(PartialEq, Eq, Debug, Drop)]
pub enum DecodeEnd {
    /// All was read, and each message has its line.
    Clean,
    /// Octets are refused, after a number of messages.
    Refused {
        /// The number of messages, each of which has its line.
        messages: u64,
        /// At which place and why. Places of a stream are those of its last frame, from 0.
        refusal: Refusal,
        /// The path of the field at fault, such as `AP-REP.pvno`.
        path: Option<String>,
    },
    /// A message has something that is not encrypted where it should be, and has no line.
    Unencrypted {
        /// The number of the message, from 1.
        message: u64,
        /// The path of the first EncryptedData of encryption type 0, such as `KRB-CRED.enc-part`.
        path: String,
    },
}

/// Decodes a stream of framed messages (RFC 4120, 7.2.2) of a profile: writes a line of JSON for
/// each message. The first octet that is refused ends the run, and so does the first message that
/// has an EncryptedData of encryption type 0, which encrypts nothing: that message is not written, and
/// nothing after it is looked at. Frames of more than `limit` octets are refused. The reader is
/// asked at most 2^40 times, for 64 KiB each, and the lines of what came are written before it is
/// asked again. It is not asked again after an error, its end, or what ended the run. If a read
/// fails, the lines of all messages that were read are written, and if memory runs out, the first
/// octets of these.
pub fn run_decode<R: Read, W: Write>(
    alloc: Global,
    profile: Profile,
    reader: &mut R,
    writer: &mut W,
    limit: Limit,
) -> Result<DecodeEnd, RunFault>
    ensures decoded { IfOk result (Decodes profile limit (R.remaining reader.old) (R.remaining reader.new) (W.contents writer.old) (W.contents writer.new)) }
    ensures fault { IfErr result (FailsToDecode profile limit (R.remaining reader.old) (R.remaining reader.new) (W.contents writer.old) (W.contents writer.new)) }
{
    let mut counted = CountedReader::new(reader);
    let request = DecodeRequest { profile, limit };
    list_all::<JsonLister, _, _>(alloc, request, &mut counted, writer)
}
