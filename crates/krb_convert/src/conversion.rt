//! Messages to lines of JSON, and back, in frames or alone.

ghost use Rattle.std.specs.Prelude.{IfErr, IfOk};
ghost use Rattle.krb_convert.specs.Encoding.{FailsToEncode};
ghost use Rattle.krb_convert.specs.Conversions.{DecodesBy, EncodesBy, FailsToDecodeBy, is_framed};

use crate::decode_run::{DecodeEnd, run_decode};
use crate::encode_run::{EncodeEnd, run_encode, run_encode_unframed};
use crate::whole_run::run_decode_unframed;
use krb_der::Profile;
use krb_frame::Limit;
use krb_run::RunFault;
use krb_words::Framing;
use std::alloc::Global;
use std::io::{Read, Write};

/// Turns messages of a profile into lines of JSON, by [`run_decode`] if each is in a frame of at most
/// the limit's octets, and by [`run_decode_unframed`] if there is one alone. Errors are those of
/// these.
pub fn decode<R: Read, W: Write>(
    alloc: Global,
    framing: Framing,
    profile: Profile,
    reader: &mut R,
    writer: &mut W,
    limit: Limit,
) -> Result<DecodeEnd, RunFault>
    ensures decoded { IfOk result (DecodesBy framing profile limit (R.remaining reader.old) (R.remaining reader.new) (W.contents writer.old) (W.contents writer.new)) }
    ensures fault { IfErr result (FailsToDecodeBy framing profile limit (R.remaining reader.old) (R.remaining reader.new) (W.contents writer.old) (W.contents writer.new)) }
{
    match framing {
        Framing::Framed => run_decode(alloc, profile, reader, writer, limit),
        Framing::Unframed => run_decode_unframed(alloc, profile, reader, writer, limit),
    }
}

/// Turns lines of JSON into messages of a profile, by [`run_encode`] if each is to be in a frame of
/// at most the limit's octets, and by [`run_encode_unframed`] if there is one alone. Errors are those
/// of these.
pub fn encode<R: Read, W: Write>(
    alloc: Global,
    framing: Framing,
    profile: Profile,
    reader: &mut R,
    writer: &mut W,
    limit: Limit,
) -> Result<EncodeEnd, RunFault>
    ensures encoded { IfOk result (EncodesBy framing profile limit (R.remaining reader.old) (R.remaining reader.new) (W.contents writer.old) (W.contents writer.new)) }
    ensures fault { IfErr result (FailsToEncode (is_framed framing) profile limit (R.remaining reader.old) (R.remaining reader.new) (W.contents writer.old) (W.contents writer.new)) }
{
    match framing {
        Framing::Framed => run_encode(alloc, profile, reader, writer, limit),
        Framing::Unframed => run_encode_unframed(alloc, profile, reader, writer, limit),
    }
}
