//! Messages as JSON, and lines of JSON as messages.

use super::octets::{KRB_ERROR, message_of};
use krb_convert::{
    DecodeEnd, EncodeEnd, run_decode, run_decode_unframed, run_encode, run_encode_unframed,
};
use krb_der::{Memory, Profile};
use krb_frame::Limit;
use krb_json::{LineFault, Scratch, put_text, read_line, unencrypted_path};
use krb_run::RunFault;
use std::alloc::Global;
use std::io;
use std::io::{ErrorKind, Write};

/// A call that turns a message into JSON, or JSON into a message, or says what keeps it from that.
#[derive(Clone, Copy)]
pub(super) enum Conversion {
    PutText,
    UnencryptedPath,
    ReadLine,
    ReadFault,
    Decode,
    DecodeUnframed,
    Encode,
    EncodeUnframed,
}

/// The KRB-ERROR as a line of JSON.
const LINE: &[u8] =
    b"{\"KRB-ERROR\":{\"pvno\":5,\"msg-type\":30,\"stime\":\"20000101000000Z\",\"susec\":0,\"error-code\":25,\"realm\":\"A\",\"sname\":{\"name-type\":2,\"name-string\":[\"h\"]},\"e-data\":\"300b3009a103020102a2020400\"}}\n";

/// A line that is at fault, and where.
const WRONG: &[u8] = b"{\"AP-REP\":{\"pvno\":5,\"msg-type\":15,\"enc-part\":{\"etype\":\"18\"}}}";

const FAULT: &str = "AP-REP.enc-part.etype";

/// An AP-REP whose enc-part has encryption type 0.
const CLEAR: &[u8] =
    b"\x6F\x1D\x30\x1B\xA0\x03\x02\x01\x05\xA1\x03\x02\x01\x0F\xA2\x0F\x30\x0D\xA0\x03\x02\x01\x00\xA2\x06\x04\x04\xDE\xAD\xBE\xEF";

/// A writer that accepts octets that it knows, and no others. It allocates nothing.
#[derive(Drop)]
pub(super) struct Known {
    pub(super) rest: &'static [u8],
}

impl Write for Known {
    fn write(&mut self, buf: &[u8]) -> io::Result<usize> {
        match self.rest.strip_prefix(buf) {
            Some(rest) => {
                self.rest = rest;
                Ok(buf.len())
            }
            None => Err(io::Error::from(ErrorKind::InvalidData)),
        }
    }

    fn flush(&mut self) -> io::Result<()> {
        Ok(())
    }
}

/// Returns whether a run ended so and wrote all that it has to write.
pub(super) fn is_written<E: PartialEq + Drop>(
    outcome: Result<E, RunFault>,
    wanted: E,
    writer: &Known,
) -> Result<bool, Memory> {
    match outcome {
        Ok(end) => Ok(end == wanted && writer.rest.is_empty()),
        Err(RunFault::Memory) => Err(Memory),
        Err(_) => Ok(false),
    }
}

/// Decodes the KRB-ERROR.
fn decodes(alloc: Global, is_framed: bool) -> Result<bool, Memory> {
    let mut reader = if is_framed {
        KRB_ERROR
    } else {
        message_of(KRB_ERROR)
    };
    let mut writer = Known { rest: LINE };
    let (profile, limit) = (Profile::Lenient, Limit::DEFAULT);
    let outcome = if is_framed {
        run_decode(alloc, profile, &mut reader, &mut writer, limit)
    } else {
        run_decode_unframed(alloc, profile, &mut reader, &mut writer, limit)
    };
    is_written(outcome, DecodeEnd::Clean, &writer)
}

/// Encodes its line.
fn encodes(alloc: Global, is_framed: bool) -> Result<bool, Memory> {
    let mut reader = LINE;
    let rest = if is_framed {
        KRB_ERROR
    } else {
        message_of(KRB_ERROR)
    };
    let mut writer = Known { rest };
    let (profile, limit) = (Profile::Lenient, Limit::DEFAULT);
    let outcome = if is_framed {
        run_encode(alloc, profile, &mut reader, &mut writer, limit)
    } else {
        run_encode_unframed(alloc, profile, &mut reader, &mut writer, limit)
    };
    is_written(outcome, EncodeEnd::Clean, &writer)
}

/// Returns whether a line spells the KRB-ERROR, or whether its fault has the path.
fn reads(alloc: Global, line: &[u8]) -> Result<bool, Memory> {
    let mut scratch = Scratch::new(alloc);
    match read_line(alloc, &mut scratch, Profile::Lenient, 1000, line) {
        Ok(octets) => Ok(octets.as_slice() == message_of(KRB_ERROR)),
        Err(LineFault::At(fault)) => Ok(fault.path.as_str() == FAULT),
        Err(LineFault::Memory) => Err(Memory),
        Err(_) => Ok(false),
    }
}

/// Returns whether the text of the KRB-ERROR is its line.
fn puts(alloc: Global, octets: &[u8]) -> Result<bool, Memory> {
    if octets.len() > 1000 {
        return Ok(false);
    }
    let mut text = put_text(alloc, Vec::new(alloc), octets)?;
    text.push(b'\n')?;
    Ok(text.as_slice() == LINE)
}

/// Returns whether the AP-REP that is not encrypted is found.
fn finds(alloc: Global) -> Result<bool, Memory> {
    match unencrypted_path(alloc, CLEAR)? {
        Some(path) => Ok(path.as_str() == "AP-REP.enc-part"),
        None => Ok(false),
    }
}

impl Conversion {
    /// Returns whether the call returns what it has to return.
    pub(super) fn make(self, alloc: Global) -> Result<bool, Memory> {
        match self {
            Conversion::PutText => puts(alloc, message_of(KRB_ERROR)),
            Conversion::UnencryptedPath => finds(alloc),
            Conversion::ReadLine => reads(alloc, LINE),
            Conversion::ReadFault => reads(alloc, WRONG),
            Conversion::Decode => decodes(alloc, true),
            Conversion::DecodeUnframed => decodes(alloc, false),
            Conversion::Encode => encodes(alloc, true),
            Conversion::EncodeUnframed => encodes(alloc, false),
        }
    }
}
