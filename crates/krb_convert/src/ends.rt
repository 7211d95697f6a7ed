//! What is said of a source that was not turned into another form to its end, and how its run ends.

ghost use Rattle.std.specs.Prelude.{◌≡◌, ◌++◌, OnOk};
ghost use Rattle.krb_convert.specs.Ends.{decode_end_line, decode_run_end, encode_end_line, encode_run_end, refused_after};

use crate::decode_run::DecodeEnd;
use crate::encode_run::EncodeEnd;
use krb_record::{Form, TextBuffer, put_untold_message_refusal, put_untold_stream_refusal};
use krb_run::RunEnd;
use krb_words::Framing;
use std::alloc::AllocError;

/// Appends the line that says why messages were not decoded to their end; if they were, there is
/// none.
pub fn put_decode_end(
    line: &mut TextBuffer,
    framing: Framing,
    end: &DecodeEnd,
) -> Result<(), AllocError>
    ensures { OnOk result (line.new ≡ line.old ++ decode_end_line framing end.now) }
{
    match end {
        DecodeEnd::Clean => Ok(()),
        DecodeEnd::Refused {
            messages,
            refusal,
            path,
        } => match framing {
            Framing::Framed => {
                put_untold_stream_refusal(
                    line,
                    Form::NamedLines,
                    *messages,
                    *refusal,
                    path.as_deref(),
                )
            }
            Framing::Unframed => {
                put_untold_message_refusal(line, Form::NamedLines, *refusal, path.as_deref())
            }
        },
        DecodeEnd::Unencrypted { message, path } => {
            if framing == Framing::Framed {
                write!(line, "message {message}: ")?;
            }
            write!(line, "{path}: not encrypted, and so not printed\n")
        }
    }
}

/// Appends the line that says why lines were not encoded to their end; if they were, there is none.
pub fn put_encode_end(line: &mut TextBuffer, end: &EncodeEnd) -> Result<(), AllocError>
    ensures { OnOk result (line.new ≡ line.old ++ encode_end_line end.now) }
{
    match end {
        EncodeEnd::Clean => Ok(()),
        EncodeEnd::Fault {
            line: number,
            fault,
        } => write!(line, "line {number}: {fault}\n"),
        EncodeEnd::LongLine { line: number, most } => {
            write!(line, "line {number}: longer than {most} octets\n")
        }
        EncodeEnd::SecondMessage { line: number } => {
            write!(line, "line {number}: a second message\n")
        }
        EncodeEnd::NoMessage => line.push_str("no message\n"),
    }
}

/// Returns how a run ends that was refused after a number of messages.
fn refused_after(messages: u64) -> RunEnd
    ensures { result ≡ refused_after messages }
{
    if messages == 0 {
        RunEnd::RefusedAtOnce
    } else {
        RunEnd::Refused
    }
}

impl DecodeEnd {
    /// Returns how the run ends: refused at once if the first message was.
    pub fn run_end(&self) -> RunEnd
        ensures { result ≡ decode_run_end self.now }
    {
        match self {
            DecodeEnd::Clean => RunEnd::Clean,
            DecodeEnd::Refused { messages, .. } => refused_after(*messages),
            DecodeEnd::Unencrypted { .. } => RunEnd::Refused,
        }
    }
}

impl EncodeEnd {
    /// Returns how the run ends.
    pub fn run_end(&self) -> RunEnd
        ensures { result ≡ encode_run_end self.now }
    {
        match self {
            EncodeEnd::Clean => RunEnd::Clean,
            _ => RunEnd::Refused,
        }
    }
}
