//! What sources hold, by their first octets.

ghost use Rattle.std.specs.Prelude.{◌≡◌};
ghost use Rattle.krb_input.specs.Sources.{command_for, kind_name, kind_of_octets as kind_without_signature};

use crate::characters::is_text;
use crate::hint::Hint;
use crate::octets::is_marked;
use crate::signature::signed;

/// What a source may hold. Each is the name of a command, which lists it.
#[derive(Clone, Copy, PartialEq, Eq, Debug)]
pub enum SourceKind {
    /// A keytab.
    Keytab,
    /// A credential cache.
    Ccache,
    /// A capture.
    Capture,
    /// One message, maybe as text.
    Message,
    /// A stream of frames.
    Stream,
}

impl SourceKind {
    /// Returns the command's name.
    pub fn name(self) -> &'static str
        ensures { result.now ≡ kind_name self }
    {
        match self {
            SourceKind::Keytab => "keytab",
            SourceKind::Ccache => "ccache",
            SourceKind::Capture => "capture",
            SourceKind::Message => "message",
            SourceKind::Stream => "stream",
        }
    }
}

/// Returns what a source holds, by its first octets. It looks at no more than 16.
pub fn kind_of(first: &[u8]) -> SourceKind
    ensures { result ≡ command_for first.now }
{
    let file = signed(first).and_then(|hint| hint.file());
    file.unwrap_or(kind_of_octets(first))
}

/// Returns what octets hold that begin as no file: a message, if they begin as text or as a token
/// of SPNEGO, and else, or if there are none, a stream.
fn kind_of_octets(first: &[u8]) -> SourceKind
    ensures { result ≡ kind_without_signature first.now }
{
    match first {
        [octet, ..] if is_text(*octet) || *octet == 0xA0 || *octet == 0xA1 || is_marked(first) => {
            SourceKind::Message
        }
        _ => SourceKind::Stream,
    }
}
