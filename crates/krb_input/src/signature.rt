//! What files begin with.

ghost use Rattle.std.specs.Prelude.{◌≡◌, map};
ghost use Rattle.krb_input.specs.Signatures.{first_signed as first_of_signatures, signature_of, signatures as all_signatures, signed as hint_of_signature};

use crate::hint::Hint;

/// What files of a kind begin with, and what they are.
#[derive(Clone, Copy)]
struct Signature {
    octets: &'static [u8],
    hint: Hint,
}

macro_rules! signatures {
    ($($octets:literal $hint:ident),* $(,)?) => {
        [$(Signature { octets: $octets, hint: Hint::$hint }),*]
    };
}

static SIGNATURES: [Signature; 26] = signatures![
    b"\x1F\x8B" Gzip,
    b"\xFD7zXZ\x00" Xz,
    b"\x28\xB5\x2F\xFD" Zstd,
    b"BZh" Bzip2,
    b"\x05\x02" Keytab,
    b"\x05\x03" Ccache,
    b"\x05\x04" Ccache,
    b"\x05\x01" VersionOne,
    b"\xA1\xB2\xC3\xD4" Capture,
    b"\xD4\xC3\xB2\xA1" Capture,
    b"\xA1\xB2\x3C\x4D" Capture,
    b"\x4D\x3C\xB2\xA1" Capture,
    b"\x0A\x0D\x0D\x0A" Capture,
    b"\xA1\xB2\xCD\x34" ModifiedPcap,
    b"\x34\xCD\xB2\xA1" ModifiedPcap,
    b"snoop\x00\x00\x00" Snoop,
    b"-----BEGIN" Pem,
    b"SQLite" Sqlite,
    b"GET " Http,
    b"HEAD " Http,
    b"POST " Http,
    b"PUT " Http,
    b"DELETE " Http,
    b"CONNECT " Http,
    b"OPTIONS " Http,
    b"HTTP/" Http,
];

/// Returns the signatures.
fn signatures() -> &'static [Signature]
    ensures { map signature_of result.now ≡ all_signatures }
{
    &SIGNATURES
}

/// Returns what the file is whose first octets these are, if they say so.
pub(crate) fn signed(first: &[u8]) -> Option<Hint>
    ensures { result ≡ hint_of_signature first.now }
{
    first_signed(signatures(), first)
}

/// Returns what files are of the first of signatures with which octets begin.
fn first_signed(signatures: &[Signature], first: &[u8]) -> Option<Hint>
    ensures { result ≡ first_of_signatures (map signature_of signatures.now) first.now }
{
    for signature in signatures {
        if first.starts_with(signature.octets) {
            return Some(signature.hint);
        }
    }
    None
}
