//! How octets are spelled.

ghost use Rattle.std.specs.Prelude.{◌≡◌};
ghost use Rattle.krb_source.specs.Spellings.{spelling_name};

/// How octets are spelled in an input.
#[derive(Clone, Copy, PartialEq, Eq, Debug)]
pub enum Spelling {
    /// They are the input itself.
    Octets,
    /// In hexadecimal digits, with or without marks between them.
    Hex,
    /// As a dump: lines of hexadecimal after their offsets.
    Dump,
    /// In base64 (RFC 4648, section 4).
    Base64,
}

impl Spelling {
    /// Returns its name, in lower case.
    pub fn name(self) -> &'static str
        ensures { result.now ≡ spelling_name self }
    {
        match self {
            Spelling::Octets => "octets",
            Spelling::Hex => "hex",
            Spelling::Dump => "dump",
            Spelling::Base64 => "base64",
        }
    }
}
