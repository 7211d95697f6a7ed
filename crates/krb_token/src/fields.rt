//! The fields of SPNEGO's tokens (RFC 4178, 4.2; MS-SPNG, 2.2.1).

ghost use Rattle.std.specs.Prelude.{◌≡◌};
ghost use Rattle.krb_token.specs.Seen.{fields_of};
ghost use Rattle.krb_token.specs.Spnego.{neg_fields, neg_hints as hints_of_grammar, neg_path, neg_tag};

use crate::simple::Simple;

/// What a field holds.
#[derive(Clone, Copy)]
pub(crate) enum Holds {
    /// A type.
    One(Simple),
    /// A SEQUENCE OF a type.
    Many(Simple),
    /// The token of a mechanism: an OCTET STRING.
    Token,
    /// An OCTET STRING or NegHints.
    OctetsOrHints,
}

/// A field of a SEQUENCE, which may be left out.
#[derive(Clone, Copy)]
pub(crate) struct Field {
    /// Its identifier octet.
    pub tag: u8,
    /// Its path.
    pub path: &'static str,
    /// What it holds.
    pub holds: Holds,
}

/// A token of SPNEGO.
#[derive(Clone, Copy)]
pub enum NegToken {
    /// NegTokenInit, the first one, or NegTokenInit2, as a server sends it.
    Init,
    /// NegTokenResp.
    Response,
}

macro_rules! fields {
    ($($tag:literal $path:literal $holds:expr),* $(,)?) => {
        [$(Field { tag: $tag, path: $path, holds: $holds }),*]
    };
}

static INIT: [Field; 5] = fields![
    0xA0 "SPNEGO.mechTypes" Holds::Many(Simple::Identifier),
    0xA1 "SPNEGO.reqFlags" Holds::One(Simple::Flags),
    0xA2 "SPNEGO.mechToken" Holds::Token,
    0xA3 "SPNEGO.mechListMIC" Holds::OctetsOrHints,
    0xA4 "SPNEGO.mechListMIC" Holds::One(Simple::Octets),
];

static RESPONSE: [Field; 4] = fields![
    0xA0 "SPNEGO.negState" Holds::One(Simple::State),
    0xA1 "SPNEGO.supportedMech" Holds::One(Simple::Identifier),
    0xA2 "SPNEGO.responseToken" Holds::Token,
    0xA3 "SPNEGO.mechListMIC" Holds::One(Simple::Octets),
];

static HINTS: [Field; 2] = fields![
    0xA0 "SPNEGO.mechListMIC.hintName" Holds::One(Simple::Text),
    0xA1 "SPNEGO.mechListMIC.hintAddress" Holds::One(Simple::Octets),
];

/// Returns the fields of NegHints, in order.
pub(crate) fn neg_hints() -> &'static [Field]
    ensures { fields_of result.now ≡ hints_of_grammar }
{
    &HINTS
}

impl NegToken {
    /// Returns its fields, in order.
    pub(crate) fn fields(self) -> &'static [Field]
        ensures { fields_of result.now ≡ neg_fields self }
    {
        match self {
            NegToken::Init => &INIT,
            NegToken::Response => &RESPONSE,
        }
    }

    /// Returns its identifier octet.
    pub(crate) fn tag(self) -> u8
        ensures { result ≡ neg_tag self }
    {
        match self {
            NegToken::Init => 0xA0,
            NegToken::Response => 0xA1,
        }
    }

    /// Returns the path of the token in it.
    pub(crate) fn path(self) -> &'static str
        ensures { result.now ≡ neg_path self }
    {
        match self {
            NegToken::Init => "SPNEGO.mechToken",
            NegToken::Response => "SPNEGO.responseToken",
        }
    }
}
