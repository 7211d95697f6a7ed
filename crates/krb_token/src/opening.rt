//! Octets opened down to the message in them.

ghost use Rattle.std.specs.Prelude.{◌≡◌, ◌^◌, ◌<◌, length};
ghost use Rattle.krb_token.specs.Opened.{Refused, message_under, under as opened_under};
ghost use Rattle.krb_token.specs.Seen.{IsAll, IsInLayer, IsShort, IsShortFound, fault_of, opened_of};
ghost use Rattle.krb_token.specs.Tokens.{opened};

use crate::fields::NegToken;
use crate::frame::open_frame;
use crate::gss::{is_ntlm, open_gss, open_lone_spnego};
use crate::item::Part;
use crate::path::{TokenFault, TokenPath};
use krb_der::Refusal;
use krb_input::Layer;

/// What octets were opened to: the layers that were opened, from the outermost one on, and what was
/// found in the last of them.
#[derive(Clone, Copy)]
pub struct Opened<'a> {
    /// The layers.
    pub layers: &'static [Layer],
    /// What was found.
    pub found: Found<'a>,
}

/// What was found in octets.
#[derive(Clone, Copy)]
pub enum Found<'a> {
    /// The octets of a message, which are not judged yet, and the place of the first of them. In a
    /// GSS-API token and in one of SPNEGO they begin with a tag that may be there.
    Message {
        place: u32,
        octets: &'a [u8],
    },
    /// All octets, of a Ticket (RFC 4120, 5.3), which is not judged yet.
    Ticket(&'a [u8]),
    /// A message of NTLM, and the place of its first octet.
    Ntlm {
        place: u32,
    },
    /// An octet of the last layer is at fault, and the path of what it is in, if that has one.
    Refused {
        refusal: Refusal,
        path: Option<TokenPath>,
    },
}

/// Returns what octets are: a frame if they begin with 00, a GSS-API token with 60, a token of
/// SPNEGO with A0 or A1, a Ticket with 61, a message of NTLM with `NTLMSSP` and 00, and else a
/// message by itself; and what is in the layers. Places count from the first of the octets. It
/// allocates nothing.
pub fn open(octets: &[u8]) -> Opened<'_>
    requires { length octets.now < 2 ^ 31 }
    ensures opened { opened_of result ≡ opened octets.now }
    ensures short { IsShortFound result.found }
    ensures ticket { IsAll octets.now result.found }
{
    let all = Part { place: 0, octets };
    match octets {
        [0x00, ..] => open_frame(octets),
        [0x60, ..] => open_gss(all),
        [0xA0, ..] => open_lone_spnego(NegToken::Init, all),
        [0xA1, ..] => open_lone_spnego(NegToken::Response, all),
        [0x61, ..] => under(&[], Found::Ticket(octets)),
        _ if is_ntlm(octets) => under(&[], Found::Ntlm { place: 0 }),
        _ => message(&[], all),
    }
}

/// Returns that this was found under layers.
pub(crate) fn under<'a>(layers: &'static [Layer], found: Found<'a>) -> Opened<'a>
    ensures layers { result.layers.now ≡ layers.now }
    ensures found { result.found ≡ found.entry }
{
    Opened { layers, found }
}

/// Returns that a part is a message.
pub(crate) fn message<'a>(layers: &'static [Layer], part: Part<'a>) -> Opened<'a>
    requires { IsShort part }
    ensures opened { opened_of result ≡ message_under layers.now part.entry.place part.entry.octets.now }
    ensures layer { IsInLayer result.found }
{
    under(
        layers,
        Found::Message {
            place: part.place,
            octets: part.octets,
        },
    )
}

/// Returns that something is at fault in a layer.
pub(crate) fn refused<'a>(layers: &'static [Layer], fault: TokenFault) -> Opened<'a>
    ensures opened { opened_of result ≡ opened_under layers.now (Refused (fault_of fault)) }
    ensures layer { IsInLayer result.found }
{
    under(
        layers,
        Found::Refused {
            refusal: fault.refusal,
            path: fault.path,
        },
    )
}
