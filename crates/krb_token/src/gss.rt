//! GSS-API tokens, and the tokens of SPNEGO round them and in them, opened down to the message
//! (RFC 2743, 3.1; RFC 4178, 4.2; RFC 4121, 4.1).

ghost use Rattle.std.specs.Prelude.{◌≡◌, ◌++◌, ◌∷◌, [], IfOk, MatchResult, Ok, Err};
ghost use Rattle.krb_token.specs.Gss.{identified, is_kerberos as is_identifier_of_kerberos, kerberos_opened, message_in, message_tag, unknown_mechanism as unknown};
ghost use Rattle.krb_token.specs.Seen.{IsShort, IsInLayer, fault_of, item_of, opened_of, part_of, path_text};
ghost use Rattle.krb_token.specs.Tokens.{gss_in_spnego, gss_opened, is_ntlm as is_of_ntlm, mechanism_opened, spnego_in_gss, spnego_opened, token_in};
ghost use Rattle.krb_source.specs.declared.layer.Layer.TheVariants.{Gss, Spnego};

use crate::fields::NegToken;
use crate::item::{Item, Part};
use crate::opening::{Found, Opened, message, refused, under};
use crate::path::{TokenFault, TokenPath};
use crate::simple::Simple;
use crate::spnego::read_token;
use krb_der::Why;
use krb_input::Layer;

/// The identifier of Kerberos V5, 1.2.840.113554.1.2.2 (RFC 4121, 4.1).
const KERBEROS: [u8; 9] = [0x2A, 0x86, 0x48, 0x86, 0xF7, 0x12, 0x01, 0x02, 0x02];

/// That of Kerberos V5 as Windows also writes it, 1.2.840.48018.1.2.2 (RFC 4559, 4).
const KERBEROS_OF_WINDOWS: [u8; 9] = [0x2A, 0x86, 0x48, 0x82, 0xF7, 0x12, 0x01, 0x02, 0x02];

/// That of Kerberos V5 from user to user, 1.2.840.113554.1.2.2.3.
const USER_TO_USER: [u8; 10] = [0x2A, 0x86, 0x48, 0x86, 0xF7, 0x12, 0x01, 0x02, 0x02, 0x03];

/// That of SPNEGO, 1.3.6.1.5.5.2 (RFC 4178, 4).
const NEGOTIATION: [u8; 6] = [0x2B, 0x06, 0x01, 0x05, 0x05, 0x02];

/// What each message of NTLM begins with (MS-NLMP, 2.2.1).
const NTLM: [u8; 8] = [0x4E, 0x54, 0x4C, 0x4D, 0x53, 0x53, 0x50, 0x00];

// The layers that may be opened here, from the outermost one on.
static GSS: [Layer; 1] = [Layer::Gss];

static SPNEGO: [Layer; 1] = [Layer::Spnego];

static GSS_IN_SPNEGO: [Layer; 2] = [Layer::Spnego, Layer::Gss];

static SPNEGO_IN_GSS: [Layer; 2] = [Layer::Gss, Layer::Spnego];

static GSS_IN_SPNEGO_IN_GSS: [Layer; 3] = [Layer::Gss, Layer::Spnego, Layer::Gss];

/// Returns what a part that begins with 60 is: a GSS-API token of Kerberos or of SPNEGO.
pub(crate) fn open_gss(part: Part<'_>) -> Opened<'_>
    requires { IsShort part }
    ensures opened { opened_of result ≡ gss_opened (part_of part.entry) }
    ensures layer { IsInLayer result.found }
{
    match read_mechanism(part) {
        Ok(mechanism) => open_mechanism(mechanism),
        Err(fault) => refused(&GSS, fault),
    }
}

/// Returns what follows the identifier of a mechanism.
fn open_mechanism(mechanism: Item<'_>) -> Opened<'_>
    requires { IsShort mechanism.rest }
    ensures opened { opened_of result ≡ mechanism_opened (item_of mechanism.entry) }
    ensures layer { IsInLayer result.found }
{
    if is_kerberos(mechanism.contents.octets) {
        return open_kerberos(&GSS, mechanism.rest);
    }
    if mechanism.contents.octets == NEGOTIATION.as_slice() {
        return open_spnego_in_gss(mechanism.rest);
    }
    unknown_mechanism(&GSS, mechanism)
}

/// Returns what follows the identifier of SPNEGO: a first token.
fn open_spnego_in_gss(part: Part<'_>) -> Opened<'_>
    requires { IsShort part }
    ensures opened { opened_of result ≡ spnego_in_gss (part_of part.entry) part.entry.octets.now }
    ensures layer { IsInLayer result.found }
{
    let Some(tag) = part.octets.first() else {
        let fault = TokenPath::of("SPNEGO").fault(part.place.saturating_sub(1), Why::Missing);
        return refused(&GSS, fault);
    };
    if *tag != 0xA0 {
        return refused(&SPNEGO_IN_GSS, TokenFault::bare(part.place, Why::Tag));
    }
    open_spnego(&SPNEGO_IN_GSS, &GSS_IN_SPNEGO_IN_GSS, NegToken::Init, part)
}

/// Returns what a part is that begins as a token of SPNEGO by itself.
pub(crate) fn open_lone_spnego(neg: NegToken, part: Part<'_>) -> Opened<'_>
    requires { IsShort part }
    ensures opened { opened_of result ≡ spnego_opened (Spnego ∷ []) neg (part_of part.entry) }
    ensures layer { IsInLayer result.found }
{
    open_spnego(&SPNEGO, &GSS_IN_SPNEGO, neg, part)
}

/// Returns what a token of SPNEGO holds: what the token in it does. The layers are those including
/// it, and those including a GSS-API token in it.
fn open_spnego<'a>(
    layers: &'static [Layer],
    inside: &'static [Layer],
    neg: NegToken,
    part: Part<'a>,
) -> Opened<'a>
    requires short { IsShort part }
    requires inside { inside.now ≡ layers.now ++ (Gss ∷ []) }
    ensures opened { opened_of result ≡ spnego_opened layers.now neg (part_of part.entry) }
    ensures layer { IsInLayer result.found }
{
    let path = TokenPath::of(neg.path());
    let end = part.place + part.octets.len() as u32;
    let token = match read_token(neg, part) {
        Ok(token) => token,
        Err(fault) => return refused(layers, fault),
    };
    match token {
        Some(token) => open_token(layers, inside, path, token),
        None => refused(layers, path.fault(end.saturating_sub(1), Why::Missing)),
    }
}

/// Returns what the token in a token of SPNEGO is: a GSS-API token of Kerberos, a bare message, as in
/// DCE, or a message of NTLM.
fn open_token<'a>(
    layers: &'static [Layer],
    inside: &'static [Layer],
    path: TokenPath,
    part: Part<'a>,
) -> Opened<'a>
    requires short { IsShort part }
    requires inside { inside.now ≡ layers.now ++ (Gss ∷ []) }
    ensures opened { opened_of result ≡ token_in layers.now (path_text path) (part_of part.entry) part.entry.octets.now }
    ensures layer { IsInLayer result.found }
{
    let Some(tag) = part.octets.first() else {
        return refused(
            layers,
            path.fault(part.place.saturating_sub(1), Why::Missing),
        );
    };
    if *tag == 0x60 {
        return open_gss_in_spnego(inside, part);
    }
    if matches!(*tag, 0x6E | 0x6F | 0x7E) {
        return message(layers, part);
    }
    if is_ntlm(part.octets) {
        return under(layers, Found::Ntlm { place: part.place });
    }
    refused(layers, path.fault(part.place, Why::Tag))
}

/// Returns what a part that begins with 60 is, in a token of SPNEGO: a GSS-API token of Kerberos.
fn open_gss_in_spnego<'a>(layers: &'static [Layer], part: Part<'a>) -> Opened<'a>
    requires { IsShort part }
    ensures opened { opened_of result ≡ gss_in_spnego layers.now (part_of part.entry) }
    ensures layer { IsInLayer result.found }
{
    let mechanism = match read_mechanism(part) {
        Ok(mechanism) => mechanism,
        Err(fault) => return refused(layers, fault),
    };
    if is_kerberos(mechanism.contents.octets) {
        return open_kerberos(layers, mechanism.rest);
    }
    unknown_mechanism(layers, mechanism)
}

/// Returns the identifier of the mechanism of a GSS-API token that a part is, and what follows it,
/// or what is at fault.
fn read_mechanism(part: Part<'_>) -> Result<Item<'_>, TokenFault>
    requires { IsShort part }
    ensures mechanism { MatchResult result (λ item. identified (part_of part.entry) ≡ Ok (item_of item)) (λ fault. identified (part_of part.entry) ≡ Err (fault_of fault)) }
    ensures short { IfOk result (λ item. IsShort item.rest) }
{
    let path = TokenPath::of("GSS");
    let token = part.enter(path, 0x60, true)?.contents;
    token.expect(path, Simple::Identifier.tag())?;
    Simple::Identifier.read(TokenPath::of("GSS.oid"), false, token)
}

/// Returns that the identifier of a mechanism is none of those that may be there.
fn unknown_mechanism<'a>(layers: &'static [Layer], mechanism: Item<'a>) -> Opened<'a>
    ensures opened { opened_of result ≡ unknown layers.now (item_of mechanism.entry) }
    ensures layer { IsInLayer result.found }
{
    let last = mechanism.rest.place.saturating_sub(1);
    refused(layers, TokenPath::of("GSS.oid").fault(last, Why::Range))
}

/// Returns what follows the identifier of Kerberos: two octets, and the message of which they are.
fn open_kerberos<'a>(layers: &'static [Layer], part: Part<'a>) -> Opened<'a>
    requires { IsShort part }
    ensures opened { opened_of result ≡ kerberos_opened layers.now part.entry.place part.entry.octets.now }
    ensures layer { IsInLayer result.found }
{
    let path = TokenPath::of("GSS.token-id");
    let [high, rest @ ..] = part.octets else {
        return refused(
            layers,
            path.fault(part.place.saturating_sub(1), Why::Missing),
        );
    };
    let Some(tag) = tag_of_token(*high) else {
        return refused(layers, path.fault(part.place, Why::Range));
    };
    let [low, octets @ ..] = rest else {
        return refused(layers, path.fault(part.place, Why::Missing));
    };
    if *low != 0 {
        return refused(layers, path.fault(part.place + 1, Why::Range));
    }
    let place = part.place + 2;
    open_message(layers, tag, Part { place, octets })
}

/// Returns that a part is a message, if it begins with a tag.
fn open_message<'a>(layers: &'static [Layer], tag: u8, part: Part<'a>) -> Opened<'a>
    requires { IsShort part }
    ensures opened { opened_of result ≡ message_in layers.now tag part.entry.place part.entry.octets.now }
    ensures layer { IsInLayer result.found }
{
    let Some(first) = part.octets.first() else {
        let path = TokenPath::of("GSS.message");
        return refused(
            layers,
            path.fault(part.place.saturating_sub(1), Why::Missing),
        );
    };
    if *first != tag {
        return refused(layers, TokenFault::bare(part.place, Why::Tag));
    }
    message(layers, part)
}

/// Returns the identifier octet of the message in a token of Kerberos, by the token's first octet.
fn tag_of_token(high: u8) -> Option<u8>
    ensures { result ≡ message_tag high }
{
    match high {
        1 => Some(0x6E),
        2 => Some(0x6F),
        3 => Some(0x7E),
        _ => None,
    }
}

/// Returns whether this is an identifier of Kerberos V5.
fn is_kerberos(identifier: &[u8]) -> bool
    ensures { result ≡ is_identifier_of_kerberos identifier.now }
{
    identifier == KERBEROS.as_slice()
        || identifier == KERBEROS_OF_WINDOWS.as_slice()
        || identifier == USER_TO_USER.as_slice()
}

/// Returns whether octets begin as a message of NTLM.
pub(crate) fn is_ntlm(octets: &[u8]) -> bool
    ensures { result ≡ is_of_ntlm octets.now }
{
    octets.starts_with(&NTLM)
}
