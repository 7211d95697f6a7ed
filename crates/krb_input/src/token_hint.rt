//! Tokens and headers that hold no message of Kerberos, or may hold none, by their first octets.

ghost use Rattle.std.specs.Prelude.{◌≡◌, drop, is_some};
ghost use Rattle.krb_input.specs.TokenHints.{begins_field, begins_other_scheme, begins_word, framed_token, has_none, has_state_alone, has_types_alone, identified, in_token, is_header, is_without_token, lacks_token, lacks_token_by, lacks_token_in, named_token, only_field, refused_by as refused_by_command, refused_message, token_of_filler, token_of_identifier, unframed_token};
ghost use Rattle.krb_input.specs.Headers.{after_scheme_name};

use crate::characters::skip_blanks;
use crate::header::{after_scheme_name, after_word, field_of};
use crate::hint::Hint;
use crate::source_kind::SourceKind;

/// Returns the octets from a place on, or none if there are fewer.
fn from_place(place: usize, octets: &[u8]) -> &[u8]
    ensures { result.now ≡ drop place octets.now }
{
    let start = place.min(octets.len());
    &octets[start..]
}

/// Returns what follows the tag and the length of a token of GSS-API (RFC 2743, 3.1).
fn in_token(octets: &[u8]) -> &[u8]
    ensures { result.now ≡ in_token octets.now }
{
    match octets {
        [tag, length, others @ ..] if *tag == 0x60 => {
            from_place(usize::from(length.saturating_sub(0x80)), others)
        }
        _ => &[],
    }
}

/// Returns the token of an identifier (RFC 1964, 1.2), if it holds no message or is one of IAKERB.
fn token_of_identifier(high: u8, low: u8) -> Option<Hint>
    ensures { result ≡ token_of_identifier high low }
{
    if high == 0x01 && low == 0x01 {
        Some(Hint::MicToken)
    } else if high == 0x02 && low == 0x01 {
        Some(Hint::WrapToken)
    } else if high == 0x05 && low == 0x01 {
        Some(Hint::Iakerb)
    } else {
        None
    }
}

/// Returns the same of the octets that begin with the identifier.
fn identified(octets: &[u8]) -> Option<Hint>
    ensures { result ≡ identified octets.now }
{
    match octets {
        [high, low, ..] => token_of_identifier(*high, *low),
        _ => None,
    }
}

/// Returns the same of what follows the tag and the length of a token.
fn framed_token(octets: &[u8]) -> Option<Hint>
    ensures { result ≡ framed_token octets.now }
{
    if octets.starts_with(b"\x06\x06\x2B\x06\x01\x05\x02\x05") {
        Some(Hint::Iakerb)
    } else if octets.starts_with(b"\x06\x09\x2A\x86\x48\x86\xF7\x12\x01\x02\x02") {
        identified(from_place(11, octets))
    } else {
        None
    }
}

/// Returns the token that protects a message, by its first octet and by those after its flags (RFC
/// 4121, 4.2.6).
fn token_of_filler(first: u8, filler: &[u8]) -> Option<Hint>
    ensures { result ≡ token_of_filler first filler.now }
{
    if first == 0x05 && filler.starts_with(b"\xFF") {
        Some(Hint::WrapToken)
    } else if first == 0x04 && filler.starts_with(b"\xFF\xFF\xFF\xFF\xFF") {
        Some(Hint::MicToken)
    } else {
        None
    }
}

/// Returns the same of the octets of a token.
fn unframed_token(octets: &[u8]) -> Option<Hint>
    ensures { result ≡ unframed_token octets.now }
{
    match octets {
        [first, second, flags, filler @ ..] if *second == 0x04 && *flags < 8 => {
            token_of_filler(*first, filler)
        }
        _ => None,
    }
}

/// Returns what octets are that begin a token of GSS-API which holds no message, or one of IAKERB.
pub(crate) fn named_token(octets: &[u8]) -> Option<Hint>
    ensures { result ≡ named_token octets.now }
{
    unframed_token(octets).or(framed_token(in_token(octets)))
}

/// Returns whether one field with a tag is all that so many octets have.
fn only_field(tag: u8, size: usize, octets: &[u8]) -> bool
    ensures { result ≡ only_field tag size octets.now }
{
    match octets {
        [first, length, ..] => *first == tag && size == usize::from(*length) + 2,
        _ => false,
    }
}

/// Returns whether so many octets are the fields of a NegTokenInit without its token (RFC 4178,
/// 4.2.1), as far as their lengths show that.
fn has_types_alone(size: usize, fields: &[u8]) -> bool
    ensures { result ≡ has_types_alone size fields.now }
{
    size == 0 || only_field(0xA0, size, fields)
}

/// Returns whether so many octets are the fields of a NegTokenResp without its token (RFC 4178,
/// 4.2.2), as far as their lengths show that.
fn has_state_alone(size: usize, fields: &[u8]) -> bool
    ensures { result ≡ has_state_alone size fields.now }
{
    size == 0
        || only_field(0xA0, size, fields)
        || only_field(0xA1, size, fields)
        || fields.starts_with(b"\xA0\x03")
            && only_field(0xA1, size.saturating_sub(5), from_place(5, fields))
}

/// Returns the same of the fields of either token, by the tag of its choice.
fn lacks_token_by(choice: u8, size: usize, fields: &[u8]) -> bool
    ensures { result ≡ lacks_token_by choice size fields.now }
{
    choice == 0xA0 && has_types_alone(size, fields)
        || choice == 0xA1 && has_state_alone(size, fields)
}

/// Returns whether octets begin a token of SPNEGO that has no token of a mechanism.
fn lacks_token(octets: &[u8]) -> bool
    ensures { result ≡ lacks_token octets.now }
{
    match octets {
        [choice, length, tag, size, fields @ ..] => {
            *tag == 0x30
                && usize::from(*length) == usize::from(*size) + 2
                && *length < 0x80
                && lacks_token_by(*choice, usize::from(*size), fields)
        }
        _ => false,
    }
}

/// Returns the same, or whether they begin a token of GSS-API with such a one.
fn lacks_token_in(octets: &[u8]) -> bool
    ensures { result ≡ lacks_token_in octets.now }
{
    let inside = in_token(octets);
    lacks_token(octets)
        || inside.starts_with(b"\x06\x06\x2B\x06\x01\x05\x05\x02")
            && lacks_token(from_place(8, inside))
}

/// Returns whether a text begins with a word, whose letters may be of either case.
fn begins_word(word: &str, text: &[u8]) -> bool
    ensures { result ≡ begins_word word.now text.now }
{
    match after_word(word, text) {
        Some(_) => true,
        None => false,
    }
}

/// Returns whether a text begins as the name of a field of HTTP that may have a token.
fn begins_field(text: &[u8]) -> bool
    ensures { result ≡ begins_field text.now }
{
    begins_word("authoriz", text)
        || begins_word("www-auth", text)
        || begins_word("proxy-auth", text)
}

/// Returns whether a text begins with a scheme that has no token of Kerberos.
fn begins_other_scheme(text: &[u8]) -> bool
    ensures { result ≡ begins_other_scheme text.now }
{
    begins_word("ntlm ", text)
        || begins_word("basic ", text)
        || begins_word("digest ", text)
        || begins_word("bearer ", text)
}

/// Returns whether a text is empty.
fn has_none(text: &[u8]) -> bool
    ensures { result ≡ has_none text.now }
{
    match text {
        [] => true,
        _ => false,
    }
}

/// Returns whether a text is the name of a scheme with nothing but blanks after it.
fn is_without_token(text: &[u8]) -> bool
    ensures { result ≡ is_without_token (after_scheme_name text.now) }
{
    match after_scheme_name(text) {
        Some(others) => has_none(skip_blanks(others)),
        None => false,
    }
}

/// Returns whether a text begins as a header of HTTP that may have no token.
fn is_header(text: &[u8]) -> bool
    ensures { result ≡ is_header text.now }
{
    begins_field(text) || begins_other_scheme(text) || is_without_token(text)
}

/// Returns what octets may be that are refused as a message.
fn refused_message(first: &[u8]) -> Option<Hint>
    ensures { result ≡ refused_message first.now }
{
    if is_header(field_of(first)) {
        Some(Hint::Header)
    } else if lacks_token_in(first) {
        Some(Hint::Negotiation)
    } else {
        None
    }
}

/// Returns what may be said of octets that a command refused, to which no other command leads.
pub(crate) fn refused_by(used: SourceKind, first: &[u8]) -> Option<Hint>
    ensures { result ≡ refused_by_command used first.now }
{
    match used {
        SourceKind::Message => refused_message(first),
        _ => None,
    }
}
