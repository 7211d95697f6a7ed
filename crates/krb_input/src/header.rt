//! The words before a token in HTTP's header fields (RFC 4559).

ghost use Rattle.std.specs.Prelude.{◌≡◌};
ghost use Rattle.krb_input.specs.Headers.{after_arrow, after_field, after_name, after_scheme_name, after_space, after_word, field_of, is_space, lower_case, token_of};
ghost use Rattle.krb_input.specs.inner.Results.{IsPart};

use crate::characters::skip_blanks;

/// Returns the lower case of a letter, or any other octet itself.
fn lower_case(octet: u8) -> u8
    ensures { result ≡ lower_case octet }
{
    if b'A' <= octet && octet <= b'Z' {
        octet + 32
    } else {
        octet
    }
}

/// Returns what follows a word, whose letters may be of either case, at the beginning of a text.
pub(crate) fn after_word<'a>(word: &str, text: &'a [u8]) -> Option<&'a [u8]>
    ensures { IsPart (after_word word.now text.now) result }
{
    let mut letters = word.as_bytes();
    let mut rest = text;
    while let [letter, other_letters @ ..] = letters {
        let [octet, others @ ..] = rest else {
            return None;
        };
        if lower_case(*octet) != *letter {
            return None;
        }
        letters = other_letters;
        rest = others;
    }
    Some(rest)
}

/// Returns whether an octet is a blank that ends no line.
fn is_space(octet: u8) -> bool
    ensures { result ≡ is_space octet }
{
    octet == b' ' || octet == b'\t'
}

/// Returns what follows `>` or `<` and blanks, as curl -v has before a field, or all of a text. The
/// first of the blanks ends no line.
fn after_arrow(text: &[u8]) -> &[u8]
    ensures { result.now ≡ after_arrow text.now }
{
    match text {
        [arrow, blank, others @ ..] if (*arrow == b'>' || *arrow == b'<') && is_space(*blank) => {
            skip_blanks(others)
        }
        _ => text,
    }
}

/// Returns what follows the blanks that a text begins with and an arrow: where a field or a scheme
/// may begin.
pub(crate) fn field_of(text: &[u8]) -> &[u8]
    ensures { result.now ≡ field_of text.now }
{
    after_arrow(skip_blanks(text))
}

/// Returns what follows the name of a field that has a token, if the text begins with one.
fn after_name(text: &[u8]) -> Option<&[u8]>
    ensures { IsPart (after_name text.now) result }
{
    if let Some(value) = after_word("authorization:", text) {
        return Some(value);
    }
    if let Some(value) = after_word("proxy-authorization:", text) {
        return Some(value);
    }
    if let Some(value) = after_word("www-authenticate:", text) {
        return Some(value);
    }
    after_word("proxy-authenticate:", text)
}

/// Returns what follows the name of a field and blanks, or all of a text.
fn after_field(text: &[u8]) -> &[u8]
    ensures { result.now ≡ after_field text.now }
{
    match after_name(text) {
        Some(value) => skip_blanks(value),
        None => text,
    }
}

/// Returns what follows the name of a scheme that has a token, if the text begins with one.
pub(crate) fn after_scheme_name(text: &[u8]) -> Option<&[u8]>
    ensures { IsPart (after_scheme_name text.now) result }
{
    if let Some(others) = after_word("negotiate", text) {
        return Some(others);
    }
    after_word("kerberos", text)
}

/// Returns what follows a blank that ends no line, if the text begins with it.
fn after_space(text: &[u8]) -> Option<&[u8]>
    ensures { IsPart (after_space text.now) result }
{
    match text {
        [first, others @ ..] if is_space(*first) => Some(others),
        _ => None,
    }
}

/// Returns the token of a header field, if a text is one, maybe after blanks and an arrow.
pub(crate) fn token_of(text: &[u8]) -> Option<&[u8]>
    ensures { IsPart (token_of text.now) result }
{
    let others = after_scheme_name(after_field(field_of(text)))?;
    after_space(others)
}
