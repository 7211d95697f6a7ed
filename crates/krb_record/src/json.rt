//! Strings of JSON (RFC 8259, section 7).

ghost use Rattle.std.specs.Prelude.{◌≡◌, ◌++◌, ◌<◌, OnOk, true};
ghost use Rattle.std.specs.List.{flat_map, list_all};
ghost use Rattle.std.specs.Str.{IsAscii};
ghost use Rattle.krb_record.specs.Forms.{json_character, json_string, octets_string, shown_octet};
ghost use Rattle.krb_record.specs.inner.Strings.{escaped, is_bare, is_plain_in, is_unescaped, quoted};

use crate::escape::{are_plain, is_plain, put_hex};
use crate::text_buffer::TextBuffer;
use std::alloc::AllocError;

/// Which octets of a string are not escaped; each other is `\x` and two hexadecimal digits.
#[derive(Clone, Copy)]
pub(crate) enum Escape {
    /// Those that do in a line: 21 to 7E but `/`, `@` and `\`.
    Line,
    /// 20 to 7E but `\`.
    Object,
}

/// Appends a character of ASCII.
fn put_character(object: &mut TextBuffer, character: u8) -> Result<(), AllocError>
    requires { character < 128 }
    ensures { OnOk result (object.new ≡ object.old ++ json_character character) }
{
    match character {
        b'"' => object.push_str("\\\""),
        b'\\' => object.push_str("\\\\"),
        _ => object.push_octet(character),
    }
}

/// Appends the characters of a text of ASCII, one after another.
#[inline(never)]
fn put_each_character(object: &mut TextBuffer, text: &[u8]) -> Result<(), AllocError>
    requires { IsAscii text.now }
    ensures { OnOk result (object.new ≡ object.old ++ flat_map json_character text.now) }
{
    for character in text {
        put_character(object, *character)?;
    }
    Ok(())
}

/// Appends a text as a string that needs no escapes.
#[inline(always)]
fn put_bare_text(object: &mut TextBuffer, text: &[u8]) -> Result<(), AllocError>
    requires ascii { IsAscii text.now }
    requires plain { list_all (is_plain_in true) text.now ≡ true }
    ensures { OnOk result (object.new ≡ object.old ++ json_string text.now) }
{
    object.push_between("\"", text, "\"")
}

/// Appends a text of ASCII as a string, one character after another.
#[inline(never)]
fn put_escaped_string(object: &mut TextBuffer, text: &[u8]) -> Result<(), AllocError>
    requires { IsAscii text.now }
    ensures { OnOk result (object.new ≡ object.old ++ json_string text.now) }
{
    object.push_str("\"")?;
    put_each_character(object, text)?;
    object.push_str("\"")
}

/// Appends a text of ASCII as a string. Nearly all texts are plain, and one copy is faster.
pub fn put_string(object: &mut TextBuffer, text: &[u8]) -> Result<(), AllocError>
    requires { IsAscii text.now }
    ensures { OnOk result (object.new ≡ object.old ++ json_string text.now) }
{
    if are_plain(text, true) {
        put_bare_text(object, text)
    } else {
        put_escaped_string(object, text)
    }
}

/// Appends a text as a string that needs no escapes.
#[inline(never)]
pub(crate) fn put_plain_string(object: &mut TextBuffer, text: &str) -> Result<(), AllocError>
    requires { flat_map json_character text.now ≡ text.now }
    ensures { OnOk result (object.new ≡ object.old ++ json_string text.now) }
{
    // An arm for each way to copy names, so that one test chooses it.
    match text.len() {
        8..16 => object.push_three("\"", text, "\""),
        16..=32 => object.push_three("\"", text, "\""),
        _ => object.push_three("\"", text, "\""),
    }
}

/// Returns whether an octet is not escaped.
fn is_unescaped(escape: Escape, octet: u8) -> bool
    ensures { result ≡ is_unescaped escape octet }
{
    match escape {
        Escape::Line => is_plain(octet),
        Escape::Object => 0x20 <= octet && octet <= 0x7E && octet != b'\\',
    }
}

/// Appends an octet of a string.
fn put_octet(object: &mut TextBuffer, escape: Escape, octet: u8) -> Result<(), AllocError>
    ensures { OnOk result (object.new ≡ object.old ++ flat_map json_character (escaped escape octet)) }
{
    if octet == b'"' {
        object.push_str("\\\"")
    } else if is_unescaped(escape, octet) {
        object.push_octet(octet)
    } else {
        object.push_str("\\\\x")?;
        put_hex(object, &[octet])
    }
}

/// Appends the octets of a string, one after another.
#[inline(never)]
fn put_each_octet(object: &mut TextBuffer, escape: Escape, octets: &[u8]) -> Result<(), AllocError>
    ensures { OnOk result (object.new ≡ object.old ++ quoted escape octets.now) }
{
    for octet in octets {
        put_octet(object, escape, *octet)?;
    }
    Ok(())
}

/// Appends fewer than 4 octets, or more than 32, as [`put_quoted`] does.
#[inline(never)]
#[tactic(auto, using(crate::proofs::JsonStrings::quoted_plain, crate::proofs::Escapes::ascii_plain))]
fn put_any(object: &mut TextBuffer, escape: Escape, octets: &[u8]) -> Result<(), AllocError>
    ensures { OnOk result (object.new ≡ object.old ++ quoted escape octets.now) }
{
    if are_plain(octets, true) {
        object.push_ascii(octets)
    } else {
        put_each_octet(object, escape, octets)
    }
}

/// Appends the octets of a string. Nearly all names are plain, and one copy is faster.
#[tactic(auto, using(crate::proofs::JsonStrings::quoted_plain, crate::proofs::Escapes::ascii_plain))]
pub(crate) fn put_quoted(
    object: &mut TextBuffer,
    escape: Escape,
    octets: &[u8],
) -> Result<(), AllocError>
    ensures { OnOk result (object.new ≡ object.old ++ quoted escape octets.now) }
{
    // An arm for each way to look at octets and copy them, so that one test chooses both.
    match octets.len() {
        4..8 if are_plain(octets, true) => object.push_ascii(octets),
        8..16 if are_plain(octets, true) => object.push_ascii(octets),
        16..=32 if are_plain(octets, true) => object.push_ascii(octets),
        4..=32 => put_each_octet(object, escape, octets),
        _ => put_any(object, escape, octets),
    }
}

/// Appends the octets of a string: 20 to 7E but `\` as they are, each other as `\x` and two
/// hexadecimal digits in lower case.
fn put_shown(object: &mut TextBuffer, octets: &[u8]) -> Result<(), AllocError>
    ensures { OnOk result (object.new ≡ object.old ++ flat_map json_character (flat_map shown_octet octets.now)) }
{
    put_each_octet(object, Escape::Object, octets)
}

/// Returns whether no octet is escaped in a string of an object, as of a text with blanks. Each is
/// looked at, which costs less than to stop at the first that is.
fn are_bare(octets: &[u8]) -> bool
    ensures { result ≡ list_all is_bare octets.now }
{
    let mut bare = true;
    for octet in octets {
        bare = bare & is_unescaped(Escape::Object, *octet) & (*octet != b'"');
    }
    bare
}

/// Appends octets as a string that needs no escapes.
fn put_bare_string(object: &mut TextBuffer, octets: &[u8]) -> Result<(), AllocError>
    requires { list_all is_bare octets.now ≡ true }
    ensures { OnOk result (object.new ≡ object.old ++ octets_string octets.now) }
{
    object.push_between("\"", octets, "\"")
}

/// Appends octets as a string, as [`put_shown`] shows them: one after another if one of them is
/// escaped.
#[inline(never)]
fn put_shown_string(object: &mut TextBuffer, octets: &[u8]) -> Result<(), AllocError>
    ensures { OnOk result (object.new ≡ object.old ++ octets_string octets.now) }
{
    if are_bare(octets) {
        return put_bare_string(object, octets);
    }
    object.push_str("\"")?;
    put_shown(object, octets)?;
    object.push_str("\"")
}

/// Appends octets as a string, none of which needs an escape.
#[inline(always)]
#[tactic(auto, using(crate::proofs::Escapes::ascii_plain))]
fn put_bare_octets(object: &mut TextBuffer, octets: &[u8]) -> Result<(), AllocError>
    requires { list_all (is_plain_in true) octets.now ≡ true }
    ensures { OnOk result (object.new ≡ object.old ++ octets_string octets.now) }
{
    object.push_between("\"", octets, "\"")
}

/// Appends fewer than 4 octets, or more than 32, as [`put_octets_string`] does.
#[inline(never)]
fn put_any_string(object: &mut TextBuffer, octets: &[u8]) -> Result<(), AllocError>
    ensures { OnOk result (object.new ≡ object.old ++ octets_string octets.now) }
{
    if are_plain(octets, true) {
        put_bare_octets(object, octets)
    } else {
        put_shown_string(object, octets)
    }
}

/// Appends octets as a string, in which they are as [`put_shown`] has them. Nearly all names are
/// plain, and one copy is faster.
pub(crate) fn put_octets_string(object: &mut TextBuffer, octets: &[u8]) -> Result<(), AllocError>
    ensures { OnOk result (object.new ≡ object.old ++ octets_string octets.now) }
{
    // An arm for each way to look at octets and copy them, so that one test chooses both.
    match octets.len() {
        4..8 if are_plain(octets, true) => put_bare_octets(object, octets),
        8..16 if are_plain(octets, true) => put_bare_octets(object, octets),
        16..=32 if are_plain(octets, true) => put_bare_octets(object, octets),
        4..=32 => put_shown_string(object, octets),
        _ => put_any_string(object, octets),
    }
}
