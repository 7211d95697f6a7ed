//! The text of a message, from its octets.

ghost use Rattle.std.specs.Prelude.{◌≡◌, ◌^◌, ◌<◌, ◌+◌, ◌≤◌, ◌++◌, ◌∷◌, [], length, true, IfOk, OnOk};
ghost use Rattle.std.specs.Fmt.{signed_decimal};
ghost use Rattle.std.specs.List.{AllByRecursion, list_all};
ghost use Rattle.std.specs.Str.{IsAscii};
ghost use Rattle.hex.specs.Hex.{encode_lower};
ghost use Rattle.json.specs.Token.{number, string};
ghost use Rattle.json.specs.Tree.{json_tokens};
ghost use Rattle.krb_der.specs.Octets.{integer_value};
ghost use Rattle.krb_msg.specs.Nodes.{nodes, term_at};
ghost use Rattle.krb_msg.specs.Shape.{is_unambiguous, are_unambiguous};
ghost use Rattle.krb_msg.specs.Table.{IsNode, IsSlot, fields_from};
ghost use Rattle.krb_msg.specs.Views.{message_der, IsInProfile};
ghost use Rattle.krb_msg.specs.declared.message.Message.{Message};
ghost use Rattle.krb_json.specs.Lines.{message_text};
ghost use Rattle.krb_json.specs.Objects.{bits_json};
ghost use Rattle.krb_json.specs.Spelling.{is_shown_itself, shown, shown_octet};
ghost use Rattle.krb_json.specs.inner.Writing.{Puts, PutsBits, PutsFields, PutsItems, PutsMessage, slot_node};

use crate::hexadecimal::fill_digits;
use json::Writer;
use krb_der::{Memory, Profile, integer_value};
use krb_judge::{Names, message_node};
use krb_msg::grammar::{Form, Slot, form_of, tag_of};
use krb_msg::{Kind, first_item};
use std::alloc::{AllocError, Global};
use std::str;

/// Appends the text of the message whose DER octets are: its JSON (RFC 8259), an object of one
/// member, without blanks.
pub fn put_text(alloc: Global, line: Vec<u8>, octets: &[u8]) -> Result<Vec<u8>, Memory>
    requires { length octets.now < 2 ^ 31 }
    ensures { IfOk result (λ text. (m : Message) → IsInProfile Profile.Lenient m → message_der m ≡ octets.now → text.items ≡ line.items ++ message_text m) }
{
    let [tag, ..] = octets else {
        return Ok(line);
    };
    let Some(kind) = Kind::of_tag(*tag) else {
        return Ok(line);
    };
    let mut out = Writer::new(Vec::with_capacity(alloc, 2 * octets.len() + 512)?);
    put_message(alloc, &mut out, kind, octets)?;
    let mut line = line;
    line.extend_from_slice(out.into_inner().as_slice())?;
    Ok(line)
}

/// Appends the JSON of a message of a kind.
fn put_message(alloc: Global, out: &mut Writer, kind: Kind, octets: &[u8]) -> Result<(), AllocError>
    requires { length octets.now < 2 ^ 31 }
    ensures before { out.new.before ≡ out.old.before }
    ensures written { OnOk result (PutsMessage kind octets.now out.old.tokens out.new.tokens) }
{
    let node = message_node(Profile::Lenient, kind);
    let Some((contents, _rest)) = first_item(tag_of(node), octets) else {
        return Ok(());
    };
    out.begin_object()?;
    out.key(kind.name())?;
    let mut room = Vec::with_capacity(alloc, 2 * octets.len())?;
    put_contents(alloc, &mut room, out, node, Names::of_kind(kind), contents)?;
    out.end_object()
}

/// Appends the JSON of the value of an item that has these contents. Digits are made in the room.
#[cycle(put)]
pub(crate) fn put_contents(
    alloc: Global,
    room: &mut Vec<u8>,
    out: &mut Writer,
    node: u16,
    names: Names,
    contents: &[u8],
) -> Result<(), AllocError>
    requires known { IsNode node }
    requires unambiguous { is_unambiguous (term_at node) ≡ true }
    requires short { length contents.now < 2 ^ 31 }
    ensures before { out.new.before ≡ out.old.before }
    ensures written { OnOk result (Puts (term_at node) names contents.now out.old.tokens out.new.tokens) }
{
    match form_of(node) {
        Form::Integer { .. } => put_number(out, contents),
        Form::Text { .. } => put_shown(alloc, out, contents),
        Form::Octets => put_hex(room, out, contents),
        Form::Time => put_ascii(out, contents),
        Form::Bits { .. } => put_bits(room, out, contents),
        Form::Items { node, .. } => {
            out.begin_array()?;
            put_items(alloc, room, out, node, names, contents)
        }
        Form::Item { node } => match first_item(tag_of(node), contents) {
            Some((inner, _rest)) => put_contents(alloc, room, out, node, names, inner),
            None => Ok(()),
        },
        Form::Fields { fields } => {
            out.begin_object()?;
            put_fields(alloc, room, out, fields, names, 0, contents)
        }
    }
}

/// Appends the JSON of an INTEGER.
fn put_number(out: &mut Writer, contents: &[u8]) -> Result<(), AllocError>
    ensures before { out.new.before ≡ out.old.before }
    ensures written { length contents.now ≤ 5 → OnOk result (out.new.tokens ≡ out.old.tokens ++ number (signed_decimal (integer_value contents.now)) ∷ []) }
{
    if contents.len() <= 5 {
        out.i64(integer_value(contents))
    } else {
        Ok(())
    }
}

/// Appends octets in hexadecimal, as a string whose digits are made in the room.
fn put_hex(room: &mut Vec<u8>, out: &mut Writer, octets: &[u8]) -> Result<(), AllocError>
    requires { length octets.now < 2 ^ 31 }
    ensures before { out.new.before ≡ out.old.before }
    ensures written { OnOk result (out.new.tokens ≡ out.old.tokens ++ string (encode_lower octets.now) ∷ []) }
{
    let count = 2 * octets.len();
    if room.len() < count {
        room.resize(count, 0)?;
    }
    let digits = &mut room.as_mut_slice()[..count];
    fill_digits(digits, octets);
    put_ascii(out, digits)
}

/// Appends octets of ASCII, as a string.
fn put_ascii(out: &mut Writer, octets: &[u8]) -> Result<(), AllocError>
    ensures before { out.new.before ≡ out.old.before }
    ensures written { IsAscii octets.now → OnOk result (out.new.tokens ≡ out.old.tokens ++ string octets.now ∷ []) }
{
    match str::from_utf8(octets) {
        Ok(text) => out.string(text),
        Err(_) => Ok(()),
    }
}

/// Returns whether an octet of a string is shown as itself.
fn is_plain(octet: u8) -> bool
    ensures { result ≡ is_shown_itself octet }
{
    (0x20 <= octet) & (octet <= 0x7E) & (octet != b'\\')
}

/// Appends what shows an octet of a string.
fn push_shown(text: &mut Vec<u8>, octet: u8) -> Result<(), AllocError>
    ensures { OnOk result (text.new.items ≡ text.old.items ++ shown_octet octet) }
{
    if is_plain(octet) {
        text.push(octet)?;
    } else {
        let mut digits = [0; 2];
        let _ = hex::encode_to_slice(&[octet], &mut digits);
        text.extend_from_slice(b"\\x")?;
        text.extend_from_slice(&digits)?;
    }
    Ok(())
}

/// Returns the text that shows the octets of a string.
pub(crate) fn shown(alloc: Global, octets: &[u8]) -> Result<Vec<u8>, AllocError>
    ensures { IfOk result (λ text. text.items ≡ shown octets.now) }
{
    let mut text = Vec::with_capacity(alloc, octets.len())?;
    for octet in octets {
        push_shown(&mut text, *octet)?;
    }
    Ok(text)
}

/// Returns whether all octets of a string are shown as themselves. All are looked at.
fn are_plain(octets: &[u8]) -> bool
    ensures { result ≡ list_all is_shown_itself octets.now }
{
    let mut are = true;
    for octet in octets {
        are &= is_plain(*octet);
    }
    are
}

/// Appends the octets of a string, as a string.
fn put_shown(alloc: Global, out: &mut Writer, octets: &[u8]) -> Result<(), AllocError>
    ensures before { out.new.before ≡ out.old.before }
    ensures written { OnOk result (out.new.tokens ≡ out.old.tokens ++ string (shown octets.now) ∷ []) }
{
    if are_plain(octets) {
        return put_ascii(out, octets);
    }
    let text = shown(alloc, octets)?;
    match str::from_utf8(text.as_slice()) {
        Ok(text) => out.string(text),
        Err(_) => unreachable!(),
    }
}

/// Appends the JSON of a BIT STRING.
fn put_bits(room: &mut Vec<u8>, out: &mut Writer, contents: &[u8]) -> Result<(), AllocError>
    requires { length contents.now < 2 ^ 31 }
    ensures before { out.new.before ≡ out.old.before }
    ensures written { OnOk result (PutsBits contents.now out.old.tokens out.new.tokens) }
{
    let [unused, octets @ ..] = contents else {
        return Ok(());
    };
    put_bit_string(room, out, *unused, octets)
}

/// Appends the JSON of the BIT STRING of octets, the last of which has unused bits.
fn put_bit_string(
    room: &mut Vec<u8>,
    out: &mut Writer,
    unused: u8,
    octets: &[u8],
) -> Result<(), AllocError>
    requires { length octets.now < 2 ^ 31 }
    ensures before { out.new.before ≡ out.old.before }
    ensures written { OnOk result (out.new.tokens ≡ out.old.tokens ++ json_tokens (bits_json (unused, octets.now))) }
{
    let all = 8 * octets.len() as u64;
    out.begin_object()?;
    out.key("value")?;
    put_hex(room, out, octets)?;
    out.key("length")?;
    out.u64(all.saturating_sub(u64::from(unused)))?;
    out.end_object()
}

/// Appends the JSON of items one after another, and the end of their array.
#[cycle(put)]
fn put_items(
    alloc: Global,
    room: &mut Vec<u8>,
    out: &mut Writer,
    node: u16,
    names: Names,
    octets: &[u8],
) -> Result<(), AllocError>
    requires known { IsNode node }
    requires unambiguous { is_unambiguous (term_at node) ≡ true }
    requires short { length octets.now < 2 ^ 31 }
    ensures before { out.new.before ≡ out.old.before }
    ensures written { OnOk result (PutsItems (term_at node) names octets.now out.old.tokens out.new.tokens) }
{
    let mut rest = octets;
    while let Some((contents, others)) = first_item(tag_of(node), rest) {
        put_contents(alloc, room, out, node, names, contents)?;
        rest = others;
    }
    out.end_array()
}

/// Appends a member for each field that is there, of fields of which the first is the one at an
/// index, and the end of their object.
#[cycle(put)]
fn put_fields(
    alloc: Global,
    room: &mut Vec<u8>,
    out: &mut Writer,
    slots: &[Slot],
    names: Names,
    index: usize,
    octets: &[u8],
) -> Result<(), AllocError>
    requires known { AllByRecursion IsSlot slots.now }
    requires unambiguous { are_unambiguous (fields_from nodes slots.now) ≡ true }
    requires few { index + length slots.now < 2 ^ 64 }
    requires short { length octets.now < 2 ^ 31 }
    ensures before { out.new.before ≡ out.old.before }
    ensures written { OnOk result (PutsFields (fields_from nodes slots.now) names index octets.now out.old.tokens out.new.tokens) }
{
    let [slot, others @ ..] = slots else {
        return out.end_object();
    };
    let node = node_of(*slot);
    match first_item(tag_of(node), octets) {
        Some((contents, rest)) => {
            let field = names.field(index);
            out.key(field.name)?;
            put_contents(alloc, room, out, node, field.inside, contents)?;
            put_fields(alloc, room, out, others, names, index + 1, rest)
        }
        None => put_fields(alloc, room, out, others, names, index + 1, octets),
    }
}

/// Returns the node of a field.
pub(crate) fn node_of(slot: Slot) -> u16
    requires { IsSlot slot }
    ensures known { IsNode result }
    ensures node { result ≡ slot_node slot }
{
    match slot {
        Slot::Required { node } | Slot::Optional { node } => node,
    }
}
