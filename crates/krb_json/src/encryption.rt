//! What a message has that is not encrypted, from its octets.

ghost use Rattle.std.specs.Prelude.{◌≡◌, ◌^◌, ◌<◌, ◌+◌, ◌++◌, true, length, codes, decimal, IfOk, string_bytes};
ghost use Rattle.std.specs.Option.{option_map};
ghost use Rattle.std.specs.List.{AllByRecursion};
ghost use Rattle.krb_msg.specs.Nodes.{nodes, term_at};
ghost use Rattle.krb_msg.specs.Shape.{is_unambiguous, are_unambiguous};
ghost use Rattle.krb_msg.specs.Table.{IsNode, IsSlot, fields_from};
ghost use Rattle.krb_msg.specs.Views.{message_der, IsInProfile};
ghost use Rattle.krb_msg.specs.declared.message.Message.{Message};
ghost use Rattle.krb_json.specs.Unencrypted.{is_encrypted_data, unencrypted_in};
ghost use Rattle.krb_json.specs.inner.Searching.{AreUnencrypted, BeginWithZero, Finds, FindsInFields, FindsInItems, FindsInMessage, HasZero, IsZero, is_single_zero};

use crate::writing::node_of;
use itoa::Buffer;
use krb_der::{Memory, Profile};
use krb_judge::{Names, message_node};
use krb_msg::grammar::{Form, Slot, form_of, tag_of};
use krb_msg::{Kind, first_item};
use std::alloc::{AllocError, Global};

/// Returns the path of the first EncryptedData of encryption type 0 in the message whose DER octets
/// these are, if there is one: what it has for a cipher is not encrypted.
pub fn unencrypted_path(alloc: Global, octets: &[u8]) -> Result<Option<String>, Memory>
    requires { length octets.now < 2 ^ 31 }
    ensures { IfOk result (λ path. (m : Message) → IsInProfile Profile.Lenient m → message_der m ≡ octets.now → unencrypted_in m ≡ option_map string_bytes path) }
{
    let [tag, ..] = octets else {
        return Ok(None);
    };
    let Some(kind) = Kind::of_tag(*tag) else {
        return Ok(None);
    };
    if !has_zero(octets) {
        return Ok(None);
    }
    Ok(find_in_message(alloc, kind, octets)?)
}

/// Returns whether octets have those of the INTEGER 0 somewhere; if they have not, no value in them
/// is 0. It looks at all of them, many at a time, which costs less than to find the values.
fn has_zero(octets: &[u8]) -> bool
    ensures { HasZero octets.now → result ≡ true }
{
    let mut has = false;
    for index in 2..octets.len() {
        has |= (octets[index - 2] == 2) & (octets[index - 1] == 1) & (octets[index] == 0);
    }
    has
}

/// Returns the path in a message of a kind.
fn find_in_message(alloc: Global, kind: Kind, octets: &[u8]) -> Result<Option<String>, AllocError>
    requires { length octets.now < 2 ^ 31 }
    ensures { IfOk result (λ path. FindsInMessage kind octets.now (option_map string_bytes path)) }
{
    let node = message_node(Profile::Lenient, kind);
    let Some((contents, _rest)) = first_item(tag_of(node), octets) else {
        return Ok(None);
    };
    match find(alloc, node, Names::of_kind(kind), contents)? {
        Some(more) => Ok(Some(joined(alloc, kind.name(), &more)?)),
        None => Ok(None),
    }
}

/// Returns a text and one after it.
pub(crate) fn joined(alloc: Global, front: &str, more: &String) -> Result<String, AllocError>
    ensures { IfOk result (λ text. string_bytes text ≡ front.now ++ string_bytes more.now) }
{
    let mut text = String::new(alloc);
    text.push_str(front)?;
    text.push_str(more.as_str())?;
    Ok(text)
}

/// Returns the path of a field, and what follows it, after the path of its SEQUENCE.
pub(crate) fn after_name(alloc: Global, name: &str, more: &String) -> Result<String, AllocError>
    ensures { IfOk result (λ text. string_bytes text ≡ codes "." ++ name.now ++ string_bytes more.now) }
{
    let mut text = String::new(alloc);
    text.push_str(".")?;
    text.push_str(name)?;
    text.push_str(more.as_str())?;
    Ok(text)
}

/// Returns the path of an item, and what follows it, after the path of its SEQUENCE OF.
pub(crate) fn after_index(alloc: Global, index: usize, more: &String) -> Result<String, AllocError>
    ensures { IfOk result (λ text. string_bytes text ≡ codes "[" ++ decimal index ++ codes "]" ++ string_bytes more.now) }
{
    let mut buffer = Buffer::new();
    let mut text = String::new(alloc);
    text.push_str("[")?;
    text.push_str(buffer.format(index))?;
    text.push_str("]")?;
    text.push_str(more.as_str())?;
    Ok(text)
}

/// Returns whether a type is EncryptedData.
fn is_encrypted_data(names: Names) -> bool
    ensures { result ≡ is_encrypted_data names }
{
    matches!(names, Names::EncryptedData)
}

/// Returns whether octets are one octet of 0, the contents of the INTEGER 0.
fn is_single_zero(octets: &[u8]) -> bool
    ensures { result ≡ is_single_zero octets.now }
{
    if octets.len() != 1 {
        return false;
    }
    octets[0] == 0
}

/// Returns whether the value of an item that has these contents is the number 0.
fn is_zero(node: u16, contents: &[u8]) -> bool
    requires known { IsNode node }
    requires short { length contents.now < 2 ^ 31 }
    ensures { IsZero (term_at node) contents.now result }
{
    match form_of(node) {
        Form::Integer { .. } => is_single_zero(contents),
        Form::Item { node } => match first_item(tag_of(node), contents) {
            Some((inner, _rest)) => is_zero(node, inner),
            None => false,
        },
        Form::Text { .. } => false,
        Form::Octets => false,
        Form::Time => false,
        Form::Bits { .. } => false,
        Form::Items { .. } => false,
        Form::Fields { .. } => false,
    }
}

/// Returns what the path has after that of an item that has these contents, if there is one in it.
#[cycle(find)]
fn find(
    alloc: Global,
    node: u16,
    names: Names,
    contents: &[u8],
) -> Result<Option<String>, AllocError>
    requires known { IsNode node }
    requires unambiguous { is_unambiguous (term_at node) ≡ true }
    requires short { length contents.now < 2 ^ 31 }
    ensures { IfOk result (λ more. Finds (term_at node) names contents.now (option_map string_bytes more)) }
{
    match form_of(node) {
        Form::Fields { fields } => {
            if is_unencrypted(names, fields, contents) {
                Ok(Some(String::new(alloc)))
            } else {
                find_in_fields(alloc, fields, names, 0, contents)
            }
        }
        Form::Items { node, .. } => find_in_items(alloc, node, names, contents),
        Form::Item { node } => match first_item(tag_of(node), contents) {
            Some((inner, _rest)) => find(alloc, node, names, inner),
            None => Ok(None),
        },
        Form::Integer { .. } => Ok(None),
        Form::Text { .. } => Ok(None),
        Form::Octets => Ok(None),
        Form::Time => Ok(None),
        Form::Bits { .. } => Ok(None),
    }
}

/// Returns whether a type is EncryptedData, and the fields that its octets are begin with encryption
/// type 0.
fn is_unencrypted(names: Names, slots: &[Slot], octets: &[u8]) -> bool
    requires known { AllByRecursion IsSlot slots.now }
    requires short { length octets.now < 2 ^ 31 }
    ensures { AreUnencrypted (fields_from nodes slots.now) names octets.now result }
{
    is_encrypted_data(names) && begins_with_zero(slots, octets)
}

/// Returns whether the first of fields is the number 0.
fn begins_with_zero(slots: &[Slot], octets: &[u8]) -> bool
    requires known { AllByRecursion IsSlot slots.now }
    requires short { length octets.now < 2 ^ 31 }
    ensures { BeginWithZero (fields_from nodes slots.now) octets.now result }
{
    let [slot, ..] = slots else {
        return false;
    };
    match *slot {
        Slot::Optional { .. } => false,
        Slot::Required { node } => match first_item(tag_of(node), octets) {
            Some((contents, _rest)) => is_zero(node, contents),
            None => false,
        },
    }
}

/// Returns what the path has in fields, the first of which is the one at an index.
#[cycle(find)]
fn find_in_fields(
    alloc: Global,
    slots: &[Slot],
    names: Names,
    index: usize,
    octets: &[u8],
) -> Result<Option<String>, AllocError>
    requires known { AllByRecursion IsSlot slots.now }
    requires unambiguous { are_unambiguous (fields_from nodes slots.now) ≡ true }
    requires few { index + length slots.now < 2 ^ 64 }
    requires short { length octets.now < 2 ^ 31 }
    ensures { IfOk result (λ more. FindsInFields (fields_from nodes slots.now) names index octets.now (option_map string_bytes more)) }
{
    let [slot, others @ ..] = slots else {
        return Ok(None);
    };
    let node = node_of(*slot);
    let Some((contents, rest)) = first_item(tag_of(node), octets) else {
        return find_in_fields(alloc, others, names, index + 1, octets);
    };
    let field = names.field(index);
    match find(alloc, node, field.inside, contents)? {
        Some(more) => Ok(Some(after_name(alloc, field.name, &more)?)),
        None => find_in_fields(alloc, others, names, index + 1, rest),
    }
}

/// Returns what the path has in items one after another.
#[cycle(find)]
fn find_in_items(
    alloc: Global,
    node: u16,
    names: Names,
    octets: &[u8],
) -> Result<Option<String>, AllocError>
    requires known { IsNode node }
    requires unambiguous { is_unambiguous (term_at node) ≡ true }
    requires short { length octets.now < 2 ^ 31 }
    ensures { IfOk result (λ more. FindsInItems (term_at node) names octets.now (option_map string_bytes more)) }
{
    let mut rest = octets;
    let mut index = 0;
    while let Some((contents, others)) = first_item(tag_of(node), rest) {
        if let Some(more) = find(alloc, node, names, contents)? {
            return Ok(Some(after_index(alloc, index, &more)?));
        }
        index += 1;
        rest = others;
    }
    Ok(None)
}
