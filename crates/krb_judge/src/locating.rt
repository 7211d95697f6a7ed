//! The field at fault of a message that is refused or cut.
//!
//! Each item that is whole is passed over, and then the first that is not is entered; so an octet
//! is judged once for each SEQUENCE and SEQUENCE OF round it.

pub(crate) mod field;
mod head;
mod kind_index;
pub(crate) mod names;

ghost use Rattle.std.specs.Prelude.{◌≡◌, ◌^◌, ◌<◌, ◌≤◌, ℕ, List, length, false, IfOk, IfSome, MatchOption, OnOk, string_bytes};
ghost use Rattle.std.specs.List.{AllByRecursion};
ghost use Rattle.std.specs.Option.{option_map};
ghost use Rattle.krb_der.specs.Octets.{begins_with};
ghost use Rattle.krb_msg.specs.Judgement.{Done, item_outcome};
ghost use Rattle.krb_msg.specs.Nodes.{nodes, term_at};
ghost use Rattle.krb_msg.specs.Shape.{depth, depth_of_fields};
ghost use Rattle.krb_msg.specs.Table.{IsNode, IsSlot, fields_from, with_slot};
ghost use Rattle.krb_msg.specs.Term.{Fields};
ghost use Rattle.krb_msg.specs.Views.{kind_term_in};
ghost use Rattle.krb_judge.specs.Paths.{contents_path, element_path, elements_path, field_path, fields_path, first_item, message_path, ticket_path, within};
ghost use Rattle.krb_judge.specs.inner.Descent.{IsItem, IsInside, IsPresent, IsPresenceFor, IsFaultOf, path_in, path_on, in_contents, in_first, presence_path, fault_path, in_element};

use crate::locating::head::{Head, part, read_head};
use crate::locating::kind_index::index_of;
use crate::locating::names::Names;
use crate::reading::ticket_node;
use itoa::Buffer;
use krb_der::{Memory, Profile, Verdict};
use krb_msg::Kind;
use krb_msg::grammar::{Form, LENIENT, STRICT, Slot, form_of, tag_of};
use krb_scan::judge_item;
use std::alloc::{AllocError, Global};

/// An item that has a path, in a room that it fills if it is the sole item there.
#[derive(Clone, Copy)]
struct Item<'a> {
    node: u16,
    names: Names,
    room: u32,
    sole: bool,
    octets: &'a [u8],
}

/// What is left of a container.
#[derive(Clone, Copy)]
struct Rest<'a> {
    /// The number of octets that it may have.
    room: u32,
    /// Its octets that are present.
    octets: &'a [u8],
}

/// Whether a field is present.
#[derive(Clone, Copy)]
enum Presence {
    /// The field is missing.
    Missing,
    /// The SEQUENCE itself is at fault.
    Sequence,
    /// The field is absent.
    Absent,
    /// The item of a node's term.
    Item { node: u16 },
}

/// What is at fault in a SEQUENCE.
#[derive(Clone, Copy)]
enum Fault<'a> {
    /// The SEQUENCE itself.
    Sequence,
    /// The field at an index, which is missing.
    Missing {
        index: usize,
    },
    /// The item of the field at an index, with which the rest begins.
    Inside {
        index: usize,
        node: u16,
        rest: Rest<'a>,
    },
}

/// The item at fault of a SEQUENCE OF: how many are before it, and the rest that begins with it.
#[derive(Clone, Copy)]
struct Element<'a> {
    index: usize,
    rest: Rest<'a>,
}

/// Returns the path of the field at fault in a message of `n` octets, by a profile, such as
/// `TGS-REQ.req-body.additional-tickets[0].sname`. The octets are those up to and with the refused
/// one, or all that are present of a message that is cut. There is no path if the first octet is
/// not there, or is the tag of no message.
///
/// A field has its path from its tag on. At Missing it is that of the first required field that is
/// not there, and of a message that is cut that of the innermost item that is open.
pub fn path(alloc: Global, profile: Profile, n: u32, front: &[u8]) -> Result<Option<String>, Memory>
    requires short { n < 2 ^ 31 }
    requires present { length front.now ≤ n }
    ensures { IfOk result (λ path. option_map string_bytes path ≡ message_path profile n front.now) }
{
    let Some(tag) = front.first() else {
        return Ok(None);
    };
    let Some(kind) = Kind::of_tag(*tag) else {
        return Ok(None);
    };
    let mut text = String::new(alloc);
    text.push_str(kind.name())?;
    let message = Item {
        node: message_node(profile, kind),
        names: Names::of_kind(kind),
        room: n,
        sole: true,
        octets: front,
    };
    put_path(&mut text, message)?;
    Ok(Some(text))
}

/// Returns the path of the field at fault in a Ticket of `n` octets, alone (RFC 4120, 5.3), by a
/// profile, such as `Ticket.sname`; see [`path`].
pub fn ticket_path(alloc: Global, profile: Profile, n: u32, front: &[u8]) -> Result<String, Memory>
    requires short { n < 2 ^ 31 }
    requires present { length front.now ≤ n }
    ensures { IfOk result (λ path. string_bytes path ≡ ticket_path profile n front.now) }
{
    let mut text = String::new(alloc);
    text.push_str("Ticket")?;
    let ticket = Item {
        node: ticket_node(profile),
        names: Names::Ticket,
        room: n,
        sole: true,
        octets: front,
    };
    put_path(&mut text, ticket)?;
    Ok(text)
}

/// Returns the node of the messages of a kind in a profile.
pub fn message_node(profile: Profile, kind: Kind) -> u16
    ensures known { IsNode result }
    ensures term { term_at result ≡ kind_term_in profile kind }
{
    match profile {
        Profile::Lenient => LENIENT[index_of(kind)],
        Profile::Strict => STRICT[index_of(kind)],
    }
}

/// Appends what the path of what is at fault in an item has after that of the item.
fn put_path(text: &mut String, item: Item) -> Result<(), AllocError>
    requires { IsItem item }
    ensures { OnOk result (string_bytes text.new ≡ path_in item.entry (string_bytes text.old)) }
{
    match put_inside(text, item)? {
        None => Ok(()),
        Some(inside) => put_path(text, inside),
    }
}

/// Returns the item at fault in an item, and appends what its path has after that of the item. If
/// there is none, the path is that of the item, or of a field that is missing in it.
fn put_inside<'a>(text: &mut String, item: Item<'a>) -> Result<Option<Item<'a>>, AllocError>
    requires { IsItem item }
    ensures path { IfOk result (λ inside. path_in item.entry (string_bytes text.old) ≡ path_on inside (string_bytes text.new)) }
    ensures inside { IfOk result (λ inside. IfSome inside (IsInside item.entry)) }
{
    let Some(contents) = contents_of(item) else {
        return Ok(None);
    };
    match form_of(item.node) {
        Form::Fields { fields } => put_field(text, fields, item.names, contents),
        Form::Items { node, .. } => put_element(text, node, item.names, contents),
        Form::Item { node } => Ok(Some(Item {
            node,
            names: item.names,
            room: contents.room,
            sole: true,
            octets: contents.octets,
        })),
        Form::Integer { .. } | Form::Text { .. } | Form::Octets | Form::Time | Form::Bits { .. } =>
            Ok(None),
    }
}

/// Returns whether octets begin with a tag.
fn begins(octets: &[u8], tag: u8) -> bool
    ensures { result ≡ begins_with tag octets.now }
{
    match octets.first() {
        None => false,
        Some(octet) => *octet == tag,
    }
}

/// Returns the contents of an item, if its identifier and length octets are right.
fn contents_of(item: Item) -> Option<Rest>
    requires { IsItem item }
    ensures contents { (inside : ℕ → List ℕ → List ℕ) (path : List ℕ) → within (term_at item.entry.node) path item.entry.room item.entry.sole item.entry.octets.now inside ≡ in_contents result path inside }
    ensures present { IfSome result IsPresent }
{
    if !begins(item.octets, tag_of(item.node)) {
        return None;
    }
    let Head { header, size } = read_head(item.room, item.octets)?;
    if item.sole && header + size < item.room {
        return None;
    }
    Some(Rest {
        room: size,
        octets: part(item.octets, header, size),
    })
}

/// Returns what is left after the first item, if it is done.
fn after_first(node: u16, rest: Rest) -> Option<Rest>
    requires known { IsNode node }
    requires some { 0 < length rest.octets.now }
    requires present { IsPresent rest }
    ensures first { (path : List ℕ) (inside after : ℕ → List ℕ → List ℕ) → first_item (term_at node) path rest.entry.room rest.entry.octets.now inside after ≡ in_first (term_at node) path rest.entry result inside after }
    ensures present { IfSome result IsPresent }
    ensures shorter { IfSome result (λ after. length after.octets.now < length rest.entry.octets.now) }
{
    let count = first_count(node, rest.room, rest.octets)?;
    Some(Rest {
        room: rest.room - count,
        octets: &rest.octets[count as usize..],
    })
}

/// Returns how many octets the first item has, if it is done: that is if alone it is whole.
fn first_count(node: u16, room: u32, octets: &[u8]) -> Option<u32>
    requires known { IsNode node }
    requires short { room < 2 ^ 31 }
    ensures { MatchOption result ((count : ℕ) → item_outcome (term_at node) room false octets.now ≡ Done count → ⊥) (λ count. item_outcome (term_at node) room false octets.now ≡ Done count) }
{
    let head = read_head(room, octets)?;
    let count = head.header + head.size;
    match judge_item(node, count, part(octets, 0, count)) {
        Verdict::Whole => Some(count),
        _ => None,
    }
}

/// Appends the name of the field at fault, and returns its item.
fn put_field<'a>(
    text: &mut String,
    slots: &[Slot],
    names: Names,
    contents: Rest<'a>,
) -> Result<Option<Item<'a>>, AllocError>
    requires known { AllByRecursion IsSlot slots.now }
    requires present { IsPresent contents }
    ensures path { IfOk result (λ inside. fields_path (fields_from nodes slots.now) names (string_bytes text.old) 0 contents.entry.room contents.entry.octets.now ≡ path_on inside (string_bytes text.new)) }
    ensures inside { IfOk result (λ result. IfSome result (λ inside. IsItem inside × (depth (term_at inside.node) ≤ depth_of_fields (fields_from nodes slots.now)))) }
{
    match field_at_fault(slots, contents) {
        Fault::Sequence => Ok(None),
        Fault::Missing { index } => {
            put_name(text, names.field(index).name)?;
            Ok(None)
        }
        Fault::Inside { index, node, rest } => {
            let field = names.field(index);
            put_name(text, field.name)?;
            Ok(Some(Item {
                node,
                names: field.inside,
                room: rest.room,
                sole: false,
                octets: rest.octets,
            }))
        }
    }
}

/// Appends the name of a field.
fn put_name(text: &mut String, name: &str) -> Result<(), AllocError>
    ensures { OnOk result (string_bytes text.new ≡ field_path (string_bytes text.old) name.now) }
{
    text.push('.')?;
    text.push_str(name)
}

/// Returns what is at fault in the contents of a SEQUENCE.
fn field_at_fault<'a>(slots: &[Slot], contents: Rest<'a>) -> Fault<'a>
    requires known { AllByRecursion IsSlot slots.now }
    requires present { IsPresent contents }
    ensures path { (names : Names) (path : List ℕ) → fields_path (fields_from nodes slots.now) names path 0 contents.entry.room contents.entry.octets.now ≡ fault_path result names path }
    ensures inside { IsFaultOf (fields_from nodes slots.now) result }
{
    let mut rest = contents;
    for (index, slot) in slots.iter().enumerate() {
        let node = match presence_at(*slot, rest) {
            Presence::Missing => return Fault::Missing { index },
            Presence::Sequence => return Fault::Sequence,
            Presence::Absent => continue,
            Presence::Item { node } => node,
        };
        match after_first(node, rest) {
            Some(after) => rest = after,
            None => return Fault::Inside { index, node, rest },
        }
    }
    Fault::Sequence
}

/// Returns whether a field is present, or what is at fault without its item.
fn presence_at(slot: Slot, rest: Rest) -> Presence
    requires known { IsSlot slot }
    requires present { IsPresent rest }
    ensures path { (fields : Fields) (names : Names) (path : List ℕ) (index : ℕ) → fields_path (with_slot nodes slot fields) names path index rest.entry.room rest.entry.octets.now ≡ presence_path result rest.entry fields names path index }
    ensures item { IsPresenceFor slot rest.entry result }
{
    match slot {
        Slot::Required { node } => if rest.room == 0 {
            Presence::Missing
        } else if begins(rest.octets, tag_of(node)) {
            Presence::Item { node }
        } else {
            Presence::Sequence
        },
        Slot::Optional { node } => if begins(rest.octets, tag_of(node)) {
            Presence::Item { node }
        } else {
            Presence::Absent
        },
    }
}

/// Appends the number of the item at fault, and returns the item.
fn put_element<'a>(
    text: &mut String,
    node: u16,
    names: Names,
    contents: Rest<'a>,
) -> Result<Option<Item<'a>>, AllocError>
    requires known { IsNode node }
    requires present { IsPresent contents }
    ensures path { IfOk result (λ inside. elements_path (contents_path (term_at node) names) (term_at node) (string_bytes text.old) (length contents.entry.octets.now) 0 contents.entry.room contents.entry.octets.now ≡ path_on inside (string_bytes text.new)) }
    ensures inside { IfOk result (λ result. IfSome result (λ inside. IsItem inside × (inside.node ≡ node))) }
{
    let Some(element) = element_at_fault(node, contents) else {
        return Ok(None);
    };
    put_index(text, element.index)?;
    Ok(Some(Item {
        node,
        names,
        room: element.rest.room,
        sole: false,
        octets: element.rest.octets,
    }))
}

/// Appends the number of an item.
fn put_index(text: &mut String, index: usize) -> Result<(), AllocError>
    ensures { OnOk result (string_bytes text.new ≡ element_path (string_bytes text.old) index) }
{
    let mut buffer = Buffer::new();
    text.push('[')?;
    text.push_str(buffer.format(index))?;
    text.push(']')
}

/// Returns the item at fault in the contents of a SEQUENCE OF.
fn element_at_fault<'a>(node: u16, contents: Rest<'a>) -> Option<Element<'a>>
    requires known { IsNode node }
    requires present { IsPresent contents }
    ensures path { (path : List ℕ) (inside : List ℕ → ℕ → List ℕ → List ℕ) → elements_path inside (term_at node) path (length contents.entry.octets.now) 0 contents.entry.room contents.entry.octets.now ≡ in_element (term_at node) result path inside }
    ensures present { IfSome result (λ element. IsPresent element.rest) }
{
    let tag = tag_of(node);
    let mut rest = contents;
    let mut index = 0;
    while begins(rest.octets, tag) {
        match after_first(node, rest) {
            Some(next) => rest = next,
            None => return Some(Element { index, rest }),
        }
        index += 1;
    }
    None
}
