//! The message that a line spells.

ghost use Rattle.std.specs.Prelude.{◌≡◌, ◌==◌, ◌&&◌, ◌<◌, ◌≤◌, ◌^◌, ◌+◌, ◌++◌, not, length, vec_len, IfOk, IfErr, IfSome, Some, Ok, Err, option_map, string_bytes};
ghost use Rattle.std.specs.List.{AllByRecursion, flat_map};
ghost use Rattle.std.specs.Option.{option_and_then};
ghost use Rattle.json.specs.Find.{as_object};
ghost use Rattle.json.specs.Json.{Members};
ghost use Rattle.json.specs.Tree.{HasNumbers, ItemsHaveNumbers};
ghost use Rattle.json.specs.Value.{items_view, value_view};
ghost use Rattle.krb_judge.specs.FieldNames.{named};
ghost use Rattle.krb_msg.specs.Nodes.{nodes, term_at};
ghost use Rattle.krb_msg.specs.Table.{IsNode, IsSlot, fields_from};
ghost use Rattle.krb_msg.specs.Term.{SequenceOf, Sequence, der, der_of_fields};
ghost use Rattle.krb_msg.specs.Views.{kind_name};
ghost use Rattle.krb_msg.specs.declared.message.Message.{Message};
ghost use Rattle.krb_msg.specs.inner.Values.{contents};
ghost use Rattle.krb_json.specs.declared.wrong.Wrong.TheVariants.{Longer};
ghost use Rattle.krb_json.specs.Faults.{fault};
ghost use Rattle.krb_json.specs.Lines.{in_line, kind_named, line_spells, message_spelled, sole_member, value_spells};
ghost use Rattle.krb_json.specs.Reading.{AreSpelled, IsFaultOf};
ghost use Rattle.krb_json.specs.Spelled.{items_spelled, spelled};
ghost use Rattle.krb_json.specs.inner.Reading.{Reads, ReadsField, ReadsFields, ReadsLine};

use crate::encryption::joined;
use crate::heads::{begin_item, end_item};
use crate::kinds::all_kinds;
use crate::line_fault::{Fault, LineFault};
use crate::members::{Allowed, check_members};
use crate::scalars::{read_bits, read_integer, read_octets, read_text, read_time};
use crate::value_fault::{ValueFault, fault_here, fault_of_field, in_field, in_item};
use crate::writing::node_of;
use crate::wrong::Wrong;
use json::{Error, Scratch, Value};
use krb_der::Profile;
use krb_judge::{Field, Names, message_node};
use krb_msg::Kind;
use krb_msg::grammar::{Form, Slot, form_of, tag_of};
use std::alloc::{AllocError, Global};

/// Returns the DER octets of the message of a profile that a line spells, at most `limit` octets,
/// or the first fault of the line. The line feed is not part of the line. What is in `scratch` does
/// not matter: it is memory that is used again for each line.
pub fn read_line(
    alloc: Global,
    scratch: &mut Scratch,
    profile: Profile,
    limit: u32,
    line: &[u8],
) -> Result<Vec<u8>, LineFault>
    requires { limit < 2 ^ 31 }
    ensures octets { IfOk result (λ octets. AreSpelled (line_spells profile limit line.now) octets.items) }
    ensures fault { IfErr result (IsFaultOf (line_spells profile limit line.now)) }
{
    match Value::from_slice(alloc, line, scratch) {
        Ok(value) => read_object(alloc, profile, limit, &value),
        Err(Error::Invalid) => Err(LineFault::NotJson),
        // Of the other errors only want of memory comes.
        Err(_) => Err(LineFault::Memory),
    }
}

/// Returns the name and the value of the sole member of an object.
pub(crate) fn sole_member<'v, 'a>(value: &'v Value<'a>) -> Option<(&'a str, &'v Value<'a>)>
    requires { HasNumbers (value_view value.now) }
    ensures sole { option_map (λ sole. (sole.0.now, value_view sole.1.now)) result ≡ option_and_then sole_member (as_object (value_view value.now)) }
    ensures numbers { IfSome result (λ sole. HasNumbers (value_view sole.1.now)) }
{
    let Value::Object(members) = value else {
        return None;
    };
    if members.len() != 1 {
        return None;
    }
    let member = &members[0];
    Some((member.0, &member.1))
}

/// Returns the kind of the messages that have a name.
fn kind_named(name: &str) -> Option<Kind>
    ensures { result ≡ kind_named name.now }
{
    all_kinds().iter().copied().find(|kind| kind.name() == name)
}

/// Returns the DER octets of the message that a value spells, or what is wrong with it.
pub(crate) fn read_object(
    alloc: Global,
    profile: Profile,
    limit: u32,
    value: &Value,
) -> Result<Vec<u8>, LineFault>
    requires short { limit < 2 ^ 31 }
    requires numbers { HasNumbers (value_view value.now) }
    ensures { ReadsLine (value_spells profile limit (Some (value_view value.now))) result }
{
    let Some((name, inner)) = sole_member(value) else {
        return Err(LineFault::NotAMessage);
    };
    match kind_named(name) {
        Some(kind) => read_message(alloc, profile, limit, kind, inner),
        None => Err(LineFault::NotAMessage),
    }
}

/// Returns the DER octets of the message of a kind that a value spells, or what is wrong with it.
fn read_message(
    alloc: Global,
    profile: Profile,
    limit: u32,
    kind: Kind,
    value: &Value,
) -> Result<Vec<u8>, LineFault>
    requires short { limit < 2 ^ 31 }
    requires numbers { HasNumbers (value_view value.now) }
    ensures { ReadsLine (in_line (message_spelled profile limit kind (value_view value.now))) result }
{
    let node = message_node(profile, kind);
    let mut octets = Vec::new(alloc);
    match read_item(alloc, &mut octets, node, Names::of_kind(kind), value) {
        Ok(()) => within(alloc, limit, kind, octets),
        Err(ValueFault::Memory) => Err(LineFault::Memory),
        Err(ValueFault::At(Fault { path, wrong })) => Err(fault_in(alloc, kind, &path, wrong)),
    }
}

/// Returns the fault of a path that follows the name of a kind.
fn fault_in(alloc: Global, kind: Kind, path: &String, wrong: Wrong) -> LineFault
    ensures { IsFaultOf (in_line (fault {A = Message} (kind_name kind ++ string_bytes path.now) wrong)) result }
{
    match joined(alloc, kind.name(), path) {
        Ok(path) => LineFault::At(Fault { path, wrong }),
        Err(_) => LineFault::Memory,
    }
}

/// Returns octets, if they are no more than a limit.
fn within(alloc: Global, limit: u32, kind: Kind, octets: Vec<u8>) -> Result<Vec<u8>, LineFault>
    ensures octets { IfOk result (λ same. (same.items ≡ octets.items) × (vec_len octets ≤ limit)) }
    ensures fault { IfErr result (λ found. (limit < vec_len octets) × IsFaultOf (in_line (fault {A = Message} (kind_name kind) (Longer limit))) found) }
{
    if octets.len() <= limit as usize {
        return Ok(octets);
    }
    let path = String::new(alloc);
    Err(fault_in(alloc, kind, &path, Wrong::Longer { limit }))
}

/// Appends the DER octets of the value of a node's term that a JSON value spells.
#[cycle(read)]
pub(crate) fn read_item(
    alloc: Global,
    out: &mut Vec<u8>,
    node: u16,
    names: Names,
    value: &Value,
) -> Result<(), ValueFault>
    requires known { IsNode node }
    requires numbers { HasNumbers (value_view value.now) }
    ensures { Reads (λ path. spelled (term_at node) names path (value_view value.now)) (der (term_at node)) out.old.items out.new.items result }
{
    let start = out.len();
    begin_item(out, tag_of(node))?;
    read_contents(alloc, out, node, names, value)?;
    end_item(out, start)?;
    Ok(())
}

/// Appends the contents octets of the value of a node's term that a JSON value spells.
#[cycle(read)]
fn read_contents(
    alloc: Global,
    out: &mut Vec<u8>,
    node: u16,
    names: Names,
    value: &Value,
) -> Result<(), ValueFault>
    requires known { IsNode node }
    requires numbers { HasNumbers (value_view value.now) }
    ensures { Reads (λ path. spelled (term_at node) names path (value_view value.now)) (contents (term_at node)) out.old.items out.new.items result }
{
    match form_of(node) {
        Form::Integer { low, high, .. } => read_integer(alloc, out, low, high, value),
        Form::Text { greatest } => read_text(alloc, out, greatest, value),
        Form::Octets => read_octets(alloc, out, value),
        Form::Time => read_time(alloc, out, value),
        Form::Bits { least } => read_bits(alloc, out, least, value),
        Form::Item { node } => read_item(alloc, out, node, names, value),
        Form::Items { node, empty } => read_list(alloc, out, node, empty, names, value),
        Form::Fields { fields } => read_sequence(alloc, out, fields, names, value),
    }
}

/// Appends the items of the SEQUENCE OF that a JSON value spells, which may be `empty` or not.
#[cycle(read)]
fn read_list(
    alloc: Global,
    out: &mut Vec<u8>,
    node: u16,
    empty: bool,
    names: Names,
    value: &Value,
) -> Result<(), ValueFault>
    requires known { IsNode node }
    requires numbers { HasNumbers (value_view value.now) }
    ensures { Reads (λ path. spelled (SequenceOf empty (term_at node)) names path (value_view value.now)) (flat_map (der (term_at node))) out.old.items out.new.items result }
{
    let Value::Array(items) = value else {
        return Err(fault_here(alloc, Wrong::NotAnArray));
    };
    let items = items.as_slice();
    if lacks_items(empty, items) {
        return Err(fault_here(alloc, Wrong::Empty));
    }
    read_items(alloc, out, node, names, items)
}

/// Returns whether there are no items where a SEQUENCE OF, which may be `empty` or not, needs some.
fn lacks_items(empty: bool, items: &[Value]) -> bool
    ensures { result ≡ (not empty && length items.now == 0) }
{
    !empty && items.is_empty()
}

/// Appends the items that JSON values spell.
#[cycle(read)]
fn read_items(
    alloc: Global,
    out: &mut Vec<u8>,
    node: u16,
    names: Names,
    items: &[Value],
) -> Result<(), ValueFault>
    requires known { IsNode node }
    requires numbers { ItemsHaveNumbers (items_view items.now) }
    ensures { Reads (λ path. items_spelled (spelled (term_at node) names) path 0 (items_view items.now)) (flat_map (der (term_at node))) out.old.items out.new.items result }
{
    for (index, item) in items.iter().enumerate() {
        in_item(alloc, index, read_item(alloc, out, node, names, item))?;
    }
    Ok(())
}

/// Appends the fields of the SEQUENCE that a JSON value spells.
#[cycle(read)]
fn read_sequence(
    alloc: Global,
    out: &mut Vec<u8>,
    slots: &[Slot],
    names: Names,
    value: &Value,
) -> Result<(), ValueFault>
    requires known { AllByRecursion IsSlot slots.now }
    requires numbers { HasNumbers (value_view value.now) }
    ensures { Reads (λ path. spelled (Sequence (fields_from nodes slots.now)) names path (value_view value.now)) (der_of_fields (fields_from nodes slots.now)) out.old.items out.new.items result }
{
    check_members(alloc, Allowed::Fields(names), value)?;
    read_fields(alloc, out, slots, names, 0, value)
}

/// Appends the fields of which an object has the members, the first of them that at an index.
#[cycle(read)]
fn read_fields(
    alloc: Global,
    out: &mut Vec<u8>,
    slots: &[Slot],
    names: Names,
    index: usize,
    object: &Value,
) -> Result<(), ValueFault>
    requires known { AllByRecursion IsSlot slots.now }
    requires numbers { HasNumbers (value_view object.now) }
    requires few { index + length slots.now < 2 ^ 64 }
    ensures { (members : Members) → as_object (value_view object.now) ≡ Some members → ReadsFields (fields_from nodes slots.now) names index members out.old.items out.new.items result }
{
    let [slot, others @ ..] = slots else {
        return Ok(());
    };
    read_field(alloc, out, *slot, names.field(index), object)?;
    read_fields(alloc, out, others, names, index + 1, object)
}

/// Appends a field, of which an object has the member or not.
#[cycle(read)]
fn read_field(
    alloc: Global,
    out: &mut Vec<u8>,
    slot: Slot,
    field: Field,
    object: &Value,
) -> Result<(), ValueFault>
    requires known { IsSlot slot }
    requires numbers { HasNumbers (value_view object.now) }
    ensures { (members : Members) → as_object (value_view object.now) ≡ Some members → ReadsField slot (named field) members out.old.items out.new.items result }
{
    match object.get(field.name) {
        Some(value) => {
            let read = read_item(alloc, out, node_of(slot), field.inside, value);
            in_field(alloc, field.name, read)
        }
        None => match slot {
            Slot::Optional { .. } => Ok(()),
            Slot::Required { .. } => Err(fault_of_field(alloc, field.name, Wrong::Missing)),
        },
    }
}
