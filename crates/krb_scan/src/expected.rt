//! What may come next in a container, by the rows of `krb_msg::grammar`.

ghost use Rattle.std.specs.Prelude.{◌≡◌, ◌<◌, map, length};
ghost use Rattle.std.specs.List.{AllByRecursion};
ghost use Rattle.krb_msg.specs.Grammar.{messages};
ghost use Rattle.krb_msg.specs.Nodes.{nodes, term_at};
ghost use Rattle.krb_msg.specs.Table.{IsNode, IsSlot, fields_from};
ghost use Rattle.krb_scan.specs.Scan.{Listed, OneOf, is_sole as fills};
ghost use Rattle.krb_scan.specs.Expectations.{IsKnown, expected_of, fields_in, fields_after};
ghost use Rattle.krb_scan.specs.inner.Machine.{requires_field as field_required, requires_item as item_required};
ghost use Rattle.krb_scan.specs.inner.Choices.{IsChoice, IsPick};

use krb_der::Profile;
use krb_msg::grammar::{Form, LENIENT, STRICT, Slot, form_of, tables, tag_of};

/// What the contents of a container may go on with.
#[derive(Clone, Copy)]
pub(crate) enum Expected {
    /// The fields from the one at an index on, of a node's term, which is a SEQUENCE.
    Fields { from: u8, sequence: u16 },
    /// Any number of items of a node's term.
    Each { node: u16 },
    /// One item of a node's term, which fills the container.
    Only { node: u16 },
    /// A message of a profile, which fills the container.
    Message { profile: Profile },
    /// No item more.
    Nothing,
}

/// An item that begins.
#[derive(Clone, Copy)]
pub(crate) struct Picked {
    /// The node of its term.
    pub(crate) node: u16,
    /// What is expected after it.
    pub(crate) left: Expected,
}

impl Expected {
    /// Returns whether the item that comes fills its container.
    pub(crate) fn is_sole(self) -> bool
        ensures { result ≡ fills (expected_of self) }
    {
        match self {
            Expected::Fields { .. } | Expected::Each { .. } => false,
            Expected::Only { .. } | Expected::Message { .. } | Expected::Nothing => true,
        }
    }

    /// Returns whether a container that ends here is incomplete.
    pub(crate) fn requires_item(self) -> bool
        requires { IsKnown self }
        ensures { result ≡ item_required (expected_of self) }
    {
        match self {
            Expected::Fields { from, sequence } => requires_field(sequence, from),
            Expected::Each { .. } | Expected::Nothing => false,
            Expected::Only { .. } | Expected::Message { .. } => true,
        }
    }

    /// Returns the item that an identifier octet begins.
    pub(crate) fn pick(self, octet: u8) -> Option<Picked>
        requires { IsKnown self }
        ensures { IsChoice octet (expected_of self) result }
    {
        match self {
            Expected::Fields { from, sequence } => pick_field(octet, sequence, from),
            Expected::Each { node } => pick_node(octet, node, self),
            Expected::Only { node } => pick_node(octet, node, Expected::Nothing),
            Expected::Message { profile } => pick_message(octet, profile),
            Expected::Nothing => None,
        }
    }
}

/// Returns the fields of a node's term, if it is a SEQUENCE, else none.
fn fields_at(sequence: u16) -> &'static [Slot]
    requires { IsNode sequence }
    ensures known { AllByRecursion IsSlot result.now }
    ensures fields { fields_from nodes result.now ≡ fields_in (term_at sequence) }
    ensures few { length result.now < 256 }
{
    match form_of(sequence) {
        Form::Fields { fields } => fields,
        _ => &[],
    }
}

/// Returns an item of a node's term, if an identifier octet is that term's.
fn pick_node(octet: u8, node: u16, left: Expected) -> Option<Picked>
    requires node { IsNode node }
    requires left { IsKnown left }
    ensures { IsPick octet node left result }
{
    if tag_of(node) == octet {
        Some(Picked { node, left })
    } else {
        None
    }
}

/// Returns whether one of the fields of a SEQUENCE has to be there, of those from one on.
fn requires_field(sequence: u16, from: u8) -> bool
    requires { IsNode sequence }
    ensures { result ≡ field_required (fields_after from (fields_in (term_at sequence))) }
{
    let fields = fields_at(sequence);
    let mut at = from as usize;
    'fields: while at < fields.len() {
        if let Slot::Required { .. } = fields[at] {
            return true;
        }
        at += 1;
    }
    false
}

/// Returns the field of a SEQUENCE that an identifier octet begins, of those from one on.
fn pick_field(octet: u8, sequence: u16, from: u8) -> Option<Picked>
    requires { IsNode sequence }
    ensures { IsChoice octet (Listed (fields_after from (fields_in (term_at sequence)))) result }
{
    let fields = fields_at(sequence);
    let mut at = from;
    'fields: while (at as usize) < fields.len() {
        let left = Expected::Fields {
            from: at + 1,
            sequence,
        };
        match fields[at as usize] {
            Slot::Required { node } => return pick_node(octet, node, left),
            Slot::Optional { node } => if tag_of(node) == octet {
                return Some(Picked { node, left });
            },
        }
        at += 1;
    }
    None
}

/// Returns the message of a profile that an identifier octet begins.
fn pick_message(octet: u8, profile: Profile) -> Option<Picked>
    ensures { IsChoice octet (OneOf (messages profile)) result }
{
    tables();
    match profile {
        Profile::Lenient => pick_one_of(octet, &LENIENT),
        Profile::Strict => pick_one_of(octet, &STRICT),
    }
}

/// Returns the item of one of some nodes' terms that an identifier octet begins.
fn pick_one_of(octet: u8, chosen: &[u16]) -> Option<Picked>
    requires { AllByRecursion IsNode chosen.now }
    ensures { IsChoice octet (OneOf (map term_at chosen.now)) result }
{
    let mut at = 0;
    'nodes: while at < chosen.len() {
        let node = chosen[at];
        if tag_of(node) == octet {
            return Some(Picked {
                node,
                left: Expected::Nothing,
            });
        }
        at += 1;
    }
    None
}
