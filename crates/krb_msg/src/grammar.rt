//! The grammar of `specs/Grammar` as a table, from which octets are judged.

ghost use Rattle.std.specs.Prelude.{◌≡◌, length, map};
ghost use Rattle.krb_msg.specs.Term.{tag_of as term_tag};
ghost use Rattle.krb_msg.specs.Grammar.{messages};
ghost use Rattle.krb_msg.specs.Nodes.{nodes, term_at};
ghost use Rattle.krb_msg.specs.Table.{IsNode, IsRowOf, RowsAre, IsFormOf};

use krb_der::Profile;

/// What the contents of an item are.
#[derive(Clone, Copy)]
pub enum Form {
    /// An INTEGER from `low` to `high`, which has at most `widest` octets.
    Integer { low: i64, high: i64, widest: u32 },
    /// A KerberosString of octets up to the `greatest`.
    Text { greatest: u8 },
    /// An OCTET STRING.
    Octets,
    /// A KerberosTime.
    Time,
    /// A BIT STRING of `least` bits or more.
    Bits { least: u8 },
    /// Any number of items of one node, also none if it may be `empty`.
    Items { node: u16, empty: bool },
    /// The one item of a tag.
    Item { node: u16 },
    /// The fields of a SEQUENCE.
    Fields { fields: &'static [Slot] },
}

/// A term of the grammar: its identifier octet and what its contents are.
#[derive(Clone, Copy)]
pub struct Node {
    /// The identifier octet.
    pub tag: u8,
    /// The contents.
    pub form: Form,
}

/// A field of a SEQUENCE.
#[derive(Clone, Copy)]
pub enum Slot {
    /// One that must be there.
    Required { node: u16 },
    /// One that may be left out.
    Optional { node: u16 },
}

// what a profile has: the lenient one, or else the strict one
macro_rules! by_profile {
    (Lenient, $lenient:expr, $strict:expr) => { $lenient };
    (Strict, $lenient:expr, $strict:expr) => { $strict };
}

macro_rules! row {
    ($profile:ident, $row:ident) => {
        by_profile!($profile, Row::$row as u16, Row::$row as u16 + ROWS as u16)
    };
}

macro_rules! node {
    ($profile:ident, Integer, $low:expr, $high:expr, $widest:expr) => {
        Node { tag: 0x02, form: Form::Integer { low: $low, high: $high, widest: $widest } }
    };
    ($profile:ident, Unsigned) => {
        Node { tag: 0x02, form: Form::Integer { low: by_profile!($profile, -2147483648, 0), high: 4294967295, widest: 5 } }
    };
    ($profile:ident, Text) => { Node { tag: 0x1B, form: Form::Text { greatest: by_profile!($profile, 0xFF, 0x7F) } } };
    ($profile:ident, Octets) => { Node { tag: 0x04, form: Form::Octets } };
    ($profile:ident, Time) => { Node { tag: 0x18, form: Form::Time } };
    ($profile:ident, Bits) => { Node { tag: 0x03, form: Form::Bits { least: by_profile!($profile, 0, 32) } } };
    ($profile:ident, Items, $row:ident) => {
        Node { tag: 0x30, form: Form::Items { node: row!($profile, $row), empty: true } }
    };
    ($profile:ident, OptionalItems, $row:ident) => {
        Node { tag: 0x30, form: Form::Items { node: row!($profile, $row), empty: by_profile!($profile, true, false) } }
    };
    ($profile:ident, Sequence, $($slot:ident $row:ident),*) => {
        Node { tag: 0x30, form: Form::Fields { fields: &[$(Slot::$slot { node: row!($profile, $row) }),*] } }
    };
    ($profile:ident, Tagged, $index:expr, $row:ident) => {
        Node { tag: 0xA0 + $index, form: Form::Item { node: row!($profile, $row) } }
    };
    ($profile:ident, Application, $number:expr, $row:ident) => {
        Node { tag: 0x60 + $number, form: Form::Item { node: row!($profile, $row) } }
    };
}

// the rows of the lenient profile, and then those of the strict one
macro_rules! both {
    ($(($($row:tt)*)),* $(,)?) => {
        [$(node!(Lenient, $($row)*)),*, $(node!(Strict, $($row)*)),*]
    };
}

mod table;

pub use table::{GRAMMAR, LENIENT, NODES, ROWS, Row, STRICT};

/// There is a term for each row, and the messages of each profile are those of the grammar.
pub fn tables()
    ensures terms { length nodes ≡ NODES }
    ensures lenient { map term_at LENIENT ≡ messages Profile.Lenient }
    ensures strict { map term_at STRICT ≡ messages Profile.Strict }
{}

/// Returns the rows of [`GRAMMAR`]: each is that of the term at its index.
#[inline(always)]
pub fn rows() -> &'static [Node]
    ensures { RowsAre nodes result.now nodes }
{
    &GRAMMAR
}

/// Returns the row of a node, in rows that are those of the terms.
#[inline(always)]
fn row_in(rows: &[Node], node: u16) -> Node
    requires known { IsNode node }
    requires rows { RowsAre nodes rows.now nodes }
    ensures { IsRowOf nodes result (term_at node) }
{
    rows[node as usize]
}

/// Returns the row of a node in [`GRAMMAR`], which is that of its term.
#[inline(always)]
pub fn row_at(node: u16) -> Node
    requires { IsNode node }
    ensures { IsRowOf nodes result (term_at node) }
{
    row_in(rows(), node)
}

/// Returns the identifier octet of a node's term.
pub fn tag_of(node: u16) -> u8
    requires { IsNode node }
    ensures { result ≡ term_tag (term_at node) }
{
    row_at(node).tag
}

/// Returns what the contents of a node's term are.
pub fn form_of(node: u16) -> Form
    requires { IsNode node }
    ensures { IsFormOf nodes result (term_at node) }
{
    row_at(node).form
}
