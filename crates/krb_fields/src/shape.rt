//! Kinds of records, and what they have.

/// What is listed, by the command that lists it.
#[derive(Clone, Copy, PartialEq, Eq, Debug)]
pub enum Listing {
    /// A stream of messages.
    Stream,
    /// A message.
    Message,
    /// A keytab.
    Keytab,
    /// A credential cache.
    Ccache,
    /// A capture.
    Capture,
}

/// Of which members the value of a field is in an object.
#[derive(Clone, Copy, PartialEq, Eq, Debug)]
pub enum Value {
    /// One member.
    One,
    /// A number and its name.
    Named,
    /// Numbers and their names.
    Numbers,
    /// Bits and the names of those that are set.
    Flags,
    /// An encryption type, a version of a key and a size.
    Encrypted,
    /// The same, or why octets are no Ticket.
    Ticket,
    /// The name of a principal.
    Principal,
    /// The address of a host.
    Address,
    /// The type of a checksum and its size.
    Checksum,
    /// A difference of clocks.
    Offset,
    /// From where to where octets were sent.
    Flow,
    /// The records that are inside.
    Inside,
}

/// A field of a record.
#[derive(Clone, Copy)]
pub struct Field {
    /// Its name.
    pub name: &'static str,
    /// What its value is.
    pub value: Value,
}

/// What records of a kind have. A kind may have several shapes: the end of a stream has what its
/// command counts.
#[derive(Clone, Copy)]
pub struct Shape {
    /// The kind.
    pub kind: &'static str,
    /// The fields, in order.
    pub fields: &'static [Field],
    /// The fields that its origin tells, in order.
    pub told: &'static [Field],
}
