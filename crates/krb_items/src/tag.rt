//! The tags of items, and what their types are called.

ghost use Rattle.std.specs.Prelude.{◌≡◌};
ghost use Rattle.krb_items.specs.Heads.{octet_of};

/// The tag of an item, by what its type is called (X.690, 8.1.2).
#[derive(Clone, Copy, PartialEq, Eq, Debug)]
pub enum Tag {
    /// An explicit tag `[i]`.
    Context(u8),
    /// An explicit tag `[APPLICATION a]`.
    Application(u8),
    /// A BOOLEAN.
    Boolean,
    /// An OBJECT IDENTIFIER.
    ObjectIdentifier,
    /// An ENUMERATED.
    Enumerated,
    /// An INTEGER.
    Integer,
    /// A BIT STRING.
    BitString,
    /// An OCTET STRING.
    OctetString,
    /// A GeneralString.
    GeneralString,
    /// A GeneralizedTime.
    GeneralizedTime,
    /// A SEQUENCE.
    Sequence,
    /// A SEQUENCE OF.
    SequenceOf,
    /// The length of a frame, which has no tag (RFC 4120, 7.2.2).
    Frame,
    /// Octets by themselves, which have no tag (RFC 4121, 4.1).
    Octets,
}

impl Tag {
    /// Returns the identifier octet; that of a frame is the first octet of its length.
    pub(crate) fn octet(self) -> u8
        ensures { result ≡ octet_of self }
    {
        match self {
            Tag::Context(index) => 0xA0 + index % 32,
            Tag::Application(number) => 0x60 + number % 32,
            Tag::Boolean => 0x01,
            Tag::ObjectIdentifier => 0x06,
            Tag::Enumerated => 0x0A,
            Tag::Integer => 0x02,
            Tag::BitString => 0x03,
            Tag::OctetString => 0x04,
            Tag::GeneralString => 0x1B,
            Tag::GeneralizedTime => 0x18,
            Tag::Sequence | Tag::SequenceOf => 0x30,
            Tag::Frame | Tag::Octets => 0x00,
        }
    }
}
