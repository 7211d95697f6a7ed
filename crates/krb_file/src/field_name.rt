//! The names of the fields of keytabs, credential caches and captures.

ghost use Rattle.std.specs.Prelude.{Some};
ghost use Rattle.krb_file.specs.Names.{field_text, name_text, part_text};

use std::fmt;

/// The name of a field, in its record, header, principal or list.
#[derive(Clone, Copy, PartialEq, Eq, Debug)]
pub enum FieldName {
    /// The first field of a file, which says its format.
    Magic,
    /// The version of the format.
    Version,
    /// The length of a record or of a block.
    Length,
    /// The octets of a hole.
    Hole,
    /// The number of the components of a principal.
    ComponentCount,
    /// The realm of a principal.
    Realm,
    /// A component of a principal, by its index from 0.
    Component(u32),
    /// The type of a principal.
    NameType,
    /// The time at which an entry was made, or the time of a packet.
    Timestamp,
    /// The version of a key.
    KeyVersion,
    /// The encryption type of a key.
    Enctype,
    /// A key.
    Key,
    /// The octets after a key.
    Rest,
    /// The length of a header.
    HeaderLength,
    /// The tag of a field of the header.
    Tag,
    /// The value of a field of the header.
    Value,
    /// The time of the first authentication.
    AuthTime,
    /// The time from which a ticket is valid.
    StartTime,
    /// The time to which a ticket is valid.
    EndTime,
    /// The time to which a ticket can be renewed.
    RenewTill,
    /// Whether the key is that of another ticket.
    IsSkey,
    /// The flags of a ticket.
    TicketFlags,
    /// The number of addresses.
    AddressCount,
    /// The number of elements of authorization data.
    AuthdataCount,
    /// The type of an address, of an element of authorization data, or of a block.
    Type,
    /// The octets of an address, or of an element of authorization data.
    Octets,
    /// A ticket.
    Ticket,
    /// A second ticket.
    SecondTicket,
    /// An offset of times, which is not read.
    ThisZone,
    /// How exact times are, which is not read.
    SigFigs,
    /// How many octets of a packet are captured at most.
    SnapLen,
    /// The type of the link.
    LinkType,
    /// The seconds of the time of a packet.
    Seconds,
    /// The fraction of a second.
    Fraction,
    /// How many octets of a packet were captured.
    CapturedLength,
    /// How many octets a packet had on the wire.
    OriginalLength,
    /// The octets of a packet.
    Data,
    /// The byte-order magic.
    ByteOrder,
    /// Two octets that are not read.
    Reserved,
    /// An option.
    Options,
    /// The interface that a packet was captured from.
    Interface,
    /// How many packets were dropped, which is not read.
    Drops,
    /// All of a block between its two lengths.
    Body,
    /// The length of a block, again at its end.
    LengthAgain,
}

/// A part of a file that has fields of its own.
#[derive(Clone, Copy, PartialEq, Eq, Debug)]
pub enum FilePart {
    /// A field of the header, by its index from 0.
    Header(u64),
    /// The default principal.
    Principal,
    /// The client of a credential.
    Client,
    /// The server of a credential.
    Server,
    /// An address, by its index from 0.
    Address(u32),
    /// An element of authorization data, by its index from 0.
    Authdata(u32),
    /// A packet of a pcap, by its index from 0.
    Packet(u64),
    /// A block of a pcapng, by its index from 0.
    Block(u64),
}

/// A field of a file: its name, and its part, if it is in one.
#[derive(Clone, Copy, PartialEq, Eq, Debug)]
pub struct FileField {
    /// The part.
    pub part: Option<FilePart>,
    /// The name.
    pub name: FieldName,
}

/// Shows `key-version` or `component[0]`.
impl fmt::Display for FieldName {
    ghost output = { λ name. Some (name_text name) };

    fn fmt<W: fmt::Write>(&self, f: &mut fmt::Formatter<W>) -> fmt::Result {
        let word = match self {
            FieldName::Component(index) => return write!(f, "component[{index}]"),
            FieldName::Magic => "magic",
            FieldName::Version => "version",
            FieldName::Length => "length",
            FieldName::Hole => "hole",
            FieldName::ComponentCount => "component-count",
            FieldName::Realm => "realm",
            FieldName::NameType => "name-type",
            FieldName::Timestamp => "timestamp",
            FieldName::KeyVersion => "key-version",
            FieldName::Enctype => "enctype",
            FieldName::Key => "key",
            FieldName::Rest => "rest",
            FieldName::HeaderLength => "header-length",
            FieldName::Tag => "tag",
            FieldName::Value => "value",
            FieldName::AuthTime => "authtime",
            FieldName::StartTime => "starttime",
            FieldName::EndTime => "endtime",
            FieldName::RenewTill => "renew-till",
            FieldName::IsSkey => "is-skey",
            FieldName::TicketFlags => "ticket-flags",
            FieldName::AddressCount => "address-count",
            FieldName::AuthdataCount => "authdata-count",
            FieldName::Type => "type",
            FieldName::Octets => "octets",
            FieldName::Ticket => "ticket",
            FieldName::SecondTicket => "second-ticket",
            FieldName::ThisZone => "thiszone",
            FieldName::SigFigs => "sigfigs",
            FieldName::SnapLen => "snaplen",
            FieldName::LinkType => "linktype",
            FieldName::Seconds => "seconds",
            FieldName::Fraction => "fraction",
            FieldName::CapturedLength => "captured-length",
            FieldName::OriginalLength => "original-length",
            FieldName::Data => "data",
            FieldName::ByteOrder => "byte-order",
            FieldName::Reserved => "reserved",
            FieldName::Options => "options",
            FieldName::Interface => "interface",
            FieldName::Drops => "drops",
            FieldName::Body => "body",
            FieldName::LengthAgain => "length-again",
        };
        f.write_str(word)
    }
}

/// Shows `client` or `address[0]`.
impl fmt::Display for FilePart {
    ghost output = { λ part. Some (part_text part) };

    fn fmt<W: fmt::Write>(&self, f: &mut fmt::Formatter<W>) -> fmt::Result {
        let (word, index) = match self {
            FilePart::Principal => return f.write_str("principal"),
            FilePart::Client => return f.write_str("client"),
            FilePart::Server => return f.write_str("server"),
            FilePart::Header(index) => ("header", *index),
            FilePart::Address(index) => ("address", u64::from(*index)),
            FilePart::Authdata(index) => ("authdata", u64::from(*index)),
            FilePart::Packet(index) => ("packet", *index),
            FilePart::Block(index) => ("block", *index),
        };
        write!(f, "{word}[{index}]")
    }
}

/// Shows `key` or `address[0].type`.
impl fmt::Display for FileField {
    ghost output = { λ field. Some (field_text field) };

    fn fmt<W: fmt::Write>(&self, f: &mut fmt::Formatter<W>) -> fmt::Result {
        match self.part {
            Some(part) => write!(f, "{part}.{}", self.name),
            None => write!(f, "{}", self.name),
        }
    }
}
