//! What packets carry.

use crate::payload::Payload;
use krb_source::Endpoint;
use std::net::IpAddr;

/// The two ends between which octets are sent.
#[derive(Clone, Copy, PartialEq, Eq, Debug)]
pub struct Ends {
    /// Where they come from.
    pub source: Endpoint,
    /// Where they go to.
    pub target: Endpoint,
}

/// A UDP datagram (RFC 768).
#[derive(Drop)]
pub struct Datagram<'a> {
    /// Where it comes from.
    pub source: Endpoint,
    /// Where it goes to.
    pub target: Endpoint,
    /// Its octets.
    pub payload: Payload<'a>,
    /// What follows these, within the length of IP.
    pub surplus: Payload<'a>,
}

/// A TCP segment (RFC 9293, 3.1).
#[derive(Drop)]
pub struct Segment<'a> {
    /// Where it comes from.
    pub source: Endpoint,
    /// Where it goes to.
    pub target: Endpoint,
    /// The sequence number.
    pub sequence: u32,
    /// No more octets come from the source.
    pub fin: bool,
    /// The sequence number is the first one.
    pub syn: bool,
    /// The connection is reset.
    pub rst: bool,
    /// Octets of the other direction are acknowledged.
    pub ack: bool,
    /// Its octets.
    pub payload: Payload<'a>,
}

/// What the fragments of one IP datagram have in common (RFC 791, 3.2; RFC 8200, 4.5).
#[derive(Clone, Copy, PartialEq, Eq, PartialOrd, Ord, Hash)]
pub struct Original {
    /// Where the datagram comes from.
    pub source: IpAddr,
    /// Where it goes to.
    pub target: IpAddr,
    /// The identification, of 16 bits in IPv4 and of 32 bits in IPv6.
    pub identification: u32,
    /// The protocol in IPv4. In IPv6 fragments may disagree on what they begin with.
    pub protocol: Option<u8>,
}

/// A fragment of an IP datagram (RFC 791, 3.2; RFC 8200, 4.5).
#[derive(Drop)]
pub struct Fragment<'a> {
    /// The datagram that it is of.
    pub original: Original,
    /// What the octets of the datagram begin with, as this fragment says: the number of a protocol
    /// or, in IPv6, of a header.
    pub protocol: u8,
    /// How many octets of the datagram are before it.
    pub offset: u16,
    /// No more octets of the datagram follow it.
    pub is_last: bool,
    /// Its octets.
    pub payload: Payload<'a>,
}

/// The protocol of a packet that an error quotes.
#[derive(Clone, Copy, PartialEq, Eq, Debug)]
pub enum QuotedProtocol {
    /// UDP.
    Udp,
    /// TCP.
    Tcp,
}

/// An error of ICMP (RFC 792) or, from an address of IPv6, of ICMPv6 (RFC 4443, 3).
#[derive(Clone, Copy, PartialEq, Eq, Debug)]
pub struct IcmpError {
    /// Who sent it.
    pub by: IpAddr,
    /// Its type.
    pub error_type: u8,
    /// Its code.
    pub code: u8,
    /// The protocol of the packet that it quotes.
    pub protocol: QuotedProtocol,
    /// The ends of that packet.
    pub ends: Ends,
}

/// What a packet carries.
#[derive(Drop)]
pub enum Contents<'a> {
    /// A UDP datagram.
    Datagram(Datagram<'a>),
    /// A TCP segment.
    Segment(Segment<'a>),
    /// A fragment of a datagram that may carry UDP or TCP, unless it is all of its datagram.
    Fragment(Fragment<'a>),
    /// An error of ICMP that quotes a packet of UDP or TCP.
    Error(IcmpError),
    /// What carries no packet of IP, or a fragment of it: it is passed over.
    Other,
    /// A header of UDP or TCP that is cut or wrong after its ports.
    UnreadBetween(Ends),
    /// A header that is cut or wrong up to there, or the number of a link, of an EtherType or of a
    /// protocol that is not known.
    Unread,
}
