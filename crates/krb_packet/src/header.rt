//! The headers of a packet, each of which says what follows it.

use crate::contents::Contents;
use crate::payload::Payload;
use std::net::IpAddr;

/// Where a packet of IP comes from and goes to. It is public for contracts alone.
#[derive(Clone, Copy)]
pub struct Addresses {
    pub(crate) source: IpAddr,
    pub(crate) target: IpAddr,
}

/// What octets begin with, as the header before them says. It is public for contracts alone.
#[derive(Clone, Copy)]
pub enum Header {
    /// Ethernet.
    Ethernet,
    /// What the number in Ethernet or in a tag says: an EtherType, or a length before 802.2.
    TypeOrLength(u16),
    /// What an EtherType says.
    Type(u16),
    /// IPv4 or IPv6, as the version says.
    Internet,
    /// What the number of a protocol says in a packet of IP or, in IPv6, that of a header.
    Protocol(Addresses, u8),
    /// The same in a packet of IP of any version, of a protocol that is neither UDP nor TCP and no
    /// extension header.
    Other(Addresses, u8),
    /// UDP, to the port of a tunnel.
    Tunnel(Addresses),
}

/// What comes of a header. It is public for contracts alone.
#[derive(Drop)]
pub enum Step<'a> {
    /// Another header, and the octets that it begins.
    Next(Header, Payload<'a>),
    /// What the packet carries.
    Found(Contents<'a>),
}
