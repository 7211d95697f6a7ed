//! Packets, as a capture file has them.

ghost use Rattle.std.specs.Prelude.{◌≡◌, max, length};
ghost use Rattle.krb_packet.specs.Values.{link_type, time_at, time_of};
ghost use Rattle.krb_packet.specs.Contents.{contents_of};

use crate::contents::Contents;
use crate::header::Step;
use crate::link::frame;
use crate::payload::Payload;
use crate::walk::walk_or_unread;
use krb_der::Octets;
use krb_source::Timestamp;

/// What a packet was captured from, which says what its first header is.
#[derive(Clone, Copy, PartialEq, Eq, Debug)]
pub enum LinkType {
    /// Ethernet (1).
    Ethernet,
    /// Linux cooked (113).
    LinuxCooked,
    /// Linux cooked of version 2 (276).
    LinuxCooked2,
    /// IPv4 or IPv6 (12, 14 and 101).
    RawIp,
    /// IPv4 (228).
    Ipv4,
    /// IPv6 (229).
    Ipv6,
    /// Loopback of BSD (0).
    BsdLoopback,
    /// Loopback of OpenBSD (108).
    OpenBsdLoopback,
    /// Another one.
    Other(u32),
}

impl LinkType {
    /// Returns the type of a number.
    pub fn of(number: u32) -> LinkType
        ensures { result ≡ link_type number }
    {
        match number {
            1 => LinkType::Ethernet,
            113 => LinkType::LinuxCooked,
            276 => LinkType::LinuxCooked2,
            12 | 14 | 101 => LinkType::RawIp,
            228 => LinkType::Ipv4,
            229 => LinkType::Ipv6,
            0 => LinkType::BsdLoopback,
            108 => LinkType::OpenBsdLoopback,
            _ => LinkType::Other(number),
        }
    }
}

/// How many nanoseconds a second has.
pub(crate) const NANOSECONDS: u64 = 1_000_000_000;

/// Returns the time of these seconds and nanoseconds, or `None` if the seconds are 0 or above
/// 4294967295.
pub(crate) fn time_at(seconds: u128, nanoseconds: u32) -> Option<Timestamp>
    ensures { result ≡ time_at seconds nanoseconds }
{
    if seconds == 0 || seconds >= 1 << 32 {
        return None;
    }
    Some(Timestamp {
        seconds: seconds as u32,
        nanoseconds,
    })
}

/// Returns the time of these nanoseconds, or `None` if its seconds are 0 or above 4294967295.
pub(crate) fn time_of(nanoseconds: u64) -> Option<Timestamp>
    ensures { result ≡ time_of nanoseconds }
{
    let seconds = nanoseconds / NANOSECONDS;
    time_at(u128::from(seconds), (nanoseconds % NANOSECONDS) as u32)
}

/// A packet of a capture file.
#[derive(Drop)]
pub struct Packet {
    /// Which one of the file it is, from 1.
    pub number: u64,
    /// When it was captured, if the file says so.
    pub time: Option<Timestamp>,
    /// What it was captured from.
    pub link: LinkType,
    /// The octets that were captured.
    pub octets: Octets,
    /// How many octets it had on the wire.
    pub size: u32,
}

/// Returns what a packet carries: a UDP datagram or a TCP segment, whose octets are borrowed from
/// it. Octets after the length that IP announces are padding, and no part of them. `port` is that of
/// KDCs: a datagram to or from it, or the port of changes of passwords, is no tunnel.
pub fn contents_of(packet: &Packet, port: u16) -> Contents<'_>
    ensures { result ≡ contents_of port packet.now.link (record { octets = packet.now.octets; size = max packet.now.size (length packet.now.octets) }) }
{
    let octets = packet.octets.as_slice();
    match frame(packet.link, Payload::new(octets, u64::from(packet.size))) {
        Some(Step::Found(contents)) => contents,
        Some(Step::Next(header, rest)) => walk_or_unread(port, octets.len(), header, rest),
        None => Contents::Unread,
    }
}
