//! The walk from one header of a packet to the next.

ghost use Rattle.std.specs.Prelude.{◌≡◌};
ghost use Rattle.krb_packet.specs.Contents.{or_unread, step, walk};

use crate::contents::Contents;
use crate::header::{Header, Step};
use crate::internet::{of_other_protocol, payload_of};
use crate::link::{ethernet, of_type, of_type_or_length, raw_ip};
use crate::payload::Payload;
use crate::transport::datagram_or_tunnel;

/// Returns what comes of a header.
#[tactic(auto, unfolding(crate::specs::Contents::step))]
fn step<'a>(port: u16, header: Header, packet: Payload<'a>) -> Option<Step<'a>>
    ensures { result ≡ step port header packet.entry }
{
    match header {
        Header::Ethernet => ethernet(packet),
        Header::TypeOrLength(kind) => of_type_or_length(kind, packet),
        Header::Type(kind) => of_type(kind, packet),
        Header::Internet => raw_ip(packet),
        Header::Protocol(addresses, kind) => payload_of(addresses, kind, packet),
        Header::Other(addresses, kind) => of_other_protocol(addresses, kind, packet),
        Header::Tunnel(addresses) => datagram_or_tunnel(port, addresses, &packet),
    }
}

/// Returns what is found at the end of at most `most` headers, the first of which is given, or
/// `None` if one of them cannot be read. `port` is that of KDCs.
fn walk<'a>(port: u16, most: usize, header: Header, packet: Payload<'a>) -> Option<Contents<'a>>
    ensures { result ≡ walk port most header packet.entry }
{
    let mut header = header;
    let mut packet = packet;
    for _ in 0..most {
        match step(port, header, packet)? {
            Step::Found(contents) => return Some(contents),
            Step::Next(next, rest) => {
                header = next;
                packet = rest;
            }
        }
    }
    None
}

/// Returns the same, or that it cannot be read.
#[inline(never)]
pub(crate) fn walk_or_unread<'a>(
    port: u16,
    most: usize,
    header: Header,
    packet: Payload<'a>,
) -> Contents<'a>
    ensures { result ≡ or_unread (walk port most header packet.entry) }
{
    match walk(port, most, header, packet) {
        Some(contents) => contents,
        None => Contents::Unread,
    }
}
