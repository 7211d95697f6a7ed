//! The headers of UDP (RFC 768) and TCP (RFC 9293, 3.1).

ghost use Rattle.std.specs.Prelude.{◌≡◌};
ghost use Rattle.krb_packet.specs.Contents.{datagram, datagram_or_tunnel, ends, or_unread_between, segment, tcp, udp};

use crate::contents::{Contents, Datagram, Ends, Segment};
use crate::header::{Addresses, Header, Step};
use crate::payload::Payload;
use crate::tunnel::{is_served, is_tunnel, tunnel};
use krb_source::Endpoint;
use std::net::IpAddr;

/// How many octets a header of UDP has.
const UDP_HEADER: u16 = 8;

/// The flags of a segment.
const FIN: u8 = 1;

const SYN: u8 = 2;

const RST: u8 = 4;

const ACK: u8 = 16;

/// Returns the datagram between two ends that a packet carries, or `None` if the header is cut or
/// wrong.
#[tactic(auto, unfolding(crate::specs::Contents::datagram))]
#[inline(always)]
fn datagram<'a>(ends: &Ends, packet: &Payload<'a>) -> Option<Contents<'a>>
    ensures { result ≡ datagram ends.now packet.now }
{
    // With these octets all fields were captured.
    let rest = packet.after(8)?;
    let length = packet.number16(4)?;
    if length < UDP_HEADER {
        return None;
    }
    let size = length - UDP_HEADER;
    Some(Contents::Datagram(Datagram {
        source: ends.source,
        target: ends.target,
        payload: rest.within(u64::from(size)),
        surplus: rest.past(usize::from(size)),
    }))
}

/// Returns the segment between two ends that a packet carries, or `None` if the header is cut
/// before its options, or wrong.
#[tactic(auto, unfolding(crate::specs::Contents::segment))]
#[inline(always)]
fn segment<'a>(ends: &Ends, packet: &Payload<'a>) -> Option<Contents<'a>>
    ensures { result ≡ segment ends.now packet.now }
{
    // The fields before the options were captured.
    packet.after(20)?;
    let sequence = packet.number32(4)?;
    let words = packet.number8(12)? / 16;
    let flags = packet.number8(13)?;
    let payload = packet.beyond(usize::from(words) * 4)?;
    if words < 5 {
        return None;
    }
    Some(Contents::Segment(Segment {
        source: ends.source,
        target: ends.target,
        sequence,
        fin: flags & FIN != 0,
        syn: flags & SYN != 0,
        rst: flags & RST != 0,
        ack: flags & ACK != 0,
        payload,
    }))
}

/// Returns the ends by the ports with which the headers of UDP and TCP begin.
#[tactic(auto, unfolding(crate::specs::Headers::ends))]
#[inline(always)]
pub(crate) fn ends(source: IpAddr, target: IpAddr, packet: &Payload<'_>) -> Option<Ends>
    ensures { result ≡ ends source target packet.now }
{
    // With this field the other one was captured, too.
    let target_port = packet.number16(2)?;
    let source_port = packet.number16(0)?;
    Some(Ends {
        source: Endpoint {
            address: source,
            port: source_port,
        },
        target: Endpoint {
            address: target,
            port: target_port,
        },
    })
}

/// Returns what was read, or that it could not be.
#[inline(always)]
fn or_unread_between<'a>(ends: &Ends, read: Option<Contents<'a>>) -> Contents<'a>
    ensures { result ≡ or_unread_between ends.now read.entry }
{
    match read {
        Some(contents) => contents,
        None => Contents::UnreadBetween(*ends),
    }
}

/// Returns the datagram of UDP that a packet carries, or that it may be a tunnel.
#[tactic(auto, unfolding(crate::specs::Contents::udp))]
#[inline(always)]
pub(crate) fn udp<'a>(addresses: Addresses, packet: Payload<'a>) -> Option<Step<'a>>
    ensures { result ≡ udp addresses packet.entry }
{
    let ends = ends(addresses.source, addresses.target, &packet)?;
    if is_tunnel(ends.target.port) {
        return Some(Step::Next(Header::Tunnel(addresses), packet));
    }
    Some(Step::Found(or_unread_between(&ends, datagram(&ends, &packet))))
}

/// Returns what a packet of UDP to the port of a tunnel carries: a datagram, if it is between ports of
/// Kerberos, and else a tunnel.
#[tactic(auto, unfolding(crate::specs::Contents::datagram_or_tunnel))]
pub(crate) fn datagram_or_tunnel<'a>(
    port: u16,
    addresses: Addresses,
    packet: &Payload<'a>,
) -> Option<Step<'a>>
    ensures { result ≡ datagram_or_tunnel port addresses packet.now }
{
    let ends = ends(addresses.source, addresses.target, packet)?;
    if is_served(port, &ends) {
        return Some(Step::Found(or_unread_between(&ends, datagram(&ends, packet))));
    }
    tunnel(&ends, packet)
}

/// Returns the segment of TCP that a packet carries.
#[tactic(auto, unfolding(crate::specs::Contents::tcp))]
#[inline(always)]
pub(crate) fn tcp<'a>(addresses: Addresses, packet: Payload<'a>) -> Option<Step<'a>>
    ensures { result ≡ tcp addresses packet.entry }
{
    let ends = ends(addresses.source, addresses.target, &packet)?;
    Some(Step::Found(or_unread_between(&ends, segment(&ends, &packet))))
}
