//! Errors of ICMP (RFC 792) and ICMPv6 (RFC 4443, 3), which quote the packet that they are about.

ghost use Rattle.std.specs.Prelude.{◌≡◌};
ghost use Rattle.krb_packet.specs.Icmp.{error, icmp, is_error, is_first, is_passed_in_quote, protocol_of, quoted, quoted4, quoted6, quoted_after, skip_quoted};

use crate::contents::{Contents, Ends, IcmpError, QuotedProtocol};
use crate::header::Addresses;
use crate::internet::{FRAGMENT, TCP, UDP, addresses4, addresses6, extension, is_option_header};
use crate::payload::Payload;
use crate::transport::ends;
use std::net::IpAddr;

/// The protocols.
const ICMP: u8 = 1;

const ICMPV6: u8 = 58;

/// How many octets an error has before the packet that it quotes.
const ERROR_HEADER: usize = 8;

/// Returns whether a message between two addresses is an error: of ICMP an unreachable destination, a
/// time that is exceeded or a problem with a parameter, of ICMPv6 one of the first four types.
fn is_error(source: IpAddr, protocol: u8, error_type: u8) -> bool
    ensures { result ≡ is_error source protocol error_type }
{
    match source {
        IpAddr::V4(_) => protocol == ICMP && matches!(error_type, 3 | 11 | 12),
        IpAddr::V6(_) => protocol == ICMPV6 && matches!(error_type, 1..=4),
    }
}

/// Returns what a packet of ICMP carries: an error that quotes a packet of UDP or TCP, or what is
/// passed over.
pub(crate) fn icmp<'a>(addresses: Addresses, protocol: u8, packet: &Payload<'a>) -> Contents<'a>
    ensures { result ≡ icmp addresses protocol packet.now }
{
    match error(addresses.source, protocol, packet) {
        Some(error) => Contents::Error(error),
        None => Contents::Other,
    }
}

/// Returns an error that quotes a packet of UDP or TCP.
#[tactic(auto, unfolding(crate::specs::Icmp::error))]
fn error(by: IpAddr, protocol: u8, packet: &Payload<'_>) -> Option<IcmpError>
    ensures { result ≡ error by protocol packet.now }
{
    let quote = packet.after(ERROR_HEADER)?;
    let error_type = packet.number8(0)?;
    let code = packet.number8(1)?;
    if !is_error(by, protocol, error_type) {
        return None;
    }
    let (protocol, ends) = quoted(quote)?;
    Some(IcmpError {
        by,
        error_type,
        code,
        protocol,
        ends,
    })
}

/// Returns the protocol and the ends of a packet of IP that is quoted.
#[tactic(auto, unfolding(crate::specs::Icmp::quoted))]
fn quoted(packet: Payload<'_>) -> Option<(QuotedProtocol, Ends)>
    ensures { result ≡ quoted packet.entry }
{
    match packet.number8(0)? / 16 {
        4 => quoted4(packet),
        6 => quoted6(packet),
        _ => None,
    }
}

/// Returns those of a packet of IPv4 that is no later fragment.
#[tactic(auto, unfolding(crate::specs::Icmp::quoted4))]
fn quoted4(packet: Payload<'_>) -> Option<(QuotedProtocol, Ends)>
    ensures { result ≡ quoted4 packet.entry }
{
    let target = packet.field::<4>(16)?;
    let first = packet.number8(0)?;
    let flags = packet.number16(6)?;
    let protocol = packet.number8(9)?;
    let source = packet.field::<4>(12)?;
    let words = first % 16;
    let payload = packet.after(usize::from(words) * 4)?;
    if words < 5 || flags % (1 << 13) != 0 {
        return None;
    }
    quoted_after(addresses4(source, target), protocol, &payload)
}

/// Returns those of a packet of IPv6 that is no later fragment.
#[tactic(auto, unfolding(crate::specs::Icmp::quoted6))]
fn quoted6(packet: Payload<'_>) -> Option<(QuotedProtocol, Ends)>
    ensures { result ≡ quoted6 packet.entry }
{
    let target = packet.field::<16>(24)?;
    let kind = packet.number8(6)?;
    let source = packet.field::<16>(8)?;
    let rest = packet.after(40)?;
    let (protocol, payload) = skip_quoted(rest.octets().len() + 1, kind, rest)?;
    quoted_after(addresses6(source, target), protocol, &payload)
}

/// Returns whether the header of a fragment is that of the first one.
#[tactic(auto, unfolding(crate::specs::Icmp::is_first))]
fn is_first(packet: &Payload<'_>) -> bool
    ensures { result ≡ is_first packet.now }
{
    match packet.number16(2) {
        Some(offset) => offset / 8 == 0,
        None => false,
    }
}

/// Returns whether a header is passed before the protocol of a packet that is quoted.
fn is_passed_in_quote(kind: u8, packet: &Payload<'_>) -> bool
    ensures { result ≡ is_passed_in_quote kind packet.now }
{
    is_option_header(kind) || kind == FRAGMENT && is_first(packet)
}

/// Returns the kind of the header after at most `most` that are passed, and what it begins.
fn skip_quoted<'a>(most: usize, kind: u8, packet: Payload<'a>) -> Option<(u8, Payload<'a>)>
    ensures { result ≡ skip_quoted most kind packet.entry }
{
    let mut kind = kind;
    let mut packet = packet;
    for _ in 0..most {
        if !is_passed_in_quote(kind, &packet) {
            return Some((kind, packet));
        }
        let (next, rest) = extension(kind, packet)?;
        kind = next;
        packet = rest;
    }
    None
}

/// Returns the protocol of a packet that is quoted, if that is UDP or TCP.
fn protocol_of(protocol: u8) -> Option<QuotedProtocol>
    ensures { result ≡ protocol_of protocol }
{
    match protocol {
        UDP => Some(QuotedProtocol::Udp),
        TCP => Some(QuotedProtocol::Tcp),
        _ => None,
    }
}

/// Returns the protocol and the ends of a packet that is quoted, by what follows the header of IP.
#[tactic(auto, unfolding(crate::specs::Icmp::quoted_after))]
fn quoted_after(
    addresses: Addresses,
    protocol: u8,
    packet: &Payload<'_>,
) -> Option<(QuotedProtocol, Ends)>
    ensures { result ≡ quoted_after addresses protocol packet.now }
{
    let protocol = protocol_of(protocol)?;
    let ends = ends(addresses.source, addresses.target, packet)?;
    Some((protocol, ends))
}
