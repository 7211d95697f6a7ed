//! The headers of IPv4 (RFC 791, 3.1) and IPv6 (RFC 8200, 3 and 4).

ghost use Rattle.std.specs.Prelude.{◌≡◌};
ghost use Rattle.krb_packet.specs.declared.contents.Contents.TheVariants as kinds;
ghost use Rattle.krb_packet.specs.Contents.{addresses4, addresses6, after_headers, announced, authentication, extension, extensions, fragment, fragment_header, ipv4, ipv6, is_followed, is_option_header, is_skipped, is_whole, may_lead_on, of_fragment, of_other_protocol, of_protocol, options, payload_of};

use crate::contents::{Contents, Fragment, Original};
use crate::envelope::gre;
use crate::header::{Addresses, Header, Step};
use crate::icmp::icmp;
use crate::passed::is_passed_protocol;
use crate::payload::Payload;
use crate::transport::{tcp, udp};
use std::net::{IpAddr, Ipv4Addr, Ipv6Addr};

/// The protocols.
pub(crate) const TCP: u8 = 6;

pub(crate) const UDP: u8 = 17;

const ICMP: u8 = 1;

const ICMPV6: u8 = 58;

const AUTHENTICATION: u8 = 51;

const IPV4: u8 = 4;

const IPV6: u8 = 41;

const GRE: u8 = 47;

/// The EtherTypes of IP in IP.
const IPV4_TYPE: u16 = 0x0800;

const IPV6_TYPE: u16 = 0x86DD;

/// How many octets the header of IPv6 has.
const IPV6_HEADER: usize = 40;

/// The extension headers.
const HOP_BY_HOP_OPTIONS: u8 = 0;

const ROUTING: u8 = 43;

pub(crate) const FRAGMENT: u8 = 44;

const DESTINATION_OPTIONS: u8 = 60;

/// Returns whether a protocol is followed.
fn is_followed(protocol: u8) -> bool
    ensures { result ≡ is_followed protocol }
{
    matches!(protocol, UDP | TCP | AUTHENTICATION | IPV4 | IPV6 | GRE)
}

/// Returns whether a header is that of a protocol that is followed, or one that may come before it
/// in IPv6.
fn may_lead_on(kind: u8) -> bool
    ensures { result ≡ may_lead_on kind }
{
    is_followed(kind)
        || matches!(
            kind,
            HOP_BY_HOP_OPTIONS | ROUTING | FRAGMENT | DESTINATION_OPTIONS
        )
}

/// Returns what follows an authentication header.
#[tactic(auto, unfolding(crate::specs::Contents::authentication))]
fn authentication<'a>(addresses: Addresses, packet: Payload<'a>) -> Option<Step<'a>>
    ensures { result ≡ authentication addresses packet.entry }
{
    let protocol = packet.number8(0)?;
    let words = packet.number8(1)?;
    let rest = packet.after(usize::from(words) * 4 + 8)?;
    if words < 1 {
        return None;
    }
    Some(Step::Next(Header::Protocol(addresses, protocol), rest))
}

/// Returns what a protocol begins that is neither UDP nor TCP.
#[tactic(auto, unfolding(crate::specs::Contents::of_other_protocol))]
pub(crate) fn of_other_protocol<'a>(
    addresses: Addresses,
    protocol: u8,
    packet: Payload<'a>,
) -> Option<Step<'a>>
    ensures { result ≡ of_other_protocol addresses protocol packet.entry }
{
    match protocol {
        AUTHENTICATION => authentication(addresses, packet),
        IPV4 => Some(Step::Next(Header::Type(IPV4_TYPE), packet)),
        IPV6 => Some(Step::Next(Header::Type(IPV6_TYPE), packet)),
        GRE => gre(packet),
        ICMP | ICMPV6 => Some(Step::Found(icmp(addresses, protocol, &packet))),
        _ => {
            if is_passed_protocol(protocol) {
                return Some(Step::Found(Contents::Other));
            }
            None
        }
    }
}

/// Returns what follows the header of IP, by its protocol. What is neither UDP nor TCP is left to
/// another step, so that a call takes nothing of the time of these.
#[tactic(auto, unfolding(crate::specs::Contents::of_protocol))]
#[inline(always)]
fn of_protocol<'a>(addresses: Addresses, protocol: u8, packet: Payload<'a>) -> Option<Step<'a>>
    ensures { result ≡ of_protocol addresses protocol packet.entry }
{
    match protocol {
        UDP => udp(addresses, packet),
        TCP => tcp(addresses, packet),
        _ => Some(Step::Next(Header::Other(addresses, protocol), packet)),
    }
}

/// Returns a fragment of a protocol, if it is kept.
#[tactic(auto, unfolding(crate::specs::Contents::of_fragment))]
#[inline(always)]
fn of_fragment<'a>(is_kept: bool, protocol: u8, fragment: Fragment<'a>) -> Option<Step<'a>>
    ensures { result ≡ of_fragment is_kept protocol (kinds.Fragment fragment.entry) }
{
    if is_kept {
        return Some(Step::Found(Contents::Fragment(fragment)));
    }
    if is_passed_protocol(protocol) {
        return Some(Step::Found(Contents::Other));
    }
    None
}

/// Returns as much of a packet as its header announces, or all of it if it announces 0.
#[tactic(auto, unfolding(crate::specs::Contents::announced))]
fn announced<'a>(size: u16, packet: Payload<'a>) -> Payload<'a>
    ensures { result ≡ announced size packet.entry }
{
    if size == 0 {
        packet
    } else {
        packet.within(u64::from(size))
    }
}

/// Returns two addresses of IPv4.
#[inline(always)]
pub(crate) fn addresses4(source: [u8; 4], target: [u8; 4]) -> Addresses
    ensures { result ≡ addresses4 source target }
{
    Addresses {
        source: IpAddr::V4(Ipv4Addr::from_octets(source)),
        target: IpAddr::V4(Ipv4Addr::from_octets(target)),
    }
}

/// Returns two addresses of IPv6.
#[inline(always)]
pub(crate) fn addresses6(source: [u8; 16], target: [u8; 16]) -> Addresses
    ensures { result ≡ addresses6 source target }
{
    Addresses {
        source: IpAddr::V6(Ipv6Addr::from_octets(source)),
        target: IpAddr::V6(Ipv6Addr::from_octets(target)),
    }
}

/// Returns what follows a header of IPv4.
#[tactic(auto, unfolding(crate::specs::Contents::ipv4))]
pub(crate) fn ipv4<'a>(packet: Payload<'a>) -> Option<Step<'a>>
    ensures { result ≡ ipv4 packet.entry }
{
    // With this field all others were captured, too.
    let target = packet.field::<4>(16)?;
    let first = packet.number8(0)?;
    let total = packet.number16(2)?;
    let identification = packet.number16(4)?;
    let flags = packet.number16(6)?;
    let protocol = packet.number8(9)?;
    let source = packet.field::<4>(12)?;
    let words = first % 16;
    let payload = announced(total, packet).after(usize::from(words) * 4)?;
    if first / 16 != 4 || words < 5 {
        return None;
    }
    let addresses = addresses4(source, target);
    if flags % (1 << 14) == 0 {
        return of_protocol(addresses, protocol, payload);
    }
    let fragment = Fragment {
        original: Original {
            source: addresses.source,
            target: addresses.target,
            identification: u32::from(identification),
            protocol: Some(protocol),
        },
        protocol,
        offset: flags % (1 << 13) * 8,
        is_last: flags / (1 << 13) % 2 == 0,
        payload,
    };
    of_fragment(is_followed(protocol), protocol, fragment)
}

/// Returns the kind of the header after one of options, and what it begins.
#[tactic(auto, unfolding(crate::specs::Headers::options))]
fn options<'a>(packet: Payload<'a>) -> Option<(u8, Payload<'a>)>
    ensures { result ≡ options packet.entry }
{
    let next = packet.number8(0)?;
    let size = packet.number8(1)?;
    let rest = packet.after(usize::from(size) * 8 + 8)?;
    Some((next, rest))
}

/// Returns the kind of the header after that of a fragment, and what it begins.
#[tactic(auto, unfolding(crate::specs::Headers::fragment_header))]
fn fragment_header<'a>(packet: Payload<'a>) -> Option<(u8, Payload<'a>)>
    ensures { result ≡ fragment_header packet.entry }
{
    let next = packet.number8(0)?;
    let rest = packet.after(8)?;
    Some((next, rest))
}

/// Returns whether the header of a fragment is that of all of its datagram.
#[tactic(auto, unfolding(crate::specs::Contents::is_whole))]
fn is_whole(packet: &Payload<'_>) -> bool
    ensures { result ≡ is_whole packet.now }
{
    match packet.number16(2) {
        Some(offset) => offset / 8 == 0 && offset % 2 == 0,
        None => false,
    }
}

/// Returns whether a header is one of options or of routing.
pub(crate) fn is_option_header(kind: u8) -> bool
    ensures { result ≡ is_option_header kind }
{
    matches!(kind, HOP_BY_HOP_OPTIONS | ROUTING | DESTINATION_OPTIONS)
}

/// Returns whether a header is an extension header that is passed.
fn is_skipped(kind: u8, packet: &Payload<'_>) -> bool
    ensures { result ≡ is_skipped kind packet.now }
{
    match kind {
        HOP_BY_HOP_OPTIONS | ROUTING | DESTINATION_OPTIONS => true,
        FRAGMENT => is_whole(packet),
        _ => false,
    }
}

/// Returns the kind of the header after an extension header, and what it begins.
#[tactic(auto, unfolding(crate::specs::Headers::extension))]
pub(crate) fn extension<'a>(kind: u8, packet: Payload<'a>) -> Option<(u8, Payload<'a>)>
    ensures { result ≡ extension kind packet.entry }
{
    if kind == FRAGMENT {
        fragment_header(packet)
    } else {
        options(packet)
    }
}

/// Returns the kind of the header after all extension headers that are passed, and what it begins.
fn extensions<'a>(most: usize, kind: u8, packet: Payload<'a>) -> Option<(u8, Payload<'a>)>
    ensures { result ≡ extensions most kind packet.entry }
{
    let mut kind = kind;
    let mut packet = packet;
    for _ in 0..most {
        if !is_skipped(kind, &packet) {
            return Some((kind, packet));
        }
        let (next, rest) = extension(kind, packet)?;
        kind = next;
        packet = rest;
    }
    None
}

/// Returns the fragment whose header a packet begins with.
#[tactic(auto, unfolding(crate::specs::Contents::fragment))]
fn fragment<'a>(addresses: Addresses, packet: &Payload<'a>) -> Option<Step<'a>>
    ensures { result ≡ fragment addresses packet.now }
{
    let next = packet.number8(0)?;
    let offset = packet.number16(2)?;
    let identification = packet.number32(4)?;
    let payload = packet.after(8)?;
    let fragment = Fragment {
        original: Original {
            source: addresses.source,
            target: addresses.target,
            identification,
            protocol: None,
        },
        protocol: next,
        offset: offset / 8 * 8,
        is_last: offset % 2 == 0,
        payload,
    };
    of_fragment(may_lead_on(next), next, fragment)
}

/// Returns what follows the extension headers of IPv6, the first of which is of this kind.
#[tactic(auto, unfolding(crate::specs::Contents::after_headers))]
fn after_headers<'a>(addresses: Addresses, kind: u8, packet: Payload<'a>) -> Option<Step<'a>>
    ensures { result ≡ after_headers addresses kind packet.entry }
{
    let (kind, packet) = extensions(packet.octets().len() + 1, kind, packet)?;
    if kind == FRAGMENT {
        fragment(addresses, &packet)
    } else {
        of_protocol(addresses, kind, packet)
    }
}

/// Returns what follows a header of IPv6.
#[tactic(auto, unfolding(crate::specs::Contents::ipv6))]
pub(crate) fn ipv6<'a>(packet: Payload<'a>) -> Option<Step<'a>>
    ensures { result ≡ ipv6 packet.entry }
{
    // With these octets all fields were captured.
    let rest = packet.after(IPV6_HEADER)?;
    let first = packet.number8(0)?;
    let size = packet.number16(4)?;
    let kind = packet.number8(6)?;
    let source = packet.field::<16>(8)?;
    let target = packet.field::<16>(24)?;
    if first / 16 != 6 {
        return None;
    }
    let addresses = addresses6(source, target);
    after_headers(addresses, kind, announced(size, rest))
}

/// Returns what follows a header of IP, whose version the addresses have.
#[tactic(auto, unfolding(crate::specs::Contents::payload_of))]
pub(crate) fn payload_of<'a>(
    addresses: Addresses,
    kind: u8,
    packet: Payload<'a>,
) -> Option<Step<'a>>
    ensures { result ≡ payload_of addresses kind packet.entry }
{
    match addresses.source {
        IpAddr::V4(_) => of_protocol(addresses, kind, packet),
        IpAddr::V6(_) => after_headers(addresses, kind, packet),
    }
}
