//! The headers of links, and what their numbers say.

ghost use Rattle.std.specs.Prelude.{◌≡◌};
ghost use Rattle.krb_packet.specs.Contents.{bsd_loopback, cooked, cooked_type, ethernet, frame, in_either_order, is_tag, logical_link, of_family, of_type, of_type_or_length, openbsd_loopback, raw_ip, snap, snap_type, tag};

use crate::contents::Contents;
use crate::envelope::{label, session};
use crate::header::{Header, Step};
use crate::internet::{ipv4, ipv6};
use crate::packet::LinkType;
use crate::passed::is_passed_type;
use crate::payload::Payload;

/// EtherTypes.
const IPV4: u16 = 0x0800;

const IPV6: u16 = 0x86DD;

const MPLS: u16 = 0x8847;

const MPLS_MULTICAST: u16 = 0x8848;

const PPPOE: u16 = 0x8864;

const ETHERNET: u16 = 0x6558;

/// The greatest number in Ethernet that is a length (IEEE 802.3, 3.2.6).
const MOST_LENGTH: u16 = 1500;

/// The number in Linux cooked that stands for 802.2.
const COOKED_802_2: u16 = 4;

/// The type of hardware of netlink in Linux cooked.
const NETLINK: u16 = 824;

/// Those with a header of their own: radiotap, and frames of Frame Relay.
const FRAME_RELAY: u16 = 770;

const RADIOTAP: u16 = 803;

/// Returns whether an EtherType is that of a tag.
fn is_tag(kind: u16) -> bool
    ensures { result ≡ is_tag kind }
{
    matches!(kind, 0x8100 | 0x88A8 | 0x9100 | 0x9200 | 0x9300)
}

/// Returns what follows a tag.
#[tactic(auto, unfolding(crate::specs::Contents::tag))]
fn tag<'a>(packet: Payload<'a>) -> Option<Step<'a>>
    ensures { result ≡ tag packet.entry }
{
    let kind = packet.number16(2)?;
    let rest = packet.after(4)?;
    Some(Step::Next(Header::TypeOrLength(kind), rest))
}

/// Returns what follows an EtherType.
#[tactic(auto, unfolding(crate::specs::Contents::of_type))]
pub(crate) fn of_type<'a>(kind: u16, packet: Payload<'a>) -> Option<Step<'a>>
    ensures { result ≡ of_type kind packet.entry }
{
    if kind == IPV4 {
        return ipv4(packet);
    }
    if kind == IPV6 {
        return ipv6(packet);
    }
    if is_tag(kind) {
        return tag(packet);
    }
    if kind == MPLS || kind == MPLS_MULTICAST {
        return label(packet);
    }
    if kind == PPPOE {
        return session(packet);
    }
    if kind == ETHERNET {
        return Some(Step::Next(Header::Ethernet, packet));
    }
    if is_passed_type(kind) {
        return Some(Step::Found(Contents::Other));
    }
    None
}

/// Returns what follows the EtherType in the header of SNAP.
#[tactic(auto, unfolding(crate::specs::Contents::snap_type))]
fn snap_type<'a>(packet: Payload<'a>) -> Option<Step<'a>>
    ensures { result ≡ snap_type packet.entry }
{
    let kind = packet.number16(6)?;
    let rest = packet.after(8)?;
    of_type(kind, rest)
}

/// Returns what follows the header of 802.2 and that of SNAP with which a packet begins.
#[tactic(auto, unfolding(crate::specs::Contents::snap))]
fn snap<'a>(packet: Payload<'a>) -> Option<Step<'a>>
    ensures { result ≡ snap packet.entry }
{
    let high = packet.number16(3)?;
    let low = packet.number8(5)?;
    if high == 0 && (low == 0 || low == 0xF8) {
        return snap_type(packet);
    }
    // Bridged frames.
    if high == 0x0080 && low == 0xC2 {
        return None;
    }
    Some(Step::Found(Contents::Other))
}

/// Returns what follows the header of 802.2 with which a packet begins.
#[tactic(auto, unfolding(crate::specs::Contents::logical_link))]
fn logical_link<'a>(packet: Payload<'a>) -> Option<Step<'a>>
    ensures { result ≡ logical_link packet.entry }
{
    let points = packet.number16(0)?;
    let control = packet.number8(2)?;
    if points == 0xAAAA && control == 3 {
        return snap(packet);
    }
    if points == 0x0606 && control == 3 {
        let rest = packet.after(3)?;
        return ipv4(rest);
    }
    Some(Step::Found(Contents::Other))
}

/// Returns what follows the number in Ethernet or in a tag.
#[tactic(auto, unfolding(crate::specs::Contents::of_type_or_length))]
pub(crate) fn of_type_or_length<'a>(kind: u16, packet: Payload<'a>) -> Option<Step<'a>>
    ensures { result ≡ of_type_or_length kind packet.entry }
{
    if kind <= MOST_LENGTH {
        logical_link(packet)
    } else {
        of_type(kind, packet)
    }
}

/// Returns what follows a header of Ethernet. What is not IP is left to another step.
#[tactic(auto, unfolding(crate::specs::Contents::ethernet))]
#[inline(always)]
pub(crate) fn ethernet<'a>(packet: Payload<'a>) -> Option<Step<'a>>
    ensures { result ≡ ethernet packet.entry }
{
    let kind = packet.number16(12)?;
    let rest = packet.after(14)?;
    match kind {
        IPV4 => ipv4(rest),
        IPV6 => ipv6(rest),
        _ => Some(Step::Next(Header::TypeOrLength(kind), rest)),
    }
}

/// Returns what follows the EtherType `at` octets after the beginning of a header of `size` octets of
/// Linux cooked.
#[tactic(auto, unfolding(crate::specs::Contents::cooked_type))]
fn cooked_type<'a>(at: usize, size: usize, packet: Payload<'a>) -> Option<Step<'a>>
    ensures { result ≡ cooked_type at size packet.entry }
{
    let kind = packet.number16(at)?;
    let rest = packet.after(size)?;
    if kind == COOKED_802_2 {
        logical_link(rest)
    } else {
        of_type(kind, rest)
    }
}

/// Returns what follows a header of `size` octets of Linux cooked, in which the type of hardware
/// follows `hardware_at` octets, and an EtherType `at`.
#[tactic(auto, unfolding(crate::specs::Contents::cooked))]
fn cooked<'a>(hardware_at: usize, at: usize, size: usize, packet: Payload<'a>) -> Option<Step<'a>>
    ensures { result ≡ cooked hardware_at at size packet.entry }
{
    let hardware = packet.number16(hardware_at)?;
    if hardware == NETLINK {
        return Some(Step::Found(Contents::Other));
    }
    if hardware == FRAME_RELAY || hardware == RADIOTAP {
        return None;
    }
    cooked_type(at, size, packet)
}

/// Returns what follows the header of IPv4 or IPv6 with which a packet begins.
#[tactic(auto, unfolding(crate::specs::Contents::raw_ip))]
pub(crate) fn raw_ip<'a>(packet: Payload<'a>) -> Option<Step<'a>>
    ensures { result ≡ raw_ip packet.entry }
{
    let first = packet.number8(0)?;
    match first / 16 {
        4 => ipv4(packet),
        6 => ipv6(packet),
        _ => None,
    }
}

/// Returns what follows an address family.
#[tactic(auto, unfolding(crate::specs::Contents::of_family))]
fn of_family<'a>(family: u32, packet: Payload<'a>) -> Option<Step<'a>>
    ensures { result ≡ of_family family packet.entry }
{
    match family {
        2 => ipv4(packet),
        10 | 23 | 24 | 28 | 30 => ipv6(packet),
        _ => None,
    }
}

/// Returns what follows the header of a loopback of OpenBSD.
#[tactic(auto, unfolding(crate::specs::Contents::openbsd_loopback))]
fn openbsd_loopback<'a>(packet: Payload<'a>) -> Option<Step<'a>>
    ensures { result ≡ openbsd_loopback packet.entry }
{
    let family = packet.number32(0)?;
    let rest = packet.after(4)?;
    of_family(family, rest)
}

/// Returns an address family that is in either byte order.
fn in_either_order(family: u32) -> u32
    ensures { result ≡ in_either_order family }
{
    if family % (1 << 24) == 0 {
        family / (1 << 24)
    } else {
        family
    }
}

/// Returns what follows the header of a loopback of BSD.
#[tactic(auto, unfolding(crate::specs::Contents::bsd_loopback))]
fn bsd_loopback<'a>(packet: Payload<'a>) -> Option<Step<'a>>
    ensures { result ≡ bsd_loopback packet.entry }
{
    let family = packet.number32(0)?;
    let rest = packet.after(4)?;
    of_family(in_either_order(family), rest)
}

/// Returns what follows the header of a link, or `None` if it cannot be read.
#[tactic(auto, unfolding(crate::specs::Contents::frame))]
pub(crate) fn frame<'a>(link: LinkType, packet: Payload<'a>) -> Option<Step<'a>>
    ensures { result ≡ frame link packet.entry }
{
    match link {
        LinkType::Ethernet => ethernet(packet),
        LinkType::LinuxCooked => cooked(2, 14, 16, packet),
        LinkType::LinuxCooked2 => cooked(8, 0, 20, packet),
        LinkType::RawIp => raw_ip(packet),
        LinkType::Ipv4 => ipv4(packet),
        LinkType::Ipv6 => ipv6(packet),
        LinkType::BsdLoopback => bsd_loopback(packet),
        LinkType::OpenBsdLoopback => openbsd_loopback(packet),
        LinkType::Other(_) => None,
    }
}
