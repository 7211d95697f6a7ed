//! Envelopes, in which a packet is carried: MPLS, PPPoE, GRE and ERSPAN.

ghost use Rattle.std.specs.Prelude.{◌≡◌};
ghost use Rattle.krb_packet.specs.Envelopes.{after_labels, gre, label, long_ppp, mirrored2, mirrored3, of_frame_kind, of_gre, of_ppp, pseudowire, session};

use crate::contents::Contents;
use crate::header::{Header, Step};
use crate::payload::Payload;

/// The EtherTypes of what an envelope may carry.
const IPV4: u16 = 0x0800;

const IPV6: u16 = 0x86DD;

const MPLS: u16 = 0x8847;

/// The version, type and code of a PPPoE session.
const SESSION: u16 = 0x1100;

/// The numbers of PPP.
const PPP_IPV4: u16 = 0x0021;

const PPP_IPV6: u16 = 0x0057;

const PPP_MPLS: u16 = 0x0281;

const PPP_MPLS_MULTICAST: u16 = 0x0283;

/// The least number of PPP that sets up the link.
const PPP_CONTROL: u16 = 0x8000;

/// The flags of GRE that are not followed: routing, what is reserved, and the version.
const GRE_UNFOLLOWED: u16 = 0x4C07;

/// The EtherTypes of ERSPAN: of the types I and II, and of type III.
const ERSPAN: u16 = 0x88BE;

const ERSPAN_3: u16 = 0x22EB;

/// Returns what follows the control word of a pseudowire of Ethernet.
#[tactic(auto, unfolding(crate::specs::Envelopes::pseudowire))]
fn pseudowire<'a>(packet: Payload<'a>) -> Option<Step<'a>>
    ensures { result ≡ pseudowire packet.entry }
{
    let flags = packet.number16(0)?;
    let rest = packet.after(4)?;
    if flags != 0 {
        return None;
    }
    Some(Step::Next(Header::Ethernet, rest))
}

/// Returns what follows the last label of MPLS, by its first four bits.
#[tactic(auto, unfolding(crate::specs::Envelopes::after_labels))]
fn after_labels<'a>(packet: Payload<'a>) -> Option<Step<'a>>
    ensures { result ≡ after_labels packet.entry }
{
    let first = packet.number8(0)?;
    match first / 16 {
        4 | 6 => Some(Step::Next(Header::Internet, packet)),
        1 => Some(Step::Found(Contents::Other)),
        _ => pseudowire(packet),
    }
}

/// Returns what follows a label of MPLS.
#[tactic(auto, unfolding(crate::specs::Envelopes::label))]
pub(crate) fn label<'a>(packet: Payload<'a>) -> Option<Step<'a>>
    ensures { result ≡ label packet.entry }
{
    let third = packet.number8(2)?;
    let rest = packet.after(4)?;
    if third % 2 == 0 {
        Some(Step::Next(Header::Type(MPLS), rest))
    } else {
        after_labels(rest)
    }
}

/// Returns what follows a number of PPP.
#[tactic(auto, unfolding(crate::specs::Envelopes::of_ppp))]
fn of_ppp<'a>(number: u16, packet: Payload<'a>) -> Option<Step<'a>>
    ensures { result ≡ of_ppp number packet.entry }
{
    match number {
        PPP_IPV4 => Some(Step::Next(Header::Type(IPV4), packet)),
        PPP_IPV6 => Some(Step::Next(Header::Type(IPV6), packet)),
        PPP_MPLS | PPP_MPLS_MULTICAST => Some(Step::Next(Header::Type(MPLS), packet)),
        _ => {
            if number >= PPP_CONTROL {
                return Some(Step::Found(Contents::Other));
            }
            None
        }
    }
}

/// Returns what follows the header of PPPoE and a number of PPP that has two octets.
#[tactic(auto, unfolding(crate::specs::Envelopes::long_ppp))]
fn long_ppp<'a>(packet: Payload<'a>) -> Option<Step<'a>>
    ensures { result ≡ long_ppp packet.entry }
{
    let number = packet.number16(6)?;
    let rest = packet.after(8)?;
    of_ppp(number, rest)
}

/// Returns what follows the header of a PPPoE session.
#[tactic(auto, unfolding(crate::specs::Envelopes::session))]
pub(crate) fn session<'a>(packet: Payload<'a>) -> Option<Step<'a>>
    ensures { result ≡ session packet.entry }
{
    let version = packet.number16(0)?;
    let first = packet.number8(6)?;
    if version != SESSION {
        return None;
    }
    if first % 2 == 1 {
        let rest = packet.after(7)?;
        of_ppp(u16::from(first), rest)
    } else {
        long_ppp(packet)
    }
}

/// Returns what follows a header of ERSPAN of type II.
#[tactic(auto, unfolding(crate::specs::Envelopes::mirrored2))]
fn mirrored2<'a>(packet: Payload<'a>) -> Option<Step<'a>>
    ensures { result ≡ mirrored2 packet.entry }
{
    let first = packet.number8(0)?;
    let rest = packet.after(8)?;
    if first / 16 != 1 {
        return None;
    }
    Some(Step::Next(Header::Ethernet, rest))
}

/// Returns what a frame of this kind begins with, in ERSPAN of type III.
#[tactic(auto, unfolding(crate::specs::Envelopes::of_frame_kind))]
fn of_frame_kind<'a>(kind: u8, packet: Payload<'a>) -> Option<Step<'a>>
    ensures { result ≡ of_frame_kind kind packet.entry }
{
    match kind {
        0 => Some(Step::Next(Header::Ethernet, packet)),
        2 => Some(Step::Next(Header::Internet, packet)),
        _ => None,
    }
}

/// Returns what follows a header of ERSPAN of type III.
#[tactic(auto, unfolding(crate::specs::Envelopes::mirrored3))]
fn mirrored3<'a>(packet: Payload<'a>) -> Option<Step<'a>>
    ensures { result ≡ mirrored3 packet.entry }
{
    let first = packet.number8(0)?;
    let kind = packet.number8(10)?;
    let last = packet.number8(11)?;
    let rest = packet.after(usize::from(last % 2) * 8 + 12)?;
    if first / 16 != 2 {
        return None;
    }
    of_frame_kind(kind / 4 % 32, rest)
}

/// Returns what follows a header of GRE, by its EtherType, and whether it has a sequence number.
#[tactic(auto, unfolding(crate::specs::Envelopes::of_gre))]
fn of_gre<'a>(is_numbered: bool, kind: u16, packet: Payload<'a>) -> Option<Step<'a>>
    ensures { result ≡ of_gre is_numbered kind packet.entry }
{
    match kind {
        ERSPAN => {
            if is_numbered {
                return mirrored2(packet);
            }
            Some(Step::Next(Header::Ethernet, packet))
        }
        ERSPAN_3 => mirrored3(packet),
        _ => Some(Step::Next(Header::Type(kind), packet)),
    }
}

/// Returns what follows a header of GRE.
#[tactic(auto, unfolding(crate::specs::Envelopes::gre))]
pub(crate) fn gre<'a>(packet: Payload<'a>) -> Option<Step<'a>>
    ensures { result ≡ gre packet.entry }
{
    let flags = packet.number16(0)?;
    let kind = packet.number16(2)?;
    // A checksum, a key and a sequence number, each if its flag is set.
    let options = flags / (1 << 15) + flags / (1 << 13) % 2 + flags / (1 << 12) % 2;
    let rest = packet.after(usize::from(options) * 4 + 4)?;
    if flags & GRE_UNFOLLOWED != 0 {
        return None;
    }
    of_gre(flags / (1 << 12) % 2 == 1, kind, rest)
}
