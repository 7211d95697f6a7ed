//! Envelopes in datagrams of UDP.

ghost use Rattle.std.specs.Prelude.{◌≡◌};
ghost use Rattle.krb_packet.specs.Tunnels.{beside_esp, geneve, is_followed_port, is_other_tunnel, is_served, is_tunnel, keep_alive, key_exchange, of_port, or_answer, payload, tunnel, vxlan};

use crate::contents::{Contents, Ends};
use crate::header::{Header, Step};
use crate::payload::Payload;

/// The port of changes of passwords (RFC 3244, 2).
const PASSWORD_PORT: u16 = 464;

/// The ports of VXLAN, now and before one was assigned.
const VXLAN: u16 = 4789;

const VXLAN_OF_LINUX: u16 = 8472;

const GENEVE: u16 = 6081;

/// The port of ESP, of IKE and of what keeps a translation of addresses alive.
const ESP: u16 = 4500;

/// The first port that is not of servers alone.
const FIRST_CLIENT_PORT: u16 = 1024;

/// How many octets a header of UDP has.
const UDP_HEADER: u16 = 8;

/// The least EtherType.
const LEAST_TYPE: u16 = 0x0600;

/// Returns whether one of two ports is that of KDCs, `port`, or of changes of passwords.
pub(crate) fn is_served(port: u16, ends: &Ends) -> bool
    ensures { result ≡ is_served port ends.now }
{
    ends.source.port == port
        || ends.target.port == port
        || ends.source.port == PASSWORD_PORT
        || ends.target.port == PASSWORD_PORT
}

/// Returns whether a port is that of a tunnel that is followed.
#[inline(always)]
fn is_followed_port(port: u16) -> bool
    ensures { result ≡ is_followed_port port }
{
    matches!(port, VXLAN | VXLAN_OF_LINUX | GENEVE)
}

/// Returns whether a port is that of a tunnel that is not followed.
#[inline(always)]
fn is_other_tunnel(port: u16) -> bool
    ensures { result ≡ is_other_tunnel port }
{
    matches!(
        port,
        1701 | 2152 | 3544 | 4341 | ESP | 4790 | 5247 | 6080 | 6635
    )
}

/// Returns whether a port is that of a tunnel, which is followed or not.
#[tactic(auto, unfolding(crate::specs::Tunnels::is_tunnel))]
#[inline(always)]
pub(crate) fn is_tunnel(port: u16) -> bool
    ensures { result ≡ is_tunnel port }
{
    is_followed_port(port) || is_other_tunnel(port)
}

/// Returns what follows a header of VXLAN.
#[tactic(auto, unfolding(crate::specs::Tunnels::vxlan))]
fn vxlan<'a>(packet: Payload<'a>) -> Option<Step<'a>>
    ensures { result ≡ vxlan packet.entry }
{
    let flags = packet.number32(0)?;
    let last = packet.number8(7)?;
    let rest = packet.after(8)?;
    if (flags == 0x0800_0000 || flags / (1 << 24) == 0x88) && last == 0 {
        return Some(Step::Next(Header::Ethernet, rest));
    }
    None
}

/// Returns what follows a header of Geneve.
#[tactic(auto, unfolding(crate::specs::Tunnels::geneve))]
fn geneve<'a>(packet: Payload<'a>) -> Option<Step<'a>>
    ensures { result ≡ geneve packet.entry }
{
    let first = packet.number8(0)?;
    let flags = packet.number8(1)?;
    let kind = packet.number16(2)?;
    let last = packet.number8(7)?;
    let rest = packet.after(usize::from(first % 64) * 4 + 8)?;
    if first / 64 == 0 && flags % 64 == 0 && last == 0 && kind >= LEAST_TYPE {
        return Some(Step::Next(Header::Type(kind), rest));
    }
    None
}

/// Returns that a packet of one octet is passed over, if it keeps a translation of addresses alive.
#[tactic(auto, unfolding(crate::specs::Tunnels::keep_alive))]
fn keep_alive<'a>(packet: Payload<'a>) -> Option<Step<'a>>
    ensures { result ≡ keep_alive packet.entry }
{
    if packet.number8(0)? == 0xFF {
        return Some(Step::Found(Contents::Other));
    }
    None
}

/// Returns that a packet is passed over, if it is one of IKE.
#[tactic(auto, unfolding(crate::specs::Tunnels::key_exchange))]
fn key_exchange<'a>(packet: Payload<'a>) -> Option<Step<'a>>
    ensures { result ≡ key_exchange packet.entry }
{
    if packet.number32(0)? == 0 {
        return Some(Step::Found(Contents::Other));
    }
    None
}

/// Returns that what is no ESP is passed over.
#[tactic(auto, unfolding(crate::specs::Tunnels::beside_esp))]
fn beside_esp<'a>(packet: Payload<'a>) -> Option<Step<'a>>
    ensures { result ≡ beside_esp packet.entry }
{
    if packet.size() == 1 {
        keep_alive(packet)
    } else {
        key_exchange(packet)
    }
}

/// Returns what follows in a datagram to a port.
#[tactic(auto, unfolding(crate::specs::Tunnels::of_port))]
fn of_port<'a>(port: u16, packet: Payload<'a>) -> Option<Step<'a>>
    ensures { result ≡ of_port port packet.entry }
{
    match port {
        VXLAN | VXLAN_OF_LINUX => vxlan(packet),
        GENEVE => geneve(packet),
        ESP => beside_esp(packet),
        _ => None,
    }
}

/// Returns the octets after a header of UDP.
#[tactic(auto, unfolding(crate::specs::Tunnels::payload))]
fn payload<'a>(packet: &Payload<'a>) -> Option<Payload<'a>>
    ensures { result ≡ payload packet.now }
{
    let length = packet.number16(4)?;
    let rest = packet.after(8)?;
    if length < UDP_HEADER {
        return None;
    }
    Some(rest.within(u64::from(length - UDP_HEADER)))
}

/// Returns what came of an envelope; if nothing did, and the port of the source is that of a server,
/// the packet is passed over.
fn or_answer<'a>(source: u16, step: Option<Step<'a>>) -> Option<Step<'a>>
    ensures { result ≡ or_answer source step.entry }
{
    match step {
        Some(step) => Some(step),
        None => {
            if source < FIRST_CLIENT_PORT {
                return Some(Step::Found(Contents::Other));
            }
            None
        }
    }
}

/// Returns what follows in a datagram between ports that are not of Kerberos.
#[tactic(auto, unfolding(crate::specs::Tunnels::tunnel))]
pub(crate) fn tunnel<'a>(ends: &Ends, packet: &Payload<'a>) -> Option<Step<'a>>
    ensures { result ≡ tunnel ends.now packet.now }
{
    let step = match payload(packet) {
        Some(payload) => of_port(ends.target.port, payload),
        None => None,
    };
    or_answer(ends.source.port, step)
}
