//! The length octets of an item, one at a time (X.690, 8.1.3 and 10.1).

ghost use Rattle.std.specs.Prelude.{◌<◌, ◌≤◌, ◌^◌};
ghost use Rattle.krb_msg.specs.Judgement.{fitting as fits};
ghost use Rattle.krb_scan.specs.inner.Numbers.{first_head as first_decides, next_head as next_decides};
ghost use Rattle.krb_scan.specs.inner.Outcomes.{HeadIs};

use krb_der::Why;

/// What an octet makes of an item's identifier and length octets.
#[derive(Clone, Copy)]
pub(crate) enum Head {
    /// More octets are needed.
    Partial,
    /// The octet is refused.
    Refused(Why),
    /// The contents have a number of octets.
    Got { size: u32 },
}

/// Returns the head of an item with these numbers of header and contents octets, in a room.
fn fitting(room: u32, header: u32, size: u32) -> Head
    ensures { HeadIs result (fits room header size) }
{
    if room < header || room - header < size {
        Head::Refused(Why::Overrun)
    } else {
        Head::Got { size }
    }
}

/// Judges the first length octet of an item in a room, the number of octets that its container has
/// left.
pub(crate) fn first_head(room: u32, octet: u8) -> Head
    ensures { HeadIs result (first_decides room octet) }
{
    if octet < 0x80 {
        fitting(room, 2, u32::from(octet))
    } else if octet == 0x80 {
        Head::Refused(Why::Indefinite)
    } else if octet > 0x84 {
        Head::Refused(Why::LengthWide)
    } else if room < 2 + u32::from(octet - 0x80) {
        Head::Refused(Why::Overrun)
    } else {
        Head::Partial
    }
}

/// Judges the next octet of a length of the long form, after some that spell a number.
pub(crate) fn next_head(room: u32, digits: u32, seen: u32, value: u32, octet: u8) -> Head
    requires narrow { digits ≤ 4 }
    requires some { seen < digits }
    requires spelled { value < 2 ^ 24 }
    ensures { HeadIs result (next_decides room digits seen value octet) }
{
    if seen == 0 && (octet == 0 || digits == 1 && octet < 128) {
        Head::Refused(Why::LengthNotMinimal)
    } else if seen + 1 < digits {
        Head::Partial
    } else {
        fitting(room, 2 + digits, value * 256 + u32::from(octet))
    }
}
