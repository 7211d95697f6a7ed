//! Octets of segments that are not delivered, and are no copies.

ghost use Rattle.std.specs.Prelude.{◌≡◌, length, List, ℕ};
ghost use Rattle.krb_flow.specs.Copies.{summary};
ghost use Rattle.krb_flow.specs.Unread.{if_any, is_keep_alive, is_one_zero, nothing, of_differing, of_reset};

use crate::copies::Differing;
use crate::serial::Distance;
use krb_packet::{Payload, Segment};
use krb_source::UnreadWhy;

/// Octets of a segment that were captured and are not delivered, and are no copies.
#[derive(Clone, Copy, PartialEq, Eq, Debug)]
pub struct Unread {
    /// The place of the first of them or, of octets before octet 0, how far before it that is. A
    /// segment that resets its connection has no place.
    pub place: Option<u64>,
    /// How many they are.
    pub octets: u64,
    /// Why.
    pub why: UnreadWhy,
}

/// All octets of a segment that are not delivered, and are no copies, in the order of the fields.
#[derive(Clone, Copy, PartialEq, Eq, Debug)]
pub struct Untaken {
    /// Those that are compared with no others: of a segment that resets its connection or begins too
    /// far ahead, or before octet 0.
    pub apart: Option<Unread>,
    /// Copies of octets that are no longer kept.
    pub old: Option<Unread>,
    /// Copies that differ from what was taken, or waits, at their places.
    pub differs: Option<Unread>,
}

impl Unread {
    /// Returns that these octets are not delivered, if there are any.
    pub(crate) fn if_any(place: Option<u64>, octets: u64, why: UnreadWhy) -> Option<Unread>
        ensures { result ≡ if_any place octets why }
    {
        if octets > 0 {
            Some(Unread { place, octets, why })
        } else {
            None
        }
    }

    /// Returns the octets of a segment that resets its connection, which is not asked for its place:
    /// any ends the direction.
    pub fn of_reset(segment: &Segment<'_>) -> Option<Unread>
        ensures { result ≡ of_reset segment.now }
    {
        if !segment.rst {
            return None;
        }
        let octets = segment.payload.octets().len() as u64;
        Unread::if_any(None, octets, UnreadWhy::Reset)
    }

    /// Returns the octets at the places at which copies differ.
    pub(crate) fn differing(differing: Differing) -> Option<Unread>
        ensures { (places : List ℕ) → differing ≡ summary places → result ≡ of_differing places }
    {
        Unread::if_any(differing.first, differing.count, UnreadWhy::Differs)
    }
}

impl Untaken {
    /// Returns that there are none.
    pub fn none() -> Untaken
        ensures { result ≡ nothing }
    {
        Untaken::apart(None)
    }

    /// Returns octets that are compared with no others.
    pub fn apart(apart: Option<Unread>) -> Untaken
        ensures { result ≡ record nothing { apart = apart } }
    {
        Untaken {
            apart,
            old: None,
            differs: None,
        }
    }
}

/// Returns whether octets are one octet 00.
pub(crate) fn is_one_zero(payload: &Payload<'_>) -> bool
    ensures { result ≡ is_one_zero payload.now }
{
    payload.size() == 1 && payload.octets().first().copied() == Some(0)
}

/// Returns whether octets are a keep-alive (RFC 9293, 3.8.4): one octet 00 right before the one that
/// is due.
pub(crate) fn is_keep_alive(distance: Distance, payload: &Payload<'_>) -> bool
    ensures { result ≡ is_keep_alive distance payload.now }
{
    distance.behind() == 1 && is_one_zero(payload)
}
