//! What is kept of a direction that ended.

ghost use Rattle.std.specs.Prelude.{◌≡◌, ◌+◌, ◌-◌, ◌%◌, ◌^◌, ◌≤◌, length};
ghost use Rattle.krb_flow.specs.Copies.{differing, old_of, summary};
ghost use Rattle.krb_flow.specs.Directions.{first_number, is_among, is_copy_of};
ghost use Rattle.krb_flow.specs.Unread.{differs_after, distance_after, is_keep_alive_after, untaken_after};

use crate::copies::{Compared, Differing, compare_taken};
use crate::serial::Distance;
use crate::unread::{Unread, Untaken, is_keep_alive, is_one_zero};
use krb_packet::{Payload, Segment};
use krb_source::UnreadWhy;

/// What a direction had that ended, by which copies of its octets are told from others.
#[derive(Clone, Copy, PartialEq, Eq, Debug)]
pub struct Had {
    /// The sequence number of octet 0.
    pub first: u32,
    /// The place of the octet that was due.
    pub expected: u64,
    /// The FIN was due there.
    pub at_fin: bool,
}

/// Returns the sequence number of the first octet of a segment. That of a SYN is the one before.
pub(crate) fn first_number(segment: &Segment<'_>) -> u32
    ensures { result ≡ first_number segment.now }
{
    segment.sequence.wrapping_add(u32::from(segment.syn))
}

/// Returns the sequence number of the octet at a place.
pub(crate) fn number_at(first: u32, place: u64) -> u32
    ensures { result ≡ (first + place % 2 ^ 32) % 2 ^ 32 }
{
    first.wrapping_add((place % (1 << 32)) as u32)
}

impl Had {
    /// Returns whether `size` octets are all among those that the direction had, or at the place of
    /// its FIN, if the first of them is so far from the one that was due.
    fn is_among(self, distance: Distance, size: u64) -> bool
        ensures { result ≡ is_among self distance size }
    {
        let behind = distance.behind();
        let end = u64::from(distance.ahead()).saturating_add(size);
        u64::from(behind) <= self.expected && end <= u64::from(behind) + u64::from(self.at_fin)
    }

    /// Returns how far the first octet of a segment is from the one that was due.
    fn distance_to(self, segment: &Segment<'_>) -> Distance
        ensures { result ≡ distance_after self segment.now }
    {
        Distance::between(number_at(self.first, self.expected), first_number(segment))
    }

    /// Returns whether the octets of a segment are all among those that the direction had.
    pub(crate) fn is_copy(self, segment: &Segment<'_>) -> bool
        ensures { result ≡ is_copy_of self segment.now }
    {
        self.is_among(self.distance_to(segment), segment.payload.size())
    }

    /// Returns whether octets are a keep-alive (RFC 9293, 3.8.4): one octet 00 right before the one
    /// that was due, or at the place of the FIN.
    fn is_keep_alive(self, distance: Distance, payload: &Payload<'_>) -> bool
        ensures { result ≡ is_keep_alive_after self distance payload.now }
    {
        is_keep_alive(distance, payload)
            || (distance.behind() == 0 && self.at_fin && is_one_zero(payload))
    }

    /// Compares the octets of a copy with the last ones that were taken, as far as these are kept.
    fn compare(self, kept: &[u8], behind: u64, octets: &[u8]) -> Compared
        requires after { behind ≤ self.expected }
        requires near { length octets.now ≤ behind + 1 }
        ensures old { result.old ≡ old_of kept.now self.expected (self.expected - behind) octets.now }
        ensures differing { result.differing ≡ summary (differing (differs_after kept.now self) (self.expected - behind) octets.now) }
    {
        let (copies, others) = octets.split_at(octets.len().min(behind as usize));
        let place = self.expected - behind;
        let compared = compare_taken(kept, self.expected, place, copies);
        if others.is_empty() {
            return compared;
        }
        let at_fin = Differing::at(self.expected);
        Compared {
            old: compared.old,
            differing: compared.differing.and(at_fin),
        }
    }

    /// Returns the octets of a segment that are not among those that the direction had, if all their
    /// places are, or that of its FIN: copies of those that are no longer kept, and those that
    /// differ. The last octets that it took, as far as they are kept, are `kept`.
    pub fn untaken(self, kept: &[u8], segment: &Segment<'_>) -> Untaken
        ensures { result ≡ untaken_after kept.now self segment.now }
    {
        let distance = self.distance_to(segment);
        let payload = &segment.payload;
        let is_copy = self.is_copy(segment) && payload.size() > 0;
        if !is_copy || self.is_keep_alive(distance, payload) {
            return Untaken::none();
        }
        let behind = u64::from(distance.behind());
        let compared = self.compare(kept, behind, payload.octets());
        Untaken {
            apart: None,
            old: Unread::if_any(Some(self.expected - behind), compared.old, UnreadWhy::Old),
            differs: Unread::differing(compared.differing),
        }
    }
}
