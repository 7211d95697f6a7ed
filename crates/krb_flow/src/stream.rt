//! What one end of a connection sends, after it began.

use crate::copies::{Compared, compare_taken};
use crate::had::{Had, first_number, number_at};
use crate::serial::Distance;
use crate::unread::{Unread, Untaken, is_keep_alive};
use crate::waiting::Runs;
use krb_der::Memory;
use krb_packet::Segment;
use krb_source::UnreadWhy;
use std::alloc::Global;
use std::marker::Model;

/// How many octets ahead of the next one that is due a segment may begin: 1 MiB.
const MOST_AHEAD: u32 = 1 << 20;

/// How many octets may wait: 1 MiB.
const MOST_WAITING: usize = 1 << 20;

/// The place that no octet of a segment may pass.
const MOST_OCTETS: u64 = 1 << 62;

/// Octets that are not in a capture.
#[derive(Clone, Copy, PartialEq, Eq, Debug)]
pub struct Lost {
    /// The place of the first of them.
    pub place: u64,
    /// How many are missing from there on.
    pub octets: u64,
}

/// What is known of the octets of a direction when it ends.
#[derive(Clone, Copy, PartialEq, Eq, Debug)]
pub enum End {
    /// All that were seen were taken.
    Complete,
    /// Some are missing.
    Lost(Lost),
}

/// The octets that were taken, by their number, and those that wait. It allocates for these alone.
#[derive(Drop)]
pub struct Stream {
    first: u32,
    expected: u64,
    waiting: Runs,
    seen: u64,
    far: Option<u64>,
    fin: Option<u64>,
}

impl Model for Stream {
    ghost use Rattle.krb_flow.specs.Progress.{Progress};

    ghost Value = { Progress };

    ghost view = { λ stream. record { first = stream.first; expected = stream.expected; waiting = stream.waiting; seen = stream.seen; far = stream.far; fin = stream.fin } };
}

ghost use Rattle.std.specs.Prelude.{◌≡◌, ◌+◌, ◌++◌, ◌<◌, ◌≤◌, ◌⊎◌, ◌^◌, ◌||◌, ◌==◌, false, length, IfOk, OnOk};
ghost use Rattle.krb_der.specs.Octets.{when};
ghost use Rattle.krb_flow.specs.Progress.{begun};
ghost use Rattle.krb_flow.specs.Copies.{differing, old_of, summary};
ghost use Rattle.krb_flow.specs.Unread.{differs_in, is_keep_alive, untaken_in, untaken_near};
ghost use Rattle.krb_flow.specs.Directions.{distance_to, earlier, end_place, ending, glimpsed, had, if_later, is_over, later, next_place, passes_all, unless_old, advanced, delivered, deliver};

/// Returns the place after a segment of `size` octets, unless that is before octet 0.
fn end_place(expected: u64, distance: Distance, size: u64) -> Option<u64>
    requires { expected + size < MOST_OCTETS }
    ensures { result ≡ end_place expected distance size }
{
    let end = expected + u64::from(distance.ahead()) + size;
    end.checked_sub(u64::from(distance.behind()))
}

/// Returns the place after octets that follow each other.
fn place_after(place: u64, first: &[u8], then: &[u8]) -> u64
    requires { place + length first.now < 2 ^ 63 }
    ensures { result ≡ place + length first.now + length then.now }
{
    place + first.len() as u64 + then.len() as u64
}

/// Returns the later of two places, if the other one counts.
fn seen_with(seen: u64, end: Option<u64>, counts: bool) -> u64
    ensures { result ≡ when counts (λ _. later end seen) (λ _. seen) }
{
    match end {
        Some(end) if counts => seen.max(end),
        _ => seen,
    }
}

/// Returns the earlier of two places, of which there may be one or none.
fn earlier(one: Option<u64>, other: Option<u64>) -> Option<u64>
    ensures { result ≡ earlier one other }
{
    match (one, other) {
        (Some(one), Some(other)) => Some(other.min(one)),
        (Some(one), None) => Some(one),
        (None, other) => other,
    }
}

/// Returns the earlier of two places, if the other one counts.
fn place_with(place: Option<u64>, other: Option<u64>, counts: bool) -> Option<u64>
    ensures { result ≡ when counts (λ _. earlier other place) (λ _. place) }
{
    if counts { earlier(other, place) } else { place }
}

/// Returns a place, if it is after another one.
fn if_later(expected: u64, place: Option<u64>) -> Option<u64>
    ensures { result ≡ if_later expected place }
{
    match place {
        Some(place) if expected < place => Some(place),
        _ => None,
    }
}

/// Returns a place, unless it is before the octet that is due: then it is old.
fn unless_old(expected: u64, place: Option<u64>) -> Option<u64>
    ensures { result ≡ unless_old expected place }
{
    match place {
        Some(place) if place < expected => None,
        _ => place,
    }
}

impl Stream {
    /// Creates the stream whose octet 0 has a number.
    pub(crate) fn new(alloc: Global, first: u32) -> Stream
        ensures { result ≡ begun first }
    {
        Stream {
            first,
            expected: 0,
            waiting: Runs::new(alloc),
            seen: 0,
            far: None,
            fin: None,
        }
    }

    /// Returns whether its octet 0 has a number.
    pub(crate) fn begins_at(&self, number: u32) -> bool
        ensures { result ≡ (self.now.first == number) }
    {
        self.first == number
    }

    /// Returns how far the first octet of a segment is from the next one that is due.
    fn distance_to(&self, segment: &Segment<'_>) -> Distance
        ensures { result ≡ distance_to self.now segment.now }
    {
        Distance::between(number_at(self.first, self.expected), first_number(segment))
    }

    /// Returns whether a segment would pass the greatest place.
    fn passes_all(&self, segment: &Segment<'_>) -> bool
        ensures { result ≡ passes_all self.now segment.now }
    {
        self.expected.saturating_add(segment.payload.size()) >= MOST_OCTETS
    }

    /// Returns those octets of a segment that are not taken, and are no copies. The last octets that
    /// were taken are `kept`.
    pub(crate) fn untaken(&self, kept: &[u8], segment: &Segment<'_>) -> Untaken
        ensures { result ≡ untaken_in kept.now self.now segment.now }
    {
        if self.passes_all(segment) {
            return Untaken::none();
        }
        let distance = self.distance_to(segment);
        if MOST_AHEAD < distance.ahead() {
            let place = self.expected + u64::from(distance.ahead());
            let captured = segment.payload.octets().len() as u64;
            let far = Unread::if_any(Some(place), captured, UnreadWhy::Ahead);
            return Untaken::apart(far);
        }
        if is_keep_alive(distance, &segment.payload) {
            return Untaken::none();
        }
        self.untaken_near(kept, segment, distance)
    }

    /// Returns those octets of a segment that is neither too far ahead nor a keep-alive: those before
    /// octet 0, and copies.
    fn untaken_near(&self, kept: &[u8], segment: &Segment<'_>, distance: Distance) -> Untaken
        requires distance { distance ≡ distance_to self.now segment.now }
        requires near { self.now.expected + segment.now.payload.size < MOST_OCTETS }
        requires no_keep_alive { is_keep_alive distance segment.now.payload ≡ false }
        ensures { result ≡ untaken_near kept.now self.now segment.now }
    {
        let octets = segment.payload.octets();
        let before = u64::from(distance.behind()).saturating_sub(self.expected);
        let captured = before.min(octets.len() as u64);
        let octets = &octets[captured as usize..];
        let behind = u64::from(distance.behind()) - before;
        let place = self.expected + u64::from(distance.ahead()) - behind;
        let compared = self.compare(kept, place, behind, octets);
        Untaken {
            apart: Unread::if_any(Some(before), captured, UnreadWhy::Before),
            old: Unread::if_any(Some(place), compared.old, UnreadWhy::Old),
            differs: Unread::differing(compared.differing),
        }
    }

    /// Compares octets that begin `behind` octets before the next one that is due, or at a place after
    /// it, with those that were taken or wait there.
    fn compare(&self, kept: &[u8], place: u64, behind: u64, octets: &[u8]) -> Compared
        requires near { self.now.expected + length octets.now < MOST_OCTETS }
        requires within { behind ≤ self.now.expected }
        requires place { (place + behind ≡ self.now.expected) ⊎ ((behind ≡ 0) × (self.now.expected ≤ place)) }
        requires fits { place + length octets.now < 2 ^ 63 }
        ensures old { result.old ≡ old_of kept.now self.now.expected place octets.now }
        ensures differing { result.differing ≡ summary (differing (differs_in kept.now self.now) place octets.now) }
    {
        let (copies, early) = octets.split_at(octets.len().min(behind as usize));
        let compared = compare_taken(kept, self.expected, place, copies);
        let waiting = self.waiting.differing(place + copies.len() as u64, early);
        Compared {
            old: compared.old,
            differing: compared.differing.and(waiting),
        }
    }

    /// Takes a segment. Returns those of its octets that are taken at once, borrowed; those that
    /// waited and are taken after them are in `waited`, and no others.
    pub(crate) fn take<'a>(
        &mut self,
        segment: &Segment<'a>,
        waited: &mut Vec<u8>,
    ) -> Result<&'a [u8], Memory>
        ensures octets { IfOk result (λ prefix. prefix.now ++ waited.new.items ≡ (deliver self.old segment.now).0) }
        ensures state { OnOk result (self.new ≡ (deliver self.old segment.now).1) }
    {
        let distance = self.distance_to(segment);
        if self.passes_all(segment) {
            waited.clear();
            return Ok(&[]);
        }
        if distance.ahead() > MOST_AHEAD {
            self.glimpse(segment, distance);
            waited.clear();
            return Ok(&[]);
        }
        self.take_near(segment, distance, waited)
    }

    /// Keeps where the octets of a segment begin and end that is too far ahead.
    fn glimpse(&mut self, segment: &Segment<'_>, distance: Distance)
        requires distance { distance ≡ distance_to self.old segment.now }
        requires near { self.old.expected + segment.now.payload.size < MOST_OCTETS }
        ensures { self.new ≡ glimpsed self.old segment.now }
    {
        let size = segment.payload.size();
        let end = end_place(self.expected, distance, size);
        let place = self.expected + u64::from(distance.ahead());
        self.seen = seen_with(self.seen, end, size > 0 || segment.fin);
        self.far = place_with(self.far, Some(place), !segment.payload.octets().is_empty());
    }

    /// Takes a segment that is not passed over.
    fn take_near<'a>(
        &mut self,
        segment: &Segment<'a>,
        distance: Distance,
        waited: &mut Vec<u8>,
    ) -> Result<&'a [u8], Memory>
        requires distance { distance ≡ distance_to self.old segment.now }
        requires near { self.old.expected + segment.now.payload.size < MOST_OCTETS }
        ensures octets { IfOk result (λ prefix. prefix.now ++ waited.new.items ≡ delivered self.old segment.now) }
        ensures state { OnOk result (self.new ≡ advanced self.old segment.now) }
    {
        let octets = segment.payload.octets();
        let octets = &octets[octets.len().min(distance.behind() as usize)..];
        let size = segment.payload.size();
        let end = end_place(self.expected, distance, size);
        self.seen = seen_with(self.seen, end, size > 0 || segment.fin);
        let fin = unless_old(self.expected, end);
        self.fin = place_with(self.fin, fin, segment.fin);
        let prefix = self
            .waiting
            .pass(self.expected, distance.ahead(), octets, waited)?;
        self.expected = place_after(self.expected, prefix, waited.as_slice());
        Ok(prefix)
    }

    /// Returns whether it is over: all octets before the FIN were taken, or too many wait.
    pub(crate) fn is_over(&self) -> bool
        ensures { result ≡ is_over self.now }
    {
        let at_fin = match self.fin {
            Some(fin) => fin <= self.expected,
            None => false,
        };
        at_fin || self.waiting.len() > MOST_WAITING
    }

    /// Returns the place of the next octet that was captured after those that were taken, or the
    /// one up to which octets were seen.
    fn next_place(&self) -> u64
        ensures { result ≡ next_place self.now }
    {
        let far = if_later(self.expected, self.far);
        earlier(self.waiting.first_place(), far).unwrap_or(self.seen)
    }

    /// Returns what is known of its octets at the end.
    pub(crate) fn end(&self) -> End
        ensures { result ≡ ending self.now }
    {
        let place = self.next_place();
        if self.expected < place {
            End::Lost(Lost {
                place: self.expected,
                octets: place - self.expected,
            })
        } else {
            End::Complete
        }
    }

    /// Returns what it had, once it ended.
    pub(crate) fn had(&self) -> Had
        ensures { result ≡ had self.now }
    {
        Had {
            first: self.first,
            expected: self.expected,
            at_fin: self.fin == Some(self.expected),
        }
    }
}
