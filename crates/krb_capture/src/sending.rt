//! What one end of a TCP connection sends.

ghost use Rattle.std.specs.Prelude.{◌≡◌, ◌≤◌, ℕ, true, List, [], ◌++◌, drop, length, Some, IfOk, OnOk};
ghost use Rattle.krb_record.specs.declared.flow.Transport.TheVariants as transports;
ghost use Rattle.krb_capture.specs.Flows.{origin_of};
ghost use Rattle.krb_capture.specs.Found.{Found, with_all};
ghost use Rattle.krb_capture.specs.Rests.{RepresentsBut, Sends, Takes};
ghost use Rattle.krb_capture.specs.Sending.{Sent, Represents, after_segment, beginning_found, end_if, last_found, segment_found, sent_from, step_of, unread_found, untaken_found};
ghost use Rattle.krb_capture.specs.Taken.{Took, service_of};
ghost use Rattle.krb_flow.specs.Window.{Keeps, last, stream_at};

use crate::flow::{Due, Flow, Service};
use crate::frames::Frames;
use crate::listing::Listing;
use krb_der::Memory;
use krb_flow::{Beginning, Direction, End, Had, Unread, Untaken};
use krb_frame::Limit;
use krb_packet::Segment;
use krb_record::{CaptureOrigin, Transport};
use std::alloc::Global;
use std::marker::Model;

/// What became of a direction by a segment.
#[derive(Clone, Copy)]
pub(crate) struct Step {
    /// It began with the segment, for the first time or anew.
    pub(crate) began: bool,
    /// What it had, if it ended.
    pub(crate) ended: Option<Had>,
}

/// Octets, and how many of them were taken.
#[derive(Drop)]
struct Copied {
    octets: Vec<u8>,
    taken: usize,
    /// How the direction ends after them, if it does.
    end: Option<End>,
}

/// Octets of a segment, or that waited for it, whose frames are still to be listed. It is small,
/// since there are none after most segments.
#[derive(Drop)]
pub(crate) struct Unlisted {
    copied: Box<Copied>,
}

impl Model for Unlisted {
    ghost use Rattle.std.specs.Prelude.{◌≤◌, drop, length};
    ghost use Rattle.krb_capture.specs.Unlisted.{Unlisted};

    ghost Value = { Unlisted };

    ghost view = { λ left. record { octets = drop left.copied.value.taken left.copied.value.octets.items; end = left.copied.value.end } };

    ghost invariant = { λ left. left.copied.value.taken ≤ length left.copied.value.octets.items };
}

impl Unlisted {
    /// Copies octets, and others that follow them.
    fn new(
        alloc: Global,
        octets: &[u8],
        others: &[u8],
        end: Option<End>,
    ) -> Result<Unlisted, Memory>
        ensures { IfOk result (λ left. left ≡ record { octets = octets.now ++ others.now; end = end }) }
    {
        let mut all = Vec::new(alloc);
        all.extend_from_slice(octets)?;
        all.extend_from_slice(others)?;
        let copied = Copied {
            octets: all,
            taken: 0,
            end,
        };
        Ok(Unlisted {
            copied: Box::new(alloc, copied)?,
        })
    }

    /// Returns the octets.
    fn octets(&self) -> &[u8]
        ensures { result.now ≡ self.now.octets }
    {
        &self.copied.octets[self.copied.taken..]
    }

    /// Returns how the direction ends after them, if it does.
    fn end(&self) -> Option<End>
        ensures { result ≡ self.now.end }
    {
        self.copied.end
    }

    /// Passes over the first octets, which were taken.
    fn pass(&mut self, count: usize)
        requires { count ≤ length self.old.octets }
        ensures { self.new ≡ record self.old { octets = drop count self.old.octets } }
    {
        self.copied.taken += count;
    }
}

/// Lists octets that are not taken, if there are any.
fn list_unread(
    unread: Option<Unread>,
    origin: &CaptureOrigin,
    listing: &mut Listing<'_>,
) -> Result<(), Memory>
    ensures { OnOk result (listing.new ≡ with_all origin.now (unread_found unread) listing.old) }
{
    match unread {
        None => Ok(()),
        Some(unread) => listing.put_unread(origin, unread),
    }
}

/// Lists all octets that are not taken.
pub(crate) fn list_untaken(
    untaken: Untaken,
    origin: &CaptureOrigin,
    listing: &mut Listing<'_>,
) -> Result<(), Memory>
    ensures { OnOk result (listing.new ≡ with_all origin.now (untaken_found untaken) listing.old) }
{
    list_unread(untaken.apart, origin, listing)?;
    list_unread(untaken.old, origin, listing)?;
    list_unread(untaken.differs, origin, listing)
}

/// What came of a segment.
#[derive(Drop)]
pub(crate) struct Stepped {
    pub(crate) step: Step,
    /// What is left of it, if the listing was full before its end.
    pub(crate) left: Option<Unlisted>,
}

/// A direction of a TCP connection, with its frames.
#[derive(Drop)]
pub(crate) struct Sending {
    alloc: Global,
    limit: Limit,
    flow: Flow,
    service: Service,
    direction: Direction,
    frames: Frames,
}

impl Sending {
    /// Creates a direction with no octets yet.
    #[inline(always)]
    pub(crate) fn new(
        alloc: Global,
        limit: Limit,
        flow: Flow,
        service: Service,
        direction: Direction,
    ) -> Sending
        requires { Keeps direction [] }
        ensures { Represents result limit (sent_from flow service direction.state) }
    {
        Sending {
            alloc,
            limit,
            flow,
            service,
            direction,
            frames: Frames::new(alloc, limit, service),
        }
    }

    /// Returns its flow.
    pub(crate) fn flow(&self) -> Flow
        ensures { result ≡ self.now.flow }
    {
        self.flow
    }

    /// Returns the last octets that it took since it began, at most 4096 of them.
    #[inline(always)]
    pub(crate) fn into_last_octets(self) -> Result<Vec<u8>, Memory>
        ensures { IfOk result (λ octets. (limit : ℕ) (sent : Sent) → Represents self limit sent → octets.items ≡ last 4096 sent.stream) }
    {
        self.direction.into_last_octets(self.alloc)
    }

    /// Takes a segment, and lists what is found with it until the listing is full. Octets that
    /// waited for it go through `waited`. The frames of a direction that `is_new` are those of one
    /// with no octets yet, and stay when it begins.
    pub(crate) fn take(
        &mut self,
        is_new: bool,
        segment: &Segment<'_>,
        due: Due,
        waited: &mut Vec<u8>,
        listing: &mut Listing<'_>,
    ) -> Result<Stepped, Memory>
        requires { is_new ≡ true → Took self.old.frames self.old.limit [] }
        ensures flow { self.new.flow ≡ self.old.flow }
        ensures step { IfOk result (λ stepped. stepped.step ≡ step_of self.old.direction.state segment.now) }
        ensures found { IfOk result (λ stepped. (limit : ℕ) (sent : Sent) → Represents self.old limit sent → Sends self.new limit (after_segment sent segment.now) stepped.left (origin_of due transports.Tcp self.old.flow.source self.old.flow.target) (segment_found limit sent segment.now) listing.old listing.new) }
    {
        let origin = due.over(Transport::Tcp, self.flow.source, self.flow.target);
        let taken = self.direction.take(self.alloc, segment, waited)?;
        self.list_end(taken.before, &origin, listing)?;
        self.begin(is_new, taken.begins, &origin, listing)?;
        list_untaken(taken.untaken, &origin, listing)?;
        let octets = taken.octets;
        let left = self.list(octets, waited.as_slice(), taken.end, &origin, listing)?;
        Ok(Stepped {
            step: Step {
                began: taken.begins.is_some(),
                ended: self.direction.had(),
            },
            left,
        })
    }

    /// Goes on with a segment whose frames are not all listed, until the listing is full. Returns
    /// what is left of it then.
    pub(crate) fn go_on(
        &mut self,
        left: Unlisted,
        due: Due,
        listing: &mut Listing<'_>,
    ) -> Result<Option<Unlisted>, Memory>
        ensures flow { self.new.flow ≡ self.old.flow }
        ensures found { IfOk result (λ rest. (limit : ℕ) (sent : Sent) (found : List Found) → RepresentsBut self.old limit sent (Some left) found → Sends self.new limit sent rest (origin_of due transports.Tcp self.old.flow.source self.old.flow.target) found listing.old listing.new) }
    {
        let origin = due.over(Transport::Tcp, self.flow.source, self.flow.target);
        self.list_left(left, &origin, listing)
    }

    /// Takes octets and others that follow them, until the listing is full, lists what is found,
    /// and how the direction ends after them. Returns what is left of them.
    #[inline(always)]
    fn list(
        &mut self,
        octets: &[u8],
        others: &[u8],
        end: Option<End>,
        origin: &CaptureOrigin,
        listing: &mut Listing<'_>,
    ) -> Result<Option<Unlisted>, Memory>
        ensures same { self.new ≡ record self.old { frames = self.new.frames } }
        ensures found { IfOk result (λ rest. (limit : ℕ) (stream : List ℕ) → Took self.old.frames limit stream → Takes self.old.frames self.new.frames limit stream (record { octets = octets.now ++ others.now; end = end }) rest origin.now listing.old listing.new) }
    {
        let count = self.frames.take(octets, origin, listing)?;
        if count == octets.len() && others.is_empty() {
            self.list_end(end, origin, listing)?;
            return Ok(None);
        }
        let left = Unlisted::new(self.alloc, &octets[count..], others, end)?;
        self.list_left(left, origin, listing)
    }

    /// Takes octets, as [`list`](Sending::list) does.
    #[inline(never)]
    fn list_left(
        &mut self,
        mut left: Unlisted,
        origin: &CaptureOrigin,
        listing: &mut Listing<'_>,
    ) -> Result<Option<Unlisted>, Memory>
        ensures same { self.new ≡ record self.old { frames = self.new.frames } }
        ensures found { IfOk result (λ rest. (limit : ℕ) (stream : List ℕ) → Took self.old.frames limit stream → Takes self.old.frames self.new.frames limit stream left rest origin.now listing.old listing.new) }
    {
        let count = self.frames.take(left.octets(), origin, listing)?;
        left.pass(count);
        if !left.octets().is_empty() {
            return Ok(Some(left));
        }
        self.list_end(left.end(), origin, listing)?;
        Ok(None)
    }

    /// Lists what is known at an end, if it is one.
    #[inline(always)]
    fn list_end(
        &self,
        end: Option<End>,
        origin: &CaptureOrigin,
        listing: &mut Listing<'_>,
    ) -> Result<(), Memory>
        ensures { OnOk result ((limit : ℕ) (stream : List ℕ) → Took self.now.frames limit stream → listing.new ≡ with_all origin.now (end_if (service_of self.now.frames) limit stream end) listing.old) }
    {
        match end {
            None => Ok(()),
            Some(end) => self.frames.end(end, origin, listing),
        }
    }

    /// Begins the frames anew, if the direction begins and is not new, and lists that it does so
    /// without a SYN.
    #[inline(always)]
    fn begin(
        &mut self,
        is_new: bool,
        begins: Option<Beginning>,
        origin: &CaptureOrigin,
        listing: &mut Listing<'_>,
    ) -> Result<(), Memory>
        requires { is_new ≡ true → Took self.old.frames self.old.limit [] }
        ensures same { self.new ≡ record self.old { frames = self.new.frames } }
        ensures service { OnOk result (service_of self.old.frames ≡ self.old.service → service_of self.new.frames ≡ self.old.service) }
        ensures took { OnOk result ((stream : List ℕ) → Took self.old.frames self.old.limit stream → Took self.new.frames self.old.limit (stream_at begins stream)) }
        ensures found { OnOk result (listing.new ≡ with_all origin.now (beginning_found begins) listing.old) }
    {
        let Some(beginning) = begins else {
            return Ok(());
        };
        if !is_new {
            self.frames = Frames::new(self.alloc, self.limit, self.service);
        }
        listing.put_begun(origin)?;
        match beginning {
            Beginning::Syn => Ok(()),
            Beginning::Joined => listing.put_joined(origin),
        }
    }

    /// Ends the direction, and lists what is known then.
    pub(crate) fn finish(&mut self, due: Due, listing: &mut Listing<'_>) -> Result<(), Memory>
        ensures flow { self.new.flow ≡ self.old.flow }
        ensures found { OnOk result ((limit : ℕ) (sent : Sent) → Represents self.old limit sent → listing.new ≡ with_all (origin_of due transports.Tcp self.old.flow.source self.old.flow.target) (last_found limit sent) listing.old) }
    {
        let origin = due.over(Transport::Tcp, self.flow.source, self.flow.target);
        let end = self.direction.end();
        self.list_end(end, &origin, listing)
    }
}
