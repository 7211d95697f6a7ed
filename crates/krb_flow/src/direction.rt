//! A direction of a TCP connection: what one end sends to the other, from SYN to SYN.

ghost use Rattle.std.specs.Prelude.{◌≡◌, ◌++◌, [], ℕ, List, true, is_some, IfOk, OnOk, OnErr};
ghost use Rattle.krb_flow.specs.Directions.{begins, deliver, end_of, ended, goes_on, had_of, is_first, may_join, outcome_of, step};
ghost use Rattle.krb_flow.specs.Unread.{untaken_at, untaken_of};
ghost use Rattle.krb_flow.specs.Window.{Keeps, kept_in, last, stream_at, stream_with};
ghost use Rattle.krb_flow.specs.declared.direction.State.TheVariants as states;

use crate::had::{Had, first_number};
use crate::stream::{End, Stream};
use crate::unread::{Unread, Untaken};
use crate::window::Window;
use krb_der::Memory;
use krb_packet::Segment;
use std::alloc::Global;

/// How a direction begins.
#[derive(Clone, Copy, PartialEq, Eq, Debug)]
pub enum Beginning {
    /// With a SYN.
    Syn,
    /// With data that no SYN came before, or that come after the end and are no copies.
    Joined,
}

/// What a direction came to. Only contracts read it from outside.
#[derive(Drop)]
pub enum State {
    /// Nothing came.
    Fresh,
    /// It began.
    Open(Stream),
    /// It ended, and passes over copies of what it had.
    Ended(Had),
}

/// What comes of a segment, in the order of the fields.
#[derive(Drop)]
pub struct Taken<'a> {
    /// How what was there ended, if a SYN ended it.
    pub before: Option<End>,
    /// How the direction began, if it did.
    pub begins: Option<Beginning>,
    /// Those of the segment's octets that are not delivered, but for copies of the same octets.
    pub untaken: Untaken,
    /// Those of the segment's octets that are taken at once.
    pub octets: &'a [u8],
    /// How the direction ended, if it did, after these octets and those that waited.
    pub end: Option<End>,
}

impl Had {
    /// Returns whether a segment begins the direction anew: with a SYN, or with data that it did
    /// not have.
    pub fn is_followed_by(self, segment: &Segment<'_>) -> bool
        ensures { result ≡ is_some (step (states.Ended self) segment.now).0.begins }
    {
        let anew = segment.syn && self.first != first_number(segment);
        let joined = !self.is_copy(segment) && segment.payload.size() > 0;
        !segment.rst && (anew || joined)
    }
}

/// Takes a segment, as [`Stream::take`] does, and keeps the octets that are taken.
fn take_and_keep<'a>(
    alloc: Global,
    stream: &mut Stream,
    window: &mut Window,
    segment: &Segment<'a>,
    waited: &mut Vec<u8>,
) -> Result<&'a [u8], Memory>
    ensures octets { IfOk result (λ prefix. prefix.now ++ waited.new.items ≡ (deliver stream.old segment.now).0) }
    ensures state { OnOk result (stream.new ≡ (deliver stream.old segment.now).1) }
    ensures most { window.new.most ≡ window.old.most }
    ensures kept { OnOk result (kept_in window.new ≡ last window.old.most (kept_in window.old ++ (deliver stream.old segment.now).0)) }
{
    let octets = stream.take(segment, waited)?;
    window.push(alloc, octets)?;
    window.push(alloc, waited.as_slice())?;
    Ok(octets)
}

/// A direction of a TCP connection. It allocates for the octets that wait, at most two octets
/// for each, and some for each run of them; after each call at most 1048576 wait. And it allocates
/// for the last 65536 octets that it took, at most twice as much, or once it ended for the last 4096
/// of them.
#[derive(Drop)]
pub struct Direction {
    state: State,
    /// The last octets that it took.
    window: Window,
}

impl Direction {
    /// Creates a direction with no segments yet.
    pub fn new(alloc: Global) -> Direction
        ensures state { result.state ≡ states.Fresh }
        ensures keeps { Keeps result [] }
    {
        Direction {
            state: State::Fresh,
            window: Window::new(alloc),
        }
    }

    /// Creates a direction that ended, and had this. None of its octets is kept.
    pub fn ended(alloc: Global, had: Had) -> Direction
        ensures state { result.state ≡ states.Ended had }
        ensures keeps { Keeps result [] }
    {
        let mut window = Window::new(alloc);
        window.end();
        Direction {
            state: State::Ended(had),
            window,
        }
    }

    /// Returns what it had, if it ended.
    pub fn had(&self) -> Option<Had>
        ensures { result ≡ had_of self.now.state }
    {
        match &self.state {
            State::Ended(had) => Some(*had),
            State::Fresh | State::Open(_) => None,
        }
    }

    /// Returns the last octets that it took since it began, at most 4096 of them, and lets go of all
    /// others.
    pub fn into_last_octets(self, alloc: Global) -> Result<Vec<u8>, Memory>
        ensures { IfOk result (λ octets. (stream : List ℕ) → Keeps self stream → octets.items ≡ last 4096 stream) }
    {
        let mut window = self.window;
        window.end();
        window.into_octets(alloc)
    }

    /// Takes a segment of the direction. The octets that are taken are those of the result, and
    /// then those that `waited` has, whatever it had before. Out of memory, the direction has
    /// ended.
    pub fn take<'a>(
        &mut self,
        alloc: Global,
        segment: &Segment<'a>,
        waited: &mut Vec<u8>,
    ) -> Result<Taken<'a>, Memory>
        ensures untaken { IfOk result (λ delivered. (stream : List ℕ) → Keeps self.old stream → delivered.untaken ≡ untaken_of self.old.state stream segment.now) }
        ensures outcome { IfOk result (λ delivered. outcome_of delivered waited.new.items ≡ (step self.old.state segment.now).0) }
        ensures state { OnOk result (self.new.state ≡ (step self.old.state segment.now).1) }
        ensures keeps { OnOk result ((stream : List ℕ) → Keeps self.old stream → Keeps self.new (stream_with self.old.state stream segment.now)) }
        ensures memory { OnErr result (is_some (had_of self.new.state) ≡ true) }
    {
        if segment.rst {
            waited.clear();
            let end = self.end();
            return Ok(Taken {
                before: None,
                begins: None,
                untaken: Untaken::apart(Unread::of_reset(segment)),
                octets: &[],
                end,
            });
        }
        let (before, begins) = self.begin(alloc, segment);
        let untaken = self.untaken(segment);
        let (octets, end) = self.go_on(alloc, segment, waited)?;
        Ok(Taken {
            before,
            begins,
            untaken,
            octets,
            end,
        })
    }

    /// Ends the direction, if it is open, and returns what is known of its octets then.
    pub fn end(&mut self) -> Option<End>
        ensures end { result ≡ end_of self.old.state }
        ensures state { self.new.state ≡ ended self.old.state }
        ensures keeps { (stream : List ℕ) → Keeps self.old stream → Keeps self.new stream }
    {
        match &self.state {
            State::Open(stream) => {
                let end = stream.end();
                self.state = State::Ended(stream.had());
                self.window.end();
                Some(end)
            }
            State::Fresh | State::Ended(_) => None,
        }
    }

    /// Returns whether its octet 0 has a number.
    fn is_first(&self, number: u32) -> bool
        ensures { result ≡ is_first self.now.state number }
    {
        match &self.state {
            State::Fresh => false,
            State::Open(stream) => stream.begins_at(number),
            State::Ended(had) => had.first == number,
        }
    }

    /// Returns whether the data of a segment begin it.
    fn may_join(&self, segment: &Segment<'_>) -> bool
        ensures { result ≡ may_join self.now.state segment.now }
    {
        match &self.state {
            State::Fresh => true,
            State::Open(_) => false,
            State::Ended(had) => !had.is_copy(segment),
        }
    }

    /// Begins the direction, if a segment does that. Returns how what was there ended, and how it
    /// begins.
    fn begin(&mut self, alloc: Global, segment: &Segment<'_>) -> (Option<End>, Option<Beginning>)
        ensures before { result.0 ≡ (begins self.old.state segment.now).0 }
        ensures begins { result.1 ≡ (begins self.old.state segment.now).1 }
        ensures state { self.new.state ≡ (begins self.old.state segment.now).2 }
        ensures keeps { (stream : List ℕ) → Keeps self.old stream → Keeps self.new (stream_at result.1 stream) }
    {
        let first = first_number(segment);
        if segment.syn && !self.is_first(first) {
            let before = self.end();
            self.state = State::Open(Stream::new(alloc, first));
            self.window = Window::new(alloc);
            (before, Some(Beginning::Syn))
        } else if self.may_join(segment) && segment.payload.size() > 0 {
            self.state = State::Open(Stream::new(alloc, first));
            self.window = Window::new(alloc);
            (None, Some(Beginning::Joined))
        } else {
            (None, None)
        }
    }

    /// Returns those octets of a segment that are not delivered, and are no copies.
    fn untaken(&self, segment: &Segment<'_>) -> Untaken
        ensures { result ≡ untaken_at self.now.state (kept_in self.now.window) segment.now }
    {
        if segment.payload.octets().is_empty() {
            return Untaken::none();
        }
        let kept = self.window.as_slice();
        match &self.state {
            State::Fresh => Untaken::none(),
            State::Open(stream) => stream.untaken(kept, segment),
            State::Ended(had) => had.untaken(kept, segment),
        }
    }

    /// Takes the octets of a segment, if the direction is open.
    fn go_on<'a>(
        &mut self,
        alloc: Global,
        segment: &Segment<'a>,
        waited: &mut Vec<u8>,
    ) -> Result<(&'a [u8], Option<End>), Memory>
        ensures octets { IfOk result (λ gone. gone.0.now ++ waited.new.items ≡ (goes_on self.old.state segment.now).0) }
        ensures end { IfOk result (λ gone. gone.1 ≡ (goes_on self.old.state segment.now).1) }
        ensures state { OnOk result (self.new.state ≡ (goes_on self.old.state segment.now).2) }
        ensures keeps { OnOk result ((stream : List ℕ) → Keeps self.old stream → Keeps self.new (stream ++ (goes_on self.old.state segment.now).0)) }
        ensures memory { OnErr result (is_some (had_of self.new.state) ≡ true) }
    {
        let State::Open(stream) = &mut self.state else {
            waited.clear();
            return Ok((&[], None));
        };
        let Ok(octets) = take_and_keep(alloc, stream, &mut self.window, segment, waited) else {
            self.state = State::Ended(stream.had());
            return Err(Memory);
        };
        if stream.is_over() {
            let end = stream.end();
            self.state = State::Ended(stream.had());
            self.window.end();
            Ok((octets, Some(end)))
        } else {
            Ok((octets, None))
        }
    }
}
