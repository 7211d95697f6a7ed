//! Frames out of a stream that comes in pieces.

use crate::contents::{CONTENTS_KEPT, clear_contents, deliver_contents, take_contents};
use crate::framed::Framed;
use crate::length::{HIGH_BIT, length_fault};
use crate::receiver::Receiver;
use krb_der::{Limit, Memory, Profile, Refusal, Why};
use krb_scan::Machine;
use std::alloc::Global;
use std::marker::Model;

/// The number of octets of a frame's length (RFC 4120, 7.2.2).
pub const LENGTH_OCTETS: usize = 4;

/// How far the current frame has been read.
#[derive(Clone, Copy)]
enum Phase {
    /// Fewer than four octets of its length: this many.
    Length(usize),
    /// Its length, which announces a number of octets, and a part of these.
    Contents(u32),
    /// The whole frame.
    Ready,
    /// The last one was refused.
    Refused(Refusal),
}

/// What a decoder returns for a piece.
#[derive(Clone, Copy, PartialEq, Eq, Debug)]
pub struct Fed {
    /// How many octets of the piece were used.
    pub used: usize,
    /// The state of the decoder after them.
    pub status: Status,
}

/// The state of a decoder after a feed.
#[derive(Clone, Copy, PartialEq, Eq, Debug)]
pub enum Status {
    /// The whole piece was used, and more octets are needed.
    More,
    /// The last octet of a frame was used, and its contents are a message.
    Ready,
    /// The last octet used is refused.
    Refused(Refusal),
    /// Out of memory. The octets after those that were used may be fed again.
    Memory,
}

/// The message of a frame as far as it came.
#[derive(Clone, Copy)]
pub struct Partial<'a> {
    /// The number of octets of the message, as the frame announces it.
    pub size: u32,
    /// Its octets that are there.
    pub octets: &'a [u8],
}

/// Decodes a stream of framed messages (RFC 4120, 7.2.2) that comes in pieces: four octets of
/// length, the highest first, and then a message of that length. It looks at each octet once, and
/// refuses a frame at the first octet that cannot be right.
#[derive(Drop)]
pub struct Decoder {
    alloc: Global,
    limit: Limit,
    length: [u8; LENGTH_OCTETS],
    phase: Phase,
    contents: Vec<u8>,
    machine: Machine,
}

impl Model for Decoder {
    ghost use Rattle.krb_frame.specs.Decoding.{Decoding};

    ghost Value = { Decoding };

    ghost use Rattle.std.specs.Prelude.{vec_capacity};
    ghost use Rattle.krb_msg.specs.Grammar.{messages};
    ghost use Rattle.krb_scan.specs.Machine.{ledger_of, profile_of};
    ghost use Rattle.krb_frame.specs.inner.Phases.{IsPhaseOf, IsScanned};
    ghost use Rattle.krb_frame.specs.Decoding.{decoding_of};

    ghost view = { λ d. decoding_of (profile_of d.machine) d.limit (ledger_of d.machine) (vec_capacity d.contents) d.length d.contents.items d.phase };

    ghost invariant = { λ d. IsPhaseOf (messages (profile_of d.machine)) d.limit d.length d.contents.items d.phase × IsScanned (profile_of d.machine) d.machine d.length d.contents.items d.phase };
}

ghost use Rattle.std.specs.Prelude.{◌≡◌, ◌≤◌, ◌<◌, ◌⊎◌, ◌^◌, ◌↔◌, true, [], length, vec_capacity, IfOk, IfSome, IsTrue, MatchOption};
ghost use Rattle.krb_der.specs.declared.verdict.Verdict.TheVariants.{Whole};
ghost use Rattle.krb_msg.specs.Grammar.{messages};
ghost use Rattle.krb_msg.specs.Judgement.{judgement};
ghost use Rattle.krb_scan.specs.Machine.{ledger_of, profile_of};
ghost use Rattle.krb_frame.specs.Decoding.{IsAmple, announced, borrowed, finish_at, finish_of, kept_contents, IsPartial, open_lengths_of, decoding_of};
ghost use Rattle.krb_frame.specs.Decoded.{HasDecoded};
ghost use Rattle.krb_frame.specs.Feeds.{Feeds, Clears};
ghost use Rattle.krb_frame.specs.GoingOn.{GivesUp, rest_to_come};
ghost use Rattle.krb_frame.specs.inner.Deliveries.{Completes};
ghost use Rattle.krb_frame.specs.inner.Phases.{end_after, phase_of, IsLengthJudged, IsPut, IsScanned, FeedsLength};

impl Decoder {
    /// Creates a decoder of a stream with no octets yet, by the lenient profile. It
    /// allocates nothing.
    #[inline(always)]
    pub fn new(alloc: Global, limit: Limit) -> Decoder
        ensures nothing { result ≡ record { profile = Profile.Lenient; limit = limit; octets = []; looks = result.looks; capacity = result.capacity } }
        ensures decoded { HasDecoded (messages Profile.Lenient) result [] [] }
    {
        Decoder::with_profile(alloc, limit, Profile::Lenient)
    }

    /// Creates a decoder of a stream with no octets yet, by a profile. It allocates nothing.
    #[inline(always)]
    pub fn with_profile(alloc: Global, limit: Limit, profile: Profile) -> Decoder
        ensures nothing { result ≡ record { profile = profile; limit = limit; octets = []; looks = result.looks; capacity = result.capacity } }
        ensures decoded { HasDecoded (messages profile) result [] [] }
    {
        Decoder::over(alloc, limit, profile, Vec::new(alloc))
    }

    /// Creates a decoder of a stream with no octets yet, by the lenient profile, with memory
    /// for any frame that the limit allows. It keeps that, and `feed` never returns
    /// [`Status::Memory`].
    pub fn reserved(alloc: Global, limit: Limit) -> Result<Decoder, Memory>
        ensures nothing { IfOk result (λ d. d ≡ record { profile = Profile.Lenient; limit = limit; octets = []; looks = d.looks; capacity = d.capacity }) }
        ensures decoded { IfOk result (λ d. HasDecoded (messages Profile.Lenient) d [] []) }
        ensures ample { IfOk result IsAmple }
    {
        Decoder::reserved_with_profile(alloc, limit, Profile::Lenient)
    }

    /// Creates a decoder as [`Decoder::reserved`] does, by a profile.
    pub fn reserved_with_profile(
        alloc: Global,
        limit: Limit,
        profile: Profile,
    ) -> Result<Decoder, Memory>
        ensures nothing { IfOk result (λ d. d ≡ record { profile = profile; limit = limit; octets = []; looks = d.looks; capacity = d.capacity }) }
        ensures decoded { IfOk result (λ d. HasDecoded (messages profile) d [] []) }
        ensures ample { IfOk result IsAmple }
    {
        let octets = limit.get() as usize;
        let contents = Vec::with_capacity(alloc, octets)?;
        Ok(Decoder::over(alloc, limit, profile, contents))
    }

    /// Creates a decoder of a stream with no octets yet, by a profile, with the memory of
    /// contents.
    #[inline(always)]
    fn over(alloc: Global, limit: Limit, profile: Profile, contents: Vec<u8>) -> Decoder
        requires { contents.items ≡ [] }
        ensures { result ≡ record { profile = profile; limit = limit; octets = []; looks = result.looks; capacity = vec_capacity contents } }
    {
        Decoder {
            alloc,
            limit,
            length: [0; LENGTH_OCTETS],
            phase: Phase::Length(0),
            contents,
            machine: Machine::new(profile, 1),
        }
    }

    /// Returns whether there is capacity for any frame that the limit allows.
    fn is_ample(&self) -> bool
        ensures { (result ≡ true) ↔ IsAmple self.now }
    {
        let octets = self.limit.get() as usize;
        octets <= self.contents.capacity()
    }

    /// Uses the first octets of a piece: all of them, or those up to the end of the frame, or
    /// up to one that is refused. Refused, on the fourth octet of a length and there at place 3,
    /// are one with its high bit set (`HighBit`), one greater than the limit (`TooLong`) and 0
    /// (`Empty`), in this order; then the contents are refused as messages are, at places counted
    /// from the frame's first octet. A decoder that is ready, or refused, uses nothing and returns
    /// so again. Out of memory, the octets after those that were used may be fed again; the octets
    /// of a length need no memory, and nothing does in a [`reserved`](Decoder::reserved) decoder.
    pub fn feed(&mut self, piece: &[u8]) -> Fed
        ensures { Feeds (messages self.old.profile) self.old piece.now self.new result }
    {
        let used = self.feed_length(piece);
        let fed = self.feed_contents(&piece[used..]);
        Fed {
            used: used + fed.used,
            status: fed.status,
        }
    }

    /// Returns whether no octets of the current frame were used.
    #[inline(always)]
    pub(crate) fn is_clear(&self) -> bool
        ensures { IsTrue result ↔ (self.now.octets ≡ []) }
    {
        match self.phase {
            Phase::Length(present) => present == 0,
            Phase::Contents(_) | Phase::Ready | Phase::Refused(_) => false,
        }
    }

    /// Returns the greatest length of a frame.
    #[inline(always)]
    pub(crate) fn limit(&self) -> Limit
        ensures { result ≡ self.now.limit }
    {
        self.limit
    }

    /// Uses octets of the length, as many as are missing and present, and judges the length once it
    /// has all four.
    fn feed_length(&mut self, piece: &[u8]) -> usize
        ensures { FeedsLength (messages self.old.profile) self.old piece.now self.new result }
    {
        let Phase::Length(present) = self.phase else {
            return 0;
        };
        let used = put_octets(&mut self.length, present, piece);
        self.phase = if present + used < LENGTH_OCTETS {
            Phase::Length(present + used)
        } else {
            judge_length(&mut self.machine, self.limit, self.length)
        };
        used
    }

    /// Uses octets of the contents, after a length.
    fn feed_contents(&mut self, piece: &[u8]) -> Fed
        requires { (piece.now ≡ []) ⊎ (4 ≤ length self.old.octets) }
        ensures { Feeds (messages self.old.profile) self.old piece.now self.new result }
    {
        let size = match self.phase {
            Phase::Length(_) => return answer(Status::More),
            Phase::Ready => return answer(Status::Ready),
            Phase::Refused(refusal) => return answer(Status::Refused(refusal)),
            Phase::Contents(size) => size,
        };
        let fed = take_contents(&mut self.contents, &mut self.machine, size, piece);
        self.phase = phase_after(size, fed.status);
        fed
    }

    /// Returns the frame that is ready, borrowed.
    pub fn ready(&self) -> Option<Framed<'_>>
        ensures frame { result ≡ borrowed (messages self.now.profile) self.now }
        ensures whole { IfSome result (λ contents. judgement self.now.profile (length contents) contents ≡ Whole) }
    {
        match self.phase {
            Phase::Ready => Some(Framed::new(self.contents.as_slice())),
            _ => None,
        }
    }

    /// Clears the frame that is ready, so that the next one may be fed, and returns whether there
    /// was one. If there was none nothing changes. The memory of a large frame is
    /// freed, unless there is capacity for any frame that the limit allows, as in a
    /// [`reserved`](Decoder::reserved) decoder.
    pub fn next(&mut self) -> bool
        ensures { Clears (messages self.old.profile) self.old self.new result }
    {
        let Phase::Ready = self.phase else {
            return false;
        };
        self.forget();
        true
    }

    /// Returns how many octets of the refused frame are still to come, if its length is known, which
    /// it is not after `HighBit`.
    pub(crate) fn rest_to_come(&self) -> Option<u32>
        ensures { result ≡ rest_to_come (messages self.now.profile) self.now }
    {
        let Phase::Refused(_) = self.phase else {
            return None;
        };
        let size = u32::from_be_bytes(self.length);
        if size >= HIGH_BIT {
            return None;
        }
        let used = self.contents.len();
        Some(size - used as u32)
    }

    /// Gives up the frame that is refused, so that the next one may be fed after the octets of this
    /// one that are still to come, and returns how many these are. If nothing is refused nothing
    /// changes; nor does it after `HighBit`, since the length of that frame is not known. The
    /// memory is kept or freed as by [`next`](Decoder::next).
    pub fn skip(&mut self) -> Option<u32>
        ensures { GivesUp (messages self.old.profile) self.old self.new result }
    {
        match self.rest_to_come() {
            None => None,
            Some(rest) => {
                self.forget();
                Some(rest)
            }
        }
    }

    /// Delivers the message of a frame of which octets of the contents were fed, if all others
    /// begin the piece, clears it, and returns how many these are. The machine looks at none of
    /// them. Of any other piece, and if the contents are no message, nothing is used.
    pub(crate) fn complete<R: Receiver>(
        &mut self,
        piece: &[u8],
        receiver: &mut R,
    ) -> Result<Option<usize>, Memory>
        ensures { IfOk result (Completes R.Receives (messages self.old.profile) self.old piece.now self.new receiver.old receiver.new) }
    {
        let Phase::Contents(size) = self.phase else {
            return Ok(None);
        };
        if size as usize > CONTENTS_KEPT {
            // The memory of a frame like this is freed, once all of it was fed.
            return Ok(None);
        }
        let missing = size as usize - self.contents.len();
        let Some((octets, _)) = piece.split_at_checked(missing) else {
            return Ok(None);
        };
        let profile = self.machine.profile();
        if !deliver_contents(&mut self.contents, profile, octets, receiver)? {
            return Ok(None);
        }
        self.forget();
        Ok(Some(missing))
    }

    /// Forgets the octets of the current frame.
    fn forget(&mut self)
        ensures left { self.new ≡ record { profile = self.old.profile; limit = self.old.limit; octets = []; looks = self.old.looks; capacity = self.new.capacity } }
        ensures ample { IsAmple self.old → IsAmple self.new }
    {
        let stays = self.is_ample();
        clear_contents(&mut self.contents, self.alloc, stays);
        self.phase = Phase::Length(0);
    }

    /// Returns what is refused of a stream that ends here: nothing between two frames, or if one is
    /// ready; what was refused; and else `Truncated`, at the number of octets of the frame that are
    /// there, including those of its length.
    pub fn finish(&self) -> Result<(), Refusal>
        ensures { result ≡ finish_of (messages self.now.profile) self.now }
    {
        match self.phase {
            Phase::Length(present) => ended(present),
            Phase::Contents(_) => ended(LENGTH_OCTETS + self.contents.len()),
            Phase::Ready => Ok(()),
            Phase::Refused(refusal) => Err(refusal),
        }
    }

    /// Returns the number of octets of the current frame that were used, including those of its
    /// length.
    pub fn looked(&self) -> u32
        ensures { result ≡ length self.now.octets }
    {
        match self.phase {
            Phase::Length(present) => present as u32,
            _ => (LENGTH_OCTETS + self.contents.len()) as u32,
        }
    }

    /// Returns the length that the current frame announces, once its four octets were used, also if
    /// it is refused for it.
    pub fn announced(&self) -> Option<u32>
        ensures { result ≡ announced self.now.octets }
    {
        match self.phase {
            Phase::Length(_) => None,
            _ => Some(u32::from_be_bytes(self.length)),
        }
    }

    /// Returns the number of lengths in the current frame's message that are whole and whose
    /// contents are not complete (X.690, 8.1): how deep the message is open.
    pub fn open_lengths(&self) -> usize
        ensures count { result ≡ open_lengths_of self.now }
        ensures few { result ≤ 13 }
    {
        if self.contents.is_empty() {
            0
        } else {
            self.machine.open_lengths()
        }
    }

    /// Returns the profile of its messages.
    pub fn profile(&self) -> Profile
        ensures { result ≡ self.now.profile }
    {
        self.machine.profile()
    }

    /// Returns the message of the current frame as far as it came, borrowed: of one that is refused
    /// the octets up to and with the one that is. There is none before its first octet.
    pub fn partial(&self) -> Option<Partial<'_>>
        ensures { MatchOption result (kept_contents self.now ≡ []) (λ partial. IsPartial self.now partial.size partial.octets.now) }
    {
        if self.contents.is_empty() {
            return None;
        }
        Some(Partial {
            size: u32::from_be_bytes(self.length),
            octets: self.contents.as_slice(),
        })
    }

    /// Returns the number of octets of the current frame's message that are kept, at most the
    /// limit.
    pub fn kept(&self) -> u32
        ensures value { result ≡ length (kept_contents self.now) }
        ensures few { result ≤ self.now.limit }
    {
        self.contents.len() as u32
    }
}

/// Returns the result of a feed that uses nothing.
fn answer(status: Status) -> Fed
    ensures { result ≡ record { used = 0; status = status } }
{
    Fed { used: 0, status }
}

/// Returns what is refused of a stream that ends after `seen` octets of a frame.
fn ended(seen: usize) -> Result<(), Refusal>
    requires { seen < 2 ^ 32 }
    ensures { result ≡ finish_at (end_after seen) }
{
    if seen == 0 {
        return Ok(());
    }
    Err(Refusal {
        place: seen as u32,
        why: Why::Truncated,
    })
}

/// Returns the phase after contents of a frame of `size` octets were used.
fn phase_after(size: u32, status: Status) -> Phase
    ensures { result ≡ phase_of size status }
{
    match status {
        Status::More | Status::Memory => Phase::Contents(size),
        Status::Ready => Phase::Ready,
        Status::Refused(refusal) => Phase::Refused(refusal),
    }
}

/// Puts octets of a piece after those of a length that are there, as many as are missing and
/// present, and returns how many.
fn put_octets(length: &mut [u8; LENGTH_OCTETS], present: usize, piece: &[u8]) -> usize
    requires { present < 4 }
    ensures { IsPut length.old present piece.now length.new result }
{
    if present == 0 {
        // All four come together, mostly.
        if let Some((whole, _)) = piece.split_first_chunk::<LENGTH_OCTETS>() {
            *length = *whole;
            return LENGTH_OCTETS;
        }
    }
    let count = piece.len().min(LENGTH_OCTETS - present);
    length[present..present + count].copy_from_slice(&piece[..count]);
    count
}

/// Returns what the four octets of a length come to. If contents follow, the machine is cleared for
/// them.
fn judge_length(machine: &mut Machine, limit: Limit, announced: [u8; LENGTH_OCTETS]) -> Phase
    requires { length announced ≡ 4 }
    ensures judged { IsLengthJudged (messages (profile_of machine.old)) limit announced result }
    ensures scanned { IsScanned (profile_of machine.old) machine.new announced [] result }
    ensures profile { profile_of machine.new ≡ profile_of machine.old }
    ensures looks { ledger_of machine.new ≡ ledger_of machine.old }
{
    let size = u32::from_be_bytes(announced);
    match length_fault(limit, size) {
        Some(why) => Phase::Refused(Refusal { place: 3, why }),
        None => {
            machine.clear(size);
            Phase::Contents(size)
        }
    }
}
