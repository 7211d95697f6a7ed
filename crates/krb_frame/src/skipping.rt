//! A decoder that goes on after a refusal.

use crate::decoder::{Decoder, Fed};
use crate::framed::Framed;
use crate::receiver::Receiver;
use crate::whole::{WholeFrame, first_frame};
use krb_der::{Memory, Refusal};
use std::marker::Model;

/// Decodes a stream of framed messages as a [`Decoder`] does, and can skip a frame that is refused:
/// the length of a frame says where the next one begins (RFC 4120, 7.2.2). It keeps no octet of a
/// frame after that was skipped, and does not look at any.
#[derive(Drop)]
pub struct SkippingDecoder {
    decoder: Decoder,
    skipped: u32,
}

impl Model for SkippingDecoder {
    ghost use Rattle.krb_frame.specs.GoingOn.{Skipping};

    ghost Value = { Skipping };

    ghost view = { λ s. record { current = s.decoder; skipped = s.skipped } };
}

ghost use Rattle.std.specs.Prelude.{◌≡◌, ◌↔◌, ℕ, List, length, map, IfOk, IfSome, IsTrue, MatchOption};
ghost use Rattle.krb_der.specs.declared.verdict.Verdict.TheVariants.{Whole};
ghost use Rattle.krb_msg.specs.Grammar.{messages};
ghost use Rattle.krb_msg.specs.Judgement.{judgement};
ghost use Rattle.krb_frame.specs.Decoded.{HasDecoded};
ghost use Rattle.krb_frame.specs.Decoding.{borrowed, finish_of};
ghost use Rattle.krb_frame.specs.GoingOn.{Contents, GoesOn, FeedsAfter, IsClear, ClearsEntry, Skips};
ghost use Rattle.krb_frame.specs.inner.Deliveries.{CompletesEntry};
ghost use Rattle.krb_frame.specs.Wholes.{BeginWith, HaveNoFrame};

impl SkippingDecoder {
    /// Goes on with the stream that a decoder has decoded.
    #[inline(always)]
    pub fn new(decoder: Decoder) -> SkippingDecoder
        ensures decoder { result ≡ record { current = decoder; skipped = 0 } }
        ensures goes_on { (stream : List ℕ) (cleared : List (List ℕ)) → HasDecoded (messages decoder.profile) decoder stream cleared → GoesOn (messages decoder.profile) result stream (map Contents cleared) }
    {
        SkippingDecoder {
            decoder,
            skipped: 0,
        }
    }

    /// Uses the first octets of a piece: first those of a skipped frame that are still to
    /// come, which are passed over, and then octets of the next one, as [`Decoder::feed`] does.
    pub fn feed(&mut self, piece: &[u8]) -> Fed
        ensures { FeedsAfter (messages self.old.current.profile) self.old piece.now self.new result }
    {
        let count = piece.len().min(self.skipped as usize);
        self.skipped -= count as u32;
        let fed = self.decoder.feed(&piece[count..]);
        Fed {
            used: count + fed.used,
            status: fed.status,
        }
    }

    /// Returns whether no octets of the current frame were used, and none of a skipped one are to
    /// come.
    #[inline(always)]
    pub fn is_clear(&self) -> bool
        ensures { IsTrue result ↔ IsClear self.now }
    {
        self.skipped == 0 && self.decoder.is_clear()
    }

    /// Returns the frame with which a piece begins, if it is all there and its length is accepted,
    /// no octets of a frame were used, and none of a skipped one are to come.
    #[inline(always)]
    pub(crate) fn whole<'p>(&self, piece: &'p [u8]) -> Option<WholeFrame<'p>>
        ensures { MatchOption result (IsClear self.now → HaveNoFrame self.now.current.limit piece.now) (λ frame. IsClear self.now × BeginWith self.now.current.limit piece.now frame.contents.now frame.rest.now) }
    {
        if !self.is_clear() {
            return None;
        }
        first_frame(self.decoder.limit(), piece)
    }

    /// Delivers the frame that ends with the first octets of a piece, as [`Decoder::complete`] does.
    /// Nothing is used while octets of a skipped frame are to come.
    pub(crate) fn complete<R: Receiver>(
        &mut self,
        piece: &[u8],
        receiver: &mut R,
    ) -> Result<Option<usize>, Memory>
        ensures { IfOk result (CompletesEntry R.Receives self.old piece.now self.new receiver.old receiver.new) }
    {
        if self.skipped != 0 {
            return Ok(None);
        }
        self.decoder.complete(piece, receiver)
    }

    /// Returns the frame that is ready, borrowed.
    pub fn ready(&self) -> Option<Framed<'_>>
        ensures frame { result ≡ borrowed (messages self.now.current.profile) self.now.current }
        ensures whole { IfSome result (λ contents. judgement self.now.current.profile (length contents) contents ≡ Whole) }
    {
        self.decoder.ready()
    }

    /// Clears the frame that is ready, as [`Decoder::next`] does.
    pub fn next(&mut self) -> bool
        ensures { ClearsEntry (messages self.old.current.profile) self.old self.new result }
    {
        self.decoder.next()
    }

    /// Skips the frame that is refused, and returns whether it did: the octets of that frame that
    /// are still to come are passed over, and what comes after them is the next frame. If nothing
    /// is refused nothing changes; nor does it after `HighBit`, since the length of that frame is
    /// not known.
    pub fn skip(&mut self) -> bool
        ensures { Skips (messages self.old.current.profile) self.old self.new result }
    {
        let Some(rest) = self.decoder.skip() else {
            return false;
        };
        self.skipped = rest;
        true
    }

    /// Returns the decoder of the frames that are not skipped, borrowed.
    pub fn decoder(&self) -> &Decoder
        ensures { result.now ≡ self.now.current }
    {
        &self.decoder
    }

    /// Returns what is refused of a stream that ends here, as [`Decoder::finish`] says: nothing of
    /// a frame that was skipped.
    pub fn finish(&self) -> Result<(), Refusal>
        ensures { result ≡ finish_of (messages self.now.current.profile) self.now.current }
    {
        self.decoder.finish()
    }
}
