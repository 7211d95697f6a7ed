//! What the frames of a stream are delivered to.

ghost use Rattle.std.specs.Prelude.{◌≡◌, ◌+◌, ◌<◌, ◌^◌, ◌↔◌, length, take, IfOk, IsTrue, OnOk};
ghost use Rattle.krb_der.specs.Octets.{number};
ghost use Rattle.krb_msg.specs.Grammar.{messages};
ghost use Rattle.krb_frame.specs.Decoding.{status_of};
ghost use Rattle.krb_frame.specs.Deliveries.{IsReceived};
ghost use Rattle.krb_frame.specs.GoingOn.{Entry, Fault};
ghost use Rattle.krb_frame.specs.declared.decoder.Status.TheVariants as status;

use crate::decoder::Decoder;
use krb_der::{Memory, Profile, Refusal};

/// What the frames of a stream are delivered to, one after another.
pub trait Receiver {
    /// A frame led from one of its states to another.
    ghost Receives: { Self → Entry → Self → Type 0 };

    /// It is to receive no frame more for now.
    ghost IsFull: { Self → Type 0 };

    /// Receives the contents of a frame, if they are a message of a profile, and returns whether
    /// they are; else nothing changes.
    fn receive_contents(&mut self, profile: Profile, contents: &[u8]) -> Result<bool, Memory>
        requires short { length contents.now < 2 ^ 31 }
        ensures { IfOk result (IsReceived Receives profile contents.now self.old self.new) };

    /// Receives the refusal of the current frame of a decoder, which has `size` octets and is
    /// skipped after that.
    fn receive_refusal(
        &mut self,
        refusal: Refusal,
        decoder: &Decoder,
        size: u64,
    ) -> Result<(), Memory>
        requires refused { status_of (messages decoder.now.profile) decoder.now ≡ status.Refused refusal }
        requires size { size ≡ 4 + number (take 4 decoder.now.octets) }
        ensures { OnOk result (Receives self.old (Fault refusal.place refusal.why decoder.now.octets) self.new) };

    /// Returns whether it is full: then the frames that follow are to wait.
    fn is_full(&self) -> bool
        ensures { IsTrue result ↔ IsFull self.now };
}
