//! Frames that are delivered one after another, as the octets of a stream come.

ghost use Rattle.std.specs.Prelude.{◌≡◌, Bool, true, IfOk};
ghost use Rattle.krb_frame.specs.Deliveries.{DeliversPiece, status_in};
ghost use Rattle.krb_frame.specs.inner.Deliveries.{DeliversNext};
ghost use Rattle.krb_frame.specs.declared.decoder.Status.TheVariants as status;

use crate::decoder::{LENGTH_OCTETS, Status};
use crate::receiver::Receiver;
use crate::skipping::SkippingDecoder;
use krb_der::{Memory, Refusal};

/// What becomes of a piece whose frames are delivered.
#[derive(Clone, Copy)]
pub enum Delivered<'p> {
    /// Those up to these octets were: there are none, unless the receiver is full.
    UpTo(&'p [u8]),
    /// Those up to one that is refused and was not skipped were.
    Stopped(Refusal),
}

/// What comes next in a piece.
#[derive(Clone, Copy)]
enum Next<'p> {
    /// A frame, which was delivered, and these octets follow it.
    Frame(&'p [u8]),
    /// Octets of a frame that is not whole.
    Part,
    /// A frame that is refused and was not skipped.
    Stopped(Refusal),
}

impl SkippingDecoder {
    /// Delivers the frames of a piece, which follows what was used before, up to one with which the
    /// receiver is full. A frame that is refused is delivered and skipped, if `keeps_going` and its
    /// length is known; else nothing after it is looked at, and the decoder stays refused. Out of
    /// memory, nothing is known of the decoder.
    ///
    /// The machine looks at no octet of a message that lies in the piece, or of which earlier pieces
    /// have some octets and this one all others: the receiver gets its contents as they are.
    pub fn deliver<'p, R: Receiver>(
        &mut self,
        piece: &'p [u8],
        keeps_going: bool,
        receiver: &mut R,
    ) -> Result<Delivered<'p>, Memory>
        ensures { IfOk result (DeliversPiece R.Receives R.IsFull keeps_going self.old piece.now self.new receiver.old receiver.new) }
    {
        let mut rest = piece;
        'frames: loop {
            let next = self.deliver_next(rest, keeps_going, receiver)?;
            match next {
                Next::Frame(after) => rest = after,
                Next::Part => return Ok(Delivered::UpTo(&[])),
                Next::Stopped(refusal) => return Ok(Delivered::Stopped(refusal)),
            }
            if receiver.is_full() {
                return Ok(Delivered::UpTo(rest));
            }
        }
    }

    /// Delivers the first frame of a piece, if it is whole with it or refused.
    #[inline(always)]
    fn deliver_next<'p, R: Receiver>(
        &mut self,
        piece: &'p [u8],
        keeps_going: bool,
        receiver: &mut R,
    ) -> Result<Next<'p>, Memory>
        ensures { IfOk result (DeliversNext R.Receives keeps_going self.old piece.now self.new receiver.old receiver.new) }
    {
        let Some(frame) = self.whole(piece) else {
            return self.deliver_cut(piece, keeps_going, receiver);
        };
        let profile = self.decoder().profile();
        if !receiver.receive_contents(profile, frame.contents)? {
            return self.deliver_cut(piece, keeps_going, receiver);
        }
        Ok(Next::Frame(frame.rest))
    }

    /// Delivers the first frame of a piece, as [`deliver_next`](SkippingDecoder::deliver_next)
    /// does, where it does not lie there whole or is no message.
    fn deliver_cut<'p, R: Receiver>(
        &mut self,
        piece: &'p [u8],
        keeps_going: bool,
        receiver: &mut R,
    ) -> Result<Next<'p>, Memory>
        ensures { IfOk result (DeliversNext R.Receives keeps_going self.old piece.now self.new receiver.old receiver.new) }
    {
        let completed = self.complete(piece, receiver)?;
        match completed {
            Some(used) => Ok(Next::Frame(&piece[used..])),
            None => self.deliver_fed(piece, keeps_going, receiver),
        }
    }

    /// Feeds a piece, and delivers the frame that is whole with its first octets or refused.
    fn deliver_fed<'p, R: Receiver>(
        &mut self,
        piece: &'p [u8],
        keeps_going: bool,
        receiver: &mut R,
    ) -> Result<Next<'p>, Memory>
        ensures { IfOk result (DeliversNext R.Receives keeps_going self.old piece.now self.new receiver.old receiver.new) }
    {
        let fed = self.feed(piece);
        let rest = &piece[fed.used..];
        match fed.status {
            Status::More => Ok(Next::Part),
            Status::Memory => Err(Memory),
            Status::Ready => self.deliver_ready(rest, receiver),
            Status::Refused(refusal) if keeps_going => self.deliver_refused(
                refusal, rest, receiver,
            ),
            Status::Refused(refusal) => Ok(Next::Stopped(refusal)),
        }
    }

    /// Delivers the frame that is ready, which the rest of a piece follows, and clears it.
    fn deliver_ready<'p, R: Receiver>(
        &mut self,
        rest: &'p [u8],
        receiver: &mut R,
    ) -> Result<Next<'p>, Memory>
        requires { status_in self.old ≡ status.Ready }
        ensures { IfOk result (λ next. (keeps_going : Bool) → DeliversNext R.Receives keeps_going self.old rest.now self.new receiver.old receiver.new next) }
    {
        let Some(framed) = self.ready() else {
            unreachable!()
        };
        let profile = self.decoder().profile();
        if !receiver.receive_contents(profile, framed.octets())? {
            unreachable!()
        }
        self.next();
        Ok(Next::Frame(rest))
    }

    /// Delivers the frame that is refused, of which the rest of a piece follows what was used, and
    /// skips it. If its length is not known nothing changes.
    fn deliver_refused<'p, R: Receiver>(
        &mut self,
        refusal: Refusal,
        rest: &'p [u8],
        receiver: &mut R,
    ) -> Result<Next<'p>, Memory>
        requires { status_in self.old ≡ status.Refused refusal }
        ensures { IfOk result (DeliversNext R.Receives true self.old rest.now self.new receiver.old receiver.new) }
    {
        let decoder = self.decoder();
        match decoder.rest_to_come() {
            None => Ok(Next::Stopped(refusal)),
            Some(_) => {
                let size = LENGTH_OCTETS as u64 + u64::from(decoder.announced().unwrap_or(0));
                receiver.receive_refusal(refusal, decoder, size)?;
                self.skip();
                Ok(Next::Frame(rest))
            }
        }
    }
}
