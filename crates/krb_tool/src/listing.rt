//! The listing of a stream, up to its end or its first refusal, or also after refusals.

ghost use Rattle.std.specs.Prelude.{◌≡◌, IfErr, IfOk, OnOk};
ghost use Rattle.krb_tool.specs.GoingOn.{counted_run_end};
ghost use Rattle.krb_run.specs.declared.run.RunFault.TheVariants as fault;
ghost use Rattle.krb_tool.specs.Starts.{IsStart};
ghost use Rattle.krb_tool.specs.inner.Listers.{lister_kind};
ghost use Rattle.krb_run.specs.Pieces.{listing_of};
ghost use Rattle.krb_tool.specs.inner.StreamLines.{AddsRefused, ListsEntry, PutsClosing, stream_lines};

use crate::fault_path::{frame_extent, frame_path};
use crate::labelled::{put_counted_end, put_end, put_message, put_refusal};
use krb_der::{Memory, Profile, Refusal};
use krb_frame::{Decoder, Delivered, Limit, Receiver, SkippingDecoder};
use krb_record::{Label, TextBuffer};
use krb_run::{ListStream, RunEnd, RunFault};
use std::alloc::Global;

/// The number of octets of a frame's length.
const LENGTH_OCTETS: u64 = 4;

/// What a listing is asked for: the label of its records, the profile of the messages, the greatest
/// length of a frame, and whether it goes on after refusals.
#[derive(Clone, Copy, Drop)]
pub(crate) struct Request<'a> {
    pub label: &'a Label,
    pub profile: Profile,
    pub limit: Limit,
    pub keep_going: bool,
}

/// Returns the decoder of a stream with no octets yet, by a profile and the greatest length of a
/// frame.
pub fn start_stream(alloc: Global, limit: Limit, profile: Profile) -> SkippingDecoder
    ensures { IsStart profile limit result }
{
    SkippingDecoder::new(Decoder::with_profile(alloc, limit, profile))
}

/// The lines of a stream that are not written yet, with what allocates for them and what they are
/// asked for, the numbers of messages and of refused frames so far, and where the current frame
/// begins: the octets of the frames before it.
#[derive(Drop)]
pub(crate) struct StreamLines<'a> {
    alloc: Global,
    request: Request<'a>,
    text: TextBuffer,
    messages: u64,
    refused: u64,
    offset: u64,
    /// Whether the first frame is refused.
    is_refused_at_once: bool,
}

impl StreamLines<'_> {
    /// Adds the line of the frame that a decoder refused or has a part of, as a message by a
    /// profile, and counts it.
    fn put_refusal(
        &mut self,
        profile: Profile,
        refusal: Refusal,
        decoder: &Decoder,
    ) -> Result<(), Memory>
        ensures { OnOk result (AddsRefused profile refusal decoder.now.octets self.old self.new) }
    {
        let label = self.request.label;
        let path = frame_path(self.alloc, label.form(), profile, decoder)?;
        let extent = frame_extent(self.offset, decoder);
        put_refusal(
            &mut self.text,
            label,
            self.messages,
            refusal,
            path.as_deref(),
            extent,
        )?;
        self.is_refused_at_once |= (self.messages == 0) & (self.refused == 0);
        self.refused = self.refused.saturating_add(1);
        Ok(())
    }

    /// Adds the last line, if none was refused or refused frames are counted, and returns how the
    /// run ends.
    fn put_closing(&mut self) -> Result<RunEnd, RunFault>
        ensures put { IfOk result (PutsClosing self.old self.new) }
        ensures fault { IfErr result (λ e. e ≡ fault.Memory) }
    {
        let label = self.request.label;
        if self.request.keep_going {
            put_counted_end(&mut self.text, label, self.messages, self.refused)?;
        } else if self.refused == 0 {
            put_end(&mut self.text, label, self.messages)?;
        }
        Ok(counted_end(self.is_refused_at_once, self.refused))
    }
}

impl Receiver for StreamLines<'_> {
    ghost Receives = { ListsEntry };

    ghost IsFull = { λ lines. ⊥ };

    fn receive_contents(&mut self, profile: Profile, contents: &[u8]) -> Result<bool, Memory> {
        if !put_message(&mut self.text, self.request.label, profile, contents)? {
            return Ok(false);
        }
        self.messages = self.messages.saturating_add(1);
        let size = LENGTH_OCTETS + contents.len() as u64;
        self.offset = self.offset.saturating_add(size);
        Ok(true)
    }

    fn receive_refusal(
        &mut self,
        refusal: Refusal,
        decoder: &Decoder,
        size: u64,
    ) -> Result<(), Memory> {
        self.put_refusal(self.request.profile, refusal, decoder)?;
        self.offset = self.offset.saturating_add(size);
        Ok(())
    }

    fn is_full(&self) -> bool {
        false
    }
}

/// A lister of a stream, which goes on after refusals if it is asked to: its decoder, and the lines.
#[derive(Drop)]
pub(crate) struct Lister<'a> {
    decoder: SkippingDecoder,
    lines: StreamLines<'a>,
}

impl<'a> ListStream for Lister<'a> {
    type Request = Request<'a>;

    type End = RunEnd;

    ghost rules = { stream_lines.rules };

    ghost listing = { λ lister. listing_of (lister_kind stream_lines) (record { decoder = lister.decoder; lines = lister.lines }) };

    fn new(alloc: Global, request: Request<'a>) -> Lister<'a> {
        let Request {
            label,
            profile,
            limit,
            keep_going,
        } = request;
        let decoder = start_stream(alloc, limit, profile);
        let text = TextBuffer::new(alloc);
        let asked = Request {
            label,
            profile,
            limit,
            keep_going,
        };
        let lines = StreamLines {
            alloc,
            request: asked,
            text,
            messages: 0,
            refused: 0,
            offset: 0,
            is_refused_at_once: false,
        };
        Lister { decoder, lines }
    }

    fn feed(&mut self, piece: &[u8]) -> Result<bool, RunFault> {
        let keeps_going = self.lines.request.keep_going;
        let delivered = self.decoder.deliver(piece, keeps_going, &mut self.lines)?;
        match delivered {
            Delivered::UpTo(_) => Ok(true),
            Delivered::Stopped(_) => Ok(false),
        }
    }

    fn text(&self) -> &[u8] {
        self.lines.text.octets()
    }

    fn clear_text(&mut self) {
        self.lines.text.clear();
    }

    fn finish(&mut self) -> Result<RunEnd, RunFault> {
        if let Err(refusal) = self.decoder.finish() {
            let decoder = self.decoder.decoder();
            self.lines.put_refusal(decoder.profile(), refusal, decoder)?;
        }
        self.lines.put_closing()
    }
}

/// Returns how a run ends in which this number of frames or lines is refused, and the first or not.
pub(crate) fn counted_end(at_once: bool, refused: u64) -> RunEnd
    ensures { result ≡ counted_run_end at_once refused }
{
    if refused == 0 {
        RunEnd::Clean
    } else if at_once {
        RunEnd::RefusedAtOnce
    } else {
        RunEnd::Refused
    }
}
