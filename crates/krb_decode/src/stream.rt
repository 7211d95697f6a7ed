//! The run over a stream that goes on after what is refused.

ghost use Rattle.std.specs.Prelude.{◌≡◌, ◌+◌, ◌^◌, ◌<◌, ◌++◌, length, IfErr, IfOk, OnOk};
ghost use Rattle.krb_convert.specs.inner.JsonLines.{IsOfMessage};
ghost use Rattle.krb_json.specs.Lines.{line_of};
ghost use Rattle.krb_msg.specs.Views.{message_of_der};
ghost use Rattle.krb_run.specs.Pieces.{listing_of};
ghost use Rattle.krb_run.specs.declared.run.RunFault.TheVariants as fault;
ghost use Rattle.krb_tool.specs.Paths.{frame_extent};
ghost use Rattle.krb_tool.specs.inner.Listers.{lister_kind};
ghost use Rattle.krb_decode.specs.Decoded.{not_encrypted};
ghost use Rattle.krb_decode.specs.Streams.{DecodesStream, FailsToDecodeStream, message_opening, part_of};
ghost use Rattle.krb_decode.specs.inner.StreamParts.{AddsEntry, AddsRefused, PutsEnd, stream_parts};

use krb_der::{Memory, Profile, Refusal};
use krb_frame::{Decoder, Delivered, Limit, Receiver, SkippingDecoder};
use krb_json::{put_text, unencrypted_path};
use krb_msg::view_message_in;
use krb_record::{Extent, Form, TextBuffer, put_counted_stream_end, put_stream_refusal};
use krb_run::{CountedReader, ListStream, RunEnd, RunFault, list_all};
use krb_tool::{frame_path, start_stream};
use std::alloc::Global;
use std::io::{Read, Write};

/// The number of octets of a frame's length.
const LENGTH_OCTETS: u64 = 4;

/// The lines of a stream that are not written yet, the numbers of messages and of refused frames so
/// far, and where the current frame begins: the octets of the frames before it.
#[derive(Drop)]
pub(crate) struct StreamParts {
    alloc: Global,
    profile: Profile,
    text: TextBuffer,
    messages: u64,
    refused: u64,
    offset: u64,
    /// Whether the first frame is refused.
    is_refused_at_once: bool,
}

/// Returns where the frame is that a decoder refused or has a part of, which begins at an offset,
/// and the length that it announces.
fn extent_of(offset: u64, decoder: &Decoder) -> Extent
    ensures { result ≡ frame_extent offset decoder.now.octets }
{
    let length = match decoder.announced() {
        None => None,
        Some(length) => Some(u64::from(length)),
    };
    Extent { at: offset, length }
}

impl StreamParts {
    /// Adds the line of a message, or, by its number, that it is not encrypted.
    fn put_message(&mut self, number: u64, octets: &[u8]) -> Result<(), Memory>
        requires short { length octets.now < 2 ^ 31 }
        requires message { IsOfMessage Profile.Lenient octets.now }
        ensures { OnOk result (self.new ≡ record self.old { text = self.old.text ++ part_of number (message_of_der octets.now) }) }
    {
        match unencrypted_path(self.alloc, octets)? {
            Some(path) => self.put_unencrypted(number, path.as_str()),
            None => self.put_line(octets),
        }
    }

    /// Adds that the message of a number is not encrypted, by the path to what is not.
    fn put_unencrypted(&mut self, number: u64, path: &str) -> Result<(), Memory>
        ensures { OnOk result (self.new ≡ record self.old { text = self.old.text ++ not_encrypted (message_opening number) path.now }) }
    {
        let origin = format!(in self.alloc; "message {number}: ")?;
        self.text.push_str(origin.as_str())?;
        self.text
            .push_pair(path, ": not encrypted, and so not printed\n")?;
        Ok(())
    }

    /// Adds the line of a message.
    fn put_line(&mut self, octets: &[u8]) -> Result<(), Memory>
        requires short { length octets.now < 2 ^ 31 }
        requires message { IsOfMessage Profile.Lenient octets.now }
        ensures { OnOk result (self.new ≡ record self.old { text = self.old.text ++ line_of (message_of_der octets.now) }) }
    {
        let line = put_text(self.alloc, Vec::new(self.alloc), octets)?;
        self.text.push_ascii(line.as_slice())?;
        self.text.push_str("\n")?;
        Ok(())
    }

    /// Adds the record of the frame that a decoder refused or has a part of, and counts it.
    fn put_refusal(&mut self, refusal: Refusal, decoder: &Decoder) -> Result<(), Memory>
        ensures { OnOk result (AddsRefused refusal decoder.now.octets self.old self.new) }
    {
        let form = Form::NamedLines;
        let path = frame_path(self.alloc, form, self.profile, decoder)?;
        let extent = extent_of(self.offset, decoder);
        put_stream_refusal(
            &mut self.text,
            form,
            self.messages,
            refusal,
            path.as_deref(),
            extent,
        )?;
        self.is_refused_at_once |= (self.messages == 0) & (self.refused == 0);
        self.refused = self.refused.saturating_add(1);
        Ok(())
    }

    /// Adds what was counted, if a frame is refused, and returns how the run ends.
    fn put_closing(&mut self) -> Result<RunEnd, RunFault>
        ensures put { IfOk result (PutsEnd self.old self.new) }
        ensures fault { IfErr result (λ e. e ≡ fault.Memory) }
    {
        if self.refused == 0 {
            return Ok(RunEnd::Clean);
        }
        put_counted_stream_end(
            &mut self.text,
            Form::NamedLines,
            self.messages,
            self.refused,
        )?;
        if self.is_refused_at_once {
            Ok(RunEnd::RefusedAtOnce)
        } else {
            Ok(RunEnd::Refused)
        }
    }
}

impl Receiver for StreamParts {
    ghost Receives = { AddsEntry };

    ghost IsFull = { λ parts. ⊥ };

    fn receive_contents(&mut self, profile: Profile, contents: &[u8]) -> Result<bool, Memory> {
        let Some(_) = view_message_in(profile, contents) else {
            return Ok(false);
        };
        self.messages = self.messages.saturating_add(1);
        self.put_message(self.messages, contents)?;
        let size = LENGTH_OCTETS + contents.len() as u64;
        self.offset = self.offset.saturating_add(size);
        Ok(true)
    }

    fn receive_refusal(
        &mut self,
        refusal: Refusal,
        decoder: &Decoder,
        size: u64,
    ) -> Result<(), Memory> {
        self.put_refusal(refusal, decoder)?;
        self.offset = self.offset.saturating_add(size);
        Ok(())
    }

    fn is_full(&self) -> bool {
        false
    }
}

/// What a decoding is asked for: the profile of the messages, and the greatest length of a frame.
#[derive(Drop)]
pub(crate) struct StreamRequest {
    profile: Profile,
    limit: Limit,
}

/// A lister of a stream that goes on after what is refused: its decoder, and the lines.
#[derive(Drop)]
pub(crate) struct StreamLister {
    decoder: SkippingDecoder,
    parts: StreamParts,
}

impl ListStream for StreamLister {
    type Request = StreamRequest;

    type End = RunEnd;

    ghost rules = { stream_parts.rules };

    ghost listing = { λ lister. listing_of (lister_kind stream_parts) (record { decoder = lister.decoder; lines = lister.parts }) };

    fn new(alloc: Global, request: StreamRequest) -> StreamLister {
        StreamLister {
            decoder: start_stream(alloc, request.limit, request.profile),
            parts: StreamParts {
                alloc,
                profile: request.profile,
                text: TextBuffer::new(alloc),
                messages: 0,
                refused: 0,
                offset: 0,
                is_refused_at_once: false,
            },
        }
    }

    fn feed(&mut self, piece: &[u8]) -> Result<bool, RunFault> {
        let delivered = self.decoder.deliver(piece, true, &mut self.parts)?;
        match delivered {
            Delivered::UpTo(_) => Ok(true),
            Delivered::Stopped(_) => Ok(false),
        }
    }

    fn text(&self) -> &[u8] {
        self.parts.text.octets()
    }

    fn clear_text(&mut self) {
        self.parts.text.clear();
    }

    fn finish(&mut self) -> Result<RunEnd, RunFault> {
        if let Err(refusal) = self.decoder.finish() {
            self.parts.put_refusal(refusal, self.decoder.decoder())?;
        }
        self.parts.put_closing()
    }
}

/// Decodes a stream of framed messages (RFC 4120, 7.2.2) of a profile, and goes on after what is
/// refused: writes a line of JSON for each message that is encrypted where it should be, and, in
/// their order, lines that begin with no brace, which say what is refused, as it is listed with names,
/// and by its number which message is not encrypted; and at the end what was counted, if something is
/// refused. Frames of more than `limit` octets are refused. The reader is asked at most 2^40 times,
/// for 64 KiB each, and the lines of what came are written before it is asked again.
pub fn run_decode_stream<R: Read, W: Write>(
    alloc: Global,
    profile: Profile,
    reader: &mut R,
    writer: &mut W,
    limit: Limit,
) -> Result<RunEnd, RunFault>
    ensures decoded { IfOk result (DecodesStream profile limit (R.remaining reader.old) (R.remaining reader.new) (W.contents writer.old) (W.contents writer.new)) }
    ensures fault { IfErr result (FailsToDecodeStream profile limit (R.remaining reader.old) (R.remaining reader.new) (W.contents writer.old) (W.contents writer.new)) }
{
    let mut counted = CountedReader::new(reader);
    let request = StreamRequest { profile, limit };
    list_all::<StreamLister, _, _>(alloc, request, &mut counted, writer)
}
