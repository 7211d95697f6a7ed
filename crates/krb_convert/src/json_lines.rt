//! The messages of a stream as lines of JSON.

ghost use Rattle.std.specs.Prelude.{◌≡◌, ◌+◌, ◌<◌, ◌^◌, length, [], IfOk, IsSome, OnOk, None};
ghost use Rattle.krb_msg.specs.Grammar.{messages};
ghost use Rattle.krb_frame.specs.Decoding.{found};
ghost use Rattle.krb_convert.specs.Decoding.{ending_of, ending_at};
ghost use Rattle.krb_tool.specs.Paths.{frame_path};
ghost use Rattle.krb_convert.specs.inner.JsonLines.{AddsLine, IsOfMessage, PutsLine, ReceivesEntry, json_lines};
ghost use Rattle.krb_tool.specs.inner.Listers.{lister_kind};
ghost use Rattle.krb_run.specs.Pieces.{listing_of};

use crate::decode_run::DecodeEnd;
use krb_der::{Memory, Profile, Refusal};
use krb_frame::{Decoder, Delivered, Limit, Receiver, SkippingDecoder};
use krb_json::{put_text, unencrypted_path};
use krb_msg::view_message_in;
use krb_record::Form;
use krb_run::{ListStream, RunFault};
use krb_tool::{frame_path, start_stream};
use std::alloc::Global;
use std::mem;

/// The lines of messages that are not written yet, the number of messages that have a line, and the
/// path in the message after them, if that is not encrypted.
#[derive(Drop)]
pub(crate) struct JsonLines {
    alloc: Global,
    pub(crate) text: Vec<u8>,
    messages: u64,
    pub(crate) unencrypted: Option<String>,
}

impl JsonLines {
    /// Creates no lines.
    pub(crate) fn new(alloc: Global) -> JsonLines
        ensures text { result.text.items ≡ [] }
        ensures messages { result.messages ≡ 0 }
        ensures none { result.unencrypted ≡ None }
    {
        JsonLines {
            alloc,
            text: Vec::new(alloc),
            messages: 0,
            unencrypted: None,
        }
    }

    /// Adds the line of the message whose DER octets are. If it is not encrypted it has no line, and
    /// the path is kept.
    pub(crate) fn put_message(&mut self, octets: &[u8]) -> Result<(), Memory>
        requires short { length octets.now < 2 ^ 31 }
        requires message { IsOfMessage Profile.Lenient octets.now }
        ensures { OnOk result (PutsLine octets.now self.old self.new) }
    {
        match unencrypted_path(self.alloc, octets)? {
            Some(path) => {
                self.unencrypted = Some(path);
                Ok(())
            }
            None => self.add_line(octets),
        }
    }

    /// Adds the line of a message, and counts it.
    fn add_line(&mut self, octets: &[u8]) -> Result<(), Memory>
        requires short { length octets.now < 2 ^ 31 }
        requires message { IsOfMessage Profile.Lenient octets.now }
        ensures { OnOk result (AddsLine octets.now self.old self.new) }
    {
        let lines = mem::replace(&mut self.text, Vec::new(self.alloc));
        self.text = put_text(self.alloc, lines, octets)?;
        self.text.push(b'\n')?;
        self.messages = self.messages.saturating_add(1);
        Ok(())
    }

    /// Returns how a run ends all of whose messages are encrypted, by its decoder.
    fn stream_end(&self, decoder: &Decoder) -> Result<DecodeEnd, Memory>
        ensures { IfOk result (λ ended. ending_of ended ≡ ending_at self.now.messages (found (messages decoder.now.profile) decoder.now).end (frame_path decoder.now.profile decoder.now.octets)) }
    {
        match decoder.finish() {
            Ok(()) => Ok(DecodeEnd::Clean),
            Err(refusal) => {
                let path = frame_path(self.alloc, Form::NamedLines, decoder.profile(), decoder)?;
                let messages = self.messages;
                Ok(DecodeEnd::Refused {
                    messages,
                    refusal,
                    path,
                })
            }
        }
    }
}

// A decoding ends at a refusal, so none is received, and no message after one that is not encrypted.
impl Receiver for JsonLines {
    ghost Receives = { ReceivesEntry };

    ghost IsFull = { λ lines. IsSome lines.unencrypted };

    fn receive_contents(&mut self, profile: Profile, contents: &[u8]) -> Result<bool, Memory> {
        let Some(_) = view_message_in(profile, contents) else {
            return Ok(false);
        };
        if self.unencrypted.is_some() {
            return Ok(true);
        }
        self.put_message(contents)?;
        Ok(true)
    }

    fn receive_refusal(
        &mut self,
        _refusal: Refusal,
        _decoder: &Decoder,
        _size: u64,
    ) -> Result<(), Memory> {
        Ok(())
    }

    fn is_full(&self) -> bool {
        self.unencrypted.is_some()
    }
}

/// What a decoding is asked for: the profile of the messages, and the greatest length of a frame.
#[derive(Drop)]
pub(crate) struct DecodeRequest {
    pub profile: Profile,
    pub limit: Limit,
}

/// A lister of a stream, up to its end, its first refusal, or its first message that is not
/// encrypted: its decoder, and the lines.
#[derive(Drop)]
pub(crate) struct JsonLister {
    decoder: SkippingDecoder,
    lines: JsonLines,
}

impl ListStream for JsonLister {
    type Request = DecodeRequest;

    type End = DecodeEnd;

    ghost rules = { json_lines.rules };

    ghost listing = { λ lister. listing_of (lister_kind json_lines) (record { decoder = lister.decoder; lines = lister.lines }) };

    fn new(alloc: Global, request: DecodeRequest) -> JsonLister {
        JsonLister {
            decoder: start_stream(alloc, request.limit, request.profile),
            lines: JsonLines::new(alloc),
        }
    }

    fn feed(&mut self, piece: &[u8]) -> Result<bool, RunFault> {
        let delivered = self.decoder.deliver(piece, false, &mut self.lines)?;
        match delivered {
            Delivered::UpTo(_) => Ok(!self.lines.is_full()),
            Delivered::Stopped(_) => Ok(false),
        }
    }

    fn text(&self) -> &[u8] {
        self.lines.text.as_slice()
    }

    fn clear_text(&mut self) {
        self.lines.text.clear();
    }

    fn finish(&mut self) -> Result<DecodeEnd, RunFault> {
        match self.lines.unencrypted.take() {
            Some(path) => Ok(DecodeEnd::Unencrypted {
                message: self.lines.messages + 1,
                path,
            }),
            None => Ok(self.lines.stream_end(self.decoder.decoder())?),
        }
    }
}
