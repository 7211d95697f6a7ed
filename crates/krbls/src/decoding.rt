//! The runs over sources that are decoded as their first octets say.

ghost use Rattle.std.specs.Option.{option_copied};
ghost use Rattle.std.specs.Prelude.{◌≡◌, ◌⊎◌, ◌++◌, ℕ, List, IfOk};
ghost use Rattle.krb_decode.specs.Hints.{keytab_text};
ghost use Rattle.krb_decode.specs.Sorted.{sorted_end};
ghost use Rattle.krb_input.specs.Sources.{command_for};
ghost use Rattle.krb_run.specs.Begun.{begun_remaining, first_of};
ghost use Rattle.krbls.specs.Commands.{ListsTo, decoding_of};
ghost use Rattle.krb_words.specs.Shell.{shell_word};
ghost use Rattle.krbls.specs.Program.{DecodesBegun, DecodesCapture, DecodesCredentials, DecodesFrames, DecodesOn, DecodesSorted, DecodesSpelled, DecodesStreamOn, DoesBegun, name_of, sorted_outcome};

use crate::lister::{Lister, name_word};
use krb_capture_run::run_decode_capture;
use krb_decode::{
    Sorting, Tell, keytab_text, run_decode_ccache, run_decode_input, run_decode_stream,
};
use krb_host::Host;
use krb_input::{SourceKind, hint_of, kind_of};
use krb_record::{Label, TextBuffer};
use krb_run::{Begun, RunEnd, RunFault};
use krb_tool::{Limit, Profile};
use krb_words::{AfterRefusal, Command, Framing, Packets, Source};
use std::alloc::Global;
use std::io::{Read, Write};

/// How sources are decoded as their first octets say.
#[derive(Clone, Copy)]
pub(crate) struct Decoding {
    limit: Limit,
    profile: Profile,
    refused: AfterRefusal,
    packets: Packets,
}

/// Returns how a command decodes each source as its first octets say, if it does.
fn decoding_of(command: &Command) -> Option<Decoding>
    ensures { result ≡ decoding_of command.now }
{
    match command {
        Command::Decode(limit, profile, Framing::Framed, refused, packets) => Some(Decoding {
            limit: *limit,
            profile: *profile,
            refused: *refused,
            packets: *packets,
        }),
        _ => None,
    }
}

/// What tells lines of a source.
#[derive(Clone, Copy)]
struct Telling<'a, H> {
    host: &'a H,
    source: &'a Source,
}

impl<H: Host> Tell for Telling<'_, H> {
    ghost IsTold = { λ t. (H.around t.host.now).IsEndTold t.source.now };

    fn tell(&self, line: &[u8]) {
        self.host.tell_end(self.source, line);
    }
}

/// Returns how a run ends that was refused at once, or of which something was told, or nothing.
fn sorted_end(end: RunEnd, has_told: bool) -> RunEnd
    ensures { result ≡ sorted_end end has_told }
{
    match end {
        RunEnd::RefusedAtOnce => RunEnd::RefusedAtOnce,
        RunEnd::Clean | RunEnd::Refused if has_told => RunEnd::Refused,
        RunEnd::Clean | RunEnd::Refused => RunEnd::Clean,
    }
}

/// Returns how a run ends over a text that was sorted, or its fault.
fn sorted_outcome(outcome: Result<RunEnd, RunFault>, has_told: bool) -> Result<RunEnd, RunFault>
    ensures { result ≡ sorted_outcome outcome has_told }
{
    match outcome {
        Ok(end) => Ok(sorted_end(end, has_told)),
        Err(fault) => Err(fault),
    }
}

/// Decodes a capture to what sorts its lines.
fn capture_into<R: Read, W: Write, T: Tell>(
    alloc: Global,
    decoding: Decoding,
    reader: &mut R,
    sorting: &mut Sorting<'_, W, T>,
) -> Result<RunEnd, RunFault>
    ensures given { (text : List ℕ) × (sorting.new.given.octets ≡ sorting.old.given.octets ++ text) × ListsTo (DecodesCapture decoding (R.remaining reader.old)) text result }
    ensures same_writer { sorting.new.writer.ghost_name ≡ sorting.old.writer.ghost_name }
    ensures same_before { W.contents sorting.new.before.value ≡ W.contents sorting.old.before.value }
    ensures same_teller { sorting.new.teller.now ≡ sorting.old.teller.now }
{
    let Packets { port, number } = decoding.packets;
    let Decoding { limit, profile, .. } = decoding;
    run_decode_capture(alloc, profile, reader, sorting, limit, port, number)
}

/// Decodes a stream that goes on after what is refused, to what sorts its lines.
fn stream_into<R: Read, W: Write, T: Tell>(
    alloc: Global,
    decoding: Decoding,
    reader: &mut R,
    sorting: &mut Sorting<'_, W, T>,
) -> Result<RunEnd, RunFault>
    ensures given { (text : List ℕ) × (sorting.new.given.octets ≡ sorting.old.given.octets ++ text) × ListsTo (DecodesOn decoding (R.remaining reader.old) (R.remaining reader.new)) text result }
    ensures same_writer { sorting.new.writer.ghost_name ≡ sorting.old.writer.ghost_name }
    ensures same_before { W.contents sorting.new.before.value ≡ W.contents sorting.old.before.value }
    ensures same_teller { sorting.new.teller.now ≡ sorting.old.teller.now }
{
    let Decoding { limit, profile, .. } = decoding;
    run_decode_stream(alloc, profile, reader, sorting, limit)
}

impl<H: Host> Lister<'_, H> {
    /// Does the command with what a reader reads of a source.
    pub(crate) fn do_begun<R: Read, W: Write>(
        &self,
        source: &Source,
        label: &Label,
        reader: &mut Begun<R>,
        writer: &mut W,
    ) -> Result<RunEnd, RunFault>
        ensures { DoesBegun (H.around self.now.host.now) (option_copied self.now.choice) label.now self.now.time self.now.command.now source.now (first_of reader.old) (begun_remaining R.remaining reader.old) (W.contents writer.old) (W.contents writer.new) result }
    {
        match decoding_of(self.command) {
            Some(decoding) => self.decode_begun(source, decoding, label, reader, writer),
            None => self.list_begun(source, label, reader, writer),
        }
    }

    /// Decodes what a reader reads of a source: one message, a credential cache or a keytab if its first
    /// octets say so, and else a stream.
    fn decode_begun<R: Read, W: Write>(
        &self,
        source: &Source,
        decoding: Decoding,
        label: &Label,
        reader: &mut Begun<R>,
        writer: &mut W,
    ) -> Result<RunEnd, RunFault>
        ensures { DecodesBegun (command_for (first_of reader.old)) (H.around self.now.host.now) (option_copied self.now.choice) label.now self.now.time self.now.command.now decoding source.now (first_of reader.old) (begun_remaining R.remaining reader.old) (W.contents writer.old) (W.contents writer.new) result }
    {
        match kind_of(reader.first()) {
            SourceKind::Message => self.decode_input(source, decoding.profile, reader, writer),
            SourceKind::Ccache => self.decode_credentials(source, reader, writer),
            SourceKind::Keytab => self.tell_keytab(source),
            SourceKind::Capture => self.decode_capture(source, decoding, reader, writer),
            SourceKind::Stream => self.decode_frames(source, decoding, label, reader, writer),
        }
    }

    /// Decodes a stream, up to what is refused or after that, too.
    fn decode_frames<R: Read, W: Write>(
        &self,
        source: &Source,
        decoding: Decoding,
        label: &Label,
        reader: &mut Begun<R>,
        writer: &mut W,
    ) -> Result<RunEnd, RunFault>
        ensures { DecodesFrames decoding.refused decoding (H.around self.now.host.now) (option_copied self.now.choice) label.now self.now.time self.now.command.now source.now (first_of reader.old) (begun_remaining R.remaining reader.old) (W.contents writer.old) (W.contents writer.new) result }
    {
        match decoding.refused {
            AfterRefusal::Ends => self.list_begun(source, label, reader, writer),
            AfterRefusal::GoesOn => self.decode_stream(source, decoding, reader, writer),
        }
    }

    /// Decodes a capture, and tells what is left out of it.
    fn decode_capture<R: Read, W: Write>(
        &self,
        source: &Source,
        decoding: Decoding,
        reader: &mut R,
        writer: &mut W,
    ) -> Result<RunEnd, RunFault>
        ensures { DecodesSorted ((H.around self.now.host.now).IsEndTold source.now) (DecodesCapture decoding (R.remaining reader.old)) (W.contents writer.old) (W.contents writer.new) result }
    {
        let telling = Telling {
            host: self.host,
            source,
        };
        let mut sorting = Sorting::new(self.alloc, writer, &telling);
        let outcome = capture_into(self.alloc, decoding, reader, &mut sorting);
        let outcome = sorted_outcome(outcome, sorting.has_told());
        let _ = &*sorting.finish();
        outcome
    }

    /// Decodes a stream that goes on after what is refused, and tells what is left out of it.
    fn decode_on<R: Read, W: Write>(
        &self,
        source: &Source,
        decoding: Decoding,
        reader: &mut R,
        writer: &mut W,
    ) -> Result<RunEnd, RunFault>
        ensures { DecodesSorted ((H.around self.now.host.now).IsEndTold source.now) (DecodesOn decoding (R.remaining reader.old) (R.remaining reader.new)) (W.contents writer.old) (W.contents writer.new) result }
    {
        let telling = Telling {
            host: self.host,
            source,
        };
        let mut sorting = Sorting::new(self.alloc, writer, &telling);
        let outcome = stream_into(self.alloc, decoding, reader, &mut sorting);
        let outcome = sorted_outcome(outcome, sorting.has_told());
        let _ = &*sorting.finish();
        outcome
    }

    /// Decodes a stream that goes on after what is refused, tells what is left out of it, and a hint if
    /// its first frame is refused.
    fn decode_stream<R: Read, W: Write>(
        &self,
        source: &Source,
        decoding: Decoding,
        reader: &mut Begun<R>,
        writer: &mut W,
    ) -> Result<RunEnd, RunFault>
        ensures { DecodesStreamOn (H.around self.now.host.now) self.now.command.now decoding source.now (first_of reader.old) (begun_remaining R.remaining reader.old) (W.contents writer.old) (W.contents writer.new) result }
    {
        let hint = hint_of(SourceKind::Stream, reader.first());
        let end = self.decode_on(source, decoding, reader, writer)?;
        if end == RunEnd::RefusedAtOnce {
            self.tell_hint(source, hint)?;
        }
        Ok(end)
    }

    /// Decodes the one message that an input spells, and tells what is left out of it, and a hint if
    /// it is refused.
    fn decode_input<R: Read, W: Write>(
        &self,
        source: &Source,
        profile: Profile,
        reader: &mut Begun<R>,
        writer: &mut W,
    ) -> Result<RunEnd, RunFault>
        ensures { DecodesSpelled (H.around self.now.host.now) self.now.command.now profile source.now (first_of reader.old) (begun_remaining R.remaining reader.old) (W.contents writer.old) (W.contents writer.new) result }
    {
        let hint = hint_of(SourceKind::Message, reader.first());
        let end = run_decode_input(self.alloc, profile, reader, writer)?;
        self.tell_said(source, end.said.as_slice());
        if end.end == RunEnd::RefusedAtOnce {
            self.tell_hint(source, hint)?;
        }
        Ok(end.end)
    }

    /// Decodes the tickets of a credential cache, and tells what is left out of it.
    fn decode_credentials<R: Read, W: Write>(
        &self,
        source: &Source,
        reader: &mut Begun<R>,
        writer: &mut W,
    ) -> Result<RunEnd, RunFault>
        ensures { DecodesCredentials (H.around self.now.host.now) source.now (begun_remaining R.remaining reader.old) (W.contents writer.old) (W.contents writer.new) result }
    {
        let mut said = TextBuffer::new(self.alloc);
        let ended = run_decode_ccache(self.alloc, reader, writer, &mut said);
        if let Err(RunFault::Memory) = &ended {
            // The last line may not be whole.
            return ended;
        }
        self.tell_said(source, said.octets());
        ended
    }

    /// Tells that a source is a keytab, which has no messages.
    fn tell_keytab(&self, source: &Source) -> Result<RunEnd, RunFault>
        ensures told { IfOk result (λ _. (H.around self.now.host.now).IsHintTold source.now (keytab_text (shell_word (name_of source.now)))) }
        ensures ends { (result ≡ Ok RunEnd.Refused) ⊎ (result ≡ Err RunFault.Memory) }
    {
        let name = name_word(self.alloc, source)?;
        let text = keytab_text(self.alloc, name.as_str())?;
        self.host.tell_hint(source, text.as_str());
        Ok(RunEnd::Refused)
    }
}
