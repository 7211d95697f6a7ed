//! The runs over sources.

ghost use Rattle.std.specs.Prelude.{◌≡◌, ◌++◌, ℕ, List, Err, IfErr, IfOk, IfSome, None, OnOk, string_bytes};
ghost use Rattle.std.specs.Option.{option_and_then, option_copied};
ghost use Rattle.krb_run.specs.Begun.{begun_remaining, first_of};
ghost use Rattle.krb_run.specs.Faults.{IsWrite};
ghost use Rattle.krb_run.specs.Records.{WritesSome};
ghost use Rattle.krb_convert.specs.Encoding.{FailsToEncode};
ghost use Rattle.krb_words.specs.Shell.{shell_word};
ghost use Rattle.krb_words.specs.Tasks.{said_unopened};
ghost use Rattle.krb_convert.specs.Conversions.{DecodesBy, EncodesBy, FailsToDecodeBy, is_framed};
ghost use Rattle.krb_convert.specs.Ends.{decode_end_line, decode_run_end, encode_end_line, encode_run_end};
ghost use Rattle.krb_input.specs.Hints.{hint_for};
ghost use Rattle.krbls.specs.Commands.{Does, DoesWith, FailsToTurn, ListsTo, TellsLast, TellsSaid, Turns, chosen, fitting as fitting_hint, goes_on, hint_by, kind_read, unless_http as hint_unless_http};
ghost use Rattle.krbls.specs.Program.{DoesFrom, DoesSource, IsFaultReported, IsHinted, IsTold, ListsBy, NamesSource, name_line, name_of, text_for as text_by};

use krb_capture_run::run_capture;
use krb_choice::Choice;
use krb_choosing::Choosing;
use krb_convert::{decode, encode, put_decode_end, put_encode_end};
use krb_decode::hint_text;
use krb_file_run::{run_ccache_in, run_keytab_in};
use krb_host::Host;
use krb_input::{Hint, SourceKind, hint_of, kind_of};
use krb_items_run::run_items_in;
use krb_record::{Label, TextBuffer, put_file};
use krb_run::{Begun, ListSource, RunEnd, RunFault, write_all};
use krb_tool::{Limit, Profile, run_lines_in, run_message_in, run_stream_in};
use krb_words::{AfterRefusal, Command, Framing, Inputs, ShellWord, Source};
use std::alloc::{AllocError, Global};
use std::io;
use std::io::{Read, Write};

/// What does the command of a command line with sources.
#[derive(Drop)]
pub(crate) struct Lister<'a, H> {
    pub(crate) alloc: Global,
    pub(crate) host: &'a H,
    pub(crate) command: &'a Command,
    /// The time that credentials are compared with, in seconds since 1970, if there is one.
    pub(crate) time: Option<u32>,
    /// Which records are kept, and what rows are made of them, if that is chosen.
    pub(crate) choice: Option<&'a Choice>,
    /// Whether a record with its name precedes the listing of each source from which is chosen.
    pub(crate) names_sources: bool,
}

impl<H: Host> Lister<'_, H> {
    /// Lists what a reader reads of a source by a command, or turns it into another form.
    fn run<R: Read, W: Write>(
        &self,
        source: &Source,
        command: &Command,
        label: &Label,
        reader: &mut R,
        writer: &mut W,
    ) -> Result<RunEnd, RunFault>
        ensures does { Does ((H.around self.now.host.now).IsEndTold source.now) label.now self.now.time command.now (R.remaining reader.old) (R.remaining reader.new) (W.contents writer.old) (W.contents writer.new) result }
        ensures written { WritesSome (W.contents writer.old) (W.contents writer.new) }
    {
        let alloc = self.alloc;
        match command {
            Command::Stream(limit, profile, AfterRefusal::Ends) => {
                run_stream_in(alloc, label, *profile, false, reader, writer, *limit)
            }
            Command::Stream(limit, profile, AfterRefusal::GoesOn) => {
                run_stream_in(alloc, label, *profile, true, reader, writer, *limit)
            }
            Command::Message(profile, Inputs::Whole) => {
                run_message_in(alloc, label, *profile, reader, writer)
            }
            Command::Message(profile, Inputs::EachLine) => {
                run_lines_in(alloc, label, *profile, reader, writer)
            }
            Command::Items(profile) => run_items_in(alloc, label, *profile, reader, writer),
            Command::Keytab => run_keytab_in(alloc, label, reader, writer),
            Command::Ccache(_) => run_ccache_in(alloc, label, reader, writer, self.time),
            Command::Capture(limit, profile, port) => {
                run_capture(alloc, label, *profile, reader, writer, *limit, *port)
            }
            Command::Decode(limit, profile, framing, ..) => {
                self.run_decode(source, *framing, *profile, reader, writer, *limit)
            }
            Command::Encode(limit, profile, framing) => {
                self.run_encode(source, *framing, *profile, reader, writer, *limit)
            }
            Command::List(_) | Command::Help(_) | Command::Version(_) => Ok(RunEnd::Clean),
        }
    }

    /// Turns messages into lines of JSON, and tells why that ended before all was read.
    fn run_decode<R: Read, W: Write>(
        &self,
        source: &Source,
        framing: Framing,
        profile: Profile,
        reader: &mut R,
        writer: &mut W,
        limit: Limit,
    ) -> Result<RunEnd, RunFault>
        ensures turned { IfOk result (Turns (DecodesBy framing profile limit (R.remaining reader.old) (R.remaining reader.new) (W.contents writer.old) (W.contents writer.new)) (decode_end_line framing) decode_run_end ((H.around self.now.host.now).IsEndTold source.now)) }
        ensures fault { IfErr result (FailsToTurn (DecodesBy framing profile limit (R.remaining reader.old) (R.remaining reader.new) (W.contents writer.old) (W.contents writer.new)) (FailsToDecodeBy framing profile limit (R.remaining reader.old) (R.remaining reader.new) (W.contents writer.old) (W.contents writer.new))) }
    {
        let end = decode(self.alloc, framing, profile, reader, writer, limit)?;
        let mut line = TextBuffer::new(self.alloc);
        put_decode_end(&mut line, framing, &end)?;
        let line = line.into_string();
        self.tell_said(source, line.as_bytes());
        Ok(end.run_end())
    }

    /// Turns lines of JSON into messages, and tells why that ended before all was read.
    fn run_encode<R: Read, W: Write>(
        &self,
        source: &Source,
        framing: Framing,
        profile: Profile,
        reader: &mut R,
        writer: &mut W,
        limit: Limit,
    ) -> Result<RunEnd, RunFault>
        ensures turned { IfOk result (Turns (EncodesBy framing profile limit (R.remaining reader.old) (R.remaining reader.new) (W.contents writer.old) (W.contents writer.new)) encode_end_line encode_run_end ((H.around self.now.host.now).IsEndTold source.now)) }
        ensures fault { IfErr result (FailsToTurn (EncodesBy framing profile limit (R.remaining reader.old) (R.remaining reader.new) (W.contents writer.old) (W.contents writer.new)) (FailsToEncode (is_framed framing) profile limit (R.remaining reader.old) (R.remaining reader.new) (W.contents writer.old) (W.contents writer.new))) }
    {
        let end = encode(self.alloc, framing, profile, reader, writer, limit)?;
        let mut line = TextBuffer::new(self.alloc);
        put_encode_end(&mut line, &end)?;
        let line = line.into_string();
        self.tell_said(source, line.as_bytes());
        Ok(end.run_end())
    }

    /// Tells what is said of a source, if something is. All that was written before is on the standard
    /// output, which has no buffer.
    pub(crate) fn tell_said(&self, source: &Source, lines: &[u8])
        ensures { TellsSaid ((H.around self.now.host.now).IsEndTold source.now) lines.now }
    {
        if !lines.is_empty() {
            self.host.tell_end(source, lines);
        }
    }
}

/// Returns what a run returned, or the fault of a write that failed.
fn unless_failed<T: Drop>(
    failed: Option<io::Error>,
    outcome: Result<T, RunFault>,
) -> Result<T, RunFault>
    ensures none { failed ≡ None → result ≡ outcome }
    ensures fault { IfSome failed (λ error. result ≡ Err (RunFault.Write error)) }
{
    match failed {
        None => outcome,
        Some(error) => Err(RunFault::Write(error)),
    }
}

/// Writes octets to what chooses of them.
fn write_into<W: Write>(choosing: &mut Choosing<'_, W>, octets: &[u8]) -> Result<(), RunFault>
    ensures all { OnOk result (choosing.new.given.octets ≡ choosing.old.given.octets ++ octets.now) }
    ensures prefix { (part : List ℕ) × (rest : List ℕ) × (choosing.new.given.octets ≡ choosing.old.given.octets ++ part) × (octets.now ≡ part ++ rest) }
    ensures fault { IfErr result IsWrite }
    ensures same_writer { choosing.new.writer.ghost_name ≡ choosing.old.writer.ghost_name }
    ensures same_before { W.contents choosing.new.before.value ≡ W.contents choosing.old.before.value }
    ensures same_choice { choosing.new.chooser.choice.now ≡ choosing.old.chooser.choice.now }
    ensures same_goes_on { choosing.new.chooser.goes_on ≡ choosing.old.chooser.goes_on }
{
    write_all(choosing, octets)
}

/// Returns whether the listing of a command goes on after each refusal.
fn goes_on(command: &Command) -> bool
    ensures { result ≡ goes_on command.now }
{
    matches!(
        command,
        Command::Stream(_, _, AfterRefusal::GoesOn) | Command::Message(_, Inputs::EachLine)
    )
}

/// Returns the kind of the sources that a command reads, if hints are told of them.
fn kind_read(command: &Command) -> Option<SourceKind>
    ensures { result ≡ kind_read command.now }
{
    match command {
        Command::Decode(_, _, Framing::Framed, ..) => Some(SourceKind::Stream),
        _ => command.kind(),
    }
}

/// Returns a hint, unless it is for HTTP.
fn unless_http(hint: Option<Hint>) -> Option<Hint>
    ensures { result ≡ hint_unless_http hint }
{
    match hint {
        Some(Hint::Http) => None,
        _ => hint,
    }
}

/// Returns a hint, if it is one for a command: for HTTP lines are read, as `items` does not.
fn fitting(command: &Command, hint: Option<Hint>) -> Option<Hint>
    ensures { result ≡ fitting_hint command.now hint }
{
    match command {
        Command::Items(_) => unless_http(hint),
        _ => hint,
    }
}

/// Returns the hint for a source that begins with these octets, if it was to be of a kind.
fn hint_by_kind(kind: Option<SourceKind>, first: &[u8]) -> Option<Hint>
    ensures { result ≡ option_and_then (λ kind. hint_for kind first.now) kind }
{
    match kind {
        Some(kind) => hint_of(kind, first),
        None => None,
    }
}

/// Returns the hint for a source that begins with these octets and is read by a command.
fn hint_by(command: &Command, first: &[u8]) -> Option<Hint>
    ensures { result ≡ hint_by command.now first.now }
{
    fitting(command, hint_by_kind(kind_read(command), first))
}

impl<H: Host> Lister<'_, H> {
    /// Tells what a source is, if that is known.
    pub(crate) fn tell_hint(&self, source: &Source, hint: Option<Hint>) -> Result<(), AllocError>
        ensures { OnOk result (IsHinted (H.around self.now.host.now) source.now self.now.command.now hint) }
    {
        let Some(hint) = hint else {
            return Ok(());
        };
        let name = name_word(self.alloc, source)?;
        let text = text_for(self.alloc, self.command, hint, name.as_str())?;
        self.host.tell_hint(source, text.as_str());
        Ok(())
    }

    /// Lists what a reader reads of a source by a command, to what chooses of it.
    fn run_into<R: Read, W: Write>(
        &self,
        source: &Source,
        command: &Command,
        label: &Label,
        reader: &mut R,
        choosing: &mut Choosing<'_, W>,
    ) -> Result<RunEnd, RunFault>
        ensures given { (listing : List ℕ) × (choosing.new.given.octets ≡ choosing.old.given.octets ++ listing) × ListsTo (Does ((H.around self.now.host.now).IsEndTold source.now) label.now self.now.time command.now (R.remaining reader.old) (R.remaining reader.new)) listing result }
        ensures same_writer { choosing.new.writer.ghost_name ≡ choosing.old.writer.ghost_name }
        ensures same_before { W.contents choosing.new.before.value ≡ W.contents choosing.old.before.value }
        ensures same_choice { choosing.new.chooser.choice.now ≡ choosing.old.chooser.choice.now }
        ensures same_goes_on { choosing.new.chooser.goes_on ≡ choosing.old.chooser.goes_on }
    {
        self.run(source, command, label, reader, choosing)
    }

    /// Tells of the last record of a source by a line, if there is one and the source was not read as a
    /// whole.
    fn tell_last(&self, source: &Source, line: &[u8], outcome: &Result<RunEnd, RunFault>)
        ensures { TellsLast ((H.around self.now.host.now).IsEndTold source.now) line.now outcome.now }
    {
        match outcome {
            Ok(RunEnd::Refused | RunEnd::RefusedAtOnce) => self.tell_said(source, line),
            Ok(RunEnd::Clean) | Err(_) => {}
        }
    }

    /// Lists what a reader reads of a source by a command: all of it, or what is chosen. If that was not
    /// read as a whole, the last record is told unless it is kept.
    fn run_chosen<R: Read, W: Write>(
        &self,
        source: &Source,
        command: &Command,
        label: &Label,
        reader: &mut R,
        writer: &mut W,
    ) -> Result<RunEnd, RunFault>
        ensures { DoesWith (option_copied self.now.choice) ((H.around self.now.host.now).IsEndTold source.now) label.now self.now.time command.now (R.remaining reader.old) (R.remaining reader.new) (W.contents writer.old) (W.contents writer.new) result }
    {
        let Some(choice) = self.choice else {
            return self.run(source, command, label, reader, writer);
        };
        let mut choosing = Choosing::new(self.alloc, choice, goes_on(command), writer);
        let outcome = self.run_into(source, command, label, reader, &mut choosing);
        let outcome = unless_failed(choosing.fault(), outcome);
        self.tell_last(source, choosing.told(), &outcome);
        let _ = &*choosing.finish();
        outcome
    }

    /// Writes what is kept of the record with the name of a source, if there is one.
    fn write_name<W: Write>(&self, source: &Source, writer: &mut W) -> Result<(), RunFault>
        ensures { NamesSource (name_line (option_copied self.now.choice) self.now.names_sources source.now) (W.contents writer.old) (W.contents writer.new) result }
    {
        let Some(choice) = self.choice else {
            return Ok(());
        };
        if !self.names_sources {
            return Ok(());
        }
        let mut line = TextBuffer::new(self.alloc);
        put_file(&mut line, choice.form(), octets_name(source))?;
        let mut choosing = Choosing::new(self.alloc, choice, false, writer);
        let outcome = write_into(&mut choosing, line.octets());
        let outcome = unless_failed(choosing.fault(), outcome);
        let _ = &*choosing.finish();
        outcome
    }

    /// Lists what a reader reads of a source by a command, and tells a hint if its first record is that
    /// of a refusal.
    fn list_by<R: Read, W: Write>(
        &self,
        source: &Source,
        command: &Command,
        label: &Label,
        reader: &mut Begun<R>,
        writer: &mut W,
    ) -> Result<RunEnd, RunFault>
        ensures { ListsBy (H.around self.now.host.now) (option_copied self.now.choice) label.now self.now.time self.now.command.now source.now command.now (first_of reader.old) (begun_remaining R.remaining reader.old) (W.contents writer.old) (W.contents writer.new) result }
    {
        let hint = hint_by(command, reader.first());
        let end = self.run_chosen(source, command, label, reader, writer)?;
        if end == RunEnd::RefusedAtOnce {
            self.tell_hint(source, hint)?;
        }
        Ok(end)
    }

    /// Does the command with what a reader reads of a source.
    pub(crate) fn list_begun<R: Read, W: Write>(
        &self,
        source: &Source,
        label: &Label,
        reader: &mut Begun<R>,
        writer: &mut W,
    ) -> Result<RunEnd, RunFault>
        ensures { ListsBy (H.around self.now.host.now) (option_copied self.now.choice) label.now self.now.time self.now.command.now source.now (chosen self.now.command.now (first_of reader.old)) (first_of reader.old) (begun_remaining R.remaining reader.old) (W.contents writer.old) (W.contents writer.new) result }
    {
        match self.command {
            Command::List(when) => {
                let command = Command::listing(kind_of(reader.first()), *when);
                self.list_by(source, &command, label, reader, writer)
            }
            command => self.list_by(source, command, label, reader, writer),
        }
    }
}

impl<H: Host> Lister<'_, H> {
    /// Opens a source and does the command with it.
    fn list_opened<W: Write>(
        &self,
        source: &Source,
        label: &Label,
        writer: &mut W,
    ) -> Result<RunEnd, RunFault>
        ensures { DoesSource (H.around self.now.host.now) (option_copied self.now.choice) label.now self.now.time self.now.command.now source.now (W.contents writer.old) (W.contents writer.new) result }
    {
        match self.host.open(source) {
            Ok(reader) => {
                let mut begun = Begun::begin(self.alloc, reader, self.command.octets_awaited())?;
                self.do_begun(source, label, &mut begun, writer)
            }
            Err(error) => Err(RunFault::Read(error)),
        }
    }

    /// Tells what the name of a source that could not be opened is, if it is that of a command or of a
    /// credential cache that is no file.
    fn tell_unopened(&self, source: &Source)
        ensures { IsTold (H.around self.now.host.now) source.now (said_unopened self.now.command.now (name_of source.now)) }
    {
        if let Some(text) = self.command.said_unopened(octets_name(source)) {
            self.host.tell_hint(source, text);
        }
    }
}

/// Returns what a hint says of a file that was read by a command, whose name is a word of a shell.
fn text_for(alloc: Global, command: &Command, hint: Hint, file: &str) -> Result<String, AllocError>
    ensures { IfOk result (λ text. string_bytes text ≡ text_by command.now hint file.now) }
{
    match command {
        Command::Decode(..) => hint_text(alloc, hint, file),
        _ => hint.text(alloc, command.name(), file),
    }
}

/// Returns the name of a source as a word of a shell.
pub(crate) fn name_word(alloc: Global, source: &Source) -> Result<String, AllocError>
    ensures { IfOk result (λ name. string_bytes name ≡ shell_word (name_of source.now)) }
{
    format!(in alloc; "{}", ShellWord(octets_name(source)))
}

/// Returns the name of a source.
fn octets_name(source: &Source) -> &[u8]
    ensures { result.now ≡ name_of source.now }
{
    match source {
        Source::Input => b"-",
        Source::File(file) | Source::Directory(file) => file.name.as_slice(),
    }
}

impl<H: Host> ListSource<Source> for Lister<'_, H> {
    ghost called = { name_of };

    ghost Lists = { λ lister source label. DoesFrom (H.around lister.host.now) (option_copied lister.choice) lister.names_sources label lister.time lister.command.now source };

    ghost IsReported = { λ lister source fault. IsFaultReported (H.around lister.host.now) lister.command.now source fault };

    fn name<'a>(&self, source: &'a Source) -> &'a [u8] {
        octets_name(source)
    }

    fn list<W: Write>(
        &self,
        source: &Source,
        label: &Label,
        writer: &mut W,
    ) -> Result<RunEnd, RunFault> {
        self.write_name(source, writer)?;
        self.list_opened(source, label, writer)
    }

    fn report(&self, source: &Source, fault: &RunFault) {
        self.host.tell_fault(source, fault);
        if matches!(fault, RunFault::Read(_)) {
            self.tell_unopened(source);
        }
    }
}
