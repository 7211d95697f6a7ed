//! The words of the command line.

ghost use Rattle.std.specs.Prelude.{◌≡◌, codes, map, [], Some, IfOk, IfErr, OnOk, string_bytes};
ghost use Rattle.clap.specs.Words.{found_of, kind_of, rows_of, subcommand_rows_of, first_of, one_of};
ghost use Rattle.krb_words.specs.Chosen.{IfSaid};
ghost use Rattle.krb_words.specs.Sources.{place_of, sources_of};
ghost use Rattle.krb_words.specs.Times.{IsNoWhen, IsWhenIf};
ghost use Rattle.krb_words.specs.Words.{IsTextBy, IsCommand, IsProfile, IsAfter, IsFraming, IsInputs, IsNaming, IsForm, IsGiven, IsCommandLineFor, IsCommandLineOf, IsCommandLineIn, IsFaultFor, IsFaultIn, IsNumber, IsNumberOr, IsNoNumber, ArePackets, AreNoPackets, LacksFile, form_chosen};
ghost use Rattle.krb_words.specs.declared.words.WordsFault.TheVariants as fault;
ghost use Rattle.krb_words.specs.inner.NotRead.{FindsNoJob, IfWrong, IsNoJob, IsNoText};
ghost use Rattle.krb_words.specs.inner.Options.{IsOkOf};

use crate::choice::{Chosen, choice_of};
use crate::commands::krbls_command;
use crate::names::command_words;
use crate::sources::{Source, sources_of};
use crate::tips::with_tip;
use crate::when::{When, read_when};
use clap::error::ErrorKind;
use clap::{ArgMatches, Error};
use krb_choice::Choice;
use krb_der::{Limit, Profile};
use krb_record::Form;
use std::alloc::{AllocError, Global};

/// What becomes of a stream after a frame that is refused.
#[derive(Clone, Copy, PartialEq, Eq, Debug)]
pub enum AfterRefusal {
    /// Its listing ends.
    Ends,
    /// Its listing goes on with the next frame.
    GoesOn,
}

/// How messages lie in a source.
#[derive(Clone, Copy, PartialEq, Eq, Debug)]
pub enum Framing {
    /// Each in a frame, after the four octets of its length.
    Framed,
    /// One alone, without its length.
    Unframed,
}

/// What is read of a capture.
#[derive(Clone, Copy, PartialEq, Eq, Debug)]
pub struct Packets {
    /// The port of Kerberos.
    pub port: u16,
    /// The number of the one packet of which messages are wanted, if it is one alone.
    pub number: Option<u32>,
}

/// What an input of messages is.
#[derive(Clone, Copy, PartialEq, Eq, Debug)]
pub enum Inputs {
    /// One input.
    Whole,
    /// An input in each line.
    EachLine,
}

/// Which records name the file that they are of.
#[derive(Clone, Copy, PartialEq, Eq, Debug)]
pub enum Naming {
    /// A record of its own before those of each file, if there are several.
    Before,
    /// Each record.
    Each,
}

/// What is to be done with the sources: listed, or turned into another form.
#[derive(Drop)]
pub enum Command {
    /// Each source by the command that its first octets say, without options but the time at which
    /// credentials may have expired.
    List(Option<When>),
    /// Framed messages of a profile, with frames of at most the limit's octets, and what becomes of
    /// the stream after a refusal.
    Stream(Limit, Profile, AfterRefusal),
    /// A message or a token of a profile, or one in each line.
    Message(Profile, Inputs),
    /// The items of a message or a token of a profile.
    Items(Profile),
    /// A keytab.
    Keytab,
    /// A credential cache, and the time at which credentials may have expired.
    Ccache(Option<When>),
    /// A capture, with frames of at most the limit's octets, the profile by which messages are
    /// judged, and the port of Kerberos.
    Capture(Limit, Profile, u16),
    /// Messages of a profile, of at most the limit's octets, which are turned into lines of JSON; what
    /// becomes of a stream after a refusal, and what is read of a capture.
    Decode(Limit, Profile, Framing, AfterRefusal, Packets),
    /// Lines of JSON, which are turned into messages of a profile, of at most the limit's octets.
    Encode(Limit, Profile, Framing),
    /// Nothing: this help is to be printed.
    Help(String),
    /// Nothing: this line with the name and the version of the program is to be printed.
    Version(String),
}

/// A command line that was read.
#[derive(Drop)]
pub struct CommandLine {
    /// What is to be done.
    pub command: Command,
    /// How records are printed.
    pub form: Form,
    /// Which of them name their file.
    pub naming: Naming,
    /// Which records are kept, and what rows are made of them, if that is chosen.
    pub choice: Option<Choice>,
    /// The names of the columns, if they are to be printed first.
    pub header: Option<String>,
    /// The sources to read, in order. There are none if a text is to be printed.
    pub sources: Vec<Source>,
}

/// Why words are not a command line.
#[derive(Drop)]
pub enum WordsFault {
    /// The words are no command line of the program. This text says what is wrong with them, how
    /// the program is called and how to get help.
    Wrong(String),
    /// Out of memory.
    Memory,
}

impl From<AllocError> for WordsFault {
    ghost from_gives = { λ _ e. e ≡ fault.Memory };

    fn from(_error: AllocError) -> WordsFault {
        WordsFault::Memory
    }
}

/// The port of Kerberos if none is given (RFC 4120, 7.2).
pub const USUAL_PORT: u16 = 88;

/// Returns the fault of words of which a text says what is wrong with them, if there is memory for it.
pub(crate) fn wrong(text: Result<String, AllocError>) -> WordsFault
    ensures { IfSaid result (λ said. IsOkOf text (λ string. string_bytes string ≡ said)) }
{
    match text {
        Ok(text) => WordsFault::Wrong(text),
        Err(_) => WordsFault::Memory,
    }
}

/// What is said of words that `clap` accepts and that are no command line. There are none.
const NOT_READ: &str = "error: krbls could not read its own options; this is a fault of krbls\n";

/// Returns the fault of words that `clap` accepts and that are no command line. There are none.
fn not_read(alloc: Global) -> WordsFault {
    wrong(String::from_str(alloc, NOT_READ))
}

/// Returns the fault of a text that says no time.
fn no_time(alloc: Global, text: &str) -> WordsFault {
    wrong(format!(in alloc;
        "error: invalid value '{text}' for '--now <WHEN>': expected now, a date such as 2026-11-22T12:00:00Z, or seconds since 1970, up to the year 9999\n\nFor more information, try '--help'.\n"
    ))
}

/// What is wrong with words that name nothing to list.
const NO_FILE: &str = "\
error: the following required arguments were not provided:
  <FILE>

Usage: krbls [list] [OPTIONS] FILE...

For more information, try '--help'.
";

/// Returns the fault of words that name nothing to list.
fn no_file(alloc: Global) -> WordsFault {
    wrong(String::from_str(alloc, NO_FILE))
}

/// Returns the number of an option, if it is given.
fn number_of(alloc: Global, found: &ArgMatches<'_>, name: &str) -> Result<Option<u32>, WordsFault>
    ensures number { IfOk result (IsNumber (one_of name.now (rows_of (found_of found.now)))) }
    ensures fault { IfErr result (λ e. IfWrong e (IsNoNumber 0 4294967295 (one_of name.now (rows_of (found_of found.now))))) }
{
    match found.try_get_one::<u32>(name) {
        Ok(number) => Ok(number),
        Err(_) => Err(not_read(alloc)),
    }
}

/// Returns the limit that is given, or else the usual one.
fn limit_of(alloc: Global, found: &ArgMatches<'_>) -> Result<Limit, WordsFault>
    ensures limit { IfOk result (IsNumberOr 16777216 (one_of (codes "limit") (rows_of (found_of found.now)))) }
    ensures fault { IfErr result (λ e. IfWrong e (IsNoNumber 1 2147483647 (one_of (codes "limit") (rows_of (found_of found.now))))) }
{
    match number_of(alloc, found, "limit")? {
        None => Ok(Limit::DEFAULT),
        Some(octets) => match Limit::new(octets) {
            Some(limit) => Ok(limit),
            None => Err(not_read(alloc)),
        },
    }
}

/// Returns the port that is given, or else the usual one.
fn port_of(alloc: Global, found: &ArgMatches<'_>) -> Result<u16, WordsFault>
    ensures port { IfOk result (IsNumberOr 88 (one_of (codes "port") (rows_of (found_of found.now)))) }
    ensures fault { IfErr result (λ e. IfWrong e (IsNoNumber 1 65535 (one_of (codes "port") (rows_of (found_of found.now))))) }
{
    match number_of(alloc, found, "port")? {
        None => Ok(USUAL_PORT),
        Some(number) => match u16::try_from(number) {
            Ok(port) => Ok(port),
            Err(_) => Err(not_read(alloc)),
        },
    }
}

/// Returns what is read of a capture.
fn packets_of(alloc: Global, found: &ArgMatches<'_>) -> Result<Packets, WordsFault>
    ensures packets { IfOk result (ArePackets (rows_of (found_of found.now))) }
    ensures fault { IfErr result (λ e. IfWrong e (AreNoPackets (rows_of (found_of found.now)))) }
{
    Ok(Packets {
        port: port_of(alloc, found)?,
        number: number_of(alloc, found, "packet")?,
    })
}

/// Returns the time that is given, if there is one.
fn when_of(alloc: Global, found: &ArgMatches<'_>) -> Result<Option<When>, WordsFault>
    ensures when { IfOk result (IsWhenIf (first_of (codes "now") (rows_of (found_of found.now)))) }
    ensures fault { IfErr result (λ e. IfWrong e (IsNoWhen (first_of (codes "now") (rows_of (found_of found.now))))) }
{
    match found.get_str("now") {
        None => Ok(None),
        Some(text) => match read_when(text) {
            Some(when) => Ok(Some(when)),
            None => Err(no_time(alloc, text)),
        },
    }
}

/// Returns whether a flag is given.
pub(crate) fn is_given(found: &ArgMatches<'_>, name: &str) -> bool
    ensures { IsGiven (first_of name.now (rows_of (found_of found.now))) result }
{
    match found.get_str(name) {
        None => false,
        Some(value) => is_true(value),
    }
}

/// Returns whether the value of a flag says that it is given.
fn is_true(value: &str) -> bool
    ensures { IsGiven (Some value.now) result }
{
    match value {
        "true" => true,
        _ => false,
    }
}

/// Returns the strict profile if its flag is given, and else the lenient one.
fn profile_of(found: &ArgMatches<'_>) -> Profile
    ensures { IsProfile (first_of (codes "strict") (rows_of (found_of found.now))) result }
{
    if is_given(found, "strict") {
        Profile::Strict
    } else {
        Profile::Lenient
    }
}

/// Returns what becomes of a stream after a refusal: it goes on if its flag is given.
fn after_refusal_of(found: &ArgMatches<'_>) -> AfterRefusal
    ensures { IsAfter (first_of (codes "keep-going") (rows_of (found_of found.now))) result }
{
    if is_given(found, "keep-going") {
        AfterRefusal::GoesOn
    } else {
        AfterRefusal::Ends
    }
}

/// Returns how messages lie in a source: one alone if its flag is given, and else in frames.
fn framing_of(found: &ArgMatches<'_>) -> Framing
    ensures { IsFraming (first_of (codes "unframed") (rows_of (found_of found.now))) result }
{
    if is_given(found, "unframed") {
        Framing::Unframed
    } else {
        Framing::Framed
    }
}

/// Returns what an input of messages is: an input in each line if its flag is given, and else one.
fn inputs_of(found: &ArgMatches<'_>) -> Inputs
    ensures { IsInputs (first_of (codes "lines") (rows_of (found_of found.now))) result }
{
    if is_given(found, "lines") {
        Inputs::EachLine
    } else {
        Inputs::Whole
    }
}

/// Returns which records name their file: each if the flag is given.
fn naming_of(found: &ArgMatches<'_>) -> Naming
    ensures { IsNaming (first_of (codes "with-filename") (rows_of (found_of found.now))) result }
{
    if is_given(found, "with-filename") {
        Naming::Each
    } else {
        Naming::Before
    }
}

/// Returns the form of records: JSON if its flag is given, and else lines, with names if theirs is.
fn form_of(found: &ArgMatches<'_>) -> Form
    ensures { IsForm (rows_of (found_of found.now)) result }
{
    if is_given(found, "json") {
        return Form::Json;
    }
    if is_given(found, "names") {
        Form::NamedLines
    } else {
        Form::Lines
    }
}

/// Returns the command of a name with its options.
fn command_of(alloc: Global, name: &str, found: &ArgMatches<'_>) -> Result<Command, WordsFault>
    ensures command { IfOk result (IsCommand name.now (rows_of (found_of found.now))) }
    ensures fault { IfErr result (λ e. IfSaid e (IsNoJob name.now (rows_of (found_of found.now)))) }
{
    match name {
        "list" => Ok(Command::List(when_of(alloc, found)?)),
        "stream" => Ok(Command::Stream(
            limit_of(alloc, found)?,
            profile_of(found),
            after_refusal_of(found),
        )),
        "message" => Ok(Command::Message(profile_of(found), inputs_of(found))),
        "items" => Ok(Command::Items(profile_of(found))),
        "keytab" => Ok(Command::Keytab),
        "ccache" => Ok(Command::Ccache(when_of(alloc, found)?)),
        "capture" => Ok(Command::Capture(
            limit_of(alloc, found)?,
            profile_of(found),
            port_of(alloc, found)?,
        )),
        "decode" => Ok(Command::Decode(
            limit_of(alloc, found)?,
            profile_of(found),
            framing_of(found),
            after_refusal_of(found),
            packets_of(alloc, found)?,
        )),
        "encode" => Ok(Command::Encode(
            limit_of(alloc, found)?,
            profile_of(found),
            framing_of(found),
        )),
        _ => Err(not_read(alloc)),
    }
}

/// Returns the sources of a command, of which there has to be one.
fn some_sources_of(
    alloc: Global,
    command: &str,
    found: &ArgMatches<'_>,
) -> Result<Vec<Source>, WordsFault>
    ensures sources { IfOk result (λ sources. map place_of sources.items ≡ sources_of command.now (rows_of (found_of found.now))) }
    ensures some { OnOk result (LacksFile command.now (rows_of (found_of found.now)) → ⊥) }
    ensures fault { IfErr result (λ e. IfWrong e (LacksFile command.now (rows_of (found_of found.now)))) }
{
    let sources = sources_of(alloc, command, found)?;
    if sources.is_empty() {
        return Err(no_file(alloc));
    }
    Ok(sources)
}

/// Returns the form in which records are listed: that of a choice, if there is one.
fn form_chosen(chosen: &Chosen, form: Form) -> Form
    ensures { result ≡ form_chosen chosen.now.choice form }
{
    match &chosen.choice {
        Some(choice) => choice.form(),
        None => form,
    }
}

/// Returns the command line of the matches.
fn command_line_of(alloc: Global, matches: &ArgMatches<'_>) -> Result<CommandLine, WordsFault>
    ensures command_line { IfOk result (IsCommandLineOf (subcommand_rows_of matches.now)) }
    ensures fault { IfErr result (λ e. IfSaid e (FindsNoJob (subcommand_rows_of matches.now))) }
{
    match matches.subcommand() {
        None => Err(not_read(alloc)),
        Some((name, found)) => {
            let command = command_of(alloc, name, found)?;
            let (form, naming) = (form_of(found), naming_of(found));
            let chosen = choice_of(alloc, name, found, form, naming)?;
            let sources = some_sources_of(alloc, name, found)?;
            Ok(CommandLine {
                command,
                form: form_chosen(&chosen, form),
                naming,
                choice: chosen.choice,
                header: chosen.header,
                sources,
            })
        }
    }
}

/// Returns the command line that prints a text, if words that `clap` does not accept ask for it.
fn text_of(alloc: Global, error: &Error) -> Result<CommandLine, WordsFault>
    ensures text { IfOk result (λ command_line. IsTextBy (kind_of error.now) command_line.command × (command_line.sources.items ≡ [])) }
    ensures fault { IfErr result (λ e. IfWrong e (IsNoText (kind_of error.now))) }
{
    let text = format!(in alloc; "{error}")?;
    let command = match error.kind() {
        ErrorKind::DisplayHelp => Command::Help(text),
        ErrorKind::DisplayVersion => Command::Version(text),
        ErrorKind::OutOfMemory => return Err(WordsFault::Memory),
        _ => return Err(wrong(with_tip(alloc, text.as_str()))),
    };
    Ok(CommandLine {
        command,
        form: Form::Lines,
        naming: Naming::Before,
        choice: None,
        header: None,
        sources: Vec::new(alloc),
    })
}

/// Returns the command line of texts, as `clap` reads them: a command, its options and the files to
/// read.
fn read_texts(alloc: Global, texts: &[String]) -> Result<CommandLine, WordsFault>
    ensures command_line { IfOk result (IsCommandLineFor (map string_bytes texts.now)) }
    ensures fault { IfErr result (IsFaultFor (map string_bytes texts.now)) }
{
    let command = krbls_command(alloc)?;
    match command.try_get_matches_from(texts) {
        Ok(matches) => command_line_of(alloc, &matches),
        Err(error) => text_of(alloc, &error),
    }
}

/// Returns the command line of the words after the program's name. Words are octets, as the system
/// has them.
pub fn read_words(alloc: Global, words: &[Vec<u8>]) -> Result<CommandLine, WordsFault>
    ensures command_line { IfOk result (IsCommandLineIn (map (λ word. word.items) words.now)) }
    ensures fault { IfErr result (IsFaultIn (map (λ word. word.items) words.now)) }
{
    let texts = command_words(alloc, words)?;
    read_texts(alloc, texts.as_slice())
}
