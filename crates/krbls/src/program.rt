//! What the program does by its words.

ghost use Rattle.std.specs.Prelude.{◌≡◌, ◌++◌, map, IfErr, OnOk};
ghost use Rattle.std.specs.Io.KnownBytes.{Appends};
ghost use Rattle.std.specs.List.{list_any};
ghost use Rattle.std.specs.Process.{exit_status};
ghost use Rattle.krb_record.specs.Text.{line_feed};
ghost use Rattle.krb_run.specs.Faults.{IsWrite};
ghost use Rattle.krb_words.specs.Tasks.{when_of};
ghost use Rattle.krbls.specs.Program.{RunsCommand, DoesAny, DoesSources, DoesUnlessShown, IsTime, ListsSources, Prints, Refuses, Runs, is_directory, is_named, labels_of};

use crate::lister::Lister;
use krb_host::{Host, expand};
use krb_run::{Naming as Labels, RunFault, run_sources, run_sources_unnamed, write_all};
use krb_words::{Command, CommandLine, Naming, Source, When, WordsFault, read_words};
use std::alloc::Global;
use std::io::Write;
use std::process::ExitCode;

/// The status of a wrong command line.
const WRONG_COMMAND_LINE: u8 = 2;

/// Why `encode` writes nothing to a terminal.
const TERMINAL: &str = "\
error: encode writes messages as they are, and octets of them may command the terminal

  tip: krbls encode .. | xxd shows them, and krbls encode .. | cat writes them
";

/// The status of a fault before anything is read.
const FAULT: u8 = 3;

/// Does what the words after the program's name say: the command of their command with each source, or
/// the printing of a text. Tells what is wrong with them if they are no command line. Returns the
/// writer, too.
pub(crate) fn run_words<H: Host, W: Write>(
    alloc: Global,
    host: &H,
    words: &[Vec<u8>],
    writer: W,
) -> (W, ExitCode)
    ensures { Runs (H.around host.now) (map (λ word. word.items) words.now) (W.contents writer) (W.contents result.0) (exit_status result.1) }
{
    match read_words(alloc, words) {
        Ok(command_line) => run_command(alloc, host, &command_line, writer),
        Err(fault) => (writer, refuse(host, &fault)),
    }
}

/// Does what a command line says.
fn run_command<H: Host, W: Write>(
    alloc: Global,
    host: &H,
    command_line: &CommandLine,
    writer: W,
) -> (W, ExitCode)
    ensures { RunsCommand (H.around host.now) command_line.now (W.contents writer) (W.contents result.0) (exit_status result.1) }
{
    match command_line.command.text() {
        Some(text) => print_text(host, text, writer),
        None => do_unless_shown(alloc, host, command_line, writer),
    }
}

/// Does what a command line says, unless it writes messages as they are to a terminal, which is told.
fn do_unless_shown<H: Host, W: Write>(
    alloc: Global,
    host: &H,
    command_line: &CommandLine,
    writer: W,
) -> (W, ExitCode)
    ensures { DoesUnlessShown (H.around host.now) command_line.now (W.contents writer) (W.contents result.0) (exit_status result.1) }
{
    let is_shown = host.writes_to_terminal();
    if command_line.command.writes_messages() & is_shown {
        host.tell_words(TERMINAL);
        return (writer, ExitCode::from(WRONG_COMMAND_LINE));
    }
    do_each(alloc, host, command_line, writer)
}

/// Returns the time that a command compares credentials with, in seconds since 1970, if there is one:
/// the clock is read if it is asked for.
fn time_of<H: Host>(host: &H, command: &Command) -> Option<u32>
    ensures { IsTime (H.around host.now) (when_of command.now) result }
{
    match command.when() {
        None => None,
        Some(When::Seconds(seconds)) => Some(seconds),
        Some(When::Clock) => Some(host.now()),
    }
}

/// Returns whether one of the sources is a directory.
fn has_directory(sources: &[Source]) -> bool
    ensures { result ≡ list_any is_directory sources.now }
{
    let mut found = false;
    for source in sources {
        found = found || matches!(source, Source::Directory(_));
    }
    found
}

/// Returns how the records of a command line say which file they are of.
fn labels_of(command_line: &CommandLine) -> Labels
    ensures { result ≡ labels_of command_line.now }
{
    match command_line.naming {
        Naming::Each => Labels::Labels,
        Naming::Before if has_directory(command_line.sources.as_slice()) => Labels::Each,
        Naming::Before => Labels::Several,
    }
}

/// Returns whether a record of its name precedes each of so many sources.
fn names_sources(naming: Labels, sources: usize) -> bool
    ensures { result ≡ is_named naming sources }
{
    match naming {
        Labels::Labels => false,
        Labels::Each => true,
        Labels::Several => sources > 1,
    }
}

/// Does the command with sources that can be opened, one after another, and returns the writer and the
/// greatest of their statuses.
fn list_each<H: Host, W: Write>(
    alloc: Global,
    host: &H,
    command_line: &CommandLine,
    now: Option<u32>,
    sources: &[Source],
    writer: W,
) -> (W, u8)
    ensures { ListsSources (H.around host.now) command_line.now now sources.now (W.contents writer) (W.contents result.0) result.1 }
{
    let naming = labels_of(command_line);
    let lister = Lister {
        alloc,
        host,
        command: &command_line.command,
        time: now,
        choice: command_line.choice.as_ref(),
        names_sources: names_sources(naming, sources.len()),
    };
    if command_line.command.is_conversion() {
        run_sources_unnamed(alloc, &lister, sources, writer)
    } else {
        run_sources(alloc, command_line.form, naming, &lister, sources, writer)
    }
}

/// Does the command with each source, and returns the writer and the greatest of their statuses.
fn do_sources<H: Host, W: Write>(
    alloc: Global,
    host: &H,
    command_line: &CommandLine,
    writer: W,
) -> (W, ExitCode)
    ensures { DoesSources (H.around host.now) command_line.now (W.contents writer) (W.contents result.0) (exit_status result.1) }
{
    match expand(alloc, host, command_line.sources.as_slice()) {
        Ok(expanded) => {
            let now = time_of(host, &command_line.command);
            let sources = expanded.sources.as_slice();
            let (writer, status) = list_each(alloc, host, command_line, now, sources, writer);
            (writer, ExitCode::from(status.max(expanded.status)))
        }
        Err(_) => (writer, refuse(host, &WordsFault::Memory)),
    }
}

/// Prints the names of the columns, if they are wanted, and does the command with each source.
fn do_each<H: Host, W: Write>(
    alloc: Global,
    host: &H,
    command_line: &CommandLine,
    writer: W,
) -> (W, ExitCode)
    ensures { DoesAny (H.around host.now) command_line.now (W.contents writer) (W.contents result.0) (exit_status result.1) }
{
    let Some(header) = &command_line.header else {
        return do_sources(alloc, host, command_line, writer);
    };
    let mut writer = writer;
    match write_row(&mut writer, header.as_bytes()) {
        Ok(()) => do_sources(alloc, host, command_line, writer),
        Err(fault) => {
            host.tell_fault(&Source::Input, &fault);
            (writer, ExitCode::from(FAULT))
        }
    }
}

/// Writes a row and a line feed.
fn write_row<W: Write>(writer: &mut W, row: &[u8]) -> Result<(), RunFault>
    ensures written { OnOk result (Appends (W.contents writer.old) (W.contents writer.new) (row.now ++ line_feed)) }
    ensures fault { IfErr result IsWrite }
{
    write_all(writer, row)?;
    write_all(writer, b"\n")
}

/// Prints a text. If a write fails, that is told.
fn print_text<H: Host, W: Write>(host: &H, text: &str, writer: W) -> (W, ExitCode)
    ensures { Prints (H.around host.now) text.now (W.contents writer) (W.contents result.0) (exit_status result.1) }
{
    let mut writer = writer;
    let status = match writer.write_all(text.as_bytes()) {
        Ok(()) => ExitCode::SUCCESS,
        Err(error) => {
            host.tell_fault(&Source::Input, &RunFault::Write(error));
            ExitCode::from(FAULT)
        }
    };
    (writer, status)
}

/// Tells why words are no command line.
pub(crate) fn refuse<H: Host>(host: &H, fault: &WordsFault) -> ExitCode
    ensures { Refuses (H.around host.now) fault.now (exit_status result) }
{
    match fault {
        WordsFault::Wrong(text) => {
            host.tell_words(text.as_str());
            ExitCode::from(WRONG_COMMAND_LINE)
        }
        WordsFault::Memory => {
            host.tell_fault(&Source::Input, &RunFault::Memory);
            ExitCode::from(FAULT)
        }
    }
}
