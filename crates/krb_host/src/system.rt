//! What the program runs on: its files, its clock, its standard input and its standard error.

ghost use Rattle.std.specs.Prelude.{None};
ghost use Rattle.std.specs.Io.{ReadsAtMost};

use crate::files;
use crate::host::Host;
use krb_record::FileName;
use krb_run::RunFault;
use krb_words::{NamedPath, Source};
use std::fmt::Display;
use std::fs::File;
use std::io::{ErrorKind, IsTerminal, Read, Write};
use std::rt::{Stdin, Stdout};
use std::time::{SystemTime, UNIX_EPOCH};
use std::{io, str};

/// The name of the standard input in faults.
const INPUT: &str = "standard input";

/// What is said where the standard input is a terminal, since a command without a file reads it.
const WAITING: &str =
    "this is a terminal, and is read up to Ctrl-D (a file that is named as a command is ./NAME)";

/// How often a call is made at most that signals interrupt.
const MOST_TRIES: u32 = 1 << 20;

/// The files, the clock, the standard input and the standard error of the program.
#[derive(Clone, Copy)]
pub struct System<'a> {
    pub rt: &'a HostRuntime,
}

/// A source that is open.
#[derive(Drop)]
pub enum Opened {
    Input(Stdin),
    File(File),
}

impl Opened {
    /// Reads once.
    fn read_once(&mut self, octets: &mut [u8]) -> io::Result<usize>
        ensures { ReadsAtMost result octets.new }
    {
        match self {
            Opened::Input(input) => input.read(octets),
            Opened::File(file) => file.read(octets),
        }
    }
}

impl Read for Opened {
    /// Reads, and again if a signal interrupted that.
    fn read(&mut self, octets: &mut [u8]) -> io::Result<usize> {
        for _ in 0..MOST_TRIES {
            match self.read_once(octets) {
                Err(error) if error.kind() == ErrorKind::Interrupted => {}
                outcome => return outcome,
            }
        }
        Err(ErrorKind::Interrupted.into())
    }
}

/// The standard output. It has no buffer.
#[derive(Drop)]
pub struct Printed(Stdout);

impl Write for Printed {
    /// Writes, and again if a signal interrupted that before an octet was written.
    fn write(&mut self, octets: &[u8]) -> io::Result<usize> {
        for _ in 0..MOST_TRIES {
            match self.0.write(octets) {
                Err(error) if error.kind() == ErrorKind::Interrupted => {}
                outcome => return outcome,
            }
        }
        Err(ErrorKind::Interrupted.into())
    }

    fn flush(&mut self) -> io::Result<()> {
        self.0.flush()
    }
}

impl System<'_> {
    /// Returns the standard output.
    pub fn output(&self) -> Printed {
        Printed(self.rt.stdout())
    }

    /// Returns the standard input. If it is a terminal, that is told, since it may not be meant.
    fn input(&self) -> Stdin {
        let input = self.rt.stdin();
        if input.is_terminal() {
            tell(self.rt, &Source::Input, WAITING);
        }
        input
    }
}

impl Host for System<'_> {
    type Reader = Opened;

    // A contract does not see what is in a file, a directory or the standard input, what time it
    // is, nor what is written to the standard error.
    ghost around = { λ system. record { octets = λ source. None; HasCaches = λ directory names. Unit {0}; WritesToTerminal = λ is_terminal. Unit {0}; IsNow = λ seconds. Unit {0}; IsFaultTold = λ source fault. Unit {0}; IsHintTold = λ source text. Unit {0}; IsEndTold = λ source line. Unit {0}; AreWordsTold = λ text. Unit {0} } };

    fn open(&self, source: &Source) -> io::Result<Opened> {
        match source {
            Source::Input => Ok(Opened::Input(self.input())),
            Source::File(file) if is_of_directory(file) => {
                Ok(Opened::File(files::open_regular(self.rt, file.path.as_slice())?))
            }
            Source::File(file) | Source::Directory(file) => {
                Ok(Opened::File(files::open(self.rt, file.path.as_slice())?))
            }
        }
    }

    fn caches(&self, directory: &NamedPath) -> io::Result<Vec<Vec<u8>>> {
        files::caches(self.rt, directory.path.as_slice())
    }

    fn writes_to_terminal(&self) -> bool {
        self.rt.stdout().is_terminal()
    }

    fn now(&self) -> u32 {
        match SystemTime::now(self.rt) {
            Ok(time) => seconds_since_1970(time),
            Err(_) => 0,
        }
    }

    fn tell_fault(&self, source: &Source, fault: &RunFault) {
        match source {
            Source::Input => tell_fault(self.rt, &INPUT, fault),
            Source::File(file) | Source::Directory(file) => {
                tell_fault(self.rt, &FileName(file.name.as_slice()), fault)
            }
        }
    }

    fn tell_hint(&self, source: &Source, text: &str) {
        tell(self.rt, source, text);
    }

    fn tell_end(&self, source: &Source, lines: &[u8]) {
        for line in lines.split(|octet| *octet == b'\n') {
            if let Ok(line) = str::from_utf8(line) {
                if !line.is_empty() {
                    tell(self.rt, source, line);
                }
            }
        }
    }

    fn tell_words(&self, text: &str) {
        let _ = eprint!(self.rt; "{text}");
    }
}

/// Returns whether a name is that of a cache in a directory, `DIR::PATH`.
fn is_of_directory(file: &NamedPath) -> bool {
    file.name.as_slice().strip_prefix(b"DIR::") == Some(file.path.as_slice())
}

/// Returns the seconds from the beginning of 1970 to a time, and the last ones of 32 bits of a
/// later time.
fn seconds_since_1970(time: SystemTime) -> u32 {
    match time.duration_since(UNIX_EPOCH) {
        Ok(duration) => duration.as_secs().min(u64::from(u32::MAX)) as u32,
        Err(_) => 0,
    }
}

/// Writes a text after the name of a source, as a line, to the standard error.
fn tell(rt: &HostRuntime, source: &Source, text: &str) {
    let _ = match source {
        Source::Input => eprintln!(rt; "krbls: {INPUT}: {text}"),
        Source::File(file) | Source::Directory(file) => {
            eprintln!(rt; "krbls: {}: {text}", FileName(file.name.as_slice()))
        }
    };
}

/// Writes the line of a fault to the standard error. There is none if the reader of the standard
/// output has gone.
fn tell_fault<N: Display>(rt: &HostRuntime, name: &N, fault: &RunFault) {
    let _ = match fault {
        RunFault::Write(error) if error.kind() == ErrorKind::BrokenPipe => Ok(()),
        RunFault::Write(_) => eprintln!(rt; "krbls: standard output: {fault}"),
        RunFault::Read(_) | RunFault::Memory => eprintln!(rt; "krbls: {name}: {fault}"),
    };
}
