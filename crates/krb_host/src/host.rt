//! What the program runs on.

ghost use Rattle.std.specs.Prelude.{◌≡◌, map, IfOk};
ghost use Rattle.krb_host.specs.Around.{Around};

use krb_run::RunFault;
use krb_words::{NamedPath, Source};
use std::io;
use std::io::Read;

/// What the program runs on: what opens its sources, its clock, and its standard error.
pub trait Host {
    /// A reader of a source.
    type Reader: Read + Drop;

    /// What contracts see of it.
    ghost around: { Self → Around };

    /// Opens a source.
    fn open(&self, source: &Source) -> io::Result<Self::Reader>
        ensures { IfOk result (λ reader. Self.Reader.remaining reader ≡ (around self.now).octets source.now) };

    /// Returns the names of the credential caches in a directory, in their order.
    fn caches(&self, directory: &NamedPath) -> io::Result<Vec<Vec<u8>>>
        ensures { IfOk result (λ names. (around self.now).HasCaches directory.now (map (λ name. name.items) names.items)) };

    /// Returns whether the standard output is a terminal.
    fn writes_to_terminal(&self) -> bool
        ensures { (around self.now).WritesToTerminal result };

    /// Returns the seconds since the beginning of 1970 that the clock says.
    fn now(&self) -> u32
        ensures { (around self.now).IsNow result };

    /// Writes the line of a fault by which the run over a source ended to the standard error.
    fn tell_fault(&self, source: &Source, fault: &RunFault)
        ensures { (around self.now).IsFaultTold source.now fault.now };

    /// Writes the line that says what a source of another kind is to the standard error, after the
    /// source's name.
    fn tell_hint(&self, source: &Source, text: &str)
        ensures { (around self.now).IsHintTold source.now text.now };

    /// Writes the lines that say what of a source was not turned into another form, and why, to the
    /// standard error, each after the source's name.
    fn tell_end(&self, source: &Source, lines: &[u8])
        ensures { (around self.now).IsEndTold source.now lines.now };

    /// Writes what is wrong with the words of the command line to the standard error.
    fn tell_words(&self, text: &str)
        ensures { (around self.now).AreWordsTold text.now };
}
