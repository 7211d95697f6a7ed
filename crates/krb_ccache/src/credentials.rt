//! Reading caches credential by credential.

ghost use Rattle.std.specs.Prelude.{◌≡◌, ℕ, List, [], None, Some, Ok, Err, IfOk, IfErr, OnOk};
ghost use Rattle.krb_file.specs.declared.fault.FileFault.{FileFault as FaultValue};
ghost use Rattle.krb_file.specs.declared.progress.Progress.TheVariants as states;
ghost use Rattle.krb_file.specs.Fields.{IsStreamFaultIn};
ghost use Rattle.krb_file.specs.FieldReaders.{Stays};
ghost use Rattle.krb_ccache.specs.Streaming.{Reads, FailsStart, ReturnsNext};

use crate::reading::{OneEnctype, Start, read_credential, read_start};
use crate::value::{Credential, FilePrincipal, Header};
use krb_file::{FileFault, Limit, Progress, StreamReader};
use std::alloc::Global;
use std::io::Read;

/// A reader of the credentials of a cache, one after another. It reads no octet after the
/// credential that it returns. It keeps no credential that it returned, and allocates by the octets
/// that came.
#[derive(Drop)]
pub struct Credentials<R: Read> {
    reader: StreamReader<R>,
    start: Start,
    state: Progress<(), ()>,
}

impl<R: Read + Drop> Credentials<R> {
    /// Reads what is before the credentials of a cache, which are the version, 3 or 4, the header
    /// and the default principal, and returns a reader of the credentials. A field of octets may
    /// not be longer than the limit.
    pub fn start(alloc: Global, reader: R, limit: Limit) -> Result<Credentials<R>, FileFault>
        ensures begins { IfOk result (λ made. (file : List ℕ) → R.remaining reader ≡ Some file → Reads (Some limit) made.reader made.start made.state file 0) }
        // No octet after the default principal was read.
        ensures fetched { IfOk result (λ made. made.reader.ahead ≡ []) }
        ensures fault { IfErr result (λ fault. (file : List ℕ) → R.remaining reader ≡ Some file → FailsStart (Some limit) file fault) }
        // A refusal is at a place of the file or at its end.
        ensures refused { IfErr result (λ fault. (file : List ℕ) → R.remaining reader ≡ Some file → IsStreamFaultIn file fault) }
    {
        let mut reader = StreamReader::new(reader, limit);
        let start = read_start(alloc, &[3, 4], &mut reader)?;
        Ok(Credentials {
            reader,
            start,
            state: Progress::Open(()),
        })
    }

    /// Returns the version of the cache, 3 or 4.
    pub fn version(&self) -> u8
        ensures { result ≡ self.now.start.version }
    {
        self.start.version
    }

    /// Returns the header of the cache, which has no fields in version 3.
    pub fn header(&self) -> &Header
        ensures { result.now ≡ self.now.start.header }
    {
        &self.start.header
    }

    /// Returns the default principal of the cache.
    pub fn principal(&self) -> &FilePrincipal
        ensures { result.now ≡ self.now.start.principal }
    {
        &self.start.principal
    }

    /// Reads the next credential; returns `None` at the end of the file. A cache is refused as
    /// `read` or `read3` of `krb_files` refuses it, except that a field of octets is TooLong if it
    /// is longer than the limit; this is checked after Overrun and before Truncated. After a fault
    /// each call returns this fault, and after the end each call returns `None`; neither reads any
    /// more.
    pub fn next_credential(&mut self, alloc: Global) -> Result<Option<Credential>, FileFault>
        // The credentials of the file that is read, one after another, and then the end or the
        // fault.
        ensures next { (file : List ℕ) (limit : ℕ) (given : ℕ) → Reads (Some limit) self.old.reader self.old.start self.old.state file given → ReturnsNext (Some limit) file given result self.new.reader self.new.start self.new.state }
        // A refusal is at a place of the file or at its end.
        ensures refused { (file : List ℕ) (limit : ℕ) (given : ℕ) → Reads (Some limit) self.old.reader self.old.start self.old.state file given → IfErr result (IsStreamFaultIn file) }
        // No octet after what is returned was read, if none was read ahead before.
        ensures fetched { OnOk result (self.old.reader.ahead ≡ [] → self.new.reader.ahead ≡ []) }
        ensures same_start { self.new.start ≡ self.old.start }
        ensures ends { result ≡ Ok None → self.new.state ≡ states.Done (tt {0}) }
        // After the end or a fault nothing more is read.
        ensures ended { self.old.state ≡ states.Done (tt {0}) → (result ≡ Ok None) × (self.new.state ≡ states.Done (tt {0})) × (self.new.reader ≡ self.old.reader) }
        ensures failed { (fault : FaultValue) → self.old.state ≡ states.Failed fault → (result ≡ Err fault) × (self.new.state ≡ states.Failed fault) × (self.new.reader ≡ self.old.reader) }
        ensures fails { IfErr result (λ fault. self.new.state ≡ states.Failed fault) }
    {
        match self.state {
            Progress::Open(()) => self.read_next(alloc),
            Progress::Done(()) => Ok(None),
            Progress::Failed(fault) => Err(fault),
        }
    }

    /// Gives back a credential that was read, whose vectors are used for the next credentials.
    pub fn give_back(&mut self, credential: Credential)
        ensures same_reader { self.new.reader ≡ self.old.reader }
        ensures same_start { self.new.start ≡ self.old.start }
        ensures same_state { self.new.state ≡ self.old.state }
    {
        let Credential {
            client,
            server,
            key,
            ticket,
            second_ticket,
            ..
        } = credential;
        self.reader.give_back(client.realm);
        self.reader.give_back(client.components);
        self.reader.give_back(server.realm);
        self.reader.give_back(server.components);
        self.reader.give_back(key);
        self.reader.give_back(ticket);
        self.reader.give_back(second_ticket);
    }

    /// Returns the next credential of a reader that has reached neither the end nor a fault.
    fn read_next(&mut self, alloc: Global) -> Result<Option<Credential>, FileFault>
        ensures next { (file : List ℕ) (limit : ℕ) (given : ℕ) → Reads (Some limit) self.old.reader self.old.start self.old.state file given → ReturnsNext (Some limit) file given result self.new.reader self.new.start self.new.state }
        ensures refused { (file : List ℕ) (limit : ℕ) (given : ℕ) → Reads (Some limit) self.old.reader self.old.start self.old.state file given → IfErr result (IsStreamFaultIn file) }
        ensures stays { OnOk result (Stays self.old.reader self.new.reader) }
        ensures same_start { self.new.start ≡ self.old.start }
        ensures ends { result ≡ Ok None → self.new.state ≡ states.Done (tt {0}) }
        ensures fails { IfErr result (λ fault. self.new.state ≡ states.Failed fault) }
    {
        match read_credential::<OneEnctype, _>(alloc, self.start.version, &mut self.reader) {
            Ok(Some(credential)) => Ok(Some(credential)),
            Ok(None) => {
                self.state = Progress::Done(());
                Ok(None)
            }
            Err(fault) => {
                self.state = Progress::Failed(fault);
                Err(fault)
            }
        }
    }
}
