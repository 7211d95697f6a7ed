//! Reading keytabs record by record.

ghost use Rattle.std.specs.Prelude.{◌≡◌, ℕ, true, List, [], Some, Ok, Err, IfErr, OnOk, OnErr};
ghost use Rattle.krb_file.specs.Fields.{IsStreamFaultIn};
ghost use Rattle.krb_file.specs.FieldReaders.{Stays, FetchesToAnnounced};
ghost use Rattle.krb_keytab.specs.Reading.{announced};
ghost use Rattle.krb_keytab.specs.declared.value.Stop.{Stop as StopValue};
ghost use Rattle.krb_keytab.specs.declared.reading.Next.TheVariants as nexts;
ghost use Rattle.krb_file.specs.declared.fault.FileFault.{FileFault as FaultValue};
ghost use Rattle.krb_file.specs.declared.progress.Progress.TheVariants as states;
ghost use Rattle.krb_keytab.specs.Streaming.{Reads, ReturnsNext, announced_in};

use crate::reading::{Next, read_record};
use crate::value::{Entry, Record, Stop};
use krb_file::{FieldReader, FileFault, Limit, Progress, StreamReader};
use std::alloc::Global;
use std::io::Read;

/// A reader of the records of a keytab, one after another. It reads no octet after the record that
/// it returns and, at a fault, none after the end of the record by its length. It keeps no record
/// that it returned, and allocates by the octets that came.
#[derive(Drop)]
pub struct Records<R: Read> {
    reader: StreamReader<R>,
    /// While it is open it keeps whether the version was read.
    state: Progress<bool, Stop>,
}

impl<R: Read> Records<R> {
    /// Returns a reader of the records of `reader`. A field of octets may not be longer than the
    /// limit. Nothing is read yet.
    pub fn new(reader: R, limit: Limit) -> Records<R>
        ensures begins { (file : List ℕ) → R.remaining reader ≡ Some file → Reads (Some limit) result.reader result.state file 0 }
        // No octet was read.
        ensures fetched { result.reader.ahead ≡ [] }
    {
        let reader = StreamReader::new(reader, limit);
        Records {
            reader,
            state: Progress::Open(false),
        }
    }

    /// Reads the next record, or how the records end. A keytab is refused as `read` of `krb_files`
    /// refuses it, except that a realm, a component, a key or the octets after a key are TooLong if
    /// they are longer than the limit; this is checked after Overrun and before Truncated. After a
    /// fault each call returns this fault, and after the end each call returns the end; neither
    /// reads any more.
    pub fn next_record(&mut self, alloc: Global) -> Result<Next, FileFault>
        // The records of the file that is read, one after another, and then the end or the fault.
        ensures next { (file : List ℕ) (limit : ℕ) (given : ℕ) → Reads (Some limit) self.old.reader self.old.state file given → ReturnsNext (Some limit) file given result self.new.reader self.new.state }
        // A refusal is at a place of the file or at its end.
        ensures refused { (file : List ℕ) (limit : ℕ) (given : ℕ) → Reads (Some limit) self.old.reader self.old.state file given → IfErr result (IsStreamFaultIn file) }
        // No octet after what is returned was read, if none was read ahead before.
        ensures fetched { OnOk result (self.old.reader.ahead ≡ [] → self.new.reader.ahead ≡ []) }
        // At a fault no octet was read after the end of the record, by its length.
        ensures announced { OnErr result (FetchesToAnnounced (announced_in self.old.state) self.old.reader self.new.reader) }
        ensures ends { (stop : StopValue) → result ≡ Ok (nexts.Done stop) → self.new.state ≡ states.Done stop }
        // After the end or a fault nothing more is read.
        ensures ended { (stop : StopValue) → self.old.state ≡ states.Done stop → (result ≡ Ok (nexts.Done stop)) × (self.new.state ≡ states.Done stop) × (self.new.reader ≡ self.old.reader) }
        ensures failed { (fault : FaultValue) → self.old.state ≡ states.Failed fault → (result ≡ Err fault) × (self.new.state ≡ states.Failed fault) × (self.new.reader ≡ self.old.reader) }
        ensures fails { IfErr result (λ fault. self.new.state ≡ states.Failed fault) }
    {
        match self.state {
            Progress::Open(has_begun) if has_begun => self.read_next(alloc),
            Progress::Open(_) => match self.reader.version(&[2]) {
                Ok(_) => self.read_next(alloc),
                Err(fault) => {
                    self.state = Progress::Failed(fault);
                    Err(fault)
                }
            },
            Progress::Done(stop) => Ok(Next::Done(stop)),
            Progress::Failed(fault) => Err(fault),
        }
    }

    /// Gives back a record that was read, whose vectors are used for the next records.
    pub fn give_back(&mut self, record: Record)
        ensures same_reader { self.new.reader ≡ self.old.reader }
        ensures same_state { self.new.state ≡ self.old.state }
    {
        if let Record::Entry(entry) = record {
            let Entry {
                realm,
                components,
                key,
                rest,
                ..
            } = entry;
            self.reader.give_back(realm);
            self.reader.give_back(components);
            self.reader.give_back(key);
            self.reader.give_back(rest);
        }
    }

    /// Returns the next record after the version.
    fn read_next(&mut self, alloc: Global) -> Result<Next, FileFault>
        ensures next { (file : List ℕ) (limit : ℕ) (given : ℕ) → Reads (Some limit) self.old.reader (states.Open true) file given → ReturnsNext (Some limit) file given result self.new.reader self.new.state }
        ensures stays { OnOk result (Stays self.old.reader self.new.reader) }
        ensures announced { OnErr result (FetchesToAnnounced announced self.old.reader self.new.reader) }
        ensures ends { (stop : StopValue) → result ≡ Ok (nexts.Done stop) → self.new.state ≡ states.Done stop }
        ensures fails { IfErr result (λ fault. self.new.state ≡ states.Failed fault) }
    {
        let begin = self.reader.place();
        match read_record(alloc, &mut self.reader) {
            Ok(Next::Item(item)) => {
                self.state = Progress::Open(true);
                Ok(Next::Item(item))
            }
            Ok(Next::Done(stop)) => {
                self.state = Progress::Done(stop);
                Ok(Next::Done(stop))
            }
            Err(fault) => {
                let fault = fault.begun_at(begin);
                self.state = Progress::Failed(fault);
                Err(fault)
            }
        }
    }
}
