//! Reading and writing by pieces.

ghost use Rattle.std.specs.Prelude.{◌≡◌, ◌≢◌, ◌+◌, ◌^◌, ◌<◌, ◌≤◌, min, length, take, IfErr, IfOk, OnErr, OnOk};
ghost use Rattle.std.specs.Io.KnownBytes.{Keeps, Appends};
ghost use Rattle.krb_run.specs.Faults.{IsRead, IsWrite};
ghost use Rattle.krb_run.specs.Records.{AppendsPrefix};
ghost use Rattle.krb_run.specs.Transfers.{ReturnsOctets};

use crate::run::RunFault;
use std::io;
use std::io::{ErrorKind, Read, Write};

/// The greatest number of times that a run asks its reader.
pub(crate) const MOST_ASKS: u64 = 1 << 40;

/// Returns the error of a reader that was asked [`MOST_ASKS`] times.
pub(crate) fn too_many_reads() -> io::Error {
    io::Error::other("too many reads")
}

/// Whether a reader may be asked again. Only contracts read it.
#[derive(Clone, Copy)]
pub enum ReaderState {
    /// It returned octets at each read.
    Open,
    /// It has ended.
    Ended,
    /// A read failed, or it was asked 2^40 times.
    Failed,
}

/// A reader, and how many reads were made. It has the only borrow of the reader, so a run can read
/// by [`read`](CountedReader::read) alone.
#[derive(Drop)]
pub struct CountedReader<'a, R> {
    reader: &'a mut R,
    made: u64,
    state: ReaderState,
    pub ghost few: { made ≤ 2 ^ 40 },
}

impl<'a, R: Read> CountedReader<'a, R> {
    /// Creates a reader with no octets read yet.
    pub fn new(reader: &'a mut R) -> CountedReader<'a, R>
        ensures same_reader { result.reader.ghost_name ≡ reader.entry.ghost_name }
        ensures untouched { result.reader.now ≡ reader.old }
        ensures none { result.made ≡ 0 }
        ensures open { result.state ≡ ReaderState.Open }
    {
        CountedReader {
            reader,
            made: 0,
            state: ReaderState::Open,
        }
    }

    /// Reads a piece of the octets, and returns how many came, 0 at the end. A read that fails is a
    /// fault, and so is one more than 2^40. No read may follow the end or a fault.
    pub fn read(&mut self, buffer: &mut [u8]) -> Result<usize, RunFault>
        requires open { self.old.state ≡ ReaderState.Open }
        requires room { 0 < length buffer.old }
        ensures same_reader { self.new.reader.ghost_name ≡ self.old.reader.ghost_name }
        ensures count { IfOk result (λ count. count ≤ length buffer.new) }
        ensures given { IfOk result (λ count. ReturnsOctets (R.remaining self.old.reader.now) (R.remaining self.new.reader.now) (take count buffer.new) (length buffer.old)) }
        ensures counted { OnOk result (self.new.made ≡ self.old.made + 1) }
        ensures ended { IfOk result (λ count. count ≡ 0 → self.new.state ≡ ReaderState.Ended) }
        ensures goes_on { IfOk result (λ count. count ≢ 0 → self.new.state ≡ ReaderState.Open) }
        ensures fault { IfErr result IsRead }
        ensures failed { OnErr result (self.new.state ≡ ReaderState.Failed) }
        ensures counted_failed { OnErr result (self.new.made ≡ min (self.old.made + 1) (2 ^ 40)) }
        ensures kept { OnErr result (Keeps (R.remaining self.old.reader.now) (R.remaining self.new.reader.now)) }
    {
        if self.made == MOST_ASKS {
            self.state = ReaderState::Failed;
            return Err(RunFault::Read(too_many_reads()));
        }
        self.made += 1;
        match self.reader.read(buffer) {
            Ok(0) => {
                self.state = ReaderState::Ended;
                Ok(0)
            }
            Ok(count) => Ok(count),
            Err(error) => {
                self.state = ReaderState::Failed;
                Err(RunFault::Read(error))
            }
        }
    }
}

/// Writes all the octets, and flushes the writer. A write that fails, or writes nothing, is a fault,
/// and so is a flush that fails.
pub fn write_all<W: Write>(writer: &mut W, octets: &[u8]) -> Result<(), RunFault>
    ensures all { OnOk result (Appends (W.contents writer.old) (W.contents writer.new) octets.now) }
    ensures prefix { OnErr result (AppendsPrefix (W.contents writer.old) (W.contents writer.new) octets.now) }
    ensures fault { IfErr result IsWrite }
{
    write_octets(writer, octets)?;
    flush(writer)
}

/// Flushes a writer.
fn flush<W: Write>(writer: &mut W) -> Result<(), RunFault>
    ensures kept { Keeps (W.contents writer.old) (W.contents writer.new) }
    ensures fault { IfErr result IsWrite }
{
    match writer.flush() {
        Ok(()) => Ok(()),
        Err(error) => Err(RunFault::Write(error)),
    }
}

/// Writes all the octets. A write that fails, or writes nothing, is a fault.
fn write_octets<W: Write>(writer: &mut W, octets: &[u8]) -> Result<(), RunFault>
    ensures all { OnOk result (Appends (W.contents writer.old) (W.contents writer.new) octets.now) }
    ensures prefix { OnErr result (AppendsPrefix (W.contents writer.old) (W.contents writer.new) octets.now) }
    ensures fault { IfErr result IsWrite }
{
    let mut rest = octets;
    'writes: while !rest.is_empty() {
        match writer.write(rest) {
            Ok(0) => return Err(RunFault::Write(ErrorKind::WriteZero.into())),
            Err(error) => return Err(RunFault::Write(error)),
            Ok(count) => rest = &rest[count..],
        }
    }
    Ok(())
}
