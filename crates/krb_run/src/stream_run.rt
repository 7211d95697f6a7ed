//! Runs over streams, which are listed as their octets come.

ghost use Rattle.std.specs.Prelude.{◌≡◌, ◌+◌, ◌^◌, ◌≤◌, [], length, IsTrue, IfErr, IfOk, OnOk};
ghost use Rattle.krb_run.specs.declared.transfer.ReaderState.TheVariants as reader;
ghost use Rattle.krb_run.specs.Streams.{Rules, Listing, IsNew, AcceptsPiece, Feeds, Clears, MayFinish, Finishes, ListsBy, FailsBy, Reads, FailsToRead};

use crate::run::{RunFault, piece_buffer};
use crate::transfer::{CountedReader, write_all};
use std::alloc::Global;
use std::io::{Read, Write};

/// A lister of a stream whose octets come in pieces: what [`list_all`] asks of it. The one error of
/// each call is running out of memory.
pub trait ListStream: Drop {
    /// What it is asked for.
    type Request;

    /// How a run over it ends.
    type End: Drop;

    /// What is written of the octets of a stream.
    ghost rules: { Self.Request → Rules Self.End };

    /// What contracts see of it.
    ghost listing: { Self → Listing Self.Request };

    /// Returns the lister of a stream with no octets yet.
    fn new(alloc: Global, request: Self::Request) -> Self
        ensures { IsNew (rules request) request (listing result) };

    /// Takes the next piece of the stream, at most 65536 octets, adds the lines that it completes, and
    /// returns whether the stream goes on.
    fn feed(&mut self, piece: &[u8]) -> Result<bool, RunFault>
        requires waits { AcceptsPiece (listing self.old) }
        requires short { length piece.now ≤ 65536 }
        ensures fed { IfOk result (Feeds rules (listing self.old) piece.now (listing self.new)) }
        ensures fault { IfErr result (λ e. e ≡ RunFault.Memory) };

    /// Returns the lines that are not written yet.
    fn text(&self) -> &[u8]
        ensures { result.now ≡ (listing self.now).text };

    /// Forgets the lines, which are written.
    fn clear_text(&mut self)
        ensures { Clears (listing self.old) (listing self.new) };

    /// Adds the lines of the end, and returns how the run ends.
    fn finish(&mut self) -> Result<Self::End, RunFault>
        requires { MayFinish (listing self.old) }
        ensures finished { IfOk result (Finishes rules (listing self.old) (listing self.new)) }
        ensures fault { IfErr result (λ e. e ≡ RunFault.Memory) };
}

/// Reads the next piece of a stream and feeds it to a lister, whose lines are written. Returns whether
/// the stream goes on, which it does not after its end.
fn feed_next<L: ListStream, R: Read>(
    lister: &mut L,
    counted: &mut CountedReader<'_, R>,
    buffer: &mut [u8],
) -> Result<bool, RunFault>
    requires waits { AcceptsPiece (L.listing lister.old) }
    requires none { (L.listing lister.old).text ≡ [] }
    requires open { counted.old.state ≡ reader.Open }
    requires size { length buffer.old ≡ 65536 }
    ensures same_reader { counted.new.reader.ghost_name ≡ counted.old.reader.ghost_name }
    ensures counted { OnOk result (counted.new.made ≡ counted.old.made + 1) }
    ensures open { IfOk result (λ goes_on. IsTrue goes_on → counted.new.state ≡ reader.Open) }
    ensures fed { IfOk result (Reads L.rules (R.remaining counted.old.reader.now) counted.old.made (L.listing lister.old) (R.remaining counted.new.reader.now) counted.new.made (L.listing lister.new)) }
    ensures fault { IfErr result (FailsToRead L.rules (R.remaining counted.old.reader.now) counted.old.made (L.listing lister.old) (R.remaining counted.new.reader.now)) }
{
    let count = counted.read(buffer)?;
    if count == 0 {
        return Ok(false);
    }
    lister.feed(&buffer[..count])
}

/// Lists a stream from its first octet, by a new lister, and returns how the run ended. The reader is
/// asked at most 2^40 times, for 64 KiB each, and the lines of what came are written before it is
/// asked again; it is not asked again after an error, its end, or the piece at which the stream stops.
/// If a read fails, the lines that were written are those of all that is whole in what came, and none
/// of its end. If memory runs out they are the first octets of lines, and if a write fails, of the
/// listing.
pub fn list_all<L: ListStream, R: Read, W: Write>(
    alloc: Global,
    request: L::Request,
    counted: &mut CountedReader<'_, R>,
    writer: &mut W,
) -> Result<L::End, RunFault>
    requires none { counted.old.made ≡ 0 }
    requires open { counted.old.state ≡ reader.Open }
    ensures same_reader { counted.new.reader.ghost_name ≡ counted.old.reader.ghost_name }
    ensures listed { IfOk result (ListsBy (L.rules request) (R.remaining counted.old.reader.now) (R.remaining counted.new.reader.now) (W.contents writer.old) (W.contents writer.new)) }
    ensures fault { IfErr result (FailsBy (L.rules request) (R.remaining counted.old.reader.now) (R.remaining counted.new.reader.now) (W.contents writer.old) (W.contents writer.new)) }
    ensures asks { counted.new.made ≤ 2 ^ 40 }
{
    let mut lister = L::new(alloc, request);
    let mut buffer = piece_buffer(alloc)?;
    'pieces: while feed_next(&mut lister, counted, buffer.as_mut_slice())? {
        write_all(writer, lister.text())?;
        lister.clear_text();
    }
    let ended = lister.finish()?;
    write_all(writer, lister.text())?;
    Ok(ended)
}
