//! Runs over files, which are read before anything is written.

ghost use Rattle.std.specs.Prelude.{◌≡◌, ◌+◌, ◌^◌, ◌≤◌, List, ℕ, Some, IfSome, IfErr, IfOk, OnErr, OnOk};
ghost use Rattle.krb_run.specs.declared.transfer.ReaderState.TheVariants as reader;
ghost use Rattle.krb_run.specs.Files.{ReadsSome, FileListing, ListsFile, FailsFile, IsDecidedByPrefix, MatchesReader, shown};
ghost use Rattle.krb_run.specs.inner.FileRuns.{IsNotFailed, IsOfReading, ReadsUpTo};

use crate::run::{PIECE_OCTETS, RunEnd, RunFault, piece_buffer};
use crate::transfer::{CountedReader, write_all};
use krb_record::TextBuffer;
use std::alloc::Global;
use std::io::{Read, Write};

/// What is written of a file or of a message, and how its run ends.
#[derive(Drop)]
pub struct FileText {
    /// The lines, each with its line feed.
    pub text: TextBuffer,
    /// Whether something was refused.
    pub end: RunEnd,
}

/// Returns how many octets more are read at once after these: a piece, or those up to the greatest
/// number.
fn room(most: Option<usize>, kept: usize) -> usize
    requires { IfSome most (λ most. kept ≤ most) }
    ensures few { result ≤ 65536 }
    ensures within { IfSome most (λ most. kept + result ≤ most) }
    ensures full { result ≡ 0 → most ≡ Some kept }
{
    match most {
        Some(most) => PIECE_OCTETS.min(most - kept),
        None => PIECE_OCTETS,
    }
}

/// Reads what a reader has, all of it or the first `most` octets, after which it is not asked. The
/// vector grows as the octets come.
fn read_all<R: Read>(
    alloc: Global,
    counted: &mut CountedReader<'_, R>,
    most: Option<usize>,
) -> Result<Vec<u8>, RunFault>
    requires open { counted.old.state ≡ reader.Open }
    ensures same_reader { counted.new.reader.ghost_name ≡ counted.old.reader.ghost_name }
    ensures read { IfOk result (λ file. ReadsUpTo (R.remaining counted.old.reader.now) (R.remaining counted.new.reader.now) most file.items) }
    ensures state { OnOk result (IsNotFailed counted.new.state) }
    ensures fault { IfErr result (IsOfReading counted.new.state) }
    ensures taken { OnErr result (ReadsSome (R.remaining counted.old.reader.now) (R.remaining counted.new.reader.now)) }
    ensures asks { counted.new.made ≤ 2 ^ 40 }
{
    let mut buffer = piece_buffer(alloc)?;
    let mut file = Vec::new(alloc);
    'pieces: loop {
        let room = room(most, file.len());
        if room == 0 {
            return Ok(file);
        }
        let piece = &mut buffer[..room];
        let count = counted.read(piece)?;
        if count == 0 {
            return Ok(file);
        }
        file.extend_from_slice(&piece[..count])?;
    }
}

/// A format of files that can be listed: what [`run_file`] asks of it.
pub trait FileFormat {
    /// What the listing of a file is.
    ghost Lists: { Self → List ℕ → FileListing → Type 0 };

    /// Returns the number of octets of a file that decide its listing, if there is one: octets
    /// after them change nothing, and are not read.
    fn most(&self) -> Option<usize>
        ensures { IsDecidedByPrefix (Lists self.now) result };

    /// Returns the lines of a file, or the line of its refusal. The one error is running out of
    /// memory.
    fn list(&self, alloc: Global, file: &[u8]) -> Result<FileText, RunFault>
        ensures listed { IfOk result (λ made. Lists self.now file.now (shown made)) }
        ensures fault { IfErr result (λ e. e ≡ RunFault.Memory) };
}

/// Lists a file of a format, and returns how the run ended. What decides the listing is read first, by
/// at most 2^40 reads of at most 64 KiB each: all that the reader has, or as many octets as decide it,
/// after which it is not asked. If a read fails or memory runs out, nothing is written.
pub fn run_file<R: Read, W: Write, F: FileFormat>(
    alloc: Global,
    counted: &mut CountedReader<'_, R>,
    writer: &mut W,
    format: &F,
) -> Result<RunEnd, RunFault>
    requires open { counted.old.state ≡ reader.Open }
    ensures same_reader { counted.new.reader.ghost_name ≡ counted.old.reader.ghost_name }
    ensures listed { IfOk result (ListsFile (F.Lists format.now) (R.remaining counted.old.reader.now) (R.remaining counted.new.reader.now) (W.contents writer.old) (W.contents writer.new)) }
    ensures fault { IfErr result (FailsFile (F.Lists format.now) (R.remaining counted.old.reader.now) (R.remaining counted.new.reader.now) (W.contents writer.old) (W.contents writer.new)) }
    ensures decided { IfErr result (MatchesReader counted.new.state) }
{
    let file = read_all(alloc, counted, format.most())?;
    let listed = format.list(alloc, file.as_slice())?;
    write_all(writer, listed.text.octets())?;
    Ok(listed.end)
}
