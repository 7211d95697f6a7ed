//! Runs over files whose lines are written as their records end.

ghost use Rattle.std.specs.Prelude.{◌≡◌, ◌++◌, ◌⊎◌, ℕ, suc, List, [], Some, IfErr, IfOk, OnErr, OnOk, string_bytes};
ghost use Rattle.std.specs.Io.KnownBytes.{Appends, prepend_known};
ghost use Rattle.std.specs.Option.{option_map};
ghost use Rattle.krb_run.specs.Begun.{octets_of};
ghost use Rattle.krb_run.specs.Extents.{fault_line};
ghost use Rattle.krb_run.specs.Faults.{IsFaultAt, IsRead, IsWrite};
ghost use Rattle.krb_run.specs.Records.{AddsLine, AddsRefusal, AppendsPrefix, IsRefusal, ListsRecords, RecordListing, WasLeft, WritesSome, after_line, refused_in};
ghost use Rattle.krb_run.specs.inner.RecordRuns.{Moves, WritesBefore};

use crate::extent::extent_of;
use crate::field_path::file_path;
use crate::piece::Piece;
use crate::run::{PIECE_OCTETS, RunEnd, RunFault};
use crate::transfer::{MOST_ASKS, too_many_reads, write_all};
use krb_file::{FileFault, FileItem, FileRefusal};
use krb_record::{Label, TextBuffer, put_file_refusal};
use std::alloc::Global;
use std::cell::Cell;
use std::io;
use std::io::{Read, Write};

/// How many octets a reader is asked for first.
const LEAST_OCTETS: usize = 1 << 12;

/// What is known of a reader, and of the octets that it gave.
#[derive(Drop)]
pub struct Watch {
    /// Whether its last read returned all the octets that it was asked for, a piece of 64 KiB, as that
    /// of a fast file does.
    is_fast: Cell<bool>,
    /// The error of a read that failed.
    error: Cell<Option<io::Error>>,
    /// How many octets of the last read are in no record yet.
    at_hand: Cell<usize>,
    /// How many octets are in records, and how many were when that was asked last.
    given: Cell<usize>,
    told: Cell<usize>,
    /// The octets of the longest record.
    longest: Cell<usize>,
}

impl Watch {
    /// Returns what is known of a reader that was not asked yet.
    pub fn new() -> Watch {
        Watch {
            is_fast: Cell::new(true),
            error: Cell::new(None),
            at_hand: Cell::new(0),
            given: Cell::new(0),
            told: Cell::new(0),
            longest: Cell::new(1),
        }
    }

    /// Returns why the reader can be read no further.
    pub fn error(&self) -> io::Error {
        match self.error.get() {
            Some(error) => error,
            None => too_many_reads(),
        }
    }

    /// Takes note that so many octets were given, and how many are left of the last read.
    fn gave(&self, count: usize, at_hand: usize) {
        self.given.set(self.given.get().wrapping_add(count));
        self.at_hand.set(at_hand);
    }

    /// Returns whether the next record may have to be waited for, once one has ended: a slow reader
    /// may be asked for its octets, since fewer are at hand than the longest record had.
    fn may_wait(&self) -> bool {
        let given = self.given.get();
        let size = given.wrapping_sub(self.told.get());
        let longest = self.longest.get().max(size);
        self.told.set(given);
        self.longest.set(longest);
        !self.is_fast.get() & (self.at_hand.get() < longest)
    }
}

/// A reader that is watched.
#[derive(Drop)]
pub struct Watched<'a, R> {
    pub reader: &'a mut R,
    pub watch: &'a Watch,
}

impl<R: Read> Read for Watched<'_, R> {
    ghost remaining = { λ watched. R.remaining watched.reader.now };

    fn read(&mut self, octets: &mut [u8]) -> io::Result<usize> {
        match self.reader.read(octets) {
            Ok(count) => {
                self.watch
                    .is_fast
                    .set((count == octets.len()) & (count >= PIECE_OCTETS));
                Ok(count)
            }
            Err(error) => {
                self.watch.error.set(Some(error));
                Err(error)
            }
        }
    }
}

/// A watched reader that is asked for pieces: first for 4 KiB, which is all of a small file, and
/// for 64 KiB once it returned as many.
#[derive(Drop)]
pub struct PieceReader<'a, R> {
    reader: Watched<'a, R>,
    piece: Piece,
}

impl<R: Read> Read for PieceReader<'_, R> {
    ghost remaining = { λ pieces. prepend_known (octets_of pieces.piece) (R.remaining pieces.reader.reader.now) };

    fn read(&mut self, octets: &mut [u8]) -> io::Result<usize> {
        let count = self.piece.read(&mut self.reader, octets)?;
        let at_hand = self.piece.octets().len();
        self.reader.watch.gave(count, at_hand);
        Ok(count)
    }
}

/// Returns a reader that asks this one for pieces.
pub fn in_pieces<'a, R: Read>(
    alloc: Global,
    reader: Watched<'a, R>,
) -> Result<PieceReader<'a, R>, RunFault>
    ensures same { IfOk result (λ made. (file : List ℕ) → R.remaining reader.entry.reader.now ≡ Some file → prepend_known (octets_of made.piece) (R.remaining made.reader.reader.now) ≡ Some file) }
    ensures fault { IfErr result (λ e. e ≡ RunFault.Memory) }
{
    match Piece::new(alloc, LEAST_OCTETS) {
        Ok(piece) => Ok(PieceReader { reader, piece }),
        Err(_) => Err(RunFault::Memory),
    }
}

/// A file that is listed a line for each record.
pub trait RecordLines {
    /// What is listed, and how.
    ghost Source: { Type 0 };

    /// What is left to be listed of a source after a number of records.
    ghost IsLeft: { Self → ℕ → Source → RecordListing → Type 0 };

    /// What becomes of it when a read fails.
    ghost Fails: { Self → Self → Type 0 } = { λ _ _. Unit {0} };

    /// Appends the line of the record after the first `count`, and returns none. If there is no
    /// record it appends the last line, and returns how the run ends.
    fn put_next(
        &mut self,
        alloc: Global,
        count: u64,
        text: &mut TextBuffer,
    ) -> Result<Option<RunEnd>, RunFault>
        ensures line { (source : Source) (left : RecordListing) → IsLeft self.old count source left → AddsLine (IsLeft self.new (suc count) source) left text.old text.new result }
        ensures fault { IfErr result (λ e. IsWrite e → ⊥) }
        ensures kept { IfErr result (λ e. IsRead e → text.new ≡ text.old) }
        ensures failed { IfErr result (λ e. IsRead e → Fails self.old self.new) };
}

/// Appends the line of a refused file, with the path of the field at fault.
fn put_refusal(
    text: &mut TextBuffer,
    label: &Label,
    refusal: FileRefusal,
    path: &Option<String>,
) -> Result<(), RunFault>
    ensures line { OnOk result (text.new ≡ text.old ++ fault_line label.now refusal (option_map string_bytes path.now)) }
    ensures fault { IfErr result (λ e. e ≡ RunFault.Memory) }
{
    let FileRefusal { place, why, .. } = refusal;
    let extent = extent_of(refusal);
    label.begin(text)?;
    put_file_refusal(text, label.form(), place, why, path.as_deref(), extent)?;
    label.end(text)?;
    Ok(())
}

/// Returns how a run ends that is refused in this item: at once, if no record is before it. The record
/// of a cache is before its credentials.
fn refused_in(item: FileItem) -> RunEnd
    ensures { result ≡ refused_in item }
{
    match item {
        FileItem::File | FileItem::Record(0) => RunEnd::RefusedAtOnce,
        FileItem::Record(_) | FileItem::Credential(_) => RunEnd::Refused,
    }
}

/// Appends the line of a refusal in this item, which ends the run. Other faults have no line.
pub fn put_fault(
    alloc: Global,
    text: &mut TextBuffer,
    label: &Label,
    item: FileItem,
    fault: FileFault,
    watch: &Watch,
) -> Result<RunEnd, RunFault>
    ensures refused { IfOk result (AddsRefusal item label.now fault text.old text.new) }
    ensures fault { IfErr result (IsFaultAt fault) }
    ensures kept { IfErr result (λ e. IsRead e → text.new ≡ text.old) }
{
    match fault {
        FileFault::Refused(refusal) => {
            let path = file_path(alloc, label.form(), item, refusal.field)?;
            put_refusal(text, label, refusal, &path)?;
            Ok(refused_in(item))
        }
        FileFault::Read => Err(RunFault::Read(watch.error())),
        FileFault::Memory => Err(RunFault::Memory),
    }
}

/// Writes a text and clears it.
fn write_text<W: Write>(writer: &mut W, text: &mut TextBuffer) -> Result<(), RunFault>
    ensures all { OnOk result (Appends (W.contents writer.old) (W.contents writer.new) text.old) }
    ensures none_kept { OnOk result (text.new ≡ []) }
    ensures prefix { OnErr result (AppendsPrefix (W.contents writer.old) (W.contents writer.new) text.old) }
    ensures fault { IfErr result IsWrite }
{
    write_all(writer, text.octets())?;
    text.clear();
    Ok(())
}

/// Writes a text and clears it if it has to be written now.
fn write_early<W: Write>(
    writer: &mut W,
    text: &mut TextBuffer,
    is_due: bool,
) -> Result<(), RunFault>
    ensures moved { OnOk result (Moves (W.contents writer.old) (W.contents writer.new) text.old text.new) }
    ensures prefix { OnErr result (AppendsPrefix (W.contents writer.old) (W.contents writer.new) text.old) }
    ensures fault { IfErr result IsWrite }
{
    if is_due {
        write_text(writer, text)?;
    }
    Ok(())
}

/// Writes the lines of the records before a read that failed, and returns that fault. At other
/// faults the last line may not be whole, and nothing is written.
fn write_before<W: Write>(
    writer: &mut W,
    text: &mut TextBuffer,
    fault: RunFault,
) -> Result<RunEnd, RunFault>
    requires { IsWrite fault → ⊥ }
    ensures { WritesBefore fault (W.contents writer.old) (W.contents writer.new) text.old result }
{
    if let RunFault::Read(_) = fault {
        write_text(writer, text)?;
    }
    Err(fault)
}

/// Lists a file after a text that is not written yet. Lines are written once they have 64 KiB, and
/// before a record for which a slow reader may have to be waited for: one that returned less than it
/// was asked for, of which fewer octets are at hand than the longest record had. If a read fails the
/// text is written, and after it the lines of all records that were read.
pub fn list_records<L: RecordLines, W: Write>(
    alloc: Global,
    lines: &mut L,
    text: &mut TextBuffer,
    watch: &Watch,
    writer: &mut W,
) -> Result<RunEnd, RunFault>
    ensures listed { (source : L.Source) (left : RecordListing) → L.IsLeft lines.old 0 source left → ListsRecords (after_line text.old left) (WasLeft L.IsLeft L.Fails source lines.new) (W.contents writer.old) (W.contents writer.new) result }
    ensures written { WritesSome (W.contents writer.old) (W.contents writer.new) }
{
    'records: for count in 0..MOST_ASKS {
        let is_due = watch.may_wait() | (text.octets().len() >= PIECE_OCTETS);
        write_early(writer, text, is_due)?;
        match lines.put_next(alloc, count, text) {
            Ok(None) => {}
            Ok(Some(ended)) => {
                write_all(writer, text.octets())?;
                return Ok(ended);
            }
            Err(fault) => return write_before(writer, text, fault),
        }
    }
    write_before(writer, text, RunFault::Read(too_many_reads()))
}

/// Lists the refusal of a file and nothing else, if this fault is a refusal. If a read failed nothing
/// is written.
pub fn list_refusal<W: Write>(
    alloc: Global,
    label: &Label,
    fault: FileFault,
    watch: &Watch,
    writer: &mut W,
) -> Result<RunEnd, RunFault>
    ensures listed { (listing : RecordListing) → IsRefusal label.now fault listing → ListsRecords listing (λ left. left ≡ listing) (W.contents writer.old) (W.contents writer.new) result }
    ensures written { WritesSome (W.contents writer.old) (W.contents writer.new) }
    ensures fault { IfErr result (λ e. IsFaultAt fault e ⊎ IsWrite e) }
{
    let mut text = TextBuffer::new(alloc);
    match put_fault(alloc, &mut text, label, FileItem::File, fault, watch) {
        Ok(ended) => {
            write_all(writer, text.octets())?;
            Ok(ended)
        }
        Err(fault) => write_before(writer, &mut text, fault),
    }
}
