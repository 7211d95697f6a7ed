//! A writer of marked listings.

ghost use Rattle.std.specs.Prelude.{◌≡◌, ◌≤◌, ◌∷◌, ◌++◌, [], ℕ, List, None, Option, Some, IfSome, MatchOption, OnErr, OnOk};
ghost use Rattle.std.specs.Io.KnownBytes.{Appends, Keeps};
ghost use Rattle.krb_choice.specs.Columns.{row_found};
ghost use Rattle.krb_choice.specs.Marked.{aside_of};
ghost use Rattle.krb_choice.specs.Read.{Finds, all_in};
ghost use Rattle.krb_choosing.specs.Listings.{HasNoFeed, chosen_after, chosen_listing, chosen_of, is_last, told_if, told_listing, told_of};
ghost use Rattle.krb_choosing.specs.Writes.{AppendsFirst, key};
ghost use Rattle.krb_choosing.specs.inner.Chooser.{Begins, Follows, Follows-prop, Moves, Takes, rows_found};

use crate::given::{Before, Given, Octets};
use krb_choice::{Choice, Record, put_whole};
use memchr::memchr;
use std::alloc::{AllocError, Global};
use std::io;
use std::io::{ErrorKind, Write};

/// How many octets of rows are written at once, at least.
const MANY: usize = 1 << 16;

/// Splits a text at its first line feed.
fn split_line(text: &[u8]) -> Option<(&[u8], &[u8])>
    ensures parts { IfSome result (λ parts. parts.0.now ++ 10 ∷ parts.1.now ≡ text.now) }
    ensures line { IfSome result (λ parts. HasNoFeed parts.0.now) }
    ensures none { MatchOption result (HasNoFeed text.now) (λ _. Unit {0}) }
{
    match memchr(b'\n', text) {
        None => None,
        Some(end) => Some((&text[..end], &text[end + 1..])),
    }
}

/// Writes all the octets. A write that takes nothing is an error.
fn write_octets<W: Write>(writer: &mut W, octets: &[u8]) -> io::Result<()>
    ensures all { OnOk result (Appends (W.contents writer.old) (W.contents writer.new) octets.now) }
    ensures first { OnErr result (Begins (W.contents writer.old) (W.contents writer.new) octets.now) }
{
    let mut rest = octets;
    'writes: while !rest.is_empty() {
        match writer.write(rest) {
            Ok(0) => return Err(ErrorKind::WriteZero.into()),
            Err(error) => return Err(error),
            Ok(count) => rest = &rest[count..],
        }
    }
    Ok(())
}

/// Writes what is to be written.
fn write_out<W: Write>(writer: &mut W, out: &mut Vec<u8>) -> io::Result<()>
    ensures all { OnOk result (Appends (W.contents writer.old) (W.contents writer.new) out.old.items) }
    ensures none { OnOk result (out.new.items ≡ []) }
    ensures first { OnErr result (Begins (W.contents writer.old) (W.contents writer.new) out.old.items) }
{
    write_octets(writer, out.as_slice())?;
    out.clear();
    Ok(())
}

/// Writes what is to be written, if that is much.
fn write_much<W: Write>(writer: &mut W, out: &mut Vec<u8>) -> io::Result<()>
    ensures moved { OnOk result (Moves (W.contents writer.old) (W.contents writer.new) out.old.items out.new.items []) }
    ensures first { OnErr result (Begins (W.contents writer.old) (W.contents writer.new) out.old.items) }
{
    if MANY <= out.len() {
        write_out(writer, out)?;
    }
    Ok(())
}

/// Adds a row of a record to what is to be written.
fn put_row<W: Write>(
    record: &Record<'_>,
    row: usize,
    out: &mut Vec<u8>,
    writer: &mut W,
) -> io::Result<()>
    ensures moved { OnOk result (Moves (W.contents writer.old) (W.contents writer.new) out.old.items out.new.items (row_found row (all_in «record».now.found.items))) }
    ensures first { OnErr result (Begins (W.contents writer.old) (W.contents writer.new) (out.old.items ++ row_found row (all_in «record».now.found.items))) }
{
    record.put_row(row, out)?;
    write_much(writer, out)
}

/// Adds the rows of a record to what is to be written, of which much is written.
fn put_rows<W: Write>(record: &Record<'_>, out: &mut Vec<u8>, writer: &mut W) -> io::Result<()>
    ensures moved { OnOk result (Moves (W.contents writer.old) (W.contents writer.new) out.old.items out.new.items (rows_found (all_in «record».now.found.items))) }
    ensures first { OnErr result (Begins (W.contents writer.old) (W.contents writer.new) (out.old.items ++ rows_found (all_in «record».now.found.items))) }
{
    let count = record.count_rows();
    let mut row = 0;
    'rows: while row < count {
        put_row(record, row, out, writer)?;
        row += 1;
    }
    Ok(())
}

/// Keeps the line that tells of a record, if it may be the last one and is not kept.
fn keep_told(told: &mut Vec<u8>, record: &Record<'_>, is_kept: bool) -> Result<(), AllocError>
    ensures { OnOk result (told.new.items ≡ told_if is_kept (aside_of «record».now.pieces.items)) }
{
    told.clear();
    if is_kept {
        return Ok(());
    }
    if let Some(line) = record.aside() {
        told.extend_from_slice(line)?;
        told.extend_from_slice(b"\n")?;
    }
    Ok(())
}

/// What chooses among the records of a listing.
#[derive(Drop)]
pub struct Chooser<'a> {
    choice: &'a Choice,
    /// Whether the listing goes on after each refusal, so that none ends it.
    goes_on: bool,
    /// The octets of a record whose end has not come.
    begun: Vec<u8>,
    /// What is not written yet.
    out: Vec<u8>,
    /// The line that tells of the last record, if that is not kept.
    told: Vec<u8>,
}

impl<'a> Chooser<'a> {
    /// Returns what chooses among the records of a listing, of which none has come.
    fn new(alloc: Global, choice: &'a Choice, goes_on: bool) -> Chooser<'a>
        ensures same_choice { result.choice.now ≡ choice.now }
        ensures same_goes_on { result.goes_on ≡ goes_on }
        ensures none { (result.begun.items ≡ []) × (result.out.items ≡ []) × (result.told.items ≡ []) }
    {
        Chooser {
            choice,
            goes_on,
            begun: Vec::new(alloc),
            out: Vec::new(alloc),
            told: Vec::new(alloc),
        }
    }

    /// Returns whether a record may be the last one.
    fn is_last(&self, record: &Record<'_>) -> bool
        ensures { (text : List ℕ) → Finds self.now.choice.now text «record».now → result ≡ is_last self.now.goes_on text }
    {
        record.aside().is_some() && !(self.goes_on && record.is_of(b"refused"))
    }

    /// Adds what is chosen of a record to what is to be written.
    fn put_chosen<W: Write>(
        &mut self,
        text: &[u8],
        record: &Record<'_>,
        writer: &mut W,
    ) -> io::Result<()>
        requires { Finds self.old.choice.now text.now «record».now }
        ensures moved { OnOk result (Moves (W.contents writer.old) (W.contents writer.new) self.old.out.items self.new.out.items (chosen_of self.old.choice.now self.old.goes_on text.now)) }
        ensures told { OnOk result (self.new.told.items ≡ told_of self.old.choice.now self.old.goes_on text.now) }
        ensures first { OnErr result (Begins (W.contents writer.old) (W.contents writer.new) (self.old.out.items ++ chosen_of self.old.choice.now self.old.goes_on text.now)) }
        ensures same_choice { self.new.choice.now ≡ self.old.choice.now }
        ensures same_goes_on { self.new.goes_on ≡ self.old.goes_on }
        ensures same_begun { self.new.begun.items ≡ self.old.begun.items }
    {
        let is_kept = record.is_kept(self.choice, self.is_last(record));
        keep_told(&mut self.told, record, is_kept)?;
        if !is_kept {
            return Ok(());
        }
        if self.choice.has_rows() {
            put_rows(record, &mut self.out, writer)
        } else {
            put_whole(text, &mut self.out)?;
            Ok(())
        }
    }

    /// Takes a record without its line feed.
    fn take<'b, W: Write>(
        &mut self,
        text: &'b [u8],
        record: &mut Record<'b>,
        writer: &mut W,
    ) -> io::Result<()>
        ensures moved { OnOk result (Moves (W.contents writer.old) (W.contents writer.new) self.old.out.items self.new.out.items (chosen_of self.old.choice.now self.old.goes_on text.now)) }
        ensures told { OnOk result (self.new.told.items ≡ told_of self.old.choice.now self.old.goes_on text.now) }
        ensures first { OnErr result (Begins (W.contents writer.old) (W.contents writer.new) (self.old.out.items ++ chosen_of self.old.choice.now self.old.goes_on text.now)) }
        ensures same_choice { self.new.choice.now ≡ self.old.choice.now }
        ensures same_goes_on { self.new.goes_on ≡ self.old.goes_on }
        ensures same_begun { self.new.begun.items ≡ self.old.begun.items }
    {
        record.find(self.choice, text)?;
        self.put_chosen(text, record, writer)
    }

    /// Takes the end of the record that has begun, without its line feed.
    fn take_end<W: Write>(&mut self, end: &[u8], writer: &mut W) -> io::Result<()>
        ensures moved { OnOk result (Moves (W.contents writer.old) (W.contents writer.new) self.old.out.items self.new.out.items (chosen_of self.old.choice.now self.old.goes_on (self.old.begun.items ++ end.now))) }
        ensures told { OnOk result (self.new.told.items ≡ told_of self.old.choice.now self.old.goes_on (self.old.begun.items ++ end.now)) }
        ensures begun { OnOk result (self.new.begun.items ≡ []) }
        ensures first { OnErr result (Begins (W.contents writer.old) (W.contents writer.new) (self.old.out.items ++ chosen_of self.old.choice.now self.old.goes_on (self.old.begun.items ++ end.now))) }
        ensures same_choice { self.new.choice.now ≡ self.old.choice.now }
        ensures same_goes_on { self.new.goes_on ≡ self.old.goes_on }
    {
        self.begun.extend_from_slice(end)?;
        let alloc = *self.begun.allocator();
        let text = std::mem::replace(&mut self.begun, Vec::new(alloc));
        let mut record = Record::new(alloc);
        self.take(text.as_slice(), &mut record, writer)
    }

    /// Takes the end of a record, without its line feed. Its beginning may have come.
    fn take_next<'b, W: Write>(
        &mut self,
        end: &'b [u8],
        record: &mut Record<'b>,
        writer: &mut W,
    ) -> io::Result<()>
        ensures moved { OnOk result (Moves (W.contents writer.old) (W.contents writer.new) self.old.out.items self.new.out.items (chosen_of self.old.choice.now self.old.goes_on (self.old.begun.items ++ end.now))) }
        ensures told { OnOk result (self.new.told.items ≡ told_of self.old.choice.now self.old.goes_on (self.old.begun.items ++ end.now)) }
        ensures begun { OnOk result (self.new.begun.items ≡ []) }
        ensures first { OnErr result (Begins (W.contents writer.old) (W.contents writer.new) (self.old.out.items ++ chosen_of self.old.choice.now self.old.goes_on (self.old.begun.items ++ end.now))) }
        ensures same_choice { self.new.choice.now ≡ self.old.choice.now }
        ensures same_goes_on { self.new.goes_on ≡ self.old.goes_on }
    {
        if self.begun.is_empty() {
            return self.take(end, record, writer);
        }
        self.take_end(end, writer)
    }

    /// Takes octets of a listing.
    fn take_all<W: Write>(&mut self, buffer: &[u8], writer: &mut W) -> io::Result<()>
        ensures taken { OnOk result (Takes self.old.choice.now self.old.goes_on buffer.now (W.contents writer.old) (W.contents writer.new) self.old.out.items self.new.out.items self.old.begun.items self.new.begun.items self.old.told.items self.new.told.items) }
        ensures none { OnOk result (self.new.out.items ≡ []) }
        ensures first { OnErr result (Begins (W.contents writer.old) (W.contents writer.new) (self.old.out.items ++ chosen_after self.old.choice.now self.old.goes_on self.old.begun.items buffer.now)) }
        ensures same_choice { self.new.choice.now ≡ self.old.choice.now }
        ensures same_goes_on { self.new.goes_on ≡ self.old.goes_on }
    {
        let mut record = Record::new(*self.begun.allocator());
        let mut rest = buffer;
        'records: while let Some((end, others)) = split_line(rest) {
            self.take_next(end, &mut record, writer)?;
            rest = others;
        }
        self.begun.extend_from_slice(rest)?;
        write_out(writer, &mut self.out)
    }

    /// Takes octets of a listing, unless a write has failed. Returns why one has.
    fn take_unless<W: Write>(
        &mut self,
        fault: Option<io::Error>,
        buffer: &[u8],
        writer: &mut W,
    ) -> Option<io::Error>
        ensures follows { (before : Option (List ℕ)) (given : List ℕ) → Follows fault self.old.choice.now self.old.goes_on before (W.contents writer.old) given self.old.out.items self.old.begun.items self.old.told.items → Follows result self.old.choice.now self.old.goes_on before (W.contents writer.new) (given ++ buffer.now) self.new.out.items self.new.begun.items self.new.told.items }
        ensures same_choice { self.new.choice.now ≡ self.old.choice.now }
        ensures same_goes_on { self.new.goes_on ≡ self.old.goes_on }
    {
        if fault.is_some() {
            return fault;
        }
        match self.take_all(buffer, writer) {
            Ok(()) => None,
            Err(error) => Some(error),
        }
    }
}

/// A writer that takes a listing for a choice, in any pieces, and writes what is chosen of it to another
/// writer: each record that is kept once its end has come, and its rows as they are made. If a write
/// fails, each flush from then on returns its error.
#[derive(Drop)]
pub struct Choosing<'a, W: Write> {
    writer: &'a mut W,
    chooser: Chooser<'a>,
    fault: Option<io::Error>,
    before: Before<W>,
    given: Given,
    pub ghost follows: { Follows fault chooser.choice.now chooser.goes_on (W.contents before.value) (W.contents writer.now) given.octets chooser.out.items chooser.begun.items chooser.told.items } by { Follows-prop fault chooser.choice.now chooser.goes_on (W.contents before.value) (W.contents writer.now) given.octets chooser.out.items chooser.begun.items chooser.told.items },
}

impl<'a, W: Write> Choosing<'a, W> {
    /// Returns a writer to which nothing was given yet. It is told whether the listing goes on after
    /// each refusal, so that none ends it.
    pub fn new(
        alloc: Global,
        choice: &'a Choice,
        goes_on: bool,
        writer: &'a mut W,
    ) -> Choosing<'a, W>
        ensures same_writer { result.writer.ghost_name ≡ writer.entry.ghost_name }
        ensures same_choice { result.chooser.choice.now ≡ choice.now }
        ensures same_goes_on { result.chooser.goes_on ≡ goes_on }
        ensures before { W.contents result.before.value ≡ W.contents writer.old }
        ensures none { result.given.octets ≡ [] }
    {
        let before = Before::of(writer);
        Choosing {
            writer,
            chooser: Chooser::new(alloc, choice, goes_on),
            fault: None,
            before,
            given: Given::none(),
        }
    }

    /// Returns the line that tells of the record that was given last, if that may be the last one and was
    /// not kept.
    pub fn told(&self) -> &[u8]
        ensures { self.now.fault ≡ None → result.now ≡ told_listing self.now.chooser.choice.now self.now.chooser.goes_on self.now.given.octets }
    {
        self.chooser.told.as_slice()
    }

    /// Returns the error of a write that has failed. If there is none, what is chosen of the listing is
    /// written, and else a first part of that.
    pub fn fault(&self) -> Option<io::Error>
        ensures value { result ≡ self.now.fault }
        ensures chosen { result ≡ None → Appends (W.contents self.now.before.value) (W.contents self.now.writer.now) (chosen_listing self.now.chooser.choice.now self.now.chooser.goes_on self.now.given.octets) }
        ensures first { AppendsFirst (W.contents self.now.before.value) (W.contents self.now.writer.now) (chosen_listing self.now.chooser.choice.now self.now.chooser.goes_on self.now.given.octets) }
    {
        self.fault
    }

    /// Gives the other writer back.
    pub fn finish(self) -> &'a mut W
        ensures same_writer { result.ghost_name ≡ self.entry.writer.ghost_name }
        ensures same { result.now ≡ self.entry.writer.now }
    {
        let Choosing { writer, .. } = self;
        writer
    }
}

impl<'a, W: Write> Write for Choosing<'a, W> {
    // What was given, after numbers that tell whose writer it is, what that had, and what is chosen.
    ghost contents = { λ c. Some (key c.writer.ghost_name (W.contents c.before.value) c.chooser.choice.now c.chooser.goes_on ++ c.given.octets) };

    fn write(&mut self, buffer: &[u8]) -> io::Result<usize> {
        self.fault = self.chooser.take_unless(self.fault, buffer, self.writer);
        self.given = self.given.and(&Octets { octets: buffer });
        Ok(buffer.len())
    }

    fn flush(&mut self) -> io::Result<()> {
        match self.fault {
            None => self.writer.flush(),
            Some(error) => Err(error),
        }
    }
}
