//! Marked records.

ghost use Rattle.std.specs.Prelude.{◌≡◌, ◌&&◌, ◌||◌, ◌∷◌, ◌++◌, OnOk, bytes_eq, map, not};
ghost use Rattle.std.specs.List.{list_any};
ghost use Rattle.std.specs.Option.{option_copied};
ghost use Rattle.krb_choice.specs.Choices.{chooses, greatest, is_kept};
ghost use Rattle.krb_choice.specs.Columns.{all_found, count_found, has_found, row_found};
ghost use Rattle.krb_choice.specs.Marked.{aside_of, parts_read, read_pieces};
ghost use Rattle.krb_choice.specs.Read.{Finds, HasFound, all_in, found_in};

use crate::choice::{Choice, any_chooses, is_one_of};
use crate::column::Column;
use crate::found::{Found, found_by, put_row};
use crate::mark::{KIND, Piece, put_pieces};
use crate::pieces::{after_kind, aside_of, kind_alone, kind_of};
use std::alloc::{AllocError, Global};

/// A marked record, and what columns show of it.
#[derive(Drop)]
pub struct Record<'a> {
    /// Its pieces.
    pub pieces: Vec<Piece<'a>>,
    /// What each column shows of it.
    pub found: Vec<Found<'a>>,
}

/// Returns whether something inside is of one of some kinds, of the pieces after the kind of a record.
fn has_kind(pieces: &[Piece<'_>], kinds: &[&'static str]) -> bool
    ensures { result ≡ list_any (λ part. list_any (bytes_eq part.kind) (map (λ one. one.now) kinds.now)) (parts_read pieces.now) }
{
    for piece in pieces {
        if piece.mark == KIND && is_one_of(kind_alone(piece.text), kinds) {
            return true;
        }
    }
    false
}

/// Returns whether what a column shows is there, if it chooses.
fn is_met(column: &Column, found: &Found<'_>) -> bool
    ensures { result ≡ not (chooses column.now) || has_found (found_in found.now) }
{
    !column.chooses() || found.is_there()
}

/// Returns whether all is there that chooses.
fn has_all(columns: &[Column], found: &[Found<'_>]) -> bool
    ensures { result ≡ all_found columns.now (all_in found.now) }
{
    let mut index = 0;
    'columns: while index < columns.len() && index < found.len() {
        if !is_met(&columns[index], &found[index]) {
            return false;
        }
        index += 1;
    }
    true
}

/// Returns whether a record, which may be the last one, has the columns that choose.
fn has_columns(columns: &[Column], found: &[Found<'_>], is_last: bool) -> bool
    ensures { result ≡ all_found columns.now (all_in found.now) && (list_any chooses columns.now || not is_last) }
{
    if is_last && !any_chooses(columns) {
        return false;
    }
    has_all(columns, found)
}

impl<'a> Record<'a> {
    /// Returns a record of which nothing is known yet.
    pub fn new(alloc: Global) -> Record<'a> {
        Record {
            pieces: Vec::new(alloc),
            found: Vec::new(alloc),
        }
    }

    /// Finds what a record has, and what columns show of it.
    pub fn find(&mut self, choice: &Choice, text: &'a [u8]) -> Result<(), AllocError>
        ensures { OnOk result (Finds choice.now text.now self.new) }
    {
        let alloc = *self.found.allocator();
        let columns = choice.columns();
        self.pieces.clear();
        put_pieces(text, &mut self.pieces)?;
        self.found.clear();
        for column in columns {
            let found = found_by(alloc, self.pieces.as_slice(), column)?;
            self.found.push(found)?;
        }
        Ok(())
    }

    /// Returns whether the record is kept, which may be the last one.
    pub fn is_kept(&self, choice: &Choice, is_last: bool) -> bool
        requires { HasFound choice.now self.now }
        ensures { result ≡ is_kept choice.now is_last (read_pieces self.now.pieces.items) }
    {
        let pieces = self.pieces.as_slice();
        let kinds = choice.kinds.as_slice();
        let columns = choice.columns();
        let is_of_kind = is_one_of(kind_of(pieces), kinds);
        if choice.by_kind {
            return is_of_kind || has_kind(after_kind(pieces), kinds);
        }
        if !is_of_kind {
            return false;
        }
        has_columns(columns, self.found.as_slice(), is_last)
    }

    /// Returns whether the record is of a kind.
    pub fn is_of(&self, kind: &[u8]) -> bool
        ensures { result ≡ bytes_eq (read_pieces self.now.pieces.items).kind kind.now }
    {
        kind_of(self.pieces.as_slice()) == kind
    }

    /// Returns the line that tells of the record, if it may be the last one.
    pub fn aside(&self) -> Option<&'a [u8]>
        ensures { option_copied result ≡ aside_of self.now.pieces.items }
    {
        aside_of(self.pieces.as_slice())
    }

    /// Returns how many rows it has.
    pub fn count_rows(&self) -> usize
        ensures { result ≡ greatest (1 ∷ map count_found (all_in self.now.found.items)) }
    {
        let mut count = 1;
        for found in self.found.as_slice() {
            count = count.max(found.count());
        }
        count
    }

    /// Appends a row.
    pub fn put_row(&self, row: usize, out: &mut Vec<u8>) -> Result<(), AllocError>
        ensures { OnOk result (out.new.items ≡ out.old.items ++ row_found row (all_in self.now.found.items)) }
    {
        put_row(self.found.as_slice(), row, out)
    }
}
