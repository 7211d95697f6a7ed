//! What columns show of a record.

ghost use Rattle.std.specs.Prelude.{◌≡◌, ◌||◌, ◌++◌, IfOk, OnOk, Some, map};
ghost use Rattle.std.specs.List.{filter, list_any, slice_get};
ghost use Rattle.krb_choice.specs.Choices.{inside_cell, is_of, kind_alone, part_cell, repeated};
ghost use Rattle.krb_choice.specs.Columns.{cell_found, count_found, found, has_found, kinds_found, or_none, row_found};
ghost use Rattle.krb_choice.specs.Marked.{after_kind, is_marked, part_fields, parts_read, read_pieces};
ghost use Rattle.krb_choice.specs.Read.{all_in, found_in};
ghost use Rattle.krb_choice.specs.Shown.{shows_of};

use crate::column::{Column, Shows};
use crate::mark::{INSIDE, KIND, Piece};
use crate::pieces::{after_kind, has_mark, kind_alone, kind_of, own_cell, part_cell};
use std::alloc::{AllocError, Global};

/// What a column shows of a record.
#[derive(Drop)]
pub enum Found<'a> {
    /// A cell of the record itself, if it has it.
    Own(Option<&'a [u8]>),
    /// The kinds of what is inside.
    Kinds(Vec<u8>),
    /// A cell of each that is inside of a kind.
    Within(Vec<&'a [u8]>),
}

/// The greatest number of octets of a cell that is repeated.
const LONG: usize = 256;

/// Returns a cell that is the same in each row: in later ones it is `..` if it is long, so that all rows
/// together are not much longer than the record.
fn repeated(row: usize, cell: &[u8]) -> &[u8]
    ensures { result.now ≡ repeated row cell.now }
{
    if 0 < row && LONG < cell.len() {
        b".."
    } else {
        cell
    }
}

/// Returns the cell of an index, or `-` if there are not so many.
fn cell_at<'a>(cells: &[&'a [u8]], index: usize) -> &'a [u8]
    ensures { result.now ≡ or_none (slice_get (map (λ cell. cell.now) cells.now) index) }
{
    if index < cells.len() {
        cells[index]
    } else {
        b"-"
    }
}

impl<'a> Found<'a> {
    /// Returns whether the record has it.
    pub(crate) fn is_there(&self) -> bool
        ensures { result ≡ has_found (found_in self.now) }
    {
        match self {
            Found::Own(cell) => cell.is_some(),
            Found::Kinds(_) => true,
            Found::Within(cells) => !cells.is_empty(),
        }
    }

    /// Returns how many rows it has, or 0 if it is the same in each.
    pub(crate) fn count(&self) -> usize
        ensures { result ≡ count_found (found_in self.now) }
    {
        match self {
            Found::Own(_) | Found::Kinds(_) => 0,
            Found::Within(cells) => cells.len(),
        }
    }

    /// Returns its cell in a row.
    fn cell(&self, row: usize) -> &[u8]
        ensures { result.now ≡ cell_found row (found_in self.now) }
    {
        match self {
            Found::Own(None) => b"-",
            Found::Own(Some(cell)) => repeated(row, cell),
            Found::Kinds(kinds) => {
                let kinds = kinds.as_slice();
                repeated(row, kinds)
            }
            Found::Within(cells) => cell_at(cells.as_slice(), row),
        }
    }
}

/// Returns the kinds of what is inside, with commas between, of the pieces after the kind of a record.
fn kinds_inside(alloc: Global, pieces: &[Piece<'_>]) -> Result<Vec<u8>, AllocError>
    ensures { IfOk result (λ text. text.items ≡ inside_cell (Some (parts_read pieces.now))) }
{
    let mut text = Vec::new(alloc);
    let mut is_any = false;
    for piece in pieces {
        if piece.mark == KIND {
            if is_any {
                text.extend_from_slice(b",")?;
            }
            text.extend_from_slice(kind_alone(piece.text))?;
            is_any = true;
        }
    }
    if !is_any {
        text.extend_from_slice(b"[]")?;
    }
    Ok(text)
}

/// Returns what a column shows of what is inside, of the text and the pieces after the mark of its kind.
fn cell_inside<'a>(kind: &'a [u8], pieces: &[Piece<'a>], shows: Shows) -> &'a [u8]
    ensures { result.now ≡ part_cell (shows_of shows) (Some (record { kind = kind_alone kind.now; fields = part_fields pieces.now })) }
{
    match shows {
        Shows::Kind => kind_alone(kind),
        Shows::Inside => b"-",
        Shows::Field(name, path) => part_cell(pieces, name.as_bytes(), path),
    }
}

/// Returns the cells of what is inside of a kind, of the pieces after the kind of a record.
fn cells_within<'a>(
    alloc: Global,
    pieces: &[Piece<'a>],
    kind: &[u8],
    shows: Shows,
) -> Result<Vec<&'a [u8]>, AllocError>
    ensures { IfOk result (λ cells. map (λ cell. cell.now) cells.items ≡ map (λ part. part_cell (shows_of shows) (Some part)) (filter (is_of kind.now) (parts_read pieces.now))) }
{
    let mut cells: Vec<&'a [u8]> = Vec::new(alloc);
    let mut index = 0;
    'pieces: while index < pieces.len() {
        let piece = &pieces[index];
        index += 1;
        if piece.mark == KIND && kind_alone(piece.text) == kind {
            let cell = cell_inside(piece.text, &pieces[index..], shows);
            cells.push(cell)?;
        }
    }
    Ok(cells)
}

/// Returns whether something may be inside of a record of some pieces.
fn has_inside(pieces: &[Piece<'_>]) -> bool
    ensures { result ≡ list_any (is_marked 4) pieces.now || list_any (is_marked 1) (after_kind pieces.now) }
{
    has_mark(pieces, INSIDE) || has_mark(after_kind(pieces), KIND)
}

/// Returns the kinds of what is inside of a record of some pieces, if something may be.
fn found_inside<'a>(alloc: Global, pieces: &[Piece<'a>]) -> Result<Found<'a>, AllocError>
    ensures { IfOk result (λ of. found_in of ≡ kinds_found (read_pieces pieces.now).inside) }
{
    if !has_inside(pieces) {
        return Ok(Found::Own(None));
    }
    Ok(Found::Kinds(kinds_inside(alloc, after_kind(pieces))?))
}

/// Returns what a column shows of a record of some pieces.
pub(crate) fn found_by<'a>(
    alloc: Global,
    pieces: &[Piece<'a>],
    column: &Column,
) -> Result<Found<'a>, AllocError>
    ensures { IfOk result (λ of. found_in of ≡ found (read_pieces pieces.now) column.now) }
{
    match (column.within, column.shows) {
        (None, Shows::Field(name, path)) => Ok(Found::Own(own_cell(pieces, name.as_bytes(), path))),
        (None, Shows::Kind) => Ok(Found::Own(Some(kind_of(pieces)))),
        (None, Shows::Inside) => found_inside(alloc, pieces),
        (Some(kind), shows) => Ok(Found::Within(cells_within(
            alloc,
            after_kind(pieces),
            kind.as_bytes(),
            shows,
        )?)),
    }
}

/// Appends a row of what was found, and a line feed.
pub(crate) fn put_row(found: &[Found<'_>], row: usize, out: &mut Vec<u8>) -> Result<(), AllocError>
    ensures { OnOk result (out.new.items ≡ out.old.items ++ row_found row (all_in found.now)) }
{
    let mut index = 0;
    'columns: while index < found.len() {
        if 0 < index {
            out.extend_from_slice(b"\t")?;
        }
        let cell = found[index].cell(row);
        out.extend_from_slice(cell)?;
        index += 1;
    }
    out.extend_from_slice(b"\n")
}
