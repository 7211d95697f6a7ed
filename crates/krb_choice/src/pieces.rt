//! What the pieces of a marked record say.

ghost use Rattle.std.specs.Prelude.{◌≡◌, false};
ghost use Rattle.std.specs.List.{list_any};
ghost use Rattle.std.specs.Option.{option_copied};
ghost use Rattle.krb_choice.specs.Choices.{cell_of, is_called, is_there, kind_alone};
ghost use Rattle.krb_choice.specs.Columns.{field_found};
ghost use Rattle.krb_choice.specs.Marked.{after_kind, aside_of, first_cells, is_marked, kind_read, own_fields, part_fields, text_of_cells, without_first};

use crate::mark::{ASIDE, CELL, FIELD, INSIDE, KIND, OUTSIDE, Piece};
use krb_record::Path;

/// Returns a kind without what follows a blank.
pub(crate) fn kind_alone(kind: &[u8]) -> &[u8]
    ensures { result.now ≡ kind_alone kind.now }
{
    let mut end = 0;
    'octets: while end < kind.len() && kind[end] != b' ' {
        end += 1;
    }
    &kind[..end]
}

/// Returns the kind of a record.
pub(crate) fn kind_of<'a>(pieces: &[Piece<'a>]) -> &'a [u8]
    ensures { result.now ≡ kind_read pieces.now }
{
    for piece in pieces {
        if piece.mark == KIND {
            return kind_alone(piece.text);
        }
    }
    b""
}

/// Returns the pieces after the kind of a record.
pub(crate) fn after_kind<'p, 'a>(pieces: &'p [Piece<'a>]) -> &'p [Piece<'a>]
    ensures { result.now ≡ after_kind pieces.now }
{
    let mut index = 0;
    'pieces: while index < pieces.len() {
        let piece = &pieces[index];
        index += 1;
        if piece.mark == KIND {
            return &pieces[index..];
        }
    }
    &pieces[pieces.len()..]
}

/// Returns the line that tells of a record, if that may be the last one.
pub(crate) fn aside_of<'a>(pieces: &[Piece<'a>]) -> Option<&'a [u8]>
    ensures { option_copied result ≡ aside_of pieces.now }
{
    for piece in pieces {
        if piece.mark == ASIDE {
            return Some(piece.text);
        }
    }
    None
}

/// Returns whether there is a piece of a mark.
pub(crate) fn has_mark(pieces: &[Piece<'_>], mark: u8) -> bool
    ensures { result ≡ list_any (is_marked mark) pieces.now }
{
    for piece in pieces {
        if piece.mark == mark {
            return true;
        }
    }
    false
}

/// Returns the name of a field, of what begins its member: `,"` and the name.
fn name_of(begin: &[u8]) -> &[u8]
    ensures { result.now ≡ without_first (without_first begin.now) }
{
    &begin[begin.len().min(2)..]
}

/// Returns the cell of a path, of those that come first, or `-`.
fn first_cell<'a>(pieces: &[Piece<'a>], path: Path) -> &'a [u8]
    ensures { result.now ≡ text_of_cells (first_cells pieces.now) path }
{
    let letter = path.letter().as_bytes();
    for piece in pieces {
        if piece.mark != CELL {
            return b"-";
        }
        if let Some((first, cell)) = piece.text.split_first() {
            if *first == letter[0] {
                return cell;
            }
        }
    }
    b"-"
}

/// Returns the cell of a field of the record itself, if it has one of the name.
pub(crate) fn own_cell<'a>(pieces: &[Piece<'a>], name: &[u8], path: Path) -> Option<&'a [u8]>
    ensures { option_copied result ≡ field_found name.now path (own_fields false pieces.now) }
{
    let mut is_inside = false;
    let mut index = 0;
    'pieces: while index < pieces.len() {
        let piece = &pieces[index];
        index += 1;
        if is_inside {
            is_inside = piece.mark != OUTSIDE;
        } else if piece.mark == FIELD {
            if name_of(piece.text) == name {
                return Some(first_cell(&pieces[index..], path));
            }
        } else {
            is_inside = piece.mark == INSIDE;
        }
    }
    None
}

/// Returns the cell of a field of what is inside, of the pieces that follow its kind, or `-`.
pub(crate) fn part_cell<'a>(pieces: &[Piece<'a>], name: &[u8], path: Path) -> &'a [u8]
    ensures { result.now ≡ cell_of name.now path (part_fields pieces.now) }
{
    let mut index = 0;
    'pieces: while index < pieces.len() {
        let piece = &pieces[index];
        index += 1;
        if piece.mark == KIND || piece.mark == OUTSIDE {
            return b"-";
        }
        if piece.mark == FIELD && name_of(piece.text) == name {
            return first_cell(&pieces[index..], path);
        }
    }
    b"-"
}
