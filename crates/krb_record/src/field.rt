//! Fields of records, by the form.

ghost use Rattle.std.specs.Prelude.{◌≡◌, ◌++◌, OnOk};
ghost use Rattle.krb_record.specs.Forms.{cells, cells_from, closing, form_of, kind_mark, labelled, opening};
ghost use Rattle.krb_record.specs.Text.{line_feed};

use crate::form::{Base, Form, Wanted};
use crate::path::{PATHS, Path};
use crate::shown::Shown;
use crate::text_buffer::TextBuffer;
use std::alloc::AllocError;

/// Appends a field of a name, which is a literal: in a line ` NAME=` and the text of the value, in an
/// object `,"NAME":` and what follows it. The first field of a line has no blank before it.
#[macro_export]
macro_rules! put_field {
    ($text:expr, $form:expr, first $name:literal: $value:expr) => {
        $crate::put_field(
            $text,
            $form,
            concat!($name, "="),
            concat!(",\"", $name),
            $value,
        )
    };
    ($text:expr, $form:expr, $name:literal: $value:expr) => {
        $crate::put_field(
            $text,
            $form,
            concat!(" ", $name, "="),
            concat!(",\"", $name),
            $value,
        )
    };
}

/// Appends each cell of a value that is wanted, after what says which it is. `wanted` has a bit for each of
/// the paths, the lowest for the first.
fn put_cells_of<T: Shown>(
    text: &mut TextBuffer,
    wanted: u64,
    paths: &'static [Path],
    value: &T,
) -> Result<(), AllocError>
    ensures { OnOk result (text.new ≡ text.old ++ cells_from wanted paths.now (T.shown value.now)) }
{
    let mut others = paths;
    let mut bits = wanted;
    'paths: while let Some((path, rest)) = others.split_first() {
        if bits == 0 {
            return Ok(());
        }
        if bits % 2 == 1 {
            text.push_pair("\x03", path.letter())?;
            value.put_cell(text, *path)?;
        }
        bits = bits / 2;
        others = rest;
    }
    Ok(())
}

/// Appends the cells of a field that may be wanted.
#[inline(never)]
#[tactic(auto, unfolding(crate::specs::Forms::cells))]
fn put_cells<T: Shown>(
    text: &mut TextBuffer,
    wanted: Wanted,
    begin: &str,
    value: &T,
) -> Result<(), AllocError>
    ensures { OnOk result (text.new ≡ text.old ++ cells wanted begin.now (T.shown value.now)) }
{
    if !wanted.has_name(begin) {
        return Ok(());
    }
    text.push_pair("\x02", begin)?;
    put_cells_of(text, wanted.paths(), &PATHS, value)
}

/// Appends a field of a record that may be kept.
#[inline(never)]
#[tactic(auto, unfolding(crate::specs::Forms::labelled))]
fn put_kept<T: Shown>(
    text: &mut TextBuffer,
    base: Base,
    label: &str,
    begin: &str,
    value: &T,
) -> Result<(), AllocError>
    ensures { OnOk result (text.new ≡ text.old ++ labelled (form_of base) label.now begin.now (T.shown value.now)) }
{
    match base {
        Base::Json => value.put_members(text, begin),
        Base::Lines => {
            text.push_str(label)?;
            value.put_text(text, false)
        }
        Base::NamedLines => {
            text.push_str(label)?;
            value.put_text(text, true)
        }
    }
}

/// Appends a field in any form, by one call where lines are compiled in place.
#[inline(never)]
#[tactic(auto, unfolding(crate::specs::Forms::labelled))]
fn put_other_field<T: Shown>(
    text: &mut TextBuffer,
    form: Form,
    label: &str,
    begin: &str,
    value: &T,
) -> Result<(), AllocError>
    ensures { OnOk result (text.new ≡ text.old ++ labelled form label.now begin.now (T.shown value.now)) }
{
    match form {
        Form::Rows(wanted) => put_cells(text, wanted, begin, value),
        Form::Json | Form::KeptJson => value.put_members(text, begin),
        Form::Lines | Form::KeptLines => put_kept(text, Base::Lines, label, begin, value),
        Form::NamedLines | Form::KeptNamedLines => {
            put_kept(text, Base::NamedLines, label, begin, value)
        }
    }
}

/// Appends a field: in a line the label, ` NAME=`, and the text of the value; in an object the
/// members that `begin`, which is `,"NAME`, begins; in rows its cells.
#[inline(always)]
#[tactic(auto, unfolding(crate::specs::Forms::labelled))]
pub fn put_field<T: Shown>(
    text: &mut TextBuffer,
    form: Form,
    label: &str,
    begin: &str,
    value: &T,
) -> Result<(), AllocError>
    ensures { OnOk result (text.new ≡ text.old ++ labelled form label.now begin.now (T.shown value.now)) }
{
    if let Some(names) = form.names() {
        text.push_str(label)?;
        return value.put_text(text, names);
    }
    put_other_field(text, form, label, begin, value)
}

/// Appends a kind between marks.
fn put_kind(text: &mut TextBuffer, kind: &str) -> Result<(), AllocError>
    ensures { OnOk result (text.new ≡ text.old ++ kind_mark kind.now) }
{
    text.push_three("\x01", kind, "\x06")
}

/// Appends what precedes the fields of a record that no line has.
#[inline(never)]
#[tactic(auto, unfolding(crate::specs::Forms::opening))]
fn put_other_opening(text: &mut TextBuffer, form: Form, kind: &str) -> Result<(), AllocError>
    ensures { OnOk result (text.new ≡ text.old ++ opening form kind.now) }
{
    match form {
        Form::Lines | Form::NamedLines => text.push_str(kind),
        Form::Json => text.push_three("{\"kind\":\"", kind, "\""),
        Form::KeptLines | Form::KeptNamedLines => {
            put_kind(text, kind)?;
            text.push_str(kind)
        }
        Form::KeptJson => {
            put_kind(text, kind)?;
            text.push_three("{\"kind\":\"", kind, "\"")
        }
        Form::Rows(_) => put_kind(text, kind),
    }
}

/// Appends what precedes the fields of a record.
#[inline(always)]
#[tactic(auto, unfolding(crate::specs::Forms::opening))]
pub fn put_opening(text: &mut TextBuffer, form: Form, kind: &str) -> Result<(), AllocError>
    ensures { OnOk result (text.new ≡ text.old ++ opening form kind.now) }
{
    match form {
        Form::Lines | Form::NamedLines => text.push_str(kind),
        _ => put_other_opening(text, form, kind),
    }
}

/// Appends what follows the fields of a record.
#[inline(always)]
#[tactic(auto, unfolding(crate::specs::Forms::closing))]
pub fn put_closing(text: &mut TextBuffer, form: Form) -> Result<(), AllocError>
    ensures { OnOk result (text.new ≡ text.old ++ closing form) }
{
    match form {
        Form::Lines | Form::NamedLines => Ok(()),
        Form::Json | Form::KeptJson => text.push_str("}"),
        Form::KeptLines | Form::KeptNamedLines | Form::Rows(_) => Ok(()),
    }
}

/// Appends what follows the fields of a record, and a line feed.
#[inline(always)]
pub fn put_end(text: &mut TextBuffer, form: Form) -> Result<(), AllocError>
    ensures { OnOk result (text.new ≡ text.old ++ closing form ++ line_feed) }
{
    put_closing(text, form)?;
    text.push_str("\n")
}
