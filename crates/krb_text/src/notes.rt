//! The notes of a message.

ghost use Rattle.std.specs.Prelude.{◌≡◌, ◌++◌, ◌∷◌, [], map, pos, codes, OnOk};
ghost use Rattle.std.specs.List.{filter, list_any};
ghost use Rattle.krb_msg.specs.Notes.{notes_have};
ghost use Rattle.krb_text.specs.Messages.{notes};
ghost use Rattle.krb_record.specs.Text.{joined, list_text};
ghost use Rattle.krb_record.specs.Items.{number_item};

use krb_msg::Notes;
use krb_record::{
    NumberForm, Path, Shown, TextBuffer, put_begin, put_names_begin, put_no_cell, put_number_item,
};
use krb_registry::Registry;
use std::alloc::AllocError;

/// Appends the number of a note.
#[inline(always)]
fn put_note(text: &mut TextBuffer, form: NumberForm, number: u8) -> Result<(), AllocError>
    ensures { OnOk result (text.new ≡ text.old ++ number_item form (pos number)) }
{
    put_number_item(text, form, i64::from(number))
}

/// Appends the numbers of the notes, with commas between them.
#[inline(always)]
fn put_numbers(text: &mut TextBuffer, form: NumberForm, notes: &Notes) -> Result<(), AllocError>
    ensures { OnOk result (text.new ≡ text.old ++ joined [] (codes ",") (λ number. number_item form (pos number)) (filter (notes_have notes.now) (1 ∷ 2 ∷ 3 ∷ 4 ∷ []))) }
{
    let mut separator = "";
    for number in [1u8, 2, 3, 4] {
        if notes.has(number) {
            text.push_str(separator)?;
            put_note(text, form, number)?;
            separator = ",";
        }
    }
    Ok(())
}

/// Returns whether a note holds. Mostly none does.
#[inline(always)]
pub(crate) fn has_any(notes: &Notes) -> bool
    ensures { result ≡ list_any (notes_have notes.now) (1 ∷ 2 ∷ 3 ∷ 4 ∷ []) }
{
    notes.has(1) | notes.has(2) | notes.has(3) | notes.has(4)
}

/// Appends the numbers of notes in brackets, by a call, since mostly there are none.
#[inline(never)]
fn put_some(text: &mut TextBuffer, form: NumberForm, notes: &Notes) -> Result<(), AllocError>
    ensures { OnOk result (text.new ≡ text.old ++ codes "[" ++ joined [] (codes ",") (λ number. number_item form (pos number)) (filter (notes_have notes.now) (1 ∷ 2 ∷ 3 ∷ 4 ∷ [])) ++ codes "]") }
{
    text.push_str("[")?;
    put_numbers(text, form, notes)?;
    text.push_str("]")
}

/// Appends the numbers of the notes in brackets, with commas between them.
#[inline(always)]
#[tactic(auto, using(crate::proofs::Items::list_text_map))]
fn put_number_list(text: &mut TextBuffer, form: NumberForm, notes: &Notes) -> Result<(), AllocError>
    ensures { OnOk result (text.new ≡ text.old ++ list_text (number_item form) (map pos (filter (notes_have notes.now) (1 ∷ 2 ∷ 3 ∷ 4 ∷ [])))) }
{
    if has_any(notes) {
        put_some(text, form, notes)
    } else {
        text.push_str("[]")
    }
}

/// Appends the cell of the numbers of the notes, or of their names.
#[tactic(auto, using(crate::proofs::Cells::some_cells, crate::proofs::Cells::no_cells))]
fn put_cell_of(text: &mut TextBuffer, form: NumberForm, notes: &Notes) -> Result<(), AllocError>
    ensures { OnOk result (text.new ≡ text.old ++ joined (codes "[]") (codes ",") (λ number. number_item form (pos number)) (filter (notes_have notes.now) (1 ∷ 2 ∷ 3 ∷ 4 ∷ []))) }
{
    if has_any(notes) {
        put_numbers(text, form, notes)
    } else {
        text.push_str("[]")
    }
}

/// Notes as a record shows them.
#[derive(Clone, Copy)]
pub(crate) struct ShownNotes<'a>(pub(crate) &'a Notes);

/// The numbers of the notes, in brackets, with commas between them.
impl<'a> Shown for ShownNotes<'a> {
    ghost shown = { λ shown. notes shown.0.now };

    #[inline(always)]
    #[tactic(auto, unfolding(krb_record::specs::Forms::value_text))]
    fn put_text(&self, line: &mut TextBuffer, names: bool) -> Result<(), AllocError> {
        if names {
            put_number_list(line, NumberForm::Named(Registry::Notes), self.0)
        } else {
            put_number_list(line, NumberForm::Line, self.0)
        }
    }

    #[inline(always)]
    #[tactic(auto, unfolding(krb_record::specs::Forms::members, krb_record::specs::Forms::json_value, krb_record::specs::Forms::names_member))]
    fn put_members(&self, object: &mut TextBuffer, begin: &str) -> Result<(), AllocError> {
        put_begin(object, begin)?;
        put_number_list(object, NumberForm::Line, self.0)?;
        put_names_begin(object, begin)?;
        put_number_list(object, NumberForm::Name(Registry::Notes), self.0)
    }

    #[tactic(auto, unfolding(krb_record::specs::Forms::cell))]
    fn put_cell(&self, text: &mut TextBuffer, path: Path) -> Result<(), AllocError> {
        match path {
            Path::Whole => put_cell_of(text, NumberForm::Line, self.0),
            Path::Names => put_cell_of(text, NumberForm::NameInCell(Registry::Notes), self.0),
            _ => put_no_cell(text),
        }
    }
}
