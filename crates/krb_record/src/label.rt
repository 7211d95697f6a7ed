//! Labels of records: the name of their file, which tells them from those of other files.

ghost use Rattle.std.specs.Prelude.{◌≡◌, ◌++◌, IfOk, None, OnOk, Some};
ghost use Rattle.krb_record.specs.Labels.{AddsMembers, EndsRecord, begin_text, label_text};

use crate::file_name::FileName;
use crate::form::{Base, Form};
use crate::put_field;
use crate::text_buffer::TextBuffer;
use std::alloc::{AllocError, Global};
use std::marker::Model;

/// The name of a file, and what each of its records has of it.
#[derive(Drop)]
struct Named {
    file: Vec<u8>,
    /// `file=NAME` and a blank, which begin a line, or `,"file":NAME`, which ends an object.
    text: String,
}

/// In which form records are written, and the name of their file, if each of them has it.
#[derive(Drop)]
pub struct Label {
    form: Form,
    named: Option<Named>,
}

impl Model for Label {
    ghost use Rattle.std.specs.Prelude.{◌≡◌, IfSome, string_bytes};
    ghost use Rattle.std.specs.Option.{option_map};
    ghost use Rattle.krb_record.specs.Labels.{Label, label_text};

    ghost Value = { Label };

    ghost view = { λ label. record { form = label.form; file = option_map (λ named. named.file.items) label.named } };

    ghost invariant = { λ label. IfSome label.named (λ named. string_bytes named.text ≡ label_text label.form named.file.items) };
}

/// Returns the text of the label of the records of a file.
#[tactic(auto, unfolding(crate::specs::Labels::label_text))]
fn label_text(alloc: Global, form: Form, file: &[u8]) -> Result<TextBuffer, AllocError>
    ensures { IfOk result (λ text. text ≡ label_text form file.now) }
{
    let mut text = TextBuffer::new(alloc);
    put_field!(&mut text, form, first "file": &FileName(file))?;
    match form.base() {
        Some(Base::Lines | Base::NamedLines) => text.push_str(" ")?,
        Some(Base::Json) | None => {}
    }
    Ok(text)
}

/// The number of octets that end an object: `}` and a line feed.
const CLOSING_OCTETS: usize = 2;

/// Inserts members at the end of the object that ends a text, with its line feed.
#[inline(never)]
fn insert_members(text: &mut TextBuffer, members: &str) -> Result<(), AllocError>
    ensures { OnOk result (AddsMembers members.now text.old text.new) }
{
    let size = text.size();
    match text.octets().strip_suffix(b"}\n") {
        None => Ok(()),
        Some(_) => text.insert(size - CLOSING_OCTETS, members),
    }
}

impl Label {
    /// Returns that records do not name their file.
    pub fn none(form: Form) -> Label
        ensures { result ≡ record { form = form; file = None } }
    {
        Label { form, named: None }
    }

    /// Returns that each record names its file.
    pub fn of_file(alloc: Global, form: Form, file: &[u8]) -> Result<Label, AllocError>
        ensures { IfOk result (λ label. label ≡ record { form = form; file = Some file.now }) }
    {
        let text = label_text(alloc, form, file)?.into_string();
        let file = Vec::from_slice(alloc, file)?;
        let named = Some(Named { file, text });
        Ok(Label { form, named })
    }

    /// Returns the form of the records.
    #[inline(always)]
    pub fn form(&self) -> Form
        ensures { result ≡ self.now.form }
    {
        self.form
    }

    /// Appends what a line has before its record.
    #[inline(always)]
    pub fn begin(&self, text: &mut TextBuffer) -> Result<(), AllocError>
        ensures { OnOk result (text.new ≡ text.old ++ begin_text self.now) }
    {
        match &self.named {
            None => Ok(()),
            Some(named) => match self.form.base() {
                Some(Base::Lines | Base::NamedLines) | None => text.push_str(named.text.as_str()),
                Some(Base::Json) => Ok(()),
            },
        }
    }

    /// Ends the record that ends a text and was begun so: an object gets the name of its file as its
    /// last member.
    #[inline(always)]
    pub fn end(&self, text: &mut TextBuffer) -> Result<(), AllocError>
        ensures { OnOk result (EndsRecord self.now text.old text.new) }
    {
        match &self.named {
            None => Ok(()),
            Some(named) => match self.form {
                Form::Lines => Ok(()),
                Form::NamedLines => Ok(()),
                Form::KeptLines => Ok(()),
                Form::KeptNamedLines => Ok(()),
                Form::Rows(_) => Ok(()),
                Form::Json => insert_members(text, named.text.as_str()),
                Form::KeptJson => insert_members(text, named.text.as_str()),
            },
        }
    }
}
