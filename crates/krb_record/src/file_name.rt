//! Names of files.

ghost use Rattle.std.specs.Prelude.{◌≡◌, ◌++◌, ◌<◌, OnOk, Some, codes, false};
ghost use Rattle.std.specs.Fmt.{digit_glyph};
ghost use Rattle.krb_record.specs.FileNames.{is_plain_in_name, name_octet, name_text};
ghost use Rattle.krb_record.specs.Files.{file_line, file_origin};
ghost use Rattle.krb_record.specs.Forms.{heading};
ghost use Rattle.krb_record.specs.Values.{FileName as IsFileName};

use crate::cell::{put_name_cell, put_no_cell};
use crate::escape::is_plain;
use crate::field::{put_end, put_opening};
use crate::form::Form;
use crate::json::put_octets_string;
use crate::path::Path;
use crate::put_field;
use crate::shown::{Shown, put_begin};
use crate::text_buffer::TextBuffer;
use std::alloc::AllocError;
use std::fmt;

/// Returns whether an octet of a name is not escaped.
fn is_plain_in_name(octet: u8) -> bool
    ensures { result ≡ is_plain_in_name octet }
{
    is_plain(octet) || octet == b'/' || octet == b'@'
}

/// Returns the hexadecimal digit of a number below 16, in lower case.
fn hex_digit(number: u8) -> char
    requires { number < 16 }
    ensures { result ≡ digit_glyph false number }
{
    char::from(if number < 10 {
        b'0' + number
    } else {
        b'a' - 10 + number
    })
}

/// An octet of a name.
#[derive(Clone, Copy)]
struct NameOctet(u8);

impl fmt::Display for NameOctet {
    ghost output = { λ octet. Some (name_octet octet.0) };

    fn fmt<W: fmt::Write>(&self, f: &mut fmt::Formatter<W>) -> fmt::Result {
        if is_plain_in_name(self.0) {
            f.write_char(char::from(self.0))
        } else {
            f.write_str("\\x")?;
            f.write_char(hex_digit(self.0 / 16))?;
            f.write_char(hex_digit(self.0 % 16))
        }
    }
}

/// The name of a file, which is octets. It is shown without a blank and without a control character:
/// octets 21 to 7E but `\` as they are, each other as `\x` and two hexadecimal digits in lower case.
#[derive(Clone, Copy)]
pub struct FileName<'a>(pub &'a [u8]);

impl fmt::Display for FileName<'_> {
    ghost output = { λ name. Some (name_text name.0.now) };

    fn fmt<W: fmt::Write>(&self, f: &mut fmt::Formatter<W>) -> fmt::Result {
        for octet in self.0 {
            write!(f, "{}", NameOctet(*octet))?;
        }
        Ok(())
    }
}

impl<'a> Shown for FileName<'a> {
    ghost shown = { λ name. IsFileName name.0.now };

    #[tactic(auto, unfolding(crate::specs::Forms::value_text))]
    fn put_text(&self, line: &mut TextBuffer, _names: bool) -> Result<(), AllocError> {
        write!(line, "{}", *self)
    }

    #[tactic(auto, unfolding(crate::specs::Forms::members, crate::specs::Forms::json_value, crate::specs::Forms::names_member))]
    fn put_members(&self, object: &mut TextBuffer, begin: &str) -> Result<(), AllocError> {
        put_begin(object, begin)?;
        put_octets_string(object, self.0)
    }

    #[tactic(auto, unfolding(crate::specs::Forms::cell))]
    fn put_cell(&self, text: &mut TextBuffer, path: Path) -> Result<(), AllocError> {
        match path {
            Path::Whole => put_name_cell(text, self.0),
            _ => put_no_cell(text),
        }
    }
}

/// Appends what precedes the fields of that line; a row has the name as that of its file, too.
#[tactic(auto, unfolding(crate::specs::Forms::opening_from))]
fn put_file_opening(text: &mut TextBuffer, form: Form, name: &[u8]) -> Result<(), AllocError>
    ensures { OnOk result (text.new ≡ text.old ++ heading form (file_origin form name.now) (codes "file")) }
{
    match form {
        Form::Rows(_) => {
            put_field!(text, form, first "file": &FileName(name))?;
            put_opening(text, form, "file")
        }
        Form::Lines
        | Form::NamedLines
        | Form::Json
        | Form::KeptLines
        | Form::KeptNamedLines
        | Form::KeptJson => put_opening(text, form, "file"),
    }
}

/// Appends the line that precedes the listing of the file of a name, if several are listed.
#[tactic(auto, unfolding(crate::specs::Forms::record_text))]
pub fn put_file(text: &mut TextBuffer, form: Form, name: &[u8]) -> Result<(), AllocError>
    ensures { OnOk result (text.new ≡ text.old ++ file_line form name.now) }
{
    put_file_opening(text, form, name)?;
    put_field!(text, form, "name": &FileName(name))?;
    put_end(text, form)
}
