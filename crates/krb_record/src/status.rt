//! Statuses of Windows.

ghost use Rattle.std.specs.Prelude.{◌≡◌, ◌++◌, OnOk, pos, true};
ghost use Rattle.krb_registry.specs.Rows.{name_of};
ghost use Rattle.krb_registry.specs.declared.registry.Registry.TheVariants.{Statuses};
ghost use Rattle.krb_record.specs.Forms.{four_octets, status_text};
ghost use Rattle.krb_record.specs.Text.{hex, or_dash};
ghost use Rattle.krb_record.specs.Values.{Status as IsStatus};

use crate::cell::put_no_cell;
use crate::escape::put_hex;
use crate::item::put_name_member;
use crate::path::Path;
use crate::shown::{Shown, put_begin};
use crate::text_buffer::TextBuffer;
use krb_registry::{Registry, name_of};
use std::alloc::AllocError;

/// A status of Windows (MS-ERREF, 2.3.1): eight hexadecimal digits, and with names its name.
#[derive(Clone, Copy)]
pub struct Status(pub u32);

/// Appends a number of 32 bits in eight hexadecimal digits.
fn put_digits(text: &mut TextBuffer, number: u32) -> Result<(), AllocError>
    ensures { OnOk result (text.new ≡ text.old ++ hex (four_octets number)) }
{
    put_hex(text, &number.to_be_bytes())
}

/// Appends the name of a status, or `-` if it has none.
fn put_name(line: &mut TextBuffer, number: u32) -> Result<(), AllocError>
    ensures { OnOk result (line.new ≡ line.old ++ or_dash (λ name. name) (name_of Statuses (pos number))) }
{
    match name_of(Registry::Statuses, i64::from(number)) {
        None => line.push_str("-"),
        Some(name) => line.push_str(name),
    }
}

/// Appends a status, `:` and its name, or `-` if it has none.
fn put_with_name(line: &mut TextBuffer, number: u32) -> Result<(), AllocError>
    ensures { OnOk result (line.new ≡ line.old ++ status_text true number) }
{
    put_digits(line, number)?;
    line.push_str(":")?;
    put_name(line, number)
}

impl Shown for Status {
    ghost shown = { λ status. IsStatus status.0 };

    #[tactic(auto, unfolding(crate::specs::Forms::value_text))]
    fn put_text(&self, line: &mut TextBuffer, names: bool) -> Result<(), AllocError> {
        if names {
            put_with_name(line, self.0)
        } else {
            put_digits(line, self.0)
        }
    }

    #[tactic(auto, unfolding(crate::specs::Forms::members, crate::specs::Forms::json_value, crate::specs::Forms::names_member))]
    fn put_members(&self, object: &mut TextBuffer, begin: &str) -> Result<(), AllocError> {
        put_begin(object, begin)?;
        object.push_str("\"")?;
        put_digits(object, self.0)?;
        object.push_str("\"")?;
        put_name_member(object, begin, Registry::Statuses, i64::from(self.0))
    }

    #[tactic(auto, unfolding(crate::specs::Forms::cell))]
    fn put_cell(&self, text: &mut TextBuffer, path: Path) -> Result<(), AllocError> {
        match path {
            Path::Whole => put_digits(text, self.0),
            Path::Name => put_name(text, self.0),
            _ => put_no_cell(text),
        }
    }
}
