//! Numbers of registries and octets, as lists have them.

ghost use Rattle.std.specs.Prelude.{◌≡◌, ◌++◌, List, OnOk, codes, true, ℕ};
ghost use Rattle.krb_registry.specs.Rows.{name_of};
ghost use Rattle.krb_record.specs.Forms.{name_string, number_text, octets_string};
ghost use Rattle.krb_record.specs.Text.{escape};
ghost use Rattle.krb_record.specs.declared.json.Escape.TheVariants as escapes;
ghost use Rattle.krb_record.specs.Items.{number_item};
ghost use Rattle.krb_record.specs.inner.Strings.{quoted};

use crate::cell::put_number_name;
use crate::escape::put_escaped;
use crate::json::{Escape, put_octets_string, put_plain_string, put_quoted};
use crate::text_buffer::TextBuffer;
use krb_registry::{Registry, name_of};
use std::alloc::AllocError;

/// How a number of a registry is written.
#[derive(Clone, Copy)]
pub enum NumberForm {
    /// As it is, in decimal.
    Line,
    /// As in a line with names: the number, `:` and its name, or `-` if it has none.
    Named(Registry),
    /// As in an object: its name, or null if it has none.
    Name(Registry),
    /// As in a cell: its name, or `-` if it has none.
    NameInCell(Registry),
}

/// How octets are written.
pub(crate) trait OctetsForm {
    /// Their text.
    ghost text: { List ℕ → List ℕ };

    /// Appends octets.
    fn put(out: &mut TextBuffer, octets: &[u8]) -> Result<(), AllocError>
        ensures { OnOk result (out.new ≡ out.old ++ text octets.now) };
}

/// Octets as in a line, escaped.
pub(crate) struct InLine;

impl OctetsForm for InLine {
    ghost text = { escape };

    #[inline(always)]
    fn put(out: &mut TextBuffer, octets: &[u8]) -> Result<(), AllocError> {
        put_escaped(out, octets)
    }
}

/// Octets as a part of a string of an object, escaped as in a line.
pub(crate) struct InString;

impl OctetsForm for InString {
    ghost text = { quoted escapes.Line };

    #[inline(always)]
    fn put(out: &mut TextBuffer, octets: &[u8]) -> Result<(), AllocError> {
        put_quoted(out, Escape::Line, octets)
    }
}

/// Octets as in an object, a string.
pub(crate) struct InObject;

impl OctetsForm for InObject {
    ghost text = { octets_string };

    #[inline(always)]
    fn put(out: &mut TextBuffer, octets: &[u8]) -> Result<(), AllocError> {
        put_octets_string(out, octets)
    }
}

/// Appends the name of a number as a string, or null if it has none.
#[inline(always)]
pub(crate) fn put_name_string(
    object: &mut TextBuffer,
    registry: Registry,
    number: i64,
) -> Result<(), AllocError>
    ensures { OnOk result (object.new ≡ object.old ++ name_string registry number) }
{
    match name_of(registry, number) {
        None => object.push_str("null"),
        Some(name) => put_plain_string(object, name),
    }
}

/// Appends a number, `:` and its name, or `-` if it has none.
fn put_with_name(line: &mut TextBuffer, registry: Registry, number: i64) -> Result<(), AllocError>
    ensures { OnOk result (line.new ≡ line.old ++ number_text true registry number) }
{
    line.push_signed(number)?;
    line.push_str(":")?;
    match name_of(registry, number) {
        None => line.push_str("-"),
        Some(name) => line.push_str(name),
    }
}

/// Appends a number, and with names `:` and its name, or `-` if it has none.
#[inline(always)]
pub(crate) fn put_named(
    line: &mut TextBuffer,
    names: bool,
    registry: Registry,
    number: i64,
) -> Result<(), AllocError>
    ensures { OnOk result (line.new ≡ line.old ++ number_text names registry number) }
{
    if names {
        put_with_name(line, registry, number)
    } else {
        line.push_signed(number)
    }
}

/// Appends the member of the name of a number.
#[inline(always)]
pub(crate) fn put_name_member(
    object: &mut TextBuffer,
    begin: &str,
    registry: Registry,
    number: i64,
) -> Result<(), AllocError>
    ensures { OnOk result (object.new ≡ object.old ++ begin.now ++ codes "_name\":" ++ name_string registry number) }
{
    object.push_str(begin)?;
    object.push_str("_name\":")?;
    put_name_string(object, registry, number)
}

/// Appends a number.
#[inline(always)]
pub fn put_number_item(
    text: &mut TextBuffer,
    form: NumberForm,
    number: i64,
) -> Result<(), AllocError>
    ensures { OnOk result (text.new ≡ text.old ++ number_item form number) }
{
    match form {
        NumberForm::Named(registry) => put_with_name(text, registry, number),
        NumberForm::Name(registry) => put_name_string(text, registry, number),
        NumberForm::NameInCell(registry) => put_number_name(text, registry, number),
        NumberForm::Line => text.push_signed(number),
    }
}
