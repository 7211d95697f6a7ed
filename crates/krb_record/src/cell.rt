//! Cells: what rows show of values.

ghost use Rattle.std.specs.Prelude.{◌≡◌, ◌++◌, ◌∷◌, Bool, List, OnOk, codes, false, true, ℕ};
ghost use Rattle.std.specs.List.{flat_map};
ghost use Rattle.krb_record.specs.Forms.{escaped_if, is_mistaken, item_cell, item_octet, name_cell, name_or_dash, or_empty, shown_octet, string_cell, string_of};
ghost use Rattle.krb_record.specs.Text.{hex, two_hex};
ghost use Rattle.krb_record.specs.inner.Cells.{octet_at};

use crate::escape::{are_plain, put_hex};
use crate::item::OctetsForm;
use crate::text_buffer::TextBuffer;
use krb_registry::{Registry, name_of};
use std::alloc::AllocError;

/// Appends the cell of what is not there.
#[inline(always)]
pub fn put_no_cell(text: &mut TextBuffer) -> Result<(), AllocError>
    ensures { OnOk result (text.new ≡ text.old ++ codes "-") }
{
    text.push_sign("-")
}

/// Appends an octet, escaped.
fn put_escape(text: &mut TextBuffer, octet: u8) -> Result<(), AllocError>
    ensures { OnOk result (text.new ≡ text.old ++ codes "\\x" ++ two_hex octet) }
{
    text.push_str("\\x")?;
    put_hex(text, &[octet])
}

/// Where the cell of a string is.
#[derive(Clone, Copy)]
pub(crate) enum Whereabouts {
    /// It is a cell by itself.
    Alone,
    /// It is in a list.
    InList,
}

/// Appends an octet of a string.
fn put_octet(text: &mut TextBuffer, at: Whereabouts, octet: u8) -> Result<(), AllocError>
    ensures { OnOk result (text.new ≡ text.old ++ octet_at at octet) }
{
    let is_shown = 0x20 <= octet && octet <= 0x7E && octet != b'\\';
    let is_separator = matches!(at, Whereabouts::InList) && octet == b',';
    if is_shown && !is_separator {
        text.push_octet(octet)
    } else {
        put_escape(text, octet)
    }
}

/// Appends the octets of a string, one after another.
#[inline(never)]
fn put_each(text: &mut TextBuffer, at: Whereabouts, octets: &[u8]) -> Result<(), AllocError>
    ensures { OnOk result (text.new ≡ text.old ++ flat_map (octet_at at) octets.now) }
{
    for octet in octets {
        put_octet(text, at, *octet)?;
    }
    Ok(())
}

/// Returns whether the cell of a string would be taken for that of no string.
fn is_mistaken(octets: &[u8]) -> bool
    ensures { result ≡ is_mistaken octets.now }
{
    (b"-".as_slice() == octets)
        | (b"\"\"".as_slice() == octets)
        | (b"[]".as_slice() == octets)
        | (b"[-]".as_slice() == octets)
        | (b"..".as_slice() == octets)
}

/// Appends the cell of a string.
#[inline(never)]
fn put_any(text: &mut TextBuffer, at: Whereabouts, octets: &[u8]) -> Result<(), AllocError>
    ensures { OnOk result (text.new ≡ text.old ++ string_of (octet_at at) octets.now) }
{
    match octets.split_first() {
        None => text.push_str("\"\""),
        Some((first, others)) => {
            if is_mistaken(octets) {
                put_escape(text, *first)?;
            } else {
                put_octet(text, at, *first)?;
            }
            put_each(text, at, others)
        }
    }
}

/// Appends the cell of a string. Nearly all strings are plain, and one copy is faster.
pub fn put_string_cell(text: &mut TextBuffer, octets: &[u8]) -> Result<(), AllocError>
    ensures { OnOk result (text.new ≡ text.old ++ string_cell octets.now) }
{
    match octets.len() {
        4..=32 if are_plain(octets, false) => text.push_ascii(octets),
        _ => put_any(text, Whereabouts::Alone, octets),
    }
}

/// Appends the cell of the name of a file.
pub(crate) fn put_name_cell(text: &mut TextBuffer, octets: &[u8]) -> Result<(), AllocError>
    ensures { OnOk result (text.new ≡ text.old ++ name_cell octets.now) }
{
    match octets.split_first() {
        None => text.push_str("\"\""),
        Some(_) => put_each(text, Whereabouts::Alone, octets),
    }
}

/// Appends the cell of octets in hexadecimal.
pub(crate) fn put_hex_cell(text: &mut TextBuffer, octets: &[u8]) -> Result<(), AllocError>
    ensures { OnOk result (text.new ≡ text.old ++ or_empty (hex octets.now)) }
{
    match octets.split_first() {
        None => text.push_str("\"\""),
        Some(_) => put_hex(text, octets),
    }
}

/// Octets as an item of a list.
pub(crate) struct InList;

impl OctetsForm for InList {
    ghost text = { item_cell };

    #[inline(always)]
    fn put(out: &mut TextBuffer, octets: &[u8]) -> Result<(), AllocError> {
        put_any(out, Whereabouts::InList, octets)
    }
}

/// Appends the name of a number, or `-` if it has none.
pub(crate) fn put_number_name(
    text: &mut TextBuffer,
    registry: Registry,
    number: i64,
) -> Result<(), AllocError>
    ensures { OnOk result (text.new ≡ text.old ++ name_or_dash registry number) }
{
    match name_of(registry, number) {
        None => text.push_str("-"),
        Some(name) => text.push_str(name),
    }
}
