//! Flags, and the names of their bits.

ghost use Rattle.std.specs.Prelude.{◌≡◌, ◌++◌, ◌-◌, ◌*◌, ◌==◌, [], ◌∷◌, decimal, length, not, map, codes, true, MatchOption, OnOk};
ghost use Rattle.std.specs.List.{flat_map, list_all};
ghost use Rattle.krb_registry.specs.Rows.{number_and_name, rows};
ghost use Rattle.krb_record.specs.Forms.{flags_object, is_set, json_character, named_flags_text, named_in, octet_at, plus_text, set_names, unnamed};
ghost use Rattle.krb_record.specs.Text.{hex, joined, list_text};
ghost use Rattle.krb_record.specs.Values.{Flags};
ghost use Rattle.krb_record.specs.inner.Flags.{are_plain, name_item, names_set};

use crate::cell::{put_hex_cell, put_no_cell};
use crate::escape::{eight_digits, put_hex};
use crate::json::put_plain_string;
use crate::path::Path;
use crate::shown::{Shown, put_begin};
use crate::text_buffer::TextBuffer;
use krb_registry::{Registry, Row, rows};
use std::alloc::AllocError;

/// How the name of a bit is written.
#[derive(Clone, Copy)]
pub(crate) enum NameForm {
    /// As it is.
    Word,
    /// As a string of an object.
    String,
}

/// Returns octet k, or 0 after the last.
#[tactic(auto, using(crate::proofs::Bits::octet_is, crate::proofs::Bits::octet_after))]
pub(crate) fn octet_at(octets: &[u8], k: u64) -> u8
    ensures { result ≡ octet_at octets.now k }
{
    if k < octets.len() as u64 {
        octets[k as usize]
    } else {
        0
    }
}

/// Returns whether a bit is set, where bit 0 is the highest of the first octet. Those after the
/// last octet are not.
fn is_set(octets: &[u8], bit: u64) -> bool
    ensures { result ≡ is_set octets.now bit }
{
    (octet_at(octets, bit / 8) >> (7 - bit % 8)) % 2 == 1
}

/// Returns the name of the first bit that is set and has one, and the rows after it.
#[tactic(auto, using(crate::proofs::Names::plain_in_json))]
fn first_set(octets: &[u8], table: &'static [Row]) -> Option<(&'static str, &'static [Row])>
    requires { are_plain (map number_and_name table.now) ≡ true }
    ensures { MatchOption result (names_set octets.now (map number_and_name table.now) ≡ []) (λ found. (flat_map json_character found.0.now ≡ found.0.now) × (are_plain (map number_and_name found.1.now) ≡ true) × (names_set octets.now (map number_and_name table.now) ≡ found.0.now ∷ names_set octets.now (map number_and_name found.1.now))) }
{
    let mut others = table;
    'others: while let Some((row, rest)) = others.split_first() {
        if is_set(octets, row.number.unsigned_abs()) {
            return Some((row.name, rest));
        }
        others = rest;
    }
    None
}

/// Appends the name of a bit.
fn put_name(text: &mut TextBuffer, form: NameForm, name: &str) -> Result<(), AllocError>
    requires { flat_map json_character name.now ≡ name.now }
    ensures { OnOk result (text.new ≡ text.old ++ name_item form name.now) }
{
    match form {
        NameForm::Word => text.push_str(name),
        NameForm::String => put_plain_string(text, name),
    }
}

/// Appends a comma and the name of a bit, for each bit that is set and has a name in the table.
fn put_other_names(
    text: &mut TextBuffer,
    form: NameForm,
    octets: &[u8],
    table: &'static [Row],
) -> Result<(), AllocError>
    requires { are_plain (map number_and_name table.now) ≡ true }
    ensures { OnOk result (text.new ≡ text.old ++ flat_map (λ name. codes "," ++ name_item form name) (names_set octets.now (map number_and_name table.now))) }
{
    let mut others = table;
    'others: while let Some((name, rest)) = first_set(octets, others) {
        text.push_str(",")?;
        put_name(text, form, name)?;
        others = rest;
    }
    Ok(())
}

/// Appends the names of the bits that are set and have one, in order of bit number, with commas
/// between them, or another text if there are none.
#[tactic(auto, unfolding(crate::specs::Forms::set_names))]
fn put_names(
    text: &mut TextBuffer,
    form: NameForm,
    none: &str,
    registry: Registry,
    octets: &[u8],
) -> Result<(), AllocError>
    ensures { OnOk result (text.new ≡ text.old ++ joined none.now (codes ",") (name_item form) (set_names registry octets.now)) }
{
    match first_set(octets, rows(registry)) {
        None => text.push_str(none),
        Some((first, others)) => {
            put_name(text, form, first)?;
            put_other_names(text, form, octets, others)
        }
    }
}

/// Returns octet k of a mask of the bits that have no name in a table.
fn nameless_in(table: &'static [Row], k: u64) -> u8
    ensures { result ≡ 255 - named_in k (map number_and_name table.now) }
{
    let mut mask = 255u8;
    let mut others = table;
    'others: while let Some((row, rest)) = others.split_first() {
        let bit = row.number.unsigned_abs();
        if bit / 8 == k {
            mask = mask.saturating_sub(1 << (7 - bit % 8));
        }
        others = rest;
    }
    mask
}

/// Returns octet k of a mask of the bits that have no name. Of those that a line has most, it is
/// known.
#[tactic(auto, unfolding(krb_registry::specs::Rows::rows))]
fn nameless(registry: Registry, k: u64) -> u8
    ensures { result ≡ 255 - named_in k (rows registry) }
{
    match (registry, k) {
        (Registry::KdcOptions, 0) => 0x81,
        (Registry::KdcOptions, 1) => 0x6C,
        (Registry::KdcOptions, 2) => 0x7F,
        (Registry::KdcOptions, 3) => 0xC4,
        _ => nameless_in(rows(registry), k),
    }
}

/// Returns whether a bit is set that has no name.
#[tactic(auto, unfolding(crate::specs::Forms::unnamed))]
fn has_unnamed(registry: Registry, octets: &[u8]) -> bool
    ensures { result ≡ not (list_all (λ octet. octet == 0) (unnamed registry octets.now)) }
{
    let mut k = 0u64;
    let mut others = octets;
    'others: while let Some((octet, rest)) = others.split_first() {
        if *octet != 0 && *octet & nameless(registry, k) != 0 {
            return true;
        }
        k += 1;
        others = rest;
    }
    false
}

/// Appends the octets without the bits that have names, in hexadecimal.
#[tactic(auto, unfolding(crate::specs::Forms::unnamed))]
fn put_unnamed(text: &mut TextBuffer, registry: Registry, octets: &[u8]) -> Result<(), AllocError>
    ensures { OnOk result (text.new ≡ text.old ++ hex (unnamed registry octets.now)) }
{
    let mut k = 0u64;
    let mut others = octets;
    'others: while let Some((octet, rest)) = others.split_first() {
        put_hex(text, &[*octet & nameless(registry, k)])?;
        k += 1;
        others = rest;
    }
    Ok(())
}

/// Appends `+` and the octets without the bits that have names, unless all are 00.
fn put_plus(text: &mut TextBuffer, registry: Registry, octets: &[u8]) -> Result<(), AllocError>
    ensures { OnOk result (text.new ≡ text.old ++ plus_text (unnamed registry octets.now)) }
{
    if has_unnamed(registry, octets) {
        text.push_str("+")?;
        put_unnamed(text, registry, octets)
    } else {
        Ok(())
    }
}

/// Appends the names of the bits that are set, or `-`, and then the bits without a name.
#[tactic(auto, unfolding(crate::specs::Forms::named_flags_text))]
pub(crate) fn put_named_flags(
    line: &mut TextBuffer,
    registry: Registry,
    octets: &[u8],
) -> Result<(), AllocError>
    ensures { OnOk result (line.new ≡ line.old ++ named_flags_text registry octets.now) }
{
    put_names(line, NameForm::Word, "-", registry, octets)?;
    put_plus(line, registry, octets)
}

/// Appends a list of the names of the bits that are set, as strings.
fn put_name_list(
    object: &mut TextBuffer,
    registry: Registry,
    octets: &[u8],
) -> Result<(), AllocError>
    ensures { OnOk result (object.new ≡ object.old ++ list_text (name_item NameForm.String) (set_names registry octets.now)) }
{
    object.push_str("[")?;
    put_names(object, NameForm::String, "", registry, octets)?;
    object.push_str("]")
}

/// Appends the cell of the names of the bits that are set.
pub(crate) fn put_names_cell(
    text: &mut TextBuffer,
    registry: Registry,
    octets: &[u8],
) -> Result<(), AllocError>
    ensures { OnOk result (text.new ≡ text.old ++ joined (codes "[]") (codes ",") (λ name. name) (set_names registry octets.now)) }
{
    put_names(text, NameForm::Word, "[]", registry, octets)
}

/// Flags of a registry, bit 0 the highest of the first octet.
#[derive(Clone, Copy)]
pub struct FlagBits<'a> {
    /// The registry, which has the names of the bits.
    pub registry: Registry,
    /// How many bits of the last octet are none.
    pub unused: u8,
    /// The octets.
    pub octets: &'a [u8],
}

/// Appends how many flags there are.
fn put_count(text: &mut TextBuffer, unused: u8, octets: &[u8]) -> Result<(), AllocError>
    ensures { OnOk result (text.new ≡ text.old ++ decimal (8 * length octets.now - unused)) }
{
    let count = (8 * octets.len() as u128).saturating_sub(u128::from(unused));
    if count < 100 {
        text.push_number(count as u64)
    } else {
        text.push_integer(count)
    }
}

/// Appends what an object has of 32 flags, up to their names.
#[inline(always)]
fn put_32_bits_start(object: &mut TextBuffer, octets: &[u8; 4]) -> Result<(), AllocError>
    ensures { OnOk result (object.new ≡ object.old ++ codes "{\"bits\":32,\"hex\":\"" ++ hex octets.now ++ codes "\",\"names\":") }
{
    let before = "{\"bits\":32,\"hex\":\"";
    object.push_between(before, &eight_digits(octets), "\",\"names\":")
}

/// Appends what an object has of flags, up to their names.
#[inline(always)]
fn put_bits_start(object: &mut TextBuffer, unused: u8, octets: &[u8]) -> Result<(), AllocError>
    ensures { OnOk result (object.new ≡ object.old ++ codes "{\"bits\":" ++ decimal (8 * length octets.now - unused) ++ codes ",\"hex\":\"" ++ hex octets.now ++ codes "\",\"names\":") }
{
    match octets.split_first_chunk::<4>() {
        Some((four, [])) if unused == 0 => put_32_bits_start(object, four),
        _ => {
            object.push_str("{\"bits\":")?;
            put_count(object, unused, octets)?;
            object.push_str(",\"hex\":\"")?;
            put_hex(object, octets)?;
            object.push_str("\",\"names\":")
        }
    }
}

/// Appends what an object has of flags.
#[inline(never)]
pub(crate) fn put_flags_object(
    object: &mut TextBuffer,
    registry: Registry,
    unused: u8,
    octets: &[u8],
) -> Result<(), AllocError>
    ensures { OnOk result (object.new ≡ object.old ++ flags_object registry (unused, octets.now)) }
{
    put_bits_start(object, unused, octets)?;
    put_name_list(object, registry, octets)?;
    object.push_str("}")
}

/// Appends the number of flags, `:` and their octets in hexadecimal, if they are four octets.
#[inline(always)]
fn put_32_bits(line: &mut TextBuffer, octets: &[u8; 4]) -> Result<(), AllocError>
    ensures { OnOk result (line.new ≡ line.old ++ codes "32:" ++ hex octets.now) }
{
    line.push_str("32:")?;
    line.push_ascii(&eight_digits(octets))
}

/// Appends the number of flags, `:` and their octets in hexadecimal.
#[inline(always)]
fn put_bits(line: &mut TextBuffer, unused: u8, octets: &[u8]) -> Result<(), AllocError>
    ensures { OnOk result (line.new ≡ line.old ++ decimal (8 * length octets.now - unused) ++ codes ":" ++ hex octets.now) }
{
    match octets.split_first_chunk::<4>() {
        Some((four, [])) if unused == 0 => put_32_bits(line, four),
        _ => {
            put_count(line, unused, octets)?;
            line.push_str(":")?;
            put_hex(line, octets)
        }
    }
}

/// The number of flags, `:` and their octets in hexadecimal, and with names `:` and those of the
/// bits that are set.
impl<'a> Shown for FlagBits<'a> {
    ghost shown = { λ flags. Flags flags.registry (flags.unused, flags.octets.now) };

    #[inline(never)]
    #[tactic(auto, unfolding(crate::specs::Forms::value_text))]
    fn put_text(&self, line: &mut TextBuffer, names: bool) -> Result<(), AllocError> {
        put_bits(line, self.unused, self.octets)?;
        if names {
            line.push_str(":")?;
            put_named_flags(line, self.registry, self.octets)
        } else {
            Ok(())
        }
    }

    #[inline(always)]
    #[tactic(auto, unfolding(crate::specs::Forms::members, crate::specs::Forms::json_value, crate::specs::Forms::names_member))]
    fn put_members(&self, object: &mut TextBuffer, begin: &str) -> Result<(), AllocError> {
        put_begin(object, begin)?;
        put_flags_object(object, self.registry, self.unused, self.octets)
    }

    #[tactic(auto, unfolding(crate::specs::Forms::cell, crate::specs::Forms::value_text))]
    fn put_cell(&self, text: &mut TextBuffer, path: Path) -> Result<(), AllocError> {
        match path {
            Path::Whole => self.put_text(text, true),
            Path::Bits => put_count(text, self.unused, self.octets),
            Path::Hex => put_hex_cell(text, self.octets),
            Path::Names => put_names_cell(text, self.registry, self.octets),
            _ => put_no_cell(text),
        }
    }
}
