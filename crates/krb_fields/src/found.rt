//! Finding a word among the names of `--fields`, or among the kinds of `--only`.

ghost use Rattle.std.specs.Prelude.{◌≡◌, ◌++◌, IfSome, codes, map};
ghost use Rattle.std.specs.List.{flat_map, list_any};
ghost use Rattle.std.specs.Option.{is_some, option_map};
ghost use Rattle.std.specs.Str.{bytes_eq};
ghost use Rattle.krb_fields.specs.Fields.{field_of, shape_of};
ghost use Rattle.krb_fields.specs.Names.{all_kinds, all_names, field_names, inside_names, inside_of, is_among, kind_text, listing_kinds, listing_names, member_names, name_text, shape_names, within_text};
ghost use Rattle.krb_fields.specs.Table.{endings, inside, records};
ghost use Rattle.krb_fields.specs.inner.Stripped.{after, after_kind};

use crate::having::shows_inside;
use crate::shape::{Field, Listing, Shape, Value};
use crate::table::{inside, origin, records};

/// A name: a member of a record, or of what is inside of it.
#[derive(Clone, Copy, Debug)]
pub struct Name {
    /// The kind of what is inside, if it is of that.
    pub within: Option<&'static str>,
    /// The name of the field, which is `kind` of the kind itself.
    pub field: &'static str,
    /// What follows it in the name of the member.
    pub ending: &'static str,
}

/// The name of the kind of a record.
pub(crate) const KIND: &str = "kind";

/// Returns the ending that a text is, of a value.
pub(crate) fn ending_of(value: Value, text: &[u8]) -> Option<&'static str>
    ensures known { is_some result ≡ is_among text.now (endings value) }
    ensures text { IfSome result (λ ending. ending.now ≡ text.now) }
{
    for ending in value.endings() {
        if text == ending.as_bytes() {
            return Some(*ending);
        }
    }
    None
}

/// Returns what follows a beginning of a text.
fn after<'a>(beginning: &[u8], text: &'a [u8]) -> Option<&'a [u8]>
    ensures { option_map (λ rest. rest.now) result ≡ after beginning.now text.now }
{
    text.strip_prefix(beginning)
}

/// Returns the ending of a word, if it names a member of a field.
fn member_in(field: &Field, word: &[u8]) -> Option<&'static str>
    ensures known { is_some result ≡ is_among word.now (member_names (field_of field.now)) }
    ensures text { IfSome result (λ ending. field.now.name.now ++ ending.now ≡ word.now) }
{
    match after(field.name.as_bytes(), word) {
        Some(text) => ending_of(field.value, text),
        None => None,
    }
}

/// Returns the field and the ending of a word, if it names a member of one of the fields.
fn member_of(fields: &'static [Field], word: &[u8]) -> Option<(&'static str, &'static str)>
    ensures known { is_some result ≡ is_among word.now (field_names (map field_of fields.now)) }
    ensures text { IfSome result (λ found. found.0.now ++ found.1.now ≡ word.now) }
{
    for field in fields {
        if let Some(ending) = member_in(field, word) {
            return Some((field.name, ending));
        }
    }
    None
}

/// Returns the name that a word is of records that have these fields.
fn name_among(fields: &'static [Field], within: Option<&'static str>, word: &[u8]) -> Option<Name>
    ensures known { is_some result ≡ is_among word.now (field_names (map field_of fields.now)) }
    ensures text { IfSome result (λ name. name_text name ≡ within_text within.entry ++ word.now) }
{
    match member_of(fields, word) {
        Some((field, ending)) => Some(Name {
            within,
            field,
            ending,
        }),
        None => None,
    }
}

/// Returns the name of the kind of a record, if a word is that.
fn name_of_kind(within: Option<&'static str>, word: &[u8]) -> Option<Name>
    ensures known { is_some result ≡ bytes_eq word.now (codes "kind") }
    ensures text { IfSome result (λ name. name_text name ≡ within_text within.entry ++ word.now) }
{
    if word == KIND.as_bytes() {
        Some(Name {
            within,
            field: KIND,
            ending: "",
        })
    } else {
        None
    }
}

/// Returns the name that a word is of records of a shape.
fn name_in(shape: &Shape, within: Option<&'static str>, word: &[u8]) -> Option<Name>
    ensures known { is_some result ≡ is_among word.now (shape_names (shape_of shape.now)) }
    ensures text { IfSome result (λ name. name_text name ≡ within_text within.entry ++ word.now) }
{
    if let Some(name) = name_of_kind(within, word) {
        return Some(name);
    }
    match name_among(shape.fields, within, word) {
        Some(name) => Some(name),
        None => name_among(shape.told, within, word),
    }
}

/// Returns what follows a kind and a dot in a word.
fn after_kind<'a>(kind: &str, word: &'a [u8]) -> Option<&'a [u8]>
    ensures { option_map (λ text. text.now) result ≡ after_kind kind.now word.now }
{
    match after(kind.as_bytes(), word) {
        Some(text) => after(b".", text),
        None => None,
    }
}

/// Returns the name that a word is of what is inside of records and has a shape.
fn name_within(shape: &Shape, word: &[u8]) -> Option<Name>
    ensures known { is_some result ≡ is_among word.now (inside_names (shape_of shape.now)) }
    ensures text { IfSome result (λ name. name_text name ≡ word.now) }
{
    match after_kind(shape.kind, word) {
        Some(text) => name_in(shape, Some(shape.kind), text),
        None => None,
    }
}

/// Returns the name that a word is of what is inside.
fn name_inside(word: &[u8]) -> Option<Name>
    ensures known { is_some result ≡ is_among word.now (flat_map inside_names inside) }
    ensures text { IfSome result (λ name. name_text name ≡ word.now) }
{
    for shape in inside() {
        if let Some(name) = name_within(shape, word) {
            return Some(name);
        }
    }
    None
}

/// Returns the name that a word is of the records of a listing themselves.
fn name_of_records(listing: Listing, word: &[u8]) -> Option<Name>
    ensures known { is_some result ≡ is_among word.now (flat_map shape_names (records listing)) }
    ensures text { IfSome result (λ name. name_text name ≡ word.now) }
{
    for shape in records(listing) {
        if let Some(name) = name_in(shape, None, word) {
            return Some(name);
        }
    }
    None
}

/// Returns the name that a word is of what is inside of the records of a listing.
fn name_of_inside(listing: Listing, word: &[u8]) -> Option<Name>
    ensures known { is_some result ≡ is_among word.now (flat_map inside_names (inside_of listing)) }
    ensures text { IfSome result (λ name. name_text name ≡ word.now) }
{
    if shows_inside(listing) {
        name_inside(word)
    } else {
        None
    }
}

/// Returns the name that a word is in a listing.
fn name_by(listing: Listing, word: &[u8]) -> Option<Name>
    ensures known { is_some result ≡ is_among word.now (listing_names listing) }
    ensures text { IfSome result (λ name. name_text name ≡ word.now) }
{
    if let Some(name) = name_among(origin(listing), None, word) {
        return Some(name);
    }
    if let Some(name) = name_of_records(listing, word) {
        return Some(name);
    }
    name_of_inside(listing, word)
}

/// Returns the name that a word is in one of the listings, if it is one.
pub fn name_of(listings: &[Listing], word: &[u8]) -> Option<Name>
    ensures known { is_some result ≡ is_among word.now (all_names listings.now) }
    ensures text { IfSome result (λ name. name_text name ≡ word.now) }
{
    for listing in listings {
        if let Some(name) = name_by(*listing, word) {
            return Some(name);
        }
    }
    None
}

/// Returns the kind that a word is of these shapes.
fn kind_among(shapes: &'static [Shape], word: &[u8]) -> Option<&'static str>
    ensures known { is_some result ≡ is_among word.now (map kind_text (map shape_of shapes.now)) }
    ensures text { IfSome result (λ kind. kind.now ≡ word.now) }
{
    for shape in shapes {
        if word == shape.kind.as_bytes() {
            return Some(shape.kind);
        }
    }
    None
}

/// Returns the kind that a word is in a listing.
fn kind_by(listing: Listing, word: &[u8]) -> Option<&'static str>
    ensures known { is_some result ≡ is_among word.now (listing_kinds listing) }
    ensures text { IfSome result (λ kind. kind.now ≡ word.now) }
{
    if let Some(kind) = kind_among(records(listing), word) {
        return Some(kind);
    }
    if shows_inside(listing) {
        kind_among(inside(), word)
    } else {
        None
    }
}

/// Returns the kind that a word is in one of the listings, of records or of what is inside of them.
pub fn kind_of(listings: &[Listing], word: &[u8]) -> Option<&'static str>
    ensures known { is_some result ≡ is_among word.now (all_kinds listings.now) }
    ensures text { IfSome result (λ kind. kind.now ≡ word.now) }
{
    for listing in listings {
        if let Some(kind) = kind_by(*listing, word) {
            return Some(kind);
        }
    }
    None
}
