//! All names and all kinds.

ghost use Rattle.std.specs.Prelude.{◌≡◌, ◌∷◌, ◌++◌, [], IfOk, OnOk, codes, map, string_bytes};
ghost use Rattle.std.specs.List.{flat_map};
ghost use Rattle.krb_fields.specs.Fields.{field_of, shape_of};
ghost use Rattle.krb_fields.specs.Table.{inside, records};
ghost use Rattle.krb_fields.specs.Names.{all_kinds, all_names, each_once, field_names, inside_names, is_among, kind_text, listing_kinds, listing_names, member_names, shape_names, with_all, with_new, within_text};

use crate::found::KIND;
use crate::having::shows_inside;
use crate::shape::{Field, Listing, Shape};
use crate::table::{inside, origin, records};
use std::alloc::{AllocError, Global};

/// Returns whether a text is one of others.
fn is_there(text: &str, others: &[String]) -> bool
    ensures { result ≡ is_among text.now (map string_bytes others.now) }
{
    let mut found = false;
    for other in others {
        found = found || text == other.as_str();
    }
    found
}

/// Appends a text that is not yet there.
fn put_new(text: String, texts: &mut Vec<String>) -> Result<(), AllocError>
    ensures { OnOk result (map string_bytes texts.new.items ≡ with_new (map string_bytes texts.old.items) (string_bytes text)) }
{
    if !is_there(text.as_str(), texts.as_slice()) {
        texts.push(text)?;
    }
    Ok(())
}

/// Appends a name of a member, if it is not yet there.
fn put_name(
    alloc: Global,
    within: Option<&str>,
    field: &str,
    ending: &str,
    names: &mut Vec<String>,
) -> Result<(), AllocError>
    ensures { OnOk result (map string_bytes names.new.items ≡ with_new (map string_bytes names.old.items) (within_text within.entry ++ field.now ++ ending.now)) }
{
    let name = match within {
        Some(kind) => format!(in alloc; "{kind}.{field}{ending}")?,
        None => format!(in alloc; "{field}{ending}")?,
    };
    put_new(name, names)
}

/// Appends the names of the members of a field.
fn put_member(
    alloc: Global,
    within: Option<&str>,
    field: &Field,
    names: &mut Vec<String>,
) -> Result<(), AllocError>
    ensures { OnOk result (map string_bytes names.new.items ≡ with_all (map string_bytes names.old.items) (map (λ name. within_text within.entry ++ name) (member_names (field_of field.now)))) }
{
    for ending in field.value.endings() {
        put_name(alloc, within, field.name, ending, names)?;
    }
    Ok(())
}

/// Appends the names of the members of fields.
fn put_members(
    alloc: Global,
    within: Option<&str>,
    fields: &[Field],
    names: &mut Vec<String>,
) -> Result<(), AllocError>
    ensures { OnOk result (map string_bytes names.new.items ≡ with_all (map string_bytes names.old.items) (map (λ name. within_text within.entry ++ name) (field_names (map field_of fields.now)))) }
{
    for field in fields {
        put_member(alloc, within, field, names)?;
    }
    Ok(())
}

/// Appends the names of records of a shape.
fn put_shape(
    alloc: Global,
    within: Option<&str>,
    shape: &Shape,
    names: &mut Vec<String>,
) -> Result<(), AllocError>
    ensures { OnOk result (map string_bytes names.new.items ≡ with_all (map string_bytes names.old.items) (map (λ name. within_text within.entry ++ name) (shape_names (shape_of shape.now)))) }
{
    put_name(alloc, within, KIND, "", names)?;
    put_members(alloc, within, shape.fields, names)?;
    put_members(alloc, within, shape.told, names)
}

/// Appends the names of records of a listing themselves.
fn put_records(alloc: Global, listing: Listing, names: &mut Vec<String>) -> Result<(), AllocError>
    ensures { OnOk result (map string_bytes names.new.items ≡ with_all (map string_bytes names.old.items) (flat_map shape_names (records listing))) }
{
    for shape in records(listing) {
        put_shape(alloc, None, shape, names)?;
    }
    Ok(())
}

/// Appends the names of what is inside of others.
fn put_inside(alloc: Global, names: &mut Vec<String>) -> Result<(), AllocError>
    ensures { OnOk result (map string_bytes names.new.items ≡ with_all (map string_bytes names.old.items) (flat_map inside_names inside)) }
{
    for shape in inside() {
        put_shape(alloc, Some(shape.kind), shape, names)?;
    }
    Ok(())
}

/// Appends the names of a listing.
fn put_listing(alloc: Global, listing: Listing, names: &mut Vec<String>) -> Result<(), AllocError>
    ensures { OnOk result (map string_bytes names.new.items ≡ with_all (map string_bytes names.old.items) (listing_names listing)) }
{
    put_members(alloc, None, origin(listing), names)?;
    put_records(alloc, listing, names)?;
    if shows_inside(listing) {
        put_inside(alloc, names)?;
    }
    Ok(())
}

/// Returns the names of listings, each once.
pub fn all_names(alloc: Global, listings: &[Listing]) -> Result<Vec<String>, AllocError>
    ensures { IfOk result (λ names. map string_bytes names.items ≡ each_once (all_names listings.now)) }
{
    let mut names = Vec::new(alloc);
    for listing in listings {
        put_listing(alloc, *listing, &mut names)?;
    }
    Ok(names)
}

/// Appends the kinds of shapes that are not yet there.
fn put_kinds(alloc: Global, shapes: &[Shape], kinds: &mut Vec<String>) -> Result<(), AllocError>
    ensures { OnOk result (map string_bytes kinds.new.items ≡ with_all (map string_bytes kinds.old.items) (map kind_text (map shape_of shapes.now))) }
{
    for shape in shapes {
        put_new(String::from_str(alloc, shape.kind)?, kinds)?;
    }
    Ok(())
}

/// Appends the kinds of a listing that are not yet there.
fn put_listing_kinds(
    alloc: Global,
    listing: Listing,
    kinds: &mut Vec<String>,
) -> Result<(), AllocError>
    ensures { OnOk result (map string_bytes kinds.new.items ≡ with_all (map string_bytes kinds.old.items) (listing_kinds listing)) }
{
    put_kinds(alloc, records(listing), kinds)?;
    if shows_inside(listing) {
        put_kinds(alloc, inside(), kinds)?;
    }
    Ok(())
}

/// Returns the kinds of listings, each once: of each listing those of records, and then those of what
/// is inside.
pub fn all_kinds(alloc: Global, listings: &[Listing]) -> Result<Vec<String>, AllocError>
    ensures { IfOk result (λ kinds. map string_bytes kinds.items ≡ each_once (all_kinds listings.now)) }
{
    let mut kinds = Vec::new(alloc);
    for listing in listings {
        put_listing_kinds(alloc, *listing, &mut kinds)?;
    }
    Ok(kinds)
}
