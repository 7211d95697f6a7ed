//! Which records have a name.

ghost use Rattle.std.specs.Prelude.{◌≡◌, ◌∷◌, [], IfOk, OnOk, codes, map};
ghost use Rattle.std.specs.List.{filter, list_all, list_any};
ghost use Rattle.krb_fields.specs.Fields.{field_of, shape_of};
ghost use Rattle.krb_fields.specs.Names.{chooses, each_once, has, has_inside, has_member, is_among, kind_text, kinds_with, shows_inside, with_all, with_new};

use crate::found::{KIND, Name, ending_of};
use crate::shape::{Field, Listing, Shape, Value};
use crate::table::{origin, records};
use std::alloc::{AllocError, Global};

/// Returns whether records of a shape may have something inside.
pub(crate) fn has_inside(shape: &Shape) -> bool
    ensures { result ≡ has_inside (shape_of shape.now) }
{
    let mut found = false;
    for field in shape.fields {
        found = found || field.value == Value::Inside;
    }
    found
}

/// Returns whether a record of a listing may have something inside.
pub(crate) fn shows_inside(listing: Listing) -> bool
    ensures { result ≡ shows_inside listing }
{
    let mut found = false;
    for shape in records(listing) {
        found = found || has_inside(shape);
    }
    found
}

/// Returns whether fields have the member of a name.
fn has_member(fields: &[Field], name: &Name) -> bool
    ensures { result ≡ has_member (map field_of fields.now) name.now }
{
    let mut found = false;
    for field in fields {
        found = found
            || (field.name == name.field
                && ending_of(field.value, name.ending.as_bytes()).is_some());
    }
    found
}

/// Returns whether records of a shape have a name: what is inside may be in each that may have
/// something inside.
pub fn has(shape: &Shape, name: &Name) -> bool
    ensures { result ≡ has (shape_of shape.now) name.now }
{
    match name.within {
        Some(_) => has_inside(shape),
        None => {
            name.field == KIND || has_member(shape.fields, name) || has_member(shape.told, name)
        }
    }
}

/// Returns whether records of a shape have all of the names.
fn has_all(shape: &Shape, names: &[Name]) -> bool
    ensures { result ≡ list_all (has (shape_of shape.now)) names.now }
{
    let mut all = true;
    for name in names {
        all = all && has(shape, name);
    }
    all
}

/// Returns whether a name chooses the records that have it: the kind, and where a record is from, do
/// not.
pub fn chooses(listings: &[Listing], name: &Name) -> bool
    ensures { result ≡ chooses listings.now name.now }
{
    if name.within.is_some() {
        return true;
    }
    let mut is_other = name.field != KIND;
    for listing in listings {
        is_other = is_other && !has_member(origin(*listing), name);
    }
    is_other
}

/// Returns whether a text is one of others.
fn is_among(text: &str, others: &[&'static str]) -> bool
    ensures { result ≡ is_among text.now (map (λ other. other.now) others.now) }
{
    let mut found = false;
    for other in others {
        found = found || text == *other;
    }
    found
}

/// Appends a kind that is not yet there.
fn put_new(kind: &'static str, kinds: &mut Vec<&'static str>) -> Result<(), AllocError>
    ensures { OnOk result (map (λ kind. kind.now) kinds.new.items ≡ with_new (map (λ kind. kind.now) kinds.old.items) kind.now) }
{
    if !is_among(kind, kinds.as_slice()) {
        kinds.push(kind)?;
    }
    Ok(())
}

/// Appends the kind of a shape whose records have all of the names, if it is not yet there.
fn put_kind(shape: &Shape, names: &[Name], kinds: &mut Vec<&'static str>) -> Result<(), AllocError>
    ensures { OnOk result (map (λ kind. kind.now) kinds.new.items ≡ with_all (map (λ kind. kind.now) kinds.old.items) (map kind_text (filter (λ s. list_all (has s) names.now) (shape_of shape.now ∷ [])))) }
{
    if has_all(shape, names) {
        put_new(shape.kind, kinds)?;
    }
    Ok(())
}

/// Appends the kinds of the shapes whose records have all of the names, if they are not yet there.
fn put_kinds(
    shapes: &[Shape],
    names: &[Name],
    kinds: &mut Vec<&'static str>,
) -> Result<(), AllocError>
    ensures { OnOk result (map (λ kind. kind.now) kinds.new.items ≡ with_all (map (λ kind. kind.now) kinds.old.items) (map kind_text (filter (λ s. list_all (has s) names.now) (map shape_of shapes.now)))) }
{
    for shape in shapes {
        put_kind(shape, names, kinds)?;
    }
    Ok(())
}

/// Returns the kinds of records of listings that have all of the names, each once.
pub fn kinds_with(
    alloc: Global,
    listings: &[Listing],
    names: &[Name],
) -> Result<Vec<&'static str>, AllocError>
    ensures { IfOk result (λ kinds. map (λ kind. kind.now) kinds.items ≡ each_once (kinds_with listings.now names.now)) }
{
    let mut kinds = Vec::new(alloc);
    for listing in listings {
        put_kinds(records(*listing), names, &mut kinds)?;
    }
    Ok(kinds)
}
