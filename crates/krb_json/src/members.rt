//! The names of the members of an object.

ghost use Rattle.std.specs.Prelude.{◌≡◌, []};
ghost use Rattle.std.specs.List.{list_any};
ghost use Rattle.std.specs.Str.{bytes_eq};
ghost use Rattle.json.specs.Value.{members_view, value_view};
ghost use Rattle.krb_json.specs.Spelled.{checked_members, is_field, members_spelled};
ghost use Rattle.krb_json.specs.inner.Reading.{Reads, is_allowed};

use crate::value_fault::{ValueFault, fault_here, fault_of_member};
use crate::wrong::Wrong;
use json::Value;
use krb_judge::{Field, Names};
use std::alloc::Global;

/// Which members an object may have.
#[derive(Clone, Copy)]
pub(crate) enum Allowed {
    /// The fields of a type.
    Fields(Names),
    /// Those of a BIT STRING, `value` and `length`.
    Bits,
}

/// Returns whether one of some fields has a name.
fn is_one_of(fields: &[Field], name: &str) -> bool
    ensures { result ≡ list_any (λ field. bytes_eq field.name.now name.now) fields.now }
{
    fields.iter().any(|field| field.name == name)
}

/// Returns whether a type has a field of a name.
fn is_field(names: Names, name: &str) -> bool
    ensures { result ≡ is_field names name.now }
{
    is_one_of(names.fields(), name)
}

/// Returns whether an object may have a member of a name.
fn is_allowed(allowed: Allowed, name: &str) -> bool
    ensures { result ≡ is_allowed allowed name.now }
{
    match allowed {
        Allowed::Fields(names) => is_field(names, name),
        Allowed::Bits => name == "value" || name == "length",
    }
}

/// Returns whether one of some members has a name.
fn is_among(name: &str, members: &[(&str, Value)]) -> bool
    ensures { result ≡ list_any (λ member. bytes_eq member.0.now name.now) members.now }
{
    members.iter().any(|member| member.0 == name)
}

/// Finds the first of some members that is not allowed, or that came before.
fn check_names(alloc: Global, allowed: Allowed, members: &[(&str, Value)]) -> Result<(), ValueFault>
    ensures { Reads (λ path. checked_members (is_allowed allowed) path [] (members_view members.now)) (λ _. []) [] [] result }
{
    for (index, member) in members.iter().enumerate() {
        let name = member.0;
        if !is_allowed(allowed, name) {
            return Err(fault_of_member(alloc, name, Wrong::NoSuchField));
        }
        if is_among(name, &members[..index]) {
            return Err(fault_of_member(alloc, name, Wrong::Twice));
        }
    }
    Ok(())
}

/// Checks that a value is an object with no member that is not allowed and none twice. It appends
/// nothing.
pub(crate) fn check_members(
    alloc: Global,
    allowed: Allowed,
    value: &Value,
) -> Result<(), ValueFault>
    ensures { Reads (λ path. members_spelled (is_allowed allowed) path (value_view value.now)) (λ _. []) [] [] result }
{
    match value {
        Value::Object(members) => check_names(alloc, allowed, members.as_slice()),
        _ => Err(fault_here(alloc, Wrong::NotAnObject)),
    }
}
