//! Looking numbers up.

ghost use Rattle.std.specs.Prelude.{◌≡◌, map};
ghost use Rattle.std.specs.List.Sorted.{IsStrictlySortedBy};
ghost use Rattle.std.specs.List.{find};
ghost use Rattle.std.specs.Option.{option_copied};
ghost use Rattle.std.specs.Ordering.{int_cmp, int_eq};
ghost use Rattle.krb_registry.specs.Rows.{name_of};

use crate::places::place_of;
use crate::registry::{Registry, rows};
use crate::row::Row;

/// Searches for the row with a number, if there is one among rows in order of number.
#[inline(never)]
fn searched(rows: &'static [Row], number: i64) -> Option<&'static Row>
    requires { IsStrictlySortedBy int_cmp (map (λ row. row.number) rows.now) }
    ensures { option_copied result ≡ find (λ row. int_eq row.number number) rows.now }
{
    match rows.binary_search_by_key(&number, |row| row.number) {
        Ok(index) => Some(&rows[index]),
        Err(_) => None,
    }
}

/// Returns the row with a number, if there is one among rows in order of number. It mostly lies at
/// the place that is given.
#[inline(always)]
fn row_of(rows: &'static [Row], place: usize, number: i64) -> Option<&'static Row>
    requires { IsStrictlySortedBy int_cmp (map (λ row. row.number) rows.now) }
    ensures { option_copied result ≡ find (λ row. int_eq row.number number) rows.now }
{
    match rows.get(place) {
        Some(row) if row.number == number => Some(row),
        _ => searched(rows, number),
    }
}

/// Returns the name of a number in a registry, if it has one. A name has only octets from 21 to 7E,
/// and none of `"`, `+`, `,`, `:`, `=`, `[`, `\` and `]`.
#[inline(always)]
pub fn name_of(registry: Registry, number: i64) -> Option<&'static str>
    ensures { option_copied result ≡ name_of registry number }
{
    let row = row_of(rows(registry), place_of(registry, number), number)?;
    Some(row.name)
}
