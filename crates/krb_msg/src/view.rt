//! Items judged and viewed in place.

ghost use Rattle.std.specs.Prelude.{◌≡◌, ◌^◌, ◌<◌, true, length, MatchOption};
ghost use Rattle.krb_msg.specs.Shape.{is_unambiguous, has_octet_tags};
ghost use Rattle.krb_msg.specs.Viewed.{IfElse, IsViewOf, IsNotWhole};

pub mod head;
pub mod items;
mod lists;
pub mod number;
pub mod scalars;

use crate::fields::{View, ViewSequence, view_item};
use head::only_item;

/// Returns a view of an item, if the octets are one: all of them, judged and viewed in one pass. It
/// allocates nothing.
#[inline(always)]
pub fn view_whole<'a, T: View<'a>>(octets: &'a [u8]) -> Option<T::Of>
    requires short { length octets.now < 2 ^ 31 }
    requires tags { has_octet_tags T.term ≡ true }
    requires unambiguous { is_unambiguous T.term ≡ true }
    ensures { MatchOption result (IsNotWhole T.term octets.now) (λ seen. IsViewOf T.term octets.now (T.value seen) × T.IsValid seen) }
{
    let contents = only_item(T::tag(), octets)?;
    view_item::<T>(contents)
}

/// Makes `seen` the view of an item, and returns whether the octets are one, as [`view_whole`] does.
#[inline(always)]
pub(crate) fn view_whole_into<'a, T: View<'a>>(octets: &'a [u8], seen: &mut T::Of) -> bool
    requires short { length octets.now < 2 ^ 31 }
    requires tags { has_octet_tags T.term ≡ true }
    requires unambiguous { is_unambiguous T.term ≡ true }
    ensures { IfElse result (IsViewOf T.term octets.now (T.value seen.new) × T.IsValid seen.new) (IsNotWhole T.term octets.now) }
{
    match only_item(T::tag(), octets) {
        None => false,
        Some(contents) => T::view_into(contents, seen),
    }
}

/// Makes `seen` the views of the fields of a message, and returns whether the octets are one.
#[inline(always)]
pub(crate) fn view_whole_sequence<'a, T: ViewSequence<'a>>(
    octets: &'a [u8],
    seen: &mut T::Of,
) -> bool
    requires short { length octets.now < 2 ^ 31 }
    requires tags { has_octet_tags T.term ≡ true }
    requires unambiguous { is_unambiguous T.term ≡ true }
    ensures { IfElse result (IsViewOf T.term octets.now (T.value seen.new) × T.IsValid seen.new) (IsNotWhole T.term octets.now) }
{
    match only_item(T::tag(), octets) {
        None => false,
        Some(contents) => T::view_into(contents, seen),
    }
}
