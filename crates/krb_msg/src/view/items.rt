//! A SEQUENCE OF viewed in place (X.690, 8.10).

ghost use Rattle.std.specs.Prelude.{◌≡◌, ◌^◌, ◌<◌, true, [], length, MatchOption};
ghost use Rattle.krb_msg.specs.Grammar.{pa_data, sequence_of};
ghost use Rattle.krb_msg.specs.Shape.{is_unambiguous, has_octet_tags};
ghost use Rattle.krb_msg.specs.Viewed.{AreContents, AreNoContents, AreViewed, IfElse, IsFirstItem, IsFirstType, items_of};

use crate::fields::{View, view_field, view_item};
use crate::view::head::first_item;
use krb_der::Int32;

/// A view of a list: its items, one after another.
#[derive(Clone, Copy, Default)]
pub struct ItemsView<'a> {
    /// Their octets.
    pub octets: &'a [u8],
}

/// Makes `seen` the view of items of a type, and returns whether the octets are such items, one after
/// another.
#[inline(always)]
pub fn view_items<'a, T: View<'a>>(octets: &'a [u8], seen: &mut ItemsView<'a>) -> bool
    requires short { length octets.now < 2 ^ 31 }
    requires tags { has_octet_tags T.term ≡ true }
    requires unambiguous { is_unambiguous T.term ≡ true }
    ensures { IfElse result (AreContents (sequence_of T.term) octets.now (items_of T.term seen.new.octets.now) × AreViewed T.term seen.new.octets.now) (AreNoContents (sequence_of T.term) octets.now) }
{
    if are_items::<T>(octets) {
        *seen = ItemsView { octets };
        true
    } else {
        false
    }
}

/// Returns whether octets are items of a type, one after another.
fn are_items<'a, T: View<'a>>(octets: &'a [u8]) -> bool
    requires short { length octets.now < 2 ^ 31 }
    requires tags { has_octet_tags T.term ≡ true }
    requires unambiguous { is_unambiguous T.term ≡ true }
    ensures { IfElse result (AreViewed T.term octets.now) (AreNoContents (sequence_of T.term) octets.now) }
{
    let mut rest = octets;
    'items: while !rest.is_empty() {
        let Some((inner, left)) = first_item(T::tag(), rest) else {
            return false;
        };
        let Some(_seen) = view_item::<T>(inner) else {
            return false;
        };
        rest = left;
    }
    true
}

/// Returns the first of items that were viewed, and those after it. It cannot fail.
#[inline(always)]
pub fn next_item<'a, T: View<'a>>(items: ItemsView<'a>) -> Option<(T::Of, ItemsView<'a>)>
    requires tags { has_octet_tags T.term ≡ true }
    requires unambiguous { is_unambiguous T.term ≡ true }
    requires viewed { AreViewed T.term items.octets.now }
    ensures { MatchOption result (items_of T.term items.entry.octets.now ≡ []) (λ (seen, rest). IsFirstItem T.term items.entry.octets.now (T.value seen) rest.octets.now × T.IsValid seen) }
{
    if items.octets.is_empty() {
        return None;
    }
    let Some((inner, rest)) = first_item(T::tag(), items.octets) else {
        unreachable!()
    };
    let Some(seen) = view_item::<T>(inner) else {
        unreachable!()
    };
    Some((seen, ItemsView { octets: rest }))
}

/// Returns the type of the first of PA-DATA that were viewed, and those after it: [`next_item`],
/// with no view of the value. It cannot fail.
#[inline(always)]
pub fn next_type(items: ItemsView<'_>) -> Option<(i64, ItemsView<'_>)>
    requires { AreViewed pa_data items.octets.now }
    ensures { MatchOption result (items_of pa_data items.entry.octets.now ≡ []) (λ (number, rest). IsFirstType items.entry.octets.now number rest.octets.now) }
{
    if items.octets.is_empty() {
        return None;
    }
    let Some((inner, rest)) = first_item(0x30, items.octets) else {
        unreachable!()
    };
    let mut number = 0;
    let Some(_) = view_field::<1, Int32>(inner, &mut number) else {
        unreachable!()
    };
    Some((number, ItemsView { octets: rest }))
}
