//! Parts: records inside of the record of a message.

ghost use Rattle.std.specs.Prelude.{◌≡◌, ◌+◌, ◌++◌, ◌^◌, ◌<◌, true, length, map, IfOk, MatchOption, None, OnOk, Some, nat_lt};
ghost use Rattle.krb_msg.specs.Shape.{has_octet_tags, is_unambiguous};
ghost use Rattle.krb_msg.specs.Term.{Value};
ghost use Rattle.krb_msg.specs.Viewed.{AreViewed, items_of};
ghost use Rattle.krb_record.specs.Forms.{opening, part_text};
ghost use Rattle.krb_text.specs.Inside.{one_if};
ghost use Rattle.krb_text.specs.Judged.{judged};
ghost use Rattle.krb_record.specs.Values.{Part};
ghost use Rattle.krb_text.specs.inner.Parts.{Tells, separator};

use krb_msg::{ItemsView, View, next_item, view_whole};
use krb_record::{Base, Form, TextBuffer, put_opening};
use std::alloc::AllocError;

/// Where a part is appended.
#[derive(Clone, Copy)]
pub(crate) struct PartPlace {
    /// The form of the record.
    pub(crate) form: Form,
    /// How many parts were told before it.
    pub(crate) told: u64,
}

/// A type each item of which has a part.
pub(crate) trait Clear<'a>: View<'a> {
    /// The part of a view of an item.
    ghost part: { Self.Of → Part };

    /// Appends the part of an item, after what separates it from the parts that were told before.
    fn put_part(text: &mut TextBuffer, at: PartPlace, seen: &Self::Of) -> Result<(), AllocError>
        requires { Self.View.IsValid seen.now }
        ensures { OnOk result (text.new ≡ text.old ++ separator at.form (nat_lt 0 at.told) ++ part_text at.form (part seen.now)) };
}

/// Returns a view of an item, if all the octets are judged to be one.
#[inline(always)]
pub(crate) fn view_judged<'a, T: View<'a>>(octets: &'a [u8]) -> Option<T::Of>
    requires short { length octets.now < 2 ^ 31 }
    requires tags { has_octet_tags T.term ≡ true }
    requires unambiguous { is_unambiguous T.term ≡ true }
    ensures { MatchOption result (judged T.term octets.now ≡ None) (λ seen. (judged T.term octets.now ≡ Some (T.value seen)) × T.IsValid seen) }
{
    view_whole::<T>(octets)
}

/// Appends what separates a part from those before it, if any was told, and what precedes its
/// fields.
#[inline(always)]
#[tactic(auto, unfolding(crate::specs::inner::Parts::separator))]
pub(crate) fn put_part_opening(
    text: &mut TextBuffer,
    at: PartPlace,
    kind: &str,
) -> Result<(), AllocError>
    ensures { OnOk result (text.new ≡ text.old ++ separator at.form (nat_lt 0 at.told) ++ opening at.form kind.now) }
{
    match at.form.base() {
        Some(Base::Lines | Base::NamedLines) => text.push_str(" ")?,
        Some(Base::Json) if at.told != 0 => text.push_str(",")?,
        Some(Base::Json) | None => (),
    }
    put_opening(text, at.form, kind)
}

/// Appends the part of octets that are all of one item, and returns how many were told by now.
#[inline(always)]
pub(crate) fn put_whole<'a, T: Clear<'a>>(
    text: &mut TextBuffer,
    at: PartPlace,
    octets: &'a [u8],
) -> Result<u64, AllocError>
    requires short { length octets.now < 2 ^ 31 }
    requires tags { has_octet_tags T.View.term ≡ true }
    requires unambiguous { is_unambiguous T.View.term ≡ true }
    ensures { (part : Value T.View.term → Part) → ((seen : T.Of) → part (T.View.value seen) ≡ T.part seen) → IfOk result (λ by_now. Tells at.form (one_if part (judged T.View.term octets.now)) at.told text.old by_now text.new) }
{
    let told = at.told;
    match view_judged::<T>(octets) {
        None => Ok(told),
        Some(seen) => {
            T::put_part(text, at, &seen)?;
            Ok(told.saturating_add(1))
        }
    }
}

/// Appends the parts of items, and returns how many were told by now.
#[inline(always)]
pub(crate) fn put_each<'a, T: Clear<'a>>(
    text: &mut TextBuffer,
    at: PartPlace,
    items: ItemsView<'a>,
) -> Result<u64, AllocError>
    requires tags { has_octet_tags T.View.term ≡ true }
    requires unambiguous { is_unambiguous T.View.term ≡ true }
    requires viewed { AreViewed T.View.term items.octets.now }
    ensures { (part : Value T.View.term → Part) → ((seen : T.Of) → part (T.View.value seen) ≡ T.part seen) → IfOk result (λ by_now. Tells at.form (map part (items_of T.View.term items.entry.octets.now)) at.told text.old by_now text.new) }
{
    let PartPlace { form, told } = at;
    let mut by_now = told;
    let mut others = items;
    'others: while let Some((seen, rest)) = next_item::<T>(others) {
        T::put_part(text, PartPlace { form, told: by_now }, &seen)?;
        by_now = by_now.saturating_add(1);
        others = rest;
    }
    Ok(by_now)
}
