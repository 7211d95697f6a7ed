//! Values copied out of views of them.

ghost use Rattle.std.specs.Prelude.{◌≡◌, true, IfOk};
ghost use Rattle.std.specs.Option.{option_map};
ghost use Rattle.krb_msg.specs.Term.{Fits, IfPresent};
ghost use Rattle.krb_msg.specs.Shape.{is_unambiguous, has_octet_tags};
ghost use Rattle.krb_msg.specs.Viewed.{AreViewed, items_of};
ghost use Rattle.krb_codec.specs.inner.Copies.{AreCopies, MayBeCopies};

mod scalars;

use krb_der::{Many, Memory};
use krb_msg::{ItemsView, View, next_item};
use std::alloc::Global;

/// A type whose values are copied out of views of them.
pub trait FromView<'a>: View<'a> + Drop {
    /// The value of the view.
    ghost copied: { Self.Of → Self };

    /// Returns the value of the view. The items of a list are viewed once more, each as it is
    /// copied; each string of octets is copied once.
    fn from_view(alloc: Global, seen: &Self::Of) -> Result<Self, Memory>
        requires fits { Fits Self.View.term (Self.View.value seen.now) }
        requires lists { Self.View.IsValid seen.now }
        ensures { IfOk result (λ it. it ≡ copied seen.now) };
}

/// A type whose values own no memory, so that copying one out of a view of it cannot fail.
pub(crate) trait FromPlainView<'a>: FromView<'a> {
    /// Returns the value of the view.
    fn from_plain_view(seen: &Self::Of) -> Self
        requires fits { Fits Self.View.term (Self.View.value seen.now) }
        requires lists { Self.View.IsValid seen.now }
        ensures { result ≡ Self.FromView.copied seen.now };
}

/// Returns the value of a field that may be left out, and owns no memory, if it is there.
pub(crate) fn copy_plain_option<'a, T: FromPlainView<'a>>(seen: &Option<T::Of>) -> Option<T>
    requires fits { IfPresent (Fits T.View.term) (option_map T.View.value seen.now) }
    requires lists { IfPresent T.View.IsValid seen.now }
    ensures { result ≡ option_map T.FromView.copied seen.now }
{
    match seen {
        Some(value) => Some(T::from_plain_view(value)),
        None => None,
    }
}

/// Returns the value of a field that may be left out, if it is there.
pub(crate) fn copy_option<'a, T: FromView<'a>>(
    alloc: Global,
    seen: &Option<T::Of>,
) -> Result<Option<T>, Memory>
    requires fits { IfPresent (Fits T.View.term) (option_map T.View.value seen.now) }
    requires lists { IfPresent T.View.IsValid seen.now }
    ensures { IfOk result (λ it. it ≡ option_map T.copied seen.now) }
{
    match seen {
        Some(value) => Ok(Some(T::from_view(alloc, value)?)),
        None => Ok(None),
    }
}

/// Returns the values of items, in order. The list grows as they are found.
pub(crate) fn copy_items<'a, T: FromView<'a>>(
    alloc: Global,
    items: ItemsView<'a>,
) -> Result<Many<T>, Memory>
    requires tags { has_octet_tags T.View.term ≡ true }
    requires unambiguous { is_unambiguous T.View.term ≡ true }
    requires viewed { AreViewed T.View.term items.octets.now }
    ensures { IfOk result (λ values. AreCopies T.View.value T.copied (items_of T.View.term items.entry.octets.now) values) }
{
    let mut values = Vec::new(alloc);
    let mut rest = items;
    'items: while let Some((seen, others)) = next_item::<T>(rest) {
        let value = T::from_view(alloc, &seen)?;
        values.push(value)?;
        rest = others;
    }
    Ok(Many::new(values))
}

/// Returns the values of items that may be left out, if they are there.
pub(crate) fn copy_item_option<'a, T: FromView<'a>>(
    alloc: Global,
    items: Option<ItemsView<'a>>,
) -> Result<Option<Many<T>>, Memory>
    requires tags { has_octet_tags T.View.term ≡ true }
    requires unambiguous { is_unambiguous T.View.term ≡ true }
    requires viewed { IfPresent (λ those. AreViewed T.View.term those.octets.now) items }
    ensures { IfOk result (λ values. MayBeCopies T.View.value T.copied (option_map (λ those. items_of T.View.term those.octets.now) items.entry) values) }
{
    match items {
        Some(those) => Ok(Some(copy_items::<T>(alloc, those)?)),
        None => Ok(None),
    }
}
