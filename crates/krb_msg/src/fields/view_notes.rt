//! The notes on views.

ghost use Rattle.std.specs.Prelude.{◌≡◌, ◌||◌, false};
ghost use Rattle.std.specs.Option.{option_map};
ghost use Rattle.krb_msg.specs.Notes.{EmptyList, is_list_that_has, option_any, has, notes_by};
ghost use Rattle.krb_msg.specs.Term.{IfPresent};
ghost use Rattle.krb_msg.specs.inner.Notes.{HasNoNotes, is_list};

use crate::fields::View;
use crate::notes::Notes;

/// A type in whose views notes may hold.
pub trait NotedView<'a>: View<'a> {
    /// Returns the notes that hold in a view.
    fn notes(seen: &Self::Of) -> Notes
        requires { Self.View.IsValid seen.now }
        ensures { result ≡ notes_by (λ note. has note Self.View.term (Self.View.value seen.now)) };
}

/// A list that may be left out where it is a field.
pub trait NotedListView<'a>: NotedView<'a> {
    /// Returns whether a view is of a list without items.
    fn is_empty_list(seen: &Self::Of) -> bool
        requires { Self.View.IsValid seen.now }
        ensures { result ≡ is_list_that_has EmptyList Self.View.term (Self.View.value seen.now) };
}

/// Returns the notes on a list that may be left out, if it is there.
#[inline(always)]
pub(crate) fn optional_list_view_notes<'a, T: NotedListView<'a>>(field: &Option<T::Of>) -> Notes
    requires { IfPresent T.View.IsValid field.now }
    ensures { result ≡ notes_by (λ note. option_any (λ value. is_list_that_has note T.View.term value || has note T.View.term value) (option_map T.View.value field.now)) }
{
    match field {
        Some(seen) => Notes::of_empty_list(T::is_empty_list(seen)).or(T::notes(seen)),
        None => Notes::none(),
    }
}

/// Returns the notes on a field that may be left out, but is no list, if it is there.
#[inline(always)]
pub(crate) fn optional_view_notes<'a, T: NotedView<'a>>(field: &Option<T::Of>) -> Notes
    requires no_list { is_list T.View.term ≡ false }
    requires valid { IfPresent T.View.IsValid field.now }
    ensures { result ≡ notes_by (λ note. option_any (λ value. is_list_that_has note T.View.term value || has note T.View.term value) (option_map T.View.value field.now)) }
{
    match field {
        Some(seen) => T::notes(seen),
        None => Notes::none(),
    }
}

/// Returns the notes on a field that may be left out, in whose views none can hold.
#[inline(always)]
pub(crate) fn no_optional_view_notes<'a, T: View<'a>>(_field: &Option<T::Of>) -> Notes
    requires no_list { is_list T.View.term ≡ false }
    requires none { HasNoNotes T.View.term }
    ensures { result ≡ notes_by (λ note. option_any (λ value. is_list_that_has note T.View.term value || has note T.View.term value) (option_map T.View.value _field.now)) }
{
    Notes::none()
}
