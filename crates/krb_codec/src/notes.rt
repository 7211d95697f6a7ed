//! The notes on values.

ghost use Rattle.std.specs.Prelude.{◌≡◌, ◌||◌, false};
ghost use Rattle.std.specs.Option.{option_map};
ghost use Rattle.krb_msg.specs.Notes.{EmptyList, is_list_that_has, is_strict, option_any, has, notes_by};
ghost use Rattle.krb_msg.specs.inner.Notes.{HasNoNotes, is_list};

mod items;
mod lists;
mod scalars;

use crate::item::Item;
use crate::message::notes_of;
use krb_msg::{Message, Notes};

/// A type in whose values notes may hold.
pub trait Noted: Item {
    /// Returns the notes that hold in the value.
    fn notes(&self) -> Notes
        ensures { result ≡ notes_by (λ note. has note Self.Item.term (Self.Item.value self.now)) };
}

/// A list that may be left out where it is a field.
pub trait NotedList: Noted {
    /// Returns whether the value is a list without items.
    fn is_empty_list(&self) -> bool
        ensures { result ≡ is_list_that_has EmptyList Self.Item.term (Self.Item.value self.now) };
}

/// Returns the notes on a list that may be left out, if it is there.
pub(crate) fn optional_list_notes<T: NotedList>(field: &Option<T>) -> Notes
    ensures { result ≡ notes_by (λ note. option_any (λ value. is_list_that_has note T.Item.term value || has note T.Item.term value) (option_map T.Item.value field.now)) }
{
    match field {
        Some(value) => Notes::of_empty_list(value.is_empty_list()).or(value.notes()),
        None => Notes::none(),
    }
}

/// Returns the notes on a field that may be left out, but is no list, if it is there.
pub(crate) fn optional_notes<T: Noted>(field: &Option<T>) -> Notes
    requires { is_list T.Item.term ≡ false }
    ensures { result ≡ notes_by (λ note. option_any (λ value. is_list_that_has note T.Item.term value || has note T.Item.term value) (option_map T.Item.value field.now)) }
{
    match field {
        Some(value) => value.notes(),
        None => Notes::none(),
    }
}

/// Returns the notes on a field that may be left out, in whose values none can hold.
pub(crate) fn no_optional_notes<T: Item>(_field: &Option<T>) -> Notes
    requires no_list { is_list T.Item.term ≡ false }
    requires none { HasNoNotes T.Item.term }
    ensures { result ≡ notes_by (λ note. option_any (λ value. is_list_that_has note T.Item.term value || has note T.Item.term value) (option_map T.Item.value _field.now)) }
{
    Notes::none()
}

/// Returns whether a message keeps the strict rules (`Profile::Strict`): none of the notes 1 to 4
/// holds in it. It allocates nothing.
pub fn is_strict(message: &Message) -> bool
    ensures { result ≡ is_strict message.now }
{
    notes_of(message).are_none()
}
