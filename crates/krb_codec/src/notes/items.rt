//! The notes on lists.

ghost use Rattle.std.specs.Prelude.{◌≡◌, map};
ghost use Rattle.std.specs.List.{list_any};
ghost use Rattle.krb_msg.specs.Notes.{has, notes_by};
ghost use Rattle.krb_msg.specs.inner.Notes.{HasNoNotes};

use crate::item::Item;
use crate::notes::Noted;
use krb_der::Many;
use krb_msg::Notes;

/// Returns the notes that hold in some of the items of a list.
pub(crate) fn notes_of_items<T: Noted>(values: &Many<T>) -> Notes
    ensures { result ≡ notes_by (λ note. list_any (has note T.Item.term) (map T.Item.value values.now)) }
{
    let mut notes = Notes::none();
    for value in values.as_slice() {
        notes = notes.or(value.notes());
    }
    notes
}

/// Returns the notes on a list in whose items none can hold.
pub(crate) fn no_notes_of_items<T: Item>(_values: &Many<T>) -> Notes
    requires { HasNoNotes T.term }
    ensures { result ≡ notes_by (λ note. list_any (has note T.term) (map T.value _values.now)) }
{
    Notes::none()
}
