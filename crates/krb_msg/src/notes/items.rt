//! The notes on lists that are viewed.

ghost use Rattle.std.specs.Prelude.{◌≡◌, true};
ghost use Rattle.std.specs.List.{list_any};
ghost use Rattle.krb_msg.specs.Grammar.{kerberos_string};
ghost use Rattle.krb_msg.specs.Shape.{has_octet_tags, is_unambiguous};
ghost use Rattle.krb_msg.specs.Viewed.{AreViewed, items_of};
ghost use Rattle.krb_msg.specs.Notes.{EmptyList, has, list_has, notes_by};
ghost use Rattle.krb_msg.specs.inner.Notes.{HasNoNotes};

use crate::fields::{NotedView, View};
use crate::notes::Notes;
use crate::notes::scalars::has_high_octet;
use crate::view::items::{ItemsView, next_item};
use krb_der::KString;

/// Returns whether a list that is viewed has no items.
#[inline(always)]
pub fn has_no_items_in_view<'a, T: View<'a>>(items: &ItemsView<'a>) -> bool
    requires { AreViewed T.View.term items.now.octets.now }
    ensures { result ≡ list_has EmptyList (items_of T.View.term items.now.octets.now) }
{
    items.octets.is_empty()
}

/// Returns the notes that hold in some of the items of a list that is viewed.
pub fn notes_of_items_in_view<'a, T: NotedView<'a>>(items: ItemsView<'a>) -> Notes
    requires tags { has_octet_tags T.View.term ≡ true }
    requires unambiguous { is_unambiguous T.View.term ≡ true }
    requires viewed { AreViewed T.View.term items.octets.now }
    ensures { result ≡ notes_by (λ note. list_any (has note T.View.term) (items_of T.View.term items.entry.octets.now)) }
{
    let mut notes = Notes::none();
    let mut rest = items;
    'items: while let Some((seen, others)) = next_item::<T>(rest) {
        notes = notes.or(T::notes(&seen));
        rest = others;
    }
    notes
}

/// Returns the notes that hold in some of the strings of a list that is viewed. Mostly none does,
/// which one look at all octets of the list tells.
pub fn notes_of_strings_in_view(items: &ItemsView<'_>) -> Notes
    requires { AreViewed kerberos_string items.now.octets.now }
    ensures { result ≡ notes_by (λ note. list_any (has note kerberos_string) (items_of kerberos_string items.now.octets.now)) }
{
    if has_high_octet(items.octets) {
        notes_of_items_in_view::<KString>(*items)
    } else {
        Notes::none()
    }
}

/// Returns the notes on a list that is viewed, in whose items none can hold.
#[inline(always)]
pub fn no_notes_of_items_in_view<'a, T: View<'a>>(_items: &ItemsView<'a>) -> Notes
    requires { HasNoNotes T.View.term }
    ensures { result ≡ notes_by (λ note. list_any (has note T.View.term) (items_of T.View.term _items.now.octets.now)) }
{
    Notes::none()
}
