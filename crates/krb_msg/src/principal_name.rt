//! PrincipalName. `asn1/generate` wrote this from `asn1/krb5.asn1`.

ghost use Rattle.std.specs.Prelude.{◌≡◌, true};
ghost use Rattle.krb_msg.specs.Term.{tag_of};
ghost use Rattle.krb_msg.specs.Grammar.{principal_name};
ghost use Rattle.krb_msg.specs.Types.{principal_name_view_value, IsValidPrincipalName};

use crate::any_of;
use crate::fields::{End, NotedView, Required, Sequence, View, view_by_call};
use crate::notes::Notes;
use crate::view::items::ItemsView;
use krb_der::{Int32, KString, Many};

/// The name of a principal within a realm (RFC 4120, 5.2.2).
#[derive(PartialEq, Eq, Debug, Drop)]
pub struct PrincipalName {
    /// The type of the name (6.2), a hint: names that differ in it alone name one principal.
    pub name_type: Int32,
    /// The components of the name, in order.
    pub name: Many<KString>,
}

/// A view of a PrincipalName: its strings and lists are borrowed from the octets.
#[derive(Clone, Copy, Default)]
pub struct PrincipalNameView<'a> {
    /// The type of the name (6.2), a hint: names that differ in it alone name one principal.
    pub name_type: i64,
    /// The components of the name, in order.
    pub name: ItemsView<'a>,
}

/// Its fields.
type Layout = Sequence<Required<0, Int32, Required<1, Many<KString>, End>>>;

impl<'a> View<'a> for PrincipalName {
    type Of = PrincipalNameView<'a>;

    ghost term = { principal_name };

    ghost value = { principal_name_view_value };

    ghost IsValid = { IsValidPrincipalName };

    #[inline(always)]
    fn tag() -> u8
        ensures { result ≡ tag_of principal_name }
    {
        0x30
    }

    #[inline(always)]
    fn view_into(contents: &'a [u8], seen: &mut PrincipalNameView<'a>) -> bool {
        let Some((name_type, (name, ()))) = view_by_call::<Layout>(contents) else {
            return false;
        };
        *seen = PrincipalNameView {
            name_type,
            name: ItemsView {
                octets: &*name.octets,
            },
        };
        true
    }
}

impl<'a> NotedView<'a> for PrincipalName {
    #[inline(always)]
    fn notes(seen: &PrincipalNameView<'a>) -> Notes {
        any_of!(<Many<KString> as NotedView<'_>>::notes(&seen.name))
    }
}
