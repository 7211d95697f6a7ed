//! PrincipalName as a value. `asn1/generate` wrote this from `asn1/krb5.asn1`.

ghost use Rattle.std.specs.Prelude.{◌≡◌, refl};
ghost use Rattle.krb_msg.specs.Grammar.{principal_name};
ghost use Rattle.krb_msg.specs.Types.{principal_name_value, principal_name_of, principal_name_of_view};
ghost use Rattle.krb_msg.specs.inner.RoundTrips.{principal_name-back};
ghost use Rattle.krb_codec.specs.inner.PrefixFree.{type_is_prefix_free};

use crate::copying::{FromPlainView, FromView, copy_items};
use crate::fields::Encode;
use crate::item::Item;
use crate::notes::Noted;
use krb_der::{Int32, KString, Many, Memory};
use krb_msg::{End, Notes, PrincipalName, PrincipalNameView, Required, Sequence, any_of};
use std::alloc::Global;

/// Its fields, borrowed.
type Layout<'a> = Sequence<Required<0, &'a Int32, Required<1, &'a Many<KString>, End>>>;

/// Returns the fields, borrowed.
fn layout(it: &PrincipalName) -> Layout<'_>
    ensures { ⟦<Layout<'static> as Encode>⟧.value result ≡ principal_name_value it.now }
{
    Sequence(Required(&it.name_type, Required(&it.name, End)))
}

impl Item for PrincipalName {
    ghost term = { principal_name };

    ghost value = { principal_name_value };

    fn size(&self) -> u64 {
        layout(self).size()
    }

    fn put(&self, out: &mut Vec<u8>) {
        layout(self).put(out);
    }

    ghost prefix_free = { type_is_prefix_free principal_name refl principal_name_value principal_name_of principal_name-back };
}

impl Noted for PrincipalName {
    fn notes(&self) -> Notes {
        any_of!(self.name.notes())
    }
}

impl<'a> FromView<'a> for PrincipalName {
    ghost copied = { principal_name_of_view };

    fn from_view(alloc: Global, seen: &PrincipalNameView<'a>) -> Result<PrincipalName, Memory> {
        Ok(PrincipalName {
            name_type: Int32::from_plain_view(&seen.name_type),
            name: copy_items(alloc, seen.name)?,
        })
    }
}
