//! PA-DATA as a value. `asn1/generate` wrote this from `asn1/krb5.asn1`.

ghost use Rattle.std.specs.Prelude.{◌≡◌, refl, map};
ghost use Rattle.krb_msg.specs.Grammar.{pa_data};
ghost use Rattle.krb_msg.specs.Types.{pa_data_value, pa_data_of, pa_data_of_view};
ghost use Rattle.krb_msg.specs.Viewed.{items_of};
ghost use Rattle.krb_msg.specs.inner.RoundTrips.{pa_data-back};
ghost use Rattle.krb_codec.specs.inner.PrefixFree.{type_is_prefix_free};

use crate::copying::{FromPlainView, FromView, copy_items};
use crate::fields::Encode;
use crate::item::Item;
use krb_der::{Int32, Many, Memory, Octets};
use krb_msg::{End, ItemsView, PaData, PaDataView, Required, Sequence};
use std::alloc::Global;

/// Its fields, borrowed.
type Layout<'a> = Sequence<Required<1, &'a Int32, Required<2, &'a Octets, End>>>;

/// Returns the fields, borrowed.
fn layout(it: &PaData) -> Layout<'_>
    ensures { ⟦<Layout<'static> as Encode>⟧.value result ≡ pa_data_value it.now }
{
    Sequence(Required(&it.padata_type, Required(&it.padata_value, End)))
}

impl Item for PaData {
    ghost term = { pa_data };

    ghost value = { pa_data_value };

    fn size(&self) -> u64 {
        layout(self).size()
    }

    fn put(&self, out: &mut Vec<u8>) {
        layout(self).put(out);
    }

    ghost prefix_free = { type_is_prefix_free pa_data refl pa_data_value pa_data_of pa_data-back };
}

impl<'a> FromView<'a> for PaData {
    ghost copied = { pa_data_of_view };

    fn from_view(alloc: Global, seen: &PaDataView<'a>) -> Result<PaData, Memory> {
        Ok(PaData {
            padata_type: Int32::from_plain_view(&seen.padata_type),
            padata_value: Octets::from_view(alloc, &seen.padata_value)?,
        })
    }
}

/// METHOD-DATA (RFC 4120, 5.9.1).
impl<'a> FromView<'a> for Many<PaData> {
    ghost copied = { λ seen. map pa_data_of (items_of pa_data seen.octets.now) };

    fn from_view(alloc: Global, seen: &ItemsView<'a>) -> Result<Many<PaData>, Memory> {
        copy_items(alloc, *seen)
    }
}
