//! EncryptedData as a value. `asn1/generate` wrote this from `asn1/krb5.asn1`.

ghost use Rattle.std.specs.Prelude.{◌≡◌, refl};
ghost use Rattle.krb_msg.specs.Grammar.{encrypted_data};
ghost use Rattle.krb_msg.specs.Types.{encrypted_data_value, encrypted_data_of, encrypted_data_of_view};
ghost use Rattle.krb_msg.specs.inner.RoundTrips.{encrypted_data-back};
ghost use Rattle.krb_codec.specs.inner.PrefixFree.{type_is_prefix_free};

use crate::copying::{FromPlainView, FromView, copy_plain_option};
use crate::fields::Encode;
use crate::item::Item;
use crate::notes::{Noted, optional_notes};
use krb_der::{Int32, Memory, Octets, Wide32};
use krb_msg::{EncryptedData, EncryptedDataView, End, Notes, Optional, Required, Sequence, any_of};
use std::alloc::Global;

/// Its fields, borrowed.
type Layout<'a> = Sequence<
    Required<0, &'a Int32, Optional<1, &'a Wide32, Required<2, &'a Octets, End>>>,
>;

/// Returns the fields, borrowed.
fn layout(it: &EncryptedData) -> Layout<'_>
    ensures { ⟦<Layout<'static> as Encode>⟧.value result ≡ encrypted_data_value it.now }
{
    Sequence(Required(
        &it.etype,
        Optional(it.kvno.as_ref(), Required(&it.cipher, End)),
    ))
}

impl Item for EncryptedData {
    ghost term = { encrypted_data };

    ghost value = { encrypted_data_value };

    fn size(&self) -> u64 {
        layout(self).size()
    }

    fn put(&self, out: &mut Vec<u8>) {
        layout(self).put(out);
    }

    ghost prefix_free = { type_is_prefix_free encrypted_data refl encrypted_data_value encrypted_data_of encrypted_data-back };
}

impl Noted for EncryptedData {
    fn notes(&self) -> Notes {
        any_of!(optional_notes(&self.kvno))
    }
}

impl<'a> FromView<'a> for EncryptedData {
    ghost copied = { encrypted_data_of_view };

    fn from_view(alloc: Global, seen: &EncryptedDataView<'a>) -> Result<EncryptedData, Memory> {
        Ok(EncryptedData {
            etype: Int32::from_plain_view(&seen.etype),
            kvno: copy_plain_option(&seen.kvno),
            cipher: Octets::from_view(alloc, &seen.cipher)?,
        })
    }
}
