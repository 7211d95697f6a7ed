//! KRB-PRIV as a value. `asn1/generate` wrote this from `asn1/krb5.asn1`.

ghost use Rattle.std.specs.Prelude.{◌≡◌, refl};
ghost use Rattle.krb_msg.specs.Grammar.{krb_priv};
ghost use Rattle.krb_msg.specs.Types.{krb_priv_value, krb_priv_of, krb_priv_of_view};
ghost use Rattle.krb_msg.specs.inner.RoundTrips.{krb_priv-back};
ghost use Rattle.krb_codec.specs.inner.PrefixFree.{type_is_prefix_free};

use crate::copying::FromView;
use crate::fields::Encode;
use crate::item::Item;
use crate::notes::Noted;
use krb_der::Memory;
use krb_msg::{
    Application, EncryptedData, End, Fixed, KrbPriv, KrbPrivView, Notes, Required, Sequence, any_of,
};
use std::alloc::Global;

/// Its fields, borrowed.
type Layout<'a> = Application<
    21,
    Sequence<Fixed<0, 5, Fixed<1, 21, Required<3, &'a EncryptedData, End>>>>,
>;

/// Returns the fields, borrowed.
fn layout(it: &KrbPriv) -> Layout<'_>
    ensures { ⟦<Layout<'static> as Encode>⟧.value result ≡ krb_priv_value it.now }
{
    Application(Sequence(Fixed(Fixed(Required(&it.enc_part, End)))))
}

impl Item for KrbPriv {
    ghost term = { krb_priv };

    ghost value = { krb_priv_value };

    fn size(&self) -> u64 {
        layout(self).size()
    }

    fn put(&self, out: &mut Vec<u8>) {
        layout(self).put(out);
    }

    ghost prefix_free = { type_is_prefix_free krb_priv refl krb_priv_value krb_priv_of krb_priv-back };
}

impl Noted for KrbPriv {
    fn notes(&self) -> Notes {
        any_of!(self.enc_part.notes())
    }
}

impl<'a> FromView<'a> for KrbPriv {
    ghost copied = { krb_priv_of_view };

    fn from_view(alloc: Global, seen: &KrbPrivView<'a>) -> Result<KrbPriv, Memory> {
        Ok(KrbPriv {
            enc_part: EncryptedData::from_view(alloc, &seen.enc_part)?,
        })
    }
}
