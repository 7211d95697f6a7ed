//! KRB-CRED as a value. `asn1/generate` wrote this from `asn1/krb5.asn1`.

ghost use Rattle.std.specs.Prelude.{◌≡◌, refl};
ghost use Rattle.krb_msg.specs.Grammar.{krb_cred};
ghost use Rattle.krb_msg.specs.Types.{krb_cred_value, krb_cred_of, krb_cred_of_view};
ghost use Rattle.krb_msg.specs.inner.RoundTrips.{krb_cred-back};
ghost use Rattle.krb_codec.specs.inner.PrefixFree.{type_is_prefix_free};

use crate::copying::{FromView, copy_items};
use crate::fields::Encode;
use crate::item::Item;
use crate::notes::Noted;
use krb_der::{Many, Memory};
use krb_msg::{
    Application, EncryptedData, End, Fixed, KrbCred, KrbCredView, Notes, Required, Sequence,
    Ticket, any_of,
};
use std::alloc::Global;

/// Its fields, borrowed.
type Layout<'a> = Application<
    22,
    Sequence<
        Fixed<
            0,
            5,
            Fixed<1, 22, Required<2, &'a Many<Ticket>, Required<3, &'a EncryptedData, End>>>,
        >,
    >,
>;

/// Returns the fields, borrowed.
fn layout(it: &KrbCred) -> Layout<'_>
    ensures { ⟦<Layout<'static> as Encode>⟧.value result ≡ krb_cred_value it.now }
{
    Application(Sequence(Fixed(Fixed(Required(&it.tickets, Required(&it.enc_part, End))))))
}

impl Item for KrbCred {
    ghost term = { krb_cred };

    ghost value = { krb_cred_value };

    fn size(&self) -> u64 {
        layout(self).size()
    }

    fn put(&self, out: &mut Vec<u8>) {
        layout(self).put(out);
    }

    ghost prefix_free = { type_is_prefix_free krb_cred refl krb_cred_value krb_cred_of krb_cred-back };
}

impl Noted for KrbCred {
    fn notes(&self) -> Notes {
        any_of!(self.tickets.notes(), self.enc_part.notes())
    }
}

impl<'a> FromView<'a> for KrbCred {
    ghost copied = { krb_cred_of_view };

    fn from_view(alloc: Global, seen: &KrbCredView<'a>) -> Result<KrbCred, Memory> {
        Ok(KrbCred {
            tickets: copy_items(alloc, seen.tickets)?,
            enc_part: EncryptedData::from_view(alloc, &seen.enc_part)?,
        })
    }
}
