//! KRB-SAFE as a value. `asn1/generate` wrote this from `asn1/krb5.asn1`.

ghost use Rattle.std.specs.Prelude.{◌≡◌, refl};
ghost use Rattle.krb_msg.specs.Grammar.{krb_safe};
ghost use Rattle.krb_msg.specs.Types.{krb_safe_value, krb_safe_of, krb_safe_of_view};
ghost use Rattle.krb_msg.specs.inner.RoundTrips.{krb_safe-back};
ghost use Rattle.krb_codec.specs.inner.PrefixFree.{type_is_prefix_free};

use crate::copying::FromView;
use crate::fields::Encode;
use crate::item::Item;
use crate::notes::Noted;
use krb_der::Memory;
use krb_msg::{
    Application, Checksum, End, Fixed, KrbSafe, KrbSafeBody, KrbSafeView, Notes, Required,
    Sequence, any_of,
};
use std::alloc::Global;

/// Its fields, borrowed.
type Layout<'a> = Application<
    20,
    Sequence<
        Fixed<0, 5, Fixed<1, 20, Required<2, &'a KrbSafeBody, Required<3, &'a Checksum, End>>>>,
    >,
>;

/// Returns the fields, borrowed.
fn layout(it: &KrbSafe) -> Layout<'_>
    ensures { ⟦<Layout<'static> as Encode>⟧.value result ≡ krb_safe_value it.now }
{
    Application(Sequence(Fixed(Fixed(Required(&it.body, Required(&it.cksum, End))))))
}

impl Item for KrbSafe {
    ghost term = { krb_safe };

    ghost value = { krb_safe_value };

    fn size(&self) -> u64 {
        layout(self).size()
    }

    fn put(&self, out: &mut Vec<u8>) {
        layout(self).put(out);
    }

    ghost prefix_free = { type_is_prefix_free krb_safe refl krb_safe_value krb_safe_of krb_safe-back };
}

impl Noted for KrbSafe {
    fn notes(&self) -> Notes {
        any_of!(self.body.notes())
    }
}

impl<'a> FromView<'a> for KrbSafe {
    ghost copied = { krb_safe_of_view };

    fn from_view(alloc: Global, seen: &KrbSafeView<'a>) -> Result<KrbSafe, Memory> {
        Ok(KrbSafe {
            body: KrbSafeBody::from_view(alloc, &seen.body)?,
            cksum: Checksum::from_view(alloc, &seen.cksum)?,
        })
    }
}
