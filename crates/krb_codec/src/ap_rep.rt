//! AP-REP as a value. `asn1/generate` wrote this from `asn1/krb5.asn1`.

ghost use Rattle.std.specs.Prelude.{◌≡◌, refl};
ghost use Rattle.krb_msg.specs.Grammar.{ap_rep};
ghost use Rattle.krb_msg.specs.Types.{ap_rep_value, ap_rep_of, ap_rep_of_view};
ghost use Rattle.krb_msg.specs.inner.RoundTrips.{ap_rep-back};
ghost use Rattle.krb_codec.specs.inner.PrefixFree.{type_is_prefix_free};

use crate::copying::FromView;
use crate::fields::Encode;
use crate::item::Item;
use crate::notes::Noted;
use krb_der::Memory;
use krb_msg::{
    ApRep, ApRepView, Application, EncryptedData, End, Fixed, Notes, Required, Sequence, any_of,
};
use std::alloc::Global;

/// Its fields, borrowed.
type Layout<'a> = Application<
    15,
    Sequence<Fixed<0, 5, Fixed<1, 15, Required<2, &'a EncryptedData, End>>>>,
>;

/// Returns the fields, borrowed.
fn layout(it: &ApRep) -> Layout<'_>
    ensures { ⟦<Layout<'static> as Encode>⟧.value result ≡ ap_rep_value it.now }
{
    Application(Sequence(Fixed(Fixed(Required(&it.enc_part, End)))))
}

impl Item for ApRep {
    ghost term = { ap_rep };

    ghost value = { ap_rep_value };

    fn size(&self) -> u64 {
        layout(self).size()
    }

    fn put(&self, out: &mut Vec<u8>) {
        layout(self).put(out);
    }

    ghost prefix_free = { type_is_prefix_free ap_rep refl ap_rep_value ap_rep_of ap_rep-back };
}

impl Noted for ApRep {
    fn notes(&self) -> Notes {
        any_of!(self.enc_part.notes())
    }
}

impl<'a> FromView<'a> for ApRep {
    ghost copied = { ap_rep_of_view };

    fn from_view(alloc: Global, seen: &ApRepView<'a>) -> Result<ApRep, Memory> {
        Ok(ApRep {
            enc_part: EncryptedData::from_view(alloc, &seen.enc_part)?,
        })
    }
}
