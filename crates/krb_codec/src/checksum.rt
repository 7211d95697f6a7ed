//! Checksum as a value. `asn1/generate` wrote this from `asn1/krb5.asn1`.

ghost use Rattle.std.specs.Prelude.{◌≡◌, refl};
ghost use Rattle.krb_msg.specs.Grammar.{checksum as checksum_term};
ghost use Rattle.krb_msg.specs.Types.{checksum_value, checksum_of, checksum_of_view};
ghost use Rattle.krb_msg.specs.inner.RoundTrips.{checksum-back};
ghost use Rattle.krb_codec.specs.inner.PrefixFree.{type_is_prefix_free};

use crate::copying::{FromPlainView, FromView};
use crate::fields::Encode;
use crate::item::Item;
use krb_der::{Int32, Memory, Octets};
use krb_msg::{Checksum, ChecksumView, End, Required, Sequence};
use std::alloc::Global;

/// Its fields, borrowed.
type Layout<'a> = Sequence<Required<0, &'a Int32, Required<1, &'a Octets, End>>>;

/// Returns the fields, borrowed.
fn layout(it: &Checksum) -> Layout<'_>
    ensures { ⟦<Layout<'static> as Encode>⟧.value result ≡ checksum_value it.now }
{
    Sequence(Required(&it.cksumtype, Required(&it.checksum, End)))
}

impl Item for Checksum {
    ghost term = { checksum_term };

    ghost value = { checksum_value };

    fn size(&self) -> u64 {
        layout(self).size()
    }

    fn put(&self, out: &mut Vec<u8>) {
        layout(self).put(out);
    }

    ghost prefix_free = { type_is_prefix_free checksum_term refl checksum_value checksum_of checksum-back };
}

impl<'a> FromView<'a> for Checksum {
    ghost copied = { checksum_of_view };

    fn from_view(alloc: Global, seen: &ChecksumView<'a>) -> Result<Checksum, Memory> {
        Ok(Checksum {
            cksumtype: Int32::from_plain_view(&seen.cksumtype),
            checksum: Octets::from_view(alloc, &seen.checksum)?,
        })
    }
}
