//! HostAddress as a value. `asn1/generate` wrote this from `asn1/krb5.asn1`.

ghost use Rattle.std.specs.Prelude.{◌≡◌, refl};
ghost use Rattle.krb_msg.specs.Grammar.{host_address};
ghost use Rattle.krb_msg.specs.Types.{host_address_value, host_address_of, host_address_of_view};
ghost use Rattle.krb_msg.specs.inner.RoundTrips.{host_address-back};
ghost use Rattle.krb_codec.specs.inner.PrefixFree.{type_is_prefix_free};

use crate::copying::{FromPlainView, FromView};
use crate::fields::Encode;
use crate::item::Item;
use krb_der::{Int32, Memory, Octets};
use krb_msg::{End, HostAddress, HostAddressView, Required, Sequence};
use std::alloc::Global;

/// Its fields, borrowed.
type Layout<'a> = Sequence<Required<0, &'a Int32, Required<1, &'a Octets, End>>>;

/// Returns the fields, borrowed.
fn layout(it: &HostAddress) -> Layout<'_>
    ensures { ⟦<Layout<'static> as Encode>⟧.value result ≡ host_address_value it.now }
{
    Sequence(Required(&it.addr_type, Required(&it.address, End)))
}

impl Item for HostAddress {
    ghost term = { host_address };

    ghost value = { host_address_value };

    fn size(&self) -> u64 {
        layout(self).size()
    }

    fn put(&self, out: &mut Vec<u8>) {
        layout(self).put(out);
    }

    ghost prefix_free = { type_is_prefix_free host_address refl host_address_value host_address_of host_address-back };
}

impl<'a> FromView<'a> for HostAddress {
    ghost copied = { host_address_of_view };

    fn from_view(alloc: Global, seen: &HostAddressView<'a>) -> Result<HostAddress, Memory> {
        Ok(HostAddress {
            addr_type: Int32::from_plain_view(&seen.addr_type),
            address: Octets::from_view(alloc, &seen.address)?,
        })
    }
}
