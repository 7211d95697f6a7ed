//! HostAddress. `asn1/generate` wrote this from `asn1/krb5.asn1`.

ghost use Rattle.std.specs.Prelude.{◌≡◌, true};
ghost use Rattle.krb_msg.specs.Term.{tag_of};
ghost use Rattle.krb_msg.specs.Grammar.{host_address};
ghost use Rattle.krb_msg.specs.Types.{host_address_view_value, IsValidHostAddress};

use crate::fields::{End, Required, Sequence, View, ViewSequence};
use krb_der::{Int32, Octets};

/// The address of a host (RFC 4120, 5.2.5), which is not interpreted.
#[derive(PartialEq, Eq, Debug, Drop)]
pub struct HostAddress {
    /// The type of the address (7.5.3).
    pub addr_type: Int32,
    /// The address.
    pub address: Octets,
}

/// A view of a HostAddress: its strings and lists are borrowed from the octets.
#[derive(Clone, Copy, Default)]
pub struct HostAddressView<'a> {
    /// The type of the address (7.5.3).
    pub addr_type: i64,
    /// The address.
    pub address: &'a [u8],
}

/// Its fields.
type Layout = Sequence<Required<0, Int32, Required<1, Octets, End>>>;

impl<'a> View<'a> for HostAddress {
    type Of = HostAddressView<'a>;

    ghost term = { host_address };

    ghost value = { host_address_view_value };

    ghost IsValid = { IsValidHostAddress };

    #[inline(always)]
    fn tag() -> u8
        ensures { result ≡ tag_of host_address }
    {
        0x30
    }

    #[inline(always)]
    fn view_into(contents: &'a [u8], seen: &mut HostAddressView<'a>) -> bool {
        let mut fields = Default::default();
        if !<Layout as ViewSequence<'_>>::view_into(contents, &mut fields) {
            return false;
        }
        let (addr_type, (address, ())) = fields;
        *seen = HostAddressView { addr_type, address };
        true
    }
}
