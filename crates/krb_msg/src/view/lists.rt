//! The lists of the grammar viewed in place. `asn1/generate` wrote this from `asn1/krb5.asn1`.

ghost use Rattle.std.specs.Prelude.{◌≡◌};
ghost use Rattle.krb_msg.specs.Term.{tag_of};
ghost use Rattle.krb_msg.specs.Grammar.{sequence_of, host_address, int32, kerberos_string, pa_data, ticket};
ghost use Rattle.krb_msg.specs.Viewed.{AreViewed, items_of};

use crate::fields::View;
use crate::host_address::HostAddress;
use crate::pa_data::PaData;
use crate::ticket::Ticket;
use crate::view::items::{ItemsView, view_items};
use krb_der::{Int32, KString, Many};

impl<'a> View<'a> for Many<HostAddress> {
    type Of = ItemsView<'a>;

    ghost term = { sequence_of host_address };

    ghost value = { λ seen. items_of host_address seen.octets.now };

    ghost IsValid = { λ seen. AreViewed host_address seen.octets.now };

    #[inline(always)]
    fn tag() -> u8
        ensures { result ≡ tag_of (sequence_of host_address) }
    {
        0x30
    }

    #[inline(always)]
    fn view_into(contents: &'a [u8], seen: &mut ItemsView<'a>) -> bool {
        view_items::<HostAddress>(contents, seen)
    }
}

impl<'a> View<'a> for Many<Int32> {
    type Of = ItemsView<'a>;

    ghost term = { sequence_of int32 };

    ghost value = { λ seen. items_of int32 seen.octets.now };

    ghost IsValid = { λ seen. AreViewed int32 seen.octets.now };

    #[inline(always)]
    fn tag() -> u8
        ensures { result ≡ tag_of (sequence_of int32) }
    {
        0x30
    }

    #[inline(always)]
    fn view_into(contents: &'a [u8], seen: &mut ItemsView<'a>) -> bool {
        view_items::<Int32>(contents, seen)
    }
}

impl<'a> View<'a> for Many<KString> {
    type Of = ItemsView<'a>;

    ghost term = { sequence_of kerberos_string };

    ghost value = { λ seen. items_of kerberos_string seen.octets.now };

    ghost IsValid = { λ seen. AreViewed kerberos_string seen.octets.now };

    #[inline(always)]
    fn tag() -> u8
        ensures { result ≡ tag_of (sequence_of kerberos_string) }
    {
        0x30
    }

    #[inline(always)]
    fn view_into(contents: &'a [u8], seen: &mut ItemsView<'a>) -> bool {
        view_items::<KString>(contents, seen)
    }
}

impl<'a> View<'a> for Many<PaData> {
    type Of = ItemsView<'a>;

    ghost term = { sequence_of pa_data };

    ghost value = { λ seen. items_of pa_data seen.octets.now };

    ghost IsValid = { λ seen. AreViewed pa_data seen.octets.now };

    #[inline(always)]
    fn tag() -> u8
        ensures { result ≡ tag_of (sequence_of pa_data) }
    {
        0x30
    }

    #[inline(always)]
    fn view_into(contents: &'a [u8], seen: &mut ItemsView<'a>) -> bool {
        view_items::<PaData>(contents, seen)
    }
}

impl<'a> View<'a> for Many<Ticket> {
    type Of = ItemsView<'a>;

    ghost term = { sequence_of ticket };

    ghost value = { λ seen. items_of ticket seen.octets.now };

    ghost IsValid = { λ seen. AreViewed ticket seen.octets.now };

    #[inline(always)]
    fn tag() -> u8
        ensures { result ≡ tag_of (sequence_of ticket) }
    {
        0x30
    }

    #[inline(always)]
    fn view_into(contents: &'a [u8], seen: &mut ItemsView<'a>) -> bool {
        view_items::<Ticket>(contents, seen)
    }
}
