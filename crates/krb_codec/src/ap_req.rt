//! AP-REQ as a value. `asn1/generate` wrote this from `asn1/krb5.asn1`.

ghost use Rattle.std.specs.Prelude.{◌≡◌, refl};
ghost use Rattle.krb_msg.specs.Grammar.{ap_req};
ghost use Rattle.krb_msg.specs.Types.{ap_req_value, ap_req_of, ap_req_of_view};
ghost use Rattle.krb_msg.specs.inner.RoundTrips.{ap_req-back};
ghost use Rattle.krb_codec.specs.inner.PrefixFree.{type_is_prefix_free};

use crate::copying::FromView;
use crate::fields::Encode;
use crate::item::Item;
use crate::notes::Noted;
use krb_der::{Flags, Memory};
use krb_msg::{
    ApReq, ApReqView, Application, EncryptedData, End, Fixed, Notes, Required, Sequence, Ticket,
    any_of,
};
use std::alloc::Global;

/// Its fields, borrowed.
type Layout<'a> = Application<
    14,
    Sequence<
        Fixed<
            0,
            5,
            Fixed<
                1,
                14,
                Required<
                    2,
                    &'a Flags,
                    Required<3, &'a Ticket, Required<4, &'a EncryptedData, End>>,
                >,
            >,
        >,
    >,
>;

/// Returns the fields, borrowed.
fn layout(it: &ApReq) -> Layout<'_>
    ensures { ⟦<Layout<'static> as Encode>⟧.value result ≡ ap_req_value it.now }
{
    Application(Sequence(Fixed(Fixed(Required(
        &it.ap_options,
        Required(&it.ticket, Required(&it.authenticator, End)),
    )))))
}

impl Item for ApReq {
    ghost term = { ap_req };

    ghost value = { ap_req_value };

    fn size(&self) -> u64 {
        layout(self).size()
    }

    fn put(&self, out: &mut Vec<u8>) {
        layout(self).put(out);
    }

    ghost prefix_free = { type_is_prefix_free ap_req refl ap_req_value ap_req_of ap_req-back };
}

impl Noted for ApReq {
    fn notes(&self) -> Notes {
        any_of!(
            self.ap_options.notes(),
            self.ticket.notes(),
            self.authenticator.notes()
        )
    }
}

impl<'a> FromView<'a> for ApReq {
    ghost copied = { ap_req_of_view };

    fn from_view(alloc: Global, seen: &ApReqView<'a>) -> Result<ApReq, Memory> {
        Ok(ApReq {
            ap_options: Flags::from_view(alloc, &seen.ap_options)?,
            ticket: Ticket::from_view(alloc, &seen.ticket)?,
            authenticator: EncryptedData::from_view(alloc, &seen.authenticator)?,
        })
    }
}
