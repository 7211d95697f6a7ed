//! KDC-REQ-BODY as a value. `asn1/generate` wrote this from `asn1/krb5.asn1`.

ghost use Rattle.std.specs.Prelude.{◌≡◌, refl};
ghost use Rattle.krb_msg.specs.Grammar.{kdc_req_body};
ghost use Rattle.krb_msg.specs.Types.{kdc_req_body_value, kdc_req_body_of, kdc_req_body_of_view};
ghost use Rattle.krb_msg.specs.inner.RoundTrips.{kdc_req_body-back};
ghost use Rattle.krb_codec.specs.inner.PrefixFree.{type_is_prefix_free};

use crate::copying::{
    FromPlainView, FromView, copy_item_option, copy_items, copy_option, copy_plain_option,
};
use crate::fields::{Encode, EncodeFields};
use crate::item::Item;
use crate::notes::{Noted, no_optional_notes, optional_list_notes, optional_notes};
use krb_der::{Flags, Int32, KString, KerberosTime, Many, Memory, Wide32};
use krb_msg::{
    Cut, EncryptedData, End, HostAddress, KdcReqBody, KdcReqBodyView, Notes, Optional,
    PrincipalName, Required, Sequence, Ticket, any_of,
};
use std::alloc::Global;

/// Its fields, borrowed.
type Layout<'a> = Sequence<
    Required<
        0,
        &'a Flags,
        Optional<
            1,
            &'a PrincipalName,
            Required<
                2,
                &'a KString,
                Optional<
                    3,
                    &'a PrincipalName,
                    Optional<4, &'a KerberosTime, Required<5, &'a KerberosTime, Cut<Rest<'a>>>>,
                >,
            >,
        >,
    >,
>;

/// The second half of its fields.
type Rest<'a> = Optional<
    6,
    &'a KerberosTime,
    Required<
        7,
        &'a Wide32,
        Required<
            8,
            &'a Many<Int32>,
            Optional<
                9,
                &'a Many<HostAddress>,
                Optional<10, &'a EncryptedData, Optional<11, &'a Many<Ticket>, End>>,
            >,
        >,
    >,
>;

/// Returns the fields, borrowed.
fn layout(it: &KdcReqBody) -> Layout<'_>
    ensures { ⟦<Layout<'static> as Encode>⟧.value result ≡ kdc_req_body_value it.now }
{
    let rest = Optional(
        it.rtime.as_ref(),
        Required(
            &it.nonce,
            Required(
                &it.etype,
                Optional(
                    it.addresses.as_ref(),
                    Optional(
                        it.enc_authorization_data.as_ref(),
                        Optional(it.additional_tickets.as_ref(), End),
                    ),
                ),
            ),
        ),
    );
    Sequence(Required(
        &it.kdc_options,
        Optional(
            it.cname.as_ref(),
            Required(
                &it.realm,
                Optional(
                    it.sname.as_ref(),
                    Optional(it.from.as_ref(), Required(&it.till, Cut(rest))),
                ),
            ),
        ),
    ))
}

impl<'a> EncodeFields for Cut<Rest<'a>> {
    ghost fields = { ⟦<Rest<'static> as EncodeFields>⟧.fields };

    ghost values = { λ cut. ⟦<Rest<'static> as EncodeFields>⟧.values cut.0 };

    fn size(&self) -> u64 {
        self.0.size()
    }

    fn put(&self, out: &mut Vec<u8>) {
        self.0.put(out);
    }
}

impl Item for KdcReqBody {
    ghost term = { kdc_req_body };

    ghost value = { kdc_req_body_value };

    fn size(&self) -> u64 {
        layout(self).size()
    }

    fn put(&self, out: &mut Vec<u8>) {
        layout(self).put(out);
    }

    ghost prefix_free = { type_is_prefix_free kdc_req_body refl kdc_req_body_value kdc_req_body_of kdc_req_body-back };
}

impl Noted for KdcReqBody {
    fn notes(&self) -> Notes {
        any_of!(
            self.kdc_options.notes(),
            optional_notes(&self.cname),
            self.realm.notes(),
            optional_notes(&self.sname),
            no_optional_notes(&self.from),
            no_optional_notes(&self.rtime),
            self.nonce.notes(),
            self.etype.notes(),
            optional_list_notes(&self.addresses),
            optional_notes(&self.enc_authorization_data),
            optional_list_notes(&self.additional_tickets)
        )
    }
}

impl<'a> FromView<'a> for KdcReqBody {
    ghost copied = { kdc_req_body_of_view };

    fn from_view(alloc: Global, seen: &KdcReqBodyView<'a>) -> Result<KdcReqBody, Memory> {
        Ok(KdcReqBody {
            from: copy_plain_option(&seen.from),
            till: KerberosTime::from_plain_view(&seen.till),
            rtime: copy_plain_option(&seen.rtime),
            nonce: Wide32::from_plain_view(&seen.nonce),
            kdc_options: Flags::from_view(alloc, &seen.kdc_options)?,
            cname: copy_option(alloc, &seen.cname)?,
            realm: KString::from_view(alloc, &seen.realm)?,
            sname: copy_option(alloc, &seen.sname)?,
            etype: copy_items(alloc, seen.etype)?,
            addresses: copy_item_option(alloc, seen.addresses)?,
            enc_authorization_data: copy_option(alloc, &seen.enc_authorization_data)?,
            additional_tickets: copy_item_option(alloc, seen.additional_tickets)?,
        })
    }
}
