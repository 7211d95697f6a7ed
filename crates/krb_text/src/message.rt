//! The fields of the records of messages, by the views of their kinds.

ghost use Rattle.std.specs.Prelude.{◌≡◌, ◌++◌, map, None, OnOk, Some, codes};
ghost use Rattle.krb_msg.specs.Types.{IsValidKdcReqBody, IsValidKdcReq, IsValidKdcRep, IsValidApReq, IsValidApRep, IsValidKrbSafe, IsValidKrbPriv, IsValidKrbCred, kdc_req_body_of_view, kdc_req_of_view, kdc_rep_of_view, ap_req_of_view, ap_rep_of_view, krb_safe_of_view, krb_priv_of_view, krb_cred_of_view};
ghost use Rattle.krb_registry.specs.declared.registry.Registry.TheVariants as registries;
ghost use Rattle.krb_record.specs.Forms.{field};
ghost use Rattle.krb_text.specs.declared.clear_type.Carrier.TheVariants as carriers;
ghost use Rattle.krb_text.specs.Inside.{kdc_req_parts, padata_parts, ticket_part};
ghost use Rattle.krb_text.specs.MessageFields.{padata, kdc_req_fields, kdc_rep_fields, ap_req_fields, ap_rep_fields, krb_safe_fields, krb_priv_fields, krb_cred_fields};
ghost use Rattle.krb_text.specs.MessageValues.{principal, encrypted};
ghost use Rattle.krb_record.specs.Values.{Flags, Number, Numbers, String as Escaped, Word, count, if_there};

use crate::inside::put_list;
use crate::list::EncryptionTypes;
use crate::record::HasRecord;
use crate::viewed::{
    address_of, bits_of, digest_of, encrypted_of, optional_address_count, optional_address_of,
    optional_encrypted_of, optional_micros_of, optional_principal_of, optional_ticket_count,
    optional_time_of, optional_types_of, principal_of, ticket_count, time_of,
};
use krb_msg::{
    ApRepView, ApReqView, KdcRepView, KdcReqBodyView, KdcReqView, KrbCredView, KrbPrivView,
    KrbSafeView,
};
use krb_record::{Form, Text, TextBuffer, put_field};
use krb_registry::Registry;
use std::alloc::AllocError;

/// Appends the fields of a KDC-REQ up to the end of the renewable life.
fn put_kdc_req_first_fields(
    text: &mut TextBuffer,
    form: Form,
    body: &KdcReqBodyView<'_>,
) -> Result<(), AllocError>
    requires { IsValidKdcReqBody body.now }
    ensures { let seen = kdc_req_body_of_view body.now in OnOk result (text.new ≡ text.old
        ++ field form (codes "realm") (Escaped seen.realm)
        ++ field form (codes "client") (if_there (principal seen.realm) seen.cname)
        ++ field form (codes "server") (if_there (principal seen.realm) seen.sname)
        ++ field form (codes "options") (Flags registries.KdcOptions seen.kdc_options)
        ++ field form (codes "from") (if_there Word seen.from)
        ++ field form (codes "till") (Word seen.till)
        ++ field form (codes "rtime") (if_there Word seen.rtime)) }
{
    put_field!(text, form, "realm": &Text(body.realm))?;
    put_field!(text, form, "client": &optional_principal_of(&body.cname, body.realm))?;
    put_field!(text, form, "server": &optional_principal_of(&body.sname, body.realm))?;
    put_field!(text, form, "options": &bits_of(Registry::KdcOptions, &body.kdc_options))?;
    put_field!(text, form, "from": &optional_time_of(body.from))?;
    put_field!(text, form, "till": &time_of(body.till))?;
    put_field!(text, form, "rtime": &optional_time_of(body.rtime))
}

/// Appends the fields of a KDC-REQ from the nonce on.
fn put_kdc_req_last_fields(
    text: &mut TextBuffer,
    form: Form,
    req: &KdcReqView<'_>,
) -> Result<(), AllocError>
    requires { IsValidKdcReq req.now }
    ensures { let seen = kdc_req_of_view req.now in OnOk result (text.new ≡ text.old
        ++ field form (codes "nonce") (Number seen.body.nonce)
        ++ field form (codes "etypes") (Numbers registries.EncryptionTypes seen.body.etype)
        ++ field form (codes "padata") (if_there padata seen.padata)
        ++ field form (codes "addresses") (if_there count seen.body.addresses)
        ++ field form (codes "authdata") (if_there encrypted seen.body.enc_authorization_data)
        ++ field form (codes "tickets") (if_there count seen.body.additional_tickets)) }
{
    let body: &KdcReqBodyView<'_> = &req.body;
    put_field!(text, form, "nonce": &body.nonce)?;
    put_field!(text, form, "etypes": &EncryptionTypes::new(body.etype))?;
    put_field!(text, form, "padata": &optional_types_of(req.padata))?;
    put_field!(text, form, "addresses": &optional_address_count(body.addresses))?;
    put_field!(text, form, "authdata": &optional_encrypted_of(&body.enc_authorization_data))?;
    put_field!(text, form, "tickets": &optional_ticket_count(body.additional_tickets))
}

impl<'a> HasRecord for KdcReqView<'a> {
    ghost IsValid = { IsValidKdcReq };

    ghost fields = { λ req. kdc_req_fields (kdc_req_of_view req) };

    ghost inside = { λ req. Some (kdc_req_parts (kdc_req_of_view req)) };

    fn put_fields(&self, text: &mut TextBuffer, form: Form) -> Result<(), AllocError> {
        put_kdc_req_first_fields(text, form, &self.body)?;
        put_kdc_req_last_fields(text, form, self)
    }

    #[inline(always)]
    fn put_inside(&self, text: &mut TextBuffer, form: Form) -> Result<(), AllocError> {
        put_list(text, form, self)
    }
}

impl<'a> HasRecord for KdcRepView<'a> {
    ghost IsValid = { IsValidKdcRep };

    ghost fields = { λ rep. kdc_rep_fields (kdc_rep_of_view rep) };

    ghost inside = { λ rep. Some (padata_parts carriers.Reply (kdc_rep_of_view rep).padata) };

    fn put_fields(&self, text: &mut TextBuffer, form: Form) -> Result<(), AllocError> {
        let ticket = &self.ticket;
        put_field!(text, form, "client": &principal_of(&self.cname, self.crealm))?;
        put_field!(text, form, "server": &principal_of(&ticket.sname, ticket.realm))?;
        put_field!(text, form, "padata": &optional_types_of(self.padata))?;
        put_field!(text, form, "ticket": &encrypted_of(&ticket.enc_part))?;
        put_field!(text, form, "enc": &encrypted_of(&self.enc_part))
    }

    #[inline(always)]
    fn put_inside(&self, text: &mut TextBuffer, form: Form) -> Result<(), AllocError> {
        put_list(text, form, self)
    }
}

impl<'a> HasRecord for ApReqView<'a> {
    ghost IsValid = { IsValidApReq };

    ghost fields = { λ req. ap_req_fields (ap_req_of_view req) };

    ghost inside = { λ _. None };

    fn put_fields(&self, text: &mut TextBuffer, form: Form) -> Result<(), AllocError> {
        let ticket = &self.ticket;
        put_field!(text, form, "server": &principal_of(&ticket.sname, ticket.realm))?;
        put_field!(text, form, "options": &bits_of(Registry::ApOptions, &self.ap_options))?;
        put_field!(text, form, "ticket": &encrypted_of(&ticket.enc_part))?;
        put_field!(text, form, "auth": &encrypted_of(&self.authenticator))
    }

    #[inline(always)]
    fn put_inside(&self, _text: &mut TextBuffer, _form: Form) -> Result<(), AllocError> {
        Ok(())
    }
}

impl<'a> HasRecord for ApRepView<'a> {
    ghost IsValid = { IsValidApRep };

    ghost fields = { λ rep. ap_rep_fields (ap_rep_of_view rep) };

    ghost inside = { λ _. None };

    fn put_fields(&self, text: &mut TextBuffer, form: Form) -> Result<(), AllocError> {
        put_field!(text, form, "enc": &encrypted_of(&self.enc_part))
    }

    #[inline(always)]
    fn put_inside(&self, _text: &mut TextBuffer, _form: Form) -> Result<(), AllocError> {
        Ok(())
    }
}

impl<'a> HasRecord for KrbSafeView<'a> {
    ghost IsValid = { IsValidKrbSafe };

    ghost fields = { λ safe. krb_safe_fields (krb_safe_of_view safe) };

    ghost inside = { λ _. None };

    fn put_fields(&self, text: &mut TextBuffer, form: Form) -> Result<(), AllocError> {
        let body = &self.body;
        put_field!(text, form, "size": &(body.user_data.len() as u64))?;
        put_field!(text, form, "time": &optional_time_of(body.timestamp))?;
        put_field!(text, form, "usec": &optional_micros_of(body.usec))?;
        put_field!(text, form, "seq": &body.seq_number)?;
        put_field!(text, form, "sender": &address_of(&body.s_address))?;
        put_field!(text, form, "receiver": &optional_address_of(&body.r_address))?;
        put_field!(text, form, "cksum": &digest_of(&self.cksum))
    }

    #[inline(always)]
    fn put_inside(&self, _text: &mut TextBuffer, _form: Form) -> Result<(), AllocError> {
        Ok(())
    }
}

impl<'a> HasRecord for KrbPrivView<'a> {
    ghost IsValid = { IsValidKrbPriv };

    ghost fields = { λ private. krb_priv_fields (krb_priv_of_view private) };

    ghost inside = { λ _. None };

    fn put_fields(&self, text: &mut TextBuffer, form: Form) -> Result<(), AllocError> {
        put_field!(text, form, "enc": &encrypted_of(&self.enc_part))
    }

    #[inline(always)]
    fn put_inside(&self, _text: &mut TextBuffer, _form: Form) -> Result<(), AllocError> {
        Ok(())
    }
}

impl<'a> HasRecord for KrbCredView<'a> {
    ghost IsValid = { IsValidKrbCred };

    ghost fields = { λ cred. krb_cred_fields (krb_cred_of_view cred) };

    ghost inside = { λ cred. Some (map ticket_part (krb_cred_of_view cred).tickets) };

    fn put_fields(&self, text: &mut TextBuffer, form: Form) -> Result<(), AllocError> {
        put_field!(text, form, "tickets": &ticket_count(self.tickets))?;
        put_field!(text, form, "enc": &encrypted_of(&self.enc_part))
    }

    #[inline(always)]
    fn put_inside(&self, text: &mut TextBuffer, form: Form) -> Result<(), AllocError> {
        put_list(text, form, self)
    }
}
