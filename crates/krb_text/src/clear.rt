//! What is in the clear in pre-authentication data, and in Tickets, as parts.

ghost use Rattle.std.specs.Prelude.{◌≡◌, ◌++◌, ◌^◌, ◌<◌, codes, length, IfOk, MatchOption, None, OnOk, Some, nat_lt};
ghost use Rattle.std.specs.Option.{option_map};
ghost use Rattle.krb_msg.specs.Grammar.{encrypted_data};
ghost use Rattle.krb_msg.specs.Types.{IsValidApReq, ap_req_of, ap_req_of_view, ap_req_view_value, encrypted_data_of, encrypted_data_of_view, ticket_of_view};
ghost use Rattle.krb_msg.specs.Term.{IfPresent};
ghost use Rattle.krb_padata.specs.Types.{IsValidKrbFastArmor, etype_info2_entry_of_view, etype_info_entry_of_view, krb_fast_armor_of, krb_fast_armor_view_value, krb_fast_armored_rep_of_view, krb_fast_armored_req_of_view, pa_for_user_of_view, pa_pac_options_of_view};
ghost use Rattle.krb_registry.specs.declared.registry.Registry.TheVariants.{EncryptionTypes};
ghost use Rattle.krb_padata.specs.ExtendedError.{kerb_ext_error_in};
ghost use Rattle.krb_record.specs.Forms.{field, part_text};
ghost use Rattle.krb_text.specs.Inside.{ap_req_in, etype_info2_part, etype_info_part, ext_error_part, fast_reply_part, fast_request_part, for_user_part, one_if, pac_options_part, pac_request_part, salt_or_error_part, salt_part, encrypted_part, tgs_req_part, ticket_part};
ghost use Rattle.krb_text.specs.Judged.{judged};
ghost use Rattle.krb_text.specs.MessageValues.{principal, encrypted};
ghost use Rattle.krb_record.specs.Values.{Named, Number, if_there};
ghost use Rattle.krb_text.specs.inner.Parts.{Tells, separator};

use crate::part::{Clear, PartPlace, put_part_opening, view_judged};
use crate::record::HasRecord;
use crate::viewed::{
    bits_of, digest_of, encrypted_of, optional_hex, optional_quoted, principal_of,
};
use krb_msg::{ApReq, ApReqView, EncryptedData, EncryptedDataView, Ticket};
use krb_padata::{
    EtypeInfo2Entry, EtypeInfoEntry, KerbExtError, KrbFastArmorView, PaForUser, PaFxFastReply,
    PaFxFastRequest, PaPacOptions, view_kerb_ext_error,
};
use krb_record::{ABSENT, Form, Numbered, QuotedText, Status, TextBuffer, put_closing, put_field};
use krb_registry::Registry;
use std::alloc::AllocError;

/// The type of an armor that is an AP-REQ (RFC 6113, 5.4.1.1).
const AP_REQUEST_ARMOR: i64 = 1;

/// PA-TGS-REQ (RFC 4120, 5.2.7.1): what a line of an AP-REQ has.
impl<'a> Clear<'a> for ApReq {
    ghost part = { λ seen. tgs_req_part (ap_req_of_view seen) };

    #[tactic(auto, unfolding(krb_record::specs::Forms::part_text))]
    fn put_part(text: &mut TextBuffer, at: PartPlace, seen: &Self::Of) -> Result<(), AllocError> {
        put_part_opening(text, at, "PA-TGS-REQ")?;
        seen.put_fields(text, at.form)?;
        put_closing(text, at.form)
    }
}

/// An entry of PA-ETYPE-INFO (RFC 4120, 5.2.7.4).
impl<'a> Clear<'a> for EtypeInfoEntry {
    ghost part = { λ seen. etype_info_part (etype_info_entry_of_view seen) };

    #[tactic(auto, unfolding(krb_record::specs::Forms::part_text))]
    fn put_part(text: &mut TextBuffer, at: PartPlace, seen: &Self::Of) -> Result<(), AllocError> {
        put_part_opening(text, at, "PA-ETYPE-INFO")?;
        put_etype_field(text, at.form, &seen.etype)?;
        put_field!(text, at.form, "salt": &optional_quoted(seen.salt))?;
        put_closing(text, at.form)
    }
}

/// An entry of PA-ETYPE-INFO2 (RFC 4120, 5.2.7.5).
impl<'a> Clear<'a> for EtypeInfo2Entry {
    ghost part = { λ seen. etype_info2_part (etype_info2_entry_of_view seen) };

    #[tactic(auto, unfolding(krb_record::specs::Forms::part_text))]
    fn put_part(text: &mut TextBuffer, at: PartPlace, seen: &Self::Of) -> Result<(), AllocError> {
        put_part_opening(text, at, "PA-ETYPE-INFO2")?;
        put_etype_field(text, at.form, &seen.etype)?;
        put_field!(text, at.form, "salt": &optional_quoted(seen.salt))?;
        put_field!(text, at.form, "params": &optional_hex(seen.s2kparams))?;
        put_closing(text, at.form)
    }
}

/// PA-FOR-USER (MS-SFU, 2.2.1).
impl<'a> Clear<'a> for PaForUser {
    ghost part = { λ seen. for_user_part (pa_for_user_of_view seen) };

    #[tactic(auto, unfolding(krb_record::specs::Forms::part_text))]
    fn put_part(text: &mut TextBuffer, at: PartPlace, seen: &Self::Of) -> Result<(), AllocError> {
        put_part_opening(text, at, "PA-FOR-USER")?;
        put_field!(text, at.form, "user": &principal_of(&seen.user_name, seen.user_realm))?;
        put_field!(text, at.form, "cksum": &digest_of(&seen.cksum))?;
        put_field!(text, at.form, "package": &QuotedText(seen.auth_package))?;
        put_closing(text, at.form)
    }
}

/// PA-FX-FAST of a request (RFC 6113, 5.4.2).
impl<'a> Clear<'a> for PaFxFastRequest {
    ghost part = { λ seen. fast_request_part (krb_fast_armored_req_of_view seen) };

    #[tactic(auto, unfolding(krb_record::specs::Forms::part_text))]
    fn put_part(text: &mut TextBuffer, at: PartPlace, seen: &Self::Of) -> Result<(), AllocError> {
        put_part_opening(text, at, "PA-FX-FAST")?;
        put_armor_fields(text, at.form, &seen.armor)?;
        put_field!(text, at.form, "enc": &encrypted_of(&seen.enc_fast_req))?;
        put_closing(text, at.form)
    }
}

/// PA-FX-FAST of a reply or an error (RFC 6113, 5.4.3).
impl<'a> Clear<'a> for PaFxFastReply {
    ghost part = { λ seen. fast_reply_part (krb_fast_armored_rep_of_view seen) };

    #[tactic(auto, unfolding(krb_record::specs::Forms::part_text))]
    fn put_part(text: &mut TextBuffer, at: PartPlace, seen: &Self::Of) -> Result<(), AllocError> {
        put_part_opening(text, at, "PA-FX-FAST")?;
        put_field!(text, at.form, "armor": &ABSENT)?;
        put_field!(text, at.form, "server": &ABSENT)?;
        put_field!(text, at.form, "ticket": &ABSENT)?;
        put_field!(text, at.form, "enc": &encrypted_of(&seen.enc_fast_rep))?;
        put_closing(text, at.form)
    }
}

/// PA-PAC-OPTIONS (MS-KILE, 2.2.10).
impl<'a> Clear<'a> for PaPacOptions {
    ghost part = { λ seen. pac_options_part (pa_pac_options_of_view seen) };

    #[tactic(auto, unfolding(krb_record::specs::Forms::part_text))]
    fn put_part(text: &mut TextBuffer, at: PartPlace, seen: &Self::Of) -> Result<(), AllocError> {
        put_part_opening(text, at, "PA-PAC-OPTIONS")?;
        put_field!(text, at.form, "options": &bits_of(Registry::PacOptions, &seen.flags))?;
        put_closing(text, at.form)
    }
}

/// A Ticket (RFC 4120, 5.3).
impl<'a> Clear<'a> for Ticket {
    ghost part = { λ seen. ticket_part (ticket_of_view seen) };

    #[tactic(auto, unfolding(krb_record::specs::Forms::part_text))]
    fn put_part(text: &mut TextBuffer, at: PartPlace, seen: &Self::Of) -> Result<(), AllocError> {
        put_part_opening(text, at, "Ticket")?;
        put_field!(text, at.form, "server": &principal_of(&seen.sname, seen.realm))?;
        put_field!(text, at.form, "ticket": &encrypted_of(&seen.enc_part))?;
        put_closing(text, at.form)
    }
}

/// Appends a field of an encryption type.
fn put_etype_field(text: &mut TextBuffer, form: Form, etype: &i64) -> Result<(), AllocError>
    ensures { OnOk result (text.new ≡ text.old ++ field form (codes "etype") (Named EncryptionTypes etype.now)) }
{
    let shown = Numbered {
        registry: Registry::EncryptionTypes,
        number: *etype,
    };
    put_field!(text, form, "etype": &shown)
}

/// Returns a view of the AP-REQ that an armor is, if there is one and it is that.
fn ap_req_of_armor<'a>(armor: &Option<KrbFastArmorView<'a>>) -> Option<ApReqView<'a>>
    requires { IfPresent IsValidKrbFastArmor armor.now }
    ensures { let seen = option_map krb_fast_armor_of (option_map krb_fast_armor_view_value armor.now) in MatchOption result (ap_req_in seen ≡ None) (λ req. IsValidApReq req × (ap_req_in seen ≡ Some (ap_req_view_value req))) }
{
    match armor {
        Some(armor) if armor.armor_type == AP_REQUEST_ARMOR => {
            view_judged::<ApReq>(armor.armor_value)
        }
        _ => None,
    }
}

/// Appends a field of the type of an armor, if there is one.
fn put_armor_type_field(
    text: &mut TextBuffer,
    form: Form,
    armor: &Option<KrbFastArmorView<'_>>,
) -> Result<(), AllocError>
    ensures { OnOk result (text.new ≡ text.old ++ field form (codes "armor") (if_there (λ a. Number a.armor_type) (option_map krb_fast_armor_of (option_map krb_fast_armor_view_value armor.now)))) }
{
    match armor {
        None => put_field!(text, form, "armor": &ABSENT),
        Some(armor) => put_field!(text, form, "armor": &armor.armor_type),
    }
}

/// Appends fields of the server and of the Ticket of an AP-REQ, if there is one.
fn put_ticket_fields(
    text: &mut TextBuffer,
    form: Form,
    req: &Option<ApReqView<'_>>,
) -> Result<(), AllocError>
    requires { IfPresent IsValidApReq req.now }
    ensures { let seen = option_map ap_req_view_value req.now in OnOk result (text.new ≡ text.old
        ++ field form (codes "server") (if_there (λ v. principal (ap_req_of v).ticket.realm (ap_req_of v).ticket.sname) seen)
        ++ field form (codes "ticket") (if_there (λ v. encrypted (ap_req_of v).ticket.enc_part) seen)) }
{
    match req {
        None => {
            put_field!(text, form, "server": &ABSENT)?;
            put_field!(text, form, "ticket": &ABSENT)
        }
        Some(req) => {
            let (server, realm) = (&req.ticket.sname, req.ticket.realm);
            put_field!(text, form, "server": &principal_of(server, realm))?;
            put_field!(text, form, "ticket": &encrypted_of(&req.ticket.enc_part))
        }
    }
}

/// Appends the fields of an armor: its type, and the server and the Ticket of the AP-REQ that it
/// may be.
fn put_armor_fields(
    text: &mut TextBuffer,
    form: Form,
    armor: &Option<KrbFastArmorView<'_>>,
) -> Result<(), AllocError>
    requires { IfPresent IsValidKrbFastArmor armor.now }
    ensures { let seen = option_map krb_fast_armor_of (option_map krb_fast_armor_view_value armor.now) in OnOk result (text.new ≡ text.old
        ++ field form (codes "armor") (if_there (λ a. Number a.armor_type) seen)
        ++ field form (codes "server") (if_there (λ v. principal (ap_req_of v).ticket.realm (ap_req_of v).ticket.sname) (ap_req_in seen))
        ++ field form (codes "ticket") (if_there (λ v. encrypted (ap_req_of v).ticket.enc_part) (ap_req_in seen))) }
{
    put_armor_type_field(text, form, armor)?;
    put_ticket_fields(text, form, &ap_req_of_armor(armor))
}

/// Appends the part of what is encrypted.
#[tactic(auto, unfolding(krb_record::specs::Forms::part_text))]
fn put_encrypted_part(
    text: &mut TextBuffer,
    at: PartPlace,
    kind: &str,
    seen: &EncryptedDataView<'_>,
) -> Result<(), AllocError>
    ensures { OnOk result (text.new ≡ text.old ++ separator at.form (nat_lt 0 at.told) ++ part_text at.form (encrypted_part kind.now (encrypted_data_of_view seen.now))) }
{
    put_part_opening(text, at, kind)?;
    put_field!(text, at.form, "enc": &encrypted_of(seen))?;
    put_closing(text, at.form)
}

/// Appends the part of octets that are all of what is encrypted, and returns how many were told by
/// now: PA-ENC-TIMESTAMP (RFC 4120, 5.2.7.2) and PA-ENCRYPTED-CHALLENGE (RFC 6113, 5.4.6).
pub(crate) fn put_encrypted(
    text: &mut TextBuffer,
    at: PartPlace,
    kind: &str,
    octets: &[u8],
) -> Result<u64, AllocError>
    requires { length octets.now < 2 ^ 31 }
    ensures { IfOk result (λ by_now. Tells at.form (one_if (λ v. encrypted_part kind.now (encrypted_data_of v)) (judged encrypted_data octets.now)) at.told text.old by_now text.new) }
{
    match view_judged::<EncryptedData>(octets) {
        None => Ok(at.told),
        Some(seen) => {
            put_encrypted_part(text, at, kind, &seen)?;
            Ok(at.told.saturating_add(1))
        }
    }
}

/// Appends the part of a salt (RFC 4120, 5.2.7.3).
#[tactic(auto, unfolding(krb_record::specs::Forms::part_text))]
pub(crate) fn put_salt(
    text: &mut TextBuffer,
    at: PartPlace,
    octets: &[u8],
) -> Result<(), AllocError>
    ensures { OnOk result (text.new ≡ text.old ++ separator at.form (nat_lt 0 at.told) ++ part_text at.form (salt_part octets.now)) }
{
    put_part_opening(text, at, "PA-PW-SALT")?;
    put_field!(text, at.form, "salt": &QuotedText(octets))?;
    put_closing(text, at.form)
}

/// Appends the part of an extended error (MS-KILE, 2.2.1).
#[tactic(auto, unfolding(krb_record::specs::Forms::part_text))]
pub(crate) fn put_ext_error(
    text: &mut TextBuffer,
    at: PartPlace,
    error: KerbExtError,
) -> Result<(), AllocError>
    ensures { OnOk result (text.new ≡ text.old ++ separator at.form (nat_lt 0 at.told) ++ part_text at.form (ext_error_part error)) }
{
    put_part_opening(text, at, "KERB-EXT-ERROR")?;
    put_field!(text, at.form, "status": &Status(error.status))?;
    put_field!(text, at.form, "reserved": &u64::from(error.reserved))?;
    put_field!(text, at.form, "flags": &u64::from(error.flags))?;
    put_closing(text, at.form)
}

/// Appends the part of a salt of an error (RFC 4120, 5.2.7.3), or of an extended error, which Samba's
/// KDC sends as if it were a salt.
pub(crate) fn put_salt_or_error(
    text: &mut TextBuffer,
    at: PartPlace,
    octets: &[u8],
) -> Result<(), AllocError>
    ensures { OnOk result (text.new ≡ text.old ++ separator at.form (nat_lt 0 at.told) ++ part_text at.form (salt_or_error_part octets.now (kerb_ext_error_in octets.now))) }
{
    match view_kerb_ext_error(octets) {
        Some(error) if error.reserved == 0 => put_ext_error(text, at, error),
        _ => put_salt(text, at, octets),
    }
}

/// Appends the part of a PA-PAC-REQUEST (MS-KILE, 2.2.3).
#[tactic(auto, unfolding(krb_record::specs::Forms::part_text))]
pub(crate) fn put_pac_request(
    text: &mut TextBuffer,
    at: PartPlace,
    include: bool,
) -> Result<(), AllocError>
    ensures { OnOk result (text.new ≡ text.old ++ separator at.form (nat_lt 0 at.told) ++ part_text at.form (pac_request_part include)) }
{
    put_part_opening(text, at, "PA-PAC-REQUEST")?;
    put_field!(text, at.form, "pac": &include)?;
    put_closing(text, at.form)
}
