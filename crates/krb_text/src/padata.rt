//! What is in the clear in lists of pre-authentication data, as parts that are appended.

ghost use Rattle.std.specs.Prelude.{◌^◌, ◌<◌, length, map, IfOk};
ghost use Rattle.std.specs.List.{flat_map};
ghost use Rattle.krb_msg.specs.Grammar.{pa_data};
ghost use Rattle.krb_msg.specs.Types.{pa_data_of};
ghost use Rattle.krb_msg.specs.Viewed.{AreViewed, items_of};
ghost use Rattle.krb_padata.specs.Grammar.{etype_info, etype_info2};
ghost use Rattle.krb_padata.specs.Types.{etype_info2_entry_of, etype_info_entry_of};
ghost use Rattle.krb_text.specs.Inside.{clear_parts, each_if, etype_info2_part, etype_info_part, item_parts};
ghost use Rattle.krb_text.specs.Judged.{judged};
ghost use Rattle.krb_text.specs.declared.clear_type.ClearType.TheVariants.{PacRequest};
ghost use Rattle.krb_text.specs.inner.Parts.{Tells};

use crate::clear::{put_encrypted, put_pac_request, put_salt, put_salt_or_error};
use crate::clear_type::{Carrier, ClearType};
use crate::part::{PartPlace, put_each, put_whole, view_judged};
use krb_msg::{ApReq, EncryptedData, ItemsView, PaData, next_item};
use krb_padata::{
    EtypeInfo, EtypeInfo2, EtypeInfo2Entry, EtypeInfoEntry, PaForUser, PaFxFastReply,
    PaFxFastRequest, PaPacOptions, view_pac_request,
};
use krb_record::{Form, TextBuffer};
use std::alloc::AllocError;

/// Appends the parts of a PA-ETYPE-INFO, and returns how many were told by now.
fn put_etype_info(text: &mut TextBuffer, at: PartPlace, octets: &[u8]) -> Result<u64, AllocError>
    requires { length octets.now < 2 ^ 31 }
    ensures { IfOk result (λ by_now. Tells at.form (each_if (λ v. etype_info_part (etype_info_entry_of v)) (judged etype_info octets.now)) at.told text.old by_now text.new) }
{
    match view_judged::<EtypeInfo>(octets) {
        None => Ok(at.told),
        Some(entries) => put_each::<EtypeInfoEntry>(text, at, entries),
    }
}

/// Appends the parts of a PA-ETYPE-INFO2, and returns how many were told by now.
fn put_etype_info2(text: &mut TextBuffer, at: PartPlace, octets: &[u8]) -> Result<u64, AllocError>
    requires { length octets.now < 2 ^ 31 }
    ensures { IfOk result (λ by_now. Tells at.form (each_if (λ v. etype_info2_part (etype_info2_entry_of v)) (judged etype_info2 octets.now)) at.told text.old by_now text.new) }
{
    match view_judged::<EtypeInfo2>(octets) {
        None => Ok(at.told),
        Some(entries) => put_each::<EtypeInfo2Entry>(text, at, entries),
    }
}

/// Appends the parts of a PA-PAC-REQUEST, and returns how many were told by now.
fn put_pac_request_of(
    text: &mut TextBuffer,
    at: PartPlace,
    octets: &[u8],
) -> Result<u64, AllocError>
    ensures { IfOk result (λ by_now. Tells at.form (clear_parts PacRequest octets.now) at.told text.old by_now text.new) }
{
    match view_pac_request(octets) {
        None => Ok(at.told),
        Some(include) => {
            put_pac_request(text, at, include)?;
            Ok(at.told.saturating_add(1))
        }
    }
}

/// Appends the parts of a value of a type, and returns how many were told by now.
fn put_value(
    text: &mut TextBuffer,
    form: Form,
    told: u64,
    kind: ClearType,
    octets: &[u8],
) -> Result<u64, AllocError>
    requires { length octets.now < 2 ^ 31 }
    ensures { IfOk result (λ by_now. Tells form (clear_parts kind octets.now) told text.old by_now text.new) }
{
    let at = PartPlace { form, told };
    let challenge = "PA-ENCRYPTED-CHALLENGE";
    match kind {
        ClearType::TgsReq => put_whole::<ApReq>(text, at, octets),
        ClearType::EncTimestamp => put_encrypted(text, at, "PA-ENC-TIMESTAMP", octets),
        ClearType::PwSalt => {
            put_salt(text, at, octets)?;
            Ok(told.saturating_add(1))
        }
        ClearType::SaltOrError => {
            put_salt_or_error(text, at, octets)?;
            Ok(told.saturating_add(1))
        }
        ClearType::EtypeInfo => put_etype_info(text, at, octets),
        ClearType::EtypeInfo2 => put_etype_info2(text, at, octets),
        ClearType::PacRequest => put_pac_request_of(text, at, octets),
        ClearType::ForUser => put_whole::<PaForUser>(text, at, octets),
        ClearType::FastRequest => put_whole::<PaFxFastRequest>(text, at, octets),
        ClearType::FastReply => put_whole::<PaFxFastReply>(text, at, octets),
        ClearType::EncryptedChallenge => put_encrypted(text, at, challenge, octets),
        ClearType::PacOptions => put_whole::<PaPacOptions>(text, at, octets),
        ClearType::Other => Ok(told),
    }
}

/// Appends the parts of pre-authentication data, and returns how many were told by now.
pub(crate) fn put_padata(
    text: &mut TextBuffer,
    form: Form,
    told: u64,
    carrier: Carrier,
    items: ItemsView<'_>,
) -> Result<u64, AllocError>
    requires { AreViewed pa_data items.octets.now }
    ensures { IfOk result (λ by_now. Tells form (flat_map (item_parts carrier) (map pa_data_of (items_of pa_data items.entry.octets.now))) told text.old by_now text.new) }
{
    let mut by_now = told;
    let mut others = items;
    'others: while let Some((seen, rest)) = next_item::<PaData>(others) {
        let kind = ClearType::of(carrier, &seen);
        by_now = put_value(text, form, by_now, kind, seen.padata_value)?;
        others = rest;
    }
    Ok(by_now)
}
