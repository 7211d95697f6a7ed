//! The ticket field of a credential, decoded.

ghost use Rattle.std.specs.Prelude.{◌≡◌, ◌++◌, ◌^◌, ◌<◌, codes, decimal, length, IfOk, OnOk, string_bytes};
ghost use Rattle.std.specs.Option.{option_map};
ghost use Rattle.krb_der.specs.declared.profile.Profile.TheVariants as profile;
ghost use Rattle.krb_tool.specs.Paths.{ticket_refused_path};
ghost use Rattle.krb_decode.specs.Caches.{credential_opening, decoded_credential, decoded_field, judged_field, refused_field};
ghost use Rattle.krb_decode.specs.Decoded.{said};
ghost use Rattle.krb_decode.specs.inner.Adding.{Adds};

use crate::found::{MOST_OCTETS, put_ticket};
use crate::parts::Parts;
use krb_ccache::Credential;
use krb_der::{Memory, Profile, Refusal};
use krb_judge::{read_ticket_in, ticket_path};
use krb_record::{Form, put_untold_message_refusal};
use std::alloc::Global;

/// Adds what is decoded of the credential of an index: its ticket. A configuration entry has none.
pub(crate) fn put_credential(
    parts: &mut Parts,
    index: u64,
    credential: &Credential,
) -> Result<(), Memory>
    ensures { OnOk result (Adds (decoded_credential index credential.now) parts.old parts.new) }
{
    if credential.is_config() {
        return Ok(());
    }
    let origin = format!(in parts.alloc; "credential[{index}].ticket: ")?;
    put_field(parts, origin.as_str(), credential.ticket.as_slice())
}

/// Adds what is decoded of the octets of a ticket field that has an origin.
fn put_field(parts: &mut Parts, origin: &str, octets: &[u8]) -> Result<(), Memory>
    ensures { OnOk result (Adds (decoded_field origin.now octets.now) parts.old parts.new) }
{
    if octets.is_empty() {
        return parts.put_absent(origin);
    }
    match read_ticket_in(Profile::Lenient, octets) {
        Ok(ticket) => put_ticket(parts, origin, "Ticket.enc-part", &ticket, octets),
        Err(refusal) => put_refused(parts, origin, octets, refusal),
    }
}

/// Adds that octets are refused as a Ticket.
fn put_refused(
    parts: &mut Parts,
    origin: &str,
    octets: &[u8],
    refusal: Refusal,
) -> Result<(), Memory>
    ensures { OnOk result (Adds (said (refused_field origin.now octets.now refusal)) parts.old parts.new) }
{
    let path = path_in(parts.alloc, octets, refusal)?;
    parts.said.push_str(origin)?;
    put_untold_message_refusal(&mut parts.said, Form::NamedLines, refusal, path.as_deref())?;
    Ok(())
}

/// Returns the path of the field at fault in octets that are refused as a Ticket, unless they are too
/// many for one.
fn path_in(alloc: Global, octets: &[u8], refusal: Refusal) -> Result<Option<String>, Memory>
    ensures { IfOk result (λ path. option_map string_bytes path ≡ ticket_refused_path profile.Lenient octets.now refusal) }
{
    if octets.len() > MOST_OCTETS {
        return Ok(None);
    }
    let prefix = (refusal.place as usize + 1).min(octets.len());
    let size = octets.len() as u32;
    let path = ticket_path(alloc, Profile::Lenient, size, &octets[..prefix])?;
    Ok(Some(path))
}
