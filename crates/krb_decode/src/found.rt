//! What octets are opened to, decoded.

ghost use Rattle.std.specs.Prelude.{◌≡◌, ◌^◌, ◌<◌, IfOk, OnOk, length, map, string_bytes};
ghost use Rattle.krb_msg.specs.Grammar.{ticket};
ghost use Rattle.krb_msg.specs.Term.{Fits, der};
ghost use Rattle.krb_msg.specs.Types.{krb_cred_of_view, ticket_of, ticket_of_view, ticket_view_value};
ghost use Rattle.krb_msg.specs.Viewed.{AreViewed, items_of};
ghost use Rattle.krb_msg.specs.ViewValues.{IsMessageView, message_of_view};
ghost use Rattle.krb_decode.specs.Decoded.{decoded_credentials, decoded_found, decoded_lone, decoded_octets, decoded_part, decoded_ticket, decoded_tickets, is_sealed, origin_text};
ghost use Rattle.krb_decode.specs.inner.Adding.{Adds};

use crate::parts::Parts;
use krb_der::{Memory, Profile};
use krb_input::Layer;
use krb_judge::{read_message_in, read_ticket_in};
use krb_msg::{
    EncryptedDataView, ItemsView, KrbCredView, MessageView, Ticket, TicketView, next_item,
};
use krb_record::{Form, MessageOrigin, TextBuffer, put_message_opening};
use krb_token::{Found, open};
use std::alloc::Global;

/// The greatest number of octets of a message.
pub(crate) const MOST_OCTETS: usize = 2147483647;

/// Returns whether an EncryptedData is encrypted: its encryption type is not 0.
fn is_sealed(sealed: &EncryptedDataView<'_>) -> bool
    ensures { result ≡ is_sealed sealed.now.etype }
{
    sealed.etype != 0
}

/// Adds what is decoded of octets that are a message, a Ticket or a token.
#[tactic(auto, unfolding(crate::specs::Decoded::decoded_octets))]
pub(crate) fn put_octets(parts: &mut Parts, profile: Profile, octets: &[u8]) -> Result<(), Memory>
    ensures { OnOk result (Adds (decoded_octets profile octets.now) parts.old parts.new) }
{
    if octets.len() > MOST_OCTETS {
        return Ok(());
    }
    let opened = open(octets);
    match opened.found {
        Found::Message { octets: part, .. } => put_part(parts, profile, opened.layers, part),
        Found::Ticket(_) => put_lone(parts, profile, octets),
        Found::Ntlm { .. } | Found::Refused { .. } => Ok(()),
    }
}

/// Adds the line of a Ticket, or that it is not encrypted, by a view of its octets.
pub(crate) fn put_ticket(
    parts: &mut Parts,
    origin: &str,
    path: &str,
    view: &TicketView<'_>,
    octets: &[u8],
) -> Result<(), Memory>
    requires short { length octets.now < 2 ^ 31 }
    requires fits { Fits ticket (ticket_view_value view.now) }
    requires form { der ticket (ticket_view_value view.now) ≡ octets.now }
    ensures { OnOk result (Adds (decoded_ticket origin.now path.now (ticket_of_view view.now)) parts.old parts.new) }
{
    if is_sealed(&view.enc_part) {
        parts.put_ticket(octets)
    } else {
        parts.put_unencrypted(origin, path)
    }
}

/// Adds the line of a Ticket, or that it is not encrypted, unless octets are refused as one.
fn put_lone(parts: &mut Parts, profile: Profile, octets: &[u8]) -> Result<(), Memory>
    ensures { OnOk result (Adds (decoded_lone profile octets.now) parts.old parts.new) }
{
    match read_ticket_in(profile, octets) {
        Ok(ticket) => put_ticket(parts, "", "Ticket.enc-part", &ticket, octets),
        Err(_refusal) => Ok(()),
    }
}

/// Adds what is decoded of a message that lies in layers, unless octets are refused as one.
fn put_part(
    parts: &mut Parts,
    profile: Profile,
    layers: &'static [Layer],
    octets: &[u8],
) -> Result<(), Memory>
    requires { length octets.now < 2 ^ 31 }
    ensures { OnOk result (Adds (decoded_part profile layers.now octets.now) parts.old parts.new) }
{
    let origin = origin_text(parts.alloc, layers)?;
    match read_message_in(profile, octets) {
        Ok(message) => put_message(parts, origin.as_str(), &message, octets),
        Err(_refusal) => Ok(()),
    }
}

/// Adds the line of a message, or that it is not encrypted, by a view of its octets: a KRB-CRED whose
/// EncryptedData is not is taken apart.
fn put_message(
    parts: &mut Parts,
    origin: &str,
    message: &MessageView<'_>,
    octets: &[u8],
) -> Result<(), Memory>
    requires short { length octets.now < 2 ^ 31 }
    requires view { IsMessageView octets.now message.now }
    ensures { OnOk result (Adds (decoded_found origin.now (message_of_view message.now)) parts.old parts.new) }
{
    match message {
        MessageView::KrbCred(cred) => put_credentials(parts, origin, cred, octets),
        _ => parts.put_message(origin, octets),
    }
}

/// Adds the line of a KRB-CRED, or the lines of its tickets, and that it is not encrypted.
fn put_credentials(
    parts: &mut Parts,
    origin: &str,
    cred: &KrbCredView<'_>,
    octets: &[u8],
) -> Result<(), Memory>
    requires short { length octets.now < 2 ^ 31 }
    requires view { IsMessageView octets.now (MessageView.KrbCred cred.now) }
    ensures { OnOk result (Adds (decoded_credentials origin.now (krb_cred_of_view cred.now)) parts.old parts.new) }
{
    if is_sealed(&cred.enc_part) {
        return parts.put_message(origin, octets);
    }
    put_tickets(parts, origin, cred.tickets)?;
    parts.put_unencrypted(origin, "KRB-CRED.enc-part")
}

/// Returns what a line has before the rest that says what a message lies in.
fn origin_text(alloc: Global, layers: &'static [Layer]) -> Result<String, Memory>
    ensures { IfOk result (λ text. string_bytes text ≡ origin_text layers.now) }
{
    let mut text = TextBuffer::new(alloc);
    let origin = MessageOrigin { line: None, layers };
    put_message_opening(&mut text, Form::NamedLines, &origin, "")?;
    Ok(text.into_string())
}

/// Adds the line of each ticket, or that it is not encrypted.
fn put_tickets(parts: &mut Parts, origin: &str, tickets: ItemsView<'_>) -> Result<(), Memory>
    requires { AreViewed ticket tickets.octets.now }
    ensures { OnOk result (Adds (decoded_tickets origin.now 0 (map ticket_of (items_of ticket tickets.entry.octets.now))) parts.old parts.new) }
{
    let mut items = tickets;
    let mut index = 0u64;
    'items: while let Some((ticket, rest)) = next_item::<Ticket>(items) {
        let size = items.octets.len() - rest.octets.len();
        let path = format!(in parts.alloc; "KRB-CRED.tickets[{index}].enc-part")?;
        let (octets, _) = items.octets.split_at(size);
        put_ticket(parts, origin, path.as_str(), &ticket, octets)?;
        items = rest;
        index += 1;
    }
    Ok(())
}
