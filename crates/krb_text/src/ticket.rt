//! What is printed of Tickets that lie in no message, written from views of their octets.

ghost use Rattle.std.specs.Prelude.{◌≡◌, ◌++◌, OnOk};
ghost use Rattle.krb_msg.specs.Types.{IsValidTicket, ticket_of_view};
ghost use Rattle.krb_record.specs.Origins.{message_origin};
ghost use Rattle.krb_text.specs.Messages.{ticket_line};

use crate::notes::ShownNotes;
use crate::viewed::{encrypted_of, principal_of};
use krb_msg::{TicketView, notes_of_ticket};
use krb_record::{Form, MessageOrigin, TextBuffer, put_end, put_field, put_message_opening};
use std::alloc::AllocError;

/// Appends a Ticket (RFC 4120, 5.3) that comes from an origin by a view of it, as a line or an
/// object with its line feed: its server, what is encrypted in it, and its notes.
#[tactic(auto, unfolding(krb_record::specs::Forms::record_text, crate::specs::Messages::ticket_record))]
pub fn put_ticket(
    text: &mut TextBuffer,
    form: Form,
    origin: &MessageOrigin<'_>,
    ticket: &TicketView<'_>,
) -> Result<(), AllocError>
    requires { IsValidTicket ticket.now }
    ensures { OnOk result (text.new ≡ text.old ++ ticket_line form (message_origin origin.now.line origin.now.layers.now) (ticket_of_view ticket.now)) }
{
    put_message_opening(text, form, origin, "Ticket")?;
    put_field!(text, form, "server": &principal_of(&ticket.sname, ticket.realm))?;
    put_field!(text, form, "ticket": &encrypted_of(&ticket.enc_part))?;
    put_field!(text, form, "notes": &ShownNotes(&notes_of_ticket(ticket)))?;
    put_end(text, form)
}
