//! Ticket fields of credentials.

ghost use Rattle.std.specs.Prelude.{◌≡◌};
ghost use Rattle.krb_ccache.specs.Tickets.{StateLists, state_of, state_viewed};

use crate::value::Credential;
use krb_der::Refusal;
use krb_judge::read_ticket;
use krb_msg::{Ticket, TicketView};

/// The contents of the ticket field of a credential.
#[derive(Drop)]
pub enum TicketState {
    /// The field is empty.
    Absent,
    /// The credential is a configuration entry, whose value the field holds.
    Config,
    /// A Ticket (RFC 4120, 5.3).
    Ticket(Ticket),
    /// Octets that are not a Ticket: the first octet at fault, counted from 0 in the field, and
    /// why.
    Refused(Refusal),
}

/// The contents of the ticket field of a credential, borrowed: a [`TicketState`] whose octets are
/// those of the field.
#[derive(Drop)]
pub enum TicketStateView<'a> {
    Absent,
    Config,
    Ticket(TicketView<'a>),
    Refused(Refusal),
}

/// Returns the contents of the ticket field of a credential, borrowed. A configuration entry is
/// recognized first, then an empty field, and other octets are judged as a Ticket (RFC 4120, 5.3). It
/// allocates nothing.
#[tactic(auto, unfolding(crate::specs::Tickets::state_of))]
pub fn ticket_view_of(credential: &Credential) -> TicketStateView<'_>
    ensures state { state_viewed result ≡ state_of credential.now }
    ensures lists { StateLists result }
{
    if credential.is_config() {
        return TicketStateView::Config;
    }
    let octets = credential.ticket.as_slice();
    if octets.is_empty() {
        return TicketStateView::Absent;
    }
    match read_ticket(octets) {
        Ok(ticket) => TicketStateView::Ticket(ticket),
        Err(refusal) => TicketStateView::Refused(refusal),
    }
}
