//! Ticket fields of credentials, as values.

ghost use Rattle.std.specs.Prelude.{◌≡◌, IfErr, IfOk};
ghost use Rattle.krb_ccache.specs.Tickets.{state_of};
ghost use Rattle.krb_values.specs.Tickets.{IsOfDer, IsTicket};

use crate::parsing::{ParseFault, parse_ticket};
use krb_ccache::{Credential, TicketState};
use krb_der::Memory;
use std::alloc::Global;

/// Returns the contents of the ticket field of a credential. A configuration entry is recognized
/// first, then an empty field, and other octets are judged as a Ticket (RFC 4120, 5.3). It
/// allocates only for a Ticket.
#[tactic(auto, unfolding(krb_ccache::specs::Tickets::state_of))]
pub fn ticket_of(alloc: Global, credential: &Credential) -> Result<TicketState, Memory>
    ensures state { IfOk result (λ state. state ≡ state_of credential.now) }
    ensures der { IfOk result (IsOfDer credential.now.ticket) }
    ensures memory { IfErr result (λ _. IsTicket (state_of credential.now)) }
{
    if credential.is_config() {
        return Ok(TicketState::Config);
    }
    let octets = credential.ticket.as_slice();
    if octets.is_empty() {
        return Ok(TicketState::Absent);
    }
    match parse_ticket(alloc, octets) {
        Ok(ticket) => Ok(TicketState::Ticket(ticket)),
        Err(ParseFault::Refused(refusal)) => Ok(TicketState::Refused(refusal)),
        Err(ParseFault::Memory) => Err(Memory),
    }
}
