//! What of a message deserves a note.

ghost use Rattle.std.specs.Prelude.{◌≡◌, false};
ghost use Rattle.krb_msg.specs.Notes.{are_none, empty_list_note, is_strict, notes_by, notes_have, notes_of_ticket, either};
ghost use Rattle.krb_msg.specs.Types.{IsValidTicket, ticket_of_view};
ghost use Rattle.krb_msg.specs.ViewValues.{IsValidMessage, message_of_view};

pub mod items;
mod lists;
mod scalars;

use crate::fields::NotedView;
use crate::message_view::{MessageView, notes_of_view};
use crate::ticket::{Ticket, TicketView};

/// The notes that hold in a message or in a part of it, Tickets inside included: not faults, but
/// what a reader of messages may stumble over. They have numbers:
///
/// 1. a KerberosString has an octet above 7F;
/// 2. there are fewer than 32 flags;
/// 3. a kvno, a nonce or a seq-number is negative;
/// 4. a padata, an addresses or an additional-tickets is there and empty.
#[derive(Clone, Copy, PartialEq, Eq, Debug)]
pub struct Notes {
    high_octet: bool,
    few_flags: bool,
    negative: bool,
    empty_list: bool,
}

impl Notes {
    /// Returns whether the note of this number holds. None has another number than 1 to 4.
    pub fn has(&self, number: u8) -> bool
        ensures { result ≡ notes_have self.now number }
    {
        match number {
            1 => self.high_octet,
            2 => self.few_flags,
            3 => self.negative,
            4 => self.empty_list,
            _ => false,
        }
    }

    /// Returns no notes.
    #[inline(always)]
    pub fn none() -> Notes
        ensures { result ≡ notes_by (λ note. false) }
    {
        Notes {
            high_octet: false,
            few_flags: false,
            negative: false,
            empty_list: false,
        }
    }

    /// Returns the note on a list that may be left out, if it is there and has no items.
    #[inline(always)]
    pub fn of_empty_list(empty_list: bool) -> Notes
        ensures { result ≡ empty_list_note empty_list }
    {
        Notes {
            empty_list,
            ..Notes::none()
        }
    }

    /// Returns whether none of them holds.
    pub fn are_none(&self) -> bool
        ensures { result ≡ are_none self.now }
    {
        !(self.high_octet || self.few_flags || self.negative || self.empty_list)
    }

    /// Returns the notes that hold in one or the other. No branch decides it.
    #[inline(always)]
    pub fn or(self, other: Notes) -> Notes
        ensures { result ≡ either self other }
    {
        Notes {
            high_octet: self.high_octet | other.high_octet,
            few_flags: self.few_flags | other.few_flags,
            negative: self.negative | other.negative,
            empty_list: self.empty_list | other.empty_list,
        }
    }
}

/// The notes that hold in one of several.
#[macro_export]
macro_rules! any_of {
    () => {
        $crate::Notes::none()
    };
    ($first:expr $(, $others:expr)* $(,)?) => {
        $first.or(any_of!($($others),*))
    };
}

/// Returns whether a message that is viewed in place keeps the strict rules (`Profile::Strict`): none
/// of the notes 1 to 4 holds in it. It allocates nothing.
pub fn is_strict_view(view: &MessageView<'_>) -> bool
    requires { IsValidMessage view.now }
    ensures { result ≡ is_strict (message_of_view view.now) }
{
    notes_of_view(view).are_none()
}

/// Returns the notes that hold in a Ticket that is viewed in place, alone (RFC 4120, 5.3). It
/// allocates nothing.
pub fn notes_of_ticket(view: &TicketView<'_>) -> Notes
    requires { IsValidTicket view.now }
    ensures { result ≡ notes_of_ticket (ticket_of_view view.now) }
{
    Ticket::notes(view)
}
