//! Messages of Kerberos V5 (RFC 4120) as values where octets come in or go out: parsed, built of what
//! a scanner marked, taken out of frames and out of the ticket fields of credentials; and put as
//! frames and as lines.
//!
//! The main calls:
//!
//! - [`parse`] returns a message, or a refusal at an exact octet; [`parse_in`] does so by a profile.
//!   [`parse_ticket`] and [`parse_method_data`] return a Ticket (5.3) or METHOD-DATA (5.9.1) alone.
//! - [`build`] returns the message of the octets that a scanner took whole.
//! - [`frame`] returns a message as a frame, and [`message_in`] the message of a frame that a decoder
//!   has ready.
//! - [`ticket_of`] returns what the ticket field of a credential holds.
//! - [`message_line`] returns a message as a line or an object, and [`put_message`] appends it to a
//!   text.
//!
//! `krb_judge`, `krb_scan`, `krb_frame`, `krb_ccache` and `krb_text` do the same with views, which
//! borrow the octets, and allocate no message. Here each string of octets is copied once, by
//! `krb_codec`, which encodes messages, too. Each call says if it is out of memory.
//!
//! `specs/Faults` has the text of a fault of a parse, `specs/Parses` says that octets are those of no
//! message, and `specs/Tickets` what is known of the contents of a ticket field. All else that
//! contracts say here is defined in the crates below.
#![tactic(auto)]

mod building;
mod framed;
mod framing;
mod lines;
mod parsing;
mod ticket;

pub use building::build;
pub use framed::message_in;
pub use framing::frame;
pub use lines::{message_line, put_message};
pub use parsing::{ParseFault, parse, parse_in, parse_method_data, parse_ticket, parse_ticket_in};
pub use ticket::ticket_of;
