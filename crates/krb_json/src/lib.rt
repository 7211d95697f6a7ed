//! Kerberos V5 messages (RFC 4120) as JSON (RFC 8259), in the manner of ITU-T X.697: an object of
//! one member for each message, whose members have the names of RFC 4120, appendix A.
//!
//! - [`put_text`] appends the JSON of a message to octets, from its DER, and [`put_ticket_text`] that
//!   of a Ticket. The text determines the message wholly, and so has its encrypted octets, too.
//! - [`read_line`] returns the DER of the message that a line spells, or the line's first fault
//!   ([`LineFault`]). Members may come in any order; what `put_text` writes comes back. The memory
//!   in which it reads ([`Scratch`]) is the caller's, who keeps it from line to line.
//!   [`read_line_or_ticket`] takes a Ticket, too.
//! - [`unencrypted_path`] returns where a message has an EncryptedData of encryption type 0, which
//!   encrypts nothing. Look there before you show a text: a KRB-CRED may have session keys in it.
//!
//! No cipher is opened, and nothing that is octets for RFC 4120 is looked into. `specs/Objects` has
//! the JSON of a value, `specs/Spelled` the value that a JSON value spells, or what is wrong with
//! it ([`Wrong`]), and `specs/Laws` that these belong together, which `krb_message_laws` proves.
#![tactic(auto)]

mod encryption;
mod heads;
mod hexadecimal;
mod kinds;
pub mod law;
mod line_fault;
mod members;
mod reading;
mod scalars;
mod ticket;
mod ticket_reading;
mod value_fault;
mod writing;
mod wrong;

pub use encryption::unencrypted_path;
pub use json::Scratch;
pub use line_fault::{Fault, LineFault};
pub use reading::read_line;
pub use ticket::put_ticket_text;
pub use ticket_reading::read_line_or_ticket;
pub use writing::put_text;
pub use wrong::Wrong;
