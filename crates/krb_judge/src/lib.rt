//! Kerberos V5 messages (RFC 4120) in octets in memory: judged, viewed, and searched for the field at
//! fault.
//!
//! The main calls:
//!
//! - [`read_message`] returns a view of a message, or a refusal at an exact octet;
//!   [`read_message_in`] does so by a profile. [`read_ticket`] and [`read_ticket_in`] view a Ticket
//!   (5.3) alone, and [`read_method_data`] the items of METHOD-DATA (5.9.1). `krb_values` parses the
//!   same into values.
//! - [`judge`] returns what the first octets of a message decide: nothing yet, that it is whole, or
//!   a refusal.
//! - [`path`] returns the name of the field in which octets were refused, such as
//!   `AS-REQ.req-body.nonce`, and [`ticket_path`] that in a Ticket alone. [`Names`] has the names of
//!   the fields of each type, and [`message_node`] the row of the grammar's table that is a message's.
//!
//! Each call looks at its octets from the first one on, by the machine of `krb_scan`, which judges
//! octets as they come; `krb_frame` judges the frames of a stream. Nothing is decrypted, and what a
//! field means is not checked. Only [`path`] and [`ticket_path`] allocate.
//!
//! `specs/Parses` says of what octets are, and why they are refused, and [`law`] that each refusal is
//! inside the octets; `krb_message_laws` has the laws of paths.
#![tactic(auto)]

mod judging;
pub mod law;
mod locating;
mod reading;

pub use judging::{judge, judge_in};
pub use krb_der::{Profile, Refusal, Verdict, Why};
pub use locating::field::Field;
pub use locating::names::Names;
pub use locating::{message_node, path, ticket_path};
pub use reading::{read_message, read_message_in, read_method_data, read_ticket, read_ticket_in};
