//! What those who read octets and those who print records both name: how an input spells octets,
//! what a message lies in there, why a file is refused, why octets of a capture are in no message,
//! between which ends octets are sent, and when a packet was.
//!
//! Each is an enum or a struct whose fields are public, and those that are printed have a name.
//! Nothing here reads or prints: `krb_input`, `krb_file` and `krb_packet` read, and `krb_record`
//! prints.
#![tactic(auto)]

mod endpoint;
mod file_why;
mod layer;
mod spelling;
mod timestamp;
mod unread_why;

pub use endpoint::Endpoint;
pub use file_why::{FileWhy, file_why_length, file_why_number, file_why_text};
pub use layer::Layer;
pub use spelling::Spelling;
pub use timestamp::Timestamp;
pub use unread_why::{UnreadWhy, unread_why_number, unread_why_text};
