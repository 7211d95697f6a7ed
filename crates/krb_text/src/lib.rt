//! What is printed of messages and Tickets, in the forms of [`krb_record`].
//!
//! The record of a message may have parts, records of what is in the clear inside of it, which lines
//! without names leave out.
//!
//! The main calls are [`put_message_in`] for messages, [`put_message_from`] for messages of an
//! origin, [`put_captured_message`] for those of a capture, and [`put_ticket`] for Tickets. Each
//! function appends to one text (`TextBuffer`), and its contract says what was appended. Nothing here
//! reads or writes a file.
#![tactic(auto)]

mod clear;
mod clear_type;
mod error;
mod error_data;
mod inside;
mod list;
mod message;
mod notes;
mod padata;
mod part;
mod record;
mod ticket;
mod viewed;

pub use clear_type::{Carrier, ClearType};
pub use record::{put_captured_message, put_message_from, put_message_in, put_message_text};
pub use ticket::put_ticket;
pub use viewed::{ViewedStrings, encrypted_of};
