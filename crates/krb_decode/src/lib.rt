//! Messages and Tickets as lines of JSON: what the command `decode` does with a source that is no
//! stream.
//!
//! - [`run_decode_input`] decodes one message, Ticket or token, as octets or as text. It writes the
//!   lines, and returns what is said of what is left out ([`InputEnd`]).
//! - [`decode_given`] decodes octets that are never read as text, and returns what is decoded of them.
//! - [`run_decode_ccache`] decodes the tickets of a credential cache.
//! - [`run_decode_stream`] decodes a stream, and goes on after what is refused. It writes one text, of
//!   lines of messages and of lines that say what is left out, which [`Sorting`] tells from them.
//! - [`keytab_text`] returns what is said of a keytab, and [`hint_text`] what a hint says of another source.
//!
//! What is refused is said as `krb_tool` and `krb_file_run` list it with names. `krb_convert` decodes streams, and one
//! message without its length.
#![tactic(auto)]

mod cache;
mod credential;
mod found;
mod given;
mod hint;
mod input;
mod parts;
mod sorting;
mod stream;

pub use cache::run_decode_ccache;
pub use given::{Before, Given};
pub use hint::{hint_text, keytab_text};
pub use input::{DecodedInput, InputEnd, decode_given, run_decode_input};
pub use sorting::{Sorter, Sorting, Tell};
pub use stream::run_decode_stream;
