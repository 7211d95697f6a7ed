//! Credential cache files (MIT krb5) of versions 3 and 4: a principal and its tickets, read one
//! after another.
//!
//! The main calls:
//!
//! - [`Credentials::next_credential`] reads one credential of either version after another from
//!   anything that can be read, in memory that depends on the largest credential alone.
//! - [`read_start`] and [`read_credential`] do it of any reader of fields. `krb_files` reads a
//!   whole [`Ccache`] or [`Cache3`] by them, and writes caches of version 4.
//! - [`ticket_view_of`] returns what the ticket field of a credential holds, borrowed, and
//!   `ticket_of` of `krb_values` the same as a value.
//!
//! Caches of versions 1 and 2 are refused. Nothing is decrypted, no key is used, and no time, flag
//! or encryption type is checked; tickets are judged only by [`ticket_view_of`], and not when a cache
//! is read. Nothing here opens a file: `krb_file_run` lists what a reader reads.
//!
//! `specs/` reads from the bottom: `Spelling` (which octets spell a cache), `Reading` (a file from
//! left to right, up to the first fault), `Tickets` (what a ticket field holds), `Streaming` (the
//! same as `Reading`, one credential after another), and `Laws`, which the functions of
//! `krb_file_laws` prove.
#![tactic(auto)]

mod credentials;
mod reading;
mod ticket;
mod value;

pub use credentials::Credentials;
pub use reading::{Kept, OneEnctype, Start, read_credential, read_start};
pub use ticket::{TicketState, TicketStateView, ticket_view_of};
pub use value::{
    Cache3, Ccache, Credential, Credential3, FilePrincipal, Header, HeaderField, Typed,
};
