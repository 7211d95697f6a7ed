//! Keytab files of format 0x0502 (MIT krb5): the keys of principals, read record by record.
//!
//! The main calls:
//!
//! - [`Records::next_record`] reads one record after another, each an [`Entry`] or a [`Hole`], from
//!   anything that can be read, in memory that depends on the largest record alone.
//! - [`read_record`] does it of any reader of fields. `krb_files` reads a whole [`Keytab`] by it,
//!   and writes keytabs.
//!
//! Keytabs of format 0x0501 are refused. No key is used, and no time, name or encryption type is
//! checked; what follows a key is kept, and only its first four octets are read ([`Entry::kvno`]).
//! Nothing here opens a file: `krb_file_run` lists what a reader reads.
//!
//! `specs/` reads from the bottom: `Holes` (holes), `Spelling` (which octets spell a keytab),
//! `Reading` (a file from left to right, up to the first fault), `Streaming` (the same, one record
//! after another), and `Laws`, which the functions of `krb_file_laws` prove.
#![tactic(auto)]

mod reading;
mod records;
mod value;

pub use reading::{Next, read_record};
pub use records::Records;
pub use value::{Entry, Hole, Keytab, Record, Stop};
