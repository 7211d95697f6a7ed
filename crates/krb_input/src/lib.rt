//! Inputs: the octets that people hold of a message, which may be spelled as text, and what files
//! are by their first octets.
//!
//! The main calls:
//!
//! - [`read_input`] returns the octets that an input spells and how it spells them ([`Spelled`]), or
//!   the octet at which it is misspelled ([`InputFault`]); [`read_line`] does so for a line of many.
//! - [`kind_of`] returns what a source holds ([`SourceKind`]), by its first 16 octets, and
//!   [`hint_of`] what may help where a command refused a source of another kind ([`Hint`]).
//!
//! Nothing here opens a file or judges a message: `krb_token` finds the message in the octets.
//!
//! `specs/Inputs` says what an input spells, over a file for each way to spell octets;
//! `specs/Sources` and `Hints` what first octets say; and `specs/Laws` what the functions of [`law`]
//! prove.
#![tactic(auto)]

mod base64;
mod braces;
mod characters;
mod digits;
mod dump;
mod escapes;
mod header;
mod hint;
pub mod law;
mod lines;
mod octets;
mod offset;
mod reading;
mod signature;
mod source_kind;
mod spelled;
mod text;
mod text_fault;
mod token_hint;
mod tokens;

pub use hint::{Hint, hint_of};
pub use krb_source::{Layer, Spelling};
pub use reading::{read_input, read_line};
pub use source_kind::{SourceKind, kind_of};
pub use spelled::{InputFault, Misspelling, Spelled};
