//! What the program runs on: a [`Host`] opens its sources, has its clock, and is told of its faults.
//! [`System`] is the host of files, the standard input and the standard error, and has the words of
//! the command line; contracts see nothing of these. [`expand`] returns the sources of a command
//! line, with each credential cache of a directory as one of its own.
//!
//! `krb_words` says what a source is. Nothing here knows a command, nor what is listed.
#![tactic(auto)]

mod files;
mod host;
mod sources;
mod system;
mod words;

pub use host::Host;
pub use sources::{Expanded, expand};
pub use system::{Opened, System};
