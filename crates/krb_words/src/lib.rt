//! The command line of `krbls`.
//!
//! The main calls:
//!
//! - [`read_words`] returns the [`CommandLine`] of the words after the program's name, or what is
//!   wrong with them. Words are octets, as the system has them: what is not UTF-8 names a file like
//!   any other.
//! - [`CommandLine`] has what is to be listed ([`Command`]), in which form ([`Form`]), which
//!   records name their file ([`Naming`]), and from which sources ([`Source`]). A [`Command`] may
//!   also be a text to print: a help or the version. [`Command::listing`] is the one that lists a
//!   source of a kind.
//! - [`When`] is the time that credentials are compared with: the clock's, which the program reads,
//!   or a number of seconds.
//! - [`rows_of_names`] returns the choice of names alone, for who has no command line.
//! - [`ShellWord`] writes a name as a shell reads it, and [`Command::said_unopened`] says what a name
//!   is that cannot be opened.
//!
//! Nothing here opens a file or prints a text: `krbls` does. What each command lists is in
//! `krb_tool`.
#![tactic(auto)]

mod cache_types;
mod choice;
mod commands;
mod help;
mod names;
mod rows;
mod shell;
mod sources;
mod tasks;
mod tips;
mod when;
mod words;

pub use commands::VERSION;
pub use krb_der::{Limit, Profile};
pub use krb_record::Form;
pub use rows::rows_of_names;
pub use shell::ShellWord;
pub use sources::{NamedPath, Source};
pub use when::When;
pub use words::{
    AfterRefusal, Command, CommandLine, Framing, Inputs, Naming, Packets, USUAL_PORT, WordsFault,
    read_words,
};
