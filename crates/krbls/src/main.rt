//! `krbls` lists streams of Kerberos V5 messages (RFC 4120), single messages, keytabs, credential
//! caches and captures, without trusting an octet: a line or an object of JSON for each message,
//! record or credential, or a numbered refusal at an exact place.
//!
//! `krbls FILE` lists each file as its first octets say. `krbls stream` reads framed messages, `krbls
//! message` a message or a token in any of the forms that people have, `krbls keytab` a keytab, `krbls
//! ccache` a cache, and `krbls capture` a pcap or a pcapng, each from files or from the standard
//! input. `krbls decode` turns framed messages into lines of JSON, and `krbls encode` turns these into
//! the same messages; what they refuse is on the standard error. The status is the greatest of those
//! of all files: 0 if all was read, 1 if something was refused, or of a capture lost or unread, 2 if
//! the command line is wrong, and 3 if a read, a write or an allocation failed. The standard error
//! has a line for each fault, and for each file that another command reads.
//!
//! The command line is read by `krb_words`; `krb_tool`, `krb_file_run` and `krb_capture_run` list what
//! a reader reads, and `krb_convert` turns it into JSON and back. `run_words` does what the words say,
//! over any [`Host`](krb_host::Host): what opens the sources, and what is told of faults. [`System`] is
//! the host of the program, of which contracts see nothing: its files, its clock, its standard input
//! and its standard error.
#![tactic(auto)]

mod decoding;
mod lister;
mod program;

use crate::program::{refuse, run_words};
use krb_host::System;
use krb_words::WordsFault;
use std::alloc::AllocError;
use std::process::ExitCode;

fn main(rt: HostRuntime) -> ExitCode {
    let system = System { rt: &rt };
    match system.words() {
        Ok(words) => run_words(rt.alloc(), &system, words.as_slice(), system.output()).1,
        Err(AllocError) => refuse(&system, &WordsFault::Memory),
    }
}
