//! Calls that are out of memory.

mod calls;
mod captures;
mod conversions;
mod decoders;
mod lines;
mod octets;
mod readers;

use calls::{CALLS, Given};
use krb_frame::{Decoder, Limit};
use krb_msg::Message;
use krb_values::parse;
use octets::{AP_REP, CACHE, KEYTAB, KRB_ERROR, message_of};
use std::io;

/// How a call ended.
#[derive(Clone, Copy, PartialEq, Eq)]
enum Outcome {
    /// It returned what it has to return.
    Done,
    /// It was out of memory, nothing was changed, and the same call then returned what it has to;
    /// or a reader of a file was out of memory, and said so again.
    Memory,
    /// It was out of memory twice.
    Refused,
    Wrong,
}

impl Outcome {
    fn name(self) -> &'static str {
        match self {
            Outcome::Done => "done",
            Outcome::Memory => "memory",
            Outcome::Refused => "refused",
            Outcome::Wrong => "wrong",
        }
    }
}

/// Makes each call and prints how it ended; returns whether none was wrong.
fn report<R: Print + AllocGlobal>(rt: &R, given: Given<'_>) -> io::Result<bool> {
    let mut right = true;
    for (name, call) in CALLS {
        let outcome = call.outcome(rt.alloc(), given);
        let word = outcome.name();
        println!(rt; "{name} {word}")?;
        right = right && outcome != Outcome::Wrong;
    }
    Ok(right)
}

/// Does the same with a message for the calls.
fn report_with<R: Print + AllocGlobal>(rt: &R, message: &Message) -> io::Result<bool> {
    let alloc = rt.alloc();
    let mut decoder = Decoder::new(alloc, Limit::DEFAULT);
    let _ = decoder.feed(AP_REP);
    let keytab = krb_files::keytab::read(alloc, KEYTAB);
    let cache = krb_files::ccache::read(alloc, CACHE);
    match (decoder.ready(), &keytab, &cache) {
        (Some(frame), Ok((keytab, _)), Ok(cache)) => {
            let given = Given {
                frame: &frame,
                message,
                keytab,
                cache,
            };
            report(rt, given)
        }
        _ => Ok(true),
    }
}

/// Makes each call that allocates, with octets that are not allocated, and prints how it ended;
/// returns whether none was wrong. It makes none if there is no memory for their arguments.
pub(crate) fn report_calls<R: Print + AllocGlobal>(rt: &R) -> io::Result<bool> {
    match parse(rt.alloc(), message_of(KRB_ERROR)) {
        Ok(message) => {
            let right = report_with(rt, &message);
            drop(message);
            right
        }
        Err(_) => Ok(true),
    }
}
