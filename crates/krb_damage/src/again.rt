//! What is done with the frames of a stream, whose messages must come again.

use crate::judging::{Judging, is_whole};
use krb_codec::encode;
use krb_der::Profile;
use krb_msg::Message;
use krb_scan::Machine;
use krb_values::parse;
use std::alloc::Global;
use std::io;
use std::io::Read;

/// What is done with each frame.
#[derive(Clone, Copy)]
pub(crate) enum Work {
    /// It is found in the stream.
    Frames,
    /// Its message is judged, too.
    Judge(Judging),
    /// Its message is parsed, too.
    Parse,
    /// The message is encoded again, and the octets are compared.
    Encode,
}

impl Work {
    /// Returns the work that a word of the command line asks for, if it asks for one.
    pub(crate) fn of(word: &str) -> Option<Work> {
        match word {
            "frames" => Some(Work::Frames),
            "judge" => Some(Work::Judge(Judging::AtOnce)),
            "step" => Some(Work::Judge(Judging::Step)),
            "take" => Some(Work::Judge(Judging::Take)),
            "parse" => Some(Work::Parse),
            "encode" => Some(Work::Encode),
            _ => None,
        }
    }
}

/// Returns whether octets are parsed as a message which, with `encodes`, is encoded as the same
/// octets. This is a function of its own so that its values need no stack when octets are only
/// judged.
#[inline(never)]
fn is_parsed(alloc: Global, octets: &[u8], encodes: bool) -> bool {
    match parse(alloc, octets) {
        Ok(message) => {
            let comes_again = !encodes || is_encoded(alloc, &message, octets);
            drop(message);
            comes_again
        }
        Err(_) => false,
    }
}

/// Returns whether octets are those of a message.
fn is_encoded(alloc: Global, message: &Message, octets: &[u8]) -> bool {
    match encode(alloc, message) {
        Ok(same) => same.as_slice() == octets,
        Err(_) => false,
    }
}

/// Returns the contents of the first frame and the octets after it, or `None` if no frame is whole.
fn first_frame(octets: &[u8]) -> Option<(&[u8], &[u8])> {
    let (length, rest) = octets.split_first_chunk::<4>()?;
    let size = u32::from_be_bytes(*length) as usize;
    if size > rest.len() {
        return None;
    }
    Some(rest.split_at(size))
}

/// Does the work with the contents of a frame; returns whether they are a message, and are encoded
/// as the same octets if that is asked for.
fn is_done(alloc: Global, machine: &mut Machine, octets: &[u8], work: Work) -> bool {
    match work {
        Work::Frames => true,
        Work::Judge(judging) => is_whole(machine, octets, judging),
        Work::Parse => is_parsed(alloc, octets, false),
        Work::Encode => is_parsed(alloc, octets, true),
    }
}

/// How a stream ended.
#[derive(Clone, Copy)]
struct Outcome {
    /// The number of messages before the first frame that fails.
    messages: u64,
    /// The number of octets after these messages.
    left: usize,
    /// Whether the next frame fails.
    is_other: bool,
}

/// Does the work with each frame of a stream up to the first that fails.
fn work_on(alloc: Global, machine: &mut Machine, stream: &[u8], work: Work) -> Outcome {
    let mut rest = stream;
    let mut messages = 0u64;
    let mut is_other = false;
    for _ in 0..u64::MAX {
        let Some((contents, others)) = first_frame(rest) else {
            break;
        };
        if !is_done(alloc, machine, contents, work) {
            is_other = true;
            break;
        }
        messages = messages.saturating_add(1);
        rest = others;
    }
    Outcome {
        messages,
        left: rest.len(),
        is_other,
    }
}

/// Returns the number that a word of the command line is, 0 if there is none, or `None` if it is not
/// a number.
fn times_of(word: Option<&str>) -> Option<u32> {
    match word {
        Some(number) => number.parse::<u32>().ok(),
        None => Some(0),
    }
}

/// Does the work with the frames of the stream on the standard input, once, and as often again as a
/// word says; returns whether all of them came again.
pub(crate) fn report_frames(
    rt: &HostRuntime,
    work: Work,
    number: Option<&str>,
) -> io::Result<bool> {
    let alloc = rt.alloc();
    let Some(times) = times_of(number) else {
        println!(rt; "krb_damage [frames|judge|step|take|parse|encode [TIMES]]")?;
        return Ok(false);
    };
    let mut stream = Vec::new(alloc);
    rt.stdin().read_to_end(&mut stream)?;
    let mut machine = Machine::new(Profile::Lenient, 1);
    let mut outcome = work_on(alloc, &mut machine, stream.as_slice(), work);
    for _ in 0..times {
        outcome = work_on(alloc, &mut machine, stream.as_slice(), work);
    }
    let Outcome {
        messages,
        left,
        is_other,
    } = outcome;
    if is_other {
        println!(rt; "message {messages} does not come again")?;
        return Ok(false);
    }
    println!(rt; "{messages} messages came again, {left} octets are left")?;
    Ok(true)
}
