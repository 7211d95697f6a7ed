//! Damages messages, keytabs and caches, and lets readers, writers and allocations fail. It reads
//! them from the standard input, one a line, each with its name and its octets in hexadecimal.
//!
//! Octets are cut after each of them, and each of them is changed to each other value. A message is
//! tried in a frame by both profiles. Decoders that are fed all octets at once and one at a time
//! have to answer the same, and so have `judge_in` of each prefix, `parse_in`, and scanners of one
//! octet and of some octets at a time. A file that is read whole, and one record after another from
//! several readers, has to have the same records or the same fault. Each is also listed from
//! readers that fail at the first read, at the second, and so on, and to writers that fail, or
//! accept nothing, at each write in turn: then a prefix of the lines has to be written. A message
//! is listed as a stream, as its digits, and as a line of these. The line of each counts the
//! prefixes that are whole, the changes, those after which it is still a message or a file, and the
//! reads and the writes that failed.
//!
//! A file of more than 256 octets is not changed: it has to be written as it was read, also from
//! readers of two parts, whatever the first part is.
//!
//! Before all this each call that allocates is made once. Its line is `done` if it returned what it
//! has to; `memory` if it was out of memory, nothing was changed, and the same call then returned
//! what it has to; `refused` if it was out of memory both times; and `wrong` otherwise. With enough
//! memory all are done; `tests/run/refused-allocations` refuses allocations.
//!
//! With the word `encode` the standard input is a stream of messages: each is parsed and encoded
//! again, and has to come again. `make bench` measures that, and what is less: with `parse` it is
//! only parsed, with `judge` only judged, with `step` a machine takes it octet by octet except
//! inside strings, with `take` all octets at once, and with `frames` it is only found. A number
//! after the word is how many more times all this is done with the same octets, which then are in
//! the processor's cache, as those of a pipe are.
//!
//! With the word `memory` only the calls that allocate are made. With `answers` there is instead a
//! line for each change of a message, by each profile: the place, the new octet, and the answer.
//! With `marks` nothing is changed, and the octets need not be a message: the line of each has the
//! answer, how many lengths are open, and the marks, each as the place of the contents, their
//! number of octets, and the number.
#![tactic(auto)]

mod again;
mod ends;
mod fakes;
mod files;
mod growth;
mod judging;
mod messages;
mod scanning;

ghost use Rattle.std.specs.Prelude.{◌<◌, length};

use again::{Work, report_frames};
use ends::{Failed, NONE_FAILED, Run, failures};
use files::Format;
use growth::report_calls;
use krb_der::{Profile, Refusal, Verdict, why_number};
use krb_frame::Status;
use krb_scan::{Mark, Scanner};
use messages::{changed, prefixes, verdict};
use scanning::step_all;
use std::alloc::Global;
use std::process::ExitCode;
use std::{env, io};

/// The greatest number of octets of a file that is changed.
const MOST_CHANGED: usize = 256;

/// What octets are tried as.
#[derive(Clone, Copy)]
enum Subject {
    /// A frame.
    Frame(Profile),
    File(Format),
}

impl Subject {
    /// Returns how many prefixes of octets are whole, or `None` if answers differ, or out of
    /// memory.
    fn prefixes(self, alloc: Global, octets: &[u8]) -> Option<u64> {
        match self {
            Subject::Frame(profile) => prefixes(alloc, profile, octets),
            Subject::File(format) => format.prefixes(alloc, octets),
        }
    }

    /// Returns whether octets are whole if the one at a place is changed, or `None` if answers
    /// differ, or out of memory.
    fn is_whole(self, alloc: Global, octets: &[u8], place: usize) -> Option<bool> {
        match self {
            Subject::Frame(profile) => {
                Some(changed(alloc, profile, octets, place)? == Status::Ready)
            }
            Subject::File(format) => format.is_whole(alloc, octets, place),
        }
    }
}

/// What was tried with octets.
#[derive(Clone, Copy)]
struct Counts {
    /// How many prefixes of them are whole.
    prefixes: u64,
    /// How many changes were made.
    changes: u64,
    /// After how many changes they are whole.
    whole: u64,
    failed: Failed,
}

/// Cuts octets, and makes each change to them, one at a time.
fn tried(alloc: Global, subject: Subject, octets: &mut [u8], failed: Failed) -> Option<Counts> {
    let prefixes = subject.prefixes(alloc, octets)?;
    let mut changes = 0u64;
    let mut whole = 0u64;
    for place in 0..octets.len() {
        let kept = octets[place];
        for octet in 0..=u8::MAX {
            if octet != kept {
                octets[place] = octet;
                changes = changes.saturating_add(1);
                if subject.is_whole(alloc, octets, place)? {
                    whole = whole.saturating_add(1);
                }
            }
        }
        octets[place] = kept;
    }
    Some(Counts {
        prefixes,
        changes,
        whole,
        failed,
    })
}

/// Cuts and changes a file.
fn tried_file(alloc: Global, format: Format, octets: &mut [u8]) -> Option<Counts> {
    let run = match format {
        Format::Keytab => Run::Keytab,
        Format::Ccache => Run::Ccache,
    };
    let failed = failures(alloc, run, octets, NONE_FAILED)?;
    tried(alloc, Subject::File(format), octets, failed)
}

/// Cuts and changes a message, in a frame and as digits, by a profile.
fn tried_message(alloc: Global, profile: Profile, message: &[u8], digits: &str) -> Option<Counts> {
    let mut frame = Vec::new(alloc);
    let length = u32::try_from(message.len()).ok()?;
    frame.extend_from_slice(&length.to_be_bytes()).ok()?;
    frame.extend_from_slice(message).ok()?;
    let failed = failures(alloc, Run::Message(profile), digits.as_bytes(), NONE_FAILED)?;
    let failed = failures(alloc, Run::Lines(profile), digits.as_bytes(), failed)?;
    let failed = failures(alloc, Run::Stream(profile), frame.as_slice(), failed)?;
    tried(alloc, Subject::Frame(profile), frame.as_mut_slice(), failed)
}

/// Prints what was tried; returns whether nothing was wrong.
fn report(rt: &impl Print, name: &str, counts: Option<Counts>) -> io::Result<bool> {
    let Some(counts) = counts else {
        println!(rt; "{name} is not as it has to be")?;
        return Ok(false);
    };
    let Counts {
        prefixes,
        changes,
        whole,
        failed: Failed { reads, writes },
    } = counts;
    print!(rt; "{name}: {prefixes} prefixes, {changes} changes, {whole} of them whole, ")?;
    println!(rt; "{reads} reads and {writes} writes failed")?;
    Ok(true)
}

/// Tries a file.
fn damage_file<R: Print + AllocGlobal>(
    rt: &R,
    name: &str,
    format: Format,
    octets: &mut [u8],
) -> io::Result<bool> {
    let alloc = rt.alloc();
    if octets.len() <= MOST_CHANGED {
        return report(rt, name, tried_file(alloc, format, octets));
    }
    let comes_again = format.comes_again(alloc, octets) == Some(true);
    let word = if comes_again {
        "comes"
    } else {
        "does not come"
    };
    println!(rt; "{name}: {word} again")?;
    Ok(comes_again)
}

/// Tries a message by both profiles.
fn damage_message<R: Print + AllocGlobal>(
    rt: &R,
    name: &str,
    octets: &[u8],
    digits: &str,
) -> io::Result<bool> {
    let alloc = rt.alloc();
    print!(rt; "lenient ")?;
    let is_right = report(
        rt,
        name,
        tried_message(alloc, Profile::Lenient, octets, digits),
    )?;
    print!(rt; "strict ")?;
    Ok(
        report(
            rt,
            name,
            tried_message(alloc, Profile::Strict, octets, digits),
        )? && is_right,
    )
}

/// Prints an answer without a line feed.
fn print_answer(rt: &impl Print, answer: Verdict) -> io::Result<()> {
    match answer {
        Verdict::Open => print!(rt; "open"),
        Verdict::Whole => print!(rt; "message"),
        Verdict::Refused(Refusal { place, why }) => {
            let why = why_number(why);
            print!(rt; "refused {place} {why}")
        }
    }
}

/// Prints the answer to each change of a message, by a profile; returns whether each had one.
fn print_answers<R: Print + AllocGlobal>(
    rt: &R,
    profile: Profile,
    octets: &mut [u8],
) -> io::Result<bool> {
    for place in 0..octets.len() {
        let kept = octets[place];
        for octet in 0..=u8::MAX {
            if octet != kept {
                octets[place] = octet;
                let Some(answer) = verdict(rt.alloc(), profile, octets, 0) else {
                    return Ok(false);
                };
                print!(rt; "{place} {octet} ")?;
                print_answer(rt, answer)?;
                println!(rt)?;
            }
        }
        octets[place] = kept;
    }
    Ok(true)
}

/// Prints what octets are and the marks in them; returns whether all answers are the same.
fn print_marks<R: Print + AllocGlobal>(rt: &R, name: &str, octets: &[u8]) -> io::Result<bool> {
    let alloc = rt.alloc();
    if octets.is_empty() || octets.len() > 2147483647 {
        return Ok(false);
    }
    let Some(answer) = verdict(alloc, Profile::Lenient, octets, 0) else {
        println!(rt; "{name} has two answers")?;
        return Ok(false);
    };
    let mut scanner = Scanner::new(alloc, octets.len() as u32);
    let has_all = step_all(&mut scanner, octets);
    print!(rt; "{name} ")?;
    print_answer(rt, answer)?;
    let open = scanner.open_lengths();
    print!(rt; " open={open}")?;
    for mark in scanner.marks() {
        let Mark {
            start,
            len,
            value,
            ..
        } = *mark;
        print!(rt; " {start}+{len}={value}")?;
    }
    println!(rt)?;
    Ok(has_all)
}

/// Does what a word asks for with octets; returns whether nothing was wrong.
fn work_on<R: Print + AllocGlobal>(
    rt: &R,
    word: Option<&str>,
    name: &str,
    octets: &mut [u8],
    digits: &str,
) -> io::Result<bool> {
    match (word, octets.first(), octets.get(1)) {
        (Some("marks"), ..) => print_marks(rt, name, octets),
        (Some("answers"), ..) => {
            let is_right = print_answers(rt, Profile::Lenient, octets)?;
            Ok(print_answers(rt, Profile::Strict, octets)? && is_right)
        }
        (_, Some(5), Some(2)) => damage_file(rt, name, Format::Keytab, octets),
        (_, Some(5), _) => damage_file(rt, name, Format::Ccache, octets),
        _ => damage_message(rt, name, octets, digits),
    }
}

/// Makes the calls that allocate, and then, unless the word asks for these alone, works on each line
/// of the standard input; returns whether nothing was wrong.
fn report_lines(rt: &HostRuntime, word: Option<&str>) -> io::Result<bool> {
    if matches!(word, None | Some("memory")) {
        let is_right = report_calls(rt)?;
        if !is_right || word.is_some() {
            return Ok(is_right);
        }
    }
    let alloc = rt.alloc();
    let text = io::read_to_string(alloc, rt.stdin())?;
    for line in text.as_str().lines() {
        let Some((name, digits)) = line.split_once(' ') else {
            return Ok(false);
        };
        let Ok(mut octets) = hex::decode(alloc, digits) else {
            return Ok(false);
        };
        if !work_on(rt, word, name, octets.as_mut_slice(), digits)? {
            return Ok(false);
        }
    }
    Ok(true)
}

fn main(rt: HostRuntime) -> io::Result<ExitCode> {
    let mut words = env::args(&rt)?;
    let _program = words.next();
    let word = words.next();
    let number = words.next();
    let word = word.as_deref();
    let is_right = match word.and_then(Work::of) {
        Some(work) => report_frames(&rt, work, number.as_deref())?,
        None => report_lines(&rt, word)?,
    };
    Ok(if is_right {
        ExitCode::SUCCESS
    } else {
        ExitCode::FAILURE
    })
}
