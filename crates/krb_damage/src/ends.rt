//! Runs with a reader or a writer that fails.

use crate::fakes::{Narrow, Slow};
use krb_der::Profile;
use krb_file_run::{run_ccache, run_keytab};
use krb_record::Label;
use krb_run::{RunEnd, RunFault};
use krb_tool::{Form, Limit, run_lines_in, run_message_in, run_stream_in};
use std::alloc::Global;
use std::io::{Read, Write};

/// A run.
#[derive(Clone, Copy)]
pub(crate) enum Run {
    Stream(Profile),
    Message(Profile),
    Lines(Profile),
    Keytab,
    Ccache,
}

impl Run {
    fn list<R: Read, W: Write>(
        self,
        alloc: Global,
        reader: &mut R,
        writer: &mut W,
    ) -> Result<RunEnd, RunFault> {
        match self {
            Run::Stream(profile) => {
                run_stream_in(
                    alloc,
                    &Label::none(Form::Lines),
                    profile,
                    false,
                    reader,
                    writer,
                    Limit::DEFAULT,
                )
            }
            Run::Message(profile) => run_message_in(
                alloc,
                &Label::none(Form::Lines),
                profile,
                reader,
                writer,
            ),
            Run::Lines(profile) => run_lines_in(
                alloc,
                &Label::none(Form::Lines),
                profile,
                reader,
                writer,
            ),
            Run::Keytab => run_keytab(alloc, reader, writer),
            Run::Ccache => run_ccache(alloc, reader, writer, Some(946688399)),
        }
    }

    /// Returns the listing of octets.
    pub(crate) fn listing(self, alloc: Global, octets: &[u8]) -> Option<Vec<u8>> {
        let mut text = Vec::new(alloc);
        let mut reader = octets;
        self.list(alloc, &mut reader, &mut text).ok()?;
        Some(text)
    }
}

/// The numbers of failures.
#[derive(Clone, Copy)]
pub(crate) struct Failed {
    pub(crate) reads: u64,
    pub(crate) writes: u64,
}

/// No failures.
pub(crate) const NONE_FAILED: Failed = Failed {
    reads: 0,
    writes: 0,
};

/// Returns a text without its last line.
fn without_last(text: &[u8]) -> &[u8] {
    let mut end = 0;
    for (place, octet) in text.iter().enumerate() {
        let next = place.saturating_add(1);
        if *octet == b'\n' && next < text.len() {
            end = next;
        }
    }
    text.get(..end).unwrap_or(text)
}

/// Returns how many reads a run makes from a reader of at most `at_most` octets at once, each of
/// which was made to fail in turn. After each failure the lines of what was read are written, all
/// or the first of them. Returns `None` if something is wrong, or out of memory.
fn failing_reads(alloc: Global, run: Run, octets: &[u8], at_most: usize) -> Option<u64> {
    let whole = run.listing(alloc, octets)?;
    let mut reads = 0u64;
    for asks in 0..=octets.len().saturating_add(1) {
        let mut reader = Slow {
            octets,
            at_most,
            asks,
        };
        let mut text = Vec::new(alloc);
        let outcome = run.list(alloc, &mut reader, &mut text);
        if outcome.is_ok() {
            return (text.as_slice() == whole.as_slice()).then_some(reads);
        }
        let count = asks.saturating_mul(at_most).min(octets.len());
        let read = run.listing(alloc, &octets[..count])?;
        let lines = without_last(read.as_slice());
        if !matches!(outcome, Err(RunFault::Read(_))) || !lines.starts_with(text.as_slice()) {
            return None;
        }
        reads = reads.saturating_add(1);
    }
    None
}

/// Returns how many writes of at most `at_most` octets a run makes, each of which was made to fail
/// in turn. After each failure a prefix of the listing is written. Returns `None` if something is
/// wrong, or out of memory.
fn failing_writes(
    alloc: Global,
    run: Run,
    octets: &[u8],
    at_most: usize,
    fails: bool,
) -> Option<u64> {
    let whole = run.listing(alloc, octets)?;
    let mut failed = 0u64;
    for writes in 0..=whole.len() {
        let mut writer = Narrow {
            taken: Vec::new(alloc),
            at_most,
            writes,
            fails,
        };
        let mut reader = octets;
        let outcome = run.list(alloc, &mut reader, &mut writer);
        let taken = writer.taken.as_slice();
        if outcome.is_ok() {
            return (taken == whole.as_slice()).then_some(failed);
        }
        let all = writes.saturating_mul(at_most);
        let few = taken.len() <= all && (at_most > 1 || taken.len() == all);
        if !matches!(outcome, Err(RunFault::Write(_)))
            || !few
            || !whole.as_slice().starts_with(taken)
        {
            return None;
        }
        failed = failed.saturating_add(1);
    }
    None
}

/// Lists octets from readers that fail and to writers that fail, and returns the numbers of
/// failures, with those before.
pub(crate) fn failures(alloc: Global, run: Run, octets: &[u8], before: Failed) -> Option<Failed> {
    let Failed {
        mut reads,
        mut writes,
    } = before;
    for at_most in [1, 7, 1000] {
        reads = reads.saturating_add(failing_reads(alloc, run, octets, at_most)?);
        for fails in [true, false] {
            writes = writes.saturating_add(failing_writes(alloc, run, octets, at_most, fails)?);
        }
    }
    Some(Failed { reads, writes })
}
