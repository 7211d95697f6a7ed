//! A run over messages that the lines of a text spell, one in each line.

ghost use Rattle.std.specs.Prelude.{◌≡◌, ◌+◌, ◌<◌, ◌^◌, IfOk, IfErr, OnOk};
ghost use Rattle.krb_tool.specs.MessageLines.{ListsLines, FailsLines, is_passed, with_refused};
ghost use Rattle.krb_run.specs.declared.run.RunFault.TheVariants as fault;
ghost use Rattle.krb_run.specs.LineReaders.{line_rules, reader_kind};
ghost use Rattle.krb_tool.specs.inner.MessageLines.{PutsLine, message_lines};
ghost use Rattle.krb_run.specs.Pieces.{listing_of};

use crate::labelled::put_counted_end;
use crate::listing::counted_end;
use crate::message_input::{MOST_INPUT, MessageInput};
use krb_der::Profile;
use krb_record::{Label, TextBuffer};
use krb_run::{
    CountedReader, ListStream, ReadLines, RunEnd, RunFault, end_lines, feed_lines, is_blank_line,
    list_all,
};
use std::alloc::Global;
use std::io::{Read, Write};

/// What was seen of a text: how many lines, how many octets these have with their line feeds, and
/// how many of the lines spell a message or a Ticket and how many are refused.
#[derive(Clone, Copy)]
pub(crate) struct Seen {
    lines: u64,
    octets: u64,
    messages: u64,
    refused: u64,
    /// Whether the first record is that of a refusal.
    is_refused_at_once: bool,
}

impl Seen {
    /// Counts a record of a refusal.
    fn count_refused(&mut self)
        requires { self.old.messages + self.old.refused + 1 < 2 ^ 64 }
        ensures { self.new ≡ with_refused self.old }
    {
        self.is_refused_at_once |= (self.messages == 0) & (self.refused == 0);
        self.refused += 1;
    }
}

/// What a listing of lines is asked for: the label of the records, and the profile of the messages.
#[derive(Clone, Copy, Drop)]
pub(crate) struct LinesRequest<'a> {
    label: &'a Label,
    profile: Profile,
}

/// A lister of lines: what allocates for it, what it is asked for, the octets of the line that has
/// not ended, as far as they decide its record, and how many that line has, what was seen of the
/// lines before it, and the records that are not written yet.
#[derive(Drop)]
pub(crate) struct LineLister<'a> {
    alloc: Global,
    request: LinesRequest<'a>,
    line: Vec<u8>,
    size: u64,
    seen: Seen,
    text: TextBuffer,
}

impl LineLister<'_> {
    /// Returns whether the line is passed over.
    fn is_passed(&self) -> bool
        ensures { result ≡ is_passed self.now.line.items }
    {
        self.line.len() <= MOST_INPUT && is_blank_line(self.line.as_slice())
    }

    /// Adds the record of the line, and counts the record, unless the line is passed over.
    fn put_line(&mut self) -> Result<(), RunFault>
        requires lines { self.old.seen.lines + 1 < 2 ^ 64 }
        requires records { self.old.seen.messages + self.old.seen.refused + 1 < 2 ^ 64 }
        ensures put { OnOk result (PutsLine self.old self.new) }
        ensures fault { IfErr result (λ e. e ≡ fault.Memory) }
    {
        if self.is_passed() {
            return Ok(());
        }
        let input = MessageInput {
            form: self.request.label.form(),
            profile: self.request.profile,
            line: Some(self.seen.lines + 1),
            at: self.seen.octets,
        };
        self.request.label.begin(&mut self.text)?;
        let ended = input.put(self.alloc, &mut self.text, self.line.as_slice())?;
        self.request.label.end(&mut self.text)?;
        match ended {
            RunEnd::Clean => self.seen.messages += 1,
            RunEnd::Refused => self.seen.count_refused(),
            RunEnd::RefusedAtOnce => self.seen.count_refused(),
        }
        Ok(())
    }
}

impl ReadLines for LineLister<'_> {
    ghost kind = { message_lines };

    fn add(&mut self, octets: &[u8]) -> Result<bool, RunFault> {
        let room = (MOST_INPUT + 1).saturating_sub(self.line.len());
        let kept = octets.len().min(room);
        self.line.extend_from_slice(&octets[..kept])?;
        self.size += octets.len() as u64;
        Ok(true)
    }

    fn end_line(&mut self) -> Result<bool, RunFault> {
        self.put_line()?;
        self.seen.lines += 1;
        self.seen.octets += self.size + 1;
        self.size = 0;
        self.line.clear();
        Ok(true)
    }

    fn has_line(&self) -> bool {
        !self.line.is_empty()
    }
}

impl<'a> ListStream for LineLister<'a> {
    type Request = LinesRequest<'a>;

    type End = RunEnd;

    ghost rules = { line_rules message_lines };

    ghost listing = { listing_of (reader_kind message_lines) };

    fn new(alloc: Global, request: LinesRequest<'a>) -> LineLister<'a> {
        LineLister {
            alloc,
            request,
            line: Vec::new(alloc),
            size: 0,
            seen: Seen {
                lines: 0,
                octets: 0,
                messages: 0,
                refused: 0,
                is_refused_at_once: false,
            },
            text: TextBuffer::new(alloc),
        }
    }

    fn feed(&mut self, piece: &[u8]) -> Result<bool, RunFault> {
        feed_lines(self, piece)
    }

    fn text(&self) -> &[u8] {
        self.text.octets()
    }

    fn clear_text(&mut self) {
        self.text.clear();
    }

    fn finish(&mut self) -> Result<RunEnd, RunFault> {
        end_lines(self)?;
        let Seen {
            messages,
            refused,
            is_refused_at_once,
            ..
        } = self.seen;
        put_counted_end(&mut self.text, self.request.label, messages, refused)?;
        Ok(counted_end(is_refused_at_once, refused))
    }
}

/// Lists the messages of a profile that the lines of a text spell, one in each line, as
/// [`run_message_in`](crate::run_message_in) lists one, but that a line is text, and no dump: writes
/// a record of each line, with its number, from 1, and with a label, and then the record of the end, with how many
/// lines spell a message or a Ticket and how many are refused. A line is what comes before a line
/// feed, and the rest if it is not empty; a line of spaces, tabs and CR alone is passed over, and
/// one of more than 16777216 octets is `refused length`. The reader is asked at most 2^40 times, for
/// 64 KiB each, and the records of the lines that end in what came are written before it is asked
/// again. If a read fails, the records of the lines that ended before that are written, and no last
/// one; if memory runs out, the first octets of these. Memory is allocated for the greatest line
/// alone.
pub fn run_lines_in<R: Read, W: Write>(
    alloc: Global,
    label: &Label,
    profile: Profile,
    reader: &mut R,
    writer: &mut W,
) -> Result<RunEnd, RunFault>
    ensures listed { IfOk result (ListsLines label.now profile (R.remaining reader.old) (R.remaining reader.new) (W.contents writer.old) (W.contents writer.new)) }
    ensures fault { IfErr result (FailsLines label.now profile (R.remaining reader.old) (R.remaining reader.new) (W.contents writer.old) (W.contents writer.new)) }
{
    let mut counted = CountedReader::new(reader);
    let request = LinesRequest { label, profile };
    list_all::<LineLister<'_>, _, _>(alloc, request, &mut counted, writer)
}
