//! Lines of JSON as messages.

ghost use Rattle.std.specs.Prelude.{◌≡◌, ◌+◌, ◌++◌, ◌<◌, ◌≤◌, ◌^◌, ◌&&◌, not, false, [], length, IfErr, IfOk, OnOk, None, Ok};
ghost use Rattle.krb_convert.specs.Encoding.{ending_of, line_spelled, most_of_line, written_as};
ghost use Rattle.krb_json.specs.Tickets.{IsFaultIn};
ghost use Rattle.krb_run.specs.TextLines.{is_blank_line};
ghost use Rattle.krb_run.specs.declared.run.RunFault.TheVariants as fault;
ghost use Rattle.krb_convert.specs.inner.EncodedLines.{IsFound, TakesLine, json_reading, rest_of};
ghost use Rattle.krb_run.specs.LineReaders.{line_rules, reader_kind};
ghost use Rattle.krb_run.specs.Pieces.{listing_of};

use crate::encode_run::EncodeEnd;
use krb_der::Profile;
use krb_frame::Limit;
use krb_json::law::{lines_spell_messages, lines_spell_octets};
use krb_json::{LineFault, Scratch, read_line, read_line_or_ticket};
use krb_run::{
    ListStream, PIECE_OCTETS, ReadLines, RunFault, end_lines, feed_lines, is_blank_line,
};
use std::alloc::{AllocError, Global};

/// What an encoding is asked for: the profile of the messages, the greatest length of one, and
/// whether each is written as a frame, or there is one without its length.
#[derive(Drop)]
pub(crate) struct EncodeRequest {
    pub profile: Profile,
    pub limit: Limit,
    pub is_framed: bool,
}

impl EncodeRequest {
    /// Returns the greatest number of octets of a line.
    fn most_of_line(&self) -> u64
        ensures { result ≡ most_of_line self.now.limit }
    {
        8 * u64::from(self.limit.get()) + PIECE_OCTETS as u64
    }
}

/// A reader of lines, up to their end or the first fault: what allocates for it, what it is asked
/// for, memory in which JSON is read, the octets of the line that has not ended, the messages that
/// are not written yet, the number of lines that ended, whether a message came, and why it reads no
/// line more.
#[derive(Drop)]
pub(crate) struct JsonReader {
    alloc: Global,
    request: EncodeRequest,
    scratch: Scratch,
    line: Vec<u8>,
    text: Vec<u8>,
    lines: u64,
    came: bool,
    fault: Option<EncodeEnd>,
}

impl JsonReader {
    /// Passes over the line if it is blank, and else adds the message that it spells, if one may
    /// come, or keeps its fault. Returns whether the line is not at fault.
    fn take_line(&mut self) -> Result<bool, RunFault>
        requires open { self.old.fault ≡ None }
        requires short { length self.old.line.items ≤ most_of_line self.old.request.limit }
        requires few { self.old.lines + 1 < 2 ^ 64 }
        ensures taken { IfOk result (TakesLine self.old self.new) }
        ensures fault { IfErr result (λ e. e ≡ fault.Memory) }
    {
        if is_blank_line(self.line.as_slice()) {
            return Ok(true);
        }
        if self.has_all() {
            let line = self.lines + 1;
            self.fault = Some(EncodeEnd::SecondMessage { line });
            return Ok(false);
        }
        self.add_message()
    }

    /// Returns whether no message may follow.
    fn has_all(&self) -> bool
        ensures { result ≡ (not self.now.request.is_framed && self.now.came) }
    {
        !self.request.is_framed && self.came
    }

    /// Adds the message that the line spells, or keeps its fault. Returns whether it is not at
    /// fault.
    fn add_message(&mut self) -> Result<bool, RunFault>
        requires open { self.old.fault ≡ None }
        requires short { length self.old.line.items ≤ most_of_line self.old.request.limit }
        requires some { is_blank_line self.old.line.items ≡ false }
        requires next { (not self.old.request.is_framed && self.old.came) ≡ false }
        requires few { self.old.lines + 1 < 2 ^ 64 }
        ensures taken { IfOk result (TakesLine self.old self.new) }
        ensures fault { IfErr result (λ e. e ≡ fault.Memory) }
    {
        match read_octets(
            self.alloc,
            &mut self.scratch,
            &self.request,
            self.line.as_slice(),
        ) {
            Ok(octets) => {
                put_message(&mut self.text, self.request.is_framed, octets.as_slice())?;
                self.came = true;
                Ok(true)
            }
            Err(fault) => {
                let fault = found_fault(fault)?;
                let line = self.lines + 1;
                self.fault = Some(EncodeEnd::Fault { line, fault });
                Ok(false)
            }
        }
    }

    /// Returns how a run ends after the last line.
    fn take_end(&mut self) -> EncodeEnd
        ensures end { ending_of result ≡ (rest_of self.old []).end }
        ensures text { self.new.text ≡ self.old.text }
    {
        match self.fault.take() {
            Some(fault) => fault,
            None if self.came || self.request.is_framed => EncodeEnd::Clean,
            None => EncodeEnd::NoMessage,
        }
    }
}

/// Returns the octets that a line spells: of a message, or, if one is written without its length,
/// maybe of a Ticket.
fn read_octets(
    alloc: Global,
    scratch: &mut Scratch,
    request: &EncodeRequest,
    line: &[u8],
) -> Result<Vec<u8>, LineFault>
    ensures octets { IfOk result (λ octets. line_spelled request.now.is_framed request.now.profile request.now.limit line.now ≡ Ok octets.items) }
    ensures short { IfOk result (λ octets. length octets.items < 2 ^ 31) }
    ensures fault { IfErr result (IsFaultIn (line_spelled request.now.is_framed request.now.profile request.now.limit line.now)) }
{
    lines_spell_messages();
    lines_spell_octets();
    let limit = request.limit.get();
    if request.is_framed {
        read_line(alloc, scratch, request.profile, limit, line)
    } else {
        read_line_or_ticket(alloc, scratch, request.profile, limit, line)
    }
}

/// Returns the fault that was found of a line, unless memory ran out before one was.
fn found_fault(line_fault: LineFault) -> Result<LineFault, RunFault>
    ensures found { IfOk result (λ found. IsFound line_fault found) }
    ensures fault { IfErr result (λ e. e ≡ fault.Memory) }
{
    match line_fault {
        LineFault::Memory => Err(RunFault::Memory),
        found => Ok(found),
    }
}

/// Appends the octets of a message, after their number if they are written as a frame.
fn put_message(text: &mut Vec<u8>, is_framed: bool, octets: &[u8]) -> Result<(), AllocError>
    requires { length octets.now < 2 ^ 31 }
    ensures { OnOk result (text.new.items ≡ text.old.items ++ written_as is_framed octets.now) }
{
    if is_framed {
        let size = octets.len() as u32;
        text.extend_from_slice(&size.to_be_bytes())?;
    }
    text.extend_from_slice(octets)
}

impl ReadLines for JsonReader {
    ghost kind = { json_reading };

    fn add(&mut self, octets: &[u8]) -> Result<bool, RunFault> {
        self.line.extend_from_slice(octets)?;
        let most = self.request.most_of_line();
        if self.line.len() as u64 <= most {
            return Ok(true);
        }
        let line = self.lines + 1;
        self.fault = Some(EncodeEnd::LongLine { line, most });
        Ok(false)
    }

    fn end_line(&mut self) -> Result<bool, RunFault> {
        let is_read = self.take_line()?;
        self.lines += 1;
        self.line.clear();
        Ok(is_read)
    }

    fn has_line(&self) -> bool {
        self.fault.is_none() && !self.line.is_empty()
    }
}

impl ListStream for JsonReader {
    type Request = EncodeRequest;

    type End = EncodeEnd;

    ghost rules = { line_rules json_reading };

    ghost listing = { listing_of (reader_kind json_reading) };

    fn new(alloc: Global, request: EncodeRequest) -> JsonReader {
        JsonReader {
            alloc,
            request,
            scratch: Scratch::new(alloc),
            line: Vec::new(alloc),
            text: Vec::new(alloc),
            lines: 0,
            came: false,
            fault: None,
        }
    }

    fn feed(&mut self, piece: &[u8]) -> Result<bool, RunFault> {
        feed_lines(self, piece)
    }

    fn text(&self) -> &[u8] {
        self.text.as_slice()
    }

    fn clear_text(&mut self) {
        self.text.clear();
    }

    fn finish(&mut self) -> Result<EncodeEnd, RunFault> {
        end_lines(self)?;
        Ok(self.take_end())
    }
}
