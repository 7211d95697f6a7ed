//! The run over a capture whose messages are decoded.

ghost use Rattle.std.specs.Prelude.{◌≡◌, ◌++◌, ◌||◌, nat_lt, ℕ, List, Some, IsSome, IfErr, IfOk, OnOk};
ghost use Rattle.krb_capture_run.specs.Decoded.{decoded_capture, few_text, missing_text, none_text};
ghost use Rattle.krb_capture_run.specs.inner.DecodedRuns.{AllCame, DecodedSource, IsDecodedLeft, IsFoundLeft, SaysMissing, after_packet as packet_after, has_come as came, wanted_of as wanted_in};
ghost use Rattle.krb_record.specs.Labels.{no_label};
ghost use Rattle.krb_run.specs.Faults.{IsRead, IsWrite};
ghost use Rattle.krb_run.specs.Records.{AddsLine, ListsRecords, RecordListing, WritesSome};

use crate::capture_run::{put_end, put_fault};
use krb_capture::{Capture, Decoding, Rest};
use krb_der::Profile;
use krb_frame::Limit;
use krb_packet::Packets;
use krb_record::{Form, Label, TextBuffer};
use krb_run::{RecordLines, RunEnd, RunFault, Watch, Watched, in_pieces, list_records};
use std::alloc::{AllocError, Global};
use std::io::{Read, Write};

/// The one packet of a capture whose messages are decoded.
#[derive(Clone, Copy)]
struct Wanted {
    /// Its number, from 1.
    number: u64,
    /// How many packets are still to come, up to it.
    more: u64,
}

/// The lines of a capture whose messages are decoded.
#[derive(Drop)]
struct DecodedLines<'label, 'watch, R: Read> {
    packets: Packets<R>,
    capture: Capture<'label>,
    /// What is left of the packet that came last, if its lines are not all there.
    rest: Option<Box<Rest>>,
    label: &'label Label,
    watch: &'watch Watch,
    /// The one packet that is decoded, if it is one alone.
    wanted: Option<Wanted>,
    /// Whether there is a line.
    has_line: bool,
}

/// Returns the packet of a number, before any packet.
fn wanted_of(number: Option<u32>) -> Option<Wanted>
    ensures { result ≡ wanted_in number }
{
    match number {
        None => None,
        Some(number) => {
            let number = u64::from(number);
            Some(Wanted {
                number,
                more: number,
            })
        }
    }
}

/// Returns what is decoded: of all packets, or of the one of a number.
fn decoding_of(number: Option<u32>) -> Decoding
    ensures { result.packet ≡ number }
{
    let packet = match number {
        None => None,
        Some(number) => Some(u64::from(number)),
    };
    Decoding { packet }
}

/// Returns whether the wanted packet came.
fn has_come(wanted: Option<Wanted>) -> bool
    ensures { result ≡ came wanted }
{
    match wanted {
        None => false,
        Some(wanted) => wanted.more == 0,
    }
}

/// Returns the wanted packet after one more.
fn after_packet(wanted: Option<Wanted>) -> Option<Wanted>
    ensures { result ≡ packet_after wanted }
{
    match wanted {
        None => None,
        Some(Wanted { number, more }) => Some(Wanted {
            number,
            more: more.saturating_sub(1),
        }),
    }
}

/// Returns whether there are lines after those of a text that has so many octets more.
fn has_more(has_line: bool, before: usize, after: usize) -> bool
    ensures { result ≡ (has_line || nat_lt before after) }
{
    has_line || before < after
}

/// Appends that no message ends in the packet of a number.
fn put_none(text: &mut TextBuffer, number: u64) -> Result<(), AllocError>
    ensures { OnOk result (text.new ≡ text.old ++ none_text number) }
{
    write!(text, "packet {number}: no message ends in it\n")
}

/// Appends that a capture has too few packets for the one of a number.
fn put_few(text: &mut TextBuffer, number: u64, packets: u64) -> Result<(), AllocError>
    ensures { OnOk result (text.new ≡ text.old ++ few_text number packets) }
{
    write!(text, "packet {number}: the capture has ")?;
    write!(text, "{packets}\n")
}

/// Appends that no message ends in the wanted packet, or that the capture has too few.
fn put_missing(text: &mut TextBuffer, wanted: Wanted) -> Result<(), AllocError>
    ensures { OnOk result (text.new ≡ text.old ++ missing_text wanted.number wanted.more) }
{
    let Wanted { number, more } = wanted;
    if more == 0 {
        put_none(text, number)
    } else {
        put_few(text, number, number.saturating_sub(more))
    }
}

impl<R: Read> DecodedLines<'_, '_, R> {
    /// Appends the lines that are left of the last packet, or those of the next one, and returns none. If
    /// there is none it appends those of the end of the file, and if the wanted one came nothing, and
    /// returns how the run ends.
    fn put_found(
        &mut self,
        alloc: Global,
        text: &mut TextBuffer,
    ) -> Result<Option<RunEnd>, RunFault>
        ensures line { (source : DecodedSource) (left : RecordListing) → IsFoundLeft self.old.packets self.old.capture self.old.rest self.old.label.now self.old.wanted source left → AddsLine (IsFoundLeft self.new.packets self.new.capture self.new.rest self.new.label.now self.new.wanted source) left text.old text.new result }
        ensures came { IfOk result (λ ended. IsSome ended → (source : DecodedSource) (left : RecordListing) → IsFoundLeft self.old.packets self.old.capture self.old.rest self.old.label.now self.old.wanted source left → AllCame self.new.wanted source) }
        ensures same { self.new.has_line ≡ self.old.has_line }
        ensures fault { IfErr result (λ e. IsWrite e → ⊥) }
        ensures kept { IfErr result (λ e. IsRead e → text.new ≡ text.old) }
    {
        if let Some(rest) = self.rest.take() {
            self.rest = self.capture.go_on(rest, text)?;
            return Ok(None);
        }
        match self.packets.next_packet(alloc) {
            Ok(Some(packet)) => {
                if has_come(self.wanted) {
                    return Ok(Some(RunEnd::Clean));
                }
                self.wanted = after_packet(self.wanted);
                self.rest = self.capture.take(&packet, text)?;
                self.packets.give_back(packet);
                Ok(None)
            }
            Ok(None) => put_end(&mut self.capture, text),
            Err(fault) => put_fault(
                alloc,
                fault,
                &mut self.capture,
                self.label,
                self.watch,
                text,
            ),
        }
    }

    /// Appends that there is no line of the wanted packet, if that is so. Returns how the run ends then, and
    /// else what it is given.
    fn put_said(&self, text: &mut TextBuffer, end: RunEnd) -> Result<RunEnd, RunFault>
        ensures said { IfOk result (SaysMissing self.now.wanted self.now.has_line end text.old text.new) }
        ensures fault { IfErr result (λ e. e ≡ RunFault.Memory) }
    {
        match self.wanted {
            Some(wanted) if !self.has_line => {
                put_missing(text, wanted)?;
                Ok(RunEnd::Refused)
            }
            _ => Ok(end),
        }
    }
}

impl<R: Read> RecordLines for DecodedLines<'_, '_, R> {
    ghost Source = { DecodedSource };

    ghost IsLeft = { λ lines _ source left. IsDecodedLeft lines.packets lines.capture lines.rest lines.label.now lines.wanted lines.has_line source left };

    fn put_next(
        &mut self,
        alloc: Global,
        _count: u64,
        text: &mut TextBuffer,
    ) -> Result<Option<RunEnd>, RunFault> {
        let size = text.size();
        let ended = self.put_found(alloc, text)?;
        self.has_line = has_more(self.has_line, size, text.size());
        match ended {
            None => Ok(None),
            Some(end) => Ok(Some(self.put_said(text, end)?)),
        }
    }
}

/// Decodes the Kerberos messages of a capture, a pcap or a pcapng: writes a line of JSON for each that
/// is encrypted where it should be, and, in their order, lines that begin with no brace, which say
/// what is refused, lost, unread or not encrypted, as it is listed with names. If all packets are
/// decoded the last line says what was counted, if something was refused, lost or unread. If the one
/// packet of a number is decoded, nothing is read after the packet that follows it, and of others
/// nothing is said; if the packet has no line, or if there is none of the number, that is said. Else
/// reads and writes as [`run_capture`](crate::run_capture) does.
pub fn run_decode_capture<R: Read, W: Write>(
    alloc: Global,
    profile: Profile,
    reader: &mut R,
    writer: &mut W,
    limit: Limit,
    port: u16,
    packet: Option<u32>,
) -> Result<RunEnd, RunFault>
    ensures listed { (file : List ℕ) → R.remaining reader.old ≡ Some file → ListsRecords (decoded_capture profile limit port packet file) (λ left. Unit {0}) (W.contents writer.old) (W.contents writer.new) result }
    ensures written { WritesSome (W.contents writer.old) (W.contents writer.new) }
{
    let label = Label::none(Form::NamedLines);
    decode_with(alloc, &label, profile, reader, writer, limit, port, packet)
}

/// Decodes a capture, as [`run_decode_capture`] does, with the label of what is said.
fn decode_with<R: Read, W: Write>(
    alloc: Global,
    label: &Label,
    profile: Profile,
    reader: &mut R,
    writer: &mut W,
    limit: Limit,
    port: u16,
    packet: Option<u32>,
) -> Result<RunEnd, RunFault>
    requires { label.now ≡ no_label Form.NamedLines }
    ensures listed { (file : List ℕ) → R.remaining reader.old ≡ Some file → ListsRecords (decoded_capture profile limit port packet file) (λ left. Unit {0}) (W.contents writer.old) (W.contents writer.new) result }
    ensures written { WritesSome (W.contents writer.old) (W.contents writer.new) }
{
    let watch = Watch::new();
    let watch = &watch;
    let reader = in_pieces(alloc, Watched { reader, watch })?;
    let packets = Packets::new(reader);
    let capture = Capture::decoding(alloc, label, decoding_of(packet), profile, limit, port);
    let wanted = wanted_of(packet);
    let mut text = TextBuffer::new(alloc);
    let mut lines = DecodedLines {
        packets,
        capture,
        rest: None,
        label,
        watch,
        wanted,
        has_line: false,
    };
    list_records(alloc, &mut lines, &mut text, watch, writer)
}
