//! Where the packets lie of a capture, and which of them its records are of.

ghost use Rattle.std.specs.Prelude.{◌≡◌, length, OnOk};
ghost use Rattle.krb_capture.specs.Labels.{of_records};
ghost use Rattle.krb_capture_run.specs.Captures.{capture_listing};
ghost use Rattle.krb_record.specs.Labels.{no_label};
ghost use Rattle.krb_record.specs.declared.form.Form.TheVariants.{NamedLines};
ghost use Rattle.krb_c.specs.Spanned.{is_clean};
ghost use Rattle.krb_c.specs.inner.Within.{AddsWithin};

use crate::spans::Spans;
use krb_capture_run::run_capture;
use krb_file::FileFault;
use krb_judge::Profile;
use krb_packet::{Packet, Packets};
use krb_record::{Form, Label};
use krb_run::{RunEnd, RunFault};
use krb_tool::Limit;
use std::alloc::{AllocError, Global};
use std::io::ErrorKind;
use std::str;

/// The number of octets of the header of a pcap, and of that of each of its packets.
const FILE_HEADER: usize = 24;

const PACKET_HEADER: usize = 16;

/// The fewest octets of a block of a pcapng.
const LEAST_BLOCK: usize = 12;

/// The octets with which a pcapng begins, and each of its sections.
const SECTION: [u8; 4] = [0x0A, 0x0D, 0x0D, 0x0A];

/// The blocks of a file, of which a packet lies in one.
#[derive(Clone, Copy)]
struct Blocks<'a> {
    file: &'a [u8],
    place: usize,
    is_little: bool,
}

/// Returns the octets of a file from a place on.
fn from(file: &[u8], place: usize) -> &[u8] {
    &file[place.min(file.len())..]
}

/// Returns the number that four octets are in an order.
fn number(octets: &[u8], is_little: bool) -> u32 {
    let Some(four) = octets.first_chunk::<4>() else {
        return 0;
    };
    if is_little {
        u32::from_le_bytes(*four)
    } else {
        u32::from_be_bytes(*four)
    }
}

impl Blocks<'_> {
    /// Goes on after the next block. Returns where a packet lies that is in it.
    fn pass(&mut self) -> Option<usize> {
        let block = from(self.file, self.place);
        if block.starts_with(&SECTION) {
            self.is_little = from(block, 8).starts_with(&[0x4D]);
        }
        let begin = self.place;
        let size = number(from(block, 4), self.is_little) as usize;
        self.place = begin.saturating_add(size.max(LEAST_BLOCK));
        match number(block, self.is_little) {
            2 | 6 => Some(begin.saturating_add(28)),
            3 => Some(begin.saturating_add(12)),
            _ => None,
        }
    }

    /// Returns where the next packet lies, or the end of the file.
    fn next_packet(&mut self) -> usize {
        for _ in 0..u64::MAX {
            if self.file.len() <= self.place {
                return self.file.len();
            }
            if let Some(place) = self.pass() {
                return place;
            }
        }
        self.file.len()
    }
}

/// Returns the next packet, or nothing after the last one that can be read.
fn next_of(alloc: Global, packets: &mut Packets<&[u8]>) -> Result<Option<Packet>, RunFault> {
    match packets.next_packet(alloc) {
        Ok(packet) => Ok(packet),
        Err(FileFault::Refused(_)) => Ok(None),
        Err(FileFault::Read) => Err(RunFault::Read(ErrorKind::Other.into())),
        Err(FileFault::Memory) => Err(RunFault::Memory),
    }
}

/// Returns where the packets of a capture lie.
fn packets_of(alloc: Global, file: &[u8]) -> Result<Vec<(usize, usize)>, RunFault> {
    let mut packets = Packets::new(file);
    let mut found = Vec::new(alloc);
    let is_pcapng = file.starts_with(&SECTION);
    let mut blocks = Blocks {
        file,
        place: 0,
        is_little: false,
    };
    let mut next = FILE_HEADER;
    for _ in 0..u64::MAX {
        let Some(packet) = next_of(alloc, &mut packets)? else {
            return Ok(found);
        };
        let begin = if is_pcapng {
            blocks.next_packet()
        } else {
            next.saturating_add(PACKET_HEADER)
        };
        next = begin.saturating_add(packet.octets.as_slice().len());
        found.push((begin, next))?;
        packets.give_back(packet);
    }
    Ok(found)
}

/// Returns the number that a field of a line has, of a name with `=`.
fn field(line: &str, name: &str) -> Option<u64> {
    for word in line.split(' ') {
        if let Some(text) = word.strip_prefix(name) {
            return text.parse::<u64>().ok();
        }
    }
    None
}

/// Returns where the packet of a record lies, or the last part of the file from where it is refused, or
/// where it ends.
fn place_of(packets: &[(usize, usize)], line: &str, all: usize) -> (usize, usize) {
    if line.starts_with("packet=") {
        let packet = field(line, "packet=").unwrap_or(0);
        let index = packet.saturating_sub(1) as usize;
        return packets.get(index).copied().unwrap_or((all, all));
    }
    (field(line, "at=").map_or(all, |at| at as usize), all)
}

/// Adds the octets from a place up to an end, of those that there are.
fn put_within(spans: &mut Spans, begin: usize, end: usize, all: usize) -> Result<(), AllocError>
    ensures { OnOk result (AddsWithin all spans.old spans.new) }
{
    spans.put(begin.min(all), end.min(all))
}

/// Adds for each line of a listing the data of its packet.
fn put_lines(
    spans: &mut Spans,
    packets: &[(usize, usize)],
    listing: &[u8],
    all: usize,
) -> Result<(), AllocError>
    ensures { OnOk result (AddsWithin all spans.old spans.new) }
{
    let Ok(listing) = str::from_utf8(listing) else {
        return Ok(());
    };
    'lines: for line in listing.lines() {
        let (begin, end) = place_of(packets, line, all);
        put_within(spans, begin, end, all)?;
    }
    Ok(())
}

/// Returns whether a run is clean.
fn is_clean(end: RunEnd) -> bool
    ensures { result ≡ is_clean end }
{
    end == RunEnd::Clean
}

/// Adds for each record of a capture the data of its packet in the file.
pub(crate) fn put_capture(
    alloc: Global,
    spans: &mut Spans,
    profile: Profile,
    limit: Limit,
    port: u16,
    file: &[u8],
) -> Result<(), RunFault>
    ensures within { OnOk result (AddsWithin (length file.now) spans.old spans.new) }
    ensures clean { OnOk result (spans.new.is_clean ≡ is_clean (capture_listing (record { label = of_records (no_label NamedLines); profile = profile; limit = limit; port = port }) file.now).end) }
{
    let mut reader = file;
    let mut text = Vec::new(alloc);
    let label = Label::none(Form::NamedLines);
    let end = run_capture(alloc, &label, profile, &mut reader, &mut text, limit, port)?;
    let packets = packets_of(alloc, file)?;
    put_lines(spans, packets.as_slice(), text.as_slice(), file.len())?;
    spans.is_clean = is_clean(end);
    Ok(())
}
