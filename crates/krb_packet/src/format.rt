//! The formats of capture files, which differ in their first four octets.

ghost use Rattle.std.specs.Prelude.{◌≡◌, ◌^◌, ◌<◌, ◌≤◌, OnOk, Ok, Err};
ghost use Rattle.krb_file.specs.FieldReaders.{Follows, Stays, Keeps};
ghost use Rattle.krb_file.specs.Fields.{fails_at, fails_begun, with_part};
ghost use Rattle.krb_file.specs.declared.field_name.FilePart.TheVariants as parts;
ghost use Rattle.krb_packet.specs.Captures.{blocks_of, packet_in, begin_in, next_in};

use crate::block::{BlockKind, Section};
use crate::blocks::{block_after, next_block};
use crate::order::ByteOrder;
use crate::packet::Packet;
use crate::pcap::{Form, Header, Magic, next_captured, read_header, read_magic};
use krb_der::Many;
use krb_file::{FieldReader, FileFault, FilePart, in_part};
use std::alloc::Global;

/// The progress in a file: its format, once that is known, and what of it later fields depend on.
#[derive(Drop)]
pub enum Format {
    /// Nothing.
    Unknown,
    /// The header of a pcap, and any number of packets.
    Pcap(Header),
    /// Blocks of a pcapng.
    Pcapng(Section),
}

/// A step in reading a file.
#[derive(Drop)]
pub enum Next {
    /// A packet, and what was read with it.
    Packet(Packet, Format),
    /// No packet, and what was read.
    NoPacket(Format),
    /// The end.
    End,
}

/// Returns the fault of a packet of a pcap that begins at `start`. It stands apart, so that a packet
/// is returned where it was made.
#[cold]
#[inline(never)]
fn refused_packet(count: u64, start: u64, fault: FileFault) -> Result<Option<Packet>, FileFault>
    ensures { result ≡ fails_begun start (fails_at (with_part (parts.Packet count)) (Err fault)) }
{
    in_part(FilePart::Packet(count), start, Err(fault))
}

/// Reads the next packet of a pcap, if the file has not ended. The reader is at `start`.
pub(crate) fn packet<F: FieldReader>(
    alloc: Global,
    header: Header,
    count: u64,
    start: u64,
    reader: &mut F,
) -> Result<Option<Packet>, FileFault>
    requires few { count < 2 ^ 63 }
    requires place { start ≡ (F.cursor reader.old).place }
    ensures read { Follows (λ packet. packet) result (packet_in header count) F.MayFail (F.cursor reader.old) (F.cursor reader.new) }
    ensures stays { OnOk result (Stays (F.cursor reader.old) (F.cursor reader.new)) }
    ensures on { (F.cursor reader.old).place ≤ (F.cursor reader.new).place }
{
    match next_captured(alloc, header, count, reader) {
        Ok(packet) => Ok(packet),
        Err(fault) => refused_packet(count, start, fault),
    }
}

/// Reads the first field of a file and then the header of a pcap or the first block of a pcapng.
fn begin<F: FieldReader>(alloc: Global, count: u64, reader: &mut F) -> Result<Next, FileFault>
    requires { count < 2 ^ 63 }
    ensures read { Follows (λ next. next) result (begin_in count) F.MayFail (F.cursor reader.old) (F.cursor reader.new) }
    ensures keeps { Keeps (F.cursor reader.old) (F.cursor reader.new) }
{
    match read_magic(reader)? {
        Magic::Pcap(form) => Ok(Next::NoPacket(Format::Pcap(read_header(form, reader)?))),
        Magic::Pcapng => {
            let section = Section {
                order: ByteOrder::BigEndian,
                interfaces: Many::new(Vec::new(alloc)),
                blocks: 0,
            };
            block_after(alloc, BlockKind::Section, section, count, reader)
        }
    }
}

/// Reads on after `count` packets: up to the next packet, or less.
pub(crate) fn next_step<F: FieldReader>(
    alloc: Global,
    format: Format,
    count: u64,
    reader: &mut F,
) -> Result<Next, FileFault>
    requires packets { count ≤ (F.cursor reader.old).place }
    requires blocks { blocks_of format ≤ (F.cursor reader.old).place }
    ensures few { (F.cursor reader.old).place < 2 ^ 63 }
    ensures read { Follows (λ next. next) result (next_in format count) F.MayFail (F.cursor reader.old) (F.cursor reader.new) }
    ensures stays { OnOk result (Stays (F.cursor reader.old) (F.cursor reader.new)) }
    ensures on { (F.cursor reader.old).place ≤ (F.cursor reader.new).place }
{
    let start = reader.place();
    match format {
        Format::Unknown => begin(alloc, count, reader),
        Format::Pcap(header) => match packet(alloc, header, count, start, reader) {
            Ok(Some(packet)) => Ok(Next::Packet(packet, Format::Pcap(header))),
            Ok(None) => Ok(Next::End),
            Err(fault) => Err(fault),
        },
        Format::Pcapng(section) => next_block(alloc, section, count, reader),
    }
}
