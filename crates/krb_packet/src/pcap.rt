//! The fields of pcap files, read.

ghost use Rattle.std.specs.Prelude.{◌≡◌, ◌+◌, ◌*◌, ◌^◌, ◌<◌, ◌≤◌, length, OnOk};
ghost use Rattle.krb_file.specs.FieldReaders.{Follows, Stays, Keeps};
ghost use Rattle.std.specs.Int.{w32};
ghost use Rattle.krb_file.specs.declared.field_name.FieldName.TheVariants as fields;
ghost use Rattle.krb_packet.specs.Numbers.{checked_number};
ghost use Rattle.krb_packet.specs.Values.{time_of};
ghost use Rattle.krb_packet.specs.Pcaps.{pcap, magic_of, magic_at, version, header_at, unit, captured, packet_head_at, packet_at, next_at};
ghost use Rattle.krb_packet.specs.inner.PacketHeads.{packet_head_of};

use crate::block::SECTION_HEADER;
use crate::order::{ByteOrder, checked, field32};
use crate::packet::{LinkType, NANOSECONDS, Packet, time_of};
use krb_der::Octets;
use krb_file::{FieldName, FieldReader, FileFault, FileWhy};
use krb_source::Timestamp;
use std::alloc::Global;

/// What the fractions of seconds count.
#[derive(Clone, Copy, PartialEq, Eq, Debug)]
pub enum Precision {
    /// Microseconds.
    Microseconds,
    /// Nanoseconds.
    Nanoseconds,
}

/// The byte order and the precision of a pcap, by its magic.
#[derive(Clone, Copy, PartialEq, Eq, Debug)]
pub struct Form {
    /// The order of the octets of numbers.
    pub order: ByteOrder,
    /// What the fractions of seconds count.
    pub precision: Precision,
}

/// The header of a pcap.
#[derive(Clone, Copy, PartialEq, Eq, Debug)]
pub struct Header {
    /// The byte order and the precision.
    pub form: Form,
    /// What the packets were captured from.
    pub link: LinkType,
}

/// The greatest number of octets of a packet that may be captured.
pub(crate) const MOST_CAPTURED: u32 = 16_777_216;

/// The magic of a capture file: its first four octets.
#[derive(Clone, Copy)]
pub enum Magic {
    /// A pcap.
    Pcap(Form),
    /// A pcapng, which begins with a block of the type of a section header.
    Pcapng,
}

/// Returns the magic of a pcap.
fn pcap(order: ByteOrder, precision: Precision) -> Result<Magic, FileWhy>
    ensures { result ≡ pcap order precision }
{
    Ok(Magic::Pcap(Form { order, precision }))
}

/// Returns the magic that a number is.
fn magic_of(number: u32) -> Result<Magic, FileWhy>
    ensures { result ≡ magic_of number }
{
    match number {
        0xA1B2_C3D4 => pcap(ByteOrder::BigEndian, Precision::Microseconds),
        0xD4C3_B2A1 => pcap(ByteOrder::LittleEndian, Precision::Microseconds),
        0xA1B2_3C4D => pcap(ByteOrder::BigEndian, Precision::Nanoseconds),
        0x4D3C_B2A1 => pcap(ByteOrder::LittleEndian, Precision::Nanoseconds),
        SECTION_HEADER => Ok(Magic::Pcapng),
        _ => Err(FileWhy::Magic),
    }
}

/// Accepts the version of a pcap: 2 and 4, each of 16 bits.
fn version(order: ByteOrder, number: u32) -> Result<(), FileWhy>
    ensures { result ≡ version order number }
{
    let known = match order {
        ByteOrder::BigEndian => 0x0002_0004,
        ByteOrder::LittleEndian => 0x0004_0002,
    };
    if number == known {
        Ok(())
    } else {
        Err(FileWhy::Version)
    }
}

/// Accepts how many octets of a packet were captured, unless these are too many.
fn captured(size: u32) -> Result<u32, FileWhy>
    ensures { result ≡ captured size }
{
    if size > MOST_CAPTURED {
        Err(FileWhy::TooLong(u64::from(size)))
    } else {
        Ok(size)
    }
}

/// Reads the magic of a file.
pub(crate) fn read_magic<F: FieldReader>(reader: &mut F) -> Result<Magic, FileFault>
    ensures read { Follows (λ magic. magic) result magic_at F.MayFail (F.cursor reader.old) (F.cursor reader.new) }
    ensures keeps { Keeps (F.cursor reader.old) (F.cursor reader.new) }
{
    let place = reader.place();
    let number = field32(ByteOrder::BigEndian, FieldName::Magic, reader)?;
    checked(FieldName::Magic, place, magic_of(number))
}

/// Reads the version of a file.
fn read_version<F: FieldReader>(order: ByteOrder, reader: &mut F) -> Result<(), FileFault>
    ensures read { Follows (λ done. done) result (checked_number fields.Version w32 order (version order)) F.MayFail (F.cursor reader.old) (F.cursor reader.new) }
    ensures keeps { Keeps (F.cursor reader.old) (F.cursor reader.new) }
{
    let place = reader.place();
    let number = field32(order, FieldName::Version, reader)?;
    checked(FieldName::Version, place, version(order, number))
}

/// Reads the header of a pcap after its magic.
pub(crate) fn read_header<F: FieldReader>(form: Form, reader: &mut F) -> Result<Header, FileFault>
    ensures read { Follows (λ header. header) result (header_at form) F.MayFail (F.cursor reader.old) (F.cursor reader.new) }
    ensures keeps { Keeps (F.cursor reader.old) (F.cursor reader.new) }
{
    read_version(form.order, reader)?;
    reader.field32(FieldName::ThisZone)?;
    reader.field32(FieldName::SigFigs)?;
    reader.field32(FieldName::SnapLen)?;
    let link = field32(form.order, FieldName::LinkType, reader)?;
    Ok(Header {
        form,
        link: LinkType::of(link % (1 << 26)),
    })
}

/// Returns the time of a packet.
fn time(precision: Precision, seconds: u32, fraction: u32) -> Option<Timestamp>
    ensures { result ≡ time_of (seconds * 10 ^ 9 + fraction * unit precision) }
{
    let unit = match precision {
        Precision::Microseconds => 1000,
        Precision::Nanoseconds => 1,
    };
    time_of(u64::from(seconds) * NANOSECONDS + u64::from(fraction) * unit)
}

/// Reads how many octets of a packet were captured.
fn captured_length<F: FieldReader>(order: ByteOrder, reader: &mut F) -> Result<u32, FileFault>
    ensures read { Follows (λ size. size) result (checked_number fields.CapturedLength w32 order captured) F.MayFail (F.cursor reader.old) (F.cursor reader.new) }
    ensures keeps { Keeps (F.cursor reader.old) (F.cursor reader.new) }
{
    let place = reader.place();
    let number = field32(order, FieldName::CapturedLength, reader)?;
    checked(FieldName::CapturedLength, place, captured(number))
}

/// The numbers before the octets of a packet.
#[derive(Clone, Copy)]
pub struct PacketHead {
    /// The seconds of its time.
    pub seconds: u32,
    /// The fraction of a second.
    pub fraction: u32,
    /// How many octets were captured.
    pub captured: u32,
    /// How many octets it had on the wire.
    pub original: u32,
}

/// How many octets are before the octets of a packet.
const PACKET_HEAD: usize = 16;

/// Returns the numbers that sixteen octets spell.
fn packet_head_of(order: ByteOrder, octets: &[u8]) -> Result<PacketHead, FileWhy>
    requires { length octets.now ≡ 16 }
    ensures { result ≡ packet_head_of order octets.now }
{
    match captured(order.number32_after(8, octets)) {
        Ok(captured) => Ok(PacketHead {
            seconds: order.number32_after(0, octets),
            fraction: order.number32_after(4, octets),
            captured,
            original: order.number32_after(12, octets),
        }),
        Err(why) => Err(why),
    }
}

/// Reads the numbers before the octets of a packet one by one.
#[inline(never)]
fn packet_numbers<F: FieldReader>(order: ByteOrder, reader: &mut F) -> Result<PacketHead, FileFault>
    ensures read { Follows (λ head. head) result (packet_head_at order) F.MayFail (F.cursor reader.old) (F.cursor reader.new) }
    ensures keeps { Keeps (F.cursor reader.old) (F.cursor reader.new) }
{
    let seconds = field32(order, FieldName::Seconds, reader)?;
    let fraction = field32(order, FieldName::Fraction, reader)?;
    let captured = captured_length(order, reader)?;
    let original = field32(order, FieldName::OriginalLength, reader)?;
    Ok(PacketHead {
        seconds,
        fraction,
        captured,
        original,
    })
}

/// Reads the numbers before the octets of a packet.
#[inline(always)]
fn packet_head<F: FieldReader>(order: ByteOrder, reader: &mut F) -> Result<PacketHead, FileFault>
    ensures read { Follows (λ head. head) result (packet_head_at order) F.MayFail (F.cursor reader.old) (F.cursor reader.new) }
    ensures keeps { Keeps (F.cursor reader.old) (F.cursor reader.new) }
{
    let place = reader.place();
    let mut octets = [0; PACKET_HEAD];
    if reader.fill_near(&mut octets) {
        checked(
            FieldName::CapturedLength,
            place + 8,
            packet_head_of(order, &octets),
        )
    } else {
        packet_numbers(order, reader)
    }
}

/// Reads the packet after `count` others.
fn packet<F: FieldReader>(
    alloc: Global,
    header: Header,
    count: u64,
    reader: &mut F,
) -> Result<Packet, FileFault>
    requires { count < 2 ^ 63 }
    ensures read { Follows (λ packet. packet) result (packet_at header count) F.MayFail (F.cursor reader.old) (F.cursor reader.new) }
    ensures keeps { Keeps (F.cursor reader.old) (F.cursor reader.new) }
{
    let order = header.form.order;
    let head = packet_head(order, reader)?;
    let mut octets = reader.spare_octets(alloc);
    let captured = u64::from(head.captured);
    reader.octets_field(alloc, FieldName::Data, captured, &mut octets)?;
    Ok(Packet {
        number: count + 1,
        time: time(header.form.precision, head.seconds, head.fraction),
        link: header.link,
        octets: Octets::new(octets),
        size: head.captured.max(head.original),
    })
}

/// Reads the packet after `count` others, if the file has not ended.
pub(crate) fn next_captured<F: FieldReader>(
    alloc: Global,
    header: Header,
    count: u64,
    reader: &mut F,
) -> Result<Option<Packet>, FileFault>
    requires { count < 2 ^ 63 }
    ensures read { Follows (λ packet. packet) result (next_at header count) F.MayFail (F.cursor reader.old) (F.cursor reader.new) }
    ensures stays { OnOk result (Stays (F.cursor reader.old) (F.cursor reader.new)) }
    ensures on { (F.cursor reader.old).place ≤ (F.cursor reader.new).place }
{
    reader.look_ahead(PACKET_HEAD as u64)?;
    if reader.is_empty()? {
        return Ok(None);
    }
    Ok(Some(packet(alloc, header, count, reader)?))
}
