//! The bodies of blocks of a pcapng, read.

ghost use Rattle.std.specs.Prelude.{◌≡◌, ◌^◌, ◌<◌, IfErr};
ghost use Rattle.std.specs.Int.{w16, w32};
ghost use Rattle.std.specs.Result.{result_map_both};
ghost use Rattle.krb_file.specs.Fields.{Agrees, IsStreamFaultIn};
ghost use Rattle.krb_file.specs.FieldReaders.{Follows, Keeps};
ghost use Rattle.krb_file.specs.declared.field_name.FieldName.TheVariants as fields;
ghost use Rattle.krb_packet.specs.declared.body.Content.TheVariants as contents;
ghost use Rattle.krb_packet.specs.Numbers.{checked_number};
ghost use Rattle.krb_packet.specs.Bodies.{announced, section_version, timestamp_at, timed_packet_at, enhanced_packet_at, old_packet_at, first_interface, most_of, simple_packet_at, content_at, in_body};

use crate::block::BlockKind;
use crate::interface::{Interface, octets_to_end, read_interface};
use crate::order::{ByteOrder, checked, field16, field32};
use crate::packet::Packet;
use krb_der::Octets;
use krb_file::{FieldName, FieldReader, FileFault, FileWhy, SliceReader};
use std::alloc::Global;

/// What a block has.
#[derive(Drop)]
pub enum Content {
    /// The header of a section, and the order of the octets of its numbers.
    Section(ByteOrder),
    /// An interface.
    Interface(Interface),
    /// A packet.
    Packet(Packet),
    /// Nothing that is read.
    Other,
}

/// Accepts the version of a section.
fn section_version(number: u16) -> Result<(), FileWhy>
    ensures { result ≡ section_version number }
{
    if number == 1 {
        Ok(())
    } else {
        Err(FileWhy::Version)
    }
}

/// Reads the version of a section.
fn read_version<F: FieldReader>(order: ByteOrder, reader: &mut F) -> Result<(), FileFault>
    ensures read { Follows (λ done. done) result (checked_number fields.Version w16 order section_version) F.MayFail (F.cursor reader.old) (F.cursor reader.new) }
    ensures keeps { Keeps (F.cursor reader.old) (F.cursor reader.new) }
{
    let place = reader.place();
    let number = field16(order, FieldName::Version, reader)?;
    checked(FieldName::Version, place, section_version(number))
}

/// Returns the interface of an index.
fn announced(interfaces: &[Interface], index: u32) -> Result<Interface, FileWhy>
    ensures { result ≡ announced interfaces.now index }
{
    match interfaces.get(index as usize) {
        Some(interface) => Ok(*interface),
        None => Err(FileWhy::Overrun),
    }
}

/// Reads the index of an interface in 32 bits.
fn interface32<F: FieldReader>(
    order: ByteOrder,
    interfaces: &[Interface],
    reader: &mut F,
) -> Result<Interface, FileFault>
    ensures read { Follows (λ interface. interface) result (checked_number fields.Interface w32 order (announced interfaces.now)) F.MayFail (F.cursor reader.old) (F.cursor reader.new) }
    ensures keeps { Keeps (F.cursor reader.old) (F.cursor reader.new) }
{
    let place = reader.place();
    let number = field32(order, FieldName::Interface, reader)?;
    checked(FieldName::Interface, place, announced(interfaces, number))
}

/// Reads the index of an interface in 16 bits.
fn interface16<F: FieldReader>(
    order: ByteOrder,
    interfaces: &[Interface],
    reader: &mut F,
) -> Result<Interface, FileFault>
    ensures read { Follows (λ interface. interface) result (checked_number fields.Interface w16 order (announced interfaces.now)) F.MayFail (F.cursor reader.old) (F.cursor reader.new) }
    ensures keeps { Keeps (F.cursor reader.old) (F.cursor reader.new) }
{
    let place = reader.place();
    let number = field16(order, FieldName::Interface, reader)?;
    checked(
        FieldName::Interface,
        place,
        announced(interfaces, u32::from(number)),
    )
}

/// Returns the first interface.
fn first_interface<F: FieldReader>(
    interfaces: &[Interface],
    reader: &F,
) -> Result<Interface, FileFault>
    ensures { Follows (λ interface. interface) result (first_interface interfaces.now) F.MayFail (F.cursor reader.now) (F.cursor reader.now) }
{
    checked(
        FieldName::Interface,
        reader.place(),
        announced(interfaces, 0),
    )
}

/// Reads a time, in units of the interface.
fn timestamp<F: FieldReader>(order: ByteOrder, reader: &mut F) -> Result<u64, FileFault>
    ensures read { Follows (λ units. units) result (timestamp_at order) F.MayFail (F.cursor reader.old) (F.cursor reader.new) }
    ensures keeps { Keeps (F.cursor reader.old) (F.cursor reader.new) }
{
    let high = field32(order, FieldName::Timestamp, reader)?;
    let low = field32(order, FieldName::Timestamp, reader)?;
    Ok(u64::from(high) * (1 << 32) + u64::from(low))
}

/// Reads a packet of an interface, after the index of the interface.
fn timed_packet<F: FieldReader>(
    alloc: Global,
    order: ByteOrder,
    count: u64,
    interface: Interface,
    reader: &mut F,
) -> Result<Packet, FileFault>
    requires { count < 2 ^ 63 }
    ensures read { Follows (λ packet. packet) result (timed_packet_at order count interface) F.MayFail (F.cursor reader.old) (F.cursor reader.new) }
    ensures keeps { Keeps (F.cursor reader.old) (F.cursor reader.new) }
{
    let units = timestamp(order, reader)?;
    let captured = field32(order, FieldName::CapturedLength, reader)?;
    let original = field32(order, FieldName::OriginalLength, reader)?;
    let mut octets = reader.spare_octets(alloc);
    reader.octets_field(alloc, FieldName::Data, u64::from(captured), &mut octets)?;
    Ok(Packet {
        number: count + 1,
        time: interface.clock.time(units),
        link: interface.link,
        octets: Octets::new(octets),
        size: captured.max(original),
    })
}

/// Reads the body of an enhanced packet block.
fn enhanced_packet<F: FieldReader>(
    alloc: Global,
    order: ByteOrder,
    count: u64,
    interfaces: &[Interface],
    reader: &mut F,
) -> Result<Packet, FileFault>
    requires { count < 2 ^ 63 }
    ensures read { Follows (λ packet. packet) result (enhanced_packet_at order count interfaces.now) F.MayFail (F.cursor reader.old) (F.cursor reader.new) }
    ensures keeps { Keeps (F.cursor reader.old) (F.cursor reader.new) }
{
    let interface = interface32(order, interfaces, reader)?;
    timed_packet(alloc, order, count, interface, reader)
}

/// Reads the body of an obsolete packet block.
fn old_packet<F: FieldReader>(
    alloc: Global,
    order: ByteOrder,
    count: u64,
    interfaces: &[Interface],
    reader: &mut F,
) -> Result<Packet, FileFault>
    requires { count < 2 ^ 63 }
    ensures read { Follows (λ packet. packet) result (old_packet_at order count interfaces.now) F.MayFail (F.cursor reader.old) (F.cursor reader.new) }
    ensures keeps { Keeps (F.cursor reader.old) (F.cursor reader.new) }
{
    let interface = interface16(order, interfaces, reader)?;
    field16(order, FieldName::Drops, reader)?;
    timed_packet(alloc, order, count, interface, reader)
}

/// Returns the most octets of a packet that were captured, if an interface captures `snaplen` of
/// each, or any number if that is 0.
fn most_of(snaplen: u32, original: u32) -> u32
    ensures { result ≡ most_of snaplen original }
{
    if snaplen == 0 {
        original
    } else {
        original.min(snaplen)
    }
}

/// Reads the body of a simple packet block, whose packet is one of the first interface.
fn simple_packet<F: FieldReader>(
    alloc: Global,
    order: ByteOrder,
    count: u64,
    interfaces: &[Interface],
    reader: &mut F,
) -> Result<Packet, FileFault>
    requires { count < 2 ^ 63 }
    ensures read { Follows (λ packet. packet) result (simple_packet_at order count interfaces.now) F.MayFail (F.cursor reader.old) (F.cursor reader.new) }
    ensures keeps { Keeps (F.cursor reader.old) (F.cursor reader.new) }
{
    let interface = first_interface(interfaces, reader)?;
    let original = field32(order, FieldName::OriginalLength, reader)?;
    let captured = u64::from(most_of(interface.snaplen, original)).min(octets_to_end(reader));
    let mut octets = reader.spare_octets(alloc);
    reader.octets_field(alloc, FieldName::Data, captured, &mut octets)?;
    Ok(Packet {
        number: count + 1,
        time: None,
        link: interface.link,
        octets: Octets::new(octets),
        size: original,
    })
}

/// Returns what the block of a packet has, if the packet was read.
#[inline(always)]
fn packet_content(read: Result<Packet, FileFault>) -> Result<Content, FileFault>
    ensures { result ≡ result_map_both contents.Packet (λ fault. fault) read }
{
    match read {
        Ok(packet) => Ok(Content::Packet(packet)),
        Err(fault) => Err(fault),
    }
}

/// Reads the body of a block of a kind.
fn read_content<F: FieldReader>(
    alloc: Global,
    kind: BlockKind,
    order: ByteOrder,
    count: u64,
    interfaces: &[Interface],
    reader: &mut F,
) -> Result<Content, FileFault>
    requires { count < 2 ^ 63 }
    ensures read { Follows (λ content. content) result (content_at kind order count interfaces.now) F.MayFail (F.cursor reader.old) (F.cursor reader.new) }
    ensures keeps { Keeps (F.cursor reader.old) (F.cursor reader.new) }
{
    match kind {
        BlockKind::Section => {
            read_version(order, reader)?;
            Ok(Content::Section(order))
        }
        BlockKind::Interface => {
            let interface = read_interface(order, reader)?;
            Ok(Content::Interface(interface))
        }
        BlockKind::OldPacket => {
            packet_content(old_packet(alloc, order, count, interfaces, reader))
        }
        BlockKind::SimplePacket => {
            packet_content(simple_packet(alloc, order, count, interfaces, reader))
        }
        BlockKind::EnhancedPacket => {
            packet_content(enhanced_packet(alloc, order, count, interfaces, reader))
        }
        BlockKind::Other => Ok(Content::Other),
    }
}

/// Reads a body, whose fields may not pass it. The places of its faults are counted from its first
/// octet.
pub(crate) fn body_content(
    alloc: Global,
    kind: BlockKind,
    order: ByteOrder,
    count: u64,
    interfaces: &[Interface],
    body: &[u8],
) -> Result<Content, FileFault>
    requires { count < 2 ^ 63 }
    ensures read { Agrees (λ content. content) result (in_body (content_at kind order count interfaces.now) body.now) }
    ensures inside { IfErr result (IsStreamFaultIn body.now) }
{
    let mut reader = SliceReader::new(body);
    reader.set_end(Some(body.len() as u64));
    read_content(alloc, kind, order, count, interfaces, &mut reader)
}
