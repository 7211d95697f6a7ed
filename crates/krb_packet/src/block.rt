//! The blocks of a pcapng, read.

ghost use Rattle.std.specs.Prelude.{◌≡◌, ◌≤◌, None, OnOk};
ghost use Rattle.std.specs.Int.{w32};
ghost use Rattle.krb_file.specs.Fields.{called, next_octets_at, octets_at};
ghost use Rattle.krb_file.specs.declared.field_name.FieldName.TheVariants as fields;
ghost use Rattle.krb_file.specs.FieldReaders.{Follows, Stays, Keeps};
ghost use Rattle.krb_packet.specs.declared.order.ByteOrder.TheVariants as orders;
ghost use Rattle.krb_packet.specs.Numbers.{checked_number, refused_at};
ghost use Rattle.krb_packet.specs.Bodies.{block_kind, byte_order, body_size, after_byte_order, section_head_at, head_of, head_at, same_length, next_kind_at};

use crate::interface::Interface;
use crate::order::{ByteOrder, checked, field32, four_octets};
use crate::pcap::MOST_CAPTURED;
use krb_der::Many;
use krb_file::{FieldName, FieldReader, FileFault, FileRefusal, FileWhy, called};
use std::alloc::Global;

/// The type of a section header, which is the same in either order of octets.
pub(crate) const SECTION_HEADER: u32 = 0x0A0D_0D0A;

/// The fewest octets that a block has: its type, and its length twice.
pub(crate) const LEAST_BLOCK: u32 = 12;

/// What a block is. The blocks of the other types are passed over.
#[derive(Clone, Copy)]
pub enum BlockKind {
    /// A section header, which ends the section before.
    Section,
    /// An interface description.
    Interface,
    /// An obsolete packet block.
    OldPacket,
    /// A simple packet block, which has no time.
    SimplePacket,
    /// An enhanced packet block.
    EnhancedPacket,
    /// Another one.
    Other,
}

impl BlockKind {
    /// Returns the kind of a block of a type.
    pub(crate) fn of(number: u32) -> BlockKind
        ensures { result ≡ block_kind number }
    {
        match number {
            SECTION_HEADER => BlockKind::Section,
            1 => BlockKind::Interface,
            2 => BlockKind::OldPacket,
            3 => BlockKind::SimplePacket,
            6 => BlockKind::EnhancedPacket,
            _ => BlockKind::Other,
        }
    }
}

/// What was read of a section.
#[derive(Drop, Debug)]
pub struct Section {
    /// The order of the octets of numbers.
    pub order: ByteOrder,
    /// The interfaces, in order.
    pub interfaces: Many<Interface>,
    /// How many blocks of the file were read.
    pub blocks: u64,
}

/// The fields before the body of a block.
#[derive(Clone, Copy)]
pub struct Head {
    /// The order of the octets of numbers.
    pub order: ByteOrder,
    /// How many octets the block has.
    pub length: u32,
    /// How many octets of the body are still to be read.
    pub left: u32,
}

/// Returns the byte order that a byte-order magic means.
fn byte_order(number: u32) -> Result<ByteOrder, FileWhy>
    ensures { result ≡ byte_order number }
{
    match number {
        0x1A2B_3C4D => Ok(ByteOrder::BigEndian),
        0x4D3C_2B1A => Ok(ByteOrder::LittleEndian),
        _ => Err(FileWhy::Magic),
    }
}

/// Returns how many octets the body of a block of `length` octets has.
fn body_size(length: u32) -> Result<u32, FileWhy>
    ensures { result ≡ body_size length }
{
    if length < LEAST_BLOCK || length % 4 != 0 {
        Err(FileWhy::WrongLength(u64::from(length)))
    } else if length > MOST_CAPTURED {
        Err(FileWhy::TooLong(u64::from(length)))
    } else {
        Ok(length - LEAST_BLOCK)
    }
}

/// Returns how many octets of a body of `size` octets follow the byte-order magic.
fn after_byte_order(size: u32) -> Result<u32, FileWhy>
    ensures { result ≡ after_byte_order size }
{
    if size < 4 {
        Err(FileWhy::Overrun)
    } else {
        Ok(size - 4)
    }
}

/// Reads the byte-order magic.
fn read_byte_order<F: FieldReader>(reader: &mut F) -> Result<ByteOrder, FileFault>
    ensures read { Follows (λ order. order) result (checked_number fields.ByteOrder w32 orders.BigEndian byte_order) F.MayFail (F.cursor reader.old) (F.cursor reader.new) }
    ensures keeps { Keeps (F.cursor reader.old) (F.cursor reader.new) }
{
    let place = reader.place();
    let number = field32(ByteOrder::BigEndian, FieldName::ByteOrder, reader)?;
    checked(FieldName::ByteOrder, place, byte_order(number))
}

/// Reads the octets of the length of a section header.
fn length_octets<F: FieldReader>(reader: &mut F) -> Result<[u8; 4], FileFault>
    ensures read { Follows (λ octets. octets) result (called fields.Length (next_octets_at None 4)) F.MayFail (F.cursor reader.old) (F.cursor reader.new) }
    ensures keeps { Keeps (F.cursor reader.old) (F.cursor reader.new) }
{
    called(FieldName::Length, four_octets(reader))
}

/// Reads the head of a section header, after its type. The byte-order magic follows the length,
/// which is read in that byte order.
fn section_head<F: FieldReader>(reader: &mut F) -> Result<Head, FileFault>
    ensures read { Follows (λ head. head) result section_head_at F.MayFail (F.cursor reader.old) (F.cursor reader.new) }
    ensures keeps { Keeps (F.cursor reader.old) (F.cursor reader.new) }
{
    let place = reader.place();
    let octets = length_octets(reader)?;
    let order = read_byte_order(reader)?;
    let length = u32::from_be_bytes(order.highest_first(octets));
    let size = checked(FieldName::Length, place, body_size(length))?;
    let left = checked(FieldName::ByteOrder, place + 4, after_byte_order(size))?;
    Ok(Head {
        order,
        length,
        left,
    })
}

/// Returns the head of another block that has `length` octets.
fn head_of(order: ByteOrder, length: u32) -> Result<Head, FileWhy>
    ensures { result ≡ head_of order length }
{
    match body_size(length) {
        Ok(left) => Ok(Head {
            order,
            length,
            left,
        }),
        Err(why) => Err(why),
    }
}

/// Reads the head of another block, after its type.
fn block_head<F: FieldReader>(order: ByteOrder, reader: &mut F) -> Result<Head, FileFault>
    ensures read { Follows (λ head. head) result (checked_number fields.Length w32 order (head_of order)) F.MayFail (F.cursor reader.old) (F.cursor reader.new) }
    ensures keeps { Keeps (F.cursor reader.old) (F.cursor reader.new) }
{
    let place = reader.place();
    let number = field32(order, FieldName::Length, reader)?;
    checked(FieldName::Length, place, head_of(order, number))
}

/// Reads the head of a block of a kind, after its type.
pub(crate) fn read_head<F: FieldReader>(
    kind: BlockKind,
    order: ByteOrder,
    reader: &mut F,
) -> Result<Head, FileFault>
    ensures read { Follows (λ head. head) result (head_at kind order) F.MayFail (F.cursor reader.old) (F.cursor reader.new) }
    ensures keeps { Keeps (F.cursor reader.old) (F.cursor reader.new) }
{
    match kind {
        BlockKind::Section => section_head(reader),
        _ => block_head(order, reader),
    }
}

/// Reads the octets of a body that are left. If the file ends before, the body is refused at
/// `place`.
pub(crate) fn body_octets<F: FieldReader>(
    alloc: Global,
    place: u64,
    left: u32,
    reader: &mut F,
) -> Result<Vec<u8>, FileFault>
    ensures read { Follows (λ octets. octets.items) result (refused_at place (called fields.Body (octets_at left))) F.MayFail (F.cursor reader.old) (F.cursor reader.new) }
    ensures keeps { Keeps (F.cursor reader.old) (F.cursor reader.new) }
{
    let mut octets = reader.spare_octets(alloc);
    match reader.octets_field(alloc, FieldName::Body, u64::from(left), &mut octets) {
        Ok(()) => Ok(octets),
        Err(FileFault::Refused(refusal)) => {
            Err(FileFault::Refused(FileRefusal { place, ..refusal }))
        }
        Err(fault) => Err(fault),
    }
}

/// Reads the length at the end of a block, which is the same as the one before.
pub(crate) fn length_again<F: FieldReader>(head: Head, reader: &mut F) -> Result<(), FileFault>
    ensures read { Follows (λ done. done) result (checked_number fields.LengthAgain w32 head.order (same_length head.length)) F.MayFail (F.cursor reader.old) (F.cursor reader.new) }
    ensures keeps { Keeps (F.cursor reader.old) (F.cursor reader.new) }
{
    let place = reader.place();
    let number = field32(head.order, FieldName::LengthAgain, reader)?;
    checked(
        FieldName::LengthAgain,
        place,
        same_length(head.length, number),
    )
}

/// Accepts a length that is the same as another.
fn same_length(length: u32, again: u32) -> Result<(), FileWhy>
    ensures { result ≡ same_length length again }
{
    if again == length {
        Ok(())
    } else {
        Err(FileWhy::Overrun)
    }
}

/// Reads the kind of the next block, if the file has not ended.
pub(crate) fn next_kind<F: FieldReader>(
    order: ByteOrder,
    reader: &mut F,
) -> Result<Option<BlockKind>, FileFault>
    ensures read { Follows (λ kind. kind) result (next_kind_at order) F.MayFail (F.cursor reader.old) (F.cursor reader.new) }
    ensures stays { OnOk result (Stays (F.cursor reader.old) (F.cursor reader.new)) }
    ensures on { (F.cursor reader.old).place ≤ (F.cursor reader.new).place }
{
    reader.look_ahead(4)?;
    if reader.is_empty()? {
        return Ok(None);
    }
    let number = field32(order, FieldName::Type, reader)?;
    Ok(Some(BlockKind::of(number)))
}
