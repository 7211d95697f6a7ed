//! The order of the octets of numbers, and numbers of either order, read.

ghost use Rattle.std.specs.Prelude.{◌≡◌, ◌+◌, ◌≤◌, None, length};
ghost use Rattle.std.specs.Int.{w16, w32};
ghost use Rattle.krb_file.specs.Fields.{next_octets_at};
ghost use Rattle.krb_file.specs.FieldReaders.{Follows, Keeps};
ghost use Rattle.krb_packet.specs.Numbers.{highest_first, in_order, number_in, field_in, checked};
ghost use Rattle.krb_packet.specs.inner.PacketHeads.{number_after};

use krb_file::{FieldName, FieldReader, FileFault, FileWhy, called};

/// The order of the octets of a number.
#[derive(Clone, Copy, PartialEq, Eq, Debug)]
pub enum ByteOrder {
    /// The highest octet first.
    BigEndian,
    /// The lowest octet first.
    LittleEndian,
}

impl ByteOrder {
    /// Returns the octets of a number with the highest one first.
    pub(crate) fn highest_first<const N: usize>(self, octets: [u8; N]) -> [u8; N]
        ensures { result ≡ highest_first self octets.entry }
    {
        let mut octets = octets;
        match self {
            ByteOrder::BigEndian => {}
            ByteOrder::LittleEndian => octets.reverse(),
        }
        octets
    }

    /// Returns the number of 32 bits that octets spell.
    pub(crate) fn number32(self, octets: [u8; 4]) -> u32
        ensures { result ≡ in_order w32 self octets }
    {
        match self {
            ByteOrder::BigEndian => u32::from_be_bytes(octets),
            ByteOrder::LittleEndian => u32::from_le_bytes(octets),
        }
    }

    /// Returns the number of 32 bits after `at` octets.
    pub(crate) fn number32_after(self, at: usize, octets: &[u8]) -> u32
        requires { at + 4 ≤ length octets.now }
        ensures { result ≡ number_after self at octets.now }
    {
        let mut number = [0; 4];
        number.copy_from_slice(&octets[at..at + 4]);
        self.number32(number)
    }
}

/// Reads a number of 16 bits.
pub(crate) fn number16<F: FieldReader>(order: ByteOrder, reader: &mut F) -> Result<u16, FileFault>
    ensures read { Follows (λ number. number) result (number_in w16 order) F.MayFail (F.cursor reader.old) (F.cursor reader.new) }
    ensures keeps { Keeps (F.cursor reader.old) (F.cursor reader.new) }
{
    let mut octets = [0; 2];
    reader.fill(&mut octets)?;
    Ok(u16::from_be_bytes(order.highest_first(octets)))
}

/// Reads four octets.
#[inline(always)]
pub(crate) fn four_octets<F: FieldReader>(reader: &mut F) -> Result<[u8; 4], FileFault>
    ensures read { Follows (λ octets. octets) result (next_octets_at None 4) F.MayFail (F.cursor reader.old) (F.cursor reader.new) }
    ensures keeps { Keeps (F.cursor reader.old) (F.cursor reader.new) }
{
    let mut octets = [0; 4];
    reader.fill(&mut octets)?;
    Ok(octets)
}

/// Reads a number of 32 bits.
#[inline(always)]
pub(crate) fn number32<F: FieldReader>(order: ByteOrder, reader: &mut F) -> Result<u32, FileFault>
    ensures read { Follows (λ number. number) result (number_in w32 order) F.MayFail (F.cursor reader.old) (F.cursor reader.new) }
    ensures keeps { Keeps (F.cursor reader.old) (F.cursor reader.new) }
{
    let mut octets = [0; 4];
    reader.fill(&mut octets)?;
    Ok(order.number32(octets))
}

/// Reads a number of 16 bits, the field of this name.
pub(crate) fn field16<F: FieldReader>(
    order: ByteOrder,
    name: FieldName,
    reader: &mut F,
) -> Result<u16, FileFault>
    ensures read { Follows (λ number. number) result (field_in name w16 order) F.MayFail (F.cursor reader.old) (F.cursor reader.new) }
    ensures keeps { Keeps (F.cursor reader.old) (F.cursor reader.new) }
{
    called(name, number16(order, reader))
}

/// Reads a number of 32 bits, the field of this name.
#[inline(always)]
pub(crate) fn field32<F: FieldReader>(
    order: ByteOrder,
    name: FieldName,
    reader: &mut F,
) -> Result<u32, FileFault>
    ensures read { Follows (λ number. number) result (field_in name w32 order) F.MayFail (F.cursor reader.old) (F.cursor reader.new) }
    ensures keeps { Keeps (F.cursor reader.old) (F.cursor reader.new) }
{
    called(name, number32(order, reader))
}

/// Returns the meaning of the field of this name, or refuses it at its place.
#[inline(always)]
pub(crate) fn checked<T>(
    name: FieldName,
    place: u64,
    check: Result<T, FileWhy>,
) -> Result<T, FileFault>
    ensures { result ≡ checked name place check }
{
    match check {
        Ok(value) => Ok(value),
        Err(why) => called(name, Err(FileFault::refused(place, why))),
    }
}
