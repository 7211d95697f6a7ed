//! Readers of the fields of files.

ghost use Rattle.std.specs.Prelude.{◌≡◌, ℕ, ◌+◌, ◌^◌, ◌<◌, ◌≤◌, true, false, [], length, None, Some};
ghost use Rattle.std.specs.Int.{w8, w16, w32};
ghost use Rattle.krb_file.specs.Fields.{succeed, called, next_octets_at, octets_at, number_at, signed_at, counted_at, component_at, names_at, rest_at, times, is_one_of, expect, version_at, Reader};
ghost use Rattle.krb_file.specs.FieldReaders.{Cursor, HasRead, Follows, Keeps, FetchesTo, LooksAheadTo, ended_at, skipped_at, bounded};

use crate::fault::{FileFault, called};
use crate::field_name::FieldName;
use krb_der::KString;
use krb_source::FileWhy;
use std::alloc::Global;

/// A reader of the fields of a file. It knows the place of the next octet, the end of the entry or
/// of the header that the next field is in, if it is in one, and the greatest length of a field of
/// octets.
///
/// A field that passes that end is Overrun; else a field of octets longer than the limit is
/// TooLong; else one that passes the end of the file is Truncated: each at the first octet of the
/// field. After a fault it is not said what is read next, but only that no octet was read after
/// those that were skipped, and none after the end of the entry or header that the field at fault
/// is in.
pub trait FieldReader {
    /// The octets that are not read yet, the place, the end and the limit.
    ghost cursor: { Self → Cursor };

    /// Whether the device that the octets come from may fail.
    ghost MayFail: { Type 0 };

    /// Returns the place of the next octet, counted from 0.
    fn place(&self) -> u64
        ensures value { result ≡ (cursor self.now).place }
        ensures bound { result < 2 ^ 63 };

    /// Returns the end of the entry or of the header that the next field is in, if it is in one.
    fn end(&self) -> Option<u64>
        ensures { result ≡ (cursor self.now).bounds.end };

    /// Sets the end of the entry or of the header that the next field is in.
    fn set_end(&mut self, end: Option<u64>)
        ensures { cursor self.new ≡ bounded end (cursor self.old) };

    /// Returns whether no octet is left.
    fn is_empty(&mut self) -> Result<bool, FileFault>
        ensures read { Follows (λ empty. empty) result ended_at MayFail (cursor self.old) (cursor self.new) }
        ensures looks { LooksAheadTo 1 (cursor self.old) (cursor self.new) };

    /// Announces that `size` more octets belong to what is read, so that the reader may read them
    /// ahead of their fields.
    fn look_ahead(&mut self, size: u64) -> Result<(), FileFault>
        ensures read { Follows (λ done. done) result (succeed tt) MayFail (cursor self.old) (cursor self.new) }
        ensures looks { LooksAheadTo size (cursor self.old) (cursor self.new) };

    /// Fills `octets` with the next ones and returns true, or changes nothing and returns false. A
    /// reader returns true only if one comparison shows that it has them and that they do not pass
    /// its end, and may always return false: then [`fill`](FieldReader::fill) reads them, or says
    /// why it cannot.
    fn fill_near(&mut self, octets: &mut [u8]) -> bool
        requires { length octets.old ≤ 2 ^ 16 }
        ensures read { result ≡ true → HasRead (next_octets_at None (length octets.old)) octets.new (cursor self.old) (cursor self.new) }
        ensures keeps { Keeps (cursor self.old) (cursor self.new) }
        ensures within { FetchesTo ((cursor self.old).place + length octets.old) (cursor self.old) (cursor self.new) }
        ensures same { result ≡ false → cursor self.new ≡ cursor self.old };

    /// Reads the next octets of a field that is not a field of octets, at most 65536, and fills
    /// `octets` with them.
    fn fill(&mut self, octets: &mut [u8]) -> Result<(), FileFault>
        requires { length octets.old ≤ 2 ^ 16 }
        ensures read { Follows (λ _. octets.new) result (next_octets_at None (length octets.old)) MayFail (cursor self.old) (cursor self.new) }
        ensures keeps { Keeps (cursor self.old) (cursor self.new) }
        ensures within { FetchesTo ((cursor self.old).place + length octets.old) (cursor self.old) (cursor self.new) };

    /// Returns an empty vector: one that was given back, if there is one.
    fn spare_octets(&mut self, alloc: Global) -> Vec<u8>
        ensures empty { result.items ≡ [] }
        ensures same { cursor self.new ≡ cursor self.old };

    /// Returns an empty list: one that was given back, if there is one.
    fn spare_list(&mut self, alloc: Global) -> Vec<KString>
        ensures empty { result.items ≡ [] }
        ensures same { cursor self.new ≡ cursor self.old };

    /// Reads a field of `size` octets into `octets`, in place of its octets.
    fn octets(&mut self, alloc: Global, size: u64, octets: &mut Vec<u8>) -> Result<(), FileFault>
        ensures read { Follows (λ _. octets.new.items) result (octets_at size) MayFail (cursor self.old) (cursor self.new) }
        ensures keeps { Keeps (cursor self.old) (cursor self.new) }
        ensures within { FetchesTo ((cursor self.old).place + size) (cursor self.old) (cursor self.new) };

    /// Skips `size` octets, to which no limit applies, and returns whether all of them are 00.
    fn skip(&mut self, size: u64) -> Result<bool, FileFault>
        ensures read { Follows (λ zeros. zeros) result (skipped_at size) MayFail (cursor self.old) (cursor self.new) }
        ensures keeps { Keeps (cursor self.old) (cursor self.new) }
        ensures within { FetchesTo ((cursor self.old).place + size) (cursor self.old) (cursor self.new) };

    /// Reads a number of 8 bits.
    #[inline(always)]
    final fn number8(&mut self) -> Result<u8, FileFault>
        ensures read { Follows (λ number. number) result (number_at w8) MayFail (cursor self.old) (cursor self.new) }
        ensures keeps { Keeps (cursor self.old) (cursor self.new) }
        ensures within { FetchesTo ((cursor self.old).place + 1) (cursor self.old) (cursor self.new) }
    {
        let mut octets = [0; 1];
        self.fill(&mut octets)?;
        Ok(u8::from_be_bytes(octets))
    }

    /// Reads a number of 16 bits.
    #[inline(always)]
    final fn number16(&mut self) -> Result<u16, FileFault>
        ensures read { Follows (λ number. number) result (number_at w16) MayFail (cursor self.old) (cursor self.new) }
        ensures keeps { Keeps (cursor self.old) (cursor self.new) }
        ensures within { FetchesTo ((cursor self.old).place + 2) (cursor self.old) (cursor self.new) }
    {
        let mut octets = [0; 2];
        self.fill(&mut octets)?;
        Ok(u16::from_be_bytes(octets))
    }

    /// Reads a number of 32 bits.
    #[inline(always)]
    final fn number32(&mut self) -> Result<u32, FileFault>
        ensures read { Follows (λ number. number) result (number_at w32) MayFail (cursor self.old) (cursor self.new) }
        ensures keeps { Keeps (cursor self.old) (cursor self.new) }
        ensures within { FetchesTo ((cursor self.old).place + 4) (cursor self.old) (cursor self.new) }
    {
        let mut octets = [0; 4];
        self.fill(&mut octets)?;
        Ok(u32::from_be_bytes(octets))
    }

    /// Reads a number of 32 bits with a sign, in two's complement.
    #[inline(always)]
    final fn signed32(&mut self) -> Result<i32, FileFault>
        ensures read { Follows (λ number. number) result (signed_at w32) MayFail (cursor self.old) (cursor self.new) }
        ensures keeps { Keeps (cursor self.old) (cursor self.new) }
        ensures within { FetchesTo ((cursor self.old).place + 4) (cursor self.old) (cursor self.new) }
    {
        let mut octets = [0; 4];
        self.fill(&mut octets)?;
        Ok(i32::from_be_bytes(octets))
    }

    /// Reads octets after their number of 16 bits, as [`octets`](FieldReader::octets) does.
    final fn counted16(&mut self, alloc: Global, octets: &mut Vec<u8>) -> Result<(), FileFault>
        ensures read { Follows (λ _. octets.new.items) result (counted_at w16) MayFail (cursor self.old) (cursor self.new) }
        ensures keeps { Keeps (cursor self.old) (cursor self.new) }
    {
        let size = self.number16()?;
        self.octets(alloc, u64::from(size), octets)
    }

    /// Reads octets after their number of 32 bits, as [`octets`](FieldReader::octets) does.
    final fn counted32(&mut self, alloc: Global, octets: &mut Vec<u8>) -> Result<(), FileFault>
        ensures read { Follows (λ _. octets.new.items) result (counted_at w32) MayFail (cursor self.old) (cursor self.new) }
        ensures keeps { Keeps (cursor self.old) (cursor self.new) }
    {
        let size = self.number32()?;
        self.octets(alloc, u64::from(size), octets)
    }

    /// Reads what is left of the entry, as [`octets`](FieldReader::octets) does.
    final fn rest(&mut self, alloc: Global, octets: &mut Vec<u8>) -> Result<(), FileFault>
        ensures read { Follows (λ _. octets.new.items) result rest_at MayFail (cursor self.old) (cursor self.new) }
        ensures keeps { Keeps (cursor self.old) (cursor self.new) }
    {
        let size = match self.end() {
            Some(end) => end.saturating_sub(self.place()),
            None => 0,
        };
        self.octets(alloc, size, octets)
    }

    /// Reads a number of 8 bits, the field of this name.
    #[inline(always)]
    final fn field8(&mut self, name: FieldName) -> Result<u8, FileFault>
        ensures read { Follows (λ number. number) result (called name (number_at w8)) MayFail (cursor self.old) (cursor self.new) }
        ensures keeps { Keeps (cursor self.old) (cursor self.new) }
    {
        called(name, self.number8())
    }

    /// Reads a number of 16 bits, the field of this name.
    #[inline(always)]
    final fn field16(&mut self, name: FieldName) -> Result<u16, FileFault>
        ensures read { Follows (λ number. number) result (called name (number_at w16)) MayFail (cursor self.old) (cursor self.new) }
        ensures keeps { Keeps (cursor self.old) (cursor self.new) }
    {
        called(name, self.number16())
    }

    /// Reads a number of 32 bits, the field of this name.
    #[inline(always)]
    final fn field32(&mut self, name: FieldName) -> Result<u32, FileFault>
        ensures read { Follows (λ number. number) result (called name (number_at w32)) MayFail (cursor self.old) (cursor self.new) }
        ensures keeps { Keeps (cursor self.old) (cursor self.new) }
    {
        called(name, self.number32())
    }

    /// Reads a number of 32 bits with a sign, in two's complement, the field of this name.
    #[inline(always)]
    final fn signed_field32(&mut self, name: FieldName) -> Result<i32, FileFault>
        ensures read { Follows (λ number. number) result (called name (signed_at w32)) MayFail (cursor self.old) (cursor self.new) }
        ensures keeps { Keeps (cursor self.old) (cursor self.new) }
        ensures within { FetchesTo ((cursor self.old).place + 4) (cursor self.old) (cursor self.new) }
    {
        called(name, self.signed32())
    }

    /// Reads octets after their number of 16 bits, the field of this name.
    final fn counted_field16(
        &mut self,
        alloc: Global,
        name: FieldName,
        octets: &mut Vec<u8>,
    ) -> Result<(), FileFault>
        ensures read { Follows (λ _. octets.new.items) result (called name (counted_at w16)) MayFail (cursor self.old) (cursor self.new) }
        ensures keeps { Keeps (cursor self.old) (cursor self.new) }
    {
        called(name, self.counted16(alloc, octets))
    }

    /// Reads octets after their number of 32 bits, the field of this name.
    final fn counted_field32(
        &mut self,
        alloc: Global,
        name: FieldName,
        octets: &mut Vec<u8>,
    ) -> Result<(), FileFault>
        ensures read { Follows (λ _. octets.new.items) result (called name (counted_at w32)) MayFail (cursor self.old) (cursor self.new) }
        ensures keeps { Keeps (cursor self.old) (cursor self.new) }
    {
        called(name, self.counted32(alloc, octets))
    }

    /// Reads `size` octets, the field of this name, as [`octets`](FieldReader::octets) does.
    #[inline(always)]
    final fn octets_field(
        &mut self,
        alloc: Global,
        name: FieldName,
        size: u64,
        octets: &mut Vec<u8>,
    ) -> Result<(), FileFault>
        ensures read { Follows (λ _. octets.new.items) result (called name (octets_at size)) MayFail (cursor self.old) (cursor self.new) }
        ensures keeps { Keeps (cursor self.old) (cursor self.new) }
    {
        called(name, self.octets(alloc, size, octets))
    }

    /// Reads what is left of the entry, the field of this name.
    final fn rest_field(
        &mut self,
        alloc: Global,
        name: FieldName,
        octets: &mut Vec<u8>,
    ) -> Result<(), FileFault>
        ensures read { Follows (λ _. octets.new.items) result (called name rest_at) MayFail (cursor self.old) (cursor self.new) }
        ensures keeps { Keeps (cursor self.old) (cursor self.new) }
    {
        called(name, self.rest(alloc, octets))
    }

    /// Skips the field of this name, of `size` octets, as [`skip`](FieldReader::skip) does.
    final fn skip_field(&mut self, name: FieldName, size: u64) -> Result<bool, FileFault>
        ensures read { Follows (λ zeros. zeros) result (called name (skipped_at size)) MayFail (cursor self.old) (cursor self.new) }
        ensures keeps { Keeps (cursor self.old) (cursor self.new) }
        ensures within { FetchesTo ((cursor self.old).place + size) (cursor self.old) (cursor self.new) }
    {
        called(name, self.skip(size))
    }

    /// Reads the number of the components of a principal, its realm and its components, with each
    /// number in 16 bits.
    final fn names16(
        &mut self,
        alloc: Global,
        realm: &mut Vec<u8>,
        components: &mut Vec<KString>,
    ) -> Result<(), FileFault>
        requires { components.old.items ≡ [] }
        ensures read { Follows (λ _. record { realm = realm.new.items; components = components.new.items }) result (names_at w16) MayFail (cursor self.old) (cursor self.new) }
        ensures keeps { Keeps (cursor self.old) (cursor self.new) }
    {
        let count = self.field16(FieldName::ComponentCount)?;
        self.counted_field16(alloc, FieldName::Realm, realm)?;
        read_many::<String16, Self>(alloc, u32::from(count), self, components)
    }

    /// Reads the number of the components of a principal, its realm and its components, with each
    /// number in 32 bits.
    final fn names32(
        &mut self,
        alloc: Global,
        realm: &mut Vec<u8>,
        components: &mut Vec<KString>,
    ) -> Result<(), FileFault>
        requires { components.old.items ≡ [] }
        ensures read { Follows (λ _. record { realm = realm.new.items; components = components.new.items }) result (names_at w32) MayFail (cursor self.old) (cursor self.new) }
        ensures keeps { Keeps (cursor self.old) (cursor self.new) }
    {
        let count = self.field32(FieldName::ComponentCount)?;
        self.counted_field32(alloc, FieldName::Realm, realm)?;
        read_many::<String32, Self>(alloc, count, self, components)
    }

    /// Reads an octet if it is one of `wanted`, and refuses it at its place if it is not.
    final fn expect(&mut self, wanted: &[u8], why: FileWhy) -> Result<u8, FileFault>
        ensures read { Follows (λ octet. octet) result (expect wanted.now why) MayFail (cursor self.old) (cursor self.new) }
        ensures keeps { Keeps (cursor self.old) (cursor self.new) }
        ensures within { FetchesTo ((cursor self.old).place + 1) (cursor self.old) (cursor self.new) }
    {
        let place = self.place();
        let octet = self.number8()?;
        if is_one_of(octet, wanted) {
            Ok(octet)
        } else {
            Err(FileFault::refused(place, why))
        }
    }

    /// Reads the field of this name as [`expect`](FieldReader::expect) reads an octet.
    final fn expect_field(
        &mut self,
        name: FieldName,
        wanted: &[u8],
        why: FileWhy,
    ) -> Result<u8, FileFault>
        ensures read { Follows (λ octet. octet) result (called name (expect wanted.now why)) MayFail (cursor self.old) (cursor self.new) }
        ensures keeps { Keeps (cursor self.old) (cursor self.new) }
        ensures within { FetchesTo ((cursor self.old).place + 1) (cursor self.old) (cursor self.new) }
    {
        called(name, self.expect(wanted, why))
    }

    /// Reads the first two octets of a file, which are 05 and one of `versions`, and returns the
    /// version.
    final fn version(&mut self, versions: &[u8]) -> Result<u8, FileFault>
        ensures read { Follows (λ version. version) result (version_at versions.now) MayFail (cursor self.old) (cursor self.new) }
        ensures keeps { Keeps (cursor self.old) (cursor self.new) }
        ensures within { FetchesTo ((cursor self.old).place + 2) (cursor self.old) (cursor self.new) }
    {
        self.expect_field(FieldName::Magic, &[5], FileWhy::Magic)?;
        self.expect_field(FieldName::Version, versions, FileWhy::Version)
    }
}

/// Returns whether an octet is one of `wanted`.
fn is_one_of(octet: u8, wanted: &[u8]) -> bool
    ensures { result ≡ is_one_of octet wanted.now }
{
    wanted.iter().any(|other| octet == *other)
}

/// A kind of field, or of several fields in a row.
pub trait Field {
    /// The type of what is read.
    type Value: Drop;

    /// How the field of an index, from 0, is read from octets.
    ghost reads: { ℕ → Reader Self.Value };

    /// Reads the field of an index, from 0. Octets that are kept are copied once.
    fn read<F: FieldReader>(
        alloc: Global,
        index: u32,
        reader: &mut F,
    ) -> Result<Self::Value, FileFault>
        ensures read { Follows (λ value. value) result (reads index) F.MayFail (F.cursor reader.old) (F.cursor reader.new) }
        ensures keeps { Keeps (F.cursor reader.old) (F.cursor reader.new) };
}

/// A component of a principal: a string after the number of its octets in 16 bits.
pub struct String16;

impl Field for String16 {
    type Value = KString;

    ghost reads = { component_at w16 };

    fn read<F: FieldReader>(
        alloc: Global,
        index: u32,
        reader: &mut F,
    ) -> Result<KString, FileFault> {
        let mut octets = reader.spare_octets(alloc);
        reader.counted_field16(alloc, FieldName::Component(index), &mut octets)?;
        Ok(KString::new(octets))
    }
}

/// A component of a principal: a string after the number of its octets in 32 bits.
pub struct String32;

impl Field for String32 {
    type Value = KString;

    ghost reads = { component_at w32 };

    fn read<F: FieldReader>(
        alloc: Global,
        index: u32,
        reader: &mut F,
    ) -> Result<KString, FileFault> {
        let mut octets = reader.spare_octets(alloc);
        reader.counted_field32(alloc, FieldName::Component(index), &mut octets)?;
        Ok(KString::new(octets))
    }
}

/// Reads `count` items of a kind into `values`, which is empty before. It allocates by the octets
/// that are there, and not by `count`.
pub fn read_many<K: Field, F: FieldReader>(
    alloc: Global,
    count: u32,
    reader: &mut F,
    values: &mut Vec<K::Value>,
) -> Result<(), FileFault>
    requires { values.old.items ≡ [] }
    ensures read { Follows (λ _. values.new.items) result (times count K.reads) F.MayFail (F.cursor reader.old) (F.cursor reader.new) }
    ensures keeps { Keeps (F.cursor reader.old) (F.cursor reader.new) }
{
    'items: for index in 0..count {
        values.push(K::read(alloc, index, reader)?)?;
    }
    Ok(())
}
