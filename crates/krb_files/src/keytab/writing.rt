//! Writing keytabs.

ghost use Rattle.std.specs.Prelude.{◌≡◌, ◌+◌, ◌*◌, ◌<◌, ◌≤◌, ◌^◌, ◌++◌, ◌↔◌, length, min, pos, true, false, None, Some, IsNone, IfSome, Ok, IfOk, IsErrOf, MatchResult};
ghost use Rattle.std.specs.Int.{w32};
ghost use Rattle.std.specs.List.{flat_map, AllByRecursion};
ghost use Rattle.std.specs.Vec.{vec_len, vec_capacity};
ghost use Rattle.krb_der.specs.Puts.{Puts};
ghost use Rattle.krb_file.specs.Fields.{signed, zeros};
ghost use Rattle.krb_files.specs.Parts.{greatest};
ghost use Rattle.krb_files.specs.declared.keytab.writing.KeytabFault.TheVariants.{Dirty, TooLong, Memory};
ghost use Rattle.krb_keytab.specs.Spelling.{entry as content_of, EntryFits, negated, stop_octets, KeytabSpells};
ghost use Rattle.krb_keytab.specs.Reading.{read};
ghost use Rattle.krb_files.specs.KeytabWriting.{has_long_part, is_long_entry, record_fault, records_fault, write_fault, written_record, written, CanWrite};

use crate::part::{Count16, Counted16, GREATEST_FILE, Part, Plain, Strings16, Then};
use krb_der::{KString, put_octets};
use krb_keytab::{Entry, Hole, Keytab, Record, Stop};
use std::alloc::{AllocError, Global};
use thiserror::Error;

/// A fault of writing a keytab.
#[derive(Clone, Copy, PartialEq, Eq, Debug, Error)]
pub enum KeytabFault {
    /// A hole is not clean, and its octets were not kept.
    #[error("a hole is not clean")]
    Dirty,
    /// The number of components or octets is too great for the number of 16 or 32 bits before them,
    /// or the file would have more than 2^40 octets.
    #[error("too long")]
    TooLong,
    /// Out of memory.
    #[error("out of memory")]
    Memory,
}

impl From<AllocError> for KeytabFault {
    ghost from_gives = { λ _ e. e ≡ Memory };

    fn from(_error: AllocError) -> KeytabFault {
        KeytabFault::Memory
    }
}

type NamesLayout<'a> = Then<Count16<'a, KString>, Then<Counted16<'a>, Strings16<'a>>>;

type EntryLayout<'a> = Then<
    NamesLayout<'a>,
    Then<i32, Then<u32, Then<u8, Then<u16, Then<Counted16<'a>, Plain<'a>>>>>>,
>;

/// Returns the parts that the content of an entry is made of.
fn entry_layout(entry: &Entry) -> EntryLayout<'_>
    ensures octets { ⟦<EntryLayout<'static> as Part>⟧.octets result ≡ content_of entry.now }
    ensures is_long { ⟦<EntryLayout<'static> as Part>⟧.is_long result ≡ has_long_part entry.now }
    ensures fits { ⟦<EntryLayout<'static> as Part>⟧.Fits result → length (content_of entry.now) < 2 ^ 31 → EntryFits entry.now }
{
    let components = entry.components.as_slice();
    let realm = Counted16(entry.realm.octets());
    let names = Then(Count16(components), Then(realm, Strings16(components)));
    let key = Then(
        Counted16(entry.key.as_slice()),
        Plain(entry.rest.as_slice()),
    );
    let numbers = Then(entry.time, Then(entry.vno8, Then(entry.enctype, key)));
    Then(names, Then(entry.name_type, numbers))
}

/// Returns the number of octets of an entry's content, or `None` if it is too long or a part of it
/// is.
fn content_size(entry: &Entry) -> Option<u32>
    ensures none { IsNone result ↔ (is_long_entry entry.now ≡ true) }
    ensures some { IfSome result (λ size. size ≡ length (content_of entry.now)) }
    ensures fits { IfSome result (λ _. EntryFits entry.now) }
{
    let size = entry_layout(entry).size()?;
    if size < 1 << 31 {
        Some(size as u32)
    } else {
        None
    }
}

/// Returns the number of octets of a record, or why it cannot be written.
fn record_size(record: &Record) -> Result<u64, KeytabFault>
    ensures fault { MatchResult result (λ _. record_fault «record».now ≡ None) (λ fault. record_fault «record».now ≡ Some fault) }
    ensures size { IfOk result (λ size. size ≡ length (written_record «record».now)) }
    ensures small { IfOk result (λ size. size < 2 ^ 32) }
    ensures can { IfOk result (λ _. CanWrite «record».now) }
{
    let size = match record {
        Record::Entry(entry) => content_size(entry).ok_or(KeytabFault::TooLong)?,
        Record::Hole(hole) if hole.clean() => hole.size(),
        Record::Hole(_) => return Err(KeytabFault::Dirty),
    };
    Ok(4 + u64::from(size))
}

/// Returns the number of octets of all the records, or 2^40 + 1 if there are more than 2^40, or why
/// the first record that cannot be written cannot.
fn records_size(records: &[Record]) -> Result<u64, KeytabFault>
    ensures fault { MatchResult result (λ _. records_fault records.now ≡ None) (λ fault. records_fault records.now ≡ Some fault) }
    ensures size { IfOk result (λ size. size ≡ min (length (flat_map written_record records.now)) (greatest + 1)) }
    ensures can { IfOk result (λ _. AllByRecursion CanWrite records.now) }
{
    let mut size = 0;
    for record in records {
        size = (size + record_size(record)?).min(GREATEST_FILE + 1);
    }
    Ok(size)
}

/// Returns the octets that end the records.
fn stop_octets(stop: Stop) -> &'static [u8]
    ensures { result.now ≡ stop_octets stop }
{
    match stop {
        Stop::File => &[],
        Stop::Zero => &[0, 0, 0, 0],
    }
}

/// Returns the number of octets of a keytab, or why it cannot be written: for a record, or else for
/// the size of the file.
fn file_size(keytab: &Keytab) -> Result<u64, KeytabFault>
    ensures fault { MatchResult result (λ _. write_fault keytab.now ≡ None) (λ fault. write_fault keytab.now ≡ Some fault) }
    ensures size { IfOk result (λ size. size ≡ length (written keytab.now)) }
    ensures small { IfOk result (λ size. size ≤ 2 ^ 40) }
    ensures can { IfOk result (λ _. AllByRecursion CanWrite keytab.now.records) }
{
    let records = records_size(keytab.records.as_slice())?;
    let size = 2 + records + stop_octets(keytab.stop).len() as u64;
    if size <= GREATEST_FILE {
        Ok(size)
    } else {
        Err(KeytabFault::TooLong)
    }
}

/// Appends `count` octets 00 within the capacity of `out`.
fn put_zeros(out: &mut Vec<u8>, count: u32)
    requires { vec_len out.old + count ≤ vec_capacity out.old }
    ensures { Puts (zeros count) out.old out.new }
{
    for _ in 0..count {
        out.push_reserved(0);
    }
}

/// Appends a record that can be written, within the capacity of `out`.
fn put_record(out: &mut Vec<u8>, record: &Record)
    requires fault { record_fault «record».now ≡ None }
    requires spare_capacity { vec_len out.old + length (written_record «record».now) ≤ vec_capacity out.old }
    ensures { Puts (written_record «record».now) out.old out.new }
{
    match record {
        Record::Entry(entry) => put_entry(out, entry),
        Record::Hole(hole) => put_hole(out, *hole),
    }
}

/// Appends an entry: its content, after the number of the content's octets.
fn put_entry(out: &mut Vec<u8>, entry: &Entry)
    requires short { is_long_entry entry.now ≡ false }
    requires spare_capacity { vec_len out.old + (4 + length (content_of entry.now)) ≤ vec_capacity out.old }
    ensures { Puts (signed w32 (pos (length (content_of entry.now))) ++ content_of entry.now) out.old out.new }
{
    // An entry whose parts are short enough has a size.
    let Some(size) = content_size(entry) else {
        return;
    };
    put_octets(out, &size.to_be_bytes());
    entry_layout(entry).put(out);
}

/// Appends a clean hole: its octets, all 00, after their negated number.
fn put_hole(out: &mut Vec<u8>, hole: Hole)
    requires { vec_len out.old + (4 + hole.size) ≤ vec_capacity out.old }
    ensures { Puts (signed w32 (negated hole.size) ++ zeros hole.size) out.old out.new }
{
    let size = hole.size();
    put_octets(out, &size.wrapping_neg().to_be_bytes());
    put_zeros(out, size);
}

/// Appends records that can be written, within the capacity of `out`.
fn put_records(out: &mut Vec<u8>, records: &[Record])
    requires fault { records_fault records.now ≡ None }
    requires spare_capacity { vec_len out.old + length (flat_map written_record records.now) ≤ vec_capacity out.old }
    ensures { Puts (flat_map written_record records.now) out.old out.new }
{
    for record in records {
        put_record(out, record);
    }
}

/// Returns the octets of a keytab. Whether it can be written is decided first. The first record
/// that cannot be written decides why: Dirty for a hole that is not clean, TooLong for more than
/// 65535 components, for a realm, a component or a key of more than 65535 octets, and for an entry
/// of more than 2147483647. After the records, TooLong for a file of more than 2^40 octets. Then it
/// allocates once, for exactly the octets that are written.
pub fn write(alloc: Global, keytab: &Keytab) -> Result<Vec<u8>, KeytabFault>
    ensures octets { IfOk result (λ octets. octets.items ≡ written keytab.now) }
    // What is written spells the keytab, and is read back.
    ensures spells { IfOk result (λ octets. KeytabSpells keytab.now octets.items) }
    ensures again { IfOk result (λ octets. read octets.items ≡ Ok (keytab.now, length octets.items)) }
    ensures dirty { IsErrOf result KeytabFault.Dirty ↔ (write_fault keytab.now ≡ Some Dirty) }
    ensures too_long { IsErrOf result KeytabFault.TooLong ↔ (write_fault keytab.now ≡ Some TooLong) }
{
    let size = file_size(keytab)?;
    let mut octets = Vec::with_capacity(alloc, size as usize)?;
    put_octets(&mut octets, &[5, 2]);
    put_records(&mut octets, keytab.records.as_slice());
    put_octets(&mut octets, stop_octets(keytab.stop));
    Ok(octets)
}
