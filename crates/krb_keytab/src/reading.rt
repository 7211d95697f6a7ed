//! Reading the records of keytabs.

ghost use Rattle.std.specs.Prelude.{◌+◌, OnOk, OnErr};
ghost use Rattle.krb_file.specs.Fields.{within};
ghost use Rattle.krb_file.specs.FieldReaders.{Follows, FetchesTo, Stays, Keeps, FetchesToAnnounced};
ghost use Rattle.krb_keytab.specs.Reading.{entry_at, content_size, announced, record_of, next_record_at};

use crate::value::{Entry, Hole, Record, Stop};
use krb_der::{KString, Many, Octets};
use krb_file::{FieldName, FieldReader, FileFault};
use std::alloc::Global;

/// The next record of a keytab, or how its records end.
#[derive(Drop)]
pub enum Next {
    /// A record.
    Item(Record),
    /// The end of the records.
    Done(Stop),
}

/// Reads the entry whose content ends at the end that was set.
#[inline(never)]
fn entry<F: FieldReader>(alloc: Global, reader: &mut F) -> Result<Entry, FileFault>
    ensures read { Follows (λ entry. entry) result entry_at F.MayFail (F.cursor reader.old) (F.cursor reader.new) }
    ensures keeps { Keeps (F.cursor reader.old) (F.cursor reader.new) }
{
    let mut realm = reader.spare_octets(alloc);
    let mut components = reader.spare_list(alloc);
    reader.names16(alloc, &mut realm, &mut components)?;
    let name_type = reader.signed_field32(FieldName::NameType)?;
    let time = reader.field32(FieldName::Timestamp)?;
    let vno8 = reader.field8(FieldName::KeyVersion)?;
    let enctype = reader.field16(FieldName::Enctype)?;
    let mut key = reader.spare_octets(alloc);
    reader.counted_field16(alloc, FieldName::Key, &mut key)?;
    let mut rest = reader.spare_octets(alloc);
    reader.rest_field(alloc, FieldName::Rest, &mut rest)?;
    Ok(Entry {
        realm: KString::new(realm),
        components: Many::new(components),
        name_type,
        time,
        vno8,
        enctype,
        key: Octets::new(key),
        rest: Octets::new(rest),
    })
}

/// Reads the entry whose content is the next `size` octets.
fn entry_within<F: FieldReader>(
    alloc: Global,
    size: u32,
    reader: &mut F,
) -> Result<Entry, FileFault>
    ensures read { Follows (λ entry. entry) result (within size entry_at) F.MayFail (F.cursor reader.old) (F.cursor reader.new) }
    ensures stays { OnOk result (Stays (F.cursor reader.old) (F.cursor reader.new)) }
    ensures within { FetchesTo ((F.cursor reader.old).place + size) (F.cursor reader.old) (F.cursor reader.new) }
{
    let outer = reader.end();
    let place = reader.place();
    reader.set_end(Some(place + u64::from(size)));
    let entry = entry(alloc, reader)?;
    reader.set_end(outer);
    Ok(entry)
}

/// Reads what follows the length of a record.
fn record_after<F: FieldReader>(
    alloc: Global,
    length: i32,
    reader: &mut F,
) -> Result<Next, FileFault>
    ensures read { Follows (λ next. next) result (record_of length) F.MayFail (F.cursor reader.old) (F.cursor reader.new) }
    ensures stays { OnOk result (Stays (F.cursor reader.old) (F.cursor reader.new)) }
    ensures within { FetchesTo ((F.cursor reader.old).place + content_size length) (F.cursor reader.old) (F.cursor reader.new) }
{
    let size = length.unsigned_abs();
    if length == 0 {
        Ok(Next::Done(Stop::Zero))
    } else if length > 0 {
        reader.look_ahead(u64::from(size))?;
        let entry = entry_within(alloc, size, reader)?;
        Ok(Next::Item(Record::Entry(entry)))
    } else {
        let clean = reader.skip_field(FieldName::Hole, u64::from(size))?;
        Ok(Next::Item(Record::Hole(Hole::of(size, clean))))
    }
}

/// The number of octets of a record's length.
const LENGTH_OCTETS: u64 = 4;

/// Reads the next record after the version of a keytab, or how the records end. A fault does not
/// tell where the record begins.
pub fn read_record<F: FieldReader>(alloc: Global, reader: &mut F) -> Result<Next, FileFault>
    ensures read { Follows (λ next. next) result next_record_at F.MayFail (F.cursor reader.old) (F.cursor reader.new) }
    ensures stays { OnOk result (Stays (F.cursor reader.old) (F.cursor reader.new)) }
    ensures keeps { OnErr result (FetchesToAnnounced announced (F.cursor reader.old) (F.cursor reader.new)) }
{
    reader.look_ahead(LENGTH_OCTETS)?;
    if reader.is_empty()? {
        return Ok(Next::Done(Stop::File));
    }
    let length = reader.signed_field32(FieldName::Length)?;
    record_after(alloc, length, reader)
}
