//! Keytabs worked out by hand from the file format. `tests/run/compare` tests how files are refused.

use crate::examples::{KEYTAB, octets_of};
use krb_der::{KString, Many, Octets};
use krb_files::keytab::{KeytabFault, read, write};
use krb_keytab::{Entry, Hole, Keytab, Record, Stop};
use std::alloc::Global;
use std::test::Fail;

/// Returns whether an entry is that of the keytab.
fn is_for_h(entry: &Entry) -> bool {
    let is_h = match entry.components.as_slice() {
        [only] => only.octets() == b"h".as_slice(),
        _ => false,
    };
    is_h && entry.realm.octets() == b"A".as_slice()
        && (entry.name_type, entry.time) == (1, 946684800)
        && (entry.vno8, entry.enctype, entry.kvno()) == (2, 18, 258)
        && entry.key.as_slice() == [0xAB, 0xCD].as_slice()
        && entry.rest.as_slice() == [0, 0, 1, 2].as_slice()
}

/// Returns whether a keytab is an entry and a hole of eight octets, and is written as these octets,
/// with no greater capacity.
fn is_of_h(alloc: Global, keytab: &Keytab, octets: &[u8]) -> bool {
    let is_read = match keytab.records.as_slice() {
        [Record::Entry(entry), Record::Hole(hole)] => {
            is_for_h(entry) && (hole.size(), hole.clean()) == (8, true)
        }
        _ => false,
    };
    let is_written = match write(alloc, keytab) {
        Ok(written) => written.as_slice() == octets && written.capacity() == octets.len(),
        Err(_) => false,
    };
    is_read && keytab.stop == Stop::Zero && is_written
}

/// Returns whether octets are read as that keytab, which the first 49 of them are.
fn comes_again(alloc: Global, octets: &[u8]) -> bool {
    match (read(alloc, octets), octets.get(..49)) {
        (Ok((keytab, size)), Some(front)) => size == 49 && is_of_h(alloc, &keytab, front),
        _ => false,
    }
}

#[test]
fn reads_and_writes_an_entry_and_a_hole(rt: HostRuntime) -> Result<(), Fail> {
    let octets = octets_of(rt.alloc(), KEYTAB)?;
    assert!(rt; comes_again(rt.alloc(), octets.as_slice()));
    Ok(())
}

#[test]
fn makes_holes_of_the_sizes_that_there_are(rt: HostRuntime) {
    for (size, clean, there) in [
        (0, true, false),
        (1, false, true),
        (2147483648, true, true),
        (2147483649, true, false),
    ] {
        let hole = match Hole::new(size, clean) {
            Some(hole) => Some((hole.size(), hole.clean())),
            None => None
        };
        assert_eq!(rt; hole, there.then_some((size, clean)));
    }
}

/// Returns this many octets.
fn some_octets(alloc: Global, count: usize) -> Result<Vec<u8>, Fail> {
    Ok(vec![in alloc; 0x41u8; count]?)
}

/// The numbers of octets of an entry's realm, of its components and of the octets of each, and of
/// the octets of its key.
struct Sizes(usize, usize, usize, usize);

/// Returns an entry of these sizes.
fn entry(alloc: Global, sizes: &Sizes) -> Result<Entry, Fail> {
    let Sizes(realm, count, size, key) = *sizes;
    let mut components = Vec::new(alloc);
    for _ in 0..count {
        components.push(KString::new(some_octets(alloc, size)?))?;
    }
    let realm = some_octets(alloc, realm)?;
    let key = some_octets(alloc, key)?;
    Ok(Entry {
        realm: KString::new(realm),
        components: Many::new(components),
        name_type: 1,
        time: 0,
        vno8: 7,
        enctype: 18,
        key: Octets::new(key),
        rest: Octets::new(Vec::new(alloc)),
    })
}

/// Returns the records: holes of the greatest size, a hole that is not clean if its place is 0, the
/// entry, and a hole that is not clean if its place is 1.
fn records(
    alloc: Global,
    holes: usize,
    dirty: Option<u8>,
    sizes: &Sizes,
) -> Result<Vec<Record>, Fail> {
    let mut records = Vec::new(alloc);
    for _ in 0..holes {
        records.push(Record::Hole(Hole::new(2147483648, true).ok_or("a hole")?))?;
    }
    let unclean = Hole::new(2, false).ok_or("a hole")?;
    if dirty == Some(0) {
        records.push(Record::Hole(unclean))?;
    }
    records.push(Record::Entry(entry(alloc, sizes)?))?;
    if dirty == Some(1) {
        records.push(Record::Hole(unclean))?;
    }
    Ok(records)
}

/// Returns why a keytab of these records cannot be written, if it cannot.
fn fault(
    alloc: Global,
    holes: usize,
    dirty: Option<u8>,
    sizes: &Sizes,
) -> Result<Option<KeytabFault>, Fail> {
    let records = records(alloc, holes, dirty, sizes)?;
    let keytab = Keytab {
        records: Many::new(records),
        stop: Stop::Zero,
    };
    Ok(write(alloc, &keytab).err())
}

/// The number of holes, the place of one that is not clean, the entry, and the fault.
const FAULTS: [(usize, Option<u8>, Sizes, Option<KeytabFault>); 7] = [
    // the first record at fault decides
    (0, Some(0), Sizes(1, 1, 1, 65536), Some(KeytabFault::Dirty)),
    (
        0,
        Some(1),
        Sizes(1, 1, 1, 65536),
        Some(KeytabFault::TooLong),
    ),
    (0, None, Sizes(1, 1, 1, 65535), None),
    // more than 65535 octets, and more than 65535 components
    (0, None, Sizes(65536, 1, 1, 2), Some(KeytabFault::TooLong)),
    (0, None, Sizes(1, 1, 65536, 2), Some(KeytabFault::TooLong)),
    (0, None, Sizes(1, 65536, 0, 2), Some(KeytabFault::TooLong)),
    // more than a file may have
    (512, None, Sizes(1, 1, 1, 2), Some(KeytabFault::TooLong)),
];

#[test]
fn refuses_to_write_what_no_keytab_says(rt: HostRuntime) -> Result<(), Fail> {
    let alloc = rt.alloc();
    for (holes, dirty, sizes, wanted) in &FAULTS {
        assert_eq!(rt; fault(alloc, *holes, *dirty, sizes)?, *wanted);
    }
    Ok(())
}
