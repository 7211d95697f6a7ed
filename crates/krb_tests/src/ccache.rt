//! Caches of versions 4 and 3, worked out by hand from the file format. `tests/run/compare` tests how
//! files are refused.

use crate::examples::{CACHE, CACHE3, TICKET_FIELDS, octets_of};
use krb_ccache::{Cache3, Ccache, Credential, HeaderField, TicketState, Typed};
use krb_der::{Many, Octets, Refusal, Why};
use krb_file::{FieldName, FileFault, FileField, FileRefusal, FileWhy};
use krb_files::ccache::{CcacheFault, read, read3, upgrade, write};
use krb_values::ticket_of;
use std::alloc::Global;
use std::test::Fail;

/// A cache of u@A without a header, and a credential for u@A with a different number in each field,
/// an address and an element of authorization data.
const NUMBERED: &str =
    "05040000000000010000000100000001410000000175000000010000000100000001410000000175000000010000000100000001410000000175001200000002ABCD000000010000000200000003000000040180000001000000010002000000047F000001000000010001000000047F00000100000001610000000105";

/// The cache of version 3 of the examples, with a second encryption type that differs from the
/// first.
const OTHER_ENCTYPE: &str =
    "05030000000100000001000000014100000001750000000100000001000000014100000001750000000200000001000000014100000001680012001100000002ABCD386D4380386D4380386D5190000000000040E10000000000000000000000000002618000000000";

/// The same cache in version 4.
const UPGRADED: &str =
    "05040000000000010000000100000001410000000175000000010000000100000001410000000175000000020000000100000001410000000168001200000002ABCD386D4380386D4380386D5190000000000040E10000000000000000000000000002618000000000";

/// A cache of version 3 of u@A: a configuration entry, and the same credential.
const CONFIG3: &str =
    "050300000001000000010000000141000000017500000001000000010000000141000000017500000000000000020000000C582D4341434845434F4E463A000000156B7262355F6363616368655F636F6E665F646174610000000770615F74797065000000000000000000000000000000000000000000000000000000000000000000000000000000000132000000000000000100000001000000014100000001750000000200000001000000014100000001680012001200000002ABCD386D4380386D4380386D5190000000000040E10000000000000000000000000002618000000000";

/// The same cache in version 4.
const CONFIG_UPGRADED: &str =
    "0504000000000001000000010000000141000000017500000001000000010000000141000000017500000000000000020000000C582D4341434845434F4E463A000000156B7262355F6363616368655F636F6E665F646174610000000770615F747970650000000000000000000000000000000000000000000000000000000000000000000000000000013200000000000000010000000100000001410000000175000000020000000100000001410000000168001200000002ABCD386D4380386D4380386D5190000000000040E10000000000000000000000000002618000000000";

/// Returns whether a list has one item, of this kind and with these octets.
fn is_typed(list: &Many<Typed>, kind: u16, octets: &[u8]) -> bool {
    match list.as_slice() {
        [only] => only.kind == kind && only.octets.as_slice() == octets,
        _ => false,
    }
}

/// Returns whether each field of a credential has its number.
fn is_numbered(credential: &Credential) -> bool {
    let numbers = (credential.enctype, credential.is_skey, credential.flags);
    let times = [
        credential.authtime,
        credential.starttime,
        credential.endtime,
        credential.renew_till,
    ];
    numbers == (18, 1, 0x80000001)
        && times == [1, 2, 3, 4]
        && credential.key.as_slice() == [0xAB, 0xCD].as_slice()
        && is_typed(&credential.addresses, 2, b"\x7F\0\0\x01")
        && is_typed(&credential.authdata, 1, b"\x7F\0\0\x01")
        && credential.ticket.as_slice() == b"\x61".as_slice()
        && credential.second_ticket.as_slice() == b"\x05".as_slice()
}

/// Returns whether these octets, and no greater capacity, are written for a cache.
fn is_written(alloc: Global, cache: &Ccache, octets: &[u8]) -> bool {
    match write(alloc, cache) {
        Ok(written) => written.as_slice() == octets && written.capacity() == octets.len(),
        Err(_) => false,
    }
}

/// Returns whether octets are a cache that is written as the same octets, and each field of its
/// credential, if it has one, has its number.
fn comes_again(alloc: Global, octets: &[u8]) -> bool {
    match read(alloc, octets) {
        Ok(cache) => {
            let is_read = match cache.credentials.as_slice() {
                [only] => is_numbered(only),
                _ => true,
            };
            is_read && is_written(alloc, &cache, octets)
        }
        Err(_) => false,
    }
}

#[test]
fn reads_and_writes_each_field(rt: HostRuntime) -> Result<(), Fail> {
    for digits in [NUMBERED, CACHE] {
        let octets = octets_of(rt.alloc(), digits)?;
        assert!(rt; comes_again(rt.alloc(), octets.as_slice()), "{digits}");
    }
    Ok(())
}

/// Returns whether a state is the one named: that of a configuration entry, a Ticket of the realm
/// A, one that is cut, or none.
fn is_named(state: &TicketState, name: &str) -> bool {
    let (place, why) = (1, Why::Indefinite);
    match state {
        TicketState::Config => name == "config",
        TicketState::Ticket(ticket) => name == "ticket" && ticket.realm.octets() == b"A".as_slice(),
        TicketState::Refused(refusal) => name == "cut" && *refusal == Refusal { place, why },
        TicketState::Absent => name == "absent",
    }
}

/// Returns whether the ticket field of a credential holds what is named.
fn has(alloc: Global, credential: &Credential, name: &str) -> bool {
    match ticket_of(alloc, credential) {
        Ok(state) => is_named(&state, name),
        Err(_) => false,
    }
}

/// Returns whether octets are a cache whose credentials have one of each in their ticket fields.
fn have_each(alloc: Global, octets: &[u8]) -> bool {
    match read(alloc, octets) {
        Ok(cache) => match cache.credentials.as_slice() {
            [config, ticket, cut, absent] => {
                has(alloc, config, "config")
                    && has(alloc, ticket, "ticket")
                    && has(alloc, cut, "cut")
                    && has(alloc, absent, "absent")
            }
            _ => false,
        },
        Err(_) => false,
    }
}

#[test]
fn tells_what_a_ticket_field_holds(rt: HostRuntime) -> Result<(), Fail> {
    let octets = octets_of(rt.alloc(), TICKET_FIELDS)?;
    assert!(rt; have_each(rt.alloc(), octets.as_slice()));
    Ok(())
}

/// A cache of u@A without a header.
const OF_U: &[u8] = b"\x05\x04\0\0\0\0\0\x01\0\0\0\x01\0\0\0\x01A\0\0\0\x01u";

/// Returns why that cache cannot be written if its header has one field with a value of `size`
/// octets, or `None` if it can.
fn fault_of_size(alloc: Global, size: usize) -> Result<Option<CcacheFault>, Fail> {
    let value = Octets::new(vec![in alloc; 0u8; size]?);
    let fields = Many::new(vec![in alloc; HeaderField { tag: 3, value }]?);
    Ok(match read(alloc, OF_U) {
        Ok(mut cache) => {
            cache.header.fields = fields;
            write(alloc, &cache).err()
        }
        Err(_) => Some(CcacheFault::Memory),
    })
}

#[test]
fn refuses_to_write_a_header_that_is_too_long(rt: HostRuntime) -> Result<(), Fail> {
    for (size, fault) in [
        (65531, None),
        (65532, Some(CcacheFault::TooLong)),
        (65536, Some(CcacheFault::TooLong)),
    ] {
        assert_eq!(rt; fault_of_size(rt.alloc(), size)?, fault, "{size}");
    }
    Ok(())
}

/// Returns the two encryption types of the last credential of a cache of version 3.
fn last_enctypes(cache: &Cache3) -> Option<(u16, u16)> {
    let last = cache.credentials.as_slice().last()?;
    Some((last.credential.enctype, last.again))
}

/// Returns whether a cache of version 3 is the wanted one in version 4.
fn comes_to(alloc: Global, cache: Cache3, wanted: &[u8]) -> bool {
    match upgrade(alloc, cache) {
        Ok(cache) => is_written(alloc, &cache, wanted),
        Err(_) => false,
    }
}

/// Returns whether octets are a cache of version 3 whose last credential has this second encryption
/// type, and which in version 4 is the wanted one.
fn is_upgraded(alloc: Global, octets: &[u8], again: u16, wanted: &[u8]) -> bool {
    match read3(alloc, octets) {
        Ok(cache) => {
            let is_read = last_enctypes(&cache) == Some((18, again));
            is_read && comes_to(alloc, cache, wanted)
        }
        Err(_) => false,
    }
}

#[test]
fn reads_and_upgrades_version_3(rt: HostRuntime) -> Result<(), Fail> {
    let alloc = rt.alloc();
    for (digits, again, wanted) in [
        (CACHE3, 18, UPGRADED),
        (OTHER_ENCTYPE, 17, UPGRADED),
        (CONFIG3, 18, CONFIG_UPGRADED),
    ] {
        let octets = octets_of(alloc, digits)?;
        let wanted = octets_of(alloc, wanted)?;
        let same = is_upgraded(alloc, octets.as_slice(), again, wanted.as_slice());
        assert!(rt; same, "{digits}");
    }
    Ok(())
}

/// Returns why a file is refused, if it is.
fn fault_of<T: Drop>(answer: Result<T, FileFault>) -> Option<FileFault> {
    match answer {
        Ok(_) => None,
        Err(fault) => Some(fault),
    }
}

#[test]
fn reads_one_version_each(rt: HostRuntime) {
    let refused = Some(FileFault::Refused(FileRefusal {
        place: 1,
        why: FileWhy::Version,
        field: Some(FileField {
            part: None,
            name: FieldName::Version,
        }),
        begin: 1,
    }));
    assert_eq!(rt; fault_of(read(rt.alloc(), b"\x05\x03")), refused);
    assert_eq!(rt; fault_of(read3(rt.alloc(), b"\x05\x04")), refused);
}
