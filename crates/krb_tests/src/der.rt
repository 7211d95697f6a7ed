//! Values and their octets, worked out by hand from X.690 and RFC 4120, and the texts of faults.

use krb_codec::EncodeFault;
use krb_der::{
    Der, Flags, Int32, KString, KerberosTime, Memory, Micros, Octets, Refusal, Why, Wide32,
};
use krb_file::{FileFault, FileWhy, Limit};
use krb_files::ccache::CcacheFault;
use krb_files::keytab::KeytabFault;
use krb_values::ParseFault;
use std::alloc::Global;
use std::error::Error;
use std::test::Fail;

/// Returns whether octets are a time, which then has these octets.
fn is_time(octets: &[u8; 15]) -> bool {
    match KerberosTime::new(*octets) {
        Some(time) => time.octets() == octets,
        None => false,
    }
}

#[test]
fn takes_what_is_in_range(rt: HostRuntime) {
    for (number, there) in [(999999, true), (1000000, false)] {
        let micros = match Micros::new(number) {
            Some(micros) => Some(micros.get()),
            None => None
        };
        assert_eq!(rt; micros, there.then_some(number));
    }
    for (number, there) in [
        (-2147483649, false),
        (-2147483648, true),
        (4294967295, true),
        (4294967296, false),
    ] {
        let wide = match Wide32::new(number) {
            Some(wide) => Some(wide.get()),
            None => None
        };
        assert_eq!(rt; wide, there.then_some(number));
    }
    for (number, there) in [
        (0, false),
        (1, true),
        (2147483647, true),
        (2147483648, false),
    ] {
        let limit = match Limit::new(number) {
            Some(limit) => Some(limit.get()),
            None => None
        };
        assert_eq!(rt; limit, there.then_some(number));
    }
    for (octets, there) in [
        (b"19700101000000Z", true),
        (b"19700101000000z", false),
        (b"1970010100000:Z", false),
        (b"197001010000/0Z", false),
    ] {
        assert_eq!(rt; is_time(octets), there);
    }
}

/// Returns how many flags there are, and whether the first three, the eighth and the last that a
/// number can name are set.
fn bits_of(flags: &Flags) -> (u64, [bool; 5]) {
    let set = [
        flags.bit(0),
        flags.bit(1),
        flags.bit(2),
        flags.bit(7),
        flags.bit(u64::MAX),
    ];
    (flags.bits(), set)
}

/// Returns the same of the flags with these octets, if there are such flags.
fn flags(alloc: Global, unused: u8, octets: &[u8]) -> Result<Option<(u64, [bool; 5])>, Fail> {
    let octets = octets.to_vec(alloc)?;
    Ok(match Flags::new(unused, octets) {
        Some(flags) => Some(bits_of(&flags)),
        None => None,
    })
}

#[test]
fn takes_flags_with_clear_unused_bits(rt: HostRuntime) -> Result<(), Fail> {
    for (unused, octets, expected) in [
        (8, [0, 0].as_slice(), None),
        (1, [].as_slice(), None),
        (1, [0x41].as_slice(), None),
        (0, [].as_slice(), Some((0, [false; 5]))),
        (
            1,
            [0x40].as_slice(),
            Some((7, [false, true, false, false, false])),
        ),
    ] {
        assert_eq!(rt; flags(rt.alloc(), unused, octets)?, expected);
    }
    Ok(())
}

/// Returns whether a value has these DER octets, and says how many they are.
fn has_octets<D: Der>(alloc: Global, value: &D, octets: &[u8]) -> Result<bool, Fail> {
    let size = value.size();
    if size != octets.len() as u64 || size >= 2147483648 {
        return Ok(false);
    }
    let mut out = Vec::with_capacity(alloc, size as usize)?;
    value.put(&mut out);
    Ok(out.as_slice() == octets)
}

#[test]
fn puts_the_octets_of_numbers(rt: HostRuntime) -> Result<(), Fail> {
    let alloc = rt.alloc();
    for (number, octets) in [
        (0, [2, 1, 0].as_slice()),
        (127, [2, 1, 0x7F].as_slice()),
        (128, [2, 2, 0, 0x80].as_slice()),
        (-1, [2, 1, 0xFF].as_slice()),
        (-129, [2, 2, 0xFF, 0x7F].as_slice()),
        (-2147483648, [2, 4, 0x80, 0, 0, 0].as_slice()),
    ] {
        assert!(rt; has_octets(alloc, &Int32::new(number), octets)?, "{number}");
    }
    let wide = Wide32::new(4294967295).ok_or("in range")?;
    assert!(rt; has_octets(alloc, &wide, &[2, 5, 0, 0xFF, 0xFF, 0xFF, 0xFF])?);
    let micros = Micros::new(999999).ok_or("in range")?;
    assert!(rt; has_octets(alloc, &micros, &[2, 3, 0x0F, 0x42, 0x3F])?);
    Ok(())
}

/// Returns whether this many contents octets follow these, which are their tag and their length.
fn is_headed(alloc: Global, count: usize, header: &[u8]) -> Result<bool, Fail> {
    let contents = vec![in alloc; 7u8; count]?;
    let mut wanted = header.to_vec(alloc)?;
    wanted.extend_from_slice(contents.as_slice())?;
    has_octets(alloc, &Octets::new(contents), wanted.as_slice())
}

#[test]
fn puts_lengths_in_their_shortest_form(rt: HostRuntime) -> Result<(), Fail> {
    for (count, header) in [
        (127usize, [0x04, 0x7F].as_slice()),
        (128, [0x04, 0x81, 0x80].as_slice()),
        (255, [0x04, 0x81, 0xFF].as_slice()),
        (256, [0x04, 0x82, 0x01, 0x00].as_slice()),
        (65536, [0x04, 0x83, 0x01, 0x00, 0x00].as_slice()),
    ] {
        assert!(rt; is_headed(rt.alloc(), count, header)?, "{count}");
    }
    Ok(())
}

/// Returns whether a fault shows this text.
fn is_shown<E: Error>(alloc: Global, fault: &E, text: &str) -> bool {
    match format!(in alloc; "{fault}") {
        Ok(shown) => shown.as_str() == text,
        Err(_) => false,
    }
}

#[test]
fn shows_faults(rt: HostRuntime) {
    let alloc = rt.alloc();
    let (place, why) = (12, Why::Range);
    let refusal = Refusal { place, why };
    let (place, why) = (4294967296, FileWhy::Truncated);
    for shown in [
        is_shown(alloc, &refusal, "refused at 12: Range"),
        is_shown(alloc, &Memory, "out of memory"),
        is_shown(alloc, &ParseFault::Refused(refusal), "refused at 12: Range"),
        is_shown(alloc, &ParseFault::Memory, "out of memory"),
        is_shown(
            alloc,
            &FileFault::refused(place, why),
            "refused at 4294967296: Truncated",
        ),
        is_shown(alloc, &FileFault::Read, "a read failed"),
        is_shown(alloc, &FileFault::Memory, "out of memory"),
        // no contract promises the texts of writing
        is_shown(alloc, &EncodeFault::TooLong, "too long"),
        is_shown(alloc, &EncodeFault::Memory, "out of memory"),
        is_shown(alloc, &KeytabFault::Dirty, "a hole is not clean"),
        is_shown(alloc, &KeytabFault::TooLong, "too long"),
        is_shown(alloc, &KeytabFault::Memory, "out of memory"),
        is_shown(alloc, &CcacheFault::TooLong, "too long"),
        is_shown(alloc, &CcacheFault::Memory, "out of memory"),
    ] {
        assert!(rt; shown);
    }
}

/// Returns whether a string with a greater capacity equals another.
fn is_same(alloc: Global, octets: &[u8], others: &[u8]) -> Result<bool, Fail> {
    let mut roomy = Vec::with_capacity(alloc, 16)?;
    roomy.extend_from_slice(octets)?;
    let other = KString::new(others.to_vec(alloc)?);
    Ok(KString::new(roomy) == other)
}

#[test]
fn compares_strings_by_what_they_hold(rt: HostRuntime) -> Result<(), Fail> {
    assert!(rt; is_same(rt.alloc(), b"A", b"A")?);
    assert!(rt; !is_same(rt.alloc(), b"B", b"A")?);
    Ok(())
}
