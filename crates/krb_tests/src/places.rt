//! Where refusals of files are: of real files that are cut, and of a block with a wrong length.

use crate::examples::octets_of;
use krb_ccache::Credentials;
use krb_file::{FileFault, FileWhy, Limit};
use krb_keytab::Records;
use krb_packet::Packets;
use std::alloc::Global;
use std::test::Fail;

/// The first octets of a keytab of MIT krb5.
const KEYTAB: &str =
    "05020000005B0002000B434F525055532E544553540004686F7374000F7376632E636F727075732E";

/// The first octets of a cache of Heimdal.
const CACHE: &str =
    "050400000000000B00000002000000094845494D2E544553540000000957454C4C4B4E4F574E00000009414E4F4E594D4F55530000000B00000002000000094845494D2E544553540000000957454C4C4B4E4F574E00000009414E4F4E594D4F55530000000200000002000000094845494D2E5445535400";

/// A section header, and the type and the length of a block that has ten octets.
const SHORT_BLOCK: &str =
    "0A0D0D0A1C0000004D3C2B1A01000000FFFFFFFFFFFFFFFF1C000000060000000A000000";

/// What reads a file, with the greatest length of a field of octets.
#[derive(Clone, Copy)]
enum File {
    Keytab(u32),
    Cache(u32),
    Capture,
}

/// Returns the fault of the first record of a file, or of what is before it.
fn fault_of(alloc: Global, file: &File, octets: &[u8]) -> Result<Option<FileFault>, Fail> {
    match file {
        File::Keytab(limit) => {
            let limit = Limit::new(*limit).ok_or("a limit")?;
            Ok(Records::new(octets, limit).next_record(alloc).err())
        }
        File::Cache(limit) => {
            let limit = Limit::new(*limit).ok_or("a limit")?;
            match Credentials::start(alloc, octets, limit) {
                Ok(mut credentials) => Ok(credentials.next_credential(alloc).err()),
                Err(fault) => Ok(Some(fault)),
            }
        }
        File::Capture => Ok(Packets::new(octets).next_packet(alloc).err()),
    }
}

/// Returns where a file is refused, why, and where the part begins that the field at fault is in.
fn place_of(alloc: Global, file: &File, digits: &str) -> Result<(u64, FileWhy, u64), Fail> {
    let octets = octets_of(alloc, digits)?;
    match fault_of(alloc, file, octets.as_slice())? {
        Some(FileFault::Refused(refusal)) => Ok((refusal.place, refusal.why, refusal.begin)),
        _ => Err(Fail::from("not refused")),
    }
}

#[test]
fn refusals_tell_where_their_part_begins(rt: HostRuntime) -> Result<(), Fail> {
    for (file, digits, wanted) in [
        (File::Keytab(16777216), KEYTAB, (29, FileWhy::Truncated, 2)),
        (File::Keytab(10), KEYTAB, (10, FileWhy::TooLong(11), 2)),
        (File::Keytab(16777216), "0503", (1, FileWhy::Version, 1)),
        (File::Cache(16777216), CACHE, (119, FileWhy::Truncated, 51)),
        (File::Cache(8), CACHE, (16, FileWhy::TooLong(9), 4)),
        (
            File::Capture,
            SHORT_BLOCK,
            (32, FileWhy::WrongLength(10), 28),
        ),
    ] {
        assert_eq!(rt; place_of(rt.alloc(), &file, digits)?, wanted, "{digits}");
    }
    Ok(())
}
