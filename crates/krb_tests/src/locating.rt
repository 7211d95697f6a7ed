//! Paths of fields at fault, worked out by hand from RFC 4120, appendix A.

use crate::examples::octets_of;
use krb_judge::{Profile, path};
use std::alloc::Global;
use std::test::Fail;

/// How many octets a message has, those that are there, and the path, or `-` if there is none.
const PATHS: [(u16, &str, &str); 5] = [
    (31, "30", "-"),
    (31, "6F1D301BA003020104", "AP-REP.pvno"),
    (14, "6F0C300AA003020105A10302010F", "AP-REP.enc-part"),
    (31, "6F1D301BA003020105A10302010F", "AP-REP"),
    (
        63,
        "6A3D303BA103020105A20302010AA42F302DA00403020140A2031B0141A511180F31393730303130313030303030305AA7030201FFA8083006020112020211",
        "AS-REQ.req-body.etype[1]",
    ),
];

/// What is shown of a path.
fn shown(alloc: Global, n: u16, octets: &[u8]) -> Result<String, Fail> {
    let present = octets.len().min(usize::from(n));
    let text = match path(alloc, Profile::Lenient, u32::from(n), &octets[..present])? {
        None => format!(in alloc; "-"),
        Some(path) => Ok(path),
    };
    Ok(text?)
}

#[test]
fn tells_the_field_at_fault(rt: HostRuntime) -> Result<(), Fail> {
    let alloc = rt.alloc();
    for (n, digits, expected) in PATHS {
        let octets = octets_of(alloc, digits)?;
        let path = shown(alloc, n, octets.as_slice())?;
        assert_eq!(rt; path.as_str(), expected);
    }
    Ok(())
}
