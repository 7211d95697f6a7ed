//! The data of errors viewed as the types that they are: octets that were made by hand from RFC 4120,
//! 5.9.1, and MS-KILE, 2.2.1 and 2.2.2.

use crate::examples::octets_of;
use krb_msg::{next_item, view_whole};
use krb_padata::{KerbErrorData, TypedData, TypedDataItem, view_kerb_ext_error};
use std::test::Fail;

/// The lowest octet of each number is first.
#[test]
fn views_an_extended_error(rt: HostRuntime) -> Result<(), Fail> {
    let octets = octets_of(rt.alloc(), "720000C00500000003010000")?;
    let error = view_kerb_ext_error(octets.as_slice()).ok_or("twelve octets")?;
    assert_eq!(rt;
        (error.status, error.reserved, error.flags),
        (0xC000_0072, 5, 0x103)
    );
    for digits in ["", "720000C000000000010000", "720000C0000000000100000000"] {
        let octets = octets_of(rt.alloc(), digits)?;
        assert!(rt; view_kerb_ext_error(octets.as_slice()).is_none());
    }
    Ok(())
}

#[test]
fn views_typed_data(rt: HostRuntime) -> Result<(), Fail> {
    let octets = octets_of(rt.alloc(), "3013300AA00302016DA1030401783005A003020103")?;
    if octets.len() > 100 {
        return Err(Fail::from("too many octets"));
    }
    let items = view_whole::<TypedData>(octets.as_slice()).ok_or("TYPED-DATA")?;
    let (first, others) = next_item::<TypedDataItem>(items).ok_or("an item")?;
    assert_eq!(rt;
        (first.data_type, first.data_value),
        (109, Some(b"x".as_slice()))
    );
    let (second, others) = next_item::<TypedDataItem>(others).ok_or("another item")?;
    assert_eq!(rt; (second.data_type, second.data_value), (3, None));
    assert!(rt; next_item::<TypedDataItem>(others).is_none());
    assert!(rt; view_whole::<KerbErrorData>(octets.as_slice()).is_none());
    Ok(())
}

#[test]
fn views_kerb_error_data(rt: HostRuntime) -> Result<(), Fail> {
    let octets = octets_of(rt.alloc(), "3009A103020102A2020400")?;
    if octets.len() > 100 {
        return Err(Fail::from("too many octets"));
    }
    let seen = view_whole::<KerbErrorData>(octets.as_slice()).ok_or("KERB-ERROR-DATA")?;
    assert_eq!(rt;
        (seen.data_type, seen.data_value),
        (2, Some(b"".as_slice()))
    );
    assert!(rt; view_whole::<TypedData>(octets.as_slice()).is_none());
    Ok(())
}
