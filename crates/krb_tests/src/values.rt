//! Messages parsed from octets that were worked out by hand from RFC 4120, appendix A.

use crate::examples::{
    AP_REP, AP_REQ, AS_REP, AS_REQ, FULL_TGS_REP, KRB_CRED, KRB_ERROR, KRB_ERROR_OF_CLIENT,
    KRB_PRIV, KRB_SAFE, TGS_REP, TGS_REQ, TICKET, contents, octets_of,
};
use krb_codec::copy_message;
use krb_der::Profile;
use krb_msg::{Message, view_message};
use krb_values::{ParseFault, parse, parse_in, parse_method_data, parse_ticket, parse_ticket_in};
use std::alloc::Global;
use std::fmt::Debug;
use std::test::Fail;

/// Returns what `Debug` shows of what was parsed, or the text of the fault.
fn shown<T: Debug + Drop>(alloc: Global, answer: Result<T, ParseFault>) -> Result<String, Fail> {
    let text = match answer {
        Ok(value) => format!(in alloc; "{value:?}"),
        Err(fault) => format!(in alloc; "{fault}"),
    };
    Ok(text?)
}

/// A frame of each kind, and what is shown of its message: each field, as it is in the octets.
const MESSAGES: [(&str, &str); 12] = [
    (
        AP_REP,
        "ApRep(ApRep { enc_part: EncryptedData { etype: Int32 { number: 18 }, kvno: None, cipher: Octets { octets: [222, 173, 190, 239] } } })",
    ),
    (
        AP_REQ,
        "ApReq(ApReq { ap_options: Flags { unused: 0, octets: [0, 0, 0, 0] }, ticket: Ticket { realm: KString { octets: [65] }, sname: PrincipalName { name_type: Int32 { number: 2 }, name: Many { values: [KString { octets: [104] }] } }, enc_part: EncryptedData { etype: Int32 { number: 18 }, kvno: None, cipher: Octets { octets: [190, 239] } } }, authenticator: EncryptedData { etype: Int32 { number: 18 }, kvno: None, cipher: Octets { octets: [190, 239] } } })",
    ),
    (
        AS_REP,
        "AsRep(KdcRep { padata: None, crealm: KString { octets: [65] }, cname: PrincipalName { name_type: Int32 { number: 1 }, name: Many { values: [KString { octets: [117] }] } }, ticket: Ticket { realm: KString { octets: [65] }, sname: PrincipalName { name_type: Int32 { number: 2 }, name: Many { values: [KString { octets: [104] }] } }, enc_part: EncryptedData { etype: Int32 { number: 18 }, kvno: None, cipher: Octets { octets: [190, 239] } } }, enc_part: EncryptedData { etype: Int32 { number: 18 }, kvno: None, cipher: Octets { octets: [190, 239] } } })",
    ),
    (
        TGS_REP,
        "TgsRep(KdcRep { padata: None, crealm: KString { octets: [65] }, cname: PrincipalName { name_type: Int32 { number: 1 }, name: Many { values: [KString { octets: [117] }] } }, ticket: Ticket { realm: KString { octets: [65] }, sname: PrincipalName { name_type: Int32 { number: 2 }, name: Many { values: [KString { octets: [104] }] } }, enc_part: EncryptedData { etype: Int32 { number: 18 }, kvno: None, cipher: Octets { octets: [190, 239] } } }, enc_part: EncryptedData { etype: Int32 { number: 18 }, kvno: None, cipher: Octets { octets: [190, 239] } } })",
    ),
    (
        FULL_TGS_REP,
        "TgsRep(KdcRep { padata: Some(Many { values: [PaData { padata_type: Int32 { number: 2 }, padata_value: Octets { octets: [] } }, PaData { padata_type: Int32 { number: 136 }, padata_value: Octets { octets: [1, 2] } }] }), crealm: KString { octets: [69, 88, 65, 77, 80, 76, 69, 46, 67, 79, 77] }, cname: PrincipalName { name_type: Int32 { number: 1 }, name: Many { values: [KString { octets: [97, 108, 105, 99, 101] }, KString { octets: [97, 100, 109, 105, 110] }] } }, ticket: Ticket { realm: KString { octets: [69, 88, 65, 77, 80, 76, 69, 46, 67, 79, 77] }, sname: PrincipalName { name_type: Int32 { number: 2 }, name: Many { values: [KString { octets: [107, 114, 98, 116, 103, 116] }, KString { octets: [69, 88, 65, 77, 80, 76, 69, 46, 67, 79, 77] }] } }, enc_part: EncryptedData { etype: Int32 { number: 18 }, kvno: Some(Wide32 { number: 2 }), cipher: Octets { octets: [192, 255, 238] } } }, enc_part: EncryptedData { etype: Int32 { number: -133 }, kvno: Some(Wide32 { number: 4294967295 }), cipher: Octets { octets: [170] } } })",
    ),
    (
        AS_REQ,
        "AsReq(KdcReq { padata: None, body: KdcReqBody { kdc_options: Flags { unused: 1, octets: [64] }, cname: None, realm: KString { octets: [65] }, sname: None, from: None, till: KerberosTime { octets: [49, 57, 55, 48, 48, 49, 48, 49, 48, 48, 48, 48, 48, 48, 90] }, rtime: None, nonce: Wide32 { number: -1 }, etype: Many { values: [Int32 { number: 18 }] }, addresses: None, enc_authorization_data: None, additional_tickets: None } })",
    ),
    (
        TGS_REQ,
        "TgsReq(KdcReq { padata: None, body: KdcReqBody { kdc_options: Flags { unused: 0, octets: [0, 0, 0, 0] }, cname: None, realm: KString { octets: [65] }, sname: None, from: None, till: KerberosTime { octets: [49, 57, 55, 48, 48, 49, 48, 49, 48, 48, 48, 48, 48, 48, 90] }, rtime: None, nonce: Wide32 { number: 1 }, etype: Many { values: [] }, addresses: None, enc_authorization_data: None, additional_tickets: Some(Many { values: [Ticket { realm: KString { octets: [65] }, sname: PrincipalName { name_type: Int32 { number: 2 }, name: Many { values: [KString { octets: [104] }] } }, enc_part: EncryptedData { etype: Int32 { number: 18 }, kvno: None, cipher: Octets { octets: [190, 239] } } }] }) } })",
    ),
    (
        KRB_SAFE,
        "KrbSafe(KrbSafe { body: KrbSafeBody { user_data: Octets { octets: [202, 254] }, timestamp: None, usec: None, seq_number: Some(Wide32 { number: 1 }), s_address: HostAddress { addr_type: Int32 { number: 2 }, address: Octets { octets: [10, 0, 0, 1] } }, r_address: None }, cksum: Checksum { cksumtype: Int32 { number: 16 }, checksum: Octets { octets: [190, 239] } } })",
    ),
    (
        KRB_PRIV,
        "KrbPriv(KrbPriv { enc_part: EncryptedData { etype: Int32 { number: 18 }, kvno: None, cipher: Octets { octets: [190, 239] } } })",
    ),
    (
        KRB_CRED,
        "KrbCred(KrbCred { tickets: Many { values: [Ticket { realm: KString { octets: [65] }, sname: PrincipalName { name_type: Int32 { number: 2 }, name: Many { values: [KString { octets: [104] }] } }, enc_part: EncryptedData { etype: Int32 { number: 18 }, kvno: None, cipher: Octets { octets: [190, 239] } } }] }, enc_part: EncryptedData { etype: Int32 { number: 18 }, kvno: None, cipher: Octets { octets: [190, 239] } } })",
    ),
    (
        KRB_ERROR,
        "KrbError(KrbError { ctime: None, cusec: None, stime: KerberosTime { octets: [50, 48, 48, 48, 48, 49, 48, 49, 48, 48, 48, 48, 48, 48, 90] }, susec: Micros { number: 0 }, error_code: Int32 { number: 25 }, crealm: None, cname: None, realm: KString { octets: [65] }, sname: PrincipalName { name_type: Int32 { number: 2 }, name: Many { values: [KString { octets: [104] }] } }, e_text: None, e_data: Some(Octets { octets: [48, 11, 48, 9, 161, 3, 2, 1, 2, 162, 2, 4, 0] }) })",
    ),
    (
        KRB_ERROR_OF_CLIENT,
        "KrbError(KrbError { ctime: None, cusec: None, stime: KerberosTime { octets: [50, 48, 48, 48, 48, 49, 48, 49, 48, 48, 48, 48, 48, 48, 90] }, susec: Micros { number: 0 }, error_code: Int32 { number: 25 }, crealm: Some(KString { octets: [67] }), cname: None, realm: KString { octets: [65] }, sname: PrincipalName { name_type: Int32 { number: 2 }, name: Many { values: [KString { octets: [104] }] } }, e_text: None, e_data: Some(Octets { octets: [48, 11, 48, 9, 161, 3, 2, 1, 2, 162, 2, 4, 0] }) })",
    ),
];

/// Returns what is shown of the message of a frame that is parsed by a profile.
fn parsed(alloc: Global, profile: Profile, frame: &str) -> Result<String, Fail> {
    let octets = contents(alloc, frame)?;
    shown(alloc, parse_in(alloc, profile, octets.as_slice()))
}

/// Returns the message that octets are, copied out of a view of them, or `Memory` for other octets.
fn copy_of(alloc: Global, octets: &[u8]) -> Result<Message, ParseFault> {
    match view_message(octets) {
        Some(view) => Ok(copy_message(alloc, &view)?),
        None => Err(ParseFault::Memory),
    }
}

/// Returns what is shown of the message of a frame, copied out of a view of it.
fn copied(alloc: Global, frame: &str) -> Result<String, Fail> {
    let octets = contents(alloc, frame)?;
    shown(alloc, copy_of(alloc, octets.as_slice()))
}

#[test]
fn reads_messages(rt: HostRuntime) -> Result<(), Fail> {
    for (frame, text) in MESSAGES {
        let lenient = parsed(rt.alloc(), Profile::Lenient, frame)?;
        assert_eq!(rt; lenient.as_str(), text);
        let copy = copied(rt.alloc(), frame)?;
        assert_eq!(rt; copy.as_str(), text);
        let strict = parsed(rt.alloc(), Profile::Strict, frame)?;
        assert!(rt; strict.as_str() == text || frame == AS_REQ);
    }
    Ok(())
}

const TICKET_TEXT: &str =
    "Ticket { realm: KString { octets: [65] }, sname: PrincipalName { name_type: Int32 { number: 2 }, name: Many { values: [KString { octets: [104] }] } }, enc_part: EncryptedData { etype: Int32 { number: 18 }, kvno: None, cipher: Octets { octets: [190, 239] } } }";

/// Octets, and what is shown of the Ticket that they are, or why they are not one.
const TICKETS: [(&str, &str); 4] = [
    (TICKET, TICKET_TEXT),
    ("", "refused at 0: Empty"),
    ("6180", "refused at 1: Indefinite"),
    ("3000", "refused at 0: Tag"),
];

/// The same of METHOD-DATA, in which each PA-DATA has the type 2 and is empty.
const METHOD_DATA: [(&str, &str); 3] = [
    ("3000", "[]"),
    (
        "300B3009A103020102A2020400",
        "[PaData { padata_type: Int32 { number: 2 }, padata_value: Octets { octets: [] } }]",
    ),
    ("3100", "refused at 0: Tag"),
];

#[test]
fn reads_a_ticket_and_method_data_alone(rt: HostRuntime) -> Result<(), Fail> {
    let alloc = rt.alloc();
    for (digits, text) in TICKETS {
        let octets = octets_of(alloc, digits)?;
        let octets = octets.as_slice();
        let lenient = shown(alloc, parse_ticket(alloc, octets))?;
        assert_eq!(rt; lenient.as_str(), text);
        let strict = shown(alloc, parse_ticket_in(alloc, Profile::Strict, octets))?;
        assert_eq!(rt; strict.as_str(), text);
    }
    for (digits, text) in METHOD_DATA {
        let octets = octets_of(alloc, digits)?;
        let methods = shown(alloc, parse_method_data(alloc, octets.as_slice()))?;
        assert_eq!(rt; methods.as_str(), text);
    }
    Ok(())
}

/// Returns whether two values were parsed and are equal.
fn are_equal<T: PartialEq + Drop>(
    one: Result<T, ParseFault>,
    other: Result<T, ParseFault>,
) -> bool {
    match (one, other) {
        (Ok(one), Ok(other)) => one == other,
        _ => false,
    }
}

/// Returns whether a message equals the one in which the octet at a place is this one.
fn is_equal(alloc: Global, frame: &str, place: usize, octet: u8) -> Result<bool, Fail> {
    let octets = contents(alloc, frame)?;
    let mut others = octets.as_slice().to_vec(alloc)?;
    *others.as_mut_slice().get_mut(place).ok_or("a place")? = octet;
    let one = parse(alloc, octets.as_slice());
    Ok(are_equal(one, parse(alloc, others.as_slice())))
}

#[test]
fn compares_messages(rt: HostRuntime) -> Result<(), Fail> {
    for (frame, place, octet, same) in [
        (AP_REP, 30, 0xEF, true),
        // octets
        (AP_REP, 30, 0xEE, false),
        (AS_REQ, 23, 0x40, true),
        // flags, and how many there are
        (AS_REQ, 23, 0x00, false),
        (AS_REQ, 22, 0x02, false),
        // a string
        (AS_REQ, 28, b'B', false),
        // a list of numbers
        (AS_REQ, 59, 0x11, false),
    ] {
        assert_eq!(rt; is_equal(rt.alloc(), frame, place, octet)?, same);
    }
    Ok(())
}

#[test]
fn parses_by_the_strict_profile(rt: HostRuntime) -> Result<(), Fail> {
    let strict = parsed(rt.alloc(), Profile::Strict, AS_REQ)?;
    assert_eq!(rt; strict.as_str(), "refused at 21: Size");
    Ok(())
}
