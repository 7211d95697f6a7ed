//! Messages as JSON, and lines of JSON as messages. The JSON was worked out from the rules of
//! `docs/JSON.md`, by hand, of octets of `examples`.

use crate::examples::{
    AP_REP, AP_REQ, AS_REP, AS_REQ, KRB_CRED, KRB_ERROR, KRB_PRIV, KRB_SAFE, TGS_REP, TGS_REQ,
    contents, octets_of,
};
use krb_der::{Memory, Profile};
use krb_json::{LineFault, Scratch, put_text, read_line, unencrypted_path};
use std::alloc::Global;
use std::test::Fail;

/// A frame of each kind, and the JSON of its message.
const LINES: [(&str, &str); 10] = [
    (
        AP_REP,
        "{\"AP-REP\":{\"pvno\":5,\"msg-type\":15,\"enc-part\":{\"etype\":18,\"cipher\":\"deadbeef\"}}}",
    ),
    (
        AP_REQ,
        "{\"AP-REQ\":{\"pvno\":5,\"msg-type\":14,\"ap-options\":{\"value\":\"00000000\",\"length\":32},\"ticket\":{\"tkt-vno\":5,\"realm\":\"A\",\"sname\":{\"name-type\":2,\"name-string\":[\"h\"]},\"enc-part\":{\"etype\":18,\"cipher\":\"beef\"}},\"authenticator\":{\"etype\":18,\"cipher\":\"beef\"}}}",
    ),
    (
        AS_REP,
        "{\"AS-REP\":{\"pvno\":5,\"msg-type\":11,\"crealm\":\"A\",\"cname\":{\"name-type\":1,\"name-string\":[\"u\"]},\"ticket\":{\"tkt-vno\":5,\"realm\":\"A\",\"sname\":{\"name-type\":2,\"name-string\":[\"h\"]},\"enc-part\":{\"etype\":18,\"cipher\":\"beef\"}},\"enc-part\":{\"etype\":18,\"cipher\":\"beef\"}}}",
    ),
    (
        TGS_REP,
        "{\"TGS-REP\":{\"pvno\":5,\"msg-type\":13,\"crealm\":\"A\",\"cname\":{\"name-type\":1,\"name-string\":[\"u\"]},\"ticket\":{\"tkt-vno\":5,\"realm\":\"A\",\"sname\":{\"name-type\":2,\"name-string\":[\"h\"]},\"enc-part\":{\"etype\":18,\"cipher\":\"beef\"}},\"enc-part\":{\"etype\":18,\"cipher\":\"beef\"}}}",
    ),
    (
        AS_REQ,
        "{\"AS-REQ\":{\"pvno\":5,\"msg-type\":10,\"req-body\":{\"kdc-options\":{\"value\":\"40\",\"length\":7},\"realm\":\"A\",\"till\":\"19700101000000Z\",\"nonce\":-1,\"etype\":[18]}}}",
    ),
    (
        TGS_REQ,
        "{\"TGS-REQ\":{\"pvno\":5,\"msg-type\":12,\"req-body\":{\"kdc-options\":{\"value\":\"00000000\",\"length\":32},\"realm\":\"A\",\"till\":\"19700101000000Z\",\"nonce\":1,\"etype\":[],\"additional-tickets\":[{\"tkt-vno\":5,\"realm\":\"A\",\"sname\":{\"name-type\":2,\"name-string\":[\"h\"]},\"enc-part\":{\"etype\":18,\"cipher\":\"beef\"}}]}}}",
    ),
    (
        KRB_SAFE,
        "{\"KRB-SAFE\":{\"pvno\":5,\"msg-type\":20,\"safe-body\":{\"user-data\":\"cafe\",\"seq-number\":1,\"s-address\":{\"addr-type\":2,\"address\":\"0a000001\"}},\"cksum\":{\"cksumtype\":16,\"checksum\":\"beef\"}}}",
    ),
    (
        KRB_PRIV,
        "{\"KRB-PRIV\":{\"pvno\":5,\"msg-type\":21,\"enc-part\":{\"etype\":18,\"cipher\":\"beef\"}}}",
    ),
    (
        KRB_CRED,
        "{\"KRB-CRED\":{\"pvno\":5,\"msg-type\":22,\"tickets\":[{\"tkt-vno\":5,\"realm\":\"A\",\"sname\":{\"name-type\":2,\"name-string\":[\"h\"]},\"enc-part\":{\"etype\":18,\"cipher\":\"beef\"}}],\"enc-part\":{\"etype\":18,\"cipher\":\"beef\"}}}",
    ),
    (
        KRB_ERROR,
        "{\"KRB-ERROR\":{\"pvno\":5,\"msg-type\":30,\"stime\":\"20000101000000Z\",\"susec\":0,\"error-code\":25,\"realm\":\"A\",\"sname\":{\"name-type\":2,\"name-string\":[\"h\"]},\"e-data\":\"300b3009a103020102a2020400\"}}",
    ),
];

/// Returns the JSON of a message after a bracket.
fn put_after_bracket(alloc: Global, octets: &[u8]) -> Result<Vec<u8>, Memory> {
    if octets.len() >= 0x8000_0000 {
        return Err(Memory);
    }
    let mut text = Vec::new(alloc);
    text.push(b'[')?;
    put_text(alloc, text, octets)
}

/// Returns the octets of the message that a line spells by a profile.
fn read(alloc: Global, profile: Profile, line: &str) -> Result<Vec<u8>, LineFault> {
    let mut scratch = Scratch::new(alloc);
    read_line(alloc, &mut scratch, profile, 1000, line.as_bytes())
}

/// Returns whether a text is a bracket and then a line.
fn is_after_bracket(text: &[u8], line: &str) -> bool {
    text.get(1..) == Some(line.as_bytes())
}

#[test]
fn messages_are_json_and_come_back(rt: HostRuntime) -> Result<(), Fail> {
    let alloc = rt.alloc();
    for (frame, line) in LINES {
        let octets = contents(alloc, frame)?;
        let text = put_after_bracket(alloc, octets.as_slice())?;
        assert!(rt; is_after_bracket(text.as_slice(), line));
        let back = read(alloc, Profile::Lenient, line);
        assert_eq!(rt; back.ok(), Some(octets));
    }
    Ok(())
}

/// Lines that spell an AP-REP in another way, and its octets.
const OTHER_LINES: [(&str, &str); 2] = [
    (
        "{\"AP-REP\":{\"pvno\":5,\"msg-type\":15,\"enc-part\":{\"cipher\":\"DEADBEEF\",\"etype\":-0}}}",
        "6F1D301BA003020105A10302010FA20F300DA003020100A2060404DEADBEEF",
    ),
    (
        "\t{ \"\\u0041P-REP\" : {\"enc-part\":{\"cipher\":\"deadBEEF\",\"etype\":18},\"msg-type\":15 , \"pvno\":5}}\r",
        "6F1D301BA003020105A10302010FA20F300DA003020112A2060404DEADBEEF",
    ),
];

#[test]
fn lines_are_read_whatever_their_form(rt: HostRuntime) -> Result<(), Fail> {
    for (line, digits) in OTHER_LINES {
        let octets = octets_of(rt.alloc(), digits)?;
        assert_eq!(rt; read(rt.alloc(), Profile::Lenient, line).ok(), Some(octets));
    }
    Ok(())
}

/// Lines that spell no message, and why.
const FAULTS: [(&str, &str); 19] = [
    ("", "not JSON; each line is a whole object"),
    ("{", "not JSON; each line is a whole object"),
    ("[]", "not an object whose one member is a message"),
    (
        "{\"ap-rep\":{}}",
        "not an object whose one member is a message",
    ),
    ("{\"AP-REP\":5}", "AP-REP: not an object"),
    ("{\"AP-REP\":{\"pvno\":4}}", "AP-REP.pvno: not 5"),
    (
        "{\"AP-REP\":{\"pvno\":5,\"msg-type\":15,\"enc-part\":{\"etype\":18}}}",
        "AP-REP.enc-part.cipher: missing",
    ),
    (
        "{\"AP-REP\":{\"pvno\":5,\"msg-type\":15,\"enc-part\":{\"etype\":18,\"cipher\":\"dead beef\"}}}",
        "AP-REP.enc-part.cipher: not hexadecimal",
    ),
    (
        "{\"AP-REP\":{\"pvno\":5,\"msg-type\":15,\"enc-part\":{\"etype\":18.0,\"cipher\":\"\",\"kvno\":null}}}",
        "AP-REP.enc-part.etype: not an integer",
    ),
    (
        "{\"AP-REP\":{\"pvno\":5,\"msg-type\":15,\"enc-part\":{\"etype\":\"18\",\"cipher\":1,\"Cipher\":2}}}",
        "AP-REP.enc-part.Cipher: no such field",
    ),
    (
        "{\"AP-REP\":{\"pvno\":5,\"msg-type\":15,\"enc-part\":{\"etype\":18,\"cipher\":\"\",\"etype\":18}}}",
        "AP-REP.enc-part.etype: twice",
    ),
    (
        "{\"AP-REP\":{\"pvno\":5,\"msg-type\":15,\"enc-part\":{\"etype\":2147483648,\"cipher\":\"\"}}}",
        "AP-REP.enc-part.etype: not -2147483648 to 2147483647",
    ),
    (
        "{\"AS-REQ\":{\"pvno\":5,\"msg-type\":10,\"req-body\":{\"kdc-options\":{\"value\":\"40\",\"length\":9},\"realm\":\"A\",\"till\":\"19700101000000Z\",\"nonce\":-1,\"etype\":[18]}}}",
        "AS-REQ.req-body.kdc-options.length: not 1 to 8",
    ),
    (
        "{\"AS-REQ\":{\"pvno\":5,\"msg-type\":10,\"req-body\":{\"kdc-options\":{\"value\":\"41\",\"length\":7},\"realm\":\"A\",\"till\":\"19700101000000Z\",\"nonce\":-1,\"etype\":[18]}}}",
        "AS-REQ.req-body.kdc-options.value: a bit past the length is set",
    ),
    (
        "{\"AS-REQ\":{\"pvno\":5,\"msg-type\":10,\"req-body\":{\"kdc-options\":{\"value\":\"40\",\"length\":7},\"realm\":\"A\",\"till\":\"19700101000000Z\",\"nonce\":-1,\"etype\":[18,null]}}}",
        "AS-REQ.req-body.etype[1]: not a number",
    ),
    (
        "{\"AS-REQ\":{\"pvno\":5,\"msg-type\":10,\"req-body\":{\"kdc-options\":{\"value\":\"40\",\"length\":7},\"realm\":\"A\",\"till\":\"19700101000000Z\",\"nonce\":-1,\"etype\":{}}}}",
        "AS-REQ.req-body.etype: not an array",
    ),
    (
        "{\"KRB-ERROR\":{\"pvno\":5,\"msg-type\":30,\"stime\":\"20000101000000Z\",\"susec\":0,\"error-code\":25,\"realm\":\"\\\\\",\"sname\":{\"name-type\":2,\"name-string\":[\"h\"]},\"e-data\":\"300b3009a103020102a2020400\"}}",
        "KRB-ERROR.realm: \\ without x and two hexadecimal digits",
    ),
    (
        "{\"KRB-ERROR\":{\"pvno\":5,\"msg-type\":30,\"stime\":\"20000101000000Z\",\"susec\":0,\"error-code\":25,\"realm\":[\"A\"],\"sname\":{\"name-type\":2,\"name-string\":[\"h\"]},\"e-data\":\"300b3009a103020102a2020400\"}}",
        "KRB-ERROR.realm: not a string",
    ),
    (
        "{\"KRB-ERROR\":{\"pvno\":5,\"msg-type\":30,\"stime\":\"2000-01-01T00:00:00Z\",\"susec\":0,\"error-code\":25,\"realm\":\"A\",\"sname\":{\"name-type\":2,\"name-string\":[\"h\"]},\"e-data\":\"300b3009a103020102a2020400\"}}",
        "KRB-ERROR.stime: not a time",
    ),
];

/// Lines that spell no message of the strict profile, and why.
const STRICT_FAULTS: [(&str, &str); 4] = [
    (
        "{\"AS-REQ\":{\"pvno\":5,\"msg-type\":10,\"req-body\":{\"kdc-options\":{\"value\":\"40\",\"length\":7},\"realm\":\"A\",\"till\":\"19700101000000Z\",\"nonce\":-1,\"etype\":[18]}}}",
        "AS-REQ.req-body.kdc-options: fewer than 32 bits",
    ),
    (
        "{\"TGS-REQ\":{\"pvno\":5,\"msg-type\":12,\"req-body\":{\"kdc-options\":{\"value\":\"00000000\",\"length\":32},\"realm\":\"A\",\"till\":\"19700101000000Z\",\"nonce\":1,\"etype\":[],\"additional-tickets\":[]}}}",
        "TGS-REQ.req-body.additional-tickets: empty",
    ),
    (
        "{\"AS-REP\":{\"pvno\":5,\"msg-type\":11,\"crealm\":\"\\\\x80\",\"cname\":{\"name-type\":1,\"name-string\":[\"u\"]},\"ticket\":{\"tkt-vno\":5,\"realm\":\"A\",\"sname\":{\"name-type\":2,\"name-string\":[\"h\"]},\"enc-part\":{\"etype\":18,\"cipher\":\"beef\"}},\"enc-part\":{\"etype\":18,\"cipher\":\"beef\"}}}",
        "AS-REP.crealm: an octet above 7f",
    ),
    (
        "{\"KRB-SAFE\":{\"pvno\":5,\"msg-type\":20,\"safe-body\":{\"user-data\":\"cafe\",\"seq-number\":-1,\"s-address\":{\"addr-type\":2,\"address\":\"0a000001\"}},\"cksum\":{\"cksumtype\":16,\"checksum\":\"beef\"}}}",
        "KRB-SAFE.safe-body.seq-number: not 0 to 4294967295",
    ),
];

/// Returns why a line spells no message of a profile, in words, or nothing if it spells one.
fn fault(alloc: Global, profile: Profile, limit: u32, line: &str) -> Result<String, Fail> {
    if limit > 1000 {
        return Ok(String::new(alloc));
    }
    let mut scratch = Scratch::new(alloc);
    match read_line(alloc, &mut scratch, profile, limit, line.as_bytes()) {
        Ok(_) => Ok(String::new(alloc)),
        Err(fault) => Ok(format!(in alloc; "{fault}")?),
    }
}

#[test]
fn faults_of_lines_are_told(rt: HostRuntime) -> Result<(), Fail> {
    let alloc = rt.alloc();
    for (line, text) in FAULTS {
        assert_eq!(rt; fault(alloc, Profile::Lenient, 1000, line)?.as_str(), text);
    }
    for (line, text) in STRICT_FAULTS {
        assert_eq!(rt; fault(alloc, Profile::Lenient, 1000, line)?.as_str(), "");
        assert_eq!(rt; fault(alloc, Profile::Strict, 1000, line)?.as_str(), text);
    }
    let [(_, line), ..] = LINES;
    assert_eq!(rt; fault(alloc, Profile::Lenient, 31, line)?.as_str(), "");
    assert_eq!(rt;
        fault(alloc, Profile::Lenient, 30, line)?.as_str(),
        "AP-REP: longer than 30 octets"
    );
    Ok(())
}

/// Messages, and the path of what is not encrypted in each.
const UNENCRYPTED: [(&str, &str); 3] = [
    (
        "6F1D301BA003020105A10302010FA20F300DA003020100A2060404DEADBEEF",
        "AP-REP.enc-part",
    ),
    (
        "764C304AA003020105A103020116A22F302D612B3029A003020105A1031B0141A20E300CA003020102A10530031B0168A30D300BA003020112A2040402BEEFA30D300BA003020100A2040402BEEF",
        "KRB-CRED.enc-part",
    ),
    (
        "764C304AA003020105A103020116A22F302D612B3029A003020105A1031B0141A20E300CA003020102A10530031B0168A30D300BA003020100A2040402BEEFA30D300BA003020100A2040402BEEF",
        "KRB-CRED.tickets[0].enc-part",
    ),
];

/// Returns the path of what is not encrypted in a message, or nothing.
fn path_in(alloc: Global, octets: &[u8]) -> Result<String, Memory> {
    if octets.len() >= 0x8000_0000 {
        return Err(Memory);
    }
    match unencrypted_path(alloc, octets)? {
        Some(path) => Ok(path),
        None => Ok(String::new(alloc)),
    }
}

#[test]
fn what_is_not_encrypted_is_found(rt: HostRuntime) -> Result<(), Fail> {
    let alloc = rt.alloc();
    for (digits, path) in UNENCRYPTED {
        let octets = octets_of(alloc, digits)?;
        assert_eq!(rt; path_in(alloc, octets.as_slice())?.as_str(), path);
    }
    for (frame, _) in LINES {
        let octets = contents(alloc, frame)?;
        assert_eq!(rt; path_in(alloc, octets.as_slice())?.as_str(), "");
    }
    Ok(())
}
