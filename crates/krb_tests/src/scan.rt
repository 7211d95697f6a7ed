//! Messages that are scanned octet by octet. What is expected was worked out by hand from RFC 4120,
//! appendix A. `krb_damage` tests how a scanner uses pieces.

ghost use Rattle.std.specs.Prelude.{◌<◌, ◌^◌};

use crate::examples::{
    AP_REP, AP_REQ, AS_REP, AS_REQ, KRB_CRED, KRB_ERROR, KRB_PRIV, KRB_SAFE, TGS_REP, TGS_REQ,
    contents,
};
use krb_codec::encode;
use krb_der::{Memory, Profile};
use krb_scan::{Machine, Refusal, Scanner, Verdict, Why};
use krb_values::build;
use std::alloc::Global;
use std::test::Fail;

/// Scans octets up to the one that decides, those inside strings by `run` if `runs` is true.
/// Returns false if out of memory.
fn take(scanner: &mut Scanner, octets: &[u8], runs: bool) -> bool {
    let mut passed = 0;
    for (place, octet) in octets.iter().enumerate() {
        if passed > 0 {
            passed -= 1;
        } else if let Verdict::Open = scanner.verdict() {
            let count = if runs {
                scanner.run(&octets[place..])
            } else {
                0
            };
            if count > 0 {
                passed = count - 1;
            } else if scanner.step(*octet).is_err() {
                return false;
            }
        }
    }
    true
}

/// Where the contents of each item of the AP-REP begin, how many octets they are, and its number.
const AP_REP_MARKS: [(u32, u32, i64); 12] = [
    (2, 29, 0),
    (4, 27, 0),
    (6, 3, 0),
    (8, 1, 5),
    (11, 3, 0),
    (13, 1, 15),
    (16, 15, 0),
    (18, 13, 0),
    (20, 3, 0),
    (22, 1, 18),
    (25, 6, 0),
    (27, 4, 0),
];

/// Returns whether the marks are those of the AP-REP.
fn has_marks(scanner: &Scanner) -> bool {
    for (at, wanted) in AP_REP_MARKS.iter().enumerate() {
        match scanner.marks().get(at) {
            Some(mark) if (mark.start, mark.len, mark.value) == *wanted => {}
            _ => return false,
        }
    }
    scanner.marks().len() == AP_REP_MARKS.len()
}

/// Returns whether octets are scanned as a whole message, with the marks of the AP-REP if they are
/// `marked`.
fn is_whole(alloc: Global, octets: &[u8], runs: bool, marked: bool) -> bool {
    let n = octets.len();
    if n == 0 || n >= 1 << 31 {
        return false;
    }
    let mut scanner = Scanner::new(alloc, n as u32);
    take(&mut scanner, octets, runs)
        && scanner.verdict() == Verdict::Whole
        && (!marked || has_marks(&scanner))
}

/// Returns whether a machine takes octets as a whole message, all at once.
fn is_taken(octets: &[u8]) -> bool {
    let n = octets.len();
    if n == 0 || n >= 1 << 31 {
        return false;
    }
    let mut machine = Machine::new(Profile::Lenient, n as u32);
    machine.clear(n as u32);
    (machine.profile(), machine.take(octets)) == (Profile::Lenient, n)
        && machine.verdict() == Verdict::Whole
        && (machine.looked(), machine.open_lengths()) == (n as u32, 0)
}

/// Returns whether the message that is built of octets has these octets.
fn is_built(alloc: Global, octets: &[u8]) -> Result<bool, Memory> {
    let n = octets.len();
    if n == 0 || n >= 1 << 31 {
        return Ok(false);
    }
    let mut scanner = Scanner::new(alloc, n as u32);
    let Verdict::Whole = scanner.take(octets).verdict? else {
        return Ok(false);
    };
    let message = build(alloc, scanner.marks(), octets)?;
    let is_same = match encode(alloc, &message) {
        Ok(encoded) => encoded.as_slice() == octets,
        Err(_) => false,
    };
    drop(message);
    Ok(is_same)
}

#[test]
fn takes_messages_and_marks_each_item(rt: HostRuntime) -> Result<(), Fail> {
    let alloc = rt.alloc();
    for (frame, marked) in [
        (AP_REP, true),
        (AP_REQ, false),
        (AS_REP, false),
        (AS_REQ, false),
        (TGS_REP, false),
        (TGS_REQ, false),
        (KRB_SAFE, false),
        (KRB_PRIV, false),
        (KRB_CRED, false),
        (KRB_ERROR, false),
    ] {
        let octets = contents(alloc, frame)?;
        let octets = octets.as_slice();
        assert!(rt; is_whole(alloc, octets, true, marked), "{frame}");
        assert!(rt; is_whole(alloc, octets, false, marked), "{frame}");
        assert!(rt; is_taken(octets), "{frame}");
        assert!(rt; is_built(alloc, octets)?, "{frame}");
    }
    Ok(())
}

/// Returns the number of the last mark.
fn last_number(scanner: &Scanner) -> Option<i64> {
    match scanner.marks().last() {
        Some(mark) => Some(mark.value),
        None => None,
    }
}

/// Returns whether a scanner of a message of `n` octets refuses one of these and then has this many
/// marks, the last with the number 0, and four open lengths.
fn is_refused(alloc: Global, n: u32, octets: &[u8], refusal: Refusal, marks: usize) -> bool
    requires some { 0 < n }
    requires short { n < 2 ^ 31 }
{
    let mut scanner = Scanner::new(alloc, n);
    take(&mut scanner, octets, false)
        && scanner.verdict() == Verdict::Refused(refusal)
        && (scanner.looked(), scanner.open_lengths()) == (refusal.place.saturating_add(1), 4)
        && scanner.marks().len() == marks
        && last_number(&scanner) == Some(0)
}

#[test]
fn keeps_what_came_before_a_refusal(rt: HostRuntime) {
    let wrong_version = b"\x6F\x1D\x30\x1B\xA0\x03\x02\x01\x04\xA1";
    let (place, why) = (8, Why::Range);
    assert!(rt; is_refused(rt.alloc(), 31, wrong_version, Refusal { place, why }, 4));
    let missing_part = b"\x6F\x0C\x30\x0A\xA0\x03\x02\x01\x05\xA1\x03\x02\x01\x0F\0";
    let (place, why) = (13, Why::Missing);
    assert!(rt; is_refused(rt.alloc(), 14, missing_part, Refusal { place, why }, 6));
}

/// Returns whether a scanner that scanned all of an AP-REP but its cipher scans three octets of
/// that at once and no more after that, and goes on with another message.
fn goes_on(scanner: &mut Scanner, cipher: &[u8]) -> bool {
    if (scanner.run(cipher), scanner.run(cipher), scanner.looked()) != (3, 0, 30) {
        return false;
    }
    scanner.clear(2);
    (scanner.looked(), scanner.marks().len()) == (0, 0)
        && scanner.verdict() == Verdict::Open
        && scanner.reserve(100).is_ok()
}

#[test]
fn goes_on_with_another_message(rt: HostRuntime) -> Result<(), Fail> {
    let octets = contents(rt.alloc(), AP_REP)?;
    let front = octets.as_slice().get(..27).ok_or("a front")?;
    let cipher = octets.as_slice().get(27..).ok_or("a cipher")?;
    let mut scanner = Scanner::new(rt.alloc(), 31);
    assert!(rt; take(&mut scanner, front, false) && goes_on(&mut scanner, cipher));
    Ok(())
}
