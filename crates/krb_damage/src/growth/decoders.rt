//! Decoders and scanners of octets as they come.

use super::Outcome;
use super::octets::{AP_REP, message_of};
use krb_der::{Memory, Profile};
use krb_frame::{Decoder, Limit, Status};
use krb_scan::{Scanner, Verdict};
use std::alloc::Global;

/// Feeds an AP-REP in pieces, and the rest again if memory ran out once.
fn fed(decoder: &mut Decoder, at_most: usize) -> Outcome {
    let mut rest = AP_REP;
    let mut outcome = Outcome::Done;
    // each turn uses an octet or is out of memory, once
    for _ in 0..=AP_REP.len() {
        let fed = decoder.feed(rest.get(..at_most).unwrap_or(rest));
        rest = rest.get(fed.used..).unwrap_or(&[]);
        match fed.status {
            Status::More if !rest.is_empty() => {}
            Status::Ready if rest.is_empty() => return outcome,
            Status::Memory if outcome == Outcome::Done => outcome = Outcome::Memory,
            Status::Memory => return Outcome::Refused,
            _ => return Outcome::Wrong,
        }
    }
    Outcome::Wrong
}

/// Feeds a frame, clears it, and feeds another.
pub(super) fn fed_twice(decoder: &mut Decoder, at_most: usize) -> Outcome {
    let first = fed(decoder, at_most);
    if first == Outcome::Refused {
        return first;
    }
    let is_lent = match decoder.ready() {
        Some(frame) => frame.octets() == message_of(AP_REP),
        None => false,
    };
    if !is_lent || !decoder.next() {
        return Outcome::Wrong;
    }
    match (first, fed(decoder, at_most)) {
        (Outcome::Done, second) => second,
        (first, Outcome::Done) => first,
        _ => Outcome::Wrong,
    }
}

/// Feeds two frames of 31 octets to a decoder with memory for one, which never runs out of memory.
pub(super) fn reserved_feeds(
    alloc: Global,
    profile: Profile,
    at_most: usize,
) -> Result<bool, Memory> {
    let mut decoder = reserved(alloc, profile, 31)?;
    Ok(fed_twice(&mut decoder, at_most) == Outcome::Done)
}

/// Returns a decoder with memory for any frame of a limit.
fn reserved(alloc: Global, profile: Profile, limit: u32) -> Result<Decoder, Memory> {
    let limit = Limit::new(limit).unwrap_or(Limit::DEFAULT);
    match profile {
        Profile::Lenient => Decoder::reserved(alloc, limit),
        Profile::Strict => Decoder::reserved_with_profile(alloc, limit, Profile::Strict),
    }
}

/// Returns whether a decoder with memory for any frame of a limit answers this for octets.
pub(super) fn reserved_answers(
    alloc: Global,
    limit: u32,
    octets: &[u8],
    status: Status,
) -> Result<bool, Memory> {
    let mut decoder = reserved(alloc, Profile::Lenient, limit)?;
    Ok(decoder.feed(octets).status == status)
}

/// Scans an octet, and again if memory ran out: then nothing may have changed.
fn stepped(scanner: &mut Scanner, octet: u8) -> Outcome {
    let (looked, marks) = (scanner.looked(), scanner.marks().len());
    for outcome in [Outcome::Done, Outcome::Memory] {
        let Verdict::Open = scanner.verdict() else {
            return Outcome::Wrong;
        };
        if scanner.step(octet).is_ok() {
            return outcome;
        }
        if scanner.looked() != looked || scanner.marks().len() != marks {
            return Outcome::Wrong;
        }
    }
    Outcome::Refused
}

/// Scans the octets of an AP-REP one after another.
pub(super) fn stepped_over(scanner: &mut Scanner) -> Outcome {
    let mut outcome = Outcome::Done;
    for octet in message_of(AP_REP) {
        match stepped(scanner, *octet) {
            Outcome::Done => {}
            Outcome::Memory if outcome == Outcome::Done => outcome = Outcome::Memory,
            other => return other,
        }
    }
    if scanner.verdict() == Verdict::Whole && scanner.marks().len() == 12 {
        outcome
    } else {
        Outcome::Wrong
    }
}

/// Reserves memory for the marks of a message, and again if memory ran out: then nothing may have
/// changed. After that no octet runs out of memory.
pub(super) fn reserves(alloc: Global) -> Outcome {
    let mut scanner = Scanner::new(alloc, 31);
    for outcome in [Outcome::Done, Outcome::Memory] {
        let is_reserved = scanner.reserve(15).is_ok();
        if scanner.looked() != 0 || !scanner.marks().is_empty() {
            return Outcome::Wrong;
        }
        if is_reserved {
            let stepped = stepped_over(&mut scanner);
            return if stepped == Outcome::Done {
                outcome
            } else {
                Outcome::Wrong
            };
        }
    }
    Outcome::Refused
}
