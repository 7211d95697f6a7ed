//! What scanners answer to octets, one at a time and in pieces of some sizes.

ghost use Rattle.std.specs.Prelude.{◌<◌, ◌^◌, length};

use krb_der::Profile;
use krb_scan::{Scanner, Verdict};
use std::alloc::Global;

/// Scans octets one after another until something is decided; returns whether memory did not run
/// out.
pub(crate) fn step_all(scanner: &mut Scanner, octets: &[u8]) -> bool {
    for octet in octets {
        if let Verdict::Open = scanner.verdict() {
            if scanner.step(*octet).is_err() {
                return false;
            }
        }
    }
    true
}

/// Returns whether two scanners have the same marks from a number on.
fn mark_the_same(scanner: &Scanner, other: &Scanner, from: usize) -> bool {
    let (marks, others) = (scanner.marks(), other.marks());
    for (mark, same) in marks.iter().zip(others).skip(from) {
        if (mark.node, mark.start, mark.len, mark.value)
            != (same.node, same.start, same.len, same.value)
        {
            return false;
        }
    }
    marks.len() == others.len()
}

/// Returns whether two scanners answer the same, have as many marks, and the same last mark.
fn tell_the_same(scanner: &Scanner, other: &Scanner) -> bool {
    let last = scanner.marks().len().saturating_sub(1);
    mark_the_same(scanner, other, last)
        && scanner.verdict() == other.verdict()
        && scanner.looked() == other.looked()
        && scanner.open_lengths() == other.open_lengths()
}

/// Returns whether a scanner of a message of `n` octets decided something, and did so with the last
/// octet that it scanned.
fn has_decided(scanner: &Scanner, n: u32) -> bool {
    match scanner.verdict() {
        Verdict::Open => false,
        Verdict::Whole => scanner.looked() == n,
        Verdict::Refused(refusal) => scanner.looked().checked_sub(1) == Some(refusal.place),
    }
}

/// Returns whether a scanner of pieces of octets answers after each piece what one answers that
/// scans them one after another. Returns false if out of memory.
fn take_alike(scanner: &mut Scanner, stepping: &mut Scanner, octets: &[u8], size: usize) -> bool
    requires { 0 < size }
{
    for piece in octets.chunks(size) {
        if let Verdict::Open = scanner.verdict() {
            if scanner.take(piece).verdict.is_err() {
                return false;
            }
        }
        if !step_all(stepping, piece) || !tell_the_same(scanner, stepping) {
            return false;
        }
    }
    mark_the_same(scanner, stepping, 0)
}

/// Returns what scanners of a profile answer to octets, whatever the pieces are. Returns `None` if
/// out of memory, or if one does not answer the same after each piece as one that scans octet by
/// octet.
pub(crate) fn scanned(alloc: Global, profile: Profile, octets: &[u8]) -> Option<Verdict>
    requires some { 0 < length octets.now }
    requires short { length octets.now < 2 ^ 31 }
{
    let n = octets.len() as u32;
    let mut verdict = None;
    for size in [1, 2, 3, 7, octets.len()] {
        let mut scanner = Scanner::with_profile(alloc, profile, n);
        let mut stepping = Scanner::with_profile(alloc, profile, n);
        let alike = take_alike(&mut scanner, &mut stepping, octets, size);
        if !alike || !has_decided(&scanner, n) {
            return None;
        }
        if verdict.is_some() && verdict != Some(scanner.verdict()) {
            return None;
        }
        verdict = Some(scanner.verdict());
    }
    verdict
}
