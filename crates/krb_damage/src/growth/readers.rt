//! Readers of files, which say that they are out of memory again, and caches that are returned.

use super::Outcome;
use super::octets::{CACHE, CACHE3, KEYTAB};
use crate::files::next_of;
use krb_ccache::{Cache3, Credentials};
use krb_file::{FileFault, Limit};
use krb_files::ccache::{read3, upgrade};
use krb_keytab::{Next, Records, Stop};
use std::alloc::Global;

/// Returns how a call ended with a fault, `after` being the next answer of the same reader, if that
/// is a fault.
pub(super) fn faulted(fault: FileFault, after: Option<FileFault>) -> Outcome {
    match (fault, after) {
        (FileFault::Memory, Some(FileFault::Memory)) => Outcome::Memory,
        _ => Outcome::Wrong,
    }
}

/// Reads the two records of a keytab.
pub(super) fn records(alloc: Global) -> Outcome {
    let Some(limit) = Limit::new(64) else {
        return Outcome::Wrong;
    };
    let mut records = Records::new(KEYTAB, limit);
    for count in 0..3 {
        match records.next_record(alloc) {
            Ok(Next::Item(_)) => {}
            Ok(Next::Done(Stop::Zero)) if count == 2 => return Outcome::Done,
            Ok(Next::Done(_)) => return Outcome::Wrong,
            Err(fault) => return faulted(fault, records.next_record(alloc).err()),
        }
    }
    Outcome::Wrong
}

/// Reads the credentials of a cache of two.
fn both_credentials(alloc: Global, credentials: &mut Credentials<&[u8]>) -> Outcome {
    for count in 0..3 {
        match next_of(alloc, credentials) {
            Ok(Some(_)) => {}
            Ok(None) if count == 2 => return Outcome::Done,
            Ok(None) => return Outcome::Wrong,
            Err(fault) => return faulted(fault, next_of(alloc, credentials).err()),
        }
    }
    Outcome::Wrong
}

/// Reads the two credentials of a cache.
pub(super) fn credentials(alloc: Global) -> Outcome {
    let Some(limit) = Limit::new(64) else {
        return Outcome::Wrong;
    };
    match Credentials::start(alloc, CACHE, limit) {
        Ok(mut credentials) => {
            let outcome = both_credentials(alloc, &mut credentials);
            drop(credentials);
            outcome
        }
        Err(fault) => faulted(fault, Some(fault)),
    }
}

/// Upgrades a cache of version 3, and again if it was returned because memory ran out.
fn upgraded(alloc: Global, cache: Cache3) -> Outcome {
    let (upgraded, outcome) = match upgrade(alloc, cache) {
        Ok(upgraded) => (upgraded, Outcome::Done),
        Err(same) => match upgrade(alloc, same) {
            Ok(upgraded) => (upgraded, Outcome::Memory),
            Err(_) => return Outcome::Refused,
        },
    };
    if upgraded.credentials.as_slice().len() == 1 {
        outcome
    } else {
        Outcome::Wrong
    }
}

/// Reads a cache of version 3 and upgrades it.
pub(super) fn upgrades(alloc: Global) -> Outcome {
    for outcome in [Outcome::Done, Outcome::Memory] {
        if let Ok(cache) = read3(alloc, CACHE3) {
            return match (outcome, upgraded(alloc, cache)) {
                (Outcome::Done, upgraded) => upgraded,
                (_, Outcome::Done) => outcome,
                _ => Outcome::Wrong,
            };
        }
    }
    Outcome::Refused
}
