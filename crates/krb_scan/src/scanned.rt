//! What taking octets came to.

use krb_der::{Memory, Verdict};

/// How many octets of a slice were scanned, and what is decided with them; or that there was no
/// memory for the mark of an item whose length ends with the octet after them, which is not
/// scanned.
#[derive(Clone, Copy)]
pub struct Scanned {
    /// The number of octets that were scanned.
    pub used: usize,
    /// What the octets scanned so far decide.
    pub verdict: Result<Verdict, Memory>,
}
