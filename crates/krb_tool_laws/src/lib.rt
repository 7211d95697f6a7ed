//! Laws of the runs over a reader and a writer: that conversions come back, what listings do not
//! show, and that each of their lines is one. Each is the contract of a function that does nothing.
//! No crate stands on this one.
#![tactic(auto)]

pub mod listings;
pub mod runs;
