//! Laws of what is told of the events of a capture: how many sendings are kept, which packets are
//! named, and on what it depends. Each is the contract of a function that does nothing. No library
//! stands on this one.
#![tactic(auto)]

pub mod told;
