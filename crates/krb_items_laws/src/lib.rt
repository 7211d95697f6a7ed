//! Laws of items: that they are all of the octets, and that each record of them is one line. Each is the
//! contract of a function that does nothing. No library stands on this one.
#![tactic(auto)]

pub mod fronts;
pub mod items;
pub mod masked;
