//! Laws of what is printed: that each record is one line, and that no key and no cipher is shown.
//! Each is the contract of a function that does nothing. No library stands on this one.
#![tactic(auto)]

pub mod list;
pub mod text;
