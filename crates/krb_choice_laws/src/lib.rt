//! Laws of choosing: that what is written of a marked record is what the choice has of the record, and
//! that each row is a line of printable cells, which say what the object of the record says. Each is the
//! contract of a function that does nothing. No library stands on this one.
#![tactic(auto)]

pub mod chosen;
