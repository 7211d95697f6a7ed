//! The notes on a message, with their names.
//!
//! No standard has them: they are what is unusual about a message without being a fault.

use crate::row::Row;

/// The rows, in order of number.
#[rattlefmt::skip]
pub static ROWS: [Row; 4] = [
    Row { number: 1, name: "high-octet" },
    Row { number: 2, name: "short-flags" },
    Row { number: 3, name: "negative" },
    Row { number: 4, name: "empty-list" },
];
