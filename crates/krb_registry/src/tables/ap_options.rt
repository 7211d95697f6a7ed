//! The options of an AP-REQ, by the numbers of their bits, with their names.
//!
//! RFC 4120, 5.5.1.

use crate::row::Row;

/// The rows, in order of number.
#[rattlefmt::skip]
pub static ROWS: [Row; 2] = [
    Row { number: 1, name: "use-session-key" },
    Row { number: 2, name: "mutual-required" },
];
