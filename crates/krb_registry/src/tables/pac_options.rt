//! The options of PA-PAC-OPTIONS, by the numbers of their bits, with their names.
//!
//! MS-KILE, 2.2.10.

use crate::row::Row;

/// The rows, in order of number.
#[rattlefmt::skip]
pub static ROWS: [Row; 4] = [
    Row { number: 0, name: "claims" },
    Row { number: 1, name: "branch-aware" },
    Row { number: 2, name: "forward-to-full-dc" },
    Row { number: 3, name: "resource-based-constrained-delegation" },
];
