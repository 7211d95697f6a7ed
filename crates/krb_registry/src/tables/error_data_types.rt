//! The types of KERB-ERROR-DATA, with their names.
//!
//! MS-KILE, 2.2.2.

use crate::row::Row;

/// The rows, in order of number.
#[rattlefmt::skip]
pub static ROWS: [Row; 2] = [
    Row { number: 2, name: "KERB_AP_ERR_TYPE_SKEW_RECOVERY" },
    Row { number: 3, name: "KERB_ERR_TYPE_EXTENDED" },
];
