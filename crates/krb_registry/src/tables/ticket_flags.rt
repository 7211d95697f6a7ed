//! The flags of a ticket, by the numbers of their bits, with their names.
//!
//! RFC 4120, 5.3, and 15 (RFC 6806, 11) and 16 (RFC 8062, 3).

use crate::row::Row;

/// The rows, in order of number.
#[rattlefmt::skip]
pub static ROWS: [Row; 15] = [
    Row { number: 1, name: "forwardable" },
    Row { number: 2, name: "forwarded" },
    Row { number: 3, name: "proxiable" },
    Row { number: 4, name: "proxy" },
    Row { number: 5, name: "may-postdate" },
    Row { number: 6, name: "postdated" },
    Row { number: 7, name: "invalid" },
    Row { number: 8, name: "renewable" },
    Row { number: 9, name: "initial" },
    Row { number: 10, name: "pre-authent" },
    Row { number: 11, name: "hw-authent" },
    Row { number: 12, name: "transited-policy-checked" },
    Row { number: 13, name: "ok-as-delegate" },
    Row { number: 15, name: "enc-pa-rep" },
    Row { number: 16, name: "anonymous" },
];
