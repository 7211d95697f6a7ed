//! The options of an AS-REQ and a TGS-REQ, by the numbers of their bits, with their names.
//!
//! RFC 4120, 5.4.1, and 14 (MS-SFU), 15 (RFC 6806, 3) and 16 (RFC 8062, 3).

use crate::row::Row;

/// The rows, in order of number.
#[rattlefmt::skip]
pub static ROWS: [Row; 16] = [
    Row { number: 1, name: "forwardable" },
    Row { number: 2, name: "forwarded" },
    Row { number: 3, name: "proxiable" },
    Row { number: 4, name: "proxy" },
    Row { number: 5, name: "allow-postdate" },
    Row { number: 6, name: "postdated" },
    Row { number: 8, name: "renewable" },
    Row { number: 11, name: "opt-hardware-auth" },
    Row { number: 14, name: "cname-in-addl-tkt" },
    Row { number: 15, name: "canonicalize" },
    Row { number: 16, name: "request-anonymous" },
    Row { number: 26, name: "disable-transited-check" },
    Row { number: 27, name: "renewable-ok" },
    Row { number: 28, name: "enc-tkt-in-skey" },
    Row { number: 30, name: "renew" },
    Row { number: 31, name: "validate" },
];
