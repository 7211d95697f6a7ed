//! The types of addresses, with their names.
//!
//! RFC 4120, 7.5.3, with `-` for each blank in a name.

use crate::row::Row;

/// The rows, in order of number.
#[rattlefmt::skip]
pub static ROWS: [Row; 9] = [
    Row { number: 2, name: "IPv4" },
    Row { number: 3, name: "directional" },
    Row { number: 5, name: "ChaosNet" },
    Row { number: 6, name: "XNS" },
    Row { number: 7, name: "ISO" },
    Row { number: 12, name: "DECNET-Phase-IV" },
    Row { number: 16, name: "AppleTalk-DDP" },
    Row { number: 20, name: "NetBios" },
    Row { number: 24, name: "IPv6" },
];
