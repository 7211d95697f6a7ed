//! The types of the names of principals, with their names.
//!
//! RFC 4120, 6.2, and 11 (RFC 6111, 3), 12 (RFC 5179) and -128 to -130 (MS-KILE).

use crate::row::Row;

/// The rows, in order of number.
#[rattlefmt::skip]
pub static ROWS: [Row; 14] = [
    Row { number: -130, name: "NT-ENT-PRINCIPAL-AND-ID" },
    Row { number: -129, name: "NT-MS-PRINCIPAL-AND-ID" },
    Row { number: -128, name: "NT-MS-PRINCIPAL" },
    Row { number: 0, name: "NT-UNKNOWN" },
    Row { number: 1, name: "NT-PRINCIPAL" },
    Row { number: 2, name: "NT-SRV-INST" },
    Row { number: 3, name: "NT-SRV-HST" },
    Row { number: 4, name: "NT-SRV-XHST" },
    Row { number: 5, name: "NT-UID" },
    Row { number: 6, name: "NT-X500-PRINCIPAL" },
    Row { number: 7, name: "NT-SMTP-NAME" },
    Row { number: 10, name: "NT-ENTERPRISE" },
    Row { number: 11, name: "NT-WELLKNOWN" },
    Row { number: 12, name: "NT-SRV-HST-DOMAIN" },
];
