//! The checksum types, with their names.
//!
//! IANA, "Kerberos Checksum Type Numbers" (RFC 3961, 8; RFC 3962; RFC 4121, 4.1.1; RFC 6803; RFC
//! 8009), and -138 (RFC 4757).

use crate::row::Row;

/// The rows, in order of number.
#[rattlefmt::skip]
pub static ROWS: [Row; 21] = [
    Row { number: -138, name: "hmac-md5" },
    Row { number: 1, name: "crc32" },
    Row { number: 2, name: "rsa-md4" },
    Row { number: 3, name: "rsa-md4-des" },
    Row { number: 4, name: "des-mac" },
    Row { number: 5, name: "des-mac-k" },
    Row { number: 6, name: "rsa-md4-des-k" },
    Row { number: 7, name: "rsa-md5" },
    Row { number: 8, name: "rsa-md5-des" },
    Row { number: 9, name: "rsa-md5-des3" },
    Row { number: 10, name: "sha1" },
    Row { number: 12, name: "hmac-sha1-des3-kd" },
    Row { number: 13, name: "hmac-sha1-des3" },
    Row { number: 14, name: "sha1" },
    Row { number: 15, name: "hmac-sha1-96-aes128" },
    Row { number: 16, name: "hmac-sha1-96-aes256" },
    Row { number: 17, name: "cmac-camellia128" },
    Row { number: 18, name: "cmac-camellia256" },
    Row { number: 19, name: "hmac-sha256-128-aes128" },
    Row { number: 20, name: "hmac-sha384-192-aes256" },
    Row { number: 32771, name: "gss-checksum" },
];
