//! The encryption types, with their names.
//!
//! IANA, "Kerberos Encryption Type Numbers" (RFC 3961, 8; RFC 3962; RFC 4556; RFC 4757; RFC 6803;
//! RFC 8009).

use crate::row::Row;

/// The rows, in order of number.
#[rattlefmt::skip]
pub static ROWS: [Row; 22] = [
    Row { number: 1, name: "des-cbc-crc" },
    Row { number: 2, name: "des-cbc-md4" },
    Row { number: 3, name: "des-cbc-md5" },
    Row { number: 5, name: "des3-cbc-md5" },
    Row { number: 7, name: "des3-cbc-sha1" },
    Row { number: 9, name: "dsaWithSHA1-CmsOID" },
    Row { number: 10, name: "md5WithRSAEncryption-CmsOID" },
    Row { number: 11, name: "sha1WithRSAEncryption-CmsOID" },
    Row { number: 12, name: "rc2CBC-EnvOID" },
    Row { number: 13, name: "rsaEncryption-EnvOID" },
    Row { number: 14, name: "rsaES-OAEP-ENV-OID" },
    Row { number: 15, name: "des-ede3-cbc-Env-OID" },
    Row { number: 16, name: "des3-cbc-sha1-kd" },
    Row { number: 17, name: "aes128-cts-hmac-sha1-96" },
    Row { number: 18, name: "aes256-cts-hmac-sha1-96" },
    Row { number: 19, name: "aes128-cts-hmac-sha256-128" },
    Row { number: 20, name: "aes256-cts-hmac-sha384-192" },
    Row { number: 23, name: "rc4-hmac" },
    Row { number: 24, name: "rc4-hmac-exp" },
    Row { number: 25, name: "camellia128-cts-cmac" },
    Row { number: 26, name: "camellia256-cts-cmac" },
    Row { number: 65, name: "subkey-keymaterial" },
];
