//! Names of numbers, as IANA's "Kerberos Parameters" and the RFCs have them.

use krb_registry::Registry::{
    AddressTypes, ApOptions, ChecksumTypes, EncryptionTypes, ErrorCodes, ErrorDataTypes,
    KdcOptions, NameTypes, Notes, PacOptions, PreAuthenticationData, Statuses, TicketFlags,
};
use krb_registry::{Registry, name_of, rows};

/// Numbers of registries, and the names that they have.
const NAMES: [(Registry, i64, Option<&str>); 45] = [
    (EncryptionTypes, 18, Some("aes256-cts-hmac-sha1-96")),
    (EncryptionTypes, 20, Some("aes256-cts-hmac-sha384-192")),
    (EncryptionTypes, 23, Some("rc4-hmac")),
    (EncryptionTypes, 0, None),
    (EncryptionTypes, 8, None),
    (EncryptionTypes, -133, None),
    (ChecksumTypes, -138, Some("hmac-md5")),
    (ChecksumTypes, 15, Some("hmac-sha1-96-aes128")),
    (ChecksumTypes, 11, None),
    (ChecksumTypes, 138, None),
    (ChecksumTypes, 32771, Some("gss-checksum")),
    (PreAuthenticationData, 2, Some("PA-ENC-TIMESTAMP")),
    (PreAuthenticationData, 4, None),
    (PreAuthenticationData, 136, Some("PA-FX-FAST")),
    (PreAuthenticationData, 167, Some("PA-PAC-OPTIONS")),
    (ErrorCodes, 0, Some("KDC_ERR_NONE")),
    (ErrorCodes, 25, Some("KDC_ERR_PREAUTH_REQUIRED")),
    (ErrorCodes, 30, None),
    (ErrorCodes, 37, Some("KRB_AP_ERR_SKEW")),
    (ErrorCodes, 62, Some("KDC_ERR_CLIENT_NOT_TRUSTED")),
    (ErrorCodes, 101, None),
    (ErrorDataTypes, 1, None),
    (ErrorDataTypes, 3, Some("KERB_ERR_TYPE_EXTENDED")),
    (Statuses, 0xC000_0072, Some("STATUS_ACCOUNT_DISABLED")),
    (Statuses, 0xC000_0073, None),
    (Statuses, -0x3FFF_FF8E, None),
    (KdcOptions, 0, None),
    (KdcOptions, 8, Some("renewable")),
    (KdcOptions, 31, Some("validate")),
    (ApOptions, 2, Some("mutual-required")),
    (ApOptions, 3, None),
    (PacOptions, 3, Some("resource-based-constrained-delegation")),
    (PacOptions, 4, None),
    (TicketFlags, 9, Some("initial")),
    (TicketFlags, 14, None),
    (TicketFlags, 16, Some("anonymous")),
    (NameTypes, -128, Some("NT-MS-PRINCIPAL")),
    (NameTypes, 2, Some("NT-SRV-INST")),
    (NameTypes, 8, None),
    (AddressTypes, 2, Some("IPv4")),
    (AddressTypes, 24, Some("IPv6")),
    (Notes, 4, Some("empty-list")),
    (Notes, 5, None),
    (Notes, i64::MIN, None),
    (Notes, i64::MAX, None),
];

#[test]
fn names_numbers(rt: HostRuntime) {
    for (registry, number, name) in NAMES {
        assert_eq!(rt; name_of(registry, number), name, "{number}");
    }
}

#[test]
fn has_the_rows_of_a_registry(rt: HostRuntime) {
    for row in rows(ApOptions) {
        assert_eq!(rt; name_of(ApOptions, row.number), Some(row.name));
    }
    for (registry, count) in [(ApOptions, 2), (TicketFlags, 15), (ErrorCodes, 78)] {
        assert_eq!(rt; rows(registry).len(), count);
    }
}
