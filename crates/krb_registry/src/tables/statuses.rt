//! The statuses of Windows, NTSTATUS, that a KDC tells in an extended error, with their names.
//!
//! MS-ERREF, 2.3.1.

use crate::row::Row;

/// The rows, in order of number.
#[rattlefmt::skip]
pub static ROWS: [Row; 27] = [
    Row { number: 0xC0000022, name: "STATUS_ACCESS_DENIED" },
    Row { number: 0xC000005E, name: "STATUS_NO_LOGON_SERVERS" },
    Row { number: 0xC0000064, name: "STATUS_NO_SUCH_USER" },
    Row { number: 0xC000006A, name: "STATUS_WRONG_PASSWORD" },
    Row { number: 0xC000006C, name: "STATUS_PASSWORD_RESTRICTION" },
    Row { number: 0xC000006D, name: "STATUS_LOGON_FAILURE" },
    Row { number: 0xC000006E, name: "STATUS_ACCOUNT_RESTRICTION" },
    Row { number: 0xC000006F, name: "STATUS_INVALID_LOGON_HOURS" },
    Row { number: 0xC0000070, name: "STATUS_INVALID_WORKSTATION" },
    Row { number: 0xC0000071, name: "STATUS_PASSWORD_EXPIRED" },
    Row { number: 0xC0000072, name: "STATUS_ACCOUNT_DISABLED" },
    Row { number: 0xC00000BB, name: "STATUS_NOT_SUPPORTED" },
    Row { number: 0xC00000E5, name: "STATUS_INTERNAL_ERROR" },
    Row { number: 0xC0000133, name: "STATUS_TIME_DIFFERENCE_AT_DC" },
    Row { number: 0xC000015B, name: "STATUS_LOGON_TYPE_NOT_GRANTED" },
    Row { number: 0xC000018B, name: "STATUS_NO_TRUST_SAM_ACCOUNT" },
    Row { number: 0xC0000193, name: "STATUS_ACCOUNT_EXPIRED" },
    Row { number: 0xC0000199, name: "STATUS_NOLOGON_WORKSTATION_TRUST_ACCOUNT" },
    Row { number: 0xC0000224, name: "STATUS_PASSWORD_MUST_CHANGE" },
    Row { number: 0xC0000225, name: "STATUS_NOT_FOUND" },
    Row { number: 0xC0000234, name: "STATUS_ACCOUNT_LOCKED_OUT" },
    Row { number: 0xC0000272, name: "STATUS_NO_MATCH" },
    Row { number: 0xC00002FA, name: "STATUS_SMARTCARD_LOGON_REQUIRED" },
    Row { number: 0xC0000320, name: "STATUS_PKINIT_FAILURE" },
    Row { number: 0xC0000388, name: "STATUS_DOWNGRADE_DETECTED" },
    Row { number: 0xC000040B, name: "STATUS_CROSSREALM_DELEGATION_FAILURE" },
    Row { number: 0xC0000413, name: "STATUS_AUTHENTICATION_FIREWALL_FAILED" },
];
