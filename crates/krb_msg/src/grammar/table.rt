//! The rows of the grammar. `asn1/generate` wrote this from `asn1/krb5.asn1`.

use crate::grammar::{Form, Node, Slot};

/// The rows of a profile, in their order: the terms of RFC 4120 by their names, and those of fields
/// by what is in the tag and its number.
pub enum Row {
    // basic types, and lists of one type
    Int32,
    Wide32,
    Microseconds,
    KerberosString,
    OctetString,
    KerberosTime,
    KerberosFlags,
    Version,
    AsReqType,
    AsRepType,
    TgsReqType,
    TgsRepType,
    ApReqType,
    ApRepType,
    KrbSafeType,
    KrbPrivType,
    KrbCredType,
    KrbErrorType,
    KerberosStrings,
    Int32s,
    CredTickets,
    HostAddresses,
    Tickets,
    MethodData,
    // PrincipalName
    PrincipalName,
    // HostAddress
    HostAddress,
    // PA-DATA
    PaData,
    // EncryptedData
    EncryptedData,
    // Checksum
    Checksum,
    // Ticket
    Ticket,
    TicketFields,
    // KDC-REQ-BODY
    KdcReqBody,
    // AS-REQ
    AsReq,
    AsReqFields,
    // TGS-REQ
    TgsReq,
    TgsReqFields,
    // AS-REP
    AsRep,
    AsRepFields,
    // TGS-REP
    TgsRep,
    TgsRepFields,
    // AP-REQ
    ApReq,
    ApReqFields,
    // AP-REP
    ApRep,
    ApRepFields,
    // KRB-SAFE-BODY
    KrbSafeBody,
    // KRB-SAFE
    KrbSafe,
    KrbSafeFields,
    // KRB-PRIV
    KrbPriv,
    KrbPrivFields,
    // KRB-CRED
    KrbCred,
    KrbCredFields,
    // KRB-ERROR
    KrbError,
    KrbErrorFields,
    // types in the tags of fields
    Int32At0,
    KerberosStringsAt1,
    OctetStringAt1,
    Int32At1,
    OctetStringAt2,
    Wide32At1,
    VersionAt0,
    KerberosStringAt1,
    PrincipalNameAt2,
    EncryptedDataAt3,
    KerberosFlagsAt0,
    PrincipalNameAt1,
    KerberosStringAt2,
    PrincipalNameAt3,
    KerberosTimeAt4,
    KerberosTimeAt5,
    KerberosTimeAt6,
    Wide32At7,
    Int32sAt8,
    EncryptedDataAt10,
    VersionAt1,
    AsReqTypeAt2,
    KdcReqBodyAt4,
    TgsReqTypeAt2,
    AsRepTypeAt1,
    KerberosStringAt3,
    PrincipalNameAt4,
    TicketAt5,
    EncryptedDataAt6,
    TgsRepTypeAt1,
    ApReqTypeAt1,
    KerberosFlagsAt2,
    TicketAt3,
    EncryptedDataAt4,
    ApRepTypeAt1,
    EncryptedDataAt2,
    OctetStringAt0,
    KerberosTimeAt1,
    MicrosecondsAt2,
    Wide32At3,
    HostAddressAt4,
    HostAddressAt5,
    KrbSafeTypeAt1,
    KrbSafeBodyAt2,
    ChecksumAt3,
    KrbPrivTypeAt1,
    KrbCredTypeAt1,
    CredTicketsAt2,
    KrbErrorTypeAt1,
    KerberosTimeAt2,
    MicrosecondsAt3,
    MicrosecondsAt5,
    Int32At6,
    KerberosStringAt7,
    PrincipalNameAt8,
    KerberosStringAt9,
    PrincipalNameAt10,
    KerberosStringAt11,
    OctetStringAt12,
    HostAddressesAt9,
    TicketsAt11,
    MethodDataAt3,
    MethodDataAt2,
}

/// How many rows a profile has.
pub const ROWS: usize = 116;

/// How many rows the table has.
pub const NODES: usize = 232;

/// A row for each term of the grammar: those of the lenient profile in the order of [`Row`], and
/// then those of the strict one in the same order. That they are, [`rows`](crate::grammar::rows)
/// says.
pub static GRAMMAR: [Node; NODES] = both![
    // basic types, and lists of one type
    (Integer, -2147483648, 2147483647, 4),
    (Unsigned),
    (Integer, 0, 999999, 3),
    (Text),
    (Octets),
    (Time),
    (Bits),
    (Integer, 5, 5, 1),
    (Integer, 10, 10, 1),
    (Integer, 11, 11, 1),
    (Integer, 12, 12, 1),
    (Integer, 13, 13, 1),
    (Integer, 14, 14, 1),
    (Integer, 15, 15, 1),
    (Integer, 20, 20, 1),
    (Integer, 21, 21, 1),
    (Integer, 22, 22, 1),
    (Integer, 30, 30, 1),
    (Items, KerberosString),
    (Items, Int32),
    (Items, Ticket),
    (OptionalItems, HostAddress),
    (OptionalItems, Ticket),
    (OptionalItems, PaData),
    // PrincipalName
    (Sequence, Required Int32At0, Required KerberosStringsAt1),
    // HostAddress
    (Sequence, Required Int32At0, Required OctetStringAt1),
    // PA-DATA
    (Sequence, Required Int32At1, Required OctetStringAt2),
    // EncryptedData
    (Sequence, Required Int32At0, Optional Wide32At1, Required OctetStringAt2),
    // Checksum
    (Sequence, Required Int32At0, Required OctetStringAt1),
    // Ticket
    (Application, 1, TicketFields),
    (Sequence, Required VersionAt0, Required KerberosStringAt1, Required PrincipalNameAt2, Required EncryptedDataAt3),
    // KDC-REQ-BODY
    (Sequence, Required KerberosFlagsAt0, Optional PrincipalNameAt1, Required KerberosStringAt2, Optional PrincipalNameAt3, Optional KerberosTimeAt4, Required KerberosTimeAt5, Optional KerberosTimeAt6, Required Wide32At7, Required Int32sAt8, Optional HostAddressesAt9, Optional EncryptedDataAt10, Optional TicketsAt11),
    // AS-REQ
    (Application, 10, AsReqFields),
    (Sequence, Required VersionAt1, Required AsReqTypeAt2, Optional MethodDataAt3, Required KdcReqBodyAt4),
    // TGS-REQ
    (Application, 12, TgsReqFields),
    (Sequence, Required VersionAt1, Required TgsReqTypeAt2, Optional MethodDataAt3, Required KdcReqBodyAt4),
    // AS-REP
    (Application, 11, AsRepFields),
    (Sequence, Required VersionAt0, Required AsRepTypeAt1, Optional MethodDataAt2, Required KerberosStringAt3, Required PrincipalNameAt4, Required TicketAt5, Required EncryptedDataAt6),
    // TGS-REP
    (Application, 13, TgsRepFields),
    (Sequence, Required VersionAt0, Required TgsRepTypeAt1, Optional MethodDataAt2, Required KerberosStringAt3, Required PrincipalNameAt4, Required TicketAt5, Required EncryptedDataAt6),
    // AP-REQ
    (Application, 14, ApReqFields),
    (Sequence, Required VersionAt0, Required ApReqTypeAt1, Required KerberosFlagsAt2, Required TicketAt3, Required EncryptedDataAt4),
    // AP-REP
    (Application, 15, ApRepFields),
    (Sequence, Required VersionAt0, Required ApRepTypeAt1, Required EncryptedDataAt2),
    // KRB-SAFE-BODY
    (Sequence, Required OctetStringAt0, Optional KerberosTimeAt1, Optional MicrosecondsAt2, Optional Wide32At3, Required HostAddressAt4, Optional HostAddressAt5),
    // KRB-SAFE
    (Application, 20, KrbSafeFields),
    (Sequence, Required VersionAt0, Required KrbSafeTypeAt1, Required KrbSafeBodyAt2, Required ChecksumAt3),
    // KRB-PRIV
    (Application, 21, KrbPrivFields),
    (Sequence, Required VersionAt0, Required KrbPrivTypeAt1, Required EncryptedDataAt3),
    // KRB-CRED
    (Application, 22, KrbCredFields),
    (Sequence, Required VersionAt0, Required KrbCredTypeAt1, Required CredTicketsAt2, Required EncryptedDataAt3),
    // KRB-ERROR
    (Application, 30, KrbErrorFields),
    (Sequence, Required VersionAt0, Required KrbErrorTypeAt1, Optional KerberosTimeAt2, Optional MicrosecondsAt3, Required KerberosTimeAt4, Required MicrosecondsAt5, Required Int32At6, Optional KerberosStringAt7, Optional PrincipalNameAt8, Required KerberosStringAt9, Required PrincipalNameAt10, Optional KerberosStringAt11, Optional OctetStringAt12),
    // types in the tags of fields
    (Tagged, 0, Int32),
    (Tagged, 1, KerberosStrings),
    (Tagged, 1, OctetString),
    (Tagged, 1, Int32),
    (Tagged, 2, OctetString),
    (Tagged, 1, Wide32),
    (Tagged, 0, Version),
    (Tagged, 1, KerberosString),
    (Tagged, 2, PrincipalName),
    (Tagged, 3, EncryptedData),
    (Tagged, 0, KerberosFlags),
    (Tagged, 1, PrincipalName),
    (Tagged, 2, KerberosString),
    (Tagged, 3, PrincipalName),
    (Tagged, 4, KerberosTime),
    (Tagged, 5, KerberosTime),
    (Tagged, 6, KerberosTime),
    (Tagged, 7, Wide32),
    (Tagged, 8, Int32s),
    (Tagged, 10, EncryptedData),
    (Tagged, 1, Version),
    (Tagged, 2, AsReqType),
    (Tagged, 4, KdcReqBody),
    (Tagged, 2, TgsReqType),
    (Tagged, 1, AsRepType),
    (Tagged, 3, KerberosString),
    (Tagged, 4, PrincipalName),
    (Tagged, 5, Ticket),
    (Tagged, 6, EncryptedData),
    (Tagged, 1, TgsRepType),
    (Tagged, 1, ApReqType),
    (Tagged, 2, KerberosFlags),
    (Tagged, 3, Ticket),
    (Tagged, 4, EncryptedData),
    (Tagged, 1, ApRepType),
    (Tagged, 2, EncryptedData),
    (Tagged, 0, OctetString),
    (Tagged, 1, KerberosTime),
    (Tagged, 2, Microseconds),
    (Tagged, 3, Wide32),
    (Tagged, 4, HostAddress),
    (Tagged, 5, HostAddress),
    (Tagged, 1, KrbSafeType),
    (Tagged, 2, KrbSafeBody),
    (Tagged, 3, Checksum),
    (Tagged, 1, KrbPrivType),
    (Tagged, 1, KrbCredType),
    (Tagged, 2, CredTickets),
    (Tagged, 1, KrbErrorType),
    (Tagged, 2, KerberosTime),
    (Tagged, 3, Microseconds),
    (Tagged, 5, Microseconds),
    (Tagged, 6, Int32),
    (Tagged, 7, KerberosString),
    (Tagged, 8, PrincipalName),
    (Tagged, 9, KerberosString),
    (Tagged, 10, PrincipalName),
    (Tagged, 11, KerberosString),
    (Tagged, 12, OctetString),
    (Tagged, 9, HostAddresses),
    (Tagged, 11, Tickets),
    (Tagged, 3, MethodData),
    (Tagged, 2, MethodData),
];

macro_rules! messages {
    ($profile:ident) => {
        [
            row!($profile, AsReq),
            row!($profile, AsRep),
            row!($profile, TgsReq),
            row!($profile, TgsRep),
            row!($profile, ApReq),
            row!($profile, ApRep),
            row!($profile, KrbSafe),
            row!($profile, KrbPriv),
            row!($profile, KrbCred),
            row!($profile, KrbError),
        ]
    };
}

/// The messages of the lenient profile.
pub static LENIENT: [u16; 10] = messages!(Lenient);

/// The messages of the strict profile.
pub static STRICT: [u16; 10] = messages!(Strict);
