//! Where rows lie among those of their registry, by number, so that most are found without a search.
//!
//! No answer rests on these tables: a row is taken only if it has the number, and is searched for if
//! it is not where they say. `tests/run/places` sees that they are right.

use crate::registry::Registry;

/// In the tables below, a number without a name.
const NONE: u8 = 255;

/// Those of the encryption types.
#[rattlefmt::skip]
static ENCRYPTION_TYPES: [u8; 66] = [
    NONE, 0, 1, 2, NONE, 3, NONE, 4, NONE, 5, 6, 7,
    8, 9, 10, 11, 12, 13, 14, 15, 16, NONE, NONE, 17,
    18, 19, 20, NONE, NONE, NONE, NONE, NONE, NONE, NONE, NONE, NONE,
    NONE, NONE, NONE, NONE, NONE, NONE, NONE, NONE, NONE, NONE, NONE, NONE,
    NONE, NONE, NONE, NONE, NONE, NONE, NONE, NONE, NONE, NONE, NONE, NONE,
    NONE, NONE, NONE, NONE, NONE, 21,
];

/// Those of the checksum types.
#[rattlefmt::skip]
static CHECKSUM_TYPES: [u8; 21] = [
    NONE, 1, 2, 3, 4, 5, 6, 7, 8, 9, 10, NONE,
    11, 12, 13, 14, 15, 16, 17, 18, 19,
];

/// Those of the types of pre-authentication data.
#[rattlefmt::skip]
static PRE_AUTHENTICATION_DATA: [u8; 168] = [
    NONE, 0, 1, 2, NONE, 3, 4, 5, 6, 7, 8, 9,
    10, 11, 12, 13, 14, 15, 16, 17, 18, 19, 20, 21,
    22, 23, NONE, NONE, NONE, NONE, 24, 25, NONE, NONE, NONE, NONE,
    NONE, NONE, NONE, NONE, NONE, 26, NONE, NONE, NONE, NONE, NONE, NONE,
    NONE, NONE, NONE, NONE, NONE, NONE, NONE, NONE, NONE, NONE, NONE, NONE,
    NONE, NONE, NONE, NONE, NONE, NONE, NONE, NONE, NONE, NONE, NONE, NONE,
    NONE, NONE, NONE, NONE, NONE, NONE, NONE, NONE, NONE, NONE, NONE, NONE,
    NONE, NONE, NONE, NONE, NONE, NONE, NONE, NONE, NONE, NONE, NONE, NONE,
    NONE, NONE, NONE, NONE, NONE, 27, 28, 29, 30, 31, 32, 33,
    34, 35, NONE, 36, 37, NONE, NONE, NONE, NONE, NONE, NONE, NONE,
    NONE, NONE, NONE, NONE, NONE, NONE, NONE, NONE, 38, 39, 40, 41,
    42, 43, 44, 45, 46, 47, 48, NONE, NONE, 49, 50, 51,
    52, 53, 54, 55, 56, 57, 58, 59, 60, 61, NONE, NONE,
    NONE, NONE, NONE, NONE, NONE, 62, 63, NONE, NONE, 64, 65, 66,
];

/// Those of the error codes.
#[rattlefmt::skip]
static ERROR_CODES: [u8; 101] = [
    0, 1, 2, 3, 4, 5, 6, 7, 8, 9, 10, 11,
    12, 13, 14, 15, 16, 17, 18, 19, 20, 21, 22, 23,
    24, 25, 26, 27, 28, 29, NONE, 30, 31, 32, 33, 34,
    35, 36, 37, 38, 39, 40, 41, NONE, 42, 43, 44, 45,
    46, 47, 48, 49, 50, NONE, NONE, NONE, NONE, NONE, NONE, NONE,
    51, 52, 53, 54, 55, 56, 57, 58, 59, 60, 61, 62,
    63, 64, 65, 66, 67, 68, 69, 70, 71, 72, NONE, NONE,
    NONE, NONE, NONE, NONE, NONE, NONE, 73, 74, 75, 76, NONE, NONE,
    NONE, NONE, NONE, NONE, 77,
];

/// Those of the types of names.
#[rattlefmt::skip]
static NAME_TYPES: [u8; 13] = [
    3, 4, 5, 6, 7, 8, 9, 10, NONE, NONE, 11, 12,
    13,
];

/// Those of the types of addresses.
#[rattlefmt::skip]
static ADDRESS_TYPES: [u8; 25] = [
    NONE, NONE, 0, 1, NONE, 2, 3, 4, NONE, NONE, NONE, NONE,
    5, NONE, NONE, NONE, 6, NONE, NONE, NONE, 7, NONE, NONE, NONE,
    8,
];

/// Those of the notes.
#[rattlefmt::skip]
static NOTES: [u8; 5] = [
    NONE, 0, 1, 2, 3,
];

/// Returns where the rows of a registry are looked for, by number from 0 on.
#[inline(always)]
fn places(registry: Registry) -> &'static [u8] {
    match registry {
        Registry::EncryptionTypes => &ENCRYPTION_TYPES,
        Registry::ChecksumTypes => &CHECKSUM_TYPES,
        Registry::PreAuthenticationData => &PRE_AUTHENTICATION_DATA,
        Registry::ErrorCodes => &ERROR_CODES,
        Registry::NameTypes => &NAME_TYPES,
        Registry::AddressTypes => &ADDRESS_TYPES,
        Registry::Notes => &NOTES,
        Registry::ErrorDataTypes
        | Registry::Statuses
        | Registry::KdcOptions
        | Registry::ApOptions
        | Registry::PacOptions
        | Registry::ContextFlags
        | Registry::TicketFlags => &[],
    }
}

/// Returns the place at which the row of a number is looked for before it is searched for.
#[inline(always)]
pub(crate) fn place_of(registry: Registry, number: i64) -> usize {
    let places = places(registry);
    if 0 <= number && (number as u64) < places.len() as u64 {
        usize::from(places[number as usize])
    } else {
        usize::from(NONE)
    }
}
