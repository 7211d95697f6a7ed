//! The registries and their rows.

ghost use Rattle.std.specs.Prelude.{◌≡◌, map};
ghost use Rattle.krb_registry.specs.Rows.{number_and_name, rows};

use crate::row::Row;
use crate::tables::{
    address_types, ap_options, checksum_types, encryption_types, error_codes, error_data_types,
    kdc_options, name_types, notes, pac_options, pre_authentication_data, statuses, ticket_flags,
};

/// A registry of numbers that have names.
#[derive(Clone, Copy, PartialEq, Eq, Debug)]
pub enum Registry {
    /// The encryption types (IANA, "Kerberos Encryption Type Numbers").
    EncryptionTypes,
    /// The checksum types (IANA, "Kerberos Checksum Type Numbers").
    ChecksumTypes,
    /// The types of pre-authentication data (IANA, "Pre-authentication and Typed Data").
    PreAuthenticationData,
    /// The error codes (RFC 4120, 7.5.9).
    ErrorCodes,
    /// The types of KERB-ERROR-DATA (MS-KILE, 2.2.2).
    ErrorDataTypes,
    /// The statuses of Windows, which a KDC tells in an extended error (MS-ERREF, 2.3.1).
    Statuses,
    /// The options of an AS-REQ and a TGS-REQ, by the numbers of their bits (RFC 4120, 5.4.1).
    KdcOptions,
    /// The options of an AP-REQ, by the numbers of their bits (RFC 4120, 5.5.1).
    ApOptions,
    /// The options of PA-PAC-OPTIONS, by the numbers of their bits (MS-KILE, 2.2.10).
    PacOptions,
    /// The flags of a context of GSS-API in a token of SPNEGO, of which none has a name here (RFC 4178, 4.2.1).
    ContextFlags,
    /// The flags of a ticket, by the numbers of their bits (RFC 4120, 5.3).
    TicketFlags,
    /// The types of the names of principals (RFC 4120, 6.2).
    NameTypes,
    /// The types of addresses (RFC 4120, 7.5.3).
    AddressTypes,
    /// The notes on a message, which no standard has.
    Notes,
}

/// Returns the rows of a registry, in order of number.
#[inline(always)]
#[tactic(auto, unfolding(crate::specs::Rows::rows))]
pub fn rows(registry: Registry) -> &'static [Row]
    ensures { map number_and_name result.now ≡ rows registry }
{
    match registry {
        Registry::EncryptionTypes => &encryption_types::ROWS,
        Registry::ChecksumTypes => &checksum_types::ROWS,
        Registry::PreAuthenticationData => &pre_authentication_data::ROWS,
        Registry::ErrorCodes => &error_codes::ROWS,
        Registry::ErrorDataTypes => &error_data_types::ROWS,
        Registry::Statuses => &statuses::ROWS,
        Registry::KdcOptions => &kdc_options::ROWS,
        Registry::ApOptions => &ap_options::ROWS,
        Registry::PacOptions => &pac_options::ROWS,
        Registry::ContextFlags => &[],
        Registry::TicketFlags => &ticket_flags::ROWS,
        Registry::NameTypes => &name_types::ROWS,
        Registry::AddressTypes => &address_types::ROWS,
        Registry::Notes => &notes::ROWS,
    }
}
