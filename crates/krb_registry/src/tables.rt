//! The tables of numbers and names, one for each registry.

pub mod address_types;
pub mod ap_options;
pub mod checksum_types;
pub mod encryption_types;
pub mod error_codes;
pub mod error_data_types;
pub mod kdc_options;
pub mod name_types;
pub mod notes;
pub mod pac_options;
pub mod pre_authentication_data;
pub mod statuses;
pub mod ticket_flags;
