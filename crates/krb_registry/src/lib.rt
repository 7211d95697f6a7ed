//! The names of the numbers that Kerberos messages carry, as the registries of IANA's "Kerberos
//! Parameters" and the RFCs have them.
//!
//! The main calls:
//!
//! - [`name_of`] returns the name of a number in a [`Registry`], if it has one.
//! - [`rows`] returns all numbers and names of a registry, in order of number.
//!
//! Nothing here knows a message, or what a number means. Each registry is a table in `src/tables`,
//! which says which standard its rows are from; the notes on messages are one, too, from no
//! standard. The laws [`names_are_plain`] and [`rows_are_in_order`] hold of all of them.
#![tactic(auto)]

mod law;
mod lookup;
mod places;
mod registry;
mod row;
mod tables;

pub use law::{names_are_plain, rows_are_in_order};
pub use lookup::name_of;
pub use registry::{Registry, rows};
pub use row::Row;
