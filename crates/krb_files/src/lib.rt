//! Keytabs and credential caches as whole values: read, written, upgraded to version 4, and listed.
//!
//! The main calls:
//!
//! - [`keytab::read`] returns the `Keytab` that the first octets of a file are, and
//!   [`keytab::write`] the octets of a keytab.
//! - [`ccache::read`] returns the `Ccache` that a file of version 4 is, and [`ccache::read3`] the
//!   `Cache3` that one of version 3 is; [`ccache::upgrade`] makes a cache of version 4 of that, and
//!   [`ccache::write`] returns the octets of a cache of version 4.
//! - [`keytab::keytab_lines`] and [`ccache::ccache_lines`] return all lines of one.
//! - [`Part::put`] appends the octets of a part of a file, and [`Part::size`] returns their number.
//!
//! `krb_keytab` and `krb_ccache` have the types, and read one record after another; `krb_list` has
//! the lines of each. A program that lists files needs nothing of this crate.
//!
//! `specs/KeytabWriting` says what is written of a keytab, and why one cannot be written, and
//! `CcacheWriting` why a cache cannot be; which octets spell each, and how they are read, say
//! `Spelling` and `Reading` of `krb_keytab` and of `krb_ccache`.
#![tactic(auto)]

pub mod ccache;
pub mod keytab;
mod part;

pub use part::{
    Count16, Count32, Counted16, Counted32, Each, GREATEST_FILE, Listed, Measured, Part, Plain,
    Strings16, Then,
};
