//! DER (ITU-T X.690), for any protocol: the values of fields, their octets, and why octets are
//! refused.
//!
//! A value is an [`Int32`], a [`Wide32`], [`Micros`], a [`KerberosTime`], a [`KString`], [`Flags`],
//! [`Octets`], or a [`Many`], which is a SEQUENCE OF values. Each value has one DER form ([`Der`]).
//! The main calls:
//!
//! - [`Octets::new`] makes a value of a vector, without copying it, and [`Octets::into_vec`]
//!   returns the vector. The other types have calls like these; if not every argument has a value,
//!   `new` returns an `Option`, as [`Wide32::new`] does.
//! - [`Der::size`] returns the number of DER octets of a value, and [`Der::put`] appends them.
//! - [`SpareVectors::take`] returns a vector that a value left to be used again, or a new one.
//!
//! A [`Refusal`] says which octet is at fault and why ([`Why`]), a [`Verdict`] what the first
//! octets of a message decide, and [`Memory`] that an allocation failed. A [`Limit`] is the greatest
//! length of what is read.
//!
//! Nothing here judges octets or finds items in them, and nothing knows a Kerberos message:
//! `krb_msg`, `krb_judge` and `krb_scan` do.
//!
//! `specs/` says how numbers, lengths and items are spelled in octets. `Numbers`, `Items` and
//! `PrefixFree` of `specs/inner` define nothing: they prove the laws of [`Der`].
#![tactic(auto)]

mod der;
mod flags;
mod int32;
mod item;
mod kerberos_time;
mod kstring;
mod limit;
mod many;
mod memory;
mod micros;
mod number;
mod octets;
mod profile;
mod spare;
mod verdict;
mod why;
mod wide32;

pub use der::Der;
pub use flags::{Flags, last_or_zero};
pub use int32::Int32;
pub use item::{TOO_LONG, add_sizes, item_size, put_header, put_item, put_octets, size_of};
pub use kerberos_time::KerberosTime;
pub use kstring::KString;
pub use limit::Limit;
pub use many::Many;
pub use memory::Memory;
pub use micros::Micros;
pub use number::{integer_size, integer_value, number_of, put_integer};
pub use octets::Octets;
pub use profile::Profile;
pub use spare::{GiveBack, SpareVectors};
pub use verdict::{Refusal, Verdict};
pub use why::{Why, why_number, why_text};
pub use wide32::Wide32;
