//! Messages of Kerberos V5 as values: their DER octets, and values copied out of views of octets.
//!
//! The types are those of `krb_msg`, a [`Message`](krb_msg::Message) and its parts, which that
//! crate views in place. [`encode`] returns the DER octets of a message, [`put`] appends them to a
//! vector with the capacity for them, and [`size`] is their number; a part has them as an [`Item`],
//! as a Ticket. [`copy_message`] copies a message out of a view, and [`FromView`] a part.
//! [`notes_of`] returns what is unusual in a message, and [`is_strict`] whether it is in the strict
//! profile.
//!
//! Only what encodes or copies allocates, and it says if it is out of memory. Nothing is judged
//! here: what is copied was judged as it was viewed.
//!
//! `specs/Encoding` says how many octets a value has; what they are, `krb_msg` does. The files of
//! `specs/inner` prove the laws of [`Item`].
#![tactic(auto)]

mod ap_rep;
mod ap_req;
mod checksum;
mod copying;
mod encoding;
mod encrypted_data;
mod fields;
mod host_address;
mod item;
mod kdc_rep;
mod kdc_req;
mod kdc_req_body;
mod krb_cred;
mod krb_error;
mod krb_priv;
mod krb_safe;
mod krb_safe_body;
mod many;
mod message;
mod notes;
mod pa_data;
mod principal_name;
mod scalars;
mod ticket;

pub use copying::FromView;
pub use encoding::{EncodeFault, encode, size};
pub use item::Item;
pub use message::{copy_message, notes_of, put};
pub use notes::is_strict;
