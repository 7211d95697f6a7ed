//! Tokens: what a message lies in, if it does not lie there by itself.
//!
//! - [`open`] returns what octets are found to be, without copying them and without allocating: a
//!   message and the [`Layer`]s that it lies in, a Ticket, a message of NTLM, or which octet of a
//!   layer is at fault, why, and in what ([`TokenPath`]).
//!
//! A layer is a frame (RFC 4120, 7.2.2), a GSS-API token (RFC 2743, 3.1), or a token of SPNEGO
//! (RFC 4178, 4.2), by itself or in a GSS-API token; in it, in turn, there may be a GSS-API token.
//! Each fills what it lies in, and is judged whole before what is in it; the message is not judged
//! here.
//!
//! `specs/Tokens` says what octets are opened to, over `Items` (what an item is read as), `Spnego`
//! and `Gss` (what the layers are), and `Laws` what the functions of [`law`] prove.
#![tactic(auto)]

mod fields;
mod frame;
mod gss;
mod item;
pub mod law;
mod length;
mod opening;
mod path;
mod simple;
mod spnego;

pub use krb_input::Layer;
pub use opening::{Found, Opened, open};
pub use path::TokenPath;
