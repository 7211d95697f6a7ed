//! Laws of keytabs and of credential caches: that octets spell one file, that what is read before a
//! fault is spelled, and what a limit or other octets of a key change. Each is the contract of a
//! function that does nothing. No library stands on this one.
#![tactic(auto)]

pub mod ccache;
pub mod keytab;
