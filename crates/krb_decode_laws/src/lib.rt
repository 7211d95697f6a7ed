//! Laws of what is decoded: that it is what is listed, how it ends, and that it comes back. Each is the
//! contract of a function that does nothing. No crate stands on this one.
#![tactic(auto)]

pub mod caches;
pub mod captures;
pub mod inputs;
pub mod streams;
pub mod tickets;
pub mod unencrypted;
