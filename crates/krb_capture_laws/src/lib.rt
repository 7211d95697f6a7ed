//! Laws of captures: that fragments make their datagrams, that what is delivered of a direction is
//! its stream, that the records of a capture are those of its streams and datagrams, and that what
//! they tell of requests and replies is what is told of its events. Each is the contract of a
//! function that does nothing. No library stands on this one.
#![tactic(auto)]

pub mod capture;
pub mod exchange;
pub mod flow;
pub mod packet;
