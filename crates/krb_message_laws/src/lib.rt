//! Laws of messages over several libraries: of the paths of their fields, of the marks of a scan,
//! and of their JSON. Each is the contract of a function that does nothing. No library stands on
//! this one.
#![tactic(auto)]

pub mod judge;
pub mod message_json;
pub mod scan;
