//! Laws over several libraries: what inputs spell, what tokens are opened to, and that what is
//! printed in the form Json is JSON. Each is the contract of a function that does nothing.
#![tactic(auto)]

pub mod objects;
pub mod spelled;
pub mod tokens;
