//! The writer that chooses: what is written of a listing of which not all is wanted.
//!
//! [`Choosing`] is a writer of a marked listing: it writes the records that a choice keeps, without
//! marks, or their rows, to another writer.
#![tactic(auto)]

mod choosing;
mod given;
pub mod law;

pub use choosing::{Chooser, Choosing};
pub use given::{Before, Given};
