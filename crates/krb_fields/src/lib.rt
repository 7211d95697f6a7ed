//! The names of what is listed: the kinds of records that each command prints, the fields that these
//! have, and the members of their values.
//!
//! The main calls:
//!
//! - [`records`] returns the kinds of records of a [`Listing`], each with its fields ([`Shape`]), and
//!   [`inside`] the kinds of what is inside of others. [`origin`] returns the fields that say where a
//!   record is from.
//! - [`kind_of`] and [`name_of`] find a word among the kinds and the names of listings, and
//!   [`all_kinds`] and [`all_names`] return them.
//! - [`has`] says whether records of a shape have a name, [`chooses`] whether that matters, and
//!   [`kinds_with`] which kinds have all of several.
//! - [`names_near`] returns the names near a word that is none.
//!
//! The tables are those of `docs/LISTING.md`, of which `tools/fields` makes them. Nothing here knows a
//! record or prints one.
#![tactic(auto)]

mod all;
mod edits;
mod found;
mod having;
mod near;
mod shape;
mod table;

pub use all::{all_kinds, all_names};
pub use found::{Name, kind_of, name_of};
pub use having::{chooses, has, kinds_with};
pub use near::names_near;
pub use shape::{Field, Listing, Shape, Value};
pub use table::{inside, origin, records};
