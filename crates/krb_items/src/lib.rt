//! Where each field of a message is in its octets: its items, as records.
//!
//! An item is one of the grammar with the explicit tags that it stands in (X.690, 8.14), since these
//! have one path. [`list_octets`] lists those of a message, a Ticket or a frame in order of place,
//! up to what is refused, and then the item at fault. A walk over the types of fields reads their
//! heads. It is told how many octets are right, and which one is refused, and judges nothing but what
//! an OCTET STRING in the clear holds, as a padata-value. Octets that are counted, as those of a cipher
//! are, are shown nowhere. [`believed`] returns how many
//! octets there are by the first length, where that is what is refused.
#![tactic(auto)]

mod begun;
mod fronts;
mod head;
mod held;
mod identifier;
mod label;
mod listing;
mod reaching;
mod shape;
mod tag;
mod tokens;
mod walk;
mod words;

pub use fronts::{judge_gss, judge_spnego};
pub use listing::{Listed, Shown};
pub use reaching::{Lies, believed, list_octets};
pub use shape::NegToken;
