//! What `krbls items` does, over any reader and writer: [`run_items_in`] lists where each field of a
//! message is in its octets, a record for each item, and then the record of the end, or of what is
//! refused; and [`list_items`] returns that of octets in memory.
//!
//! It is a run of `krb_run` over the items of `krb_items`, and reads an input as `krb_tool` does, whose
//! record of what is refused it lists.
#![tactic(auto)]

mod fronts;
pub mod law;
mod listable;
mod records;
mod run;

pub use run::{list_items, run_items_in};
