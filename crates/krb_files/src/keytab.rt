//! Keytabs as whole values.

mod lines;
mod reading;
mod writing;

pub use lines::{keytab_lines, put_keytab};
pub use reading::read;
pub use writing::{KeytabFault, write};
