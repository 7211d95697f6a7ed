//! Credential caches as whole values.

mod lines;
mod reading;
mod upgrading;
mod writing;

pub use lines::{ccache_lines, put_ccache};
pub use reading::{read, read3};
pub use upgrading::upgrade;
pub use writing::{CcacheFault, write};
