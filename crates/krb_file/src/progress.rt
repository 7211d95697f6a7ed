//! How far a reader of items is.

use crate::fault::FileFault;

/// The progress of a reader of items, one after another. It is public for contracts alone.
#[derive(Clone, Copy, Drop)]
pub enum Progress<O, E> {
    /// Any number of items was read, and this is known of what comes.
    Open(O),
    /// The items ended.
    Done(E),
    /// There was a fault.
    Failed(FileFault),
}
