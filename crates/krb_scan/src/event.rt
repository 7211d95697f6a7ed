//! What an octet does to the marks.

use crate::mark::Mark;

/// A change of marks.
#[derive(Clone, Copy)]
pub(crate) enum Event {
    /// They stay.
    None,
    /// This one is added, of a length that is whole.
    Length(Mark),
    /// The last one has this number, since its contents are complete.
    Number(i64),
}
