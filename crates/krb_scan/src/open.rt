//! The containers that are open.

use crate::expected::Expected;

/// A container whose contents are not complete, or the message.
#[derive(Clone, Copy)]
pub(crate) struct Open {
    /// Where its contents end.
    pub(crate) end: u32,
    /// What may come next in it.
    pub(crate) expected: Expected,
}

/// One in which nothing is expected.
impl Default for Open {
    fn default() -> Open {
        Open {
            end: 0,
            expected: Expected::Nothing,
        }
    }
}
