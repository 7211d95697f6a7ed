//! Where the octets lie that a refusal speaks of.

/// Where the octets lie that are refused.
#[derive(Clone, Copy, PartialEq, Eq, Debug)]
pub struct Extent {
    /// The offset of the first of them.
    pub at: u64,
    /// How many there are, if that is known.
    pub length: Option<u64>,
}
