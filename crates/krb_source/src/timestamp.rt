//! The times of packets.

/// A time after the beginning of 1970.
#[derive(Clone, Copy, PartialEq, Eq, Debug)]
pub struct Timestamp {
    /// The seconds, without leap seconds.
    pub seconds: u32,
    /// The nanoseconds after these, fewer than a second has.
    pub nanoseconds: u32,
}
