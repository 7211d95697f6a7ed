//! Profiles.

/// A profile of RFC 4120: how far octets may depart from it and still be accepted.
#[derive(Clone, Copy, PartialEq, Eq, Debug)]
pub enum Profile {
    /// What deployed software sends is accepted: a string may hold any octets, there may be any
    /// number of flags, a kvno, a nonce or a seq-number may be negative, and any list may be empty.
    Lenient,
    /// A string holds octets up to 7F (RFC 4120, 5.2.1), there are at least 32 flags (5.2.8), a
    /// kvno, a nonce or a seq-number is not negative (5.2.4), and an optional list that is present
    /// is not empty (5.4.1 and 5.4.2).
    Strict,
}
