//! The greatest length of what is read.

use std::marker::Model;

/// The greatest number of octets that the message of a frame or a field of octets may have: 1 to
/// 2147483647.
#[derive(Clone, Copy, PartialEq, Eq, Debug)]
pub struct Limit {
    octets: u32,
}

impl Model for Limit {
    ghost use Rattle.std.specs.Prelude.{ℕ, ◌<◌, ◌^◌};

    ghost Value = { ℕ };

    ghost view = { λ limit. limit.octets };

    ghost invariant = { λ limit. (0 < limit.octets) × (limit.octets < 2 ^ 31) };

    ghost inverse = { λ octets. record { octets = octets } };
}

ghost use Rattle.std.specs.Prelude.{◌≡◌, ◌<◌, ◌^◌, ◌↔◌, IsSome, IfSome};

impl Limit {
    /// What the program uses if nothing else is said: 16777216.
    pub const DEFAULT: Limit = Limit { octets: 16777216 };

    /// Returns the limit of `octets` octets, or `None` if they are none or more than 2147483647.
    pub fn new(octets: u32) -> Option<Limit>
        ensures range { IsSome result ↔ ((0 < octets) × (octets < 2 ^ 31)) }
        ensures value { IfSome result (λ limit. limit ≡ octets) }
    {
        if 0 < octets && octets < 1 << 31 {
            Some(Limit { octets })
        } else {
            None
        }
    }

    /// Returns the number of octets.
    pub fn get(self) -> u32
        ensures value { result ≡ self }
        ensures some { 0 < result }
        ensures few { result < 2 ^ 31 }
    {
        self.octets
    }
}
