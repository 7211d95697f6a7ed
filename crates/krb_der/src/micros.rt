//! Microseconds within a second.

use crate::der::Der;
use crate::number::{integer_size, put_integer};
use std::marker::Model;

/// Microseconds (RFC 4120, 5.2.4): 0 to 999999.
#[derive(Clone, Copy, PartialEq, Eq, Debug)]
pub struct Micros {
    number: u32,
}

impl Model for Micros {
    ghost use Rattle.std.specs.Prelude.{ℕ};
    ghost use Rattle.krb_der.specs.Scalars.{IsMicros};

    ghost Value = { ℕ };

    ghost view = { λ micros. micros.number };

    ghost invariant = { λ micros. IsMicros micros.number };

    ghost inverse = { λ number. record { number = number } };
}

ghost use Rattle.std.specs.Prelude.{◌≡◌, ◌↔◌, IsSome, IfSome};
ghost use Rattle.krb_der.specs.Scalars.{IsMicros};
ghost use Rattle.std.specs.Prelude.{pos};
ghost use Rattle.krb_der.specs.Octets.{item, integer_octets};
ghost use Rattle.krb_der.specs.inner.PrefixFree.{item_begins, same_natural};

impl Micros {
    /// The greatest value, 999999.
    pub const GREATEST: u32 = 999999;

    /// Returns so many microseconds, or `None` if they are more than `GREATEST`.
    pub fn new(number: u32) -> Option<Micros>
        ensures range { IsSome result ↔ IsMicros number }
        ensures value { IfSome result (λ micros. micros ≡ number) }
    {
        if number <= Micros::GREATEST {
            Some(Micros { number })
        } else {
            None
        }
    }

    /// Returns the number of microseconds.
    pub fn get(self) -> u32
        ensures value { result ≡ self }
        ensures range { IsMicros result }
    {
        self.number
    }
}

/// Micros are encoded as an INTEGER (X.690, 8.3).
impl Der for Micros {
    ghost der = { λ number. item 0x02 (integer_octets (pos number)) };

    ghost Fits = { IsMicros };

    fn size(&self) -> u64 {
        integer_size(i64::from(self.number))
    }

    fn put(&self, out: &mut Vec<u8>) {
        put_integer(out, i64::from(self.number));
    }

    ghost begins = { λ number. item_begins 0x02 (integer_octets (pos number)) };

    ghost prefix_free = { same_natural };
}
