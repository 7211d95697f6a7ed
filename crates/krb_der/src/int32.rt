//! Signed numbers of 32 bits.

use crate::der::Der;
use crate::number::{integer_size, put_integer};
use std::marker::Model;

/// A signed number of 32 bits (Int32 of RFC 4120, 5.2.4): -2147483648 to 2147483647.
#[derive(Clone, Copy, PartialEq, Eq, Debug)]
pub struct Int32 {
    number: i32,
}

impl Model for Int32 {
    ghost use Rattle.std.specs.Prelude.{ℤ};

    ghost Value = { ℤ };

    ghost view = { λ int32. int32.number };

    ghost inverse = { λ number. record { number = number } };
}

ghost use Rattle.std.specs.Prelude.{◌≡◌};
ghost use Rattle.krb_der.specs.Octets.{item, integer_octets};
ghost use Rattle.krb_der.specs.Scalars.{IsInt32};
ghost use Rattle.krb_der.specs.inner.PrefixFree.{item_begins, same_integer};

impl Int32 {
    /// Returns the Int32 of a number.
    pub fn new(number: i32) -> Int32
        ensures { result ≡ number }
    {
        Int32 { number }
    }

    /// Returns the number.
    pub fn get(self) -> i32
        ensures { result ≡ self }
    {
        self.number
    }
}

/// An Int32 is encoded as an INTEGER (X.690, 8.3).
impl Der for Int32 {
    ghost der = { λ number. item 0x02 (integer_octets number) };

    ghost Fits = { IsInt32 };

    fn size(&self) -> u64 {
        integer_size(i64::from(self.number))
    }

    fn put(&self, out: &mut Vec<u8>) {
        put_integer(out, i64::from(self.number));
    }

    ghost begins = { λ number. item_begins 0x02 (integer_octets number) };

    ghost prefix_free = { same_integer };
}
