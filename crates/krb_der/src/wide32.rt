//! Numbers of 32 bits, signed or unsigned.

use crate::der::Der;
use crate::number::{integer_size, put_integer};
use std::marker::Model;

/// A number of 32 bits that some implementations write as signed and others as unsigned (UInt32 of
/// RFC 4120, 5.2.4, as it is used): -2147483648 to 4294967295, as it was written.
#[derive(Clone, Copy, PartialEq, Eq, Debug)]
pub struct Wide32 {
    number: i64,
}

impl Model for Wide32 {
    ghost use Rattle.std.specs.Prelude.{ℤ};
    ghost use Rattle.krb_der.specs.Scalars.{IsWide32};

    ghost Value = { ℤ };

    ghost view = { λ wide32. wide32.number };

    ghost invariant = { λ wide32. IsWide32 wide32.number };

    ghost inverse = { λ number. record { number = number } };
}

ghost use Rattle.std.specs.Prelude.{◌≡◌, ◌↔◌, IsSome, IfSome};
ghost use Rattle.krb_der.specs.Scalars.{IsWide32};
ghost use Rattle.krb_der.specs.Octets.{item, integer_octets};
ghost use Rattle.krb_der.specs.inner.PrefixFree.{item_begins, same_integer};

impl Wide32 {
    /// The least value, -2147483648.
    pub const LEAST: i64 = -2147483648;

    /// The greatest value, 4294967295.
    pub const GREATEST: i64 = 4294967295;

    /// Returns the Wide32 of a number, or `None` if it is not from `LEAST` to `GREATEST`.
    pub fn new(number: i64) -> Option<Wide32>
        ensures range { IsSome result ↔ IsWide32 number }
        ensures value { IfSome result (λ wide32. wide32 ≡ number) }
    {
        if (Wide32::LEAST..=Wide32::GREATEST).contains(&number) {
            Some(Wide32 { number })
        } else {
            None
        }
    }

    /// Returns the number.
    pub fn get(self) -> i64
        ensures value { result ≡ self }
        ensures range { IsWide32 result }
    {
        self.number
    }
}

/// A Wide32 is encoded as an INTEGER (X.690, 8.3).
impl Der for Wide32 {
    ghost der = { λ number. item 0x02 (integer_octets number) };

    ghost Fits = { IsWide32 };

    fn size(&self) -> u64 {
        integer_size(self.number)
    }

    fn put(&self, out: &mut Vec<u8>) {
        put_integer(out, self.number);
    }

    ghost begins = { λ number. item_begins 0x02 (integer_octets number) };

    ghost prefix_free = { same_integer };
}
