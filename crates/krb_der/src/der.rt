//! The trait of values that have DER octets.

ghost use Rattle.std.specs.Prelude.{◌≡◌, ◌+◌, ◌<◌, ◌≤◌, ◌++◌, ℕ, List, length};
ghost use Rattle.std.specs.Vec.{vec_len, vec_capacity};
ghost use Rattle.krb_der.specs.Puts.{Puts};
ghost use Rattle.krb_der.specs.Sizes.{saturated};

/// A type whose values have one DER form each (X.690, 10).
pub trait Der {
    /// The DER octets of a value.
    ghost der: { Self → List ℕ };

    /// What holds of each value: its numbers are in their ranges, and its times and bit strings are
    /// well formed.
    ghost Fits: { Self → Type 0 };

    /// Returns the number of DER octets of the value, or 2147483648 if there are more.
    fn size(&self) -> u64
        ensures octets { result ≡ saturated (length (der self.now)) }
        ensures fits { Fits self.now };

    /// Appends the DER octets of the value, at most 2147483647, within the capacity of `out`. It
    /// allocates nothing.
    fn put(&self, out: &mut Vec<u8>)
        requires short { length (der self.now) ≤ 2147483647 }
        requires capacity { vec_len out.old + length (der self.now) ≤ vec_capacity out.old }
        ensures { Puts (der self.now) out.old out.new };

    /// Each value has at least one octet.
    ghost begins: { (value : Self) → 0 < length (der value) };

    /// Different values have different octets, and no value's octets begin another's.
    ghost prefix_free: { (value other : Self) (rest more : List ℕ) → der value ++ rest ≡ der other ++ more → (value ≡ other) × (rest ≡ more) };
}
