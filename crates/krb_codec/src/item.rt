//! Types whose values are items of the grammar's terms.

ghost use Rattle.std.specs.Prelude.{◌≡◌, ◌+◌, ◌≤◌, ◌++◌, ℕ, List, length};
ghost use Rattle.std.specs.Vec.{vec_len, vec_capacity};
ghost use Rattle.krb_der.specs.Puts.{Puts};
ghost use Rattle.krb_msg.specs.Term.{Term, Value, der};
ghost use Rattle.krb_codec.specs.Encoding.{IsSized};

/// A type whose values have one DER form each (X.690, 10): that of the values of a term.
pub trait Item {
    /// The term of the grammar.
    ghost term: { Term };

    /// A value of the type, as one of the term.
    ghost value: { Self → Value term };

    /// Returns the number of DER octets of the value; 2147483648 if there are more. The value fits
    /// the term: its numbers are in their ranges, and its times and bit strings are well formed.
    fn size(&self) -> u64
        ensures { IsSized term (value self.now) result };

    /// Appends the DER octets of the value, at most 2147483647, within the capacity of `out`. It
    /// allocates nothing.
    fn put(&self, out: &mut Vec<u8>)
        requires short { length (der term (value self.now)) ≤ 2147483647 }
        requires capacity { vec_len out.old + length (der term (value self.now)) ≤ vec_capacity out.old }
        ensures { Puts (der term (value self.now)) out.old out.new };

    /// Different values have different octets, and no value's octets begin another's.
    ghost prefix_free: { (it other : Self) (rest more : List ℕ) → der term (value it) ++ rest ≡ der term (value other) ++ more → (it ≡ other) × (rest ≡ more) };
}
