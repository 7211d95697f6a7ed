//! Lists of values.

use crate::der::Der;
use crate::item::{add_sizes, item_size, put_header};
use std::marker::Model;

/// A SEQUENCE OF (X.690, 8.10): any number of values, in order. Contracts see the list of the
/// values.
#[derive(Debug, Drop)]
pub struct Many<T> {
    values: Vec<T>,
}

impl<T> Model for Many<T> {
    ghost use Rattle.std.specs.Prelude.{List};

    ghost Value = { List T };

    ghost view = { λ many. many.values.items };
}

ghost use Rattle.std.specs.Prelude.{◌≡◌, ◌+◌, ◌≤◌, length};
ghost use Rattle.std.specs.List.{flat_map, AllByRecursion};
ghost use Rattle.std.specs.Vec.{vec_len, vec_capacity};
ghost use Rattle.krb_der.specs.Puts.{Puts};
ghost use Rattle.std.specs.Cmp.Lexicographic.{pointwise, lists_per, lists_equiv};
ghost use Rattle.krb_der.specs.Octets.{item};
ghost use Rattle.krb_der.specs.Sizes.{saturated};
ghost use Rattle.krb_der.specs.inner.PrefixFree.{item_begins, same_many};

impl<T> Many<T> {
    /// Returns the list of these values. The vector is moved, not copied.
    pub fn new(values: Vec<T>) -> Many<T>
        ensures { result ≡ values.items }
    {
        Many { values }
    }

    /// Returns the values, borrowed.
    pub fn as_slice(&self) -> &[T]
        ensures { result.now ≡ self.now }
    {
        self.values.as_slice()
    }

    /// Returns the values in their vector.
    pub fn into_vec(self) -> Vec<T>
        ensures { result.items ≡ self }
    {
        let Many { values } = self;
        values
    }
}

/// Lists are equal if their values are, in order.
impl<T: PartialEq> PartialEq for Many<T> {
    ghost eq = { pointwise T.eq };

    ghost laws = { lists_per T.laws };

    fn eq(&self, other: &Many<T>) -> bool {
        self.as_slice() == other.as_slice()
    }
}

impl<T: Eq> Eq for Many<T> {
    ghost laws = { lists_equiv T.Eq.laws };
}

/// A Many is encoded as a SEQUENCE OF (X.690, 8.10).
impl<T: Der> Der for Many<T> {
    ghost der = { λ values. item 0x30 (flat_map T.der values) };

    ghost Fits = { AllByRecursion T.Fits };

    fn size(&self) -> u64 {
        item_size(size_of_values(self.as_slice()))
    }

    fn put(&self, out: &mut Vec<u8>) {
        let values = self.values.as_slice();
        put_header(out, 0x30, size_of_values(values) as u32);
        put_values(out, values);
    }

    ghost begins = { λ values. item_begins 0x30 (flat_map T.der values) };

    ghost prefix_free = { same_many T.der T.begins T.prefix_free };
}

/// Returns the number of DER octets of all the values, or 2147483648 if there are more.
fn size_of_values<T: Der>(values: &[T]) -> u64
    ensures octets { result ≡ saturated (length (flat_map T.der values.now)) }
    ensures fits { AllByRecursion T.Fits values.now }
{
    let mut size = 0;
    for value in values {
        size = add_sizes(size, value.size());
    }
    size
}

/// Appends the DER octets of the values in order, within the capacity of `out`.
fn put_values<T: Der>(out: &mut Vec<u8>, values: &[T])
    requires short { length (flat_map T.der values.now) ≤ 2147483647 }
    requires capacity { vec_len out.old + length (flat_map T.der values.now) ≤ vec_capacity out.old }
    ensures { Puts (flat_map T.der values.now) out.old out.new }
{
    for value in values {
        value.put(out);
    }
}
