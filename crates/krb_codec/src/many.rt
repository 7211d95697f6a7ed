//! Lists of items.

ghost use Rattle.std.specs.Prelude.{◌≡◌, ◌+◌, ◌≤◌, map, length};
ghost use Rattle.std.specs.List.{flat_map, AllByRecursion};
ghost use Rattle.std.specs.Vec.{vec_len, vec_capacity};
ghost use Rattle.krb_der.specs.Puts.{Puts};
ghost use Rattle.krb_der.specs.Sizes.{saturated};
ghost use Rattle.krb_msg.specs.Grammar.{sequence_of};
ghost use Rattle.krb_msg.specs.Term.{der, Fits};
ghost use Rattle.krb_codec.specs.inner.PrefixFree.{many_is_prefix_free};

use crate::item::Item;
use krb_der::{Many, add_sizes, item_size, put_header};

/// A SEQUENCE OF (X.690, 8.10).
impl<T: Item> Item for Many<T> {
    ghost term = { sequence_of T.term };

    ghost value = { λ values. map T.value values };

    fn size(&self) -> u64 {
        item_size(size_of_items(self.as_slice()))
    }

    fn put(&self, out: &mut Vec<u8>) {
        let values = self.as_slice();
        put_header(out, 0x30, size_of_items(values) as u32);
        put_items(out, values);
    }

    ghost prefix_free = { many_is_prefix_free T.term T.value T.prefix_free };
}

/// Returns the number of DER octets of all the values; 2147483648 if there are more.
fn size_of_items<T: Item>(values: &[T]) -> u64
    ensures octets { result ≡ saturated (length (flat_map (λ value. der T.term (T.value value)) values.now)) }
    ensures fits { AllByRecursion (λ value. Fits T.term (T.value value)) values.now }
{
    let mut size = 0;
    for value in values {
        size = add_sizes(size, value.size());
    }
    size
}

/// Appends the DER octets of the values in order, within the capacity of `out`.
fn put_items<T: Item>(out: &mut Vec<u8>, values: &[T])
    requires short { length (flat_map (λ value. der T.term (T.value value)) values.now) ≤ 2147483647 }
    requires capacity { vec_len out.old + length (flat_map (λ value. der T.term (T.value value)) values.now) ≤ vec_capacity out.old }
    ensures { Puts (flat_map (λ value. der T.term (T.value value)) values.now) out.old out.new }
{
    for value in values {
        value.put(out);
    }
}
