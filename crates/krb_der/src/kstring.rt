//! Strings.

use crate::der::Der;
use crate::item::{item_size, put_item, size_of};
use std::marker::Model;

/// A KerberosString (RFC 4120, 5.2.1), which may hold any octets, as implementations send them.
/// Contracts see the list of its octets.
#[derive(Debug, Drop)]
pub struct KString {
    octets: Vec<u8>,
}

impl Model for KString {
    ghost use Rattle.std.specs.Prelude.{List, ℕ};

    ghost Value = { List ℕ };

    ghost view = { λ string. string.octets.items };
}

ghost use Rattle.std.specs.Prelude.{◌≡◌};
ghost use Rattle.std.specs.Prelude.{nat_eq};
ghost use Rattle.std.specs.Cmp.{partial_equiv_from_equiv};
ghost use Rattle.std.specs.Cmp.Lexicographic.{pointwise, nat_list_eq_equiv};
ghost use Rattle.krb_der.specs.Octets.{item, AreOctets};
ghost use Rattle.krb_der.specs.inner.PrefixFree.{item_begins, same_octets};

impl KString {
    /// Returns the string with these octets. The vector is moved, not copied.
    pub fn new(octets: Vec<u8>) -> KString
        ensures { result ≡ octets.items }
    {
        KString { octets }
    }

    /// Returns the octets, borrowed.
    pub fn octets(&self) -> &[u8]
        ensures { result.now ≡ self.now }
    {
        self.octets.as_slice()
    }

    /// Returns the octets in their vector.
    pub fn into_vec(self) -> Vec<u8>
        ensures { result.items ≡ self }
    {
        let KString { octets } = self;
        octets
    }
}

/// Strings are equal if their octets are.
impl PartialEq for KString {
    ghost eq = { pointwise nat_eq };

    ghost laws = { partial_equiv_from_equiv nat_list_eq_equiv };

    fn eq(&self, other: &KString) -> bool {
        self.octets() == other.octets()
    }
}

impl Eq for KString {
    ghost laws = { nat_list_eq_equiv };
}

/// A KString is encoded as a GeneralString (X.690, 8.23).
impl Der for KString {
    ghost der = { λ octets. item 0x1B octets };

    ghost Fits = { AreOctets };

    fn size(&self) -> u64 {
        item_size(size_of(self.octets()))
    }

    fn put(&self, out: &mut Vec<u8>) {
        put_item(out, 0x1B, self.octets.as_slice());
    }

    ghost begins = { λ octets. item_begins 0x1B octets };

    ghost prefix_free = { same_octets 0x1B };
}
