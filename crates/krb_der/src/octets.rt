//! Strings of octets.

use crate::der::Der;
use crate::item::{item_size, put_item, size_of};
use std::marker::Model;

/// An OCTET STRING (X.690, 8.7): any number of octets. Contracts see the list of the octets.
#[derive(Debug, Drop)]
pub struct Octets {
    octets: Vec<u8>,
}

impl Model for Octets {
    ghost use Rattle.std.specs.Prelude.{List, ℕ};

    ghost Value = { List ℕ };

    ghost view = { λ octets. octets.octets.items };
}

ghost use Rattle.std.specs.Prelude.{◌≡◌};
ghost use Rattle.std.specs.Prelude.{nat_eq};
ghost use Rattle.std.specs.Cmp.{partial_equiv_from_equiv};
ghost use Rattle.std.specs.Cmp.Lexicographic.{pointwise, nat_list_eq_equiv};
ghost use Rattle.krb_der.specs.Octets.{item, AreOctets};
ghost use Rattle.krb_der.specs.inner.PrefixFree.{item_begins, same_octets};

impl Octets {
    /// Returns the OCTET STRING with these octets. The vector is moved, not copied.
    pub fn new(octets: Vec<u8>) -> Octets
        ensures { result ≡ octets.items }
    {
        Octets { octets }
    }

    /// Returns the octets, borrowed.
    pub fn as_slice(&self) -> &[u8]
        ensures { result.now ≡ self.now }
    {
        self.octets.as_slice()
    }

    /// Returns the octets in their vector.
    pub fn into_vec(self) -> Vec<u8>
        ensures { result.items ≡ self }
    {
        let Octets { octets } = self;
        octets
    }
}

/// OCTET STRINGs are equal if their octets are.
impl PartialEq for Octets {
    ghost eq = { pointwise nat_eq };

    ghost laws = { partial_equiv_from_equiv nat_list_eq_equiv };

    fn eq(&self, other: &Octets) -> bool {
        self.as_slice() == other.as_slice()
    }
}

impl Eq for Octets {
    ghost laws = { nat_list_eq_equiv };
}

/// Octets are encoded as an OCTET STRING (X.690, 8.7).
impl Der for Octets {
    ghost der = { λ octets. item 0x04 octets };

    ghost Fits = { AreOctets };

    fn size(&self) -> u64 {
        item_size(size_of(self.as_slice()))
    }

    fn put(&self, out: &mut Vec<u8>) {
        put_item(out, 0x04, self.octets.as_slice());
    }

    ghost begins = { λ octets. item_begins 0x04 octets };

    ghost prefix_free = { same_octets 0x04 };
}
