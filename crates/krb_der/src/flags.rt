//! Bit strings of flags.

use crate::der::Der;
use crate::item::{item_size, put_header, put_octets, size_of};
use std::marker::Model;

/// A bit string (KerberosFlags of RFC 4120, 5.2.8; X.690, 8.6 and 11.2): its octets, and how many
/// low bits of the last octet are unused, 0 to 7. The unused bits are clear, and if there are no
/// octets, none is unused. Contracts see the pair of that number and the list of the octets.
#[derive(Debug, Drop)]
pub struct Flags {
    unused: u8,
    octets: Vec<u8>,
}

impl Model for Flags {
    ghost use Rattle.std.specs.Prelude.{List, ℕ};
    ghost use Rattle.krb_der.specs.Octets.{AreBits};

    ghost Value = { ℕ × List ℕ };

    ghost view = { λ flags. (flags.unused, flags.octets.items) };

    ghost invariant = { λ flags. AreBits flags.unused flags.octets.items };
}

ghost use Rattle.std.specs.Prelude.{◌≡◌, ◌<◌, ◌≤◌, ◌-◌, ◌*◌, ◌↔◌, min, length, false, IsSome, IfSome};
ghost use Rattle.std.specs.Prelude.{◌∷◌};
ghost use Rattle.std.specs.Prelude.{nat_eq};
ghost use Rattle.std.specs.Ordering.{on, eq_of_both};
ghost use Rattle.std.specs.Cmp.Rules.{comparing};
ghost use Rattle.std.specs.Cmp.Lexicographic.{pointwise};
ghost use Rattle.std.proofs.Common.{rules};
ghost use Rattle.krb_der.specs.Octets.{AreBits, AreOctets, item, last_or_zero as last_of};
ghost use Rattle.krb_der.specs.inner.PrefixFree.{item_begins, same_bits};
ghost use Rattle.krb_der.specs.Scalars.{has_bit};

impl Flags {
    /// Returns the flags with these octets, of which the last has `unused` low bits that are clear.
    /// Returns `None` if `unused` is above 7, if one of these bits is set, or if there are no
    /// octets and `unused` is not 0. The vector is moved, not copied.
    pub fn new(unused: u8, octets: Vec<u8>) -> Option<Flags>
        ensures shape { IsSome result ↔ AreBits unused octets.items }
        ensures value { IfSome result (λ flags. flags ≡ (unused, octets.items)) }
    {
        let last = last_or_zero(octets.as_slice());
        if unused < 8 && (unused == 0 || !octets.is_empty()) && last % (1 << unused) == 0 {
            Some(Flags { unused, octets })
        } else {
            None
        }
    }

    /// Returns the number of unused low bits of the last octet, 0 to 7.
    pub fn unused(&self) -> u8
        ensures value { result ≡ self.now.0 }
        ensures shape { AreBits result self.now.1 }
    {
        self.unused
    }

    /// Returns the octets, borrowed.
    pub fn octets(&self) -> &[u8]
        ensures { result.now ≡ self.now.1 }
    {
        self.octets.as_slice()
    }

    /// Returns the number of bits: 8 for each octet, less the unused ones. It is at most
    /// `u64::MAX`, and no memory holds so many octets that they have more bits.
    pub fn bits(&self) -> u64
        ensures { result ≡ min (8 * length self.now.1 - self.now.0) u64.MAX }
    {
        let bits = 8 * self.octets.len() as u128 - u128::from(self.unused);
        u64::try_from(bits).unwrap_or(u64::MAX)
    }

    /// Returns whether the bit with this index is set; bit 0 is the high bit of the first octet
    /// (X.690, 8.6.2). A bit that is not there is not set.
    pub fn bit(&self, index: u64) -> bool
        ensures value { result ≡ has_bit self.now.1 index }
        ensures missing { 8 * length self.now.1 - self.now.0 ≤ index → result ≡ false }
    {
        match self.octets.get((index / 8) as usize) {
            Some(octet) => *octet >> (7 - index % 8) & 1 == 1,
            None => false,
        }
    }
}

/// Flags are equal if their octets are, and their numbers of unused bits.
impl PartialEq for Flags {
    ghost eq = { eq_of_both (on (λ flags. flags.1) (pointwise nat_eq)) (on (λ flags. flags.0) nat_eq) };

    ghost laws = { Prim.search (comparing, rules) };

    fn eq(&self, other: &Flags) -> bool {
        self.octets() == other.octets() && self.unused() == other.unused()
    }
}

impl Eq for Flags {
    ghost laws = { Prim.search (comparing, rules) };
}

/// Flags are encoded as a BIT STRING (X.690, 8.6).
impl Der for Flags {
    ghost der = { λ bits. item 0x03 (bits.0 ∷ bits.1) };

    ghost Fits = { λ bits. AreBits bits.0 bits.1 × AreOctets bits.1 };

    fn size(&self) -> u64 {
        item_size(size_of(self.octets.as_slice()) + 1)
    }

    fn put(&self, out: &mut Vec<u8>) {
        put_header(out, 0x03, self.octets.len() as u32 + 1);
        out.push_reserved(self.unused);
        put_octets(out, self.octets.as_slice());
    }

    ghost begins = { λ bits. item_begins 0x03 (bits.0 ∷ bits.1) };

    ghost prefix_free = { same_bits };
}

/// Returns the last octet, or 0 if there is none.
pub fn last_or_zero(octets: &[u8]) -> u8
    ensures { result ≡ last_of octets.now }
{
    match octets {
        [.., last] => *last,
        [] => 0,
    }
}
