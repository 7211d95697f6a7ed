//! How the octets of a file are made of those of its parts. A part says what it is made of by a
//! value like `Then(self.kind, &self.octets)`, from which both its size and its octets are worked
//! out.

ghost use Rattle.std.specs.Prelude.{◌≡◌, ◌+◌, ◌<◌, ◌≤◌, ◌^◌, ◌++◌, ◌↔◌, ◌||◌, ℕ, Bool, true, false, List, length, IsNone, IfSome};
ghost use Rattle.std.specs.Int.{w8, w16, w32, to_be_bytes};
ghost use Rattle.std.specs.Int.RustNames.{FitsSigned};
ghost use Rattle.std.specs.List.{flat_map, list_any, AllByRecursion};
ghost use Rattle.std.specs.Vec.{vec_len, vec_capacity};
ghost use Rattle.krb_der.specs.Puts.{Puts};
ghost use Rattle.krb_der.specs.Octets.{AreOctets};
ghost use Rattle.krb_file.specs.Fields.{signed, counted, IsCounted};
ghost use Rattle.krb_files.specs.Parts.{is_long16, is_long32, capped};

use krb_der::{KString, Octets, put_octets, size_of};
use krb_file::String16;
use std::marker::PhantomData;

/// The greatest number of octets of a file that is written, 2^40.
pub const GREATEST_FILE: u64 = 1 << 40;

/// A part of a file.
pub trait Part {
    /// The octets of a part.
    ghost octets: { Self → List ℕ };

    /// Whether a length or a count in a part is too great for the 16 or 32 bits that it is written
    /// in.
    ghost is_long: { Self → Bool };

    /// What holds of each part: its numbers and lengths are in their ranges.
    ghost Fits: { Self → Type 0 };

    /// Returns the number of octets, or 2^40 + 1 if there are more than 2^40. Returns `None` if a
    /// length or a count in the part is too great for the 16 or 32 bits that it is written in.
    fn size(&self) -> Option<u64>
        ensures none { IsNone result ↔ (is_long self.now ≡ true) }
        ensures some { IfSome result (λ size. size ≡ capped (length (octets self.now))) }
        ensures fits { IfSome result (λ _. Fits self.now) };

    /// Appends the octets within the capacity of `out`.
    fn put(&self, out: &mut Vec<u8>)
        requires short { is_long self.now ≡ false }
        requires spare_capacity { vec_len out.old + length (octets self.now) ≤ vec_capacity out.old }
        ensures { Puts (octets self.now) out.old out.new };
}

/// Returns the sum of two numbers of octets, or 2^40 + 1 if it is more.
fn add_capped(size: u64, more: u64) -> u64
    ensures { result ≡ capped (size + more) }
{
    size.saturating_add(more).min(GREATEST_FILE + 1)
}

/// A number of 8 bits.
impl Part for u8 {
    ghost octets = { to_be_bytes w8 };

    ghost is_long = { λ _. false };

    ghost Fits = { λ number. number < 2 ^ 8 };

    fn size(&self) -> Option<u64> {
        let _number = *self;
        Some(1)
    }

    fn put(&self, out: &mut Vec<u8>) {
        put_octets(out, &self.to_be_bytes());
    }
}

/// A number of 16 bits.
impl Part for u16 {
    ghost octets = { to_be_bytes w16 };

    ghost is_long = { λ _. false };

    ghost Fits = { λ number. number < 2 ^ 16 };

    fn size(&self) -> Option<u64> {
        let _number = *self;
        Some(2)
    }

    fn put(&self, out: &mut Vec<u8>) {
        put_octets(out, &self.to_be_bytes());
    }
}

/// A number of 32 bits.
impl Part for u32 {
    ghost octets = { to_be_bytes w32 };

    ghost is_long = { λ _. false };

    ghost Fits = { λ number. number < 2 ^ 32 };

    fn size(&self) -> Option<u64> {
        let _number = *self;
        Some(4)
    }

    fn put(&self, out: &mut Vec<u8>) {
        put_octets(out, &self.to_be_bytes());
    }
}

/// A signed number of 32 bits.
impl Part for i32 {
    ghost octets = { signed w32 };

    ghost is_long = { λ _. false };

    ghost Fits = { FitsSigned w32 };

    fn size(&self) -> Option<u64> {
        let _number = *self;
        Some(4)
    }

    fn put(&self, out: &mut Vec<u8>) {
        put_octets(out, &self.to_be_bytes());
    }
}

/// Octets after their number in 32 bits.
#[derive(Drop)]
pub struct Counted32<'a>(pub &'a [u8]);

impl<'a> Part for Counted32<'a> {
    ghost octets = { λ part. counted w32 part.0.now };

    ghost is_long = { λ part. is_long32 part.0.now };

    ghost Fits = { λ part. IsCounted w32 part.0.now };

    fn size(&self) -> Option<u64> {
        let size = size_of(self.0);
        if size <= 4294967295 {
            Some(4 + size)
        } else {
            None
        }
    }

    fn put(&self, out: &mut Vec<u8>) {
        put_octets(out, &(self.0.len() as u32).to_be_bytes());
        put_octets(out, self.0);
    }
}

/// Octets after their number in 32 bits.
impl Part for Octets {
    ghost octets = { counted w32 };

    ghost is_long = { λ octets. is_long32 octets };

    ghost Fits = { IsCounted w32 };

    fn size(&self) -> Option<u64> {
        Counted32(self.as_slice()).size()
    }

    fn put(&self, out: &mut Vec<u8>) {
        Counted32(self.as_slice()).put(out);
    }
}

/// A string after the number of its octets in 32 bits.
impl Part for KString {
    ghost octets = { counted w32 };

    ghost is_long = { λ octets. is_long32 octets };

    ghost Fits = { IsCounted w32 };

    fn size(&self) -> Option<u64> {
        Counted32(self.octets()).size()
    }

    fn put(&self, out: &mut Vec<u8>) {
        Counted32(self.octets()).put(out);
    }
}

/// Octets after their number in 16 bits.
#[derive(Drop)]
pub struct Counted16<'a>(pub &'a [u8]);

impl<'a> Part for Counted16<'a> {
    ghost octets = { λ part. counted w16 part.0.now };

    ghost is_long = { λ part. is_long16 part.0.now };

    ghost Fits = { λ part. IsCounted w16 part.0.now };

    fn size(&self) -> Option<u64> {
        let size = size_of(self.0);
        if size <= 65535 { Some(2 + size) } else { None }
    }

    fn put(&self, out: &mut Vec<u8>) {
        put_octets(out, &(self.0.len() as u16).to_be_bytes());
        put_octets(out, self.0);
    }
}

/// A part that is borrowed.
impl<'a, P: Part> Part for &'a P {
    ghost octets = { λ part. P.octets part.now };

    ghost is_long = { λ part. P.is_long part.now };

    ghost Fits = { λ part. P.Fits part.now };

    fn size(&self) -> Option<u64> {
        (**self).size()
    }

    fn put(&self, out: &mut Vec<u8>) {
        (**self).put(out);
    }
}

/// A part, and another after it.
#[derive(Drop)]
pub struct Then<A, B>(pub A, pub B);

impl<A: Part, B: Part> Part for Then<A, B> {
    ghost octets = { λ both. A.octets both.0 ++ B.octets both.1 };

    ghost is_long = { λ both. A.is_long both.0 || B.is_long both.1 };

    ghost Fits = { λ both. A.Fits both.0 × B.Fits both.1 };

    fn size(&self) -> Option<u64> {
        let first = self.0.size()?;
        let second = self.1.size()?;
        Some(add_capped(first, second))
    }

    fn put(&self, out: &mut Vec<u8>) {
        self.0.put(out);
        self.1.put(out);
    }
}

/// Octets with no number before them.
#[derive(Drop)]
pub struct Plain<'a>(pub &'a [u8]);

impl<'a> Part for Plain<'a> {
    ghost octets = { λ part. part.0.now };

    ghost is_long = { λ _. false };

    ghost Fits = { λ part. AreOctets part.0.now };

    fn size(&self) -> Option<u64> {
        Some(size_of(self.0).min(GREATEST_FILE + 1))
    }

    fn put(&self, out: &mut Vec<u8>) {
        put_octets(out, self.0);
    }
}

/// The number of items, in 16 bits.
#[derive(Drop)]
pub struct Count16<'a, T>(pub &'a [T]);

impl<'a, T> Part for Count16<'a, T> {
    ghost octets = { λ count. to_be_bytes w16 (length count.0.now) };

    ghost is_long = { λ count. is_long16 count.0.now };

    ghost Fits = { λ count. length count.0.now < 2 ^ 16 };

    fn size(&self) -> Option<u64> {
        if self.0.len() <= 65535 { Some(2) } else { None }
    }

    fn put(&self, out: &mut Vec<u8>) {
        put_octets(out, &(self.0.len() as u16).to_be_bytes());
    }
}

/// The number of items, in 32 bits.
#[derive(Drop)]
pub struct Count32<'a, T>(pub &'a [T]);

impl<'a, T> Part for Count32<'a, T> {
    ghost octets = { λ count. to_be_bytes w32 (length count.0.now) };

    ghost is_long = { λ count. is_long32 count.0.now };

    ghost Fits = { λ count. length count.0.now < 2 ^ 32 };

    fn size(&self) -> Option<u64> {
        if self.0.len() <= 4294967295 {
            Some(4)
        } else {
            None
        }
    }

    fn put(&self, out: &mut Vec<u8>) {
        put_octets(out, &(self.0.len() as u32).to_be_bytes());
    }
}

/// A kind of items, and how each of them is spelled.
trait Spelled {
    /// The type of the items.
    type Value;

    /// The octets of an item.
    ghost octets: { Self.Value → List ℕ };

    /// Whether a length or a count in an item is too great for the 16 or 32 bits that it is written
    /// in.
    ghost is_long: { Self.Value → Bool };

    /// What holds of each item: its numbers and lengths are in their ranges.
    ghost Fits: { Self.Value → Type 0 };

    /// Returns the number of octets of an item, as [`size`](Part::size) of a part does.
    fn size(value: &Self::Value) -> Option<u64>
        ensures none { IsNone result ↔ (is_long value.now ≡ true) }
        ensures some { IfSome result (λ size. size ≡ capped (length (octets value.now))) }
        ensures fits { IfSome result (λ _. Fits value.now) };

    /// Appends the octets of an item within the capacity of `out`.
    fn put(value: &Self::Value, out: &mut Vec<u8>)
        requires short { is_long value.now ≡ false }
        requires spare_capacity { vec_len out.old + length (octets value.now) ≤ vec_capacity out.old }
        ensures { Puts (octets value.now) out.old out.new };
}

/// Parts, each spelled as it is.
struct Itself<P>(PhantomData<P>);

impl<P: Part> Spelled for Itself<P> {
    type Value = P;

    ghost octets = { P.octets };

    ghost is_long = { P.is_long };

    ghost Fits = { P.Fits };

    fn size(value: &P) -> Option<u64> {
        value.size()
    }

    fn put(value: &P, out: &mut Vec<u8>) {
        value.put(out);
    }
}

impl Spelled for String16 {
    type Value = KString;

    ghost octets = { counted w16 };

    ghost is_long = { λ octets. is_long16 octets };

    ghost Fits = { IsCounted w16 };

    fn size(value: &KString) -> Option<u64> {
        Counted16(value.octets()).size()
    }

    fn put(value: &KString, out: &mut Vec<u8>) {
        Counted16(value.octets()).put(out);
    }
}

/// Parts in a row.
#[derive(Drop)]
pub struct Each<'a, P>(pub &'a [P]);

impl<'a, P: Part> Part for Each<'a, P> {
    ghost octets = { λ each. flat_map P.octets each.0.now };

    ghost is_long = { λ each. list_any P.is_long each.0.now };

    ghost Fits = { λ each. AllByRecursion P.Fits each.0.now };

    fn size(&self) -> Option<u64> {
        size_of_each::<Itself<P>>(self.0)
    }

    fn put(&self, out: &mut Vec<u8>) {
        put_each::<Itself<P>>(out, self.0);
    }
}

/// Strings in a row, each after the number of its octets in 16 bits.
#[derive(Drop)]
pub struct Strings16<'a>(pub &'a [KString]);

impl<'a> Part for Strings16<'a> {
    ghost octets = { λ strings. flat_map (counted w16) strings.0.now };

    ghost is_long = { λ strings. list_any is_long16 strings.0.now };

    ghost Fits = { λ strings. AllByRecursion (IsCounted w16) strings.0.now };

    fn size(&self) -> Option<u64> {
        size_of_each::<String16>(self.0)
    }

    fn put(&self, out: &mut Vec<u8>) {
        put_each::<String16>(out, self.0);
    }
}

/// Items after their number in 32 bits.
#[derive(Drop)]
pub struct Listed<'a, P>(pub &'a [P]);

impl<'a, P: Part> Part for Listed<'a, P> {
    ghost octets = { λ listed. to_be_bytes w32 (length listed.0.now) ++ flat_map P.octets listed.0.now };

    ghost is_long = { λ listed. is_long32 listed.0.now || list_any P.is_long listed.0.now };

    ghost Fits = { λ listed. (length listed.0.now < 2 ^ 32) × AllByRecursion P.Fits listed.0.now };

    fn size(&self) -> Option<u64> {
        Then(Count32(self.0), Each(self.0)).size()
    }

    fn put(&self, out: &mut Vec<u8>) {
        Then(Count32(self.0), Each(self.0)).put(out);
    }
}

/// A part after the number of its octets in 16 bits.
#[derive(Drop)]
pub struct Measured<P>(pub P);

impl<P: Part> Part for Measured<P> {
    ghost octets = { λ measured. counted w16 (P.octets measured.0) };

    ghost is_long = { λ measured. P.is_long measured.0 || is_long16 (P.octets measured.0) };

    ghost Fits = { λ measured. P.Fits measured.0 × (length (P.octets measured.0) < 2 ^ 16) };

    fn size(&self) -> Option<u64> {
        let size = self.0.size()?;
        if size <= 65535 { Some(2 + size) } else { None }
    }

    fn put(&self, out: &mut Vec<u8>) {
        // A part that is not too long has a size.
        if let Some(size) = self.0.size() {
            put_octets(out, &(size as u16).to_be_bytes());
            self.0.put(out);
        }
    }
}

/// Returns the number of octets of all the items, or 2^40 + 1 if there are more than 2^40. Returns
/// `None` if a length or a count in one is too great for the 16 or 32 bits that it is written in.
fn size_of_each<K: Spelled>(items: &[K::Value]) -> Option<u64>
    ensures none { IsNone result ↔ (list_any K.is_long items.now ≡ true) }
    ensures some { IfSome result (λ size. size ≡ capped (length (flat_map K.octets items.now))) }
    ensures fits { IfSome result (λ _. AllByRecursion K.Fits items.now) }
{
    let mut size = 0;
    for item in items {
        size = add_capped(size, K::size(item)?);
    }
    Some(size)
}

/// Appends the octets of the items in order, within the capacity of `out`.
fn put_each<K: Spelled>(out: &mut Vec<u8>, items: &[K::Value])
    requires short { list_any K.is_long items.now ≡ false }
    requires spare_capacity { vec_len out.old + length (flat_map K.octets items.now) ≤ vec_capacity out.old }
    ensures { Puts (flat_map K.octets items.now) out.old out.new }
{
    for item in items {
        K::put(item, out);
    }
}
