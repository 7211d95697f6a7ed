//! What a writer was given, and what it wrote to was before. Only proofs read these; they take no
//! memory, and nothing is done at run time.
ghost use Rattle.std.specs.Prelude.{◌≡◌, List, ℕ, [], ◌++◌};
ghost use Rattle.std.specs.Borrow.{ftrue};

use std::marker::{Model, PhantomData};

/// A value as it was.
#[derive(Drop)]
pub struct Before<W> {
    of: PhantomData<W>,
    pub ghost value: { W },
}

impl<W> Model for Before<W> {
    ghost also_owns = { λ _. ftrue };
}

impl<W> Before<W> {
    /// Keeps a value as it is.
    pub(crate) fn of(_value: &W) -> Before<W>
        ensures { result.value ≡ _value.now }
    {
        Before { of: PhantomData }
    }
}

/// Octets that are given.
#[derive(Clone, Copy)]
pub(crate) struct Octets<'a> {
    pub(crate) octets: &'a [u8],
}

/// The octets that were given.
#[derive(Drop)]
pub struct Given {
    pub ghost octets: { List ℕ },
}

impl Model for Given {
    ghost also_owns = { λ _. ftrue };
}

impl Given {
    /// Nothing was given.
    pub(crate) fn none() -> Given
        ensures { result.octets ≡ [] }
    {
        Given {}
    }

    /// The same, and then these octets.
    pub(crate) fn and(&self, _octets: &Octets<'_>) -> Given
        ensures { result.octets ≡ self.now.octets ++ _octets.now.octets.now }
    {
        Given {}
    }
}
