//! How many octets were looked at, which contracts alone see.

ghost use Rattle.std.specs.Prelude.{◌≡◌, ◌+◌, ℕ};
ghost use Rattle.std.specs.Borrow.{ftrue};

use std::marker::Model;

/// A number that is not in memory and that no code reads. Of the number of a new ledger nothing is
/// said, so a new one cannot replace an old one.
#[derive(Drop)]
pub(crate) struct Ledger {
    pub(crate) ghost looks: { ℕ },
}

impl Model for Ledger {
    ghost also_owns = { λ _. ftrue };
}

impl Ledger {
    /// Creates a ledger of some number, which the clause leaves open.
    pub(crate) fn new() -> Ledger
        ensures { result.looks ≡ result.looks }
    {
        Ledger {}
    }

    /// Returns the ledger after a number of more looks.
    #[inline(always)]
    pub(crate) fn raised(&self, _looks: &usize) -> Ledger
        ensures { result.looks ≡ self.now.looks + _looks.now }
    {
        Ledger {}
    }
}
