//! Directions that ended, by their numbers.

use crate::directions::Gone;
use krb_der::Memory;
use std::alloc::Global;
use std::cmp::Reverse;
use std::collections::BTreeMap;
use std::marker::Model;

/// What is kept of the directions that ended, by their numbers. The map begins with the greatest
/// number, since a direction mostly ends soon after it began: so its place is found at once.
#[derive(Drop)]
pub(crate) struct Ended {
    map: BTreeMap<Reverse<u64>, Gone>,
}

impl Model for Ended {
    ghost use Rattle.std.specs.List.Sorted.{IsStrictlySortedBy};
    ghost use Rattle.std.specs.Map.{keys_of};
    ghost use Rattle.krb_capture.specs.Ended.{Ended, forward, newest_first};

    ghost Value = { Ended };

    ghost view = { λ ended. record { entries = forward ended.map.entries } };

    ghost invariant = { λ ended. IsStrictlySortedBy newest_first (keys_of ended.map.entries) };
}

ghost use Rattle.std.specs.Prelude.{◌≡◌, [], ◌∷◌, IfNone, IfSome, OnOk};
ghost use Rattle.std.specs.BTreeMap.{insert_entry, is_at};
ghost use Rattle.std.specs.Map.{lookup, remove_entry};
ghost use Rattle.std.specs.Ordering.{nat_cmp};

impl Ended {
    /// Creates one with no directions.
    pub(crate) fn new(alloc: Global) -> Ended
        ensures { result.entries ≡ [] }
    {
        Ended {
            map: BTreeMap::new(alloc),
        }
    }

    /// Returns what is kept of the direction of a number, if it ended.
    pub(crate) fn get(&self, number: u64) -> Option<Gone>
        ensures { result ≡ lookup (is_at (nat_cmp number)) self.now.entries }
    {
        self.map.get(&Reverse(number)).copied()
    }

    /// Keeps a direction by its number.
    #[inline(never)]
    pub(crate) fn insert(&mut self, number: u64, gone: Gone) -> Result<(), Memory>
        ensures { OnOk result (self.new.entries ≡ insert_entry nat_cmp self.old.entries number gone) }
    {
        self.map.insert(Reverse(number), gone)?;
        Ok(())
    }

    /// Forgets the direction of a number.
    pub(crate) fn remove(&mut self, number: u64)
        ensures { self.new.entries ≡ remove_entry (is_at (nat_cmp number)) self.old.entries }
    {
        self.map.remove(&Reverse(number));
    }

    /// Takes the direction of the least number out, and returns it with that.
    pub(crate) fn pop_first(&mut self) -> Option<(u64, Gone)>
        ensures removal { IfSome result (λ first. self.old.entries ≡ first ∷ self.new.entries) }
        ensures none { IfNone result (self.old.entries ≡ []) }
        ensures unchanged { IfNone result (self.new.entries ≡ self.old.entries) }
    {
        let (number, gone) = self.map.pop_last()?;
        Some((number.0, gone))
    }
}
