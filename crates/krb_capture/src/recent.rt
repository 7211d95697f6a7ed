//! The last octets of directions that ended.

ghost use Rattle.std.specs.Prelude.{◌≡◌, ℕ, List, [], ◌∷◌, ◌++◌, length, IfOk};
ghost use Rattle.krb_capture.specs.Recent.{Remembers, still_kept};
ghost use Rattle.krb_flow.specs.Window.{last};

use krb_der::Memory;
use std::alloc::Global;

/// Of how many directions that ended octets are kept.
const MOST_ENDED: u64 = 4096;

/// The last octets of the 4096 directions that ended last, at most 4096 of each, so 16 MiB at most.
#[derive(Drop)]
pub(crate) struct Recent {
    /// Those of each, at its number modulo 4096.
    slots: Vec<Vec<u8>>,
    /// How many directions ended.
    count: u64,
}

impl Recent {
    /// Creates one with no directions.
    pub(crate) fn new(alloc: Global) -> Recent
        ensures { Remembers result [] }
    {
        Recent {
            slots: Vec::new(alloc),
            count: 0,
        }
    }

    /// Keeps the last octets of a direction that ended, in place of those of the one that ended 4096
    /// before it. Returns how many ended before it.
    #[inline(never)]
    pub(crate) fn push(&mut self, octets: Vec<u8>) -> Result<u64, Memory>
        ensures { IfOk result (λ nth. (streams : List (List ℕ)) (stream : List ℕ) → Remembers self.old streams → octets.items ≡ last 4096 stream → (nth ≡ length streams) × Remembers self.new (streams ++ stream ∷ [])) }
    {
        let nth = self.count;
        let Some(count) = nth.checked_add(1) else {
            return Err(Memory);
        };
        let place = (nth % MOST_ENDED) as usize;
        if place < self.slots.len() {
            self.slots[place] = octets;
            self.count = count;
            return Ok(nth);
        }
        self.slots.push(octets)?;
        self.count = count;
        Ok(nth)
    }

    /// Returns the last octets of the direction before which so many ended, if they are still kept.
    pub(crate) fn get(&self, nth: u64) -> &[u8]
        ensures { (streams : List (List ℕ)) → Remembers self.now streams → result.now ≡ last 4096 (still_kept streams nth) }
    {
        if nth >= self.count || self.count - nth > MOST_ENDED {
            return &[];
        }
        match self.slots.get((nth % MOST_ENDED) as usize) {
            Some(octets) => octets.as_slice(),
            None => &[],
        }
    }
}
