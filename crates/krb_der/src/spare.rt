//! Vectors that are kept to be used again.

ghost use Rattle.std.specs.Prelude.{◌≡◌, ◌≤◌, [], IfOk};

use crate::kstring::KString;
use crate::many::Many;
use crate::octets::Octets;
use std::alloc::{AllocError, Global};

/// The greatest number of vectors that are kept.
const MOST: usize = 16;

/// The greatest number of lists that are kept.
const MOST_LISTS: usize = 4;

/// The greatest capacity of a list that is kept, in strings.
const MOST_STRINGS: usize = 64;

/// The greatest capacity of a vector that is kept, in octets.
const MOST_CAPACITY: usize = 4096;

/// The vectors of values that are not needed any more: at most 16 vectors of octets, each with a
/// capacity of at most 4096, and 4 lists of strings, each with a capacity of at most 64. Values
/// that are read use these before they allocate. Contracts do not see what is kept.
#[derive(Drop)]
pub struct SpareVectors {
    vectors: [Option<Vec<u8>>; MOST],
    /// The number of vectors, which are the first of the array.
    count: usize,
    pub ghost few: { count ≤ 16 },
    lists: [Option<Vec<KString>>; MOST_LISTS],
    /// The number of lists, which are the first of the array.
    list_count: usize,
    pub ghost few_lists: { list_count ≤ 4 },
}

/// A type whose values leave their vectors to be used again.
pub trait GiveBack: Drop {
    /// Leaves the vectors of the value to values that are copied after it.
    fn give_back(self, spare: &mut SpareVectors);

    /// Leaves the vector of an empty list of such values to values that are copied after it.
    fn give_back_list(_list: Vec<Self>, _spare: &mut SpareVectors) {}
}

impl SpareVectors {
    /// Returns a `SpareVectors` that keeps nothing.
    pub fn new() -> SpareVectors {
        SpareVectors {
            vectors: [
                None, None, None, None, None, None, None, None, None, None, None, None, None, None,
                None, None,
            ],
            count: 0,
            lists: [None, None, None, None],
            list_count: 0,
        }
    }

    /// Keeps a vector, unless there are [`MOST`] already, or its capacity is too great.
    fn keep(&mut self, vector: Vec<u8>) {
        if self.count < MOST && vector.capacity() <= MOST_CAPACITY {
            self.vectors[self.count] = Some(vector);
            self.count += 1;
        }
    }

    /// Returns an empty vector: one of those that are kept, if there is one.
    #[inline(always)]
    pub fn take(&mut self, alloc: Global) -> Vec<u8>
        ensures { result.items ≡ [] }
    {
        if self.count > 0 {
            self.count -= 1;
            if let Some(mut vector) = self.vectors[self.count].take() {
                vector.clear();
                return vector;
            }
        }
        Vec::new(alloc)
    }

    /// Keeps a list, unless there are [`MOST_LISTS`] already, or its capacity is too great.
    fn keep_list(&mut self, list: Vec<KString>) {
        if self.list_count < MOST_LISTS && list.capacity() <= MOST_STRINGS {
            self.lists[self.list_count] = Some(list);
            self.list_count += 1;
        }
    }

    /// Returns an empty list: one of those that are kept, if there is one.
    pub fn take_list(&mut self, alloc: Global) -> Vec<KString>
        ensures { result.items ≡ [] }
    {
        if self.list_count > 0 {
            self.list_count -= 1;
            if let Some(mut list) = self.lists[self.list_count].take() {
                list.clear();
                return list;
            }
        }
        Vec::new(alloc)
    }

    /// Returns a copy of octets, in one of the vectors that are kept, if there is one.
    pub fn copy(&mut self, alloc: Global, octets: &[u8]) -> Result<Vec<u8>, AllocError>
        ensures { IfOk result (λ copied. copied.items ≡ octets.now) }
    {
        let mut copied = self.take(alloc);
        copied.reserve_exact(octets.len())?;
        copied.extend_from_slice(octets)?;
        Ok(copied)
    }
}

impl GiveBack for KString {
    fn give_back(self, spare: &mut SpareVectors) {
        spare.keep(self.into_vec());
    }

    fn give_back_list(list: Vec<KString>, spare: &mut SpareVectors) {
        spare.keep_list(list);
    }
}

impl GiveBack for Octets {
    fn give_back(self, spare: &mut SpareVectors) {
        spare.keep(self.into_vec());
    }
}

impl<T: GiveBack> GiveBack for Many<T> {
    fn give_back(self, spare: &mut SpareVectors) {
        let mut values = self.into_vec();
        for _ in 0..values.len() {
            if let Some(value) = values.pop() {
                value.give_back(spare);
            }
        }
        T::give_back_list(values, spare);
    }
}
