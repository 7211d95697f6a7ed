//! Datagrams that are put together, found by what their fragments have in common.

ghost use Rattle.std.specs.Prelude.{◌≡◌, ◌++◌, ◌<◌, None, Some, Err, [], ◌∷◌, length, map, remove, slice_index, IfOk, OnErr, OnOk};
ghost use Rattle.std.specs.List.{slice_index_or};
ghost use Rattle.krb_packet.specs.Fragments.{no_fragments, no_fragments_of, whole_of, with_fragment_at, without_first, finished, inner, inside, step, unread};
ghost use Rattle.krb_packet.specs.Table.{pending_in, table_of};
ghost use Rattle.krb_packet.specs.inner.Places.{IsFound, IsGap, IsIndexed, fewer_than, original_cmp, place_without};

use crate::contents::{Contents, Fragment, Original};
use crate::fragments::{Pending, Reassembled};
use krb_der::Memory;
use std::alloc::Global;
use std::cmp::Ordering;

/// How many datagrams are put together at once.
pub(crate) const MOST_DATAGRAMS: usize = 1024;

/// Datagrams that are put together, none of which is whole. It is public for contracts alone.
#[derive(Drop)]
pub struct Datagrams {
    /// In the order in which they began.
    pending: Vec<Box<Pending>>,
    /// The place of each of them, in the order of what their fragments have in common.
    places: Vec<usize>,
    /// How many fragments came of the datagrams that were given up.
    given_up: u64,
}

/// Lowers places after that of a datagram that is removed.
fn lower(places: &mut [usize], removed: usize)
    ensures { places.new ≡ map (place_without removed) places.old }
{
    for place in places.iter_mut() {
        if *place > removed {
            *place -= 1;
        }
    }
}

/// Returns the fragment that is carried, if it is one.
fn inner<'a>(contents: Contents<'a>) -> Option<Fragment<'a>>
    ensures { result ≡ inner contents.entry }
{
    match contents {
        Contents::Fragment(fragment) => Some(fragment),
        _ => None,
    }
}

impl Datagrams {
    /// Creates a table of no datagrams.
    pub(crate) fn new(alloc: Global) -> Datagrams
        ensures table { table_of result ≡ no_fragments }
        ensures index { IsIndexed result }
    {
        Datagrams {
            pending: Vec::new(alloc),
            places: Vec::new(alloc),
            given_up: 0,
        }
    }

    /// Compares the datagram at a place with another one. If there is none, they are equal.
    fn compare(&self, place: usize, original: &Original) -> Ordering
        ensures { result ≡ original_cmp (slice_index_or (pending_in self.now) place (no_fragments_of original.now)).original original.now }
    {
        match self.pending.get(place) {
            Some(pending) => pending.original.cmp(original),
            None => Ordering::Equal,
        }
    }

    /// Returns where among the places is that of a datagram, or where it would be.
    fn search(&self, original: &Original) -> Result<usize, usize>
        requires { IsIndexed self.now }
        ensures { IsFound result original.now self.now.places.items (pending_in self.now) }
    {
        self.places
            .binary_search_by(|place| self.compare(*place, original))
    }

    /// Adds a datagram, whose place comes to `at` among the places. Out of memory, nothing changes.
    fn push(&mut self, alloc: Global, at: usize, pending: Pending) -> Result<(), Memory>
        requires index { IsIndexed self.old }
        requires gap { IsGap at pending.original self.old.places.items (pending_in self.old) }
        requires open { whole_of pending ≡ None }
        ensures pushed { OnOk result (table_of self.new ≡ record (table_of self.old) { pending = pending_in self.old ++ pending ∷ [] }) }
        ensures index { IsIndexed self.new }
        ensures memory { OnErr result (table_of self.new ≡ table_of self.old) }
    {
        let place = self.pending.len();
        let pending = Box::new(alloc, pending)?;
        self.places.try_reserve(1)?;
        self.pending.push(pending)?;
        self.places.insert(at, place)?;
        Ok(())
    }

    /// Removes and returns the datagram whose place is at an index of the places.
    fn remove(&mut self, at: usize) -> Box<Pending>
        requires index { IsIndexed self.old }
        requires within { at < length self.old.places.items }
        ensures value { result.value ≡ slice_index_or (pending_in self.old) (slice_index self.old.places.items at) result.value }
        ensures removed { table_of self.new ≡ record (table_of self.old) { pending = remove (pending_in self.old) (slice_index self.old.places.items at) } }
        ensures index { IsIndexed self.new }
    {
        let place = self.places.remove(at);
        lower(&mut self.places, place);
        self.pending.remove(place)
    }

    /// Gives up the datagram that began first.
    fn give_up_first(&mut self)
        requires index { IsIndexed self.old }
        requires some { 0 < length (pending_in self.old) }
        ensures given_up { table_of self.new ≡ without_first (pending_in self.old) self.old.given_up }
        ensures index { IsIndexed self.new }
    {
        let original = self.pending[0].original;
        if let Ok(at) = self.search(&original) {
            let first = self.remove(at);
            self.given_up = self.given_up.saturating_add(first.count);
        }
    }

    /// Gives up the datagram that began first, if there are `many` or more.
    fn keep_fewer_than(&mut self, many: usize)
        requires index { IsIndexed self.old }
        requires some { 0 < many }
        ensures fewer { table_of self.new ≡ fewer_than many (table_of self.old) }
        ensures index { IsIndexed self.new }
    {
        if self.pending.len() >= many {
            self.give_up_first();
        }
    }

    /// Adds a fragment of a datagram whose place is at an index of the places. Out of memory,
    /// nothing changes.
    fn go_on(
        &mut self,
        alloc: Global,
        at: usize,
        fragment: &Fragment<'_>,
    ) -> Result<Option<Reassembled>, Memory>
        requires index { IsIndexed self.old }
        requires within { at < length self.old.places.items }
        ensures whole { IfOk result (λ whole. whole ≡ (finished (with_fragment_at (table_of self.old) fragment.now (Some (slice_index self.old.places.items at)))).0) }
        ensures state { OnOk result (table_of self.new ≡ (finished (with_fragment_at (table_of self.old) fragment.now (Some (slice_index self.old.places.items at)))).1) }
        ensures index { IsIndexed self.new }
        ensures memory { OnErr result (table_of self.new ≡ table_of self.old) }
    {
        let place = self.places[at];
        match self.pending[place].take(alloc, fragment)? {
            Some(whole) => {
                self.remove(at);
                Ok(Some(whole))
            }
            None => Ok(None),
        }
    }

    /// Begins a datagram with a fragment, whose place comes to `at` among the places; if it is
    /// whole with that, it is returned. Out of memory, nothing changes.
    fn begin(
        &mut self,
        alloc: Global,
        at: usize,
        fragment: &Fragment<'_>,
    ) -> Result<Option<Reassembled>, Memory>
        requires index { IsIndexed self.old }
        requires gap { IsGap at fragment.now.original self.old.places.items (pending_in self.old) }
        ensures whole { IfOk result (λ whole. whole ≡ (finished (with_fragment_at (table_of self.old) fragment.now None)).0) }
        ensures state { OnOk result (table_of self.new ≡ (finished (with_fragment_at (table_of self.old) fragment.now None)).1) }
        ensures index { IsIndexed self.new }
        ensures memory { OnErr result (table_of self.new ≡ table_of self.old) }
    {
        let mut pending = Pending::new(alloc, fragment.original);
        match pending.take(alloc, fragment)? {
            Some(whole) => {
                self.keep_fewer_than(MOST_DATAGRAMS);
                Ok(Some(whole))
            }
            None => {
                self.push(alloc, at, pending)?;
                self.keep_fewer_than(MOST_DATAGRAMS + 1);
                Ok(None)
            }
        }
    }

    /// Adds a fragment, and returns the whole datagram if that is completed by it. Out of memory,
    /// nothing changes.
    #[tactic(auto, unfolding(crate::specs::Fragments::step))]
    pub(crate) fn take(
        &mut self,
        alloc: Global,
        fragment: &Fragment<'_>,
    ) -> Result<Option<Reassembled>, Memory>
        requires { IsIndexed self.old }
        ensures whole { IfOk result (λ whole. whole ≡ (step (table_of self.old) fragment.now).0) }
        ensures state { OnOk result (table_of self.new ≡ (step (table_of self.old) fragment.now).1) }
        ensures index { IsIndexed self.new }
        ensures memory { OnErr result (table_of self.new ≡ table_of self.old) }
    {
        match self.search(&fragment.original) {
            Ok(at) => self.go_on(alloc, at, fragment),
            Err(at) => self.begin(alloc, at, fragment),
        }
    }

    /// Adds the fragment that a whole datagram carries, if it does, and that of the datagram which is
    /// completed by it, and so on, at most `most` of them. Returns the last one, or `None` if one of
    /// the fragments completes nothing.
    pub(crate) fn go_inside(
        &mut self,
        alloc: Global,
        port: u16,
        most: usize,
        whole: Reassembled,
    ) -> Result<Option<Reassembled>, Memory>
        requires { IsIndexed self.old }
        ensures whole { IfOk result (λ left. left ≡ (inside port most whole (table_of self.old)).0) }
        ensures state { OnOk result (table_of self.new ≡ (inside port most whole (table_of self.old)).1) }
        ensures index { IsIndexed self.new }
    {
        let mut whole = whole;
        for _ in 0..most {
            let next = match inner(whole.carried(port)) {
                Some(fragment) => self.take(alloc, &fragment)?,
                None => return Ok(Some(whole)),
            };
            match next {
                Some(next) => whole = next,
                None => return Ok(None),
            }
        }
        Ok(Some(whole))
    }

    /// Returns the number of fragments that are part of no whole datagram, at most 2^64 - 1.
    #[tactic(auto, unfolding(crate::specs::Fragments::unread))]
    pub(crate) fn unread(&self) -> u64
        ensures { result ≡ unread (table_of self.now) }
    {
        self.pending.iter().fold(self.given_up, |count, pending| {
            count.saturating_add(pending.count)
        })
    }
}
