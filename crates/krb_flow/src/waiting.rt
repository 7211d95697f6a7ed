//! Octets that came early, in runs of octets that follow each other.

ghost use Rattle.std.specs.Prelude.{◌≡◌, ◌+◌, ◌-◌, ◌++◌, ◌<◌, ◌≤◌, ◌^◌, [], All, length, slice_get, take, IfOk, IfSome, OnOk};
ghost use Rattle.std.specs.Map.{keys_of};
ghost use Rattle.std.specs.BTreeMap.{insert_entry};
ghost use Rattle.std.specs.Option.{option_map};
ghost use Rattle.std.specs.Ordering.{nat_cmp};
ghost use Rattle.krb_flow.specs.inner.Runs.{AreApart, AreFree, waiting_in};
ghost use Rattle.krb_flow.specs.inner.Stretches.{IsStretch, KeepsSome};
ghost use Rattle.krb_flow.specs.Copies.{differing, differs_waiting, summary};
ghost use Rattle.krb_flow.specs.Waiting.{early, keep, ready};
ghost use Rattle.krb_flow.specs.inner.Founds.{IsFound};

use crate::copies::{Differing, compare};
use krb_der::Memory;
use std::alloc::Global;
use std::collections::BTreeMap;
use std::marker::Model;

/// The greatest run that is copied to join it with the one before it. So a stream whose octets come
/// backwards has few runs, and no long one is copied again and again.
const SHORT_RUN: usize = 64;

/// Octets that wait, each in a run of octets that follow each other. It allocates for these
/// octets, and some for each run.
#[derive(Drop)]
pub(crate) struct Runs {
    alloc: Global,
    /// The runs, each by the place after its last octet.
    runs: BTreeMap<u64, Vec<u8>>,
    /// How many octets they have.
    octets: usize,
}

impl Model for Runs {
    ghost use Rattle.std.specs.Prelude.{◌≡◌, length};
    ghost use Rattle.krb_flow.specs.Waiting.{Waiting};
    ghost use Rattle.krb_flow.specs.inner.Runs.{AreApart, waiting_in};

    ghost Value = { Waiting };

    ghost view = { λ a. waiting_in a.runs.entries };

    ghost invariant = { λ a. AreApart 0 a.runs.entries × (a.octets ≡ length (waiting_in a.runs.entries)) };
}

/// What is at a place and at those after it.
#[derive(Clone, Copy)]
enum Stretch {
    /// So many octets wait there.
    Occupied(u64),
    /// So many places are free.
    Free(u64),
}

/// What waits at a place and at those after it.
#[derive(Clone, Copy)]
enum Found<'a> {
    /// These octets.
    Octets(&'a [u8]),
    /// Nothing, at so many places.
    Nothing(u64),
}

/// How many of some octets were looked at, and how many of these were kept.
#[derive(Clone, Copy)]
struct Kept {
    seen: usize,
    kept: usize,
}

/// Returns what is at a place and at those after it, up to where a run begins or ends.
fn stretch_at(runs: &BTreeMap<u64, Vec<u8>>, place: u64) -> Stretch
    requires apart { AreApart 0 runs.now.entries }
    requires fits { place < 2 ^ 64 - 1 }
    ensures { IsStretch place runs.now.entries result }
{
    match runs.range(place + 1..).next() {
        Some((&end, run)) => {
            let first = end - run.len() as u64;
            if first <= place {
                Stretch::Occupied(end - place)
            } else {
                Stretch::Free(first - place)
            }
        }
        None => Stretch::Free(u64::MAX - place),
    }
}

/// Returns what waits at a place and at those after it, up to where a run begins or ends.
fn found_at(runs: &BTreeMap<u64, Vec<u8>>, place: u64) -> Found<'_>
    requires apart { AreApart 0 runs.now.entries }
    requires fits { place < 2 ^ 64 - 1 }
    ensures { IsFound place runs.now.entries result }
{
    match runs.range(place + 1..).next() {
        Some((&end, run)) => {
            let first = end - run.len() as u64;
            if first <= place {
                let octets = &run[(place - first) as usize..];
                Found::Octets(octets)
            } else {
                Found::Nothing(first - place)
            }
        }
        None => Found::Nothing(u64::MAX - place),
    }
}

/// How many of some octets were compared with those that wait, and the places at which these
/// differ.
#[derive(Clone, Copy)]
struct Seen {
    seen: usize,
    differing: Differing,
}

/// Compares the first of octets from a place on with what waits there, up to where a run begins or
/// ends.
fn differing_first(runs: &BTreeMap<u64, Vec<u8>>, place: u64, octets: &[u8]) -> Seen
    requires apart { AreApart 0 runs.now.entries }
    requires some { 0 < length octets.now }
    requires fits { place + length octets.now < 2 ^ 64 }
    ensures one { 0 < result.seen }
    ensures within { result.seen ≤ length octets.now }
    ensures few { result.differing.count ≤ result.seen }
    ensures differing { result.differing ≡ summary (differing (differs_waiting (waiting_in runs.now.entries)) place (take result.seen octets.now)) }
{
    match found_at(runs, place) {
        Found::Octets(others) => {
            let seen = octets.len().min(others.len());
            Seen {
                seen,
                differing: compare(place, &octets[..seen], &others[..seen]),
            }
        }
        Found::Nothing(count) => Seen {
            seen: octets.len().min(count as usize),
            differing: Differing::none(),
        },
    }
}

/// Returns the places of those octets from a place on at which another octet waits.
fn differing_in(runs: &BTreeMap<u64, Vec<u8>>, place: u64, octets: &[u8]) -> Differing
    requires apart { AreApart 0 runs.now.entries }
    requires fits { place + length octets.now < 2 ^ 64 }
    ensures few { result.count ≤ length octets.now }
    ensures differing { result ≡ summary (differing (differs_waiting (waiting_in runs.now.entries)) place octets.now) }
{
    let mut place = place;
    let mut octets = octets;
    let mut all = Differing::none();
    while !octets.is_empty() {
        let first = differing_first(runs, place, octets);
        octets = &octets[first.seen..];
        place += first.seen as u64;
        all = all.and(first.differing);
    }
    all
}

/// Inserts a run that ends at a place. The run that begins there is joined with it, if it is short.
fn insert_run(runs: &mut BTreeMap<u64, Vec<u8>>, end: u64, mut run: Vec<u8>) -> Result<(), Memory>
    requires { AreApart 0 (insert_entry nat_cmp runs.old.entries end run) }
    ensures same { OnOk result (waiting_in runs.new.entries ≡ waiting_in (insert_entry nat_cmp runs.old.entries end run)) }
    ensures apart { OnOk result (AreApart 0 runs.new.entries) }
{
    if let Some((&next_end, next)) = runs.range(end..).next() {
        let count = next.len();
        if count <= SHORT_RUN && next_end - end == count as u64 {
            run.extend_from_slice(next.as_slice())?;
            runs.insert(next_end, run)?;
            return Ok(());
        }
    }
    runs.insert(end, run)?;
    Ok(())
}

/// Keeps octets from a place on, at places at which none waits. They go on with the run that ends
/// there, if one does.
fn put(
    alloc: Global,
    runs: &mut BTreeMap<u64, Vec<u8>>,
    place: u64,
    octets: &[u8],
) -> Result<(), Memory>
    requires apart { AreApart 0 runs.old.entries }
    requires free { AreFree place (length octets.now) runs.old.entries }
    requires some { 0 < length octets.now }
    requires fits { place + length octets.now < 2 ^ 64 }
    ensures kept { OnOk result (waiting_in runs.new.entries ≡ keep place octets.now (waiting_in runs.old.entries)) }
    ensures count { OnOk result (length (waiting_in runs.new.entries) ≡ length (waiting_in runs.old.entries) + length octets.now) }
    ensures apart { OnOk result (AreApart 0 runs.new.entries) }
{
    let mut run = runs.remove(&place).unwrap_or(Vec::new(alloc));
    run.extend_from_slice(octets)?;
    insert_run(runs, place + octets.len() as u64, run)
}

/// Keeps the first of octets from a place on, up to where a run begins or ends, if no
/// octet waits there.
fn keep_first(
    alloc: Global,
    runs: &mut BTreeMap<u64, Vec<u8>>,
    place: u64,
    octets: &[u8],
) -> Result<Kept, Memory>
    requires apart { AreApart 0 runs.old.entries }
    requires some { 0 < length octets.now }
    requires fits { place + length octets.now < 2 ^ 64 }
    ensures { IfOk result (KeepsSome place octets.now runs.old.entries runs.new.entries) }
{
    match stretch_at(runs, place) {
        Stretch::Occupied(count) => Ok(Kept {
            seen: octets.len().min(count as usize),
            kept: 0,
        }),
        Stretch::Free(count) => {
            let seen = octets.len().min(count as usize);
            put(alloc, runs, place, &octets[..seen])?;
            Ok(Kept { seen, kept: seen })
        }
    }
}

/// Keeps octets from a place on, each where no octet waits yet, and returns how many it kept.
fn keep_all(
    alloc: Global,
    runs: &mut BTreeMap<u64, Vec<u8>>,
    place: u64,
    octets: &[u8],
) -> Result<usize, Memory>
    requires apart { AreApart 0 runs.old.entries }
    requires fits { place + length octets.now < 2 ^ 64 }
    ensures kept { OnOk result (waiting_in runs.new.entries ≡ keep place octets.now (waiting_in runs.old.entries)) }
    ensures count { IfOk result (λ count. length (waiting_in runs.new.entries) ≡ length (waiting_in runs.old.entries) + count) }
    ensures apart { OnOk result (AreApart 0 runs.new.entries) }
{
    let mut place = place;
    let mut octets = octets;
    let mut count = 0;
    while !octets.is_empty() {
        let first = keep_first(alloc, runs, place, octets)?;
        octets = &octets[first.seen..];
        place += first.seen as u64;
        count += first.kept;
    }
    Ok(count)
}

impl Runs {
    /// Creates one in which no octet waits.
    pub(crate) fn new(alloc: Global) -> Runs
        ensures { result ≡ [] }
    {
        Runs {
            alloc,
            runs: BTreeMap::new(alloc),
            octets: 0,
        }
    }

    /// Returns how many octets wait.
    pub(crate) fn len(&self) -> usize
        ensures { result ≡ length self.now }
    {
        self.octets
    }

    /// Returns the place of the first octet that waits.
    pub(crate) fn first_place(&self) -> Option<u64>
        ensures first { result ≡ option_map (λ entry. entry.0) (slice_get self.now 0) }
        ensures least { IfSome result (λ first. All (λ place. first ≤ place) (keys_of self.now)) }
    {
        let (end, run) = self.runs.first_key_value()?;
        Some(*end - run.len() as u64)
    }

    /// Returns the places of those octets from a place on at which another octet waits.
    pub(crate) fn differing(&self, place: u64, octets: &[u8]) -> Differing
        requires { place + length octets.now < 2 ^ 64 }
        ensures few { result.count ≤ length octets.now }
        ensures differing { result ≡ summary (differing (differs_waiting self.now) place octets.now) }
    {
        if self.octets == 0 {
            return Differing::none();
        }
        differing_in(&self.runs, place, octets)
    }

    /// Keeps octets from a place on, each where no octet waits yet. Out of memory, no octet waits
    /// any more.
    fn keep(&mut self, place: u64, octets: &[u8]) -> Result<(), Memory>
        requires { place + length octets.now < 2 ^ 64 }
        ensures { OnOk result (self.new ≡ keep place octets.now self.old) }
    {
        match keep_all(self.alloc, &mut self.runs, place, octets) {
            Ok(count) => {
                self.octets += count;
                Ok(())
            }
            Err(memory) => {
                self.runs.clear();
                self.octets = 0;
                Err(memory)
            }
        }
    }

    /// Moves the octets from a place on, up to the first one that is missing, into a
    /// vector, which has them alone then.
    fn release(&mut self, expected: u64, released: &mut Vec<u8>) -> Result<(), Memory>
        requires { expected < 2 ^ 63 }
        ensures octets { OnOk result (released.new.items ≡ ready expected self.old) }
        ensures waiting { OnOk result (self.new ≡ early expected self.old) }
    {
        released.clear();
        while let Some((&end, run)) = self.runs.first_key_value() {
            let count = run.len();
            if end - count as u64 != expected + released.len() as u64 {
                break;
            }
            released.extend_from_slice(run.as_slice())?;
            self.runs.pop_first();
            self.octets -= count;
        }
        Ok(())
    }

    /// Returns how many of `count` octets, which begin `ahead` octets after the place that is
    /// expected, are expected and before all that wait.
    fn prefix(&self, expected: u64, ahead: u32, count: usize) -> usize
        ensures few { result ≤ count }
        ensures here { 0 < result → ahead ≡ 0 }
        ensures before { 0 < result → All (λ place. expected + result ≤ place) (keys_of self.now) }
    {
        if ahead > 0 {
            return 0;
        }
        match self.first_place() {
            Some(first) => count.min(first.saturating_sub(expected) as usize),
            None => count,
        }
    }

    /// Takes octets that begin `ahead` octets after the place that is expected. Returns those of
    /// them that are taken at once, borrowed, and moves those that waited and are taken after them
    /// into `released`.
    pub(crate) fn pass<'a>(
        &mut self,
        expected: u64,
        ahead: u32,
        octets: &'a [u8],
        released: &mut Vec<u8>,
    ) -> Result<&'a [u8], Memory>
        requires { expected + length octets.now < 2 ^ 63 }
        ensures few { IfOk result (λ prefix. length prefix.now ≤ length octets.now) }
        ensures octets { IfOk result (λ prefix. prefix.now ++ released.new.items ≡ ready expected (keep (expected + ahead) octets.now self.old)) }
        ensures waiting { OnOk result (self.new ≡ early expected (keep (expected + ahead) octets.now self.old)) }
    {
        let (prefix, rest) = octets.split_at(self.prefix(expected, ahead, octets.len()));
        let after = expected + prefix.len() as u64;
        self.keep(after + u64::from(ahead), rest)?;
        self.release(after, released)?;
        Ok(prefix)
    }
}
