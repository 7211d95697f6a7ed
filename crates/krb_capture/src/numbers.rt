//! The numbers of directions, by their flows.

use crate::flow::Flow;
use krb_der::Memory;
use std::alloc::Global;
use std::collections::BTreeMap;
use std::marker::Model;

/// How many numbers are kept beside the map.
const RECENT: usize = 64;

/// A flow, and the number of its direction.
#[derive(Clone, Copy)]
pub(crate) struct Numbered {
    flow: Flow,
    number: u64,
}

/// The number of the direction of each flow. Those that were looked for last are found without the
/// map, since the two flows of a connection take turns.
#[derive(Drop)]
pub(crate) struct Numbers {
    map: BTreeMap<Flow, u64>,
    /// Some flows of the map, each at its place, and their numbers.
    recent: [Option<Numbered>; RECENT],
}

impl Model for Numbers {
    ghost use Rattle.krb_capture.specs.Numbers.{AreNoted, Numbers};

    ghost Value = { Numbers };

    ghost view = { λ numbers. record { entries = numbers.map.entries } };

    ghost invariant = { λ numbers. AreNoted numbers.recent numbers.map.entries };
}

ghost use Rattle.std.specs.Prelude.{◌≡◌, ◌<◌, ℕ, false, None, Some, [], length, slice_index_or, if◌then◌else◌, is_some, IfOk, OnOk};
ghost use Rattle.std.specs.BTreeMap.{insert_entry, is_at};
ghost use Rattle.std.specs.Map.{lookup, remove_entry};
ghost use Rattle.krb_capture.specs.Directions.{flow_cmp};
ghost use Rattle.krb_capture.specs.Numbers.{place_of};

/// Returns the place of a flow. The two flows of a connection have places of their own.
fn place_of(flow: &Flow) -> usize
    ensures value { result ≡ place_of flow.now }
    ensures few { result < 64 }
{
    let ports = usize::from(flow.source_port) + usize::from(flow.target_port);
    ports % (RECENT / 2) * 2 + usize::from(flow.source_port < flow.target_port)
}

/// Returns places with no flows.
fn no_recent() -> [Option<Numbered>; RECENT]
    ensures { (place : ℕ) → slice_index_or result place None ≡ None }
{
    [None; RECENT]
}

impl Numbers {
    /// Creates one with no flows.
    pub(crate) fn new(alloc: Global) -> Numbers
        ensures { result.entries ≡ [] }
    {
        let recent = no_recent();
        Numbers {
            map: BTreeMap::new(alloc),
            recent,
        }
    }

    /// Returns how many flows have numbers.
    pub(crate) fn len(&self) -> usize
        ensures { result ≡ length self.now.entries }
    {
        self.map.len()
    }

    /// Returns the number of a flow, if it has one.
    pub(crate) fn get(&mut self, flow: &Flow) -> Option<u64>
        ensures value { result ≡ lookup (is_at (flow_cmp flow.now)) self.old.entries }
        ensures same { self.new ≡ self.old }
    {
        let place = place_of(flow);
        match &self.recent[place] {
            Some(recent) if recent.flow == *flow => return Some(recent.number),
            _ => {}
        }
        let number = self.map.get(flow).copied()?;
        self.recent[place] = Some(Numbered {
            flow: *flow,
            number,
        });
        Some(number)
    }

    /// Gives a flow a number.
    #[inline(never)]
    pub(crate) fn insert(&mut self, flow: Flow, number: u64) -> Result<(), Memory>
        ensures entries { OnOk result (self.new.entries ≡ insert_entry flow_cmp self.old.entries flow number) }
        ensures known { OnOk result (lookup (is_at (flow_cmp flow)) self.new.entries ≡ Some number) }
    {
        self.map.insert(flow, number)?;
        self.recent[place_of(&flow)] = Some(Numbered { flow, number });
        Ok(())
    }

    /// Returns the number of a flow, or gives it one if it has none.
    pub(crate) fn get_or_insert(&mut self, flow: Flow, number: u64) -> Result<Option<u64>, Memory>
        ensures value { IfOk result (λ old. old ≡ lookup (is_at (flow_cmp flow)) self.old.entries) }
        ensures entries { IfOk result (λ old. self.new.entries ≡ (if is_some old then self.old.entries else insert_entry flow_cmp self.old.entries flow number)) }
        ensures known { IfOk result (λ old. is_some old ≡ false → lookup (is_at (flow_cmp flow)) self.new.entries ≡ Some number) }
    {
        let old = self.map.insert(flow, number)?;
        match old {
            None => self.recent[place_of(&flow)] = Some(Numbered { flow, number }),
            Some(old) => {
                self.map.insert(flow, old)?;
            }
        }
        Ok(old)
    }

    /// Takes the number of a flow away.
    pub(crate) fn remove(&mut self, flow: &Flow)
        ensures { self.new.entries ≡ remove_entry (is_at (flow_cmp flow.now)) self.old.entries }
    {
        self.map.remove(flow);
        self.recent[place_of(flow)] = None;
    }
}
