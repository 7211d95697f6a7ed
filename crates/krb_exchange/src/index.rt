//! By what sendings are found.

ghost use Rattle.std.specs.Prelude.{◌≡◌, ◌+◌, ◌-◌, nat_lt, ◌<◌, ◌≤◌, ◌^◌, ◌&&◌, ◌||◌, not, ℕ, true, false, None, Some, List, [], ◌∷◌, ◌++◌, length, slice_get, slice_set, if◌then◌else◌, OnErr, OnOk};
ghost use Rattle.std.specs.BTreeMap.{is_at};
ghost use Rattle.std.specs.Map.{lookup};
ghost use Rattle.krb_exchange.specs.Happened.{first_place, fits, in_state, is_open, is_open_request, is_syn_of, latest_place, same_kind};
ghost use Rattle.krb_exchange.specs.inner.Indexes.{AddsRequest, AddsSyn, Indexes, is_kept, numbered, one_if, open_syns_in, with_octets};
ghost use Rattle.krb_exchange.specs.inner.Numbers.{has, same_key};

use crate::fingerprint::Fingerprint;
use crate::flow_key::FlowKey;
use crate::open::Open;
use crate::parties::Reply;
use crate::sending::{Sending, State, What};
use krb_der::Memory;
use krb_record::{Flow, Request};
use std::alloc::Global;
use std::collections::BTreeMap;

/// The numbers of sendings, by what they are looked for. It allocates for each.
#[derive(Drop)]
pub(crate) struct Index {
    /// The requests that are open.
    open: Open,
    /// The latest request of the same octets.
    requests: BTreeMap<Fingerprint, u64>,
    /// The latest SYN of each flow.
    syns: BTreeMap<FlowKey, u64>,
    /// How many SYNs are open: where none is, none is looked for.
    open_syns: u64,
}

/// Forgets a number, if it is the one of a key.
fn forget<K: Ord + Drop>(numbers: &mut BTreeMap<K, u64>, key: &K, number: u64)
    ensures { (q : K) → lookup (is_at (K.cmp q)) numbers.new.entries ≡ (if is_at (K.cmp q) key.now && is_kept number (lookup (is_at (K.cmp q)) numbers.old.entries) then None else lookup (is_at (K.cmp q)) numbers.old.entries) }
{
    let Some(kept) = numbers.get(key).copied() else {
        return;
    };
    if kept == number {
        numbers.remove(key);
    }
}

impl Index {
    /// Creates one of no sendings.
    pub(crate) fn new(alloc: Global) -> Index
        ensures { Indexes result 0 [] }
    {
        Index {
            open: Open::new(alloc),
            requests: BTreeMap::new(alloc),
            syns: BTreeMap::new(alloc),
            open_syns: 0,
        }
    }

    /// Returns the number of the latest request with these octets.
    pub(crate) fn latest_with(&self, octets: &Fingerprint) -> Option<u64>
        ensures { (gone : ℕ) (sendings : List Sending) → Indexes self.now gone sendings → result ≡ numbered gone (latest_place (with_octets octets.now) sendings) }
    {
        self.requests.get(octets).copied()
    }

    /// Returns whether a SYN is open, of any flow.
    pub(crate) fn has_open_syn(&self) -> bool
        ensures { (gone : ℕ) (sendings : List Sending) → Indexes self.now gone sendings → result ≡ nat_lt 0 (open_syns_in sendings) }
    {
        self.open_syns > 0
    }

    /// Returns the number of the latest SYN of a flow.
    pub(crate) fn latest_syn(&self, flow: Flow) -> Option<u64>
        ensures { (gone : ℕ) (sendings : List Sending) → Indexes self.now gone sendings → result ≡ numbered gone (latest_place (is_syn_of flow) sendings) }
    {
        self.syns.get(&FlowKey::of(flow)).copied()
    }

    /// Returns the number of the first open request of a flow.
    pub(crate) fn first_open(&self, flow: Flow) -> Option<u64>
        ensures { (gone : ℕ) (sendings : List Sending) → gone + length sendings ≤ 2 ^ 64 → Indexes self.now gone sendings → result ≡ numbered gone (first_place (is_open_request flow (λ _. true)) sendings) }
    {
        self.open.first(flow)
    }

    /// Returns the number of the latest open request of a flow and a kind.
    pub(crate) fn latest_open(&self, flow: Flow, request: Request) -> Option<u64>
        ensures { (gone : ℕ) (sendings : List Sending) → gone + length sendings ≤ 2 ^ 64 → Indexes self.now gone sendings → result ≡ numbered gone (latest_place (is_open_request flow (same_kind request)) sendings) }
    {
        self.open.latest_of(flow, request)
    }

    /// Returns the number of the latest open request of a flow that a reply may answer.
    pub(crate) fn latest_for(&self, flow: Flow, reply: Reply) -> Option<u64>
        ensures { (gone : ℕ) (sendings : List Sending) → gone + length sendings ≤ 2 ^ 64 → Indexes self.now gone sendings → result ≡ numbered gone (latest_place (is_open_request flow (fits reply)) sendings) }
    {
        self.open.latest_for(flow, reply)
    }

    /// Adds a sending after all others. Out of memory, nothing changes.
    pub(crate) fn add(&mut self, sending: &Sending, number: u64) -> Result<(), Memory>
        ensures added { OnOk result ((gone : ℕ) (sendings : List Sending) → Indexes self.old gone sendings → number ≡ gone + length sendings → is_open sending.now.state ≡ true → Indexes self.new gone (sendings ++ sending.now ∷ [])) }
        ensures same { OnErr result ((gone : ℕ) (sendings : List Sending) → Indexes self.old gone sendings → number ≡ gone + length sendings → Indexes self.new gone sendings) }
    {
        match sending.what {
            What::Request(request, octets) => {
                self.add_request(sending.flow, request, octets, number)
            }
            What::Syn(_) => self.add_syn(sending.flow, number),
        }
    }

    /// Adds a request after all other sendings. Out of memory, nothing changes.
    fn add_request(
        &mut self,
        flow: Flow,
        request: Request,
        octets: Fingerprint,
        number: u64,
    ) -> Result<(), Memory>
        ensures added { OnOk result (AddsRequest self.old self.new flow request octets number) }
        ensures same { OnErr result ((gone : ℕ) (sendings : List Sending) → Indexes self.old gone sendings → number ≡ gone + length sendings → Indexes self.new gone sendings) }
    {
        self.open.insert(flow, request, number)?;
        match self.requests.insert(octets, number) {
            Ok(_) => Ok(()),
            Err(_) => {
                self.open.remove(flow, request, number);
                Err(Memory)
            }
        }
    }

    /// Adds an open SYN after all other sendings. Out of memory, nothing changes.
    fn add_syn(&mut self, flow: Flow, number: u64) -> Result<(), Memory>
        ensures added { OnOk result (AddsSyn self.old self.new flow number) }
        ensures same { OnErr result ((gone : ℕ) (sendings : List Sending) → Indexes self.old gone sendings → number ≡ gone + length sendings → Indexes self.new gone sendings) }
    {
        let Some(open_syns) = self.open_syns.checked_add(1) else {
            return Err(Memory);
        };
        self.syns.insert(FlowKey::of(flow), number)?;
        self.open_syns = open_syns;
        Ok(())
    }

    /// Takes a request away from those that are open, if it is.
    fn close_request(&mut self, request: Request, sending: &Sending, number: u64)
        ensures same { self.new ≡ record self.old { «open» = self.new.«open» } }
        ensures closed { (f : Flow) (k : Request) (n : ℕ) → has self.new.«open» f k n ≡ (not (is_open sending.now.state && same_key sending.now.flow request number f k n) && has self.old.«open» f k n) }
    {
        if sending.state.is_open() {
            self.open.remove(sending.flow, request, number);
        }
    }

    /// Takes a SYN away from those that are open, if it is.
    fn close_syn(&mut self, syn: &Sending)
        ensures { self.new ≡ record self.old { open_syns = self.old.open_syns - one_if (is_open syn.now.state) } }
    {
        if syn.state.is_open() {
            self.open_syns = self.open_syns.saturating_sub(1);
        }
    }

    /// Takes a sending away from those that are open.
    pub(crate) fn close(&mut self, sending: &Sending, number: u64)
        ensures { (gone : ℕ) (sendings : List Sending) (place : ℕ) (state : State) → Indexes self.old gone sendings → slice_get sendings place ≡ Some sending.now → place < length sendings → number ≡ gone + place → is_open state ≡ false → Indexes self.new gone (slice_set sendings place (in_state state sending.now)) }
    {
        match sending.what {
            What::Request(request, _) => self.close_request(request, sending, number),
            What::Syn(_) => self.close_syn(sending),
        }
    }

    /// Takes the first sending away.
    pub(crate) fn forget_first(&mut self, first: &Sending, number: u64)
        ensures { (others : List Sending) → Indexes self.old number (first.now ∷ others) → Indexes self.new (number + 1) others }
    {
        match first.what {
            What::Request(request, octets) => {
                forget(&mut self.requests, &octets, number);
                self.close_request(request, first, number);
            }
            What::Syn(_) => {
                forget(&mut self.syns, &FlowKey::of(first.flow), number);
                self.close_syn(first);
            }
        }
    }
}
