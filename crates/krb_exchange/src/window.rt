//! The sendings that are kept, and how they are found.

ghost use Rattle.std.specs.Prelude.{◌≡◌, ◌+◌, ◌++◌, ◌<◌, ◌^◌, ℕ, true, false, [], ◌∷◌, length, None, Option, Some, nat_lt, if◌then◌else◌, IfNone, IfOk, IfSome, OnErr, OnOk};
ghost use Rattle.std.specs.VecDeque.{deque_capacity, deque_len};
ghost use Rattle.krb_exchange.specs.Happened.{added, answered_over, at_place, before_of, erred, first_place, fits, has_octets, is_open, is_open_request, is_request, later_place, latest_syn, listed, open_in, open_syn, passes, replaced, with_room, with_state};
ghost use Rattle.krb_exchange.specs.declared.sending.State.TheVariants as states;
ghost use Rattle.krb_exchange.specs.inner.Indexes.{Keeps, numbered, open_syns_in};

use crate::fingerprint::Fingerprint;
use crate::index::Index;
use crate::parties::Reply;
use crate::sending::{Sending, State};
use krb_der::Memory;
use krb_record::{Flow, Request, Transport};
use std::alloc::Global;
use std::collections::VecDeque;

/// How many sendings are kept.
const MOST_SENDINGS: usize = 65536;

/// The last sendings, in order. Each has a number: how many came before it in the capture. A place
/// counts from the first one that is kept.
#[derive(Drop)]
pub(crate) struct Window {
    sendings: VecDeque<Sending>,
    /// The number of the first one.
    gone: u64,
    /// How they are found.
    index: Index,
}

/// Returns the later of two places.
fn later(one: Option<usize>, other: Option<usize>) -> Option<usize>
    ensures { result ≡ later_place one other }
{
    match (one, other) {
        (Some(one), Some(other)) => Some(if one < other { other } else { one }),
        (None, other) => other,
        (one, None) => one,
    }
}

/// Returns a place, if the sending there passes.
fn keep_if(place: Option<usize>, passes: bool) -> Option<usize>
    ensures { result ≡ (if passes then place else None) }
{
    if passes { place } else { None }
}

impl Window {
    /// Creates one with no sendings.
    pub(crate) fn new(alloc: Global) -> Window
        ensures none { result.sendings.items ≡ [] }
        ensures keeps { Keeps result None }
    {
        Window {
            sendings: VecDeque::new(alloc),
            gone: 0,
            index: Index::new(alloc),
        }
    }

    /// Returns the place of a number.
    fn place_of(&self, number: Option<u64>) -> Option<usize>
        ensures { (place : Option ℕ) → number ≡ numbered self.now.gone place → result ≡ place }
    {
        match number {
            Some(number) => Some(number.saturating_sub(self.gone) as usize),
            None => None,
        }
    }

    /// Returns the sending at a place.
    pub(crate) fn at(&self, place: Option<usize>) -> Option<Sending>
        ensures { result ≡ at_place place self.now.sendings.items }
    {
        let place = place?;
        match self.sendings.get(place) {
            Some(sending) => Some(*sending),
            None => None,
        }
    }

    /// Returns whether a sending is open.
    fn is_open(&self, place: Option<usize>) -> bool
        ensures { result ≡ passes (λ one. is_open one.state) (at_place place self.now.sendings.items) }
    {
        match self.at(place) {
            Some(sending) => sending.state.is_open(),
            None => false,
        }
    }

    /// Returns whether a sending is a request with these octets.
    fn has_octets(&self, place: Option<usize>, octets: &Fingerprint) -> bool
        ensures { result ≡ passes (λ one. has_octets octets.now one.what) (at_place place self.now.sendings.items) }
    {
        match self.at(place) {
            Some(sending) => sending.what.has_octets(octets),
            None => false,
        }
    }

    /// Returns whether a sending is a request that a reply may answer.
    fn is_for(&self, place: Option<usize>, reply: Reply) -> bool
        ensures { result ≡ passes (λ one. is_request (fits reply) one.what) (at_place place self.now.sendings.items) }
    {
        match self.at(place) {
            Some(sending) => sending.what.is_for(reply),
            None => false,
        }
    }

    /// Returns the latest request with the same octets.
    pub(crate) fn before(&self, octets: &Fingerprint) -> Option<Sending>
        ensures { Keeps self.now None → result ≡ before_of octets.now self.now.sendings.items }
    {
        self.at(self.place_of(self.index.latest_with(octets)))
    }

    /// Returns the place of the request that one takes the place of: over UDP the latest open one
    /// of its flow and kind, if that has the same octets.
    pub(crate) fn replaced(
        &self,
        request: Request,
        flow: Flow,
        octets: &Fingerprint,
    ) -> Option<usize>
        ensures { Keeps self.now None → result ≡ replaced request flow octets.now self.now.sendings.items }
    {
        match flow.transport {
            Transport::Tcp => None,
            Transport::Udp => {
                let latest = self.place_of(self.index.latest_open(flow, request));
                keep_if(latest, self.has_octets(latest, octets))
            }
        }
    }

    /// Returns the place of the request of a flow that a reply answers.
    pub(crate) fn answered(&self, reply: Reply, flow: Flow) -> Option<usize>
        ensures { Keeps self.now None → result ≡ answered_over flow.transport reply flow self.now.sendings.items }
    {
        match flow.transport {
            Transport::Udp => self.place_of(self.index.latest_for(flow, reply)),
            Transport::Tcp => {
                let first = self.first_open(flow);
                keep_if(first, self.is_for(first, reply))
            }
        }
    }

    /// Returns the place of the first open request of a flow.
    pub(crate) fn first_open(&self, flow: Flow) -> Option<usize>
        ensures { Keeps self.now None → result ≡ first_place (is_open_request flow (λ _. true)) self.now.sendings.items }
    {
        self.place_of(self.index.first_open(flow))
    }

    /// Returns the place of the latest SYN of a flow.
    pub(crate) fn latest_syn(&self, flow: Flow) -> Option<usize>
        ensures { Keeps self.now None → result ≡ latest_syn flow self.now.sendings.items }
    {
        self.place_of(self.index.latest_syn(flow))
    }

    /// Returns whether a SYN is open, of any flow.
    pub(crate) fn has_open_syn(&self) -> bool
        ensures { Keeps self.now None → result ≡ nat_lt 0 (open_syns_in self.now.sendings.items) }
    {
        self.index.has_open_syn()
    }

    /// Returns the place of the latest SYN of a flow, if it is open.
    pub(crate) fn open_syn(&self, flow: Flow) -> Option<usize>
        ensures { Keeps self.now None → result ≡ open_syn flow self.now.sendings.items }
    {
        if !self.index.has_open_syn() {
            return None;
        }
        let latest = self.latest_syn(flow);
        keep_if(latest, self.is_open(latest))
    }

    /// Returns the place of the latest sending of a flow that is open.
    pub(crate) fn latest_open(&self, flow: Flow) -> Option<usize>
        ensures { Keeps self.now None → result ≡ erred flow self.now.sendings.items }
    {
        let request = self.place_of(self.index.latest_for(flow, Reply::Unread));
        later(request, self.open_syn(flow))
    }

    /// Changes the state of a sending, which is not open from then on. Returns it as it was.
    pub(crate) fn close(&mut self, place: Option<usize>, state: State) -> Option<Sending>
        requires numbers { self.old.gone + length self.old.sendings.items < 2 ^ 64 }
        ensures told { result ≡ at_place place self.old.sendings.items }
        ensures items { self.new.sendings.items ≡ with_state state place self.old.sendings.items }
        ensures keeps { (ahead : Option Sending) → is_open state ≡ false → Keeps self.old ahead → Keeps self.new ahead }
        ensures capacity { deque_capacity self.new.sendings ≡ deque_capacity self.old.sendings }
    {
        match place {
            Some(place) => self.close_at(place, state),
            None => None,
        }
    }

    /// Changes the state of the sending at a place, if there is one, which is not open from then
    /// on. Returns it as it was.
    fn close_at(&mut self, place: usize, state: State) -> Option<Sending>
        requires numbers { self.old.gone + length self.old.sendings.items < 2 ^ 64 }
        ensures told { result ≡ at_place (Some place) self.old.sendings.items }
        ensures items { self.new.sendings.items ≡ with_state state (Some place) self.old.sendings.items }
        ensures keeps { (ahead : Option Sending) → is_open state ≡ false → Keeps self.old ahead → Keeps self.new ahead }
        ensures capacity { deque_capacity self.new.sendings ≡ deque_capacity self.old.sendings }
    {
        match self.at(Some(place)) {
            Some(sending) => {
                self.index.close(&sending, self.gone + place as u64);
                self.sendings[place] = Sending { state, ..sending };
                Some(sending)
            }
            None => None,
        }
    }

    /// Takes the first sending away.
    pub(crate) fn leave(&mut self) -> Option<Sending>
        requires numbers { self.old.gone + length self.old.sendings.items < 2 ^ 64 }
        ensures first { IfSome result (λ first. self.old.sendings.items ≡ first ∷ self.new.sendings.items) }
        ensures none { IfNone result ((self.old.sendings.items ≡ []) × (self.new.sendings.items ≡ [])) }
        ensures keeps { (ahead : Option Sending) → Keeps self.old ahead → Keeps self.new ahead }
        ensures capacity { deque_capacity self.new.sendings ≡ deque_capacity self.old.sendings }
    {
        match self.sendings.pop_front() {
            Some(first) => {
                self.index.forget_first(&first, self.gone);
                self.gone += 1;
                Some(first)
            }
            None => None,
        }
    }

    /// Adds a sending at the end, and closes the one at a place before that. If there are too many
    /// then, the first one is taken away, and returned if it is open. Out of memory, nothing
    /// changes.
    pub(crate) fn add(
        &mut self,
        sending: Sending,
        ended: Option<usize>,
    ) -> Result<Option<Sending>, Memory>
        requires keeps { Keeps self.old None }
        requires opens { is_open sending.state ≡ true }
        ensures told { IfOk result (λ missed. missed ≡ (added sending (with_state states.Ended ended self.old.sendings.items)).told) }
        ensures items { OnOk result (self.new.sendings.items ≡ (added sending (with_state states.Ended ended self.old.sendings.items)).window) }
        ensures keeps { Keeps self.new None }
        ensures same { OnErr result (self.new.sendings.items ≡ self.old.sendings.items) }
    {
        self.prepare(&sending)?;
        self.close(ended, State::Ended);
        let missed = self.make_room();
        self.sendings.push_back_reserved(sending);
        Ok(missed)
    }

    /// Has memory for one sending more, unless the first one leaves for it.
    fn reserve(&mut self) -> Result<(), Memory>
        ensures items { self.new.sendings.items ≡ self.old.sendings.items }
        ensures gone { self.new.gone ≡ self.old.gone }
        ensures index { self.new.index ≡ self.old.index }
        ensures room { OnOk result (length self.new.sendings.items < 65536 → deque_len self.new.sendings < deque_capacity self.new.sendings) }
    {
        if self.sendings.len() < MOST_SENDINGS {
            self.sendings.reserve(1)?;
        }
        Ok(())
    }

    /// Has the index have a sending that is to be added, and memory for it. Out of memory, nothing
    /// changes.
    fn prepare(&mut self, sending: &Sending) -> Result<(), Memory>
        requires keeps { Keeps self.old None }
        requires opens { is_open sending.now.state ≡ true }
        ensures items { self.new.sendings.items ≡ self.old.sendings.items }
        ensures room { OnOk result (length self.new.sendings.items < 65536 → deque_len self.new.sendings < deque_capacity self.new.sendings) }
        ensures ahead { OnOk result (Keeps self.new (Some sending.now)) }
        ensures keeps { OnErr result (Keeps self.new None) }
    {
        self.reserve()?;
        let number = self.gone + self.sendings.len() as u64;
        if number == u64::MAX {
            return Err(Memory);
        }
        self.index.add(sending, number)
    }

    /// Takes the first sending away, if there is no room for one more. Returns it, if it is open.
    fn make_room(&mut self) -> Option<Sending>
        requires numbers { self.old.gone + length self.old.sendings.items < 2 ^ 64 }
        requires few { length self.old.sendings.items < 65537 }
        requires room { length self.old.sendings.items < 65536 → deque_len self.old.sendings < deque_capacity self.old.sendings }
        ensures told { result ≡ (with_room self.old.sendings.items).told }
        ensures items { self.new.sendings.items ≡ (with_room self.old.sendings.items).window }
        ensures keeps { (ahead : Option Sending) → Keeps self.old ahead → Keeps self.new ahead }
        ensures room { deque_len self.new.sendings < deque_capacity self.new.sendings }
        ensures few { length self.new.sendings.items < 65536 }
    {
        if self.sendings.len() < MOST_SENDINGS {
            return None;
        }
        match self.leave() {
            Some(first) if first.state.is_open() => Some(first),
            _ => None,
        }
    }

    /// Takes the first open sending away, and those before it.
    pub(crate) fn next_open(&mut self) -> Option<Sending>
        requires { Keeps self.old None }
        ensures told { listed result ++ open_in self.new.sendings.items ≡ open_in self.old.sendings.items }
        ensures none { IfNone result (self.new.sendings.items ≡ []) }
        ensures keeps { Keeps self.new None }
    {
        while let Some(first) = self.leave() {
            if first.state.is_open() {
                return Some(first);
            }
        }
        None
    }
}
