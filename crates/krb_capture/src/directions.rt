//! The directions of TCP connections, by their flows.

ghost use Rattle.std.specs.Prelude.{◌≡◌, ◌<◌, ℕ, true, List, [], None, Some, if◌then◌else◌, is_some, length, IfOk, OnOk, IfSome, IfNone};
ghost use Rattle.std.specs.BTreeMap.{insert_entry, is_at};
ghost use Rattle.std.specs.Map.{lookup};
ghost use Rattle.std.specs.Ordering.{eq_by_cmp, nat_cmp};
ghost use Rattle.krb_capture.specs.Captures.{Finding, over_tcp, with_each};
ghost use Rattle.krb_capture.specs.Directions.{HoldsMaps, HoldsTable, IsKnown, Table, begins, begun, flow_cmp, flow_of, followed, gone_on, in_flow, kept, last_of, no_directions, of_ended, of_known, state_after, with_room, without};
ghost use Rattle.krb_capture.specs.Flows.{origin_of};
ghost use Rattle.krb_capture.specs.Found.{Found, with_all};
ghost use Rattle.krb_capture.specs.Rests.{Follows, HoldsBut, HoldsSome, RepresentsBut};
ghost use Rattle.krb_capture.specs.Sending.{Sent, Represents, step_of, untaken_found};
ghost use Rattle.krb_flow.specs.Unread.{nothing, of_reset};
ghost use Rattle.krb_flow.specs.Window.{Keeps};
ghost use Rattle.krb_record.specs.declared.flow.Transport.TheVariants as transports;

use crate::ended::Ended;
use crate::flow::{Due, Flow, Service};
use crate::listing::Listing;
use crate::numbers::Numbers;
use crate::recent::Recent;
use crate::sending::{Sending, Step, Stepped, Unlisted, list_untaken};
use krb_der::Memory;
use krb_flow::{Direction, Had, Unread, Untaken};
use krb_frame::Limit;
use krb_packet::Segment;
use krb_record::Transport;
use std::alloc::Global;
use std::collections::BTreeMap;

/// How many directions are kept, including those that ended.
const MOST_DIRECTIONS: usize = 65536;

/// A direction that has not ended.
#[derive(Drop)]
pub(crate) struct Last {
    /// The flow whose direction it is.
    flow: Flow,
    /// Its number.
    number: u64,
    /// What is kept of it.
    sending: Box<Sending>,
}

/// A direction that ended.
#[derive(Clone, Copy)]
pub(crate) struct Gone {
    /// The flow whose direction it was.
    flow: Flow,
    /// What it had.
    had: Had,
    /// How many ended before it.
    nth: u64,
}

/// What is left of a packet whose records are not all listed: the direction whose segment it is,
/// which is not among those that are kept meanwhile, and octets whose frames are to be listed.
#[derive(Drop)]
pub struct Rest {
    /// The flow of the direction.
    flow: Flow,
    last: Last,
    step: Step,
    left: Unlisted,
}

/// The directions that are kept. Each has the number of the packet that began it, so that they are
/// in the order in which they began.
#[derive(Drop)]
pub(crate) struct Directions {
    alloc: Global,
    limit: Limit,
    /// The number of the direction of each flow.
    numbers: Numbers,
    /// The directions that have not ended. A direction has some 400 octets, so the map moves boxes.
    active: BTreeMap<u64, Box<Sending>>,
    /// The direction of the last segment, if it has not ended, since the next one is mostly of
    /// that, too. It is not among `active` meanwhile.
    last: Option<Last>,
    /// Those that ended.
    ended: Ended,
    /// The last octets of those that ended last.
    recent: Recent,
    /// Octets that waited.
    waited: Vec<u8>,
}

/// Returns whether a segment begins a direction with no segments yet.
fn begins(segment: &Segment<'_>) -> bool
    ensures { result ≡ begins segment.now }
{
    !segment.rst && (segment.syn || segment.payload.size() > 0)
}

/// Returns a direction with no octets yet, or one that ended and had this.
fn direction_after(alloc: Global, had: Option<Had>) -> Direction
    ensures state { result.state ≡ state_after had }
    ensures keeps { Keeps result [] }
{
    match had {
        None => Direction::new(alloc),
        Some(had) => Direction::ended(alloc, had),
    }
}

/// Returns the flow by which a direction is found after a step: its own if it began with that.
fn flow_after(found: Flow, own: Flow, step: Step) -> Flow
    ensures { result ≡ (if step.began then own else found) }
{
    if step.began { own } else { found }
}

/// Returns the number of a direction after a step: that of the packet if it began with that.
fn number_after(number: u64, step: Step, due: Due) -> u64
    ensures { result ≡ (if step.began then due.packet else number) }
{
    if step.began { due.packet } else { number }
}

/// Lists the octets of a segment that begins no direction, where none is open.
fn list_passed_over(
    segment: &Segment<'_>,
    due: Due,
    listing: &mut Listing<'_>,
) -> Result<(), Memory>
    ensures { OnOk result (listing.new ≡ with_all (origin_of due transports.Tcp segment.now.source segment.now.target) (untaken_found (record nothing { apart = of_reset segment.now })) listing.old) }
{
    let origin = due.over(Transport::Tcp, segment.source, segment.target);
    let untaken = Untaken::apart(Unread::of_reset(segment));
    list_untaken(untaken, &origin, listing)
}

impl Directions {
    /// Creates an empty table. Frames of more than `limit` octets are refused.
    pub(crate) fn new(alloc: Global, limit: Limit) -> Directions
        ensures { HoldsTable result limit no_directions }
    {
        Directions {
            alloc,
            limit,
            numbers: Numbers::new(alloc),
            active: BTreeMap::new(alloc),
            last: None,
            ended: Ended::new(alloc),
            recent: Recent::new(alloc),
            waited: Vec::new(alloc),
        }
    }

    /// Takes a segment, and lists what is found with it.
    pub(crate) fn take(
        &mut self,
        segment: &Segment<'_>,
        service: Service,
        due: Due,
        listing: &mut Listing<'_>,
    ) -> Result<Option<Box<Rest>>, Memory>
        ensures { IfOk result (λ rest. (limit : ℕ) (table : Table) → HoldsTable self.old limit table → Follows self.new limit (followed limit due.packet service segment.now table).table due rest (over_tcp due (followed limit due.packet service segment.now table).found) listing.old listing.new) }
    {
        let flow = Flow::between(segment.source, segment.target);
        match self.last_of(&flow) {
            Some(last) => self.go_on(last, segment, due, listing),
            None => {
                self.put_back()?;
                self.take_other(flow, segment, service, due, listing)
            }
        }
    }

    /// Takes the direction of the last segment out, if it is of a flow.
    fn last_of(&mut self, flow: &Flow) -> Option<Last>
        ensures last { IfSome result (λ last. (self.old.last ≡ Some last) × (eq_by_cmp flow_cmp last.flow flow.now ≡ true)) }
        ensures left { IfSome result (λ last. self.new ≡ record self.old { last = None }) }
        ensures same { IfNone result (self.new ≡ self.old) }
    {
        match &self.last {
            Some(last) if last.flow == *flow => self.last.take(),
            _ => None,
        }
    }

    /// Puts the direction of the last segment back among the others.
    fn put_back(&mut self) -> Result<(), Memory>
        ensures none { OnOk result (self.new.last ≡ None) }
        ensures maps { OnOk result ((limit : ℕ) (table : Table) → HoldsTable self.old limit table → HoldsMaps self.new limit table) }
    {
        if let Some(last) = self.last.take() {
            self.active.insert(last.number, last.sending)?;
        }
        Ok(())
    }

    /// Takes a segment that is not of the direction of the last one.
    fn take_other(
        &mut self,
        flow: Flow,
        segment: &Segment<'_>,
        service: Service,
        due: Due,
        listing: &mut Listing<'_>,
    ) -> Result<Option<Box<Rest>>, Memory>
        requires of_segment { flow ≡ flow_of segment.now }
        requires none { self.old.last ≡ None }
        ensures { IfOk result (λ rest. (limit : ℕ) (table : Table) → HoldsMaps self.old limit table → Follows self.new limit (followed limit due.packet service segment.now table).table due rest (over_tcp due (followed limit due.packet service segment.now table).found) listing.old listing.new) }
    {
        let may_begin = begins(segment);
        if segment.syn && may_begin && self.numbers.len() < MOST_DIRECTIONS {
            return self.take_syn(flow, segment, service, due, listing);
        }
        match self.numbers.get(&flow) {
            Some(number) => self.take_known(flow, number, segment, service, due, listing),
            None if may_begin => {
                self.make_room(due, listing)?;
                self.numbers.insert(flow, due.packet)?;
                self.begin(flow, None, segment, service, due, listing)
            }
            None => {
                list_passed_over(segment, due, listing)?;
                Ok(None)
            }
        }
    }

    /// Takes a SYN that is not of the direction of the last segment. Mostly its flow is new, and has
    /// a number with one look-up.
    fn take_syn(
        &mut self,
        flow: Flow,
        segment: &Segment<'_>,
        service: Service,
        due: Due,
        listing: &mut Listing<'_>,
    ) -> Result<Option<Box<Rest>>, Memory>
        requires of_segment { flow ≡ flow_of segment.now }
        requires none { self.old.last ≡ None }
        requires begins { begins segment.now ≡ true }
        requires room { length self.old.numbers.entries < 65536 }
        ensures { IfOk result (λ rest. (limit : ℕ) (table : Table) → HoldsMaps self.old limit table → Follows self.new limit (followed limit due.packet service segment.now table).table due rest (over_tcp due (followed limit due.packet service segment.now table).found) listing.old listing.new) }
    {
        let found = self.numbers.get_or_insert(flow, due.packet)?;
        match found {
            Some(number) => self.take_known(flow, number, segment, service, due, listing),
            None => self.begin(flow, None, segment, service, due, listing),
        }
    }

    /// Takes a segment of a flow whose direction has a number.
    fn take_known(
        &mut self,
        flow: Flow,
        number: u64,
        segment: &Segment<'_>,
        service: Service,
        due: Due,
        listing: &mut Listing<'_>,
    ) -> Result<Option<Box<Rest>>, Memory>
        requires of_segment { flow ≡ flow_of segment.now }
        requires none { self.old.last ≡ None }
        requires known { lookup (is_at (flow_cmp flow)) self.old.numbers.entries ≡ Some number }
        ensures { IfOk result (λ rest. (limit : ℕ) (table : Table) → HoldsMaps self.old limit table → Follows self.new limit (of_known limit due.packet number (lookup (is_at (nat_cmp number)) table.active) service segment.now table).table due rest (over_tcp due (of_known limit due.packet number (lookup (is_at (nat_cmp number)) table.active) service segment.now table).found) listing.old listing.new) }
    {
        match self.active.remove(&number) {
            Some(sending) => self.go_on(
                Last {
                    flow,
                    number,
                    sending,
                },
                segment,
                due,
                listing,
            ),
            None => self.take_ended(flow, number, segment, service, due, listing),
        }
    }

    /// Takes a segment of a flow whose direction ended and has a number.
    fn take_ended(
        &mut self,
        flow: Flow,
        number: u64,
        segment: &Segment<'_>,
        service: Service,
        due: Due,
        listing: &mut Listing<'_>,
    ) -> Result<Option<Box<Rest>>, Memory>
        requires of_segment { flow ≡ flow_of segment.now }
        requires none { self.old.last ≡ None }
        ensures { IfOk result (λ rest. (limit : ℕ) (table : Table) → HoldsMaps self.old limit table → Follows self.new limit (of_ended limit due.packet number (lookup (is_at (nat_cmp number)) table.ended) service segment.now table).table due rest (over_tcp due (of_ended limit due.packet number (lookup (is_at (nat_cmp number)) table.ended) service segment.now table).found) listing.old listing.new) }
    {
        if !begins(segment) {
            list_passed_over(segment, due, listing)?;
            return Ok(None);
        }
        let Some(gone) = self.ended.get(number) else {
            return Ok(None);
        };
        if !gone.had.is_followed_by(segment) {
            let untaken = gone.had.untaken(self.recent.get(gone.nth), segment);
            let origin = due.over(Transport::Tcp, segment.source, segment.target);
            list_untaken(untaken, &origin, listing)?;
            return Ok(None);
        }
        self.ended.remove(number);
        self.numbers.insert(flow, due.packet)?;
        self.begin(flow, Some(gone.had), segment, service, due, listing)
    }

    /// Takes a segment of a direction that has not ended, which is not in the table meanwhile.
    #[inline(always)]
    fn go_on(
        &mut self,
        last: Last,
        segment: &Segment<'_>,
        due: Due,
        listing: &mut Listing<'_>,
    ) -> Result<Option<Box<Rest>>, Memory>
        requires { self.old.last ≡ None }
        ensures { IfOk result (λ rest. (limit : ℕ) (table : Table) (sent : Sent) → HoldsMaps self.old limit (without last.number table) → lookup (is_at (flow_cmp last.flow)) self.old.numbers.entries ≡ Some last.number → Represents last.sending.value limit sent → Follows self.new limit (gone_on limit due.packet last.number sent segment.now table).table due rest (over_tcp due (gone_on limit due.packet last.number sent segment.now table).found) listing.old listing.new) }
    {
        let mut sending = last.sending;
        let stepped = sending.take(false, segment, due, &mut self.waited, listing)?;
        let flow = sending.flow();
        let kept = Last {
            flow: flow_after(last.flow, flow, stepped.step),
            number: number_after(last.number, stepped.step, due),
            sending,
        };
        self.keep_or_wait(flow, kept, stepped)
    }

    /// Begins a direction of a flow that has none in the table, but its number already. If one ended,
    /// it had this.
    fn begin(
        &mut self,
        flow: Flow,
        had: Option<Had>,
        segment: &Segment<'_>,
        service: Service,
        due: Due,
        listing: &mut Listing<'_>,
    ) -> Result<Option<Box<Rest>>, Memory>
        requires of_segment { flow ≡ flow_of segment.now }
        requires begins { (step_of (state_after had) segment.now).began ≡ true }
        requires none { self.old.last ≡ None }
        requires known { lookup (is_at (flow_cmp flow)) self.old.numbers.entries ≡ Some due.packet }
        ensures { IfOk result (λ rest. (limit : ℕ) (table : Table) → HoldsMaps self.old limit (record table { numbers = insert_entry flow_cmp table.numbers flow due.packet }) → Follows self.new limit (begun limit due.packet service (state_after had) segment.now table).table due rest (over_tcp due (begun limit due.packet service (state_after had) segment.now table).found) listing.old listing.new) }
    {
        let direction = direction_after(self.alloc, had);
        let mut sending = Sending::new(self.alloc, self.limit, flow, service, direction);
        let mut stepped = sending.take(true, segment, due, &mut self.waited, listing)?;
        let kept = Last {
            flow,
            number: due.packet,
            sending: Box::new(self.alloc, sending)?,
        };
        // Its flow has its number already.
        stepped.step.began = false;
        self.keep_or_wait(flow, kept, stepped)
    }

    /// Keeps a direction after its segment, or returns what is left of that.
    #[inline(always)]
    fn keep_or_wait(
        &mut self,
        flow: Flow,
        last: Last,
        stepped: Stepped,
    ) -> Result<Option<Box<Rest>>, Memory>
        requires { self.old.last ≡ None }
        ensures waits { IfOk result (λ rest. is_some rest ≡ is_some stepped.left) }
        ensures kept { IfOk result (λ rest. (limit : ℕ) (table : Table) (sent : Sent) (due : Due) (left : List Found) → HoldsMaps self.old limit table → IsKnown stepped.step.began flow last self.old.numbers.entries → RepresentsBut last.sending.value limit sent stepped.left left → HoldsSome self.new limit (kept flow last.number stepped.step sent table) due rest (over_tcp due (in_flow sent.flow left))) }
    {
        let step = stepped.step;
        match stepped.left {
            None => {
                self.keep(flow, last, step)?;
                Ok(None)
            }
            Some(left) => Ok(Some(Box::new(
                self.alloc,
                Rest {
                    flow,
                    last,
                    step,
                    left,
                },
            )?)),
        }
    }

    /// Goes on with a segment whose frames are not all listed. Returns what is left of it then.
    pub(crate) fn go_on_with(
        &mut self,
        rest: Box<Rest>,
        due: Due,
        listing: &mut Listing<'_>,
    ) -> Result<Option<Box<Rest>>, Memory>
        ensures { IfOk result (λ next. (limit : ℕ) (table : Table) (found : List Finding) → HoldsBut self.old limit table due rest.value found → Follows self.new limit table due next found listing.old listing.new) }
    {
        self.put_back()?;
        let Rest {
            flow,
            mut last,
            step,
            left,
        } = Box::into_inner(rest);
        let left = last.sending.go_on(left, due, listing)?;
        self.keep_or_wait(flow, last, Stepped { step, left })
    }

    /// Keeps a direction of a flow by its number, or what it had if it ended.
    #[inline(always)]
    fn keep(&mut self, flow: Flow, last: Last, step: Step) -> Result<(), Memory>
        requires { self.old.last ≡ None }
        ensures { OnOk result ((limit : ℕ) (table : Table) (sent : Sent) → HoldsMaps self.old limit table → IsKnown step.began flow last self.old.numbers.entries → Represents last.sending.value limit sent → HoldsTable self.new limit (kept flow last.number step sent table)) }
    {
        self.keep_number(flow, last.number, step.began)?;
        if let Some(had) = step.ended {
            let octets = Box::into_inner(last.sending).into_last_octets()?;
            let nth = self.recent.push(octets)?;
            self.ended.insert(last.number, Gone { flow, had, nth })?;
        } else if self.active.contains_key(&last.number) {
            self.active.insert(last.number, last.sending)?;
        } else {
            self.last = Some(last);
        }
        Ok(())
    }

    /// Keeps the number of a direction that began.
    fn keep_number(&mut self, flow: Flow, number: u64, began: bool) -> Result<(), Memory>
        ensures same { self.new ≡ record self.old { numbers = self.new.numbers } }
        ensures numbers { OnOk result (self.new.numbers.entries ≡ (if began then insert_entry flow_cmp self.old.numbers.entries flow number else self.old.numbers.entries)) }
        ensures known { OnOk result (began ≡ true → lookup (is_at (flow_cmp flow)) self.new.numbers.entries ≡ Some number) }
    {
        if began {
            self.numbers.insert(flow, number)?;
        }
        Ok(())
    }

    /// Forgets a direction if no more are kept: the one that began first among those that ended,
    /// or, if none has ended, the one that began first, which ends.
    fn make_room(&mut self, due: Due, listing: &mut Listing<'_>) -> Result<(), Memory>
        ensures last { self.new.last ≡ self.old.last }
        ensures table { OnOk result ((limit : ℕ) (table : Table) → HoldsMaps self.old limit table → HoldsMaps self.new limit (with_room limit table).table) }
        ensures found { OnOk result ((limit : ℕ) (table : Table) → HoldsMaps self.old limit table → listing.new ≡ with_each (over_tcp due (with_room limit table).found) listing.old) }
    {
        if self.numbers.len() < MOST_DIRECTIONS {
            return Ok(());
        }
        if let Some((_, gone)) = self.ended.pop_first() {
            self.numbers.remove(&gone.flow);
        } else if let Some((_, mut sending)) = self.active.pop_first() {
            sending.finish(due, listing)?;
            self.numbers.remove(&sending.flow());
        }
        Ok(())
    }

    /// Ends all directions, in the order in which they began, and lists what is known of each.
    pub(crate) fn finish(&mut self, due: Due, listing: &mut Listing<'_>) -> Result<(), Memory>
        ensures { OnOk result ((limit : ℕ) (table : Table) → HoldsTable self.old limit table → listing.new ≡ with_each (over_tcp due (last_of limit table.active)) listing.old) }
    {
        self.put_back()?;
        while let Some((_, mut sending)) = self.active.pop_first() {
            sending.finish(due, listing)?;
        }
        Ok(())
    }
}
