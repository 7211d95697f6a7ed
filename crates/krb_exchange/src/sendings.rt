//! The events of a capture, and what is told of them.

ghost use Rattle.std.specs.Prelude.{◌≡◌, ◌++◌, false, [], None, IfNone, IfOk, OnErr, OnOk};
ghost use Rattle.std.specs.Option.{option_map};
ghost use Rattle.krb_exchange.specs.Happened.{before_of, begun, error_taken, first_of, listed, open_in, replied, request_of, requested, reversed, segment_taken, syn_again, syn_anew, syn_answered, syn_of, syn_taken, told_of_syn};

use crate::fingerprint::Fingerprint;
use crate::parties::{Header, Reply};
use crate::sending::{Moment, Sending, State, What, reversed};
use crate::window::Window;
use krb_der::Memory;
use krb_record::{Flow, Request};
use std::alloc::Global;
use std::marker::Model;

/// The last 65536 sendings of a capture. It allocates for these alone, some 270 octets for each.
#[derive(Drop)]
pub struct Sendings {
    window: Window,
}

impl Model for Sendings {
    ghost use Rattle.std.specs.Prelude.{List, None};
    ghost use Rattle.krb_exchange.specs.declared.sending.Sending.{Sending};
    ghost use Rattle.krb_exchange.specs.inner.Indexes.{Keeps};

    ghost Value = { List Sending };

    ghost view = { λ sendings. sendings.window.sendings.items };

    ghost invariant = { λ sendings. Keeps sendings.window None };
}

/// What is told of a request.
#[derive(Clone, Copy)]
pub struct RequestTold {
    /// The packet in which the same octets were sent first, if they were sent before.
    pub again: Option<u64>,
    /// A sending that leaves the window and is open: nothing answered it.
    pub missed: Option<Sending>,
}

/// What is told of a segment, in this order.
#[derive(Clone, Copy)]
pub struct SegmentTold {
    /// The SYN that it resets.
    pub reset: Option<Sending>,
    /// The SYN of its flow that nothing answered, since it is one with another number.
    pub silent: Option<Sending>,
    /// A sending that leaves the window and is open: nothing answered it.
    pub missed: Option<Sending>,
}

/// Returns the packet with which the same was sent first: that of the sending before it, or else its
/// own.
fn first_of(before: Option<Sending>, sent: Moment) -> Moment
    ensures { result ≡ first_of before sent }
{
    match before {
        Some(before) => before.first,
        None => sent,
    }
}

/// Returns the packet with which a sending was sent first.
fn packet_of(before: Option<Sending>) -> Option<u64>
    ensures { result ≡ option_map (λ one. one.first.packet) before }
{
    match before {
        Some(before) => Some(before.first.packet),
        None => None,
    }
}

/// Returns a request that is sent.
fn request_of(
    request: Request,
    flow: Flow,
    octets: Fingerprint,
    sent: Moment,
    before: Option<Sending>,
) -> Sending
    ensures { result ≡ request_of request flow octets sent before }
{
    Sending {
        flow,
        what: What::Request(request, octets),
        sent,
        first: first_of(before, sent),
        state: State::Open,
    }
}

/// Returns a SYN that is sent.
fn syn_of(number: u32, flow: Flow, sent: Moment, first: Moment) -> Sending
    ensures { result ≡ syn_of number flow sent first }
{
    Sending {
        flow,
        what: What::Syn(number),
        sent,
        first,
        state: State::Open,
    }
}

impl Sendings {
    /// Creates a window with no sendings.
    pub fn new(alloc: Global) -> Sendings
        ensures { result ≡ [] }
    {
        Sendings {
            window: Window::new(alloc),
        }
    }

    /// Returns the packet with which octets were sent first, if a request that is kept has them.
    pub fn again_of(&self, octets: &Fingerprint) -> Option<u64>
        ensures { result ≡ option_map (λ one. one.first.packet) (before_of octets.now self.now) }
    {
        packet_of(self.window.before(octets))
    }

    /// Adds a request. Over UDP it takes the place of the latest open one of its flow and kind, if
    /// that has the same octets. Out of memory, nothing changes.
    pub fn request(
        &mut self,
        request: Request,
        flow: Flow,
        octets: Fingerprint,
        sent: Moment,
    ) -> Result<RequestTold, Memory>
        ensures told { IfOk result (λ told. told ≡ (requested request flow octets sent self.old).told) }
        ensures window { OnOk result (self.new ≡ (requested request flow octets sent self.old).window) }
        ensures same { OnErr result (self.new ≡ self.old) }
    {
        let before = self.window.before(&octets);
        let replaced = self.window.replaced(request, flow, &octets);
        let sending = request_of(request, flow, octets, sent, before);
        let missed = self.window.add(sending, replaced)?;
        Ok(RequestTold {
            again: packet_of(before),
            missed,
        })
    }

    /// Returns the request that a reply answers: one of the flow the other way round that is open,
    /// over UDP the latest that it fits, over TCP the first, if it fits that.
    pub fn answer_of(&self, reply: Reply, flow: Flow) -> Option<Sending>
        ensures { result ≡ (replied reply flow self.now).told }
    {
        self.window.at(self.window.answered(reply, reversed(flow)))
    }

    /// Takes a reply. Returns the request that it answers, which is open no more.
    pub fn reply(&mut self, reply: Reply, flow: Flow) -> Option<Sending>
        ensures told { result ≡ (replied reply flow self.old).told }
        ensures window { self.new ≡ (replied reply flow self.old).window }
    {
        let answered = self.window.answered(reply, reversed(flow));
        self.window.close(answered, State::Ended)
    }

    /// Takes out what is unanswered of a direction of TCP that begins anew: returns its first open
    /// request, which is open no more. To be called until it returns `None`.
    pub fn begun(&mut self, flow: Flow) -> Option<Sending>
        ensures told { listed result ++ (begun flow self.new).told ≡ (begun flow self.old).told }
        ensures window { (begun flow self.new).window ≡ (begun flow self.old).window }
        ensures none { IfNone result (self.new ≡ (begun flow self.old).window) }
    {
        let first = self.window.first_open(flow);
        self.window.close(first, State::Ended)
    }

    /// Returns whether a segment may tell or change something: it asks for a connection, or a SYN is
    /// open.
    pub fn hears(&self, header: Header) -> bool
        ensures { result ≡ false → (flow : Flow) (sent : Moment) → segment_taken header flow sent self.now ≡ record { told = told_of_syn None None; window = self.now } }
    {
        if header.is_asking() {
            return true;
        }
        self.window.has_open_syn()
    }

    /// Takes a segment of TCP. It ends the SYNs that it answers, and one that asks for a connection
    /// is added. Out of memory, it is not added, and what it answers has ended.
    pub fn segment(
        &mut self,
        header: Header,
        flow: Flow,
        sent: Moment,
    ) -> Result<SegmentTold, Memory>
        ensures told { IfOk result (λ told. told ≡ (segment_taken header flow sent self.old).told) }
        ensures window { OnOk result (self.new ≡ (segment_taken header flow sent self.old).window) }
        ensures answered { OnErr result (self.new ≡ (syn_answered (reversed flow) self.old).window) }
    {
        let answered = self.answer_syn(reversed(flow));
        if header.is_asking() {
            return self.syn(header.sequence, flow, sent);
        }
        self.answer_syn(flow);
        Ok(SegmentTold {
            reset: if header.rst { answered } else { None },
            silent: None,
            missed: None,
        })
    }

    /// Ends the latest SYN of a flow, if it is open. Returns it as it was.
    fn answer_syn(&mut self, flow: Flow) -> Option<Sending>
        ensures told { result ≡ (syn_answered flow self.old).told }
        ensures window { self.new ≡ (syn_answered flow self.old).window }
    {
        let open = self.window.open_syn(flow);
        self.window.close(open, State::Ended)
    }

    /// Takes a SYN that asks for a connection. Out of memory, nothing changes.
    fn syn(&mut self, number: u32, flow: Flow, sent: Moment) -> Result<SegmentTold, Memory>
        ensures told { IfOk result (λ told. told ≡ (syn_taken number flow sent self.old).told) }
        ensures window { OnOk result (self.new ≡ (syn_taken number flow sent self.old).window) }
        ensures same { OnErr result (self.new ≡ self.old) }
    {
        let latest = self.window.latest_syn(flow);
        match self.window.at(latest) {
            Some(before) if before.what.has_number(number) => {
                self.syn_again(number, flow, sent, before)
            }
            _ => self.syn_anew(number, flow, sent),
        }
    }

    /// Takes a SYN with the number of the latest one of its flow: a copy, if that was answered, and
    /// else one that is sent again. Out of memory, nothing changes.
    fn syn_again(
        &mut self,
        number: u32,
        flow: Flow,
        sent: Moment,
        before: Sending,
    ) -> Result<SegmentTold, Memory>
        ensures told { IfOk result (λ told. told ≡ (syn_again number flow sent before self.old).told) }
        ensures window { OnOk result (self.new ≡ (syn_again number flow sent before self.old).window) }
        ensures same { OnErr result (self.new ≡ self.old) }
    {
        let missed = match before.state {
            State::Ended => None,
            State::Open | State::Erred => {
                let syn = syn_of(number, flow, sent, before.first);
                self.window.add(syn, self.window.latest_syn(flow))?
            }
        };
        Ok(SegmentTold {
            reset: None,
            silent: None,
            missed,
        })
    }

    /// Takes a SYN with another number than the latest one of its flow, which is missed if it is
    /// open. Out of memory, nothing changes.
    fn syn_anew(&mut self, number: u32, flow: Flow, sent: Moment) -> Result<SegmentTold, Memory>
        ensures told { IfOk result (λ told. told ≡ (syn_anew number flow sent self.old).told) }
        ensures window { OnOk result (self.new ≡ (syn_anew number flow sent self.old).window) }
        ensures same { OnErr result (self.new ≡ self.old) }
    {
        let open = self.window.open_syn(flow);
        let silent = self.window.at(open);
        let missed = self.window.add(syn_of(number, flow, sent, sent), open)?;
        Ok(SegmentTold {
            reset: None,
            silent,
            missed,
        })
    }

    /// Takes an ICMP error that is about a flow. Returns the latest open sending of that. It is
    /// still open if it is a request, since another one may come through.
    pub fn error(&mut self, flow: Flow) -> Option<Sending>
        ensures told { result ≡ (error_taken flow self.old).told }
        ensures window { self.new ≡ (error_taken flow self.old).window }
    {
        let latest = self.window.latest_open(flow);
        let sending = self.window.at(latest)?;
        match sending.what {
            What::Syn(_) => self.window.close(latest, State::Erred),
            What::Request(..) => Some(sending),
        }
    }

    /// Takes the first open sending out, and those before it. To be called at the end of the
    /// capture, until it returns `None`.
    pub fn end(&mut self) -> Option<Sending>
        ensures told { listed result ++ open_in self.new ≡ open_in self.old }
        ensures none { IfNone result (self.new ≡ []) }
    {
        self.window.next_open()
    }
}
