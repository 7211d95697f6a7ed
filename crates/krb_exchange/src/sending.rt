//! What was sent.

ghost use Rattle.std.specs.Prelude.{◌≡◌};
ghost use Rattle.krb_exchange.specs.Happened.{fits, has_number, has_octets, is_open, is_request, reversed};

use crate::fingerprint::Fingerprint;
use crate::parties::Reply;
use krb_record::{Flow, Request};
use krb_source::Timestamp;

/// A packet of a capture.
#[derive(Clone, Copy, PartialEq, Eq, Debug)]
pub struct Moment {
    /// Its number.
    pub packet: u64,
    /// When it was captured, if its file says so.
    pub time: Option<Timestamp>,
}

/// What was sent.
#[derive(Clone, Copy, PartialEq, Eq, Debug)]
pub enum What {
    /// A request of a kind, whose octets are known by this.
    Request(Request, Fingerprint),
    /// A SYN with this sequence number (RFC 9293, 3.5).
    Syn(u32),
}

impl What {
    /// Returns whether it is a SYN with this sequence number.
    pub(crate) fn has_number(self, number: u32) -> bool
        ensures { result ≡ has_number number self }
    {
        match self {
            What::Syn(other) => number == other,
            What::Request(..) => false,
        }
    }

    /// Returns whether it is a request with these octets.
    pub(crate) fn has_octets(self, octets: &Fingerprint) -> bool
        ensures { result ≡ has_octets octets.now self }
    {
        match self {
            What::Request(_, others) => {
                octets.hash == others.hash && octets.length == others.length
            }
            What::Syn(_) => false,
        }
    }

    /// Returns whether it is a request that a reply may answer.
    pub(crate) fn is_for(self, reply: Reply) -> bool
        ensures { result ≡ is_request (fits reply) self }
    {
        match self {
            What::Request(request, _) => reply.fits(request),
            What::Syn(_) => false,
        }
    }
}

/// Whether something came back.
#[derive(Clone, Copy, PartialEq, Eq, Debug)]
pub enum State {
    /// Nothing came yet.
    Open,
    /// It was answered or sent again, or it is told that nothing answered.
    Ended,
    /// An ICMP error was about it.
    Erred,
}

impl State {
    /// Returns whether it is open.
    pub(crate) fn is_open(self) -> bool
        ensures { result ≡ is_open self }
    {
        match self {
            State::Open => true,
            State::Ended | State::Erred => false,
        }
    }
}

/// A request or a SYN that was sent.
#[derive(Clone, Copy)]
pub struct Sending {
    /// From where to where.
    pub flow: Flow,
    /// Whether something came back.
    pub state: State,
    /// What it was.
    pub what: What,
    /// The packet that it was in.
    pub sent: Moment,
    /// The packet in which the same was sent first.
    pub first: Moment,
}

/// Returns the flow the other way round.
pub(crate) fn reversed(flow: Flow) -> Flow
    ensures { result ≡ reversed flow }
{
    Flow {
        transport: flow.transport,
        source: flow.target,
        target: flow.source,
    }
}
