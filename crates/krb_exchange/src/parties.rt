//! What comes beside requests: replies, and the headers of segments.

ghost use Rattle.std.specs.Prelude.{◌≡◌};
ghost use Rattle.krb_exchange.specs.Happened.{fits, is_asking};

use krb_record::Request;

/// The kind of a reply.
#[derive(Clone, Copy, PartialEq, Eq, Debug)]
pub enum Reply {
    /// An AS-REP (RFC 4120, 5.4.2).
    AsRep,
    /// A TGS-REP (RFC 4120, 5.4.2).
    TgsRep,
    /// A KRB-ERROR (RFC 4120, 5.9.1).
    Error,
    /// A reply to a change of a password (RFC 3244, 2).
    Kpasswd,
    /// One whose octets were refused or lost.
    Unread,
}

impl Reply {
    /// Returns whether a reply of this kind may answer a request.
    pub fn fits(self, request: Request) -> bool
        ensures { result ≡ fits self request }
    {
        match (self, request) {
            (Reply::Unread, _) => true,
            (Reply::AsRep | Reply::Error, Request::AsReq) => true,
            (Reply::TgsRep | Reply::Error, Request::TgsReq) => true,
            (Reply::Kpasswd, Request::Kpasswd) => true,
            _ => false,
        }
    }
}

/// What the header of a TCP segment says (RFC 9293, 3.1).
#[derive(Clone, Copy, Debug)]
pub struct Header {
    /// The sequence number.
    pub sequence: u32,
    /// The sequence number is the first one.
    pub syn: bool,
    /// Octets of the other direction are acknowledged.
    pub ack: bool,
    /// The connection is reset.
    pub rst: bool,
}

impl Header {
    /// Returns whether the segment asks for a connection.
    pub(crate) fn is_asking(self) -> bool
        ensures { result ≡ is_asking self }
    {
        self.syn && !self.ack && !self.rst
    }
}
