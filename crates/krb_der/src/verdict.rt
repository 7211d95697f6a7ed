//! Verdicts on octets, and refusals.

ghost use Rattle.std.specs.Prelude.{Some};
ghost use Rattle.krb_der.specs.Reasons.{refusal_text};

use crate::why::Why;
use std::error::Error;
use std::fmt;

/// A refusal of octets: the first octet at fault, and why.
#[derive(Clone, Copy, PartialEq, Eq, Debug)]
pub struct Refusal {
    /// The octet at fault, counted from 0: in a frame from the first octet of its length, in a
    /// slice from the slice's first octet.
    pub place: u32,
    /// Why this octet is refused.
    pub why: Why,
}

/// The verdict on the first octets of a message.
#[derive(Clone, Copy, PartialEq, Eq, Debug)]
pub enum Verdict {
    /// Nothing is decided: more octets are needed.
    Open,
    /// The octets are one whole message.
    Whole,
    /// No message begins with the octets.
    Refused(Refusal),
}

/// Shows `refused at 12: Range`.
impl fmt::Display for Refusal {
    ghost output = { λ refusal. Some (refusal_text refusal) };

    fn fmt<W: fmt::Write>(&self, f: &mut fmt::Formatter<W>) -> fmt::Result {
        write!(f, "refused at {}: {}", self.place, self.why)
    }
}

impl Error for Refusal {}
