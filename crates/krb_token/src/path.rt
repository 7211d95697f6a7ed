//! The paths of what is at fault in a token.

ghost use Rattle.std.specs.Prelude.{◌≡◌, Some};
ghost use Rattle.krb_token.specs.Opened.{bare_fault, fault_in};
ghost use Rattle.krb_token.specs.Seen.{fault_of, path_text, path_at};

use krb_der::{Refusal, Why};
use std::fmt;

/// The path of what is at fault in a token, such as `GSS.oid` or `SPNEGO.mechTypes[0]`.
#[derive(Clone, Copy, PartialEq, Eq, Debug)]
pub struct TokenPath {
    /// The name, with those of what it is in.
    name: &'static str,
    /// The number of items before it, if it is in a list.
    index: Option<u32>,
}

/// What is at fault in a token: an octet, why, and the path of what it is in, if that has one.
#[derive(Clone, Copy)]
pub(crate) struct TokenFault {
    pub refusal: Refusal,
    pub path: Option<TokenPath>,
}

impl TokenPath {
    /// Returns the path of what is in no list.
    pub(crate) fn of(name: &'static str) -> TokenPath
        ensures { path_text result ≡ name.now }
    {
        TokenPath { name, index: None }
    }

    /// Returns the path of an item of a list.
    pub(crate) fn item(name: &'static str, index: u32) -> TokenPath
        ensures { path_text result ≡ path_at name.now (Some index) }
    {
        TokenPath {
            name,
            index: Some(index),
        }
    }

    /// Returns that an octet in it is at fault.
    pub(crate) fn fault(self, place: u32, why: Why) -> TokenFault
        ensures { fault_of result ≡ fault_in (path_text self) place why }
    {
        TokenFault {
            refusal: Refusal { place, why },
            path: Some(self),
        }
    }
}

impl TokenFault {
    /// Returns that an octet is at fault in what has no path.
    pub(crate) fn bare(place: u32, why: Why) -> TokenFault
        ensures { fault_of result ≡ bare_fault place why }
    {
        TokenFault {
            refusal: Refusal { place, why },
            path: None,
        }
    }
}

/// Shows `SPNEGO.mechTypes[0]`.
impl fmt::Display for TokenPath {
    ghost output = { λ path. Some (path_text path) };

    fn fmt<W: fmt::Write>(&self, f: &mut fmt::Formatter<W>) -> fmt::Result {
        match self.index {
            Some(index) => write!(f, "{}[{index}]", self.name),
            None => f.write_str(self.name),
        }
    }
}
