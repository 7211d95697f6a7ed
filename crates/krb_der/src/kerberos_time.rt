//! Times.

use crate::der::Der;
use crate::item::{item_size, put_item};
use std::marker::Model;

/// A KerberosTime (RFC 4120, 5.2.3): the year in four digits, month, day, hour, minute and second
/// in two each, then a `Z`. Whether there is such a date is not checked. Contracts see the list of
/// its fifteen octets.
#[derive(Clone, Copy, PartialEq, Eq, Debug)]
pub struct KerberosTime {
    octets: [u8; 15],
}

impl Model for KerberosTime {
    ghost use Rattle.std.specs.Prelude.{List, ℕ};
    ghost use Rattle.krb_der.specs.Scalars.{IsTimeFrom};

    ghost Value = { List ℕ };

    ghost view = { λ time. time.octets };

    ghost invariant = { λ time. IsTimeFrom 14 time.octets };

    ghost inverse = { λ octets. record { octets = octets } };
}

ghost use Rattle.std.specs.Prelude.{◌≡◌, ◌↔◌, IsSome, IfSome};
ghost use Rattle.std.specs.Str.{IsAscii};
ghost use Rattle.std.specs.Char.{is_ascii_digit};
ghost use Rattle.std.specs.List.{list_all};
ghost use Rattle.krb_der.specs.Scalars.{IsTimeFrom};
ghost use Rattle.krb_der.specs.Octets.{item};
ghost use Rattle.krb_der.specs.inner.PrefixFree.{item_begins, same_octets};

impl KerberosTime {
    /// Returns the time with these octets, or `None` if they are not fourteen digits and a `Z`.
    pub fn new(octets: [u8; 15]) -> Option<KerberosTime>
        ensures shape { IsSome result ↔ IsTimeFrom 14 octets }
        ensures value { IfSome result (λ time. time ≡ octets) }
    {
        if are_digits(&octets[..14]) && octets[14] == b'Z' {
            Some(KerberosTime { octets })
        } else {
            None
        }
    }

    /// Returns the octets, borrowed.
    pub fn octets(&self) -> &[u8; 15]
        ensures value { result.now ≡ self.now }
        ensures shape { IsTimeFrom 14 result.now }
        ensures ascii { IsAscii result.now }
    {
        &self.octets
    }
}

/// A KerberosTime is encoded as a GeneralizedTime (X.690, 8.25 and 11.7).
impl Der for KerberosTime {
    ghost der = { λ octets. item 0x18 octets };

    ghost Fits = { IsTimeFrom 14 };

    fn size(&self) -> u64 {
        item_size(self.octets().len() as u64)
    }

    fn put(&self, out: &mut Vec<u8>) {
        put_item(out, 0x18, &self.octets);
    }

    ghost begins = { λ octets. item_begins 0x18 octets };

    ghost prefix_free = { same_octets 0x18 };
}

/// Returns whether all octets are ASCII digits.
fn are_digits(octets: &[u8]) -> bool
    ensures { result ≡ list_all is_ascii_digit octets.now }
{
    for octet in octets {
        if !octet.is_ascii_digit() {
            return false;
        }
    }
    true
}
