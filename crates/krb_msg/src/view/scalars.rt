//! The scalars (RFC 4120, 5.2) viewed in place.

ghost use Rattle.std.specs.Prelude.{⊤, ◌≡◌, ◌≤ℤ◌, ◌↔◌, ◌^◌, ◌<◌, true, pos, length};
ghost use Rattle.krb_der.specs.Octets.{AreBits};
ghost use Rattle.krb_der.specs.Scalars.{IsTimeFrom};
ghost use Rattle.krb_msg.specs.Term.{tag_of};
ghost use Rattle.krb_msg.specs.Grammar.{exactly, int32, wide32, microseconds, kerberos_string, octet_string, kerberos_time, kerberos_flags};

use crate::fields::View;
use crate::view::number::number;
use krb_der::{Flags, Int32, KString, KerberosTime, Micros, Octets, Wide32, last_or_zero};

/// An INTEGER that is always this number.
pub struct Exactly<const NUMBER: u8>;

impl<'a, const NUMBER: u8> View<'a> for Exactly<NUMBER> {
    type Of = ();

    ghost term = { exactly NUMBER };

    ghost value = { λ seen. pos NUMBER };

    ghost IsValid = { λ seen. ⊤ };

    #[inline(always)]
    fn tag() -> u8 {
        2
    }

    #[inline(always)]
    fn view_into(contents: &'a [u8], _seen: &mut ()) -> bool {
        match number(i64::from(NUMBER), i64::from(NUMBER), contents) {
            None => false,
            Some(_) => true,
        }
    }
}

impl<'a> View<'a> for Int32 {
    type Of = i64;

    ghost term = { int32 };

    ghost value = { λ number. number };

    ghost IsValid = { λ seen. ⊤ };

    #[inline(always)]
    fn tag() -> u8 {
        2
    }

    #[inline(always)]
    fn view_into(contents: &'a [u8], seen: &mut i64) -> bool {
        match number(-0x8000_0000, 0x7FFF_FFFF, contents) {
            None => false,
            Some(found) => {
                *seen = found;
                true
            }
        }
    }
}

impl<'a> View<'a> for Wide32 {
    type Of = i64;

    ghost term = { wide32 };

    ghost value = { λ number. number };

    ghost IsValid = { λ seen. ⊤ };

    #[inline(always)]
    fn tag() -> u8 {
        2
    }

    #[inline(always)]
    fn view_into(contents: &'a [u8], seen: &mut i64) -> bool {
        match number(-0x8000_0000, 0xFFFF_FFFF, contents) {
            None => false,
            Some(found) => {
                *seen = found;
                true
            }
        }
    }
}

impl<'a> View<'a> for KString {
    type Of = &'a [u8];

    ghost term = { kerberos_string };

    ghost value = { λ octets. octets.now };

    ghost IsValid = { λ seen. ⊤ };

    #[inline(always)]
    fn tag() -> u8
        ensures { result ≡ tag_of kerberos_string }
    {
        0x1B
    }

    #[inline(always)]
    fn view_into(contents: &'a [u8], seen: &mut &'a [u8]) -> bool {
        *seen = contents;
        true
    }
}

impl<'a> View<'a> for Octets {
    type Of = &'a [u8];

    ghost term = { octet_string };

    ghost value = { λ octets. octets.now };

    ghost IsValid = { λ octets. length octets.now < 2 ^ 31 };

    #[inline(always)]
    fn tag() -> u8
        ensures { result ≡ tag_of octet_string }
    {
        4
    }

    #[inline(always)]
    fn view_into(contents: &'a [u8], seen: &mut &'a [u8]) -> bool {
        *seen = contents;
        true
    }
}

impl<'a> View<'a> for Micros {
    type Of = i64;

    ghost term = { microseconds };

    ghost value = { λ number. number };

    ghost IsValid = { λ number. pos 0 ≤ℤ number };

    #[inline(always)]
    fn tag() -> u8 {
        2
    }

    #[inline(always)]
    fn view_into(contents: &'a [u8], seen: &mut i64) -> bool {
        match number(0, 999_999, contents) {
            None => false,
            Some(found) => {
                *seen = found;
                true
            }
        }
    }
}

/// Returns whether octets are a KerberosTime.
#[inline(always)]
fn is_time(octets: &[u8]) -> bool
    ensures { (result ≡ true) ↔ IsTimeFrom 14 octets.now }
{
    let Some((time, rest)) = octets.split_first_chunk::<15>() else {
        return false;
    };
    if !rest.is_empty() {
        return false;
    }
    KerberosTime::new(*time).is_some()
}

impl<'a> View<'a> for KerberosTime {
    type Of = &'a [u8];

    ghost term = { kerberos_time };

    ghost value = { λ octets. octets.now };

    ghost IsValid = { λ octets. IsTimeFrom 14 octets.now };

    #[inline(always)]
    fn tag() -> u8
        ensures { result ≡ tag_of kerberos_time }
    {
        0x18
    }

    #[inline(always)]
    fn view_into(contents: &'a [u8], seen: &mut &'a [u8]) -> bool {
        if is_time(contents) {
            *seen = contents;
            true
        } else {
            false
        }
    }
}

/// Returns whether octets are those of a bit string with a count of unused bits.
#[inline(always)]
fn are_bits(unused: u8, octets: &[u8]) -> bool
    ensures { (result ≡ true) ↔ AreBits unused octets.now }
{
    unused < 8 && (unused == 0 || !octets.is_empty()) && last_or_zero(octets) % (1 << unused) == 0
}

/// A view of a BIT STRING.
#[derive(Clone, Copy, Default)]
pub struct FlagsView<'a> {
    /// How many low bits of the last octet are unused.
    pub unused: u8,
    /// The octets.
    pub octets: &'a [u8],
}

impl<'a> View<'a> for Flags {
    type Of = FlagsView<'a>;

    ghost term = { kerberos_flags };

    ghost value = { λ seen. (seen.unused, seen.octets.now) };

    ghost IsValid = { λ seen. ⊤ };

    #[inline(always)]
    fn tag() -> u8
        ensures { result ≡ tag_of kerberos_flags }
    {
        3
    }

    #[inline(always)]
    fn view_into(contents: &'a [u8], seen: &mut FlagsView<'a>) -> bool {
        let [unused, octets @ ..] = contents else {
            return false;
        };
        if are_bits(*unused, octets) {
            *seen = FlagsView {
                unused: *unused,
                octets,
            };
            true
        } else {
            false
        }
    }
}
