//! The numbers with which C chooses.

ghost use Rattle.std.specs.Prelude.{◌≡◌};
ghost use Rattle.krb_c.specs.Numbers.{form_of, goes_on, limit_of, now_of, port_of, profile_of};

use krb_tool::{Form, Limit, Profile};

/// The port of KDCs (RFC 4120, 7.2.1).
const KDC_PORT: u16 = 88;

/// Returns the profile of a number: 0 is the lenient one, and any other number the strict one.
pub(crate) fn profile_of(number: u32) -> Profile
    ensures { result ≡ profile_of number }
{
    if number == 0 {
        Profile::Lenient
    } else {
        Profile::Strict
    }
}

/// Returns the form of a number: 0 is lines, 1 lines with names, and any other number JSON.
pub(crate) fn form_of(number: u32) -> Form
    ensures { result ≡ form_of number }
{
    if number == 0 {
        Form::Lines
    } else if number == 1 {
        Form::NamedLines
    } else {
        Form::Json
    }
}

/// Returns the limit of a number, or 16777216 if it is no limit.
pub(crate) fn limit_of(number: u32) -> Limit
    ensures { result ≡ limit_of number }
{
    match Limit::new(number) {
        Some(limit) => limit,
        None => Limit::DEFAULT,
    }
}

/// Returns whether a number is to go on after a refusal: any but 0.
pub(crate) fn goes_on(number: u32) -> bool
    ensures { result ≡ goes_on number }
{
    number != 0
}

/// Returns the time of a number of seconds since 1970-01-01, of which 0 is none.
pub(crate) fn now_of(seconds: u32) -> Option<u32>
    ensures { result ≡ now_of seconds }
{
    if seconds == 0 { None } else { Some(seconds) }
}

/// Returns the port of KDCs of a number, of which 0 is the usual one.
pub(crate) fn port_of(number: u16) -> u16
    ensures { result ≡ port_of number }
{
    if number == 0 { KDC_PORT } else { number }
}
