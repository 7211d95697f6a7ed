//! Numbers as octets, the most significant first (X.690, 8.1.3.5 and 8.3).

ghost use Rattle.std.specs.Prelude.{◌≡◌, ◌+◌, ◌^◌, ◌<◌, ◌≤◌, length};
ghost use Rattle.std.specs.Vec.{vec_len, vec_capacity};
ghost use Rattle.krb_der.specs.Puts.{Puts};
ghost use Rattle.krb_der.specs.Octets.{spelled, complement, item, integer_octets, number as number_spelled, integer_value as value_of_octets};
ghost use Rattle.krb_der.specs.Sizes.{magnitude as magnitude_of};

use crate::item::put_header;

/// Returns the least number of octets that spell a number if the first of them is below `bound`: 1
/// to 8, or 9.
pub(crate) fn number_size(bound: u64, number: u64) -> u64
    requires { 0 < bound }
    ensures value { result ≡ length (spelled bound number) }
    ensures small { result ≤ 9 }
{
    if number < bound {
        1
    } else {
        number_size(bound, number / 256) + 1
    }
}

/// Appends the fewest octets that spell a number and of which the first is below `bound`.
pub(crate) fn put_number(out: &mut Vec<u8>, bound: u64, number: u64)
    requires bound { 0 < bound }
    requires octets { bound ≤ 256 }
    requires capacity { vec_len out.old + length (spelled bound number) ≤ vec_capacity out.old }
    ensures { Puts (spelled bound number) out.old out.new }
{
    if number < bound {
        out.push_reserved(number as u8);
    } else {
        put_number(out, bound, number / 256);
        out.push_reserved((number % 256) as u8);
    }
}

/// Appends the complements of the fewest octets that spell a number and of which the first is below
/// 128.
fn put_complement(out: &mut Vec<u8>, number: u64)
    requires { vec_len out.old + length (spelled 128 number) ≤ vec_capacity out.old }
    ensures { Puts (complement (spelled 128 number)) out.old out.new }
{
    if number < 128 {
        out.push_reserved(255 - number as u8);
    } else {
        put_complement(out, number / 256);
        out.push_reserved(255 - (number % 256) as u8);
    }
}

/// Returns the number, or one less than the magnitude of a negative one.
fn magnitude(number: i64) -> u64
    ensures { result ≡ magnitude_of number }
{
    if number < 0 {
        (-1 - number) as u64
    } else {
        number as u64
    }
}

/// Returns the number of DER octets of an INTEGER, 3 to 10 (X.690, 8.3).
pub fn integer_size(number: i64) -> u64
    ensures value { result ≡ length (item 0x02 (integer_octets number)) }
    ensures small { result ≤ 11 }
{
    number_size(128, magnitude(number)) + 2
}

/// Appends the DER octets of an INTEGER (X.690, 8.3), within the capacity of `out`.
pub fn put_integer(out: &mut Vec<u8>, number: i64)
    requires { vec_len out.old + length (item 0x02 (integer_octets number)) ≤ vec_capacity out.old }
    ensures { Puts (item 0x02 (integer_octets number)) out.old out.new }
{
    let magnitude = magnitude(number);
    put_header(out, 0x02, number_size(128, magnitude) as u32);
    if number < 0 {
        put_complement(out, magnitude);
    } else {
        put_number(out, 128, magnitude);
    }
}

/// Returns the number that at most five octets spell, the most significant first.
#[inline(always)]
pub fn number_of(octets: &[u8]) -> u64
    requires { length octets.now ≤ 5 }
    ensures value { result ≡ number_spelled octets.now }
    ensures small { result < 2 ^ 40 }
{
    let mut number = 0;
    for octet in octets {
        number = number * 256 + u64::from(*octet);
    }
    number
}

/// Returns the number that the complements of octets spell, the most significant first.
fn number_of_complement(octets: &[u8]) -> u64
    requires { length octets.now ≤ 5 }
    ensures value { result ≡ number_spelled (complement octets.now) }
    ensures small { result < 2 ^ 40 }
{
    let mut number = 0;
    for octet in octets {
        number = number * 256 + u64::from(255 - *octet);
    }
    number
}

/// Returns the number that at most five contents octets of an INTEGER spell, in two's complement
/// (X.690, 8.3.3).
#[inline(always)]
pub fn integer_value(octets: &[u8]) -> i64
    requires { length octets.now ≤ 5 }
    ensures { result ≡ value_of_octets octets.now }
{
    match octets.first() {
        Some(first) if *first >= 128 => -1 - number_of_complement(octets) as i64,
        _ => number_of(octets) as i64,
    }
}
