//! The contents of INTEGERs.

ghost use Rattle.std.specs.Prelude.{◌≡◌, ◌≤◌, ◌≤ℤ◌, ◌&&◌, pos, negsuc, length, MatchOption, IfSome};
ghost use Rattle.krb_der.specs.Octets.{integer_octets, integer_value as value_of_octets};
ghost use Rattle.krb_msg.specs.Judgement.{int_le};
ghost use Rattle.krb_msg.specs.Viewed.{IsNumberIn, IsNoNumberIn};

use crate::contents::is_padded;
use krb_der::integer_value;

/// Returns the number of an INTEGER's contents, if it is in a range (X.690, 8.3).
#[inline(always)]
pub fn number(low: i64, high: i64, contents: &[u8]) -> Option<i64>
    requires low { negsuc 2147483647 ≤ℤ low }
    requires high { high ≤ℤ pos 4294967295 }
    ensures { MatchOption result (IsNoNumberIn low high contents.now) (λ number. IsNumberIn low high contents.now number) }
{
    match short_number(contents) {
        Some(number) if is_between(low, high, number) => Some(number),
        _ => long_number(low, high, contents),
    }
}

/// Returns the number of an INTEGER's contents, if it is one octet below 80.
#[inline(always)]
fn short_number(contents: &[u8]) -> Option<i64>
    ensures { IfSome result (λ number. contents.now ≡ integer_octets number) }
{
    match contents {
        [octet] if *octet < 0x80 => Some(i64::from(*octet)),
        _ => None,
    }
}

/// Returns the same as [`number`]; of most messages most numbers have one octet.
#[inline(never)]
fn long_number(low: i64, high: i64, contents: &[u8]) -> Option<i64>
    requires low { negsuc 2147483647 ≤ℤ low }
    requires high { high ≤ℤ pos 4294967295 }
    ensures { MatchOption result (IsNoNumberIn low high contents.now) (λ number. IsNumberIn low high contents.now number) }
{
    if contents.is_empty() || contents.len() > 5 || is_padded(contents) {
        return None;
    }
    let number = value(contents);
    if is_between(low, high, number) {
        Some(number)
    } else {
        None
    }
}

/// Returns the number that contents spell. With a size that is known, the octets are put together
/// with no loop.
#[inline(always)]
fn value(contents: &[u8]) -> i64
    requires { length contents.now ≤ 5 }
    ensures { result ≡ value_of_octets contents.now }
{
    match contents {
        [a, b] => integer_value(&[*a, *b]),
        [a, b, c] => integer_value(&[*a, *b, *c]),
        [a, b, c, d] => integer_value(&[*a, *b, *c, *d]),
        _ => integer_value(contents),
    }
}

/// Returns whether a number is in a range.
#[inline(always)]
fn is_between(low: i64, high: i64, number: i64) -> bool
    ensures { result ≡ (int_le low number && int_le number high) }
{
    low <= number && number <= high
}
