//! The offset at the beginning of a line of a dump.

ghost use Rattle.std.specs.Prelude.{◌≡◌, ◌+◌, ◌*◌, ◌<◌, ◌≤◌, ◌^◌, length};
ghost use Rattle.krb_input.specs.Characters.{is_x};
ghost use Rattle.krb_input.specs.Dumps.{after_offset, is_number, is_offset, is_offset_long, is_prefixed, number_from, offset_base, without_prefix};
ghost use Rattle.krb_input.specs.inner.Results.{IsPart};

use crate::characters::{begins_with, count_digits, digit_value};
use crate::tokens::is_x;

/// Returns whether `0x` comes first in a text.
pub(crate) fn is_prefixed(text: &[u8]) -> bool
    ensures { result ≡ is_prefixed text.now }
{
    match text {
        [digit, x, ..] => *digit == b'0' && is_x(*x),
        _ => false,
    }
}

/// Returns what follows `0x`, if it comes first, or all of a text.
pub(crate) fn without_prefix(text: &[u8]) -> &[u8]
    ensures { result.now ≡ without_prefix text.now }
{
    if is_prefixed(text) { &text[2..] } else { text }
}

/// Returns whether an offset has so many digits.
pub(crate) fn is_offset_long(digits: usize) -> bool
    ensures { result ≡ is_offset_long digits }
{
    4 <= digits && digits <= 16
}

/// Returns the number that a digit's value makes of the number before it.
fn add_digit(base: u8, number: u64, value: u8) -> u64
    requires { number * base + value < 2 ^ 64 }
    ensures { result ≡ number * base + value }
{
    number * u64::from(base) + u64::from(value)
}

/// Returns the number that digits spell in a base, if they are digits of it.
fn number_of(base: u8, digits: &[u8]) -> Option<u64>
    requires base { base ≤ 16 }
    requires digits { length digits.now ≤ 16 }
    ensures { result ≡ number_from base 0 digits.now }
{
    let mut number: u64 = 0;
    let mut rest = digits;
    while let [digit, others @ ..] = rest {
        let value = digit_value(*digit)?;
        if base <= value {
            return None;
        }
        number = add_digit(base, number, value);
        rest = others;
    }
    Some(number)
}

/// Returns whether digits of a base say a count.
fn is_count(count: usize, base: u8, digits: &[u8]) -> bool
    requires base { base ≤ 16 }
    requires digits { length digits.now ≤ 16 }
    ensures { result ≡ is_number count (number_from base 0 digits.now) }
{
    match number_of(base, digits) {
        Some(number) => number == count as u64,
        None => false,
    }
}

/// Returns the base of an offset, which has so many digits that a text follows.
fn offset_base(is_prefixed: bool, digits: usize, after: &[u8]) -> u8
    ensures { result ≡ offset_base is_prefixed digits after.now }
{
    if digits == 7 && !is_prefixed && !begins_with(after, b':') {
        8
    } else {
        16
    }
}

/// Returns whether a number of digits of a text are an offset, and say the count of the octets
/// before the line.
fn is_offset(count: usize, is_prefixed: bool, digits: usize, text: &[u8]) -> bool
    requires { digits ≤ length text.now }
    ensures { result ≡ is_offset count is_prefixed digits text.now }
{
    if !is_offset_long(digits) {
        return false;
    }
    let base = offset_base(is_prefixed, digits, &text[digits..]);
    is_count(count, base, &text[..digits])
}

/// Returns what follows the offset at the beginning of a line, if it says the count of the octets
/// before the line.
pub(crate) fn after_offset(count: usize, line: &[u8]) -> Option<&[u8]>
    ensures { IsPart (after_offset count line.now) result }
{
    let text = without_prefix(line);
    let digits = count_digits(text);
    if is_offset(count, is_prefixed(line), digits, text) {
        Some(&text[digits..])
    } else {
        None
    }
}
