//! Hexadecimal digits of octets, and octets of digits. None is looked at by a branch, which the
//! processor would have to guess: most of what `put_text` writes, and `read_line` reads, is digits.

ghost use Rattle.std.specs.Prelude.{◌≡◌, ◌*◌, ◌<◌, length, slice_index, true, IfOk, Some, Ok};
ghost use Rattle.std.specs.List.{list_all};
ghost use Rattle.hex.specs.Hex.{decode_pairs, encode_lower, hex_digit_value, is_hex_digit, lower_digits};
ghost use Rattle.krb_json.specs.inner.Scalars.{Decodes};

use std::alloc::AllocError;

/// Returns whether an octet is a hexadecimal digit, of either case.
fn is_digit(octet: u8) -> bool
    ensures { result ≡ is_hex_digit octet }
{
    ((b'0' <= octet) & (octet <= b'9'))
        | ((b'A' <= octet) & (octet <= b'F'))
        | ((b'a' <= octet) & (octet <= b'f'))
}

/// Returns the value of a digit.
fn digit_value(digit: u8) -> u8
    requires { is_hex_digit digit ≡ true }
    ensures value { hex_digit_value digit ≡ Some result }
    ensures small { result < 16 }
{
    digit % 16 + 9 * (digit / 64)
}

/// Returns whether all octets are digits. It looks at all of them, even after one that is none.
fn are_digits(octets: &[u8]) -> bool
    ensures { result ≡ list_all is_hex_digit octets.now }
{
    let mut are = true;
    for octet in octets {
        are &= is_digit(*octet);
    }
    are
}

/// Fills room with the octets of digits, two digits for each.
fn fill_octets(room: &mut [u8], digits: &[u8])
    requires count { length digits.now ≡ 2 * length room.old }
    requires digits { list_all is_hex_digit digits.now ≡ true }
    ensures { decode_pairs 0 digits.now ≡ Ok room.new }
{
    for index in 0..room.len() {
        let high = digit_value(digits[2 * index]);
        let low = digit_value(digits[2 * index + 1]);
        room[index] = 16 * high + low;
    }
}

/// Appends the octets of a text of digits, two digits for each, and returns true; or returns false,
/// if the text is not that.
pub(crate) fn push_decoded(out: &mut Vec<u8>, text: &[u8]) -> Result<bool, AllocError>
    ensures { IfOk result (Decodes text.now out.old.items out.new.items) }
{
    if text.len() % 2 != 0 || !are_digits(text) {
        return Ok(false);
    }
    let start = out.len();
    out.resize(start + text.len() / 2, 0)?;
    fill_octets(&mut out.as_mut_slice()[start..], text);
    Ok(true)
}

/// Returns the digit of a value, in lower case.
fn digit_of(value: u8) -> u8
    requires { value < 16 }
    ensures { result ≡ slice_index lower_digits value }
{
    if value < 10 {
        b'0' + value
    } else {
        b'a' - 10 + value
    }
}

/// Fills room with the digits of octets, two for each, in lower case.
pub(crate) fn fill_digits(room: &mut [u8], octets: &[u8])
    requires { length room.old ≡ 2 * length octets.now }
    ensures { room.new ≡ encode_lower octets.now }
{
    for index in 0..octets.len() {
        let high = digit_of(octets[index] / 16);
        let low = digit_of(octets[index] % 16);
        room[2 * index] = high;
        room[2 * index + 1] = low;
    }
}
