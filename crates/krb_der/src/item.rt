//! Items: a tag, a length and contents (X.690, 8.1).

ghost use Rattle.std.specs.Prelude.{◌≡◌, ◌+◌, ◌<◌, ◌≤◌, ◌^◌, ◌∷◌, length};
ghost use Rattle.std.specs.Vec.{vec_len, vec_capacity};
ghost use Rattle.krb_der.specs.Puts.{Puts};
ghost use Rattle.krb_der.specs.Octets.{AreOctets, item, length_octets};
ghost use Rattle.krb_der.specs.Sizes.{item_length, saturated};

use crate::number::{number_size, put_number};

/// The least number of octets that is too long for a message, 2^31.
pub const TOO_LONG: u64 = 2147483648;

/// Returns the number of octets of an item whose contents are `contents` octets, or 2147483648 if
/// there are more.
pub fn item_size(contents: u64) -> u64
    ensures { result ≡ saturated (item_length contents) }
{
    if contents < 0x80 {
        contents + 2
    } else if contents < TOO_LONG {
        (contents + 2 + number_size(256, contents)).min(TOO_LONG)
    } else {
        TOO_LONG
    }
}

/// Returns the number of octets of a slice.
pub fn size_of(octets: &[u8]) -> u64
    ensures value { result ≡ length octets.now }
    ensures octets { AreOctets octets.now }
{
    octets.len() as u64
}

/// Returns the sum of two numbers of octets, or 2147483648 if it is more.
pub fn add_sizes(size: u64, more: u64) -> u64
    ensures { result ≡ saturated (size + more) }
{
    size.saturating_add(more).min(TOO_LONG)
}

/// Appends the tag and the length octets of an item, within the capacity of `out`. Its contents,
/// `contents` octets, have to be appended next.
pub fn put_header(out: &mut Vec<u8>, tag: u8, contents: u32)
    requires { vec_len out.old + (1 + length (length_octets contents)) ≤ vec_capacity out.old }
    ensures { Puts (tag ∷ length_octets contents) out.old out.new }
{
    out.push_reserved(tag);
    if contents < 0x80 {
        out.push_reserved(contents as u8);
    } else {
        let number = u64::from(contents);
        out.push_reserved(0x80 + number_size(256, number) as u8);
        put_number(out, 256, number);
    }
}

/// Appends octets within the capacity of `out`.
pub fn put_octets(out: &mut Vec<u8>, octets: &[u8])
    requires { vec_len out.old + length octets.now ≤ vec_capacity out.old }
    ensures { Puts octets.now out.old out.new }
{
    for octet in octets {
        out.push_reserved(*octet);
    }
}

/// Appends an item with a tag and contents, at most 2147483647 octets in all, within the capacity
/// of `out`.
pub fn put_item(out: &mut Vec<u8>, tag: u8, contents: &[u8])
    requires short { length (item tag contents.now) ≤ 2147483647 }
    requires capacity { vec_len out.old + length (item tag contents.now) ≤ vec_capacity out.old }
    ensures { Puts (item tag contents.now) out.old out.new }
{
    put_header(out, tag, contents.len() as u32);
    put_octets(out, contents);
}
