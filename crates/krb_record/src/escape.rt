//! Octets as printable text.

ghost use Rattle.std.specs.Prelude.{◌≡◌, ◌++◌, ◌-◌, ◌<◌, ◌≤◌, drop, false, length, nat_eq, nat_lt, take, OnOk};
ghost use Rattle.std.specs.List.{list_all, list_any};
ghost use Rattle.std.specs.Str.{IsAscii};
ghost use Rattle.std.specs.Fmt.{digit_glyph};
ghost use Rattle.krb_record.specs.Text.{is_plain, hex, two_hex, escape_octet, escape};
ghost use Rattle.krb_record.specs.inner.Strings.{is_plain_in};

use crate::text_buffer::TextBuffer;
use std::alloc::AllocError;
use std::simd::Simd;

/// The hexadecimal digits, in lower case.
static DIGITS: [u8; 16] = *b"0123456789abcdef";

/// In the table below, an octet that is not escaped.
const Y: bool = true;

/// In the table below, an octet that is escaped.
const N: bool = false;

/// Which octets are not escaped: 21 to 7E but `/`, `@` and `\`.
#[rattlefmt::skip]
static PLAIN: [bool; 256] = [
    N, N, N, N, N, N, N, N, N, N, N, N, N, N, N, N,
    N, N, N, N, N, N, N, N, N, N, N, N, N, N, N, N,
    N, Y, Y, Y, Y, Y, Y, Y, Y, Y, Y, Y, Y, Y, Y, N,
    Y, Y, Y, Y, Y, Y, Y, Y, Y, Y, Y, Y, Y, Y, Y, Y,
    N, Y, Y, Y, Y, Y, Y, Y, Y, Y, Y, Y, Y, Y, Y, Y,
    Y, Y, Y, Y, Y, Y, Y, Y, Y, Y, Y, Y, N, Y, Y, Y,
    Y, Y, Y, Y, Y, Y, Y, Y, Y, Y, Y, Y, Y, Y, Y, Y,
    Y, Y, Y, Y, Y, Y, Y, Y, Y, Y, Y, Y, Y, Y, Y, N,
    N, N, N, N, N, N, N, N, N, N, N, N, N, N, N, N,
    N, N, N, N, N, N, N, N, N, N, N, N, N, N, N, N,
    N, N, N, N, N, N, N, N, N, N, N, N, N, N, N, N,
    N, N, N, N, N, N, N, N, N, N, N, N, N, N, N, N,
    N, N, N, N, N, N, N, N, N, N, N, N, N, N, N, N,
    N, N, N, N, N, N, N, N, N, N, N, N, N, N, N, N,
    N, N, N, N, N, N, N, N, N, N, N, N, N, N, N, N,
    N, N, N, N, N, N, N, N, N, N, N, N, N, N, N, N,
];

/// Returns whether an octet is not escaped.
#[inline(always)]
pub(crate) fn is_plain(octet: u8) -> bool
    ensures { result ≡ is_plain octet }
{
    PLAIN[usize::from(octet)]
}

/// Returns whether an octet needs no escape in a line, or in a string of JSON neither there nor by
/// JSON itself, in which `"` does.
#[inline(always)]
fn is_plain_in(octet: u8, in_json: bool) -> bool
    ensures { result ≡ is_plain_in in_json octet }
{
    is_plain(octet) & !(in_json & (octet == b'"'))
}

/// Returns whether an octet is one of N others.
#[inline(always)]
fn any_is<const N: usize>(octets: Simd<u8, N>, octet: u8) -> bool
    requires few { N ≤ 64 }
    requires count { length octets ≡ N }
    ensures { result ≡ list_any (λ one. nat_eq one octet) octets.entry }
{
    octets.simd_eq(Simd::splat(octet)).any()
}

/// Returns whether one of N octets is less than another.
#[inline(always)]
fn any_is_less<const N: usize>(octets: Simd<u8, N>, octet: u8) -> bool
    requires few { N ≤ 64 }
    requires count { length octets ≡ N }
    ensures { result ≡ list_any (λ one. nat_lt one octet) octets.entry }
{
    octets.simd_lt(Simd::splat(octet)).any()
}

/// Returns whether one of N octets is greater than another.
#[inline(always)]
fn any_is_greater<const N: usize>(octets: Simd<u8, N>, octet: u8) -> bool
    requires few { N ≤ 64 }
    requires count { length octets ≡ N }
    ensures { result ≡ list_any (λ one. nat_lt octet one) octets.entry }
{
    octets.simd_gt(Simd::splat(octet)).any()
}

/// Returns whether none of N octets needs an escape. All are looked at at once.
#[inline(always)]
fn are_all_plain<const N: usize>(octets: Simd<u8, N>, in_json: bool) -> bool
    requires few { N ≤ 64 }
    requires count { length octets ≡ N }
    ensures { result ≡ list_all (is_plain_in in_json) octets.entry }
{
    let escaped = any_is_less(octets, 0x21)
        | any_is_greater(octets, 0x7E)
        | any_is(octets, b'/')
        | any_is(octets, b'@')
        | any_is(octets, b'\\')
        | (in_json & any_is(octets, b'"'));
    !escaped
}

/// Returns the first four octets and the last four.
#[inline(always)]
fn first_and_last_four(octets: &[u8]) -> Simd<u8, 8>
    requires { 4 ≤ length octets.now }
    ensures { result ≡ take 4 octets.now ++ drop (length octets.now - 4) octets.now }
{
    let others = octets.len() - 4;
    let last = Simd::<u8, 4>::from_slice(&octets[others..]);
    Simd::<u8, 4>::from_slice(octets).shuffle::<8>(last, [0, 1, 2, 3, 4, 5, 6, 7])
}

/// Returns the first eight octets and the last eight.
#[inline(always)]
fn first_and_last_eight(octets: &[u8]) -> Simd<u8, 16>
    requires { 8 ≤ length octets.now }
    ensures { result ≡ take 8 octets.now ++ drop (length octets.now - 8) octets.now }
{
    let others = octets.len() - 8;
    let last = Simd::<u8, 8>::from_slice(&octets[others..]);
    Simd::<u8, 8>::from_slice(octets).shuffle::<16>(
        last,
        [0, 1, 2, 3, 4, 5, 6, 7, 8, 9, 10, 11, 12, 13, 14, 15],
    )
}

/// Returns whether none of 16 to 32 octets needs an escape.
#[inline(always)]
fn are_ends_plain(octets: &[u8], in_json: bool) -> bool
    requires many { 16 ≤ length octets.now }
    requires few { length octets.now ≤ 32 }
    ensures { result ≡ list_all (is_plain_in in_json) octets.now }
{
    let others = octets.len() - 16;
    are_all_plain(Simd::<u8, 16>::from_slice(octets), in_json)
        & are_all_plain(Simd::<u8, 16>::from_slice(&octets[others..]), in_json)
}

/// Returns whether no octet needs an escape. Each is looked at, which costs less than to stop at
/// the first that needs one: nearly none does.
fn are_each_plain(octets: &[u8], in_json: bool) -> bool
    ensures { result ≡ list_all (is_plain_in in_json) octets.now }
{
    let mut plain = true;
    for octet in octets {
        plain = plain & is_plain_in(*octet, in_json);
    }
    plain
}

/// Returns whether no octet needs an escape, in a line or in a string of JSON. Most names have 4 to
/// 32, which are looked at many at a time.
#[inline(always)]
pub(crate) fn are_plain(octets: &[u8], in_json: bool) -> bool
    ensures { result ≡ list_all (is_plain_in in_json) octets.now }
{
    match octets.len() {
        4..8 => are_all_plain(first_and_last_four(octets), in_json),
        8..16 => are_all_plain(first_and_last_eight(octets), in_json),
        16..=32 => are_ends_plain(octets, in_json),
        _ => are_each_plain(octets, in_json),
    }
}

/// Returns a hexadecimal digit, in lower case.
#[inline(always)]
fn digit(value: u8) -> u8
    requires { value < 16 }
    ensures { result ≡ digit_glyph false value }
{
    DIGITS[usize::from(value)]
}

/// Returns the two hexadecimal digits of an octet.
#[inline(always)]
fn two_digits(octet: u8) -> [u8; 2]
    ensures digits { result ≡ two_hex octet }
    ensures ascii { IsAscii result }
{
    [digit(octet / 16), digit(octet % 16)]
}

/// Returns the digits of four octets.
#[inline(always)]
pub(crate) fn eight_digits(octets: &[u8; 4]) -> [u8; 8]
    ensures digits { result ≡ hex octets.now }
    ensures ascii { IsAscii result }
{
    let [first, second, third, fourth] = *octets;
    let [a, b] = two_digits(first);
    let [c, d] = two_digits(second);
    let [e, f] = two_digits(third);
    let [g, h] = two_digits(fourth);
    [a, b, c, d, e, f, g, h]
}

/// Appends octets in hexadecimal, one after another.
fn put_hex_octets(line: &mut TextBuffer, octets: &[u8]) -> Result<(), AllocError>
    ensures { OnOk result (line.new ≡ line.old ++ hex octets.now) }
{
    for octet in octets {
        line.push_ascii(&two_digits(*octet))?;
    }
    Ok(())
}

/// Appends octets in hexadecimal, with digits in lower case. Flags and addresses of IPv4 are four,
/// whose digits are appended at once.
pub(crate) fn put_hex(line: &mut TextBuffer, octets: &[u8]) -> Result<(), AllocError>
    ensures { OnOk result (line.new ≡ line.old ++ hex octets.now) }
{
    let mut others = octets;
    'others: while let Some((four, rest)) = others.split_first_chunk::<4>() {
        line.push_ascii(&eight_digits(four))?;
        others = rest;
    }
    put_hex_octets(line, others)
}

fn put_octet(line: &mut TextBuffer, octet: u8) -> Result<(), AllocError>
    ensures { OnOk result (line.new ≡ line.old ++ escape_octet octet) }
{
    if is_plain(octet) {
        line.push_octet(octet)
    } else {
        let [high, low] = two_digits(octet);
        line.push_ascii(&[b'\\', b'x', high, low])
    }
}

/// Appends octets, each escaped if it needs to be.
#[inline(never)]
fn put_each(line: &mut TextBuffer, octets: &[u8]) -> Result<(), AllocError>
    ensures { OnOk result (line.new ≡ line.old ++ escape octets.now) }
{
    for octet in octets {
        put_octet(line, *octet)?;
    }
    Ok(())
}

/// Appends octets: 21 to 7E but `/`, `@` and `\` as they are, each other as `\x` and two
/// hexadecimal digits in lower case. Different octets have different texts.
#[inline(always)]
#[tactic(auto, using(crate::proofs::Escapes::escape_plain, crate::proofs::Escapes::ascii_plain))]
pub fn put_escaped(line: &mut TextBuffer, octets: &[u8]) -> Result<(), AllocError>
    ensures { OnOk result (line.new ≡ line.old ++ escape octets.now) }
{
    if are_plain(octets, false) {
        line.push_ascii(octets)
    } else {
        put_each(line, octets)
    }
}
