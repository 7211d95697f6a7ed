//! Base64 (RFC 4648, section 4), with blanks anywhere.

ghost use Rattle.std.specs.Prelude.{◌≡◌, ◌*◌, ◌<◌, ◌≤◌, [], drop, length, take, Ok, IfErr, IfOk, IfSome};
ghost use Rattle.std.specs.Option.{option_to_list};
ghost use Rattle.krb_input.specs.Base64.{base64, bits_fault, character_value, due, first_octet, kept, made, octet_of_characters, or_else, padding_fault};
ghost use Rattle.krb_input.specs.Readings.{prepend, unless};
ghost use Rattle.krb_input.specs.inner.Fours.{octets_of_four, value_or_none};
ghost use Rattle.krb_input.specs.inner.Results.{AreBits, IsFault};

use crate::characters::{is_blank, skip_blanks};
use crate::text_fault::TextFault;
use std::alloc::{AllocError, Global};

/// The bits of characters that are not yet in an octet.
#[derive(Clone, Copy)]
pub(crate) enum Bits {
    /// None: the characters so far are whole octets.
    Whole,
    /// The six of one character.
    Six(u8),
    /// The last four of two characters.
    Four(u8),
    /// The last two of three characters.
    Two(u8),
}

/// Returns the six bits that a character stands for.
fn character_value(octet: u8) -> Option<u8>
    ensures value { result ≡ character_value octet }
    ensures small { IfSome result (λ value. value < 64) }
{
    match octet {
        b'A'..=b'Z' => Some(octet - b'A'),
        b'a'..=b'z' => Some(octet - b'a' + 26),
        b'0'..=b'9' => Some(octet - b'0' + 52),
        b'+' => Some(62),
        b'/' => Some(63),
        _ => None,
    }
}

impl Bits {
    /// Returns the octet that the bits and six more make, if they are eight.
    fn made(self, value: u8) -> Option<u8>
        requires bits { AreBits self }
        requires value { value < 64 }
        ensures { made self value ≡ option_to_list result }
    {
        match self {
            Bits::Whole => None,
            Bits::Six(bits) => Some(bits * 4 + value / 16),
            Bits::Four(bits) => Some(bits * 16 + value / 4),
            Bits::Two(bits) => Some(bits * 64 + value),
        }
    }

    /// Returns the bits that are left after that.
    fn kept(self, value: u8) -> Bits
        requires { value < 64 }
        ensures bits { result ≡ kept self value }
        ensures few { AreBits result }
    {
        match self {
            Bits::Whole => Bits::Six(value),
            Bits::Six(_) => Bits::Four(value % 16),
            Bits::Four(_) => Bits::Two(value % 4),
            Bits::Two(_) => Bits::Whole,
        }
    }

    /// Returns how many `=` are due after the characters.
    fn due(self) -> u8
        ensures { result ≡ due self }
    {
        match self {
            Bits::Whole | Bits::Six(_) => 0,
            Bits::Four(_) => 2,
            Bits::Two(_) => 1,
        }
    }

    /// Returns the fault at the end of a text, which has `last` octets from the last character on.
    fn fault(self, last: usize) -> Option<usize>
        ensures { result ≡ bits_fault self last }
    {
        match self {
            Bits::Whole => None,
            Bits::Six(_) => Some(0),
            Bits::Four(bits) | Bits::Two(bits) => { if bits == 0 { None } else { Some(last) } }
        }
    }
}

/// In the table below, an octet that is no character.
const N: u8 = 255;

/// The six bits that each character stands for.
#[rattlefmt::skip]
static VALUES: [u8; 256] = [
    N, N, N, N, N, N, N, N, N, N, N, N, N, N, N, N,
    N, N, N, N, N, N, N, N, N, N, N, N, N, N, N, N,
    N, N, N, N, N, N, N, N, N, N, N, 62, N, N, N, 63,
    52, 53, 54, 55, 56, 57, 58, 59, 60, 61, N, N, N, N, N, N,
    N, 0, 1, 2, 3, 4, 5, 6, 7, 8, 9, 10, 11, 12, 13, 14,
    15, 16, 17, 18, 19, 20, 21, 22, 23, 24, 25, N, N, N, N, N,
    N, 26, 27, 28, 29, 30, 31, 32, 33, 34, 35, 36, 37, 38, 39, 40,
    41, 42, 43, 44, 45, 46, 47, 48, 49, 50, 51, N, N, N, N, N,
    N, N, N, N, N, N, N, N, N, N, N, N, N, N, N, N,
    N, N, N, N, N, N, N, N, N, N, N, N, N, N, N, N,
    N, N, N, N, N, N, N, N, N, N, N, N, N, N, N, N,
    N, N, N, N, N, N, N, N, N, N, N, N, N, N, N, N,
    N, N, N, N, N, N, N, N, N, N, N, N, N, N, N, N,
    N, N, N, N, N, N, N, N, N, N, N, N, N, N, N, N,
    N, N, N, N, N, N, N, N, N, N, N, N, N, N, N, N,
    N, N, N, N, N, N, N, N, N, N, N, N, N, N, N, N,
];

/// Returns the six bits that a character stands for, or 255 of any other octet.
#[inline(always)]
fn value_or_none(octet: u8) -> u8
    ensures value { result ≡ value_or_none (character_value octet) }
    ensures small { IfSome (character_value octet) (λ value. value < 64) }
{
    VALUES[usize::from(octet)]
}

/// Returns the octets of four characters, if they are characters. Only the value of an octet that is
/// none makes the sum of four as great as 255.
#[inline(always)]
fn octets_of_four(first: u8, second: u8, third: u8, fourth: u8) -> Option<[u8; 3]>
    ensures { result ≡ octets_of_four (character_value first) (character_value second) (character_value third) (character_value fourth) }
{
    let a = value_or_none(first);
    let b = value_or_none(second);
    let c = value_or_none(third);
    let d = value_or_none(fourth);
    if u16::from(a) + u16::from(b) + u16::from(c) + u16::from(d) < 255 {
        Some([a * 4 + b / 16, b % 16 * 16 + c / 4, c % 4 * 64 + d])
    } else {
        None
    }
}

/// Fills room with the octets of so many times four characters, up to the first four of which one is
/// no character, and returns how many times four came before that.
fn fill_octets(room: &mut [u8], count: usize, text: &[u8]) -> usize
    requires text { 4 * count ≤ length text.now }
    requires room { length room.old ≡ 3 * count }
    ensures few { result ≤ count }
    ensures filled { base64 text.now ≡ prepend (take (3 * result) room.new) (base64 (drop (4 * result) text.now)) }
{
    for index in 0..count {
        let Some(three) = octets_of_four(
            text[4 * index],
            text[4 * index + 1],
            text[4 * index + 2],
            text[4 * index + 3],
        ) else {
            return index;
        };
        let [first, second, third] = three;
        room[3 * index] = first;
        room[3 * index + 1] = second;
        room[3 * index + 2] = third;
    }
    count
}

/// Returns the octets of the characters that a text begins with, as far as each four of them follow
/// one another, and what follows them.
fn read_fours(alloc: Global, text: &[u8]) -> Result<(Vec<u8>, &[u8]), AllocError>
    ensures { IfOk result (λ made. base64 text.now ≡ prepend made.0.items (base64 made.1.now)) }
{
    let count = text.len() / 4;
    let mut octets = Vec::with_capacity(alloc, 3 * count + 3)?;
    octets.resize(3 * count, 0)?;
    let read = fill_octets(octets.as_mut_slice(), count, text);
    octets.truncate(3 * read);
    Ok((octets, &text[4 * read..]))
}

/// Returns the octets of a text in base64.
#[tactic(auto, using(crate::proofs::Prepends::prepends))]
pub(crate) fn read_base64(alloc: Global, text: &[u8]) -> Result<Vec<u8>, TextFault>
    ensures octets { IfOk result (λ octets. base64 text.now ≡ Ok octets.items) }
    ensures fault { IfErr result (IsFault (base64 text.now)) }
{
    let (mut octets, mut rest) = read_fours(alloc, text)?;
    let mut bits = Bits::Whole;
    let mut last = 0;
    while let [first, others @ ..] = rest {
        if !is_blank(*first) {
            let Some(value) = character_value(*first) else {
                return ended(octets, end_fault(bits, last, rest));
            };
            if let Some(octet) = bits.made(value) {
                octets.push(octet)?;
            }
            bits = bits.kept(value);
            last = rest.len();
        }
        rest = others;
    }
    ended(octets, bits.fault(last))
}

/// Returns octets, unless there is a fault.
fn ended(octets: Vec<u8>, fault: Option<usize>) -> Result<Vec<u8>, TextFault>
    ensures octets { IfOk result (λ made. (unless fault ≡ Ok []) × (made.items ≡ octets.items)) }
    ensures fault { IfErr result (IsFault (unless fault)) }
{
    match fault {
        None => Ok(octets),
        Some(left) => Err(TextFault::Left(left)),
    }
}

/// Returns the fault of a text that follows characters and begins with no character.
fn end_fault(bits: Bits, last: usize, text: &[u8]) -> Option<usize>
    ensures { result ≡ or_else (padding_fault (due bits) text.now) (bits_fault bits last) }
{
    match padding_fault(bits.due(), text) {
        Some(left) => Some(left),
        None => bits.fault(last),
    }
}

/// Returns how many octets are left from the first on that is no `=` that is due and no blank, or
/// none, if a `=` is missing.
fn padding_fault(due: u8, text: &[u8]) -> Option<usize>
    ensures { result ≡ padding_fault due text.now }
{
    let mut due = due;
    let mut rest = text;
    while let [first, others @ ..] = rest {
        if !is_blank(*first) {
            if *first != b'=' || due == 0 {
                return Some(rest.len());
            }
            due -= 1;
        }
        rest = others;
    }
    if due == 0 { None } else { Some(0) }
}

/// Returns the octet that two characters begin with.
fn octet_of_characters(first: u8, second: u8) -> Option<u8>
    ensures { result ≡ octet_of_characters first second }
{
    let high = character_value(first)?;
    let low = character_value(second)?;
    Some(high * 4 + low / 16)
}

/// Returns the octet of the first two characters of a text that are no blanks, if they are base64.
pub(crate) fn first_octet(text: &[u8]) -> Option<u8>
    ensures { result ≡ first_octet text.now }
{
    let [first, others @ ..] = skip_blanks(text) else {
        return None;
    };
    let [second, ..] = skip_blanks(others) else {
        return None;
    };
    octet_of_characters(*first, *second)
}
