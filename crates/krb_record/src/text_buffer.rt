//! Text that grows.

ghost use Rattle.std.specs.Prelude.{◌≡◌, ◌+◌, ◌/◌, ◌%◌, ◌++◌, ◌^◌, ◌<◌, ◌≤◌, ◌∷◌, [], IfSome, OnErr, OnOk, decimal, drop, length, string_bytes, take};
ghost use Rattle.std.specs.Fmt.{signed_decimal};
ghost use Rattle.std.specs.Str.{IsAscii, IsUtf8};

use itoa::{Buffer, Integer};
use std::alloc::{AllocError, Global};
use std::fmt;
use std::fmt::{Display, Write};
use std::marker::Model;
use std::simd::Simd;

/// Text that grows, as a `String` does. What is appended is copied in place, without a call, unless
/// memory has to be allocated for it. Contracts see the octets of the text.
#[derive(Drop)]
pub struct TextBuffer {
    /// The text, and after it octets that are not used yet.
    octets: Vec<u8>,
    /// How many octets the text has.
    size: usize,
}

impl Model for TextBuffer {
    ghost use Rattle.std.specs.Prelude.{List, ℕ, ◌≤◌, length, take};
    ghost use Rattle.std.specs.Str.{IsUtf8};

    ghost Value = { List ℕ };

    ghost view = { λ text. take text.size text.octets.items };

    ghost invariant = { λ text. (text.size ≤ length text.octets.items) × IsUtf8 (take text.size text.octets.items) };
}

/// The least number of octets that are allocated.
const LEAST: usize = 256;

/// The two digits of each number below 100.
static PAIRS: [u8; 200] =
    *b"00010203040506070809101112131415161718192021222324252627282930313233343536373839404142434445464748495051525354555657585960616263646566676869707172737475767778798081828384858687888990919293949596979899";

/// Makes a vector longer, so that n octets fit after those that are used, which stay. Its length is
/// at least doubled, so that the time of appending follows the octets that are appended.
#[cold]
#[inline(never)]
fn grow(octets: &mut Vec<u8>, used: usize, more: usize) -> Result<(), AllocError>
    requires { used ≤ length octets.old.items }
    ensures same { OnOk result (take used octets.new.items ≡ take used octets.old.items) }
    ensures fits { OnOk result (used + more ≤ length octets.new.items) }
    ensures memory { OnErr result (octets.new.items ≡ octets.old.items) }
{
    let Some(needed) = used.checked_add(more) else {
        return Err(AllocError);
    };
    let doubled = octets.len().saturating_mul(2);
    octets.resize(needed.max(doubled).max(LEAST), 0)
}

/// Makes a vector longer if n octets do not fit after those that are used, which stay.
#[inline(always)]
fn make_fit(octets: &mut Vec<u8>, used: usize, more: usize) -> Result<(), AllocError>
    requires { used ≤ length octets.old.items }
    ensures same { OnOk result (take used octets.new.items ≡ take used octets.old.items) }
    ensures fits { OnOk result (used + more ≤ length octets.new.items) }
    ensures memory { OnErr result (octets.new.items ≡ octets.old.items) }
{
    if octets.len() - used < more {
        grow(octets, used, more)
    } else {
        Ok(())
    }
}

/// Copies octets over others, from a place on.
#[inline(always)]
fn overwrite(to: &mut [u8], place: usize, octets: &[u8])
    requires { place + length octets.now ≤ length to.old }
    ensures front { take (place + length octets.now) to.new ≡ take place to.old ++ octets.now }
    ensures all { to.new ≡ take place to.old ++ octets.now ++ drop (place + length octets.now) to.old }
{
    to[place..place + octets.len()].copy_from_slice(octets);
}

/// Copies the first N octets over others, from a place on, by one load and one store.
#[inline(always)]
fn overwrite_first<const N: usize>(to: &mut [u8], place: usize, octets: &[u8])
    requires fits { place + N ≤ length to.old }
    requires many { N ≤ length octets.now }
    ensures { take (place + N) to.new ≡ take place to.old ++ take N octets.now }
{
    Simd::<u8, N>::from_slice(octets).copy_to_slice(&mut to[place..]);
}

/// Copies the first N octets and the last N, which are all of them.
#[inline(always)]
fn overwrite_ends<const N: usize>(to: &mut [u8], place: usize, octets: &[u8])
    requires fits { place + length octets.now ≤ length to.old }
    requires many { N ≤ length octets.now }
    requires few { length octets.now ≤ N + N }
    ensures { take (place + length octets.now) to.new ≡ take place to.old ++ octets.now }
{
    let others = octets.len() - N;
    overwrite_first::<N>(to, place, octets);
    overwrite_first::<N>(to, place + others, &octets[others..]);
}

/// Copies octets over others, from a place on. 1 to 32 are copied without a call of `memcpy`.
#[inline(always)]
fn copy_at(to: &mut [u8], place: usize, octets: &[u8])
    requires { place + length octets.now ≤ length to.old }
    ensures { take (place + length octets.now) to.new ≡ take place to.old ++ octets.now }
{
    match octets.len() {
        1 => to[place] = octets[0],
        2..4 => overwrite_ends::<2>(to, place, octets),
        4..8 => overwrite_ends::<4>(to, place, octets),
        8..16 => overwrite_ends::<8>(to, place, octets),
        16..=32 => overwrite_ends::<16>(to, place, octets),
        _ => overwrite(to, place, octets),
    }
}

/// Puts octets before those that are used from a place on, which are moved.
fn put_between(to: &mut [u8], used: usize, place: usize, octets: &[u8])
    requires place { place ≤ used }
    requires fits { used + length octets.now ≤ length to.old }
    ensures { take (used + length octets.now) to.new ≡ take place (take used to.old) ++ octets.now ++ drop place (take used to.old) }
{
    to.copy_within(place..used, place + octets.len());
    overwrite(to, place, octets);
}

/// Puts octets before those that are used from a place on. Out of memory, nothing changes.
fn put_before(octets: &mut Vec<u8>, used: usize, place: usize, new: &[u8]) -> Result<(), AllocError>
    requires used { used ≤ length octets.old.items }
    requires place { place ≤ used }
    ensures fits { OnOk result (used + length new.now ≤ length octets.new.items) }
    ensures text { OnOk result (take (used + length new.now) octets.new.items ≡ take place (take used octets.old.items) ++ new.now ++ drop place (take used octets.old.items)) }
    ensures memory { OnErr result (octets.new.items ≡ octets.old.items) }
{
    make_fit(octets, used, new.len())?;
    put_between(octets, used, place, new);
    Ok(())
}

/// Copies octets after those that are used, which stay. Out of memory, nothing changes.
#[inline(always)]
fn put_after(octets: &mut Vec<u8>, used: usize, new: &[u8]) -> Result<(), AllocError>
    requires { used ≤ length octets.old.items }
    ensures fits { OnOk result (used + length new.now ≤ length octets.new.items) }
    ensures text { OnOk result (take (used + length new.now) octets.new.items ≡ take used octets.old.items ++ new.now) }
    ensures memory { OnErr result (octets.new.items ≡ octets.old.items) }
{
    make_fit(octets, used, new.len())?;
    copy_at(octets, used, new);
    Ok(())
}

/// Copies three pieces after the octets that are used, which stay, once there is room for all of
/// them. Out of memory, nothing changes.
#[inline(always)]
fn put_three_after(
    octets: &mut Vec<u8>,
    used: usize,
    first: &[u8],
    second: &[u8],
    third: &[u8],
) -> Result<(), AllocError>
    requires { used ≤ length octets.old.items }
    ensures fits { OnOk result (used + (length first.now + length second.now + length third.now) ≤ length octets.new.items) }
    ensures text { OnOk result (take (used + (length first.now + length second.now + length third.now)) octets.new.items ≡ take used octets.old.items ++ first.now ++ second.now ++ third.now) }
    ensures memory { OnErr result (octets.new.items ≡ octets.old.items) }
{
    let more = (first.len() + third.len()).saturating_add(second.len());
    make_fit(octets, used, more)?;
    copy_at(octets, used, first);
    copy_at(octets, used + first.len(), second);
    copy_at(octets, used + first.len() + second.len(), third);
    Ok(())
}

/// Copies one octet after those that are used, which stay. Out of memory, nothing changes.
#[inline(always)]
fn put_sign_after(octets: &mut Vec<u8>, used: usize, new: &[u8]) -> Result<(), AllocError>
    requires used { used ≤ length octets.old.items }
    requires one { length new.now ≡ 1 }
    ensures fits { OnOk result (used + 1 ≤ length octets.new.items) }
    ensures text { OnOk result (take (used + 1) octets.new.items ≡ take used octets.old.items ++ new.now) }
    ensures memory { OnErr result (octets.new.items ≡ octets.old.items) }
{
    make_fit(octets, used, 1)?;
    octets[used] = new[0];
    Ok(())
}

impl TextBuffer {
    /// Returns a text of no octets, for which nothing is allocated yet.
    pub fn new(alloc: Global) -> TextBuffer
        ensures { result ≡ [] }
    {
        TextBuffer {
            octets: Vec::new(alloc),
            size: 0,
        }
    }

    /// Returns the octets of the text.
    pub fn octets(&self) -> &[u8]
        ensures { result.now ≡ self.now }
    {
        &self.octets[..self.size]
    }

    /// Returns what allocates for the text.
    pub fn allocator(&self) -> Global {
        *self.octets.allocator()
    }

    /// Forgets the text, and keeps the memory.
    pub fn clear(&mut self)
        ensures { self.new ≡ [] }
    {
        self.size = 0;
    }

    /// Forgets what follows the first octets of the text.
    pub fn truncate(&mut self, size: usize)
        requires within { size ≤ length self.old }
        requires before { IsUtf8 (take size self.old) }
        ensures { self.new ≡ take size self.old }
    {
        self.size = size;
    }

    /// Returns the text as a `String`, and copies nothing.
    pub fn into_string(self) -> String
        ensures { string_bytes result ≡ self }
    {
        let mut octets = self.octets;
        octets.truncate(self.size);
        // The text is UTF-8.
        unsafe { String::from_utf8_unchecked(octets) }
    }

    /// Appends octets of UTF-8.
    #[inline(always)]
    fn append(&mut self, octets: &[u8]) -> Result<(), AllocError>
        requires { IsUtf8 octets.now }
        ensures { OnOk result (self.new ≡ self.old ++ octets.now) }
    {
        let used = self.size;
        put_after(&mut self.octets, used, octets)?;
        self.size = used + octets.len();
        Ok(())
    }

    /// Appends one octet, as [`append`](TextBuffer::append) does, with a fraction of its code.
    #[inline(always)]
    fn append_sign(&mut self, octets: &[u8]) -> Result<(), AllocError>
        requires text { IsUtf8 octets.now }
        requires one { length octets.now ≡ 1 }
        ensures { OnOk result (self.new ≡ self.old ++ octets.now) }
    {
        let used = self.size;
        put_sign_after(&mut self.octets, used, octets)?;
        self.size = used + 1;
        Ok(())
    }

    /// Appends text.
    #[inline(always)]
    pub fn push_str(&mut self, text: &str) -> Result<(), AllocError>
        ensures { OnOk result (self.new ≡ self.old ++ text.now) }
    {
        self.append(text.as_bytes())
    }

    /// Appends text of one octet. Functions in which such texts stand are inlined, since this has so
    /// little code.
    #[inline(always)]
    pub fn push_sign(&mut self, sign: &str) -> Result<(), AllocError>
        requires { length sign.now ≡ 1 }
        ensures { OnOk result (self.new ≡ self.old ++ sign.now) }
    {
        self.append_sign(sign.as_bytes())
    }

    /// Appends octets of ASCII.
    #[inline(always)]
    pub fn push_ascii(&mut self, octets: &[u8]) -> Result<(), AllocError>
        requires { IsAscii octets.now }
        ensures { OnOk result (self.new ≡ self.old ++ octets.now) }
    {
        self.append(octets)
    }

    /// Appends octets of UTF-8 between two texts, for which memory is made at once.
    #[inline(always)]
    fn append_between(&mut self, before: &str, octets: &[u8], after: &str) -> Result<(), AllocError>
        requires { IsUtf8 octets.now }
        ensures { OnOk result (self.new ≡ self.old ++ before.now ++ octets.now ++ after.now) }
    {
        let (before, after) = (before.as_bytes(), after.as_bytes());
        put_three_after(&mut self.octets, self.size, before, octets, after)?;
        self.size += before.len() + octets.len() + after.len();
        Ok(())
    }

    /// Appends octets of ASCII between two texts, for which memory is made at once.
    #[inline(always)]
    pub fn push_between(
        &mut self,
        before: &str,
        octets: &[u8],
        after: &str,
    ) -> Result<(), AllocError>
        requires { IsAscii octets.now }
        ensures { OnOk result (self.new ≡ self.old ++ before.now ++ octets.now ++ after.now) }
    {
        self.append_between(before, octets, after)
    }

    /// Appends three texts, for which memory is made at once.
    #[inline(always)]
    pub fn push_three(&mut self, first: &str, second: &str, third: &str) -> Result<(), AllocError>
        ensures { OnOk result (self.new ≡ self.old ++ first.now ++ second.now ++ third.now) }
    {
        self.append_between(first, second.as_bytes(), third)
    }

    /// Appends a text and then another, for which memory is made at once.
    #[inline(always)]
    pub fn push_pair(&mut self, first: &str, second: &str) -> Result<(), AllocError>
        ensures { OnOk result (self.new ≡ self.old ++ first.now ++ second.now) }
    {
        self.push_three(first, second, "")
    }

    /// Appends a character of ASCII.
    #[inline(always)]
    pub fn push_octet(&mut self, octet: u8) -> Result<(), AllocError>
        requires { octet < 128 }
        ensures { OnOk result (self.new ≡ self.old ++ octet ∷ []) }
    {
        self.append_sign(&[octet])
    }

    /// Appends a number in decimal. Most have one digit or two, or three.
    #[inline(always)]
    pub fn push_number(&mut self, number: u64) -> Result<(), AllocError>
        ensures { OnOk result (self.new ≡ self.old ++ decimal number) }
    {
        if number < 10 {
            self.push_octet(b'0' + number as u8)
        } else if number < 100 {
            self.push_two_digits(number as u8)
        } else {
            self.push_more_digits(number)
        }
    }

    /// Appends the two digits of a number below 100.
    #[inline(always)]
    fn push_digit_pair(&mut self, number: u8) -> Result<(), AllocError>
        requires { number < 100 }
        ensures { OnOk result (self.new ≡ self.old ++ (48 + number / 10) ∷ (48 + number % 10) ∷ []) }
    {
        let place = usize::from(number) * 2;
        self.push_ascii(&[PAIRS[place], PAIRS[place + 1]])
    }

    /// Appends a number of two digits.
    #[inline(always)]
    fn push_two_digits(&mut self, number: u8) -> Result<(), AllocError>
        requires { (10 ≤ number) × (number < 100) }
        ensures { OnOk result (self.new ≡ self.old ++ decimal number) }
    {
        self.push_digit_pair(number)
    }

    /// Appends a number of three digits or more.
    #[inline(never)]
    fn push_more_digits(&mut self, number: u64) -> Result<(), AllocError>
        requires { 100 ≤ number }
        ensures { OnOk result (self.new ≡ self.old ++ decimal number) }
    {
        if number < 1000 {
            self.push_three_digits(number as u16)
        } else {
            self.push_integer(number)
        }
    }

    /// Appends a number of three digits.
    #[inline(always)]
    fn push_three_digits(&mut self, number: u16) -> Result<(), AllocError>
        requires { (100 ≤ number) × (number < 1000) }
        ensures { OnOk result (self.new ≡ self.old ++ decimal number) }
    {
        self.push_octet(b'0' + (number / 100) as u8)?;
        self.push_digit_pair((number % 100) as u8)
    }

    /// Returns how many octets the text has.
    pub fn size(&self) -> usize
        ensures many { result ≡ length self.now }
        ensures text { IsUtf8 self.now }
    {
        self.size
    }

    /// Inserts text at a place that has text before it.
    pub(crate) fn insert(&mut self, place: usize, text: &str) -> Result<(), AllocError>
        requires place { place ≤ length self.old }
        requires before { IsUtf8 (take place self.old) }
        ensures { OnOk result ((self.new ≡ take place self.old ++ text.now ++ drop place self.old) × (length self.new < 2 ^ 64)) }
    {
        put_before(&mut self.octets, self.size, place, text.as_bytes())?;
        self.size += text.len();
        Ok(())
    }

    /// Inserts a number in decimal at a place that has text before it.
    pub fn insert_number(&mut self, place: usize, number: u64) -> Result<(), AllocError>
        requires place { place ≤ length self.old }
        requires before { IsUtf8 (take place self.old) }
        ensures { OnOk result ((self.new ≡ take place self.old ++ decimal number ++ drop place self.old) × (length self.new < 2 ^ 64)) }
    {
        let mut buffer = Buffer::new();
        self.insert(place, buffer.format(number))
    }

    /// Appends a number that may be negative in decimal.
    #[inline(always)]
    pub fn push_signed(&mut self, number: i64) -> Result<(), AllocError>
        ensures { OnOk result (self.new ≡ self.old ++ signed_decimal number) }
    {
        if 0 <= number {
            self.push_number(number as u64)
        } else {
            self.push_integer(number)
        }
    }

    /// Appends a number of any type in decimal.
    #[inline(never)]
    pub fn push_integer<I: Integer>(&mut self, number: I) -> Result<(), AllocError>
        ensures { OnOk result (self.new ≡ self.old ++ I.text number) }
    {
        let mut buffer = Buffer::new();
        self.push_str(buffer.format(number))
    }
}

impl Write for TextBuffer {
    ghost write_str_gives = { λ old text new. new ≡ old ++ text };

    fn write_str(&mut self, text: &str) -> fmt::Result {
        match self.push_str(text) {
            Ok(()) => Ok(()),
            Err(_) => Err(fmt::Error),
        }
    }
}

impl TextBuffer {
    /// Appends what a value shows. This is what `write!` calls.
    pub fn write_fmt<D: Display + Drop>(&mut self, value: D) -> Result<(), AllocError>
        ensures { OnOk result (IfSome (D.output value) (λ shown. self.new ≡ self.old ++ shown)) }
    {
        match self.write(value) {
            Ok(()) => Ok(()),
            Err(_) => Err(AllocError),
        }
    }
}
