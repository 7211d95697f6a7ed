//! Scalars, from JSON: their contents octets are appended.

ghost use Rattle.std.specs.Prelude.{◌≡◌, ◌∷◌, ◌++◌, ◌-◌, ◌*◌, ◌≤◌, ◌≤ℤ◌, pos, codes, length, IfOk, IfSome, OnOk};
ghost use Rattle.std.specs.List.{list_any};
ghost use Rattle.std.specs.Option.{option_map};
ghost use Rattle.json.specs.Tree.{HasNumbers};
ghost use Rattle.json.specs.Value.{value_view};
ghost use Rattle.krb_der.specs.Octets.{integer_octets};
ghost use Rattle.krb_json.specs.Spelled.{bits_from, bits_spelled, count_of, integer_spelled, octets_spelled, text_spelled, time_spelled};
ghost use Rattle.krb_json.specs.Spelling.{octet_of, unshown};
ghost use Rattle.krb_json.specs.inner.Reading.{Reads};
ghost use Rattle.krb_json.specs.inner.Scalars.{Gives, IsFirstShown, IsTimeOf, has_octet_above, is_mark, member_spelled};

use crate::hexadecimal::push_decoded;
use crate::members::{Allowed, check_members};
use crate::value_fault::{ValueFault, fault_here, fault_of_field, in_field};
use crate::wrong::Wrong;
use json::Value;
use krb_der::{KerberosTime, integer_size, last_or_zero};
use std::alloc::{AllocError, Global};

/// Appends the contents of the INTEGER from `low` to `high` that a value spells.
pub(crate) fn read_integer(
    alloc: Global,
    out: &mut Vec<u8>,
    low: i64,
    high: i64,
    value: &Value,
) -> Result<(), ValueFault>
    requires { HasNumbers (value_view value.now) }
    ensures { Reads (λ path. integer_spelled low high path (value_view value.now)) integer_octets out.old.items out.new.items result }
{
    let number = integer(alloc, low, high, value)?;
    push_integer(out, number)?;
    Ok(())
}

/// Returns the number from `low` to `high` that a value spells.
fn integer(alloc: Global, low: i64, high: i64, value: &Value) -> Result<i64, ValueFault>
    requires { HasNumbers (value_view value.now) }
    ensures { Gives (λ number. number) (λ path. integer_spelled low high path (value_view value.now)) result }
{
    let Some(text) = value.as_number() else {
        return Err(fault_here(alloc, Wrong::NotANumber));
    };
    if has_mark(text.as_bytes()) {
        return Err(fault_here(alloc, Wrong::NotAnInteger));
    }
    match value.as_i64() {
        Some(number) if low <= number && number <= high => Ok(number),
        _ => Err(fault_here(alloc, Wrong::Outside { low, high })),
    }
}

/// Returns whether an octet begins a fraction or an exponent.
fn is_mark(octet: u8) -> bool
    ensures { result ≡ is_mark octet }
{
    octet == b'.' || octet == b'e' || octet == b'E'
}

/// Returns whether the text of a number has a fraction or an exponent.
fn has_mark(text: &[u8]) -> bool
    ensures { result ≡ list_any is_mark text.now }
{
    text.iter().any(|octet| is_mark(*octet))
}

/// Appends the contents octets of an INTEGER, the fewest of two's complement (X.690, 8.3).
fn push_integer(out: &mut Vec<u8>, number: i64) -> Result<(), AllocError>
    ensures { OnOk result (out.new.items ≡ out.old.items ++ integer_octets number) }
{
    let octets = number.to_be_bytes();
    let passed = 10 - integer_size(number) as usize;
    out.extend_from_slice(&octets[passed..])
}

/// Appends the contents of the KerberosString that a value spells, of octets up to the `greatest`.
pub(crate) fn read_text(
    alloc: Global,
    out: &mut Vec<u8>,
    greatest: u8,
    value: &Value,
) -> Result<(), ValueFault>
    ensures { Reads (λ path. text_spelled greatest path (value_view value.now)) (λ octets. octets) out.old.items out.new.items result }
{
    let Some(text) = value.as_str() else {
        return Err(fault_here(alloc, Wrong::NotAString));
    };
    let Some(octets) = unshown(alloc, text.as_bytes())? else {
        return Err(fault_here(alloc, Wrong::Backslash));
    };
    if has_octet_above(greatest, octets.as_slice()) {
        return Err(fault_here(alloc, Wrong::HighOctet));
    }
    out.extend_from_slice(octets.as_slice())?;
    Ok(())
}

/// Returns whether an octet is above the greatest.
fn has_octet_above(greatest: u8, octets: &[u8]) -> bool
    ensures { result ≡ has_octet_above greatest octets.now }
{
    octets.iter().any(|octet| greatest < *octet)
}

/// Returns the octets that a text shows, or `None` if a `\` of it is not that of `\x` and two
/// hexadecimal digits.
fn unshown(alloc: Global, text: &[u8]) -> Result<Option<Vec<u8>>, AllocError>
    ensures { IfOk result (λ octets. option_map (λ v. v.items) octets ≡ unshown text.now) }
{
    let mut octets = Vec::with_capacity(alloc, text.len())?;
    let mut rest = text;
    while let [first, others @ ..] = rest {
        let Some((octet, others)) = first_unshown(*first, others) else {
            return Ok(None);
        };
        octets.push(octet)?;
        rest = others;
    }
    Ok(Some(octets))
}

/// Returns the first octet that a text shows, and the text after what shows it. The text is given
/// as its first octet and the others.
fn first_unshown(first: u8, others: &[u8]) -> Option<(u8, &[u8])>
    ensures shown { IsFirstShown (first ∷ others.now) result }
    ensures shorter { IfSome result (λ shown. length shown.1.now ≤ length others.now) }
{
    if first != b'\\' {
        return Some((first, others));
    }
    let [x, high, low, others @ ..] = others else {
        return None;
    };
    if *x != b'x' {
        return None;
    }
    let octet = hexadecimal_octet(*high, *low)?;
    Some((octet, others))
}

/// Returns the octet of two hexadecimal digits.
fn hexadecimal_octet(high: u8, low: u8) -> Option<u8>
    ensures { result ≡ octet_of high low }
{
    let mut octets = [0; 1];
    match hex::decode_to_slice(&[high, low], &mut octets) {
        Ok(()) => Some(octets[0]),
        Err(_) => None,
    }
}

/// Appends the contents of the OCTET STRING that a value spells.
pub(crate) fn read_octets(alloc: Global, out: &mut Vec<u8>, value: &Value) -> Result<(), ValueFault>
    ensures { Reads (λ path. octets_spelled path (value_view value.now)) (λ octets. octets) out.old.items out.new.items result }
{
    let Some(text) = value.as_str() else {
        return Err(fault_here(alloc, Wrong::NotAString));
    };
    if push_decoded(out, text.as_bytes())? {
        Ok(())
    } else {
        Err(fault_here(alloc, Wrong::NotHexadecimal))
    }
}

/// Appends the contents of the KerberosTime that a value spells.
pub(crate) fn read_time(alloc: Global, out: &mut Vec<u8>, value: &Value) -> Result<(), ValueFault>
    ensures { Reads (λ path. time_spelled path (value_view value.now)) (λ octets. octets) out.old.items out.new.items result }
{
    let Some(text) = value.as_str() else {
        return Err(fault_here(alloc, Wrong::NotAString));
    };
    let Some(time) = time_of(text.as_bytes()) else {
        return Err(fault_here(alloc, Wrong::NotATime));
    };
    out.extend_from_slice(time.octets())?;
    Ok(())
}

/// Returns the time that a text is, if it is one.
fn time_of(text: &[u8]) -> Option<KerberosTime>
    ensures { IsTimeOf text.now result }
{
    KerberosTime::new(<[u8; 15]>::try_from(text).ok()?)
}

/// Appends the contents of the BIT STRING of `least` bits or more that a value spells: the number
/// of bits of the last octet that are unused, and the octets (X.690, 8.6.2). If the octets have
/// more bits than an `i64` counts, which no memory holds, that is a lack of memory.
pub(crate) fn read_bits(
    alloc: Global,
    out: &mut Vec<u8>,
    least: u8,
    value: &Value,
) -> Result<(), ValueFault>
    requires { HasNumbers (value_view value.now) }
    ensures { Reads (λ path. bits_spelled least path (value_view value.now)) (λ bits. bits.0 ∷ bits.1) out.old.items out.new.items result }
{
    check_members(alloc, Allowed::Bits, value)?;
    let octets = octets_member(alloc, value)?;
    let Some((low, high)) = bits_of(octets.len()) else {
        return Err(ValueFault::Memory);
    };
    let count = count_member(alloc, low, high, value)?;
    let unused = unused_bits(alloc, least, octets.as_slice(), high, count)?;
    out.push(unused)?;
    out.extend_from_slice(octets.as_slice())?;
    Ok(())
}

/// Returns the least and the greatest number of bits that may be used of a number of octets, if an
/// `i64` counts them.
fn bits_of(octets: usize) -> Option<(i64, i64)>
    ensures { IfSome result (λ bits. bits ≡ (pos (8 * octets - 7), pos (8 * octets))) }
{
    let high = octets.checked_mul(8)?;
    let low = high.saturating_sub(7);
    Some((i64::try_from(low).ok()?, i64::try_from(high).ok()?))
}

/// Returns the octets of a BIT STRING, from its member `value`.
fn octets_member(alloc: Global, value: &Value) -> Result<Vec<u8>, ValueFault>
    ensures { Gives (λ octets. octets.items) (member_spelled octets_spelled (codes "value") (value_view value.now)) result }
{
    let Some(member) = value.get("value") else {
        return Err(fault_of_field(alloc, "value", Wrong::Missing));
    };
    let mut octets = Vec::new(alloc);
    in_field(alloc, "value", read_octets(alloc, &mut octets, member))?;
    Ok(octets)
}

/// Returns the number of the bits of a BIT STRING, from `low` to `high`, from its member `length`.
fn count_member(alloc: Global, low: i64, high: i64, value: &Value) -> Result<i64, ValueFault>
    requires { HasNumbers (value_view value.now) }
    ensures { Gives (λ count. count) (member_spelled (integer_spelled low high) (codes "length") (value_view value.now)) result }
{
    let Some(member) = value.get("length") else {
        return Err(fault_of_field(alloc, "length", Wrong::Missing));
    };
    in_field(alloc, "length", integer(alloc, low, high, member))
}

/// Returns the number of bits of the last octet that are unused, if `count` of `all` bits are used.
fn unused_bits(
    alloc: Global,
    least: u8,
    octets: &[u8],
    all: i64,
    count: i64,
) -> Result<u8, ValueFault>
    requires all { all ≡ pos (8 * length octets.now) }
    requires low { pos (8 * length octets.now - 7) ≤ℤ count }
    requires high { count ≤ℤ all }
    ensures { Gives (λ unused. (unused, octets.now)) (λ path. bits_from least path octets.now (count_of count)) result }
{
    let unused = (all - count) as u8;
    if last_or_zero(octets) % (1 << unused) != 0 {
        return Err(fault_of_field(alloc, "value", Wrong::BitPastLength));
    }
    if count < i64::from(least) {
        return Err(fault_here(alloc, Wrong::FewerBits { least }));
    }
    Ok(unused)
}
