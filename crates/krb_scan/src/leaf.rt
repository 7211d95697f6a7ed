//! The contents of items without items, one octet at a time (RFC 4120, 5.2; X.690, 8.3 and 8.6).

ghost use Rattle.std.specs.Prelude.{◌≡◌, ◌<◌, ◌≤ℤ◌, ◌<ℤ◌, ◌==◌, ◌&&◌, if◌then◌else◌, pos, negsuc, ℕ, ℤ};
ghost use Rattle.krb_scan.specs.inner.Numbers.{extended, pads, in_range, integer_with, each_next, bits_next as bits_decides, any_next as any_decides};
ghost use Rattle.krb_der.specs.declared.why.Why.TheVariants as why;
ghost use Rattle.krb_msg.specs.Judgement.{text_octet, time_octet};
ghost use Rattle.krb_scan.specs.inner.Outcomes.{LeafIs};

use krb_der::Why;
use krb_msg::grammar::Form;
use krb_msg::is_time_octet;

/// What an octet makes of the contents.
#[derive(Clone, Copy)]
pub(crate) enum Leaf {
    /// More octets are needed.
    Open,
    /// The octet is refused.
    Bad(Why),
    /// The octet completes them.
    Done,
}

/// Returns the number of an INTEGER's octets and one more, after `seen` of them.
pub(crate) fn extend(seen: u32, value: i64, octet: u8) -> i64
    requires above { negsuc 549755813887 ≤ℤ value }
    requires below { value <ℤ pos 549755813888 }
    ensures { result ≡ extended seen value octet }
{
    if seen > 0 {
        value * 256 + i64::from(octet)
    } else if octet < 128 {
        i64::from(octet)
    } else {
        i64::from(octet) - 256
    }
}

/// Returns whether an octet repeats the sign of the one before it.
fn is_pad(value: i64, octet: u8) -> bool
    ensures { result ≡ pads value octet }
{
    if octet < 128 { value == 0 } else { value == -1 }
}

/// Returns whether the second octet repeats the sign of the first.
fn is_padded(seen: u32, value: i64, octet: u8) -> bool
    ensures { result ≡ ((seen == 1) && pads value octet) }
{
    if seen == 1 {
        is_pad(value, octet)
    } else {
        false
    }
}

/// Returns whether a number is in the range of contents that have one.
pub(crate) fn is_within(form: Form, value: i64) -> bool
    ensures { (low high : ℤ) (widest : ℕ) → form ≡ Form.Integer low high widest → result ≡ in_range low high value }
{
    match form {
        Form::Integer { low, high, .. } => low <= value && value <= high,
        _ => false,
    }
}

/// Judges an INTEGER's next octet, after `seen` of its `size`, which are `value`; with it they are
/// a number that is `within` its range, or not.
pub(crate) fn integer_next(within: bool, size: u32, seen: u32, value: i64, octet: u8) -> Leaf
    requires { seen < size }
    ensures { LeafIs result (integer_with within size seen value octet) }
{
    let padded = is_padded(seen, value, octet);
    if padded {
        Leaf::Bad(Why::IntegerNotMinimal)
    } else if seen + 1 < size {
        Leaf::Open
    } else if within {
        Leaf::Done
    } else {
        Leaf::Bad(Why::Range)
    }
}

/// Judges the next octet of a KerberosTime.
pub(crate) fn time_next(seen: u32, octet: u8) -> Leaf
    requires { seen < 15 }
    ensures { LeafIs result (each_next time_octet why.Time 15 seen octet) }
{
    if !is_time_octet(seen as usize, octet) {
        Leaf::Bad(Why::Time)
    } else if seen + 1 < 15 {
        Leaf::Open
    } else {
        Leaf::Done
    }
}

/// Returns a BIT STRING's count of unused bits with one more octet, after `seen` of them.
pub(crate) fn first_octet(seen: u32, unused: u8, octet: u8) -> u8
    ensures { result ≡ (if seen == 0 then octet else unused) }
{
    if seen == 0 { octet } else { unused }
}

/// Judges the next octet of a BIT STRING of `least` bits or more, after `seen` of its `size`; the
/// first of them is `unused`.
pub(crate) fn bits_next(least: u8, size: u32, seen: u32, unused: u8, octet: u8) -> Leaf
    requires some { seen < size }
    requires few { unused < 8 }
    ensures { LeafIs result (bits_decides least size seen unused octet) }
{
    if seen == 0 {
        if octet > 7 || 8 * u64::from(size - 1) < u64::from(least) + u64::from(octet) {
            Leaf::Bad(Why::Bits)
        } else if size > 1 {
            Leaf::Open
        } else {
            Leaf::Done
        }
    } else if seen + 1 < size {
        Leaf::Open
    } else if octet % (1 << unused) == 0 {
        Leaf::Done
    } else {
        Leaf::Bad(Why::Bits)
    }
}

/// Judges the next octet of a string of octets up to the `greatest`.
pub(crate) fn text_next(greatest: u8, size: u32, seen: u32, octet: u8) -> Leaf
    requires { seen < size }
    ensures { LeafIs result (each_next (text_octet greatest) why.Charset size seen octet) }
{
    if octet > greatest {
        Leaf::Bad(Why::Charset)
    } else if seen + 1 < size {
        Leaf::Open
    } else {
        Leaf::Done
    }
}

/// Judges the next octet of a string that may have any octets.
pub(crate) fn any_next(size: u32, seen: u32) -> Leaf
    requires { seen < size }
    ensures { LeafIs result (any_decides size seen) }
{
    if seen + 1 < size {
        Leaf::Open
    } else {
        Leaf::Done
    }
}
