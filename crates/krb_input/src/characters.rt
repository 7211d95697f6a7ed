//! What octets stand for in a text. Where most texts pass a test, it looks at all octets with no
//! branch, many at a time, and not only up to the first that does not pass.

ghost use Rattle.std.specs.Prelude.{◌≡◌, ◌==◌, ◌<◌, ◌≤◌, length, IfSome};
ghost use Rattle.std.specs.List.{list_any};
ghost use Rattle.hex.specs.Hex.{hex_digit_value, is_hex_digit};
ghost use Rattle.krb_der.specs.Octets.{begins_with};
ghost use Rattle.krb_input.specs.Characters.{count_digits, is_blank, is_text, length_before, octet_of, skip_blanks};

/// Returns whether an octet is a blank: a space, a tab, CR or LF.
pub(crate) fn is_blank(octet: u8) -> bool
    ensures { result ≡ is_blank octet }
{
    (octet == b' ') | (octet == b'\t') | (octet == b'\r') | (octet == b'\n')
}

/// Returns whether an octet may stand in a text: it is printable or a blank.
pub(crate) fn is_text(octet: u8) -> bool
    ensures { result ≡ is_text octet }
{
    ((b' ' <= octet) & (octet <= b'~')) | is_blank(octet)
}

/// Returns the value of a hexadecimal digit of either case, or `None` of any other octet.
pub(crate) fn digit_value(octet: u8) -> Option<u8>
    ensures value { result ≡ hex_digit_value octet }
    ensures small { IfSome result (λ value. value < 16) }
{
    match octet {
        b'0'..=b'9' => Some(octet - b'0'),
        b'A'..=b'F' => Some(octet - b'A' + 10),
        b'a'..=b'f' => Some(octet - b'a' + 10),
        _ => None,
    }
}

/// Returns whether an octet is a hexadecimal digit, of either case.
pub(crate) fn is_digit(octet: u8) -> bool
    ensures { result ≡ is_hex_digit octet }
{
    ((b'0' <= octet) & (octet <= b'9'))
        | ((b'A' <= octet) & (octet <= b'F'))
        | ((b'a' <= octet) & (octet <= b'f'))
}

/// Returns the octet of two hexadecimal digits.
pub(crate) fn octet_of(high: u8, low: u8) -> Option<u8>
    ensures { result ≡ octet_of high low }
{
    let high = digit_value(high)?;
    let low = digit_value(low)?;
    Some(16 * high + low)
}

/// Returns what follows the blanks at the beginning of a text.
pub(crate) fn skip_blanks(text: &[u8]) -> &[u8]
    ensures { result.now ≡ skip_blanks text.now }
{
    let mut rest = text;
    while let [octet, others @ ..] = rest {
        if !is_blank(*octet) {
            return rest;
        }
        rest = others;
    }
    rest
}

/// Returns how many digits a text begins with.
pub(crate) fn count_digits(text: &[u8]) -> usize
    ensures count { result ≡ count_digits text.now }
    ensures within { result ≤ length text.now }
{
    let mut rest = text;
    let mut count = 0;
    while let [octet, others @ ..] = rest {
        if !is_digit(*octet) {
            return count;
        }
        count += 1;
        rest = others;
    }
    count
}

/// Returns whether a text begins with an octet.
pub(crate) fn begins_with(text: &[u8], octet: u8) -> bool
    ensures { result ≡ begins_with octet text.now }
{
    matches!(text, [first, ..] if *first == octet)
}

/// Returns how many octets come before the first of an octet in a text, or in all of it.
pub(crate) fn length_before(octet: u8, text: &[u8]) -> usize
    ensures count { result ≡ length_before octet text.now }
    ensures within { result ≤ length text.now }
{
    let mut rest = text;
    let mut count = 0;
    while let [first, others @ ..] = rest {
        if *first == octet {
            return count;
        }
        count += 1;
        rest = others;
    }
    count
}

/// Returns whether an octet stands in a text.
pub(crate) fn contains(octet: u8, text: &[u8]) -> bool
    ensures { result ≡ list_any (λ one. one == octet) text.now }
{
    let mut found = false;
    for one in text {
        found |= *one == octet;
    }
    found
}
