//! What contents may be, octet by octet.

ghost use Rattle.std.specs.Prelude.{◌≡◌};
ghost use Rattle.krb_msg.specs.Term.{Bits};
ghost use Rattle.krb_msg.specs.Judgement.{time_octet, has_size, is_padded as padded};

/// Returns whether the first nine bits are equal, as they are not in an INTEGER of the fewest
/// octets (X.690, 8.3.2).
#[inline(always)]
pub fn is_padded(octets: &[u8]) -> bool
    ensures { result ≡ padded octets.now }
{
    match octets {
        [first, second, ..] => *first == 0 && *second < 128 || *first == 255 && *second >= 128,
        _ => false,
    }
}

/// Returns whether an octet may be at an index of a KerberosTime, 0 to 14: a digit, and at the
/// last a Z (RFC 4120, 5.2.3).
#[inline(always)]
pub fn is_time_octet(place: usize, octet: u8) -> bool
    ensures { result ≡ time_octet place octet }
{
    if place < 14 {
        octet.is_ascii_digit()
    } else {
        octet == b'Z'
    }
}

/// Returns whether contents of a size can hold `least` bits, after the count of the unused ones
/// (X.690, 8.6.2).
#[inline(always)]
pub fn has_bits(least: u8, size: u32) -> bool
    ensures { result ≡ has_size (Bits least) size }
{
    0 < size && u64::from(least) <= 8 * u64::from(size - 1)
}
