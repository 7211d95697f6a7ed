//! The reasons for a refusal.

ghost use Rattle.std.specs.Prelude.{◌≡◌, Some};
ghost use Rattle.krb_der.specs.Reasons.{reason_number, reason_name};

use std::fmt;

/// A reason for which octets are refused. Each has a number ([`why_number`]) and a name
/// ([`why_text`]).
#[derive(Clone, Copy, PartialEq, Eq, Debug)]
pub enum Why {
    /// The high bit of a frame's length is set (RFC 4120, 7.2.2: it is reserved).
    HighBit,
    /// The frame is longer than the limit, or a slice is longer than 2147483647 octets.
    TooLong,
    /// The frame's length is 0, or a slice has no octets.
    Empty,
    /// The octet is not a tag that may come here (X.690, 8.1.2).
    Tag,
    /// An item is longer than what is left of its container.
    Overrun,
    /// The length octet is 80, the indefinite form (X.690, 8.1.3.6), which DER does not have
    /// (10.1).
    Indefinite,
    /// The length octet is from 85 to FF: the length has five octets or more (X.690, 8.1.3.5).
    LengthWide,
    /// The length has a shorter form (X.690, 10.1).
    LengthNotMinimal,
    /// The only item of a container does not fill it.
    Loose,
    /// The contents have a length that the type does not have.
    Size,
    /// The first nine bits of an integer are equal (X.690, 8.3.2).
    IntegerNotMinimal,
    /// An integer is outside the range of its type.
    Range,
    /// An octet does not have the form of a KerberosTime (RFC 4120, 5.2.3).
    Time,
    /// The number of unused bits of a bit string is wrong, or an unused bit is set (X.690, 8.6 and
    /// 11.2).
    Bits,
    /// A container is full, and a component that it must have is not there.
    Missing,
    /// The input ended inside a frame.
    Truncated,
    /// An octet of a GeneralString is above the greatest that the profile accepts.
    Charset,
}

/// Returns the number of a reason, from 1 (`HighBit`) to 17 (`Charset`), in the order of the enum.
pub fn why_number(why: Why) -> u8
    ensures { result ≡ reason_number why }
{
    match why {
        Why::HighBit => 1,
        Why::TooLong => 2,
        Why::Empty => 3,
        Why::Tag => 4,
        Why::Overrun => 5,
        Why::Indefinite => 6,
        Why::LengthWide => 7,
        Why::LengthNotMinimal => 8,
        Why::Loose => 9,
        Why::Size => 10,
        Why::IntegerNotMinimal => 11,
        Why::Range => 12,
        Why::Time => 13,
        Why::Bits => 14,
        Why::Missing => 15,
        Why::Truncated => 16,
        Why::Charset => 17,
    }
}

/// Returns the name of a reason, as the enum spells it.
pub fn why_text(why: Why) -> &'static str
    ensures { result.now ≡ reason_name why }
{
    match why {
        Why::HighBit => "HighBit",
        Why::TooLong => "TooLong",
        Why::Empty => "Empty",
        Why::Tag => "Tag",
        Why::Overrun => "Overrun",
        Why::Indefinite => "Indefinite",
        Why::LengthWide => "LengthWide",
        Why::LengthNotMinimal => "LengthNotMinimal",
        Why::Loose => "Loose",
        Why::Size => "Size",
        Why::IntegerNotMinimal => "IntegerNotMinimal",
        Why::Range => "Range",
        Why::Time => "Time",
        Why::Bits => "Bits",
        Why::Missing => "Missing",
        Why::Truncated => "Truncated",
        Why::Charset => "Charset",
    }
}

/// Shows the name.
impl fmt::Display for Why {
    ghost output = { λ why. Some (reason_name why) };

    fn fmt<W: fmt::Write>(&self, f: &mut fmt::Formatter<W>) -> fmt::Result {
        f.write_str(why_text(*self))
    }
}
