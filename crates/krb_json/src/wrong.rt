//! What is wrong with a JSON value that spells no value of the grammar.

ghost use Rattle.std.specs.Prelude.{Some};
ghost use Rattle.krb_json.specs.Faults.{wrong_text};

use std::fmt;

/// What is wrong with a JSON value that spells no value of the grammar.
#[derive(Clone, Copy, PartialEq, Eq, Debug)]
pub enum Wrong {
    /// A SEQUENCE or a BIT STRING is an object.
    NotAnObject,
    /// No field of the SEQUENCE has this name.
    NoSuchField,
    /// A member before it has the same name.
    Twice,
    /// The field has to be there.
    Missing,
    /// A SEQUENCE OF is an array.
    NotAnArray,
    /// The SEQUENCE OF may not be empty.
    Empty,
    /// An INTEGER is a number.
    NotANumber,
    /// An INTEGER has no fraction and no exponent.
    NotAnInteger,
    /// The number is not from `low` to `high`.
    Outside { low: i64, high: i64 },
    /// This is a string.
    NotAString,
    /// An OCTET STRING is two hexadecimal digits for each octet.
    NotHexadecimal,
    /// A KerberosTime is fourteen digits and a Z.
    NotATime,
    /// A backslash of a KerberosString is that of `\x` and two hexadecimal digits.
    Backslash,
    /// No octet of the KerberosString may be above 7F.
    HighOctet,
    /// The bits of a BIT STRING past its length are clear.
    BitPastLength,
    /// The BIT STRING has to have `least` bits.
    FewerBits { least: u8 },
    /// The message has more octets than the `limit`.
    Longer { limit: u32 },
}

/// Shows what is wrong in words.
impl fmt::Display for Wrong {
    ghost output = { λ wrong. Some (wrong_text wrong) };

    fn fmt<W: fmt::Write>(&self, f: &mut fmt::Formatter<W>) -> fmt::Result {
        let words = match self {
            Wrong::NotAnObject => "not an object",
            Wrong::NoSuchField => "no such field",
            Wrong::Twice => "twice",
            Wrong::Missing => "missing",
            Wrong::NotAnArray => "not an array",
            Wrong::Empty => "empty",
            Wrong::NotANumber => "not a number",
            Wrong::NotAnInteger => "not an integer",
            Wrong::Outside { low, high } if high <= low => return write!(f, "not {low}"),
            Wrong::Outside { low, high } => return write!(f, "not {low} to {high}"),
            Wrong::NotAString => "not a string",
            Wrong::NotHexadecimal => "not hexadecimal",
            Wrong::NotATime => "not a time",
            Wrong::Backslash => "\\ without x and two hexadecimal digits",
            Wrong::HighOctet => "an octet above 7f",
            Wrong::BitPastLength => "a bit past the length is set",
            Wrong::FewerBits { least } => return write!(f, "fewer than {least} bits"),
            Wrong::Longer { limit } => return write!(f, "longer than {limit} octets"),
        };
        f.write_str(words)
    }
}
