//! Sequence numbers, which are counted modulo 2^32 (RFC 1982; RFC 9293, 3.4).

ghost use Rattle.std.specs.Prelude.{◌≡◌};
ghost use Rattle.krb_flow.specs.Serial.{ahead, behind, distance};

/// How far a sequence number is from another one.
#[derive(Clone, Copy)]
pub enum Distance {
    /// So many after it, fewer than 2^31.
    Ahead(u32),
    /// So many before it, from 1 to 2^31.
    Behind(u32),
}

impl Distance {
    /// Returns how far a sequence number is from the one that is due.
    pub fn between(expected: u32, number: u32) -> Distance
        ensures { result ≡ distance expected number }
    {
        let ahead = number.wrapping_sub(expected);
        if ahead < 1 << 31 {
            Distance::Ahead(ahead)
        } else {
            Distance::Behind(expected.wrapping_sub(number))
        }
    }

    /// Returns how many sequence numbers after the other one it is.
    pub(crate) fn ahead(self) -> u32
        ensures { result ≡ ahead self }
    {
        match self {
            Distance::Ahead(count) => count,
            Distance::Behind(_) => 0,
        }
    }

    /// Returns how many sequence numbers before the other one it is.
    pub(crate) fn behind(self) -> u32
        ensures { result ≡ behind self }
    {
        match self {
            Distance::Ahead(_) => 0,
            Distance::Behind(count) => count,
        }
    }
}
