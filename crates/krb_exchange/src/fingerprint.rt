//! By what the octets of a request are known.

ghost use Rattle.std.specs.Prelude.{◌≡◌};
ghost use Rattle.krb_exchange.specs.Fingerprints.{fingerprint_of};

/// What FNV-1a of 64 bits begins with.
const OFFSET_BASIS: u64 = 14695981039346656037;

/// By what FNV-1a of 64 bits multiplies.
const PRIME: u64 = 1099511628211;

/// By what octets are known: how many they are, and their FNV-1a of 64 bits.
#[derive(Clone, Copy, PartialEq, Eq, PartialOrd, Ord, Debug)]
pub struct Fingerprint {
    /// The FNV-1a of the octets.
    pub hash: u64,
    /// How many they are.
    pub length: u64,
}

impl Fingerprint {
    /// Returns that of some octets.
    pub fn of(octets: &[u8]) -> Fingerprint
        ensures { result ≡ fingerprint_of octets.now }
    {
        let mut hash = OFFSET_BASIS;
        for octet in octets {
            hash = (hash ^ u64::from(*octet)).wrapping_mul(PRIME);
        }
        Fingerprint {
            hash,
            length: octets.len() as u64,
        }
    }
}
