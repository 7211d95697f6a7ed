//! Octets of a packet, and the fields of headers in them.

use std::marker::Model;

/// The octets that were captured of a packet, or of what is in one, borrowed; and how many there
/// are on the wire, which is no fewer.
#[derive(Drop)]
pub struct Payload<'a> {
    octets: &'a [u8],
    size: u64,
}

impl<'a> Model for Payload<'a> {
    ghost use Rattle.std.specs.Prelude.{◌≤◌, length};
    ghost use Rattle.krb_packet.specs.Payloads.{Captured};

    ghost Value = { Captured };

    ghost view = { λ payload. record { octets = payload.octets.now; size = payload.size } };

    ghost invariant = { λ payload. length payload.octets.now ≤ payload.size };
}

ghost use Rattle.std.specs.Prelude.{◌≡◌, ◌≤◌, length, max};
ghost use Rattle.krb_packet.specs.Payloads.{field, number8, number16, number32, after, beyond, past, within};

impl<'a> Payload<'a> {
    /// Creates a payload of captured octets, and a size on the wire. It is no smaller than that of
    /// the octets.
    pub fn new(octets: &'a [u8], size: u64) -> Payload<'a>
        ensures { result ≡ record { octets = octets.now; size = max size (length octets.now) } }
    {
        let size = size.max(octets.len() as u64);
        Payload { octets, size }
    }

    /// Returns the octets that were captured.
    pub fn octets(&self) -> &'a [u8]
        ensures value { result.now ≡ self.now.octets }
        ensures few { length result.now ≤ self.now.size }
    {
        self.octets
    }

    /// Returns how many octets there are on the wire.
    pub fn size(&self) -> u64
        ensures { result ≡ self.now.size }
    {
        self.size
    }

    /// Returns the field of `N` octets after `at` others, if it was captured.
    #[tactic(auto, unfolding(crate::specs::Payloads::field))]
    pub(crate) fn field<const N: usize>(&self, at: usize) -> Option<[u8; N]>
        ensures { result ≡ field N at self.now }
    {
        let (_, rest) = self.octets.split_at_checked(at)?;
        rest.first_chunk::<N>().copied()
    }

    /// Returns the number of 8 bits after `at` octets.
    #[tactic(auto, unfolding(crate::specs::Payloads::number8))]
    pub(crate) fn number8(&self, at: usize) -> Option<u8>
        ensures { result ≡ number8 at self.now }
    {
        Some(u8::from_be_bytes(self.field::<1>(at)?))
    }

    /// Returns the number of 16 bits after `at` octets.
    #[tactic(auto, unfolding(crate::specs::Payloads::number16))]
    pub(crate) fn number16(&self, at: usize) -> Option<u16>
        ensures { result ≡ number16 at self.now }
    {
        Some(u16::from_be_bytes(self.field::<2>(at)?))
    }

    /// Returns the number of 32 bits after `at` octets.
    #[tactic(auto, unfolding(crate::specs::Payloads::number32))]
    pub(crate) fn number32(&self, at: usize) -> Option<u32>
        ensures { result ≡ number32 at self.now }
    {
        Some(u32::from_be_bytes(self.field::<4>(at)?))
    }

    /// Returns what follows the first `size` octets on the wire, whether these were captured or
    /// not, if there are so many.
    #[tactic(auto, unfolding(crate::specs::Payloads::beyond))]
    pub(crate) fn beyond(&self, size: usize) -> Option<Payload<'a>>
        ensures { result ≡ beyond size self.now }
    {
        let left = self.size.checked_sub(size as u64)?;
        let octets = &self.octets[self.octets.len().min(size)..];
        Some(Payload { octets, size: left })
    }

    /// Returns what follows a header of `size` octets, if that was captured.
    #[tactic(auto, unfolding(crate::specs::Payloads::after))]
    pub(crate) fn after(&self, size: usize) -> Option<Payload<'a>>
        ensures { result ≡ after size self.now }
    {
        let (_, octets) = self.octets.split_at_checked(size)?;
        Some(Payload {
            octets,
            size: self.size - size as u64,
        })
    }

    /// Returns what follows the first `size` octets on the wire, which may be nothing.
    #[tactic(auto, unfolding(crate::specs::Payloads::past))]
    pub(crate) fn past(&self, size: usize) -> Payload<'a>
        ensures { result ≡ past size self.now }
    {
        let octets = &self.octets[self.octets.len().min(size)..];
        let size = self.size.saturating_sub(size as u64);
        Payload { octets, size }
    }

    /// Returns the first `size` octets of it.
    #[tactic(auto, unfolding(crate::specs::Payloads::within))]
    pub(crate) fn within(&self, size: u64) -> Payload<'a>
        ensures { result ≡ within size self.now }
    {
        let octets = if size < self.octets.len() as u64 {
            &self.octets[..size as usize]
        } else {
            self.octets
        };
        Payload { octets, size }
    }
}
