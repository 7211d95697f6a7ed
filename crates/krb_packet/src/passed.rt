//! The numbers after which a packet is passed over, since no packet of IP is in what they announce.

ghost use Rattle.std.specs.Prelude.{◌≡◌};
ghost use Rattle.krb_packet.specs.Passed.{is_passed_protocol, is_passed_type};

/// The least EtherType.
const LEAST_TYPE: u16 = 0x0600;

/// EtherTypes of neighbours, of older networks, of the link itself, of sound, time and storage, and
/// of field buses.
static PASSED_TYPES: [u16; 56] = [
    0x0806, 0x0842, 0x22EA, 0x22F4, 0x8035, 0x88CC, 0x88D9, 0x893A, 0x8940, 0x6001, 0x6002, 0x6003,
    0x6004, 0x6007, 0x809B, 0x80F3, 0x8137, 0x8138, 0x8204, 0x872D, 0x8808, 0x8809, 0x8863, 0x886C,
    0x886D, 0x886F, 0x887B, 0x888E, 0x8899, 0x88C7, 0x88E1, 0x88E3, 0x88F5, 0x88F6, 0x88F8, 0x88FB,
    0x8902, 0x890D, 0x8912, 0x8922, 0x9000, 0x22F0, 0x88F7, 0x88CA, 0x88A2, 0x8906, 0x8914, 0x8915,
    0x8892, 0x88A4, 0x88AB, 0x88B8, 0x88B9, 0x88BA, 0x88CD, 0x891D,
];

/// Protocols of messages and groups, of routes, of other transports, and of nothing.
static PASSED_PROTOCOLS: [u8; 18] = [
    1, 2, 58, 3, 8, 9, 46, 88, 89, 103, 112, 124, 135, 33, 113, 132, 136, 59,
];

/// Returns whether what an EtherType announces is passed over.
#[tactic(auto, unfolding(crate::specs::Passed::is_passed_type))]
pub(crate) fn is_passed_type(kind: u16) -> bool
    ensures { result ≡ is_passed_type kind }
{
    kind < LEAST_TYPE || PASSED_TYPES.contains(&kind)
}

/// Returns whether what a protocol of IP announces is passed over.
#[tactic(auto, unfolding(crate::specs::Passed::is_passed_protocol))]
pub(crate) fn is_passed_protocol(protocol: u8) -> bool
    ensures { result ≡ is_passed_protocol protocol }
{
    PASSED_PROTOCOLS.contains(&protocol)
}
