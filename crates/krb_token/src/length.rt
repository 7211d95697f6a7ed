//! The length octets of items whose room is known (X.690, 8.1.3 and 10.1).

ghost use Rattle.std.specs.Prelude.{◌≡◌, ◌+◌, ◌^◌, ◌<◌, ◌≤◌, length, IfErr, IfOk, MatchResult};
ghost use Rattle.krb_msg.specs.Judgement.{Got, Refused, fitting as fitting_in, short_head};

use krb_der::{Refusal, Why, number_of};

/// The identifier and length octets of an item: how many they are, and how many octets of contents
/// they announce.
#[derive(Clone, Copy)]
pub(crate) struct Head {
    pub header: u32,
    pub size: u32,
}

/// Returns the head of an item in a room, by its first length octet and all octets after it, or
/// which of its octets is at fault, counted from its identifier octet.
pub(crate) fn read_length(room: u32, first: u8, octets: &[u8]) -> Result<Head, Refusal>
    requires room { room ≡ 2 + length octets.now }
    requires short { room < 2 ^ 31 }
    ensures head { MatchResult result (λ head. short_head room first octets.now ≡ Got head.header head.size) (λ refusal. short_head room first octets.now ≡ Refused refusal.place refusal.why) }
    ensures fits { IfOk result (λ head. (2 ≤ head.header) × (head.header + head.size ≤ room)) }
    ensures within { IfErr result (λ refusal. refusal.place < room) }
{
    if first < 0x80 {
        return fitting(room, 2, u64::from(first));
    }
    if first == 0x80 {
        return Err(at(1, Why::Indefinite));
    }
    if first > 0x84 {
        return Err(at(1, Why::LengthWide));
    }
    let count = usize::from(first - 0x80);
    if octets.len() < count {
        return Err(at(1, Why::Overrun));
    }
    let (digits, _) = octets.split_at(count);
    if digits[0] == 0 || count == 1 && digits[0] < 0x80 {
        return Err(at(2, Why::LengthNotMinimal));
    }
    fitting(room, 2 + count as u32, number_of(digits))
}

/// Returns a head, if the contents fit in the room.
fn fitting(room: u32, header: u32, size: u64) -> Result<Head, Refusal>
    requires some { 2 ≤ header }
    requires short { room < 2 ^ 31 }
    requires header { header ≤ room }
    ensures head { MatchResult result (λ head. fitting_in room header size ≡ Got head.header head.size) (λ refusal. fitting_in room header size ≡ Refused refusal.place refusal.why) }
    ensures fits { IfOk result (λ head. (2 ≤ head.header) × (head.header + head.size ≤ room)) }
    ensures within { IfErr result (λ refusal. refusal.place < room) }
{
    if size > u64::from(room - header) {
        return Err(at(header - 1, Why::Overrun));
    }
    Ok(Head {
        header,
        size: size as u32,
    })
}

/// Returns that an octet is at fault.
fn at(place: u32, why: Why) -> Refusal
    ensures place { result.place ≡ place }
    ensures why { result.why ≡ why }
{
    Refusal { place, why }
}
