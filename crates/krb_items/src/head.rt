//! The identifier and length octets of an item (X.690, 8.1.2 and 8.1.3).

ghost use Rattle.std.specs.Prelude.{◌≡◌, ◌≤◌, ◌<◌, ◌^◌, take, drop, min, length, IfSome};
ghost use Rattle.krb_der.specs.Octets.{begins_with};
ghost use Rattle.krb_items.specs.Heads.{count_in, head_in, long_head};

use krb_der::number_of;

/// How many identifier and length octets an item has, and how many contents octets these announce.
#[derive(Clone, Copy)]
pub(crate) struct Head {
    pub header: u64,
    pub size: u64,
}

/// Returns the head of the item with which octets begin, if it is all there and its length has its
/// shortest form, whatever the room is.
pub(crate) fn read_head(octets: &[u8]) -> Option<Head>
    ensures head { result ≡ head_in octets.now }
    ensures small { IfSome result (λ head. (head.header ≤ 6) × (head.size < 2 ^ 40)) }
{
    let [_tag, first, rest @ ..] = octets else {
        return None;
    };
    if *first < 0x80 {
        return Some(Head {
            header: 2,
            size: u64::from(*first),
        });
    }
    read_long(*first - 0x80, rest)
}

/// Returns the head that has so many octets of a length of the long form after the first.
fn read_long(count: u8, octets: &[u8]) -> Option<Head>
    ensures head { result ≡ long_head count octets.now }
    ensures small { IfSome result (λ head. (head.header ≤ 6) × (head.size < 2 ^ 40)) }
{
    let [first, ..] = octets else {
        return None;
    };
    let digits = usize::from(count);
    if count == 0 || count > 4 || octets.len() < digits {
        return None;
    }
    if *first == 0 || count == 1 && *first < 0x80 {
        return None;
    }
    Some(Head {
        header: 2 + u64::from(count),
        size: number_of(&octets[..digits]),
    })
}

/// Returns whether octets begin with a tag.
pub(crate) fn begins(octets: &[u8], tag: u8) -> bool
    ensures { result ≡ begins_with tag octets.now }
{
    match octets.first() {
        None => false,
        Some(octet) => *octet == tag,
    }
}

/// Returns the lesser of how many octets there are and a number.
fn up_to(octets: &[u8], size: u64) -> usize
    ensures { result ≡ min (length octets.now) size }
{
    if (octets.len() as u64) < size {
        octets.len()
    } else {
        size as usize
    }
}

/// Returns the octets from an offset on.
pub(crate) fn from(octets: &[u8], start: u64) -> &[u8]
    ensures { result.now ≡ drop start octets.now }
{
    &octets[up_to(octets, start)..]
}

/// Returns the first octets, up to a size.
pub(crate) fn front(octets: &[u8], size: u64) -> &[u8]
    ensures { result.now ≡ take size octets.now }
{
    &octets[..up_to(octets, size)]
}

/// Returns the octets from an offset on, up to a size.
pub(crate) fn part(octets: &[u8], start: u64, size: u64) -> &[u8]
    ensures { result.now ≡ take size (drop start octets.now) }
{
    front(from(octets, start), size)
}

/// Returns how many octets are there of the first item.
pub(crate) fn count_of(octets: &[u8]) -> u64
    ensures count { result ≡ count_in octets.now }
    ensures within { result ≤ length octets.now }
{
    match read_head(octets) {
        None => 0,
        Some(head) => up_to(octets, head.header + head.size) as u64,
    }
}
