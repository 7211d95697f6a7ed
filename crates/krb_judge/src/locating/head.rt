//! The identifier and length octets of an item that may not be whole.

ghost use Rattle.std.specs.Prelude.{◌≡◌, ◌^◌, ◌+◌, ◌<◌, ◌≤◌, length, take, drop, IfSome};
ghost use Rattle.krb_msg.specs.Judgement.{head as head_from};
ghost use Rattle.krb_judge.specs.inner.Descent.{IsHeadOf};

use krb_msg::first_length;

/// The identifier and length octets of an item: how many they are, and how many octets of contents
/// they announce.
#[derive(Clone, Copy)]
pub(crate) struct Head {
    pub header: u32,
    pub size: u32,
}

/// Returns the head of the first item in a room, if its identifier and length octets are there and
/// right, and its contents fit.
pub(crate) fn read_head(room: u32, octets: &[u8]) -> Option<Head>
    requires { room < 2 ^ 31 }
    ensures head { IsHeadOf (head_from room octets.now) result }
    ensures fits { IfSome result (λ head. head.header + head.size ≤ room) }
{
    let [_, first, rest @ ..] = octets else {
        return None;
    };
    let Some((size, contents)) = first_length(*first, rest) else {
        return None;
    };
    let header = octets.len() - contents.len();
    let room = room as usize;
    if size <= room && header <= room - size {
        Some(Head {
            header: header as u32,
            size: size as u32,
        })
    } else {
        None
    }
}

/// Returns the octets from an offset on that are present, up to a size.
pub(crate) fn part(octets: &[u8], start: u32, size: u32) -> &[u8]
    ensures { result.now ≡ take size (drop start octets.now) }
{
    let start = octets.len().min(start as usize);
    let rest = &octets[start..];
    let end = rest.len().min(size as usize);
    &rest[..end]
}
