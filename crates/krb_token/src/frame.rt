//! Frames (RFC 4120, 7.2.2).

ghost use Rattle.std.specs.Prelude.{◌≡◌, ◌^◌, ◌<◌, length};
ghost use Rattle.krb_token.specs.Seen.{IsInLayer, opened_of};
ghost use Rattle.krb_token.specs.Tokens.{frame_opened};

use crate::item::Part;
use crate::opening::{Opened, message, refused};
use crate::path::TokenFault;
use krb_der::{Why, number_of};
use krb_input::Layer;

/// Returns what four octets of length and the octets after them are: a message, if there are as
/// many of these as the length says.
pub(crate) fn open_frame(octets: &[u8]) -> Opened<'_>
    requires { length octets.now < 2 ^ 31 }
    ensures opened { opened_of result ≡ frame_opened octets.now }
    ensures layer { IsInLayer result.found }
{
    let layers = &[Layer::Frame];
    if octets.len() < 4 {
        return refused(
            layers,
            TokenFault::bare(octets.len() as u32, Why::Truncated),
        );
    }
    let (announced, contents) = octets.split_at(4);
    let announced = number_of(announced);
    let present = contents.len() as u64;
    if announced == 0 {
        refused(layers, TokenFault::bare(3, Why::Empty))
    } else if present < announced {
        refused(layers, TokenFault::bare(3, Why::Overrun))
    } else if announced < present {
        refused(layers, TokenFault::bare(3, Why::Loose))
    } else {
        message(
            layers,
            Part {
                place: 4,
                octets: contents,
            },
        )
    }
}
