//! Messages as octets.

ghost use Rattle.std.specs.Prelude.{◌≡◌, ◌<◌, ◌↔◌, length, IfOk, IfSome, IsNone, IsErrOf};
ghost use Rattle.std.specs.Vec.{vec_len, vec_capacity};
ghost use Rattle.krb_der.specs.declared.profile.Profile.TheVariants.{Lenient};
ghost use Rattle.krb_msg.specs.Views.{message_der, IsInProfile};
ghost use Rattle.krb_codec.specs.declared.encoding.EncodeFault.TheVariants.{Memory};

use crate::message::{octets_of, put};
use krb_der::TOO_LONG;
use krb_msg::Message;
use std::alloc::{AllocError, Global};
use thiserror::Error;

/// Why a message could not be encoded.
#[derive(Clone, Copy, PartialEq, Eq, Debug, Error)]
pub enum EncodeFault {
    /// It has more octets than a message may have, 2147483647, or than the limit of its frame.
    #[error("too long")]
    TooLong,
    /// Out of memory.
    #[error("out of memory")]
    Memory,
}

impl From<AllocError> for EncodeFault {
    ghost from_gives = { λ _ e. e ≡ Memory };

    fn from(_error: AllocError) -> EncodeFault {
        EncodeFault::Memory
    }
}

/// Returns the number of DER octets of a message, and `None` if they are more than 2147483647.
pub fn size(message: &Message) -> Option<u32>
    ensures value { IfSome result (λ size. size ≡ length (message_der message.now)) }
    ensures in_profile { IfSome result (λ _. IsInProfile Lenient message.now) }
    ensures none { IsNone result ↔ (2147483647 < length (message_der message.now)) }
{
    let octets = octets_of(message);
    if octets < TOO_LONG {
        Some(octets as u32)
    } else {
        None
    }
}

/// Returns the DER octets of a message, in a vector of exactly that capacity. `TooLong` is decided
/// first; then memory is allocated once.
pub fn encode(alloc: Global, message: &Message) -> Result<Vec<u8>, EncodeFault>
    ensures octets { IfOk result (λ octets. octets.items ≡ message_der message.now) }
    ensures in_profile { IfOk result (λ _. IsInProfile Lenient message.now) }
    ensures capacity { IfOk result (λ octets. vec_capacity octets ≡ vec_len octets) }
    ensures too_long { IsErrOf result EncodeFault.TooLong ↔ (2147483647 < length (message_der message.now)) }
{
    let Some(size) = size(message) else {
        return Err(EncodeFault::TooLong);
    };
    let mut octets = Vec::with_capacity(alloc, size as usize)?;
    put(message, &mut octets);
    Ok(octets)
}
