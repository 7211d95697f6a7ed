//! Messages as frames.

ghost use Rattle.std.specs.Prelude.{◌≡◌, ◌<◌, ◌^◌, ◌↔◌, length, IfOk, IfSome, IsNone, IsErrOf};
ghost use Rattle.krb_msg.specs.Views.{message_der};
ghost use Rattle.krb_codec.specs.declared.encoding.EncodeFault.TheVariants as fault;
ghost use Rattle.krb_frame.specs.Frame.{framed};

use krb_codec::{EncodeFault, put, size};
use krb_der::Limit;
use krb_frame::LENGTH_OCTETS;
use krb_msg::Message;
use std::alloc::Global;

/// Returns a message as a frame (RFC 4120, 7.2.2): the number of its DER octets in four octets, the
/// highest first, and these. `TooLong`, if they are more than the limit, is decided first; then
/// memory is allocated once, for just as many octets as that, and no more.
pub fn frame(alloc: Global, message: &Message, limit: Limit) -> Result<Vec<u8>, EncodeFault>
    ensures octets { IfOk result (λ octets. octets.items ≡ framed (message_der message.now)) }
    ensures too_long { IsErrOf result fault.TooLong ↔ (limit < length (message_der message.now)) }
{
    let Some(size) = size_within(message, limit) else {
        return Err(EncodeFault::TooLong);
    };
    let mut octets = Vec::with_capacity(alloc, LENGTH_OCTETS + size as usize)?;
    octets.extend_from_slice(&size.to_be_bytes())?;
    put(message, &mut octets);
    Ok(octets)
}

/// Returns the number of DER octets of a message, and `None` if they are more than the limit.
fn size_within(message: &Message, limit: Limit) -> Option<u32>
    ensures value { IfSome result (λ size. size ≡ length (message_der message.now)) }
    ensures few { IfSome result (λ size. size < 2 ^ 31) }
    ensures none { IsNone result ↔ (limit < length (message_der message.now)) }
{
    match size(message) {
        Some(size) if size <= limit.get() => Some(size),
        _ => None,
    }
}
