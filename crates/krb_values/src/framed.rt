//! Messages out of frames that are ready.

ghost use Rattle.std.specs.Prelude.{◌≡◌, IfOk};
ghost use Rattle.krb_msg.specs.Views.{message_der};

use krb_codec::copy_message;
use krb_der::Memory;
use krb_frame::Framed;
use krb_msg::Message;
use std::alloc::Global;

/// Returns the message of a frame that a decoder has ready, copied out of its view.
pub fn message_in(alloc: Global, framed: &Framed<'_>) -> Result<Message, Memory>
    ensures { IfOk result (λ m. message_der m ≡ framed.now) }
{
    copy_message(alloc, &framed.view())
}
