//! Messages of octets that a scanner took.

ghost use Rattle.std.specs.Prelude.{◌≡◌, ◌<◌, ◌^◌, length, IfOk};
ghost use Rattle.krb_msg.specs.Views.{message_der};
ghost use Rattle.krb_scan.specs.Scanned.{AreWhole};

use krb_codec::copy_message;
use krb_der::Memory;
use krb_msg::{Message, view_message};
use krb_scan::Mark;
use std::alloc::Global;

/// Returns the message whose octets these are, which a scanner took whole with these marks. The
/// marks are not read: what they say the octets say, too, so the octets are viewed, and each string
/// of octets is copied once.
pub fn build(alloc: Global, marks: &[Mark], octets: &[u8]) -> Result<Message, Memory>
    requires short { length octets.now < 2 ^ 31 }
    requires whole { AreWhole marks.now octets.now }
    ensures { IfOk result (λ m. message_der m ≡ octets.now) }
{
    let Some(message) = view_message(octets) else {
        unreachable!()
    };
    copy_message(alloc, &message)
}
