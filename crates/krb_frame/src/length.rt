//! The length of a frame.

ghost use Rattle.std.specs.Prelude.{◌≡◌};
ghost use Rattle.krb_frame.specs.Frame.{length_fault};

use krb_der::{Limit, Why};

/// The bit of a frame's length that is reserved (RFC 4120, 7.2.2).
pub const HIGH_BIT: u32 = 1 << 31;

/// Returns why the length of a frame is refused, if it is (RFC 4120, 7.2.2): its high bit is set
/// (`HighBit`), or it is greater than the limit (`TooLong`), or 0 (`Empty`), in this order.
#[inline(always)]
pub fn length_fault(limit: Limit, size: u32) -> Option<Why>
    ensures { result ≡ length_fault limit size }
{
    if size >= HIGH_BIT {
        Some(Why::HighBit)
    } else if size > limit.get() {
        Some(Why::TooLong)
    } else if size == 0 {
        Some(Why::Empty)
    } else {
        None
    }
}
