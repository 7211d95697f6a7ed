//! Frames that lie whole in a piece of a stream.

ghost use Rattle.std.specs.Prelude.{MatchOption};
ghost use Rattle.krb_frame.specs.Wholes.{BeginWith, HaveNoFrame};

use crate::decoder::LENGTH_OCTETS;
use crate::length::length_fault;
use krb_der::Limit;

/// A frame that is all there, whose length is accepted.
#[derive(Clone, Copy)]
pub struct WholeFrame<'p> {
    /// Its contents, which may be no message.
    pub contents: &'p [u8],
    /// The octets after the frame.
    pub rest: &'p [u8],
}

/// Returns the frame with which octets begin, if it is all there and its length is accepted.
#[inline(always)]
pub fn first_frame(limit: Limit, octets: &[u8]) -> Option<WholeFrame<'_>>
    ensures { MatchOption result (HaveNoFrame limit octets.now) (λ frame. BeginWith limit octets.now frame.contents.now frame.rest.now) }
{
    let (announced, after) = octets.split_first_chunk::<LENGTH_OCTETS>()?;
    let size = u32::from_be_bytes(*announced);
    if length_fault(limit, size).is_some() {
        return None;
    }
    let (contents, rest) = after.split_at_checked(size as usize)?;
    Some(WholeFrame { contents, rest })
}
