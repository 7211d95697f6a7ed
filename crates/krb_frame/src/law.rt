//! Laws of decoders and of the streams that they have decoded. Each is the contract of a function
//! that does nothing.

ghost use Rattle.krb_frame.specs.Calls.{CallsDeliverFrames};
ghost use Rattle.krb_frame.specs.Laws.{DecoderMatchesStream, RefusalEnds, RefusalsAreAtOffsets, RefusalsAreInside, FeedIsNotTruncated, LenientHasNoCharset, GoingOnChangesNothingBefore};

/// A decoder and its results match the stream that it has decoded.
pub fn decoder_matches_stream()
    ensures { DecoderMatchesStream }
{}

/// A stream that is refused is refused so, whatever comes.
pub fn refusal_ends()
    ensures { RefusalEnds }
{}

/// A frame is refused at one of its octets, one that was used.
pub fn refusals_are_inside()
    ensures { RefusalsAreInside }
{}

/// The first octet with which a stream is refused is the one at the place of its refusal, counted
/// from the end of the whole frames before.
pub fn refusals_are_at_offsets()
    ensures { RefusalsAreAtOffsets }
{}

/// No feed returns `Truncated`: [`finish`](crate::Decoder::finish) alone does.
pub fn feed_is_not_truncated()
    ensures { FeedIsNotTruncated }
{}

/// A decoder by the lenient profile never returns `Charset`.
pub fn lenient_has_no_charset()
    ensures { LenientHasNoCharset }
{}

/// If one goes on after a refusal, the frames up to the first refusal are as before, and it is one
/// of them.
pub fn going_on_changes_nothing_before()
    ensures { GoingOnChangesNothingBefore }
{}

/// Whatever pieces of a stream are fed, and whenever frames are cleared, all are delivered, in order.
pub fn calls_deliver_frames()
    ensures { CallsDeliverFrames }
{}
