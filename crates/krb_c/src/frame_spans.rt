//! Where frames lie in a stream.

ghost use Rattle.std.specs.Prelude.{◌≡◌, ◌≤◌, ◌<◌, ◌^◌, ◌==◌, length, IfOk, OnOk};
ghost use Rattle.krb_c.specs.Spans.{frame_at, other_and, refused_end, stream_spans};
ghost use Rattle.krb_c.specs.inner.Adding.{Adds, AddsFirst, IsWithin};

use crate::judging::{frame_size, frame_verdict};
use crate::spans::Spans;
use krb_judge::{Profile, Verdict};
use krb_tool::Limit;
use std::alloc::AllocError;

/// The number of octets of a frame's length (RFC 4120, 7.2.2).
const LENGTH_OCTETS: usize = 4;

/// Returns where a frame ends that is refused and begins at a place: at the end of all, if its length is
/// not known, or says no less.
fn refused_end(begin: usize, size: usize, all: usize) -> usize
    requires begins { begin ≤ all }
    requires short { size < 2 ^ 32 }
    requires all { all < 2 ^ 63 }
    ensures end { result ≡ refused_end begin size all }
    ensures within { result ≤ all }
{
    if size == 0 {
        all
    } else {
        (begin + size).min(all)
    }
}

/// Adds what is no whole frame, and may end at a place: the end of the stream, or what is refused.
/// Returns where the next frame begins, or nothing after the last record.
fn put_other(
    spans: &mut Spans,
    is_end: bool,
    goes_on: bool,
    begin: usize,
    end: usize,
    all: usize,
) -> Result<Option<usize>, AllocError>
    requires { end ≤ all }
    ensures added { IfOk result (AddsFirst (other_and end is_end goes_on begin all) spans.old spans.new) }
    ensures within { IfOk result (IsWithin all) }
{
    if is_end {
        spans.put(begin, begin)?;
        return Ok(None);
    }
    if !goes_on {
        spans.put_refused(begin, all)?;
        return Ok(None);
    }
    spans.put_refused(begin, end)?;
    Ok(Some(end))
}

/// Adds the frame with which a stream goes on at a place. Returns where the next one begins, or nothing
/// after the last record.
fn put_frame(
    spans: &mut Spans,
    profile: Profile,
    limit: Limit,
    goes_on: bool,
    stream: &[u8],
    begin: usize,
) -> Result<Option<usize>, AllocError>
    requires { begin ≤ length stream.now }
    ensures added { IfOk result (AddsFirst (frame_at profile limit goes_on stream.now begin) spans.old spans.new) }
    ensures within { IfOk result (IsWithin (length stream.now)) }
{
    let all = stream.len();
    let (_, rest) = stream.split_at(begin);
    let size = frame_size(rest) as usize;
    let is_end = rest.is_empty();
    match frame_verdict(profile, limit, rest) {
        Verdict::Whole => {
            let end = (begin + size).min(all);
            spans.put(begin + LENGTH_OCTETS, end)?;
            Ok(Some(end))
        }
        Verdict::Open => put_other(spans, is_end, goes_on, begin, all, all),
        Verdict::Refused(_) => {
            let end = refused_end(begin, size, all);
            put_other(spans, is_end, goes_on, begin, end, all)
        }
    }
}

/// Adds the frames of a stream, and where it ends: each message after its length, and of what is
/// refused the whole frame.
pub(crate) fn put_stream(
    spans: &mut Spans,
    profile: Profile,
    limit: Limit,
    goes_on: bool,
    stream: &[u8],
) -> Result<(), AllocError>
    ensures { OnOk result (Adds (stream_spans profile limit goes_on stream.now) spans.old spans.new) }
{
    let mut place = Some(0);
    'frames: for _index in 0..stream.len() + 1 {
        let Some(begin) = place else {
            return Ok(());
        };
        place = put_frame(spans, profile, limit, goes_on, stream, begin)?;
    }
    Ok(())
}
