//! Messages, and frames of messages, that are cut or in which an octet is changed.

ghost use Rattle.std.specs.Prelude.{◌^◌, ◌<◌, length};

use crate::Counts;
use crate::ends::Run;
use crate::scanning::scanned;
use krb_codec::encode;
use krb_der::{Profile, Refusal, Verdict, Why};
use krb_frame::{Decoder, Limit, Status};
use krb_judge::judge_in;
use krb_msg::Message;
use krb_values::{ParseFault, parse_in};
use std::alloc::Global;

/// The number of octets of a frame before its message.
const LENGTH_OCTETS: usize = 4;

/// Returns what `judge_in` answers to all octets of a slice, if the prefixes of up to `open` octets
/// are open. Returns `None` if its answers do not agree: each prefix has to be open until one octet
/// refuses, and refused by that octet from then on, and all octets together are not open.
fn judged(profile: Profile, octets: &[u8], open: usize) -> Option<Verdict>
    requires { length octets.now < 2 ^ 31 }
{
    let n = octets.len();
    let mut refusal = None;
    for last in open..n {
        match (refusal, judge_in(profile, n as u32, &octets[..last + 1])) {
            (None, Verdict::Open) if last + 1 < n => {}
            (None, Verdict::Whole) if last + 1 == n => return Some(Verdict::Whole),
            (None, Verdict::Refused(found)) if found.place as usize == last => {
                refusal = Some(found);
            }
            (Some(first), Verdict::Refused(found)) if found == first => {}
            _ => return None,
        }
    }
    Some(Verdict::Refused(refusal?))
}

/// Returns whether octets are those of a message.
fn is_encoded(alloc: Global, message: &Message, octets: &[u8]) -> bool {
    match encode(alloc, message) {
        Ok(same) => same.as_slice() == octets,
        Err(_) => false,
    }
}

/// Returns what `parse_in` answers, or `None` if out of memory or if the message has other octets.
fn parsed(alloc: Global, profile: Profile, octets: &[u8]) -> Option<Verdict> {
    match parse_in(alloc, profile, octets) {
        Ok(message) => {
            let comes_again = is_encoded(alloc, &message, octets);
            drop(message);
            comes_again.then_some(Verdict::Whole)
        }
        Err(ParseFault::Refused(refusal)) => Some(Verdict::Refused(refusal)),
        Err(ParseFault::Memory) => None,
    }
}

/// Returns the verdict that octets get by `judge_in` of each prefix, by `parse_in` and by scanners,
/// or `None` if these differ, or out of memory.
pub(crate) fn verdict(
    alloc: Global,
    profile: Profile,
    octets: &[u8],
    open: usize,
) -> Option<Verdict> {
    if octets.is_empty() || octets.len() > 2147483647 {
        return None;
    }
    let verdict = judged(profile, octets, open)?;
    let is_one = parsed(alloc, profile, octets)? == verdict
        && scanned(alloc, profile, octets)? == verdict;
    is_one.then_some(verdict)
}

/// What a decoder answers.
#[derive(Clone, Copy, PartialEq, Eq)]
struct Answer {
    /// How many octets were used.
    used: usize,
    status: Status,
    /// What `finish` refuses if the stream ends there.
    end: Option<Refusal>,
}

/// Returns what a decoder answers that is fed octets in pieces of a size.
fn fed(alloc: Global, profile: Profile, octets: &[u8], size: usize) -> Answer
    requires { 0 < size }
{
    let mut decoder = Decoder::with_profile(alloc, Limit::DEFAULT, profile);
    let mut used = 0usize;
    let mut status = Status::More;
    for piece in octets.chunks(size) {
        if let Status::More = status {
            let fed = decoder.feed(piece);
            used = used.saturating_add(fed.used);
            status = fed.status;
        }
    }
    let end = decoder.finish().err();
    Answer { used, status, end }
}

/// Returns the answer of decoders that are fed all octets at once and one at a time, or `None` if
/// these differ.
fn answered(alloc: Global, profile: Profile, octets: &[u8]) -> Option<Answer> {
    let by_octets = fed(alloc, profile, octets, 1);
    let at_once = fed(alloc, profile, octets, octets.len().max(1));
    (at_once == by_octets).then_some(by_octets)
}

/// Returns what a decoder has to answer to the octets of a frame, if `verdict` is the verdict on
/// those of its message.
fn wanted(verdict: Verdict, octets: &[u8]) -> Answer {
    let used = octets.len();
    match verdict {
        Verdict::Open => {
            let truncated = Refusal {
                place: used.min(2147483647) as u32,
                why: Why::Truncated,
            };
            Answer {
                used,
                status: Status::More,
                end: (used > 0).then_some(truncated),
            }
        }
        Verdict::Whole => Answer {
            used,
            status: Status::Ready,
            end: None,
        },
        Verdict::Refused(Refusal { place, why }) => {
            let place = place.saturating_add(LENGTH_OCTETS as u32);
            let refusal = Refusal { place, why };
            Answer {
                used: (place as usize).saturating_add(1),
                status: Status::Refused(refusal),
                end: Some(refusal),
            }
        }
    }
}

/// Returns at how many places a stream of one frame may end, as a decoder and a listing say: before
/// the frame and after it; elsewhere it is truncated. Returns 0 for a frame that is refused.
pub(crate) fn prefixes(alloc: Global, profile: Profile, frame: &[u8]) -> Option<u64> {
    if verdict(alloc, profile, frame.get(LENGTH_OCTETS..)?, 0)? != Verdict::Whole {
        return Some(0);
    }
    let mut ends = 0u64;
    for count in 0..=frame.len() {
        let front = &frame[..count];
        let is_whole = count == frame.len();
        let verdict = if is_whole {
            Verdict::Whole
        } else {
            Verdict::Open
        };
        let answer = answered(alloc, profile, front)?;
        let listing = Run::Stream(profile).listing(alloc, front)?;
        let messages = if is_whole { 1 } else { 0 };
        let last = match answer.end {
            Some(Refusal { place, .. }) => {
                format!(in alloc; "refused messages=0 place={place} why=16 Truncated\n").ok()?
            }
            None => format!(in alloc; "end messages={messages}\n").ok()?,
        };
        let is_listed = listing.as_slice().ends_with(last.as_bytes())
            && (is_whole || listing.len() == last.len());
        if answer != wanted(verdict, front) || !is_listed {
            return None;
        }
        if answer.end.is_none() {
            ends = ends.saturating_add(1);
        }
    }
    Some(ends)
}

/// Returns what a frame is if the octet at a place is changed, or `None` if answers differ.
pub(crate) fn changed(
    alloc: Global,
    profile: Profile,
    frame: &[u8],
    place: usize,
) -> Option<Status> {
    let answer = answered(alloc, profile, frame)?;
    if place >= LENGTH_OCTETS {
        let message = frame.get(LENGTH_OCTETS..)?;
        // the octets before the changed one are open, up to the one that is refused
        let last = place.min(answer.used.saturating_sub(1));
        let verdict = verdict(alloc, profile, message, last.saturating_sub(LENGTH_OCTETS))?;
        if wanted(verdict, frame) != answer {
            return None;
        }
    }
    Some(answer.status)
}
