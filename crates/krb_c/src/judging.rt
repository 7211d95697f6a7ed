//! Octets that are judged. Nothing here allocates.

ghost use Rattle.std.specs.Prelude.{◌≡◌, ◌+◌, ◌^◌, ◌<◌, ◌≤◌, length, take};
ghost use Rattle.krb_judge.specs.Parses.{refusal_of};
ghost use Rattle.krb_msg.specs.Judgement.{judgement};
ghost use Rattle.krb_c.specs.Judged.{Answers, frame_size, frame_verdict, front_verdict, whole_unless};
ghost use Rattle.krb_c.specs.Numbers.{limit_of, profile_of};
ghost use Rattle.krb_c.specs.inner.Frames.{after_length};

use crate::numbers::{limit_of, profile_of};
use krb_der::{Profile, Refusal, Why, why_number};
use krb_frame::HIGH_BIT;
use krb_judge::{Verdict, judge_in, read_message_in};
use krb_tool::Limit;

/// The greatest number of octets of a message.
pub(crate) const MOST_OCTETS: usize = 2147483647;

/// The number of octets of a frame's length (RFC 4120, 7.2.2).
const LENGTH_OCTETS: usize = 4;

/// What C is told if nothing is decided yet.
const MORE: u32 = 255;

/// Returns the first `size` octets, or all if there are fewer.
pub(crate) fn first_octets(octets: &[u8], size: usize) -> &[u8]
    ensures { result.now ≡ take size octets.now }
{
    &octets[..size.min(octets.len())]
}

/// Returns the verdict on a message of `size` octets by the first of them; octets after these are
/// not looked at.
pub(crate) fn front_verdict(profile: Profile, size: usize, octets: &[u8]) -> Verdict
    ensures { result ≡ front_verdict profile size octets.now }
{
    if size > MOST_OCTETS {
        return refused(0, Why::TooLong);
    }
    if size == 0 {
        return refused(0, Why::Empty);
    }
    message_verdict(profile, size as u32, first_octets(octets, size))
}

/// Returns the verdict on a message of `n` octets by those of them that are present. Where all are,
/// they are viewed, which takes a sixth of what a scan does.
fn message_verdict(profile: Profile, n: u32, present: &[u8]) -> Verdict
    requires some { 0 < n }
    requires short { n < 2 ^ 31 }
    requires present { length present.now ≤ n }
    ensures { result ≡ judgement profile n present.now }
{
    if present.len() < n as usize {
        return judge_in(profile, n, present);
    }
    whole_verdict(profile, present)
}

/// Returns the verdict that refuses the octet at a place.
fn refused(place: u32, why: Why) -> Verdict
    ensures { result ≡ Verdict.Refused (record { place = place; why = why }) }
{
    Verdict::Refused(Refusal { place, why })
}

/// Returns the verdict on octets that are all of a message.
fn whole_verdict(profile: Profile, octets: &[u8]) -> Verdict
    ensures { result ≡ whole_unless (refusal_of profile octets.now) }
{
    match read_message_in(profile, octets) {
        Ok(_) => Verdict::Whole,
        Err(refusal) => Verdict::Refused(refusal),
    }
}

/// Returns the verdict on a frame by its contents, of which there are `size` octets, and the first
/// of which are present.
fn contents_verdict(profile: Profile, size: u32, contents: &[u8]) -> Verdict
    requires some { 0 < size }
    requires short { size < 2 ^ 31 }
    ensures { result ≡ after_length (judgement profile size (take size contents.now)) }
{
    match message_verdict(profile, size, first_octets(contents, size as usize)) {
        Verdict::Refused(Refusal { place, why }) => refused(LENGTH_OCTETS as u32 + place, why),
        other => other,
    }
}

/// Returns the verdict on the frame with which a stream begins.
pub(crate) fn frame_verdict(profile: Profile, limit: Limit, stream: &[u8]) -> Verdict
    ensures { result ≡ frame_verdict profile limit stream.now }
{
    let Some((length, contents)) = stream.split_first_chunk::<LENGTH_OCTETS>() else {
        return Verdict::Open;
    };
    let size = u32::from_be_bytes(*length);
    if size >= HIGH_BIT {
        refused(3, Why::HighBit)
    } else if size > limit.get() {
        refused(3, Why::TooLong)
    } else if size == 0 {
        refused(3, Why::Empty)
    } else {
        contents_verdict(profile, size, contents)
    }
}

/// Returns how many octets the frame has with which a stream begins, with those of its length: 4 if
/// these are not there yet, and 0 if their high bit is set.
pub(crate) fn frame_size(stream: &[u8]) -> u32
    ensures { result ≡ frame_size stream.now }
{
    match stream.first_chunk::<LENGTH_OCTETS>() {
        None => LENGTH_OCTETS as u32,
        Some(length) => {
            let size = u32::from_be_bytes(*length);
            if size >= HIGH_BIT {
                0
            } else {
                LENGTH_OCTETS as u32 + size
            }
        }
    }
}

/// Returns the number of a verdict, and writes the place of a refusal.
fn answer(verdict: Verdict, place: &mut u32) -> u32
    ensures { Answers verdict place.old place.new result }
{
    match verdict {
        Verdict::Whole => 0,
        Verdict::Open => MORE,
        Verdict::Refused(refusal) => {
            *place = refusal.place;
            u32::from(why_number(refusal.why))
        }
    }
}

/// Judges octets as one message of a profile. Returns 0 if they are one, and else the number of the
/// reason, 1 to 17; then `place` is the octet at fault, counted from 0.
#[unsafe(no_mangle)]
pub extern "C" fn krbls_judge(profile: u32, octets: &[u8], place: &mut u32) -> u32
    ensures { Answers (whole_unless (refusal_of (profile_of profile) octets.now)) place.old place.new result }
{
    answer(whole_verdict(profile_of(profile), octets), place)
}

/// Judges the first octets of a message of `n` octets. Returns 0 if they are the whole message, 255
/// if nothing is decided yet, and else the number of the reason, 1 to 17; then `place` is the octet
/// at fault. Octets after the first `n` are not looked at.
#[unsafe(no_mangle)]
pub extern "C" fn krbls_front(profile: u32, n: usize, octets: &[u8], place: &mut u32) -> u32
    ensures { Answers (front_verdict (profile_of profile) n octets.now) place.old place.new result }
{
    answer(front_verdict(profile_of(profile), n, octets), place)
}

/// Judges the frame with which a stream begins (RFC 4120, 7.2.2). Returns 0 if it is whole and its
/// contents are a message, 255 if nothing is decided yet, and else the number of the reason; then
/// `place` is the octet at fault, counted from the first one of the length. `size` is how many
/// octets the frame has, with the four of its length: 4 if these are not there yet, and 0 if their
/// high bit is set.
#[unsafe(no_mangle)]
pub extern "C" fn krbls_frame(
    profile: u32,
    limit: u32,
    stream: &[u8],
    size: &mut u32,
    place: &mut u32,
) -> u32
    ensures judged { Answers (frame_verdict (profile_of profile) (limit_of limit) stream.now) place.old place.new result }
    ensures size { size.new ≡ frame_size stream.now }
{
    *size = frame_size(stream);
    answer(
        frame_verdict(profile_of(profile), limit_of(limit), stream),
        place,
    )
}
