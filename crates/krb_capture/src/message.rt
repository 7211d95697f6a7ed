//! Octets that are one message.

ghost use Rattle.std.specs.Prelude.{◌≡◌, ◌+◌, ◌-◌, ◌^◌, ◌<◌, ◌≤◌, length, IfOk, OnOk, string_bytes};
ghost use Rattle.std.specs.Option.{option_map};
ghost use Rattle.krb_record.specs.Refusals.{path_in};
ghost use Rattle.krb_capture.specs.Found.{Missing, with_found};
ghost use Rattle.krb_capture.specs.Messages.{cut_found, prefix_refusal, message_found, path_of, refused_found};

use crate::listing::Listing;
use krb_der::{Memory, Profile, Refusal, Verdict, Why};
use krb_flow::Lost;
use krb_judge::{judge_in, path, read_message_in};
use krb_record::{CaptureOrigin, Extent, Form};
use std::alloc::Global;

/// The greatest number of octets of a message.
const MOST_OCTETS: u64 = 2147483647;

/// Returns the path of the field that has the last of these octets of a message of `size` octets,
/// if records of the form show it.
#[tactic(auto, unfolding(crate::specs::Messages::path_of))]
pub(crate) fn path_of(
    alloc: Global,
    form: Form,
    profile: Profile,
    size: u64,
    prefix: &[u8],
) -> Result<Option<String>, Memory>
    requires present { length prefix.now ≤ size }
    ensures { IfOk result (λ path. path_in form (option_map string_bytes path) ≡ path_in form (path_of profile size prefix.now)) }
{
    if !form.shows_paths() || size > MOST_OCTETS {
        return Ok(None);
    }
    path(alloc, profile, size as u32, prefix)
}

/// Lists octets that are refused as a message of `size` octets, which follows `before` others of
/// a frame or a datagram.
pub(crate) fn list_refused(
    profile: Profile,
    octets: &[u8],
    size: u64,
    before: u32,
    extent: Extent,
    refusal: Refusal,
    origin: &CaptureOrigin,
    listing: &mut Listing<'_>,
) -> Result<(), Memory>
    requires present { length octets.now ≤ size }
    requires fits { before + refusal.place < 2 ^ 32 }
    ensures { OnOk result (listing.new ≡ with_found origin.now (refused_found profile extent before size octets.now refusal) listing.old) }
{
    let prefix = &octets[..octets.len().min(refusal.place as usize + 1)];
    let path = path_of(listing.allocator(), listing.form(), profile, size, prefix)?;
    let place = before + refusal.place;
    let why = refusal.why;
    listing.put_refusal(origin, Refusal { place, why }, path.as_deref(), extent)
}

/// Lists octets that follow `before` others of a frame or a datagram, as a message that is all
/// there.
#[tactic(auto, unfolding(crate::specs::Messages::message_found))]
pub(crate) fn list_message(
    profile: Profile,
    octets: &[u8],
    before: u32,
    extent: Extent,
    origin: &CaptureOrigin,
    listing: &mut Listing<'_>,
) -> Result<(), Memory>
    requires { before < 2 ^ 31 }
    ensures { OnOk result (listing.new ≡ with_found origin.now (message_found profile extent before octets.now) listing.old) }
{
    let size = octets.len() as u64;
    if size <= MOST_OCTETS && listing.put_message(origin, profile, octets)? {
        return Ok(());
    }
    let Err(refusal) = read_message_in(profile, octets) else {
        unreachable!()
    };
    list_refused(
        profile, octets, size, before, extent, refusal, origin, listing,
    )
}

/// Returns why the first octets of a message of `size` octets are refused, if they are.
fn prefix_refusal(profile: Profile, octets: &[u8], size: u64) -> Option<Refusal>
    requires some { 0 < size }
    requires present { length octets.now ≤ size }
    ensures { result ≡ prefix_refusal profile size octets.now }
{
    if size > MOST_OCTETS {
        return Some(Refusal {
            place: 0,
            why: Why::TooLong,
        });
    }
    match judge_in(profile, size as u32, octets) {
        Verdict::Refused(refusal) => Some(refusal),
        Verdict::Open | Verdict::Whole => None,
    }
}

/// Lists the first octets of a datagram that is a message of `size` octets, of which the others are
/// not there.
#[tactic(auto, unfolding(crate::specs::Messages::cut_found))]
pub(crate) fn list_cut_message(
    profile: Profile,
    octets: &[u8],
    size: u64,
    extent: Extent,
    origin: &CaptureOrigin,
    listing: &mut Listing<'_>,
) -> Result<(), Memory>
    requires some { 0 < size }
    requires present { length octets.now ≤ size }
    ensures { OnOk result (listing.new ≡ with_found origin.now (cut_found profile extent size octets.now) listing.old) }
{
    match prefix_refusal(profile, octets, size) {
        Some(refusal) => list_refused(profile, octets, size, 0, extent, refusal, origin, listing),
        None => list_missing(profile, octets, size, origin, listing),
    }
}

/// Lists that octets of a message of `size` octets are not there after these.
fn list_missing(
    profile: Profile,
    octets: &[u8],
    size: u64,
    origin: &CaptureOrigin,
    listing: &mut Listing<'_>,
) -> Result<(), Memory>
    requires present { length octets.now ≤ size }
    ensures { OnOk result (listing.new ≡ with_found origin.now (Missing (length octets.now) (size - length octets.now) (path_of profile size octets.now)) listing.old) }
{
    let path = path_of(listing.allocator(), listing.form(), profile, size, octets)?;
    let place = octets.len() as u64;
    let octets = size - place;
    listing.put_lost(origin, Lost { place, octets }, path.as_deref())
}
