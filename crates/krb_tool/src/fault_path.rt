//! The path of the field at fault, of what is refused or cut.

ghost use Rattle.std.specs.Prelude.{◌≡◌, ◌<◌, ◌≤◌, ◌^◌, length, IfErr, IfOk, string_bytes};
ghost use Rattle.std.specs.Option.{option_map};
ghost use Rattle.krb_judge.specs.Paths.{message_path};
ghost use Rattle.krb_record.specs.Refusals.{known_path};
ghost use Rattle.krb_tool.specs.Paths.{frame_extent, frame_path, refused_path};

use krb_der::{Memory, Profile, Refusal};
use krb_frame::Decoder;
use krb_judge::path;
use krb_record::{Extent, Form};
use krb_run::RunFault;
use std::alloc::Global;

/// The greatest number of octets of a message.
const MOST_OCTETS: usize = 2147483647;

/// Returns the path of the field at fault in a message of `size` octets, by those up to the refused
/// one, if records of the form show it.
fn shown_path(
    alloc: Global,
    form: Form,
    profile: Profile,
    size: u32,
    front: &[u8],
) -> Result<Option<String>, Memory>
    requires short { size < 2 ^ 31 }
    requires present { length front.now ≤ size }
    ensures { IfOk result (λ path. known_path form (option_map string_bytes path) ≡ known_path form (message_path profile size front.now)) }
{
    if !form.shows_paths() {
        return Ok(None);
    }
    path(alloc, profile, size, front)
}

/// Returns the path of the field at fault in the frame that a decoder refused or has a part of, as a
/// message by a profile, if records of the form show it. The one error is running out of memory.
pub fn frame_path(
    alloc: Global,
    form: Form,
    profile: Profile,
    decoder: &Decoder,
) -> Result<Option<String>, Memory>
    ensures { IfOk result (λ path. known_path form (option_map string_bytes path) ≡ known_path form (frame_path profile decoder.now.octets)) }
{
    match decoder.partial() {
        None => Ok(None),
        Some(partial) => shown_path(alloc, form, profile, partial.size, partial.octets),
    }
}

/// Returns where the frame is that a decoder refused or has a part of, which begins at an offset,
/// and the length that it announces.
pub(crate) fn frame_extent(offset: u64, decoder: &Decoder) -> Extent
    ensures { result ≡ frame_extent offset decoder.now.octets }
{
    let length = match decoder.announced() {
        None => None,
        Some(length) => Some(u64::from(length)),
    };
    Extent { at: offset, length }
}

/// Returns the path of the field at fault in octets that are refused as a message, if records of the
/// form show it. Of more than 2147483647 octets there is none. The one error is running out of memory.
pub fn refused_path(
    alloc: Global,
    form: Form,
    profile: Profile,
    octets: &[u8],
    refusal: Refusal,
) -> Result<Option<String>, RunFault>
    ensures path { IfOk result (λ path. known_path form (option_map string_bytes path) ≡ known_path form (refused_path profile octets.now refusal)) }
    ensures fault { IfErr result (λ e. e ≡ RunFault.Memory) }
{
    if octets.len() > MOST_OCTETS {
        return Ok(None);
    }
    let prefix = (refusal.place as usize + 1).min(octets.len());
    Ok(shown_path(alloc, form, profile, octets.len() as u32, &octets[..prefix])?)
}
