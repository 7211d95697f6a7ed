//! The contents of a frame, as they come.

ghost use Rattle.std.specs.Prelude.{◌≡◌, ◌≢◌, ◌+◌, ◌<◌, ◌≤◌, ◌^◌, ◌++◌, true, [], length, vec_capacity, IfOk};
ghost use Rattle.krb_der.specs.declared.verdict.Verdict.TheVariants.{Open};
ghost use Rattle.krb_msg.specs.Grammar.{messages};
ghost use Rattle.krb_msg.specs.Judgement.{judgement};
ghost use Rattle.krb_scan.specs.Machine.{HasScanned, ledger_of, profile_of};
ghost use Rattle.krb_frame.specs.Deliveries.{IsReceived};
ghost use Rattle.krb_frame.specs.inner.Phases.{IsFedContents, IsEarly, status_by};
ghost use Rattle.krb_frame.specs.declared.decoder.Status.TheVariants as status;

use crate::decoder::{Fed, LENGTH_OCTETS, Status};
use crate::receiver::Receiver;
use krb_der::{Memory, Profile, Refusal, Verdict};
use krb_scan::Machine;
use std::alloc::Global;

/// The greatest number of contents octets whose memory is kept for the next frame: 4 MiB.
pub(crate) const CONTENTS_KEPT: usize = 1 << 22;

/// Uses octets of the contents of a frame of `size` octets, as many as are missing and come, up to
/// one that is refused. The machine looks at each of them once. If out of memory, none is used;
/// that cannot be if there is capacity for the whole frame.
pub(crate) fn take_contents(
    contents: &mut Vec<u8>,
    machine: &mut Machine,
    size: u32,
    piece: &[u8],
) -> Fed
    requires some { 0 < size }
    requires short { size < 2 ^ 31 }
    requires present { length contents.old.items ≤ size }
    requires undecided { judgement (profile_of machine.old) size contents.old.items ≡ Open }
    requires scanned { HasScanned (profile_of machine.old) machine.old size contents.old.items }
    ensures taken { IsFedContents (messages (profile_of machine.old)) size contents.old.items piece.now contents.new.items result }
    ensures scanned { HasScanned (profile_of machine.old) machine.new size contents.new.items }
    ensures profile { profile_of machine.new ≡ profile_of machine.old }
    ensures looks { ledger_of machine.new ≡ ledger_of machine.old + result.used }
    ensures capacity { vec_capacity contents.old ≤ vec_capacity contents.new }
    ensures enough { size ≤ vec_capacity contents.old → result.status ≢ status.Memory }
{
    let before = contents.len();
    let count = piece.len().min(size as usize - before);
    let octets = &piece[..count];
    if contents.extend_from_slice(octets).is_err() {
        return Fed {
            used: 0,
            status: Status::Memory,
        };
    }
    let used = machine.take(octets);
    contents.truncate(before + used);
    Fed {
        used,
        status: status_after(machine.verdict()),
    }
}

/// Delivers the message whose octets are contents and those that follow them, and returns whether
/// they are one. The contents are as before then.
pub(crate) fn deliver_contents<R: Receiver>(
    contents: &mut Vec<u8>,
    profile: Profile,
    octets: &[u8],
    receiver: &mut R,
) -> Result<bool, Memory>
    requires { length contents.old.items + length octets.now < 2 ^ 31 }
    ensures same { contents.new.items ≡ contents.old.items }
    ensures capacity { vec_capacity contents.old ≤ vec_capacity contents.new }
    ensures delivered { IfOk result (IsReceived R.Receives profile (contents.old.items ++ octets.now) receiver.old receiver.new) }
{
    let before = contents.len();
    contents.extend_from_slice(octets)?;
    let received = receiver.receive_contents(profile, contents.as_slice());
    contents.truncate(before);
    received
}

/// Returns what is answered if a machine decides so.
fn status_after(verdict: Verdict) -> Status
    requires { IsEarly verdict }
    ensures { result ≡ status_by verdict }
{
    match verdict {
        Verdict::Open => Status::More,
        Verdict::Whole => Status::Ready,
        Verdict::Refused(Refusal { place, why }) => Status::Refused(Refusal {
            place: LENGTH_OCTETS as u32 + place,
            why,
        }),
    }
}

/// Forgets contents. The memory of many is freed, if it is not to stay.
pub(crate) fn clear_contents(contents: &mut Vec<u8>, alloc: Global, stays: bool)
    ensures none { contents.new.items ≡ [] }
    ensures capacity { stays ≡ true → vec_capacity contents.old ≤ vec_capacity contents.new }
{
    if !stays && contents.len() > CONTENTS_KEPT {
        *contents = Vec::new(alloc);
    } else {
        contents.clear();
    }
}
