//! The field at fault.

ghost use Rattle.std.specs.Prelude.{◌≡◌, IfOk, string_bytes};
ghost use Rattle.std.specs.Option.{option_map};
ghost use Rattle.krb_c.specs.Numbers.{profile_of};
ghost use Rattle.krb_c.specs.Paths.{fault_path};
ghost use Rattle.krb_c.specs.Written.{IsGiven};

use crate::judging::{MOST_OCTETS, first_octets, front_verdict};
use crate::numbers::profile_of;
use crate::writing::{MEMORY, copy_out};
use krb_der::Memory;
use krb_judge::{Profile, Verdict, path};
use std::alloc::Global;

/// Returns the path of the field at fault in a message of `n` octets, by the first of them, if
/// there is one.
fn fault_path(
    alloc: Global,
    profile: Profile,
    n: usize,
    octets: &[u8],
) -> Result<Option<String>, Memory>
    ensures { IfOk result (λ found. option_map string_bytes found ≡ fault_path profile n octets.now) }
{
    if n > MOST_OCTETS {
        return Ok(None);
    }
    let present = first_octets(octets, n);
    match front_verdict(profile, n, octets) {
        Verdict::Whole => Ok(None),
        Verdict::Open => path(alloc, profile, n as u32, present),
        Verdict::Refused(refusal) => {
            let prefix = first_octets(present, refusal.place as usize + 1);
            path(alloc, profile, n as u32, prefix)
        }
    }
}

/// Writes the path of the field at fault in a message of `n` octets, of which these are the first,
/// by the names of RFC 4120, such as `AS-REQ.req-body.nonce`: of octets that are refused the field
/// with the refused octet, and of those that are not all there the innermost one that is open.
/// Returns 0 if there is one, 1 if there is none, and then it has no octets, and 3 if memory ran
/// out, and then nothing is written.
#[unsafe(no_mangle)]
pub extern "C" fn krbls_path(
    alloc: Global,
    profile: u32,
    n: usize,
    octets: &[u8],
    text: &mut [u8],
    size: &mut usize,
) -> u32
    ensures { IsGiven (fault_path (profile_of profile) n octets.now) text.old text.new size.old size.new result }
{
    match fault_path(alloc, profile_of(profile), n, octets) {
        Ok(Some(found)) => {
            copy_out(found.as_bytes(), text, size);
            0
        }
        Ok(None) => {
            *size = 0;
            1
        }
        Err(Memory) => MEMORY,
    }
}
