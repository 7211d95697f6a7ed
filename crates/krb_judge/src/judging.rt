//! What the octets present of a message decide: a machine scans them.

ghost use Rattle.std.specs.Prelude.{◌≡◌, ◌^◌, ◌<◌, ◌≤◌, length};
ghost use Rattle.krb_msg.specs.Judgement.{judgement};

use krb_der::{Profile, Verdict};
use krb_scan::Machine;

/// Returns what the octets present of a message of `n` octets decide, by the lenient profile.
pub fn judge(n: u32, front: &[u8]) -> Verdict
    requires some { 0 < n }
    requires short { n < 2 ^ 31 }
    requires present { length front.now ≤ n }
    ensures { result ≡ judgement Profile.Lenient n front.now }
{
    judge_in(Profile::Lenient, n, front)
}

/// Returns what the octets present of a message of `n` octets decide, by a profile.
pub fn judge_in(profile: Profile, n: u32, front: &[u8]) -> Verdict
    requires some { 0 < n }
    requires short { n < 2 ^ 31 }
    requires present { length front.now ≤ n }
    ensures { result ≡ judgement profile n front.now }
{
    let mut machine = Machine::new(profile, n);
    machine.take(front);
    machine.verdict()
}
