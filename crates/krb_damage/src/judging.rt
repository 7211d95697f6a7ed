//! Three ways of judging whether octets are a message.

use krb_judge::judge;
use krb_scan::{Machine, Verdict};

/// How octets are judged.
#[derive(Clone, Copy)]
pub(crate) enum Judging {
    /// By `judge`.
    AtOnce,
    /// By a machine, octet by octet except inside strings.
    Step,
    /// By a machine, all octets at once.
    Take,
}

/// Judges octets one at a time, except those inside a string, which `run` takes, and returns the
/// verdict.
fn step_all(machine: &mut Machine, octets: &[u8]) -> Verdict {
    let mut rest = octets;
    // each turn takes at least one octet
    for _ in octets {
        let run = machine.run(rest);
        let Some([octet, after @ ..]) = rest.get(run..) else {
            break;
        };
        let Verdict::Open = machine.verdict() else {
            break;
        };
        machine.step(*octet);
        rest = after;
    }
    machine.verdict()
}

/// Returns whether octets are a message. The machine is cleared first.
pub(crate) fn is_whole(machine: &mut Machine, octets: &[u8], judging: Judging) -> bool {
    if octets.is_empty() || octets.len() > 2147483647 {
        return false;
    }
    let n = octets.len() as u32;
    let verdict = match judging {
        Judging::AtOnce => judge(n, octets),
        Judging::Step => {
            machine.clear(n);
            step_all(machine, octets)
        }
        Judging::Take => {
            machine.clear(n);
            machine.take(octets);
            machine.verdict()
        }
    };
    matches!(verdict, Verdict::Whole)
}
