//! The first octets of a length that is believed.

ghost use Rattle.std.specs.Prelude.{◌≡◌, ◌^◌, ◌<◌, ◌≤◌, false, length};
ghost use Rattle.krb_msg.specs.Grammar.{ticket};
ghost use Rattle.krb_msg.specs.Judgement.{judgement, term_judgement};
ghost use Rattle.krb_msg.specs.Nodes.{term_at};
ghost use Rattle.krb_msg.specs.Profiles.{profile_term};
ghost use Rattle.krb_msg.specs.Table.{IsNode};
ghost use Rattle.krb_items_run.specs.Items.{front_fault, front_listable, front_verdict, start_of};
ghost use Rattle.krb_items_run.specs.Seen.{listable_of};

use crate::listable::{Listable, at_place, find_listable};
use krb_der::{Profile, Refusal, Verdict, Why};
use krb_items::{Lies, judge_gss, judge_spnego};
use krb_judge::judge_in;
use krb_msg::grammar::{ROWS, Row};
use krb_scan::judge_item;

/// The octets of a frame's length.
const FRAME_LENGTH: u32 = 4;

/// The node of a Ticket (RFC 4120, 5.3), and that of the strict profile.
fn ticket_node(profile: Profile) -> u16
    ensures known { IsNode result }
    ensures term { term_at result ≡ profile_term profile false ticket }
{
    match profile {
        Profile::Lenient => Row::Ticket as u16,
        Profile::Strict => Row::Ticket as u16 + ROWS as u16,
    }
}

/// Returns what octets present of a message of a size decide.
fn judged(profile: Profile, size: u32, octets: &[u8]) -> Verdict
    requires short { size < 2 ^ 31 }
    requires present { length octets.now ≤ size }
    ensures { result ≡ judgement profile size octets.now }
{
    if size == 0 {
        Verdict::Open
    } else {
        judge_in(profile, size, octets)
    }
}

/// Returns what octets present of a Ticket of a size decide.
fn ticket_verdict(profile: Profile, size: u32, octets: &[u8]) -> Verdict
    requires short { size < 2 ^ 31 }
    requires present { length octets.now ≤ size }
    ensures { result ≡ term_judgement (profile_term profile false ticket) size octets.now }
{
    if size == 0 {
        Verdict::Open
    } else {
        judge_item(ticket_node(profile), size, octets)
    }
}

/// Returns what octets present of a frame of a size decide.
fn frame_verdict(profile: Profile, size: u32, octets: &[u8]) -> Verdict
    requires short { size < 2 ^ 31 }
    requires present { length octets.now ≤ size }
    ensures { result ≡ front_verdict profile Lies.Framed size octets.now }
{
    let left = size.saturating_sub(FRAME_LENGTH);
    let start = octets.len().min(FRAME_LENGTH as usize);
    judged(profile, left, &octets[start..])
}

/// Returns what octets present of a length that is believed decide.
fn front_verdict(profile: Profile, lies: Lies, size: u32, octets: &[u8]) -> Verdict
    requires short { size < 2 ^ 31 }
    requires present { length octets.now ≤ size }
    ensures { result ≡ front_verdict profile lies size octets.now }
{
    match lies {
        Lies::Framed => frame_verdict(profile, size, octets),
        Lies::Ticket => ticket_verdict(profile, size, octets),
        Lies::Alone => judged(profile, size, octets),
        Lies::Gss => judge_gss(profile, size, octets),
        Lies::Spnego(neg) => judge_spnego(profile, neg, size, octets),
    }
}

/// Returns the place of the first octet of a message.
fn start_of(lies: Lies) -> u32
    ensures { result ≡ start_of lies }
{
    match lies {
        Lies::Framed => FRAME_LENGTH,
        _ => 0,
    }
}

/// Returns what is refused of the octets that are there of a length that is believed, if something is.
fn front_fault(profile: Profile, lies: Lies, size: u32, octets: &[u8]) -> Option<Refusal>
    requires short { size < 2 ^ 31 }
    requires present { length octets.now ≤ size }
    ensures { result ≡ front_fault profile lies size octets.now }
{
    match front_verdict(profile, lies, size, octets) {
        Verdict::Whole => None,
        Verdict::Open => Some(Refusal {
            place: octets.len() as u32,
            why: Why::Truncated,
        }),
        Verdict::Refused(refusal) => Some(at_place(start_of(lies), refusal)),
    }
}

/// Returns what the first octets of a length that is believed are listed as, and what is refused of them:
/// as any octets, unless they are fewer.
pub(crate) fn front_listable(profile: Profile, lies: Lies, size: u32, octets: &[u8]) -> Listable
    requires short { size < 2 ^ 31 }
    requires present { length octets.now ≤ size }
    ensures { listable_of result ≡ front_listable profile lies size octets.now }
{
    let cut = Listable {
        lies,
        fault: front_fault(profile, lies, size, octets),
        ntlm: None,
    };
    if octets.len() < size as usize {
        return cut;
    }
    match find_listable(profile, octets) {
        None => cut,
        Some(found) => found,
    }
}
