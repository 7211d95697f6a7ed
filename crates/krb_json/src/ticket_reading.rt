//! The message or the Ticket that a line spells.

ghost use Rattle.std.specs.Prelude.{◌≡◌, ◌^◌, ◌<◌, ◌≤◌, ◌++◌, codes, false, vec_len, IfErr, IfOk, List, ℕ, Ok, Some, string_bytes};
ghost use Rattle.json.specs.Tree.{HasNumbers};
ghost use Rattle.json.specs.Value.{value_view};
ghost use Rattle.krb_msg.specs.Grammar.{ticket};
ghost use Rattle.krb_msg.specs.Nodes.{term_at};
ghost use Rattle.krb_msg.specs.Profiles.{profile_term};
ghost use Rattle.krb_msg.specs.Table.{IsNode};
ghost use Rattle.krb_json.specs.declared.wrong.Wrong.TheVariants.{Longer};
ghost use Rattle.krb_json.specs.Faults.{fault};
ghost use Rattle.krb_json.specs.Lines.{in_line};
ghost use Rattle.krb_json.specs.Tickets.{IsFaultIn, line_octets, ticket_spelled, value_octets};
ghost use Rattle.krb_json.specs.inner.Tickets.{ReadsOctets};

use crate::encryption::joined;
use crate::line_fault::{Fault, LineFault};
use crate::reading::{read_item, read_object, sole_member};
use crate::ticket::TICKET;
use crate::value_fault::ValueFault;
use crate::wrong::Wrong;
use json::{Error, Scratch, Value};
use krb_der::Profile;
use krb_judge::Names;
use krb_msg::grammar::{ROWS, Row};
use std::alloc::Global;

/// The node of a Ticket (RFC 4120, 5.3).
const LENIENT: u16 = Row::Ticket as u16;

/// The node of a Ticket of the strict profile.
const STRICT: u16 = Row::Ticket as u16 + ROWS as u16;

/// Returns the node of a Ticket of a profile.
fn ticket_node_in(profile: Profile) -> u16
    ensures known { IsNode result }
    ensures term { term_at result ≡ profile_term profile false ticket }
{
    match profile {
        Profile::Lenient => LENIENT,
        Profile::Strict => STRICT,
    }
}

/// Returns the DER octets of the message or the Ticket (RFC 4120, 5.3) of a profile that a line spells,
/// or the first fault of the line, as [`read_line`](crate::read_line) does: the one member of its
/// object may have the name `Ticket`.
pub fn read_line_or_ticket(
    alloc: Global,
    scratch: &mut Scratch,
    profile: Profile,
    limit: u32,
    line: &[u8],
) -> Result<Vec<u8>, LineFault>
    requires { limit < 2 ^ 31 }
    ensures octets { IfOk result (λ octets. line_octets profile limit line.now ≡ Ok octets.items) }
    ensures fault { IfErr result (IsFaultIn (line_octets profile limit line.now)) }
{
    match Value::from_slice(alloc, line, scratch) {
        Ok(value) => read_value(alloc, profile, limit, &value),
        Err(Error::Invalid) => Err(LineFault::NotJson),
        // Of the other errors only want of memory comes.
        Err(_) => Err(LineFault::Memory),
    }
}

/// Returns the DER octets of the message or the Ticket that a value spells, or what is wrong with it.
fn read_value(
    alloc: Global,
    profile: Profile,
    limit: u32,
    value: &Value,
) -> Result<Vec<u8>, LineFault>
    requires short { limit < 2 ^ 31 }
    requires numbers { HasNumbers (value_view value.now) }
    ensures { ReadsOctets (value_octets profile limit (Some (value_view value.now))) result }
{
    let Some((name, inner)) = sole_member(value) else {
        return Err(LineFault::NotAMessage);
    };
    if name == TICKET {
        read_ticket(alloc, profile, limit, inner)
    } else {
        read_object(alloc, profile, limit, value)
    }
}

/// Returns the DER octets of the Ticket that a value spells, or what is wrong with it.
fn read_ticket(
    alloc: Global,
    profile: Profile,
    limit: u32,
    value: &Value,
) -> Result<Vec<u8>, LineFault>
    requires short { limit < 2 ^ 31 }
    requires numbers { HasNumbers (value_view value.now) }
    ensures { ReadsOctets (in_line (ticket_spelled profile limit (value_view value.now))) result }
{
    let node = ticket_node_in(profile);
    let mut octets = Vec::new(alloc);
    match read_item(alloc, &mut octets, node, Names::Ticket, value) {
        Ok(()) => within(alloc, limit, octets),
        Err(ValueFault::Memory) => Err(LineFault::Memory),
        Err(ValueFault::At(Fault { path, wrong })) => Err(fault_in(alloc, &path, wrong)),
    }
}

/// Returns the fault of a path that follows the name of a Ticket.
fn fault_in(alloc: Global, path: &String, wrong: Wrong) -> LineFault
    ensures { IsFaultIn (in_line (fault {A = List ℕ} (codes "Ticket" ++ string_bytes path.now) wrong)) result }
{
    match joined(alloc, TICKET, path) {
        Ok(path) => LineFault::At(Fault { path, wrong }),
        Err(_) => LineFault::Memory,
    }
}

/// Returns the octets of a Ticket, if they are no more than a limit.
fn within(alloc: Global, limit: u32, octets: Vec<u8>) -> Result<Vec<u8>, LineFault>
    ensures octets { IfOk result (λ same. (same.items ≡ octets.items) × (vec_len octets ≤ limit)) }
    ensures fault { IfErr result (λ found. (limit < vec_len octets) × IsFaultIn (in_line (fault {A = List ℕ} (codes "Ticket") (Longer limit))) found) }
{
    if octets.len() <= limit as usize {
        return Ok(octets);
    }
    let path = String::new(alloc);
    Err(fault_in(alloc, &path, Wrong::Longer { limit }))
}
