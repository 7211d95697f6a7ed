//! The text of a Ticket, from its octets.

ghost use Rattle.std.specs.Prelude.{◌≡◌, ◌^◌, ◌<◌, ◌++◌, length, IfOk, OnOk};
ghost use Rattle.krb_msg.specs.Grammar.{ticket};
ghost use Rattle.krb_msg.specs.Nodes.{term_at};
ghost use Rattle.krb_msg.specs.Table.{IsNode};
ghost use Rattle.krb_msg.specs.Term.{Fits, Value, der};
ghost use Rattle.krb_json.specs.Tickets.{ticket_text};
ghost use Rattle.krb_json.specs.inner.Tickets.{PutsTicket};

use crate::writing::put_contents;
use json::Writer;
use krb_der::Memory;
use krb_judge::Names;
use krb_msg::first_item;
use krb_msg::grammar::{Row, tag_of};
use std::alloc::{AllocError, Global};

/// The name of a Ticket in an object.
pub(crate) const TICKET: &str = "Ticket";

/// The node of a Ticket (RFC 4120, 5.3).
const NODE: u16 = Row::Ticket as u16;

/// Returns the node of a Ticket.
fn ticket_node() -> u16
    ensures known { IsNode result }
    ensures term { term_at result ≡ ticket }
{
    NODE
}

/// Appends the text of the Ticket (RFC 4120, 5.3) whose DER octets are: its JSON (RFC 8259), an object
/// of one member, without blanks.
pub fn put_ticket_text(alloc: Global, line: Vec<u8>, octets: &[u8]) -> Result<Vec<u8>, Memory>
    requires { length octets.now < 2 ^ 31 }
    ensures { IfOk result (λ text. (value : Value ticket) → Fits ticket value → der ticket value ≡ octets.now → text.items ≡ line.items ++ ticket_text value) }
{
    let mut out = Writer::new(line);
    put_ticket(alloc, &mut out, octets)?;
    Ok(out.into_inner())
}

/// Appends the JSON of a Ticket.
fn put_ticket(alloc: Global, out: &mut Writer, octets: &[u8]) -> Result<(), AllocError>
    requires { length octets.now < 2 ^ 31 }
    ensures before { out.new.before ≡ out.old.before }
    ensures written { OnOk result (PutsTicket octets.now out.old.tokens out.new.tokens) }
{
    let node = ticket_node();
    let Some((contents, _rest)) = first_item(tag_of(node), octets) else {
        return Ok(());
    };
    out.begin_object()?;
    out.key(TICKET)?;
    let mut room = Vec::with_capacity(alloc, 2 * octets.len())?;
    put_contents(alloc, &mut room, out, node, Names::Ticket, contents)?;
    out.end_object()
}
