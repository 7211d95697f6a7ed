//! The items of octets, up to what is refused of them.

ghost use Rattle.std.specs.Prelude.{◌≡◌, ◌^◌, ◌<◌, length, IfOk, IfSome};
ghost use Rattle.krb_items.specs.Items.{frame_items, frame_size};
ghost use Rattle.krb_items.specs.Reached.{announced, believed, is_of_length, items_as, reached, right, seen};
ghost use Rattle.krb_items.specs.Records.{Lists};
ghost use Rattle.krb_items.specs.Seen.{context_of, limits_of};

use crate::begun::Begun;
use crate::head::{from, front, read_head};
use crate::label::{begin_of, last_of};
use crate::listing::{End, Listed, Shown, Source};
use crate::shape::NegToken;
use crate::tag::Tag;
use crate::walk::{Here, LEVELS};
use krb_der::{Refusal, Why, number_of};
use krb_record::{Label, TextBuffer};
use krb_source::Layer;
use std::alloc::{AllocError, Global};

/// The greatest number of octets of a message.
const MOST: u64 = 2147483647;

/// What octets are listed as.
#[derive(Clone, Copy)]
pub enum Lies {
    /// A message by itself.
    Alone,
    /// A Ticket.
    Ticket,
    /// A frame of a message.
    Framed,
    /// A GSS-API token.
    Gss,
    /// A token of SPNEGO.
    Spnego(NegToken),
}

/// Returns the length that a frame's first four octets are, if they are there.
fn frame_size(octets: &[u8]) -> Option<u64>
    ensures size { result ≡ frame_size octets.now }
    ensures small { IfSome result (λ size. size < 2 ^ 40) }
{
    match octets.split_first_chunk::<4>() {
        None => None,
        Some((four, _)) => Some(number_of(four)),
    }
}

impl<'a> Source<'a> {
    /// Lists a frame.
    fn list_frame(self, out: &mut Listed, octets: &'a [u8]) -> Result<End, AllocError>
        requires { length octets.now < 2 ^ 39 }
        ensures { IfOk result (Lists (context_of self.entry) (frame_items (limits_of self.entry) octets.now) out.old out.new) }
    {
        let frame = Here::new(&[Layer::Frame], "", 0, 0);
        let mut begun = Begun::new(self.alloc, frame);
        let size = frame_size(octets);
        begun.add(Tag::Frame, front(octets, 4), size)?;
        if size.is_none() || begun.next > self.limit {
            return self.cut(out, None, &begun, false);
        }
        self.list_container(out, "frame", &begun)?;
        let inside = Here::new(&[Layer::Frame], "", 4, 1);
        self.list_message(out, inside, from(octets, 4))
    }

    /// Lists octets as what they are.
    fn list_as(self, out: &mut Listed, lies: Lies) -> Result<End, AllocError>
        requires short { length self.octets.now < 2 ^ 32 }
        ensures { IfOk result (Lists (context_of self.entry) (items_as lies (limits_of self.entry) self.entry.octets.now) out.old out.new) }
    {
        let octets = self.octets;
        match lies {
            Lies::Alone => self.list_message(out, Here::new(&[], "", 0, 0), octets),
            Lies::Ticket => self.list_ticket(out, octets),
            Lies::Framed => self.list_frame(out, octets),
            Lies::Gss => {
                let here = Here::new(&[Layer::Gss], "GSS", 0, 0);
                self.gss(out, LEVELS, here, octets)
            }
            Lies::Spnego(neg) => {
                let here = Here::new(&[Layer::Spnego], "SPNEGO", 0, 0);
                self.spnego(out, LEVELS, neg, here, octets)
            }
        }
    }
}

/// How many octets the first head has, and how many octets there are by its length, with it.
#[derive(Clone, Copy)]
struct FirstHead {
    header: u64,
    all: u64,
}

/// Returns what the first head of octets announces.
fn announced(lies: Lies, octets: &[u8]) -> Option<FirstHead>
    ensures { result ≡ announced lies octets.now }
{
    match lies {
        Lies::Alone | Lies::Ticket | Lies::Gss | Lies::Spnego(_) => {
            let head = read_head(octets)?;
            Some(FirstHead {
                header: head.header,
                all: head.header + head.size,
            })
        }
        Lies::Framed => {
            let size = frame_size(octets)?;
            Some(FirstHead {
                header: 4,
                all: 4 + size,
            })
        }
    }
}

/// Returns whether a length is refused for what is there.
fn is_of_length(why: Why) -> bool
    ensures { result ≡ is_of_length why }
{
    matches!(why, Why::Overrun | Why::Loose)
}

/// Returns how many octets there are by the first length, if what is refused is its last octet, since
/// there are not so many: they were cut, or more follows.
pub fn believed(lies: Lies, octets: &[u8], refusal: Refusal) -> Option<u32>
    ensures { result ≡ believed lies octets.now refusal }
{
    let announced = announced(lies, octets)?;
    let place = u64::from(refusal.place);
    if is_of_length(refusal.why) && announced.header == place + 1 && announced.all <= MOST {
        Some(announced.all as u32)
    } else {
        None
    }
}

/// Returns how many octets are right, if something is refused of them.
fn right(octets: &[u8], fault: Option<Refusal>) -> u64
    ensures { result ≡ right fault octets.now }
{
    match fault {
        None => octets.len() as u64,
        Some(refusal) => match refusal.why {
            Why::Missing => u64::from(refusal.place) + 1,
            _ => u64::from(refusal.place),
        },
    }
}

/// Returns octets up to and with one that is refused.
fn seen(octets: &[u8], fault: Option<Refusal>) -> &[u8]
    ensures { result.now ≡ seen fault octets.now }
{
    match fault {
        None => octets,
        Some(refusal) => front(octets, u64::from(refusal.place) + 1),
    }
}

/// Lists the items of octets after a text: all of them, or, if something is refused, those up to
/// there and the item at fault.
#[tactic(auto, unfolding(crate::specs::Reached::reached))]
pub fn list_octets(
    alloc: Global,
    label: &Label,
    text: TextBuffer,
    lies: Lies,
    octets: &[u8],
    fault: Option<Refusal>,
) -> Result<Listed, AllocError>
    requires short { length octets.now < 2 ^ 32 }
    ensures { IfOk result (λ listed. listed ≡ reached label.now text lies octets.now fault) }
{
    let mut out = Listed {
        text,
        count: 0,
        shown: Shown {
            from: 0,
            hides: false,
        },
    };
    let begin = begin_of(alloc, label)?;
    let last = last_of(alloc, label)?;
    let source = Source {
        alloc,
        form: label.form(),
        begin: begin.as_str(),
        last: last.as_str(),
        octets: seen(octets, fault),
        limit: right(octets, fault),
        fault,
    };
    source.list_as(&mut out, lies)?;
    Ok(out)
}
