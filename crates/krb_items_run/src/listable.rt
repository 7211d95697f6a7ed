//! What octets are listed as, and what is refused of them.

ghost use Rattle.std.specs.Prelude.{◌≡◌, ◌+◌, ◌^◌, ◌<◌, length};
ghost use Rattle.std.specs.Option.{option_map};
ghost use Rattle.krb_judge.specs.Parses.{refusal_of, ticket_refusal};
ghost use Rattle.krb_items_run.specs.Items.{at_place, layer_listable, lies_in, listable, neg_in};
ghost use Rattle.krb_items_run.specs.Seen.{listable_of};

use krb_der::{Profile, Refusal};
use krb_items::{Lies, NegToken};
use krb_judge::law::refusals_are_inside;
use krb_judge::{read_message_in, read_ticket_in};
use krb_token::{Found, Layer, open};

/// What octets are listed as, and what is refused of them.
#[derive(Clone, Copy)]
pub(crate) struct Listable {
    pub(crate) lies: Lies,
    pub(crate) fault: Option<Refusal>,
    /// The place of a message of NTLM, from which on nothing is listed.
    pub(crate) ntlm: Option<u32>,
}

/// Returns which token of SPNEGO octets begin with.
fn neg_in(octets: &[u8]) -> NegToken
    ensures { result ≡ neg_in octets.now }
{
    match octets.first() {
        Some(0xA1) => NegToken::Response,
        _ => NegToken::Init,
    }
}

/// Returns what octets in layers are listed as, if there are some, or else a message by itself.
fn lies_in(layers: &[Layer], octets: &[u8]) -> Lies
    ensures { result ≡ lies_in layers.now octets.now }
{
    match layers.first() {
        None => Lies::Alone,
        Some(Layer::Frame) => Lies::Framed,
        Some(Layer::Gss) => Lies::Gss,
        Some(Layer::Spnego) => Lies::Spnego(neg_in(octets)),
    }
}

/// Returns the refusal of octets of which the first is at a place.
pub(crate) fn at_place(place: u32, refusal: Refusal) -> Refusal
    requires { place + refusal.place < 2 ^ 32 }
    ensures { result ≡ at_place place refusal }
{
    Refusal {
        place: place + refusal.place,
        why: refusal.why,
    }
}

/// Returns what is refused of a message whose first octet is at a place, if something is.
fn message_fault(profile: Profile, place: u32, octets: &[u8]) -> Option<Refusal>
    requires { place + length octets.now < 2 ^ 31 }
    ensures { result ≡ option_map (at_place place) (refusal_of profile octets.now) }
{
    match read_message_in(profile, octets) {
        Ok(_) => None,
        Err(refusal) => {
            refusals_are_inside();
            Some(at_place(place, refusal))
        }
    }
}

/// Returns what is refused of a Ticket, if something is.
fn ticket_fault(profile: Profile, octets: &[u8]) -> Option<Refusal>
    ensures { result ≡ ticket_refusal profile octets.now }
{
    match read_ticket_in(profile, octets) {
        Ok(_) => None,
        Err(refusal) => Some(refusal),
    }
}

/// Returns what octets are listed as that lie in layers, if they lie in some.
fn layer_listable(
    layers: &[Layer],
    octets: &[u8],
    fault: Option<Refusal>,
    ntlm: Option<u32>,
) -> Option<Listable>
    ensures { option_map listable_of result ≡ layer_listable layers.now octets.now fault ntlm }
{
    match layers.first() {
        None => None,
        Some(_) => Some(Listable {
            lies: lies_in(layers, octets),
            fault,
            ntlm,
        }),
    }
}

/// Returns what octets are listed as, and what is refused of them. Of a message of NTLM by itself
/// nothing is listed.
pub(crate) fn find_listable(profile: Profile, octets: &[u8]) -> Option<Listable>
    requires { length octets.now < 2 ^ 31 }
    ensures { option_map listable_of result ≡ listable profile octets.now }
{
    let opened = open(octets);
    let layers = opened.layers;
    match opened.found {
        Found::Message {
            place,
            octets: message,
        } => Some(Listable {
            lies: lies_in(layers, octets),
            fault: message_fault(profile, place, message),
            ntlm: None,
        }),
        Found::Ticket(ticket) => Some(Listable {
            lies: Lies::Ticket,
            fault: ticket_fault(profile, ticket),
            ntlm: None,
        }),
        Found::Ntlm { place } => layer_listable(layers, octets, None, Some(place)),
        Found::Refused { refusal, .. } => layer_listable(layers, octets, Some(refusal), None),
    }
}
