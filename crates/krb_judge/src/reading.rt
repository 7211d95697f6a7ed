//! Reading messages, Tickets and METHOD-DATA as views of their octets.

ghost use Rattle.std.specs.Prelude.{◌≡◌, ◌≢◌, ◌^◌, ◌<◌, ◌↔◌, true, false, IfOk, IsErrOf, IsSome, MatchOption, Some, None, length, map};
ghost use Rattle.krb_msg.specs.Judgement.{term_judgement};
ghost use Rattle.krb_msg.specs.Grammar.{pa_data, ticket};
ghost use Rattle.krb_msg.specs.Nodes.{term_at};
ghost use Rattle.krb_msg.specs.Profiles.{profile_term};
ghost use Rattle.krb_msg.specs.ViewValues.{IsMessageView};
ghost use Rattle.krb_msg.specs.Types.{IsValidTicket, pa_data_of, ticket_of_view};
ghost use Rattle.krb_msg.specs.Shape.{has_octet_tags, is_unambiguous};
ghost use Rattle.krb_msg.specs.Table.{IsNode};
ghost use Rattle.krb_msg.specs.Viewed.{AreViewed, IsViewOf, items_of};
ghost use Rattle.krb_judge.specs.Parses.{refusal_by, refusal_of as refusal_in, ticket_refusal, method_data_refusal, judged_as, IsKnown, AreOfTicket, AreOfMethodData};

use crate::judging::judge_in;
use krb_der::{Many, Profile, Refusal, Verdict, Why};
use krb_msg::grammar::{ROWS, Row};
use krb_msg::{ItemsView, MessageView, PaData, Ticket, TicketView, View, view_message, view_whole};
use krb_scan::judge_item;

/// What a slice is judged as.
#[derive(Clone, Copy)]
enum Expected {
    /// A message of any kind, of a profile.
    Message(Profile),
    /// An item of the term of a node of `krb_msg::grammar`.
    Node(u16),
}

/// The greatest number of octets that are judged.
const MOST: usize = 2147483647;

/// The node of a Ticket (RFC 4120, 5.3).
const TICKET: u16 = Row::Ticket as u16;

/// The node of a Ticket of the strict profile.
const STRICT_TICKET: u16 = Row::Ticket as u16 + ROWS as u16;

/// The node of METHOD-DATA (RFC 4120, 5.9.1).
const METHOD_DATA: u16 = Row::MethodData as u16;

/// Returns the node of a Ticket of a profile.
pub(crate) fn ticket_node(profile: Profile) -> u16
    ensures known { IsNode result }
    ensures term { term_at result ≡ profile_term profile false ticket }
{
    match profile {
        Profile::Lenient => TICKET,
        Profile::Strict => STRICT_TICKET,
    }
}

/// Returns a view of a Ticket, or why the octets are not one, by the lenient profile. It allocates
/// nothing.
pub fn read_ticket(octets: &[u8]) -> Result<TicketView<'_>, Refusal>
    ensures ticket { IfOk result (λ view. AreOfTicket Profile.Lenient octets.now (ticket_of_view view)) }
    ensures lists { IfOk result IsValidTicket }
    ensures refused { (r : Refusal) → IsErrOf result r ↔ (ticket_refusal Profile.Lenient octets.now ≡ Some r) }
{
    read_ticket_in(Profile::Lenient, octets)
}

/// Returns a view of a Ticket, or why the octets are not one, by a profile. It allocates nothing.
pub fn read_ticket_in(profile: Profile, octets: &[u8]) -> Result<TicketView<'_>, Refusal>
    ensures ticket { IfOk result (λ view. AreOfTicket profile octets.now (ticket_of_view view)) }
    ensures lists { IfOk result IsValidTicket }
    ensures refused { (r : Refusal) → IsErrOf result r ↔ (ticket_refusal profile octets.now ≡ Some r) }
{
    read_item::<Ticket>(profile, ticket_node(profile), octets)
}

/// Returns a view of the items of METHOD-DATA (RFC 4120, 5.9.1), or why the octets are not such. It
/// allocates nothing.
pub fn read_method_data(octets: &[u8]) -> Result<ItemsView<'_>, Refusal>
    ensures items { IfOk result (λ view. AreOfMethodData octets.now (map pa_data_of (items_of pa_data view.octets.now))) }
    ensures lists { IfOk result (λ view. AreViewed pa_data view.octets.now) }
    ensures refused { (r : Refusal) → IsErrOf result r ↔ (method_data_refusal octets.now ≡ Some r) }
{
    read_item::<Many<PaData>>(Profile::Lenient, METHOD_DATA, octets)
}

/// Returns a view of a message, or why the octets are not one, by the lenient profile. More than
/// 2147483647 octets are refused as `TooLong` at 0 and none as `Empty` at 0, and any others as
/// [`judge`](crate::judge) refuses them. It allocates nothing.
pub fn read_message(octets: &[u8]) -> Result<MessageView<'_>, Refusal>
    ensures message { IfOk result (IsMessageView octets.now) }
    ensures whole { IfOk result (λ _. refusal_in Profile.Lenient octets.now ≡ None) }
    ensures refused { (r : Refusal) → IsErrOf result r ↔ (refusal_in Profile.Lenient octets.now ≡ Some r) }
{
    read_message_in(Profile::Lenient, octets)
}

/// Returns a view of a message, or why the octets are not one, by a profile. It allocates nothing.
pub fn read_message_in(profile: Profile, octets: &[u8]) -> Result<MessageView<'_>, Refusal>
    ensures message { IfOk result (IsMessageView octets.now) }
    ensures whole { IfOk result (λ _. refusal_in profile octets.now ≡ None) }
    ensures refused { (r : Refusal) → IsErrOf result r ↔ (refusal_in profile octets.now ≡ Some r) }
{
    accepted(
        profile,
        Expected::Message(profile),
        octets,
        viewed_message(octets),
    )
}

/// Returns a view of an item of a node's term, which is that of a profile, or why the octets are not
/// one.
fn read_item<'a, T: View<'a>>(
    profile: Profile,
    node: u16,
    octets: &'a [u8],
) -> Result<T::Of, Refusal>
    requires known { IsNode node }
    requires term { term_at node ≡ profile_term profile false T.term }
    requires tags { has_octet_tags T.term ≡ true }
    requires unambiguous { is_unambiguous T.term ≡ true }
    ensures item { IfOk result (λ seen. IsViewOf T.term octets.now (T.value seen) × T.IsValid seen) }
    ensures whole { IfOk result (λ _. refusal_by (term_judgement (profile_term profile false T.term)) octets.now ≡ None) }
    ensures refused { (r : Refusal) → IsErrOf result r ↔ (refusal_by (term_judgement (profile_term profile false T.term)) octets.now ≡ Some r) }
{
    accepted(
        profile,
        Expected::Node(node),
        octets,
        viewed_item::<T>(octets),
    )
}

/// Returns a view of a message, if the octets are one by the lenient profile.
fn viewed_message(octets: &[u8]) -> Option<MessageView<'_>>
    ensures { MatchOption result (refusal_in Profile.Lenient octets.now ≢ None) (λ seen. IsMessageView octets.now seen × (refusal_in Profile.Lenient octets.now ≡ None)) }
{
    view_message(octets)
}

/// Returns a view of an item, if the octets are one by the lenient profile.
fn viewed_item<'a, T: View<'a>>(octets: &'a [u8]) -> Option<T::Of>
    requires tags { has_octet_tags T.term ≡ true }
    requires unambiguous { is_unambiguous T.term ≡ true }
    ensures { MatchOption result (refusal_by (term_judgement T.term) octets.now ≢ None) (λ seen. IsViewOf T.term octets.now (T.value seen) × T.IsValid seen × (refusal_by (term_judgement T.term) octets.now ≡ None)) }
{
    if octets.len() > MOST {
        return None;
    }
    view_whole::<T>(octets)
}

/// Returns a view of octets, or why they are not what they are judged as. A view is one of
/// the lenient profile: if there is one, that profile does not judge again.
fn accepted<V: Copy>(
    profile: Profile,
    expected: Expected,
    octets: &[u8],
    seen: Option<V>,
) -> Result<V, Refusal>
    requires known { IsKnown expected }
    requires lenient { profile ≡ Profile.Lenient → IsSome seen → refusal_by (judged_as expected) octets.now ≡ None }
    requires seen { refusal_by (judged_as expected) octets.now ≡ None → IsSome seen }
    ensures seen { IfOk result (λ it. seen ≡ Some it) }
    ensures whole { IfOk result (λ _. refusal_by (judged_as expected) octets.now ≡ None) }
    ensures refused { (r : Refusal) → IsErrOf result r ↔ (refusal_by (judged_as expected) octets.now ≡ Some r) }
{
    if let (Profile::Lenient, Some(seen)) = (profile, seen) {
        return Ok(seen);
    }
    match (refusal_of(expected, octets), seen) {
        (Some(refusal), _) => Err(refusal),
        (None, Some(seen)) => Ok(seen),
        (None, None) => unreachable!(),
    }
}

/// Returns why octets are not what they are judged as, if they are not.
fn refusal_of(expected: Expected, octets: &[u8]) -> Option<Refusal>
    requires { IsKnown expected }
    ensures { result ≡ refusal_by (judged_as expected) octets.now }
{
    if octets.len() > MOST {
        return Some(Refusal {
            place: 0,
            why: Why::TooLong,
        });
    }
    if octets.is_empty() {
        return Some(Refusal {
            place: 0,
            why: Why::Empty,
        });
    }
    match verdict_on(expected, octets) {
        Verdict::Refused(refusal) => Some(refusal),
        _ => None,
    }
}

/// Returns the verdict on all the octets of a slice.
fn verdict_on(expected: Expected, octets: &[u8]) -> Verdict
    requires known { IsKnown expected }
    requires some { 0 < length octets.now }
    requires short { length octets.now < 2 ^ 31 }
    ensures { result ≡ judged_as expected (length octets.now) octets.now }
{
    let n = octets.len() as u32;
    match expected {
        Expected::Message(profile) => judge_in(profile, n, octets),
        Expected::Node(node) => judge_item(node, n, octets),
    }
}
