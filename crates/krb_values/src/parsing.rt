//! Parsing messages, Tickets and METHOD-DATA.

ghost use Rattle.std.specs.Prelude.{◌≡◌, ◌≢◌, ◌↔◌, ◌⊎◌, List, IfOk, IsErrOf, Ok, Err, Some, None};
ghost use Rattle.krb_judge.specs.Parses.{refusal_of as refusal_in, ticket_refusal, method_data_refusal, AreOf, AreOfTicket, AreOfMethodData};
ghost use Rattle.krb_values.specs.Faults.{parse_fault_text};
ghost use Rattle.krb_values.specs.Parses.{HasNoMessage};
ghost use Rattle.krb_values.specs.declared.parsing.ParseFault.TheVariants as fault;

use krb_codec::{FromView, copy_message};
use krb_der::{Many, Memory, Profile, Refusal};
use krb_judge::{read_message_in, read_method_data, read_ticket_in};
use krb_msg::{Message, PaData, Ticket};
use std::alloc::{AllocError, Global};
use std::error::Error;
use std::fmt;

/// Why parsing a message, a Ticket or METHOD-DATA failed.
#[derive(Clone, Copy, PartialEq, Eq, Debug)]
pub enum ParseFault {
    /// The octets are refused.
    Refused(Refusal),
    /// Out of memory.
    Memory,
}

impl From<Memory> for ParseFault {
    ghost from_gives = { λ _ e. e ≡ fault.Memory };

    fn from(_error: Memory) -> ParseFault {
        ParseFault::Memory
    }
}

impl From<AllocError> for ParseFault {
    ghost from_gives = { λ _ e. e ≡ fault.Memory };

    fn from(_error: AllocError) -> ParseFault {
        ParseFault::Memory
    }
}

/// Shows `refused at 12: Range`, or `out of memory`.
impl fmt::Display for ParseFault {
    ghost output = { λ fault. Some (parse_fault_text fault) };

    fn fmt<W: fmt::Write>(&self, f: &mut fmt::Formatter<W>) -> fmt::Result {
        match self {
            ParseFault::Refused(refusal) => write!(f, "{refusal}"),
            ParseFault::Memory => f.write_str("out of memory"),
        }
    }
}

impl Error for ParseFault {}

/// Parses a message by the lenient profile. A slice of more than 2147483647 octets is refused as
/// `TooLong` at 0 and an empty one as `Empty` at 0, and any other as [`judge`](krb_judge::judge)
/// refuses it, before memory is allocated.
pub fn parse(alloc: Global, octets: &[u8]) -> Result<Message, ParseFault>
    ensures message { IfOk result (AreOf Profile.Lenient octets.now) }
    ensures found { (m : Message) → AreOf Profile.Lenient octets.now m → (result ≡ Ok m) ⊎ (result ≡ Err fault.Memory) }
    ensures refused { (r : Refusal) → IsErrOf result (fault.Refused r) ↔ (refusal_in Profile.Lenient octets.now ≡ Some r) }
    ensures none { HasNoMessage Profile.Lenient octets.now ↔ (refusal_in Profile.Lenient octets.now ≢ None) }
{
    parse_in(alloc, Profile::Lenient, octets)
}

/// Parses a message by a profile; see [`parse`].
pub fn parse_in(alloc: Global, profile: Profile, octets: &[u8]) -> Result<Message, ParseFault>
    ensures message { IfOk result (AreOf profile octets.now) }
    ensures found { (m : Message) → AreOf profile octets.now m → (result ≡ Ok m) ⊎ (result ≡ Err fault.Memory) }
    ensures refused { (r : Refusal) → IsErrOf result (fault.Refused r) ↔ (refusal_in profile octets.now ≡ Some r) }
    ensures none { HasNoMessage profile octets.now ↔ (refusal_in profile octets.now ≢ None) }
{
    match read_message_in(profile, octets) {
        Ok(message) => Ok(copy_message(alloc, &message)?),
        Err(refusal) => Err(ParseFault::Refused(refusal)),
    }
}

/// Parses a Ticket (RFC 4120, 5.3) by the lenient profile; see [`parse`].
pub fn parse_ticket(alloc: Global, octets: &[u8]) -> Result<Ticket, ParseFault>
    ensures ticket { IfOk result (AreOfTicket Profile.Lenient octets.now) }
    ensures found { (t : Ticket) → AreOfTicket Profile.Lenient octets.now t → (result ≡ Ok t) ⊎ (result ≡ Err fault.Memory) }
    ensures refused { (r : Refusal) → IsErrOf result (fault.Refused r) ↔ (ticket_refusal Profile.Lenient octets.now ≡ Some r) }
    ensures none { ((t : Ticket) → AreOfTicket Profile.Lenient octets.now t → ⊥) ↔ (ticket_refusal Profile.Lenient octets.now ≢ None) }
{
    parse_ticket_in(alloc, Profile::Lenient, octets)
}

/// Parses a Ticket by a profile; see [`parse`].
pub fn parse_ticket_in(alloc: Global, profile: Profile, octets: &[u8]) -> Result<Ticket, ParseFault>
    ensures ticket { IfOk result (AreOfTicket profile octets.now) }
    ensures found { (t : Ticket) → AreOfTicket profile octets.now t → (result ≡ Ok t) ⊎ (result ≡ Err fault.Memory) }
    ensures refused { (r : Refusal) → IsErrOf result (fault.Refused r) ↔ (ticket_refusal profile octets.now ≡ Some r) }
    ensures none { ((t : Ticket) → AreOfTicket profile octets.now t → ⊥) ↔ (ticket_refusal profile octets.now ≢ None) }
{
    match read_ticket_in(profile, octets) {
        Ok(ticket) => Ok(Ticket::from_view(alloc, &ticket)?),
        Err(refusal) => Err(ParseFault::Refused(refusal)),
    }
}

/// Parses METHOD-DATA (RFC 4120, 5.9.1); see [`parse`].
pub fn parse_method_data(alloc: Global, octets: &[u8]) -> Result<Vec<PaData>, ParseFault>
    ensures items { IfOk result (λ items. AreOfMethodData octets.now items.items) }
    ensures found { (items : List PaData) → AreOfMethodData octets.now items → IfOk result (λ those. those.items ≡ items) × (method_data_refusal octets.now ≡ None) }
    ensures refused { (r : Refusal) → IsErrOf result (fault.Refused r) ↔ (method_data_refusal octets.now ≡ Some r) }
    ensures none { ((items : List PaData) → AreOfMethodData octets.now items → ⊥) ↔ (method_data_refusal octets.now ≢ None) }
{
    match read_method_data(octets) {
        Ok(items) => Ok(Many::<PaData>::from_view(alloc, &items)?.into_vec()),
        Err(refusal) => Err(ParseFault::Refused(refusal)),
    }
}
