//! The law of Tickets that are decoded by themselves. It is the contract of a function that does nothing.
ghost use Rattle.krb_decode_laws.specs.Messages.{TicketsComeBack};

use krb_msg::law::value_of_der_is_value;

/// The text of a Ticket is its JSON, of printable ASCII, in which no object has a name twice; and its
/// line is encoded by [`run_encode_unframed`](krb_convert::run_encode_unframed) to its octets.
pub fn tickets_come_back()
    ensures { TicketsComeBack }
{
    value_of_der_is_value();
}
