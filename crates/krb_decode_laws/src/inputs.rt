//! Laws of what is decoded of inputs. Each is the contract of a function that does nothing.
ghost use Rattle.krb_decode_laws.specs.Inputs.{InputsAreLines, InputsComeBack, InputsEndAsSaid};

use krb_json::law::lines_spell_octets;
use krb_message_laws::message_json::{texts_are_json, texts_are_short, texts_come_back};
use krb_msg::law::{message_of_der_is_message, value_of_der_is_value};
use krb_tool_laws::listings::messages_are_lines;

/// The decoding of what an input spells, or of octets, ends clean if and only if nothing is said.
pub fn inputs_end_as_said()
    ensures { InputsEndAsSaid }
{}

/// Whatever octets an input has, fewer than 2^64, what is written of it is lines of JSON, in which no
/// object has a name twice, and what is said is lines, all of printable ASCII.
pub fn inputs_are_lines()
    ensures { InputsAreLines }
{
    message_of_der_is_message();
    value_of_der_is_value();
    texts_are_json();
    messages_are_lines();
}

/// What is decoded of a message, a Ticket or a token of which nothing is said is encoded, by
/// [`run_encode_unframed`](krb_convert::run_encode_unframed), to the octets of the message or Ticket.
/// Of a KRB-CRED that is not encrypted each line is that of a Ticket, and is encoded to its octets.
pub fn inputs_come_back()
    ensures { InputsComeBack }
{
    message_of_der_is_message();
    value_of_der_is_value();
    texts_are_json();
    texts_are_short();
    texts_come_back();
    lines_spell_octets();
}
