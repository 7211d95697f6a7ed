//! Laws of what is decoded of credential caches. Each is the contract of a function that does nothing.
ghost use Rattle.krb_decode_laws.specs.Caches.{CachesAreDecoded, CachesAreLines, CachesComeBack, TicketsAloneAreDecoded};

use krb_file_laws::ccache::credentials_are_spelled;
use krb_msg::law::value_of_der_is_value;
use krb_text_laws::text::end_is_one_line;

/// What is decoded of a cache is its Tickets: each credential that is no configuration entry has its
/// line, or a line that is said, and the run ends clean if and only if nothing is said.
pub fn caches_are_decoded()
    ensures { CachesAreDecoded }
{}

/// Nothing else of a cache is decoded: not a session key, a second ticket, a configuration entry or the
/// cipher of a Ticket that is not encrypted.
pub fn tickets_alone_are_decoded()
    ensures { TicketsAloneAreDecoded }
{}

/// Whatever octets a cache has, what is written of it is lines of JSON, in which no object has a name
/// twice, and what is said is lines, all of printable ASCII.
pub fn caches_are_lines()
    ensures { CachesAreLines }
{
    credentials_are_spelled();
    value_of_der_is_value();
    end_is_one_line();
}

/// Each line that is decoded of a cache is encoded by itself, by
/// [`run_encode_unframed`](krb_convert::run_encode_unframed), to the octets of its Ticket.
pub fn caches_come_back()
    ensures { CachesComeBack }
{
    credentials_are_spelled();
    value_of_der_is_value();
}
