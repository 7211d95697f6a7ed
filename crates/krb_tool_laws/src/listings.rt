//! Laws of whole listings. Each is the contract of a function that does nothing.

ghost use Rattle.krb_tool_laws.specs.Listings.{CachesAreLines, CachesArePrinted, CapturesAreLines, KeytabsAreLines, KeytabsArePrinted, MessagesAreLines, StreamsAreLines};

use krb_file_laws::ccache::credentials_are_spelled;
use krb_file_laws::keytab::records_are_spelled;
use krb_frame::law::refusals_are_inside;
use krb_judge::law::refusals_are_inside as slices_are_refused_inside;
use krb_laws::objects::{captures_are_json, ends_are_json, files_are_json, messages_are_json};
use krb_msg::law::{
    der_is_prefix_free, message_of_der_is_message, strict_is_narrower, value_of_der_is_value,
};
use krb_text_laws::list::{ccache_is_one_line_each, keytab_is_one_line_each};
use krb_text_laws::text::{capture_is_one_line_each, end_is_one_line, message_is_one_line};

/// Whatever octets were read, fewer than 2^64, and whatever octets name their file, each line of the
/// listing of a stream is one line of printable ASCII, and in the form Json one JSON text in which no
/// object has a name twice; so is each line that is written before a read fails, and also if the run
/// goes on after refusals.
pub fn streams_are_lines()
    ensures { StreamsAreLines }
{
    der_is_prefix_free();
    strict_is_narrower();
    refusals_are_inside();
    message_is_one_line();
    end_is_one_line();
    messages_are_json();
    ends_are_json();
}

/// So is the line of one message, or of why there is none, whatever an input spells and that is opened
/// to; and so is each line of the listing of messages that the lines of a text spell.
pub fn messages_are_lines()
    ensures { MessagesAreLines }
{
    message_of_der_is_message();
    value_of_der_is_value();
    slices_are_refused_inside();
    message_is_one_line();
    end_is_one_line();
    messages_are_json();
    ends_are_json();
}

/// Whatever octets a file has, and whatever octets name it, each line of its listing as a keytab or
/// as a cache is one line of printable ASCII, in each form.
pub fn files_are_printed()
    ensures keytab { KeytabsArePrinted }
    ensures ccache { CachesArePrinted }
{
    records_are_spelled();
    credentials_are_spelled();
    keytab_is_one_line_each();
    ccache_is_one_line_each();
    end_is_one_line();
}

/// If it has fewer than 2^64 octets, each of these lines is in the form Json one JSON text in which no
/// object has a name twice, also that of a refusal.
pub fn files_are_lines()
    ensures keytab { KeytabsAreLines }
    ensures ccache { CachesAreLines }
{
    records_are_spelled();
    credentials_are_spelled();
    keytab_is_one_line_each();
    ccache_is_one_line_each();
    end_is_one_line();
    files_are_json();
    ends_are_json();
}

/// Whatever octets a capture has, fewer than 2^64, and whatever octets name its file, each line of its
/// listing is one line of printable ASCII, and in the form Json one JSON text in which no object has a
/// name twice: the records of what is found in its packets, those that are told, and the last one, also
/// if the file is refused.
pub fn captures_are_lines()
    ensures { CapturesAreLines }
{
    message_of_der_is_message();
    slices_are_refused_inside();
    refusals_are_inside();
    capture_is_one_line_each();
    captures_are_json();
}
