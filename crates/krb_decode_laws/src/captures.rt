//! Laws of what is decoded of captures. Each is the contract of a function that does nothing.
ghost use Rattle.krb_decode_laws.specs.Captures.{CapturesAreListedAgain, CapturesComeBack, CapturesEndAsTold, DecodedIsLines, DecodedIsTheListing, PacketsAreTheCapture};

use krb_frame::law::refusals_are_inside;
use krb_judge::law::refusals_are_inside as slices_are_refused_inside;
use krb_message_laws::message_json::{texts_are_json, texts_are_short, texts_come_back};
use krb_msg::law::{der_is_prefix_free, message_of_der_is_message};
use krb_text_laws::text::capture_is_one_line_each;

/// What is decoded of a capture is its listing: of the messages that have records there each sealed one
/// has its line, in the same order, and nothing else has one that is written; and each other message,
/// and what is refused, lost or unread, has a line that is told.
pub fn decoded_is_the_listing()
    ensures { DecodedIsTheListing }
{
    message_of_der_is_message();
    slices_are_refused_inside();
    refusals_are_inside();
    capture_is_one_line_each();
    texts_are_json();
}

/// The lines of a capture are encoded by [`run_encode`](krb_convert::run_encode) to a stream of its
/// sealed messages, in the order of the listing, if none of them has more octets than the limit.
pub fn captures_come_back()
    ensures { CapturesComeBack }
{
    message_of_der_is_message();
    slices_are_refused_inside();
    refusals_are_inside();
    capture_is_one_line_each();
    texts_are_json();
    texts_are_short();
    texts_come_back();
}

/// The stream that is encoded of the lines of a capture is listed by the records of its sealed messages,
/// without their origins, whether the listing goes on after refusals or not: nothing is refused.
pub fn captures_are_listed_again()
    ensures { CapturesAreListedAgain }
{
    message_of_der_is_message();
    slices_are_refused_inside();
    refusals_are_inside();
    capture_is_one_line_each();
    texts_are_json();
    texts_are_short();
    texts_come_back();
    der_is_prefix_free();
}

/// The messages that are decoded of each packet alone, one after another, are those of the capture.
pub fn packets_are_the_capture()
    ensures { PacketsAreTheCapture }
{
    message_of_der_is_message();
    slices_are_refused_inside();
    refusals_are_inside();
    capture_is_one_line_each();
    texts_are_json();
}

/// The decoding of a capture ends clean if and only if nothing is told of it. Then it has as many lines
/// as the last record counts messages.
pub fn captures_end_as_told()
    ensures { CapturesEndAsTold }
{
    message_of_der_is_message();
    slices_are_refused_inside();
    refusals_are_inside();
    capture_is_one_line_each();
    texts_are_json();
}

/// Whatever octets a capture has, fewer than 2^64, each line that is written or told of it is one line
/// of printable ASCII, and each that is written is the JSON of a message.
pub fn decoded_is_lines()
    ensures { DecodedIsLines }
{
    message_of_der_is_message();
    slices_are_refused_inside();
    refusals_are_inside();
    capture_is_one_line_each();
    texts_are_json();
}
