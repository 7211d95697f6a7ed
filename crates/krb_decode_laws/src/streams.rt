//! Laws of what is decoded of streams that go on after what is refused. Each is the contract of a
//! function that does nothing.
ghost use Rattle.krb_decode_laws.specs.Streams.{DecodedIsLines, DecodedIsTheListing, GoingOnChangesNothing, StreamsAreListedAgain, StreamsComeBack, StreamsEndAsTold};

use krb_frame::law::refusals_are_inside;
use krb_message_laws::message_json::{texts_are_json, texts_are_short, texts_come_back};
use krb_msg::law::der_is_prefix_free;
use krb_text_laws::text::end_is_one_line;

/// What is decoded of a stream that goes on is its listing: each sealed message has its line, in the
/// same order, and each other frame has a line that is told.
pub fn decoded_is_the_listing()
    ensures { DecodedIsTheListing }
{
    der_is_prefix_free();
    refusals_are_inside();
    end_is_one_line();
    texts_are_json();
}

/// The lines of a stream that goes on are encoded by [`run_encode`](krb_convert::run_encode) to a stream
/// of its sealed messages, by the same profile and limit.
pub fn streams_come_back()
    ensures { StreamsComeBack }
{
    der_is_prefix_free();
    refusals_are_inside();
    end_is_one_line();
    texts_are_json();
    texts_are_short();
    texts_come_back();
}

/// The stream that is encoded of the lines of a stream that goes on is listed by the records of its sealed
/// messages, whether the listing goes on after refusals or not: nothing is refused.
pub fn streams_are_listed_again()
    ensures { StreamsAreListedAgain }
{
    der_is_prefix_free();
    refusals_are_inside();
    end_is_one_line();
    texts_are_json();
    texts_are_short();
    texts_come_back();
}

/// The decoding of a stream that goes on ends clean if and only if nothing is told of it. Then it has as
/// many lines as messages.
pub fn streams_end_as_told()
    ensures { StreamsEndAsTold }
{
    der_is_prefix_free();
    refusals_are_inside();
    end_is_one_line();
    texts_are_json();
}

/// If nothing is told of a stream that goes on, [`run_decode`](krb_convert::run_decode), which a refusal
/// ends, decodes all of it, too, to the same text.
pub fn going_on_changes_nothing()
    ensures { GoingOnChangesNothing }
{
    der_is_prefix_free();
    refusals_are_inside();
    end_is_one_line();
    texts_are_json();
}

/// Each line that is written or told of a stream is one line of printable ASCII, and each that is written
/// is the JSON of a message.
pub fn decoded_is_lines()
    ensures { DecodedIsLines }
{
    der_is_prefix_free();
    refusals_are_inside();
    end_is_one_line();
    texts_are_json();
}
