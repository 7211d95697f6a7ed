//! Laws of listings and of conversions. Each is the contract of a function that does nothing.
ghost use Rattle.krb_capture_run.specs.Laws.{CapturesAreListed, PlainCapturesAreUntold};
ghost use Rattle.krb_file_run.specs.Laws.{KeysAreNotListed, SessionKeysAreNotListed, UpgradeIsListedAlike};
ghost use Rattle.krb_convert.specs.Laws.{DecodedComesBack, DecodedIsLines, EncodedIsMessages, UnencryptedIsNotDecoded};
ghost use Rattle.krb_tool.specs.Laws.{RefusalsAreAtOffsets};
ghost use Rattle.krb_tool_laws.specs.Exchanges.{CapturesNameNoLaterPacket};
ghost use Rattle.krb_tool_laws.specs.Holes.{HolesAreNotListed};

use krb_file_laws::ccache::{session_keys_change_nothing_else, upgrade_holds_the_same};
use krb_file_laws::keytab::keys_change_nothing_else;
use krb_frame::law::refusals_are_at_offsets as refused_at_offsets;
use krb_json::law::{lines_spell_messages, lines_spell_octets};
use krb_message_laws::message_json::{
    texts_are_json, texts_are_short, texts_come_back, unencrypted_changes_nothing,
};
use krb_text_laws::list::{keys_are_not_shown, session_keys_are_not_shown};

/// A cache of version 3 that is listed without a refusal has the listing of what
/// `krb_files::ccache::write` returns of its `upgrade`.
pub fn upgrade_is_listed_alike()
    ensures { UpgradeIsListedAlike }
{
    upgrade_holds_the_same();
}

/// A stream all of which [`run_decode`](krb_convert::run_decode) decodes comes back octet for octet
/// when [`run_encode`](krb_convert::run_encode) encodes the lines, by the same profile and limit; and
/// so does a message by [`run_decode_unframed`](krb_convert::run_decode_unframed) and
/// [`run_encode_unframed`](krb_convert::run_encode_unframed).
pub fn decoded_comes_back()
    ensures { DecodedComesBack }
{
    texts_are_json();
    texts_are_short();
    texts_come_back();
    lines_spell_octets();
}

/// Two files that differ in octets of one key alone have one listing in each form, up to the same
/// end or the same refusal with the same path: keytabs, and caches of version 4 or 3. Keytabs that
/// differ in octets of one hole, which may be those of an old key, have one listing but for the
/// hole's line: that tells how many octets there are, and whether all of them are 00.
pub fn keys_are_not_listed()
    ensures keytab { KeysAreNotListed }
    ensures hole { HolesAreNotListed }
    ensures ccache { SessionKeysAreNotListed }
{
    keys_change_nothing_else();
    keys_are_not_shown();
    session_keys_change_nothing_else();
    session_keys_are_not_shown();
}

/// The listing of a capture is the records of what is found in its packets, of which the laws of
/// `krb_capture_laws` speak, in order, with what is told of that, and then the last line.
pub fn captures_are_listed()
    ensures { CapturesAreListed }
{}

/// Lines without names have nothing of what happened in a capture.
pub fn plain_captures_are_untold()
    ensures { PlainCapturesAreUntold }
{}

/// In the listing of a capture no packet is named that comes after that of the record.
pub fn captures_name_no_later_packet()
    ensures { CapturesNameNoLaterPacket }
{}

/// The first octet with which a stream is refused is the one at the offset of its last frame and the
/// place in that, which the last line of its listing tells as `at` and `place`.
pub fn refusals_are_at_offsets()
    ensures { RefusalsAreAtOffsets }
{
    refused_at_offsets();
}

/// What [`run_encode`](krb_convert::run_encode) writes of any text is a stream of messages of the
/// profile, none of more octets than the limit: nothing in it is refused, and it is decoded to the line
/// of each message, if all are encrypted. What
/// [`run_encode_unframed`](krb_convert::run_encode_unframed) writes is nothing or one such message or
/// Ticket, and this if it ends without a fault.
pub fn encoded_is_messages()
    ensures { EncodedIsMessages }
{
    lines_spell_messages();
    lines_spell_octets();
}

/// What is not encrypted is not decoded: streams that differ in nothing but the ciphers of
/// EncryptedDatas of encryption type 0 become the same lines by
/// [`run_decode`](krb_convert::run_decode), with the same end, and so do messages by
/// [`run_decode_unframed`](krb_convert::run_decode_unframed).
pub fn unencrypted_is_not_decoded()
    ensures { UnencryptedIsNotDecoded }
{
    unencrypted_changes_nothing();
}

/// What [`run_decode`](krb_convert::run_decode) and
/// [`run_decode_unframed`](krb_convert::run_decode_unframed) write of any octets is lines of JSON, of
/// printable ASCII, in which no object has a name twice.
pub fn decoded_is_lines()
    ensures { DecodedIsLines }
{
    texts_are_json();
}
