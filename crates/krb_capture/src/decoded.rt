//! What is decoded of a capture, in place of records.

ghost use Rattle.std.specs.Prelude.{◌≡◌, ◌<◌, ◌^◌, ◌++◌, [], length, OnOk};
ghost use Rattle.std.specs.Option.{option_copied};
ghost use Rattle.krb_json.specs.Lines.{line_of as json_line};
ghost use Rattle.krb_msg.specs.Views.{message_of_der};
ghost use Rattle.krb_record.specs.Captures.{count_fields};
ghost use Rattle.krb_record.specs.Forms.{fields_text};
ghost use Rattle.krb_capture.specs.Decoded.{IsOfMessage, decoded_message, decoded_refusal, not_encrypted};

use krb_der::Memory;
use krb_file::FileWhy;
use krb_json::{put_text, unencrypted_path};
use krb_record::{
    CaptureCounts, CaptureOrigin, Extent, Form, Reason, TextBuffer, put_captured_opening, put_end,
    put_fault_fields, put_field, put_opening,
};
use std::alloc::AllocError;

/// Appends the line of the message whose DER octets are, or, after its origin, that it has something
/// that is not encrypted.
pub(crate) fn put_message(
    text: &mut TextBuffer,
    form: Form,
    origin: &CaptureOrigin,
    octets: &[u8],
) -> Result<(), Memory>
    requires short { length octets.now < 2 ^ 31 }
    requires message { IsOfMessage octets.now }
    ensures { OnOk result (text.new ≡ text.old ++ decoded_message form origin.now (message_of_der octets.now)) }
{
    match unencrypted_path(text.allocator(), octets)? {
        Some(path) => {
            put_unencrypted(text, form, origin, path.as_str())?;
            Ok(())
        }
        None => put_line(text, octets),
    }
}

/// Appends, after an origin, that what has a path is not encrypted.
fn put_unencrypted(
    text: &mut TextBuffer,
    form: Form,
    origin: &CaptureOrigin,
    path: &str,
) -> Result<(), AllocError>
    ensures { OnOk result (text.new ≡ text.old ++ not_encrypted form origin.now path.now) }
{
    put_captured_opening(text, form, origin, "")?;
    text.push_pair(path, ": not encrypted, and so not printed\n")?;
    Ok(())
}

/// Appends the line of the message whose DER octets are.
fn put_line(text: &mut TextBuffer, octets: &[u8]) -> Result<(), Memory>
    requires short { length octets.now < 2 ^ 31 }
    requires message { IsOfMessage octets.now }
    ensures { OnOk result (text.new ≡ text.old ++ json_line (message_of_der octets.now)) }
{
    let alloc = text.allocator();
    let line = put_text(alloc, Vec::new(alloc), octets)?;
    text.push_ascii(line.as_slice())?;
    text.push_str("\n")?;
    Ok(())
}

/// Appends the fields of the counts.
fn put_counts(text: &mut TextBuffer, form: Form, counts: &CaptureCounts) -> Result<(), AllocError>
    ensures { OnOk result (text.new ≡ text.old ++ fields_text form (count_fields counts.now)) }
{
    put_field!(text, form, "packets": &counts.packets)?;
    put_field!(text, form, "messages": &counts.messages)?;
    put_field!(text, form, "refused": &counts.refused)?;
    put_field!(text, form, "lost": &counts.lost)?;
    put_field!(text, form, "unread": &counts.unread)
}

/// Appends that the file is refused, after what was counted before.
#[tactic(auto, unfolding(krb_record::specs::Forms::record_text))]
pub(crate) fn put_file_refusal(
    text: &mut TextBuffer,
    form: Form,
    counts: &CaptureCounts,
    place: u64,
    why: FileWhy,
    path: Option<&str>,
    extent: Extent,
) -> Result<(), AllocError>
    ensures { OnOk result (text.new ≡ text.old ++ decoded_refusal form counts.now place why (option_copied path.entry) extent) }
{
    put_opening(text, form, "refused")?;
    put_counts(text, form, counts)?;
    put_fault_fields(text, form, place, &Reason::of_file(why), path, extent)?;
    put_end(text, form)
}
