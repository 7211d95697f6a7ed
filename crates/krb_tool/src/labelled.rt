//! Records of streams, each with its label.

ghost use Rattle.std.specs.Prelude.{◌≡◌, ◌++◌, IfOk, OnOk};
ghost use Rattle.std.specs.Option.{option_copied};
ghost use Rattle.krb_record.specs.Labels.{line_of};
ghost use Rattle.krb_record.specs.Streams.{stream_end_record};
ghost use Rattle.krb_text.specs.Messages.{PutsMessage};
ghost use Rattle.krb_tool.specs.GoingOn.{counted_end_line, refused_line};
ghost use Rattle.krb_tool.specs.Listing.{message_line};

use krb_der::{Memory, Profile, Refusal};
use krb_record::{Extent, Label, TextBuffer};
use krb_text::put_message_in;
use std::alloc::AllocError;

/// Appends the record of a message, if octets are one of a profile, and returns whether they are.
#[inline(always)]
pub(crate) fn put_message(
    text: &mut TextBuffer,
    label: &Label,
    profile: Profile,
    octets: &[u8],
) -> Result<bool, Memory>
    ensures { IfOk result (PutsMessage profile octets.now (message_line label.now) text.old text.new) }
{
    let size = text.size();
    label.begin(text)?;
    if !put_message_in(text, label.form(), profile, octets)? {
        text.truncate(size);
        return Ok(false);
    }
    label.end(text)?;
    Ok(true)
}

/// Appends the record of a frame that is refused after so many messages.
pub(crate) fn put_refusal(
    text: &mut TextBuffer,
    label: &Label,
    messages: u64,
    refusal: Refusal,
    path: Option<&str>,
    extent: Extent,
) -> Result<(), AllocError>
    ensures { OnOk result (text.new ≡ text.old ++ refused_line label.now messages refusal.place refusal.why (option_copied path.entry) extent) }
{
    label.begin(text)?;
    krb_record::put_stream_refusal(text, label.form(), messages, refusal, path, extent)?;
    label.end(text)
}

/// Appends the record of the end of a stream after so many messages.
pub(crate) fn put_end(text: &mut TextBuffer, label: &Label, messages: u64) -> Result<(), AllocError>
    ensures { OnOk result (text.new ≡ text.old ++ line_of label.now (stream_end_record messages)) }
{
    label.begin(text)?;
    krb_record::put_stream_end(text, label.form(), messages)?;
    label.end(text)
}

/// Appends the record of the end after so many messages and refusals.
pub(crate) fn put_counted_end(
    text: &mut TextBuffer,
    label: &Label,
    messages: u64,
    refused: u64,
) -> Result<(), AllocError>
    ensures { OnOk result (text.new ≡ text.old ++ counted_end_line label.now messages refused) }
{
    label.begin(text)?;
    krb_record::put_counted_stream_end(text, label.form(), messages, refused)?;
    label.end(text)
}
