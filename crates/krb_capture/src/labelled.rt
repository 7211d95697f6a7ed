//! Records of captures, each with its label.

ghost use Rattle.std.specs.Prelude.{◌≡◌, ◌++◌, IfOk, OnOk};
ghost use Rattle.std.specs.Option.{option_copied};
ghost use Rattle.krb_record.specs.Captures.{capture_end_record, capture_refused_record, captured, password_record};
ghost use Rattle.krb_record.specs.Labels.{line_of};
ghost use Rattle.krb_text.specs.Messages.{PutsMessage, shown_record};
ghost use Rattle.krb_capture.specs.Found.{Faulty, Joined, Missing, listed_line};
ghost use Rattle.krb_capture.specs.Found as found;
ghost use Rattle.krb_capture.specs.Labels.{of_records};

use krb_der::{Memory, Profile, Refusal};
use krb_file::FileWhy;
use krb_flow::{Lost, Unread};
use krb_record::{CaptureCounts, CaptureOrigin, Extent, Label, TextBuffer, ToldCounts};
use krb_text::put_captured_message;
use std::alloc::AllocError;

/// Appends the record of a message, if octets are one of a profile, and returns whether they are.
pub(crate) fn put_message(
    text: &mut TextBuffer,
    label: &Label,
    origin: &CaptureOrigin,
    profile: Profile,
    octets: &[u8],
) -> Result<bool, Memory>
    ensures { IfOk result (PutsMessage profile octets.now (λ message. line_of label.now (captured label.now.form origin.now (shown_record label.now.form message))) text.old text.new) }
{
    let size = text.size();
    label.begin(text)?;
    if !put_captured_message(text, label.form(), origin, profile, octets)? {
        text.truncate(size);
        return Ok(false);
    }
    label.end(text)?;
    Ok(true)
}

/// Appends the record of what is refused: the path of the field at fault, and where the frame or
/// datagram is and its length.
pub(crate) fn put_refusal(
    text: &mut TextBuffer,
    label: &Label,
    origin: &CaptureOrigin,
    refusal: Refusal,
    path: Option<&str>,
    extent: Extent,
) -> Result<(), AllocError>
    ensures { OnOk result (text.new ≡ text.old ++ listed_line (of_records label.now) origin.now (Faulty refusal (option_copied path.entry) extent)) }
{
    label.begin(text)?;
    krb_record::put_captured_refusal(text, label.form(), origin, refusal, path, extent)?;
    label.end(text)
}

/// Appends the record of a direction that began without its SYN.
pub(crate) fn put_joined(
    text: &mut TextBuffer,
    label: &Label,
    origin: &CaptureOrigin,
) -> Result<(), AllocError>
    ensures { OnOk result (text.new ≡ text.old ++ listed_line (of_records label.now) origin.now Joined) }
{
    label.begin(text)?;
    krb_record::put_joined(text, label.form(), origin)?;
    label.end(text)
}

/// Appends the record of octets that are missing, with the path of the field that has the first.
pub(crate) fn put_lost(
    text: &mut TextBuffer,
    label: &Label,
    origin: &CaptureOrigin,
    lost: Lost,
    path: Option<&str>,
) -> Result<(), AllocError>
    ensures { OnOk result (text.new ≡ text.old ++ listed_line (of_records label.now) origin.now (Missing lost.place lost.octets (option_copied path.entry))) }
{
    label.begin(text)?;
    krb_record::put_lost(text, label.form(), origin, lost.place, lost.octets, path)?;
    label.end(text)
}

/// Appends the record of octets that no message has.
pub(crate) fn put_unread(
    text: &mut TextBuffer,
    label: &Label,
    origin: &CaptureOrigin,
    unread: Unread,
) -> Result<(), AllocError>
    ensures { OnOk result (text.new ≡ text.old ++ listed_line (of_records label.now) origin.now (found.Unread unread.place unread.octets unread.why)) }
{
    let Unread { place, octets, why } = unread;
    label.begin(text)?;
    krb_record::put_unread(text, label.form(), origin, place, octets, why)?;
    label.end(text)
}

/// Appends the record of a message that changes a password.
pub(crate) fn put_password(
    text: &mut TextBuffer,
    label: &Label,
    origin: &CaptureOrigin,
    version: u16,
    ap: u16,
    rest: u64,
) -> Result<(), AllocError>
    ensures { OnOk result (text.new ≡ text.old ++ line_of label.now (captured label.now.form origin.now (password_record version ap rest))) }
{
    label.begin(text)?;
    krb_record::put_password(text, label.form(), origin, version, ap, rest)?;
    label.end(text)
}

/// Appends the last record of a capture.
pub(crate) fn put_end(
    text: &mut TextBuffer,
    label: &Label,
    counts: &CaptureCounts,
    told: &ToldCounts,
) -> Result<(), AllocError>
    ensures { OnOk result (text.new ≡ text.old ++ line_of label.now (capture_end_record label.now.form counts.now told.now)) }
{
    label.begin(text)?;
    krb_record::put_capture_end(text, label.form(), counts, told)?;
    label.end(text)
}

/// Appends the last record of a capture whose file is at fault.
pub(crate) fn put_file_refusal(
    text: &mut TextBuffer,
    label: &Label,
    counts: &CaptureCounts,
    told: &ToldCounts,
    place: u64,
    why: FileWhy,
    path: Option<&str>,
    extent: Extent,
) -> Result<(), AllocError>
    ensures { OnOk result (text.new ≡ text.old ++ line_of label.now (capture_refused_record label.now.form counts.now told.now place why (option_copied path.entry) extent)) }
{
    label.begin(text)?;
    krb_record::put_capture_refusal(text, label.form(), counts, told, place, why, path, extent)?;
    label.end(text)
}
