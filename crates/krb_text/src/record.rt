//! Records of messages: octets are viewed as a message of their kind, and its record is
//! appended.

ghost use Rattle.std.specs.Prelude.{◌≡◌, ◌++◌, IfOk, List, MatchOption, OnOk, Option};
ghost use Rattle.krb_msg.specs.ViewValues.{BeginAs, IsNoMessage};
ghost use Rattle.krb_record.specs.Forms.{end_text, fields_text, heading, parts_text, shows_kind};
ghost use Rattle.krb_record.specs.Origins.{message_origin};
ghost use Rattle.krb_text.specs.Messages.{PutsMessage, captured_message_line, message_line, message_line_from, message_text};
ghost use Rattle.krb_record.specs.Values.{Field, Part};
ghost use Rattle.krb_text.specs.inner.Records.{IsRecordedAs, heading_last, heading_origin, is_kept, line_after, shown_text, text_after};
ghost use Rattle.krb_msg.specs.Views.{kind_name};

use crate::notes::{ShownNotes, has_any};
use krb_der::{Memory, Profile};
use krb_msg::message_kinds::{
    ApRepKind, ApReqKind, AsRepKind, AsReqKind, KrbCredKind, KrbErrorKind, KrbPrivKind,
    KrbSafeKind, TgsRepKind, TgsReqKind,
};
use krb_msg::{Kind, MessageKind, Notes};
use krb_record::{
    CaptureOrigin, Form, MessageOrigin, TextBuffer, put_captured_closing, put_captured_opening,
    put_closing, put_field, put_message_opening, put_opening,
};
use std::alloc::AllocError;

/// The most octets of a message (RFC 4120, 7.2.2).
const MOST: usize = 0x7FFF_FFFF;

/// A view of a message of some kind.
pub(crate) trait HasRecord {
    /// What is known of a view.
    ghost IsValid: { Self → Type 0 };

    /// The fields of its record but the notes.
    ghost fields: { Self → List Field };

    /// The parts of its record, if it may have some.
    ghost inside: { Self → Option (List Part) };

    /// Appends the fields but the notes.
    fn put_fields(&self, text: &mut TextBuffer, form: Form) -> Result<(), AllocError>
        requires { IsValid self.now }
        ensures { OnOk result (text.new ≡ text.old ++ fields_text form (fields self.now)) };

    /// Appends the parts, if it may have some.
    fn put_inside(&self, text: &mut TextBuffer, form: Form) -> Result<(), AllocError>
        requires { IsValid self.now }
        ensures { OnOk result (text.new ≡ text.old ++ parts_text form (inside self.now)) };
}

/// What the record of a message has besides the message: its origin.
#[derive(Clone, Copy)]
pub(crate) enum Heading<'a> {
    /// Nothing.
    Alone,
    /// That of a message of a capture.
    Captured(&'a CaptureOrigin),
    /// That of a message that does not lie in an input by itself.
    From(&'a MessageOrigin<'a>),
}

/// Appends what precedes the fields of the record of a message.
#[inline(always)]
fn put_heading(
    text: &mut TextBuffer,
    form: Form,
    from: Heading<'_>,
    kind: &str,
) -> Result<(), AllocError>
    ensures { OnOk result (text.new ≡ text.old ++ heading form (heading_origin form from.entry) kind.now) }
{
    match from {
        Heading::Alone => put_opening(text, form, kind),
        Heading::Captured(origin) => put_captured_opening(text, form, origin, kind),
        Heading::From(origin) => put_message_opening(text, form, origin, kind),
    }
}

/// Appends what ends the record of a message.
#[inline(always)]
fn put_last(text: &mut TextBuffer, form: Form, from: Heading<'_>) -> Result<(), AllocError>
    ensures { OnOk result (text.new ≡ text.old ++ end_text form (heading_last from.entry)) }
{
    match from {
        Heading::Alone | Heading::From(_) => put_closing(text, form),
        Heading::Captured(origin) => put_captured_closing(text, form, origin),
    }
}

/// Returns whether a message in which these notes hold is one of a profile. None may hold in one of
/// the strict profile.
#[inline(always)]
fn is_kept(profile: Profile, notes: &Notes) -> bool
    ensures { result ≡ is_kept profile notes.now }
{
    match profile {
        Profile::Lenient => true,
        Profile::Strict => !has_any(notes),
    }
}

/// Appends the fields of a message, and what is inside of it, if the form shows messages of the kind.
#[inline(always)]
fn put_shown<M: HasRecord>(
    text: &mut TextBuffer,
    form: Form,
    kind: Kind,
    view: &M,
    notes: &Notes,
) -> Result<(), AllocError>
    requires { M.IsValid view.now }
    ensures { OnOk result (text.new ≡ text.old ++ shown_text (shows_kind form (kind_name kind)) form (M.fields view.now) notes.now (M.inside view.now)) }
{
    if !form.shows_kind(kind.name()) {
        return Ok(());
    }
    view.put_fields(text, form)?;
    put_field!(text, form, "notes": &ShownNotes(notes))?;
    view.put_inside(text, form)
}

/// Appends the record of a message of a kind without its line feed, if octets are one of a profile,
/// and returns whether they are. They are viewed once, and the notes are looked for once.
fn put_kind<'a, K: MessageKind<'a>>(
    text: &mut TextBuffer,
    form: Form,
    from: Heading<'_>,
    profile: Profile,
    kind: Kind,
    octets: &'a [u8],
) -> Result<bool, AllocError>
where
    K::View: HasRecord,
    requires begin { BeginAs K.kind octets.now }
    requires recorded { (view : K.View) → IsRecordedAs kind (K.View.IsValid view) (K.View.fields view) (K.View.inside view) (K.as_message view) }
    ensures { IfOk result (PutsMessage profile octets.now (text_after form from.entry) text.old text.new) }
{
    let mut view = Default::default();
    if !K::view_into(octets, &mut view) {
        return Ok(false);
    }
    let notes = K::notes(&view);
    if !is_kept(profile, &notes) {
        return Ok(false);
    }
    put_heading(text, form, from, kind.name())?;
    put_shown(text, form, kind, &view, &notes)?;
    put_last(text, form, from)?;
    Ok(true)
}

/// Returns the kind of the message that octets begin as, if they may be one.
#[inline(always)]
fn kind_of(octets: &[u8]) -> Option<Kind>
    ensures { MatchOption result (IsNoMessage octets.now) (λ kind. BeginAs kind octets.now) }
{
    if octets.len() > MOST {
        return None;
    }
    let [first, ..] = octets else {
        return None;
    };
    Kind::of_tag(*first)
}

/// Appends the record of a message without its line feed, if octets are one of a profile, and
/// returns whether they are.
fn put_text(
    text: &mut TextBuffer,
    form: Form,
    from: Heading<'_>,
    profile: Profile,
    octets: &[u8],
) -> Result<bool, AllocError>
    ensures { IfOk result (PutsMessage profile octets.now (text_after form from.entry) text.old text.new) }
{
    let Some(kind) = kind_of(octets) else {
        return Ok(false);
    };
    match kind {
        Kind::AsReq => put_kind::<AsReqKind>(text, form, from, profile, Kind::AsReq, octets),
        Kind::AsRep => put_kind::<AsRepKind>(text, form, from, profile, Kind::AsRep, octets),
        Kind::TgsReq => put_kind::<TgsReqKind>(text, form, from, profile, Kind::TgsReq, octets),
        Kind::TgsRep => put_kind::<TgsRepKind>(text, form, from, profile, Kind::TgsRep, octets),
        Kind::ApReq => put_kind::<ApReqKind>(text, form, from, profile, Kind::ApReq, octets),
        Kind::ApRep => put_kind::<ApRepKind>(text, form, from, profile, Kind::ApRep, octets),
        Kind::KrbSafe => put_kind::<KrbSafeKind>(text, form, from, profile, Kind::KrbSafe, octets),
        Kind::KrbPriv => put_kind::<KrbPrivKind>(text, form, from, profile, Kind::KrbPriv, octets),
        Kind::KrbCred => put_kind::<KrbCredKind>(text, form, from, profile, Kind::KrbCred, octets),
        Kind::KrbError => {
            put_kind::<KrbErrorKind>(text, form, from, profile, Kind::KrbError, octets)
        }
    }
}

/// Appends the record of a message with its line feed, if octets are one of a profile, and returns
/// whether they are.
pub(crate) fn put_record_of(
    text: &mut TextBuffer,
    form: Form,
    from: Heading<'_>,
    profile: Profile,
    octets: &[u8],
) -> Result<bool, Memory>
    ensures { IfOk result (PutsMessage profile octets.now (line_after form from.entry) text.old text.new) }
{
    if !put_text(text, form, from, profile, octets)? {
        return Ok(false);
    }
    text.push_sign("\n")?;
    Ok(true)
}

/// Appends a message, as a line or an object without its line feed, if octets are one of a profile,
/// and returns whether they are. More than 2147483647 octets are none.
pub fn put_message_text(
    text: &mut TextBuffer,
    form: Form,
    profile: Profile,
    octets: &[u8],
) -> Result<bool, Memory>
    ensures { IfOk result (PutsMessage profile octets.now (message_text form) text.old text.new) }
{
    Ok(put_text(text, form, Heading::Alone, profile, octets)?)
}

/// Appends a message, as a line or an object with its line feed, if octets are one of a profile, and
/// returns whether they are. More than 2147483647 octets are none.
pub fn put_message_in(
    text: &mut TextBuffer,
    form: Form,
    profile: Profile,
    octets: &[u8],
) -> Result<bool, Memory>
    ensures { IfOk result (PutsMessage profile octets.now (message_line form) text.old text.new) }
{
    put_record_of(text, form, Heading::Alone, profile, octets)
}

/// Appends a message that comes from an origin, if octets are one of a profile, as
/// [`put_message_in`] does: in a line the origin precedes its name, in an object it follows it.
pub fn put_message_from(
    text: &mut TextBuffer,
    form: Form,
    origin: &MessageOrigin<'_>,
    profile: Profile,
    octets: &[u8],
) -> Result<bool, Memory>
    ensures { IfOk result (PutsMessage profile octets.now (message_line_from form (message_origin origin.now.line origin.now.layers.now)) text.old text.new) }
{
    put_record_of(text, form, Heading::From(origin), profile, octets)
}

/// Appends a message of a capture, as a line or an object with its line feed, if octets are one of a
/// profile, and returns whether they are. More than 2147483647 octets are none.
pub fn put_captured_message(
    text: &mut TextBuffer,
    form: Form,
    origin: &CaptureOrigin,
    profile: Profile,
    octets: &[u8],
) -> Result<bool, Memory>
    ensures { IfOk result (PutsMessage profile octets.now (captured_message_line form origin.now) text.old text.new) }
{
    put_record_of(text, form, Heading::Captured(origin), profile, octets)
}
