//! Records of what is refused.

ghost use Rattle.std.specs.Prelude.{◌≡◌, [], ◌∷◌, ◌++◌, OnOk, codes, pos};
ghost use Rattle.std.specs.Option.{option_copied};
ghost use Rattle.krb_der.specs.Reasons.{reason_name, reason_number};
ghost use Rattle.krb_source.specs.FileReasons.{file_reason_name, file_reason_number};
ghost use Rattle.krb_source.specs.UnreadReasons.{unread_reason_name, unread_reason_number};
ghost use Rattle.krb_record.specs.Forms.{field, fields_text};
ghost use Rattle.krb_record.specs.Origins.{message_origin};
ghost use Rattle.krb_record.specs.Refusals.{at_field, extent_in, fault_record, file_refused_line, form_field, known_path, length_field, message_refused_line, path_in, refused_file, refused_message, spelling_in, untold_message_refused_line};
ghost use Rattle.krb_record.specs.declared.form.Form.TheVariants.{NamedLines};
ghost use Rattle.krb_record.specs.Values.{NoReason as IsNoReason, Number, Reason as IsReason};

use crate::cell::{put_no_cell, put_string_cell};
use crate::extent::Extent;
use crate::field::{put_end, put_opening};
use crate::form::Form;
use crate::json::put_string;
use crate::last::{Last, put_last};
use crate::message_origin::{MessageOrigin, put_message_opening};
use crate::path::Path;
use crate::put_field;
use crate::shown::{ABSENT, Plain, Shown, Text, put_begin};
use crate::text_buffer::TextBuffer;
use krb_der::{Refusal, Why, why_number, why_text};
use krb_source::{
    FileWhy, Spelling, UnreadWhy, file_why_number, file_why_text, unread_why_number,
    unread_why_text,
};
use std::alloc::AllocError;
use std::marker::Model;

/// The number and the name of a reason. Contracts see the two.
#[derive(Drop)]
pub struct Reason {
    number: u8,
    name: &'static str,
}

impl Model for Reason {
    ghost use Rattle.std.specs.Prelude.{List, ℕ};
    ghost use Rattle.std.specs.Str.{IsAscii};

    ghost Value = { ℕ × List ℕ };

    ghost view = { λ reason. (reason.number, reason.name.now) };

    ghost invariant = { λ reason. IsAscii reason.name.now };
}

impl Reason {
    /// Returns the number and the name of why octets are refused.
    #[tactic(auto, using(crate::proofs::Reasons::reason_is_ascii))]
    pub fn of(why: Why) -> Reason
        ensures { result ≡ (reason_number why, reason_name why) }
    {
        Reason {
            number: why_number(why),
            name: why_text(why),
        }
    }

    /// Returns the number and the name of why a file is refused.
    #[tactic(auto, using(crate::proofs::Reasons::file_reason_is_ascii))]
    pub fn of_file(why: FileWhy) -> Reason
        ensures { result ≡ (file_reason_number why, file_reason_name why) }
    {
        Reason {
            number: file_why_number(why),
            name: file_why_text(why),
        }
    }

    /// Returns the number and the name of why octets of a capture are in no message.
    #[tactic(auto, using(crate::proofs::Reasons::unread_reason_is_ascii))]
    pub fn of_unread(why: UnreadWhy) -> Reason
        ensures { result ≡ (unread_reason_number why, unread_reason_name why) }
    {
        Reason {
            number: unread_why_number(why),
            name: unread_why_text(why),
        }
    }
}

/// The number, a blank and the name.
impl Shown for Reason {
    ghost shown = { λ reason. IsReason reason.0 reason.1 };

    #[tactic(auto, unfolding(crate::specs::Forms::value_text))]
    fn put_text(&self, line: &mut TextBuffer, _names: bool) -> Result<(), AllocError> {
        line.push_integer(self.number)?;
        line.push_str(" ")?;
        line.push_str(self.name)
    }

    #[tactic(auto, unfolding(crate::specs::Forms::members, crate::specs::Forms::json_value, crate::specs::Forms::names_member))]
    fn put_members(&self, object: &mut TextBuffer, begin: &str) -> Result<(), AllocError> {
        put_begin(object, begin)?;
        object.push_integer(self.number)?;
        object.push_str(begin)?;
        object.push_str("_name\":")?;
        put_string(object, self.name.as_bytes())
    }

    #[tactic(auto, unfolding(crate::specs::Forms::cell))]
    fn put_cell(&self, text: &mut TextBuffer, path: Path) -> Result<(), AllocError> {
        match path {
            Path::Whole => text.push_integer(self.number),
            Path::Name => put_string_cell(text, self.name.as_bytes()),
            _ => put_no_cell(text),
        }
    }
}

/// That there is no reason.
#[derive(Clone, Copy)]
pub(crate) struct NoReason;

/// `-` in a line, and null in an object, for the number and for the name.
impl Shown for NoReason {
    ghost shown = { λ none. IsNoReason };

    #[tactic(auto, unfolding(crate::specs::Forms::value_text))]
    fn put_text(&self, line: &mut TextBuffer, _names: bool) -> Result<(), AllocError> {
        line.push_str("-")
    }

    #[tactic(auto, unfolding(crate::specs::Forms::members, crate::specs::Forms::json_value, crate::specs::Forms::names_member))]
    fn put_members(&self, object: &mut TextBuffer, begin: &str) -> Result<(), AllocError> {
        put_begin(object, begin)?;
        object.push_str("null")?;
        object.push_str(begin)?;
        object.push_str("_name\":null")
    }

    #[tactic(auto, unfolding(crate::specs::Forms::cell))]
    fn put_cell(&self, text: &mut TextBuffer, _path: Path) -> Result<(), AllocError> {
        put_no_cell(text)
    }
}

/// Appends the path of the field at fault, if there is one; to a line only if numbers have their
/// names.
pub fn put_path(text: &mut TextBuffer, form: Form, path: Option<&str>) -> Result<(), AllocError>
    ensures { OnOk result (text.new ≡ text.old ++ fields_text form (path_in form (option_copied path.entry))) }
{
    let shown = match path {
        None => None,
        Some(path) => Some(Text(path.as_bytes())),
    };
    if form.is_plain() {
        return Ok(());
    }
    put_field!(text, form, "in": &shown)
}

/// Returns a path, if records of a form show it.
pub(crate) fn known_path<'a>(form: Form, path: Option<&'a str>) -> Option<&'a str>
    ensures { option_copied result ≡ known_path form (option_copied path.entry) }
{
    if form.shows_paths() { path } else { None }
}

/// Appends the fields of where the octets lie that are refused.
pub(crate) fn put_at_and_length(
    text: &mut TextBuffer,
    form: Form,
    extent: Extent,
) -> Result<(), AllocError>
    ensures { OnOk result (text.new ≡ text.old ++ fields_text form (at_field extent ∷ length_field extent ∷ [])) }
{
    put_field!(text, form, "at": &extent.at)?;
    put_field!(text, form, "length": &extent.length)
}

/// Appends the field of how octets are spelled, if they are.
pub(crate) fn put_form_field(
    text: &mut TextBuffer,
    form: Form,
    spelling: Option<Spelling>,
) -> Result<(), AllocError>
    ensures { OnOk result (text.new ≡ text.old ++ fields_text form (form_field spelling ∷ [])) }
{
    match spelling {
        None => put_field!(text, form, "form": &ABSENT),
        Some(spelling) => {
            let name = Plain::new(spelling.name().as_bytes());
            put_field!(text, form, "form": &name)
        }
    }
}

/// Appends where the octets lie that are refused; to a line only if numbers have their names.
fn put_extent(text: &mut TextBuffer, form: Form, extent: Extent) -> Result<(), AllocError>
    ensures { OnOk result (text.new ≡ text.old ++ fields_text form (extent_in form extent)) }
{
    if form.is_plain() {
        return Ok(());
    }
    put_at_and_length(text, form, extent)
}

/// Appends how the octets are spelled that are refused; to a line only if numbers have their names.
fn put_spelling(text: &mut TextBuffer, form: Form, spelling: Spelling) -> Result<(), AllocError>
    ensures { OnOk result (text.new ≡ text.old ++ fields_text form (spelling_in form spelling)) }
{
    if form.is_plain() {
        return Ok(());
    }
    put_form_field(text, form, Some(spelling))
}

/// Appends the path of the field at fault, and where the octets lie that are refused; to a line only
/// if numbers have their names.
pub(crate) fn put_located(
    text: &mut TextBuffer,
    form: Form,
    path: Option<&str>,
    extent: Extent,
) -> Result<(), AllocError>
    ensures { OnOk result (text.new ≡ text.old ++ fields_text form (path_in form (option_copied path.entry) ++ extent_in form extent)) }
{
    put_path(text, form, path)?;
    put_extent(text, form, extent)
}

/// Appends the path of the field at fault, where the octets lie that are refused, and how they are
/// spelled; to a line only if numbers have their names.
fn put_located_and_spelled(
    text: &mut TextBuffer,
    form: Form,
    path: Option<&str>,
    extent: Extent,
    spelling: Spelling,
) -> Result<(), AllocError>
    ensures { OnOk result (text.new ≡ text.old ++ fields_text form (path_in form (option_copied path.entry) ++ extent_in form extent ++ spelling_in form spelling)) }
{
    put_located(text, form, path, extent)?;
    put_spelling(text, form, spelling)
}

/// Appends the fields of a place and a reason.
pub(crate) fn put_place(
    text: &mut TextBuffer,
    form: Form,
    place: u64,
    reason: &Reason,
) -> Result<(), AllocError>
    ensures { OnOk result (text.new ≡ text.old ++ field form (codes "place") (Number (pos place)) ++ field form (codes "why") (IsReason reason.now.0 reason.now.1)) }
{
    put_field!(text, form, "place": &place)?;
    put_field!(text, form, "why": reason)
}

/// Appends the fields of a place, a reason and, to a line only if numbers have their names, the path
/// of the field at fault and where the octets lie that are refused.
pub fn put_fault_fields(
    text: &mut TextBuffer,
    form: Form,
    place: u64,
    reason: &Reason,
    path: Option<&str>,
    extent: Extent,
) -> Result<(), AllocError>
    ensures { OnOk result (text.new ≡ text.old ++ fields_text form (fault_record place reason.now.0 reason.now.1 (path_in form (option_copied path.entry) ++ extent_in form extent)).fields) }
{
    put_place(text, form, place, reason)?;
    put_located(text, form, path, extent)
}

/// A file that is refused.
#[derive(Clone, Copy)]
struct RefusedFile<'a> {
    place: u64,
    why: FileWhy,
    path: Option<&'a str>,
    extent: Extent,
}

impl<'a> Last for RefusedFile<'a> {
    ghost origin = { λ file. [] };

    ghost kind = { λ form file. codes "refused" };

    ghost fields = { λ form file. (refused_file form file.place file.why (option_copied file.path) file.extent).fields };

    ghost told = { λ file. (refused_file NamedLines file.place file.why (option_copied file.path) file.extent).fields };

    fn put(&self, text: &mut TextBuffer, form: Form) -> Result<(), AllocError> {
        let reason = Reason::of_file(self.why);
        put_opening(text, form, "refused")?;
        put_fault_fields(text, form, self.place, &reason, self.path, self.extent)
    }

    fn put_told(&self, text: &mut TextBuffer) -> Result<(), AllocError> {
        self.put(text, Form::NamedLines)
    }
}

/// Appends the line of a refused file: the place of the field at fault and what is wrong with it,
/// and, to a line only if numbers have their names, its path and where the part lies that is
/// refused.
#[tactic(auto, unfolding(crate::specs::Forms::record_text))]
pub fn put_file_refusal(
    text: &mut TextBuffer,
    form: Form,
    place: u64,
    why: FileWhy,
    path: Option<&str>,
    extent: Extent,
) -> Result<(), AllocError>
    ensures { OnOk result (text.new ≡ text.old ++ file_refused_line form place why (option_copied path.entry) extent) }
{
    let file = RefusedFile {
        place,
        why,
        path: known_path(form, path),
        extent,
    };
    put_last(text, form, &file)
}

/// Octets of an origin that are no message.
#[derive(Clone, Copy)]
struct RefusedMessage<'a> {
    origin: &'a MessageOrigin<'a>,
    refusal: Refusal,
    path: Option<&'a str>,
    extent: Extent,
    spelling: Spelling,
}

impl<'a> Last for RefusedMessage<'a> {
    ghost origin = { λ message. message_origin message.origin.now.line message.origin.now.layers.now };

    ghost kind = { λ form message. codes "refused" };

    ghost fields = { λ form message. (refused_message form message.refusal (option_copied message.path) message.extent message.spelling).fields };

    ghost told = { λ message. (refused_message NamedLines message.refusal (option_copied message.path) message.extent message.spelling).fields };

    fn put(&self, text: &mut TextBuffer, form: Form) -> Result<(), AllocError> {
        let place = u64::from(self.refusal.place);
        put_message_opening(text, form, self.origin, "refused")?;
        put_place(text, form, place, &Reason::of(self.refusal.why))?;
        put_located_and_spelled(text, form, self.path, self.extent, self.spelling)
    }

    fn put_told(&self, text: &mut TextBuffer) -> Result<(), AllocError> {
        self.put(text, Form::NamedLines)
    }
}

/// Appends the line of octets of an origin that are no message: the place of the octet at fault and
/// what is wrong with it, and, to a line only if numbers have their names, the path of the field at
/// fault, where the octets lie in the input, and how they are spelled there.
#[tactic(auto, unfolding(crate::specs::Forms::record_text))]
pub fn put_message_refusal(
    text: &mut TextBuffer,
    form: Form,
    origin: &MessageOrigin<'_>,
    refusal: Refusal,
    path: Option<&str>,
    extent: Extent,
    spelling: Spelling,
) -> Result<(), AllocError>
    ensures { OnOk result (text.new ≡ text.old ++ message_refused_line form (message_origin origin.now.line origin.now.layers.now) refusal (option_copied path.entry) extent spelling) }
{
    let message = RefusedMessage {
        origin,
        refusal,
        path: known_path(form, path),
        extent,
        spelling,
    };
    put_last(text, form, &message)
}

/// Appends the line of octets that are no message, as [`put_message_refusal`] does without an
/// origin, and with nothing that is told but the path.
#[tactic(auto, unfolding(crate::specs::Forms::record_text))]
pub fn put_untold_message_refusal(
    text: &mut TextBuffer,
    form: Form,
    refusal: Refusal,
    path: Option<&str>,
) -> Result<(), AllocError>
    ensures { OnOk result (text.new ≡ text.old ++ untold_message_refused_line form refusal (option_copied path.entry)) }
{
    put_opening(text, form, "refused")?;
    put_place(
        text,
        form,
        u64::from(refusal.place),
        &Reason::of(refusal.why),
    )?;
    put_path(text, form, path)?;
    put_end(text, form)
}
