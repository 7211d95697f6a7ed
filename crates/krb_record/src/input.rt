//! Records of input that is refused before it is looked at as a message.

ghost use Rattle.std.specs.Prelude.{◌≡◌, ◌++◌, OnOk, codes};
ghost use Rattle.krb_record.specs.Forms.{fields_text, heading};
ghost use Rattle.krb_record.specs.Inputs.{input_kind, input_member, input_refused_line, input_told, input_word};
ghost use Rattle.krb_record.specs.Origins.{message_origin};
ghost use Rattle.krb_record.specs.declared.form.Form.TheVariants.{NamedLines};

use crate::extent::Extent;
use crate::form::{Base, Form};
use crate::last::{Last, put_last};
use crate::message_origin::{MessageOrigin, put_message_opening};
use crate::put_field;
use crate::refusal::{NoReason, put_at_and_length, put_form_field};
use crate::shown::{ABSENT, Plain};
use crate::text_buffer::TextBuffer;
use krb_source::Spelling;
use std::alloc::AllocError;

/// Why input is not looked at as a message.
#[derive(Clone, Copy, PartialEq, Eq, Debug)]
pub enum InputFault {
    /// It is too long.
    Length,
    /// It is spelled wrongly.
    Misspelled(Spelling),
    /// It is a token of NTLM (MS-NLMP, 2.2.1).
    Ntlm,
}

impl InputFault {
    /// Returns its word.
    pub fn word(self) -> &'static str
        ensures { result.now ≡ input_word self }
    {
        match self {
            InputFault::Length => "length",
            InputFault::Misspelled(spelling) => spelling.name(),
            InputFault::Ntlm => "ntlm",
        }
    }

    /// Returns the kind of its line.
    fn kind_in_line(self) -> &'static str
        ensures { result.now ≡ codes "refused " ++ input_word self }
    {
        match self {
            InputFault::Length => "refused length",
            InputFault::Misspelled(Spelling::Octets) => "refused octets",
            InputFault::Misspelled(Spelling::Hex) => "refused hex",
            InputFault::Misspelled(Spelling::Dump) => "refused dump",
            InputFault::Misspelled(Spelling::Base64) => "refused base64",
            InputFault::Ntlm => "refused ntlm",
        }
    }
}

/// Appends the fields of refused input that are told: the place, if there is one, no reason, no
/// path, where the input lies, and how its octets are spelled.
fn put_input_told(
    text: &mut TextBuffer,
    form: Form,
    place: Option<u64>,
    extent: Extent,
    spelling: Option<Spelling>,
) -> Result<(), AllocError>
    ensures { OnOk result (text.new ≡ text.old ++ fields_text form (input_told form place extent spelling)) }
{
    if form.is_plain() {
        return Ok(());
    }
    put_field!(text, form, "place": &place)?;
    put_field!(text, form, "why": &NoReason)?;
    put_field!(text, form, "in": &ABSENT)?;
    put_at_and_length(text, form, extent)?;
    put_form_field(text, form, spelling)
}

/// Appends the fields of refused input: its word, which a line has in its kind, and what is told.
fn put_input_fields(
    text: &mut TextBuffer,
    form: Form,
    fault: InputFault,
    place: Option<u64>,
    extent: Extent,
    spelling: Option<Spelling>,
) -> Result<(), AllocError>
    ensures { OnOk result (text.new ≡ text.old ++ fields_text form (input_member form fault ++ input_told form place extent spelling)) }
{
    match form.base() {
        Some(Base::Lines | Base::NamedLines) => {
            put_input_told(text, form, place, extent, spelling)
        }
        Some(Base::Json) | None => {
            let word = Plain::new(fault.word().as_bytes());
            put_field!(text, form, "input": &word)?;
            put_input_told(text, form, place, extent, spelling)
        }
    }
}

/// Appends what precedes the fields of refused input.
fn put_input_opening(
    text: &mut TextBuffer,
    form: Form,
    origin: &MessageOrigin<'_>,
    fault: InputFault,
) -> Result<(), AllocError>
    ensures { OnOk result (text.new ≡ text.old ++ heading form (message_origin origin.now.line origin.now.layers.now) (input_kind form fault)) }
{
    match form.base() {
        Some(Base::Lines | Base::NamedLines) => {
            put_message_opening(text, form, origin, fault.kind_in_line())
        }
        Some(Base::Json) | None => put_message_opening(text, form, origin, "refused"),
    }
}

/// Input of an origin that is not looked at as a message.
#[derive(Clone, Copy)]
struct RefusedInput<'a> {
    origin: &'a MessageOrigin<'a>,
    fault: InputFault,
    place: Option<u64>,
    extent: Extent,
    spelling: Option<Spelling>,
}

impl<'a> Last for RefusedInput<'a> {
    ghost origin = { λ input. message_origin input.origin.now.line input.origin.now.layers.now };

    ghost kind = { λ form input. input_kind form input.fault };

    ghost fields = { λ form input. input_member form input.fault ++ input_told form input.place input.extent input.spelling };

    ghost told = { λ input. input_member NamedLines input.fault ++ input_told NamedLines input.place input.extent input.spelling };

    fn put(&self, text: &mut TextBuffer, form: Form) -> Result<(), AllocError> {
        put_input_opening(text, form, self.origin, self.fault)?;
        put_input_fields(
            text,
            form,
            self.fault,
            self.place,
            self.extent,
            self.spelling,
        )
    }

    fn put_told(&self, text: &mut TextBuffer) -> Result<(), AllocError> {
        self.put(text, Form::NamedLines)
    }
}

/// Appends the line of input of an origin that is not looked at as a message: why, and, to a line
/// only if numbers have their names, the place of the octet at fault, where the input lies, and how
/// its octets are spelled.
#[tactic(auto, unfolding(crate::specs::Forms::record_text))]
pub fn put_input_refusal(
    text: &mut TextBuffer,
    form: Form,
    origin: &MessageOrigin<'_>,
    fault: InputFault,
    place: Option<u64>,
    extent: Extent,
    spelling: Option<Spelling>,
) -> Result<(), AllocError>
    ensures { OnOk result (text.new ≡ text.old ++ input_refused_line form (message_origin origin.now.line origin.now.layers.now) fault place extent spelling) }
{
    let input = RefusedInput {
        origin,
        fault,
        place,
        extent,
        spelling,
    };
    put_last(text, form, &input)
}
