//! What is told of an exchange: which request a reply answers, how long that took, and what was sent
//! before.

ghost use Rattle.std.specs.Prelude.{◌≡◌, ◌++◌, ◌<◌, OnOk};
ghost use Rattle.krb_record.specs.Captures.{again_fields, answer_fields, request_name, four_counts, told_counts, told_fields, told_in};
ghost use Rattle.krb_record.specs.Forms.{fields_text, seconds_text, span_text};
ghost use Rattle.krb_record.specs.Time.{last_digits};
ghost use Rattle.krb_record.specs.Values.{Span as IsSpan, Word};

use crate::cell::{put_no_cell, put_string_cell};
use crate::form::{Base, Form};
use crate::json::put_string;
use crate::path::Path;
use crate::put_field;
use crate::shown::{Shown, put_begin};
use crate::text_buffer::TextBuffer;
use std::alloc::AllocError;

/// A span of time, which is negative if a clock stepped back.
#[derive(Clone, Copy, PartialEq, Eq, Debug)]
pub struct Span {
    /// The microseconds.
    pub microseconds: i64,
}

/// Returns the last six digits of a number.
fn six_digits(number: u64) -> [u8; 6]
    ensures { result ≡ last_digits 6 number }
{
    [
        b'0' + (number / 100_000 % 10) as u8,
        b'0' + (number / 10_000 % 10) as u8,
        b'0' + (number / 1000 % 10) as u8,
        b'0' + (number / 100 % 10) as u8,
        b'0' + (number / 10 % 10) as u8,
        b'0' + (number % 10) as u8,
    ]
}

/// Appends microseconds as seconds, a dot and six digits.
fn put_seconds(line: &mut TextBuffer, microseconds: u64) -> Result<(), AllocError>
    ensures { OnOk result (line.new ≡ line.old ++ seconds_text microseconds) }
{
    line.push_number(microseconds / 1_000_000)?;
    line.push_sign(".")?;
    line.push_ascii(&six_digits(microseconds))
}

/// Appends a span of time, after `-` if it is negative.
#[tactic(auto, unfolding(crate::specs::Forms::span_text))]
fn put_span(line: &mut TextBuffer, microseconds: i64) -> Result<(), AllocError>
    ensures { OnOk result (line.new ≡ line.old ++ span_text microseconds) }
{
    if microseconds < 0 {
        line.push_sign("-")?;
    }
    put_seconds(line, microseconds.unsigned_abs())
}

/// Seconds with six digits in a line, and the microseconds in an object.
impl Shown for Span {
    ghost shown = { λ span. IsSpan span.microseconds };

    #[tactic(auto, unfolding(crate::specs::Forms::value_text))]
    fn put_text(&self, line: &mut TextBuffer, _names: bool) -> Result<(), AllocError> {
        put_span(line, self.microseconds)
    }

    #[tactic(auto, unfolding(crate::specs::Forms::members, crate::specs::Forms::json_value, crate::specs::Forms::names_member))]
    fn put_members(&self, object: &mut TextBuffer, begin: &str) -> Result<(), AllocError> {
        put_begin(object, begin)?;
        object.push_signed(self.microseconds)
    }

    #[tactic(auto, unfolding(crate::specs::Forms::cell))]
    fn put_cell(&self, text: &mut TextBuffer, path: Path) -> Result<(), AllocError> {
        match path {
            Path::Whole => text.push_signed(self.microseconds),
            _ => put_no_cell(text),
        }
    }
}

/// What a message of the KDC or of a server of changes of passwords is asked by.
#[derive(Clone, Copy, PartialEq, Eq, PartialOrd, Ord, Debug)]
pub enum Request {
    /// An AS-REQ (RFC 4120, 5.4.1).
    AsReq,
    /// A TGS-REQ (the same).
    TgsReq,
    /// A message that changes a password (RFC 3244, 2).
    Kpasswd,
}

impl Request {
    /// Returns its name in records.
    fn name(self) -> &'static str
        ensures { result.now ≡ request_name self }
    {
        match self {
            Request::AsReq => "AS-REQ",
            Request::TgsReq => "TGS-REQ",
            Request::Kpasswd => "KPASSWD",
        }
    }
}

/// Its name.
impl Shown for Request {
    ghost shown = { λ kind. Word (request_name kind) };

    #[tactic(auto, unfolding(crate::specs::Forms::value_text))]
    fn put_text(&self, line: &mut TextBuffer, _names: bool) -> Result<(), AllocError> {
        line.push_str(self.name())
    }

    #[tactic(auto, unfolding(crate::specs::Forms::members, crate::specs::Forms::json_value, crate::specs::Forms::names_member))]
    fn put_members(&self, object: &mut TextBuffer, begin: &str) -> Result<(), AllocError> {
        put_begin(object, begin)?;
        put_string(object, self.name().as_bytes())
    }

    #[tactic(auto, unfolding(crate::specs::Forms::cell))]
    fn put_cell(&self, text: &mut TextBuffer, path: Path) -> Result<(), AllocError> {
        match path {
            Path::Whole => put_string_cell(text, self.name().as_bytes()),
            _ => put_no_cell(text),
        }
    }
}

/// The request that a reply answers.
#[derive(Clone, Copy, PartialEq, Eq, Debug)]
pub struct Answer {
    /// The packet of the request, if there is one.
    pub of: Option<u64>,
    /// How long after that packet, if both have a time.
    pub after: Option<Span>,
    /// How long after the first sending of the same octets, if both have a time.
    pub waited: Option<Span>,
}

/// What the origin of a record tells of an exchange.
#[derive(Clone, Copy, PartialEq, Eq, Debug)]
pub enum Told {
    /// Nothing.
    Nothing,
    /// Of a request: the packet with which the same octets were sent first, if they were sent
    /// before.
    Request(Option<u64>),
    /// Of a reply: the request that it answers.
    Reply(Answer),
    /// Of what may be either.
    Either(Option<u64>, Answer),
}

/// What was told in a capture.
#[derive(Clone, Copy, PartialEq, Eq, Debug, Default)]
pub struct ToldCounts {
    /// The replies to a request that was captured.
    pub answered: u64,
    /// The requests that no reply answered.
    pub unanswered: u64,
    /// The requests that were sent before.
    pub again: u64,
    /// How often somebody could not be reached.
    pub unreachable: u64,
}

/// Appends the field of a request.
fn put_again(text: &mut TextBuffer, form: Form, again: Option<u64>) -> Result<(), AllocError>
    ensures { OnOk result (text.new ≡ text.old ++ fields_text form (again_fields again)) }
{
    put_field!(text, form, "again": &again)
}

/// Appends the fields of a reply.
pub(crate) fn put_answer(
    text: &mut TextBuffer,
    form: Form,
    answer: &Answer,
) -> Result<(), AllocError>
    ensures { OnOk result (text.new ≡ text.old ++ fields_text form (answer_fields answer.now)) }
{
    put_field!(text, form, "of": &answer.of)?;
    put_field!(text, form, "after": &answer.after)?;
    put_field!(text, form, "waited": &answer.waited)
}

/// Appends the fields of what is told.
#[tactic(auto, unfolding(crate::specs::Captures::told_fields))]
pub(crate) fn put_told(text: &mut TextBuffer, form: Form, told: &Told) -> Result<(), AllocError>
    ensures { OnOk result (text.new ≡ text.old ++ fields_text form (told_fields told.now)) }
{
    match told {
        Told::Nothing => Ok(()),
        Told::Request(again) => put_again(text, form, *again),
        Told::Reply(answer) => put_answer(text, form, answer),
        Told::Either(again, answer) => {
            put_again(text, form, *again)?;
            put_answer(text, form, answer)
        }
    }
}

/// Appends what an origin tells: to a line with names alone.
#[tactic(auto, unfolding(crate::specs::Captures::told_in))]
pub(crate) fn put_told_in(text: &mut TextBuffer, form: Form, told: &Told) -> Result<(), AllocError>
    ensures { OnOk result (text.new ≡ text.old ++ fields_text form (told_in form told.now)) }
{
    match form.base() {
        Some(Base::NamedLines) => put_told(text, form, told),
        Some(Base::Lines | Base::Json) | None => Ok(()),
    }
}

/// Appends the fields of the counts.
fn put_four_counts(text: &mut TextBuffer, form: Form, told: &ToldCounts) -> Result<(), AllocError>
    ensures { OnOk result (text.new ≡ text.old ++ fields_text form (four_counts told.now)) }
{
    put_field!(text, form, "answered": &told.answered)?;
    put_field!(text, form, "unanswered": &told.unanswered)?;
    put_field!(text, form, "again": &told.again)?;
    put_field!(text, form, "unreachable": &told.unreachable)
}

/// Appends the fields of the counts of what was told, but to a line without names.
#[tactic(auto, unfolding(crate::specs::Captures::told_counts))]
pub(crate) fn put_told_counts(
    text: &mut TextBuffer,
    form: Form,
    told: &ToldCounts,
) -> Result<(), AllocError>
    ensures { OnOk result (text.new ≡ text.old ++ fields_text form (told_counts form told.now)) }
{
    if form.is_plain() {
        return Ok(());
    }
    put_four_counts(text, form, told)
}
