//! Where records of captures come from.

ghost use Rattle.std.specs.Prelude.{◌≡◌, ◌++◌, OnOk};
ghost use Rattle.std.specs.Option.{option_map};
ghost use Rattle.krb_record.specs.Captures.{last_fields, origin_fields};
ghost use Rattle.krb_record.specs.Forms.{closing, end_text, fields_text, heading};
ghost use Rattle.krb_record.specs.Text.{line_feed};
ghost use Rattle.krb_record.specs.Time.{microseconds as microseconds_of};

use crate::field::put_closing;
use crate::flow::Flow;
use crate::form::{Base, Form};
use crate::origin::{Origin, put_opening_from};
use crate::put_field;
use crate::text_buffer::TextBuffer;
use crate::time::microseconds;
use crate::told::{Told, put_told, put_told_in};
use krb_source::Timestamp;
use std::alloc::AllocError;

/// Where a record of a capture comes from: the packet with which it is due, and the flow.
#[derive(Clone, Copy)]
pub struct CaptureOrigin {
    /// The number of the packet, from 1.
    pub packet: u64,
    /// When the packet was captured, if that is known.
    pub time: Option<Timestamp>,
    /// The flow.
    pub flow: Flow,
    /// What is told of the exchange of which the record is part. Lines without names have nothing
    /// of it.
    pub told: Told,
}

/// The packet, its time and the flow, and what a line with names has after these.
impl Origin for CaptureOrigin {
    ghost fields = { λ form origin. origin_fields form origin };

    fn put_fields(&self, text: &mut TextBuffer, form: Form) -> Result<(), AllocError> {
        put_field!(text, form, first "packet": &self.packet)?;
        put_field!(text, form, "t": &self.time)?;
        put_field!(text, form, "flow": &self.flow)?;
        put_told_in(text, form, &self.told)
    }
}

/// Appends what precedes the fields of a record of a capture: in a line its origin and then its
/// kind, in an object its kind and then its origin.
pub fn put_captured_opening(
    text: &mut TextBuffer,
    form: Form,
    origin: &CaptureOrigin,
    kind: &str,
) -> Result<(), AllocError>
    ensures { OnOk result (text.new ≡ text.old ++ heading form (origin_fields form origin.now) kind.now) }
{
    put_opening_from(text, form, origin, kind)
}

/// Returns the microseconds from the beginning of 1970 to a time, if that is known.
fn optional_microseconds(time: Option<Timestamp>) -> Option<u64>
    ensures { result ≡ option_map (λ time. microseconds_of time.seconds time.nanoseconds) time }
{
    match time {
        None => None,
        Some(time) => Some(microseconds(time)),
    }
}

/// Appends what follows the members of an object of a capture: its time as a number, what is told,
/// and its end.
fn put_captured_object_end(
    object: &mut TextBuffer,
    form: Form,
    origin: &CaptureOrigin,
) -> Result<(), AllocError>
    ensures { OnOk result (object.new ≡ object.old ++ fields_text form (last_fields origin.now) ++ closing form) }
{
    put_field!(object, form, "t_us": &optional_microseconds(origin.time))?;
    put_told(object, form, &origin.told)?;
    put_closing(object, form)
}

/// Appends what ends a record of a capture, after its fields and what is inside of it: an object has
/// the microseconds of its time there, and what is told.
#[inline(always)]
#[tactic(auto, unfolding(crate::specs::Forms::closing))]
pub fn put_captured_closing(
    text: &mut TextBuffer,
    form: Form,
    origin: &CaptureOrigin,
) -> Result<(), AllocError>
    ensures { OnOk result (text.new ≡ text.old ++ end_text form (last_fields origin.now)) }
{
    match form.base() {
        Some(Base::Lines | Base::NamedLines) => Ok(()),
        Some(Base::Json) | None => put_captured_object_end(text, form, origin),
    }
}

/// Appends what ends a record of a capture, and a line feed.
pub(crate) fn put_captured_end(
    text: &mut TextBuffer,
    form: Form,
    origin: &CaptureOrigin,
) -> Result<(), AllocError>
    ensures { OnOk result (text.new ≡ text.old ++ end_text form (last_fields origin.now) ++ line_feed) }
{
    put_captured_closing(text, form, origin)?;
    text.push_str("\n")
}
