//! The last records of streams, and those of their refusals.

ghost use Rattle.std.specs.Prelude.{◌≡◌, ◌++◌, [], OnOk, codes};
ghost use Rattle.std.specs.Option.{option_copied};
ghost use Rattle.krb_record.specs.declared.form.Form.TheVariants.{NamedLines};
ghost use Rattle.krb_record.specs.Streams.{counted_end, counted_end_line, refused_in, refused_line, stream_end_line, untold_refused_line};

use crate::extent::Extent;
use crate::field::{put_end, put_opening};
use crate::form::Form;
use crate::last::{Last, put_last};
use crate::put_field;
use crate::refusal::{Reason, known_path, put_located, put_path, put_place};
use crate::text_buffer::TextBuffer;
use krb_der::Refusal;
use std::alloc::AllocError;

/// How many messages and how many refused frames a stream had that was gone on with.
#[derive(Clone, Copy)]
struct Counts {
    messages: u64,
    refused: u64,
}

impl Last for Counts {
    ghost origin = { λ counts. [] };

    ghost kind = { λ form counts. codes "end" };

    ghost fields = { λ form counts. (counted_end counts.messages counts.refused).fields };

    ghost told = { λ counts. (counted_end counts.messages counts.refused).fields };

    fn put(&self, text: &mut TextBuffer, form: Form) -> Result<(), AllocError> {
        put_opening(text, form, "end")?;
        put_field!(text, form, "messages": &self.messages)?;
        put_field!(text, form, "refused": &self.refused)
    }

    fn put_told(&self, text: &mut TextBuffer) -> Result<(), AllocError> {
        self.put(text, Form::NamedLines)
    }
}

/// A frame that is refused.
#[derive(Clone, Copy)]
struct RefusedFrame<'a> {
    messages: u64,
    refusal: Refusal,
    path: Option<&'a str>,
    extent: Extent,
}

impl<'a> Last for RefusedFrame<'a> {
    ghost origin = { λ frame. [] };

    ghost kind = { λ form frame. codes "refused" };

    ghost fields = { λ form frame. (refused_in form frame.messages frame.refusal.place frame.refusal.why (option_copied frame.path) frame.extent).fields };

    ghost told = { λ frame. (refused_in NamedLines frame.messages frame.refusal.place frame.refusal.why (option_copied frame.path) frame.extent).fields };

    fn put(&self, text: &mut TextBuffer, form: Form) -> Result<(), AllocError> {
        let place = u64::from(self.refusal.place);
        put_opening(text, form, "refused")?;
        put_field!(text, form, "messages": &self.messages)?;
        put_place(text, form, place, &Reason::of(self.refusal.why))?;
        put_located(text, form, self.path, self.extent)
    }

    fn put_told(&self, text: &mut TextBuffer) -> Result<(), AllocError> {
        self.put(text, Form::NamedLines)
    }
}

/// Appends the last line of a stream that ends between frames, after n messages.
#[tactic(auto, unfolding(crate::specs::Forms::record_text))]
pub fn put_stream_end(text: &mut TextBuffer, form: Form, messages: u64) -> Result<(), AllocError>
    ensures { OnOk result (text.new ≡ text.old ++ stream_end_line form messages) }
{
    put_opening(text, form, "end")?;
    put_field!(text, form, "messages": &messages)?;
    put_end(text, form)
}

/// Appends the last line of a stream that was gone on with after refusals, and how many messages
/// and how many refused frames it had.
#[tactic(auto, unfolding(crate::specs::Forms::record_text))]
pub fn put_counted_stream_end(
    text: &mut TextBuffer,
    form: Form,
    messages: u64,
    refused: u64,
) -> Result<(), AllocError>
    ensures { OnOk result (text.new ≡ text.old ++ counted_end_line form messages refused) }
{
    put_last(text, form, &Counts { messages, refused })
}

/// Appends the line of a frame that is refused, after n messages, and, to a line only if numbers
/// have their names, the path of the field at fault, where the frame begins, and the length that it
/// says. Unless one goes on after it, it is the last line of the stream.
#[tactic(auto, unfolding(crate::specs::Forms::record_text))]
pub fn put_stream_refusal(
    text: &mut TextBuffer,
    form: Form,
    messages: u64,
    refusal: Refusal,
    path: Option<&str>,
    extent: Extent,
) -> Result<(), AllocError>
    ensures { OnOk result (text.new ≡ text.old ++ refused_line form messages refusal.place refusal.why (option_copied path.entry) extent) }
{
    let frame = RefusedFrame {
        messages,
        refusal,
        path: known_path(form, path),
        extent,
    };
    put_last(text, form, &frame)
}

/// Appends the line of a frame that is refused, as [`put_stream_refusal`] does, with nothing that
/// is told but the path.
#[tactic(auto, unfolding(crate::specs::Forms::record_text))]
pub fn put_untold_stream_refusal(
    text: &mut TextBuffer,
    form: Form,
    messages: u64,
    refusal: Refusal,
    path: Option<&str>,
) -> Result<(), AllocError>
    ensures { OnOk result (text.new ≡ text.old ++ untold_refused_line form messages refusal.place refusal.why (option_copied path.entry)) }
{
    put_opening(text, form, "refused")?;
    put_field!(text, form, "messages": &messages)?;
    put_place(
        text,
        form,
        u64::from(refusal.place),
        &Reason::of(refusal.why),
    )?;
    put_path(text, form, path)?;
    put_end(text, form)
}
