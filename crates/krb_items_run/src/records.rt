//! The records that are of no item.

ghost use Rattle.std.specs.Prelude.{◌≡◌, ◌++◌, OnOk};
ghost use Rattle.krb_items_run.specs.Items.{believed_record, items_end_record};
ghost use Rattle.krb_record.specs.Forms.{record_line};
ghost use Rattle.krb_record.specs.Labels.{line_of};

use krb_record::{Form, Label, TextBuffer, put_end, put_field, put_opening};
use std::alloc::AllocError;

/// Appends the record of a length that is believed.
#[tactic(auto, unfolding(krb_record::specs::Forms::record_text))]
fn put_believed_line(
    text: &mut TextBuffer,
    form: Form,
    size: u32,
    count: usize,
) -> Result<(), AllocError>
    ensures { OnOk result (text.new ≡ text.old ++ record_line form (believed_record size count)) }
{
    put_opening(text, form, "believed")?;
    put_field!(text, form, "length": &u64::from(size))?;
    put_field!(text, form, "octets": &(count as u64))?;
    put_end(text, form)
}

/// Appends the record of the end.
#[tactic(auto, unfolding(krb_record::specs::Forms::record_text))]
fn put_end_line(text: &mut TextBuffer, form: Form, count: u64) -> Result<(), AllocError>
    ensures { OnOk result (text.new ≡ text.old ++ record_line form (items_end_record count)) }
{
    put_opening(text, form, "end")?;
    put_field!(text, form, "items": &count)?;
    put_end(text, form)
}

/// Appends the record of a length that is believed, with its label.
pub(crate) fn put_believed(
    text: &mut TextBuffer,
    label: &Label,
    size: u32,
    count: usize,
) -> Result<(), AllocError>
    ensures { OnOk result (text.new ≡ text.old ++ line_of label.now (believed_record size count)) }
{
    label.begin(text)?;
    put_believed_line(text, label.form(), size, count)?;
    label.end(text)
}

/// Appends the record of the end, with its label.
pub(crate) fn put_items_end(
    text: &mut TextBuffer,
    label: &Label,
    count: u64,
) -> Result<(), AllocError>
    ensures { OnOk result (text.new ≡ text.old ++ line_of label.now (items_end_record count)) }
{
    label.begin(text)?;
    put_end_line(text, label.form(), count)?;
    label.end(text)
}
