//! What records begin with that have an origin.

ghost use Rattle.std.specs.Prelude.{◌≡◌, ◌++◌, List, OnOk, codes};
ghost use Rattle.krb_record.specs.Forms.{opening, opening_from, origin_text};
ghost use Rattle.krb_record.specs.Values.{Field};
ghost use Rattle.krb_record.specs.declared.form.Form.{Form};

use crate::field::put_opening;
use crate::form::Form;
use crate::text_buffer::TextBuffer;
use std::alloc::AllocError;

/// Where a record comes from.
pub(crate) trait Origin {
    /// The fields that say so in a form.
    ghost fields: { Form → Self → List Field };

    /// Appends these fields.
    fn put_fields(&self, text: &mut TextBuffer, form: Form) -> Result<(), AllocError>
        ensures { OnOk result (text.new ≡ text.old ++ origin_text form (fields form self.now)) };
}

/// Appends the origin and a blank, and then what precedes the fields of a line without an origin.
#[inline(always)]
fn put_line_opening<O: Origin>(
    text: &mut TextBuffer,
    form: Form,
    origin: &O,
    kind: &str,
) -> Result<(), AllocError>
    ensures { OnOk result (text.new ≡ text.old ++ (origin_text form (O.fields form origin.now) ++ codes " " ++ opening form kind.now)) }
{
    origin.put_fields(text, form)?;
    text.push_str(" ")?;
    put_opening(text, form, kind)
}

/// Appends what precedes the fields of a record of an origin that is not empty: in a line the
/// origin and then the kind, in an object the kind and then the origin.
#[tactic(auto, unfolding(crate::specs::Forms::opening, crate::specs::Forms::opening_from))]
pub(crate) fn put_opening_from<O: Origin>(
    text: &mut TextBuffer,
    form: Form,
    origin: &O,
    kind: &str,
) -> Result<(), AllocError>
    ensures { OnOk result (text.new ≡ text.old ++ opening_from form (O.fields form origin.now) kind.now) }
{
    match form {
        Form::Lines | Form::NamedLines | Form::KeptLines | Form::KeptNamedLines => {
            put_line_opening(text, form, origin, kind)
        }
        Form::Json | Form::KeptJson => {
            put_opening(text, form, kind)?;
            origin.put_fields(text, form)
        }
        Form::Rows(_) => {
            origin.put_fields(text, form)?;
            put_opening(text, form, kind)
        }
    }
}
