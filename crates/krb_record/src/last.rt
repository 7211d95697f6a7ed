//! Records that may be the last of a listing, which a choice tells where it does not keep them.

ghost use Rattle.std.specs.Prelude.{◌≡◌, ◌++◌, ◌∷◌, [], List, OnOk, Some, ℕ};
ghost use Rattle.krb_record.specs.Forms.{aside_text, fields_text, heading, record_line};
ghost use Rattle.krb_record.specs.Values.{Field, printed, told_by, with_origin};
ghost use Rattle.krb_record.specs.declared.form.Form.{Form};
ghost use Rattle.krb_record.specs.declared.form.Form.TheVariants.{NamedLines};

use crate::field::put_end;
use crate::form::Form;
use crate::text_buffer::TextBuffer;
use std::alloc::AllocError;

/// A record that may be the last of a listing.
pub(crate) trait Last {
    /// Its origin.
    ghost origin: { Self → List Field };

    /// Its kind in a form.
    ghost kind: { Form → Self → List ℕ };

    /// Its fields in a form.
    ghost fields: { Form → Self → List Field };

    /// Those of its fields that a choice tells.
    ghost told: { Self → List Field };

    /// Appends its heading and its fields.
    fn put(&self, text: &mut TextBuffer, form: Form) -> Result<(), AllocError>
        ensures { OnOk result (text.new ≡ text.old ++ (heading form (origin self.now) (kind form self.now) ++ fields_text form (fields form self.now))) };

    /// Appends what a choice tells of it, a line with names.
    fn put_told(&self, text: &mut TextBuffer) -> Result<(), AllocError>
        ensures { OnOk result (text.new ≡ text.old ++ (heading NamedLines (origin self.now) (kind NamedLines self.now) ++ fields_text NamedLines (told self.now))) };
}

/// Appends what a choice tells of a record, if the form has it.
fn put_aside<L: Last>(text: &mut TextBuffer, form: Form, last: &L) -> Result<(), AllocError>
    ensures { OnOk result (text.new ≡ text.old ++ aside_text form (Some (record { origin = L.origin last.now; kind = L.kind NamedLines last.now; fields = L.told last.now }))) }
{
    if !form.is_marked() {
        return Ok(());
    }
    text.push_str("\x05")?;
    last.put_told(text)?;
    text.push_str("\x06")
}

/// Appends a record with its line feed.
#[tactic(auto, unfolding(crate::specs::Forms::record_text))]
pub(crate) fn put_last<L: Last>(
    text: &mut TextBuffer,
    form: Form,
    last: &L,
) -> Result<(), AllocError>
    ensures { OnOk result (text.new ≡ text.old ++ record_line form (told_by (with_origin (L.origin last.now) (printed (L.kind NamedLines last.now) (L.told last.now))) (with_origin (L.origin last.now) (printed (L.kind form last.now) (L.fields form last.now))))) }
{
    last.put(text, form)?;
    put_aside(text, form, last)?;
    put_end(text, form)
}
