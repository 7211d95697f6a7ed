//! What is printed of whole keytabs.

ghost use Rattle.std.specs.Prelude.{◌≡◌, ◌++◌, IfOk, OnOk, string_bytes};
ghost use Rattle.std.specs.List.{flat_map};
ghost use Rattle.krb_record.specs.Forms.{record_line};
ghost use Rattle.krb_list.specs.Keytabs.{keytab_lines, printed_record};

use krb_der::Memory;
use krb_keytab::{Keytab, Record};
use krb_list::{put_keytab_end, put_record};
use krb_record::{Form, TextBuffer};
use std::alloc::{AllocError, Global};

/// Appends the lines of records.
fn put_records(text: &mut TextBuffer, form: Form, records: &[Record]) -> Result<(), AllocError>
    ensures { OnOk result (text.new ≡ text.old ++ flat_map (λ r. record_line form (printed_record r)) records.now) }
{
    for record in records {
        put_record(text, form, record)?;
    }
    Ok(())
}

/// Appends the lines of a keytab, which are [`keytab_lines`]'s.
pub fn put_keytab(text: &mut TextBuffer, form: Form, keytab: &Keytab) -> Result<(), AllocError>
    ensures { OnOk result (text.new ≡ text.old ++ keytab_lines form keytab.now) }
{
    let records = keytab.records.as_slice();
    put_records(text, form, records)?;
    put_keytab_end(text, form, records.len() as u64, &keytab.stop)
}

/// Returns the lines of a keytab: [`record_line`](krb_list::record_line) of each record, in order,
/// and [`keytab_end_line`](krb_list::keytab_end_line), each with a line feed after it. They show no
/// octet of a key, which is a law: `keys_are_not_shown` of `krb_text_laws`.
pub fn keytab_lines(alloc: Global, form: Form, keytab: &Keytab) -> Result<String, Memory>
    ensures { IfOk result (λ text. string_bytes text ≡ keytab_lines form keytab.now) }
{
    let mut text = TextBuffer::new(alloc);
    put_keytab(&mut text, form, keytab)?;
    Ok(text.into_string())
}
