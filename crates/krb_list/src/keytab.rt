//! What is printed of keytabs.

ghost use Rattle.std.specs.Prelude.{◌≡◌, ◌++◌, [], ◌∷◌, IfOk, OnOk, codes, pos, string_bytes};
ghost use Rattle.krb_keytab.specs.Spelling.{kvno};
ghost use Rattle.krb_registry.specs.declared.registry.Registry.TheVariants.{EncryptionTypes, NameTypes};
ghost use Rattle.krb_record.specs.Forms.{fields_text, record_line, record_text};
ghost use Rattle.krb_list.specs.Keytabs.{entry_fields, hole_fields, is_zero, keytab_end, printed_record};
ghost use Rattle.krb_record.specs.Time.{file_time};
ghost use Rattle.krb_record.specs.Values.{Named, Number, Principal as IsPrincipal, YesNo, count, printed, the};

use krb_der::Memory;
use krb_keytab::{Entry, Hole, Record, Stop};
use krb_record::{
    FileTime, Form, Numbered, Principal, Strings, TextBuffer, put_closing, put_field, put_opening,
};
use krb_registry::Registry;
use std::alloc::{AllocError, Global};

/// Returns the principal of an entry.
#[inline(always)]
fn principal_of(entry: &Entry) -> Principal<'_, Strings<'_>>
    ensures name_type { result.name_type ≡ entry.now.name_type }
    ensures components { result.components.0.now ≡ entry.now.components }
    ensures realm { result.realm.now ≡ entry.now.realm }
{
    Principal {
        name_type: i64::from(entry.name_type),
        components: Strings(entry.components.as_slice()),
        realm: entry.realm.octets(),
    }
}

/// Returns how the name of an entry is meant.
#[inline(always)]
fn name_type_of(entry: &Entry) -> Numbered
    ensures registry { result.registry ≡ NameTypes }
    ensures number { result.number ≡ entry.now.name_type }
{
    Numbered {
        registry: Registry::NameTypes,
        number: i64::from(entry.name_type),
    }
}

/// Returns the encryption type of the key of an entry.
#[inline(always)]
fn enctype_of(entry: &Entry) -> Numbered
    ensures { Named result.registry result.number ≡ Named EncryptionTypes (pos entry.now.enctype) }
{
    Numbered {
        registry: Registry::EncryptionTypes,
        number: i64::from(entry.enctype),
    }
}

/// Appends the fields of the principal of an entry.
fn put_who(text: &mut TextBuffer, form: Form, entry: &Entry) -> Result<(), AllocError>
    ensures { OnOk result (text.new ≡ text.old ++ fields_text form (
        the (codes "principal") (IsPrincipal entry.now.name_type entry.now.components entry.now.realm)
        ∷ the (codes "type") (Named NameTypes entry.now.name_type)
        ∷ [])) }
{
    put_field!(text, form, "principal": &principal_of(entry))?;
    put_field!(text, form, "type": &name_type_of(entry))
}

/// Appends the fields of the time and of the version of the key of an entry.
fn put_version(text: &mut TextBuffer, form: Form, entry: &Entry) -> Result<(), AllocError>
    ensures { OnOk result (text.new ≡ text.old ++ fields_text form (
        the (codes "time") (file_time entry.now.time)
        ∷ the (codes "kvno") (Number (pos (kvno entry.now)))
        ∷ [])) }
{
    put_field!(text, form, "time": &FileTime(entry.time))?;
    put_field!(text, form, "kvno": &u64::from(entry.kvno()))
}

/// Appends the fields of an entry from the encryption type on. Of the key itself there is the
/// number of its octets.
fn put_key(text: &mut TextBuffer, form: Form, entry: &Entry) -> Result<(), AllocError>
    ensures { OnOk result (text.new ≡ text.old ++ fields_text form (
        the (codes "enctype") (Named EncryptionTypes (pos entry.now.enctype))
        ∷ the (codes "key") (count entry.now.key)
        ∷ the (codes "rest") (count entry.now.rest)
        ∷ [])) }
{
    let key = entry.key.as_slice().len() as u64;
    let rest = entry.rest.as_slice().len() as u64;
    put_field!(text, form, "enctype": &enctype_of(entry))?;
    put_field!(text, form, "key": &key)?;
    put_field!(text, form, "rest": &rest)
}

#[tactic(auto, unfolding(krb_record::specs::Forms::record_text))]
fn put_entry(text: &mut TextBuffer, form: Form, entry: &Entry) -> Result<(), AllocError>
    ensures { OnOk result (text.new ≡ text.old ++ record_text form (printed (codes "entry") (entry_fields entry.now))) }
{
    put_opening(text, form, "entry")?;
    put_who(text, form, entry)?;
    put_version(text, form, entry)?;
    put_key(text, form, entry)?;
    put_closing(text, form)
}

#[tactic(auto, unfolding(krb_record::specs::Forms::record_text))]
fn put_hole(text: &mut TextBuffer, form: Form, hole: &Hole) -> Result<(), AllocError>
    ensures { OnOk result (text.new ≡ text.old ++ record_text form (printed (codes "hole") (hole_fields hole.now))) }
{
    put_opening(text, form, "hole")?;
    put_field!(text, form, "size": &u64::from(hole.size()))?;
    put_field!(text, form, "clean": &hole.clean())?;
    put_closing(text, form)
}

/// Appends what is printed of a record, without a line feed.
#[tactic(auto, unfolding(crate::specs::Keytabs::printed_record))]
fn put_record_text(text: &mut TextBuffer, form: Form, record: &Record) -> Result<(), AllocError>
    ensures { OnOk result (text.new ≡ text.old ++ record_text form (printed_record «record».now)) }
{
    match record {
        Record::Entry(entry) => put_entry(text, form, entry),
        Record::Hole(hole) => put_hole(text, form, hole),
    }
}

/// Appends the line of a record, which is [`record_line`]'s.
pub fn put_record(text: &mut TextBuffer, form: Form, record: &Record) -> Result<(), AllocError>
    ensures { OnOk result (text.new ≡ text.old ++ record_line form (printed_record «record».now)) }
{
    put_record_text(text, form, record)?;
    text.push_str("\n")
}

/// Returns the line of a record, without its line feed. It shows no octet of a key, which is a law:
/// `keys_are_not_shown` of `krb_text_laws`.
pub fn record_line(alloc: Global, form: Form, record: &Record) -> Result<String, Memory>
    ensures { IfOk result (λ line. string_bytes line ≡ record_text form (printed_record «record».now)) }
{
    let mut line = TextBuffer::new(alloc);
    put_record_text(&mut line, form, record)?;
    Ok(line.into_string())
}

/// Returns whether a record of length 0 ends the keytab.
fn is_zero(stop: &Stop) -> bool
    ensures { YesNo result ≡ is_zero stop.now }
{
    match stop {
        Stop::File => false,
        Stop::Zero => true,
    }
}

/// Appends the line of the end of a keytab without its line feed.
#[tactic(auto, unfolding(krb_record::specs::Forms::record_text, crate::specs::Keytabs::keytab_end))]
fn put_end_text(
    text: &mut TextBuffer,
    form: Form,
    records: u64,
    stop: &Stop,
) -> Result<(), AllocError>
    ensures { OnOk result (text.new ≡ text.old ++ record_text form (keytab_end records stop.now)) }
{
    put_opening(text, form, "end")?;
    put_field!(text, form, "records": &records)?;
    put_field!(text, form, "zero": &is_zero(stop))?;
    put_closing(text, form)
}

/// Appends the line of the end of a keytab, which is [`keytab_end_line`]'s.
pub fn put_keytab_end(
    text: &mut TextBuffer,
    form: Form,
    records: u64,
    stop: &Stop,
) -> Result<(), AllocError>
    ensures { OnOk result (text.new ≡ text.old ++ record_line form (keytab_end records stop.now)) }
{
    put_end_text(text, form, records, stop)?;
    text.push_str("\n")
}

/// Returns the line of the end of a keytab of this many records, without its line feed.
pub fn keytab_end_line(
    alloc: Global,
    form: Form,
    records: u64,
    stop: &Stop,
) -> Result<String, Memory>
    ensures { IfOk result (λ line. string_bytes line ≡ record_text form (keytab_end records stop.now)) }
{
    let mut line = TextBuffer::new(alloc);
    put_end_text(&mut line, form, records, stop)?;
    Ok(line.into_string())
}
