//! What the label of records adds to each of them.

ghost use Rattle.std.specs.Prelude.{[], ◌≡◌, ◌++◌, IfOk, List, codes, string_bytes, ℕ};
ghost use Rattle.krb_record.specs.Labels.{begin_text, line_of};
ghost use Rattle.krb_record.specs.Values.{printed};
ghost use Rattle.krb_items.specs.Reached.{last_members};

use krb_record::{Form, Label, TextBuffer, put_end, put_opening};
use std::alloc::{AllocError, Global};

/// Returns what a line has before its record.
pub(crate) fn begin_of(alloc: Global, label: &Label) -> Result<String, AllocError>
    ensures { IfOk result (λ text. string_bytes text ≡ begin_text label.now) }
{
    let mut text = TextBuffer::new(alloc);
    label.begin(&mut text)?;
    Ok(text.into_string())
}

/// Returns what an object has last.
pub(crate) fn last_of(alloc: Global, label: &Label) -> Result<String, AllocError>
    ensures { IfOk result (λ text. string_bytes text ≡ last_members label.now) }
{
    match label.form() {
        Form::Lines | Form::NamedLines | Form::KeptLines | Form::KeptNamedLines | Form::Rows(_) =>
            Ok(String::new(alloc)),
        Form::Json => last_after(alloc, label, "{\"kind\":\"\""),
        Form::KeptJson => last_after(alloc, label, "\x01\x06{\"kind\":\"\""),
    }
}

/// Returns what an object has last, of which one of no kind and no fields begins so.
fn last_after(alloc: Global, label: &Label, begin: &str) -> Result<String, AllocError>
    ensures { (members : List ℕ) → line_of label.now (printed [] []) ≡ begin.now ++ members ++ codes "}\n" → IfOk result (λ text. string_bytes text ≡ members) }
{
    let text = empty_object(alloc, label)?;
    String::from_str(alloc, members_of(text.as_str(), begin))
}

/// Returns the object of a record of no kind and no fields, with its label.
fn empty_object(alloc: Global, label: &Label) -> Result<String, AllocError>
    ensures { IfOk result (λ text. string_bytes text ≡ line_of label.now (printed [] [])) }
{
    let mut text = TextBuffer::new(alloc);
    label.begin(&mut text)?;
    put_opening(&mut text, label.form(), "")?;
    put_end(&mut text, label.form())?;
    label.end(&mut text)?;
    Ok(text.into_string())
}

/// Returns what an object has after what it begins with.
fn members_of<'a>(object: &'a str, begin: &str) -> &'a str
    ensures { (members : List ℕ) → object.now ≡ begin.now ++ members ++ codes "}\n" → result.now ≡ members }
{
    let Some(members) = object.strip_prefix(begin) else {
        return "";
    };
    match members.strip_suffix("}\n") {
        None => "",
        Some(members) => members,
    }
}
