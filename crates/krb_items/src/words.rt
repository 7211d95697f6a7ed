//! Lists of words, as records show them.

ghost use Rattle.std.specs.Prelude.{◌≡◌, ◌++◌, List, ℕ, codes, decimal, OnOk};
ghost use Rattle.std.specs.List.{flat_map};
ghost use Rattle.krb_record.specs.Text.{hex, joined, list_text};
ghost use Rattle.krb_items.specs.Records.{number_of_tag, quoted, tag_word, type_word, words_text};

use crate::tag::Tag;
use krb_record::{Base, Form, HexText, Shown, TextBuffer};
use std::alloc::AllocError;

/// A word that needs no escape.
pub(crate) trait Word {
    /// Its text.
    ghost text: { Self → List ℕ };

    /// Appends the word.
    fn put(&self, out: &mut TextBuffer) -> Result<(), AllocError>
        ensures { OnOk result (out.new ≡ out.old ++ text self.now) };
}

/// Octets in hexadecimal.
impl<'a> Word for &'a [u8] {
    ghost text = { λ octets. hex octets.now };

    #[tactic(auto, unfolding(krb_record::specs::Forms::value_text))]
    fn put(&self, out: &mut TextBuffer) -> Result<(), AllocError> {
        HexText(*self).put_text(out, false)
    }
}

/// What the type of a tag is called.
impl Word for Tag {
    ghost text = { tag_word };

    fn put(&self, out: &mut TextBuffer) -> Result<(), AllocError> {
        match number_of_tag(*self) {
            None => out.push_str(type_word(*self)),
            Some(number) => put_numbered(out, type_word(*self), number),
        }
    }
}

/// Returns what a type is called, up to the number of an explicit tag.
#[tactic(auto, unfolding(crate::specs::Records::type_word))]
fn type_word(tag: Tag) -> &'static str
    ensures { result.now ≡ type_word tag }
{
    match tag {
        Tag::Context(_) => "[",
        Tag::Application(_) => "[APPLICATION-",
        Tag::Boolean => "BOOLEAN",
        Tag::Integer => "INTEGER",
        Tag::BitString => "BIT-STRING",
        Tag::OctetString => "OCTET-STRING",
        Tag::GeneralString => "GeneralString",
        Tag::GeneralizedTime => "GeneralizedTime",
        Tag::Sequence => "SEQUENCE",
        Tag::SequenceOf => "SEQUENCE-OF",
        Tag::Frame => "frame",
        Tag::Octets => "octets",
        Tag::ObjectIdentifier => "OBJECT-IDENTIFIER",
        Tag::Enumerated => "ENUMERATED",
    }
}

/// Returns the number of an explicit tag.
fn number_of_tag(tag: Tag) -> Option<u8>
    ensures { result ≡ number_of_tag tag }
{
    match tag {
        Tag::Context(index) => Some(index),
        Tag::Application(number) => Some(number),
        _ => None,
    }
}

/// Appends an explicit tag: what it begins with, its number, and `]`.
fn put_numbered(out: &mut TextBuffer, before: &str, number: u8) -> Result<(), AllocError>
    ensures { OnOk result (out.new ≡ out.old ++ before.now ++ decimal number ++ codes "]") }
{
    out.push_str(before)?;
    out.push_number(u64::from(number))?;
    out.push_str("]")
}

/// Appends a word in quotes.
fn put_quoted<W: Word>(out: &mut TextBuffer, word: &W) -> Result<(), AllocError>
    ensures { OnOk result (out.new ≡ out.old ++ quoted (W.text word.now)) }
{
    out.push_str("\"")?;
    word.put(out)?;
    out.push_str("\"")
}

/// Appends a comma and a word, for each of the words.
fn put_others<W: Word>(out: &mut TextBuffer, words: &[W]) -> Result<(), AllocError>
    ensures { OnOk result (out.new ≡ out.old ++ flat_map (λ word. codes "," ++ W.text word) words.now) }
{
    for word in words {
        out.push_str(",")?;
        word.put(out)?;
    }
    Ok(())
}

/// Appends a comma and a word in quotes, for each of the words.
fn put_quoted_others<W: Word>(out: &mut TextBuffer, words: &[W]) -> Result<(), AllocError>
    ensures { OnOk result (out.new ≡ out.old ++ flat_map (λ word. codes "," ++ quoted (W.text word)) words.now) }
{
    for word in words {
        out.push_str(",")?;
        put_quoted(out, word)?;
    }
    Ok(())
}

/// Appends words with commas between them, or `-` if there are none.
fn put_joined<W: Word>(out: &mut TextBuffer, words: &[W]) -> Result<(), AllocError>
    ensures { OnOk result (out.new ≡ out.old ++ joined (codes "-") (codes ",") W.text words.now) }
{
    match words.split_first() {
        None => out.push_str("-"),
        Some((first, others)) => {
            first.put(out)?;
            put_others(out, others)
        }
    }
}

/// Appends words as strings in brackets.
fn put_list<W: Word>(out: &mut TextBuffer, words: &[W]) -> Result<(), AllocError>
    ensures { OnOk result (out.new ≡ out.old ++ list_text (λ word. quoted (W.text word)) words.now) }
{
    out.push_str("[")?;
    if let Some((first, others)) = words.split_first() {
        put_quoted(out, first)?;
        put_quoted_others(out, others)?;
    }
    out.push_str("]")
}

/// Appends a field of words: in a line the label, ` NAME=`, and the words with commas between them, or
/// `-` if there are none; in an object the member that `begin`, which is `,"NAME`, begins, an array of
/// strings.
#[tactic(auto, unfolding(crate::specs::Records::words_text))]
pub(crate) fn put_words<W: Word>(
    out: &mut TextBuffer,
    form: Form,
    label: &str,
    begin: &str,
    words: &[W],
) -> Result<(), AllocError>
    ensures { OnOk result (out.new ≡ out.old ++ words_text form label.now begin.now W.text words.now) }
{
    match form.base() {
        Some(Base::Lines | Base::NamedLines) => {
            out.push_str(label)?;
            put_joined(out, words)
        }
        Some(Base::Json) | None => {
            out.push_str(begin)?;
            out.push_str("\":")?;
            put_list(out, words)
        }
    }
}
