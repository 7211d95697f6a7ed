//! What is said of sources that are not decoded, and may help.

ghost use Rattle.std.specs.Prelude.{◌≡◌, ◌++◌, IfOk, string_bytes};
ghost use Rattle.krb_decode.specs.Hints.{converted_text, hint_text, keytab_text};

use krb_input::Hint;
use std::alloc::{AllocError, Global};

/// Returns words alone.
fn alone(alloc: Global, words: &str) -> Result<String, AllocError>
    ensures { IfOk result (λ text. string_bytes text ≡ words.now) }
{
    let mut text = String::new(alloc);
    text.push_str(words)?;
    Ok(text)
}

/// Returns what is said of a keytab, whose name is written as a user has to write it.
pub fn keytab_text(alloc: Global, file: &str) -> Result<String, AllocError>
    ensures { IfOk result (λ text. string_bytes text ≡ keytab_text file.now) }
{
    let mut text = String::new(alloc);
    text.push_str("this is a keytab, which has no messages: krbls keytab ")?;
    text.push_str(file)?;
    Ok(text)
}

/// Returns what is said of a capture that editcap converts.
fn converted(alloc: Global, words: &str, file: &str) -> Result<String, AllocError>
    ensures { IfOk result (λ text. string_bytes text ≡ converted_text words.now file.now) }
{
    let mut text = String::new(alloc);
    text.push_str(words)?;
    text.push_str(": editcap -F pcap ")?;
    text.push_str(file)?;
    text.push_str(" - | krbls decode -")?;
    Ok(text)
}

/// Returns what a hint says of a file that was to be decoded, whose name is written as a user has to
/// write it: what it says of one that was to be listed, but that its command is `decode`.
pub fn hint_text(alloc: Global, hint: Hint, file: &str) -> Result<String, AllocError>
    ensures { IfOk result (λ text. string_bytes text ≡ hint_text hint file.now) }
{
    match hint {
        Hint::ModifiedPcap => converted(alloc, "this is a modified pcap", file),
        Hint::Snoop => converted(alloc, "this is a snoop capture", file),
        Hint::Primary => alone(
            alloc,
            "this may be the primary file of a collection: krbls decode DIR:DIRECTORY",
        ),
        _ => hint.text(alloc, Some("decode"), file),
    }
}
