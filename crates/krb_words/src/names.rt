//! The words of the command line as `clap` reads them, and back.

ghost use Rattle.std.specs.Prelude.{◌≡◌, ◌∷◌, ◌++◌, ◌≤◌, length, map, codes, string_bytes, IfOk, OnOk, IfSome, []};
ghost use Rattle.std.specs.Str.{bytes_eq};
ghost use Rattle.krb_record.specs.FileNames.{name_text};
ghost use Rattle.krb_words.specs.Names.{as_command, digit_value, is_command, is_name, named, stands_alone};
ghost use Rattle.krb_words.specs.inner.Names.{IsFirstNamed};

use krb_record::FileName;
use std::alloc::{AllocError, Global};

/// Returns whether a word is a text.
fn is(word: &[u8], text: &str) -> bool
    ensures { result ≡ bytes_eq word.now text.now }
{
    word == text.as_bytes()
}

/// Returns whether a word is one of letters a to z, as the names of commands are.
fn is_name(word: &[u8]) -> bool
    ensures { result ≡ is_name word.now }
{
    let mut are_letters = 0 < word.len();
    for octet in word {
        are_letters = are_letters && b'a' <= *octet && *octet <= b'z';
    }
    are_letters
}

/// Returns whether a name is that of a command.
pub(crate) fn is_command(name: &[u8]) -> bool
    ensures { result ≡ is_command name.now }
{
    is(name, "list")
        | is(name, "stream")
        | is(name, "message")
        | is(name, "items")
        | is(name, "keytab")
        | is(name, "ccache")
        | is(name, "capture")
        | is(name, "decode")
        | is(name, "encode")
}

/// Returns whether a word asks for help or for the version before any command.
fn stands_alone(word: &[u8]) -> bool
    ensures { result ≡ stands_alone word.now }
{
    is(word, "-h") || is(word, "--help") || is(word, "-V") || is(word, "--version")
}

/// Returns the word that `clap` reads in place of a word: its octets as the names of files are
/// shown, so that what `clap` quotes of it does not command a terminal. The name is got back from
/// it, whatever its octets are.
pub(crate) fn shown(alloc: Global, word: &[u8]) -> Result<String, AllocError>
    ensures text { IfOk result (λ text. string_bytes text ≡ name_text word.now) }
    ensures back { IfOk result (λ text. named (string_bytes text) ≡ word.now) }
{
    format!(in alloc; "{}", FileName(word))
}

/// Appends the words that `clap` reads in place of words.
fn put_shown(alloc: Global, words: &[Vec<u8>], texts: &mut Vec<String>) -> Result<(), AllocError>
    ensures { OnOk result (map string_bytes texts.new.items ≡ map string_bytes texts.old.items ++ map (λ word. name_text word.items) words.now) }
{
    for word in words {
        texts.push(shown(alloc, word.as_slice())?)?;
    }
    Ok(())
}

/// Appends a word of our own.
fn put_word(alloc: Global, word: &str, texts: &mut Vec<String>) -> Result<(), AllocError>
    ensures { OnOk result (map string_bytes texts.new.items ≡ map string_bytes texts.old.items ++ word.now ∷ []) }
{
    texts.push(String::from_str(alloc, word)?)?;
    Ok(())
}

/// Returns the words that `clap` reads in place of words.
fn same_words(alloc: Global, words: &[Vec<u8>]) -> Result<Vec<String>, AllocError>
    ensures { IfOk result (λ texts. map string_bytes texts.items ≡ map name_text (map (λ word. word.items) words.now)) }
{
    let mut texts = Vec::new(alloc);
    put_shown(alloc, words, &mut texts)?;
    Ok(texts)
}

/// Returns the words with `--help` after them.
fn help_words(alloc: Global, words: &[Vec<u8>]) -> Result<Vec<String>, AllocError>
    ensures { IfOk result (λ texts. map string_bytes texts.items ≡ map name_text (map (λ word. word.items) words.now ++ codes "--help" ∷ [])) }
{
    let mut texts = same_words(alloc, words)?;
    put_word(alloc, "--help", &mut texts)?;
    Ok(texts)
}

/// Returns the words with `list` before them.
fn list_words(alloc: Global, words: &[Vec<u8>]) -> Result<Vec<String>, AllocError>
    ensures { IfOk result (λ texts. map string_bytes texts.items ≡ map name_text (codes "list" ∷ map (λ word. word.items) words.now)) }
{
    let mut texts = Vec::new(alloc);
    put_word(alloc, "list", &mut texts)?;
    put_shown(alloc, words, &mut texts)?;
    Ok(texts)
}

/// Returns the words that `clap` reads in place of those after the program's name: with `list`
/// before them if they begin with no command, and `--help` after them in place of `help` before
/// them.
pub(crate) fn command_words(alloc: Global, words: &[Vec<u8>]) -> Result<Vec<String>, AllocError>
    ensures { IfOk result (λ texts. map string_bytes texts.items ≡ map name_text (as_command (map (λ word. word.items) words.now))) }
{
    let [first, others @ ..] = words else {
        return list_words(alloc, words);
    };
    let first = first.as_slice();
    if is(first, "help") {
        return help_words(alloc, others);
    }
    if is_name(first) || stands_alone(first) {
        same_words(alloc, words)
    } else {
        list_words(alloc, words)
    }
}

/// Returns the number of a hexadecimal digit in lower case.
fn digit_value(octet: u8) -> u8
    ensures value { result ≡ digit_value octet }
    ensures range { result ≤ 15 }
{
    let number = if octet < 58 {
        octet.saturating_sub(48)
    } else {
        octet.saturating_sub(87)
    };
    number % 16
}

/// Returns the first octet of the name that a text shows, and the text after what shows it. The
/// text is given as its first octet and the others.
fn first_named(first: u8, others: &[u8]) -> Option<(u8, &[u8])>
    ensures shown { IsFirstNamed (first ∷ others.now) result }
    ensures shorter { IfSome result (λ shown. length shown.1.now ≤ length others.now) }
{
    if first != b'\\' {
        return Some((first, others));
    }
    let [_, high, low, others @ ..] = others else {
        return None;
    };
    Some((16 * digit_value(*high) + digit_value(*low), others))
}

/// Returns the name that a text shows, in which `\x` and two digits are an octet.
pub(crate) fn named(alloc: Global, text: &str) -> Result<Vec<u8>, AllocError>
    ensures { IfOk result (λ name. name.items ≡ named text.now) }
{
    let mut name = Vec::new(alloc);
    let mut rest = text.as_bytes();
    while let [first, others @ ..] = rest {
        let Some((octet, others)) = first_named(*first, others) else {
            return Ok(name);
        };
        name.push(octet)?;
        rest = others;
    }
    Ok(name)
}
