//! The sources of a listing.

ghost use Rattle.std.specs.Prelude.{◌≡◌, ◌∷◌, ◌++◌, [], codes, map, IfOk, OnOk};
ghost use Rattle.std.specs.Option.{option_map};
ghost use Rattle.clap.specs.Words.{found_of, rows_of, all_of, first_of};
ghost use Rattle.krb_words.specs.Sources.{after, cache_place, file_place, files_path, given_place, is_true, name_place, names_like, place_of, or_input, sources_of, word_place, words_of};

use crate::names::named;
use clap::ArgMatches;
use std::alloc::{AllocError, Global};

/// What a name stands for: its octets, and where what it names lies.
#[derive(Drop)]
pub struct NamedPath {
    /// The name as it was given.
    pub name: Vec<u8>,
    /// The name without what may stand before the path of a file, as `FILE:`.
    pub path: Vec<u8>,
}

/// A source of octets.
#[derive(Drop)]
pub enum Source {
    /// The standard input.
    Input,
    /// A file.
    File(NamedPath),
    /// Each credential cache of a directory.
    Directory(NamedPath),
}

/// Returns what follows a prefix of a name.
fn after<'a>(prefix: &[u8], name: &'a [u8]) -> Option<&'a [u8]>
    ensures { option_map (λ path. path.now) result ≡ after prefix.now name.now }
{
    name.strip_prefix(prefix)
}

/// Returns the path in the name of a file: what follows `FILE:` or `WRFILE:`, or all of it.
fn files_path(name: &[u8]) -> &[u8]
    ensures { result.now ≡ files_path name.now }
{
    if let Some(path) = after(b"FILE:", name) {
        return path;
    }
    match after(b"WRFILE:", name) {
        Some(path) => path,
        None => name,
    }
}

/// Returns a name and its path.
fn named_path(alloc: Global, name: &[u8], path: &[u8]) -> Result<NamedPath, AllocError>
    ensures { IfOk result (λ named. (named.name.items ≡ name.now) × (named.path.items ≡ path.now)) }
{
    Ok(NamedPath {
        name: Vec::from_slice(alloc, name)?,
        path: Vec::from_slice(alloc, path)?,
    })
}

/// Returns what the name of a cache stands for: a file, or each cache of a directory.
fn cache(alloc: Global, name: &[u8]) -> Result<Source, AllocError>
    ensures { IfOk result (λ source. place_of source ≡ cache_place name.now) }
{
    if let Some(path) = after(b"DIR::", name) {
        return Ok(Source::File(named_path(alloc, name, path)?));
    }
    if let Some(path) = after(b"DIR:", name) {
        return Ok(Source::Directory(named_path(alloc, name, path)?));
    }
    Ok(Source::File(named_path(alloc, name, files_path(name))?))
}

/// Returns what a name of a command stands for.
fn source_named(alloc: Global, command: &str, name: &[u8]) -> Result<Source, AllocError>
    ensures { IfOk result (λ source. place_of source ≡ name_place command.now name.now) }
{
    if command == "keytab" {
        return Ok(Source::File(named_path(alloc, name, files_path(name))?));
    }
    if command == "ccache" || command == "list" {
        cache(alloc, name)
    } else {
        Ok(Source::File(named_path(alloc, name, name)?))
    }
}

/// Returns the source that a word names: the standard input if it is `-`.
fn source_of(alloc: Global, command: &str, word: &str) -> Result<Source, AllocError>
    ensures { IfOk result (λ source. place_of source ≡ word_place command.now word.now) }
{
    if word == "-" {
        return Ok(Source::Input);
    }
    let name = named(alloc, word)?;
    source_named(alloc, command, name.as_slice())
}

/// Returns the only source, which a word names whatever it is.
fn one_file(alloc: Global, command: &str, word: &str) -> Result<Vec<Source>, AllocError>
    ensures { IfOk result (λ sources. map place_of sources.items ≡ given_place command.now word.now ∷ []) }
{
    let name = named(alloc, word)?;
    let source = source_named(alloc, command, name.as_slice())?;
    let mut sources = Vec::new(alloc);
    sources.push(source)?;
    Ok(sources)
}

/// Returns the file of the option `--file`, if it is given.
fn file_of(alloc: Global, command: &str, found: &ArgMatches<'_>) -> Result<Vec<Source>, AllocError>
    ensures { IfOk result (λ sources. map place_of sources.items ≡ file_place command.now (first_of (codes "file") (rows_of (found_of found.now)))) }
{
    match found.get_str("file") {
        Some(word) => one_file(alloc, command, word),
        None => Ok(Vec::new(alloc)),
    }
}

/// Appends the sources that words name.
fn put_words(
    alloc: Global,
    command: &str,
    words: &[&str],
    sources: &mut Vec<Source>,
) -> Result<(), AllocError>
    ensures { OnOk result (map place_of sources.new.items ≡ map place_of sources.old.items ++ map (λ word. word_place command.now word.now) words.now) }
{
    for word in words {
        sources.push(source_of(alloc, command, word)?)?;
    }
    Ok(())
}

/// Appends the sources that the words after the options name.
fn put_names(
    alloc: Global,
    command: &str,
    found: &ArgMatches<'_>,
    sources: &mut Vec<Source>,
) -> Result<(), AllocError>
    ensures { OnOk result (map place_of sources.new.items ≡ map place_of sources.old.items ++ map (word_place command.now) (words_of (all_of (codes "file names") (rows_of (found_of found.now))))) }
{
    match found.get_strs("file names") {
        Some(words) => put_words(alloc, command, words, sources),
        None => Ok(()),
    }
}

/// Makes the standard input the only source of a command but `list` if there is none.
fn put_input(command: &str, sources: &mut Vec<Source>) -> Result<(), AllocError>
    ensures { OnOk result (map place_of sources.new.items ≡ or_input command.now (map place_of sources.old.items)) }
{
    if sources.is_empty() && command != "list" {
        sources.push(Source::Input)?;
    }
    Ok(())
}

/// Returns whether the flag is given of a message without its length.
fn is_unframed(found: &ArgMatches<'_>) -> bool
    ensures { result ≡ is_true (first_of (codes "unframed") (rows_of (found_of found.now))) }
{
    match found.get_str("unframed") {
        Some(value) => value == "true",
        None => false,
    }
}

/// Returns the command whose names those of a command are: `decode` takes those of caches, but where
/// a file is one message without its length.
fn names_like<'a>(command: &'a str, found: &ArgMatches<'_>) -> &'a str
    ensures { result.now ≡ names_like command.now (rows_of (found_of found.now)) }
{
    if command == "decode" && !is_unframed(found) {
        "ccache"
    } else {
        command
    }
}

/// Returns the sources of a command in order: the file of `--file`, and then those that words name.
/// If there are none of either, it is the standard input, but of `list` there is none.
pub(crate) fn sources_of(
    alloc: Global,
    command: &str,
    found: &ArgMatches<'_>,
) -> Result<Vec<Source>, AllocError>
    ensures { IfOk result (λ sources. map place_of sources.items ≡ sources_of command.now (rows_of (found_of found.now))) }
{
    let naming = names_like(command, found);
    let mut sources = file_of(alloc, naming, found)?;
    put_names(alloc, naming, found, &mut sources)?;
    put_input(command, &mut sources)?;
    Ok(sources)
}
