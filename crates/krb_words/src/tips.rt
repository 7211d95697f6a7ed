//! Tips in the texts of `clap`'s errors: which commands have an option that was given to another
//! one, and how a file is named whose name would be that of a command.

use crate::commands::{Part, parts};
use std::alloc::{AllocError, Global};

/// What the error of an option that a command does not have begins with.
const UNEXPECTED: &str = "error: unexpected argument '";

/// What the error of a first word that is no command begins with.
const UNRECOGNIZED: &str = "error: unrecognized subcommand '";

/// What comes before the last lines of an error.
const USAGE: &str = "\n\nUsage: ";

/// Returns the word that a text has between a beginning and the next quote.
fn quoted_after<'a>(beginning: &str, text: &'a str) -> Option<&'a str> {
    match text.strip_prefix(beginning) {
        Some(rest) => match rest.split_once('\'') {
            Some((word, _)) => Some(word),
            None => None,
        },
        None => None,
    }
}

/// Returns whether a command has an option of a name, as `--port`.
fn has_option(part: &Part, option: &str) -> bool {
    let mut found = false;
    for parameter in part.parameters {
        found = found || parameter.is_named(option);
    }
    found
}

/// Returns the names of the commands that have an option: `stream, message and decode`.
fn commands_with(alloc: Global, option: &str) -> Result<String, AllocError> {
    let mut names = String::new(alloc);
    let mut last = "";
    for part in parts() {
        if !has_option(part, option) {
            continue;
        }
        if !last.is_empty() {
            if !names.is_empty() {
                names.push_str(", ")?;
            }
            names.push_str(last)?;
        }
        last = part.name;
    }
    if !names.is_empty() {
        names.push_str(" and ")?;
    }
    names.push_str(last)?;
    Ok(names)
}

/// Returns the text of an error with a tip that says which commands have an option, in place of all
/// other tips, if one has it.
fn with_commands(alloc: Global, text: &str, option: &str) -> Result<String, AllocError> {
    let commands = commands_with(alloc, option)?;
    if !commands.is_empty() {
        if let (Some((what, _)), Some((_, usage))) = (
            text.split_once("\n\n"),
            text.split_once(USAGE),
        ) {
            return format!(in alloc;
                "{what}\n\n  tip: '{option}' is an option of krbls {commands}{USAGE}{usage}"
            );
        }
    }
    String::from_str(alloc, text)
}

/// Returns the text of an error with a tip that says how a file of a name is given, after all other
/// tips.
fn with_file(alloc: Global, text: &str, name: &str) -> Result<String, AllocError> {
    match text.split_once(USAGE) {
        Some((what, usage)) => {
            let between = if what.contains("\n\n  tip: ") {
                "\n"
            } else {
                "\n\n"
            };
            format!(in alloc; "{what}{between}  tip: a file of this name is ./{name}{USAGE}{usage}")
        }
        None => String::from_str(alloc, text),
    }
}

/// Returns the text of an error of `clap`, with a tip if there is one for its words.
pub(crate) fn with_tip(alloc: Global, text: &str) -> Result<String, AllocError> {
    if let Some(option) = quoted_after(UNEXPECTED, text) {
        return with_commands(alloc, text, option);
    }
    match quoted_after(UNRECOGNIZED, text) {
        Some(name) => with_file(alloc, text, name),
        None => String::from_str(alloc, text),
    }
}
