//! Which records are kept, and what is printed of them: `--only`, `--fields` and `--header`.

ghost use Rattle.std.specs.Prelude.{◌≡◌, ◌∷◌, ◌++◌, [], false, true, IfErr, IfNone, IfOk, MatchOption, OnOk, map, string_bytes};
ghost use Rattle.std.specs.List.{filter, list_all};
ghost use Rattle.std.specs.Option.{option_map};
ghost use Rattle.clap.specs.Words.{Text, found_of, rows_of};
ghost use Rattle.krb_choice.specs.Choices.{Whole};
ghost use Rattle.krb_fields.specs.Names.{all_kinds, all_names, chooses, is_among, name_text, within_text};
ghost use Rattle.krb_record.specs.Text.{joined};
ghost use Rattle.krb_words.specs.Chosen.{AreNames, AreRowsOf, HaveNone, IfSaid, IsChoiceFault, IsChosen, IsChosenBy, IsErrorOf, IsRowsBy, SaysKind, SaysName, SaysNames, SaysNone, SaysNoRows, SaysRest, SaysTold, base_of, column_of, error_text, file_column, file_name, first_row, first_unknown, is_between, is_told, kinds_chosen, listed, listings_of, near_or_all, near_or_none, none_text, path_of, rows_by, told_text, words_if, words_of};
ghost use Rattle.krb_words.specs.Words.{Chooses};
ghost use Rattle.krb_words.specs.inner.Options.{IsOkOf, SaysFirst, options_of};

use crate::names::named;
use crate::words::{Naming, WordsFault, is_given, wrong};
use clap::ArgMatches;
use krb_choice::{Choice, Column};
use krb_fields::{
    Listing, Name, all_kinds, all_names, chooses, kind_of, kinds_with, name_of, names_near,
};
use krb_record::{Base, Form, Path};
use std::alloc::{AllocError, Global};

/// The options of a command line that choose.
#[derive(Clone, Copy)]
struct Options<'a> {
    listings: &'static [Listing],
    only: Option<&'a str>,
    fields: Option<&'a str>,
    has_header: bool,
    form: Form,
    naming: Naming,
}

/// What is chosen, and the names of the columns, if they are to be printed.
#[derive(Drop)]
pub(crate) struct Chosen {
    pub(crate) choice: Option<Choice>,
    pub(crate) header: Option<String>,
}

/// Returns the listings whose kinds and names a command has.
fn listings_of(command: &str) -> &'static [Listing]
    ensures { result.now ≡ listings_of command.now }
{
    match command {
        "stream" => &[Listing::Stream],
        "message" => &[Listing::Message],
        "keytab" => &[Listing::Keytab],
        "ccache" => &[Listing::Ccache],
        "capture" => &[Listing::Capture],
        "list" => &[
            Listing::Stream,
            Listing::Message,
            Listing::Keytab,
            Listing::Ccache,
            Listing::Capture,
        ],
        _ => &[],
    }
}

/// Returns the path of a member in the value of its field, by what follows the field's name in its own.
fn path_of(ending: &str) -> Path
    ensures { result ≡ path_of ending.now }
{
    match ending {
        "_name" => Path::Name,
        "_names" | ".names" => Path::Names,
        ".text" => Path::Text,
        ".type" => Path::Type,
        ".type_name" => Path::TypeName,
        ".components" => Path::Components,
        ".realm" => Path::Realm,
        ".etype" => Path::Etype,
        ".etype_name" => Path::EtypeName,
        ".kvno" => Path::Kvno,
        ".size" => Path::Size,
        ".bits" => Path::Bits,
        ".hex" => Path::Hex,
        ".seconds" => Path::Seconds,
        ".microseconds" => Path::Microseconds,
        ".refused.place" => Path::Place,
        ".refused.why" => Path::Why,
        ".refused.why_name" => Path::WhyName,
        ".over" => Path::Over,
        ".source" => Path::Source,
        ".source.address" => Path::SourceAddress,
        ".source.port" => Path::SourcePort,
        ".target" => Path::Target,
        ".target.address" => Path::TargetAddress,
        ".target.port" => Path::TargetPort,
        _ => Path::Whole,
    }
}

/// Returns the column of a name.
fn column_of(name: &Name) -> Column
    ensures { result ≡ column_of name.now }
{
    match name.field {
        "kind" => Column::kind(name.within),
        "inside" => Column::inside(),
        field => Column::field(name.within, field, path_of(name.ending)),
    }
}

/// Returns the columns of names, after that of the file, if each row has it.
fn columns_of(alloc: Global, naming: Naming, names: &[Name]) -> Result<Vec<Column>, AllocError>
    ensures { IfOk result (λ columns. columns.items ≡ file_column naming ++ map column_of names.now) }
{
    let mut columns = Vec::new(alloc);
    if naming == Naming::Each {
        columns.push(Column::field(None, "file", Path::Whole))?;
    }
    for name in names {
        columns.push(column_of(name))?;
    }
    Ok(columns)
}

/// Appends words with a separator between them.
fn put_joined(text: &mut String, separator: &str, words: &[&str]) -> Result<(), AllocError>
    ensures { OnOk result (string_bytes text.new ≡ string_bytes text.old ++ joined [] separator.now (λ word. word) (map (λ word. word.now) words.now)) }
{
    let mut before = "";
    for word in words {
        text.push_str(before)?;
        text.push_str(word)?;
        before = separator;
    }
    Ok(())
}

/// Appends words with `, ` between them.
fn put_listed(text: &mut String, words: &[&str]) -> Result<(), AllocError>
    ensures { OnOk result (string_bytes text.new ≡ string_bytes text.old ++ listed (map (λ word. word.now) words.now)) }
{
    put_joined(text, ", ", words)
}

/// Returns the line of an error, with what follows it.
fn error_text(alloc: Global, text: &str) -> Result<String, AllocError>
    ensures { IfOk result (λ error. string_bytes error ≡ error_text text.now) }
{
    format!(in alloc; "error: {text}\n\nFor more information, try '--help'.\n")
}

/// Returns the fault of words of which a text says what is wrong with them.
fn fault_of(alloc: Global, text: &str) -> WordsFault
    ensures { IfSaid result (λ error. error ≡ error_text text.now) }
{
    wrong(error_text(alloc, text))
}

/// Returns the words of a text, with commas between them.
fn words_of<'a>(alloc: Global, text: &'a str) -> Result<Vec<&'a str>, AllocError>
    ensures { IfOk result (λ words. map (λ word. word.now) words.items ≡ words_of text.now) }
{
    text.split(',').collect(alloc)
}

/// Returns the texts of strings.
fn texts_of<'a>(alloc: Global, strings: &'a [String]) -> Result<Vec<&'a str>, AllocError>
    ensures { IfOk result (λ texts. map (λ text. text.now) texts.items ≡ map string_bytes strings.now) }
{
    let mut texts = Vec::new(alloc);
    for string in strings {
        texts.push(string.as_str())?;
    }
    Ok(texts)
}

/// Appends what is said of all names.
fn put_all(alloc: Global, text: &mut String, all: &[String]) -> Result<(), AllocError>
    ensures { OnOk result (string_bytes text.new ≡ string_bytes text.old ++ near_or_all [] (map string_bytes all.now)) }
{
    text.push_str("; there are: ")?;
    let all = texts_of(alloc, all)?;
    put_listed(text, all.as_slice())
}

/// Appends what is said of the names near a word, if there are some.
fn put_near(text: &mut String, near: &[&str]) -> Result<(), AllocError>
    ensures { OnOk result (string_bytes text.new ≡ string_bytes text.old ++ near_or_none (map (λ name. name.now) near.now)) }
{
    if near.is_empty() {
        return Ok(());
    }
    text.push_str("; near it: ")?;
    put_listed(text, near)
}

/// Appends what is said of the names near a word, or of all.
fn put_near_or_all(
    alloc: Global,
    text: &mut String,
    near: &[&str],
    all: &[String],
) -> Result<(), AllocError>
    ensures { OnOk result (string_bytes text.new ≡ string_bytes text.old ++ near_or_all (map (λ name. name.now) near.now) (map string_bytes all.now)) }
{
    if near.is_empty() {
        put_all(alloc, text, all)
    } else {
        put_near(text, near)
    }
}

/// Returns what is said of a word of `--only` that is no kind.
fn said_of_kind(alloc: Global, listings: &[Listing], word: &str) -> Result<String, AllocError>
    ensures { IfOk result (λ text. SaysKind listings.now word.now (string_bytes text)) }
{
    let kinds = all_kinds(alloc, listings)?;
    let octets = named(alloc, word)?;
    let near = names_near(alloc, octets.as_slice(), kinds.as_slice())?;
    let mut text = format!(in alloc;
        "invalid value '{word}' for '--only <KIND,..>': no such kind"
    )?;
    put_near_or_all(alloc, &mut text, near.as_slice(), kinds.as_slice())?;
    Ok(text)
}

/// Returns what is said of a word of `--fields` that is no name.
fn said_of_name(alloc: Global, listings: &[Listing], word: &str) -> Result<String, AllocError>
    ensures { IfOk result (λ text. SaysName listings.now word.now (string_bytes text)) }
{
    let names = all_names(alloc, listings)?;
    let octets = named(alloc, word)?;
    let near = names_near(alloc, octets.as_slice(), names.as_slice())?;
    let mut text = format!(in alloc;
        "invalid value '{word}' for '--fields <NAME,..>': no such field"
    )?;
    put_near(&mut text, near.as_slice())?;
    Ok(text)
}

/// Returns the fault that a text says, if there was memory for it.
fn fault_said(alloc: Global, said: Result<String, AllocError>) -> WordsFault
    ensures { IfSaid result (IsErrorOf (λ text. IsOkOf said (λ string. string_bytes string ≡ text))) }
{
    match said {
        Ok(text) => fault_of(alloc, text.as_str()),
        Err(AllocError) => WordsFault::Memory,
    }
}

/// Appends an item.
fn put<T: Drop>(items: &mut Vec<T>, item: T) -> Result<(), AllocError>
    ensures { OnOk result (items.new.items ≡ items.old.items ++ item ∷ []) }
{
    items.push(item)?;
    Ok(())
}

/// Returns the kind that a word is.
fn kind_by(alloc: Global, listings: &[Listing], word: &str) -> Result<&'static str, WordsFault>
    ensures kind { IfOk result (λ kind. (kind.now ≡ word.now) × (is_among word.now (all_kinds listings.now) ≡ true)) }
    ensures unknown { IfErr result (λ e. is_among word.now (all_kinds listings.now) ≡ false) }
    ensures fault { IfErr result (λ e. IfSaid e (IsErrorOf (SaysKind listings.now word.now))) }
{
    match kind_of(listings, word.as_bytes()) {
        Some(kind) => Ok(kind),
        None => Err(fault_said(alloc, said_of_kind(alloc, listings, word))),
    }
}

/// Returns the kinds that words are.
fn kinds_of(
    alloc: Global,
    listings: &[Listing],
    words: &str,
) -> Result<Vec<&'static str>, WordsFault>
    ensures kinds { IfOk result (λ kinds. map (λ kind. kind.now) kinds.items ≡ words_of words.now) }
    ensures known { OnOk result (first_unknown (all_kinds listings.now) (words_of words.now) ≡ None) }
    ensures fault { IfErr result (λ e. IfSaid e (IsErrorOf (SaysFirst (first_unknown (all_kinds listings.now) (words_of words.now)) (SaysKind listings.now)))) }
{
    let words = words_of(alloc, words)?;
    let mut kinds = Vec::new(alloc);
    for word in words.as_slice() {
        put(&mut kinds, kind_by(alloc, listings, word)?)?;
    }
    Ok(kinds)
}

/// Returns the name that a word is.
fn name_by(alloc: Global, listings: &[Listing], word: &str) -> Result<Name, WordsFault>
    ensures name { IfOk result (λ name. (name_text name ≡ word.now) × (is_among word.now (all_names listings.now) ≡ true)) }
    ensures unknown { IfErr result (λ e. is_among word.now (all_names listings.now) ≡ false) }
    ensures fault { IfErr result (λ e. IfSaid e (IsErrorOf (SaysName listings.now word.now))) }
{
    match name_of(listings, word.as_bytes()) {
        Some(name) => Ok(name),
        None => Err(fault_said(alloc, said_of_name(alloc, listings, word))),
    }
}

/// Returns the names that words are.
fn names_of(alloc: Global, listings: &[Listing], words: &str) -> Result<Vec<Name>, WordsFault>
    ensures names { IfOk result (λ names. AreNames listings.now (words_of words.now) names.items) }
    ensures fault { IfErr result (λ e. IfSaid e (IsErrorOf (SaysFirst (first_unknown (all_names listings.now) (words_of words.now)) (SaysName listings.now)))) }
{
    let words = words_of(alloc, words)?;
    let mut names = Vec::new(alloc);
    for word in words.as_slice() {
        put(&mut names, name_by(alloc, listings, word)?)?;
    }
    Ok(names)
}

/// Returns the names that choose.
fn choosing_of(alloc: Global, listings: &[Listing], names: &[Name]) -> Result<Vec<Name>, AllocError>
    ensures { IfOk result (λ choosing. choosing.items ≡ filter (chooses listings.now) names.now) }
{
    let mut choosing = Vec::new(alloc);
    for name in names {
        if chooses(listings, name) {
            choosing.push(*name)?;
        }
    }
    Ok(choosing)
}

/// Returns the text of a name by its parts.
fn name_text(
    alloc: Global,
    within: Option<&str>,
    field: &str,
    ending: &str,
) -> Result<String, AllocError>
    ensures { IfOk result (λ text. string_bytes text ≡ within_text within.entry ++ field.now ++ ending.now) }
{
    let text = match within {
        Some(kind) => format!(in alloc; "{kind}.{field}{ending}")?,
        None => format!(in alloc; "{field}{ending}")?,
    };
    Ok(text)
}

/// Returns the texts of names.
fn texts_of_names(alloc: Global, names: &[Name]) -> Result<Vec<String>, AllocError>
    ensures { IfOk result (λ texts. map string_bytes texts.items ≡ map name_text names.now) }
{
    let mut texts = Vec::new(alloc);
    for name in names {
        texts.push(name_text(alloc, name.within, name.field, name.ending)?)?;
    }
    Ok(texts)
}

/// Returns what is said of names that no kind of record has all of.
fn said_of_none(alloc: Global, names: &[Name]) -> Result<String, AllocError>
    ensures { IfOk result (λ text. string_bytes text ≡ none_text (map name_text names.now)) }
{
    let names = texts_of_names(alloc, names)?;
    let names = texts_of(alloc, names.as_slice())?;
    let mut text = String::from_str(alloc, "no kind of record has all of these fields: ")?;
    put_listed(&mut text, names.as_slice())?;
    text.push_str("; with --only KIND,.. each record of the kinds has a row")?;
    Ok(text)
}

/// Returns the kinds but those of the records before and after others.
fn between(alloc: Global, kinds: Vec<&'static str>) -> Result<Vec<&'static str>, AllocError>
    ensures { IfOk result (λ others. map (λ kind. kind.now) others.items ≡ filter is_between (map (λ kind. kind.now) kinds.entry.items)) }
{
    let mut others = Vec::new(alloc);
    for kind in kinds.as_slice() {
        if *kind != "file" && *kind != "end" {
            others.push(*kind)?;
        }
    }
    Ok(others)
}

/// Returns the kinds of records that names choose.
fn kinds_chosen(
    alloc: Global,
    listings: &[Listing],
    names: &[Name],
) -> Result<Vec<&'static str>, WordsFault>
    ensures kinds { IfOk result (λ kinds. map (λ kind. kind.now) kinds.items ≡ kinds_chosen listings.now names.now) }
    ensures some { OnOk result (HaveNone listings.now names.now → ⊥) }
    ensures fault { IfErr result (λ e. IfSaid e (IsErrorOf (SaysNone listings.now names.now))) }
{
    let choosing = choosing_of(alloc, listings, names)?;
    let kinds = kinds_with(alloc, listings, choosing.as_slice())?;
    if choosing.is_empty() {
        return Ok(between(alloc, kinds)?);
    }
    if kinds.is_empty() {
        return Err(fault_said(alloc, said_of_none(alloc, choosing.as_slice())));
    }
    Ok(kinds)
}

/// Returns the choice of names: rows of the records of some kinds, or of those that have them.
fn rows_of(
    alloc: Global,
    options: &Options<'_>,
    kinds: Option<Vec<&'static str>>,
    names: &[Name],
) -> Result<Choice, WordsFault>
    ensures choice { IfOk result (λ choice. choice ≡ rows_by (option_map (λ kinds. map (λ kind. kind.now) kinds.items) kinds.entry) options.now.listings.now names.now (file_column options.now.naming ++ map column_of names.now)) }
    ensures some { OnOk result (IfNone kinds.entry (HaveNone options.now.listings.now names.now → ⊥)) }
    ensures fault { IfErr result (λ e. IfSaid e (IsErrorOf (λ text. (kinds.entry ≡ None) × SaysNone options.now.listings.now names.now text))) }
{
    let columns = columns_of(alloc, options.naming, names)?;
    match kinds {
        Some(kinds) => Ok(Choice::rows_of(kinds, columns)),
        None => {
            let kinds = kinds_chosen(alloc, options.listings, names)?;
            Ok(Choice::rows(kinds, columns))
        }
    }
}

/// Returns the choice of the records that have all of some names, a text with commas between them.
pub(crate) fn rows_named(
    alloc: Global,
    listings: &'static [Listing],
    words: &str,
) -> Result<Choice, WordsFault>
    ensures choice { IfOk result (AreRowsOf listings.now words.now) }
    ensures fault { IfErr result (λ e. IfSaid e (IsErrorOf (SaysNoRows listings.now words.now))) }
{
    let names = names_of(alloc, listings, words)?;
    let options = Options {
        listings,
        only: None,
        fields: None,
        has_header: false,
        form: Form::Lines,
        naming: Naming::Before,
    };
    rows_of(alloc, &options, None, names.as_slice())
}

/// Returns whether records of a kind are told, and so are in no plain line.
fn is_told(kind: &str) -> bool
    ensures { result ≡ is_told kind.now }
{
    kind == "unanswered" || kind == "unreachable"
}

/// Returns whether records of all these kinds are told.
fn are_told(kinds: &[&'static str]) -> bool
    ensures { result ≡ list_all is_told (map (λ kind. kind.now) kinds.now) }
{
    for kind in kinds {
        if !is_told(kind) {
            return false;
        }
    }
    true
}

/// Returns the first of kinds, if all of them are told.
fn first_told(kinds: &[&'static str]) -> Option<&'static str>
    ensures { MatchOption result ((text : Text) → SaysTold (map (λ kind. kind.now) kinds.now) text → ⊥) (λ kind. SaysTold (map (λ kind. kind.now) kinds.now) (told_text kind.now)) }
{
    if are_told(kinds) {
        kinds.first().copied()
    } else {
        None
    }
}

/// Returns the form of records that are kept whole.
fn base_of(form: Form) -> Base
    ensures { result ≡ base_of form }
{
    match form {
        Form::Json => Base::Json,
        Form::NamedLines => Base::NamedLines,
        _ => Base::Lines,
    }
}

/// Returns the choice of kinds alone.
fn kept_of(alloc: Global, form: Form, kinds: Vec<&'static str>) -> Result<Choice, WordsFault>
    ensures choice { IfOk result (λ choice. choice ≡ record { by_kind = true; kinds = map (λ kind. kind.now) kinds.entry.items; print = Whole (base_of form) }) }
    ensures fault { IfErr result (λ e. IfSaid e (IsErrorOf (λ text. (form ≡ Form.Lines) × SaysTold (map (λ kind. kind.now) kinds.entry.items) text))) }
{
    if form == Form::Lines {
        if let Some(kind) = first_told(kinds.as_slice()) {
            return Err(fault_said(
                alloc,
                format!(in alloc; "{kind} is shown with --names, --json or --fields"),
            ));
        }
    }
    Ok(Choice::kept(alloc, base_of(form), kinds))
}

/// Returns the cells of the first row: the names as they were given, after that of the file, if each
/// row has it.
fn cells_of<'a>(
    alloc: Global,
    naming: Naming,
    words: &[&'a str],
) -> Result<Vec<&'a str>, AllocError>
    ensures { IfOk result (λ cells. map (λ cell. cell.now) cells.items ≡ file_name naming ++ map (λ word. word.now) words.now) }
{
    let mut cells = Vec::new(alloc);
    if naming == Naming::Each {
        cells.push("file")?;
    }
    for word in words {
        cells.push(*word)?;
    }
    Ok(cells)
}

/// Returns the first row.
fn header_of(alloc: Global, naming: Naming, words: &str) -> Result<String, AllocError>
    ensures { IfOk result (λ row. Some (string_bytes row) ≡ first_row true naming (words_of words.now)) }
{
    let words = words_of(alloc, words)?;
    let cells = cells_of(alloc, naming, words.as_slice())?;
    let mut row = String::new(alloc);
    put_joined(&mut row, "\t", cells.as_slice())?;
    Ok(row)
}

/// What is wrong with objects of which names are chosen.
const OBJECTS: &str = "the argument '--json' cannot be used with '--fields <NAME,..>'";

/// What is wrong with a first row and no names.
const NO_NAMES: &str = "the following required arguments were not provided:\n  --fields <NAME,..>";

/// Returns the choice by names, and its first row, if it has one.
fn chosen_by_names(
    alloc: Global,
    options: &Options<'_>,
    kinds: Option<Vec<&'static str>>,
    words: &str,
) -> Result<Chosen, WordsFault>
    ensures chosen { IfOk result (λ chosen. IsRowsBy (options_of options.now) (option_map (λ kinds. map (λ kind. kind.now) kinds.items) kinds.entry) words.now chosen.choice (option_map string_bytes chosen.header)) }
    ensures fault { IfErr result (λ e. IfSaid e (IsErrorOf (SaysNames (options_of options.now) (option_map (λ kinds. map (λ kind. kind.now) kinds.items) kinds.entry) (Some words.now) (first_unknown (all_names options.now.listings.now) (words_of words.now))))) }
{
    let names = names_of(alloc, options.listings, words)?;
    let choice = rows_of(alloc, options, kinds, names.as_slice())?;
    if options.form == Form::Json {
        return Err(fault_of(alloc, OBJECTS));
    }
    let header = if options.has_header {
        Some(header_of(alloc, options.naming, words)?)
    } else {
        None
    };
    Ok(Chosen {
        choice: Some(choice),
        header,
    })
}

/// Returns the kinds of `--only`, if it is given.
fn kinds_given(
    alloc: Global,
    options: &Options<'_>,
) -> Result<Option<Vec<&'static str>>, WordsFault>
    ensures kinds { IfOk result (λ kinds. option_map (λ kinds. map (λ kind. kind.now) kinds.items) kinds ≡ option_map words_of (options_of options.now).only) }
    ensures known { OnOk result (first_unknown (all_kinds options.now.listings.now) (words_if (options_of options.now).only) ≡ None) }
    ensures fault { IfErr result (λ e. IfSaid e (IsErrorOf (SaysFirst (first_unknown (all_kinds options.now.listings.now) (words_if (options_of options.now).only)) (SaysKind options.now.listings.now)))) }
{
    match options.only {
        Some(words) => Ok(Some(kinds_of(alloc, options.listings, words)?)),
        None => Ok(None),
    }
}

/// Returns the choice of kinds alone, if there are some.
fn chosen_by_kinds(
    alloc: Global,
    options: &Options<'_>,
    kinds: Option<Vec<&'static str>>,
) -> Result<Chosen, WordsFault>
    ensures chosen { IfOk result (λ chosen. IsChosenBy (options_of options.now) (option_map (λ kinds. map (λ kind. kind.now) kinds.items) kinds.entry) None chosen.choice (option_map string_bytes chosen.header)) }
    ensures fault { IfErr result (λ e. IfSaid e (IsErrorOf (SaysRest (options_of options.now) (option_map (λ kinds. map (λ kind. kind.now) kinds.items) kinds.entry) None))) }
{
    if options.has_header {
        return Err(fault_of(alloc, NO_NAMES));
    }
    let choice = match kinds {
        Some(kinds) => Some(kept_of(alloc, options.form, kinds)?),
        None => None,
    };
    Ok(Chosen {
        choice,
        header: None,
    })
}

/// Returns what the options choose.
fn chosen_of(alloc: Global, options: &Options<'_>) -> Result<Chosen, WordsFault>
    ensures chosen { IfOk result (λ chosen. IsChosen (options_of options.now) chosen.choice (option_map string_bytes chosen.header)) }
    ensures fault { IfErr result (λ e. IfSaid e (IsErrorOf (IsChoiceFault (options_of options.now)))) }
{
    let kinds = kinds_given(alloc, options)?;
    match options.fields {
        Some(words) => chosen_by_names(alloc, options, kinds, words),
        None => chosen_by_kinds(alloc, options, kinds),
    }
}

/// Returns what the options of a command choose.
pub(crate) fn choice_of(
    alloc: Global,
    command: &str,
    found: &ArgMatches<'_>,
    form: Form,
    naming: Naming,
) -> Result<Chosen, WordsFault>
    ensures chosen { IfOk result (λ chosen. Chooses command.now (rows_of (found_of found.now)) form naming (λ options. IsChosen options chosen.choice (option_map string_bytes chosen.header))) }
    ensures fault { IfErr result (λ e. IfSaid e (IsErrorOf (λ text. Chooses command.now (rows_of (found_of found.now)) form naming (λ options. IsChoiceFault options text)))) }
{
    chosen_of(
        alloc,
        &Options {
            listings: listings_of(command),
            only: found.get_str("only"),
            fields: found.get_str("fields"),
            has_header: is_given(found, "header"),
            form,
            naming,
        },
    )
}
