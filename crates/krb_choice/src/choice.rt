//! Choices of records.

ghost use Rattle.std.specs.Prelude.{◌≡◌, bytes_eq, false, map, true};
ghost use Rattle.std.specs.List.{list_any};
ghost use Rattle.krb_choice.specs.Choices.{Rows, Whole, chooses, columns_of};
ghost use Rattle.krb_choice.specs.Columns.{has_rows};
ghost use Rattle.krb_choice.specs.Wanted.{choice_form, may_be_inside, wanted_by, with_kind, with_kinds};

use crate::column::Column;
use krb_record::{Base, Form, Wanted};
use std::alloc::Global;
use std::marker::Model;

/// Which records are kept, and how they are printed.
#[derive(Drop)]
pub struct Choice {
    /// The form in which records are listed.
    form: Form,
    /// Whether the kinds choose alone, of records and of what is inside of them.
    pub(crate) by_kind: bool,
    /// The kinds of the records that may be kept.
    pub(crate) kinds: Vec<&'static str>,
    /// The columns of rows, in order; none if records are kept whole.
    pub(crate) columns: Vec<Column>,
}

impl Model for Choice {
    ghost use Rattle.std.specs.Prelude.{◌≡◌, map};
    ghost use Rattle.krb_choice.specs.Choices.{Choice};
    ghost use Rattle.krb_choice.specs.Shown.{print_of};
    ghost use Rattle.krb_choice.specs.Wanted.{choice_form};

    ghost Value = { Choice };

    ghost view = { λ choice. record { by_kind = choice.by_kind; kinds = map (λ kind. kind.now) choice.kinds.items; print = print_of choice.form choice.columns.items } };

    ghost invariant = { λ choice. choice.form ≡ choice_form (record { by_kind = choice.by_kind; kinds = map (λ kind. kind.now) choice.kinds.items; print = print_of choice.form choice.columns.items }) };
}

/// The kinds of messages.
const MESSAGES: [&str; 10] = [
    "AS-REQ",
    "AS-REP",
    "TGS-REQ",
    "TGS-REP",
    "AP-REQ",
    "AP-REP",
    "KRB-SAFE",
    "KRB-PRIV",
    "KRB-CRED",
    "KRB-ERROR",
];

/// Returns whether what is inside of a message may be of a kind: those of records alone are the kinds of
/// messages, and words without capitals.
fn may_be_inside(kind: &str) -> bool
    ensures { result ≡ may_be_inside kind.now }
{
    for message in MESSAGES {
        if message == kind {
            return false;
        }
    }
    match kind.as_bytes().first() {
        None => false,
        Some(first) => !first.is_ascii_lowercase(),
    }
}

/// Adds the messages of a kind, or all, and what is inside, if that may be of the kind.
fn with_kind(wanted: Wanted, by_kind: bool, kind: &str) -> Wanted
    ensures { result ≡ with_kind by_kind wanted kind.now }
{
    if by_kind && may_be_inside(kind) {
        wanted.with_all_kinds().with_inside()
    } else {
        wanted.with_kind(kind)
    }
}

/// Adds the messages of some kinds, or all, and what is inside, if that may be of one of the kinds.
fn with_kinds(wanted: Wanted, by_kind: bool, kinds: &[&'static str]) -> Wanted
    ensures { result ≡ with_kinds wanted by_kind (map (λ kind. kind.now) kinds.now) }
{
    let mut all = wanted;
    for kind in kinds {
        all = with_kind(all, by_kind, kind);
    }
    all
}

/// Returns what is wanted, so that all columns are shown of records of some kinds.
fn wanted_of(by_kind: bool, kinds: &[&'static str], columns: &[Column]) -> Wanted
    ensures { result ≡ wanted_by by_kind (map (λ kind. kind.now) kinds.now) columns.now }
{
    let mut wanted = with_kinds(Wanted::NOTHING, by_kind, kinds);
    for column in columns {
        wanted = column.wanted_beside(wanted);
    }
    wanted
}

/// Returns whether a column chooses.
pub(crate) fn any_chooses(columns: &[Column]) -> bool
    ensures { result ≡ list_any chooses columns.now }
{
    let mut chooses = false;
    for column in columns {
        chooses = chooses || column.chooses();
    }
    chooses
}

/// Returns whether a kind is one of others.
pub(crate) fn is_one_of(kind: &[u8], kinds: &[&'static str]) -> bool
    ensures { result ≡ list_any (bytes_eq kind.now) (map (λ one. one.now) kinds.now) }
{
    for one in kinds {
        if kind == one.as_bytes() {
            return true;
        }
    }
    false
}

impl Choice {
    /// Returns the choice that keeps records of some kinds, or with one of these inside, whole.
    pub fn kept(alloc: Global, base: Base, kinds: Vec<&'static str>) -> Choice
        ensures { result ≡ record { by_kind = true; kinds = map (λ kind. kind.now) kinds.entry.items; print = Whole base } }
    {
        Choice {
            form: Form::kept(base),
            by_kind: true,
            kinds,
            columns: Vec::new(alloc),
        }
    }

    /// Returns the choice that has rows of the same records.
    pub fn rows_of(kinds: Vec<&'static str>, columns: Vec<Column>) -> Choice
        ensures { result ≡ record { by_kind = true; kinds = map (λ kind. kind.now) kinds.entry.items; print = Rows columns.items } }
    {
        Choice {
            form: Form::Rows(wanted_of(true, kinds.as_slice(), columns.as_slice())),
            by_kind: true,
            kinds,
            columns,
        }
    }

    /// Returns the choice that has rows of the records of some kinds that have all columns which
    /// choose. If there is none of these, it has none of the refusal that ends a listing.
    pub fn rows(kinds: Vec<&'static str>, columns: Vec<Column>) -> Choice
        ensures { result ≡ record { by_kind = false; kinds = map (λ kind. kind.now) kinds.entry.items; print = Rows columns.items } }
    {
        Choice {
            form: Form::Rows(wanted_of(false, kinds.as_slice(), columns.as_slice())),
            by_kind: false,
            kinds,
            columns,
        }
    }

    /// Returns the form in which records are listed.
    pub fn form(&self) -> Form
        ensures { result ≡ choice_form self.now }
    {
        self.form
    }

    /// Returns whether rows are made.
    pub fn has_rows(&self) -> bool
        ensures { result ≡ has_rows self.now.print }
    {
        matches!(self.form, Form::Rows(_))
    }

    /// Returns the columns of rows.
    pub(crate) fn columns(&self) -> &[Column]
        ensures { result.now ≡ columns_of self.now.print }
    {
        match self.form {
            Form::Rows(_) => self.columns.as_slice(),
            _ => &[],
        }
    }
}
