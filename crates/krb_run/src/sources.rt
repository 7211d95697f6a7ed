//! Runs over several sources.

ghost use Rattle.std.specs.Prelude.{◌≡◌, ℕ, List, length, IfErr, IfOk, OnOk, true};
ghost use Rattle.std.specs.Io.KnownBytes.{Appends};
ghost use Rattle.krb_record.specs.Files.{file_line};
ghost use Rattle.krb_run.specs.Sources.{Run, FailsLine, ListsAfter, ListsLabelled, ListsOne, Reports, ListsEach, ends_run, label_of, named_of, names_of, unnamed};

use crate::naming::Naming;
use crate::run::{RunEnd, RunFault, status};
use crate::transfer::write_all;
use krb_record::{Base, Form, Label, TextBuffer, put_file};
use std::alloc::{AllocError, Global};
use std::io::Write;

/// Lists sources of a kind: opens a source if it has to be opened, and reports its faults.
pub trait ListSource<S> {
    ghost use Rattle.krb_record.specs.Labels.{Label};
    ghost use Rattle.krb_run.specs.declared.run.RunFault.{RunFault};

    /// The name of a source.
    ghost called: { S → List ℕ };

    /// What the listing of a source does, each of whose records has a label.
    ghost Lists: { Self → S → Label → Run };

    /// Returns the name of a source that is printed.
    fn name<'a>(&self, source: &'a S) -> &'a [u8]
        ensures { result.now ≡ called source.now };

    /// That a fault of a source was reported.
    ghost IsReported: { Self → S → RunFault → Type 0 };

    /// Opens a source and lists it, each record with a label.
    fn list<W: Write>(&self, source: &S, label: &Label, writer: &mut W) -> Result<RunEnd, RunFault>
        ensures { Lists self.now source.now label.now (W.contents writer.old) (W.contents writer.new) result };

    /// Reports a fault by which the listing of a source ended.
    fn report(&self, source: &S, fault: &RunFault)
        ensures { IsReported self.now source.now fault.now };
}

/// Writes the line with the name of a source.
fn write_name<W: Write>(
    alloc: Global,
    form: Form,
    name: &[u8],
    writer: &mut W,
) -> Result<(), RunFault>
    ensures written { OnOk result (Appends (W.contents writer.old) (W.contents writer.new) (file_line form name.now)) }
    ensures fault { IfErr result (FailsLine (file_line form name.now) (W.contents writer.old) (W.contents writer.new)) }
{
    let mut line = TextBuffer::new(alloc);
    put_file(&mut line, form, name)?;
    write_all(writer, line.octets())
}

/// Which names are printed of sources.
#[derive(Clone, Copy)]
struct Named {
    has_record: bool,
    has_label: bool,
}

/// Returns which names are printed of so many sources.
fn names_of(naming: Naming, form: Form, sources: usize) -> Named
    ensures { named_of result ≡ names_of naming form sources }
{
    let has_label = match form.base() {
        None => true,
        Some(Base::Json) => sources > 1,
        Some(Base::Lines | Base::NamedLines) => false,
    };
    match naming {
        Naming::Several => Named {
            has_record: sources > 1 && !form.is_marked(),
            has_label,
        },
        Naming::Each => Named {
            has_record: !form.is_marked(),
            has_label,
        },
        Naming::Labels => Named {
            has_record: false,
            has_label: true,
        },
    }
}

/// Returns the label of a source, if its records have one.
fn label_of(alloc: Global, form: Form, has_label: bool, name: &[u8]) -> Result<Label, AllocError>
    ensures { IfOk result (λ label. label ≡ label_of form has_label name.now) }
{
    if has_label {
        Label::of_file(alloc, form, name)
    } else {
        Ok(Label::none(form))
    }
}

/// Lists a source, with a label in each record if its records have one.
fn list_labelled<S, L: ListSource<S>, W: Write>(
    alloc: Global,
    form: Form,
    lister: &L,
    source: &S,
    has_label: bool,
    writer: &mut W,
) -> Result<RunEnd, RunFault>
    ensures { ListsLabelled form has_label (L.called source.now) (L.Lists lister.now source.now) (W.contents writer.old) (W.contents writer.new) result }
{
    match label_of(alloc, form, has_label, lister.name(source)) {
        Ok(label) => lister.list(source, &label, writer),
        Err(_) => Err(RunFault::Memory),
    }
}

/// Lists a source, after a line with its name if it has one.
fn list_named<S, L: ListSource<S>, W: Write>(
    alloc: Global,
    form: Form,
    lister: &L,
    source: &S,
    how: Named,
    writer: &mut W,
) -> Result<RunEnd, RunFault>
    ensures { ListsOne form (named_of how) (L.called source.now) (L.Lists lister.now source.now) (W.contents writer.old) (W.contents writer.new) result }
{
    if how.has_record {
        list_after_name(alloc, form, lister, source, how.has_label, writer)
    } else {
        list_labelled(alloc, form, lister, source, how.has_label, writer)
    }
}

/// Lists a source, after a line with its name.
fn list_after_name<S, L: ListSource<S>, W: Write>(
    alloc: Global,
    form: Form,
    lister: &L,
    source: &S,
    has_label: bool,
    writer: &mut W,
) -> Result<RunEnd, RunFault>
    ensures { ListsAfter form true (L.called source.now) (ListsLabelled form has_label (L.called source.now) (L.Lists lister.now source.now)) (W.contents writer.old) (W.contents writer.new) result }
{
    match write_name(alloc, form, lister.name(source), writer) {
        Ok(()) => list_labelled(alloc, form, lister, source, has_label, writer),
        Err(fault) => Err(fault),
    }
}

/// Lists a source, and reports the fault by which its listing ends, if there is one.
fn list_one<S, L: ListSource<S>, W: Write>(
    alloc: Global,
    form: Form,
    lister: &L,
    source: &S,
    how: Named,
    writer: &mut W,
) -> Result<RunEnd, RunFault>
    ensures { Reports (L.IsReported lister.now source.now) (ListsOne form (named_of how) (L.called source.now) (L.Lists lister.now source.now)) (W.contents writer.old) (W.contents writer.new) result }
{
    let outcome = list_named(alloc, form, lister, source, how, writer);
    if let Err(fault) = &outcome {
        lister.report(source, fault);
    }
    outcome
}

/// Returns whether no source is listed after one of this outcome.
fn ends_run(outcome: &Result<RunEnd, RunFault>) -> bool
    ensures { result ≡ ends_run outcome.now }
{
    matches!(outcome, Err(RunFault::Write(_) | RunFault::Memory))
}

/// Lists sources one after another, and returns the writer and the greatest of their statuses.
fn run_each<S, L: ListSource<S>, W: Write>(
    alloc: Global,
    form: Form,
    lister: &L,
    sources: &[S],
    how: Named,
    writer: W,
) -> (W, u8)
    ensures { ListsEach (λ source. Reports (L.IsReported lister.now source) (ListsOne form (named_of how) (L.called source) (L.Lists lister.now source))) sources.now (W.contents writer) (W.contents result.0) result.1 }
{
    let mut greatest = 0;
    let mut rest = sources;
    let mut writer = writer;
    'sources: while let Some((source, others)) = rest.split_first() {
        let outcome = list_one(alloc, form, lister, source, how, &mut writer);
        greatest = greatest.max(status(&outcome));
        if ends_run(&outcome) {
            return (writer, greatest);
        }
        rest = others;
    }
    (writer, greatest)
}

/// Lists sources one after another in a form, and returns the writer and the greatest of their
/// statuses, which is that of the process. Their records are told apart as `naming` says. A source
/// that is refused, or that cannot be opened or read, does not end the run: the next one follows. A
/// write that fails ends the run, and so does running out of memory. Each fault is reported.
pub fn run_sources<S, L: ListSource<S>, W: Write>(
    alloc: Global,
    form: Form,
    naming: Naming,
    lister: &L,
    sources: &[S],
    writer: W,
) -> (W, u8)
    ensures { ListsEach (λ source. Reports (L.IsReported lister.now source) (ListsOne form (names_of naming form (length sources.now)) (L.called source) (L.Lists lister.now source))) sources.now (W.contents writer) (W.contents result.0) result.1 }
{
    let how = names_of(naming, form, sources.len());
    run_each(alloc, form, lister, sources, how, writer)
}

/// Does the same, and never writes the name of a source: what is written of each follows that of
/// the one before it.
pub fn run_sources_unnamed<S, L: ListSource<S>, W: Write>(
    alloc: Global,
    lister: &L,
    sources: &[S],
    writer: W,
) -> (W, u8)
    ensures { ListsEach (λ source. Reports (L.IsReported lister.now source) (ListsOne Form.Lines unnamed (L.called source) (L.Lists lister.now source))) sources.now (W.contents writer) (W.contents result.0) result.1 }
{
    let how = Named {
        has_record: false,
        has_label: false,
    };
    run_each(alloc, Form::Lines, lister, sources, how, writer)
}
