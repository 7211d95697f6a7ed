//! Where the records lie of keytabs and credential caches.

ghost use Rattle.std.specs.Prelude.{◌≡◌, IfOk, OnOk};
ghost use Rattle.std.specs.Option.{is_some};
ghost use Rattle.krb_ccache.specs.Reading.{next_at, one_enctype};
ghost use Rattle.krb_keytab.specs.Reading.{record_at};
ghost use Rattle.krb_c.specs.FileSpans.{ccache_spans, is_record, keytab_spans, principal_place};
ghost use Rattle.krb_c.specs.inner.Adding.{Adds};
ghost use Rattle.krb_c.specs.inner.Items.{AddsFault, AddsItem};

use crate::spans::Spans;
use krb_ccache::{OneEnctype, read_credential, read_start};
use krb_file::{FieldReader, FileFault, Limit, StreamReader};
use krb_keytab::{Next, read_record};
use krb_run::RunFault;
use std::alloc::Global;
use std::io::ErrorKind;

/// The number of octets of the length of an entry or a hole.
const LENGTH_OCTETS: u64 = 4;

/// Adds what is refused of a file, from where the part begins that is at fault up to the end.
fn put_fault(spans: &mut Spans, fault: FileFault, all: usize) -> Result<(), RunFault>
    ensures { OnOk result (AddsFault fault all spans.old spans.new) }
{
    match fault {
        FileFault::Refused(refusal) => {
            spans.put_refused(refusal.begin as usize, all)?;
            Ok(())
        }
        FileFault::Read => Err(RunFault::Read(ErrorKind::Other.into())),
        FileFault::Memory => Err(RunFault::Memory),
    }
}

/// Adds the next entry or hole of a keytab, or where its records end. Returns whether others follow.
fn put_record(
    alloc: Global,
    spans: &mut Spans,
    reader: &mut StreamReader<&[u8]>,
    all: usize,
) -> Result<bool, RunFault>
    ensures { IfOk result (AddsItem record_at is_record 4 all reader.old reader.new spans.old spans.new) }
{
    let begin = reader.place();
    match read_record(alloc, reader) {
        Ok(Next::Item(_record)) => {
            let end = reader.place();
            spans.put((begin + LENGTH_OCTETS) as usize, end as usize)?;
            Ok(true)
        }
        Ok(Next::Done(_stop)) => {
            let end = reader.place() as usize;
            spans.put(end, end)?;
            Ok(false)
        }
        Err(fault) => {
            put_fault(spans, fault.begun_at(begin), all)?;
            Ok(false)
        }
    }
}

/// Adds the entries and the holes of a keytab, each after its length, and where they end.
pub(crate) fn put_keytab(alloc: Global, spans: &mut Spans, file: &[u8]) -> Result<(), RunFault>
    ensures { OnOk result (Adds (keytab_spans file.now) spans.old spans.new) }
{
    let all = file.len();
    let mut reader = StreamReader::new(file, Limit::DEFAULT);
    if let Err(fault) = reader.version(&[2]) {
        return put_fault(spans, fault, all);
    }
    'records: for _index in 0..all + 1 {
        if !put_record(alloc, spans, &mut reader, all)? {
            return Ok(());
        }
    }
    Ok(())
}

/// Returns where the default principal of a cache begins: after the version, and in version 4 after a
/// header, before which is its number of octets.
fn principal_place(version: u8, file: &[u8]) -> usize
    ensures { result ≡ principal_place version file.now }
{
    match file {
        [_, _, high, low, ..] if version == 4 => {
            4 + (256 * usize::from(*high) + usize::from(*low))
        }
        _ => 2,
    }
}

/// Adds the next credential of a cache, or where they end. Returns whether others follow.
fn put_credential(
    alloc: Global,
    spans: &mut Spans,
    version: u8,
    reader: &mut StreamReader<&[u8]>,
    all: usize,
) -> Result<bool, RunFault>
    ensures { IfOk result (AddsItem (next_at one_enctype version) is_some 0 all reader.old reader.new spans.old spans.new) }
{
    let begin = reader.place();
    match read_credential::<OneEnctype, _>(alloc, version, reader) {
        Ok(Some(_credential)) => {
            spans.put(begin as usize, reader.place() as usize)?;
            Ok(true)
        }
        Ok(None) => {
            let end = reader.place() as usize;
            spans.put(end, end)?;
            Ok(false)
        }
        Err(fault) => {
            put_fault(spans, fault, all)?;
            Ok(false)
        }
    }
}

/// Adds the default principal of a cache, its credentials, and where they end.
pub(crate) fn put_ccache(alloc: Global, spans: &mut Spans, file: &[u8]) -> Result<(), RunFault>
    ensures { OnOk result (Adds (ccache_spans file.now) spans.old spans.new) }
{
    let all = file.len();
    let mut reader = StreamReader::new(file, Limit::DEFAULT);
    let version = match read_start(alloc, &[3, 4], &mut reader) {
        Ok(start) => start.version,
        Err(fault) => return put_fault(spans, fault, all),
    };
    spans.put(principal_place(version, file), reader.place() as usize)?;
    'credentials: for _index in 0..all + 1 {
        if !put_credential(alloc, spans, version, &mut reader, all)? {
            return Ok(());
        }
    }
    Ok(())
}
