//! Runs over files whose lines are written as their records end.

ghost use Rattle.std.specs.Prelude.{◌≡◌, ℕ, List, Some};
ghost use Rattle.krb_ccache.specs.Streaming.{Reads};
ghost use Rattle.krb_record.specs.Labels.{no_label};
ghost use Rattle.krb_run.specs.Records.{ListsRecords, WritesSome};
ghost use Rattle.krb_file_run.specs.Files.{IsCcacheRest, IsKeytabRest, field_limit, keytab_listing, ccache_listing};
ghost use Rattle.krb_file_run.specs.inner.RecordRuns.{AreRecordsLeft, AreCredentialsLeft, CacheSource, FailsInCredential, FailsInRecord, KeytabSource};

use crate::labelled::{put_cache, put_cache_end, put_credential, put_keytab_end, put_record};
use krb_ccache::Credentials;
use krb_file::{FileItem, Limit};
use krb_keytab::{Next, Records};
use krb_record::{Form, Label, TextBuffer};
use krb_run::{
    RecordLines, RunEnd, RunFault, Watch, Watched, in_pieces, list_records, list_refusal, put_fault,
};
use std::alloc::Global;
use std::io::{Read, Write};

/// The lines of a keytab.
#[derive(Drop)]
struct KeytabLines<'label, 'watch, R: Read> {
    records: Records<R>,
    label: &'label Label,
    watch: &'watch Watch,
}

impl<R: Read> RecordLines for KeytabLines<'_, '_, R> {
    ghost Source = { KeytabSource };

    ghost IsLeft = { λ lines. AreRecordsLeft lines.label.now lines.records.reader lines.records.state };

    ghost Fails = { λ was now. FailsInRecord was.records.reader now.records.reader was.records.state now.records.state };

    fn put_next(
        &mut self,
        alloc: Global,
        count: u64,
        text: &mut TextBuffer,
    ) -> Result<Option<RunEnd>, RunFault> {
        match self.records.next_record(alloc) {
            Ok(Next::Item(record)) => {
                let put = put_record(text, self.label, &record);
                self.records.give_back(record);
                put?;
                Ok(None)
            }
            Ok(Next::Done(stop)) => {
                put_keytab_end(text, self.label, count, &stop)?;
                Ok(Some(RunEnd::Clean))
            }
            Err(fault) => {
                let item = FileItem::Record(count);
                let ended = put_fault(alloc, text, self.label, item, fault, self.watch)?;
                Ok(Some(ended))
            }
        }
    }
}

/// The lines of the credentials of a cache, at a time in seconds since 1970 if there is one.
#[derive(Drop)]
struct CredentialLines<'label, 'watch, R: Read> {
    credentials: Credentials<R>,
    label: &'label Label,
    now: Option<u32>,
    watch: &'watch Watch,
}

impl<R: Read + Drop> RecordLines for CredentialLines<'_, '_, R> {
    ghost Source = { CacheSource };

    ghost IsLeft = { λ lines. AreCredentialsLeft lines.label.now lines.credentials.reader lines.credentials.start lines.credentials.state lines.now };

    ghost Fails = { λ _ now. FailsInCredential now.credentials.state };

    fn put_next(
        &mut self,
        alloc: Global,
        count: u64,
        text: &mut TextBuffer,
    ) -> Result<Option<RunEnd>, RunFault> {
        match self.credentials.next_credential(alloc) {
            Ok(Some(credential)) => {
                let put = put_credential(text, self.label, &credential, self.now);
                self.credentials.give_back(credential);
                put?;
                Ok(None)
            }
            Ok(None) => {
                put_cache_end(text, self.label, count)?;
                Ok(Some(RunEnd::Clean))
            }
            Err(fault) => {
                let item = FileItem::Credential(count);
                let ended = put_fault(alloc, text, self.label, item, fault, self.watch)?;
                Ok(Some(ended))
            }
        }
    }
}

/// Lists a keytab of format 0x0502 in lines, as [`run_keytab_in`] does.
pub fn run_keytab<R: Read, W: Write>(
    alloc: Global,
    reader: &mut R,
    writer: &mut W,
) -> Result<RunEnd, RunFault>
    ensures listed { (file : List ℕ) → R.remaining reader.old ≡ Some file → ListsRecords (keytab_listing (no_label Form.Lines) file) (IsKeytabRest (no_label Form.Lines) file) (W.contents writer.old) (W.contents writer.new) result }
    ensures written { WritesSome (W.contents writer.old) (W.contents writer.new) }
{
    run_keytab_in(alloc, &Label::none(Form::Lines), reader, writer)
}

/// Lists a keytab of format 0x0502: writes a record for each one of the file, each with a label, and
/// then that of the end or of the refusal. A field of more than 16777216 octets is refused. The reader is asked
/// at most 2^40 times, for 4 KiB first, then for 64 KiB or the octets of a field, and not again after
/// its end or an error. Lines are written together, but those of a slow reader before a record for
/// which it may have to be waited for.
pub fn run_keytab_in<R: Read, W: Write>(
    alloc: Global,
    label: &Label,
    reader: &mut R,
    writer: &mut W,
) -> Result<RunEnd, RunFault>
    ensures listed { (file : List ℕ) → R.remaining reader.old ≡ Some file → ListsRecords (keytab_listing label.now file) (IsKeytabRest label.now file) (W.contents writer.old) (W.contents writer.new) result }
    ensures written { WritesSome (W.contents writer.old) (W.contents writer.new) }
{
    let watch = Watch::new();
    let watch = &watch;
    let reader = in_pieces(alloc, Watched { reader, watch })?;
    let records = Records::new(reader, Limit::DEFAULT);
    let mut text = TextBuffer::new(alloc);
    let mut lines = KeytabLines {
        records,
        label,
        watch,
    };
    list_records(alloc, &mut lines, &mut text, watch, writer)
}

/// Lists the credentials of a cache after its own line.
fn list_credentials<R: Read + Drop, W: Write>(
    alloc: Global,
    lines: &mut CredentialLines<'_, '_, R>,
    writer: &mut W,
) -> Result<RunEnd, RunFault>
    ensures listed { (file : List ℕ) → Reads field_limit lines.old.credentials.reader lines.old.credentials.start lines.old.credentials.state file 0 → ListsRecords (ccache_listing lines.old.label.now lines.old.now file) (IsCcacheRest lines.old.label.now lines.old.now file) (W.contents writer.old) (W.contents writer.new) result }
    ensures written { WritesSome (W.contents writer.old) (W.contents writer.new) }
{
    let mut text = TextBuffer::new(alloc);
    let cache = &lines.credentials;
    put_cache(&mut text, lines.label, cache.header(), cache.principal())?;
    let watch = lines.watch;
    list_records(alloc, lines, &mut text, watch, writer)
}

/// Lists a credential cache of version 3 or 4 in lines, as [`run_ccache_in`] does.
pub fn run_ccache<R: Read, W: Write>(
    alloc: Global,
    reader: &mut R,
    writer: &mut W,
    now: Option<u32>,
) -> Result<RunEnd, RunFault>
    ensures listed { (file : List ℕ) → R.remaining reader.old ≡ Some file → ListsRecords (ccache_listing (no_label Form.Lines) now file) (IsCcacheRest (no_label Form.Lines) now file) (W.contents writer.old) (W.contents writer.new) result }
    ensures written { WritesSome (W.contents writer.old) (W.contents writer.new) }
{
    run_ccache_in(alloc, &Label::none(Form::Lines), reader, writer, now)
}

/// Lists a credential cache of version 3 or 4 in a form: writes a line for the cache, one for each
/// credential, and then the line of the end or of the refusal. If `now` is given, in seconds since
/// 1970, each line of a credential says whether it has expired by then. Reads and writes as
/// [`run_keytab_in`] does.
pub fn run_ccache_in<R: Read, W: Write>(
    alloc: Global,
    label: &Label,
    reader: &mut R,
    writer: &mut W,
    now: Option<u32>,
) -> Result<RunEnd, RunFault>
    ensures listed { (file : List ℕ) → R.remaining reader.old ≡ Some file → ListsRecords (ccache_listing label.now now file) (IsCcacheRest label.now now file) (W.contents writer.old) (W.contents writer.new) result }
    ensures written { WritesSome (W.contents writer.old) (W.contents writer.new) }
{
    let watch = Watch::new();
    let watch = &watch;
    let reader = in_pieces(alloc, Watched { reader, watch })?;
    match Credentials::start(alloc, reader, Limit::DEFAULT) {
        Ok(credentials) => {
            let mut lines = CredentialLines {
                credentials,
                label,
                now,
                watch,
            };
            list_credentials(alloc, &mut lines, writer)
        }
        Err(fault) => list_refusal(alloc, label, fault, watch, writer),
    }
}
