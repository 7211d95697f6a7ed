//! Records of keytabs and caches, each with its label.

ghost use Rattle.std.specs.Prelude.{◌≡◌, ◌++◌, OnOk};
ghost use Rattle.krb_file_run.specs.Lines.{cache_end_line, cache_line, credential_line, keytab_end_line, record_line};

use krb_ccache::{Credential, FilePrincipal, Header};
use krb_keytab::{Record, Stop};
use krb_record::{Label, TextBuffer};
use std::alloc::AllocError;

/// Appends a record of a keytab.
pub(crate) fn put_record(
    text: &mut TextBuffer,
    label: &Label,
    record: &Record,
) -> Result<(), AllocError>
    ensures { OnOk result (text.new ≡ text.old ++ record_line label.now «record».now) }
{
    label.begin(text)?;
    krb_list::put_record(text, label.form(), record)?;
    label.end(text)
}

/// Appends the record of the end of a keytab of so many records.
pub(crate) fn put_keytab_end(
    text: &mut TextBuffer,
    label: &Label,
    records: u64,
    stop: &Stop,
) -> Result<(), AllocError>
    ensures { OnOk result (text.new ≡ text.old ++ keytab_end_line label.now records stop.now) }
{
    label.begin(text)?;
    krb_list::put_keytab_end(text, label.form(), records, stop)?;
    label.end(text)
}

/// Appends the record of a cache.
pub(crate) fn put_cache(
    text: &mut TextBuffer,
    label: &Label,
    header: &Header,
    principal: &FilePrincipal,
) -> Result<(), AllocError>
    ensures { OnOk result (text.new ≡ text.old ++ cache_line label.now header.now principal.now) }
{
    label.begin(text)?;
    krb_list::put_cache(text, label.form(), header, principal)?;
    label.end(text)
}

/// Appends the record of a credential, at a time in seconds since 1970 if there is one.
pub(crate) fn put_credential(
    text: &mut TextBuffer,
    label: &Label,
    credential: &Credential,
    now: Option<u32>,
) -> Result<(), AllocError>
    ensures { OnOk result (text.new ≡ text.old ++ credential_line label.now now credential.now) }
{
    label.begin(text)?;
    krb_list::put_credential(text, label.form(), credential, now)?;
    label.end(text)
}

/// Appends the record of the end of a cache of so many credentials.
pub(crate) fn put_cache_end(
    text: &mut TextBuffer,
    label: &Label,
    credentials: u64,
) -> Result<(), AllocError>
    ensures { OnOk result (text.new ≡ text.old ++ cache_end_line label.now credentials) }
{
    label.begin(text)?;
    krb_list::put_cache_end(text, label.form(), credentials)?;
    label.end(text)
}
