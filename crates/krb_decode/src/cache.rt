//! The run over a credential cache.

ghost use Rattle.std.specs.Prelude.{◌≡◌, ℕ, List, [], Some};
ghost use Rattle.krb_ccache.specs.Streaming.{Reads, credentials};
ghost use Rattle.krb_decode.specs.Caches.{credentials_decoded, decoded_cache, field_limit};
ghost use Rattle.krb_decode.specs.Runs.{DecodesCache};

use crate::credential::put_credential;
use crate::input::end_of;
use crate::parts::Parts;
use krb_ccache::Credentials;
use krb_file::{FileItem, Limit};
use krb_record::{Form, Label, TextBuffer};
use krb_run::{RunEnd, RunFault, Watch, Watched, in_pieces, put_fault};
use std::alloc::Global;
use std::io::{Read, Write};

/// The greatest number of credentials that are read.
const MOST_CREDENTIALS: u64 = 1 << 40;

/// Decodes the tickets of a credential cache of version 3 or 4: writes the line of each one before the next
/// credential is read. What is refused is said as the cache's listing has it with names, and of a
/// credential that it has no ticket, or what is wrong with it. Configuration entries, session keys and
/// second tickets are passed over. The text becomes what is said, also if the run fails.
pub fn run_decode_ccache<R: Read, W: Write>(
    alloc: Global,
    reader: &mut R,
    writer: &mut W,
    said: &mut TextBuffer,
) -> Result<RunEnd, RunFault>
    ensures decoded { (file : List ℕ) → R.remaining reader.old ≡ Some file → DecodesCache (decoded_cache file) (W.contents writer.old) (W.contents writer.new) said.new result }
{
    said.clear();
    let watch = Watch::new();
    let watch = &watch;
    let reader = in_pieces(alloc, Watched { reader, watch })?;
    match Credentials::start(alloc, reader, Limit::DEFAULT) {
        Ok(mut cache) => {
            let mut parts = Parts::new(alloc);
            let ended = decode_credentials(alloc, &mut cache, watch, &mut parts, writer);
            *said = parts.said;
            ended
        }
        Err(fault) => {
            let label = Label::none(Form::NamedLines);
            put_fault(alloc, said, &label, FileItem::File, fault, watch)
        }
    }
}

/// Decodes the credentials of a cache, to nothing that is decoded yet.
fn decode_credentials<R: Read + Drop, W: Write>(
    alloc: Global,
    cache: &mut Credentials<R>,
    watch: &Watch,
    parts: &mut Parts,
    writer: &mut W,
) -> Result<RunEnd, RunFault>
    requires lines { parts.old.lines.items ≡ [] }
    requires said { parts.old.said ≡ [] }
    ensures decoded { (file : List ℕ) → Reads field_limit cache.old.reader cache.old.start cache.old.state file 0 → DecodesCache (credentials_decoded (credentials field_limit file)) (W.contents writer.old) (W.contents writer.new) parts.new.said result }
{
    'entries: for index in 0..MOST_CREDENTIALS {
        match cache.next_credential(alloc) {
            Ok(Some(credential)) => {
                let put = put_credential(parts, index, &credential);
                cache.give_back(credential);
                put?;
                parts.write_lines(writer)?;
            }
            Ok(None) => return Ok(end_of(parts.said.octets())),
            Err(fault) => {
                let label = Label::none(Form::NamedLines);
                let item = FileItem::Credential(index);
                let _ = put_fault(alloc, &mut parts.said, &label, item, fault, watch)?;
                return Ok(end_of(parts.said.octets()));
            }
        }
    }
    Err(RunFault::Read(watch.error()))
}
