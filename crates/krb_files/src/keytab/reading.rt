//! Reading keytabs.

ghost use Rattle.std.specs.Prelude.{◌≡◌, ℕ, None, Ok, IfOk, IfErr};
ghost use Rattle.krb_file.specs.Fields.{Agrees, IsFaultIn};
ghost use Rattle.krb_file.specs.FieldReaders.{source_at};
ghost use Rattle.krb_keytab.specs.Spelling.{ReadAs};
ghost use Rattle.krb_keytab.specs.declared.value.Keytab.{Keytab as KeytabValue};
ghost use Rattle.krb_keytab.specs.Reading.{items_after, keytab_of_items, read};

use krb_der::Many;
use krb_file::{FieldReader, FileFault, SliceReader};
use krb_keytab::{Keytab, Next, read_record};
use std::alloc::Global;

/// Reads the records, and returns the keytab and the place after it.
fn keytab(alloc: Global, reader: &mut SliceReader<'_>) -> Result<(Keytab, usize), FileFault>
    requires { reader.old.end ≡ None }
    ensures { Agrees (λ taken. taken) result (keytab_of_items (items_after None (source_at reader.old.place reader.old.octets))) }
{
    let mut records = Vec::new(alloc);
    loop {
        let begin = reader.place();
        match read_record(alloc, reader) {
            Ok(Next::Item(record)) => records.push(record)?,
            Ok(Next::Done(stop)) => {
                let records = Many::new(records);
                return Ok((Keytab { records, stop }, reader.place() as usize));
            }
            Err(fault) => return Err(fault.begun_at(begin)),
        }
    }
}

/// Reads a keytab, and returns it and how many octets it has.
fn whole(alloc: Global, octets: &[u8]) -> Result<(Keytab, usize), FileFault>
    ensures { Agrees (λ taken. taken) result (read octets.now) }
{
    let mut reader = SliceReader::new(octets);
    reader.version(&[2])?;
    keytab(alloc, &mut reader)
}

/// Reads a keytab from the first octets of a file, and returns it and how many octets it has: all
/// of them, unless a record of length 0 ends it earlier. A file that is not a keytab is refused at
/// the first field at fault: Magic at 0, Version at 1, Overrun for a field that passes the end of
/// its entry, else Truncated for one that passes the end of the file.
pub fn read(alloc: Global, octets: &[u8]) -> Result<(Keytab, usize), FileFault>
    // What is read is spelled by those octets.
    ensures found { IfOk result (λ taken. ReadAs octets.now taken.0 taken.1) }
    // What octets spell is read, unless memory ran out.
    ensures only { (keytab : KeytabValue) (size : ℕ) → ReadAs octets.now keytab size → Agrees (λ taken. taken) result (Ok (keytab, size)) }
    // Which fault it is.
    ensures exact { Agrees (λ taken. taken) result (read octets.now) }
    ensures refused { IfErr result (IsFaultIn octets.now) }
{
    whole(alloc, octets)
}
