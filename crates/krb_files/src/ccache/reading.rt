//! Reading credential caches.

ghost use Rattle.std.specs.Prelude.{◌≡◌, None, Ok, IfOk, IfErr};
ghost use Rattle.krb_file.specs.Fields.{Agrees, IsFaultIn};
ghost use Rattle.krb_file.specs.FieldReaders.{source_at};
ghost use Rattle.krb_ccache.specs.declared.value.Cache3.{Cache3 as Cache3Value};
ghost use Rattle.krb_ccache.specs.declared.value.Ccache.{Ccache as CcacheValue};
ghost use Rattle.krb_ccache.specs.Spelling.{CcacheSpells, Spells3};
ghost use Rattle.krb_ccache.specs.Reading.{both_enctypes, credentials_after, read_in, read, read3};

use krb_ccache::{
    Cache3, Ccache, Credential, Credential3, Kept, OneEnctype, Start, read_credential, read_start,
};
use krb_der::Many;
use krb_file::{FileFault, SliceReader};
use std::alloc::Global;

/// A credential is kept with its second encryption type.
struct BothEnctypes;

impl Kept for BothEnctypes {
    type Value = Credential3;

    ghost kept = { both_enctypes };

    fn keep(credential: Credential, again: u16) -> Credential3 {
        Credential3 { credential, again }
    }
}

/// Reads the credentials up to the end of the file.
fn credentials<K: Kept>(
    alloc: Global,
    version: u8,
    reader: &mut SliceReader<'_>,
) -> Result<Many<K::Value>, FileFault>
    requires { reader.old.end ≡ None }
    ensures { Agrees (λ credentials. credentials) result (credentials_after K.kept version (source_at reader.old.place reader.old.octets)) }
{
    let mut credentials = Vec::new(alloc);
    'credentials: while let Some(item) = read_credential::<K, _>(alloc, version, reader)? {
        credentials.push(item)?;
    }
    Ok(Many::new(credentials))
}

/// Reads a file of a version: what is before the credentials, and the credentials.
fn file<K: Kept>(
    alloc: Global,
    version: u8,
    octets: &[u8],
) -> Result<(Start, Many<K::Value>), FileFault>
    ensures { Agrees (λ found. found) result (read_in K.kept version octets.now) }
{
    let mut reader = SliceReader::new(octets);
    let start = read_start(alloc, &[version], &mut reader)?;
    let credentials = credentials::<K>(alloc, version, &mut reader)?;
    Ok((start, credentials))
}

/// Reads a cache of version 4.
fn whole(alloc: Global, octets: &[u8]) -> Result<Ccache, FileFault>
    ensures { Agrees (λ ccache. ccache) result (read octets.now) }
{
    let (start, credentials) = file::<OneEnctype>(alloc, 4, octets)?;
    let Start {
        header,
        principal,
        ..
    } = start;
    Ok(Ccache {
        header,
        principal,
        credentials,
    })
}

/// Reads a cache of version 3.
fn whole3(alloc: Global, octets: &[u8]) -> Result<Cache3, FileFault>
    ensures { Agrees (λ cache. cache) result (read3 octets.now) }
{
    let (start, credentials) = file::<BothEnctypes>(alloc, 3, octets)?;
    Ok(Cache3 {
        principal: start.principal,
        credentials,
    })
}

/// Reads a cache of version 4 from all the octets of a file. A file that is not one is refused at
/// the first field at fault: Magic at 0, Version at 1, Overrun for a field that passes the end of
/// the header that it is in, else Truncated for one that passes the end of the file. It allocates
/// for octets that are there, and never for a number of addresses that only announces them.
pub fn read(alloc: Global, octets: &[u8]) -> Result<Ccache, FileFault>
    // What is read is spelled by the octets.
    ensures found { IfOk result (λ ccache. CcacheSpells ccache octets.now) }
    // What octets spell is read, unless memory ran out.
    ensures only { (ccache : CcacheValue) → CcacheSpells ccache octets.now → Agrees (λ ccache. ccache) result (Ok ccache) }
    // Which fault it is.
    ensures exact { Agrees (λ ccache. ccache) result (read octets.now) }
    ensures refused { IfErr result (IsFaultIn octets.now) }
{
    whole(alloc, octets)
}

/// Reads a cache of version 3 from all the octets of a file. A file that is not one is refused as
/// [`read`] refuses it, except that there is no header.
pub fn read3(alloc: Global, octets: &[u8]) -> Result<Cache3, FileFault>
    // What is read is spelled by the octets.
    ensures found { IfOk result (λ cache. Spells3 cache octets.now) }
    // What octets spell is read, unless memory ran out.
    ensures only { (cache : Cache3Value) → Spells3 cache octets.now → Agrees (λ cache. cache) result (Ok cache) }
    // Which fault it is.
    ensures exact { Agrees (λ cache. cache) result (read3 octets.now) }
    ensures refused { IfErr result (IsFaultIn octets.now) }
{
    whole3(alloc, octets)
}
