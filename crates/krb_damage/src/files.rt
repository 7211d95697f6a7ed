//! Files that are cut or in which an octet is changed, read whole and one record after another.

use crate::fakes::Slow;
use krb_ccache::{Ccache, Credential, Credentials, FilePrincipal, Header};
use krb_der::Many;
use krb_file::{FileFault, FileRefusal, FileWhy, Limit};
use krb_files::ccache::{read3, upgrade};
use krb_keytab::{Hole, Keytab, Next, Record, Records, Stop};
use std::alloc::Global;
use std::io::Read;

/// A format of files.
#[derive(Clone, Copy)]
pub(crate) enum Format {
    Keytab,
    /// Caches; those of version 3 are upgraded.
    Ccache,
}

/// The octets that are written of a file that was read, or why it could not be read.
type Written = Result<Vec<u8>, FileFault>;

/// Returns what is written of a keytab with all its holes clean, and then whether each hole is.
fn written_keytab(alloc: Global, records: Vec<Record>, stop: Stop) -> Option<Vec<u8>> {
    let mut records = records;
    let mut holes = Vec::new(alloc);
    for record in records.as_mut_slice() {
        if let Record::Hole(hole) = record {
            holes.push(hole.clean() as u8).ok()?;
            *hole = Hole::new(hole.size(), true)?;
        }
    }
    let records = Many::new(records);
    let mut octets = krb_files::keytab::write(alloc, &Keytab { records, stop }).ok()?;
    octets.extend_from_slice(holes.as_slice()).ok()?;
    Some(octets)
}

/// Reads a keytab one record after another, at most `most` of them.
fn keytab_of<R: Read + Drop>(alloc: Global, reader: R, most: usize) -> Option<Written> {
    let mut reader = Records::new(reader, Limit::new(16777216)?);
    let mut records = Vec::new(alloc);
    for _ in 0..=most {
        match reader.next_record(alloc) {
            Ok(Next::Item(record)) => records.push(record).ok()?,
            Ok(Next::Done(stop)) => return Some(Ok(written_keytab(alloc, records, stop)?)),
            Err(fault) => return Some(Err(fault)),
        }
    }
    None
}

/// Reads a cache, as one of version 4.
fn cache(alloc: Global, octets: &[u8]) -> Result<Ccache, FileFault> {
    if octets.get(1) != Some(&3) {
        return krb_files::ccache::read(alloc, octets);
    }
    match upgrade(alloc, read3(alloc, octets)?) {
        Ok(ccache) => Ok(ccache),
        Err(_) => Err(FileFault::Memory),
    }
}

/// Returns whether two headers are equal.
fn is_same_header(header: &Header, other: &Header) -> bool {
    let (fields, others) = (header.fields.as_slice(), other.fields.as_slice());
    for (field, other) in fields.iter().zip(others) {
        if field.tag != other.tag || field.value != other.value {
            return false;
        }
    }
    fields.len() == others.len()
}

/// Returns whether two principals are equal.
fn is_same_principal(principal: &FilePrincipal, other: &FilePrincipal) -> bool {
    principal.name_type == other.name_type
        && principal.realm == other.realm
        && principal.components == other.components
}

/// Reads the next credential. What its contract says stays out of the proofs of callers, which take
/// long with it.
pub(crate) fn next_of<R: Read + Drop>(
    alloc: Global,
    reader: &mut Credentials<R>,
) -> Result<Option<Credential>, FileFault> {
    reader.next_credential(alloc)
}

/// Reads the credentials that are left, at most `most` of them.
fn credentials_of<R: Read + Drop>(
    alloc: Global,
    reader: &mut Credentials<R>,
    most: usize,
) -> Option<Result<Many<Credential>, FileFault>> {
    let mut credentials = Vec::new(alloc);
    for _ in 0..=most {
        match next_of(alloc, reader) {
            Ok(Some(credential)) => credentials.push(credential).ok()?,
            Ok(None) => return Some(Ok(Many::new(credentials))),
            Err(fault) => return Some(Err(fault)),
        }
    }
    None
}

/// Reads a cache one credential after another. Returns `None` if its header or principal differs
/// from that of the cache that is read whole from the same octets.
fn cache_of<R: Read + Drop>(alloc: Global, reader: R, octets: &[u8]) -> Option<Written> {
    let mut reader = match Credentials::start(alloc, reader, Limit::new(16777216)?) {
        Ok(reader) => reader,
        Err(fault) => return Some(Err(fault)),
    };
    let credentials = match credentials_of(alloc, &mut reader, octets.len())? {
        Ok(credentials) => credentials,
        Err(fault) => return Some(Err(fault)),
    };
    let Ccache {
        header,
        principal,
        ..
    } = cache(alloc, octets).ok()?;
    if !is_same_header(reader.header(), &header)
        || !is_same_principal(reader.principal(), &principal)
    {
        return None;
    }
    let ccache = Ccache {
        header,
        principal,
        credentials,
    };
    Some(Ok(krb_files::ccache::write(alloc, &ccache).ok()?))
}

/// Returns whether reading octets in two ways returns the same, except that a field may be too long
/// for the way that has a limit.
fn is_same(streamed: &Written, whole: &Written) -> bool {
    match (streamed, whole) {
        (Ok(octets), Ok(others)) => octets.as_slice() == others.as_slice(),
        (Err(FileFault::Refused(refusal)), Err(FileFault::Refused(wanted))) => {
            let is_long = matches!(refusal.why, FileWhy::TooLong(_))
                && wanted.why == FileWhy::Truncated;
            let why = if is_long { refusal.why } else { wanted.why };
            *refusal == FileRefusal { why, ..*wanted }
        }
        _ => false,
    }
}

/// Returns whether octets are written as they were read, apart from what is written of holes. A
/// cache of version 3 is written in version 4, with two octets more for the length of the header,
/// and two fewer for each credential.
fn is_again(alloc: Global, written: &[u8], octets: &[u8]) -> bool {
    if octets.get(1) != Some(&3) {
        return written.starts_with(octets);
    }
    match cache(alloc, octets) {
        Ok(ccache) => {
            let twice = ccache.credentials.as_slice().len().saturating_mul(2);
            written.len().saturating_add(twice) == octets.len().saturating_add(2)
        }
        Err(_) => false,
    }
}

impl Format {
    /// Returns what is written of the file that is read whole.
    fn whole(self, alloc: Global, octets: &[u8]) -> Option<Written> {
        let written = match self {
            Format::Keytab => match krb_files::keytab::read(alloc, octets) {
                Ok((Keytab { records, stop }, _)) => {
                    written_keytab(alloc, records.into_vec(), stop)?
                }
                Err(fault) => return Some(Err(fault)),
            },
            Format::Ccache => match cache(alloc, octets) {
                Ok(ccache) => krb_files::ccache::write(alloc, &ccache).ok()?,
                Err(fault) => return Some(Err(fault)),
            },
        };
        Some(Ok(written))
    }

    /// Returns whether what is read one record after another is the file that the octets are.
    fn gives<R: Read + Drop>(
        self,
        alloc: Global,
        reader: R,
        octets: &[u8],
        whole: &Written,
    ) -> Option<bool> {
        let streamed = match self {
            Format::Keytab => keytab_of(alloc, reader, octets.len())?,
            Format::Ccache => cache_of(alloc, reader, octets)?,
        };
        Some(is_same(&streamed, whole))
    }

    /// Returns whether octets are a file, read whole or one record after another: from readers of
    /// all octets at once, of one octet at once, and of two parts. Returns `None` if these differ,
    /// or out of memory.
    pub(crate) fn is_whole(self, alloc: Global, octets: &[u8], cut: usize) -> Option<bool> {
        let whole = self.whole(alloc, octets)?;
        let (front, back) = octets.split_at(cut.min(octets.len()));
        let slowly = Slow {
            octets,
            at_most: 1,
            asks: usize::MAX,
        };
        let alike = self.gives(alloc, octets, octets, &whole)?
            && self.gives(alloc, slowly, octets, &whole)?
            && self.gives(alloc, front.chain(back), octets, &whole)?;
        alike.then_some(whole.is_ok())
    }

    /// Returns how many prefixes of octets are a file.
    pub(crate) fn prefixes(self, alloc: Global, octets: &[u8]) -> Option<u64> {
        let mut prefixes = 0u64;
        for count in 0..=octets.len() {
            if self.is_whole(alloc, &octets[..count], 1)? {
                prefixes = prefixes.saturating_add(1);
            }
        }
        Some(prefixes)
    }

    /// Returns whether a file is written as it was read, whole and one record after another, from
    /// readers of one octet at once and of two parts, whatever the first part is.
    pub(crate) fn comes_again(self, alloc: Global, octets: &[u8]) -> Option<bool> {
        let whole = self.whole(alloc, octets)?;
        let Ok(written) = &whole else {
            return Some(false);
        };
        let mut alike = is_again(alloc, written.as_slice(), octets)
            && self.is_whole(alloc, octets, 0)?;
        for cut in 0..=octets.len() {
            let (front, back) = octets.split_at(cut);
            alike = alike && self.gives(alloc, front.chain(back), octets, &whole)?;
        }
        Some(alike)
    }
}
