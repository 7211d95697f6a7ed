//! Why files are refused or cannot be read.

ghost use Rattle.std.specs.Prelude.{◌≡◌, Some, None};
ghost use Rattle.krb_file.specs.Faults.{file_fault_text, fault_field};
ghost use Rattle.krb_file.specs.Fields.{fault_of, with_name, with_part, fault_at, fails_at, fault_begun, fails_begun};
ghost use Rattle.krb_file.specs.declared.fault.FileFault.TheVariants.{Refused, Memory, Read};

use crate::field_name::{FieldName, FileField, FilePart};
use krb_source::FileWhy;
use std::alloc::{AllocError, AllocFailed};
use std::error::Error;
use std::fmt;

/// A refusal of a file.
#[derive(Clone, Copy, PartialEq, Eq, Debug)]
pub struct FileRefusal {
    /// The first octet of the first field at fault, counted from 0. It is in the file or, if octets
    /// are missing, at its end.
    pub place: u64,
    /// What is wrong with the field.
    pub why: FileWhy,
    /// The field, if its reader names it.
    pub field: Option<FileField>,
    /// The first octet of the part of the file that the field is in: of a record, a credential, a
    /// field of a header, a packet or a block; or of the field itself, if it is in none.
    pub begin: u64,
}

/// A fault of reading a file.
#[derive(Clone, Copy, PartialEq, Eq, Debug)]
pub enum FileFault {
    /// The file is refused.
    Refused(FileRefusal),
    /// The device that the file is read from failed.
    Read,
    /// Out of memory.
    Memory,
}

impl From<AllocError> for FileFault {
    ghost from_gives = { λ _ e. e ≡ Memory };

    fn from(_error: AllocError) -> FileFault {
        FileFault::Memory
    }
}

impl<T: Drop> From<AllocFailed<T>> for FileFault {
    ghost from_gives = { λ _ e. e ≡ Memory };

    fn from(_error: AllocFailed<T>) -> FileFault {
        FileFault::Memory
    }
}

/// A read failed.
#[derive(Drop)]
pub(crate) struct ReadFailed;

impl From<ReadFailed> for FileFault {
    ghost from_gives = { λ _ e. e ≡ Read };

    fn from(_error: ReadFailed) -> FileFault {
        FileFault::Read
    }
}

impl FileFault {
    /// Returns the refusal of the field at a place, which is in no part yet.
    pub fn refused(place: u64, why: FileWhy) -> FileFault
        ensures { result ≡ Refused (fault_of place why) }
    {
        FileFault::Refused(FileRefusal {
            place,
            why,
            field: None,
            begin: place,
        })
    }

    /// Returns the field that is refused, if its reader names it.
    pub fn field(self) -> Option<FileField>
        ensures { result ≡ fault_field self }
    {
        match self {
            FileFault::Refused(refusal) => refusal.field,
            FileFault::Read | FileFault::Memory => None,
        }
    }

    /// Returns the same fault, in a part of the file that begins at a place.
    pub fn begun_at(self, begin: u64) -> FileFault
        ensures { result ≡ fault_begun begin self }
    {
        match self {
            FileFault::Refused(refusal) => FileFault::Refused(FileRefusal { begin, ..refusal }),
            FileFault::Read => FileFault::Read,
            FileFault::Memory => FileFault::Memory,
        }
    }

    /// Returns the same fault, but of the field of this name.
    fn of_field(self, name: FieldName) -> FileFault
        ensures { result ≡ fault_at (with_name name) self }
    {
        match self {
            FileFault::Refused(refusal) => FileFault::Refused(FileRefusal {
                field: Some(FileField { part: None, name }),
                ..refusal
            }),
            FileFault::Read => FileFault::Read,
            FileFault::Memory => FileFault::Memory,
        }
    }

    /// Returns the same fault, with its field in this part.
    fn of_part(self, part: FilePart) -> FileFault
        ensures { result ≡ fault_at (with_part part) self }
    {
        match self {
            FileFault::Refused(refusal) => FileFault::Refused(FileRefusal {
                field: field_in(part, refusal.field),
                ..refusal
            }),
            FileFault::Read => FileFault::Read,
            FileFault::Memory => FileFault::Memory,
        }
    }
}

/// Returns the same field, in this part.
fn field_in(part: FilePart, field: Option<FileField>) -> Option<FileField>
    ensures { result ≡ with_part part field }
{
    match field {
        Some(FileField { name, .. }) => Some(FileField {
            part: Some(part),
            name,
        }),
        None => None,
    }
}

/// Returns what was read, or the fault of the field of this name.
#[inline(always)]
pub fn called<T>(name: FieldName, read: Result<T, FileFault>) -> Result<T, FileFault>
    ensures { result ≡ fails_at (with_name name) read }
{
    match read {
        Ok(value) => Ok(value),
        Err(fault) => Err(fault.of_field(name)),
    }
}

/// Returns what was read of this part, which begins at a place, or the fault, with its field in the
/// part.
#[inline(always)]
pub fn in_part<T>(part: FilePart, begin: u64, read: Result<T, FileFault>) -> Result<T, FileFault>
    ensures { result ≡ fails_begun begin (fails_at (with_part part) read) }
{
    match read {
        Ok(value) => Ok(value),
        Err(fault) => Err(fault.of_part(part).begun_at(begin)),
    }
}

/// Shows `refused at 12: Truncated`, `a read failed` or `out of memory`.
impl fmt::Display for FileFault {
    ghost output = { λ fault. Some (file_fault_text fault) };

    fn fmt<W: fmt::Write>(&self, f: &mut fmt::Formatter<W>) -> fmt::Result {
        match self {
            FileFault::Refused(FileRefusal { place, why, .. }) => {
                write!(f, "refused at {place}: {why}")
            }
            FileFault::Read => f.write_str("a read failed"),
            FileFault::Memory => f.write_str("out of memory"),
        }
    }
}

impl Error for FileFault {}
