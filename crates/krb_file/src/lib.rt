//! What keytabs, credential caches and captures share: how the fields of files are read, and why a
//! file is refused.
//!
//! The main calls:
//!
//! - [`SliceReader::new`] reads a file that is in memory, and [`StreamReader::new`] anything that
//!   can be read, as it comes. Both are a [`FieldReader`], which reads numbers, and octets after
//!   their number, up to an end and under a limit ([`Limit`]).
//! - [`read_many`] reads fields of a kind ([`Field`]) one after another.
//!
//! A [`FileFault`] is a refusal at the first octet of a field, a read that failed, or out of
//! memory. A [`FieldPath`] shows which field of a file that is.
//!
//! Of these files it knows the names of their fields; `krb_keytab`, `krb_ccache` and `krb_packet`
//! know the formats. Nothing here opens a file: the caller passes a reader.
//!
//! `specs/Fields` says how fields are spelled, `specs/FieldReaders` what a reader returns, and
//! `specs/Items` what a reader of items, one after another, returns.
#![tactic(auto)]

mod ahead;
mod fault;
mod field_name;
mod field_path;
mod field_reader;
mod progress;
mod slice_reader;
mod stream_reader;

pub use fault::{FileFault, FileRefusal, called, in_part};
pub use field_name::{FieldName, FileField, FilePart};
pub use field_path::{FieldPath, FileItem};
pub use field_reader::{Field, FieldReader, String16, String32, read_many};
pub use krb_der::Limit;
pub use krb_source::{FileWhy, file_why_length, file_why_number, file_why_text};
pub use progress::Progress;
pub use slice_reader::SliceReader;
pub use stream_reader::StreamReader;
