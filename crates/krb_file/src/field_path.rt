//! The path of the field at fault.

ghost use Rattle.std.specs.Prelude.{Some};
ghost use Rattle.krb_file.specs.Names.{path_text};

use crate::field_name::{FieldName, FileField};
use std::fmt;

/// What a field of a file is in.
#[derive(Clone, Copy, PartialEq, Eq, Debug)]
pub enum FileItem {
    /// No item.
    File,
    /// A record of a keytab, after this number of others. The first two fields of a keytab are in
    /// no record.
    Record(u64),
    /// A credential of a cache, after this number of others.
    Credential(u64),
}

/// The path of a field of a file.
#[derive(Clone, Copy, PartialEq, Eq, Debug)]
pub struct FieldPath {
    /// The item that the field is in.
    pub item: FileItem,
    /// The field.
    pub field: FileField,
}

/// Shows `magic`, `record[1].realm` or `credential[1].address[0].type`.
impl fmt::Display for FieldPath {
    ghost output = { λ path. Some (path_text path) };

    fn fmt<W: fmt::Write>(&self, f: &mut fmt::Formatter<W>) -> fmt::Result {
        match self.item {
            FileItem::File => write!(f, "{}", self.field),
            FileItem::Record(index) => match self.field.name {
                FieldName::Magic | FieldName::Version => write!(f, "{}", self.field),
                _ => write!(f, "record[{index}].{}", self.field),
            },
            FileItem::Credential(index) => write!(f, "credential[{index}].{}", self.field),
        }
    }
}
