//! A field with its name.

ghost use Rattle.std.specs.Prelude.{◌≡◌};
ghost use Rattle.krb_judge.specs.FieldNames.{field_at, named};

use crate::locating::names::Names;

/// A field of a SEQUENCE: its name, and its type.
#[derive(Clone, Copy)]
pub struct Field {
    /// The name.
    pub name: &'static str,
    /// The type, by which the fields in it have their names.
    pub inside: Names,
}

impl Names {
    /// Returns the field at an index of the type, or one without a name if there is none.
    pub fn field(self, index: usize) -> Field
        ensures { named result ≡ field_at self index }
    {
        match self.fields().get(index) {
            Some(field) => *field,
            None => Field {
                name: "",
                inside: Names::Basic,
            },
        }
    }
}
