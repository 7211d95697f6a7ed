//! Rows of registries.

/// A number and its name.
#[derive(Clone, Copy, PartialEq, Eq, Debug)]
pub struct Row {
    /// The number.
    pub number: i64,
    /// Its name, in printable ASCII characters.
    pub name: &'static str,
}
