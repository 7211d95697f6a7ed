//! How sources are told apart.

/// How the records of sources are told apart.
#[derive(Clone, Copy, PartialEq, Eq, Debug)]
pub enum Naming {
    /// A record of its name before each source, if there are several; in JSON each other object of
    /// several sources has the name as its last member, too.
    Several,
    /// The same, and a record of its name before the only one.
    Each,
    /// The name before each line, or as the last member of each object, and no record of it.
    Labels,
}
