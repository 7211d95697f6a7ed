//! Laws of the registries. Each is the contract of a function that does nothing.

ghost use Rattle.krb_registry.specs.Laws.{NamesArePlain, RowsAreInOrder};

/// The rows of each registry are in order of number, and no number is there twice.
pub fn rows_are_in_order()
    ensures { RowsAreInOrder }
{}

/// The names of each registry have only octets from 21 to 7E, and none of `"`, `+`, `,`, `:`, `=`,
/// `[`, `\` and `]`.
pub fn names_are_plain()
    ensures { NamesArePlain }
{}
