//! The laws of slices, each the contract of a function that does nothing.

ghost use Rattle.krb_judge.specs.Laws.{RefusalsAreInside};

/// Octets that are no message, no Ticket or no METHOD-DATA are refused at one of them, if there are
/// some.
pub fn refusals_are_inside()
    ensures { RefusalsAreInside }
{}
