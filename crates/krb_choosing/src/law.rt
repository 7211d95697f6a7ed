//! The law of what is told of a listing, the contract of a function that does nothing.

ghost use Rattle.krb_choosing.specs.Laws.{LastIsKeptOrTold};

/// The last record of a listing that a choice does not keep is told, if it has a line that tells of it.
pub fn last_is_kept_or_told()
    ensures { LastIsKeptOrTold }
{}
