//! Laws of keytabs and their octets. Each is the contract of a function that does nothing.
ghost use Rattle.krb_keytab.specs.Laws.{KeysChangeNothingElse, LimitsAddTooLong, ReadAsOne, RecordsAreSpelled, SpellsOne};

/// A file is read as at most one keytab, from at most one number of its first octets.
pub fn read_as_one()
    ensures { ReadAsOne }
{}

/// Octets spell at most one keytab.
pub fn spells_one()
    ensures { SpellsOne }
{}

/// The records that are read of a file, under a limit or without one, are spelled by its octets
/// before the fault or up to the end.
pub fn records_are_spelled()
    ensures { RecordsAreSpelled }
{}

/// A limit adds one fault and changes nothing else: a file is read as without it, or up to a field
/// that has more octets, which is refused as TooLong.
pub fn limits_add_too_long()
    ensures { LimitsAddTooLong }
{}

/// If octets of a key are others, as many, a file is read as before but for these, up to the same
/// end or the same fault, under a limit too.
pub fn keys_change_nothing_else()
    ensures { KeysChangeNothingElse }
{}
