//! Laws of caches and their octets. Each is the contract of a function that does nothing.
ghost use Rattle.krb_ccache.specs.Laws.{CredentialsAreSpelled, LimitsAddTooLong, SessionKeysChangeNothingElse, Spells3One, SpellsOne, UpgradeHoldsTheSame};

/// Octets spell at most one cache.
pub fn spells_one()
    ensures { SpellsOne }
{}

/// Octets spell at most one cache of version 3.
pub fn spells3_one()
    ensures { Spells3One }
{}

/// Reading a file of version 3 one credential after another returns what reading the file of its
/// upgrade returns.
pub fn upgrade_holds_the_same()
    ensures { UpgradeHoldsTheSame }
{}

/// What is read of a file, of version 4 or 3, under a limit or without one, is spelled by its octets
/// before the fault or up to the end.
pub fn credentials_are_spelled()
    ensures { CredentialsAreSpelled }
{}

/// A limit adds one fault and changes nothing else: a file is read as without it, or up to a field
/// that has more octets, which is refused as TooLong.
pub fn limits_add_too_long()
    ensures { LimitsAddTooLong }
{}

/// If octets of a key are others, as many, a file is read as before but for these, up to the same
/// end or the same fault, under a limit too.
pub fn session_keys_change_nothing_else()
    ensures { SessionKeysChangeNothingElse }
{}
