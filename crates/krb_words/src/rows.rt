//! Which records have a row, where there is no command line.

ghost use Rattle.std.specs.Prelude.{IfErr, IfOk};
ghost use Rattle.krb_record.specs.FileNames.{name_text};
ghost use Rattle.krb_words.specs.Chosen.{AreRowsOf, IfSaid, IsErrorOf, SaysNoRows};

use crate::choice::rows_named;
use crate::names::shown;
use crate::words::WordsFault;
use krb_choice::Choice;
use krb_fields::Listing;
use std::alloc::Global;

/// Returns the choice of the records of listings that have all of some names, octets with commas
/// between them: a row of each. The fault says which word is no name, or that no kind of record has
/// all of them.
pub fn rows_of_names(
    alloc: Global,
    listings: &'static [Listing],
    names: &[u8],
) -> Result<Choice, WordsFault>
    ensures choice { IfOk result (AreRowsOf listings.now (name_text names.now)) }
    ensures fault { IfErr result (λ e. IfSaid e (IsErrorOf (SaysNoRows listings.now (name_text names.now)))) }
{
    let words = shown(alloc, names)?;
    rows_named(alloc, listings, words.as_str())
}
