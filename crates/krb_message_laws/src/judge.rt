//! The laws of slices, each the contract of a function that does nothing.

ghost use Rattle.krb_judge.specs.Laws.{FieldsHaveNames, NamesAreOwn, PathsGoOnToTheLast, PathsLeadToEnds, PathsLeadToRefusals};

/// Each field of each message has a name in its path, and the names are of no other fields.
pub fn fields_have_names()
    ensures { FieldsHaveNames }
{}

/// No field of a type has an empty name or the name of another field of that type, so a path names
/// one field.
pub fn names_are_own()
    ensures { NamesAreOwn }
{}

/// The path of the octets of a message up to and with the refused one names an item that this octet
/// lies in, and the last one of these, each of which is in the one before it; or a field that is to
/// be there and is not, if that is the reason. The path of the octets of a message that is cut names
/// an item that the next octet would lie in.
pub fn paths_lead_to_refusals()
    ensures lies { PathsLeadToRefusals }
    ensures last { PathsGoOnToTheLast }
    ensures cut { PathsLeadToEnds }
{}
