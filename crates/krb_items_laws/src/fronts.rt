//! Laws of what `krbls items` lists of octets that were cut.

ghost use Rattle.krb_items_laws.specs.Fronts.{CutFramesAreBelieved, CutMessagesAreBelieved, CutTicketsAreBelieved, FrameFrontsAreFirst, MessageFrontsAreFirst, TicketFrontsAreFirst};

/// Of a message, a Ticket and a framed message that are accepted, cut anywhere, the items that are listed
/// if the first length is believed are the first of all of its items, in order: with the same paths,
/// places, heads and values.
pub fn fronts_are_first()
    ensures message { MessageFrontsAreFirst }
    ensures ticket { TicketFrontsAreFirst }
    ensures frame { FrameFrontsAreFirst }
{}

/// A message, a Ticket or a framed message that is accepted, cut anywhere after its first head, is refused
/// at the last octet of that head, and its first length is believed: it says how many octets there were.
pub fn cuts_are_believed()
    ensures message { CutMessagesAreBelieved }
    ensures ticket { CutTicketsAreBelieved }
    ensures frame { CutFramesAreBelieved }
{}
