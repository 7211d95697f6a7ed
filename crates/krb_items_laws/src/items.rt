//! Laws of what `krbls items` lists. Each is the contract of a function that does nothing.

ghost use Rattle.krb_items_laws.specs.Covers.{FramesAreCovered, MessagesAreCovered, TicketsAreCovered};
ghost use Rattle.krb_items_laws.specs.Printed.{ItemListingsArePrinted, ItemsArePrinted};

use krb_tool_laws::listings::messages_are_lines;

/// Of a message, a Ticket and a frame that are accepted, the heads of each item, and of each in which
/// there is none its contents, in the order of the list, are its octets: an item begins where the one
/// before it ends. What is opened is among them.
pub fn octets_are_covered()
    ensures message { MessagesAreCovered }
    ensures ticket { TicketsAreCovered }
    ensures frame { FramesAreCovered }
{}

/// Whatever an input spells, and whatever octets name its file, each line of the listing of its items is
/// one line of printable ASCII, in each form: those of items and of faults, that of the first length if it
/// is believed, and the last one.
pub fn items_are_printed()
    ensures items { ItemsArePrinted }
    ensures listing { ItemListingsArePrinted }
{
    messages_are_lines();
}
