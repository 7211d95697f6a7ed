//! The law that octets of ciphers and checksums have no part in what is listed of items. It is the contract
//! of a function that does nothing.

ghost use Rattle.krb_items_laws.specs.Masked.{MaskedFramesAreSame, MaskedMessagesAreSame, MaskedTicketsAreSame};

use crate::items::octets_are_covered;

/// Of a message, a Ticket and a frame that are accepted, what is listed of their items is the same whatever
/// the octets of ciphers and checksums are, but for those in what is opened, if nothing is refused of them.
pub fn masked_octets_are_in_no_record()
    ensures message { MaskedMessagesAreSame }
    ensures ticket { MaskedTicketsAreSame }
    ensures frame { MaskedFramesAreSame }
{
    octets_are_covered();
}
