//! Laws of what inputs spell, each the contract of a function that does nothing.

ghost use Rattle.krb_laws.specs.Spelled.{OctetsAreSpelled, Base64IsSpelled, HexadecimalIsSpelled, HexadecimalIsNoDump, DigitsAreSpelled, DumpsAreSpelled, ToolsAreLayouts, MessagesAreSpelled, MessagesAreOpened, TicketsAreOpened, TokensAreSpelled, FramesAreSpelled};

/// Hexadecimal in any case, with blanks anywhere, that does not begin as a dump spells its octets.
pub fn hexadecimal_is_spelled()
    ensures { HexadecimalIsSpelled }
{}

/// Hexadecimal of octets of which the first is not 00 does not begin as a dump.
pub fn hexadecimal_is_no_dump()
    ensures { HexadecimalIsNoDump }
{}

/// The digits of octets, in lower or in upper case, spell the octets.
pub fn digits_are_spelled()
    ensures { DigitsAreSpelled }
{}

/// Octets that begin as a message does, and of which one is no text, spell themselves.
pub fn octets_are_spelled()
    ensures { OctetsAreSpelled }
{}

/// The base64 of octets that begin as a message does, with blanks anywhere, spells the octets, if it
/// has a character that no hexadecimal has.
pub fn base64_is_spelled()
    ensures { Base64IsSpelled }
{}

/// A dump of octets spells the octets, whatever stands beside them.
pub fn dumps_are_spelled()
    ensures { DumpsAreSpelled }
{}

/// What `xxd`, `hexdump -vC`, `od -v -tx1`, also with `-A x`, `tcpdump -x`, `tshark -x` and Wireshark
/// write is such a dump.
pub fn tools_are_layouts()
    ensures { ToolsAreLayouts }
{}

/// Each message and each Ticket, in at most 2^31 - 1 octets, is spelled by its octets, by their
/// digits, by hexadecimal and by their base64 with blanks anywhere, and by their dumps.
pub fn messages_are_spelled()
    ensures { MessagesAreSpelled }
{}

/// A message is opened to itself, in no layer.
pub fn messages_are_opened()
    ensures { MessagesAreOpened }
{}

/// A Ticket is opened to a Ticket, in no layer.
pub fn tickets_are_opened()
    ensures { TicketsAreOpened }
{}

/// Each token of GSS-API or of SPNEGO that is opened up to what is in it is spelled as a message is.
pub fn tokens_are_spelled()
    ensures { TokensAreSpelled }
{}

/// A frame spells itself.
pub fn frames_are_spelled()
    ensures { FramesAreSpelled }
{}
