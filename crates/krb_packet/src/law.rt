//! Laws of what packets carry. Each is the contract of a function that does nothing.

ghost use Rattle.krb_packet.specs.Silence.{NothingIsSilent};

/// A packet that is passed over was so by a number or ports that say that no packet of IP follows, and
/// which are listed. A datagram between ports that are not of Kerberos is not to the port of a tunnel.
/// What is neither is unread, and counted, or a segment of TCP or a fragment, which is kept.
pub fn nothing_is_silent()
    ensures { NothingIsSilent }
{}
