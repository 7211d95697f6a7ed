//! Laws of what is found in captures. Each is the contract of a function that does nothing.

ghost use Rattle.krb_capture.specs.Laws.{RecordsAreOfTheStream};
ghost use Rattle.krb_capture.specs.WholeCaptures.{CapturesListStreams, DatagramsAreApart, DirectionsAreApart, PacketsAreNumbered};
ghost use Rattle.krb_capture_laws.specs.Hidden.{CleanHidesNothing, DirectionHidesNothing};

/// Whatever way a stream is cut into segments, in whatever order and how often these are captured,
/// the records of the direction are those of the stream, without their packets and times. Its SYN
/// comes first; or octet 0 does, and the SYN later or never: then `joined` comes before these
/// records. Each octet is captured at least once, and copies agree, also those of the SYN, which may
/// come at any time. No segment ends more than 1048576 octets after one that was not captured
/// before, and none is more than 2^31 octets late. A FIN is at the end of the stream, a RST comes
/// once all of it was captured, and the stream has fewer than 2^61 octets.
pub fn records_are_of_the_stream()
    ensures { RecordsAreOfTheStream }
{}

/// Whatever else a capture has, what is found in it from one end to another over TCP is what is
/// found in the direction of these segments alone, in the same order, if its segments between ports
/// of Kerberos are of at most 65536 flows.
pub fn directions_are_apart()
    ensures { DirectionsAreApart }
{}

/// So if these segments are those of a stream, it is what is found in the stream.
pub fn captures_list_streams()
    ensures { CapturesListStreams }
{}

/// What is found from one end to another over UDP is what is found in each of these datagrams alone.
pub fn datagrams_are_apart()
    ensures { DatagramsAreApart }
{}

/// Each packet of a file, a pcap or a pcapng, has a greater number than those before it.
pub fn packets_are_numbered()
    ensures { PacketsAreNumbered }
{}

/// If no record of a direction says that octets are refused, lost or in no message, each octet that
/// was captured of its segments is at its place in a stream that the direction took, or is one of a
/// keep-alive; and each of these streams is messages that are listed, from its first octet to its
/// last. The segments may be any, with fewer than 2^61 octets.
pub fn direction_hides_nothing()
    ensures { DirectionHidesNothing }
{}

/// If nothing of a capture is refused, lost or unread, this holds from each end to each other one
/// between ports of Kerberos; and each datagram between these is a message that is listed, or a
/// change of a password whose parts are. The segments between ports of Kerberos are of at most
/// 65536 flows, and have fewer than 2^61 octets.
pub fn clean_hides_nothing()
    ensures { CleanHidesNothing }
{}
