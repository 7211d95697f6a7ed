//! Laws of sequence numbers and of directions. Each is the contract of a function that does
//! nothing.

ghost use Rattle.krb_flow.specs.Laws.{DistanceIsTheOne, DeliversAll, DeliversTheStream};

/// A distance leads from one sequence number to the other, at most half way round, and it is the
/// only one that does.
pub fn distance_is_the_one()
    ensures { DistanceIsTheOne }
{}

/// Whatever way a stream is cut into segments, in whatever order these come after its SYN and
/// however often, what is delivered of them is the stream from its first octet on.
pub fn delivers_the_stream()
    ensures { DeliversTheStream }
{}

/// If each octet of the stream is in one of these segments, before a FIN or after it, what is
/// delivered is all of the stream.
pub fn delivers_all()
    ensures { DeliversAll }
{}
