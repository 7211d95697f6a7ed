//! Laws of fragments. Each is the contract of a function that does nothing.

ghost use Rattle.krb_packet.specs.FragmentLaws.{DatagramsAreCompleted, FragmentsAreApart, FragmentsMakeDatagram};

/// However a datagram is cut into fragments that do not overlap, each but the last one of a
/// multiple of eight octets, and in whatever order these come: what is put together is the
/// datagram.
pub fn fragments_make_datagram()
    ensures { FragmentsMakeDatagram }
{}

/// Whatever fragments of other datagrams come between, of the fragments of a datagram is put
/// together what is put together of these alone, if at no time there are 1024 datagrams that have
/// begun and are not completed.
pub fn fragments_are_apart()
    ensures { FragmentsAreApart }
{}

/// So if these alone are the fragments into which a datagram was cut, it is put together, once.
pub fn datagrams_are_completed()
    ensures { DatagramsAreCompleted }
{}
