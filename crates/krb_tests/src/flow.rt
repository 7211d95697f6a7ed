//! Two directions, put together by hand from RFC 9293, 3.4. The stream `abcdefghij` has octet 0 at
//! number FFFFFFFB, so octet 5 has number 0.

use krb_flow::{Beginning, Direction, End, Lost};
use krb_packet::{Payload, Segment};
use krb_source::Endpoint;
use std::alloc::Global;
use std::net::{IpAddr, Ipv4Addr};

/// The flags of a segment.
#[derive(Clone, Copy, PartialEq, Eq)]
enum Flag {
    None,
    Syn,
    Fin,
    Rst,
}

/// A segment: its number, flag and octets, and how many it had on the wire.
#[derive(Clone, Copy)]
struct Sent(u32, Flag, &'static str, u64);

/// What comes of it: how what was there ended, how it begins, the octets taken, and how it ended.
#[derive(Clone, Copy)]
struct Wanted(Option<End>, Option<Beginning>, &'static str, Option<End>);

/// Segments of any connection.
fn segment(sent: &Sent) -> Segment<'static> {
    let endpoint = Endpoint {
        address: IpAddr::V4(Ipv4Addr::LOCALHOST),
        port: 88,
    };
    Segment {
        source: endpoint,
        target: endpoint,
        sequence: sent.0,
        fin: sent.1 == Flag::Fin,
        syn: sent.1 == Flag::Syn,
        rst: sent.1 == Flag::Rst,
        ack: false,
        payload: Payload::new(sent.2.as_bytes(), sent.3),
    }
}

/// Whether a direction makes of a segment what is wanted.
fn comes_to(alloc: Global, direction: &mut Direction, sent: &Sent, wanted: &Wanted) -> bool {
    let mut waited = Vec::new(alloc);
    match direction.take(alloc, &segment(sent), &mut waited) {
        Ok(delivered) => {
            let octets = wanted.2.as_bytes();
            let at_once = delivered.octets.len();
            delivered.before == wanted.0
                && delivered.begins == wanted.1
                && delivered.end == wanted.3
                && octets.len() == at_once + waited.len()
                && &octets[..at_once] == delivered.octets
                && &octets[at_once..] == waited.as_slice()
        }
        Err(_) => false,
    }
}

#[test]
fn segments_are_put_together(rt: HostRuntime) {
    let rows = [
        (
            Sent(0xFFFFFFFA, Flag::Syn, "", 0),
            Wanted(None, Some(Beginning::Syn), "", None),
        ),
        (
            Sent(0xFFFFFFFB, Flag::None, "abc", 3),
            Wanted(None, None, "abc", None),
        ),
        (Sent(1, Flag::None, "ghi", 3), Wanted(None, None, "", None)),
        (Sent(2, Flag::None, "HIJ", 3), Wanted(None, None, "", None)),
        (
            Sent(0xFFFFFFFA, Flag::Syn, "", 0),
            Wanted(None, None, "", None),
        ),
        (Sent(5, Flag::Fin, "", 0), Wanted(None, None, "", None)),
        (
            Sent(0xFFFFFFFD, Flag::None, "Cdef", 4),
            Wanted(None, None, "defghiJ", Some(End::Complete)),
        ),
        (Sent(5, Flag::None, "k", 1), Wanted(None, None, "", None)),
    ];
    let mut direction = Direction::new(rt.alloc());
    for (sent, wanted) in &rows {
        assert!(rt; comes_to(rt.alloc(), &mut direction, sent, wanted));
    }
    assert!(rt; direction.end().is_none());
}

#[test]
fn missing_octets_are_reported(rt: HostRuntime) {
    let cut = Some(End::Lost(Lost {
        place: 2,
        octets: 2,
    }));
    let gap = Some(End::Lost(Lost {
        place: 0,
        octets: 3,
    }));
    let rows = [
        (
            Sent(7, Flag::None, "xy", 4),
            Wanted(None, Some(Beginning::Joined), "xy", None),
        ),
        (
            Sent(50, Flag::Syn, "", 0),
            Wanted(cut, Some(Beginning::Syn), "", None),
        ),
        (Sent(54, Flag::None, "d", 1), Wanted(None, None, "", None)),
        (Sent(0, Flag::Rst, "", 0), Wanted(None, None, "", gap)),
        (
            Sent(51, Flag::None, "a", 1),
            Wanted(None, Some(Beginning::Joined), "a", None),
        ),
        (Sent(50, Flag::Syn, "", 0), Wanted(None, None, "", None)),
        (
            Sent(52 + 1048577, Flag::None, "a", 1),
            Wanted(None, None, "", None),
        ),
        (Sent(52, Flag::None, "b", 1), Wanted(None, None, "b", None)),
    ];
    let mut direction = Direction::new(rt.alloc());
    for (sent, wanted) in &rows {
        assert!(rt; comes_to(rt.alloc(), &mut direction, sent, wanted));
    }
    let far = End::Lost(Lost {
        place: 2,
        octets: 1048576,
    });
    assert!(rt; direction.end() == Some(far));
}
