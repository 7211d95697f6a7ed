//! The segment of the first packet of a real capture, `no-kdc`, cut into fragments as RFC 791, 3.2,
//! and RFC 8200, 4.5, say; and what Wireshark shows of the segment.

use krb_der::Octets;
use krb_packet::{Contents, Fragment, Fragments, LinkType, Packet, Reassembled, contents_of};
use std::alloc::Global;
use std::process::Abort;

/// The segment, of 40 octets.
const SEGMENT: [u8; 40] = [
    0xa6, 0xcc, 0x00, 0x58, 0xf4, 0xc4, 0x15, 0xcf, 0x00, 0x00, 0x00, 0x00, 0xa0, 0x02, 0xff, 0xd7,
    0xfe, 0x30, 0x00, 0x00, 0x02, 0x04, 0xff, 0xd7, 0x04, 0x02, 0x08, 0x0a, 0x4e, 0x7f, 0x3e, 0xed,
    0x00, 0x00, 0x00, 0x00, 0x01, 0x03, 0x03, 0x0a,
];

/// Its first 16 octets are in one fragment, and the other 24 in another one.
const FIRST: usize = 16;

/// The headers of IPv4 before the two fragments: the first one is followed by more, and the second
/// one has the offset 2.
const HEADERS4: [[u8; 20]; 2] = [
    [
        0x45, 0x00, 0x00, 0x24, 0xa4, 0x68, 0x20, 0x00, 0x40, 0x06, 0x00, 0x00, 0x7f, 0x00, 0x00,
        0x01, 0x7f, 0x00, 0x00, 0x01,
    ],
    [
        0x45, 0x00, 0x00, 0x2c, 0xa4, 0x68, 0x00, 0x02, 0x40, 0x06, 0x00, 0x00, 0x7f, 0x00, 0x00,
        0x01, 0x7f, 0x00, 0x00, 0x01,
    ],
];

/// The headers of IPv6, each with that of the fragment.
const HEADERS6: [[u8; 48]; 2] = [
    [
        0x60, 0x00, 0x00, 0x00, 0x00, 0x18, 0x2c, 0x40, 0x00, 0x00, 0x00, 0x00, 0x00, 0x00, 0x00,
        0x00, 0x00, 0x00, 0x00, 0x00, 0x00, 0x00, 0x00, 0x01, 0x00, 0x00, 0x00, 0x00, 0x00, 0x00,
        0x00, 0x00, 0x00, 0x00, 0x00, 0x00, 0x00, 0x00, 0x00, 0x01, 0x06, 0x00, 0x00, 0x01, 0x00,
        0x00, 0xa4, 0x68,
    ],
    [
        0x60, 0x00, 0x00, 0x00, 0x00, 0x20, 0x2c, 0x40, 0x00, 0x00, 0x00, 0x00, 0x00, 0x00, 0x00,
        0x00, 0x00, 0x00, 0x00, 0x00, 0x00, 0x00, 0x00, 0x01, 0x00, 0x00, 0x00, 0x00, 0x00, 0x00,
        0x00, 0x00, 0x00, 0x00, 0x00, 0x00, 0x00, 0x00, 0x00, 0x01, 0x06, 0x00, 0x00, 0x10, 0x00,
        0x00, 0xa4, 0x68,
    ],
];

/// Headers of IPv4 before two fragments, of 16 and of 20 octets, of a packet of IPv4 in another one.
const HEADERS_AROUND: [[u8; 20]; 2] = [
    [
        0x45, 0x00, 0x00, 0x24, 0x00, 0x01, 0x20, 0x00, 0x40, 0x04, 0x00, 0x00, 0xc0, 0x00, 0x02,
        0x01, 0xc0, 0x00, 0x02, 0x02,
    ],
    [
        0x45, 0x00, 0x00, 0x28, 0x00, 0x01, 0x00, 0x02, 0x40, 0x04, 0x00, 0x00, 0xc0, 0x00, 0x02,
        0x01, 0xc0, 0x00, 0x02, 0x02,
    ],
];

/// A packet of a header and octets.
fn packet(rt: &impl Abort, alloc: Global, header: &[u8], octets: &[u8]) -> Packet {
    let mut all = Vec::new(alloc);
    if all.extend_from_slice(header).is_err() || all.extend_from_slice(octets).is_err() {
        panic!(rt; "out of memory");
    }
    Packet {
        number: 1,
        time: None,
        link: LinkType::RawIp,
        octets: Octets::new(all),
        size: 0,
    }
}

/// The fragment in a packet.
fn fragment<'a>(rt: &impl Abort, packet: &'a Packet) -> Fragment<'a> {
    match contents_of(packet, 88) {
        Contents::Fragment(fragment) => fragment,
        _ => panic!(rt; "no fragment"),
    }
}

/// What comes of a fragment.
fn taken(
    rt: &impl Abort,
    fragments: &mut Fragments,
    fragment: &Fragment<'_>,
) -> Option<Reassembled> {
    match fragments.take(fragment) {
        Ok(whole) => whole,
        Err(_) => panic!(rt; "out of memory"),
    }
}

/// What comes of a fragment and of those in what it completes.
fn taken_nested(
    rt: &impl Abort,
    fragments: &mut Fragments,
    fragment: &Fragment<'_>,
) -> Option<Reassembled> {
    match fragments.take_nested(88, fragment) {
        Ok(whole) => whole,
        Err(_) => panic!(rt; "out of memory"),
    }
}

/// Whether it is the segment.
fn is_segment(whole: Option<Reassembled>) -> bool {
    match whole {
        Some(whole) => match whole.contents(88) {
            Contents::Segment(segment) => {
                whole.octets.as_slice() == SEGMENT.as_slice()
                    && segment.source.port == 42700
                    && segment.target.port == 88
                    && segment.sequence == 4106491343
                    && segment.syn
            }
            _ => false,
        },
        None => false,
    }
}

#[test]
fn fragments_are_put_together(rt: HostRuntime) {
    let mut fragments = Fragments::new(rt.alloc());
    for (first, second) in [
        (&HEADERS4[0][..], &HEADERS4[1][..]),
        (&HEADERS6[0][..], &HEADERS6[1][..]),
    ] {
        let first = packet(&rt, rt.alloc(), first, &SEGMENT[..FIRST]);
        let second = packet(&rt, rt.alloc(), second, &SEGMENT[FIRST..]);
        let first = fragment(&rt, &first);
        let second = fragment(&rt, &second);
        assert!(rt; first.offset == 0 && !first.is_last && second.offset == 16 && second.is_last);
        assert!(rt; taken(&rt, &mut fragments, &second).is_none());
        assert!(rt; taken(&rt, &mut fragments, &second).is_none());
        assert!(rt; fragments.unread() == 2);
        assert!(rt; is_segment(taken(&rt, &mut fragments, &first)));
        assert!(rt; fragments.unread() == 0);
    }
}

#[test]
fn fragments_in_fragments_are_put_together(rt: HostRuntime) {
    let mut fragments = Fragments::new(rt.alloc());
    let last = packet(&rt, rt.alloc(), &HEADERS4[1], &SEGMENT[FIRST..]);
    assert!(rt; taken_nested(&rt, &mut fragments, &fragment(&rt, &last)).is_none());
    let inner = packet(&rt, rt.alloc(), &HEADERS4[0], &SEGMENT[..FIRST]);
    let Some((front, back)) = inner.octets.as_slice().split_at_checked(FIRST) else {
        panic!(rt; "a packet of fewer octets");
    };
    let front = packet(&rt, rt.alloc(), &HEADERS_AROUND[0], front);
    let back = packet(&rt, rt.alloc(), &HEADERS_AROUND[1], back);
    assert!(rt; taken_nested(&rt, &mut fragments, &fragment(&rt, &front)).is_none());
    assert!(rt; fragments.unread() == 2);
    assert!(rt; is_segment(taken_nested(&rt, &mut fragments, &fragment(&rt, &back))));
    assert!(rt; fragments.unread() == 0);
}

#[test]
fn overlaps_discard_datagrams(rt: HostRuntime) {
    let mut fragments = Fragments::new(rt.alloc());
    let first = packet(&rt, rt.alloc(), &HEADERS4[0], &SEGMENT[..FIRST]);
    let other = packet(&rt, rt.alloc(), &HEADERS4[0], &SEGMENT[8..24]);
    let second = packet(&rt, rt.alloc(), &HEADERS4[1], &SEGMENT[FIRST..]);
    assert!(rt; taken(&rt, &mut fragments, &fragment(&rt, &first)).is_none());
    assert!(rt; taken(&rt, &mut fragments, &fragment(&rt, &other)).is_none());
    assert!(rt; taken(&rt, &mut fragments, &fragment(&rt, &second)).is_none());
    assert!(rt; fragments.unread() == 3);
}
