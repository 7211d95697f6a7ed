//! The first two packets of a real capture, `no-kdc`, in which a client of MIT krb5 asks for a
//! connection to port 88 and is refused; and what Wireshark shows of them.

use krb_file::{FieldName, FileFault, FileField, FilePart, FileRefusal, FileWhy};
use krb_packet::{Contents, LinkType, Packet, Packets, Segment, contents_of};
use krb_source::Endpoint;
use std::alloc::Global;
use std::net::{IpAddr, Ipv4Addr};
use std::process::Abort;

const CAPTURE: [u8; 184] = [
    0xd4, 0xc3, 0xb2, 0xa1, 0x02, 0x00, 0x04, 0x00, 0x00, 0x00, 0x00, 0x00, 0x00, 0x00, 0x00, 0x00,
    0x00, 0x00, 0x04, 0x00, 0x01, 0x00, 0x00, 0x00, 0x13, 0xc7, 0x06, 0x6b, 0x27, 0xd8, 0x01, 0x00,
    0x4a, 0x00, 0x00, 0x00, 0x4a, 0x00, 0x00, 0x00, 0x00, 0x00, 0x00, 0x00, 0x00, 0x00, 0x00, 0x00,
    0x00, 0x00, 0x00, 0x00, 0x08, 0x00, 0x45, 0x00, 0x00, 0x3c, 0xa4, 0x68, 0x40, 0x00, 0x40, 0x06,
    0x98, 0x51, 0x7f, 0x00, 0x00, 0x01, 0x7f, 0x00, 0x00, 0x01, 0xa6, 0xcc, 0x00, 0x58, 0xf4, 0xc4,
    0x15, 0xcf, 0x00, 0x00, 0x00, 0x00, 0xa0, 0x02, 0xff, 0xd7, 0xfe, 0x30, 0x00, 0x00, 0x02, 0x04,
    0xff, 0xd7, 0x04, 0x02, 0x08, 0x0a, 0x4e, 0x7f, 0x3e, 0xed, 0x00, 0x00, 0x00, 0x00, 0x01, 0x03,
    0x03, 0x0a, 0x13, 0xc7, 0x06, 0x6b, 0x35, 0xd8, 0x01, 0x00, 0x36, 0x00, 0x00, 0x00, 0x36, 0x00,
    0x00, 0x00, 0x00, 0x00, 0x00, 0x00, 0x00, 0x00, 0x00, 0x00, 0x00, 0x00, 0x00, 0x00, 0x08, 0x00,
    0x45, 0x00, 0x00, 0x28, 0x00, 0x00, 0x40, 0x00, 0x40, 0x06, 0x3c, 0xce, 0x7f, 0x00, 0x00, 0x01,
    0x7f, 0x00, 0x00, 0x01, 0x00, 0x58, 0xa6, 0xcc, 0x00, 0x00, 0x00, 0x00, 0xf4, 0xc4, 0x15, 0xd0,
    0x50, 0x14, 0x00, 0x00, 0x00, 0x15, 0x00, 0x00,
];

/// The next packet of a reader.
fn next(rt: &impl Abort, alloc: Global, packets: &mut Packets<&[u8]>) -> Packet {
    match packets.next_packet(alloc) {
        Ok(Some(packet)) => packet,
        _ => panic!(rt; "no packet"),
    }
}

/// The segment in a packet.
fn segment<'a>(rt: &impl Abort, packet: &'a Packet) -> Segment<'a> {
    match contents_of(packet, 88) {
        Contents::Segment(segment) => segment,
        _ => panic!(rt; "no segment"),
    }
}

/// A port of 127.0.0.1.
fn local(port: u16) -> Endpoint {
    Endpoint {
        address: IpAddr::V4(Ipv4Addr::LOCALHOST),
        port,
    }
}

#[test]
fn segments_are_read(rt: HostRuntime) {
    let mut packets = Packets::new(CAPTURE.as_slice());
    let first = next(&rt, rt.alloc(), &mut packets);
    assert!(rt; first.number == 1 && first.size == 74 && first.link == LinkType::Ethernet);
    let syn = segment(&rt, &first);
    assert!(rt; syn.source == local(42700) && syn.target == local(88));
    assert!(rt; syn.sequence == 4106491343 && syn.syn && !syn.rst && !syn.fin);
    assert!(rt; syn.payload.octets().is_empty() && syn.payload.size() == 0);
    packets.give_back(first);
    let second = next(&rt, rt.alloc(), &mut packets);
    let reset = segment(&rt, &second);
    assert!(rt; reset.source == local(88) && reset.rst && !reset.syn);
    assert!(rt; matches!(packets.next_packet(rt.alloc()), Ok(None)));
}

#[test]
fn times_are_read(rt: HostRuntime) {
    let mut packets = Packets::new(CAPTURE.as_slice());
    let packet = next(&rt, rt.alloc(), &mut packets);
    match packet.time {
        Some(time) => {
            assert_eq!(rt; time.seconds, 1795606291);
            assert_eq!(rt; time.nanoseconds, 120871000);
        }
        None => panic!(rt; "no time"),
    }
}

#[test]
fn cut_packets_are_refused(rt: HostRuntime) {
    let mut packets = Packets::new(&CAPTURE[..100]);
    let wanted = FileFault::Refused(FileRefusal {
        place: 40,
        why: FileWhy::Truncated,
        field: Some(FileField {
            part: Some(FilePart::Packet(0)),
            name: FieldName::Data,
        }),
        begin: 24,
    });
    for _ in 0..2 {
        match packets.next_packet(rt.alloc()) {
            Err(fault) => assert!(rt; fault == wanted),
            Ok(_) => panic!(rt; "not refused"),
        }
    }
}
