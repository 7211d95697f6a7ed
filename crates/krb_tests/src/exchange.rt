//! What events of a capture tell. What is expected was worked out by hand from the rules of
//! answers, of sendings and of who could not be reached.

use krb_der::Memory;
use krb_exchange::{Fingerprint, Header, Moment, Reply, Request, Sending, Sendings};
use krb_record::{Flow, Transport};
use krb_source::Endpoint;
use std::net::{IpAddr, Ipv4Addr};

/// The KDC, or a client.
fn end(host: u8, port: u16) -> Endpoint {
    Endpoint {
        address: IpAddr::V4(Ipv4Addr::new(10, 0, 0, host)),
        port,
    }
}

/// What a client sends to the KDC.
fn asked(transport: Transport, port: u16) -> Flow {
    Flow {
        transport,
        source: end(1, port),
        target: end(2, 88),
    }
}

/// What the KDC sends back.
fn told(transport: Transport, port: u16) -> Flow {
    Flow {
        transport,
        source: end(2, 88),
        target: end(1, port),
    }
}

fn packet(number: u64) -> Moment {
    Moment {
        packet: number,
        time: None,
    }
}

/// The packet of a sending.
fn packet_of(sending: Option<Sending>) -> Option<u64> {
    match sending {
        Some(sending) => Some(sending.sent.packet),
        None => None,
    }
}

/// A segment with a number and the flags SYN, ACK and RST.
fn header(sequence: u32, syn: bool, ack: bool, rst: bool) -> Header {
    Header {
        sequence,
        syn,
        ack,
        rst,
    }
}

// The hash of `a` is one of the test vectors of FNV-1a.
#[test]
fn knows_octets(rt: HostRuntime) {
    let one = Fingerprint::of(b"a");
    assert_eq!(rt; one.hash, 0xaf63dc4c8601ec8c);
    assert_eq!(rt; one.length, 1);
    assert!(rt; Fingerprint::of(b"b") != one);
}

#[test]
fn answers_over_udp(rt: HostRuntime) -> Result<(), Memory> {
    let mut sendings = Sendings::new(rt.alloc());
    let (flow, back) = (asked(Transport::Udp, 1000), told(Transport::Udp, 1000));
    let octets = Fingerprint::of(b"one");
    assert_eq!(rt;
        sendings
            .request(Request::AsReq, flow, octets, packet(1))?
            .again,
        None
    );
    assert_eq!(rt;
        sendings
            .request(Request::TgsReq, flow, Fingerprint::of(b"two"), packet(2))?
            .again,
        None
    );
    assert_eq!(rt;
        sendings
            .request(Request::AsReq, flow, octets, packet(3))?
            .again,
        Some(1)
    );
    assert_eq!(rt; sendings.again_of(&octets), Some(1));
    assert_eq!(rt; packet_of(sendings.reply(Reply::Kpasswd, back)), None);
    assert_eq!(rt; packet_of(sendings.answer_of(Reply::Error, back)), Some(3));
    assert_eq!(rt; packet_of(sendings.reply(Reply::Error, back)), Some(3));
    assert_eq!(rt; packet_of(sendings.reply(Reply::AsRep, back)), None);
    assert_eq!(rt; packet_of(sendings.end()), Some(2));
    assert_eq!(rt; packet_of(sendings.end()), None);
    Ok(())
}

#[test]
fn answers_over_tcp(rt: HostRuntime) -> Result<(), Memory> {
    let mut sendings = Sendings::new(rt.alloc());
    let (flow, back) = (asked(Transport::Tcp, 1000), told(Transport::Tcp, 1000));
    sendings.request(Request::AsReq, flow, Fingerprint::of(b"one"), packet(1))?;
    sendings.request(Request::TgsReq, flow, Fingerprint::of(b"two"), packet(2))?;
    sendings.request(Request::TgsReq, flow, Fingerprint::of(b"six"), packet(3))?;
    assert_eq!(rt; packet_of(sendings.reply(Reply::TgsRep, back)), None);
    assert_eq!(rt; packet_of(sendings.reply(Reply::Unread, back)), Some(1));
    assert_eq!(rt; packet_of(sendings.reply(Reply::TgsRep, back)), Some(2));
    assert_eq!(rt; packet_of(sendings.begun(flow)), Some(3));
    assert_eq!(rt; packet_of(sendings.begun(flow)), None);
    assert_eq!(rt; packet_of(sendings.end()), None);
    Ok(())
}

#[test]
fn tells_of_syns(rt: HostRuntime) -> Result<(), Memory> {
    let mut sendings = Sendings::new(rt.alloc());
    let (flow, back) = (asked(Transport::Tcp, 1000), told(Transport::Tcp, 1000));
    sendings.segment(header(7, true, false, false), flow, packet(1))?;
    assert_eq!(rt; packet_of(sendings.error(flow)), Some(1));
    sendings.segment(header(7, true, false, false), flow, packet(2))?;
    let reset = sendings
        .segment(header(0, false, true, true), back, packet(3))?
        .reset;
    assert_eq!(rt; packet_of(reset), Some(2));
    sendings.segment(header(7, true, false, false), flow, packet(4))?;
    let reset = sendings
        .segment(header(0, false, true, true), back, packet(5))?
        .reset;
    assert_eq!(rt; packet_of(reset), None);
    sendings.segment(header(8, true, false, false), flow, packet(6))?;
    let silent = sendings
        .segment(header(9, true, false, false), flow, packet(7))?
        .silent;
    assert_eq!(rt; packet_of(silent), Some(6));
    assert_eq!(rt; packet_of(sendings.end()), Some(7));
    assert_eq!(rt; packet_of(sendings.end()), None);
    Ok(())
}
