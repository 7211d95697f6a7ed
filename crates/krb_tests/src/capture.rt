//! Captures of packets. They are files of `tests/data/captures`, of which it says what they are and
//! what has to be listed.

use crate::examples::octets_of;
use krb_capture::Capture;
use krb_der::{Memory, Profile};
use krb_file::FileFault;
use krb_frame::Limit;
use krb_packet::{Packet, Packets};
use krb_record::{Extent, Form, Label, TextBuffer};
use std::alloc::Global;
use std::test::Fail;

/// A capture in hexadecimal, what is listed of it, and whether nothing is refused, lost or unread.
struct Row(&'static str, &'static str, bool);

/// Segments that come out of order, and again with other octets.
const OUT_OF_ORDER: &str =
    "D4C3B2A1020004000000000000000000FFFF00006500000081436D380500000028000000280000004500002800010000400600007F0000017F0000019C400058FFFFFFF5000000005002FFFF0000000082436D380500000037000000370000004500003700010000400600007F0000017F0000019C4000580000000A000000005010FFFF00000000300DA003020112A2060404DEADBEEF83436D380500000037000000370000004500003700010000400600007F0000017F0000019C4000580000000A000000005010FFFF00000000FFFFFFFFFFFFFFFFFFFFFFFFFFFFFF84436D38050000003C0000003C0000004500003C00010000400600007F0000017F0000019C400058FFFFFFF6000000005010FFFF000000000000001F6F1D301BA003020105A10302010FA20F85436D380500000028000000280000004500002800010000400600007F0000017F0000019C400058FFFFFFF5000000005002FFFF0000000086436D380500000029000000290000004500002900010000400600007F0000017F0000019C40005800000018000000005010FFFF00000000FF87436D380500000028000000280000004500002800010000400600007F0000017F0000019C40005800000019000000005001FFFF00000000";

/// Fragments of datagrams, some of which are spoiled.
const FRAGMENTS: &str =
    "D4C3B2A1020004000000000000000000FFFF00006500000081436D380500000023000000230000004500002300010003401100007F0000017F000001300DA003020112A2060404DEADBEEF82436D380500000024000000240000004500002400012001401100007F0000017F0000016F1D301BA003020105A10302010FA20F83436D380500000024000000240000004500002400012001401100007F0000017F0000016F1D301BA003020105A10302010FA20F84436D38050000001C0000001C0000004500001C00012000401100007F0000017F0000019C4000580027000085436D38050000002C0000002C0000004500002C00022000401100007F0000017F0000019C400058002700006F1D301BA003020105A10302010FA20F86436D38050000002B0000002B0000004500002B00020002401100007F0000017F00000105A10302010FA20F300DA003020112A2060404DEADBEEF87436D380500000023000000230000004500002300020003401100007F0000017F000001300DA003020112A2060404DEADBEEF88436D380500000024000000240000004500002400032000401100007F0000017F0000019C400058002700006F1D301BA0030201";

/// A packet that is cut by the end of the file.
const CUT: &str =
    "D4C3B2A1020004000000000000000000FFFF00006500000081436D38050000003B0000003B0000004500003B00010000401100007F0000017F0000019C400058002700006F1D301BA003020105A10302010FA20F300DA003020112A2060404DEADBEEF82436D38050000003B0000003B0000004500003B00010000401100007F0000017F0000019C400058002700006F1D301BA003020105A10302010FA20F300DA003020112A2060404DEADBE";

const ROWS: [Row; 3] = [
    Row(
        OUT_OF_ORDER,
        "packet=3 t=2000-01-01T00:00:03.000005000Z flow=tcp/127.0.0.1:40000>127.0.0.1:88 unread place=20 octets=15 why=6 Differs\npacket=4 t=2000-01-01T00:00:04.000005000Z flow=tcp/127.0.0.1:40000>127.0.0.1:88 AP-REP enc=18:-:4 notes=[]\npacket=6 t=2000-01-01T00:00:06.000005000Z flow=tcp/127.0.0.1:40000>127.0.0.1:88 unread place=34 octets=1 why=6 Differs\nend packets=7 messages=1 refused=0 lost=0 unread=2\n",
        false,
    ),
    Row(
        FRAGMENTS,
        "packet=4 t=2000-01-01T00:00:04.000005000Z flow=udp/127.0.0.1:40000>127.0.0.1:88 AP-REP enc=18:-:4 notes=[]\nend packets=8 messages=1 refused=0 lost=0 unread=4\n",
        false,
    ),
    Row(
        CUT,
        "packet=1 t=2000-01-01T00:00:01.000005000Z flow=udp/127.0.0.1:40000>127.0.0.1:88 AP-REP enc=18:-:4 notes=[]\nrefused packets=1 messages=1 refused=0 lost=0 unread=0 place=115 why=3 Truncated\n",
        false,
    ),
];

/// Appends the records of all packets, and of the end or of the fault of the file. Returns whether
/// nothing is refused, lost or unread.
fn put_records(
    alloc: Global,
    packets: &mut Packets<&[u8]>,
    capture: &mut Capture,
    text: &mut TextBuffer,
) -> Result<bool, Fail> {
    // no capture here has more packets
    for _ in 0..16 {
        match packets.next_packet(alloc) {
            Ok(Some(packet)) => {
                let taken = capture.take(&packet, text);
                packets.give_back(packet);
                if taken?.is_some() {
                    return Err(Fail::from("records that are left"));
                }
            }
            Ok(None) => return Ok(capture.finish(text)?),
            Err(fault) => {
                let FileFault::Refused(refusal) = fault else {
                    return Err(Fail::from("a fault of the file"));
                };
                let extent = Extent {
                    at: refusal.begin,
                    length: None,
                };
                capture.refuse(refusal.place, refusal.why, None, extent, text)?;
                return Ok(false);
            }
        }
    }
    Err(Fail::from("no end of the file"))
}

/// Appends the listing of a capture. Returns whether nothing is refused, lost or unread.
fn put_listing(alloc: Global, octets: &[u8], text: &mut TextBuffer) -> Result<bool, Fail> {
    let mut packets = Packets::new(octets);
    let label = Label::none(Form::Lines);
    let mut capture = Capture::new(alloc, &label, Profile::Lenient, Limit::DEFAULT, 88)?;
    let clean = put_records(alloc, &mut packets, &mut capture, text);
    drop(capture);
    drop(packets);
    clean
}

#[test]
fn captures_are_listed(rt: HostRuntime) -> Result<(), Fail> {
    let alloc = rt.alloc();
    for Row(digits, lines, clean) in &ROWS {
        let octets = octets_of(alloc, digits)?;
        let mut text = TextBuffer::new(alloc);
        let is_clean = put_listing(alloc, octets.as_slice(), &mut text)?;
        assert!(rt; text.octets() == lines.as_bytes());
        assert_eq!(rt; is_clean, *clean);
    }
    Ok(())
}

/// The headers of a packet of a pcap with the octets of `FRAMES` frames: of the file, the packet,
/// IPv4 and TCP. The segment begins its direction.
const HEADERS: &str =
    "D4C3B2A1020004000000000000000000FFFF00006500000081436D3805000000C80F0000C80F000045000FC800010000400600007F0000017F0000019C40005800000001000000005010FFFF00000000";

/// How many frames without octets the packet has.
const FRAMES: usize = 1000;

/// How many octets of text the packet has: the record of the direction's beginning, of 87, and of
/// each frame, of 108.
const TEXT: usize = 87 + 108 * FRAMES;

/// How many octets of text a step has at least, if another follows it.
const FULL: usize = 65536;

/// How many it has less than: with two frames more it would have waited too long.
const TOO_MUCH: usize = FULL + 2 * 108;

/// Returns how many octets of text each step over the packet leaves.
fn step_sizes(alloc: Global, packet: &Packet, text: &mut TextBuffer) -> Result<Vec<usize>, Memory> {
    let label = Label::none(Form::Lines);
    let mut capture = Capture::new(alloc, &label, Profile::Lenient, Limit::DEFAULT, 88)?;
    let mut sizes = Vec::new(alloc);
    let mut rest = capture.take(packet, text)?;
    for _ in 0..8 {
        sizes.push(text.octets().len())?;
        match rest {
            Some(left) => {
                text.clear();
                rest = capture.go_on(left, text)?;
            }
            None => break,
        }
    }
    Ok(sizes)
}

#[test]
fn records_are_made_step_by_step(rt: HostRuntime) -> Result<(), Fail> {
    let alloc = rt.alloc();
    let mut octets = octets_of(alloc, HEADERS)?;
    octets.resize(octets.len() + 4 * FRAMES, 0)?;
    let mut packets = Packets::new(octets.as_slice());
    let Ok(Some(packet)) = packets.next_packet(alloc) else {
        return Err(Fail::from("no packet"));
    };
    let mut text = TextBuffer::new(alloc);
    let sizes = step_sizes(alloc, &packet, &mut text)?;
    let [first, last] = sizes.as_slice() else {
        return Err(Fail::from("two steps"));
    };
    assert!(rt; *first >= FULL && *first < TOO_MUCH);
    assert!(rt; first.saturating_add(*last) == TEXT);
    assert!(rt; text.octets().ends_with(b"refused place=3 why=3 Empty\n"));
    Ok(())
}
