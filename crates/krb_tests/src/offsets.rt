//! Where refused frames and datagrams are. What is expected comes from outside: from programs in
//! another language that follow `docs/LISTING.md`.

use crate::examples::octets_of;
use krb_capture_run::run_capture;
use krb_record::Label;
use krb_run::{RunEnd, RunFault};
use krb_tool::{Form, Limit, Profile, run_stream_in};
use std::alloc::Global;
use std::test::Fail;

/// What octets are listed as.
enum Source {
    /// A stream, up to its first refusal.
    Stream,
    /// A stream that goes on after refusals.
    GoingOn,
    /// A capture.
    Capture,
}

/// A source in hexadecimal, and what is listed of it with names.
struct Row(Source, &'static str, &'static str);

/// An AP-REP, a frame whose contents have an indefinite length, an AP-REP, and text.
const REFUSED: &str =
    "0000001F6F1D301BA003020105A10302010FA20F300DA003020112A2060404DEADBEEF000000026F800000001F6F1D301BA003020105A10302010FA20F300DA003020112A2060404DEADBEEF474554202F20485454502F312E31";

/// A SYN, these octets in two segments, a FIN, and a datagram.
const PACKETS: &str =
    "D4C3B2A1020004000000000000000000FFFF00006500000081436D380500000028000000280000004500002800010000400600007F0000017F0000019C40005800000009000000005002FFFF0000000082436D38050000005A0000005A0000004500005A00010000400600007F0000017F0000019C4000580000000A000000005010FFFF000000000000001F6F1D301BA003020105A10302010FA20F300DA003020112A2060404DEADBEEF000000026F800000001F6F1D301BA083436D380500000050000000500000004500005000010000400600007F0000017F0000019C4000580000003C000000005010FFFF0000000003020105A10302010FA20F300DA003020112A2060404DEADBEEF474554202F20485454502F312E3184436D380500000028000000280000004500002800010000400600007F0000017F0000019C40005800000064000000005011FFFF0000000085436D38050000001E0000001E0000004500001E00010000401100007F0000017F0000019C400058000A00006F80";

const ROWS: [Row; 5] = [
    Row(
        Source::GoingOn,
        REFUSED,
        "AP-REP enc=18:aes256-cts-hmac-sha1-96:-:4 notes=[]\nrefused messages=1 place=5 why=6 Indefinite in=AP-REP at=35 length=2\nAP-REP enc=18:aes256-cts-hmac-sha1-96:-:4 notes=[]\nrefused messages=2 place=3 why=2 TooLong in=- at=76 length=1195725856\nend messages=2 refused=2\n",
    ),
    Row(
        Source::Stream,
        REFUSED,
        "AP-REP enc=18:aes256-cts-hmac-sha1-96:-:4 notes=[]\nrefused messages=1 place=5 why=6 Indefinite in=AP-REP at=35 length=2\n",
    ),
    Row(
        Source::Stream,
        "0000001F6F1D301BA003020105A10302010FA20F300DA003020112A2060404DEADBEEF000000",
        "AP-REP enc=18:aes256-cts-hmac-sha1-96:-:4 notes=[]\nrefused messages=1 place=3 why=16 Truncated in=- at=35 length=-\n",
    ),
    Row(
        Source::Stream,
        "485454502F312E3120323030204F4B0D0A",
        "refused messages=0 place=3 why=2 TooLong in=- at=0 length=1213486160\n",
    ),
    Row(
        Source::Capture,
        PACKETS,
        "packet=2 t=2000-01-01T00:00:02.000005000Z flow=tcp/127.0.0.1:40000>127.0.0.1:88 AP-REP enc=18:aes256-cts-hmac-sha1-96:-:4 notes=[]\npacket=2 t=2000-01-01T00:00:02.000005000Z flow=tcp/127.0.0.1:40000>127.0.0.1:88 of=- after=- waited=- refused place=5 why=6 Indefinite in=AP-REP at=35 length=2\npacket=3 t=2000-01-01T00:00:03.000005000Z flow=tcp/127.0.0.1:40000>127.0.0.1:88 AP-REP enc=18:aes256-cts-hmac-sha1-96:-:4 notes=[]\npacket=3 t=2000-01-01T00:00:03.000005000Z flow=tcp/127.0.0.1:40000>127.0.0.1:88 of=- after=- waited=- refused place=3 why=2 TooLong in=- at=76 length=1195725856\npacket=5 t=2000-01-01T00:00:05.000005000Z flow=udp/127.0.0.1:40000>127.0.0.1:88 of=- after=- waited=- refused place=1 why=6 Indefinite in=AP-REP at=0 length=2\nend packets=5 messages=2 refused=3 lost=0 unread=0 answered=0 unanswered=0 again=0 unreachable=0\n",
    ),
];

/// Lists octets with names.
fn list(
    alloc: Global,
    source: &Source,
    octets: &[u8],
    listed: &mut Vec<u8>,
) -> Result<RunEnd, RunFault> {
    let mut octets = octets;
    let label = &Label::none(Form::NamedLines);
    let (profile, limit) = (Profile::Lenient, Limit::DEFAULT);
    match source {
        Source::Stream => run_stream_in(alloc, label, profile, false, &mut octets, listed, limit),
        Source::GoingOn => run_stream_in(alloc, label, profile, true, &mut octets, listed, limit),
        Source::Capture => run_capture(
            alloc,
            label,
            Profile::Lenient,
            &mut octets,
            listed,
            limit,
            88,
        ),
    }
}

#[test]
fn refusals_say_where_they_are(rt: HostRuntime) -> Result<(), Fail> {
    for Row(source, digits, lines) in &ROWS {
        let octets = octets_of(rt.alloc(), digits)?;
        let mut listed = Vec::new(rt.alloc());
        let end = list(rt.alloc(), source, octets.as_slice(), &mut listed);
        assert!(rt; matches!(end, Ok(RunEnd::Refused | RunEnd::RefusedAtOnce)));
        assert!(rt; listed.as_slice() == lines.as_bytes());
    }
    Ok(())
}
