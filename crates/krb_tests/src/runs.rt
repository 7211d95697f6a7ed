//! How runs use their readers and writers: how often they read, when they write, and that they do
//! not read or write again after an error, the end or a refusal. The texts that are expected were
//! worked out by hand from the rules of `docs/FORMATS.md`.

use crate::fakes::{Asked, Full, Watched};
use krb_convert::{
    DecodeEnd, EncodeEnd, run_decode, run_decode_unframed, run_encode, run_encode_unframed,
};
use krb_decode::run_decode_input;
use krb_file_run::{run_ccache, run_keytab};
use krb_record::Label;
use krb_run::{RunEnd, RunFault, status};
use krb_tool::{Form, Limit, Profile, run_lines_in, run_message, run_stream};
use std::alloc::{AllocError, Global};
use std::io::{Read, Write};
use std::test::Fail;

/// A run.
enum Run {
    Stream,
    Message,
    Lines,
    Keytab,
    Ccache,
    Decode,
    DecodeUnframed,
    DecodeInput,
    Encode,
    EncodeUnframed,
}

/// Returns how a decoding ended, without what was refused.
fn decoded(end: Result<DecodeEnd, RunFault>) -> Result<RunEnd, RunFault> {
    Ok(end?.run_end())
}

/// Returns how an encoding ended, without what was at fault.
fn encoded(end: Result<EncodeEnd, RunFault>) -> Result<RunEnd, RunFault> {
    Ok(end?.run_end())
}

/// Runs it.
fn list<R: Read, W: Write>(
    alloc: Global,
    run: &Run,
    reader: &mut R,
    writer: &mut W,
) -> Result<RunEnd, RunFault> {
    match run {
        Run::Stream => run_stream(alloc, reader, writer, Limit::DEFAULT),
        Run::Message => run_message(alloc, reader, writer),
        Run::Lines => run_lines_in(
            alloc,
            &Label::none(Form::Lines),
            Profile::Lenient,
            reader,
            writer,
        ),
        Run::Keytab => run_keytab(alloc, reader, writer),
        Run::Ccache => run_ccache(alloc, reader, writer, None),
        Run::Decode => decoded(run_decode(alloc, Profile::Lenient, reader, writer, Limit::DEFAULT)),
        Run::DecodeUnframed => decoded(run_decode_unframed(
            alloc,
            Profile::Lenient,
            reader,
            writer,
            Limit::DEFAULT,
        )),
        Run::DecodeInput => Ok(run_decode_input(alloc, Profile::Lenient, reader, writer)?.end),
        Run::Encode => encoded(run_encode(alloc, Profile::Lenient, reader, writer, Limit::DEFAULT)),
        Run::EncodeUnframed => encoded(run_encode_unframed(
            alloc,
            Profile::Lenient,
            reader,
            writer,
            Limit::DEFAULT,
        )),
    }
}

/// A run, its input, what it writes, and the first line and two of that, each with how many octets
/// of the input it needs.
struct Example(
    Run,
    &'static [u8],
    &'static [u8],
    [(usize, &'static [u8]); 2],
);

const FRAME: &[u8] =
    b"\x00\x00\x00\x1F\x6F\x1D\x30\x1B\xA0\x03\x02\x01\x05\xA1\x03\x02\x01\x0F\xA2\x0F\x30\x0D\xA0\x03\x02\x01\x12\xA2\x06\x04\x04\xDE\xAD\xBE\xEF";

/// Two of these frames, a message in hexadecimal, two of them in lines, a keytab with an entry and
/// a hole, a cache of u@A with no credential, and then the frames, the message and a Ticket in
/// hexadecimal decoded, and lines of the first encoded.
const EXAMPLES: [Example; 10] = [
    Example(
        Run::Stream,
        b"\x00\x00\x00\x1F\x6F\x1D\x30\x1B\xA0\x03\x02\x01\x05\xA1\x03\x02\x01\x0F\xA2\x0F\x30\x0D\xA0\x03\x02\x01\x12\xA2\x06\x04\x04\xDE\xAD\xBE\xEF\x00\x00\x00\x1F\x6F\x1D\x30\x1B\xA0\x03\x02\x01\x05\xA1\x03\x02\x01\x0F\xA2\x0F\x30\x0D\xA0\x03\x02\x01\x12\xA2\x06\x04\x04\xDE\xAD\xBE\xEF",
        b"AP-REP enc=18:-:4 notes=[]\nAP-REP enc=18:-:4 notes=[]\nend messages=2\n",
        [
            (35, b"AP-REP enc=18:-:4 notes=[]\n"),
            (
                70,
                b"AP-REP enc=18:-:4 notes=[]\nAP-REP enc=18:-:4 notes=[]\n",
            ),
        ],
    ),
    Example(
        Run::Message,
        b"6F1D301BA003020105A10302010FA20F300DA003020112A2060404DEADBEEF",
        b"AP-REP enc=18:-:4 notes=[]\n",
        [(0, b""), (0, b"")],
    ),
    Example(
        Run::Lines,
        b"6F1D301BA003020105A10302010FA20F300DA003020112A2060404DEADBEEF\n6F1D301BA003020105A10302010FA20F300DA003020112A2060404DEADBEEF\n",
        b"line=1 AP-REP enc=18:-:4 notes=[]\nline=2 AP-REP enc=18:-:4 notes=[]\nend messages=2 refused=0\n",
        [
            (63, b"line=1 AP-REP enc=18:-:4 notes=[]\n"),
            (
                126,
                b"line=1 AP-REP enc=18:-:4 notes=[]\nline=2 AP-REP enc=18:-:4 notes=[]\n",
            ),
        ],
    ),
    Example(
        Run::Keytab,
        b"\x05\x02\x00\x00\x00\x1B\x00\x01\x00\x01\x41\x00\x01\x68\x00\x00\x00\x01\x38\x6D\x43\x80\x02\x00\x12\x00\x02\xAB\xCD\x00\x00\x01\x02\xFF\xFF\xFF\xF8\x00\x00\x00\x00\x00\x00\x00\x00",
        b"entry principal=h@A type=1 time=2000-01-01T00:00:00Z kvno=258 enctype=18 key=2 rest=4\nhole size=8 clean=yes\nend records=2 zero=no\n",
        [
            (
                33,
                b"entry principal=h@A type=1 time=2000-01-01T00:00:00Z kvno=258 enctype=18 key=2 rest=4\n",
            ),
            (
                45,
                b"entry principal=h@A type=1 time=2000-01-01T00:00:00Z kvno=258 enctype=18 key=2 rest=4\nhole size=8 clean=yes\n",
            ),
        ],
    ),
    Example(
        Run::Ccache,
        b"\x05\x04\x00\x00\x00\x00\x00\x01\x00\x00\x00\x01\x00\x00\x00\x01A\x00\x00\x00\x01u",
        b"cache principal=u@A type=1 offset=- fields=0\nend credentials=0\n",
        [
            (0, b""),
            (22, b"cache principal=u@A type=1 offset=- fields=0\n"),
        ],
    ),
    Example(
        Run::Decode,
        b"\x00\x00\x00\x1F\x6F\x1D\x30\x1B\xA0\x03\x02\x01\x05\xA1\x03\x02\x01\x0F\xA2\x0F\x30\x0D\xA0\x03\x02\x01\x12\xA2\x06\x04\x04\xDE\xAD\xBE\xEF\x00\x00\x00\x1F\x6F\x1D\x30\x1B\xA0\x03\x02\x01\x05\xA1\x03\x02\x01\x0F\xA2\x0F\x30\x0D\xA0\x03\x02\x01\x12\xA2\x06\x04\x04\xDE\xAD\xBE\xEF",
        b"{\"AP-REP\":{\"pvno\":5,\"msg-type\":15,\"enc-part\":{\"etype\":18,\"cipher\":\"deadbeef\"}}}\n{\"AP-REP\":{\"pvno\":5,\"msg-type\":15,\"enc-part\":{\"etype\":18,\"cipher\":\"deadbeef\"}}}\n",
        [
            (
                35,
                b"{\"AP-REP\":{\"pvno\":5,\"msg-type\":15,\"enc-part\":{\"etype\":18,\"cipher\":\"deadbeef\"}}}\n",
            ),
            (
                70,
                b"{\"AP-REP\":{\"pvno\":5,\"msg-type\":15,\"enc-part\":{\"etype\":18,\"cipher\":\"deadbeef\"}}}\n{\"AP-REP\":{\"pvno\":5,\"msg-type\":15,\"enc-part\":{\"etype\":18,\"cipher\":\"deadbeef\"}}}\n",
            ),
        ],
    ),
    Example(
        Run::DecodeUnframed,
        b"\x6F\x1D\x30\x1B\xA0\x03\x02\x01\x05\xA1\x03\x02\x01\x0F\xA2\x0F\x30\x0D\xA0\x03\x02\x01\x12\xA2\x06\x04\x04\xDE\xAD\xBE\xEF",
        b"{\"AP-REP\":{\"pvno\":5,\"msg-type\":15,\"enc-part\":{\"etype\":18,\"cipher\":\"deadbeef\"}}}\n",
        [(31, b""), (31, b"")],
    ),
    Example(
        Run::DecodeInput,
        b"612B3029A003020105A1031B0141A20E300CA003020102A10530031B0168A30D300BA003020112A2040402BEEF",
        b"{\"Ticket\":{\"tkt-vno\":5,\"realm\":\"A\",\"sname\":{\"name-type\":2,\"name-string\":[\"h\"]},\"enc-part\":{\"etype\":18,\"cipher\":\"beef\"}}}\n",
        [(0, b""), (0, b"")],
    ),
    Example(
        Run::Encode,
        b"{\"AP-REP\":{\"pvno\":5,\"msg-type\":15,\"enc-part\":{\"etype\":18,\"cipher\":\"deadbeef\"}}}\n{\"AP-REP\":{\"pvno\":5,\"msg-type\":15,\"enc-part\":{\"etype\":18,\"cipher\":\"deadbeef\"}}}\n",
        b"\x00\x00\x00\x1F\x6F\x1D\x30\x1B\xA0\x03\x02\x01\x05\xA1\x03\x02\x01\x0F\xA2\x0F\x30\x0D\xA0\x03\x02\x01\x12\xA2\x06\x04\x04\xDE\xAD\xBE\xEF\x00\x00\x00\x1F\x6F\x1D\x30\x1B\xA0\x03\x02\x01\x05\xA1\x03\x02\x01\x0F\xA2\x0F\x30\x0D\xA0\x03\x02\x01\x12\xA2\x06\x04\x04\xDE\xAD\xBE\xEF",
        [
            (
                80,
                b"\x00\x00\x00\x1F\x6F\x1D\x30\x1B\xA0\x03\x02\x01\x05\xA1\x03\x02\x01\x0F\xA2\x0F\x30\x0D\xA0\x03\x02\x01\x12\xA2\x06\x04\x04\xDE\xAD\xBE\xEF",
            ),
            (
                160,
                b"\x00\x00\x00\x1F\x6F\x1D\x30\x1B\xA0\x03\x02\x01\x05\xA1\x03\x02\x01\x0F\xA2\x0F\x30\x0D\xA0\x03\x02\x01\x12\xA2\x06\x04\x04\xDE\xAD\xBE\xEF\x00\x00\x00\x1F\x6F\x1D\x30\x1B\xA0\x03\x02\x01\x05\xA1\x03\x02\x01\x0F\xA2\x0F\x30\x0D\xA0\x03\x02\x01\x12\xA2\x06\x04\x04\xDE\xAD\xBE\xEF",
            ),
        ],
    ),
    Example(
        Run::EncodeUnframed,
        b"{\"AP-REP\":{\"pvno\":5,\"msg-type\":15,\"enc-part\":{\"etype\":18,\"cipher\":\"deadbeef\"}}}\n",
        b"\x6F\x1D\x30\x1B\xA0\x03\x02\x01\x05\xA1\x03\x02\x01\x0F\xA2\x0F\x30\x0D\xA0\x03\x02\x01\x12\xA2\x06\x04\x04\xDE\xAD\xBE\xEF",
        [
            (0, b""),
            (
                80,
                b"\x6F\x1D\x30\x1B\xA0\x03\x02\x01\x05\xA1\x03\x02\x01\x0F\xA2\x0F\x30\x0D\xA0\x03\x02\x01\x12\xA2\x06\x04\x04\xDE\xAD\xBE\xEF",
            ),
        ],
    ),
];

/// Returns what of an example is written if a read fails after this many octets.
fn lines_before(example: &Example, count: usize) -> &'static [u8] {
    let Example(_, _, _, [(one, line), (two, lines)]) = example;
    if count >= *two {
        lines
    } else if count >= *one {
        line
    } else {
        b""
    }
}

/// What a run does with a reader: how it ends if no read fails.
#[derive(Drop)]
struct Given<'a> {
    outcome: Option<RunEnd>,
    lines: &'a [u8],
    asks: usize,
}

/// Returns whether a run does this with a reader of octets, at most `at_most` at once, that then
/// ends or fails, and does not read after that.
fn gives(
    alloc: Global,
    run: &Run,
    octets: &[u8],
    at_most: usize,
    fails: bool,
    wanted: &Given<'_>,
) -> bool {
    let asked = Asked::new();
    let mut reader = Watched {
        octets,
        at_most,
        fails,
        is_over: false,
        asked: &asked,
    };
    let mut text = Vec::new(alloc);
    let outcome = list(alloc, run, &mut reader, &mut text);
    let is_wanted = match outcome {
        Ok(ended) => wanted.outcome == Some(ended),
        Err(RunFault::Read(_)) => wanted.outcome.is_none(),
        Err(_) => false,
    };
    is_wanted
        && text.as_slice() == wanted.lines
        && (asked.asks.get(), asked.wrong_asks.get()) == (wanted.asks, 0)
}

/// Returns whether an example is listed from a reader that fails after this many octets, or that
/// ends after all of them.
fn is_listed(alloc: Global, example: &Example, count: Option<usize>, at_most: usize) -> bool {
    let Example(run, octets, lines, _) = example;
    let (octets, lines, outcome) = match count {
        Some(count) => {
            let front = octets.get(..count).unwrap_or(octets);
            (front, lines_before(example, count), None)
        }
        None => (*octets, *lines, Some(RunEnd::Clean)),
    };
    let asks = if at_most == 1 {
        octets.len()
    } else {
        octets.len().min(1)
    };
    let wanted = Given {
        outcome,
        lines,
        asks: asks.saturating_add(1),
    };
    gives(alloc, run, octets, at_most, count.is_some(), &wanted)
}

#[test]
fn asks_until_the_end_or_an_error_and_no_more(rt: HostRuntime) {
    for example in &EXAMPLES {
        assert!(rt; is_listed(rt.alloc(), example, None, 1));
        assert!(rt; is_listed(rt.alloc(), example, None, 65536));
        for count in 0..=example.1.len() {
            assert!(rt;
                is_listed(rt.alloc(), example, Some(count), 1),
                "at {count}"
            );
            if count % 16 == 0 {
                assert!(rt;
                    is_listed(rt.alloc(), example, Some(count), 65536),
                    "all at once, at {count}"
                );
            }
        }
    }
}

#[test]
fn asks_until_a_refusal_and_no_more(rt: HostRuntime) -> Result<(), Fail> {
    let octets = repeated(rt.alloc(), b"\x00\x00\x00\x1F\x30", 1, 200000)?;
    for (at_most, asks) in [(1, 5), (5, 1), (65536, 1)] {
        let wanted = Given {
            outcome: Some(RunEnd::RefusedAtOnce),
            lines: b"refused messages=0 place=4 why=4 Tag\n",
            asks,
        };
        let octets = octets.as_slice();
        assert!(rt;
            gives(rt.alloc(), &Run::Stream, octets, at_most, false, &wanted),
            "{at_most}"
        );
    }
    Ok(())
}

/// Returns whether a run writes the first `room` octets of the lines of an example, and no more, to
/// a writer that then fails or accepts none.
fn is_cut(alloc: Global, example: &Example, room: usize, fails: bool) -> bool {
    let Example(run, octets, lines, _) = example;
    let asked = Asked::new();
    let mut reader = Watched {
        octets,
        at_most: 1,
        fails: false,
        is_over: false,
        asked: &asked,
    };
    let mut writer = Full {
        text: lines,
        room,
        fails,
        is_over: false,
        writes: 0,
        wrong_writes: 0,
    };
    let outcome = list(alloc, run, &mut reader, &mut writer);
    matches!(outcome, Err(RunFault::Write(_)))
        && status(&outcome) == 3
        && (writer.room, writer.wrong_writes) == (0, 0)
}

/// Returns whether a writer that takes so many octets of a text is tried: each fourth, and each that
/// takes whole lines.
fn is_tried(text: &[u8], room: usize) -> bool {
    room % 4 == 0 || text.get(..room).unwrap_or(text).ends_with(b"\n")
}

#[test]
fn writes_until_an_error_and_no_more(rt: HostRuntime) {
    for example in &EXAMPLES {
        for room in 0..example.2.len() {
            if is_tried(example.2, room) {
                assert!(rt; is_cut(rt.alloc(), example, room, true), "after {room}");
                assert!(rt;
                    is_cut(rt.alloc(), example, room, false),
                    "none after {room}"
                );
            }
        }
    }
}

/// Returns how many writes the listing of two frames needs from a reader of at most some octets at
/// once.
fn writes_of(alloc: Global, at_most: usize) -> usize {
    let [Example(run, octets, lines, _), ..] = &EXAMPLES;
    let asked = Asked::new();
    let mut reader = Watched {
        octets,
        at_most,
        fails: false,
        is_over: false,
        asked: &asked,
    };
    let mut writer = Full {
        text: lines,
        room: 1000,
        fails: true,
        is_over: false,
        writes: 0,
        wrong_writes: 0,
    };
    let _ = list(alloc, run, &mut reader, &mut writer);
    writer.writes
}

#[test]
fn writes_each_line_when_its_frame_ends(rt: HostRuntime) {
    assert_eq!(rt; writes_of(rt.alloc(), 35), 3, "a line, a line and the end");
    assert_eq!(rt;
        writes_of(rt.alloc(), 70),
        2,
        "the lines of one piece, and the end"
    );
}

/// Returns octets repeated, and then zeros.
fn repeated(
    alloc: Global,
    octets: &[u8],
    times: usize,
    zeros: usize,
) -> Result<Vec<u8>, AllocError> {
    let mut all = Vec::new(alloc);
    for _ in 0..times {
        all.extend_from_slice(octets)?;
    }
    for _ in 0..zeros {
        all.push(0)?;
    }
    Ok(all)
}

#[test]
fn asks_more_than_65536_times(rt: HostRuntime) -> Result<(), Fail> {
    let alloc = rt.alloc();
    let line = b"AP-REP enc=18:-:4 notes=[]\n";
    let frames = repeated(alloc, FRAME, 2000, 0)?;
    let mut lines = repeated(alloc, line, 2000, 0)?;
    lines.extend_from_slice(b"end messages=2000\n")?;
    let wanted = Given {
        outcome: Some(RunEnd::Clean),
        lines: lines.as_slice(),
        asks: 35 * 2000 + 1,
    };
    assert!(rt; gives(alloc, &Run::Stream, frames.as_slice(), 1, false, &wanted));
    let keytab = repeated(alloc, b"\x05\x02\xFF\xFF\x00\x00", 1, 1 << 16)?;
    let wanted = Given {
        outcome: Some(RunEnd::Clean),
        lines: b"hole size=65536 clean=yes\nend records=1 zero=no\n",
        asks: (1 << 16) + 7,
    };
    assert!(rt; gives(alloc, &Run::Keytab, keytab.as_slice(), 1, false, &wanted));
    Ok(())
}

#[test]
fn writes_the_lines_before_a_read_that_fails(rt: HostRuntime) -> Result<(), Fail> {
    let alloc = rt.alloc();
    let hole = b"\xFF\xFF\xFF\xF8\x00\x00\x00\x00\x00\x00\x00\x00";
    let mut keytab = repeated(alloc, b"\x05\x02", 1, 0)?;
    keytab.extend_from_slice(repeated(alloc, hole, 5461, 0)?.as_slice())?;
    keytab.extend_from_slice(b"\xFF\xFF")?;
    let lines = repeated(alloc, b"hole size=8 clean=yes\n", 5461, 0)?;
    let wanted = Given {
        outcome: None,
        lines: lines.as_slice(),
        asks: 3,
    };
    assert!(rt; gives(alloc, &Run::Keytab, keytab.as_slice(), 65536, true, &wanted));
    Ok(())
}
