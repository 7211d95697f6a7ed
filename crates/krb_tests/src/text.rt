//! Records in each form. What is expected was worked out by hand from the rules of
//! `docs/LISTING.md`.

use krb_der::{Profile, Refusal, Why};
use krb_file::FileWhy;
use krb_input::{Layer, Spelling};
use krb_judge::read_ticket_in;
use krb_record::{
    Answer, CaptureCounts, CaptureOrigin, Extent, Flow, Form, How, IcmpError, IcmpVersion,
    InputFault, MessageOrigin, Request, Span, TextBuffer, Told, ToldCounts, Transport,
    put_capture_end, put_capture_refusal, put_captured_refusal, put_counted_stream_end, put_file,
    put_file_refusal, put_input_refusal, put_joined, put_lost, put_message_refusal, put_password,
    put_stream_refusal, put_unanswered, put_unreachable, put_untold_message_refusal,
    put_untold_stream_refusal,
};
use krb_source::{Endpoint, Timestamp};
use krb_text::{put_message_from, put_ticket};
use std::alloc::Global;
use std::net::{IpAddr, Ipv4Addr, Ipv6Addr};
use std::test::Fail;

/// The three forms.
const FORMS: [Form; 3] = [Form::Lines, Form::NamedLines, Form::Json];

/// Why octets are refused, and where.
const REFUSAL: Refusal = Refusal {
    place: 9,
    why: Why::Truncated,
};

/// The part of a source that begins at its first octet.
const WHOLE: Extent = Extent {
    at: 0,
    length: None,
};

/// Nine octets of it.
const FRAME: Extent = Extent {
    at: 3,
    length: Some(9),
};

/// Messages that lie in an input by themselves.
const ALONE: MessageOrigin<'static> = MessageOrigin {
    line: None,
    layers: &[],
};

/// Messages that lie in a token in a token in the second line of an input.
const IN_TOKENS: MessageOrigin<'static> = MessageOrigin {
    line: Some(2),
    layers: &[Layer::Spnego, Layer::Gss],
};

/// What is printed of a file's name, of refusals of files, and of frames.
const REFUSALS: [&str; 3] = [
    "file name=a\\x20\"\\xff\nrefused place=18446744073709551615 why=3 Truncated\nrefused messages=4 place=9 why=16 Truncated\nrefused messages=4 place=9 why=16 Truncated\nend messages=1 refused=2\n",
    "file name=a\\x20\"\\xff\nrefused place=18446744073709551615 why=3 Truncated in=- at=0 length=-\nrefused messages=4 place=9 why=16 Truncated in=- at=3 length=9\nrefused messages=4 place=9 why=16 Truncated in=AP-REP\nend messages=1 refused=2\n",
    "{\"kind\":\"file\",\"name\":\"a \\\"\\\\xff\"}\n{\"kind\":\"refused\",\"place\":18446744073709551615,\"why\":3,\"why_name\":\"Truncated\",\"in\":null,\"at\":0,\"length\":null}\n{\"kind\":\"refused\",\"messages\":4,\"place\":9,\"why\":16,\"why_name\":\"Truncated\",\"in\":null,\"at\":3,\"length\":9}\n{\"kind\":\"refused\",\"messages\":4,\"place\":9,\"why\":16,\"why_name\":\"Truncated\",\"in\":\"AP-REP\"}\n{\"kind\":\"end\",\"messages\":1,\"refused\":2}\n",
];

#[test]
fn shows_refusals(rt: HostRuntime) -> Result<(), Fail> {
    for (form, expected) in FORMS.into_iter().zip(REFUSALS) {
        let mut text = TextBuffer::new(rt.alloc());
        put_file(&mut text, form, b"a \"\xFF")?;
        put_file_refusal(
            &mut text,
            form,
            18446744073709551615,
            FileWhy::Truncated,
            None,
            WHOLE,
        )?;
        put_stream_refusal(&mut text, form, 4, REFUSAL, None, FRAME)?;
        put_untold_stream_refusal(&mut text, form, 4, REFUSAL, Some("AP-REP"))?;
        put_counted_stream_end(&mut text, form, 1, 2)?;
        let shown = text.into_string();
        assert_eq!(rt; shown.as_str(), expected);
    }
    Ok(())
}

/// What is printed of input that is refused.
const INPUTS: [&str; 3] = [
    "refused dump\nrefused length\nline=2 via=SPNEGO,GSS refused ntlm\nline=2 via=SPNEGO,GSS refused place=9 why=16 Truncated\nrefused place=9 why=16 Truncated\n",
    "refused dump place=136 why=- in=- at=0 length=- form=-\nrefused length place=- why=- in=- at=0 length=- form=-\nline=2 via=SPNEGO,GSS refused ntlm place=27 why=- in=- at=3 length=9 form=hex\nline=2 via=SPNEGO,GSS refused place=9 why=16 Truncated in=AP-REP at=3 length=9 form=base64\nrefused place=9 why=16 Truncated in=-\n",
    "{\"kind\":\"refused\",\"input\":\"dump\",\"place\":136,\"why\":null,\"why_name\":null,\"in\":null,\"at\":0,\"length\":null,\"form\":null}\n{\"kind\":\"refused\",\"input\":\"length\",\"place\":null,\"why\":null,\"why_name\":null,\"in\":null,\"at\":0,\"length\":null,\"form\":null}\n{\"kind\":\"refused\",\"line\":2,\"via\":[\"SPNEGO\",\"GSS\"],\"input\":\"ntlm\",\"place\":27,\"why\":null,\"why_name\":null,\"in\":null,\"at\":3,\"length\":9,\"form\":\"hex\"}\n{\"kind\":\"refused\",\"line\":2,\"via\":[\"SPNEGO\",\"GSS\"],\"place\":9,\"why\":16,\"why_name\":\"Truncated\",\"in\":\"AP-REP\",\"at\":3,\"length\":9,\"form\":\"base64\"}\n{\"kind\":\"refused\",\"place\":9,\"why\":16,\"why_name\":\"Truncated\",\"in\":null}\n",
];

#[test]
fn shows_refused_input(rt: HostRuntime) -> Result<(), Fail> {
    let dump = InputFault::Misspelled(Spelling::Dump);
    let (ntlm, hex) = (InputFault::Ntlm, Some(Spelling::Hex));
    let base64 = Spelling::Base64;
    for (form, expected) in FORMS.into_iter().zip(INPUTS) {
        let mut text = TextBuffer::new(rt.alloc());
        put_input_refusal(&mut text, form, &ALONE, dump, Some(136), WHOLE, None)?;
        put_input_refusal(
            &mut text,
            form,
            &ALONE,
            InputFault::Length,
            None,
            WHOLE,
            None,
        )?;
        put_input_refusal(&mut text, form, &IN_TOKENS, ntlm, Some(27), FRAME, hex)?;
        put_message_refusal(
            &mut text,
            form,
            &IN_TOKENS,
            REFUSAL,
            Some("AP-REP"),
            FRAME,
            base64,
        )?;
        put_untold_message_refusal(&mut text, form, REFUSAL, None)?;
        let shown = text.into_string();
        assert_eq!(rt; shown.as_str(), expected);
    }
    Ok(())
}

/// A Ticket of `h@A` (RFC 4120, 5.3).
const TICKET: [u8; 45] = [
    0x61, 0x2B, 0x30, 0x29, 0xA0, 0x03, 0x02, 0x01, 0x05, 0xA1, 0x03, 0x1B, 0x01, 0x41, 0xA2, 0x0E,
    0x30, 0x0C, 0xA0, 0x03, 0x02, 0x01, 0x02, 0xA1, 0x05, 0x30, 0x03, 0x1B, 0x01, 0x68, 0xA3, 0x0D,
    0x30, 0x0B, 0xA0, 0x03, 0x02, 0x01, 0x12, 0xA2, 0x04, 0x04, 0x02, 0xBE, 0xEF,
];

/// An AP-REP (RFC 4120, 5.5.2).
const AP_REP: [u8; 31] = [
    0x6F, 0x1D, 0x30, 0x1B, 0xA0, 0x03, 0x02, 0x01, 0x05, 0xA1, 0x03, 0x02, 0x01, 0x0F, 0xA2, 0x0F,
    0x30, 0x0D, 0xA0, 0x03, 0x02, 0x01, 0x12, 0xA2, 0x06, 0x04, 0x04, 0xDE, 0xAD, 0xBE, 0xEF,
];

/// What is printed of the Ticket and of the AP-REP.
const MESSAGES: [&str; 3] = [
    "Ticket server=h@A ticket=18:-:2 notes=[]\nline=2 via=SPNEGO,GSS AP-REP enc=18:-:4 notes=[]\n",
    "Ticket server=h@A ticket=18:aes256-cts-hmac-sha1-96:-:2 notes=[]\nline=2 via=SPNEGO,GSS AP-REP enc=18:aes256-cts-hmac-sha1-96:-:4 notes=[]\n",
    "{\"kind\":\"Ticket\",\"server\":{\"text\":\"h@A\",\"type\":2,\"type_name\":\"NT-SRV-INST\",\"components\":[\"h\"],\"realm\":\"A\"},\"ticket\":{\"etype\":18,\"etype_name\":\"aes256-cts-hmac-sha1-96\",\"kvno\":null,\"size\":2},\"notes\":[],\"notes_names\":[]}\n{\"kind\":\"AP-REP\",\"line\":2,\"via\":[\"SPNEGO\",\"GSS\"],\"enc\":{\"etype\":18,\"etype_name\":\"aes256-cts-hmac-sha1-96\",\"kvno\":null,\"size\":4},\"notes\":[],\"notes_names\":[]}\n",
];

/// Returns what is printed of the Ticket and of the AP-REP in a form.
fn messages_shown(alloc: Global, form: Form) -> Result<String, Fail> {
    let mut text = TextBuffer::new(alloc);
    let Ok(ticket) = read_ticket_in(Profile::Strict, &TICKET) else {
        return Err(Fail::from("no Ticket"));
    };
    put_ticket(&mut text, form, &ALONE, &ticket)?;
    if !put_message_from(&mut text, form, &IN_TOKENS, Profile::Strict, &AP_REP)? {
        return Err(Fail::from("no AP-REP"));
    }
    Ok(text.into_string())
}

#[test]
fn shows_messages_of_an_origin(rt: HostRuntime) -> Result<(), Fail> {
    for (form, expected) in FORMS.into_iter().zip(MESSAGES) {
        let shown = messages_shown(rt.alloc(), form)?;
        assert_eq!(rt; shown.as_str(), expected);
    }
    Ok(())
}

/// Returns an answer whose clock stepped back.
fn late() -> Answer {
    Answer {
        of: Some(4),
        after: Some(Span {
            microseconds: -2500001,
        }),
        waited: None,
    }
}

/// Returns an error of a host that nobody listens at a port of.
fn error() -> IcmpError {
    IcmpError {
        version: IcmpVersion::V4,
        by: IpAddr::V4(Ipv4Addr::LOCALHOST),
        error_type: 3,
        code: 8,
    }
}

/// Returns a flow over IPv4, and a packet without a time.
fn sent() -> CaptureOrigin {
    CaptureOrigin {
        packet: 18446744073709551615,
        time: None,
        flow: Flow {
            transport: Transport::Tcp,
            source: Endpoint {
                address: IpAddr::V4(Ipv4Addr::LOCALHOST),
                port: 65535,
            },
            target: Endpoint {
                address: IpAddr::V4(Ipv4Addr::BROADCAST),
                port: 0,
            },
        },
        told: Told::Request(Some(7)),
    }
}

/// Returns a flow over IPv6, and a packet of 2026-11-25T10:56:01.000001090Z.
fn answered() -> CaptureOrigin {
    CaptureOrigin {
        packet: 1,
        time: Some(Timestamp {
            seconds: 1795604161,
            nanoseconds: 1090,
        }),
        flow: Flow {
            transport: Transport::Udp,
            source: Endpoint {
                address: IpAddr::V6(Ipv6Addr::LOCALHOST),
                port: 88,
            },
            target: Endpoint {
                address: IpAddr::V6(Ipv6Addr::new(0x2001, 0xDB8, 0, 0, 1, 0, 0, 1)),
                port: 9,
            },
        },
        told: Told::Either(None, late()),
    }
}

/// What is printed of a capture.
const CAPTURES: [&str; 3] = [
    "packet=18446744073709551615 t=- flow=tcp/127.0.0.1:65535>255.255.255.255:0 joined\npacket=18446744073709551615 t=- flow=tcp/127.0.0.1:65535>255.255.255.255:0 refused place=9 why=16 Truncated\npacket=1 t=2026-11-25T10:56:01.000001090Z flow=udp/[::1]:88>[2001:db8::1:0:0:1]:9 lost place=78 octets=114\npacket=1 t=2026-11-25T10:56:01.000001090Z flow=udp/[::1]:88>[2001:db8::1:0:0:1]:9 KPASSWD version=65408 ap=509 rest=135\npacket=18446744073709551615 t=- flow=tcp/127.0.0.1:65535>255.255.255.255:0 unanswered request=TGS-REQ of=4 after=-2.500001 waited=-\npacket=1 t=2026-11-25T10:56:01.000001090Z flow=udp/[::1]:88>[2001:db8::1:0:0:1]:9 unreachable how=icmp by=127.0.0.1 type=3 code=8 of=4 after=-2.500001 waited=-\nend packets=1 messages=2 refused=3 lost=4 unread=5\nrefused packets=1 messages=2 refused=3 lost=4 unread=5 place=0 why=1 Magic\n",
    "packet=18446744073709551615 t=- flow=tcp/127.0.0.1:65535>255.255.255.255:0 again=7 joined\npacket=18446744073709551615 t=- flow=tcp/127.0.0.1:65535>255.255.255.255:0 again=7 refused place=9 why=16 Truncated in=AP-REP.pvno at=3 length=9\npacket=1 t=2026-11-25T10:56:01.000001090Z flow=udp/[::1]:88>[2001:db8::1:0:0:1]:9 again=- of=4 after=-2.500001 waited=- lost place=78 octets=114 in=-\npacket=1 t=2026-11-25T10:56:01.000001090Z flow=udp/[::1]:88>[2001:db8::1:0:0:1]:9 again=- of=4 after=-2.500001 waited=- KPASSWD version=65408 ap=509 rest=135\npacket=18446744073709551615 t=- flow=tcp/127.0.0.1:65535>255.255.255.255:0 again=7 unanswered request=TGS-REQ of=4 after=-2.500001 waited=-\npacket=1 t=2026-11-25T10:56:01.000001090Z flow=udp/[::1]:88>[2001:db8::1:0:0:1]:9 again=- of=4 after=-2.500001 waited=- unreachable how=icmp by=127.0.0.1 type=3:destination-unreachable code=8:- of=4 after=-2.500001 waited=-\nend packets=1 messages=2 refused=3 lost=4 unread=5 answered=6 unanswered=7 again=8 unreachable=9\nrefused packets=1 messages=2 refused=3 lost=4 unread=5 place=0 why=1 Magic in=magic at=0 length=- answered=6 unanswered=7 again=8 unreachable=9\n",
    "{\"kind\":\"joined\",\"packet\":18446744073709551615,\"t\":null,\"flow\":{\"over\":\"tcp\",\"source\":{\"address\":\"127.0.0.1\",\"port\":65535},\"target\":{\"address\":\"255.255.255.255\",\"port\":0}},\"t_us\":null,\"again\":7}\n{\"kind\":\"refused\",\"packet\":18446744073709551615,\"t\":null,\"flow\":{\"over\":\"tcp\",\"source\":{\"address\":\"127.0.0.1\",\"port\":65535},\"target\":{\"address\":\"255.255.255.255\",\"port\":0}},\"place\":9,\"why\":16,\"why_name\":\"Truncated\",\"in\":\"AP-REP.pvno\",\"at\":3,\"length\":9,\"t_us\":null,\"again\":7}\n{\"kind\":\"lost\",\"packet\":1,\"t\":\"2026-11-25T10:56:01.000001090Z\",\"flow\":{\"over\":\"udp\",\"source\":{\"address\":\"::1\",\"port\":88},\"target\":{\"address\":\"2001:db8::1:0:0:1\",\"port\":9}},\"place\":78,\"octets\":114,\"in\":null,\"t_us\":1795604161000001,\"again\":null,\"of\":4,\"after\":-2500001,\"waited\":null}\n{\"kind\":\"KPASSWD\",\"packet\":1,\"t\":\"2026-11-25T10:56:01.000001090Z\",\"flow\":{\"over\":\"udp\",\"source\":{\"address\":\"::1\",\"port\":88},\"target\":{\"address\":\"2001:db8::1:0:0:1\",\"port\":9}},\"version\":65408,\"ap\":509,\"rest\":135,\"t_us\":1795604161000001,\"again\":null,\"of\":4,\"after\":-2500001,\"waited\":null}\n{\"kind\":\"unanswered\",\"packet\":18446744073709551615,\"t\":null,\"flow\":{\"over\":\"tcp\",\"source\":{\"address\":\"127.0.0.1\",\"port\":65535},\"target\":{\"address\":\"255.255.255.255\",\"port\":0}},\"request\":\"TGS-REQ\",\"of\":4,\"after\":-2500001,\"waited\":null,\"t_us\":null,\"again\":7}\n{\"kind\":\"unreachable\",\"packet\":1,\"t\":\"2026-11-25T10:56:01.000001090Z\",\"flow\":{\"over\":\"udp\",\"source\":{\"address\":\"::1\",\"port\":88},\"target\":{\"address\":\"2001:db8::1:0:0:1\",\"port\":9}},\"how\":\"icmp\",\"by\":\"127.0.0.1\",\"type\":3,\"type_name\":\"destination-unreachable\",\"code\":8,\"code_name\":null,\"of\":4,\"after\":-2500001,\"waited\":null,\"t_us\":1795604161000001,\"again\":null,\"of\":4,\"after\":-2500001,\"waited\":null}\n{\"kind\":\"end\",\"packets\":1,\"messages\":2,\"refused\":3,\"lost\":4,\"unread\":5,\"answered\":6,\"unanswered\":7,\"again\":8,\"unreachable\":9}\n{\"kind\":\"refused\",\"packets\":1,\"messages\":2,\"refused\":3,\"lost\":4,\"unread\":5,\"place\":0,\"why\":1,\"why_name\":\"Magic\",\"in\":\"magic\",\"at\":0,\"length\":null,\"answered\":6,\"unanswered\":7,\"again\":8,\"unreachable\":9}\n",
];

#[test]
fn shows_captures(rt: HostRuntime) -> Result<(), Fail> {
    let (sent, answered) = (sent(), answered());
    let counts = CaptureCounts {
        packets: 1,
        messages: 2,
        refused: 3,
        lost: 4,
        unread: 5,
    };
    let told = ToldCounts {
        answered: 6,
        unanswered: 7,
        again: 8,
        unreachable: 9,
    };
    for (form, expected) in FORMS.into_iter().zip(CAPTURES) {
        let mut text = TextBuffer::new(rt.alloc());
        put_joined(&mut text, form, &sent)?;
        put_captured_refusal(&mut text, form, &sent, REFUSAL, Some("AP-REP.pvno"), FRAME)?;
        put_lost(&mut text, form, &answered, 78, 114, None)?;
        put_password(&mut text, form, &answered, 65408, 509, 135)?;
        put_unanswered(&mut text, form, &sent, Request::TgsReq, &late())?;
        put_unreachable(&mut text, form, &answered, How::Error(error()), &late())?;
        put_capture_end(&mut text, form, &counts, &told)?;
        put_capture_refusal(
            &mut text,
            form,
            &counts,
            &told,
            0,
            FileWhy::Magic,
            Some("magic"),
            WHOLE,
        )?;
        let shown = text.into_string();
        assert_eq!(rt; shown.as_str(), expected);
    }
    Ok(())
}
