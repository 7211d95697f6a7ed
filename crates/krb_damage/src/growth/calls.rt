//! The calls that allocate, and what each has to return.

use super::Outcome;
use super::captures::{ANSWERED, CUT, FRAGMENTS, OUT_OF_ORDER, goes_on, lists, puts_together};
use super::conversions::Conversion;
use super::decoders::{fed_twice, reserved_answers, reserved_feeds, reserves, stepped_over};
use super::lines::lists_lines;
use super::octets::{AP_REP, CACHE, KEYTAB, KRB_ERROR, METHOD_DATA, TICKET, message_of};
use super::readers::{credentials, records, upgrades};
use krb_ccache::{Ccache, TicketState};
use krb_codec::{EncodeFault, encode};
use krb_der::{Memory, Profile, Refusal, Why};
use krb_file::FileFault;
use krb_files::ccache::{CcacheFault, ccache_lines};
use krb_files::keytab::{KeytabFault, keytab_lines};
use krb_frame::{Decoder, Framed, Limit, Status};
use krb_input::{Hint, InputFault, read_input};
use krb_keytab::{Keytab, Record, Stop};
use krb_list::{cache_end_line, cache_line, credential_line, keytab_end_line, record_line};
use krb_msg::Message;
use krb_record::{Form, principal_text, time_text};
use krb_scan::Scanner;
use krb_values::{
    ParseFault, frame, message_in, message_line, parse, parse_method_data, parse_ticket, ticket_of,
};
use std::alloc::Global;

/// The arguments of the calls.
#[derive(Clone, Copy)]
pub(super) struct Given<'a> {
    /// An AP-REP.
    pub(super) frame: &'a Framed<'a>,
    pub(super) message: &'a Message,
    pub(super) keytab: &'a Keytab,
    pub(super) cache: &'a Ccache,
}

/// A call that returns a text.
#[derive(Clone, Copy)]
pub(super) enum Text {
    Message,
    Keytab,
    Record,
    KeytabEnd,
    Principal,
    Time,
    Caches,
    Cache,
    CacheEnd,
    Credential,
    Hint(Hint),
}

/// A call that returns octets.
#[derive(Clone, Copy)]
pub(super) enum Encoding {
    Message,
    Frame,
    Keytab,
    Cache,
}

/// A call that returns a value of octets.
#[derive(Clone, Copy)]
pub(super) enum Reading {
    Framed,
    Message,
    Ticket,
    MethodData,
    Keytab,
    Cache,
    TicketState,
    Input(&'static [u8]),
    Line(&'static [u8]),
}

/// A call that allocates.
#[derive(Clone, Copy)]
pub(super) enum Call {
    Feed(usize),
    Reserved(Profile, usize),
    ReservedAnswers(u32, &'static [u8], Status),
    Step,
    Reserve,
    Read(Reading),
    Encode(Encoding),
    Text(Text, &'static str),
    Convert(Conversion),
    Lines,
    Upgrade,
    Records,
    Credentials,
    Capture(Form, &'static [u8], &'static str),
    Fragments,
    Direction,
}

/// Each call with its name, and with what it has to return.
pub(super) const CALLS: [(&str, Call); 64] = [
    ("feed", Call::Feed(1)),
    ("feed", Call::Feed(7)),
    ("feed", Call::Feed(100)),
    ("Decoder::reserved", Call::Reserved(Profile::Lenient, 1)),
    ("Decoder::reserved", Call::Reserved(Profile::Lenient, 7)),
    ("Decoder::reserved", Call::Reserved(Profile::Lenient, 100)),
    (
        "Decoder::reserved_with_profile",
        Call::Reserved(Profile::Strict, 1),
    ),
    (
        "Decoder::reserved_with_profile",
        Call::Reserved(Profile::Strict, 7),
    ),
    (
        "Decoder::reserved_with_profile",
        Call::Reserved(Profile::Strict, 100),
    ),
    (
        "Decoder::reserved",
        Call::ReservedAnswers(
            30,
            AP_REP,
            Status::Refused(Refusal {
                place: 3,
                why: Why::TooLong,
            }),
        ),
    ),
    (
        "Decoder::reserved",
        Call::ReservedAnswers(
            1,
            b"\x00\x00\x00\x01\x6F",
            Status::Refused(Refusal {
                place: 4,
                why: Why::Overrun,
            }),
        ),
    ),
    ("step", Call::Step),
    ("reserve", Call::Reserve),
    ("message_in", Call::Read(Reading::Framed)),
    ("parse", Call::Read(Reading::Message)),
    ("parse_ticket", Call::Read(Reading::Ticket)),
    ("parse_method_data", Call::Read(Reading::MethodData)),
    ("encode", Call::Encode(Encoding::Message)),
    ("frame", Call::Encode(Encoding::Frame)),
    (
        "message_line",
        Call::Text(
            Text::Message,
            "KRB-ERROR code=25:KDC_ERR_PREAUTH_REQUIRED client=- server=h@A ctime=- cusec=- stime=20000101000000Z susec=0 text=- data=13 methods=[2] notes=[]",
        ),
    ),
    ("put_text", Call::Convert(Conversion::PutText)),
    (
        "unencrypted_path",
        Call::Convert(Conversion::UnencryptedPath),
    ),
    ("read_line", Call::Convert(Conversion::ReadLine)),
    ("read_line", Call::Convert(Conversion::ReadFault)),
    ("run_decode", Call::Convert(Conversion::Decode)),
    (
        "run_decode_unframed",
        Call::Convert(Conversion::DecodeUnframed),
    ),
    ("run_encode", Call::Convert(Conversion::Encode)),
    (
        "run_encode_unframed",
        Call::Convert(Conversion::EncodeUnframed),
    ),
    ("run_lines_in", Call::Lines),
    ("read_input", Call::Read(Reading::Input(AP_REP))),
    ("read_input", Call::Read(Reading::Input(b"6f 1d"))),
    (
        "read_input",
        Call::Read(Reading::Input(b"0000  6f 1d\n0002\n")),
    ),
    ("read_input", Call::Read(Reading::Input(b"{0x6f, 0x1d}"))),
    ("read_input", Call::Read(Reading::Input(b"\\x6f\\x1d"))),
    ("read_input", Call::Read(Reading::Input(b"6f:1d"))),
    ("read_input", Call::Read(Reading::Input(b"Negotiate bx0="))),
    ("krb_input::read_line", Call::Read(Reading::Line(b"bx0="))),
    (
        "Hint::text",
        Call::Text(
            Text::Hint(Hint::Gzip),
            "this is a gzip file: zcat x | krbls capture -",
        ),
    ),
    (
        "Hint::text",
        Call::Text(Text::Hint(Hint::Keytab), "this is a keytab: krbls keytab x"),
    ),
    (
        "Hint::text",
        Call::Text(
            Text::Hint(Hint::Snoop),
            "this is a snoop capture: editcap -F pcap x - | krbls capture -",
        ),
    ),
    (
        "Hint::text",
        Call::Text(
            Text::Hint(Hint::Pem),
            "this is PEM, which holds certificates or keys and no Kerberos",
        ),
    ),
    ("krb_files::keytab::read", Call::Read(Reading::Keytab)),
    ("krb_files::keytab::write", Call::Encode(Encoding::Keytab)),
    (
        "keytab_lines",
        Call::Text(
            Text::Keytab,
            "{\"kind\":\"entry\",\"principal\":{\"text\":\"h@A\",\"type\":1,\"type_name\":\"NT-PRINCIPAL\",\"components\":[\"h\"],\"realm\":\"A\"},\"type\":1,\"type_name\":\"NT-PRINCIPAL\",\"time\":\"2000-01-01T00:00:00Z\",\"kvno\":258,\"enctype\":18,\"enctype_name\":\"aes256-cts-hmac-sha1-96\",\"key\":2,\"rest\":4}\n{\"kind\":\"hole\",\"size\":8,\"clean\":true}\n{\"kind\":\"end\",\"records\":2,\"zero\":true}\n",
        ),
    ),
    (
        "record_line",
        Call::Text(
            Text::Record,
            "entry principal=h@A type=1:NT-PRINCIPAL time=2000-01-01T00:00:00Z kvno=258 enctype=18:aes256-cts-hmac-sha1-96 key=2 rest=4",
        ),
    ),
    (
        "keytab_end_line",
        Call::Text(Text::KeytabEnd, "end records=2 zero=yes"),
    ),
    ("principal_text", Call::Text(Text::Principal, "h@A")),
    ("time_text", Call::Text(Text::Time, "2000-01-01T00:00:00Z")),
    ("krb_files::ccache::read", Call::Read(Reading::Cache)),
    ("krb_files::ccache::write", Call::Encode(Encoding::Cache)),
    (
        "ccache_lines",
        Call::Text(
            Text::Caches,
            "{\"kind\":\"cache\",\"principal\":{\"text\":\"u@A\",\"type\":1,\"type_name\":\"NT-PRINCIPAL\",\"components\":[\"u\"],\"realm\":\"A\"},\"type\":1,\"type_name\":\"NT-PRINCIPAL\",\"offset\":{\"seconds\":0,\"microseconds\":0},\"fields\":1}\n{\"kind\":\"config\",\"client\":{\"text\":\"u@A\",\"type\":1,\"type_name\":\"NT-PRINCIPAL\",\"components\":[\"u\"],\"realm\":\"A\"},\"server\":{\"text\":\"krb5_ccache_conf_data/pa_type@X-CACHECONF:\",\"type\":0,\"type_name\":\"NT-UNKNOWN\",\"components\":[\"krb5_ccache_conf_data\",\"pa_type\"],\"realm\":\"X-CACHECONF:\"},\"size\":1,\"value\":\"2\"}\n{\"kind\":\"cred\",\"client\":{\"text\":\"u@A\",\"type\":1,\"type_name\":\"NT-PRINCIPAL\",\"components\":[\"u\"],\"realm\":\"A\"},\"server\":{\"text\":\"h@A\",\"type\":2,\"type_name\":\"NT-SRV-INST\",\"components\":[\"h\"],\"realm\":\"A\"},\"enctype\":18,\"enctype_name\":\"aes256-cts-hmac-sha1-96\",\"key\":2,\"auth\":\"2000-01-01T00:00:00Z\",\"start\":\"2000-01-01T00:00:00Z\",\"end\":\"2000-01-01T01:00:00Z\",\"renew\":null,\"skey\":0,\"flags\":{\"bits\":32,\"hex\":\"40e10000\",\"names\":[\"forwardable\",\"renewable\",\"initial\",\"pre-authent\",\"enc-pa-rep\"]},\"state\":null,\"addresses\":0,\"authdata\":0,\"ticket\":{\"refused\":{\"place\":1,\"why\":6,\"why_name\":\"Indefinite\"}},\"tserver\":null,\"second\":0}\n{\"kind\":\"end\",\"credentials\":2}\n",
        ),
    ),
    (
        "cache_line",
        Call::Text(
            Text::Cache,
            "cache principal=u@A type=1 offset=0:0 fields=1",
        ),
    ),
    (
        "cache_end_line",
        Call::Text(Text::CacheEnd, "end credentials=2"),
    ),
    (
        "credential_line",
        Call::Text(
            Text::Credential,
            "cred client=u@A server=h@A enctype=18:aes256-cts-hmac-sha1-96 key=2 auth=2000-01-01T00:00:00Z start=2000-01-01T00:00:00Z end=2000-01-01T01:00:00Z renew=- skey=0 flags=forwardable,renewable,initial,pre-authent,enc-pa-rep state=- addresses=0 authdata=0 ticket=refused:1:6:Indefinite tserver=- second=0",
        ),
    ),
    ("ticket_of", Call::Read(Reading::TicketState)),
    ("read3 and upgrade", Call::Upgrade),
    ("next_record", Call::Records),
    ("start and next_credential", Call::Credentials),
    (
        "next_packet, Capture::take and Capture::finish",
        Call::Capture(
            Form::Lines,
            OUT_OF_ORDER,
            "packet=3 t=2000-01-01T00:00:03.000005000Z flow=tcp/127.0.0.1:40000>127.0.0.1:88 unread place=20 octets=15 why=6 Differs\npacket=4 t=2000-01-01T00:00:04.000005000Z flow=tcp/127.0.0.1:40000>127.0.0.1:88 AP-REP enc=18:-:4 notes=[]\npacket=6 t=2000-01-01T00:00:06.000005000Z flow=tcp/127.0.0.1:40000>127.0.0.1:88 unread place=34 octets=1 why=6 Differs\nend packets=7 messages=1 refused=0 lost=0 unread=2\n",
        ),
    ),
    (
        "next_packet, Capture::take and Capture::finish",
        Call::Capture(
            Form::Json,
            FRAGMENTS,
            "{\"kind\":\"AP-REP\",\"packet\":4,\"t\":\"2000-01-01T00:00:04.000005000Z\",\"flow\":{\"over\":\"udp\",\"source\":{\"address\":\"127.0.0.1\",\"port\":40000},\"target\":{\"address\":\"127.0.0.1\",\"port\":88}},\"enc\":{\"etype\":18,\"etype_name\":\"aes256-cts-hmac-sha1-96\",\"kvno\":null,\"size\":4},\"notes\":[],\"notes_names\":[],\"t_us\":946684804000005}\n{\"kind\":\"end\",\"packets\":8,\"messages\":1,\"refused\":0,\"lost\":0,\"unread\":4,\"answered\":0,\"unanswered\":0,\"again\":0,\"unreachable\":0}\n",
        ),
    ),
    (
        "next_packet, Capture::take and Capture::finish",
        Call::Capture(
            Form::NamedLines,
            ANSWERED,
            "packet=5 t=2026-11-18T11:06:40.255000000Z flow=tcp/10.0.0.1:40001>10.0.0.8:88 again=- AS-REQ realm=A client=a@A server=krbtgt/A@A options=32:00000000:- from=- till=20261130070000Z rtime=- nonce=1 etypes=[18:aes256-cts-hmac-sha1-96] padata=- addresses=- authdata=- tickets=- notes=[] inside=0\npacket=10 t=2026-11-18T11:06:40.260000000Z flow=tcp/10.0.0.1:40001>10.0.0.8:88 unanswered request=AS-REQ of=5 after=0.005000 waited=0.005000\nend packets=10 messages=1 refused=0 lost=0 unread=0 answered=0 unanswered=1 again=0 unreachable=0\n",
        ),
    ),
    (
        "next_packet, Capture::take and Capture::refuse",
        Call::Capture(
            Form::NamedLines,
            CUT,
            "packet=1 t=2000-01-01T00:00:01.000005000Z flow=udp/127.0.0.1:40000>127.0.0.1:88 AP-REP enc=18:aes256-cts-hmac-sha1-96:-:4 notes=[]\nrefused packets=1 messages=1 refused=0 lost=0 unread=0 place=115 why=3 Truncated in=packet at=115 length=- answered=0 unanswered=0 again=0 unreachable=0\n",
        ),
    ),
    ("Fragments::take", Call::Fragments),
    ("Direction::take", Call::Direction),
];

/// Returns what a call returned, `None` for a refusal, or `Memory` if its fault is `memory`.
fn tried<T, E: PartialEq + Drop>(answer: Result<T, E>, memory: E) -> Result<Option<T>, Memory> {
    match answer {
        Ok(value) => Ok(Some(value)),
        Err(fault) if fault == memory => Err(Memory),
        Err(_) => Ok(None),
    }
}

impl Text {
    fn make(self, alloc: Global, given: Given<'_>) -> Result<String, Memory> {
        let cache = given.cache;
        match (
            self,
            given.keytab.records.as_slice(),
            cache.credentials.as_slice(),
        ) {
            (Text::Message, ..) => message_line(alloc, Form::Lines, given.message),
            (Text::Keytab, ..) => keytab_lines(alloc, Form::Json, given.keytab),
            (Text::Record, [record, ..], _) => record_line(alloc, Form::NamedLines, record),
            (Text::KeytabEnd, ..) => keytab_end_line(alloc, Form::Lines, 2, &Stop::Zero),
            (Text::Principal, [Record::Entry(entry), ..], _) => {
                principal_text(alloc, entry.components.as_slice(), &entry.realm)
            }
            (Text::Time, ..) => time_text(alloc, 946684800),
            (Text::Caches, ..) => ccache_lines(alloc, Form::Json, cache, None),
            (Text::Cache, ..) => cache_line(alloc, Form::Lines, &cache.header, &cache.principal),
            (Text::CacheEnd, ..) => cache_end_line(alloc, Form::Lines, 2),
            (Text::Credential, _, [_, credential]) => credential_line(
                alloc,
                Form::NamedLines,
                credential,
                None,
            ),
            (Text::Hint(hint), ..) => Ok(hint.text(alloc, Some("capture"), "x")?),
            _ => Ok(String::new(alloc)),
        }
    }
}

impl Encoding {
    fn wanted(self) -> &'static [u8] {
        match self {
            Encoding::Message => message_of(KRB_ERROR),
            Encoding::Frame => KRB_ERROR,
            Encoding::Keytab => KEYTAB,
            Encoding::Cache => CACHE,
        }
    }

    /// Returns the octets that the call returns, or `None` if it refuses.
    fn make(self, alloc: Global, given: Given<'_>) -> Result<Option<Vec<u8>>, Memory> {
        match self {
            Encoding::Message => tried(encode(alloc, given.message), EncodeFault::Memory),
            Encoding::Frame => tried(
                frame(alloc, given.message, Limit::DEFAULT),
                EncodeFault::Memory,
            ),
            Encoding::Keytab => tried(
                krb_files::keytab::write(alloc, given.keytab),
                KeytabFault::Memory,
            ),
            Encoding::Cache => tried(
                krb_files::ccache::write(alloc, given.cache),
                CcacheFault::Memory,
            ),
        }
    }
}

/// Returns whether a call returned a value, which is dropped, or `Memory` if its fault is `memory`.
fn is_returned<T: Drop, E: PartialEq + Drop>(
    answer: Result<T, E>,
    memory: E,
) -> Result<bool, Memory> {
    Ok(tried(answer, memory)?.is_some())
}

impl Reading {
    /// Returns whether the call returns a value.
    fn make(self, alloc: Global, given: Given<'_>) -> Result<bool, Memory> {
        match self {
            Reading::Framed => is_returned(message_in(alloc, given.frame), Memory),
            Reading::Message => {
                is_returned(parse(alloc, message_of(KRB_ERROR)), ParseFault::Memory)
            }
            Reading::Ticket => is_returned(parse_ticket(alloc, TICKET), ParseFault::Memory),
            Reading::MethodData => {
                is_returned(parse_method_data(alloc, METHOD_DATA), ParseFault::Memory)
            }
            Reading::Keytab => {
                is_returned(krb_files::keytab::read(alloc, KEYTAB), FileFault::Memory)
            }
            Reading::Cache => is_returned(krb_files::ccache::read(alloc, CACHE), FileFault::Memory),
            Reading::TicketState => is_refused(alloc, given.cache),
            Reading::Input(input) => is_returned(read_input(alloc, input), InputFault::Memory),
            Reading::Line(line) => {
                is_returned(krb_input::read_line(alloc, line), InputFault::Memory)
            }
        }
    }
}

/// Returns whether the ticket of the last credential is refused.
fn is_refused(alloc: Global, cache: &Ccache) -> Result<bool, Memory> {
    let [_, credential] = cache.credentials.as_slice() else {
        return Ok(false);
    };
    match ticket_of(alloc, credential)? {
        TicketState::Refused(_) => Ok(true),
        TicketState::Ticket(ticket) => {
            drop(ticket);
            Ok(false)
        }
        TicketState::Absent | TicketState::Config => Ok(false),
    }
}

impl Call {
    /// Returns whether the call, made once, returns what it has to return. It is a call that may be
    /// made again after it was out of memory.
    fn make(self, alloc: Global, given: Given<'_>) -> Result<bool, Memory> {
        match self {
            Call::Reserved(profile, at_most) => reserved_feeds(alloc, profile, at_most),
            Call::ReservedAnswers(limit, octets, status) => {
                reserved_answers(alloc, limit, octets, status)
            }
            Call::Read(reading) => reading.make(alloc, given),
            Call::Encode(encoding) => {
                Ok(encoding.make(alloc, given)?.as_deref() == Some(encoding.wanted()))
            }
            Call::Text(text, wanted) => Ok(text.make(alloc, given)?.as_str() == wanted),
            Call::Convert(conversion) => conversion.make(alloc),
            Call::Lines => lists_lines(alloc),
            _ => Ok(false),
        }
    }

    /// Returns how the call ends.
    pub(super) fn outcome(self, alloc: Global, given: Given<'_>) -> Outcome {
        match self {
            Call::Feed(at_most) => {
                let mut decoder = Decoder::new(alloc, Limit::DEFAULT);
                fed_twice(&mut decoder, at_most)
            }
            Call::Step => {
                let mut scanner = Scanner::new(alloc, 31);
                stepped_over(&mut scanner)
            }
            Call::Reserve => reserves(alloc),
            Call::Upgrade => upgrades(alloc),
            Call::Records => records(alloc),
            Call::Credentials => credentials(alloc),
            Call::Capture(form, octets, wanted) => lists(alloc, form, octets, wanted),
            Call::Fragments => puts_together(alloc),
            Call::Direction => goes_on(alloc),
            _ => match self.make(alloc, given) {
                Ok(true) => Outcome::Done,
                Ok(false) => Outcome::Wrong,
                Err(_) => match self.make(alloc, given) {
                    Ok(true) => Outcome::Memory,
                    Ok(false) => Outcome::Wrong,
                    Err(_) => Outcome::Refused,
                },
            },
        }
    }
}
