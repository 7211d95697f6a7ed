//! Examples of each library, some of which `docs/LIBRARIES.md` shows, and a program that calls each
//! of them once and prints what it returns.
//!
//! The functions are short examples and no library: a program that needs one copies it.
//! [`print_names`] and [`highest_kvno`] show a whole loop over a stream and over a file, and
//! [`ap_rep`] how a message is made.
#![tactic(auto)]

use anyhow::Result;
use krb_capture::Capture;
use krb_ccache::{Ccache, Credentials, TicketStateView, ticket_view_of};
use krb_codec::{EncodeFault, copy_message, encode};
use krb_convert::{DecodeEnd, EncodeEnd, run_decode, run_encode};
use krb_der::{Int32, KString, Many, Memory, Octets, Profile, Refusal, Verdict};
use krb_file::{Field, FieldReader, FileFault, SliceReader, String16};
use krb_file_run::run_keytab;
use krb_files::ccache::{read3, upgrade};
use krb_frame::{Decoder, Limit, SkippingDecoder, Status};
use krb_json::{LineFault, Scratch, put_text, read_line, unencrypted_path};
use krb_judge::{judge, read_ticket};
use krb_keytab::{Next, Record, Records};
use krb_msg::{
    ApRep, EncryptedData, Kind, Message, PrincipalName, next_item, view_message, view_whole,
};
use krb_packet::{Packet, Packets};
use krb_padata::{EtypeInfo2, EtypeInfo2Entry, view_pac_request};
use krb_record::{Form, Label, TextBuffer, principal_text};
use krb_registry::{Registry, name_of};
use krb_run::status;
use krb_scan::Scanner;
use krb_text::put_message_in;
use krb_values::{ParseFault, frame, message_line, parse};
use krb_words::{Command, WordsFault, read_words};
use std::alloc::{AllocError, Global};
use std::io::Read;
use std::str;

/// Returns the name of a user.
fn user(alloc: Global, name: &str) -> Result<PrincipalName, AllocError> {
    let component = KString::new(Vec::from_slice(alloc, name.as_bytes())?);
    Ok(PrincipalName {
        name_type: Int32::new(1),
        name: Many::new(vec![in alloc; component]?),
    })
}

/// Returns an AP-REP with an encrypted part of encryption type 18.
fn ap_rep(alloc: Global, encrypted: &[u8]) -> Result<Message, AllocError> {
    let cipher = Octets::new(Vec::from_slice(alloc, encrypted)?);
    let enc_part = EncryptedData {
        etype: Int32::new(18),
        kvno: None,
        cipher,
    };
    Ok(Message::ApRep(ApRep { enc_part }))
}

/// Returns the octets of a message.
fn octets_of(alloc: Global, message: &Message) -> Result<Vec<u8>, EncodeFault> {
    encode(alloc, message)
}

/// Returns the kind of the message that octets are, which are not copied, if they are one.
fn viewed_kind(octets: &[u8]) -> Option<Kind> {
    let view = view_message(octets)?;
    Some(view.kind())
}

/// Returns the message that octets are, copied out of a view of them, if they are one.
fn copied(alloc: Global, octets: &[u8]) -> Result<Option<Message>, Memory> {
    match view_message(octets) {
        Some(view) => Ok(Some(copy_message(alloc, &view)?)),
        None => Ok(None),
    }
}

/// Returns the kind of a message.
fn kind_of(alloc: Global, octets: &[u8]) -> Result<Kind, ParseFault> {
    let message = parse(alloc, octets)?;
    Ok(message.kind())
}

/// Returns whether the first octets of a message of 31 octets decide nothing yet.
fn may_go_on(present: &[u8]) -> bool {
    present.len() <= 31 && matches!(judge(31, present), Verdict::Open)
}

/// Returns the encryption type of a Ticket, which is read without copying it.
fn ticket_etype(octets: &[u8]) -> Result<i64, Refusal> {
    let ticket = read_ticket(octets)?;
    Ok(ticket.enc_part.etype)
}

/// Returns the salt for the first encryption type of an ETYPE-INFO2, if it has one.
fn first_salt(info: &[u8]) -> Option<&[u8]> {
    if info.len() > 65536 {
        return None;
    }
    let entries = view_whole::<EtypeInfo2>(info)?;
    let (entry, _) = next_item::<EtypeInfo2Entry>(entries)?;
    entry.salt
}

/// Returns the JSON of a message, and nothing if some of it is not encrypted.
fn json_of(alloc: Global, octets: &[u8]) -> Result<Vec<u8>, Memory> {
    let text = Vec::new(alloc);
    if octets.len() > 65536 || unencrypted_path(alloc, octets)?.is_some() {
        return Ok(text);
    }
    put_text(alloc, text, octets)
}

/// Returns the octets of the message that a line of JSON spells, at most 65536.
fn spelled(alloc: Global, line: &str) -> Result<Vec<u8>, LineFault> {
    let mut scratch = Scratch::new(alloc);
    read_line(
        alloc,
        &mut scratch,
        Profile::Lenient,
        65536,
        line.as_bytes(),
    )
}

/// Returns how many items are found in the first octets of a message of `size` octets.
fn items_in(alloc: Global, size: u16, present: &[u8]) -> Result<usize, Memory> {
    if size == 0 {
        return Ok(0);
    }
    let mut scanner = Scanner::new(alloc, u32::from(size));
    scanner.take(present).verdict?;
    Ok(scanner.marks().len())
}

/// Returns whether a stream begins with a message of the strict profile, of at most 65536 octets.
/// Memory is allocated before the stream is fed.
fn begins_strictly(alloc: Global, stream: &[u8]) -> Result<bool, Memory> {
    let Some(limit) = Limit::new(65536) else {
        return Ok(false);
    };
    let mut decoder = Decoder::reserved_with_profile(alloc, limit, Profile::Strict)?;
    Ok(decoder.feed(stream).status == Status::Ready)
}

/// Returns the kind of the first message of a stream, whatever frames are refused before it.
fn first_kind(alloc: Global, stream: &[u8]) -> Option<Kind> {
    let mut decoder = SkippingDecoder::new(Decoder::new(alloc, Limit::DEFAULT));
    let mut rest = stream;
    for _ in 0..u64::MAX {
        let fed = decoder.feed(rest);
        rest = &rest[fed.used..];
        match fed.status {
            Status::Ready => break,
            Status::Refused(_) if decoder.skip() => {}
            _ => return None,
        }
    }
    let frame = decoder.ready()?;
    Some(frame.kind())
}

/// Feeds a piece of the stream, and prints the name of each message that ends in it.
fn print_names(rt: &HostRuntime, decoder: &mut Decoder, piece: &[u8]) -> Result<()> {
    let mut rest = piece;
    for _ in 0..u64::MAX {
        let fed = decoder.feed(rest);
        rest = &rest[fed.used..];
        match fed.status {
            Status::More => break,
            Status::Ready => {
                if let Some(frame) = decoder.ready() {
                    let name = frame.kind().name();
                    println!(rt; "{name}")?;
                }
                decoder.next();
            }
            Status::Refused(refusal) => return Err(refusal.into()),
            Status::Memory => return Err(Memory.into()),
        }
    }
    Ok(())
}

/// Reads a number of 32 bits, and a string after the number of its octets in 16 bits.
fn number_and_string(alloc: Global, octets: &[u8]) -> Result<(u32, KString), FileFault> {
    let mut reader = SliceReader::new(octets);
    let number = reader.number32()?;
    let string = String16::read(alloc, 0, &mut reader)?;
    Ok((number, string))
}

/// Returns the highest version of a key in a keytab.
fn highest_kvno<R: Read + Drop>(alloc: Global, file: R, limit: Limit) -> Result<u32, FileFault> {
    let mut records = Records::new(file, limit);
    let mut highest = 0;
    for _ in 0..u64::MAX {
        match records.next_record(alloc)? {
            Next::Item(Record::Entry(entry)) => {
                highest = highest.max(entry.kvno());
                records.give_back(Record::Entry(entry));
            }
            Next::Item(Record::Hole(_)) => {}
            Next::Done(_) => break,
        }
    }
    Ok(highest)
}

/// Returns when the first ticket of a cache of either version expires, in seconds since 1970.
fn first_end(alloc: Global, file: &[u8], limit: Limit) -> Result<Option<u32>, FileFault> {
    let mut credentials = Credentials::start(alloc, file, limit)?;
    for _ in 0..u64::MAX {
        let Some(credential) = credentials.next_credential(alloc)? else {
            return Ok(None);
        };
        let end = credential.endtime;
        let is_ticket = matches!(ticket_view_of(&credential), TicketStateView::Ticket(_));
        credentials.give_back(credential);
        if is_ticket {
            return Ok(Some(end));
        }
    }
    Ok(None)
}

/// Returns a cache of version 3 as one of version 4, which can be written.
fn upgraded(alloc: Global, file: &[u8]) -> Result<Ccache, FileFault> {
    match upgrade(alloc, read3(alloc, file)?) {
        Ok(cache) => Ok(cache),
        Err(_) => Err(FileFault::Memory),
    }
}

/// Returns the line of a message, as `krbls` prints it.
fn line_of(alloc: Global, message: &Message) -> Result<String, Memory> {
    message_line(alloc, Form::Lines, message)
}

/// Returns the line of the message that octets are, with names and a line feed, and no text if they
/// are none. No message is made of them.
fn named_line(alloc: Global, octets: &[u8]) -> Result<TextBuffer, Memory> {
    let mut text = TextBuffer::new(alloc);
    put_message_in(&mut text, Form::NamedLines, Profile::Lenient, octets)?;
    Ok(text)
}

/// Returns the text of a user's name in a realm.
fn user_text(alloc: Global, name: &str, realm: &str) -> Result<String, Memory> {
    let user = user(alloc, name)?;
    let realm = KString::new(Vec::from_slice(alloc, realm.as_bytes())?);
    principal_text(alloc, user.name.as_slice(), &realm)
}

/// Returns the name of an encryption type, or `-` if it has none.
fn etype_name(number: i64) -> &'static str {
    name_of(Registry::EncryptionTypes, number).unwrap_or("-")
}

/// Appends the records that are due with a packet.
fn put_packet(
    capture: &mut Capture,
    packet: &Packet,
    text: &mut TextBuffer,
    records: &mut Vec<u8>,
) -> Result<(), Memory> {
    let mut rest = capture.take(packet, text)?;
    for _ in 0..u64::MAX {
        records.extend_from_slice(text.octets())?;
        text.clear();
        match rest {
            Some(left) => rest = capture.go_on(left, text)?,
            None => break,
        }
    }
    Ok(())
}

/// Appends the records of a capture, as `krbls capture` prints them, and returns whether nothing of
/// it is refused, lost or unread.
fn put_capture(
    alloc: Global,
    packets: &mut Packets<&[u8]>,
    capture: &mut Capture,
    text: &mut TextBuffer,
    records: &mut Vec<u8>,
) -> Result<bool, FileFault> {
    for _ in 0..u64::MAX {
        match packets.next_packet(alloc) {
            Ok(Some(packet)) => {
                if put_packet(capture, &packet, text, records).is_err() {
                    return Err(FileFault::Memory);
                }
                packets.give_back(packet);
            }
            Ok(None) => return capture.finish(text).or(Err(FileFault::Memory)),
            Err(fault) => return Err(fault),
        }
    }
    Ok(false)
}

/// Returns the records of a capture.
fn capture_records(alloc: Global, file: &[u8]) -> Result<Vec<u8>, FileFault> {
    let mut packets = Packets::new(file);
    let label = Label::none(Form::Lines);
    let Ok(mut capture) = Capture::new(alloc, &label, Profile::Lenient, Limit::DEFAULT, 88) else {
        return Err(FileFault::Memory);
    };
    let mut text = TextBuffer::new(alloc);
    let mut records = Vec::new(alloc);
    let clean = put_capture(alloc, &mut packets, &mut capture, &mut text, &mut records);
    drop(capture);
    drop(packets);
    clean?;
    records.extend_from_slice(text.octets())?;
    Ok(records)
}

/// Returns what `krbls keytab` prints of a file, and its status.
fn listed(alloc: Global, file: &[u8]) -> (Vec<u8>, u8) {
    let mut text = Vec::new(alloc);
    let mut reader = file;
    let outcome = run_keytab(alloc, &mut reader, &mut text);
    (text, status(&outcome))
}

/// Returns a stream as lines of JSON, and whether all of it is decoded.
fn decoded(alloc: Global, stream: &[u8]) -> (Vec<u8>, bool) {
    let mut lines = Vec::new(alloc);
    let mut reader = stream;
    let end = run_decode(
        alloc,
        Profile::Lenient,
        &mut reader,
        &mut lines,
        Limit::DEFAULT,
    );
    (lines, matches!(end, Ok(DecodeEnd::Clean)))
}

/// Returns lines of JSON as a stream, and whether all of them are encoded.
fn encoded(alloc: Global, lines: &[u8]) -> (Vec<u8>, bool) {
    let mut stream = Vec::new(alloc);
    let mut reader = lines;
    let end = run_encode(
        alloc,
        Profile::Lenient,
        &mut reader,
        &mut stream,
        Limit::DEFAULT,
    );
    (stream, matches!(end, Ok(EncodeEnd::Clean)))
}

/// Returns whether words are a command that lists a keytab.
fn is_keytab_command(alloc: Global, words: &[Vec<u8>]) -> Result<bool, WordsFault> {
    let command_line = read_words(alloc, words)?;
    Ok(matches!(command_line.command, Command::Keytab))
}

/// A stream of a frame that is refused at its contents octet, and of an AP-REP.
const STREAM: &[u8] =
    b"\x00\x00\x00\x01\x01\x00\x00\x00\x1F\x6F\x1D\x30\x1B\xA0\x03\x02\x01\x05\xA1\x03\x02\x01\x0F\xA2\x0F\x30\x0D\xA0\x03\x02\x01\x12\xA2\x06\x04\x04\x01\x02\x03\x04";

/// An ETYPE-INFO2 that Samba sent: encryption type 18, a salt, and 4096 iterations.
const ETYPE_INFO2: &[u8] =
    b"\x30\x1F\x30\x1D\xA0\x03\x02\x01\x12\xA1\x0E\x1B\x0CAD.TESTalice\xA2\x06\x04\x04\x00\x00\x10\x00";

/// A PA-PAC-REQUEST that asks for a PAC.
const PAC_REQUEST: &[u8] = b"\x30\x05\xA0\x03\x01\x01\xFF";

/// A keytab that holds a hole of two octets.
const KEYTAB: &[u8] = b"\x05\x02\xFF\xFF\xFF\xFE\x00\x00";

/// A cache of version 3 of u@A, with no credentials.
const CACHE3: &[u8] = b"\x05\x03\x00\x00\x00\x01\x00\x00\x00\x01\x00\x00\x00\x01A\x00\x00\x00\x01u";

/// A capture of a datagram that is an AP-REP.
const CAPTURE: &[u8] =
    b"\xD4\xC3\xB2\xA1\x02\x00\x04\x00\x00\x00\x00\x00\x00\x00\x00\x00\xFF\xFF\x00\x00\x65\x00\x00\x00\x81\x43\x6D\x38\x05\x00\x00\x00\x3B\x00\x00\x00\x3B\x00\x00\x00\x45\x00\x00\x3B\x00\x01\x00\x00\x40\x11\x00\x00\x7F\x00\x00\x01\x7F\x00\x00\x01\x9C\x40\x00\x58\x00\x27\x00\x00\x6F\x1D\x30\x1B\xA0\x03\x02\x01\x05\xA1\x03\x02\x01\x0F\xA2\x0F\x30\x0D\xA0\x03\x02\x01\x12\xA2\x06\x04\x04\xDE\xAD\xBE\xEF";

/// Returns whether octets are copied as a message.
fn is_copied(alloc: Global, octets: &[u8]) -> bool {
    match copied(alloc, octets) {
        Ok(copy) => {
            let is_there = copy.is_some();
            drop(copy);
            is_there
        }
        Err(_) => false,
    }
}

/// Shows what is done with messages.
fn show_messages(rt: &HostRuntime) -> Result<()> {
    let alloc = rt.alloc();
    let message = ap_rep(alloc, &[1, 2, 3, 4])?;
    let octets = octets_of(alloc, &message);
    let line = line_of(alloc, &message);
    drop(message);
    let octets = octets?;
    let kind = kind_of(alloc, octets.as_slice())?;
    println!(rt; "{} octets of an {}", octets.len(), kind.name())?;
    let same_kind = viewed_kind(octets.as_slice()) == Some(kind);
    println!(rt; "the same kind, viewed: {same_kind}")?;
    println!(rt; "copied: {}", is_copied(alloc, octets.as_slice()))?;
    println!(rt; "may go on: {}", may_go_on(&octets[..octets.len() / 2]))?;
    println!(rt; "items: {}", items_in(alloc, 31, octets.as_slice())?)?;
    if let Err(refusal) = ticket_etype(octets.as_slice()) {
        println!(rt; "no Ticket: {refusal}")?;
    }
    println!(rt; "{}", line?)?;
    let named = named_line(alloc, octets.as_slice())?;
    print!(rt; "{}", str::from_utf8(named.octets())?)?;
    let json = json_of(alloc, octets.as_slice())?;
    println!(rt; "{}", str::from_utf8(json.as_slice())?)?;
    if let Err(fault) = spelled(alloc, "{\"AP-REP\":{\"pvno\":4}}") {
        println!(rt; "no message: {fault}")?;
    }
    println!(rt; "{}", user_text(alloc, "u/v", "A")?)?;
    println!(rt; "18 is {}", etype_name(18))?;
    Ok(())
}

/// Shows what is done with pre-authentication data.
fn show_padata(rt: &HostRuntime) -> Result<()> {
    if let Some(salt) = first_salt(ETYPE_INFO2) {
        println!(rt; "salt: {}", str::from_utf8(salt)?)?;
    }
    let asks = view_pac_request(PAC_REQUEST) == Some(true);
    println!(rt; "asks for a PAC: {asks}")?;
    Ok(())
}

/// Shows what is done with a stream.
fn show_stream(rt: &HostRuntime) -> Result<()> {
    let alloc = rt.alloc();
    let message = ap_rep(alloc, &[1, 2, 3, 4])?;
    let framed = frame(alloc, &message, Limit::DEFAULT);
    drop(message);
    let framed = framed?;
    println!(rt;
        "begins strictly: {}",
        begins_strictly(alloc, framed.as_slice())?
    )?;
    let (lines, all_decoded) = decoded(alloc, framed.as_slice());
    println!(rt;
        "{} octets of JSON, all decoded: {all_decoded}",
        lines.len()
    )?;
    let (stream, all_encoded) = encoded(alloc, lines.as_slice());
    println!(rt;
        "{} octets of frames, all encoded: {all_encoded}",
        stream.len()
    )?;
    if let Some(kind) = first_kind(alloc, STREAM) {
        println!(rt; "first message: {}", kind.name())?;
    }
    let mut decoder = Decoder::new(alloc, Limit::DEFAULT);
    print_names(rt, &mut decoder, framed.as_slice())?;
    decoder.finish()?;
    Ok(())
}

/// Shows what is done with files.
fn show_files(rt: &HostRuntime) -> Result<()> {
    let alloc = rt.alloc();
    let Some(limit) = Limit::new(65536) else {
        return Ok(());
    };
    let (number, _) = number_and_string(alloc, b"\x00\x00\x00\x07\x00\x01u")?;
    println!(rt; "number: {number}")?;
    println!(rt; "highest version: {}", highest_kvno(alloc, KEYTAB, limit)?)?;
    println!(rt; "first end: {:?}", first_end(alloc, CACHE3, limit)?)?;
    let cache = upgraded(alloc, CACHE3)?;
    let count = cache.credentials.as_slice().len();
    drop(cache);
    println!(rt; "credentials: {count}")?;
    let (text, status) = listed(alloc, KEYTAB);
    println!(rt; "{} octets of lines, status {status}", text.len())?;
    let records = capture_records(alloc, CAPTURE)?;
    print!(rt; "{}", str::from_utf8(records.as_slice())?)?;
    Ok(())
}

fn main(rt: HostRuntime) -> Result<()> {
    let words = vec![in rt.alloc(); Vec::from_slice(rt.alloc(), b"keytab")?]?;
    let is_keytab = is_keytab_command(rt.alloc(), words.as_slice());
    println!(rt; "keytab: {}", matches!(is_keytab, Ok(true)))?;
    show_messages(&rt)?;
    show_padata(&rt)?;
    show_stream(&rt)?;
    show_files(&rt)
}
