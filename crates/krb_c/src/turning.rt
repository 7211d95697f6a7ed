//! Messages as lines of JSON, and lines as messages, as `krbls decode` and `krbls encode` have them.

ghost use Rattle.std.specs.Prelude.{◌≡◌, ◌++◌, IfOk, OnOk};
ghost use Rattle.krb_input.specs.Sources.{command_for};
ghost use Rattle.krb_c.specs.Numbers.{goes_on, limit_of, now_of, port_of, profile_of};
ghost use Rattle.krb_c.specs.Turned.{IsCaptureDecoded, IsDecoded, IsDecodedAs, IsEncoded, IsKeytabTold, IsSorted, IsStreamDecoded, IsStreamDecodedOn, framing_of, told_end};
ghost use Rattle.krb_c.specs.Written.{IsToldOf};
ghost use Rattle.krb_c.specs.inner.Sorting.{begun_after, is_of_message, of_lines, of_said};
ghost use Rattle.krb_decode.specs.Caches.{decoded_cache};
ghost use Rattle.krb_decode.specs.Given.{decoded_given};

use crate::numbers::{goes_on, limit_of, now_of, port_of, profile_of};
use crate::writing::{Told, answer_told};
use krb_capture_run::run_decode_capture;
use krb_convert::{encode, put_decode_end, put_encode_end, run_decode};
use krb_decode::{decode_given, keytab_text, run_decode_ccache, run_decode_stream};
use krb_input::{SourceKind, kind_of};
use krb_record::TextBuffer;
use krb_run::{RunEnd, RunFault};
use krb_tool::{Limit, Profile};
use krb_words::Framing;
use std::alloc::{AllocError, Global};

/// Returns how messages are written: 0 is each after its length, and any other number one without.
fn framing_of(number: u32) -> Framing
    ensures { result ≡ framing_of number }
{
    if number == 0 {
        Framing::Framed
    } else {
        Framing::Unframed
    }
}

/// Returns the messages that lines spell, and why that ended before all of them.
fn encoded(
    alloc: Global,
    framing: Framing,
    profile: Profile,
    limit: Limit,
    lines: &[u8],
) -> Result<Told, RunFault>
    ensures { IfOk result (λ made. IsEncoded framing profile limit lines.now made.text.items made.said.items made.end) }
{
    let mut reader = lines;
    let mut text = Vec::new(alloc);
    let ended = encode(alloc, framing, profile, &mut reader, &mut text, limit)?;
    let mut line = TextBuffer::new(alloc);
    put_encode_end(&mut line, &ended)?;
    let said = line.into_string().into_bytes();
    let end = ended.run_end();
    Ok(Told { text, said, end })
}

/// Returns the lines of the messages of a stream, and why that ended before all of them.
fn stream_decoded(
    alloc: Global,
    profile: Profile,
    limit: Limit,
    octets: &[u8],
) -> Result<Told, RunFault>
    ensures { IfOk result (λ made. IsStreamDecoded profile limit octets.now made.text.items made.said.items made.end) }
{
    let mut reader = octets;
    let mut text = Vec::new(alloc);
    let ended = run_decode(alloc, profile, &mut reader, &mut text, limit)?;
    let mut line = TextBuffer::new(alloc);
    put_decode_end(&mut line, Framing::Framed, &ended)?;
    let said = line.into_string().into_bytes();
    let end = ended.run_end();
    Ok(Told { text, said, end })
}

/// Returns the line of a message, a Ticket or a token, and what is said of what has none.
fn message_decoded(alloc: Global, profile: Profile, octets: &[u8]) -> Result<Told, RunFault>
    ensures { IfOk result (λ made. IsDecodedAs (decoded_given profile octets.now) made.text.items made.said.items made.end) }
{
    let made = decode_given(alloc, profile, octets)?;
    Ok(Told {
        text: made.lines,
        said: made.end.said,
        end: made.end.end,
    })
}

/// Returns the tickets of a credential cache, and what is said of credentials without one.
fn cache_decoded(alloc: Global, octets: &[u8]) -> Result<Told, RunFault>
    ensures { IfOk result (λ made. IsDecodedAs (decoded_cache octets.now) made.text.items made.said.items made.end) }
{
    let mut reader = octets;
    let mut text = Vec::new(alloc);
    let mut said = TextBuffer::new(alloc);
    let end = run_decode_ccache(alloc, &mut reader, &mut text, &mut said)?;
    let said = said.into_string().into_bytes();
    Ok(Told { text, said, end })
}

/// Returns how a run ends that was refused at once, or of which something is said, or nothing.
fn told_end(end: RunEnd, said: &[u8]) -> RunEnd
    ensures { result ≡ told_end end said.now }
{
    if end == RunEnd::RefusedAtOnce {
        RunEnd::RefusedAtOnce
    } else if said.is_empty() {
        RunEnd::Clean
    } else {
        RunEnd::Refused
    }
}

/// Returns whether an octet is of a line of a message: of a line that has begun that is known, and of
/// one that begins with it if it is a brace.
fn is_of_message(begun: Option<bool>, octet: u8) -> bool
    ensures { result ≡ is_of_message begun octet }
{
    begun.unwrap_or(octet == b'{')
}

/// Returns what is known of a line that an octet may end.
fn begun_after(of_message: bool, octet: u8) -> Option<bool>
    ensures { result ≡ begun_after of_message octet }
{
    if octet == b'\n' {
        None
    } else {
        Some(of_message)
    }
}

/// Adds an octet of a line of a message, or of one that is said.
fn put_octet(
    of_message: bool,
    octet: u8,
    lines: &mut Vec<u8>,
    said: &mut Vec<u8>,
) -> Result<(), AllocError>
    ensures lines { OnOk result (lines.new.items ≡ lines.old.items ++ of_lines of_message octet) }
    ensures said { OnOk result (said.new.items ≡ said.old.items ++ of_said of_message octet) }
{
    if of_message {
        lines.push(octet)?;
    } else {
        said.push(octet)?;
    }
    Ok(())
}

/// Returns the lines of a text that begin with a brace, as those of messages do, and the others, which
/// are said.
fn sorted(alloc: Global, text: &[u8], end: RunEnd) -> Result<Told, AllocError>
    ensures { IfOk result (λ made. IsSorted text.now end made.text.items made.said.items made.end) }
{
    let mut lines = Vec::new(alloc);
    let mut said = Vec::new(alloc);
    let mut begun = None;
    let mut rest = text;
    'octets: while let [octet, others @ ..] = rest {
        let of_message = is_of_message(begun, *octet);
        put_octet(of_message, *octet, &mut lines, &mut said)?;
        begun = begun_after(of_message, *octet);
        rest = others;
    }
    let end = told_end(end, said.as_slice());
    Ok(Told {
        text: lines,
        said,
        end,
    })
}

/// Returns the lines of the messages of a stream that goes on after what is refused, and what is said.
fn stream_decoded_on(
    alloc: Global,
    profile: Profile,
    limit: Limit,
    octets: &[u8],
) -> Result<Told, RunFault>
    ensures { IfOk result (λ made. IsStreamDecodedOn profile limit octets.now made.text.items made.said.items made.end) }
{
    let mut reader = octets;
    let mut text = Vec::new(alloc);
    let end = run_decode_stream(alloc, profile, &mut reader, &mut text, limit)?;
    Ok(sorted(alloc, text.as_slice(), end)?)
}

/// Returns what is said of a keytab, which has no messages.
fn keytab_told(alloc: Global) -> Result<Told, RunFault>
    ensures { IfOk result (λ made. IsKeytabTold made.text.items made.said.items made.end) }
{
    let mut line = keytab_text(alloc, "-")?;
    line.push_str("\n")?;
    Ok(Told {
        text: Vec::new(alloc),
        said: line.into_bytes(),
        end: RunEnd::Refused,
    })
}

/// Which of the messages of octets are decoded.
#[derive(Clone, Copy)]
struct Options {
    profile: Profile,
    limit: Limit,
    goes_on: bool,
    port: u16,
    packet: Option<u32>,
}

/// Returns the lines of the messages of a capture, or of one of its packets, and what is said.
fn capture_decoded(alloc: Global, options: &Options, octets: &[u8]) -> Result<Told, RunFault>
    ensures { IfOk result (λ made. IsCaptureDecoded options.now octets.now made.text.items made.said.items made.end) }
{
    let Options {
        profile,
        limit,
        port,
        packet,
        ..
    } = *options;
    let mut reader = octets;
    let mut text = Vec::new(alloc);
    let end = run_decode_capture(alloc, profile, &mut reader, &mut text, limit, port, packet)?;
    Ok(sorted(alloc, text.as_slice(), end)?)
}

/// Returns the lines of the messages of octets, by what their first octets say that they are.
fn decoded(alloc: Global, options: &Options, octets: &[u8]) -> Result<Told, RunFault>
    ensures { IfOk result (λ made. IsDecoded options.now octets.now made.text.items made.said.items made.end) }
{
    let Options { profile, limit, .. } = *options;
    match kind_of(octets) {
        SourceKind::Message => message_decoded(alloc, profile, octets),
        SourceKind::Keytab => keytab_told(alloc),
        SourceKind::Ccache => cache_decoded(alloc, octets),
        SourceKind::Capture => capture_decoded(alloc, options, octets),
        SourceKind::Stream if options.goes_on => stream_decoded_on(alloc, profile, limit, octets),
        SourceKind::Stream => stream_decoded(alloc, profile, limit, octets),
    }
}

/// Decodes octets, as `krbls decode` does: writes a line of JSON for each message of what the first
/// octets say that they are, and says what is left out, each in a line. Of a capture it takes the
/// messages of one packet, unless `packet` is 0.
#[unsafe(no_mangle)]
pub extern "C" fn krbls_decode(
    alloc: Global,
    profile: u32,
    limit: u32,
    going_on: u32,
    port: u16,
    packet: u32,
    octets: &[u8],
    text: &mut [u8],
    size: &mut usize,
    said: &mut [u8],
    said_size: &mut usize,
) -> u32
    ensures { IsToldOf (IsDecoded (record { profile = profile_of profile; limit = limit_of limit; goes_on = goes_on going_on; port = port_of port; packet = now_of packet }) octets.now) (record { before = text.old; after = text.new; size_before = size.old; size_after = size.new }) (record { before = said.old; after = said.new; size_before = said_size.old; size_after = said_size.new }) result }
{
    let options = Options {
        profile: profile_of(profile),
        limit: limit_of(limit),
        goes_on: goes_on(going_on),
        port: port_of(port),
        packet: now_of(packet),
    };
    let made = decoded(alloc, &options, octets);
    answer_told(made, text, size, said, said_size)
}

/// Encodes the messages that lines of JSON spell, as `krbls encode` does: writes each after its
/// length, or, unless `unframed` is 0, the one message without it, and says in a line which one is at
/// fault, where and why.
#[unsafe(no_mangle)]
pub extern "C" fn krbls_encode(
    alloc: Global,
    profile: u32,
    limit: u32,
    unframed: u32,
    lines: &[u8],
    octets: &mut [u8],
    size: &mut usize,
    said: &mut [u8],
    said_size: &mut usize,
) -> u32
    ensures { IsToldOf (IsEncoded (framing_of unframed) (profile_of profile) (limit_of limit) lines.now) (record { before = octets.old; after = octets.new; size_before = size.old; size_after = size.new }) (record { before = said.old; after = said.new; size_before = said_size.old; size_after = said_size.new }) result }
{
    let made = encoded(
        alloc,
        framing_of(unframed),
        profile_of(profile),
        limit_of(limit),
        lines,
    );
    answer_told(made, octets, size, said, said_size)
}
