//! Where the octets lie of what is listed.

ghost use Rattle.std.specs.Prelude.{◌≡◌, ◌+◌, ◌<◌, ◌^◌, [], true, if◌then◌else◌, length, IfOk, MatchResult, OnOk};
ghost use Rattle.krb_input.specs.Sources.{command_for};
ghost use Rattle.krb_judge.specs.Parses.{refusal_of, ticket_refusal};
ghost use Rattle.krb_c.specs.Spans.{message_spans, refused_up_to, unless_refused, up_to};
ghost use Rattle.krb_c.specs.Numbers.{goes_on, limit_of, port_of, profile_of};
ghost use Rattle.krb_c.specs.Spanned.{AreGiven, AreSpans};
ghost use Rattle.krb_c.specs.Written.{IsCopied, WroteNothing};
ghost use Rattle.krb_c.specs.inner.Adding.{Adds, spanned};

use crate::capture_spans::put_capture;
use crate::file_spans::{put_ccache, put_keytab};
use crate::frame_spans::put_stream;
use crate::numbers::{goes_on, limit_of, port_of, profile_of};
use crate::writing::{MEMORY, copy_out};
use krb_input::{SourceKind, kind_of};
use krb_judge::{Profile, read_message_in, read_ticket_in};
use krb_run::RunFault;
use krb_token::{Found, open};
use krb_tool::Limit;
use std::alloc::{AllocError, Global};

/// The greatest number of octets of a message.
const MOST_OCTETS: usize = 2147483647;

/// Where the octets lie of records, in order.
#[derive(Drop)]
pub(crate) struct Spans {
    /// For each the place of the first octet, and how many there are.
    pub(crate) numbers: Vec<u64>,
    /// Whether nothing is refused, or of a capture lost or unread.
    pub(crate) is_clean: bool,
}

impl Spans {
    /// Returns none.
    fn new(alloc: Global) -> Spans
        ensures numbers { result.numbers.items ≡ [] }
        ensures clean { result.is_clean ≡ true }
    {
        Spans {
            numbers: Vec::new(alloc),
            is_clean: true,
        }
    }

    /// Adds the octets from a place up to an end.
    pub(crate) fn put(&mut self, begin: usize, end: usize) -> Result<(), AllocError>
        ensures { OnOk result (Adds (up_to begin end) self.old self.new) }
    {
        self.numbers.push(begin as u64)?;
        self.numbers.push(end.saturating_sub(begin) as u64)?;
        Ok(())
    }

    /// Adds octets that are refused, from a place up to an end.
    pub(crate) fn put_refused(&mut self, begin: usize, end: usize) -> Result<(), AllocError>
        ensures { OnOk result (Adds (refused_up_to begin end) self.old self.new) }
    {
        self.is_clean = false;
        self.put(begin, end)
    }
}

/// Adds the octets that are a message, of which the first is at a place, or, if they are refused, all.
fn put_part(
    spans: &mut Spans,
    profile: Profile,
    begin: usize,
    part: &[u8],
    all: usize,
) -> Result<(), AllocError>
    requires { begin < 2 ^ 32 }
    ensures { OnOk result (Adds (unless_refused (refusal_of profile part.now) begin (begin + length part.now) all) spans.old spans.new) }
{
    match read_message_in(profile, part) {
        Ok(_view) => spans.put(begin, begin + part.len()),
        Err(_refusal) => spans.put_refused(0, all),
    }
}

/// Adds the octets of a Ticket, as which they may be refused.
fn put_ticket(spans: &mut Spans, profile: Profile, octets: &[u8]) -> Result<(), AllocError>
    ensures { OnOk result (Adds (unless_refused (ticket_refusal profile octets.now) 0 (length octets.now) (length octets.now)) spans.old spans.new) }
{
    match read_ticket_in(profile, octets) {
        Ok(_view) => spans.put(0, octets.len()),
        Err(_refusal) => spans.put_refused(0, octets.len()),
    }
}

/// Adds the octets of the message or the Ticket that octets are, or that lies in a token; or, if they
/// are refused, all.
#[tactic(auto, unfolding(crate::specs::Spans::message_spans))]
fn put_message(spans: &mut Spans, profile: Profile, octets: &[u8]) -> Result<(), AllocError>
    ensures { OnOk result (Adds (message_spans profile octets.now) spans.old spans.new) }
{
    if octets.len() > MOST_OCTETS {
        return spans.put_refused(0, octets.len());
    }
    match open(octets).found {
        Found::Message {
            place,
            octets: part,
        } => put_part(spans, profile, place as usize, part, octets.len()),
        Found::Ticket(_) => put_ticket(spans, profile, octets),
        Found::Ntlm { .. } | Found::Refused { .. } => spans.put_refused(0, octets.len()),
    }
}

/// Adds where the octets lie of the records of octets, by what their first octets say that they are,
/// to none.
fn put_all(
    alloc: Global,
    spans: &mut Spans,
    profile: Profile,
    limit: Limit,
    goes_on: bool,
    port: u16,
    octets: &[u8],
) -> Result<(), RunFault>
    requires none { spans.old.numbers.items ≡ [] }
    requires clean { spans.old.is_clean ≡ true }
    ensures { OnOk result (AreSpans profile limit goes_on port octets.now (spanned spans.new)) }
{
    match kind_of(octets) {
        SourceKind::Stream => {
            put_stream(spans, profile, limit, goes_on, octets)?;
            Ok(())
        }
        SourceKind::Message => {
            put_message(spans, profile, octets)?;
            Ok(())
        }
        SourceKind::Keytab => put_keytab(alloc, spans, octets),
        SourceKind::Ccache => put_ccache(alloc, spans, octets),
        SourceKind::Capture => put_capture(alloc, spans, profile, limit, port, octets),
    }
}

/// Returns where the octets lie of the records of octets.
fn spans_of(
    alloc: Global,
    profile: Profile,
    limit: Limit,
    goes_on: bool,
    port: u16,
    octets: &[u8],
) -> Result<Spans, RunFault>
    ensures { IfOk result (λ found. AreSpans profile limit goes_on port octets.now (spanned found)) }
{
    let mut spans = Spans::new(alloc);
    put_all(alloc, &mut spans, profile, limit, goes_on, port, octets)?;
    Ok(spans)
}

/// Copies the numbers of spans out, and returns whether something is refused.
fn answer_spans(found: Result<Spans, RunFault>, spans: &mut [u64], size: &mut usize) -> u32
    ensures { MatchResult found (λ found. IsCopied found.numbers.items spans.old spans.new size.new × (result ≡ (if found.is_clean then 0 else 1))) (λ _. WroteNothing spans.old spans.new size.old size.new result) }
{
    match found {
        Ok(found) => {
            copy_out(found.numbers.as_slice(), spans, size);
            u32::from(!found.is_clean)
        }
        Err(_) => MEMORY,
    }
}

/// Says where the octets lie of each record that octets are listed as, by what their first octets say
/// that they are: two numbers for each, the place of the first one and how many they are.
#[unsafe(no_mangle)]
pub extern "C" fn krbls_spans(
    alloc: Global,
    profile: u32,
    limit: u32,
    going_on: u32,
    port: u16,
    octets: &[u8],
    spans: &mut [u64],
    size: &mut usize,
) -> u32
    ensures { AreGiven (AreSpans (profile_of profile) (limit_of limit) (goes_on going_on) (port_of port) octets.now) spans.old spans.new size.old size.new result }
{
    let found = spans_of(
        alloc,
        profile_of(profile),
        limit_of(limit),
        goes_on(going_on),
        port_of(port),
        octets,
    );
    answer_spans(found, spans, size)
}
