//! A capture, followed packet by packet.

ghost use Rattle.std.specs.Prelude.{◌≡◌, ◌++◌, ℕ, true, List, None, Some, IfOk, IsErr, OnErr, OnOk};
ghost use Rattle.std.specs.Option.{option_copied};
ghost use Rattle.krb_packet.specs.Fragments.{nested_step, unread};
ghost use Rattle.krb_record.specs.declared.flow.Transport.TheVariants as transports;
ghost use Rattle.krb_capture.specs.Captures.{Finding, HasEnded, HasFollowed, Progress, Settings, all_counts, and_counted, at_first, completed_event, contents_event, contents_taken, datagram_taken, end_taken, end_text, error_event, failure_of, fragment_taken, happened_in, has_no_packet, header_of, is_clean, nothing_in, over_tcp, packet_told, quoted_transport, refusal_text, segment_event, segment_taken, unread_taken, whole_event, whole_taken, with_each, with_event};
ghost use Rattle.krb_capture.specs.Directions.{HoldsTable, Table, followed, last_of};
ghost use Rattle.krb_capture.specs.Ends.{IsEnded, told_in};
ghost use Rattle.krb_capture.specs.Flows.{moment_due, origin_of, service_of};
ghost use Rattle.krb_capture.specs.Found.{Sent, totals, with_found};
ghost use Rattle.krb_capture.specs.Happened.{told_at_first};
ghost use Rattle.krb_capture.specs.Labels.{label_in, of_decoding, of_records};
ghost use Rattle.krb_capture.specs.Rests.{Follows, HasFollowedBut, Lists};

use crate::datagram::list_with_surplus;
use crate::directions::{Directions, Rest};
use crate::flow::{Due, Service};
use crate::happened::Happened;
use crate::listing::{Listing, Tally};
use crate::style::{Decoding, Style, is_clean};
use krb_der::{Memory, Profile};
use krb_exchange::Header;
use krb_file::FileWhy;
use krb_frame::Limit;
use krb_packet::{
    Contents, Datagram, Ends, Fragment, Fragments, IcmpError, Packet, QuotedProtocol, Segment,
    contents_of,
};
use krb_record::{
    CaptureCounts, Extent, Form, IcmpVersion, Label, TextBuffer, ToldCounts, Transport,
};
use std::alloc::Global;
use std::net::IpAddr;

/// What was found in the packets of a capture so far. It allocates for the fragments of datagrams
/// that are not whole, and of each direction of a connection for its last frame and the octets that
/// came early. Once a call was out of memory, what was found is not known any more: each later call
/// is out of memory, too, and changes nothing.
#[derive(Drop)]
pub struct Capture<'a> {
    /// By which messages are judged.
    profile: Profile,
    port: u16,
    fragments: Fragments,
    directions: Directions,
    /// How records are listed, and how many of each kind were. While a call lists, its `Listing` has
    /// that, with the text of the caller.
    listing: Tally<'a>,
    /// What happened, if it is told: lines without names have nothing of it.
    happened: Option<Box<Happened>>,
    /// The packet that came last.
    last: Due,
    /// A call was out of memory.
    has_failed: bool,
}

/// Returns what happened in no packets, if it is told in a form.
fn nothing_happened(alloc: Global, form: Form) -> Result<Option<Box<Happened>>, Memory>
    ensures { IfOk result (λ happened. happened_in happened ≡ told_at_first form) }
{
    if form.is_plain() {
        return Ok(None);
    }
    Ok(Some(Box::new(alloc, Happened::new(alloc))?))
}

/// Returns the header of a segment, as far as it matters here.
fn header_of(segment: &Segment<'_>) -> Header
    ensures { result ≡ header_of segment.now }
{
    Header {
        sequence: segment.sequence,
        syn: segment.syn,
        ack: segment.ack,
        rst: segment.rst,
    }
}

/// Returns an error as records have it.
fn failure_of(error: &IcmpError) -> krb_record::IcmpError
    ensures { result ≡ failure_of error.now }
{
    krb_record::IcmpError {
        version: match error.by {
            IpAddr::V4(_) => IcmpVersion::V4,
            IpAddr::V6(_) => IcmpVersion::V6,
        },
        by: error.by,
        error_type: error.error_type,
        code: error.code,
    }
}

/// Returns the protocol of a packet that an error quotes, as records have it.
fn quoted_transport(protocol: QuotedProtocol) -> Transport
    ensures { result ≡ quoted_transport protocol }
{
    match protocol {
        QuotedProtocol::Udp => Transport::Udp,
        QuotedProtocol::Tcp => Transport::Tcp,
    }
}

/// Lists what a segment tells itself, if it may tell something.
#[inline(always)]
fn put_told(segment: &Segment<'_>, last: Due, listing: &mut Listing<'_>) -> Result<(), Memory>
    ensures { OnOk result (listing.new ≡ with_found (origin_of last transports.Tcp segment.now.source segment.now.target) (Sent (header_of segment.now)) listing.old) }
{
    if listing.hears(header_of(segment)) {
        put_told_segment(segment, last, listing)
    } else {
        Ok(())
    }
}

/// Lists what a segment tells itself.
#[inline(never)]
fn put_told_segment(
    segment: &Segment<'_>,
    last: Due,
    listing: &mut Listing<'_>,
) -> Result<(), Memory>
    ensures { OnOk result (listing.new ≡ with_found (origin_of last transports.Tcp segment.now.source segment.now.target) (Sent (header_of segment.now)) listing.old) }
{
    let origin = last.over(Transport::Tcp, segment.source, segment.target);
    listing.put_segment(&origin, header_of(segment))
}

/// Lists what is found with a segment, after what it tells itself.
fn take_listed(
    directions: &mut Directions,
    segment: &Segment<'_>,
    service: Service,
    last: Due,
    listing: &mut Listing<'_>,
) -> Result<Option<Box<Rest>>, Memory>
    ensures { IfOk result (λ rest. (limit : ℕ) (table : Table) → HoldsTable directions.old limit table → Follows directions.new limit (followed limit last.packet service segment.now table).table last rest (segment_event (Some service) last segment.now ++ over_tcp last (followed limit last.packet service segment.now table).found) listing.old listing.new) }
{
    put_told(segment, last, listing)?;
    directions.take(segment, service, last, listing)
}

/// Lists how directions end, and the requests that no reply answered.
fn finish(directions: &mut Directions, last: Due, listing: &mut Listing<'_>) -> Result<(), Memory>
    ensures { OnOk result ((limit : ℕ) (table : Table) → HoldsTable directions.old limit table → IsEnded (moment_due last) (with_each (over_tcp last (last_of limit table.active)) listing.old) listing.new) }
{
    directions.finish(last, listing)?;
    listing.put_ended(last)
}

impl<'a> Capture<'a> {
    /// Creates an empty capture. Each of its records has a label, frames of more than `limit` octets
    /// are refused, messages are judged by `profile`, and `port` is the one of KDCs.
    pub fn new(
        alloc: Global,
        label: &'a Label,
        profile: Profile,
        limit: Limit,
        port: u16,
    ) -> Result<Capture<'a>, Memory>
        ensures followed { IfOk result (λ capture. let settings : Settings = record { label = of_records label.now; profile = profile; limit = limit; port = port } in HasFollowed capture settings at_first) }
        ensures happened { IfOk result (λ capture. happened_in capture.happened ≡ told_at_first label.now.form) }
    {
        let happened = nothing_happened(alloc, label.form())?;
        let style = Style {
            label,
            decoding: None,
        };
        Ok(Capture::begin(alloc, style, happened, profile, limit, port))
    }

    /// Creates an empty capture, as [`new`](Capture::new) does, in which messages are decoded: those
    /// that are encrypted where they should be are lines of JSON, one each. What is refused, lost or
    /// unread is said by its record, with the label, and that a message is not encrypted by its path.
    /// The last record is said if the file is refused, and, if all packets are decoded, if something
    /// was refused, lost or unread. Nothing is told of what happened.
    pub fn decoding(
        alloc: Global,
        label: &'a Label,
        decoding: Decoding,
        profile: Profile,
        limit: Limit,
        port: u16,
    ) -> Capture<'a>
        ensures followed { let settings : Settings = record { label = of_decoding label.now decoding; profile = profile; limit = limit; port = port } in HasFollowed result settings at_first }
        ensures happened { happened_in result.happened ≡ None }
    {
        let style = Style {
            label,
            decoding: Some(decoding),
        };
        Capture::begin(alloc, style, None, profile, limit, port)
    }

    /// Creates an empty capture that is written in a style.
    fn begin(
        alloc: Global,
        style: Style<'a>,
        happened: Option<Box<Happened>>,
        profile: Profile,
        limit: Limit,
        port: u16,
    ) -> Capture<'a>
        ensures followed { let settings : Settings = record { label = label_in style.entry; profile = profile; limit = limit; port = port } in HasFollowed result settings at_first }
        ensures happened { result.happened ≡ happened }
    {
        Capture {
            profile,
            port,
            fragments: Fragments::new(alloc),
            directions: Directions::new(alloc, limit),
            listing: Tally {
                alloc,
                style,
                counts: CaptureCounts {
                    packets: 0,
                    messages: 0,
                    refused: 0,
                    lost: 0,
                    unread: 0,
                },
            },
            happened,
            last: Due {
                packet: 0,
                time: None,
            },
            has_failed: false,
        }
    }

    /// Takes the next packet, and appends the records that are due with it to a text, until that
    /// has 64 KiB. Returns what is left of the packet then, with which [`go_on`](Capture::go_on)
    /// goes on before anything else is called. Out of memory, the text may have some of the
    /// records.
    pub fn take(
        &mut self,
        packet: &Packet,
        text: &mut TextBuffer,
    ) -> Result<Option<Box<Rest>>, Memory>
        ensures listed { IfOk result (λ rest. (settings : Settings) (progress : Progress) → HasFollowed self.old settings progress → Lists (happened_in self.old.happened) self.new settings (packet_told settings packet.now progress) rest text.old text.new) }
        ensures failed { OnErr result (self.new.has_failed ≡ true) }
        ensures again { self.old.has_failed ≡ true → IsErr result × (self.new ≡ self.old) × (text.new ≡ text.old) }
    {
        if self.has_failed {
            return Err(Memory);
        }
        let taken = self.take_packet(packet, text);
        self.has_failed = taken.is_err();
        taken
    }

    /// Goes on with what is left of the last packet, and appends the next records to a text, until
    /// that has 64 KiB: the caller writes and clears it before, or nothing is appended. Returns what
    /// is left then. Out of memory, the text may have some of the records.
    pub fn go_on(
        &mut self,
        rest: Box<Rest>,
        text: &mut TextBuffer,
    ) -> Result<Option<Box<Rest>>, Memory>
        ensures listed { IfOk result (λ next. (settings : Settings) (progress : Progress) (left : List Finding) → HasFollowedBut self.old settings progress (Some rest) left → Lists (happened_in self.old.happened) self.new settings (record { found = left; progress = progress }) next text.old text.new) }
        ensures failed { OnErr result (self.new.has_failed ≡ true) }
        ensures again { self.old.has_failed ≡ true → IsErr result × (self.new ≡ self.old) × (text.new ≡ text.old) }
    {
        if self.has_failed {
            return Err(Memory);
        }
        let tally = self.listing;
        let happened = self.happened.take();
        let mut listing = Listing {
            tally,
            happened,
            text,
        };
        let gone = self.directions.go_on_with(rest, self.last, &mut listing);
        let (counts, happened, _text) = listing.into_parts();
        self.listing.counts = counts;
        self.happened = happened;
        self.has_failed = gone.is_err();
        gone
    }

    /// Counts a packet, and lists what it carries.
    fn take_packet(
        &mut self,
        packet: &Packet,
        text: &mut TextBuffer,
    ) -> Result<Option<Box<Rest>>, Memory>
        ensures { IfOk result (λ rest. (settings : Settings) (progress : Progress) → HasFollowed self.old settings progress → Lists (happened_in self.old.happened) self.new settings (packet_told settings packet.now progress) rest text.old text.new) }
    {
        self.last = Due::with(packet);
        self.listing.count_packet();
        self.take_contents(contents_of(packet, self.port), text)
    }

    /// Lists what a packet carries.
    fn take_contents(
        &mut self,
        contents: Contents<'_>,
        text: &mut TextBuffer,
    ) -> Result<Option<Box<Rest>>, Memory>
        ensures { IfOk result (λ rest. (settings : Settings) (progress : Progress) → HasFollowed self.old settings progress → Lists (happened_in self.old.happened) self.new settings (with_event (contents_event settings progress.last progress.fragments contents.entry) (and_counted (contents_taken settings contents.entry progress))) rest text.old text.new) }
    {
        match &contents {
            Contents::Fragment(fragment) => self.take_fragment(fragment, text),
            _ => self.take_whole(&contents, text),
        }
    }

    /// Lists what a datagram carries that a fragment completes.
    fn take_fragment(
        &mut self,
        fragment: &Fragment<'_>,
        text: &mut TextBuffer,
    ) -> Result<Option<Box<Rest>>, Memory>
        ensures { IfOk result (λ rest. (settings : Settings) (progress : Progress) → HasFollowed self.old settings progress → Lists (happened_in self.old.happened) self.new settings (with_event (completed_event settings progress.last (nested_step settings.port progress.fragments fragment.now).0) (and_counted (fragment_taken settings fragment.now progress))) rest text.old text.new) }
    {
        match self.fragments.take_nested(self.port, fragment)? {
            Some(whole) => self.take_whole(&whole.contents(self.port), text),
            None => Ok(None),
        }
    }

    /// Lists what is all there.
    fn take_whole(
        &mut self,
        contents: &Contents<'_>,
        text: &mut TextBuffer,
    ) -> Result<Option<Box<Rest>>, Memory>
        ensures { IfOk result (λ rest. (settings : Settings) (progress : Progress) → HasFollowed self.old settings progress → Lists (happened_in self.old.happened) self.new settings (with_event (whole_event settings progress.last contents.now) (and_counted (whole_taken settings contents.now progress))) rest text.old text.new) }
    {
        match contents {
            Contents::Datagram(datagram) => {
                self.take_datagram(datagram, text)?;
                Ok(None)
            }
            Contents::Segment(segment) => self.take_segment(segment, text),
            Contents::Error(error) => {
                self.take_error(error, text)?;
                Ok(None)
            }
            Contents::Fragment(_) | Contents::Other => Ok(None),
            Contents::UnreadBetween(ends) => {
                self.take_unread(*ends);
                Ok(None)
            }
            Contents::Unread => {
                self.listing.count_unread();
                Ok(None)
            }
        }
    }

    /// Counts a packet whose header is cut or wrong after its ports, if it is of Kerberos.
    #[inline(never)]
    fn take_unread(&mut self, ends: Ends)
        ensures happened { happened_in self.new.happened ≡ happened_in self.old.happened }
        ensures followed { (settings : Settings) (progress : Progress) → HasFollowed self.old settings progress → HasFollowed self.new settings (and_counted (unread_taken (service_of settings.profile settings.port ends.source ends.target) progress)).progress }
    {
        if Service::between(self.profile, self.port, ends.source, ends.target).is_some() {
            self.listing.count_unread();
        }
    }

    /// Lists a datagram of UDP, if it is of Kerberos.
    fn take_datagram(
        &mut self,
        datagram: &Datagram<'_>,
        text: &mut TextBuffer,
    ) -> Result<(), Memory>
        ensures { OnOk result ((settings : Settings) (progress : Progress) → HasFollowed self.old settings progress → Lists (happened_in self.old.happened) self.new settings (and_counted (datagram_taken (service_of settings.profile settings.port datagram.now.source datagram.now.target) datagram.now progress)) None text.old text.new) }
    {
        let Some(service) = Service::between(
            self.profile,
            self.port,
            datagram.source,
            datagram.target,
        ) else {
            return Ok(());
        };
        let origin = self
            .last
            .over(Transport::Udp, datagram.source, datagram.target);
        let tally = self.listing;
        let happened = self.happened.take();
        let mut listing = Listing {
            tally,
            happened,
            text,
        };
        let listed = list_with_surplus(service, datagram, &origin, &mut listing);
        let (counts, happened, _text) = listing.into_parts();
        self.listing.counts = counts;
        self.happened = happened;
        listed
    }

    /// Lists what is found with a segment of TCP, if it is of Kerberos.
    fn take_segment(
        &mut self,
        segment: &Segment<'_>,
        text: &mut TextBuffer,
    ) -> Result<Option<Box<Rest>>, Memory>
        ensures { IfOk result (λ rest. (settings : Settings) (progress : Progress) → HasFollowed self.old settings progress → Lists (happened_in self.old.happened) self.new settings (with_event (segment_event (service_of settings.profile settings.port segment.now.source segment.now.target) progress.last segment.now) (and_counted (segment_taken settings.limit (service_of settings.profile settings.port segment.now.source segment.now.target) segment.now progress))) rest text.old text.new) }
    {
        let Some(service) = Service::between(
            self.profile,
            self.port,
            segment.source,
            segment.target,
        ) else {
            return Ok(None);
        };
        let tally = self.listing;
        let happened = self.happened.take();
        let mut listing = Listing {
            tally,
            happened,
            text,
        };
        let left = take_listed(
            &mut self.directions,
            segment,
            service,
            self.last,
            &mut listing,
        );
        let (counts, happened, _text) = listing.into_parts();
        self.listing.counts = counts;
        self.happened = happened;
        left
    }

    /// Lists what an error tells, if it quotes a packet of Kerberos.
    #[inline(never)]
    fn take_error(&mut self, error: &IcmpError, text: &mut TextBuffer) -> Result<(), Memory>
        ensures { OnOk result ((settings : Settings) (progress : Progress) → HasFollowed self.old settings progress → Lists (happened_in self.old.happened) self.new settings (with_event (error_event (service_of settings.profile settings.port error.now.ends.source error.now.ends.target) progress.last error.now) (and_counted (nothing_in progress))) None text.old text.new) }
    {
        let Ends { source, target } = error.ends;
        if Service::between(self.profile, self.port, source, target).is_none() {
            return Ok(());
        }
        let transport = quoted_transport(error.protocol);
        let origin = self.last.over(transport, source, target);
        let tally = self.listing;
        let happened = self.happened.take();
        let mut listing = Listing {
            tally,
            happened,
            text,
        };
        let listed = listing.put_error(&origin, failure_of(error));
        let (counts, happened, _text) = listing.into_parts();
        self.listing.counts = counts;
        self.happened = happened;
        listed
    }

    /// Returns how many packets came, or the greatest number of 64 bits.
    pub fn packets(&self) -> u64
        ensures { result ≡ self.now.listing.counts.packets }
    {
        self.listing.counts.packets
    }

    /// Returns whether no packet came yet.
    pub fn is_empty(&self) -> bool
        ensures { result ≡ has_no_packet self.now.listing.counts }
    {
        self.listing.counts.packets == 0
    }

    /// Returns how many packets came, and how many records of each kind were listed.
    fn totals(&self) -> CaptureCounts
        ensures { result ≡ totals (unread self.now.fragments) self.now.listing.counts }
    {
        self.listing.totals(self.fragments.unread())
    }

    /// Returns how much was told.
    fn told_counts(&self) -> ToldCounts
        ensures { result ≡ told_in (happened_in self.now.happened) }
    {
        match &self.happened {
            None => ToldCounts::default(),
            Some(happened) => happened.counts,
        }
    }

    /// Appends the records that are due at the end of the file to a text, and the last one. Returns
    /// whether nothing is refused, lost or unread. Out of memory, the text may have some of the
    /// records.
    pub fn finish(&mut self, text: &mut TextBuffer) -> Result<bool, Memory>
        ensures listed { OnOk result ((settings : Settings) (progress : Progress) → HasFollowed self.old settings progress → text.new ≡ text.old ++ end_text settings (happened_in self.old.happened) progress) }
        ensures clean { IfOk result (λ clean. (settings : Settings) (progress : Progress) → HasFollowed self.old settings progress → clean ≡ is_clean (all_counts (end_taken settings progress).progress)) }
        ensures failed { OnErr result (self.new.has_failed ≡ true) }
        ensures again { self.old.has_failed ≡ true → IsErr result × (self.new ≡ self.old) × (text.new ≡ text.old) }
    {
        if self.has_failed {
            return Err(Memory);
        }
        let finished = self.put_end(text);
        self.has_failed = finished.is_err();
        finished
    }

    /// Lists how the directions end that are open.
    fn end_directions(&mut self, text: &mut TextBuffer) -> Result<(), Memory>
        ensures { OnOk result ((settings : Settings) (progress : Progress) → HasFollowed self.old settings progress → HasEnded (happened_in self.old.happened) self.new settings progress text.old text.new) }
    {
        let tally = self.listing;
        let happened = self.happened.take();
        let mut listing = Listing {
            tally,
            happened,
            text,
        };
        let ended = finish(&mut self.directions, self.last, &mut listing);
        let (counts, happened, _text) = listing.into_parts();
        self.listing.counts = counts;
        self.happened = happened;
        ended
    }

    /// Lists the end of the file.
    fn put_end(&mut self, text: &mut TextBuffer) -> Result<bool, Memory>
        ensures listed { OnOk result ((settings : Settings) (progress : Progress) → HasFollowed self.old settings progress → text.new ≡ text.old ++ end_text settings (happened_in self.old.happened) progress) }
        ensures clean { IfOk result (λ clean. (settings : Settings) (progress : Progress) → HasFollowed self.old settings progress → clean ≡ is_clean (all_counts (end_taken settings progress).progress)) }
    {
        self.end_directions(text)?;
        let totals = self.totals();
        let told = self.told_counts();
        self.listing.style.put_end(text, &totals, &told)?;
        Ok(is_clean(&totals))
    }

    /// Appends the records that are due at the fault of a file to a text, as at its end, and the
    /// last one: why and at which place it is refused, the path of the field at fault, and where the
    /// first part of that path begins and the length that was read there. Out of memory, the text may
    /// have a part of them.
    pub fn refuse(
        &mut self,
        place: u64,
        why: FileWhy,
        path: Option<&str>,
        extent: Extent,
        text: &mut TextBuffer,
    ) -> Result<(), Memory>
        ensures listed { OnOk result ((settings : Settings) (progress : Progress) → HasFollowed self.old settings progress → text.new ≡ text.old ++ refusal_text settings (happened_in self.old.happened) progress place why (option_copied path.entry) extent) }
        ensures failed { OnErr result (self.new.has_failed ≡ true) }
        ensures again { self.old.has_failed ≡ true → IsErr result × (self.new ≡ self.old) × (text.new ≡ text.old) }
    {
        if self.has_failed {
            return Err(Memory);
        }
        let refused = self.put_refusal(place, why, path, extent, text);
        self.has_failed = refused.is_err();
        refused
    }

    /// Lists the fault of the file.
    fn put_refusal(
        &mut self,
        place: u64,
        why: FileWhy,
        path: Option<&str>,
        extent: Extent,
        text: &mut TextBuffer,
    ) -> Result<(), Memory>
        ensures { OnOk result ((settings : Settings) (progress : Progress) → HasFollowed self.old settings progress → text.new ≡ text.old ++ refusal_text settings (happened_in self.old.happened) progress place why (option_copied path.entry) extent) }
    {
        self.end_directions(text)?;
        let totals = self.totals();
        let told = self.told_counts();
        self.listing
            .style
            .put_file_refusal(text, &totals, &told, place, why, path, extent)?;
        Ok(())
    }
}
