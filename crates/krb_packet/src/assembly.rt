//! The fragments of one datagram, put together.

use crate::contents::Fragment;
use krb_der::Memory;
use std::alloc::Global;
use std::marker::Model;

/// The greatest number of octets of a datagram (RFC 791, 3.1).
const MOST_OCTETS: usize = 65535;

/// The places of the octets of a fragment in their datagram.
#[derive(Clone, Copy)]
pub struct Span {
    /// The place of the first one.
    start: u16,
    /// The place after the last one.
    end: u16,
    /// No more octets follow these.
    is_last: bool,
}

/// A fragment that came. It is public for contracts alone.
#[derive(Clone, Copy)]
pub struct Part {
    /// The places of its octets in their datagram.
    span: Span,
    /// Where its octets begin among those that came.
    begin: u16,
}

/// What a fragment is to those that came. It is public for contracts alone.
#[derive(Clone, Copy)]
pub enum Relation {
    /// Its datagram has to be discarded for it.
    Conflict,
    /// It is a copy of one of them.
    Copy,
    /// It is new, and this many of them come before it.
    New(usize),
}

/// The fragments of a datagram that came. It allocates for their octets, and a few octets for each
/// of them.
#[derive(Drop)]
pub struct Assembly {
    /// The octets of the fragments, in the order in which these came.
    octets: Vec<u8>,
    /// The fragments, in the order of their places.
    parts: Vec<Part>,
    /// The place after the last octet that came.
    reach: u16,
    /// The last fragment came.
    is_ended: bool,
    /// The protocol of the fragment at offset 0.
    protocol: u8,
}

impl Model for Assembly {
    ghost use Rattle.std.specs.Prelude.{length, map};
    ghost use Rattle.krb_packet.specs.Parts.{Parts};
    ghost use Rattle.krb_packet.specs.inner.Pieces.{AreParts, piece_in};

    ghost Value = { Parts };

    ghost view = { λ assembly. record { pieces = map (piece_in assembly.octets.items) assembly.parts.items; reach = assembly.reach; count = length assembly.octets.items; is_ended = assembly.is_ended; protocol = assembly.protocol } };

    ghost invariant = { λ assembly. AreParts assembly.octets.items assembly.parts.items };
}

ghost use Rattle.std.specs.Prelude.{◌≡◌, ℕ, ◌+◌, ◌++◌, ◌<◌, ◌≤◌, true, false, List, length, map, IfOk, IfSome, IfNone, OnErr, OnOk};
ghost use Rattle.std.specs.List.{list_all, list_any, slice_index_or};
ghost use Rattle.std.specs.Option.{option_copied, option_map_or};
ghost use Rattle.krb_packet.specs.Parts.{no_parts, is_sound, span_of, same_span, are_apart, agrees, is_before, with_fragment, is_complete, joined};
ghost use Rattle.krb_packet.specs.inner.Pieces.{AreParts, IsNew, IsPlace, IsRelation, IsWithin, octets_in, piece_in};

/// Returns whether a fragment is sound by itself: it was captured whole, it is within a datagram,
/// and it has a multiple of eight octets unless it is the last one.
fn is_sound(fragment: &Fragment<'_>) -> bool
    ensures value { result ≡ is_sound fragment.now }
    ensures within { result ≡ true → fragment.now.offset + length fragment.now.payload.octets ≤ 65535 }
{
    let octets = fragment.payload.octets().len();
    fragment.payload.size() == octets as u64
        && octets <= MOST_OCTETS - usize::from(fragment.offset)
        && (fragment.is_last || octets % 8 == 0)
}

/// Returns the places of the octets of a fragment.
fn span_of(fragment: &Fragment<'_>) -> Span
    requires { fragment.now.offset + length fragment.now.payload.octets ≤ 65535 }
    ensures { result ≡ span_of fragment.now }
{
    Span {
        start: fragment.offset,
        end: fragment.offset + fragment.payload.octets().len() as u16,
        is_last: fragment.is_last,
    }
}

impl Span {
    /// Returns whether another span is the same.
    fn is_same(self, other: Span) -> bool
        ensures { result ≡ same_span self other }
    {
        self.start == other.start && self.end == other.end && self.is_last == other.is_last
    }

    /// Returns whether one span ends before the other begins.
    fn is_apart(self, other: Span) -> bool
        ensures { result ≡ are_apart self other }
    {
        self.end <= other.start || other.end <= self.start
    }

    /// Returns whether it comes before another one: it begins before that, or at the same place and
    /// ends before, or has the same places and is not the last one.
    fn is_before(self, other: Span) -> bool
        ensures { result ≡ is_before self other }
    {
        self.start < other.start
            || self.start == other.start
                && (self.end < other.end || self.end == other.end && !self.is_last && other.is_last)
    }
}

/// Returns how many parts come before a span.
fn place_of(span: Span, parts: &[Part]) -> usize
    ensures { (octets : List ℕ) → AreParts octets parts.now → IsPlace result span parts.now }
{
    parts.partition_point(|part| part.span.is_before(span))
}

/// Returns the part that has the places of a span, before which `place` of the parts come.
fn same_at(span: Span, place: usize, parts: &[Part]) -> Option<Part>
    requires { IsPlace place span parts.now }
    ensures same { IfSome result (λ part. (same_span span part.span ≡ true) × (place < length parts.now) × (slice_index_or parts.now place part ≡ part)) }
    ensures none { (octets : List ℕ) → AreParts octets parts.now → IfNone result (list_any (λ part. same_span span part.span) parts.now ≡ false) }
{
    match parts.get(place) {
        Some(part) if span.is_same(part.span) => Some(*part),
        _ => None,
    }
}

/// Returns whether a span is apart from a part, if there is one.
fn is_apart_from(span: Span, part: Option<&Part>) -> bool
    ensures { result ≡ option_map_or (λ part. are_apart span part.span) (option_copied part.entry) true }
{
    match part {
        Some(part) => span.is_apart(part.span),
        None => true,
    }
}

/// Returns whether a span is apart from all parts, of which `place` come before it.
fn is_apart_from_all(span: Span, place: usize, parts: &[Part]) -> bool
    requires some { span.start ≤ span.end }
    requires place { IsPlace place span parts.now }
    ensures { (octets : List ℕ) → AreParts octets parts.now → result ≡ list_all (λ part. are_apart span part.span) parts.now }
{
    let before = match place.checked_sub(1) {
        Some(before) => is_apart_from(span, parts.get(before)),
        None => true,
    };
    before && is_apart_from(span, parts.get(place))
}

/// Returns the octets of a part.
fn octets_of(part: Part, octets: &[u8]) -> &[u8]
    requires { IsWithin octets.now part }
    ensures { result.now ≡ octets_in octets.now part }
{
    let begin = usize::from(part.begin);
    &octets[begin..begin + usize::from(part.span.end - part.span.start)]
}

/// Appends the octets of parts, one after another.
fn append(parts: &[Part], octets: &[u8], all: &mut Vec<u8>) -> Result<(), Memory>
    requires { (k : ℕ) (d : Part) → k < length parts.now → IsWithin octets.now (slice_index_or parts.now k d) }
    ensures { OnOk result (all.new.items ≡ all.old.items ++ joined (map (piece_in octets.now) parts.now)) }
{
    for part in parts {
        all.extend_from_slice(octets_of(*part, octets))?;
    }
    Ok(())
}

impl Assembly {
    /// Creates the assembly of a datagram with no fragments yet.
    pub(crate) fn new(alloc: Global) -> Assembly
        ensures { result ≡ no_parts }
    {
        Assembly {
            octets: Vec::new(alloc),
            parts: Vec::new(alloc),
            reach: 0,
            is_ended: false,
            protocol: 0,
        }
    }

    /// Returns whether a span agrees with the end of the datagram.
    fn agrees(&self, span: Span) -> bool
        ensures { result ≡ agrees self.now span }
    {
        (!self.is_ended || span.end <= self.reach) && (!span.is_last || self.reach <= span.end)
    }

    /// Returns what a fragment is to those that came.
    pub(crate) fn relation(&self, fragment: &Fragment<'_>) -> Relation
        ensures { IsRelation self.now fragment.now result }
    {
        if !is_sound(fragment) {
            return Relation::Conflict;
        }
        let span = span_of(fragment);
        let place = place_of(span, &self.parts);
        let octets = fragment.payload.octets();
        if let Some(part) = same_at(span, place, &self.parts) {
            return if octets == octets_of(part, &self.octets) {
                Relation::Copy
            } else {
                Relation::Conflict
            };
        }
        let fits = is_apart_from_all(span, place, &self.parts)
            && self.agrees(span)
            && octets.len() <= MOST_OCTETS - self.octets.len();
        if fits {
            Relation::New(place)
        } else {
            Relation::Conflict
        }
    }

    /// Returns whether no octet of the datagram is missing with a new fragment.
    pub(crate) fn is_completed_by(&self, fragment: &Fragment<'_>) -> bool
        requires end { fragment.now.offset + length fragment.now.payload.octets ≤ 65535 }
        requires count { self.now.count + length fragment.now.payload.octets ≤ 65535 }
        ensures { result ≡ is_complete (with_fragment self.now fragment.now) }
    {
        let Span { end, is_last, .. } = span_of(fragment);
        (self.is_ended || is_last)
            && self.octets.len() + fragment.payload.octets().len()
                == usize::from(self.reach.max(end))
    }

    /// Returns the protocol of the fragment at offset 0, with a new one.
    pub(crate) fn protocol_with(&self, fragment: &Fragment<'_>) -> u8
        ensures { result ≡ (with_fragment self.now fragment.now).protocol }
    {
        if fragment.offset == 0 {
            fragment.protocol
        } else {
            self.protocol
        }
    }

    /// Returns all octets, with those of a new fragment.
    pub(crate) fn octets_with(
        &self,
        alloc: Global,
        place: usize,
        fragment: &Fragment<'_>,
    ) -> Result<Vec<u8>, Memory>
        requires { IsNew self.now fragment.now place }
        ensures { IfOk result (λ octets. octets.items ≡ joined (with_fragment self.now fragment.now).pieces) }
    {
        let (before, after) = self.parts.split_at(place);
        let octets = fragment.payload.octets();
        let mut all = Vec::with_capacity(alloc, self.octets.len() + octets.len())?;
        append(before, &self.octets, &mut all)?;
        all.extend_from_slice(octets)?;
        append(after, &self.octets, &mut all)?;
        Ok(all)
    }

    /// Keeps a new fragment. Out of memory, nothing changes.
    pub(crate) fn keep(&mut self, place: usize, fragment: &Fragment<'_>) -> Result<(), Memory>
        requires { IsNew self.old fragment.now place }
        ensures keeps { OnOk result (self.new ≡ with_fragment self.old fragment.now) }
        ensures memory { OnErr result (self.new ≡ self.old) }
    {
        let span = span_of(fragment);
        let begin = self.octets.len() as u16;
        let protocol = self.protocol_with(fragment);
        self.parts.try_reserve(1)?;
        self.octets.extend_from_slice(fragment.payload.octets())?;
        self.parts.insert(place, Part { span, begin })?;
        self.reach = self.reach.max(span.end);
        self.is_ended |= span.is_last;
        self.protocol = protocol;
        Ok(())
    }
}
