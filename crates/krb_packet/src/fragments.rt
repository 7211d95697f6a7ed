//! Datagrams put together from their fragments (RFC 791, 3.2; RFC 8200, 4.5).

use crate::assembly::{Assembly, Relation};
use crate::contents::{Contents, Fragment, Original};
use crate::datagrams::{Datagrams, MOST_DATAGRAMS};
use crate::header::{Addresses, Header};
use crate::payload::Payload;
use crate::walk::walk_or_unread;
use krb_der::{Memory, Octets};
use std::alloc::Global;
use std::marker::Model;
use std::net::IpAddr;

/// The progress of a datagram. It is public for contracts alone.
#[derive(Drop)]
pub enum Progress {
    /// Fragments came, and these are their octets.
    Open(Assembly),
    /// It is discarded for one of its fragments, and will not be put together (RFC 5722, which is of
    /// IPv6: datagrams of IPv4 are treated alike).
    Discarded,
}

/// A datagram with at least one fragment. It is public for contracts alone.
#[derive(Drop)]
pub struct Pending {
    pub(crate) original: Original,
    /// The number of its fragments so far.
    pub(crate) count: u64,
    progress: Progress,
}

/// An IP datagram put together from its fragments.
#[derive(Drop)]
pub struct Reassembled {
    /// What its fragments had in common.
    pub original: Original,
    /// What its octets begin with: the number of a protocol or, in IPv6, of a header.
    pub protocol: u8,
    /// Its octets.
    pub octets: Octets,
}

/// Datagrams that are put together, at most 1024 at once: for one more, the one that began first is
/// given up. It allocates for the octets of the fragments that came, at most 65535 of a datagram,
/// and a few for each fragment.
#[derive(Drop)]
pub struct Fragments {
    alloc: Global,
    datagrams: Datagrams,
}

impl Model for Fragments {
    ghost use Rattle.krb_packet.specs.Table.{Table, table_of};
    ghost use Rattle.krb_packet.specs.inner.Places.{IsIndexed};

    ghost Value = { Table };

    ghost view = { λ fragments. table_of fragments.datagrams };

    ghost invariant = { λ fragments. IsIndexed fragments.datagrams };
}

ghost use Rattle.std.specs.Prelude.{◌≡◌, if◌then◌else◌, None, is_some, IfOk, OnErr, OnOk};
ghost use Rattle.krb_packet.specs.Fragments.{no_fragments_of, plus, pending_with, whole_of, no_fragments, step, unread, carried_in, contents_of_whole, nested_step};

impl Pending {
    /// Returns a datagram with no fragments yet.
    pub(crate) fn new(alloc: Global, original: Original) -> Pending
        ensures { result ≡ no_fragments_of original }
    {
        Pending {
            original,
            count: 0,
            progress: Progress::Open(Assembly::new(alloc)),
        }
    }

    /// Counts a fragment more.
    fn count(&mut self)
        ensures { self.new ≡ record self.old { count = plus self.old.count 1 } }
    {
        self.count = self.count.saturating_add(1);
    }

    /// Adds a fragment of the datagram, which is not whole. If it completes the datagram, that is
    /// returned, and what is kept of it stays as it was. So it does out of memory.
    pub(crate) fn take(
        &mut self,
        alloc: Global,
        fragment: &Fragment<'_>,
    ) -> Result<Option<Reassembled>, Memory>
        requires open { whole_of self.old ≡ None }
        ensures whole { IfOk result (λ whole. whole ≡ whole_of (pending_with fragment.now self.old)) }
        ensures kept { IfOk result (λ whole. self.new ≡ (if is_some whole then self.old else pending_with fragment.now self.old)) }
        ensures memory { OnErr result (self.new ≡ self.old) }
    {
        if let Progress::Open(assembly) = &mut self.progress {
            match assembly.relation(fragment) {
                Relation::Copy => {}
                Relation::Conflict => self.progress = Progress::Discarded,
                Relation::New(place) => {
                    if assembly.is_completed_by(fragment) {
                        return Ok(Some(Reassembled {
                            original: self.original,
                            protocol: assembly.protocol_with(fragment),
                            octets: Octets::new(assembly.octets_with(alloc, place, fragment)?),
                        }));
                    }
                    assembly.keep(place, fragment)?;
                }
            }
        }
        self.count();
        Ok(None)
    }
}

impl Reassembled {
    /// Returns what the datagram carries, which may be a fragment of another one.
    #[tactic(auto, unfolding(crate::specs::Fragments::carried_in))]
    pub(crate) fn carried(&self, port: u16) -> Contents<'_>
        ensures { result ≡ carried_in port self.now }
    {
        let Original { source, target, .. } = self.original;
        let octets = self.octets.as_slice();
        let header = Header::Protocol(Addresses { source, target }, self.protocol);
        walk_or_unread(port, octets.len() + 1, header, Payload::new(octets, 0))
    }

    /// Returns what the datagram carries: a UDP datagram or a TCP segment, whose octets are
    /// borrowed from it. If a header is cut or wrong, or of another fragment, it cannot be read: a
    /// fragment is taken by [`take_nested`](Fragments::take_nested) before. `port` is that of KDCs.
    #[tactic(auto, unfolding(crate::specs::Fragments::contents_of_whole))]
    pub fn contents(&self, port: u16) -> Contents<'_>
        ensures { result ≡ contents_of_whole port self.now }
    {
        match self.carried(port) {
            Contents::Fragment(_) => Contents::Unread,
            contents => contents,
        }
    }
}

impl Fragments {
    /// Creates a table of no datagrams.
    pub fn new(alloc: Global) -> Fragments
        ensures { result ≡ no_fragments }
    {
        Fragments {
            alloc,
            datagrams: Datagrams::new(alloc),
        }
    }

    /// Adds a fragment, and returns the whole datagram if that is completed by it. Fragments of a
    /// datagram may come in any order, and copies of one are ignored. If one overlaps another in
    /// any other way, ends after 65535 octets, was not captured whole, has no multiple of 8 octets
    /// without being the last, or disagrees about the end, its datagram is discarded, and so are
    /// its later fragments until it is given up. Out of memory, nothing changes.
    pub fn take(&mut self, fragment: &Fragment<'_>) -> Result<Option<Reassembled>, Memory>
        ensures whole { IfOk result (λ whole. whole ≡ (step self.old fragment.now).0) }
        ensures state { OnOk result (self.new ≡ (step self.old fragment.now).1) }
        ensures memory { OnErr result (self.new ≡ self.old) }
    {
        self.datagrams.take(self.alloc, fragment)
    }

    /// Adds a fragment, as [`take`](Fragments::take) does, and if the datagram that is completed by it
    /// carries a fragment, this one, too, and so on. Returns the datagram that is whole at the end and
    /// carries none. Out of memory, the datagrams that were completed are lost. `port` is that of KDCs.
    #[tactic(auto, unfolding(crate::specs::Fragments::nested_step))]
    pub fn take_nested(
        &mut self,
        port: u16,
        fragment: &Fragment<'_>,
    ) -> Result<Option<Reassembled>, Memory>
        ensures whole { IfOk result (λ whole. whole ≡ (nested_step port self.old fragment.now).0) }
        ensures state { OnOk result (self.new ≡ (nested_step port self.old fragment.now).1) }
    {
        match self.datagrams.take(self.alloc, fragment)? {
            Some(whole) => {
                self.datagrams
                    .go_inside(self.alloc, port, MOST_DATAGRAMS, whole)
            },
            None => Ok(None),
        }
    }

    /// Returns the number of fragments that are part of no whole datagram, at most 2^64 - 1.
    pub fn unread(&self) -> u64
        ensures { result ≡ unread self.now }
    {
        self.datagrams.unread()
    }
}
