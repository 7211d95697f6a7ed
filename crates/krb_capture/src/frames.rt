//! The frames of a stream (RFC 4120, 7.2.2), by what they carry.

ghost use Rattle.std.specs.Prelude.{◌≡◌, ◌<◌, ◌≤◌, ℕ, false, List, [], ◌++◌, length, take, IfOk, OnOk};
ghost use Rattle.krb_capture.specs.Found.{IsFull, Missing, with_all, with_found};
ghost use Rattle.krb_capture.specs.Streams.{cut_refusal, end_found, found_with, open_path, refusal_found};
ghost use Rattle.krb_capture.specs.Taken.{Took, kept_in, offset_in, over_in, service_of};

use crate::flow::Service;
use crate::listing::Listing;
use crate::message_frames::MessageFrames;
use crate::password_frames::PasswordFrames;
use krb_der::Memory;
use krb_flow::{End, Lost};
use krb_frame::Limit;
use krb_record::CaptureOrigin;
use std::alloc::Global;

/// The frames that one end of a connection sends.
#[derive(Drop)]
pub(crate) enum Frames {
    /// Those of messages of Kerberos.
    Messages(MessageFrames),
    /// Those of messages that change passwords.
    Passwords(PasswordFrames),
}

impl Frames {
    /// Creates those of a direction with no octets yet.
    #[inline(always)]
    pub(crate) fn new(alloc: Global, limit: Limit, service: Service) -> Frames
        ensures took { Took result limit [] }
        ensures service { service_of result ≡ service }
    {
        match service {
            Service::Kerberos(profile) => {
                Frames::Messages(MessageFrames::new(alloc, limit, profile))
            },
            Service::Passwords(profile) => {
                Frames::Passwords(PasswordFrames::new(alloc, limit, profile))
            },
        }
    }

    /// Takes the next octets, until the listing is full, and lists the frames that are whole with
    /// them or refused. Returns how many octets it took. The frame after one that is refused begins
    /// where that one ends, unless its length is not known: then all that follows is passed over.
    #[inline(always)]
    pub(crate) fn take(
        &mut self,
        octets: &[u8],
        origin: &CaptureOrigin,
        listing: &mut Listing<'_>,
    ) -> Result<usize, Memory>
        ensures service { OnOk result (service_of self.new ≡ service_of self.old) }
        ensures few { IfOk result (λ count. count ≤ length octets.now) }
        ensures full { IfOk result (λ count. count < length octets.now → IsFull listing.new.text) }
        ensures took { IfOk result (λ count. (limit : ℕ) (stream : List ℕ) → Took self.old limit stream → Took self.new limit (stream ++ take count octets.now)) }
        ensures listed { IfOk result (λ count. (limit : ℕ) (stream : List ℕ) → Took self.old limit stream → listing.new ≡ with_all origin.now (found_with (service_of self.old) limit stream (take count octets.now)) listing.old) }
    {
        if octets.is_empty() || listing.is_full() {
            return Ok(0);
        }
        match self {
            Frames::Messages(frames) => frames.take(octets, origin, listing),
            Frames::Passwords(frames) => frames.take(octets, origin, listing),
        }
    }

    /// Lists what is known at the end of the direction: octets that are missing, or the refusal of
    /// a frame that is not whole.
    #[inline(never)]
    pub(crate) fn end(
        &self,
        end: End,
        origin: &CaptureOrigin,
        listing: &mut Listing<'_>,
    ) -> Result<(), Memory>
        ensures { OnOk result ((limit : ℕ) (stream : List ℕ) → Took self.now limit stream → listing.new ≡ with_all origin.now (end_found (service_of self.now) limit stream end) listing.old) }
    {
        if self.is_over() {
            return Ok(());
        }
        match end {
            End::Lost(lost) => self.list_lost(lost, origin, listing),
            End::Complete => self.list_cut(origin, listing),
        }
    }

    /// Returns whether all that follows is passed over.
    fn is_over(&self) -> bool
        ensures { result ≡ over_in self.now }
    {
        match self {
            Frames::Messages(frames) => frames.is_over,
            Frames::Passwords(frames) => frames.is_over,
        }
    }

    /// Lists octets that are missing.
    fn list_lost(
        &self,
        lost: Lost,
        origin: &CaptureOrigin,
        listing: &mut Listing<'_>,
    ) -> Result<(), Memory>
        ensures { OnOk result (listing.new ≡ with_found origin.now (Missing lost.place lost.octets (open_path (service_of self.now) (kept_in self.now))) listing.old) }
    {
        match self {
            Frames::Messages(frames) => {
                let path = frames.path(listing.allocator(), listing.form())?;
                listing.put_lost(origin, lost, path.as_deref())
            }
            Frames::Passwords(frames) => listing.put_lost(origin, lost, frames.path()),
        }
    }

    /// Lists the refusal of the frame that is not whole, if there is one.
    fn list_cut(&self, origin: &CaptureOrigin, listing: &mut Listing<'_>) -> Result<(), Memory>
        ensures { OnOk result ((limit : ℕ) (stream : List ℕ) → Took self.now limit stream → over_in self.now ≡ false → listing.new ≡ with_all origin.now (refusal_found (service_of self.now) (offset_in self.now) (kept_in self.now) (cut_refusal (kept_in self.now))) listing.old) }
    {
        match self {
            Frames::Messages(frames) => {
                let Some(refusal) = frames.finish() else {
                    return Ok(());
                };
                let path = frames.path(listing.allocator(), listing.form())?;
                listing.put_refusal(origin, refusal, path.as_deref(), frames.extent())
            }
            Frames::Passwords(frames) => {
                let Some(refusal) = frames.finish() else {
                    return Ok(());
                };
                listing.put_refusal(origin, refusal, frames.path(), frames.extent())
            }
        }
    }
}
