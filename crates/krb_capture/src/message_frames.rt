//! Frames whose contents are messages of Kerberos.

ghost use Rattle.std.specs.Prelude.{◌≡◌, ◌+◌, ◌<◌, ◌≤◌, ℕ, true, false, List, [], ◌++◌, length, take, IfOk, OnOk, string_bytes};
ghost use Rattle.std.specs.Option.{option_map};
ghost use Rattle.krb_record.specs.Refusals.{path_in};
ghost use Rattle.krb_frame.specs.GoingOn.{Fault};
ghost use Rattle.krb_capture.specs.Found.{IsFull, with_all, with_found};
ghost use Rattle.krb_capture.specs.Listed.{ListsEntry};
ghost use Rattle.krb_capture.specs.Streams.{cut_refusal, entry_found, extent_at, found_with, frame_path};
ghost use Rattle.krb_capture.specs.Taken.{TookMessages};
ghost use Rattle.krb_capture.specs.declared.flow.Service.TheVariants as services;

use crate::listing::{Listing, and_more};
use crate::message::path_of;
use krb_der::{Memory, Profile, Refusal};
use krb_frame::{Decoder, Delivered, Limit, Receiver, SkippingDecoder};
use krb_record::{CaptureOrigin, Extent, Form};
use std::alloc::Global;

/// The frames of messages that one end sends. It keeps the octets of the frame that is not whole
/// yet.
#[derive(Drop)]
pub(crate) struct MessageFrames {
    decoder: SkippingDecoder,
    /// Where in the direction the current frame begins.
    offset: u64,
    /// The length of the last frame is not known, and all that follows is passed over.
    pub(crate) is_over: bool,
}

impl MessageFrames {
    /// Creates those of a direction with no octets yet.
    #[inline(always)]
    pub(crate) fn new(alloc: Global, limit: Limit, profile: Profile) -> MessageFrames
        ensures { TookMessages profile result limit [] }
    {
        MessageFrames {
            decoder: SkippingDecoder::new(Decoder::with_profile(alloc, limit, profile)),
            offset: 0,
            is_over: false,
        }
    }

    /// Takes the next octets, until the listing is full, and lists the frames that are whole with
    /// them or refused. Returns how many octets it took.
    #[inline(never)]
    pub(crate) fn take(
        &mut self,
        octets: &[u8],
        origin: &CaptureOrigin,
        listing: &mut Listing<'_>,
    ) -> Result<usize, Memory>
        ensures few { IfOk result (λ count. count ≤ length octets.now) }
        ensures full { IfOk result (λ count. count < length octets.now → IsFull listing.new.text) }
        ensures profile { OnOk result (self.new.decoder.current.profile ≡ self.old.decoder.current.profile) }
        ensures took { IfOk result (λ count. (profile : Profile) (limit : ℕ) (stream : List ℕ) → TookMessages profile self.old limit stream → TookMessages profile self.new limit (stream ++ take count octets.now)) }
        ensures listed { IfOk result (λ count. (profile : Profile) (limit : ℕ) (stream : List ℕ) → TookMessages profile self.old limit stream → listing.new ≡ with_all origin.now (found_with (services.Kerberos profile) limit stream (take count octets.now)) listing.old) }
    {
        if self.is_over {
            return Ok(octets.len());
        }
        let mut lister = FrameLister {
            offset: self.offset,
            profile: self.decoder.decoder().profile(),
            origin,
            listing,
        };
        let delivered = self.decoder.deliver(octets, true, &mut lister)?;
        self.offset = lister.offset;
        match delivered {
            Delivered::UpTo(rest) => Ok(octets.len() - rest.len()),
            Delivered::Stopped(refusal) => {
                lister.put_refusal(refusal, self.decoder.decoder())?;
                self.is_over = true;
                Ok(octets.len())
            }
        }
    }

    /// Returns the path of the field of which the next octet is due, or that has the octet that is
    /// refused, if records of the form show it.
    pub(crate) fn path(&self, alloc: Global, form: Form) -> Result<Option<String>, Memory>
        ensures { IfOk result (λ path. path_in form (option_map string_bytes path) ≡ path_in form (frame_path self.now.decoder.current.profile self.now.decoder.current.octets)) }
    {
        let decoder = self.decoder.decoder();
        path_in_frame(alloc, form, decoder.profile(), decoder)
    }

    /// Returns where the frame begins that is not whole, and the length that it announces.
    pub(crate) fn extent(&self) -> Extent
        ensures { result ≡ extent_at self.now.offset self.now.decoder.current.octets }
    {
        extent_of(self.offset, self.decoder.decoder().announced())
    }

    /// Returns why a frame is refused that is not whole at the end, if there is one.
    pub(crate) fn finish(&self) -> Option<Refusal>
        ensures { (profile : Profile) (limit : ℕ) (stream : List ℕ) → TookMessages profile self.now limit stream → self.now.is_over ≡ false → result ≡ cut_refusal self.now.decoder.current.octets }
    {
        self.decoder.finish().err()
    }
}

/// Lists the frames of a direction.
#[derive(Drop)]
struct FrameLister<'a, 'text> {
    /// Where in the direction the next frame begins.
    offset: u64,
    /// By which the messages are judged.
    profile: Profile,
    origin: &'a CaptureOrigin,
    listing: &'a mut Listing<'text>,
}

impl<'a, 'text> FrameLister<'a, 'text> {
    /// Lists the refusal of the current frame of a decoder.
    fn put_refusal(&mut self, refusal: Refusal, decoder: &Decoder) -> Result<(), Memory>
        ensures same { OnOk result (self.new.listing.ghost_name ≡ self.old.listing.ghost_name) }
        ensures others { OnOk result ((self.new.offset ≡ self.old.offset) × (self.new.origin ≡ self.old.origin) × (self.new.profile ≡ self.old.profile)) }
        ensures listed { OnOk result (self.new.listing.now ≡ with_found self.old.origin.now (entry_found self.old.profile self.old.offset (Fault refusal.place refusal.why decoder.now.octets)) self.old.listing.now) }
    {
        let alloc = self.listing.allocator();
        let path = path_in_frame(alloc, self.listing.form(), self.profile, decoder)?;
        let extent = extent_of(self.offset, decoder.announced());
        self.listing
            .put_refusal(self.origin, refusal, path.as_deref(), extent)
    }
}

impl<'a, 'text> Receiver for FrameLister<'a, 'text> {
    ghost Receives = { ListsEntry };

    ghost IsFull = { λ lister. IsFull lister.listing.now.text };

    fn receive_contents(&mut self, profile: Profile, contents: &[u8]) -> Result<bool, Memory> {
        if !self.listing.put_message(self.origin, profile, contents)? {
            return Ok(false);
        }
        self.offset = and_more(self.offset, 4 + contents.len() as u64);
        Ok(true)
    }

    fn receive_refusal(
        &mut self,
        refusal: Refusal,
        decoder: &Decoder,
        size: u64,
    ) -> Result<(), Memory> {
        self.put_refusal(refusal, decoder)?;
        self.offset = and_more(self.offset, size);
        Ok(())
    }

    fn is_full(&self) -> bool {
        self.listing.is_full()
    }
}

/// Returns where a frame begins, with the length that it announces.
pub(crate) fn extent_of(offset: u64, announced: Option<u32>) -> Extent
    ensures { result ≡ record { at = offset; length = announced } }
{
    Extent {
        at: offset,
        length: announced.map(u64::from),
    }
}

/// Returns the path of the field of which the next octet is due, or that has the octet that is
/// refused, if records of the form show it.
fn path_in_frame(
    alloc: Global,
    form: Form,
    profile: Profile,
    decoder: &Decoder,
) -> Result<Option<String>, Memory>
    ensures { IfOk result (λ path. path_in form (option_map string_bytes path) ≡ path_in form (frame_path profile decoder.now.octets)) }
{
    match decoder.partial() {
        None => Ok(None),
        Some(partial) => path_of(
            alloc,
            form,
            profile,
            u64::from(partial.size),
            partial.octets,
        ),
    }
}
