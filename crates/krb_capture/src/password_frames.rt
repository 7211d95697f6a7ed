//! Frames whose contents are messages that change passwords.

ghost use Rattle.std.specs.Prelude.{◌≡◌, ◌+◌, ◌^◌, ◌<◌, ◌≤◌, ℕ, false, List, [], ◌++◌, length, take, IfOk, OnOk};
ghost use Rattle.std.specs.Option.{option_copied};
ghost use Rattle.krb_capture.specs.Found.{IsFull, with_all, with_found};
ghost use Rattle.krb_capture.specs.Streams.{cut_refusal, extent_at, found_with, length_found, open_path};
ghost use Rattle.krb_capture.specs.Passed.{ListsContents, ListsContentsOf, ListsWhole, PassesOver, TakesPasswords, frame_end, frame_length};
ghost use Rattle.krb_capture.specs.Taken.{TookPasswords};
ghost use Rattle.krb_capture.specs.declared.flow.Service.TheVariants as services;

use crate::listing::{Listing, and_more};
use crate::message_frames::extent_of;
use crate::password::list_password;
use krb_der::{Memory, Profile, Refusal, Why};
use krb_frame::{Limit, first_frame, length_fault};
use krb_record::{CaptureOrigin, Extent};
use std::alloc::Global;

/// How many octets a frame's length has.
const LENGTH: usize = 4;

/// The frames of messages that change passwords. It keeps the octets of the frame that is not whole
/// yet: a message is looked at once it is.
#[derive(Drop)]
pub(crate) struct PasswordFrames {
    limit: Limit,
    /// By which the messages are judged.
    profile: Profile,
    /// The octets of the frame that is not whole yet, its length first.
    octets: Vec<u8>,
    /// How many octets of a frame that was refused are to come.
    skipped: u32,
    /// As of [`MessageFrames`](crate::message_frames::MessageFrames).
    pub(crate) is_over: bool,
    /// Where in the direction that frame begins.
    offset: u64,
}

impl PasswordFrames {
    /// Creates those of a direction with no octets yet.
    pub(crate) fn new(alloc: Global, limit: Limit, profile: Profile) -> PasswordFrames
        ensures { TookPasswords profile result limit [] }
    {
        PasswordFrames {
            limit,
            profile,
            octets: Vec::new(alloc),
            skipped: 0,
            is_over: false,
            offset: 0,
        }
    }

    /// Takes the next octets, until the listing is full, and lists the frames that are whole with
    /// them or refused. Returns how many octets it took.
    #[inline(never)]
    pub(crate) fn take(
        &mut self,
        octets: &[u8],
        origin: &CaptureOrigin,
        listing: &mut Listing<'_>,
    ) -> Result<usize, Memory>
        ensures few { IfOk result (λ count. count ≤ length octets.now) }
        ensures full { IfOk result (λ count. count < length octets.now → IsFull listing.new.text) }
        ensures profile { OnOk result (self.new.profile ≡ self.old.profile) }
        ensures took { IfOk result (λ count. (profile : Profile) (limit : ℕ) (stream : List ℕ) → TookPasswords profile self.old limit stream → TookPasswords profile self.new limit (stream ++ take count octets.now)) }
        ensures listed { IfOk result (λ count. (profile : Profile) (limit : ℕ) (stream : List ℕ) → TookPasswords profile self.old limit stream → listing.new ≡ with_all origin.now (found_with (services.Passwords profile) limit stream (take count octets.now)) listing.old) }
    {
        let mut count = 0;
        while count < octets.len() && !listing.is_full() {
            count += self.take_some(&octets[count..], origin, listing)?;
        }
        Ok(count)
    }

    /// Takes the first ones of some octets, and lists the frame that is whole with them or refused.
    /// Returns how many it took. A frame that lies whole there is not copied.
    fn take_some(
        &mut self,
        octets: &[u8],
        origin: &CaptureOrigin,
        listing: &mut Listing<'_>,
    ) -> Result<usize, Memory>
        requires { 0 < length octets.now }
        ensures some { IfOk result (λ count. (0 < count) × (count ≤ length octets.now)) }
        ensures took { IfOk result (λ count. TakesPasswords self.old self.new (take count octets.now) origin.now listing.old listing.new) }
    {
        if self.is_over {
            return Ok(octets.len());
        }
        if self.skipped > 0 {
            let count = octets.len().min(self.skipped as usize);
            self.skipped -= count as u32;
            return Ok(count);
        }
        if self.octets.is_empty() {
            if let Some(frame) = first_frame(self.limit, octets) {
                return self.list_lent(frame.contents, origin, listing);
            }
        }
        self.keep_some(octets, origin, listing)
    }

    /// Lists a frame that lies whole in the octets that are taken, and begins the next one. Returns
    /// how many octets it has.
    fn list_lent(
        &mut self,
        contents: &[u8],
        origin: &CaptureOrigin,
        listing: &mut Listing<'_>,
    ) -> Result<usize, Memory>
        requires { length contents.now < 2 ^ 31 }
        ensures { IfOk result (λ count. (count ≡ 4 + length contents.now) × ListsContentsOf self.old (length contents.now) contents.now self.new origin.now listing.old listing.new) }
    {
        let size = contents.len() as u32;
        let extent = extent_of(self.offset, Some(size));
        list_password(
            self.profile,
            contents,
            LENGTH as u32,
            extent,
            origin,
            listing,
        )?;
        self.pass_over(size, 0);
        Ok(LENGTH + contents.len())
    }

    /// Keeps octets up to the end of the frame or, while that is not known, of its length, and
    /// lists the frame if it is whole then or refused. Returns how many it kept.
    fn keep_some(
        &mut self,
        octets: &[u8],
        origin: &CaptureOrigin,
        listing: &mut Listing<'_>,
    ) -> Result<usize, Memory>
        requires some { 0 < length octets.now }
        requires goes { self.old.is_over ≡ false }
        requires none_skipped { self.old.skipped ≡ 0 }
        ensures some { IfOk result (λ count. (0 < count) × (count ≤ length octets.now)) }
        ensures took { IfOk result (λ count. TakesPasswords self.old self.new (take count octets.now) origin.now listing.old listing.new) }
    {
        let missing = self.end().saturating_sub(self.octets.len());
        let count = missing.max(1).min(octets.len());
        self.octets.extend_from_slice(&octets[..count])?;
        self.list_whole(origin, listing)?;
        Ok(count)
    }

    /// Returns how many octets the frame has or, while that is not known, its length.
    fn end(&self) -> usize
        ensures { result ≡ frame_end self.now.octets.items }
    {
        match self.length() {
            Some(size) => LENGTH + size as usize,
            None => LENGTH,
        }
    }

    /// Lists the frame if it is whole or refused, and begins the next one.
    fn list_whole(
        &mut self,
        origin: &CaptureOrigin,
        listing: &mut Listing<'_>,
    ) -> Result<(), Memory>
        ensures listed { OnOk result (ListsWhole self.old self.new origin.now listing.old listing.new) }
        ensures profile { OnOk result (self.new.profile ≡ self.old.profile) }
    {
        let Some(size) = self.length() else {
            return Ok(());
        };
        let Some(why) = length_fault(self.limit, size) else {
            return self.list_contents(size, origin, listing);
        };
        let extent = self.extent();
        if let Why::HighBit = why {
            self.is_over = true;
        } else {
            self.pass_over(size, size);
        }
        list_refused(why, extent, origin, listing)
    }

    /// Lists the frame, whose contents are `size` octets, if it is whole, and begins the next one.
    fn list_contents(
        &mut self,
        size: u32,
        origin: &CaptureOrigin,
        listing: &mut Listing<'_>,
    ) -> Result<(), Memory>
        requires { 4 ≤ length self.old.octets.items }
        ensures { OnOk result (ListsContents self.old size self.new origin.now listing.old listing.new) }
    {
        if self.octets.len() < LENGTH + size as usize {
            return Ok(());
        }
        let extent = extent_of(self.offset, Some(size));
        list_password(
            self.profile,
            &self.octets[LENGTH..],
            LENGTH as u32,
            extent,
            origin,
            listing,
        )?;
        self.pass_over(size, 0);
        Ok(())
    }

    /// Returns the length of the frame, once its octets are there.
    fn length(&self) -> Option<u32>
        ensures { result ≡ frame_length self.now.octets.items }
    {
        match self.octets.as_slice() {
            [a, b, c, d, ..] => Some(u32::from_be_bytes([*a, *b, *c, *d])),
            _ => None,
        }
    }

    /// Begins the frame after one of `size` octets, `count` of which are still to come and are not
    /// kept, and frees the memory of that one.
    fn pass_over(&mut self, size: u32, count: u32)
        ensures { PassesOver self.old size count self.new }
    {
        self.skipped = count;
        self.octets = Vec::new(*self.octets.allocator());
        self.offset = and_more(self.offset, LENGTH as u64 + u64::from(size));
    }

    /// Returns the path in the frame that is not whole: there is none in its length.
    pub(crate) fn path(&self) -> Option<&'static str>
        ensures { option_copied result ≡ open_path (services.Passwords self.now.profile) self.now.octets.items }
    {
        (self.octets.len() >= LENGTH).then_some("KPASSWD")
    }

    /// Returns where the frame begins that is not whole, and the length that it announces.
    pub(crate) fn extent(&self) -> Extent
        ensures { result ≡ extent_at self.now.offset self.now.octets.items }
    {
        extent_of(self.offset, self.length())
    }

    /// Returns why a frame is refused that is not whole at the end, if there is one.
    pub(crate) fn finish(&self) -> Option<Refusal>
        ensures { (profile : Profile) (limit : ℕ) (stream : List ℕ) → TookPasswords profile self.now limit stream → self.now.is_over ≡ false → result ≡ cut_refusal self.now.octets.items }
    {
        if self.octets.is_empty() {
            return None;
        }
        let place = u32::try_from(self.octets.len()).ok()?;
        Some(Refusal {
            place,
            why: Why::Truncated,
        })
    }
}

/// Lists a frame that is refused for its length.
fn list_refused(
    why: Why,
    extent: Extent,
    origin: &CaptureOrigin,
    listing: &mut Listing<'_>,
) -> Result<(), Memory>
    ensures { OnOk result (listing.new ≡ with_found origin.now (length_found extent why) listing.old) }
{
    listing.put_refusal(origin, Refusal { place: 3, why }, None, extent)
}
