//! How what is found in a capture is written.

ghost use Rattle.std.specs.Prelude.{◌≡◌, ◌<◌, ◌^◌, ◌++◌, is_some, length, true, IfOk, OnOk};
ghost use Rattle.std.specs.Option.{option_copied};
ghost use Rattle.krb_text.specs.Messages.{PutsMessage};
ghost use Rattle.krb_capture.specs.Counts.{is_clean};
ghost use Rattle.krb_capture.specs.Decoded.{end_line, refusal_line};
ghost use Rattle.krb_capture.specs.Found.{Faulty, Joined, Missing, Password, Whole, found_line};
ghost use Rattle.krb_capture.specs.Found as found;
ghost use Rattle.krb_capture.specs.Labels.{is_wanted, label_in, writes};

use crate::{decoded, labelled};
use krb_der::{Memory, Profile, Refusal};
use krb_file::FileWhy;
use krb_flow::{Lost, Unread};
use krb_msg::view_message_in;
use krb_record::{CaptureCounts, CaptureOrigin, Extent, Form, Label, TextBuffer, ToldCounts};
use std::alloc::AllocError;

/// What of a capture is decoded: the messages of all of its packets, or of the one of a number.
#[derive(Clone, Copy, PartialEq, Eq, Debug)]
pub struct Decoding {
    /// The number of the packet, from 1, if it is one alone.
    pub packet: Option<u64>,
}

/// How what is found is written: as records with a label; or, if it is decoded, messages as lines of
/// JSON, and what is left out as records that say so.
#[derive(Clone, Copy)]
pub(crate) struct Style<'a> {
    pub(crate) label: &'a Label,
    pub(crate) decoding: Option<Decoding>,
}

/// Returns whether nothing was refused or lost, and each packet was read.
pub(crate) fn is_clean(totals: &CaptureCounts) -> bool
    ensures { result ≡ is_clean totals.now }
{
    totals.refused == 0 && totals.lost == 0 && totals.unread == 0
}

impl Decoding {
    /// Returns whether what is found with a packet is decoded.
    fn wants(self, packet: u64) -> bool
        ensures { result ≡ is_wanted self.packet packet }
    {
        match self.packet {
            None => true,
            Some(number) => packet == number,
        }
    }
}

impl Style<'_> {
    /// Returns whether what has an origin is written: of all packets, or of one.
    fn writes(self, origin: &CaptureOrigin) -> bool
        ensures { result ≡ writes self.entry.decoding origin.now }
    {
        match self.decoding {
            None => true,
            Some(decoding) => decoding.wants(origin.packet),
        }
    }

    /// Appends a message, if octets are one of a profile, and returns whether they are.
    pub(crate) fn put_message(
        self,
        text: &mut TextBuffer,
        origin: &CaptureOrigin,
        profile: Profile,
        octets: &[u8],
    ) -> Result<bool, Memory>
        requires { length octets.now < 2 ^ 31 }
        ensures { IfOk result (PutsMessage profile octets.now (λ _. found_line (label_in self.entry) origin.now (Whole octets.now)) text.old text.new) }
    {
        match self.decoding {
            None => labelled::put_message(text, self.label, origin, profile, octets),
            Some(_) => self.put_decoded(text, origin, profile, octets),
        }
    }

    /// Appends the line of a message that is decoded, if octets are one of a profile, and returns
    /// whether they are.
    fn put_decoded(
        self,
        text: &mut TextBuffer,
        origin: &CaptureOrigin,
        profile: Profile,
        octets: &[u8],
    ) -> Result<bool, Memory>
        requires short { length octets.now < 2 ^ 31 }
        requires decodes { is_some self.decoding ≡ true }
        ensures { IfOk result (PutsMessage profile octets.now (λ _. found_line (label_in self.entry) origin.now (Whole octets.now)) text.old text.new) }
    {
        let Some(_) = view_message_in(profile, octets) else {
            return Ok(false);
        };
        if self.writes(origin) {
            decoded::put_message(text, self.label.form(), origin, octets)?;
        }
        Ok(true)
    }

    /// Appends what is refused: the path of the field at fault, and where the frame or datagram is and
    /// its length.
    pub(crate) fn put_refusal(
        self,
        text: &mut TextBuffer,
        origin: &CaptureOrigin,
        refusal: Refusal,
        path: Option<&str>,
        extent: Extent,
    ) -> Result<(), AllocError>
        ensures { OnOk result (text.new ≡ text.old ++ found_line (label_in self.entry) origin.now (Faulty refusal (option_copied path.entry) extent)) }
    {
        if !self.writes(origin) {
            return Ok(());
        }
        labelled::put_refusal(text, self.label, origin, refusal, path, extent)
    }

    /// Appends that a direction began without its SYN, which has no line if it is decoded.
    pub(crate) fn put_joined(
        self,
        text: &mut TextBuffer,
        origin: &CaptureOrigin,
    ) -> Result<(), AllocError>
        ensures { OnOk result (text.new ≡ text.old ++ found_line (label_in self.entry) origin.now Joined) }
    {
        match self.decoding {
            None => labelled::put_joined(text, self.label, origin),
            Some(_) => Ok(()),
        }
    }

    /// Appends octets that are missing, with the path of the field that has the first.
    pub(crate) fn put_lost(
        self,
        text: &mut TextBuffer,
        origin: &CaptureOrigin,
        lost: Lost,
        path: Option<&str>,
    ) -> Result<(), AllocError>
        ensures { OnOk result (text.new ≡ text.old ++ found_line (label_in self.entry) origin.now (Missing lost.place lost.octets (option_copied path.entry))) }
    {
        if !self.writes(origin) {
            return Ok(());
        }
        labelled::put_lost(text, self.label, origin, lost, path)
    }

    /// Appends octets that no message has.
    pub(crate) fn put_unread(
        self,
        text: &mut TextBuffer,
        origin: &CaptureOrigin,
        unread: Unread,
    ) -> Result<(), AllocError>
        ensures { OnOk result (text.new ≡ text.old ++ found_line (label_in self.entry) origin.now (found.Unread unread.place unread.octets unread.why)) }
    {
        if !self.writes(origin) {
            return Ok(());
        }
        labelled::put_unread(text, self.label, origin, unread)
    }

    /// Appends a message that changes a password, which has no line if it is decoded: its parts have.
    pub(crate) fn put_password(
        self,
        text: &mut TextBuffer,
        origin: &CaptureOrigin,
        octets: &[u8],
        version: u16,
        ap: u16,
        rest: u64,
    ) -> Result<(), AllocError>
        ensures { OnOk result (text.new ≡ text.old ++ found_line (label_in self.entry) origin.now (Password octets.now version ap rest)) }
    {
        match self.decoding {
            None => labelled::put_password(text, self.label, origin, version, ap, rest),
            Some(_) => Ok(()),
        }
    }

    /// Appends the end of a capture.
    pub(crate) fn put_end(
        self,
        text: &mut TextBuffer,
        counts: &CaptureCounts,
        told: &ToldCounts,
    ) -> Result<(), AllocError>
        ensures { OnOk result (text.new ≡ text.old ++ end_line (label_in self.entry) counts.now told.now) }
    {
        match self.decoding {
            None => labelled::put_end(text, self.label, counts, told),
            Some(Decoding { packet: None }) if !is_clean(counts) => {
                labelled::put_end(text, &Label::none(Form::Lines), counts, told)
            }
            Some(_) => Ok(()),
        }
    }

    /// Appends that the file of a capture is at fault.
    pub(crate) fn put_file_refusal(
        self,
        text: &mut TextBuffer,
        counts: &CaptureCounts,
        told: &ToldCounts,
        place: u64,
        why: FileWhy,
        path: Option<&str>,
        extent: Extent,
    ) -> Result<(), AllocError>
        ensures { OnOk result (text.new ≡ text.old ++ refusal_line (label_in self.entry) counts.now told.now place why (option_copied path.entry) extent) }
    {
        match self.decoding {
            None => {
                labelled::put_file_refusal(text, self.label, counts, told, place, why, path, extent)
            }
            Some(_) => {
                let form = self.label.form();
                decoded::put_file_refusal(text, form, counts, place, why, path, extent)
            }
        }
    }
}
