//! What is listed of a capture.

ghost use Rattle.std.specs.Prelude.{◌≡◌, ◌↔◌, ◌<◌, ◌^◌, IfOk, IsTrue, OnOk, drop, false, length, take};
ghost use Rattle.std.specs.Option.{option_copied};
ghost use Rattle.krb_capture.specs.Boxed.{happened_in};
ghost use Rattle.krb_capture.specs.Ends.{IsEnded};
ghost use Rattle.krb_capture.specs.Flows.{moment_due};
ghost use Rattle.krb_capture.specs.Happened.{password_event};
ghost use Rattle.krb_capture.specs.Found.{Begun, Failed, IsFull, Faulty, Sent, Joined, Missing, Password, and_more, totals, with_found};
ghost use Rattle.krb_capture.specs.Found as found;
ghost use Rattle.krb_capture.specs.Listed.{IsListed};
ghost use Rattle.krb_capture.specs.Told.{IsListedAs, TakesBegun, TakesEnded, password_origin, unread_origin, with_event, with_news, with_news_if, with_parts_of, with_unread};

use crate::flow::Due;
use crate::happened::{Event, Happened, News, moment_of, put_news, telling};
use crate::password::Header as PasswordHeader;
use crate::style::Style;
use krb_der::{Memory, Profile, Refusal};
use krb_exchange::{Header, Moment};
use krb_flow::{Lost, Unread};
use krb_record::{CaptureCounts, CaptureOrigin, Extent, Form, IcmpError, TextBuffer};
use std::alloc::Global;
use std::marker::Model;

/// How many octets of text are written together: 64 KiB.
const FULL_OCTETS: usize = 1 << 16;

/// How what is found in a capture is written, and how many records of each kind there were in all.
#[derive(Clone, Copy)]
pub(crate) struct Tally<'a> {
    pub(crate) alloc: Global,
    pub(crate) style: Style<'a>,
    pub(crate) counts: CaptureCounts,
}

/// A text to which the records of a capture are appended, and their tally.
#[derive(Drop)]
pub(crate) struct Listing<'text> {
    pub(crate) tally: Tally<'text>,
    /// What happened, if it is told: lines without names have nothing of it.
    pub(crate) happened: Option<Box<Happened>>,
    pub(crate) text: &'text mut TextBuffer,
}

impl<'text> Model for Listing<'text> {
    ghost use Rattle.krb_capture.specs.Boxed.{happened_in};
    ghost use Rattle.krb_capture.specs.Found.{Written};
    ghost use Rattle.krb_capture.specs.Labels.{label_in};

    ghost Value = { Written };

    ghost view = { λ listing. record { label = label_in listing.tally.style; text = listing.text.now; counts = listing.tally.counts; happened = happened_in listing.happened; text_name = listing.text.ghost_name } };
}

/// Returns a count with more, or the greatest one that there is.
pub(crate) fn and_more(count: u64, more: u64) -> u64
    ensures { result ≡ and_more count more }
{
    count.saturating_add(more)
}

impl Tally<'_> {
    /// Counts a packet.
    pub(crate) fn count_packet(&mut self)
        ensures { self.new ≡ record self.old { counts = record self.old.counts { packets = and_more self.old.counts.packets 1 } } }
    {
        self.counts.packets = and_more(self.counts.packets, 1);
    }

    /// Counts a packet that could not be read.
    pub(crate) fn count_unread(&mut self)
        ensures { self.new ≡ record self.old { counts = record self.old.counts { unread = and_more self.old.counts.unread 1 } } }
    {
        self.counts.unread = and_more(self.counts.unread, 1);
    }

    /// Returns the counts, with the fragments that no whole datagram came of.
    pub(crate) fn totals(&self, fragments: u64) -> CaptureCounts
        ensures { result ≡ totals fragments self.now.counts }
    {
        let mut counts = self.counts;
        counts.unread = and_more(counts.unread, fragments);
        counts
    }
}

impl<'text> Listing<'text> {
    /// Gives the counts, what happened, and the text back.
    pub(crate) fn into_parts(self) -> (CaptureCounts, Option<Box<Happened>>, &'text mut TextBuffer)
        ensures counts { result.0 ≡ self.entry.counts }
        ensures happened { happened_in result.1 ≡ self.entry.happened }
        ensures text { result.2.now ≡ self.entry.text }
        ensures same_text { result.2.ghost_name ≡ self.entry.text_name }
    {
        (self.tally.counts, self.happened, self.text)
    }

    /// Returns what allocates for the listing.
    pub(crate) fn allocator(&self) -> Global {
        self.tally.alloc
    }

    /// Returns the form of the records.
    pub(crate) fn form(&self) -> Form
        ensures { result ≡ self.now.label.form }
    {
        self.tally.style.label.form()
    }

    /// Returns whether the text is long enough to be written.
    pub(crate) fn is_full(&self) -> bool
        ensures { IsTrue result ↔ IsFull self.now.text }
    {
        self.text.octets().len() >= FULL_OCTETS
    }

    /// Adds a message, if octets are one of a profile, and returns whether they are.
    #[inline(always)]
    pub(crate) fn put_message(
        &mut self,
        origin: &CaptureOrigin,
        profile: Profile,
        octets: &[u8],
    ) -> Result<bool, Memory>
        requires { length octets.now < 2 ^ 31 }
        ensures { IfOk result (IsListed profile octets.now origin.now self.old self.new) }
    {
        match &self.happened {
            None => self.put_message_of(origin, profile, octets),
            Some(_) => self.put_told_message(origin, profile, octets),
        }
    }

    /// Adds a message with what is told of it, as [`put_message`](Listing::put_message) does.
    #[inline(never)]
    fn put_told_message(
        &mut self,
        origin: &CaptureOrigin,
        profile: Profile,
        octets: &[u8],
    ) -> Result<bool, Memory>
        requires { length octets.now < 2 ^ 31 }
        ensures { IfOk result (IsListed profile octets.now origin.now self.old self.new) }
    {
        let Some(happened) = &self.happened else {
            return self.put_message_of(origin, profile, octets);
        };
        let event = happened.of_message(octets);
        let from = telling(origin, happened.told(event, origin));
        if !self.put_message_of(&from, profile, octets)? {
            return Ok(false);
        }
        self.take(event, origin)?;
        Ok(true)
    }

    /// Adds a message of an origin as it is, if octets are one of a profile, and returns whether they
    /// are.
    #[inline(always)]
    fn put_message_of(
        &mut self,
        origin: &CaptureOrigin,
        profile: Profile,
        octets: &[u8],
    ) -> Result<bool, Memory>
        requires { length octets.now < 2 ^ 31 }
        ensures { IfOk result (IsListedAs profile octets.now origin.now self.old self.new) }
    {
        if !self
            .tally
            .style
            .put_message(self.text, origin, profile, octets)?
        {
            return Ok(false);
        }
        self.tally.counts.messages = and_more(self.tally.counts.messages, 1);
        Ok(true)
    }

    /// Returns the origin of a refusal, or of octets that are lost, with what is told.
    fn telling_of_unread(&self, origin: &CaptureOrigin) -> CaptureOrigin
        ensures { result ≡ unread_origin origin.now self.now.happened }
    {
        match &self.happened {
            None => *origin,
            Some(happened) => telling(origin, happened.told(happened.of_unread(), origin)),
        }
    }

    /// Remembers a refusal, or octets that are lost.
    fn take_unread(&mut self, origin: &CaptureOrigin) -> Result<(), Memory>
        ensures { OnOk result (self.new ≡ with_unread origin.now self.old) }
    {
        let Some(happened) = &self.happened else {
            return Ok(());
        };
        let event = happened.of_unread();
        self.take(event, origin)
    }

    /// Remembers an event, and adds a request that is forgotten with it and has no answer.
    #[inline(never)]
    fn take(&mut self, event: Event, origin: &CaptureOrigin) -> Result<(), Memory>
        ensures { OnOk result (self.new ≡ with_event event origin.now self.old) }
    {
        let Some(happened) = &mut self.happened else {
            return Ok(());
        };
        let news = happened.take(event, origin)?;
        self.put_news_if(news, moment_of(origin))
    }

    /// Adds news, and counts them.
    #[inline(never)]
    fn put_news(&mut self, news: News, now: Moment) -> Result<(), Memory>
        ensures { OnOk result (self.new ≡ with_news news now self.old) }
    {
        let Some(happened) = &mut self.happened else {
            return Ok(());
        };
        happened.count(news);
        put_news(self.text, self.tally.style.label, now, news)?;
        Ok(())
    }

    /// Adds news, if there are some.
    fn put_news_if(&mut self, news: Option<News>, now: Moment) -> Result<(), Memory>
        ensures { OnOk result (self.new ≡ with_news_if news now self.old) }
    {
        match news {
            None => Ok(()),
            Some(news) => self.put_news(news, now),
        }
    }

    /// Adds that a direction begins: the requests that no reply answered of the one before it.
    #[inline(always)]
    pub(crate) fn put_begun(&mut self, origin: &CaptureOrigin) -> Result<(), Memory>
        ensures { OnOk result (self.new ≡ with_found origin.now Begun self.old) }
    {
        match &self.happened {
            None => Ok(()),
            Some(_) => self.put_told_begun(origin),
        }
    }

    /// Adds these requests.
    #[inline(never)]
    fn put_told_begun(&mut self, origin: &CaptureOrigin) -> Result<(), Memory>
        ensures { OnOk result (self.new ≡ with_found origin.now Begun self.old) }
    {
        while let Some(news) = self.next_begun(origin) {
            self.put_news(news, moment_of(origin))?;
        }
        Ok(())
    }

    /// Ends the next of these requests.
    fn next_begun(&mut self, origin: &CaptureOrigin) -> Option<News>
        ensures { TakesBegun result origin.now self.old self.new }
    {
        match &mut self.happened {
            None => None,
            Some(happened) => happened.next_begun(origin),
        }
    }

    /// Adds the requests and SYNs that nothing answered up to the end of the capture.
    pub(crate) fn put_ended(&mut self, last: Due) -> Result<(), Memory>
        ensures { OnOk result (IsEnded (moment_due last) self.old self.new) }
    {
        while let Some(news) = self.next_ended() {
            self.put_news(news, last.moment())?;
        }
        Ok(())
    }

    /// Takes out the next of these sendings.
    fn next_ended(&mut self) -> Option<News>
        ensures { TakesEnded result self.old self.new }
    {
        match &mut self.happened {
            None => None,
            Some(happened) => happened.next_ended(),
        }
    }

    /// Returns whether a segment may tell or change something.
    #[inline(always)]
    pub(crate) fn hears(&self, header: Header) -> bool
        ensures { result ≡ false → (origin : CaptureOrigin) → with_found origin (Sent header) self.now ≡ self.now }
    {
        match &self.happened {
            None => false,
            Some(happened) => happened.hears(header),
        }
    }

    /// Adds what a segment tells before its octets do.
    pub(crate) fn put_segment(
        &mut self,
        origin: &CaptureOrigin,
        header: Header,
    ) -> Result<(), Memory>
        ensures { OnOk result (self.new ≡ with_found origin.now (Sent header) self.old) }
    {
        let Some(happened) = &mut self.happened else {
            return Ok(());
        };
        let (reset, silent, missed) = happened.take_segment(header, origin)?;
        let now = moment_of(origin);
        self.put_news_if(reset, now)?;
        self.put_news_if(silent, now)?;
        self.put_news_if(missed, now)
    }

    /// Adds what an error tells, about a packet of the flow of an origin.
    #[inline(never)]
    pub(crate) fn put_error(
        &mut self,
        origin: &CaptureOrigin,
        error: IcmpError,
    ) -> Result<(), Memory>
        ensures { OnOk result (self.new ≡ with_found origin.now (Failed error) self.old) }
    {
        let Some(happened) = &mut self.happened else {
            return Ok(());
        };
        let news = happened.take_error(error, origin);
        self.put_news(news, moment_of(origin))
    }

    /// Adds a refusal, the path of the field at fault, and where the frame or datagram is and its
    /// length.
    #[inline(never)]
    pub(crate) fn put_refusal(
        &mut self,
        origin: &CaptureOrigin,
        refusal: Refusal,
        path: Option<&str>,
        extent: Extent,
    ) -> Result<(), Memory>
        ensures { OnOk result (self.new ≡ with_found origin.now (Faulty refusal (option_copied path.entry) extent) self.old) }
    {
        let from = self.telling_of_unread(origin);
        self.tally
            .style
            .put_refusal(self.text, &from, refusal, path, extent)?;
        self.tally.counts.refused = and_more(self.tally.counts.refused, 1);
        self.take_unread(origin)
    }

    /// Adds that a direction began without its SYN.
    #[inline(never)]
    pub(crate) fn put_joined(&mut self, origin: &CaptureOrigin) -> Result<(), Memory>
        ensures { OnOk result (self.new ≡ with_found origin.now Joined self.old) }
    {
        self.tally.style.put_joined(self.text, origin)?;
        Ok(())
    }

    /// Adds octets that are missing, and the path of the field that has the first of them.
    #[inline(never)]
    pub(crate) fn put_lost(
        &mut self,
        origin: &CaptureOrigin,
        lost: Lost,
        path: Option<&str>,
    ) -> Result<(), Memory>
        ensures { OnOk result (self.new ≡ with_found origin.now (Missing lost.place lost.octets (option_copied path.entry)) self.old) }
    {
        let from = self.telling_of_unread(origin);
        self.tally.style.put_lost(self.text, &from, lost, path)?;
        self.tally.counts.lost = and_more(self.tally.counts.lost, 1);
        self.take_unread(origin)
    }

    /// Adds octets that no message has.
    #[inline(never)]
    pub(crate) fn put_unread(
        &mut self,
        origin: &CaptureOrigin,
        unread: Unread,
    ) -> Result<(), Memory>
        ensures { OnOk result (self.new ≡ with_found origin.now (found.Unread unread.place unread.octets unread.why) self.old) }
    {
        self.tally.style.put_unread(self.text, origin, unread)?;
        self.tally.counts.unread = and_more(self.tally.counts.unread, 1);
        Ok(())
    }

    /// Adds a message that changes a password: its version, how many octets its AP-REQ or AP-REP has,
    /// which begin with `ap`, and how many follow that. These parts are added next, if they are there.
    pub(crate) fn put_password(
        &mut self,
        origin: &CaptureOrigin,
        octets: &[u8],
        ap: &[u8],
        header: PasswordHeader,
        rest: u64,
    ) -> Result<(), Memory>
        requires { ap.now ≡ take header.ap (drop 6 octets.now) }
        ensures { OnOk result (self.new ≡ with_found origin.now (Password octets.now header.version header.ap rest) self.old) }
    {
        let from = self.telling_of_password(origin, octets, ap);
        let PasswordHeader { version, ap: size } = header;
        self.tally
            .style
            .put_password(self.text, &from, octets, version, size, rest)?;
        self.take_password(origin, octets, ap)?;
        self.expect_parts(size, rest);
        Ok(())
    }

    /// Returns the origin of a message that changes a password, with what is told.
    fn telling_of_password(&self, origin: &CaptureOrigin, octets: &[u8], ap: &[u8]) -> CaptureOrigin
        ensures { result ≡ password_origin origin.now octets.now ap.now self.now.happened }
    {
        match &self.happened {
            None => *origin,
            Some(happened) => {
                telling(
                    origin,
                    happened.told(Event::of_password(octets, ap), origin),
                )
            }
        }
    }

    /// Remembers a message that changes a password.
    fn take_password(
        &mut self,
        origin: &CaptureOrigin,
        octets: &[u8],
        ap: &[u8],
    ) -> Result<(), Memory>
        ensures { OnOk result (self.new ≡ with_event (password_event octets.now ap.now) origin.now self.old) }
    {
        if self.happened.is_none() {
            return Ok(());
        }
        self.take(Event::of_password(octets, ap), origin)
    }

    /// The next messages and refusals are parts of a message that changes a password.
    fn expect_parts(&mut self, ap: u16, rest: u64)
        ensures { self.new ≡ with_parts_of ap rest self.old }
    {
        if let Some(happened) = &mut self.happened {
            happened.expect_parts(ap, rest);
        }
    }
}
