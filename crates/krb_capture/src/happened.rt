//! What happened in a capture: what is told of requests and of the replies to them.

ghost use Rattle.std.specs.Prelude.{◌≡◌, ◌+◌, false, [], ◌∷◌, ◌++◌, IfNone, IfOk, OnOk};
ghost use Rattle.krb_capture.specs.Happened.{again_counted, at_moment, end_news, error_heard, again_for, answer_counted, answer_for, answer_with, begun_heard, by_part, heard, kind_in, kind_role, kind_tells, message_event, missed, missed_record, moment_of, news_counted, news_line, news_origin, news_record, nothing_happened, part_count, password_event, request_heard, reply_heard, reset, segment_heard, span_between, telling, told_of, unread_event, waited};
ghost use Rattle.krb_capture.specs.Labels.{of_records};
ghost use Rattle.krb_capture.specs.Told.{listed};
ghost use Rattle.krb_record.specs.Captures.{captured};
ghost use Rattle.krb_record.specs.Forms.{record_line};

use crate::listing::and_more;
use crate::password::begins_ap_req;
use krb_der::Memory;
use krb_exchange::{Fingerprint, Header, Moment, Reply, Sending, Sendings, What};
use krb_msg::Kind;
use krb_record::{
    Answer, CaptureOrigin, Flow, Form, How, IcmpError, Label, Request, Span, TextBuffer, Told,
    ToldCounts, microseconds, put_unanswered, put_unreachable,
};
use krb_source::Timestamp;
use std::alloc::{AllocError, Global};

/// What something that is found is to an exchange.
#[derive(Clone, Copy)]
pub(crate) enum Role {
    /// Neither a request nor a reply.
    Neither,
    /// A request, and by what its octets are known.
    Request(Request, Fingerprint),
    /// A reply.
    Reply(Reply),
}

/// Which fields the origin of a record has by its kind.
#[derive(Clone, Copy)]
pub(crate) enum Tells {
    /// None.
    Nothing,
    /// That of a request.
    Request,
    /// Those of a reply.
    Reply,
    /// Those of both.
    Either,
}

/// What happens with something that is found.
#[derive(Clone, Copy)]
pub(crate) struct Event {
    tells: Tells,
    role: Role,
}

/// Returns the kind of a message by its first octet.
fn kind_of(octets: &[u8]) -> Option<Kind>
    ensures { result ≡ kind_in octets.now }
{
    match octets {
        [first, ..] => Kind::of_tag(*first),
        [] => None,
    }
}

/// Returns what the origin of a message tells.
fn tells_of(kind: Option<Kind>) -> Tells
    ensures { result ≡ kind_tells kind }
{
    match kind {
        Some(Kind::AsReq | Kind::TgsReq) => Tells::Request,
        Some(Kind::AsRep | Kind::TgsRep | Kind::KrbError) => Tells::Reply,
        _ => Tells::Nothing,
    }
}

/// Returns what a message is to an exchange.
fn role_of(kind: Option<Kind>, octets: &[u8]) -> Role
    ensures { result ≡ kind_role kind octets.now }
{
    match kind {
        Some(Kind::AsReq) => Role::Request(Request::AsReq, Fingerprint::of(octets)),
        Some(Kind::TgsReq) => Role::Request(Request::TgsReq, Fingerprint::of(octets)),
        Some(Kind::AsRep) => Role::Reply(Reply::AsRep),
        Some(Kind::TgsRep) => Role::Reply(Reply::TgsRep),
        Some(Kind::KrbError) => Role::Reply(Reply::Error),
        _ => Role::Neither,
    }
}

impl Event {
    /// Returns that of a message.
    fn of_message(octets: &[u8]) -> Event
        ensures { result ≡ message_event octets.now }
    {
        let kind = kind_of(octets);
        Event {
            tells: tells_of(kind),
            role: role_of(kind, octets),
        }
    }

    /// Returns that of a refusal, or of octets that are lost: a reply of any kind.
    fn unread() -> Event
        ensures { result ≡ unread_event }
    {
        Event {
            tells: Tells::Reply,
            role: Role::Reply(Reply::Unread),
        }
    }

    /// Returns that of a message that changes a password: a request if it has an AP-REQ.
    pub(crate) fn of_password(octets: &[u8], ap: &[u8]) -> Event
        ensures { result ≡ password_event octets.now ap.now }
    {
        let role = if begins_ap_req(ap) {
            Role::Request(Request::Kpasswd, Fingerprint::of(octets))
        } else {
            Role::Reply(Reply::Kpasswd)
        };
        Event {
            tells: Tells::Either,
            role,
        }
    }
}

/// Returns the packet with which a record is due.
pub(crate) fn moment_of(origin: &CaptureOrigin) -> Moment
    ensures { result ≡ moment_of origin.now }
{
    Moment {
        packet: origin.packet,
        time: origin.time,
    }
}

/// Returns the time from one packet to another, if both have one.
fn span_between(from: Option<Timestamp>, to: Option<Timestamp>) -> Option<Span>
    ensures { result ≡ span_between from to }
{
    let from = from?;
    let to = to?;
    Some(Span {
        microseconds: microseconds(to) as i64 - microseconds(from) as i64,
    })
}

/// Returns how long a sending waited up to a packet.
fn waited(sending: Sending, now: Moment) -> Answer
    ensures { result ≡ waited sending now }
{
    Answer {
        of: Some(sending.sent.packet),
        after: span_between(sending.sent.time, now.time),
        waited: span_between(sending.first.time, now.time),
    }
}

/// Returns what is told of a reply to a request, or to none.
fn answer_with(sending: Option<Sending>, now: Moment) -> Answer
    ensures { result ≡ answer_with sending now }
{
    match sending {
        None => Answer {
            of: None,
            after: None,
            waited: None,
        },
        Some(sending) => waited(sending, now),
    }
}

/// Returns the same origin with what is told of an exchange.
pub(crate) fn telling(origin: &CaptureOrigin, told: Told) -> CaptureOrigin
    ensures { result ≡ telling origin.now told }
{
    CaptureOrigin {
        packet: origin.packet,
        time: origin.time,
        flow: origin.flow,
        told,
    }
}

/// What is told in a record of its own.
#[derive(Clone, Copy)]
pub(crate) enum News {
    /// A request that no reply answered, or a SYN that nothing did.
    Missed(Sending),
    /// A SYN that was reset.
    Reset(Sending),
    /// An error about a packet of a flow, and the request or the SYN that it is about, if one is
    /// open.
    Failed(Flow, IcmpError, Option<Sending>),
}

/// Returns the origin of a record of a flow that is told with a packet.
fn at_moment(now: Moment, flow: Flow) -> CaptureOrigin
    ensures { result ≡ at_moment now flow }
{
    CaptureOrigin {
        packet: now.packet,
        time: now.time,
        flow,
        told: Told::Nothing,
    }
}

/// Appends the record of a sending that nothing answered.
fn put_missed(
    text: &mut TextBuffer,
    form: Form,
    now: Moment,
    sending: Sending,
) -> Result<(), AllocError>
    ensures { OnOk result (text.new ≡ text.old ++ record_line form (captured form (at_moment now sending.flow) (missed_record now sending.what sending))) }
{
    let origin = at_moment(now, sending.flow);
    let answer = waited(sending, now);
    match sending.what {
        What::Request(request, _) => put_unanswered(text, form, &origin, request, &answer),
        What::Syn(_) => put_unreachable(text, form, &origin, How::Silent, &answer),
    }
}

/// Appends the record of news that are told with a packet.
fn put_news_record(
    text: &mut TextBuffer,
    form: Form,
    now: Moment,
    news: News,
) -> Result<(), AllocError>
    ensures { OnOk result (text.new ≡ text.old ++ record_line form (captured form (news_origin now news) (news_record now news))) }
{
    match news {
        News::Missed(sending) => put_missed(text, form, now, sending),
        News::Reset(sending) => {
            let origin = at_moment(now, sending.flow);
            put_unreachable(text, form, &origin, How::Reset, &waited(sending, now))
        }
        News::Failed(flow, error, sending) => {
            let origin = at_moment(now, flow);
            let answer = answer_with(sending, now);
            put_unreachable(text, form, &origin, How::Error(error), &answer)
        }
    }
}

/// Appends the same with a label.
pub(crate) fn put_news(
    text: &mut TextBuffer,
    label: &Label,
    now: Moment,
    news: News,
) -> Result<(), AllocError>
    ensures { OnOk result (text.new ≡ text.old ++ news_line (of_records label.now) now news) }
{
    label.begin(text)?;
    put_news_record(text, label.form(), now, news)?;
    label.end(text)
}

/// Returns a sending that nothing answered as news.
fn missed(sending: Option<Sending>) -> Option<News>
    ensures { listed result ≡ missed sending }
{
    match sending {
        None => None,
        Some(sending) => Some(News::Missed(sending)),
    }
}

/// Returns a SYN that was reset as news.
fn reset(sending: Option<Sending>) -> Option<News>
    ensures { listed result ≡ reset sending }
{
    match sending {
        None => None,
        Some(sending) => Some(News::Reset(sending)),
    }
}

/// What happened in a capture, as far as it is remembered, and how much was told of it.
#[derive(Drop)]
pub(crate) struct Happened {
    sendings: Sendings,
    /// How many of the next messages and refusals are parts of a message that changes a password.
    parts: u8,
    pub(crate) counts: ToldCounts,
}

impl Happened {
    /// Creates what happened in no packets.
    pub(crate) fn new(alloc: Global) -> Happened
        ensures { result ≡ nothing_happened }
    {
        Happened {
            sendings: Sendings::new(alloc),
            parts: 0,
            counts: ToldCounts {
                answered: 0,
                unanswered: 0,
                again: 0,
                unreachable: 0,
            },
        }
    }

    /// Returns what happens with a message.
    pub(crate) fn of_message(&self, octets: &[u8]) -> Event
        ensures { result ≡ by_part self.now.parts (message_event octets.now) }
    {
        self.by_part(Event::of_message(octets))
    }

    /// Returns what happens with a refusal, or with octets that are lost.
    pub(crate) fn of_unread(&self) -> Event
        ensures { result ≡ by_part self.now.parts unread_event }
    {
        self.by_part(Event::unread())
    }

    /// Returns an event, which is neither a request nor a reply if it is that of a part.
    fn by_part(&self, event: Event) -> Event
        ensures { result ≡ by_part self.now.parts event }
    {
        if self.parts == 0 {
            event
        } else {
            Event {
                tells: event.tells,
                role: Role::Neither,
            }
        }
    }

    /// Returns the packet of the first sending of the octets of a request.
    fn again(&self, role: Role) -> Option<u64>
        ensures { result ≡ again_for role self.now.sendings }
    {
        match role {
            Role::Request(_, octets) => self.sendings.again_of(&octets),
            Role::Neither | Role::Reply(_) => None,
        }
    }

    /// Returns the request that a reply answers.
    fn answer(&self, role: Role, origin: &CaptureOrigin) -> Answer
        ensures { result ≡ answer_for role origin.now self.now.sendings }
    {
        let answered = match role {
            Role::Reply(reply) => self.sendings.answer_of(reply, origin.flow),
            Role::Neither | Role::Request(..) => None,
        };
        answer_with(answered, moment_of(origin))
    }

    /// Returns what is told of an event.
    pub(crate) fn told(&self, event: Event, origin: &CaptureOrigin) -> Told
        ensures { result ≡ told_of event origin.now self.now.sendings }
    {
        match event.tells {
            Tells::Nothing => Told::Nothing,
            Tells::Request => Told::Request(self.again(event.role)),
            Tells::Reply => Told::Reply(self.answer(event.role, origin)),
            Tells::Either => Told::Either(self.again(event.role), self.answer(event.role, origin)),
        }
    }

    /// Remembers an event. Returns a request that is forgotten with it, if no reply answered that.
    pub(crate) fn take(
        &mut self,
        event: Event,
        origin: &CaptureOrigin,
    ) -> Result<Option<News>, Memory>
        ensures news { IfOk result (λ news. listed news ≡ (heard event origin.now self.old).news) }
        ensures happened { OnOk result (self.new ≡ (heard event origin.now self.old).happened) }
    {
        self.parts = self.parts.saturating_sub(1);
        match event.role {
            Role::Neither => Ok(None),
            Role::Request(request, octets) => self.take_request(request, octets, origin),
            Role::Reply(reply) => {
                self.take_reply(reply, origin);
                Ok(None)
            }
        }
    }

    /// Remembers a request. Returns one that is forgotten with it, if no reply answered that.
    fn take_request(
        &mut self,
        request: Request,
        octets: Fingerprint,
        origin: &CaptureOrigin,
    ) -> Result<Option<News>, Memory>
        ensures news { IfOk result (λ news. listed news ≡ (request_heard request octets origin.now self.old).news) }
        ensures happened { OnOk result (self.new ≡ (request_heard request octets origin.now self.old).happened) }
    {
        let moment = moment_of(origin);
        let told = self.sendings.request(request, origin.flow, octets, moment)?;
        self.count_again(told.again);
        Ok(missed(told.missed))
    }

    /// Counts a request, if it was sent before.
    fn count_again(&mut self, again: Option<u64>)
        ensures { self.new ≡ record self.old { counts = again_counted again self.old.counts } }
    {
        if again.is_some() {
            self.counts.again = and_more(self.counts.again, 1);
        }
    }

    /// Ends the request that a reply answers, and counts that.
    fn take_reply(&mut self, reply: Reply, origin: &CaptureOrigin)
        ensures { self.new ≡ (reply_heard reply origin.now self.old).happened }
    {
        let answered = self.sendings.reply(reply, origin.flow);
        if answered.is_some() {
            self.counts.answered = and_more(self.counts.answered, 1);
        }
    }

    /// The next messages and refusals are the parts of a message that changes a password, which have
    /// so many octets.
    pub(crate) fn expect_parts(&mut self, ap: u16, rest: u64)
        ensures { self.new ≡ record self.old { parts = part_count ap + part_count rest } }
    {
        self.parts = u8::from(ap > 0) + u8::from(rest > 0);
    }

    /// Ends the next open request of a direction that begins anew.
    pub(crate) fn next_begun(&mut self, origin: &CaptureOrigin) -> Option<News>
        ensures same { self.new ≡ record self.old { sendings = self.new.sendings } }
        ensures next { listed result ++ (begun_heard origin.now self.new).news ≡ (begun_heard origin.now self.old).news }
        ensures left { (begun_heard origin.now self.new).happened ≡ (begun_heard origin.now self.old).happened }
        ensures none { IfNone result (self.new ≡ (begun_heard origin.now self.old).happened) }
    {
        missed(self.sendings.begun(origin.flow))
    }

    /// Takes out the next sending that is open at the end of the capture.
    pub(crate) fn next_ended(&mut self) -> Option<News>
        ensures same { self.new ≡ record self.old { sendings = self.new.sendings } }
        ensures next { listed result ++ end_news self.new ≡ end_news self.old }
        ensures none { IfNone result (end_news self.old ≡ []) }
    {
        missed(self.sendings.end())
    }

    /// Returns whether a segment may tell or change something.
    pub(crate) fn hears(&self, header: Header) -> bool
        ensures { result ≡ false → (origin : CaptureOrigin) → segment_heard header origin self.now ≡ record { news = []; happened = self.now } }
    {
        self.sendings.hears(header)
    }

    /// Takes a segment. Returns at most three news, in order.
    pub(crate) fn take_segment(
        &mut self,
        header: Header,
        origin: &CaptureOrigin,
    ) -> Result<(Option<News>, Option<News>, Option<News>), Memory>
        ensures news { IfOk result (λ news. listed news.0 ++ listed news.1 ++ listed news.2 ≡ (segment_heard header origin.now self.old).news) }
        ensures happened { OnOk result (self.new ≡ (segment_heard header origin.now self.old).happened) }
    {
        let told = self
            .sendings
            .segment(header, origin.flow, moment_of(origin))?;
        Ok((reset(told.reset), missed(told.silent), missed(told.missed)))
    }

    /// Takes an error about a packet of the flow of an origin.
    pub(crate) fn take_error(&mut self, error: IcmpError, origin: &CaptureOrigin) -> News
        ensures news { result ∷ [] ≡ (error_heard error origin.now self.old).news }
        ensures happened { self.new ≡ (error_heard error origin.now self.old).happened }
    {
        News::Failed(origin.flow, error, self.sendings.error(origin.flow))
    }

    /// Counts news.
    pub(crate) fn count(&mut self, news: News)
        ensures { self.new ≡ record self.old { counts = news_counted news self.old.counts } }
    {
        let is_unanswered = match news {
            News::Missed(sending) => matches!(sending.what, What::Request(..)),
            News::Reset(_) | News::Failed(..) => false,
        };
        if is_unanswered {
            self.counts.unanswered = and_more(self.counts.unanswered, 1);
        } else {
            self.counts.unreachable = and_more(self.counts.unreachable, 1);
        }
    }
}
