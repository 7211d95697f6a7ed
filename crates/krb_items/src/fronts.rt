//! What the octets that are there of a token decide, of which so many are announced.
//!
//! It judges GSS-API tokens and those of SPNEGO that were cut, and the message in them. Whole ones are
//! judged by `krb_token`.

ghost use Rattle.std.specs.Prelude.{◌≡◌, ◌+◌, ◌^◌, ◌<◌, ◌≤◌, length, map, pos, true, IfOk, MatchResult, Ok, Err};
ghost use Rattle.krb_msg.specs.Judgement.{bits_contents, fitting, integer_contents, long_head, short_head};
ghost use Rattle.krb_token.specs.Gss.{is_kerberos, message_tag};
ghost use Rattle.krb_items.specs.Fronts.{all_entered, ended_front, entered, fault_at, fields_front, first_octet, front_after, front_of_size, gss_front, gss_verdict, headed_front, identifier_front, identifier_outcome, identifiers_front, inner_mechanism, kerberos_front, leaf_front, message_front, message_of_tag, neg_front, outcome_at, outer_mechanism, sequence_front, shape_front, spnego_front, spnego_in_gss_front, spnego_verdict, token_front, verdict_of};
ghost use Rattle.krb_items.specs.Seen.{IsInRoom, front_of, token_by as judged_by};
ghost use Rattle.krb_items.specs.Shapes.{field_of};

use crate::head::{begins, count_of, from, part};
use crate::shape::{Field, Leaf, NegToken, Sequence, Shape};
use crate::tag::Tag;
use crate::tokens::{NEGOTIATION, may_be_ntlm};
use crate::walk::begin_as;
use krb_der::{Profile, Refusal, Verdict, Why, last_or_zero, number_of};
use krb_judge::judge_in;

/// The identifier of Kerberos V5, 1.2.840.113554.1.2.2 (RFC 4121, 4.1).
const KERBEROS: [u8; 9] = [0x2A, 0x86, 0x48, 0x86, 0xF7, 0x12, 0x01, 0x02, 0x02];

/// That of Kerberos V5 as Windows also writes it, 1.2.840.48018.1.2.2 (RFC 4559, 4).
const KERBEROS_OF_WINDOWS: [u8; 9] = [0x2A, 0x86, 0x48, 0x82, 0xF7, 0x12, 0x01, 0x02, 0x02];

/// That of Kerberos V5 from user to user, 1.2.840.113554.1.2.2.3.
const USER_TO_USER: [u8; 10] = [0x2A, 0x86, 0x48, 0x86, 0xF7, 0x12, 0x01, 0x02, 0x02, 0x03];

/// How deep the SEQUENCEs of a token of SPNEGO nest.
const SEQUENCES: u8 = 2;

/// Octets of a room, as far as they are there.
#[derive(Clone, Copy)]
pub(crate) struct Front<'a> {
    /// The place of the first of them.
    pub(crate) place: u32,
    /// How many octets there are to be.
    pub(crate) room: u32,
    /// Those that are there.
    pub(crate) octets: &'a [u8],
}

/// Why no more is read.
#[derive(Clone, Copy)]
pub(crate) enum Stop {
    /// The octets end.
    End,
    /// An octet is at fault.
    Fault(Refusal),
}

/// Returns that an octet is at fault.
fn fault_at<T>(place: u32, why: Why) -> Result<T, Stop>
    ensures { result ≡ fault_at place why }
{
    Err(Stop::Fault(Refusal { place, why }))
}

impl<'a> Front<'a> {
    /// Returns what follows so many octets.
    fn after(self, count: u64) -> Front<'a>
        requires room { IsInRoom self }
        requires within { count ≤ self.room }
        ensures after { front_of result ≡ front_after count (front_of self.entry) }
        ensures room { IsInRoom result }
    {
        Front {
            place: self.place + count as u32,
            room: self.room - count as u32,
            octets: from(self.octets, count),
        }
    }

    /// Returns the first octet. Where there is no room for it, it is missing.
    fn first(self) -> Result<u8, Stop>
        ensures octet { result ≡ first_octet (front_of self.entry) }
        ensures room { IfOk result (λ octet. (0 < self.entry.room) × (0 < length self.entry.octets.now)) }
    {
        if self.room == 0 {
            return fault_at(self.place.saturating_sub(1), Why::Missing);
        }
        match self.octets.first() {
            None => Err(Stop::End),
            Some(octet) => Ok(*octet),
        }
    }

    /// Returns the contents after so many octets of a head, if they fit; the sole item fills the room.
    fn contents(self, sole: bool, header: u32, size: u64) -> Result<Front<'a>, Stop>
        requires room { IsInRoom self }
        requires some { 2 ≤ header }
        requires header { header ≤ self.room }
        ensures contents { MatchResult result (λ inside. headed_front sole (front_of self.entry) (fitting self.entry.room header size) ≡ Ok (front_of inside)) (λ stop. headed_front sole (front_of self.entry) (fitting self.entry.room header size) ≡ Err stop) }
        ensures room { IfOk result IsInRoom }
    {
        let last = self.place + (header - 1);
        let left = u64::from(self.room - header);
        if size > left {
            return fault_at(last, Why::Overrun);
        }
        if sole && size < left {
            return fault_at(last, Why::Loose);
        }
        Ok(Front {
            place: self.place + header,
            room: size as u32,
            octets: part(self.octets, u64::from(header), size),
        })
    }

    /// Returns the contents after a length of the long form, of which so many octets follow the first.
    fn long_contents(self, sole: bool, count: u8, octets: &[u8]) -> Result<Front<'a>, Stop>
        requires room { IsInRoom self }
        requires count { (1 ≤ count) × (count ≤ 4) }
        requires fits { 2 + count ≤ self.room }
        ensures contents { MatchResult result (λ inside. headed_front sole (front_of self.entry) (long_head self.entry.room count octets.now) ≡ Ok (front_of inside)) (λ stop. headed_front sole (front_of self.entry) (long_head self.entry.room count octets.now) ≡ Err stop) }
        ensures room { IfOk result IsInRoom }
    {
        let [digit, ..] = octets else {
            return Err(Stop::End);
        };
        if *digit == 0 || count == 1 && *digit < 0x80 {
            return fault_at(self.place + 2, Why::LengthNotMinimal);
        }
        let digits = usize::from(count);
        if octets.len() < digits {
            return Err(Stop::End);
        }
        self.contents(sole, 2 + u32::from(count), number_of(&octets[..digits]))
    }

    /// Returns the contents by the first length octet and those that are there after it.
    fn contents_by(self, sole: bool, first: u8, octets: &[u8]) -> Result<Front<'a>, Stop>
        requires room { IsInRoom self }
        requires some { 2 ≤ self.room }
        ensures contents { MatchResult result (λ inside. headed_front sole (front_of self.entry) (short_head self.entry.room first octets.now) ≡ Ok (front_of inside)) (λ stop. headed_front sole (front_of self.entry) (short_head self.entry.room first octets.now) ≡ Err stop) }
        ensures room { IfOk result IsInRoom }
    {
        if first < 0x80 {
            return self.contents(sole, 2, u64::from(first));
        }
        if first == 0x80 {
            return fault_at(self.place + 1, Why::Indefinite);
        }
        if first > 0x84 {
            return fault_at(self.place + 1, Why::LengthWide);
        }
        let count = first - 0x80;
        if self.room < 2 + u32::from(count) {
            return fault_at(self.place + 1, Why::Overrun);
        }
        self.long_contents(sole, count, octets)
    }

    /// Returns the contents of the item that has a tag. The sole item fills the room.
    fn enter(self, sole: bool, tag: u8) -> Result<Front<'a>, Stop>
        requires { IsInRoom self }
        ensures contents { MatchResult result (λ inside. entered sole tag (front_of self.entry) ≡ Ok (front_of inside)) (λ stop. entered sole tag (front_of self.entry) ≡ Err stop) }
        ensures room { IfOk result IsInRoom }
    {
        if self.first()? != tag {
            return fault_at(self.place, Why::Tag);
        }
        if self.room == 1 {
            return fault_at(self.place, Why::Overrun);
        }
        match self.octets {
            [_tag, first, octets @ ..] => self.contents_by(sole, *first, octets),
            _ => Err(Stop::End),
        }
    }

    /// Returns the contents in heads with these tags.
    fn enter_all(self, sole: bool, tags: &[Tag]) -> Result<Front<'a>, Stop>
        requires { IsInRoom self }
        ensures contents { MatchResult result (λ inside. all_entered sole tags.now (front_of self.entry) ≡ Ok (front_of inside)) (λ stop. all_entered sole tags.now (front_of self.entry) ≡ Err stop) }
        ensures room { IfOk result IsInRoom }
    {
        let [tag, others @ ..] = tags else {
            return Ok(self);
        };
        self.enter(sole, tag.octet())?.enter_all(true, others)
    }

    /// Judges contents of an OBJECT IDENTIFIER (X.690, 8.19.2).
    fn identifier_contents(self) -> Result<(), Stop>
        requires room { IsInRoom self }
        requires some { 0 < self.room }
        ensures { result ≡ outcome_at self.entry.place (identifier_outcome true 0 self.entry.room self.entry.octets.now) }
    {
        let mut begins = true;
        let mut place = self.place;
        for octet in self.octets {
            if begins && *octet == 0x80 {
                return fault_at(place, Why::IntegerNotMinimal);
            }
            begins = *octet < 0x80;
            place += 1;
        }
        if (self.octets.len() as u32) < self.room {
            Err(Stop::End)
        } else if begins {
            Ok(())
        } else {
            fault_at(place - 1, Why::Range)
        }
    }

    /// Judges contents of an ENUMERATED from 0 to 3 (X.690, 8.4).
    fn number_contents(self) -> Result<(), Stop>
        requires one { self.room ≡ 1 }
        requires room { IsInRoom self }
        ensures { result ≡ outcome_at self.entry.place (integer_contents (pos 0) (pos 3) self.entry.room self.entry.octets.now) }
    {
        match self.octets.first() {
            None => Err(Stop::End),
            Some(octet) if *octet > 3 => fault_at(self.place, Why::Range),
            Some(_) => Ok(()),
        }
    }

    /// Judges contents of a BIT STRING (X.690, 8.6.2 and 11.2).
    fn flags_contents(self) -> Result<(), Stop>
        requires room { IsInRoom self }
        requires some { 0 < self.room }
        ensures { result ≡ outcome_at self.entry.place (bits_contents 0 self.entry.room self.entry.octets.now) }
    {
        let [unused, bits @ ..] = self.octets else {
            return Err(Stop::End);
        };
        if *unused > 7 || self.room == 1 && *unused > 0 {
            return fault_at(self.place, Why::Bits);
        }
        if (self.octets.len() as u32) < self.room {
            return Err(Stop::End);
        }
        if last_or_zero(bits) % (1 << *unused) == 0 {
            Ok(())
        } else {
            fault_at(self.place + (self.room - 1), Why::Bits)
        }
    }

    /// Judges that all octets are there.
    fn counted(self) -> Result<(), Stop>
        ensures { result ≡ leaf_front Leaf.Hidden (front_of self.entry) }
    {
        if self.octets.len() < self.room as usize {
            Err(Stop::End)
        } else {
            Ok(())
        }
    }

    /// Judges contents of a leaf.
    fn leaf(self, leaf: Leaf) -> Result<(), Stop>
        requires { IsInRoom self }
        ensures { result ≡ leaf_front leaf (front_of self.entry) }
    {
        let has_size = match leaf {
            Leaf::Identifier | Leaf::Flags(_) => self.room > 0,
            Leaf::Number => self.room == 1,
            _ => true,
        };
        if !has_size {
            return fault_at(self.place.saturating_sub(1), Why::Size);
        }
        match leaf {
            Leaf::Identifier => self.identifier_contents(),
            Leaf::Number => self.number_contents(),
            Leaf::Flags(_) => self.flags_contents(),
            _ => self.counted(),
        }
    }

    /// Returns the contents of an OBJECT IDENTIFIER.
    fn identifier(self) -> Result<Front<'a>, Stop>
        requires { IsInRoom self }
        ensures contents { MatchResult result (λ inside. identifier_front (front_of self.entry) ≡ Ok (front_of inside)) (λ stop. identifier_front (front_of self.entry) ≡ Err stop) }
        ensures room { IfOk result IsInRoom }
    {
        let inside = self.enter(false, Tag::ObjectIdentifier.octet())?;
        inside.leaf(Leaf::Identifier)?;
        Ok(inside)
    }

    /// Judges OBJECT IDENTIFIERs one after another.
    fn identifiers(self) -> Result<(), Stop>
        requires { IsInRoom self }
        ensures { result ≡ identifiers_front (length self.entry.octets.now) (front_of self.entry) }
    {
        let mut rest = self;
        for _ in 0..self.octets.len() {
            if rest.room == 0 {
                return Ok(());
            }
            let _identifier = rest.identifier()?;
            rest = rest.after(count_of(rest.octets));
        }
        if rest.room == 0 {
            Ok(())
        } else {
            Err(Stop::End)
        }
    }

    /// Judges that a SEQUENCE ends here.
    fn ended(self) -> Result<(), Stop>
        ensures { result ≡ ended_front (front_of self.entry) }
    {
        if self.room == 0 {
            return Ok(());
        }
        let _another = self.first()?;
        fault_at(self.place, Why::Tag)
    }
}

/// How a token of SPNEGO is judged: the profile of the message in it, if its token is gone into.
#[derive(Clone, Copy)]
pub(crate) struct Judge {
    pub(crate) profile: Profile,
    pub(crate) opens: bool,
}

impl Judge {
    /// Judges the fields that are left of a SEQUENCE, each of which may be left out.
    #[cycle(judged)]
    fn fields(self, levels: u8, fields: &[Field], front: Front<'_>) -> Result<(), Stop>
        requires { IsInRoom front }
        ensures { result ≡ fields_front (shape_front (sequence_front levels (judged_by self)) (judged_by self)) (map field_of fields.now) (front_of front.entry) }
    {
        let [field, others @ ..] = fields else {
            return front.ended();
        };
        if !begin_as(field.of.tags, front.octets) {
            return self.fields(levels, others, front);
        }
        let inside = front.enter_all(false, field.of.tags)?;
        self.contents(levels, field.of.shape, inside)?;
        self.fields(levels, others, front.after(count_of(front.octets)))
    }

    /// Judges contents by their shape.
    #[cycle(judged)]
    fn contents(self, levels: u8, shape: Shape, front: Front<'_>) -> Result<(), Stop>
        requires { IsInRoom front }
        ensures { result ≡ shape_front (sequence_front levels (judged_by self)) (judged_by self) shape (front_of front.entry) }
    {
        match shape {
            Shape::Leaf(leaf) => front.leaf(leaf),
            Shape::Token => self.token(front),
            Shape::Hints if begins(front.octets, Tag::Sequence.octet()) => {
                let inside = front.enter(true, Tag::Sequence.octet())?;
                self.sequence(levels, Sequence::NegHints, inside)
            }
            Shape::Hints => front.enter(true, Tag::OctetString.octet())?.counted(),
            Shape::Sequence(sequence) => self.sequence(levels, sequence, front),
            Shape::List(_) => front.identifiers(),
        }
    }

    /// Judges what is in a SEQUENCE.
    #[cycle(judged)]
    fn sequence(self, levels: u8, sequence: Sequence, front: Front<'_>) -> Result<(), Stop>
        requires { IsInRoom front }
        ensures { result ≡ sequence_front levels (judged_by self) sequence (front_of front.entry) }
    {
        if levels == 0 {
            return Ok(());
        }
        self.fields(levels - 1, sequence.fields(), front)
    }

    /// Judges the token in one of SPNEGO.
    fn token(self, front: Front<'_>) -> Result<(), Stop>
        requires { IsInRoom front }
        ensures { result ≡ judged_by self (front_of front.entry) }
    {
        if self.opens {
            judge_token(self.profile, front)
        } else {
            front.counted()
        }
    }

    /// Judges a token of SPNEGO.
    fn neg(self, neg: NegToken, front: Front<'_>) -> Result<(), Stop>
        requires { IsInRoom front }
        ensures { result ≡ neg_front (judged_by self) neg (front_of front.entry) }
    {
        let of = neg.item();
        let inside = front.enter_all(true, of.tags)?;
        self.contents(SEQUENCES, of.shape, inside)
    }
}

/// Judges a message.
fn judge_message(profile: Profile, front: Front<'_>) -> Result<(), Stop>
    requires room { IsInRoom front }
    requires some { 0 < front.room }
    ensures { result ≡ message_front profile (front_of front.entry) }
{
    match judge_in(profile, front.room, front.octets) {
        Verdict::Whole => Ok(()),
        Verdict::Open => Err(Stop::End),
        Verdict::Refused(refusal) => fault_at(front.place + refusal.place, refusal.why),
    }
}

/// Judges a message that begins with a tag.
fn judge_message_of(profile: Profile, tag: u8, front: Front<'_>) -> Result<(), Stop>
    requires { IsInRoom front }
    ensures { result ≡ message_of_tag profile tag (front_of front.entry) }
{
    if front.first()? == tag {
        judge_message(profile, front)
    } else {
        fault_at(front.place, Why::Tag)
    }
}

/// Returns the tag of the message in a token of Kerberos, by the token's first octet (RFC 4121, 4.1).
fn tag_of_token(high: u8) -> Option<u8>
    ensures { result ≡ message_tag high }
{
    match high {
        1 => Some(0x6E),
        2 => Some(0x6F),
        3 => Some(0x7E),
        _ => None,
    }
}

/// Judges what follows the identifier of Kerberos: two octets, and the message of which they are.
fn judge_kerberos(profile: Profile, front: Front<'_>) -> Result<(), Stop>
    requires { IsInRoom front }
    ensures { result ≡ kerberos_front profile (front_of front.entry) }
{
    let Some(tag) = tag_of_token(front.first()?) else {
        return fault_at(front.place, Why::Range);
    };
    let second = front.after(1);
    if second.first()? == 0 {
        judge_message_of(profile, tag, second.after(1))
    } else {
        fault_at(second.place, Why::Range)
    }
}

/// Returns whether this is an identifier of Kerberos V5.
fn is_kerberos(identifier: &[u8]) -> bool
    ensures { result ≡ is_kerberos identifier.now }
{
    identifier == KERBEROS.as_slice()
        || identifier == KERBEROS_OF_WINDOWS.as_slice()
        || identifier == USER_TO_USER.as_slice()
}

/// Judges a token of GSS-API in one of SPNEGO.
fn judge_inner_gss(profile: Profile, front: Front<'_>) -> Result<(), Stop>
    requires { IsInRoom front }
    ensures { result ≡ gss_front (inner_mechanism profile) (front_of front.entry) }
{
    let inside = front.enter(true, Tag::Application(0).octet())?;
    let identifier = inside.identifier()?;
    let rest = inside.after(count_of(inside.octets));
    if is_kerberos(identifier.octets) {
        judge_kerberos(profile, rest)
    } else {
        fault_at(rest.place.saturating_sub(1), Why::Range)
    }
}

/// Judges the token in one of SPNEGO: one of GSS-API, or a message by itself, as DCE has it. What may be
/// a message of NTLM is not judged.
fn judge_token(profile: Profile, front: Front<'_>) -> Result<(), Stop>
    requires { IsInRoom front }
    ensures { result ≡ token_front profile (front_of front.entry) }
{
    if may_be_ntlm(u64::from(front.room), front.octets) {
        return front.counted();
    }
    match front.first()? {
        0x60 => judge_inner_gss(profile, front),
        0x6E | 0x6F | 0x7E => judge_message(profile, front),
        _ => fault_at(front.place, Why::Tag),
    }
}

/// Judges a token of SPNEGO: first by itself, and if nothing of it is refused with the token in it.
fn judge_neg(profile: Profile, neg: NegToken, front: Front<'_>) -> Result<(), Stop>
    requires { IsInRoom front }
    ensures { result ≡ spnego_front profile neg (front_of front.entry) }
{
    let counts = Judge {
        profile,
        opens: false,
    };
    match counts.neg(neg, front) {
        Err(Stop::Fault(refusal)) => Err(Stop::Fault(refusal)),
        _ => Judge {
            profile,
            opens: true,
        }
        .neg(neg, front),
    }
}

/// Judges what follows the identifier of SPNEGO: a first token.
fn judge_neg_in_gss(profile: Profile, front: Front<'_>) -> Result<(), Stop>
    requires { IsInRoom front }
    ensures { result ≡ spnego_in_gss_front profile (front_of front.entry) }
{
    if front.first()? == 0xA0 {
        judge_neg(profile, NegToken::Init, front)
    } else {
        fault_at(front.place, Why::Tag)
    }
}

/// Judges a token of GSS-API.
fn judge_outer_gss(profile: Profile, front: Front<'_>) -> Result<(), Stop>
    requires { IsInRoom front }
    ensures { result ≡ gss_front (outer_mechanism profile) (front_of front.entry) }
{
    let inside = front.enter(true, Tag::Application(0).octet())?;
    let identifier = inside.identifier()?;
    let rest = inside.after(count_of(inside.octets));
    if is_kerberos(identifier.octets) {
        judge_kerberos(profile, rest)
    } else if identifier.octets == NEGOTIATION.as_slice() {
        judge_neg_in_gss(profile, rest)
    } else {
        fault_at(rest.place.saturating_sub(1), Why::Range)
    }
}

/// Returns the verdict of what was judged.
fn verdict_of(judged: Result<(), Stop>) -> Verdict
    ensures { result ≡ verdict_of judged }
{
    match judged {
        Ok(()) => Verdict::Whole,
        Err(Stop::End) => Verdict::Open,
        Err(Stop::Fault(refusal)) => Verdict::Refused(refusal),
    }
}

/// Returns octets of a size, as far as they are there.
fn front_of(size: u32, octets: &[u8]) -> Front<'_>
    requires short { size < 2 ^ 31 }
    requires present { length octets.now ≤ size }
    ensures front { front_of result ≡ front_of_size size octets.now }
    ensures room { IsInRoom result }
{
    Front {
        place: 0,
        room: size,
        octets,
    }
}

/// Returns what the octets present of a GSS-API token of a size decide, with the message in it, by a
/// profile.
pub fn judge_gss(profile: Profile, size: u32, octets: &[u8]) -> Verdict
    requires short { size < 2 ^ 31 }
    requires present { length octets.now ≤ size }
    ensures { result ≡ gss_verdict profile size octets.now }
{
    verdict_of(judge_outer_gss(profile, front_of(size, octets)))
}

/// Returns what the octets present of a token of SPNEGO of a size decide, with the message in it, by a
/// profile.
pub fn judge_spnego(profile: Profile, neg: NegToken, size: u32, octets: &[u8]) -> Verdict
    requires short { size < 2 ^ 31 }
    requires present { length octets.now ≤ size }
    ensures { result ≡ spnego_verdict profile neg size octets.now }
{
    verdict_of(judge_neg(profile, neg, front_of(size, octets)))
}
