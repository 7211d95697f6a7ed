//! What OCTET STRINGs in the clear hold.

ghost use Rattle.std.specs.Prelude.{◌≡◌, true, length};
ghost use Rattle.krb_msg.specs.Shape.{has_octet_tags, is_unambiguous};
ghost use Rattle.krb_items.specs.Heads.{contents_in};
ghost use Rattle.krb_items.specs.Held.{held_after, held_by, held_name, is_all_of, is_held, is_number, leaf_after, number_after, number_by, opened, padata_held};
ghost use Rattle.krb_items.specs.Shapes.{type_of};

use crate::head::{part, read_head};
use crate::shape::{Held, Holder, ItemType, Leaf, Shape};
use crate::tag::Tag;
use krb_der::{Many, integer_value};
use krb_msg::{ApReq, EncryptedData, PaData, View, view_whole};
use krb_padata::{
    EtypeInfo, EtypeInfo2, PaForUser, PaFxFastReply, PaFxFastRequest, PaPacOptions,
    view_pac_request,
};

/// The greatest number of octets that are judged.
const MOST: usize = 2147483647;

/// Returns the contents that are there in heads with these tags.
pub(crate) fn contents_in<'a>(tags: &[Tag], octets: &'a [u8]) -> &'a [u8]
    ensures { result.now ≡ contents_in tags.now octets.now }
{
    let [_tag, others @ ..] = tags else {
        return octets;
    };
    match read_head(octets) {
        None => contents_in(others, &[]),
        Some(head) => contents_in(others, part(octets, head.header, head.size)),
    }
}

impl Leaf {
    /// Returns whether values are numbers.
    fn is_number(self) -> bool
        ensures { result ≡ is_number self }
    {
        matches!(self, Leaf::Number | Leaf::Numbered(_) | Leaf::ErrorCode)
    }

    /// Returns what is shown of octets, by the number before them.
    pub(crate) fn after(self, number: Option<i64>) -> Leaf
        ensures { result ≡ leaf_after number self }
    {
        match self {
            Leaf::Holder(holder) => match holder.held_after(number) {
                Some(Held::Salt) => Leaf::Text,
                _ => Leaf::Hidden,
            },
            _ => self,
        }
    }

    /// Returns what octets hold, if they are all of what the number before them says.
    pub(crate) fn opened(self, number: Option<i64>, octets: &[u8]) -> Option<Held>
        ensures { result ≡ opened number self octets.now }
    {
        let Leaf::Holder(holder) = self else {
            return None;
        };
        let held = holder.held_after(number)?;
        if held.is_in(octets) { Some(held) } else { None }
    }
}

/// Returns the number that contents are, if they are an INTEGER's, or else the one before.
fn number_by(shape: Shape, octets: &[u8], before: Option<i64>) -> Option<i64>
    ensures { result ≡ number_by shape octets.now before }
{
    match shape {
        Shape::Leaf(leaf) if leaf.is_number() && octets.len() <= 5 => Some(integer_value(octets)),
        _ => before,
    }
}

/// Returns the last number of a SEQUENCE after an item of it.
pub(crate) fn number_after(of: ItemType, octets: &[u8], before: Option<i64>) -> Option<i64>
    ensures { result ≡ number_after (type_of of) octets.now before }
{
    number_by(of.shape, contents_in(of.tags, octets), before)
}

/// Returns what a padata-value is by its padata-type, where PA-FX-FAST is `fast`.
#[tactic(auto, unfolding(crate::specs::Held::padata_held))]
fn padata_held(fast: Held, number: u64) -> Option<Held>
    ensures { result ≡ padata_held fast number }
{
    match number {
        1 => Some(Held::TgsReq),
        2 => Some(Held::EncTimestamp),
        3 => Some(Held::Salt),
        11 => Some(Held::EtypeInfo),
        19 => Some(Held::EtypeInfo2),
        128 => Some(Held::PacRequest),
        129 => Some(Held::ForUser),
        136 => Some(fast),
        138 => Some(Held::EncryptedChallenge),
        167 => Some(Held::PacOptions),
        _ => None,
    }
}

impl Holder {
    /// Returns what it holds, by the number before it.
    fn held_by(self, number: u64) -> Option<Held>
        ensures { result ≡ held_by self number }
    {
        match self {
            Holder::RequestPadata => padata_held(Held::FastRequest, number),
            Holder::Padata => padata_held(Held::FastReply, number),
            Holder::ErrorData => match number {
                24 | 25 => Some(Held::MethodData),
                _ => None,
            },
            Holder::Armor => match number {
                1 => Some(Held::ApReq),
                _ => None,
            },
        }
    }

    /// Returns what it holds, by the number before it, if there is one that is not negative.
    fn held_after(self, number: Option<i64>) -> Option<Held>
        ensures { result ≡ held_after self number }
    {
        match number {
            Some(number) if number >= 0 => self.held_by(number as u64),
            _ => None,
        }
    }
}

/// Returns whether octets are all of one item of a type, by the lenient profile.
fn is_all_of<'a, T: View<'a>>(octets: &'a [u8]) -> bool
    requires tags { has_octet_tags T.term ≡ true }
    requires unambiguous { is_unambiguous T.term ≡ true }
    ensures { result ≡ is_all_of T.term octets.now }
{
    if octets.len() > MOST {
        return false;
    }
    view_whole::<T>(octets).is_some()
}

impl Held {
    /// Returns whether octets are all of it.
    #[tactic(auto, unfolding(crate::specs::Held::is_held))]
    fn is_in(self, octets: &[u8]) -> bool
        ensures { result ≡ is_held self octets.now }
    {
        match self {
            Held::TgsReq | Held::ApReq => is_all_of::<ApReq>(octets),
            Held::EncTimestamp | Held::EncryptedChallenge => is_all_of::<EncryptedData>(octets),
            Held::Salt => false,
            Held::EtypeInfo => is_all_of::<EtypeInfo>(octets),
            Held::EtypeInfo2 => is_all_of::<EtypeInfo2>(octets),
            Held::PacRequest => view_pac_request(octets).is_some(),
            Held::ForUser => is_all_of::<PaForUser>(octets),
            Held::FastRequest => is_all_of::<PaFxFastRequest>(octets),
            Held::FastReply => is_all_of::<PaFxFastReply>(octets),
            Held::PacOptions => is_all_of::<PaPacOptions>(octets),
            Held::MethodData => is_all_of::<Many<PaData>>(octets),
        }
    }

    /// Returns what it is called: a padata-value by its type.
    #[tactic(auto, unfolding(crate::specs::Held::held_name))]
    pub(crate) fn name(self) -> &'static str
        ensures { result.now ≡ held_name self }
    {
        match self {
            Held::TgsReq => "PA-TGS-REQ",
            Held::EncTimestamp => "PA-ENC-TIMESTAMP",
            Held::Salt => "PA-PW-SALT",
            Held::EtypeInfo => "PA-ETYPE-INFO",
            Held::EtypeInfo2 => "PA-ETYPE-INFO2",
            Held::PacRequest => "PA-PAC-REQUEST",
            Held::ForUser => "PA-FOR-USER",
            Held::FastRequest | Held::FastReply => "PA-FX-FAST",
            Held::EncryptedChallenge => "PA-ENCRYPTED-CHALLENGE",
            Held::PacOptions => "PA-PAC-OPTIONS",
            Held::MethodData => "METHOD-DATA",
            Held::ApReq => "AP-REQ",
        }
    }
}
