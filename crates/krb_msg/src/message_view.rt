//! Messages viewed in place. `asn1/generate` wrote this from `asn1/krb5.asn1`.

ghost use Rattle.std.specs.Prelude.{◌≡◌, MatchOption};
ghost use Rattle.std.specs.Option.{option_map};
ghost use Rattle.krb_msg.specs.Notes.{notes_of};
ghost use Rattle.krb_msg.specs.Realm.{realm_of};
ghost use Rattle.krb_msg.specs.Views.{kind_of};
ghost use Rattle.krb_msg.specs.ViewValues.{BeginAs, IsMessageView, IsNoMessage, IsValidMessage, message_of_view};

use crate::ap_rep::ApRepView;
use crate::ap_req::ApReqView;
use crate::kdc_rep::KdcRepView;
use crate::kdc_req::KdcReqView;
use crate::krb_cred::KrbCredView;
use crate::krb_error::KrbErrorView;
use crate::krb_priv::KrbPrivView;
use crate::krb_safe::KrbSafeView;
use crate::message::Kind;
use crate::message_kind::{MessageKind, view_of};
use crate::message_kinds::{
    ApRepKind, ApReqKind, AsRepKind, AsReqKind, KrbCredKind, KrbErrorKind, KrbPrivKind,
    KrbSafeKind, TgsRepKind, TgsReqKind,
};
use crate::notes::Notes;

/// A view of a message of any kind (RFC 4120, section 5): its strings and lists are borrowed
/// from the octets.
#[derive(Clone, Copy)]
pub enum MessageView<'a> {
    /// A request for an initial ticket (5.4.1).
    AsReq(KdcReqView<'a>),
    /// The reply to an AS-REQ (5.4.2).
    AsRep(KdcRepView<'a>),
    /// A request for a further ticket, with a ticket-granting ticket (5.4.1).
    TgsReq(KdcReqView<'a>),
    /// The reply to a TGS-REQ (5.4.2).
    TgsRep(KdcRepView<'a>),
    /// A client's authentication to an application server (5.5.1).
    ApReq(ApReqView<'a>),
    /// The reply to an AP-REQ (5.5.2).
    ApRep(ApRepView<'a>),
    /// Data protected against modification (5.6.1).
    KrbSafe(KrbSafeView<'a>),
    /// Encrypted data of an application (5.7.1).
    KrbPriv(KrbPrivView<'a>),
    /// Forwarded tickets (5.8.1).
    KrbCred(KrbCredView<'a>),
    /// An error, reported by a KDC or a server (5.9.1).
    KrbError(KrbErrorView<'a>),
}

impl<'a> MessageView<'a> {
    /// Returns the kind of the message.
    pub fn kind(&self) -> Kind
        ensures { result ≡ kind_of (message_of_view self.now) }
    {
        match self {
            MessageView::AsReq(_) => Kind::AsReq,
            MessageView::AsRep(_) => Kind::AsRep,
            MessageView::TgsReq(_) => Kind::TgsReq,
            MessageView::TgsRep(_) => Kind::TgsRep,
            MessageView::ApReq(_) => Kind::ApReq,
            MessageView::ApRep(_) => Kind::ApRep,
            MessageView::KrbSafe(_) => Kind::KrbSafe,
            MessageView::KrbPriv(_) => Kind::KrbPriv,
            MessageView::KrbCred(_) => Kind::KrbCred,
            MessageView::KrbError(_) => Kind::KrbError,
        }
    }

    /// Returns the realm that the message is of, if it is of one (5.2.2).
    pub fn realm(&self) -> Option<&'a [u8]>
        ensures { option_map (λ octets. octets.now) result ≡ realm_of (message_of_view self.now) }
    {
        match self {
            MessageView::AsReq(m) => Some(m.body.realm),
            MessageView::AsRep(m) => Some(m.crealm),
            MessageView::TgsReq(m) => Some(m.body.realm),
            MessageView::TgsRep(m) => Some(m.crealm),
            MessageView::ApReq(m) => Some(m.ticket.realm),
            MessageView::ApRep(_) => None,
            MessageView::KrbSafe(_) => None,
            MessageView::KrbPriv(_) => None,
            MessageView::KrbCred(_) => None,
            MessageView::KrbError(m) => Some(m.realm),
        }
    }
}

/// Returns the notes that hold in a message that is viewed in place. It allocates nothing.
pub fn notes_of_view(view: &MessageView<'_>) -> Notes
    requires { IsValidMessage view.now }
    ensures { result ≡ notes_of (message_of_view view.now) }
{
    match view {
        MessageView::AsReq(m) => AsReqKind::notes(m),
        MessageView::AsRep(m) => AsRepKind::notes(m),
        MessageView::TgsReq(m) => TgsReqKind::notes(m),
        MessageView::TgsRep(m) => TgsRepKind::notes(m),
        MessageView::ApReq(m) => ApReqKind::notes(m),
        MessageView::ApRep(m) => ApRepKind::notes(m),
        MessageView::KrbSafe(m) => KrbSafeKind::notes(m),
        MessageView::KrbPriv(m) => KrbPrivKind::notes(m),
        MessageView::KrbCred(m) => KrbCredKind::notes(m),
        MessageView::KrbError(m) => KrbErrorKind::notes(m),
    }
}

/// Returns a view of a message of a kind, if the octets are one.
#[inline(always)]
pub(crate) fn view_of_kind(kind: Kind, octets: &[u8]) -> Option<MessageView<'_>>
    requires { BeginAs kind octets.now }
    ensures { MatchOption result (IsNoMessage octets.now) (λ m. IsMessageView octets.now m) }
{
    match kind {
        Kind::AsReq => view_of::<AsReqKind>(octets),
        Kind::AsRep => view_of::<AsRepKind>(octets),
        Kind::TgsReq => view_of::<TgsReqKind>(octets),
        Kind::TgsRep => view_of::<TgsRepKind>(octets),
        Kind::ApReq => view_of::<ApReqKind>(octets),
        Kind::ApRep => view_of::<ApRepKind>(octets),
        Kind::KrbSafe => view_of::<KrbSafeKind>(octets),
        Kind::KrbPriv => view_of::<KrbPrivKind>(octets),
        Kind::KrbCred => view_of::<KrbCredKind>(octets),
        Kind::KrbError => view_of::<KrbErrorKind>(octets),
    }
}
