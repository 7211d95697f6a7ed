//! A type for each kind of messages. `asn1/generate` wrote this from `asn1/krb5.asn1`.

ghost use Rattle.krb_msg.specs.declared.message.Kind.TheVariants as kinds;
ghost use Rattle.krb_msg.specs.declared.message_view.MessageView.TheVariants as views;

use crate::ap_rep::{ApRep, ApRepView};
use crate::ap_req::{ApReq, ApReqView};
use crate::fields::NotedView;
use crate::kdc_rep::{KdcRep, KdcRepView};
use crate::kdc_req::{KdcReq, KdcReqView};
use crate::krb_cred::{KrbCred, KrbCredView};
use crate::krb_error::{KrbError, KrbErrorView};
use crate::krb_priv::{KrbPriv, KrbPrivView};
use crate::krb_safe::{KrbSafe, KrbSafeView};
use crate::message_kind::MessageKind;
use crate::message_view::MessageView;
use crate::notes::Notes;
use crate::view::view_whole_into;

/// AS-REQ.
pub struct AsReqKind;

impl<'a> MessageKind<'a> for AsReqKind {
    type View = KdcReqView<'a>;

    ghost kind = { kinds.AsReq };

    ghost as_message = { λ view. views.AsReq view };

    #[inline(always)]
    fn view_into(octets: &'a [u8], seen: &mut KdcReqView<'a>) -> bool {
        KdcReq::view_into::<10>(octets, seen)
    }

    #[inline(always)]
    fn into_message(view: KdcReqView<'a>) -> MessageView<'a> {
        MessageView::AsReq(view)
    }

    #[inline(always)]
    fn notes(view: &KdcReqView<'a>) -> Notes {
        view.notes::<10>()
    }
}

/// AS-REP.
pub struct AsRepKind;

impl<'a> MessageKind<'a> for AsRepKind {
    type View = KdcRepView<'a>;

    ghost kind = { kinds.AsRep };

    ghost as_message = { λ view. views.AsRep view };

    #[inline(always)]
    fn view_into(octets: &'a [u8], seen: &mut KdcRepView<'a>) -> bool {
        KdcRep::view_into::<11>(octets, seen)
    }

    #[inline(always)]
    fn into_message(view: KdcRepView<'a>) -> MessageView<'a> {
        MessageView::AsRep(view)
    }

    #[inline(always)]
    fn notes(view: &KdcRepView<'a>) -> Notes {
        view.notes::<11>()
    }
}

/// TGS-REQ.
pub struct TgsReqKind;

impl<'a> MessageKind<'a> for TgsReqKind {
    type View = KdcReqView<'a>;

    ghost kind = { kinds.TgsReq };

    ghost as_message = { λ view. views.TgsReq view };

    #[inline(always)]
    fn view_into(octets: &'a [u8], seen: &mut KdcReqView<'a>) -> bool {
        KdcReq::view_into::<12>(octets, seen)
    }

    #[inline(always)]
    fn into_message(view: KdcReqView<'a>) -> MessageView<'a> {
        MessageView::TgsReq(view)
    }

    #[inline(always)]
    fn notes(view: &KdcReqView<'a>) -> Notes {
        view.notes::<12>()
    }
}

/// TGS-REP.
pub struct TgsRepKind;

impl<'a> MessageKind<'a> for TgsRepKind {
    type View = KdcRepView<'a>;

    ghost kind = { kinds.TgsRep };

    ghost as_message = { λ view. views.TgsRep view };

    #[inline(always)]
    fn view_into(octets: &'a [u8], seen: &mut KdcRepView<'a>) -> bool {
        KdcRep::view_into::<13>(octets, seen)
    }

    #[inline(always)]
    fn into_message(view: KdcRepView<'a>) -> MessageView<'a> {
        MessageView::TgsRep(view)
    }

    #[inline(always)]
    fn notes(view: &KdcRepView<'a>) -> Notes {
        view.notes::<13>()
    }
}

/// AP-REQ.
pub struct ApReqKind;

impl<'a> MessageKind<'a> for ApReqKind {
    type View = ApReqView<'a>;

    ghost kind = { kinds.ApReq };

    ghost as_message = { λ view. views.ApReq view };

    #[inline(always)]
    fn view_into(octets: &'a [u8], seen: &mut ApReqView<'a>) -> bool {
        view_whole_into::<ApReq>(octets, seen)
    }

    #[inline(always)]
    fn into_message(view: ApReqView<'a>) -> MessageView<'a> {
        MessageView::ApReq(view)
    }

    #[inline(always)]
    fn notes(view: &ApReqView<'a>) -> Notes {
        ApReq::notes(view)
    }
}

/// AP-REP.
pub struct ApRepKind;

impl<'a> MessageKind<'a> for ApRepKind {
    type View = ApRepView<'a>;

    ghost kind = { kinds.ApRep };

    ghost as_message = { λ view. views.ApRep view };

    #[inline(always)]
    fn view_into(octets: &'a [u8], seen: &mut ApRepView<'a>) -> bool {
        view_whole_into::<ApRep>(octets, seen)
    }

    #[inline(always)]
    fn into_message(view: ApRepView<'a>) -> MessageView<'a> {
        MessageView::ApRep(view)
    }

    #[inline(always)]
    fn notes(view: &ApRepView<'a>) -> Notes {
        ApRep::notes(view)
    }
}

/// KRB-SAFE.
pub struct KrbSafeKind;

impl<'a> MessageKind<'a> for KrbSafeKind {
    type View = KrbSafeView<'a>;

    ghost kind = { kinds.KrbSafe };

    ghost as_message = { λ view. views.KrbSafe view };

    #[inline(always)]
    fn view_into(octets: &'a [u8], seen: &mut KrbSafeView<'a>) -> bool {
        view_whole_into::<KrbSafe>(octets, seen)
    }

    #[inline(always)]
    fn into_message(view: KrbSafeView<'a>) -> MessageView<'a> {
        MessageView::KrbSafe(view)
    }

    #[inline(always)]
    fn notes(view: &KrbSafeView<'a>) -> Notes {
        KrbSafe::notes(view)
    }
}

/// KRB-PRIV.
pub struct KrbPrivKind;

impl<'a> MessageKind<'a> for KrbPrivKind {
    type View = KrbPrivView<'a>;

    ghost kind = { kinds.KrbPriv };

    ghost as_message = { λ view. views.KrbPriv view };

    #[inline(always)]
    fn view_into(octets: &'a [u8], seen: &mut KrbPrivView<'a>) -> bool {
        view_whole_into::<KrbPriv>(octets, seen)
    }

    #[inline(always)]
    fn into_message(view: KrbPrivView<'a>) -> MessageView<'a> {
        MessageView::KrbPriv(view)
    }

    #[inline(always)]
    fn notes(view: &KrbPrivView<'a>) -> Notes {
        KrbPriv::notes(view)
    }
}

/// KRB-CRED.
pub struct KrbCredKind;

impl<'a> MessageKind<'a> for KrbCredKind {
    type View = KrbCredView<'a>;

    ghost kind = { kinds.KrbCred };

    ghost as_message = { λ view. views.KrbCred view };

    #[inline(always)]
    fn view_into(octets: &'a [u8], seen: &mut KrbCredView<'a>) -> bool {
        view_whole_into::<KrbCred>(octets, seen)
    }

    #[inline(always)]
    fn into_message(view: KrbCredView<'a>) -> MessageView<'a> {
        MessageView::KrbCred(view)
    }

    #[inline(always)]
    fn notes(view: &KrbCredView<'a>) -> Notes {
        KrbCred::notes(view)
    }
}

/// KRB-ERROR.
pub struct KrbErrorKind;

impl<'a> MessageKind<'a> for KrbErrorKind {
    type View = KrbErrorView<'a>;

    ghost kind = { kinds.KrbError };

    ghost as_message = { λ view. views.KrbError view };

    #[inline(always)]
    fn view_into(octets: &'a [u8], seen: &mut KrbErrorView<'a>) -> bool {
        view_whole_into::<KrbError>(octets, seen)
    }

    #[inline(always)]
    fn into_message(view: KrbErrorView<'a>) -> MessageView<'a> {
        MessageView::KrbError(view)
    }

    #[inline(always)]
    fn notes(view: &KrbErrorView<'a>) -> Notes {
        KrbError::notes(view)
    }
}
