//! Messages as values. `asn1/generate` wrote this from `asn1/krb5.asn1`.

ghost use Rattle.std.specs.Prelude.{◌≡◌, ◌+◌, ◌≤◌, IfOk, length};
ghost use Rattle.std.specs.Vec.{vec_len, vec_capacity};
ghost use Rattle.krb_der.specs.Puts.{Puts};
ghost use Rattle.krb_der.specs.declared.profile.Profile.TheVariants.{Lenient};
ghost use Rattle.krb_msg.specs.Notes.{notes_of};
ghost use Rattle.krb_msg.specs.Views.{IsInProfile, kind_of, kind_term, message_value, message_der};
ghost use Rattle.krb_msg.specs.ViewValues.{IsValidMessage, message_of_view};
ghost use Rattle.krb_codec.specs.Encoding.{IsSized};

use crate::copying::FromView;
use crate::item::Item;
use crate::notes::Noted;
use crate::{kdc_rep, kdc_req};
use krb_der::Memory;
use krb_msg::{
    ApRep, ApReq, KdcRep, KdcReq, KrbCred, KrbError, KrbPriv, KrbSafe, Message, MessageView, Notes,
};
use std::alloc::Global;

/// Returns the number of DER octets of a message; 2147483648 if there are more. Its value fits its
/// term.
pub(crate) fn octets_of(message: &Message) -> u64
    ensures { IsSized (kind_term (kind_of message.now)) (message_value message.now) result }
{
    match message {
        Message::AsReq(req) => kdc_req::size::<10>(req),
        Message::AsRep(rep) => kdc_rep::size::<11>(rep),
        Message::TgsReq(req) => kdc_req::size::<12>(req),
        Message::TgsRep(rep) => kdc_rep::size::<13>(rep),
        Message::ApReq(req) => req.size(),
        Message::ApRep(rep) => rep.size(),
        Message::KrbSafe(safe) => safe.size(),
        Message::KrbPriv(private) => private.size(),
        Message::KrbCred(cred) => cred.size(),
        Message::KrbError(error) => error.size(),
    }
}

/// Appends the DER octets of a message, at most 2147483647 of them, within the vector's capacity.
/// It allocates nothing.
pub fn put(message: &Message, out: &mut Vec<u8>)
    requires short { length (message_der message.now) ≤ 2147483647 }
    requires capacity { vec_len out.old + length (message_der message.now) ≤ vec_capacity out.old }
    ensures { Puts (message_der message.now) out.old out.new }
{
    match message {
        Message::AsReq(req) => kdc_req::put::<10>(req, out),
        Message::AsRep(rep) => kdc_rep::put::<11>(rep, out),
        Message::TgsReq(req) => kdc_req::put::<12>(req, out),
        Message::TgsRep(rep) => kdc_rep::put::<13>(rep, out),
        Message::ApReq(req) => req.put(out),
        Message::ApRep(rep) => rep.put(out),
        Message::KrbSafe(safe) => safe.put(out),
        Message::KrbPriv(private) => private.put(out),
        Message::KrbCred(cred) => cred.put(out),
        Message::KrbError(error) => error.put(out),
    }
}

/// Returns the notes that hold in a message. It allocates nothing.
pub fn notes_of(message: &Message) -> Notes
    ensures { result ≡ notes_of message.now }
{
    match message {
        Message::AsReq(req) => kdc_req::notes::<10>(req),
        Message::AsRep(rep) => kdc_rep::notes::<11>(rep),
        Message::TgsReq(req) => kdc_req::notes::<12>(req),
        Message::TgsRep(rep) => kdc_rep::notes::<13>(rep),
        Message::ApReq(req) => req.notes(),
        Message::ApRep(rep) => rep.notes(),
        Message::KrbSafe(safe) => safe.notes(),
        Message::KrbPriv(private) => private.notes(),
        Message::KrbCred(cred) => cred.notes(),
        Message::KrbError(error) => error.notes(),
    }
}

/// Returns the message of a view. Nothing is judged again, and each string of octets is copied once.
pub fn copy_message(alloc: Global, view: &MessageView<'_>) -> Result<Message, Memory>
    requires lists { IsValidMessage view.now }
    requires in_profile { IsInProfile Lenient (message_of_view view.now) }
    ensures { IfOk result (λ message. message ≡ message_of_view view.now) }
{
    match view {
        MessageView::AsReq(req) => Ok(Message::AsReq(kdc_req::copy::<10>(alloc, req)?)),
        MessageView::AsRep(rep) => Ok(Message::AsRep(kdc_rep::copy::<11>(alloc, rep)?)),
        MessageView::TgsReq(req) => Ok(Message::TgsReq(kdc_req::copy::<12>(alloc, req)?)),
        MessageView::TgsRep(rep) => Ok(Message::TgsRep(kdc_rep::copy::<13>(alloc, rep)?)),
        MessageView::ApReq(req) => Ok(Message::ApReq(ApReq::from_view(alloc, req)?)),
        MessageView::ApRep(rep) => Ok(Message::ApRep(ApRep::from_view(alloc, rep)?)),
        MessageView::KrbSafe(safe) => Ok(Message::KrbSafe(KrbSafe::from_view(alloc, safe)?)),
        MessageView::KrbPriv(private) => Ok(Message::KrbPriv(KrbPriv::from_view(alloc, private)?)),
        MessageView::KrbCred(cred) => Ok(Message::KrbCred(KrbCred::from_view(alloc, cred)?)),
        MessageView::KrbError(error) => Ok(Message::KrbError(KrbError::from_view(alloc, error)?)),
    }
}
