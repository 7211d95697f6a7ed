//! Messages. `asn1/generate` wrote this from `asn1/krb5.asn1`.

ghost use Rattle.std.specs.Prelude.{◌≡◌};
ghost use Rattle.krb_msg.specs.Views.{kind_of, kind_number, kind_tag, kind_name, kind_with_tag};

use crate::ap_rep::ApRep;
use crate::ap_req::ApReq;
use crate::kdc_rep::KdcRep;
use crate::kdc_req::KdcReq;
use crate::krb_cred::KrbCred;
use crate::krb_error::KrbError;
use crate::krb_priv::KrbPriv;
use crate::krb_safe::KrbSafe;

/// A message of any kind (RFC 4120, section 5).
#[derive(PartialEq, Eq, Debug, Drop)]
pub enum Message {
    /// A request for an initial ticket (5.4.1).
    AsReq(KdcReq),
    /// The reply to an AS-REQ (5.4.2).
    AsRep(KdcRep),
    /// A request for a further ticket, with a ticket-granting ticket (5.4.1).
    TgsReq(KdcReq),
    /// The reply to a TGS-REQ (5.4.2).
    TgsRep(KdcRep),
    /// A client's authentication to an application server (5.5.1).
    ApReq(ApReq),
    /// The reply to an AP-REQ (5.5.2).
    ApRep(ApRep),
    /// Data protected against modification (5.6.1).
    KrbSafe(KrbSafe),
    /// Encrypted data of an application (5.7.1).
    KrbPriv(KrbPriv),
    /// Forwarded tickets (5.8.1).
    KrbCred(KrbCred),
    /// An error, reported by a KDC or a server (5.9.1).
    KrbError(KrbError),
}

/// What kind a message is of.
#[derive(Clone, Copy, PartialEq, Eq, Debug)]
pub enum Kind {
    /// AS-REQ, `[APPLICATION 10]`.
    AsReq,
    /// AS-REP, `[APPLICATION 11]`.
    AsRep,
    /// TGS-REQ, `[APPLICATION 12]`.
    TgsReq,
    /// TGS-REP, `[APPLICATION 13]`.
    TgsRep,
    /// AP-REQ, `[APPLICATION 14]`.
    ApReq,
    /// AP-REP, `[APPLICATION 15]`.
    ApRep,
    /// KRB-SAFE, `[APPLICATION 20]`.
    KrbSafe,
    /// KRB-PRIV, `[APPLICATION 21]`.
    KrbPriv,
    /// KRB-CRED, `[APPLICATION 22]`.
    KrbCred,
    /// KRB-ERROR, `[APPLICATION 30]`.
    KrbError,
}

impl Message {
    /// Returns the kind of the message.
    pub fn kind(&self) -> Kind
        ensures { result ≡ kind_of self.now }
    {
        match self {
            Message::AsReq(_) => Kind::AsReq,
            Message::AsRep(_) => Kind::AsRep,
            Message::TgsReq(_) => Kind::TgsReq,
            Message::TgsRep(_) => Kind::TgsRep,
            Message::ApReq(_) => Kind::ApReq,
            Message::ApRep(_) => Kind::ApRep,
            Message::KrbSafe(_) => Kind::KrbSafe,
            Message::KrbPriv(_) => Kind::KrbPriv,
            Message::KrbCred(_) => Kind::KrbCred,
            Message::KrbError(_) => Kind::KrbError,
        }
    }
}

impl Kind {
    /// Returns the number of the kind: its msg-type, and that of its `[APPLICATION]` (RFC 4120,
    /// 5.10).
    pub fn number(self) -> u8
        ensures { result ≡ kind_number self }
    {
        match self {
            Kind::AsReq => 10,
            Kind::AsRep => 11,
            Kind::TgsReq => 12,
            Kind::TgsRep => 13,
            Kind::ApReq => 14,
            Kind::ApRep => 15,
            Kind::KrbSafe => 20,
            Kind::KrbPriv => 21,
            Kind::KrbCred => 22,
            Kind::KrbError => 30,
        }
    }

    /// Returns the identifier octet with which its messages begin.
    pub fn tag(self) -> u8
        ensures { result ≡ kind_tag self }
    {
        0x60 + self.number()
    }

    /// Returns its name in RFC 4120.
    pub fn name(self) -> &'static str
        ensures { result.now ≡ kind_name self }
    {
        match self {
            Kind::AsReq => "AS-REQ",
            Kind::AsRep => "AS-REP",
            Kind::TgsReq => "TGS-REQ",
            Kind::TgsRep => "TGS-REP",
            Kind::ApReq => "AP-REQ",
            Kind::ApRep => "AP-REP",
            Kind::KrbSafe => "KRB-SAFE",
            Kind::KrbPriv => "KRB-PRIV",
            Kind::KrbCred => "KRB-CRED",
            Kind::KrbError => "KRB-ERROR",
        }
    }

    /// Returns the kind whose messages begin with an identifier octet.
    pub fn of_tag(tag: u8) -> Option<Kind>
        ensures { result ≡ kind_with_tag tag }
    {
        match tag {
            0x6A => Some(Kind::AsReq),
            0x6B => Some(Kind::AsRep),
            0x6C => Some(Kind::TgsReq),
            0x6D => Some(Kind::TgsRep),
            0x6E => Some(Kind::ApReq),
            0x6F => Some(Kind::ApRep),
            0x74 => Some(Kind::KrbSafe),
            0x75 => Some(Kind::KrbPriv),
            0x76 => Some(Kind::KrbCred),
            0x7E => Some(Kind::KrbError),
            _ => None,
        }
    }
}
