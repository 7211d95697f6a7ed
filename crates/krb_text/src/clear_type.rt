//! Types of pre-authentication data of which something is in the clear.

ghost use Rattle.std.specs.Prelude.{◌≡◌};
ghost use Rattle.krb_text.specs.Inside.{clear_type, fast_in, salt_in};

use krb_msg::PaDataView;

/// What carries pre-authentication data.
#[derive(Clone, Copy)]
pub enum Carrier {
    /// An AS-REQ or a TGS-REQ.
    Request,
    /// An AS-REP or a TGS-REP.
    Reply,
    /// The METHOD-DATA of a KRB-ERROR (RFC 4120, 5.9.1).
    Error,
}

/// What a value of pre-authentication data is, as far as something of it is in the clear (RFC 4120,
/// 7.5.2; RFC 6113, 5.4; MS-SFU, 2.2.1; MS-KILE, 2.2.3 and 2.2.10).
#[derive(Clone, Copy)]
pub enum ClearType {
    /// PA-TGS-REQ.
    TgsReq,
    /// PA-ENC-TIMESTAMP.
    EncTimestamp,
    /// PA-PW-SALT.
    PwSalt,
    /// PA-PW-SALT of an error, or an extended error (MS-KILE, 2.2.1), which Samba's KDC sends so.
    SaltOrError,
    /// PA-ETYPE-INFO.
    EtypeInfo,
    /// PA-ETYPE-INFO2.
    EtypeInfo2,
    /// PA-PAC-REQUEST.
    PacRequest,
    /// PA-FOR-USER.
    ForUser,
    /// PA-FX-FAST of a request.
    FastRequest,
    /// PA-FX-FAST of a reply or an error.
    FastReply,
    /// PA-ENCRYPTED-CHALLENGE.
    EncryptedChallenge,
    /// PA-PAC-OPTIONS.
    PacOptions,
    /// A type that is not shown.
    Other,
}

/// Returns what a value of type 3 is, by what carries it.
fn salt_in(carrier: Carrier) -> ClearType
    ensures { result ≡ salt_in carrier }
{
    match carrier {
        Carrier::Request | Carrier::Reply => ClearType::PwSalt,
        Carrier::Error => ClearType::SaltOrError,
    }
}

/// Returns what a value of type 136 is, by what carries it.
fn fast_in(carrier: Carrier) -> ClearType
    ensures { result ≡ fast_in carrier }
{
    match carrier {
        Carrier::Request => ClearType::FastRequest,
        Carrier::Reply | Carrier::Error => ClearType::FastReply,
    }
}

impl ClearType {
    /// Returns what an item is by its type and by what carries it.
    #[tactic(auto, unfolding(crate::specs::Inside::type_of_number))]
    pub(crate) fn of(carrier: Carrier, item: &PaDataView<'_>) -> ClearType
        ensures { result ≡ clear_type carrier item.now.padata_type }
    {
        match item.padata_type {
            1 => ClearType::TgsReq,
            2 => ClearType::EncTimestamp,
            3 => salt_in(carrier),
            11 => ClearType::EtypeInfo,
            19 => ClearType::EtypeInfo2,
            128 => ClearType::PacRequest,
            129 => ClearType::ForUser,
            136 => fast_in(carrier),
            138 => ClearType::EncryptedChallenge,
            167 => ClearType::PacOptions,
            _ => ClearType::Other,
        }
    }
}
