//! KrbFastArmoredReq. `asn1/generate` wrote this from `asn1/padata.asn1`.

ghost use Rattle.std.specs.Prelude.{◌≡◌, true};
ghost use Rattle.krb_msg.specs.Term.{tag_of};
ghost use Rattle.krb_padata.specs.Grammar.{krb_fast_armored_req};
ghost use Rattle.krb_padata.specs.Types.{krb_fast_armored_req_view_value, IsValidKrbFastArmoredReq};

use crate::krb_fast_armor::{KrbFastArmor, KrbFastArmorView};
use krb_msg::{
    Checksum, ChecksumView, EncryptedData, EncryptedDataView, End, Optional, Required, Sequence,
    Tagged, View, ViewSequence,
};

/// An armored request (RFC 6113, 5.4.2). Its KrbFastReq is never decrypted.
#[derive(Drop)]
pub struct KrbFastArmoredReq {
    /// The armor, unless it is the ticket of a PA-TGS-REQ.
    pub armor: Option<KrbFastArmor>,
    /// A checksum over the request.
    pub req_checksum: Checksum,
    /// The encrypted KrbFastReq.
    pub enc_fast_req: EncryptedData,
}

/// A view of a KrbFastArmoredReq: its strings and lists are borrowed from the octets.
#[derive(Clone, Copy, Default)]
pub struct KrbFastArmoredReqView<'a> {
    /// The armor, unless it is the ticket of a PA-TGS-REQ.
    pub armor: Option<KrbFastArmorView<'a>>,
    /// A checksum over the request.
    pub req_checksum: ChecksumView<'a>,
    /// The encrypted KrbFastReq.
    pub enc_fast_req: EncryptedDataView<'a>,
}

/// Its fields.
type Layout = Sequence<
    Optional<0, KrbFastArmor, Required<1, Checksum, Required<2, EncryptedData, End>>>,
>;

impl<'a> View<'a> for KrbFastArmoredReq {
    type Of = KrbFastArmoredReqView<'a>;

    ghost term = { krb_fast_armored_req };

    ghost value = { krb_fast_armored_req_view_value };

    ghost IsValid = { IsValidKrbFastArmoredReq };

    #[inline(always)]
    fn tag() -> u8
        ensures { result ≡ tag_of krb_fast_armored_req }
    {
        0x30
    }

    #[inline(always)]
    fn view_into(contents: &'a [u8], seen: &mut KrbFastArmoredReqView<'a>) -> bool {
        let mut fields = Default::default();
        if !<Layout as ViewSequence<'_>>::view_into(contents, &mut fields) {
            return false;
        }
        let (armor, (req_checksum, (enc_fast_req, ()))) = fields;
        *seen = KrbFastArmoredReqView {
            armor,
            req_checksum,
            enc_fast_req,
        };
        true
    }
}

/// PA-FX-FAST-REQUEST (RFC 6113, 5.4.2).
pub type PaFxFastRequest = Tagged<0, KrbFastArmoredReq>;
