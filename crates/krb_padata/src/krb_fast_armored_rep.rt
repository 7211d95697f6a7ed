//! KrbFastArmoredRep. `asn1/generate` wrote this from `asn1/padata.asn1`.

ghost use Rattle.std.specs.Prelude.{◌≡◌, true};
ghost use Rattle.krb_msg.specs.Term.{tag_of};
ghost use Rattle.krb_padata.specs.Grammar.{krb_fast_armored_rep};
ghost use Rattle.krb_padata.specs.Types.{krb_fast_armored_rep_view_value, IsValidKrbFastArmoredRep};

use krb_msg::{
    EncryptedData, EncryptedDataView, End, Required, Sequence, Tagged, View, ViewSequence,
};

/// An armored reply (RFC 6113, 5.4.3). Its KrbFastResponse is never decrypted.
#[derive(Drop)]
pub struct KrbFastArmoredRep {
    /// The encrypted KrbFastResponse.
    pub enc_fast_rep: EncryptedData,
}

/// A view of a KrbFastArmoredRep: its strings and lists are borrowed from the octets.
#[derive(Clone, Copy, Default)]
pub struct KrbFastArmoredRepView<'a> {
    /// The encrypted KrbFastResponse.
    pub enc_fast_rep: EncryptedDataView<'a>,
}

/// Its fields.
type Layout = Sequence<Required<0, EncryptedData, End>>;

impl<'a> View<'a> for KrbFastArmoredRep {
    type Of = KrbFastArmoredRepView<'a>;

    ghost term = { krb_fast_armored_rep };

    ghost value = { krb_fast_armored_rep_view_value };

    ghost IsValid = { IsValidKrbFastArmoredRep };

    #[inline(always)]
    fn tag() -> u8
        ensures { result ≡ tag_of krb_fast_armored_rep }
    {
        0x30
    }

    #[inline(always)]
    fn view_into(contents: &'a [u8], seen: &mut KrbFastArmoredRepView<'a>) -> bool {
        let mut fields = Default::default();
        if !<Layout as ViewSequence<'_>>::view_into(contents, &mut fields) {
            return false;
        }
        let (enc_fast_rep, ()) = fields;
        *seen = KrbFastArmoredRepView { enc_fast_rep };
        true
    }
}

/// PA-FX-FAST-REPLY (RFC 6113, 5.4.3).
pub type PaFxFastReply = Tagged<0, KrbFastArmoredRep>;
