//! KRB-PRIV. `asn1/generate` wrote this from `asn1/krb5.asn1`.

ghost use Rattle.std.specs.Prelude.{◌≡◌, true};
ghost use Rattle.krb_msg.specs.Term.{tag_of};
ghost use Rattle.krb_msg.specs.Grammar.{krb_priv};
ghost use Rattle.krb_msg.specs.Types.{krb_priv_view_value, IsValidKrbPriv};

use crate::any_of;
use crate::encrypted_data::{EncryptedData, EncryptedDataView};
use crate::fields::{Application, End, Fixed, NotedView, Required, Sequence, View, ViewSequence};
use crate::notes::Notes;

/// An encrypted message (RFC 4120, 5.7.1). Its version and its message type are fixed, and so not
/// kept.
#[derive(PartialEq, Eq, Debug, Drop)]
pub struct KrbPriv {
    /// The encrypted EncKrbPrivPart.
    pub enc_part: EncryptedData,
}

/// A view of a KRB-PRIV: its strings and lists are borrowed from the octets.
#[derive(Clone, Copy, Default)]
pub struct KrbPrivView<'a> {
    /// The encrypted EncKrbPrivPart.
    pub enc_part: EncryptedDataView<'a>,
}

/// Its fields.
type Layout = Application<21, Sequence<Fixed<0, 5, Fixed<1, 21, Required<3, EncryptedData, End>>>>>;

impl<'a> View<'a> for KrbPriv {
    type Of = KrbPrivView<'a>;

    ghost term = { krb_priv };

    ghost value = { krb_priv_view_value };

    ghost IsValid = { IsValidKrbPriv };

    #[inline(always)]
    fn tag() -> u8
        ensures { result ≡ tag_of krb_priv }
    {
        0x75
    }

    #[inline(always)]
    fn view_into(contents: &'a [u8], seen: &mut KrbPrivView<'a>) -> bool {
        let mut fields = Default::default();
        if !<Layout as ViewSequence<'_>>::view_into(contents, &mut fields) {
            return false;
        }
        let (enc_part, ()) = fields;
        *seen = KrbPrivView { enc_part };
        true
    }
}

impl<'a> NotedView<'a> for KrbPriv {
    #[inline(always)]
    fn notes(seen: &KrbPrivView<'a>) -> Notes {
        any_of!(<EncryptedData as NotedView<'_>>::notes(&seen.enc_part))
    }
}
