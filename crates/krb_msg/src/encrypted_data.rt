//! EncryptedData. `asn1/generate` wrote this from `asn1/krb5.asn1`.

ghost use Rattle.std.specs.Prelude.{◌≡◌, true};
ghost use Rattle.krb_msg.specs.Term.{tag_of};
ghost use Rattle.krb_msg.specs.Grammar.{encrypted_data};
ghost use Rattle.krb_msg.specs.Types.{encrypted_data_view_value, IsValidEncryptedData};

use crate::any_of;
use crate::fields::{
    End, NotedView, Optional, Required, Sequence, View, ViewSequence, optional_view_notes,
};
use crate::notes::Notes;
use krb_der::{Int32, Octets, Wide32};

/// Encrypted data (RFC 4120, 5.2.9), which is never decrypted.
#[derive(PartialEq, Eq, Debug, Drop)]
pub struct EncryptedData {
    /// The encryption type (RFC 3961); any value is accepted.
    pub etype: Int32,
    /// The version number of the key, if known.
    pub kvno: Option<Wide32>,
    /// The encrypted octets.
    pub cipher: Octets,
}

/// A view of an EncryptedData: its strings and lists are borrowed from the octets.
#[derive(Clone, Copy, Default)]
pub struct EncryptedDataView<'a> {
    /// The encryption type (RFC 3961); any value is accepted.
    pub etype: i64,
    /// The version number of the key, if known.
    pub kvno: Option<i64>,
    /// The encrypted octets.
    pub cipher: &'a [u8],
}

/// Its fields.
type Layout = Sequence<Required<0, Int32, Optional<1, Wide32, Required<2, Octets, End>>>>;

impl<'a> View<'a> for EncryptedData {
    type Of = EncryptedDataView<'a>;

    ghost term = { encrypted_data };

    ghost value = { encrypted_data_view_value };

    ghost IsValid = { IsValidEncryptedData };

    #[inline(always)]
    fn tag() -> u8
        ensures { result ≡ tag_of encrypted_data }
    {
        0x30
    }

    #[inline(always)]
    fn view_into(contents: &'a [u8], seen: &mut EncryptedDataView<'a>) -> bool {
        let mut fields = Default::default();
        if !<Layout as ViewSequence<'_>>::view_into(contents, &mut fields) {
            return false;
        }
        let (etype, (kvno, (cipher, ()))) = fields;
        *seen = EncryptedDataView {
            etype,
            kvno,
            cipher,
        };
        true
    }
}

impl<'a> NotedView<'a> for EncryptedData {
    #[inline(always)]
    fn notes(seen: &EncryptedDataView<'a>) -> Notes {
        any_of!(optional_view_notes::<Wide32>(&seen.kvno))
    }
}
