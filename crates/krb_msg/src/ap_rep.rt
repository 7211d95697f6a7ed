//! AP-REP. `asn1/generate` wrote this from `asn1/krb5.asn1`.

ghost use Rattle.std.specs.Prelude.{◌≡◌, true};
ghost use Rattle.krb_msg.specs.Term.{tag_of};
ghost use Rattle.krb_msg.specs.Grammar.{ap_rep};
ghost use Rattle.krb_msg.specs.Types.{ap_rep_view_value, IsValidApRep};

use crate::any_of;
use crate::encrypted_data::{EncryptedData, EncryptedDataView};
use crate::fields::{Application, End, Fixed, NotedView, Required, Sequence, View, ViewSequence};
use crate::notes::Notes;

/// The reply of an application server (RFC 4120, 5.5.2). Its version and its message type are
/// fixed, and so not kept.
#[derive(PartialEq, Eq, Debug, Drop)]
pub struct ApRep {
    /// The encrypted EncAPRepPart.
    pub enc_part: EncryptedData,
}

/// A view of an AP-REP: its strings and lists are borrowed from the octets.
#[derive(Clone, Copy, Default)]
pub struct ApRepView<'a> {
    /// The encrypted EncAPRepPart.
    pub enc_part: EncryptedDataView<'a>,
}

/// Its fields.
type Layout = Application<15, Sequence<Fixed<0, 5, Fixed<1, 15, Required<2, EncryptedData, End>>>>>;

impl<'a> View<'a> for ApRep {
    type Of = ApRepView<'a>;

    ghost term = { ap_rep };

    ghost value = { ap_rep_view_value };

    ghost IsValid = { IsValidApRep };

    #[inline(always)]
    fn tag() -> u8
        ensures { result ≡ tag_of ap_rep }
    {
        0x6F
    }

    #[inline(always)]
    fn view_into(contents: &'a [u8], seen: &mut ApRepView<'a>) -> bool {
        let mut fields = Default::default();
        if !<Layout as ViewSequence<'_>>::view_into(contents, &mut fields) {
            return false;
        }
        let (enc_part, ()) = fields;
        *seen = ApRepView { enc_part };
        true
    }
}

impl<'a> NotedView<'a> for ApRep {
    #[inline(always)]
    fn notes(seen: &ApRepView<'a>) -> Notes {
        any_of!(<EncryptedData as NotedView<'_>>::notes(&seen.enc_part))
    }
}
