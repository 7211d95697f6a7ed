//! KRB-SAFE. `asn1/generate` wrote this from `asn1/krb5.asn1`.

ghost use Rattle.std.specs.Prelude.{◌≡◌, true};
ghost use Rattle.krb_msg.specs.Term.{tag_of};
ghost use Rattle.krb_msg.specs.Grammar.{krb_safe};
ghost use Rattle.krb_msg.specs.Types.{krb_safe_view_value, IsValidKrbSafe};

use crate::any_of;
use crate::checksum::{Checksum, ChecksumView};
use crate::fields::{Application, End, Fixed, NotedView, Required, Sequence, View, ViewSequence};
use crate::krb_safe_body::{KrbSafeBody, KrbSafeBodyView};
use crate::notes::Notes;

/// A message that is protected against modification (RFC 4120, 5.6.1). Its version and its message
/// type are fixed, and so not kept.
#[derive(PartialEq, Eq, Debug, Drop)]
pub struct KrbSafe {
    /// The protected body.
    pub body: KrbSafeBody,
    /// The checksum of the body.
    pub cksum: Checksum,
}

/// A view of a KRB-SAFE: its strings and lists are borrowed from the octets.
#[derive(Clone, Copy, Default)]
pub struct KrbSafeView<'a> {
    /// The protected body.
    pub body: KrbSafeBodyView<'a>,
    /// The checksum of the body.
    pub cksum: ChecksumView<'a>,
}

/// Its fields.
type Layout = Application<
    20,
    Sequence<Fixed<0, 5, Fixed<1, 20, Required<2, KrbSafeBody, Required<3, Checksum, End>>>>>,
>;

impl<'a> View<'a> for KrbSafe {
    type Of = KrbSafeView<'a>;

    ghost term = { krb_safe };

    ghost value = { krb_safe_view_value };

    ghost IsValid = { IsValidKrbSafe };

    #[inline(always)]
    fn tag() -> u8
        ensures { result ≡ tag_of krb_safe }
    {
        0x74
    }

    #[inline(always)]
    fn view_into(contents: &'a [u8], seen: &mut KrbSafeView<'a>) -> bool {
        let mut fields = Default::default();
        if !<Layout as ViewSequence<'_>>::view_into(contents, &mut fields) {
            return false;
        }
        let (body, (cksum, ())) = fields;
        *seen = KrbSafeView { body, cksum };
        true
    }
}

impl<'a> NotedView<'a> for KrbSafe {
    #[inline(always)]
    fn notes(seen: &KrbSafeView<'a>) -> Notes {
        any_of!(<KrbSafeBody as NotedView<'_>>::notes(&seen.body))
    }
}
