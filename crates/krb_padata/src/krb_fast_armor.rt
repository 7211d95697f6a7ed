//! KrbFastArmor. `asn1/generate` wrote this from `asn1/padata.asn1`.

ghost use Rattle.std.specs.Prelude.{◌≡◌, true};
ghost use Rattle.krb_msg.specs.Term.{tag_of};
ghost use Rattle.krb_padata.specs.Grammar.{krb_fast_armor};
ghost use Rattle.krb_padata.specs.Types.{krb_fast_armor_view_value, IsValidKrbFastArmor};

use krb_der::{Int32, Octets};
use krb_msg::{End, Required, Sequence, View, ViewSequence};

/// The armor of a request (RFC 6113, 5.4.1).
#[derive(Drop)]
pub struct KrbFastArmor {
    /// The type of the armor: 1 is an AP-REQ (RFC 6113, 5.4.1.1).
    pub armor_type: Int32,
    /// The armor.
    pub armor_value: Octets,
}

/// A view of a KrbFastArmor: its strings and lists are borrowed from the octets.
#[derive(Clone, Copy, Default)]
pub struct KrbFastArmorView<'a> {
    /// The type of the armor: 1 is an AP-REQ (RFC 6113, 5.4.1.1).
    pub armor_type: i64,
    /// The armor.
    pub armor_value: &'a [u8],
}

/// Its fields.
type Layout = Sequence<Required<0, Int32, Required<1, Octets, End>>>;

impl<'a> View<'a> for KrbFastArmor {
    type Of = KrbFastArmorView<'a>;

    ghost term = { krb_fast_armor };

    ghost value = { krb_fast_armor_view_value };

    ghost IsValid = { IsValidKrbFastArmor };

    #[inline(always)]
    fn tag() -> u8
        ensures { result ≡ tag_of krb_fast_armor }
    {
        0x30
    }

    #[inline(always)]
    fn view_into(contents: &'a [u8], seen: &mut KrbFastArmorView<'a>) -> bool {
        let mut fields = Default::default();
        if !<Layout as ViewSequence<'_>>::view_into(contents, &mut fields) {
            return false;
        }
        let (armor_type, (armor_value, ())) = fields;
        *seen = KrbFastArmorView {
            armor_type,
            armor_value,
        };
        true
    }
}
