//! Checksum. `asn1/generate` wrote this from `asn1/krb5.asn1`.

ghost use Rattle.std.specs.Prelude.{◌≡◌, true};
ghost use Rattle.krb_msg.specs.Term.{tag_of};
ghost use Rattle.krb_msg.specs.Grammar.{checksum as checksum_term};
ghost use Rattle.krb_msg.specs.Types.{checksum_view_value, IsValidChecksum};

use crate::fields::{End, Required, Sequence, View, ViewSequence};
use krb_der::{Int32, Octets};

/// A checksum (RFC 4120, 5.2.9). It is not verified.
#[derive(PartialEq, Eq, Debug, Drop)]
pub struct Checksum {
    /// The checksum type (RFC 3961); any value is accepted.
    pub cksumtype: Int32,
    /// The octets of the checksum.
    pub checksum: Octets,
}

/// A view of a Checksum: its strings and lists are borrowed from the octets.
#[derive(Clone, Copy, Default)]
pub struct ChecksumView<'a> {
    /// The checksum type (RFC 3961); any value is accepted.
    pub cksumtype: i64,
    /// The octets of the checksum.
    pub checksum: &'a [u8],
}

/// Its fields.
type Layout = Sequence<Required<0, Int32, Required<1, Octets, End>>>;

impl<'a> View<'a> for Checksum {
    type Of = ChecksumView<'a>;

    ghost term = { checksum_term };

    ghost value = { checksum_view_value };

    ghost IsValid = { IsValidChecksum };

    #[inline(always)]
    fn tag() -> u8
        ensures { result ≡ tag_of checksum_term }
    {
        0x30
    }

    #[inline(always)]
    fn view_into(contents: &'a [u8], seen: &mut ChecksumView<'a>) -> bool {
        let mut fields = Default::default();
        if !<Layout as ViewSequence<'_>>::view_into(contents, &mut fields) {
            return false;
        }
        let (cksumtype, (checksum, ())) = fields;
        *seen = ChecksumView {
            cksumtype,
            checksum,
        };
        true
    }
}
