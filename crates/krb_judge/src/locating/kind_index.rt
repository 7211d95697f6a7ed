//! The order of kinds. `asn1/generate` wrote this from `asn1/krb5.asn1`.

ghost use Rattle.std.specs.Prelude.{◌≡◌};
ghost use Rattle.krb_judge.specs.inner.KindIndex.{kind_index};

use krb_msg::Kind;

/// Returns the index of a kind, in the order of the messages of a profile.
pub(crate) fn index_of(kind: Kind) -> usize
    ensures { result ≡ kind_index kind }
{
    match kind {
        Kind::AsReq => 0,
        Kind::AsRep => 1,
        Kind::TgsReq => 2,
        Kind::TgsRep => 3,
        Kind::ApReq => 4,
        Kind::ApRep => 5,
        Kind::KrbSafe => 6,
        Kind::KrbPriv => 7,
        Kind::KrbCred => 8,
        Kind::KrbError => 9,
    }
}
