//! All kinds of messages. `asn1/generate` wrote this from `asn1/krb5.asn1`.

ghost use Rattle.std.specs.Prelude.{◌≡◌};
ghost use Rattle.krb_json.specs.AllKinds.{kinds};

use krb_msg::Kind;

/// All kinds of messages.
static KINDS: [Kind; 10] = [
    Kind::AsReq,
    Kind::AsRep,
    Kind::TgsReq,
    Kind::TgsRep,
    Kind::ApReq,
    Kind::ApRep,
    Kind::KrbSafe,
    Kind::KrbPriv,
    Kind::KrbCred,
    Kind::KrbError,
];

/// Returns all kinds of messages.
pub(crate) fn all_kinds() -> &'static [Kind]
    ensures { result.now ≡ kinds }
{
    &KINDS
}
