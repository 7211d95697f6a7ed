//! The kind of a message, by its octets.

ghost use Rattle.std.specs.Prelude.{◌≡◌, ◌^◌, ◌<◌, length};
ghost use Rattle.krb_der.specs.declared.profile.Profile.TheVariants.{Lenient};
ghost use Rattle.krb_der.specs.declared.verdict.Verdict.TheVariants.{Whole};
ghost use Rattle.krb_msg.specs.Judgement.{judgement};
ghost use Rattle.krb_msg.specs.Views.{AreOfKind, kind_of_tag};

use crate::message::Kind;

/// Returns the kind of the message whose octets these are, which are judged whole. It
/// allocates nothing.
pub fn whole_kind(octets: &[u8]) -> Kind
    requires short { length octets.now < 2 ^ 31 }
    requires whole { judgement Lenient (length octets.now) octets.now ≡ Whole }
    ensures { AreOfKind Lenient octets.now result }
{
    kind(octets[0])
}

/// Returns the kind of the messages that begin with an identifier octet (RFC 4120, 5.10).
fn kind(tag: u8) -> Kind
    ensures { result ≡ kind_of_tag tag }
{
    Kind::of_tag(tag).unwrap_or(Kind::KrbError)
}
