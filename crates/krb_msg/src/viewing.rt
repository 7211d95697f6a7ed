//! Messages viewed in place, by their octets and by a profile.

ghost use Rattle.std.specs.Prelude.{◌≡◌, ◌^◌, ◌<◌, length, MatchOption};
ghost use Rattle.krb_der.specs.declared.profile.Profile.TheVariants.{Strict};
ghost use Rattle.krb_der.specs.declared.verdict.Verdict.TheVariants.{Whole};
ghost use Rattle.krb_msg.specs.Judgement.{judgement};
ghost use Rattle.krb_msg.specs.ViewValues.{IsMessageView, IsNoMessage};

use crate::message::Kind;
use crate::message_view::{MessageView, view_of_kind};
use crate::notes::is_strict_view;
use krb_der::Profile;

/// The most octets of a message (RFC 4120, 7.2.2).
const MOST: usize = 0x7FFF_FFFF;

/// Returns a view of a message, if the octets are one by the lenient profile: all of them, judged
/// and viewed in one pass. More than 2147483647 octets are not. It allocates nothing.
#[inline(always)]
pub fn view_message(octets: &[u8]) -> Option<MessageView<'_>>
    ensures { MatchOption result (IsNoMessage octets.now) (λ m. IsMessageView octets.now m) }
{
    if octets.len() > MOST {
        return None;
    }
    view_short_message(octets)
}

/// Returns a view of a message of at most 2147483647 octets, as [`view_message`] does.
fn view_short_message(octets: &[u8]) -> Option<MessageView<'_>>
    requires short { length octets.now < 2 ^ 31 }
    ensures { MatchOption result (IsNoMessage octets.now) (λ m. IsMessageView octets.now m) }
{
    let [first, ..] = octets else {
        return None;
    };
    let Some(kind) = Kind::of_tag(*first) else {
        return None;
    };
    view_of_kind(kind, octets)
}

/// Returns a view of a message, if the octets are one by a profile; see [`view_message`].
#[inline(always)]
pub fn view_message_in(profile: Profile, octets: &[u8]) -> Option<MessageView<'_>>
    requires short { length octets.now < 2 ^ 31 }
    ensures { MatchOption result (judgement profile (length octets.now) octets.now ≡ Whole → ⊥) (λ m. IsMessageView octets.now m × (judgement profile (length octets.now) octets.now ≡ Whole)) }
{
    match profile {
        Profile::Lenient => view_short_message(octets),
        Profile::Strict => view_strict(octets),
    }
}

/// Returns a view of a message, if the octets are one by the strict profile: a message by the lenient
/// one in which no note holds.
fn view_strict(octets: &[u8]) -> Option<MessageView<'_>>
    requires short { length octets.now < 2 ^ 31 }
    ensures { MatchOption result (judgement Strict (length octets.now) octets.now ≡ Whole → ⊥) (λ m. IsMessageView octets.now m × (judgement Strict (length octets.now) octets.now ≡ Whole)) }
{
    let message = view_short_message(octets)?;
    if is_strict_view(&message) {
        Some(message)
    } else {
        None
    }
}
