//! What is printed of the values of configuration entries.

ghost use Rattle.std.specs.Prelude.{◌≡◌, ◌++◌, [], ◌∷◌, OnOk, codes};
ghost use Rattle.krb_list.specs.Configs.{config_value, is_shown, is_shown_key};
ghost use Rattle.krb_record.specs.Forms.{fields_text};
ghost use Rattle.krb_record.specs.Refusals.{told};
ghost use Rattle.krb_record.specs.Values.{Quoted, if_there, the};

use krb_ccache::Credential;
use krb_der::KString;
use krb_record::{Form, QuotedText, TextBuffer, put_field};
use std::alloc::AllocError;

/// The key that tells that a KDC offered FAST (RFC 6113, 5.4).
const FAST_AVAIL: &[u8] = b"fast_avail";

/// The key of the type of pre-authentication that was made last.
const PA_TYPE: &[u8] = b"pa_type";

/// The key of the principal that acts for the client of the cache.
const PROXY_IMPERSONATOR: &[u8] = b"proxy_impersonator";

/// The key of the time at which tickets are to be asked for again.
const REFRESH_TIME: &[u8] = b"refresh_time";

/// The key of the realm of the first ticket.
const START_REALM: &[u8] = b"start_realm";

/// Returns whether values of a key are shown.
fn is_shown_key(key: &[u8]) -> bool
    ensures { result ≡ is_shown_key key.now }
{
    key == FAST_AVAIL
        || key == PA_TYPE
        || key == PROXY_IMPERSONATOR
        || key == REFRESH_TIME
        || key == START_REALM
}

/// Returns whether the value of a configuration entry is shown, by the components of its server's
/// name.
fn is_shown(components: &[KString]) -> bool
    ensures { result ≡ is_shown components.now }
{
    match components {
        [_, key, ..] => is_shown_key(key.octets()),
        _ => false,
    }
}

/// Returns the value of a configuration entry, if it is shown.
#[tactic(auto, unfolding(crate::specs::Configs::config_value))]
fn shown_value(credential: &Credential) -> Option<QuotedText<'_>>
    ensures { if_there (λ text. Quoted text.0.now) result ≡ config_value credential.now }
{
    if is_shown(credential.server.components.as_slice()) {
        Some(QuotedText(credential.ticket.as_slice()))
    } else {
        None
    }
}

/// Appends the field of the value of a configuration entry, which lines have only with names.
pub(crate) fn put_value(
    text: &mut TextBuffer,
    form: Form,
    credential: &Credential,
) -> Result<(), AllocError>
    ensures { OnOk result (text.new ≡ text.old ++ fields_text form (told form (the (codes "value") (config_value credential.now) ∷ []))) }
{
    if form.is_plain() {
        return Ok(());
    }
    put_field!(text, form, "value": &shown_value(credential))
}
