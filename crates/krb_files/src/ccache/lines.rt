//! What is printed of whole credential caches.

ghost use Rattle.std.specs.Prelude.{◌≡◌, ◌++◌, IfOk, OnOk, string_bytes};
ghost use Rattle.krb_list.specs.Ccaches.{credential_lines, ccache_lines};

use krb_ccache::{Ccache, Credential};
use krb_der::Memory;
use krb_list::{put_cache, put_cache_end, put_credential};
use krb_record::{Form, TextBuffer};
use std::alloc::{AllocError, Global};

/// Appends the lines of credentials.
fn put_credentials(
    text: &mut TextBuffer,
    form: Form,
    now: Option<u32>,
    credentials: &[Credential],
) -> Result<(), AllocError>
    ensures { OnOk result (text.new ≡ text.old ++ credential_lines form now credentials.now) }
{
    for credential in credentials {
        put_credential(text, form, credential, now)?;
    }
    Ok(())
}

/// Appends the lines of a cache, those of [`ccache_lines`].
#[tactic(auto, unfolding(krb_list::specs::Ccaches::ccache_lines))]
pub fn put_ccache(
    text: &mut TextBuffer,
    form: Form,
    ccache: &Ccache,
    now: Option<u32>,
) -> Result<(), AllocError>
    ensures { OnOk result (text.new ≡ text.old ++ ccache_lines form now ccache.now) }
{
    let credentials = ccache.credentials.as_slice();
    put_cache(text, form, &ccache.header, &ccache.principal)?;
    put_credentials(text, form, now, credentials)?;
    put_cache_end(text, form, credentials.len() as u64)
}

/// Returns the lines of a cache: [`cache_line`](krb_list::cache_line),
/// [`credential_line`](krb_list::credential_line) of each credential, in order, and
/// [`cache_end_line`](krb_list::cache_end_line), each with a line feed after it. They show no octet
/// of a key, which is a law: `session_keys_are_not_shown` of `krb_text_laws`.
pub fn ccache_lines(
    alloc: Global,
    form: Form,
    ccache: &Ccache,
    now: Option<u32>,
) -> Result<String, Memory>
    ensures { IfOk result (λ text. string_bytes text ≡ ccache_lines form now ccache.now) }
{
    let mut text = TextBuffer::new(alloc);
    put_ccache(&mut text, form, ccache, now)?;
    Ok(text.into_string())
}
