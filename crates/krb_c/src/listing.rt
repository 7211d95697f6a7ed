//! Octets that are listed, as `krbls` lists them.

ghost use Rattle.std.specs.Prelude.{IfOk};
ghost use Rattle.krb_der.specs.declared.profile.Profile.TheVariants.{Lenient};
ghost use Rattle.krb_c.specs.Numbers.{form_of, goes_on, limit_of, now_of, port_of, profile_of};
ghost use Rattle.krb_c.specs.Listed.{IsCaptureListing, IsCcacheListing, IsItemsListing, IsKeytabListing, IsMessageListing, IsStreamListing};
ghost use Rattle.krb_c.specs.Written.{IsListed};

use crate::numbers::{form_of, goes_on, limit_of, now_of, port_of, profile_of};
use crate::writing::{Listing, answer};
use krb_capture_run::run_capture;
use krb_file_run::{run_ccache_in, run_keytab_in};
use krb_items_run::list_items;
use krb_record::Label;
use krb_run::RunFault;
use krb_tool::{Form, Limit, Profile, list_octets, run_stream_in};
use std::alloc::Global;

/// Returns the line of a message of a profile, or of its refusal.
pub(crate) fn message_listing(
    alloc: Global,
    form: Form,
    profile: Profile,
    octets: &[u8],
) -> Result<Listing, RunFault>
    ensures { IfOk result (λ made. IsMessageListing form profile octets.now made.text.items made.end) }
{
    let listed = list_octets(alloc, form, profile, octets)?;
    let text = listed.text.into_string().into_bytes();
    let end = listed.end;
    Ok(Listing { text, end })
}

/// Returns the items of a message of a profile, or those up to its refusal.
fn items_listing(
    alloc: Global,
    form: Form,
    profile: Profile,
    octets: &[u8],
) -> Result<Listing, RunFault>
    ensures { IfOk result (λ made. IsItemsListing form profile octets.now made.text.items made.end) }
{
    let listed = list_items(alloc, form, profile, octets)?;
    let text = listed.text.into_string().into_bytes();
    let end = listed.end;
    Ok(Listing { text, end })
}

/// Returns the listing of a stream, which may go on after refusals.
pub(crate) fn stream_listing(
    alloc: Global,
    goes_on: bool,
    form: Form,
    profile: Profile,
    limit: Limit,
    octets: &[u8],
) -> Result<Listing, RunFault>
    ensures { IfOk result (λ made. IsStreamListing goes_on form profile limit octets.now made.text.items made.end) }
{
    let mut reader = octets;
    let mut text = Vec::new(alloc);
    let end = run_stream_in(
        alloc,
        &Label::none(form),
        profile,
        goes_on,
        &mut reader,
        &mut text,
        limit,
    )?;
    Ok(Listing { text, end })
}

/// Returns the listing of a keytab.
pub(crate) fn keytab_listing(alloc: Global, form: Form, octets: &[u8]) -> Result<Listing, RunFault>
    ensures { IfOk result (λ made. IsKeytabListing form octets.now made.text.items made.end) }
{
    let mut reader = octets;
    let mut text = Vec::new(alloc);
    let end = run_keytab_in(alloc, &Label::none(form), &mut reader, &mut text)?;
    Ok(Listing { text, end })
}

/// Returns the listing of a credential cache.
pub(crate) fn ccache_listing(
    alloc: Global,
    form: Form,
    now: Option<u32>,
    octets: &[u8],
) -> Result<Listing, RunFault>
    ensures { IfOk result (λ made. IsCcacheListing form now octets.now made.text.items made.end) }
{
    let mut reader = octets;
    let mut text = Vec::new(alloc);
    let end = run_ccache_in(alloc, &Label::none(form), &mut reader, &mut text, now)?;
    Ok(Listing { text, end })
}

/// Returns the listing of a capture.
pub(crate) fn capture_listing(
    alloc: Global,
    form: Form,
    profile: Profile,
    limit: Limit,
    port: u16,
    octets: &[u8],
) -> Result<Listing, RunFault>
    ensures { IfOk result (λ made. IsCaptureListing form profile limit port octets.now made.text.items made.end) }
{
    let mut reader = octets;
    let mut text = Vec::new(alloc);
    let end = run_capture(
        alloc,
        &Label::none(form),
        profile,
        &mut reader,
        &mut text,
        limit,
        port,
    )?;
    Ok(Listing { text, end })
}

/// Lists octets as one message of a profile: its line, or that of its refusal, as `krbls message`
/// prints it of the same octets in hexadecimal.
#[unsafe(no_mangle)]
pub extern "C" fn krbls_message(
    alloc: Global,
    form: u32,
    profile: u32,
    octets: &[u8],
    text: &mut [u8],
    size: &mut usize,
) -> u32
    ensures { IsListed (IsMessageListing (form_of form) (profile_of profile) octets.now) text.old text.new size.old size.new result }
{
    let listing = message_listing(alloc, form_of(form), profile_of(profile), octets);
    answer(listing, text, size)
}

/// Lists where each item of octets is that are one message of a profile: what `krbls items` prints of the
/// same octets in hexadecimal.
#[unsafe(no_mangle)]
pub extern "C" fn krbls_items(
    alloc: Global,
    form: u32,
    profile: u32,
    octets: &[u8],
    text: &mut [u8],
    size: &mut usize,
) -> u32
    ensures { IsListed (IsItemsListing (form_of form) (profile_of profile) octets.now) text.old text.new size.old size.new result }
{
    let listing = items_listing(alloc, form_of(form), profile_of(profile), octets);
    answer(listing, text, size)
}

/// Lists a stream of framed messages (RFC 4120, 7.2.2), as `krbls stream` does; or, unless
/// `going_on` is 0, as `krbls stream --keep-going` does.
#[unsafe(no_mangle)]
pub extern "C" fn krbls_stream(
    alloc: Global,
    form: u32,
    profile: u32,
    limit: u32,
    going_on: u32,
    octets: &[u8],
    text: &mut [u8],
    size: &mut usize,
) -> u32
    ensures { IsListed (IsStreamListing (goes_on going_on) (form_of form) (profile_of profile) (limit_of limit) octets.now) text.old text.new size.old size.new result }
{
    let listing = stream_listing(
        alloc,
        goes_on(going_on),
        form_of(form),
        profile_of(profile),
        limit_of(limit),
        octets,
    );
    answer(listing, text, size)
}

/// Lists a keytab, as `krbls keytab` does.
#[unsafe(no_mangle)]
pub extern "C" fn krbls_keytab(
    alloc: Global,
    form: u32,
    octets: &[u8],
    text: &mut [u8],
    size: &mut usize,
) -> u32
    ensures { IsListed (IsKeytabListing (form_of form) octets.now) text.old text.new size.old size.new result }
{
    let listing = keytab_listing(alloc, form_of(form), octets);
    answer(listing, text, size)
}

/// Lists a credential cache, as `krbls ccache` does, with a time to compare with unless `now` is 0.
#[unsafe(no_mangle)]
pub extern "C" fn krbls_ccache(
    alloc: Global,
    form: u32,
    now: u32,
    octets: &[u8],
    text: &mut [u8],
    size: &mut usize,
) -> u32
    ensures { IsListed (IsCcacheListing (form_of form) (now_of now) octets.now) text.old text.new size.old size.new result }
{
    let listing = ccache_listing(alloc, form_of(form), now_of(now), octets);
    answer(listing, text, size)
}

/// Lists a capture, as `krbls capture` does.
#[unsafe(no_mangle)]
pub extern "C" fn krbls_capture(
    alloc: Global,
    form: u32,
    limit: u32,
    port: u16,
    octets: &[u8],
    text: &mut [u8],
    size: &mut usize,
) -> u32
    ensures { IsListed (IsCaptureListing (form_of form) Lenient (limit_of limit) (port_of port) octets.now) text.old text.new size.old size.new result }
{
    let listing = capture_listing(
        alloc,
        form_of(form),
        Profile::Lenient,
        limit_of(limit),
        port_of(port),
        octets,
    );
    answer(listing, text, size)
}
