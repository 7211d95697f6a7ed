//! Writing caches.

ghost use Rattle.std.specs.Prelude.{◌≡◌, ◌≤◌, ◌^◌, ◌↔◌, true, false, length, Ok, IfOk, IsErrOf, IsNone, IfSome};
ghost use Rattle.krb_files.specs.declared.ccache.writing.CcacheFault.TheVariants.{Memory};
ghost use Rattle.krb_ccache.specs.Spelling.{principal as principal_octets, PrincipalFits, typed as typed_octets, TypedFits, credential as credential_octets, CredentialFits, header_field as field_octets, HeaderFieldFits, header as header_octets, HeaderFits, ccache as spelled, CcacheFits, CcacheSpells};
ghost use Rattle.krb_ccache.specs.Reading.{read};
ghost use Rattle.krb_files.specs.CcacheWriting.{is_long_principal, is_long_typed, is_long_credential, is_long_field, is_long_header, is_long_ccache, is_too_long};

use crate::part::{Count32, Counted16, Each, GREATEST_FILE, Listed, Measured, Part, Then};
use krb_ccache::{Ccache, Credential, FilePrincipal, Header, HeaderField, Typed};
use krb_der::{KString, Octets};
use std::alloc::{AllocError, Global};
use thiserror::Error;

/// A fault of writing a cache.
#[derive(Clone, Copy, PartialEq, Eq, Debug, Error)]
pub enum CcacheFault {
    /// The number of octets or items is too great for the number of 16 or 32 bits before them, or
    /// the file would have more than 2^40 octets.
    #[error("too long")]
    TooLong,
    /// Out of memory.
    #[error("out of memory")]
    Memory,
}

impl From<AllocError> for CcacheFault {
    ghost from_gives = { λ _ e. e ≡ Memory };

    fn from(_error: AllocError) -> CcacheFault {
        CcacheFault::Memory
    }
}

type PrincipalLayout<'a> = Then<
    i32,
    Then<Count32<'a, KString>, Then<&'a KString, Each<'a, KString>>>,
>;

/// Returns the parts that a principal is made of.
fn principal_layout(principal: &FilePrincipal) -> PrincipalLayout<'_>
    ensures octets { ⟦<PrincipalLayout<'static> as Part>⟧.octets result ≡ principal_octets principal.now }
    ensures is_long { ⟦<PrincipalLayout<'static> as Part>⟧.is_long result ≡ is_long_principal principal.now }
    ensures fits { ⟦<PrincipalLayout<'static> as Part>⟧.Fits result → PrincipalFits principal.now }
{
    let components = principal.components.as_slice();
    let names = Then(&principal.realm, Each(components));
    Then(principal.name_type, Then(Count32(components), names))
}

impl Part for FilePrincipal {
    ghost octets = { principal_octets };

    ghost is_long = { is_long_principal };

    ghost Fits = { PrincipalFits };

    fn size(&self) -> Option<u64> {
        principal_layout(self).size()
    }

    fn put(&self, out: &mut Vec<u8>) {
        principal_layout(self).put(out);
    }
}

type TypedLayout<'a> = Then<u16, &'a Octets>;

/// Returns the parts that an address, or an element of authorization data, is made of.
fn typed_layout(typed: &Typed) -> TypedLayout<'_>
    ensures octets { ⟦<TypedLayout<'static> as Part>⟧.octets result ≡ typed_octets typed.now }
    ensures is_long { ⟦<TypedLayout<'static> as Part>⟧.is_long result ≡ is_long_typed typed.now }
    ensures fits { ⟦<TypedLayout<'static> as Part>⟧.Fits result → TypedFits typed.now }
{
    Then(typed.kind, &typed.octets)
}

impl Part for Typed {
    ghost octets = { typed_octets };

    ghost is_long = { is_long_typed };

    ghost Fits = { TypedFits };

    fn size(&self) -> Option<u64> {
        typed_layout(self).size()
    }

    fn put(&self, out: &mut Vec<u8>) {
        typed_layout(self).put(out);
    }
}

type Times = Then<u32, Then<u32, Then<u32, u32>>>;

type Flags = Then<u8, u32>;

type Lists<'a> = Then<Listed<'a, Typed>, Listed<'a, Typed>>;

type Tickets<'a> = Then<&'a Octets, &'a Octets>;

type CredentialBack<'a> = Then<&'a Octets, Then<Then<Times, Flags>, Then<Lists<'a>, Tickets<'a>>>>;

type CredentialLayout<'a> = Then<
    Then<&'a FilePrincipal, &'a FilePrincipal>,
    Then<u16, CredentialBack<'a>>,
>;

/// Returns the parts that a credential is made of.
fn credential_layout(credential: &Credential) -> CredentialLayout<'_>
    ensures octets { ⟦<CredentialLayout<'static> as Part>⟧.octets result ≡ credential_octets credential.now }
    ensures is_long { ⟦<CredentialLayout<'static> as Part>⟧.is_long result ≡ is_long_credential credential.now }
    ensures fits { ⟦<CredentialLayout<'static> as Part>⟧.Fits result → CredentialFits credential.now }
{
    let principals = Then(&credential.client, &credential.server);
    let ends = Then(credential.endtime, credential.renew_till);
    let times = Then(credential.authtime, Then(credential.starttime, ends));
    let flags = Then(credential.is_skey, credential.flags);
    let tickets = Then(&credential.ticket, &credential.second_ticket);
    let authdata = Listed(credential.authdata.as_slice());
    let lists = Then(Listed(credential.addresses.as_slice()), authdata);
    let after_key = Then(Then(times, flags), Then(lists, tickets));
    Then(
        principals,
        Then(credential.enctype, Then(&credential.key, after_key)),
    )
}

impl Part for Credential {
    ghost octets = { credential_octets };

    ghost is_long = { is_long_credential };

    ghost Fits = { CredentialFits };

    fn size(&self) -> Option<u64> {
        credential_layout(self).size()
    }

    fn put(&self, out: &mut Vec<u8>) {
        credential_layout(self).put(out);
    }
}

type HeaderFieldLayout<'a> = Then<u16, Counted16<'a>>;

/// Returns the parts that a field of a header is made of.
fn field_layout(field: &HeaderField) -> HeaderFieldLayout<'_>
    ensures octets { ⟦<HeaderFieldLayout<'static> as Part>⟧.octets result ≡ field_octets field.now }
    ensures is_long { ⟦<HeaderFieldLayout<'static> as Part>⟧.is_long result ≡ is_long_field field.now }
    ensures fits { ⟦<HeaderFieldLayout<'static> as Part>⟧.Fits result → HeaderFieldFits field.now }
{
    Then(field.tag, Counted16(field.value.as_slice()))
}

impl Part for HeaderField {
    ghost octets = { field_octets };

    ghost is_long = { is_long_field };

    ghost Fits = { HeaderFieldFits };

    fn size(&self) -> Option<u64> {
        field_layout(self).size()
    }

    fn put(&self, out: &mut Vec<u8>) {
        field_layout(self).put(out);
    }
}

impl Part for Header {
    ghost octets = { header_octets };

    ghost is_long = { is_long_header };

    ghost Fits = { HeaderFits };

    fn size(&self) -> Option<u64> {
        Measured(Each(self.fields.as_slice())).size()
    }

    fn put(&self, out: &mut Vec<u8>) {
        Measured(Each(self.fields.as_slice())).put(out);
    }
}

type CcacheLayout<'a> = Then<
    u8,
    Then<u8, Then<&'a Header, Then<&'a FilePrincipal, Each<'a, Credential>>>>,
>;

/// Returns the parts that a cache is made of.
fn ccache_layout(ccache: &Ccache) -> CcacheLayout<'_>
    ensures octets { ⟦<CcacheLayout<'static> as Part>⟧.octets result ≡ spelled ccache.now }
    ensures is_long { ⟦<CcacheLayout<'static> as Part>⟧.is_long result ≡ is_long_ccache ccache.now }
    ensures fits { ⟦<CcacheLayout<'static> as Part>⟧.Fits result → CcacheFits ccache.now }
{
    let credentials = Each(ccache.credentials.as_slice());
    let after_version = Then(&ccache.header, Then(&ccache.principal, credentials));
    Then(5, Then(4, after_version))
}

impl Part for Ccache {
    ghost octets = { spelled };

    ghost is_long = { is_long_ccache };

    ghost Fits = { CcacheFits };

    fn size(&self) -> Option<u64> {
        ccache_layout(self).size()
    }

    fn put(&self, out: &mut Vec<u8>) {
        ccache_layout(self).put(out);
    }
}

/// Returns the number of octets of a cache, or `None` if it cannot be written.
fn file_size(ccache: &Ccache) -> Option<u64>
    ensures none { IsNone result ↔ (is_too_long ccache.now ≡ true) }
    ensures size { IfSome result (λ size. size ≡ length (spelled ccache.now)) }
    ensures small { IfSome result (λ size. size ≤ 2 ^ 40) }
    ensures short { IfSome result (λ _. is_long_ccache ccache.now ≡ false) }
    ensures fits { IfSome result (λ _. CcacheFits ccache.now) }
{
    ccache.size().filter(|size| *size <= GREATEST_FILE)
}

/// Returns the octets of a cache. Whether it can be written is decided first: TooLong for a header
/// or a value in it of more than 65535 octets, for more than 4294967295 components, addresses or
/// elements of authorization data, for a realm, a component or another field of more than
/// 4294967295 octets, and for a file of more than 2^40. Then it allocates once, for exactly the
/// octets that are written.
pub fn write(alloc: Global, ccache: &Ccache) -> Result<Vec<u8>, CcacheFault>
    // What is written spells the cache, and is read back.
    ensures spells { IfOk result (λ octets. CcacheSpells ccache.now octets.items) }
    ensures again { IfOk result (λ octets. read octets.items ≡ Ok ccache.now) }
    ensures too_long { IsErrOf result CcacheFault.TooLong ↔ (is_too_long ccache.now ≡ true) }
{
    let size = file_size(ccache).ok_or(CcacheFault::TooLong)?;
    let mut octets = Vec::with_capacity(alloc, size as usize)?;
    ccache.put(&mut octets);
    Ok(octets)
}
