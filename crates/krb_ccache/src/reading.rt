//! Reading the parts of caches: what is before the credentials, and the next credential.

ghost use Rattle.std.specs.Prelude.{◌≡◌, ℕ, OnOk};
ghost use Rattle.krb_file.specs.Fields.{Reader, in_part, within, times};
ghost use Rattle.krb_file.specs.declared.field_name.FieldName.TheVariants as field;
ghost use Rattle.krb_file.specs.declared.field_name.FilePart.TheVariants as parts;
ghost use Rattle.krb_file.specs.FieldReaders.{Follows, Stays, Keeps};
ghost use Rattle.krb_ccache.specs.declared.value.Credential.{Credential as CredentialValue};
ghost use Rattle.krb_ccache.specs.Reading.{principal_at, principal_in, typed_at, typed_list_at, validity_at, contents_at, credential_from, again_at, credential_fields_at, credential_at, one_enctype, header_field_at, header_fields_at, header_at, header_in, start_at, next_at};

use crate::value::{Credential, FilePrincipal, Header, HeaderField, Typed};
use krb_der::{KString, Many, Octets};
use krb_file::{Field, FieldName, FieldReader, FileFault, FilePart, in_part, read_many};
use std::alloc::Global;

/// Reads the fields of a principal.
fn principal_fields<F: FieldReader>(
    alloc: Global,
    reader: &mut F,
) -> Result<FilePrincipal, FileFault>
    ensures read { Follows (λ principal. principal) result principal_at F.MayFail (F.cursor reader.old) (F.cursor reader.new) }
    ensures keeps { Keeps (F.cursor reader.old) (F.cursor reader.new) }
{
    let name_type = reader.signed_field32(FieldName::NameType)?;
    let mut realm = reader.spare_octets(alloc);
    let mut components = reader.spare_list(alloc);
    reader.names32(alloc, &mut realm, &mut components)?;
    Ok(FilePrincipal {
        name_type,
        realm: KString::new(realm),
        components: Many::new(components),
    })
}

/// Reads the principal that is this part.
fn principal<F: FieldReader>(
    alloc: Global,
    part: FilePart,
    reader: &mut F,
) -> Result<FilePrincipal, FileFault>
    ensures read { Follows (λ principal. principal) result (principal_in part) F.MayFail (F.cursor reader.old) (F.cursor reader.new) }
    ensures keeps { Keeps (F.cursor reader.old) (F.cursor reader.new) }
{
    let begin = reader.place();
    in_part(part, begin, principal_fields(alloc, reader))
}

/// Reads a type, and octets after their length.
fn typed_fields<F: FieldReader>(alloc: Global, reader: &mut F) -> Result<Typed, FileFault>
    ensures read { Follows (λ typed. typed) result typed_at F.MayFail (F.cursor reader.old) (F.cursor reader.new) }
    ensures keeps { Keeps (F.cursor reader.old) (F.cursor reader.new) }
{
    let kind = reader.field16(FieldName::Type)?;
    let mut octets = reader.spare_octets(alloc);
    reader.counted_field32(alloc, FieldName::Octets, &mut octets)?;
    Ok(Typed {
        kind,
        octets: Octets::new(octets),
    })
}

/// Reads the address, or the element of authorization data, that is this part.
fn typed<F: FieldReader>(alloc: Global, part: FilePart, reader: &mut F) -> Result<Typed, FileFault>
    ensures read { Follows (λ typed. typed) result (in_part part typed_at) F.MayFail (F.cursor reader.old) (F.cursor reader.new) }
    ensures keeps { Keeps (F.cursor reader.old) (F.cursor reader.new) }
{
    let begin = reader.place();
    in_part(part, begin, typed_fields(alloc, reader))
}

/// An address.
struct AddressItem;

impl Field for AddressItem {
    type Value = Typed;

    ghost reads = { λ index. in_part (parts.Address index) typed_at };

    fn read<F: FieldReader>(alloc: Global, index: u32, reader: &mut F) -> Result<Typed, FileFault> {
        typed(alloc, FilePart::Address(index), reader)
    }
}

/// An element of authorization data.
struct AuthdataItem;

impl Field for AuthdataItem {
    type Value = Typed;

    ghost reads = { λ index. in_part (parts.Authdata index) typed_at };

    fn read<F: FieldReader>(alloc: Global, index: u32, reader: &mut F) -> Result<Typed, FileFault> {
        typed(alloc, FilePart::Authdata(index), reader)
    }
}

/// Reads addresses, after their number.
fn addresses<F: FieldReader>(alloc: Global, reader: &mut F) -> Result<Many<Typed>, FileFault>
    ensures read { Follows (λ list. list) result (typed_list_at field.AddressCount parts.Address) F.MayFail (F.cursor reader.old) (F.cursor reader.new) }
    ensures keeps { Keeps (F.cursor reader.old) (F.cursor reader.new) }
{
    let count = reader.field32(FieldName::AddressCount)?;
    let mut list = Vec::new(alloc);
    read_many::<AddressItem, F>(alloc, count, reader, &mut list)?;
    Ok(Many::new(list))
}

/// Reads authorization data, after the number of its elements.
fn authdata<F: FieldReader>(alloc: Global, reader: &mut F) -> Result<Many<Typed>, FileFault>
    ensures read { Follows (λ list. list) result (typed_list_at field.AuthdataCount parts.Authdata) F.MayFail (F.cursor reader.old) (F.cursor reader.new) }
    ensures keeps { Keeps (F.cursor reader.old) (F.cursor reader.new) }
{
    let count = reader.field32(FieldName::AuthdataCount)?;
    let mut list = Vec::new(alloc);
    read_many::<AuthdataItem, F>(alloc, count, reader, &mut list)?;
    Ok(Many::new(list))
}

/// The least number of octets of a credential after its key.
const LEAST_AFTER_KEY: u64 = 37;

/// The times of a credential, whether its key is that of the second ticket, and its flags.
#[derive(Clone, Copy)]
struct Validity {
    authtime: u32,
    starttime: u32,
    endtime: u32,
    renew_till: u32,
    is_skey: u8,
    flags: u32,
}

/// Reads the times of a credential, whether its key is that of the second ticket, and its flags.
#[inline(always)]
fn validity_fields<F: FieldReader>(reader: &mut F) -> Result<Validity, FileFault>
    ensures read { Follows (λ validity. validity) result validity_at F.MayFail (F.cursor reader.old) (F.cursor reader.new) }
    ensures stays { OnOk result (Stays (F.cursor reader.old) (F.cursor reader.new)) }
{
    let authtime = reader.field32(FieldName::AuthTime)?;
    let starttime = reader.field32(FieldName::StartTime)?;
    let endtime = reader.field32(FieldName::EndTime)?;
    let renew_till = reader.field32(FieldName::RenewTill)?;
    let is_skey = reader.field8(FieldName::IsSkey)?;
    let flags = reader.field32(FieldName::TicketFlags)?;
    Ok(Validity {
        authtime,
        starttime,
        endtime,
        renew_till,
        is_skey,
        flags,
    })
}

/// The addresses, the authorization data and the tickets of a credential.
#[derive(Drop)]
struct Contents {
    addresses: Many<Typed>,
    authdata: Many<Typed>,
    ticket: Octets,
    second_ticket: Octets,
}

/// Reads the addresses, the authorization data and the tickets of a credential.
#[inline(always)]
fn contents_fields<F: FieldReader>(alloc: Global, reader: &mut F) -> Result<Contents, FileFault>
    ensures read { Follows (λ contents. contents) result contents_at F.MayFail (F.cursor reader.old) (F.cursor reader.new) }
    ensures stays { OnOk result (Stays (F.cursor reader.old) (F.cursor reader.new)) }
{
    let addresses = addresses(alloc, reader)?;
    let authdata = authdata(alloc, reader)?;
    let mut ticket = reader.spare_octets(alloc);
    reader.counted_field32(alloc, FieldName::Ticket, &mut ticket)?;
    let mut second_ticket = reader.spare_octets(alloc);
    reader.counted_field32(alloc, FieldName::SecondTicket, &mut second_ticket)?;
    Ok(Contents {
        addresses,
        authdata,
        ticket: Octets::new(ticket),
        second_ticket: Octets::new(second_ticket),
    })
}

/// Reads what is left of a credential from its key on.
fn credential_from<F: FieldReader>(
    alloc: Global,
    client: FilePrincipal,
    server: FilePrincipal,
    enctype: u16,
    reader: &mut F,
) -> Result<Credential, FileFault>
    ensures read { Follows (λ credential. credential) result (credential_from client server enctype) F.MayFail (F.cursor reader.old) (F.cursor reader.new) }
    ensures stays { OnOk result (Stays (F.cursor reader.old) (F.cursor reader.new)) }
{
    let mut key = reader.spare_octets(alloc);
    reader.counted_field32(alloc, FieldName::Key, &mut key)?;
    reader.look_ahead(LEAST_AFTER_KEY)?;
    let validity = validity_fields(reader)?;
    let contents = contents_fields(alloc, reader)?;
    Ok(Credential {
        client,
        server,
        enctype,
        key: Octets::new(key),
        authtime: validity.authtime,
        starttime: validity.starttime,
        endtime: validity.endtime,
        renew_till: validity.renew_till,
        is_skey: validity.is_skey,
        flags: validity.flags,
        addresses: contents.addresses,
        authdata: contents.authdata,
        ticket: contents.ticket,
        second_ticket: contents.second_ticket,
    })
}

/// What a credential that is read is kept as.
pub trait Kept {
    /// The type of what is kept.
    type Value: Drop;

    /// The value that is kept of a credential and its second encryption type.
    ghost kept: { CredentialValue → ℕ → Self.Value };

    /// Returns the value that is kept of a credential and its second encryption type, `again`.
    fn keep(credential: Credential, again: u16) -> Self::Value
        ensures { result ≡ kept credential again };
}

/// A credential is kept without its second encryption type.
pub struct OneEnctype;

impl Kept for OneEnctype {
    type Value = Credential;

    ghost kept = { one_enctype };

    fn keep(credential: Credential, _again: u16) -> Credential {
        credential
    }
}

/// Reads the second encryption type, which version 4 does not have.
fn again<F: FieldReader>(version: u8, enctype: u16, reader: &mut F) -> Result<u16, FileFault>
    ensures read { Follows (λ again. again) result (again_at version enctype) F.MayFail (F.cursor reader.old) (F.cursor reader.new) }
    ensures keeps { Keeps (F.cursor reader.old) (F.cursor reader.new) }
{
    if version == 3 {
        return reader.field16(FieldName::Enctype);
    }
    Ok(enctype)
}

/// Reads the fields of a credential of a version.
#[inline(always)]
fn credential_fields<K: Kept, F: FieldReader>(
    alloc: Global,
    version: u8,
    reader: &mut F,
) -> Result<K::Value, FileFault>
    ensures read { Follows (λ item. item) result (credential_fields_at K.kept version) F.MayFail (F.cursor reader.old) (F.cursor reader.new) }
    ensures stays { OnOk result (Stays (F.cursor reader.old) (F.cursor reader.new)) }
{
    let client = principal(alloc, FilePart::Client, reader)?;
    let server = principal(alloc, FilePart::Server, reader)?;
    let enctype = reader.field16(FieldName::Enctype)?;
    let again = again(version, enctype, reader)?;
    let credential = credential_from(alloc, client, server, enctype, reader)?;
    Ok(K::keep(credential, again))
}

/// Reads a credential of a version.
#[inline(never)]
fn credential<K: Kept, F: FieldReader>(
    alloc: Global,
    version: u8,
    reader: &mut F,
) -> Result<K::Value, FileFault>
    ensures read { Follows (λ item. item) result (credential_at K.kept version) F.MayFail (F.cursor reader.old) (F.cursor reader.new) }
    ensures stays { OnOk result (Stays (F.cursor reader.old) (F.cursor reader.new)) }
{
    let begin = reader.place();
    match credential_fields::<K, _>(alloc, version, reader) {
        Ok(item) => Ok(item),
        Err(fault) => Err(fault.begun_at(begin)),
    }
}

/// The least number of octets of a credential, in either version.
const LEAST_CREDENTIAL: u64 = 67;

/// Reads the next credential of a version; returns `None` at the end of the file.
pub fn read_credential<K: Kept, F: FieldReader>(
    alloc: Global,
    version: u8,
    reader: &mut F,
) -> Result<Option<K::Value>, FileFault>
    ensures read { Follows (λ next. next) result (next_at K.kept version) F.MayFail (F.cursor reader.old) (F.cursor reader.new) }
    ensures stays { OnOk result (Stays (F.cursor reader.old) (F.cursor reader.new)) }
{
    reader.look_ahead(LEAST_CREDENTIAL)?;
    if reader.is_empty()? {
        return Ok(None);
    }
    let item = credential::<K, _>(alloc, version, reader)?;
    Ok(Some(item))
}

/// Reads the tag and the value of a field of the header.
fn header_field_fields<F: FieldReader>(
    alloc: Global,
    reader: &mut F,
) -> Result<HeaderField, FileFault>
    ensures read { Follows (λ field. field) result header_field_at F.MayFail (F.cursor reader.old) (F.cursor reader.new) }
    ensures keeps { Keeps (F.cursor reader.old) (F.cursor reader.new) }
{
    let tag = reader.field16(FieldName::Tag)?;
    let mut value = reader.spare_octets(alloc);
    reader.counted_field16(alloc, FieldName::Value, &mut value)?;
    Ok(HeaderField {
        tag,
        value: Octets::new(value),
    })
}

/// Reads the field of the header after `index` others.
fn header_field<F: FieldReader>(
    alloc: Global,
    index: usize,
    reader: &mut F,
) -> Result<HeaderField, FileFault>
    ensures read { Follows (λ field. field) result (in_part (parts.Header index) header_field_at) F.MayFail (F.cursor reader.old) (F.cursor reader.new) }
    ensures keeps { Keeps (F.cursor reader.old) (F.cursor reader.new) }
{
    let part = FilePart::Header(index as u64);
    let begin = reader.place();
    in_part(part, begin, header_field_fields(alloc, reader))
}

/// Reads the fields of a header of `size` octets.
fn header_fields<F: FieldReader>(
    alloc: Global,
    size: u16,
    reader: &mut F,
) -> Result<Many<HeaderField>, FileFault>
    ensures read { Follows (λ fields. fields) result (within size (header_fields_at size 0)) F.MayFail (F.cursor reader.old) (F.cursor reader.new) }
    ensures stays { OnOk result (Stays (F.cursor reader.old) (F.cursor reader.new)) }
{
    let outer = reader.end();
    let end = reader.place() + u64::from(size);
    reader.set_end(Some(end));
    let mut fields = Vec::new(alloc);
    'fields: while reader.place() < end {
        let field = header_field(alloc, fields.len(), reader)?;
        fields.push(field)?;
    }
    reader.set_end(outer);
    Ok(Many::new(fields))
}

/// Reads the header.
fn header<F: FieldReader>(alloc: Global, reader: &mut F) -> Result<Header, FileFault>
    ensures read { Follows (λ header. header) result header_at F.MayFail (F.cursor reader.old) (F.cursor reader.new) }
    ensures stays { OnOk result (Stays (F.cursor reader.old) (F.cursor reader.new)) }
{
    let size = reader.field16(FieldName::HeaderLength)?;
    let fields = header_fields(alloc, size, reader)?;
    Ok(Header { fields })
}

/// Reads the header, or returns one with no fields for version 3, which does not have it.
fn header_in<F: FieldReader>(
    alloc: Global,
    version: u8,
    reader: &mut F,
) -> Result<Header, FileFault>
    ensures read { Follows (λ header. header) result (header_in version) F.MayFail (F.cursor reader.old) (F.cursor reader.new) }
    ensures stays { OnOk result (Stays (F.cursor reader.old) (F.cursor reader.new)) }
{
    if version == 3 {
        let fields = Many::new(Vec::new(alloc));
        return Ok(Header { fields });
    }
    header(alloc, reader)
}

/// The part of a cache before its credentials.
#[derive(Drop)]
pub struct Start {
    /// The version of the format.
    pub version: u8,
    /// The header, which has no fields in version 3.
    pub header: Header,
    /// The default principal.
    pub principal: FilePrincipal,
}

/// Reads what is before the credentials of a file of one of these versions, from its first octet
/// on.
pub fn read_start<F: FieldReader>(
    alloc: Global,
    versions: &[u8],
    reader: &mut F,
) -> Result<Start, FileFault>
    ensures read { Follows (λ start. start) result (start_at versions.now) F.MayFail (F.cursor reader.old) (F.cursor reader.new) }
    ensures stays { OnOk result (Stays (F.cursor reader.old) (F.cursor reader.new)) }
{
    let version = reader.version(versions)?;
    let header = header_in(alloc, version, reader)?;
    let principal = principal(alloc, FilePart::Principal, reader)?;
    Ok(Start {
        version,
        header,
        principal,
    })
}
