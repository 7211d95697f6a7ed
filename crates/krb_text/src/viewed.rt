//! What views have, as values that records show.

ghost use Rattle.std.specs.Prelude.{◌≡◌, List, ℕ, map, pos};
ghost use Rattle.std.specs.Option.{option_map};
ghost use Rattle.krb_der.specs.Scalars.{IsTimeFrom};
ghost use Rattle.krb_msg.specs.Basic.{flags_of_view, micros_of};
ghost use Rattle.krb_msg.specs.Grammar.{host_address, kerberos_string, pa_data, ticket};
ghost use Rattle.krb_msg.specs.Types.{IsValidPrincipalName, checksum_of_view, encrypted_data_of, encrypted_data_of_view, encrypted_data_view_value, host_address_of, host_address_of_view, host_address_view_value, pa_data_of, principal_name_of, principal_name_of_view, principal_name_view_value, ticket_of};
ghost use Rattle.krb_msg.specs.Term.{IfPresent};
ghost use Rattle.krb_msg.specs.Viewed.{AreViewed, items_of};
ghost use Rattle.krb_text.specs.Messages.{padata};
ghost use Rattle.krb_text.specs.MessageValues.{address, checksum, client, encrypted, principal};
ghost use Rattle.krb_record.specs.Values.{Address as IsAddress, Digest as IsDigest, Encrypted as IsEncrypted, Flags, Hex, Number, Numbers, Principal as IsPrincipal, Quoted, Word, count, if_there};
ghost use Rattle.krb_registry.specs.declared.registry.Registry.TheVariants.{PreAuthenticationData};

use crate::list::{PaDataTypes, count_items};
use krb_der::KString;
use krb_msg::{
    ChecksumView, EncryptedDataView, FlagsView, HostAddress, HostAddressView, ItemsView,
    PrincipalNameView, Ticket, next_item,
};
use krb_record::{
    Address, Components, Digest, Encrypted, FlagBits, HexText, Plain, Principal, QuotedText,
};
use krb_registry::Registry;
use std::marker::Model;

/// Components that are viewed in octets. Contracts see the octets of each.
#[derive(Drop)]
pub struct ViewedStrings<'a>(ItemsView<'a>);

impl<'a> Model for ViewedStrings<'a> {
    ghost use Rattle.std.specs.Prelude.{List, ℕ};
    ghost use Rattle.krb_msg.specs.Grammar.{kerberos_string};
    ghost use Rattle.krb_msg.specs.Viewed.{AreViewed, items_of};

    ghost Value = { List (List ℕ) };

    ghost view = { λ seen. items_of kerberos_string seen.0.octets.now };

    ghost invariant = { λ seen. AreViewed kerberos_string seen.0.octets.now };
}

impl<'a> ViewedStrings<'a> {
    /// Takes the items of a list.
    #[inline(always)]
    pub fn new(items: ItemsView<'a>) -> ViewedStrings<'a>
        requires { AreViewed kerberos_string items.octets.now }
        ensures { result ≡ items_of kerberos_string items.entry.octets.now }
    {
        ViewedStrings(items)
    }
}

impl<'a> Components for ViewedStrings<'a> {
    ghost components = { λ strings. strings };

    #[inline(always)]
    fn next(&self) -> Option<(&[u8], ViewedStrings<'a>)> {
        match next_item::<KString>(self.0) {
            None => None,
            Some((first, others)) => Some((first, ViewedStrings(others))),
        }
    }
}

/// A principal that is viewed.
type ViewedPrincipal<'a> = Principal<'a, ViewedStrings<'a>>;

/// Returns the principal of a name in a realm.
#[inline(always)]
pub(crate) fn principal_of<'a>(name: &PrincipalNameView<'a>, realm: &'a [u8]) -> ViewedPrincipal<'a>
    requires { IsValidPrincipalName name.now }
    ensures { IsPrincipal result.name_type result.components result.realm.now ≡ principal realm.entry.now (principal_name_of_view name.now) }
{
    Principal {
        name_type: name.name_type,
        components: ViewedStrings::new(name.name),
        realm,
    }
}

/// Returns the principal of a name in a realm, if the name is there.
#[inline(always)]
pub(crate) fn optional_principal_of<'a>(
    name: &Option<PrincipalNameView<'a>>,
    realm: &'a [u8],
) -> Option<ViewedPrincipal<'a>>
    requires { IfPresent IsValidPrincipalName name.now }
    ensures { if_there (λ p. IsPrincipal p.name_type p.components p.realm.now) result ≡ if_there (principal realm.entry.now) (option_map principal_name_of (option_map principal_name_view_value name.now)) }
{
    match name {
        None => None,
        Some(name) => Some(principal_of(name, realm)),
    }
}

/// Returns the principal of a name in a realm, if both are there.
#[inline(always)]
pub(crate) fn client_of<'a>(
    name: &Option<PrincipalNameView<'a>>,
    realm: Option<&'a [u8]>,
) -> Option<ViewedPrincipal<'a>>
    requires { IfPresent IsValidPrincipalName name.now }
    ensures { if_there (λ p. IsPrincipal p.name_type p.components p.realm.now) result ≡ client (option_map principal_name_of (option_map principal_name_view_value name.now)) (option_map (λ octets. octets.now) realm.entry) }
{
    match (name, realm) {
        (Some(name), Some(realm)) => Some(principal_of(name, realm)),
        _ => None,
    }
}

/// Returns a time.
#[inline(always)]
pub(crate) fn time_of(time: &[u8]) -> Plain<'_>
    requires { IsTimeFrom 14 time.now }
    ensures { result ≡ time.now }
{
    Plain::new(time)
}

/// Returns a time, if it is there.
#[inline(always)]
pub(crate) fn optional_time_of(time: Option<&[u8]>) -> Option<Plain<'_>>
    requires { IfPresent (λ time. IsTimeFrom 14 time.now) time }
    ensures { if_there Word result ≡ if_there Word (option_map (λ time. time.now) time.entry) }
{
    match time {
        None => None,
        Some(time) => Some(time_of(time)),
    }
}

/// Returns a string that a line has between quotes, if it is there.
#[inline(always)]
pub(crate) fn optional_quoted(octets: Option<&[u8]>) -> Option<QuotedText<'_>>
    ensures { if_there (λ text. Quoted text.0.now) result ≡ if_there Quoted (option_map (λ octets. octets.now) octets.entry) }
{
    octets.map(QuotedText)
}

/// Returns octets that are shown in hexadecimal, if they are there.
#[inline(always)]
pub(crate) fn optional_hex(octets: Option<&[u8]>) -> Option<HexText<'_>>
    ensures { if_there (λ text. Hex text.0.now) result ≡ if_there Hex (option_map (λ octets. octets.now) octets.entry) }
{
    octets.map(HexText)
}

/// Returns microseconds as a number that is not negative.
#[inline(always)]
pub(crate) fn micros_of(micros: i64) -> u64
    ensures { result ≡ micros_of micros }
{
    if micros < 0 { 0 } else { micros as u64 }
}

/// Returns microseconds, if they are there.
#[inline(always)]
pub(crate) fn optional_micros_of(micros: Option<i64>) -> Option<u64>
    ensures { result ≡ option_map micros_of micros }
{
    micros.map(micros_of)
}

/// Returns the types of pre-authentication data, if there are any.
#[inline(always)]
pub(crate) fn optional_types_of(items: Option<ItemsView<'_>>) -> Option<PaDataTypes<'_>>
    requires { IfPresent (λ items. AreViewed pa_data items.octets.now) items }
    ensures { if_there (Numbers PreAuthenticationData) result ≡ if_there padata (option_map (map pa_data_of) (option_map (λ items. items_of pa_data items.octets.now) items.entry)) }
{
    match items {
        None => None,
        Some(items) => Some(PaDataTypes::new(items)),
    }
}

/// Returns how many octets there are, if they are there.
#[inline(always)]
pub(crate) fn optional_size_of(octets: Option<&[u8]>) -> Option<u64>
    ensures { if_there (λ n. Number (pos n)) result ≡ if_there count (option_map (λ octets. octets.now) octets.entry) }
{
    match octets {
        None => None,
        Some(octets) => Some(octets.len() as u64),
    }
}

/// Returns what is shown of encrypted data.
#[inline(always)]
pub fn encrypted_of(seen: &EncryptedDataView<'_>) -> Encrypted
    ensures { IsEncrypted result.etype result.kvno result.size ≡ encrypted (encrypted_data_of_view seen.now) }
{
    Encrypted {
        etype: seen.etype,
        kvno: seen.kvno,
        size: seen.cipher.len() as u64,
    }
}

/// Returns what is shown of encrypted data, if it is there.
#[inline(always)]
pub(crate) fn optional_encrypted_of(seen: &Option<EncryptedDataView<'_>>) -> Option<Encrypted>
    ensures { if_there (λ e. IsEncrypted e.etype e.kvno e.size) result ≡ if_there encrypted (option_map encrypted_data_of (option_map encrypted_data_view_value seen.now)) }
{
    match seen {
        None => None,
        Some(seen) => Some(encrypted_of(seen)),
    }
}

/// Returns what is shown of an address.
#[inline(always)]
pub(crate) fn address_of<'a>(seen: &HostAddressView<'a>) -> Address<'a>
    ensures { IsAddress result.addr_type result.octets.now ≡ address (host_address_of_view seen.now) }
{
    Address {
        addr_type: seen.addr_type,
        octets: seen.address,
    }
}

/// Returns what is shown of an address, if it is there.
#[inline(always)]
pub(crate) fn optional_address_of<'a>(seen: &Option<HostAddressView<'a>>) -> Option<Address<'a>>
    ensures { if_there (λ a. IsAddress a.addr_type a.octets.now) result ≡ if_there address (option_map host_address_of (option_map host_address_view_value seen.now)) }
{
    match seen {
        None => None,
        Some(seen) => Some(address_of(seen)),
    }
}

/// Returns what is shown of a checksum.
#[inline(always)]
pub(crate) fn digest_of(seen: &ChecksumView<'_>) -> Digest
    ensures { IsDigest result.cksumtype result.size ≡ checksum (checksum_of_view seen.now) }
{
    Digest {
        cksumtype: seen.cksumtype,
        size: seen.checksum.len() as u64,
    }
}

/// Returns what is shown of flags of a registry.
#[inline(always)]
pub(crate) fn bits_of<'a>(registry: Registry, seen: &FlagsView<'a>) -> FlagBits<'a>
    ensures { Flags result.registry (result.unused, result.octets.now) ≡ Flags registry (flags_of_view seen.now) }
{
    FlagBits {
        registry,
        unused: seen.unused,
        octets: seen.octets,
    }
}

/// Returns how many Tickets there are.
#[inline(always)]
pub(crate) fn ticket_count(items: ItemsView<'_>) -> u64
    requires { AreViewed ticket items.octets.now }
    ensures { Number (pos result) ≡ count (map ticket_of (items_of ticket items.entry.octets.now)) }
{
    count_items::<Ticket>(items) as u64
}

/// Returns how many Tickets there are, if there are any.
#[inline(always)]
pub(crate) fn optional_ticket_count(items: Option<ItemsView<'_>>) -> Option<u64>
    requires { IfPresent (λ items. AreViewed ticket items.octets.now) items }
    ensures { if_there (λ n. Number (pos n)) result ≡ if_there count (option_map (map ticket_of) (option_map (λ items. items_of ticket items.octets.now) items.entry)) }
{
    match items {
        None => None,
        Some(items) => Some(ticket_count(items)),
    }
}

/// Returns how many addresses there are, if there are any.
#[inline(always)]
pub(crate) fn optional_address_count(items: Option<ItemsView<'_>>) -> Option<u64>
    requires { IfPresent (λ items. AreViewed host_address items.octets.now) items }
    ensures { if_there (λ n. Number (pos n)) result ≡ if_there count (option_map (map host_address_of) (option_map (λ items. items_of host_address items.octets.now) items.entry)) }
{
    match items {
        None => None,
        Some(items) => Some(count_items::<HostAddress>(items) as u64),
    }
}
