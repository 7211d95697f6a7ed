//! ETYPE-INFO-ENTRY. `asn1/generate` wrote this from `asn1/padata.asn1`.

ghost use Rattle.std.specs.Prelude.{◌≡◌, true};
ghost use Rattle.krb_msg.specs.Term.{tag_of};
ghost use Rattle.krb_msg.specs.Basic.{sequence_of};
ghost use Rattle.krb_msg.specs.Viewed.{AreViewed, items_of};
ghost use Rattle.krb_padata.specs.Grammar.{etype_info_entry};
ghost use Rattle.krb_padata.specs.Types.{etype_info_entry_view_value, IsValidEtypeInfoEntry};

use krb_der::{Int32, Octets};
use krb_msg::{End, ItemsView, Optional, Required, Sequence, View, ViewSequence, view_items};

/// An encryption type for which the client has a key, with its salt (RFC 4120, 5.2.7.4).
#[derive(Drop)]
pub struct EtypeInfoEntry {
    /// The encryption type (RFC 3961).
    pub etype: Int32,
    /// The salt for the password.
    pub salt: Option<Octets>,
}

/// A view of an ETYPE-INFO-ENTRY: its strings and lists are borrowed from the octets.
#[derive(Clone, Copy, Default)]
pub struct EtypeInfoEntryView<'a> {
    /// The encryption type (RFC 3961).
    pub etype: i64,
    /// The salt for the password.
    pub salt: Option<&'a [u8]>,
}

/// Its fields.
type Layout = Sequence<Required<0, Int32, Optional<1, Octets, End>>>;

impl<'a> View<'a> for EtypeInfoEntry {
    type Of = EtypeInfoEntryView<'a>;

    ghost term = { etype_info_entry };

    ghost value = { etype_info_entry_view_value };

    ghost IsValid = { IsValidEtypeInfoEntry };

    #[inline(always)]
    fn tag() -> u8
        ensures { result ≡ tag_of etype_info_entry }
    {
        0x30
    }

    #[inline(always)]
    fn view_into(contents: &'a [u8], seen: &mut EtypeInfoEntryView<'a>) -> bool {
        let mut fields = Default::default();
        if !<Layout as ViewSequence<'_>>::view_into(contents, &mut fields) {
            return false;
        }
        let (etype, (salt, ())) = fields;
        *seen = EtypeInfoEntryView { etype, salt };
        true
    }
}

/// ETYPE-INFO (RFC 4120, 5.2.7.4). Its view is its items, one after another.
pub struct EtypeInfo;

impl<'a> View<'a> for EtypeInfo {
    type Of = ItemsView<'a>;

    ghost term = { sequence_of etype_info_entry };

    ghost value = { λ seen. items_of etype_info_entry seen.octets.now };

    ghost IsValid = { λ seen. AreViewed etype_info_entry seen.octets.now };

    #[inline(always)]
    fn tag() -> u8
        ensures { result ≡ tag_of (sequence_of etype_info_entry) }
    {
        0x30
    }

    #[inline(always)]
    fn view_into(contents: &'a [u8], seen: &mut ItemsView<'a>) -> bool {
        view_items::<EtypeInfoEntry>(contents, seen)
    }
}
