//! ETYPE-INFO2-ENTRY. `asn1/generate` wrote this from `asn1/padata.asn1`.

ghost use Rattle.std.specs.Prelude.{◌≡◌, true};
ghost use Rattle.krb_msg.specs.Term.{tag_of};
ghost use Rattle.krb_msg.specs.Basic.{sequence_of};
ghost use Rattle.krb_msg.specs.Viewed.{AreViewed, items_of};
ghost use Rattle.krb_padata.specs.Grammar.{etype_info2_entry};
ghost use Rattle.krb_padata.specs.Types.{etype_info2_entry_view_value, IsValidEtypeInfo2Entry};

use krb_der::{Int32, KString, Octets};
use krb_msg::{End, ItemsView, Optional, Required, Sequence, View, ViewSequence, view_items};

/// An encryption type for which the client has a key, with what makes that of a password (RFC 4120,
/// 5.2.7.5).
#[derive(Drop)]
pub struct EtypeInfo2Entry {
    /// The encryption type (RFC 3961).
    pub etype: Int32,
    /// The salt for the password.
    pub salt: Option<KString>,
    /// The parameters of the string-to-key function, by encryption type.
    pub s2kparams: Option<Octets>,
}

/// A view of an ETYPE-INFO2-ENTRY: its strings and lists are borrowed from the octets.
#[derive(Clone, Copy, Default)]
pub struct EtypeInfo2EntryView<'a> {
    /// The encryption type (RFC 3961).
    pub etype: i64,
    /// The salt for the password.
    pub salt: Option<&'a [u8]>,
    /// The parameters of the string-to-key function, by encryption type.
    pub s2kparams: Option<&'a [u8]>,
}

/// Its fields.
type Layout = Sequence<Required<0, Int32, Optional<1, KString, Optional<2, Octets, End>>>>;

impl<'a> View<'a> for EtypeInfo2Entry {
    type Of = EtypeInfo2EntryView<'a>;

    ghost term = { etype_info2_entry };

    ghost value = { etype_info2_entry_view_value };

    ghost IsValid = { IsValidEtypeInfo2Entry };

    #[inline(always)]
    fn tag() -> u8
        ensures { result ≡ tag_of etype_info2_entry }
    {
        0x30
    }

    #[inline(always)]
    fn view_into(contents: &'a [u8], seen: &mut EtypeInfo2EntryView<'a>) -> bool {
        let mut fields = Default::default();
        if !<Layout as ViewSequence<'_>>::view_into(contents, &mut fields) {
            return false;
        }
        let (etype, (salt, (s2kparams, ()))) = fields;
        *seen = EtypeInfo2EntryView {
            etype,
            salt,
            s2kparams,
        };
        true
    }
}

/// ETYPE-INFO2 (RFC 4120, 5.2.7.5). Its view is its items, one after another.
pub struct EtypeInfo2;

impl<'a> View<'a> for EtypeInfo2 {
    type Of = ItemsView<'a>;

    ghost term = { sequence_of etype_info2_entry };

    ghost value = { λ seen. items_of etype_info2_entry seen.octets.now };

    ghost IsValid = { λ seen. AreViewed etype_info2_entry seen.octets.now };

    #[inline(always)]
    fn tag() -> u8
        ensures { result ≡ tag_of (sequence_of etype_info2_entry) }
    {
        0x30
    }

    #[inline(always)]
    fn view_into(contents: &'a [u8], seen: &mut ItemsView<'a>) -> bool {
        view_items::<EtypeInfo2Entry>(contents, seen)
    }
}
