//! TYPED-DATA-ITEM. `asn1/generate` wrote this from `asn1/padata.asn1`.

ghost use Rattle.std.specs.Prelude.{◌≡◌, true};
ghost use Rattle.krb_msg.specs.Term.{tag_of};
ghost use Rattle.krb_msg.specs.Basic.{sequence_of};
ghost use Rattle.krb_msg.specs.Viewed.{AreViewed, items_of};
ghost use Rattle.krb_padata.specs.Grammar.{typed_data_item};
ghost use Rattle.krb_padata.specs.Types.{typed_data_item_view_value, IsValidTypedDataItem};

use krb_der::{Int32, Octets};
use krb_msg::{End, ItemsView, Optional, Required, Sequence, View, ViewSequence, view_items};

/// A typed value in the data of an error (RFC 4120, 5.9.1).
#[derive(Drop)]
pub struct TypedDataItem {
    /// The type of the value, of the numbers of pre-authentication data.
    pub data_type: Int32,
    /// The value.
    pub data_value: Option<Octets>,
}

/// A view of a TYPED-DATA-ITEM: its strings and lists are borrowed from the octets.
#[derive(Clone, Copy, Default)]
pub struct TypedDataItemView<'a> {
    /// The type of the value, of the numbers of pre-authentication data.
    pub data_type: i64,
    /// The value.
    pub data_value: Option<&'a [u8]>,
}

/// Its fields.
type Layout = Sequence<Required<0, Int32, Optional<1, Octets, End>>>;

impl<'a> View<'a> for TypedDataItem {
    type Of = TypedDataItemView<'a>;

    ghost term = { typed_data_item };

    ghost value = { typed_data_item_view_value };

    ghost IsValid = { IsValidTypedDataItem };

    #[inline(always)]
    fn tag() -> u8
        ensures { result ≡ tag_of typed_data_item }
    {
        0x30
    }

    #[inline(always)]
    fn view_into(contents: &'a [u8], seen: &mut TypedDataItemView<'a>) -> bool {
        let mut fields = Default::default();
        if !<Layout as ViewSequence<'_>>::view_into(contents, &mut fields) {
            return false;
        }
        let (data_type, (data_value, ())) = fields;
        *seen = TypedDataItemView {
            data_type,
            data_value,
        };
        true
    }
}

/// TYPED-DATA (RFC 4120, 5.9.1). Its view is its items, one after another.
pub struct TypedData;

impl<'a> View<'a> for TypedData {
    type Of = ItemsView<'a>;

    ghost term = { sequence_of typed_data_item };

    ghost value = { λ seen. items_of typed_data_item seen.octets.now };

    ghost IsValid = { λ seen. AreViewed typed_data_item seen.octets.now };

    #[inline(always)]
    fn tag() -> u8
        ensures { result ≡ tag_of (sequence_of typed_data_item) }
    {
        0x30
    }

    #[inline(always)]
    fn view_into(contents: &'a [u8], seen: &mut ItemsView<'a>) -> bool {
        view_items::<TypedDataItem>(contents, seen)
    }
}
