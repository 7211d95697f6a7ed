//! KERB-ERROR-DATA. `asn1/generate` wrote this from `asn1/padata.asn1`.

ghost use Rattle.std.specs.Prelude.{◌≡◌, true};
ghost use Rattle.krb_msg.specs.Term.{tag_of};
ghost use Rattle.krb_padata.specs.Grammar.{kerb_error_data};
ghost use Rattle.krb_padata.specs.Types.{kerb_error_data_view_value, IsValidKerbErrorData};

use krb_der::{Int32, Octets};
use krb_msg::{End, Optional, Required, Sequence, View, ViewSequence};

/// The data of an error of a KDC of Windows (MS-KILE, 2.2.2).
#[derive(Drop)]
pub struct KerbErrorData {
    /// The type of the value: 3 is an extended error.
    pub data_type: Int32,
    /// The value.
    pub data_value: Option<Octets>,
}

/// A view of a KERB-ERROR-DATA: its strings and lists are borrowed from the octets.
#[derive(Clone, Copy, Default)]
pub struct KerbErrorDataView<'a> {
    /// The type of the value: 3 is an extended error.
    pub data_type: i64,
    /// The value.
    pub data_value: Option<&'a [u8]>,
}

/// Its fields.
type Layout = Sequence<Required<1, Int32, Optional<2, Octets, End>>>;

impl<'a> View<'a> for KerbErrorData {
    type Of = KerbErrorDataView<'a>;

    ghost term = { kerb_error_data };

    ghost value = { kerb_error_data_view_value };

    ghost IsValid = { IsValidKerbErrorData };

    #[inline(always)]
    fn tag() -> u8
        ensures { result ≡ tag_of kerb_error_data }
    {
        0x30
    }

    #[inline(always)]
    fn view_into(contents: &'a [u8], seen: &mut KerbErrorDataView<'a>) -> bool {
        let mut fields = Default::default();
        if !<Layout as ViewSequence<'_>>::view_into(contents, &mut fields) {
            return false;
        }
        let (data_type, (data_value, ())) = fields;
        *seen = KerbErrorDataView {
            data_type,
            data_value,
        };
        true
    }
}
