//! PA-DATA. `asn1/generate` wrote this from `asn1/krb5.asn1`.

ghost use Rattle.std.specs.Prelude.{◌≡◌, true};
ghost use Rattle.krb_msg.specs.Term.{tag_of};
ghost use Rattle.krb_msg.specs.Grammar.{pa_data};
ghost use Rattle.krb_msg.specs.Types.{pa_data_view_value, IsValidPaData};

use crate::fields::{End, Required, Sequence, View, ViewSequence};
use krb_der::{Int32, Octets};

/// Pre-authentication data (RFC 4120, 5.2.7), which is not interpreted.
#[derive(PartialEq, Eq, Debug, Drop)]
pub struct PaData {
    /// The type of the data (7.5.2).
    pub padata_type: Int32,
    /// The data.
    pub padata_value: Octets,
}

/// A view of a PA-DATA: its strings and lists are borrowed from the octets.
#[derive(Clone, Copy, Default)]
pub struct PaDataView<'a> {
    /// The type of the data (7.5.2).
    pub padata_type: i64,
    /// The data.
    pub padata_value: &'a [u8],
}

/// Its fields.
type Layout = Sequence<Required<1, Int32, Required<2, Octets, End>>>;

impl<'a> View<'a> for PaData {
    type Of = PaDataView<'a>;

    ghost term = { pa_data };

    ghost value = { pa_data_view_value };

    ghost IsValid = { IsValidPaData };

    #[inline(always)]
    fn tag() -> u8
        ensures { result ≡ tag_of pa_data }
    {
        0x30
    }

    #[inline(always)]
    fn view_into(contents: &'a [u8], seen: &mut PaDataView<'a>) -> bool {
        let mut fields = Default::default();
        if !<Layout as ViewSequence<'_>>::view_into(contents, &mut fields) {
            return false;
        }
        let (padata_type, (padata_value, ())) = fields;
        *seen = PaDataView {
            padata_type,
            padata_value,
        };
        true
    }
}
