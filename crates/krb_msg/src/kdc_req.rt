//! KDC-REQ. `asn1/generate` wrote this from `asn1/krb5.asn1`.

ghost use Rattle.std.specs.Prelude.{◌≡◌, ◌^◌, ◌<◌, true, length};
ghost use Rattle.krb_msg.specs.Shape.{has_octet_tags};
ghost use Rattle.krb_msg.specs.Term.{Application as ApplicationTerm};
ghost use Rattle.krb_msg.specs.Notes.{has, notes_by};
ghost use Rattle.krb_msg.specs.Grammar.{kdc_req};
ghost use Rattle.krb_msg.specs.Types.{kdc_req_view_value, IsValidKdcReq};
ghost use Rattle.krb_msg.specs.Viewed.{IfElse, IsNotWhole, IsViewOf};

use crate::any_of;
use crate::fields::{
    Application, End, Fixed, NotedView, Optional, Required, Sequence, optional_list_view_notes,
};
use crate::kdc_req_body::{KdcReqBody, KdcReqBodyView};
use crate::notes::Notes;
use crate::pa_data::PaData;
use crate::view::items::ItemsView;
use crate::view::view_whole_sequence;
use krb_der::Many;

/// What a client sends a KDC (RFC 4120, 5.4.1): the contents of an AS-REQ or a TGS-REQ. Their
/// version and their message type are fixed, and so not kept; so a KDC-REQ has octets only as one
/// or the other.
#[derive(PartialEq, Eq, Debug, Drop)]
pub struct KdcReq {
    /// Pre-authentication data.
    pub padata: Option<Many<PaData>>,
    /// The request itself.
    pub body: KdcReqBody,
}

/// A view of a KDC-REQ: its strings and lists are borrowed from the octets.
#[derive(Clone, Copy, Default)]
pub struct KdcReqView<'a> {
    /// Pre-authentication data.
    pub padata: Option<ItemsView<'a>>,
    /// The request itself.
    pub body: KdcReqBodyView<'a>,
}

/// Its fields, in a message whose number and whose message type are `N`.
type Layout<const N: u8> = Application<
    N,
    Sequence<Fixed<1, 5, Fixed<2, N, Optional<3, Many<PaData>, Required<4, KdcReqBody, End>>>>>,
>;

impl KdcReq {
    /// Makes `seen` the view of a message of a number and a message type, and returns whether the
    /// octets are one.
    #[inline(always)]
    pub(crate) fn view_into<'a, const N: u8>(octets: &'a [u8], seen: &mut KdcReqView<'a>) -> bool
        requires short { length octets.now < 2 ^ 31 }
        requires tags { has_octet_tags (ApplicationTerm N (kdc_req N)) ≡ true }
        ensures { IfElse result (IsViewOf (ApplicationTerm N (kdc_req N)) octets.now (kdc_req_view_value N seen.new) × IsValidKdcReq seen.new) (IsNotWhole (ApplicationTerm N (kdc_req N)) octets.now) }
    {
        let mut fields = Default::default();
        if !view_whole_sequence::<Layout<N>>(octets, &mut fields) {
            return false;
        }
        let (padata, (body, ())) = fields;
        *seen = KdcReqView { padata, body };
        true
    }
}

impl<'a> KdcReqView<'a> {
    /// Returns the notes that hold in a message.
    pub(crate) fn notes<const N: u8>(&self) -> Notes
        requires { IsValidKdcReq self.now }
        ensures { result ≡ notes_by (λ note. has note (ApplicationTerm N (kdc_req N)) (kdc_req_view_value N self.now)) }
    {
        any_of!(
            optional_list_view_notes::<Many<PaData>>(&self.padata),
            <KdcReqBody as NotedView<'_>>::notes(&self.body)
        )
    }
}
