//! KDC-REQ as a value. `asn1/generate` wrote this from `asn1/krb5.asn1`.

ghost use Rattle.std.specs.Prelude.{◌≡◌, ◌+◌, ◌≤◌, true, IfOk, length};
ghost use Rattle.std.specs.Vec.{vec_len, vec_capacity};
ghost use Rattle.krb_der.specs.Puts.{Puts};
ghost use Rattle.krb_msg.specs.Shape.{has_octet_tags};
ghost use Rattle.krb_msg.specs.Term.{Application as ApplicationTerm, der, Fits};
ghost use Rattle.krb_msg.specs.Notes.{has, notes_by};
ghost use Rattle.krb_msg.specs.Grammar.{kdc_req};
ghost use Rattle.krb_msg.specs.Types.{kdc_req_value, kdc_req_view_value, kdc_req_of_view, IsValidKdcReq};
ghost use Rattle.krb_codec.specs.Encoding.{IsSized};

use crate::copying::{FromView, copy_item_option};
use crate::fields::Encode;
use crate::notes::{Noted, optional_list_notes};
use krb_der::{Many, Memory};
use krb_msg::{
    Application, End, Fixed, KdcReq, KdcReqBody, KdcReqView, Notes, Optional, PaData, Required,
    Sequence, any_of,
};
use std::alloc::Global;

/// Its fields, borrowed, in a message whose number and whose message type are `N`.
type Layout<'a, const N: u8> = Application<
    N,
    Sequence<
        Fixed<1, 5, Fixed<2, N, Optional<3, &'a Many<PaData>, Required<4, &'a KdcReqBody, End>>>>,
    >,
>;

/// Returns the fields, borrowed.
fn layout<const N: u8>(it: &KdcReq) -> Layout<'_, N>
    ensures { ⟦<Layout<'static, N> as Encode>⟧.value result ≡ kdc_req_value N it.now }
{
    Application(Sequence(Fixed(Fixed(Optional(it.padata.as_ref(), Required(&it.body, End))))))
}

/// Returns the number of DER octets in a message; 2147483648 if there are more. The value fits the
/// term.
pub(crate) fn size<const N: u8>(it: &KdcReq) -> u64
    ensures { IsSized (ApplicationTerm N (kdc_req N)) (kdc_req_value N it.now) result }
{
    layout::<N>(it).size()
}

/// Appends the DER octets in a message, at most 2147483647 of them, within the vector's capacity. It
/// allocates nothing.
pub(crate) fn put<const N: u8>(it: &KdcReq, out: &mut Vec<u8>)
    requires tags { has_octet_tags (ApplicationTerm N (kdc_req N)) ≡ true }
    requires short { length (der (ApplicationTerm N (kdc_req N)) (kdc_req_value N it.now)) ≤ 2147483647 }
    requires capacity { vec_len out.old + length (der (ApplicationTerm N (kdc_req N)) (kdc_req_value N it.now)) ≤ vec_capacity out.old }
    ensures { Puts (der (ApplicationTerm N (kdc_req N)) (kdc_req_value N it.now)) out.old out.new }
{
    layout::<N>(it).put(out);
}

/// Returns the notes that hold in a message.
pub(crate) fn notes<const N: u8>(it: &KdcReq) -> Notes
    ensures { result ≡ notes_by (λ note. has note (ApplicationTerm N (kdc_req N)) (kdc_req_value N it.now)) }
{
    any_of!(optional_list_notes(&it.padata), it.body.notes())
}

/// Returns the value of a view of a message. Nothing is judged again, and each string of octets is
/// copied once.
pub(crate) fn copy<const N: u8>(alloc: Global, seen: &KdcReqView<'_>) -> Result<KdcReq, Memory>
    requires fits { Fits (ApplicationTerm N (kdc_req N)) (kdc_req_view_value N seen.now) }
    requires lists { IsValidKdcReq seen.now }
    ensures { IfOk result (λ it. it ≡ kdc_req_of_view seen.now) }
{
    Ok(KdcReq {
        padata: copy_item_option(alloc, seen.padata)?,
        body: KdcReqBody::from_view(alloc, &seen.body)?,
    })
}
