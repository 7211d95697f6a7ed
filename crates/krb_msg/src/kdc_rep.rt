//! KDC-REP. `asn1/generate` wrote this from `asn1/krb5.asn1`.

ghost use Rattle.std.specs.Prelude.{◌≡◌, ◌^◌, ◌<◌, true, length};
ghost use Rattle.krb_msg.specs.Shape.{has_octet_tags};
ghost use Rattle.krb_msg.specs.Term.{Application as ApplicationTerm};
ghost use Rattle.krb_msg.specs.Notes.{has, notes_by};
ghost use Rattle.krb_msg.specs.Grammar.{kdc_rep};
ghost use Rattle.krb_msg.specs.Types.{kdc_rep_view_value, IsValidKdcRep};
ghost use Rattle.krb_msg.specs.Viewed.{IfElse, IsNotWhole, IsViewOf};

use crate::any_of;
use crate::encrypted_data::{EncryptedData, EncryptedDataView};
use crate::fields::{
    Application, End, Fixed, NotedView, Optional, Required, Sequence, optional_list_view_notes,
};
use crate::notes::Notes;
use crate::pa_data::PaData;
use crate::principal_name::{PrincipalName, PrincipalNameView};
use crate::ticket::{Ticket, TicketView};
use crate::view::items::ItemsView;
use crate::view::view_whole_sequence;
use krb_der::{KString, Many};

/// The reply of a KDC (RFC 4120, 5.4.2): the contents of an AS-REP or a TGS-REP. Their version and
/// their message type are fixed, and so not kept; so a KDC-REP has octets only as one or the other.
#[derive(PartialEq, Eq, Debug, Drop)]
pub struct KdcRep {
    /// Pre-authentication data.
    pub padata: Option<Many<PaData>>,
    /// The realm of the client.
    pub crealm: KString,
    /// The client.
    pub cname: PrincipalName,
    /// The issued ticket.
    pub ticket: Ticket,
    /// The encrypted EncASRepPart or EncTGSRepPart.
    pub enc_part: EncryptedData,
}

/// A view of a KDC-REP: its strings and lists are borrowed from the octets.
#[derive(Clone, Copy, Default)]
pub struct KdcRepView<'a> {
    /// Pre-authentication data.
    pub padata: Option<ItemsView<'a>>,
    /// The realm of the client.
    pub crealm: &'a [u8],
    /// The client.
    pub cname: PrincipalNameView<'a>,
    /// The issued ticket.
    pub ticket: TicketView<'a>,
    /// The encrypted EncASRepPart or EncTGSRepPart.
    pub enc_part: EncryptedDataView<'a>,
}

/// Its fields, in a message whose number and whose message type are `N`.
type Layout<const N: u8> = Application<
    N,
    Sequence<
        Fixed<
            0,
            5,
            Fixed<
                1,
                N,
                Optional<
                    2,
                    Many<PaData>,
                    Required<
                        3,
                        KString,
                        Required<
                            4,
                            PrincipalName,
                            Required<5, Ticket, Required<6, EncryptedData, End>>,
                        >,
                    >,
                >,
            >,
        >,
    >,
>;

impl KdcRep {
    /// Makes `seen` the view of a message of a number and a message type, and returns whether the
    /// octets are one.
    #[inline(always)]
    pub(crate) fn view_into<'a, const N: u8>(octets: &'a [u8], seen: &mut KdcRepView<'a>) -> bool
        requires short { length octets.now < 2 ^ 31 }
        requires tags { has_octet_tags (ApplicationTerm N (kdc_rep N)) ≡ true }
        ensures { IfElse result (IsViewOf (ApplicationTerm N (kdc_rep N)) octets.now (kdc_rep_view_value N seen.new) × IsValidKdcRep seen.new) (IsNotWhole (ApplicationTerm N (kdc_rep N)) octets.now) }
    {
        let mut fields = Default::default();
        if !view_whole_sequence::<Layout<N>>(octets, &mut fields) {
            return false;
        }
        let (padata, (crealm, (cname, (ticket, (enc_part, ()))))) = fields;
        *seen = KdcRepView {
            padata,
            crealm,
            cname,
            ticket,
            enc_part,
        };
        true
    }
}

impl<'a> KdcRepView<'a> {
    /// Returns the notes that hold in a message.
    pub(crate) fn notes<const N: u8>(&self) -> Notes
        requires { IsValidKdcRep self.now }
        ensures { result ≡ notes_by (λ note. has note (ApplicationTerm N (kdc_rep N)) (kdc_rep_view_value N self.now)) }
    {
        any_of!(
            optional_list_view_notes::<Many<PaData>>(&self.padata),
            <KString as NotedView<'_>>::notes(&self.crealm),
            <PrincipalName as NotedView<'_>>::notes(&self.cname),
            <Ticket as NotedView<'_>>::notes(&self.ticket),
            <EncryptedData as NotedView<'_>>::notes(&self.enc_part)
        )
    }
}
