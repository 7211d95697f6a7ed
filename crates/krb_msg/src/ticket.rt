//! Ticket. `asn1/generate` wrote this from `asn1/krb5.asn1`.

ghost use Rattle.std.specs.Prelude.{◌≡◌, true};
ghost use Rattle.krb_msg.specs.Term.{tag_of};
ghost use Rattle.krb_msg.specs.Grammar.{ticket as ticket_term};
ghost use Rattle.krb_msg.specs.Types.{ticket_view_value, IsValidTicket};

use crate::any_of;
use crate::encrypted_data::{EncryptedData, EncryptedDataView};
use crate::fields::{Application, End, Fixed, NotedView, Required, Sequence, View, view_by_call};
use crate::notes::Notes;
use crate::principal_name::{PrincipalName, PrincipalNameView};
use crate::view::items::ItemsView;
use krb_der::KString;

/// A ticket (RFC 4120, 5.3). Its version is fixed, and so not kept.
#[derive(PartialEq, Eq, Debug, Drop)]
pub struct Ticket {
    /// The realm that issued the ticket, which is also the realm of its server.
    pub realm: KString,
    /// The server.
    pub sname: PrincipalName,
    /// The encrypted EncTicketPart.
    pub enc_part: EncryptedData,
}

/// A view of a Ticket: its strings and lists are borrowed from the octets.
#[derive(Clone, Copy, Default)]
pub struct TicketView<'a> {
    /// The realm that issued the ticket, which is also the realm of its server.
    pub realm: &'a [u8],
    /// The server.
    pub sname: PrincipalNameView<'a>,
    /// The encrypted EncTicketPart.
    pub enc_part: EncryptedDataView<'a>,
}

/// Its fields.
type Layout = Application<
    1,
    Sequence<
        Fixed<
            0,
            5,
            Required<1, KString, Required<2, PrincipalName, Required<3, EncryptedData, End>>>,
        >,
    >,
>;

impl<'a> View<'a> for Ticket {
    type Of = TicketView<'a>;

    ghost term = { ticket_term };

    ghost value = { ticket_view_value };

    ghost IsValid = { IsValidTicket };

    #[inline(always)]
    fn tag() -> u8
        ensures { result ≡ tag_of ticket_term }
    {
        0x61
    }

    #[inline(always)]
    fn view_into(contents: &'a [u8], seen: &mut TicketView<'a>) -> bool {
        let Some((realm, (sname, (enc_part, ())))) = view_by_call::<Layout>(contents) else {
            return false;
        };
        *seen = TicketView {
            realm: &*realm,
            sname: PrincipalNameView {
                name_type: sname.name_type,
                name: ItemsView {
                    octets: &*sname.name.octets,
                },
            },
            enc_part: EncryptedDataView {
                etype: enc_part.etype,
                kvno: enc_part.kvno,
                cipher: &*enc_part.cipher,
            },
        };
        true
    }
}

impl<'a> NotedView<'a> for Ticket {
    #[inline(always)]
    fn notes(seen: &TicketView<'a>) -> Notes {
        any_of!(
            <KString as NotedView<'_>>::notes(&seen.realm),
            <PrincipalName as NotedView<'_>>::notes(&seen.sname),
            <EncryptedData as NotedView<'_>>::notes(&seen.enc_part)
        )
    }
}
