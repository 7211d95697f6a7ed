//! AP-REQ. `asn1/generate` wrote this from `asn1/krb5.asn1`.

ghost use Rattle.std.specs.Prelude.{◌≡◌, true};
ghost use Rattle.krb_msg.specs.Term.{tag_of};
ghost use Rattle.krb_msg.specs.Grammar.{ap_req};
ghost use Rattle.krb_msg.specs.Types.{ap_req_view_value, IsValidApReq};

use crate::any_of;
use crate::encrypted_data::{EncryptedData, EncryptedDataView};
use crate::fields::{Application, End, Fixed, NotedView, Required, Sequence, View, ViewSequence};
use crate::notes::Notes;
use crate::ticket::{Ticket, TicketView};
use crate::view::scalars::FlagsView;
use krb_der::Flags;

/// What a client sends an application server (RFC 4120, 5.5.1). Its version and its message type
/// are fixed, and so not kept.
#[derive(PartialEq, Eq, Debug, Drop)]
pub struct ApReq {
    /// APOptions.
    pub ap_options: Flags,
    /// The ticket for the server.
    pub ticket: Ticket,
    /// The encrypted Authenticator.
    pub authenticator: EncryptedData,
}

/// A view of an AP-REQ: its strings and lists are borrowed from the octets.
#[derive(Clone, Copy, Default)]
pub struct ApReqView<'a> {
    /// APOptions.
    pub ap_options: FlagsView<'a>,
    /// The ticket for the server.
    pub ticket: TicketView<'a>,
    /// The encrypted Authenticator.
    pub authenticator: EncryptedDataView<'a>,
}

/// Its fields.
type Layout = Application<
    14,
    Sequence<
        Fixed<
            0,
            5,
            Fixed<1, 14, Required<2, Flags, Required<3, Ticket, Required<4, EncryptedData, End>>>>,
        >,
    >,
>;

impl<'a> View<'a> for ApReq {
    type Of = ApReqView<'a>;

    ghost term = { ap_req };

    ghost value = { ap_req_view_value };

    ghost IsValid = { IsValidApReq };

    #[inline(always)]
    fn tag() -> u8
        ensures { result ≡ tag_of ap_req }
    {
        0x6E
    }

    #[inline(always)]
    fn view_into(contents: &'a [u8], seen: &mut ApReqView<'a>) -> bool {
        let mut fields = Default::default();
        if !<Layout as ViewSequence<'_>>::view_into(contents, &mut fields) {
            return false;
        }
        let (ap_options, (ticket, (authenticator, ()))) = fields;
        *seen = ApReqView {
            ap_options,
            ticket,
            authenticator,
        };
        true
    }
}

impl<'a> NotedView<'a> for ApReq {
    #[inline(always)]
    fn notes(seen: &ApReqView<'a>) -> Notes {
        any_of!(
            <Flags as NotedView<'_>>::notes(&seen.ap_options),
            <Ticket as NotedView<'_>>::notes(&seen.ticket),
            <EncryptedData as NotedView<'_>>::notes(&seen.authenticator)
        )
    }
}
