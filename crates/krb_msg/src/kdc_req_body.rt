//! KDC-REQ-BODY. `asn1/generate` wrote this from `asn1/krb5.asn1`.

ghost use Rattle.std.specs.Prelude.{◌≡◌, true};
ghost use Rattle.krb_msg.specs.Term.{tag_of};
ghost use Rattle.krb_msg.specs.Grammar.{kdc_req_body};
ghost use Rattle.krb_msg.specs.Types.{kdc_req_body_view_value, IsValidKdcReqBody};

use crate::any_of;
use crate::encrypted_data::{EncryptedData, EncryptedDataView};
use crate::fields::{
    Cut, End, NotedView, Optional, Required, Sequence, View, ViewFields, ViewSequence,
    no_optional_view_notes, optional_list_view_notes, optional_view_notes,
};
use crate::host_address::HostAddress;
use crate::notes::Notes;
use crate::principal_name::{PrincipalName, PrincipalNameView};
use crate::ticket::Ticket;
use crate::view::items::ItemsView;
use crate::view::scalars::FlagsView;
use krb_der::{Flags, Int32, KString, KerberosTime, Many, Wide32};

/// What a client asks a KDC for (RFC 4120, 5.4.1).
#[derive(PartialEq, Eq, Debug, Drop)]
pub struct KdcReqBody {
    /// KDCOptions.
    pub kdc_options: Flags,
    /// The client, in an AS-REQ.
    pub cname: Option<PrincipalName>,
    /// The realm of the server, and in an AS-REQ that of the client.
    pub realm: KString,
    /// The server, which only a request with ENC-TKT-IN-SKEY may leave out.
    pub sname: Option<PrincipalName>,
    /// The requested start time.
    pub from: Option<KerberosTime>,
    /// The requested end time.
    pub till: KerberosTime,
    /// The requested renew-till time.
    pub rtime: Option<KerberosTime>,
    /// A random number that the reply has to repeat.
    pub nonce: Wide32,
    /// The encryption types (RFC 3961) that the client accepts, in order of preference.
    pub etype: Many<Int32>,
    /// The addresses from which the ticket may be used.
    pub addresses: Option<Many<HostAddress>>,
    /// The encrypted AuthorizationData.
    pub enc_authorization_data: Option<EncryptedData>,
    /// Additional tickets, which some options require.
    pub additional_tickets: Option<Many<Ticket>>,
}

/// A view of a KDC-REQ-BODY: its strings and lists are borrowed from the octets.
#[derive(Clone, Copy, Default)]
pub struct KdcReqBodyView<'a> {
    /// KDCOptions.
    pub kdc_options: FlagsView<'a>,
    /// The client, in an AS-REQ.
    pub cname: Option<PrincipalNameView<'a>>,
    /// The realm of the server, and in an AS-REQ that of the client.
    pub realm: &'a [u8],
    /// The server, which only a request with ENC-TKT-IN-SKEY may leave out.
    pub sname: Option<PrincipalNameView<'a>>,
    /// The requested start time.
    pub from: Option<&'a [u8]>,
    /// The requested end time.
    pub till: &'a [u8],
    /// The requested renew-till time.
    pub rtime: Option<&'a [u8]>,
    /// A random number that the reply has to repeat.
    pub nonce: i64,
    /// The encryption types (RFC 3961) that the client accepts, in order of preference.
    pub etype: ItemsView<'a>,
    /// The addresses from which the ticket may be used.
    pub addresses: Option<ItemsView<'a>>,
    /// The encrypted AuthorizationData.
    pub enc_authorization_data: Option<EncryptedDataView<'a>>,
    /// Additional tickets, which some options require.
    pub additional_tickets: Option<ItemsView<'a>>,
}

/// Its fields.
type Layout = Sequence<
    Required<
        0,
        Flags,
        Optional<
            1,
            PrincipalName,
            Required<
                2,
                KString,
                Optional<
                    3,
                    PrincipalName,
                    Optional<4, KerberosTime, Required<5, KerberosTime, Cut<Rest>>>,
                >,
            >,
        >,
    >,
>;

/// The second half of its fields.
type Rest = Optional<
    6,
    KerberosTime,
    Required<
        7,
        Wide32,
        Required<
            8,
            Many<Int32>,
            Optional<
                9,
                Many<HostAddress>,
                Optional<10, EncryptedData, Optional<11, Many<Ticket>, End>>,
            >,
        >,
    >,
>;

/// A view of the second half of its fields.
#[derive(Clone, Copy, Default)]
pub struct RestView<'a> {
    /// The requested renew-till time.
    rtime: Option<&'a [u8]>,
    /// A random number that the reply has to repeat.
    nonce: i64,
    /// The encryption types (RFC 3961) that the client accepts, in order of preference.
    etype: ItemsView<'a>,
    /// The addresses from which the ticket may be used.
    addresses: Option<ItemsView<'a>>,
    /// The encrypted AuthorizationData.
    enc_authorization_data: Option<EncryptedDataView<'a>>,
    /// Additional tickets, which some options require.
    additional_tickets: Option<ItemsView<'a>>,
}

impl<'a> ViewFields<'a> for Cut<Rest> {
    type Of = RestView<'a>;

    ghost fields = { ⟦<Rest as ViewFields<'static>>⟧.fields };

    ghost values = { λ seen. ⟦<Rest as ViewFields<'static>>⟧.values (seen.rtime, (seen.nonce, (seen.etype, (seen.addresses, (seen.enc_authorization_data, (seen.additional_tickets, tt)))))) };

    ghost IsValid = { λ seen. ⟦<Rest as ViewFields<'static>>⟧.IsValid (seen.rtime, (seen.nonce, (seen.etype, (seen.addresses, (seen.enc_authorization_data, (seen.additional_tickets, tt)))))) };

    #[inline(always)]
    fn view_fields(octets: &'a [u8], seen: &mut RestView<'a>) -> bool {
        let mut fields = Default::default();
        if !Rest::view_fields(octets, &mut fields) {
            return false;
        }
        let (
            rtime,
            (nonce, (etype, (addresses, (enc_authorization_data, (additional_tickets, ()))))),
        ) = fields;
        *seen = RestView {
            rtime,
            nonce,
            etype,
            addresses,
            enc_authorization_data,
            additional_tickets,
        };
        true
    }
}

impl<'a> View<'a> for KdcReqBody {
    type Of = KdcReqBodyView<'a>;

    ghost term = { kdc_req_body };

    ghost value = { kdc_req_body_view_value };

    ghost IsValid = { IsValidKdcReqBody };

    #[inline(always)]
    fn tag() -> u8
        ensures { result ≡ tag_of kdc_req_body }
    {
        0x30
    }

    #[inline(always)]
    fn view_into(contents: &'a [u8], seen: &mut KdcReqBodyView<'a>) -> bool {
        let mut fields = Default::default();
        if !<Layout as ViewSequence<'_>>::view_into(contents, &mut fields) {
            return false;
        }
        let (kdc_options, (cname, (realm, (sname, (from, (till, rest)))))) = fields;
        *seen = KdcReqBodyView {
            kdc_options,
            cname,
            realm,
            sname,
            from,
            till,
            rtime: rest.rtime,
            nonce: rest.nonce,
            etype: rest.etype,
            addresses: rest.addresses,
            enc_authorization_data: rest.enc_authorization_data,
            additional_tickets: rest.additional_tickets,
        };
        true
    }
}

impl<'a> NotedView<'a> for KdcReqBody {
    #[inline(always)]
    fn notes(seen: &KdcReqBodyView<'a>) -> Notes {
        any_of!(
            <Flags as NotedView<'_>>::notes(&seen.kdc_options),
            optional_view_notes::<PrincipalName>(&seen.cname),
            <KString as NotedView<'_>>::notes(&seen.realm),
            optional_view_notes::<PrincipalName>(&seen.sname),
            no_optional_view_notes::<KerberosTime>(&seen.from),
            no_optional_view_notes::<KerberosTime>(&seen.rtime),
            <Wide32 as NotedView<'_>>::notes(&seen.nonce),
            <Many<Int32> as NotedView<'_>>::notes(&seen.etype),
            optional_list_view_notes::<Many<HostAddress>>(&seen.addresses),
            optional_view_notes::<EncryptedData>(&seen.enc_authorization_data),
            optional_list_view_notes::<Many<Ticket>>(&seen.additional_tickets)
        )
    }
}
