//! KRB-SAFE-BODY. `asn1/generate` wrote this from `asn1/krb5.asn1`.

ghost use Rattle.std.specs.Prelude.{◌≡◌, true};
ghost use Rattle.krb_msg.specs.Term.{tag_of};
ghost use Rattle.krb_msg.specs.Grammar.{krb_safe_body};
ghost use Rattle.krb_msg.specs.Types.{krb_safe_body_view_value, IsValidKrbSafeBody};

use crate::any_of;
use crate::fields::{
    End, NotedView, Optional, Required, Sequence, View, ViewSequence, no_optional_view_notes,
    optional_view_notes,
};
use crate::host_address::{HostAddress, HostAddressView};
use crate::notes::Notes;
use krb_der::{KerberosTime, Micros, Octets, Wide32};

/// The body of a KRB-SAFE, which its checksum protects (RFC 4120, 5.6.1).
#[derive(PartialEq, Eq, Debug, Drop)]
pub struct KrbSafeBody {
    /// The data of the application.
    pub user_data: Octets,
    /// The time at which the sender made the message.
    pub timestamp: Option<KerberosTime>,
    /// The microseconds of that time.
    pub usec: Option<Micros>,
    /// The sequence number of the message.
    pub seq_number: Option<Wide32>,
    /// The sender's address.
    pub s_address: HostAddress,
    /// The recipient's address.
    pub r_address: Option<HostAddress>,
}

/// A view of a KRB-SAFE-BODY: its strings and lists are borrowed from the octets.
#[derive(Clone, Copy, Default)]
pub struct KrbSafeBodyView<'a> {
    /// The data of the application.
    pub user_data: &'a [u8],
    /// The time at which the sender made the message.
    pub timestamp: Option<&'a [u8]>,
    /// The microseconds of that time.
    pub usec: Option<i64>,
    /// The sequence number of the message.
    pub seq_number: Option<i64>,
    /// The sender's address.
    pub s_address: HostAddressView<'a>,
    /// The recipient's address.
    pub r_address: Option<HostAddressView<'a>>,
}

/// Its fields.
type Layout = Sequence<
    Required<
        0,
        Octets,
        Optional<
            1,
            KerberosTime,
            Optional<
                2,
                Micros,
                Optional<3, Wide32, Required<4, HostAddress, Optional<5, HostAddress, End>>>,
            >,
        >,
    >,
>;

impl<'a> View<'a> for KrbSafeBody {
    type Of = KrbSafeBodyView<'a>;

    ghost term = { krb_safe_body };

    ghost value = { krb_safe_body_view_value };

    ghost IsValid = { IsValidKrbSafeBody };

    #[inline(always)]
    fn tag() -> u8
        ensures { result ≡ tag_of krb_safe_body }
    {
        0x30
    }

    #[inline(always)]
    fn view_into(contents: &'a [u8], seen: &mut KrbSafeBodyView<'a>) -> bool {
        let mut fields = Default::default();
        if !<Layout as ViewSequence<'_>>::view_into(contents, &mut fields) {
            return false;
        }
        let (user_data, (timestamp, (usec, (seq_number, (s_address, (r_address, ())))))) = fields;
        *seen = KrbSafeBodyView {
            user_data,
            timestamp,
            usec,
            seq_number,
            s_address,
            r_address,
        };
        true
    }
}

impl<'a> NotedView<'a> for KrbSafeBody {
    #[inline(always)]
    fn notes(seen: &KrbSafeBodyView<'a>) -> Notes {
        any_of!(
            no_optional_view_notes::<KerberosTime>(&seen.timestamp),
            no_optional_view_notes::<Micros>(&seen.usec),
            optional_view_notes::<Wide32>(&seen.seq_number),
            no_optional_view_notes::<HostAddress>(&seen.r_address)
        )
    }
}
