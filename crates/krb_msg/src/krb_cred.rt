//! KRB-CRED. `asn1/generate` wrote this from `asn1/krb5.asn1`.

ghost use Rattle.std.specs.Prelude.{◌≡◌, true};
ghost use Rattle.krb_msg.specs.Term.{tag_of};
ghost use Rattle.krb_msg.specs.Grammar.{krb_cred};
ghost use Rattle.krb_msg.specs.Types.{krb_cred_view_value, IsValidKrbCred};

use crate::any_of;
use crate::encrypted_data::{EncryptedData, EncryptedDataView};
use crate::fields::{Application, End, Fixed, NotedView, Required, Sequence, View, ViewSequence};
use crate::notes::Notes;
use crate::ticket::Ticket;
use crate::view::items::ItemsView;
use krb_der::Many;

/// Forwarded credentials: tickets, with their session keys encrypted (RFC 4120, 5.8.1). Its version
/// and its message type are fixed, and so not kept.
#[derive(PartialEq, Eq, Debug, Drop)]
pub struct KrbCred {
    /// The tickets.
    pub tickets: Many<Ticket>,
    /// The encrypted EncKrbCredPart.
    pub enc_part: EncryptedData,
}

/// A view of a KRB-CRED: its strings and lists are borrowed from the octets.
#[derive(Clone, Copy, Default)]
pub struct KrbCredView<'a> {
    /// The tickets.
    pub tickets: ItemsView<'a>,
    /// The encrypted EncKrbCredPart.
    pub enc_part: EncryptedDataView<'a>,
}

/// Its fields.
type Layout = Application<
    22,
    Sequence<Fixed<0, 5, Fixed<1, 22, Required<2, Many<Ticket>, Required<3, EncryptedData, End>>>>>,
>;

impl<'a> View<'a> for KrbCred {
    type Of = KrbCredView<'a>;

    ghost term = { krb_cred };

    ghost value = { krb_cred_view_value };

    ghost IsValid = { IsValidKrbCred };

    #[inline(always)]
    fn tag() -> u8
        ensures { result ≡ tag_of krb_cred }
    {
        0x76
    }

    #[inline(always)]
    fn view_into(contents: &'a [u8], seen: &mut KrbCredView<'a>) -> bool {
        let mut fields = Default::default();
        if !<Layout as ViewSequence<'_>>::view_into(contents, &mut fields) {
            return false;
        }
        let (tickets, (enc_part, ())) = fields;
        *seen = KrbCredView { tickets, enc_part };
        true
    }
}

impl<'a> NotedView<'a> for KrbCred {
    #[inline(always)]
    fn notes(seen: &KrbCredView<'a>) -> Notes {
        any_of!(
            <Many<Ticket> as NotedView<'_>>::notes(&seen.tickets),
            <EncryptedData as NotedView<'_>>::notes(&seen.enc_part)
        )
    }
}
