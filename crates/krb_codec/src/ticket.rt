//! Ticket as a value. `asn1/generate` wrote this from `asn1/krb5.asn1`.

ghost use Rattle.std.specs.Prelude.{◌≡◌, refl};
ghost use Rattle.krb_msg.specs.Grammar.{ticket as ticket_term};
ghost use Rattle.krb_msg.specs.Types.{ticket_value, ticket_of, ticket_of_view};
ghost use Rattle.krb_msg.specs.inner.RoundTrips.{ticket-back};
ghost use Rattle.krb_codec.specs.inner.PrefixFree.{type_is_prefix_free};

use crate::copying::FromView;
use crate::fields::Encode;
use crate::item::Item;
use crate::notes::Noted;
use krb_der::{KString, Memory};
use krb_msg::{
    Application, EncryptedData, End, Fixed, Notes, PrincipalName, Required, Sequence, Ticket,
    TicketView, any_of,
};
use std::alloc::Global;

/// Its fields, borrowed.
type Layout<'a> = Application<
    1,
    Sequence<
        Fixed<
            0,
            5,
            Required<
                1,
                &'a KString,
                Required<2, &'a PrincipalName, Required<3, &'a EncryptedData, End>>,
            >,
        >,
    >,
>;

/// Returns the fields, borrowed.
fn layout(it: &Ticket) -> Layout<'_>
    ensures { ⟦<Layout<'static> as Encode>⟧.value result ≡ ticket_value it.now }
{
    Application(Sequence(Fixed(Required(
        &it.realm,
        Required(&it.sname, Required(&it.enc_part, End)),
    ))))
}

impl Item for Ticket {
    ghost term = { ticket_term };

    ghost value = { ticket_value };

    fn size(&self) -> u64 {
        layout(self).size()
    }

    fn put(&self, out: &mut Vec<u8>) {
        layout(self).put(out);
    }

    ghost prefix_free = { type_is_prefix_free ticket_term refl ticket_value ticket_of ticket-back };
}

impl Noted for Ticket {
    fn notes(&self) -> Notes {
        any_of!(
            self.realm.notes(),
            self.sname.notes(),
            self.enc_part.notes()
        )
    }
}

impl<'a> FromView<'a> for Ticket {
    ghost copied = { ticket_of_view };

    fn from_view(alloc: Global, seen: &TicketView<'a>) -> Result<Ticket, Memory> {
        Ok(Ticket {
            realm: KString::from_view(alloc, &seen.realm)?,
            sname: PrincipalName::from_view(alloc, &seen.sname)?,
            enc_part: EncryptedData::from_view(alloc, &seen.enc_part)?,
        })
    }
}
