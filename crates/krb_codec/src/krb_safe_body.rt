//! KRB-SAFE-BODY as a value. `asn1/generate` wrote this from `asn1/krb5.asn1`.

ghost use Rattle.std.specs.Prelude.{◌≡◌, refl};
ghost use Rattle.krb_msg.specs.Grammar.{krb_safe_body};
ghost use Rattle.krb_msg.specs.Types.{krb_safe_body_value, krb_safe_body_of, krb_safe_body_of_view};
ghost use Rattle.krb_msg.specs.inner.RoundTrips.{krb_safe_body-back};
ghost use Rattle.krb_codec.specs.inner.PrefixFree.{type_is_prefix_free};

use crate::copying::{FromView, copy_option, copy_plain_option};
use crate::fields::Encode;
use crate::item::Item;
use crate::notes::{Noted, no_optional_notes, optional_notes};
use krb_der::{KerberosTime, Memory, Micros, Octets, Wide32};
use krb_msg::{
    End, HostAddress, KrbSafeBody, KrbSafeBodyView, Notes, Optional, Required, Sequence, any_of,
};
use std::alloc::Global;

/// Its fields, borrowed.
type Layout<'a> = Sequence<
    Required<
        0,
        &'a Octets,
        Optional<
            1,
            &'a KerberosTime,
            Optional<
                2,
                &'a Micros,
                Optional<
                    3,
                    &'a Wide32,
                    Required<4, &'a HostAddress, Optional<5, &'a HostAddress, End>>,
                >,
            >,
        >,
    >,
>;

/// Returns the fields, borrowed.
fn layout(it: &KrbSafeBody) -> Layout<'_>
    ensures { ⟦<Layout<'static> as Encode>⟧.value result ≡ krb_safe_body_value it.now }
{
    Sequence(Required(
        &it.user_data,
        Optional(
            it.timestamp.as_ref(),
            Optional(
                it.usec.as_ref(),
                Optional(
                    it.seq_number.as_ref(),
                    Required(&it.s_address, Optional(it.r_address.as_ref(), End)),
                ),
            ),
        ),
    ))
}

impl Item for KrbSafeBody {
    ghost term = { krb_safe_body };

    ghost value = { krb_safe_body_value };

    fn size(&self) -> u64 {
        layout(self).size()
    }

    fn put(&self, out: &mut Vec<u8>) {
        layout(self).put(out);
    }

    ghost prefix_free = { type_is_prefix_free krb_safe_body refl krb_safe_body_value krb_safe_body_of krb_safe_body-back };
}

impl Noted for KrbSafeBody {
    fn notes(&self) -> Notes {
        any_of!(
            no_optional_notes(&self.timestamp),
            no_optional_notes(&self.usec),
            optional_notes(&self.seq_number),
            no_optional_notes(&self.r_address)
        )
    }
}

impl<'a> FromView<'a> for KrbSafeBody {
    ghost copied = { krb_safe_body_of_view };

    fn from_view(alloc: Global, seen: &KrbSafeBodyView<'a>) -> Result<KrbSafeBody, Memory> {
        Ok(KrbSafeBody {
            timestamp: copy_plain_option(&seen.timestamp),
            usec: copy_plain_option(&seen.usec),
            seq_number: copy_plain_option(&seen.seq_number),
            user_data: Octets::from_view(alloc, &seen.user_data)?,
            s_address: HostAddress::from_view(alloc, &seen.s_address)?,
            r_address: copy_option(alloc, &seen.r_address)?,
        })
    }
}
