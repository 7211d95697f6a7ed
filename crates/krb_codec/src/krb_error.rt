//! KRB-ERROR as a value. `asn1/generate` wrote this from `asn1/krb5.asn1`.

ghost use Rattle.std.specs.Prelude.{◌≡◌, refl};
ghost use Rattle.krb_msg.specs.Grammar.{krb_error};
ghost use Rattle.krb_msg.specs.Types.{krb_error_value, krb_error_of, krb_error_of_view};
ghost use Rattle.krb_msg.specs.inner.RoundTrips.{krb_error-back};
ghost use Rattle.krb_codec.specs.inner.PrefixFree.{type_is_prefix_free};

use crate::copying::{FromPlainView, FromView, copy_option, copy_plain_option};
use crate::fields::{Encode, EncodeFields};
use crate::item::Item;
use crate::notes::{Noted, no_optional_notes, optional_notes};
use krb_der::{Int32, KString, KerberosTime, Memory, Micros, Octets};
use krb_msg::{
    Application, Cut, End, Fixed, KrbError, KrbErrorView, Notes, Optional, PrincipalName, Required,
    Sequence, any_of,
};
use std::alloc::Global;

/// Its fields, borrowed.
type Layout<'a> = Application<
    30,
    Sequence<
        Fixed<
            0,
            5,
            Fixed<
                1,
                30,
                Optional<
                    2,
                    &'a KerberosTime,
                    Optional<
                        3,
                        &'a Micros,
                        Required<
                            4,
                            &'a KerberosTime,
                            Required<5, &'a Micros, Required<6, &'a Int32, Cut<Rest<'a>>>>,
                        >,
                    >,
                >,
            >,
        >,
    >,
>;

/// The second half of its fields.
type Rest<'a> = Optional<
    7,
    &'a KString,
    Optional<
        8,
        &'a PrincipalName,
        Required<
            9,
            &'a KString,
            Required<
                10,
                &'a PrincipalName,
                Optional<11, &'a KString, Optional<12, &'a Octets, End>>,
            >,
        >,
    >,
>;

/// Returns the fields, borrowed.
fn layout(it: &KrbError) -> Layout<'_>
    ensures { ⟦<Layout<'static> as Encode>⟧.value result ≡ krb_error_value it.now }
{
    let rest = Optional(
        it.crealm.as_ref(),
        Optional(
            it.cname.as_ref(),
            Required(
                &it.realm,
                Required(
                    &it.sname,
                    Optional(it.e_text.as_ref(), Optional(it.e_data.as_ref(), End)),
                ),
            ),
        ),
    );
    Application(Sequence(Fixed(Fixed(Optional(
        it.ctime.as_ref(),
        Optional(
            it.cusec.as_ref(),
            Required(
                &it.stime,
                Required(&it.susec, Required(&it.error_code, Cut(rest))),
            ),
        ),
    )))))
}

impl<'a> EncodeFields for Cut<Rest<'a>> {
    ghost fields = { ⟦<Rest<'static> as EncodeFields>⟧.fields };

    ghost values = { λ cut. ⟦<Rest<'static> as EncodeFields>⟧.values cut.0 };

    fn size(&self) -> u64 {
        self.0.size()
    }

    fn put(&self, out: &mut Vec<u8>) {
        self.0.put(out);
    }
}

impl Item for KrbError {
    ghost term = { krb_error };

    ghost value = { krb_error_value };

    fn size(&self) -> u64 {
        layout(self).size()
    }

    fn put(&self, out: &mut Vec<u8>) {
        layout(self).put(out);
    }

    ghost prefix_free = { type_is_prefix_free krb_error refl krb_error_value krb_error_of krb_error-back };
}

impl Noted for KrbError {
    fn notes(&self) -> Notes {
        any_of!(
            no_optional_notes(&self.ctime),
            no_optional_notes(&self.cusec),
            optional_notes(&self.crealm),
            optional_notes(&self.cname),
            self.realm.notes(),
            self.sname.notes(),
            optional_notes(&self.e_text),
            no_optional_notes(&self.e_data)
        )
    }
}

impl<'a> FromView<'a> for KrbError {
    ghost copied = { krb_error_of_view };

    fn from_view(alloc: Global, seen: &KrbErrorView<'a>) -> Result<KrbError, Memory> {
        Ok(KrbError {
            ctime: copy_plain_option(&seen.ctime),
            cusec: copy_plain_option(&seen.cusec),
            stime: KerberosTime::from_plain_view(&seen.stime),
            susec: Micros::from_plain_view(&seen.susec),
            error_code: Int32::from_plain_view(&seen.error_code),
            crealm: copy_option(alloc, &seen.crealm)?,
            cname: copy_option(alloc, &seen.cname)?,
            realm: KString::from_view(alloc, &seen.realm)?,
            sname: PrincipalName::from_view(alloc, &seen.sname)?,
            e_text: copy_option(alloc, &seen.e_text)?,
            e_data: copy_option(alloc, &seen.e_data)?,
        })
    }
}
