//! PA-FOR-USER. `asn1/generate` wrote this from `asn1/padata.asn1`.

ghost use Rattle.std.specs.Prelude.{◌≡◌, true};
ghost use Rattle.krb_msg.specs.Term.{tag_of};
ghost use Rattle.krb_padata.specs.Grammar.{pa_for_user};
ghost use Rattle.krb_padata.specs.Types.{pa_for_user_view_value, IsValidPaForUser};

use krb_der::KString;
use krb_msg::{
    Checksum, ChecksumView, End, PrincipalName, PrincipalNameView, Required, Sequence, View,
    ViewSequence,
};

/// The user for whom a service requests a ticket to itself (MS-SFU, 2.2.1).
#[derive(Drop)]
pub struct PaForUser {
    /// The user.
    pub user_name: PrincipalName,
    /// The user's realm.
    pub user_realm: KString,
    /// A checksum over the other fields.
    pub cksum: Checksum,
    /// How the user was authenticated: "Kerberos".
    pub auth_package: KString,
}

/// A view of a PA-FOR-USER: its strings and lists are borrowed from the octets.
#[derive(Clone, Copy, Default)]
pub struct PaForUserView<'a> {
    /// The user.
    pub user_name: PrincipalNameView<'a>,
    /// The user's realm.
    pub user_realm: &'a [u8],
    /// A checksum over the other fields.
    pub cksum: ChecksumView<'a>,
    /// How the user was authenticated: "Kerberos".
    pub auth_package: &'a [u8],
}

/// Its fields.
type Layout = Sequence<
    Required<
        0,
        PrincipalName,
        Required<1, KString, Required<2, Checksum, Required<3, KString, End>>>,
    >,
>;

impl<'a> View<'a> for PaForUser {
    type Of = PaForUserView<'a>;

    ghost term = { pa_for_user };

    ghost value = { pa_for_user_view_value };

    ghost IsValid = { IsValidPaForUser };

    #[inline(always)]
    fn tag() -> u8
        ensures { result ≡ tag_of pa_for_user }
    {
        0x30
    }

    #[inline(always)]
    fn view_into(contents: &'a [u8], seen: &mut PaForUserView<'a>) -> bool {
        let mut fields = Default::default();
        if !<Layout as ViewSequence<'_>>::view_into(contents, &mut fields) {
            return false;
        }
        let (user_name, (user_realm, (cksum, (auth_package, ())))) = fields;
        *seen = PaForUserView {
            user_name,
            user_realm,
            cksum,
            auth_package,
        };
        true
    }
}
