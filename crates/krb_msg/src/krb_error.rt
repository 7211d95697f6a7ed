//! KRB-ERROR. `asn1/generate` wrote this from `asn1/krb5.asn1`.

ghost use Rattle.std.specs.Prelude.{◌≡◌, true};
ghost use Rattle.krb_msg.specs.Term.{tag_of};
ghost use Rattle.krb_msg.specs.Grammar.{krb_error};
ghost use Rattle.krb_msg.specs.Types.{krb_error_view_value, IsValidKrbError};

use crate::any_of;
use crate::fields::{
    Application, Cut, End, Fixed, NotedView, Optional, Required, Sequence, View, ViewFields,
    ViewSequence, no_optional_view_notes, optional_view_notes,
};
use crate::notes::Notes;
use crate::principal_name::{PrincipalName, PrincipalNameView};
use krb_der::{Int32, KString, KerberosTime, Micros, Octets};

/// An error message (RFC 4120, 5.9.1). Its version and its message type are fixed, and so not kept.
#[derive(PartialEq, Eq, Debug, Drop)]
pub struct KrbError {
    /// The time of the client.
    pub ctime: Option<KerberosTime>,
    /// The microseconds of the time of the client.
    pub cusec: Option<Micros>,
    /// The time of the server.
    pub stime: KerberosTime,
    /// The microseconds of the time of the server.
    pub susec: Micros,
    /// The error code (7.5.9).
    pub error_code: Int32,
    /// The realm of the client.
    pub crealm: Option<KString>,
    /// The client.
    pub cname: Option<PrincipalName>,
    /// The realm of the service.
    pub realm: KString,
    /// The service.
    pub sname: PrincipalName,
    /// A text that explains the error to people.
    pub e_text: Option<KString>,
    /// Data for programs: METHOD-DATA if the code is 25. It is not judged.
    pub e_data: Option<Octets>,
}

/// A view of a KRB-ERROR: its strings and lists are borrowed from the octets.
#[derive(Clone, Copy, Default)]
pub struct KrbErrorView<'a> {
    /// The time of the client.
    pub ctime: Option<&'a [u8]>,
    /// The microseconds of the time of the client.
    pub cusec: Option<i64>,
    /// The time of the server.
    pub stime: &'a [u8],
    /// The microseconds of the time of the server.
    pub susec: i64,
    /// The error code (7.5.9).
    pub error_code: i64,
    /// The realm of the client.
    pub crealm: Option<&'a [u8]>,
    /// The client.
    pub cname: Option<PrincipalNameView<'a>>,
    /// The realm of the service.
    pub realm: &'a [u8],
    /// The service.
    pub sname: PrincipalNameView<'a>,
    /// A text that explains the error to people.
    pub e_text: Option<&'a [u8]>,
    /// Data for programs: METHOD-DATA if the code is 25. It is not judged.
    pub e_data: Option<&'a [u8]>,
}

/// Its fields.
type Layout = Application<
    30,
    Sequence<
        Fixed<
            0,
            5,
            Fixed<
                1,
                30,
                Optional<
                    2,
                    KerberosTime,
                    Optional<
                        3,
                        Micros,
                        Required<
                            4,
                            KerberosTime,
                            Required<5, Micros, Required<6, Int32, Cut<Rest>>>,
                        >,
                    >,
                >,
            >,
        >,
    >,
>;

/// The second half of its fields.
type Rest = Optional<
    7,
    KString,
    Optional<
        8,
        PrincipalName,
        Required<
            9,
            KString,
            Required<10, PrincipalName, Optional<11, KString, Optional<12, Octets, End>>>,
        >,
    >,
>;

/// A view of the second half of its fields.
#[derive(Clone, Copy, Default)]
pub struct RestView<'a> {
    /// The realm of the client.
    crealm: Option<&'a [u8]>,
    /// The client.
    cname: Option<PrincipalNameView<'a>>,
    /// The realm of the service.
    realm: &'a [u8],
    /// The service.
    sname: PrincipalNameView<'a>,
    /// A text that explains the error to people.
    e_text: Option<&'a [u8]>,
    /// Data for programs: METHOD-DATA if the code is 25. It is not judged.
    e_data: Option<&'a [u8]>,
}

impl<'a> ViewFields<'a> for Cut<Rest> {
    type Of = RestView<'a>;

    ghost fields = { ⟦<Rest as ViewFields<'static>>⟧.fields };

    ghost values = { λ seen. ⟦<Rest as ViewFields<'static>>⟧.values (seen.crealm, (seen.cname, (seen.realm, (seen.sname, (seen.e_text, (seen.e_data, tt)))))) };

    ghost IsValid = { λ seen. ⟦<Rest as ViewFields<'static>>⟧.IsValid (seen.crealm, (seen.cname, (seen.realm, (seen.sname, (seen.e_text, (seen.e_data, tt)))))) };

    #[inline(always)]
    fn view_fields(octets: &'a [u8], seen: &mut RestView<'a>) -> bool {
        let mut fields = Default::default();
        if !Rest::view_fields(octets, &mut fields) {
            return false;
        }
        let (crealm, (cname, (realm, (sname, (e_text, (e_data, ())))))) = fields;
        *seen = RestView {
            crealm,
            cname,
            realm,
            sname,
            e_text,
            e_data,
        };
        true
    }
}

impl<'a> View<'a> for KrbError {
    type Of = KrbErrorView<'a>;

    ghost term = { krb_error };

    ghost value = { krb_error_view_value };

    ghost IsValid = { IsValidKrbError };

    #[inline(always)]
    fn tag() -> u8
        ensures { result ≡ tag_of krb_error }
    {
        0x7E
    }

    #[inline(always)]
    fn view_into(contents: &'a [u8], seen: &mut KrbErrorView<'a>) -> bool {
        let mut fields = Default::default();
        if !<Layout as ViewSequence<'_>>::view_into(contents, &mut fields) {
            return false;
        }
        let (ctime, (cusec, (stime, (susec, (error_code, rest))))) = fields;
        *seen = KrbErrorView {
            ctime,
            cusec,
            stime,
            susec,
            error_code,
            crealm: rest.crealm,
            cname: rest.cname,
            realm: rest.realm,
            sname: rest.sname,
            e_text: rest.e_text,
            e_data: rest.e_data,
        };
        true
    }
}

impl<'a> NotedView<'a> for KrbError {
    #[inline(always)]
    fn notes(seen: &KrbErrorView<'a>) -> Notes {
        any_of!(
            no_optional_view_notes::<KerberosTime>(&seen.ctime),
            no_optional_view_notes::<Micros>(&seen.cusec),
            optional_view_notes::<KString>(&seen.crealm),
            optional_view_notes::<PrincipalName>(&seen.cname),
            <KString as NotedView<'_>>::notes(&seen.realm),
            <PrincipalName as NotedView<'_>>::notes(&seen.sname),
            optional_view_notes::<KString>(&seen.e_text),
            no_optional_view_notes::<Octets>(&seen.e_data)
        )
    }
}
