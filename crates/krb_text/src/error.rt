//! What is printed of a KRB-ERROR.

ghost use Rattle.std.specs.Prelude.{◌≡◌, ◌++◌, ◌^◌, ◌<◌, Some, None, codes, length, pos, MatchOption, OnOk};
ghost use Rattle.krb_msg.specs.Grammar.{method_data, pa_data};
ghost use Rattle.krb_msg.specs.Types.{IsValidKrbError, krb_error_of_view};
ghost use Rattle.krb_msg.specs.Viewed.{AreViewed, items_of};
ghost use Rattle.krb_registry.specs.declared.registry.Registry.TheVariants.{PreAuthenticationData};
ghost use Rattle.krb_record.specs.Forms.{field};
ghost use Rattle.krb_text.specs.Inside.{krb_error_parts};
ghost use Rattle.krb_text.specs.Judged.{asks_for_preauth, judged};
ghost use Rattle.krb_text.specs.MessageFields.{krb_error_fields, methods};
ghost use Rattle.krb_text.specs.MessageValues.{client, principal};
ghost use Rattle.krb_record.specs.Values.{ErrorCode as IsErrorCode, Number, Numbers, Quoted, Word, count, if_there};

use crate::inside::put_list;
use crate::list::PaDataTypes;
use crate::part::view_judged;
use crate::record::HasRecord;
use crate::viewed::{
    client_of, micros_of, optional_micros_of, optional_quoted, optional_size_of, optional_time_of,
    principal_of, time_of,
};
use krb_der::Many;
use krb_msg::{ItemsView, KrbErrorView, PaData};
use krb_record::{ErrorCode, Form, TextBuffer, put_field};
use std::alloc::AllocError;

/// The code of an error that asks for pre-authentication (RFC 4120, 7.5.9).
const PREAUTH_REQUIRED: i64 = 25;

/// Returns whether an error asks for pre-authentication.
pub(crate) fn asks_for_preauth(code: i64) -> bool
    ensures { result ≡ asks_for_preauth code }
{
    code == PREAUTH_REQUIRED
}

/// Returns a view of METHOD-DATA, if the octets are that.
pub(crate) fn method_data(octets: &[u8]) -> Option<ItemsView<'_>>
    requires { length octets.now < 2 ^ 31 }
    ensures { MatchOption result (judged method_data octets.now ≡ None) (λ items. AreViewed pa_data items.octets.now × (judged method_data octets.now ≡ Some (items_of pa_data items.octets.now))) }
{
    view_judged::<Many<PaData>>(octets)
}

/// Returns the types of the METHOD-DATA of an error that asks for pre-authentication, if its data is
/// that.
fn methods_of<'a>(error: &KrbErrorView<'a>) -> Option<PaDataTypes<'a>>
    requires { IsValidKrbError error.now }
    ensures { let seen = krb_error_of_view error.now in if_there (Numbers PreAuthenticationData) result ≡ methods seen.error_code seen.e_data }
{
    match error.e_data {
        Some(octets) if error.error_code == PREAUTH_REQUIRED => match method_data(octets) {
            None => None,
            Some(items) => Some(PaDataTypes::new(items)),
        },
        _ => None,
    }
}

/// Appends the fields of a KRB-ERROR up to the time of the client.
fn put_first_fields(
    text: &mut TextBuffer,
    form: Form,
    error: &KrbErrorView<'_>,
) -> Result<(), AllocError>
    requires { IsValidKrbError error.now }
    ensures { let seen = krb_error_of_view error.now in OnOk result (text.new ≡ text.old
        ++ field form (codes "code") (IsErrorCode seen.error_code)
        ++ field form (codes "client") (client seen.cname seen.crealm)
        ++ field form (codes "server") (principal seen.realm seen.sname)
        ++ field form (codes "ctime") (if_there Word seen.ctime)
        ++ field form (codes "cusec") (if_there (λ n. Number (pos n)) seen.cusec)) }
{
    put_field!(text, form, "code": &ErrorCode(error.error_code))?;
    put_field!(text, form, "client": &client_of(&error.cname, error.crealm))?;
    put_field!(text, form, "server": &principal_of(&error.sname, error.realm))?;
    put_field!(text, form, "ctime": &optional_time_of(error.ctime))?;
    put_field!(text, form, "cusec": &optional_micros_of(error.cusec))
}

/// Appends the fields of a KRB-ERROR from the time of the server on.
fn put_last_fields(
    text: &mut TextBuffer,
    form: Form,
    error: &KrbErrorView<'_>,
) -> Result<(), AllocError>
    requires { IsValidKrbError error.now }
    ensures { let seen = krb_error_of_view error.now in OnOk result (text.new ≡ text.old
        ++ field form (codes "stime") (Word seen.stime)
        ++ field form (codes "susec") (Number (pos seen.susec))
        ++ field form (codes "text") (if_there Quoted seen.e_text)
        ++ field form (codes "data") (if_there count seen.e_data)
        ++ field form (codes "methods") (methods seen.error_code seen.e_data)) }
{
    put_field!(text, form, "stime": &time_of(error.stime))?;
    put_field!(text, form, "susec": &micros_of(error.susec))?;
    put_field!(text, form, "text": &optional_quoted(error.e_text))?;
    put_field!(text, form, "data": &optional_size_of(error.e_data))?;
    put_field!(text, form, "methods": &methods_of(error))
}

impl<'a> HasRecord for KrbErrorView<'a> {
    ghost IsValid = { IsValidKrbError };

    ghost fields = { λ error. krb_error_fields (krb_error_of_view error) };

    ghost inside = { λ error. Some (krb_error_parts (krb_error_of_view error)) };

    fn put_fields(&self, text: &mut TextBuffer, form: Form) -> Result<(), AllocError> {
        put_first_fields(text, form, self)?;
        put_last_fields(text, form, self)
    }

    #[inline(always)]
    fn put_inside(&self, text: &mut TextBuffer, form: Form) -> Result<(), AllocError> {
        put_list(text, form, self)
    }
}
