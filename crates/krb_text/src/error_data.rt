//! What is in the clear in the data of errors, as parts that are appended (RFC 4120, 5.9.1; MS-KILE,
//! 2.2.1 and 2.2.2).

ghost use Rattle.std.specs.Prelude.{◌≡◌, ◌++◌, ◌^◌, ◌<◌, codes, false, length, map, nat_lt, IfOk, OnOk, Option, List, ℕ};
ghost use Rattle.std.specs.List.{flat_map};
ghost use Rattle.std.specs.Option.{option_map};
ghost use Rattle.krb_msg.specs.Grammar.{pa_data};
ghost use Rattle.krb_msg.specs.Term.{IfPresent};
ghost use Rattle.krb_msg.specs.Types.{pa_data_of};
ghost use Rattle.krb_msg.specs.Viewed.{AreViewed, items_of};
ghost use Rattle.krb_padata.specs.Grammar.{typed_data_item};
ghost use Rattle.krb_padata.specs.Types.{IsValidKerbErrorData, kerb_error_data_of_view, typed_data_item_of};
ghost use Rattle.krb_record.specs.Forms.{part_text};
ghost use Rattle.krb_text.specs.Inside.{data_parts, error_data_part, error_data_parts, ext_error_in, ext_error_part, method_parts, methods_part, one_if, typed_item_parts, typed_parts, types_part, types_unless};
ghost use Rattle.krb_text.specs.inner.Parts.{Tells, separator};

use crate::clear::put_ext_error;
use crate::clear_type::Carrier;
use crate::error::method_data;
use crate::list::{PaDataTypes, TypedDataTypes};
use crate::padata::put_padata;
use crate::part::{PartPlace, put_part_opening, view_judged};
use krb_msg::{ItemsView, next_item};
use krb_padata::{
    KerbErrorData, KerbErrorDataView, KerbExtError, TypedData, TypedDataItem, view_kerb_ext_error,
};
use krb_record::{Form, Numbered, TextBuffer, put_closing, put_field};
use krb_registry::Registry;
use std::alloc::AllocError;

/// The type of a value in the data of an error that is an extended error (MS-KILE, 2.2.2).
const EXTENDED: i64 = 3;

/// Appends the part of METHOD-DATA, their types.
#[tactic(auto, unfolding(krb_record::specs::Forms::part_text))]
fn put_methods_part(
    text: &mut TextBuffer,
    form: Form,
    items: ItemsView<'_>,
) -> Result<(), AllocError>
    requires { AreViewed pa_data items.octets.now }
    ensures { OnOk result (text.new ≡ text.old ++ separator form false ++ part_text form (methods_part (map pa_data_of (items_of pa_data items.entry.octets.now)))) }
{
    put_part_opening(text, PartPlace { form, told: 0 }, "METHOD-DATA")?;
    put_field!(text, form, "methods": &PaDataTypes::new(items))?;
    put_closing(text, form)
}

/// Appends the part of METHOD-DATA, unless the error asks for pre-authentication, and returns how
/// many parts were told by now.
fn put_types_unless(
    text: &mut TextBuffer,
    form: Form,
    asks: bool,
    items: ItemsView<'_>,
) -> Result<u64, AllocError>
    requires { AreViewed pa_data items.octets.now }
    ensures { IfOk result (λ told. Tells form (types_unless asks (map pa_data_of (items_of pa_data items.entry.octets.now))) 0 text.old told text.new) }
{
    if asks {
        Ok(0)
    } else {
        put_methods_part(text, form, items)?;
        Ok(1)
    }
}

/// Appends the parts of METHOD-DATA of an error, which may ask for pre-authentication, and returns how
/// many there are.
fn put_methods(
    text: &mut TextBuffer,
    form: Form,
    asks: bool,
    items: ItemsView<'_>,
) -> Result<u64, AllocError>
    requires { AreViewed pa_data items.octets.now }
    ensures { IfOk result (λ told. Tells form (method_parts asks (map pa_data_of (items_of pa_data items.entry.octets.now))) 0 text.old told text.new) }
{
    let told = put_types_unless(text, form, asks, items)?;
    put_padata(text, form, told, Carrier::Error, items)
}

/// Returns the extended error in a value of a type, if it is one.
fn ext_error_in(number: i64, octets: Option<&[u8]>) -> Option<KerbExtError>
    ensures { result ≡ ext_error_in number (option_map (λ octets. octets.now) octets.entry) }
{
    match octets {
        Some(octets) if number == EXTENDED => view_kerb_ext_error(octets),
        _ => None,
    }
}

/// Appends the part of an extended error, if it is there, and returns how many were told by now.
fn put_optional_ext_error(
    text: &mut TextBuffer,
    at: PartPlace,
    error: Option<KerbExtError>,
) -> Result<u64, AllocError>
    ensures { IfOk result (λ by_now. Tells at.form (one_if ext_error_part error) at.told text.old by_now text.new) }
{
    match error {
        None => Ok(at.told),
        Some(error) => {
            put_ext_error(text, at, error)?;
            Ok(at.told.saturating_add(1))
        }
    }
}

/// Appends the part of TYPED-DATA, its types.
#[tactic(auto, unfolding(krb_record::specs::Forms::part_text))]
fn put_types_part(text: &mut TextBuffer, form: Form, items: ItemsView<'_>) -> Result<(), AllocError>
    requires { AreViewed typed_data_item items.octets.now }
    ensures { OnOk result (text.new ≡ text.old ++ separator form false ++ part_text form (types_part (map typed_data_item_of (items_of typed_data_item items.entry.octets.now)))) }
{
    put_part_opening(text, PartPlace { form, told: 0 }, "TYPED-DATA")?;
    put_field!(text, form, "types": &TypedDataTypes::new(items))?;
    put_closing(text, form)
}

/// Appends the parts of the extended errors in TYPED-DATA, and returns how many were told by now.
fn put_typed_items(
    text: &mut TextBuffer,
    form: Form,
    told: u64,
    items: ItemsView<'_>,
) -> Result<u64, AllocError>
    requires { AreViewed typed_data_item items.octets.now }
    ensures { IfOk result (λ by_now. Tells form (flat_map typed_item_parts (map typed_data_item_of (items_of typed_data_item items.entry.octets.now))) told text.old by_now text.new) }
{
    let mut by_now = told;
    let mut others = items;
    'others: while let Some((seen, rest)) = next_item::<TypedDataItem>(others) {
        let error = ext_error_in(seen.data_type, seen.data_value);
        by_now = put_optional_ext_error(text, PartPlace { form, told: by_now }, error)?;
        others = rest;
    }
    Ok(by_now)
}

/// Appends the parts of TYPED-DATA, and returns how many there are.
fn put_typed(text: &mut TextBuffer, form: Form, items: ItemsView<'_>) -> Result<u64, AllocError>
    requires { AreViewed typed_data_item items.octets.now }
    ensures { IfOk result (λ told. Tells form (typed_parts (map typed_data_item_of (items_of typed_data_item items.entry.octets.now))) 0 text.old told text.new) }
{
    put_types_part(text, form, items)?;
    put_typed_items(text, form, 1, items)
}

/// Appends the part of KERB-ERROR-DATA, its type.
#[tactic(auto, unfolding(krb_record::specs::Forms::part_text))]
fn put_error_data_part(
    text: &mut TextBuffer,
    form: Form,
    seen: &KerbErrorDataView<'_>,
) -> Result<(), AllocError>
    ensures { OnOk result (text.new ≡ text.old ++ separator form false ++ part_text form (error_data_part (kerb_error_data_of_view seen.now))) }
{
    let shown = Numbered {
        registry: Registry::ErrorDataTypes,
        number: seen.data_type,
    };
    put_part_opening(text, PartPlace { form, told: 0 }, "KERB-ERROR-DATA")?;
    put_field!(text, form, "type": &shown)?;
    put_closing(text, form)
}

/// Appends the parts of KERB-ERROR-DATA, and returns how many there are.
fn put_error_data(
    text: &mut TextBuffer,
    form: Form,
    seen: &KerbErrorDataView<'_>,
) -> Result<u64, AllocError>
    ensures { IfOk result (λ told. Tells form (error_data_parts (kerb_error_data_of_view seen.now)) 0 text.old told text.new) }
{
    put_error_data_part(text, form, seen)?;
    let error = ext_error_in(seen.data_type, seen.data_value);
    put_optional_ext_error(text, PartPlace { form, told: 1 }, error)
}

/// Appends the parts of the data of an error, which may ask for pre-authentication, and returns how
/// many there are.
pub(crate) fn put_data(
    text: &mut TextBuffer,
    form: Form,
    asks: bool,
    octets: &[u8],
) -> Result<u64, AllocError>
    requires { length octets.now < 2 ^ 31 }
    ensures { IfOk result (λ told. Tells form (data_parts asks octets.now) 0 text.old told text.new) }
{
    if let Some(items) = method_data(octets) {
        put_methods(text, form, asks, items)
    } else if let Some(items) = view_judged::<TypedData>(octets) {
        put_typed(text, form, items)
    } else if let Some(seen) = view_judged::<KerbErrorData>(octets) {
        put_error_data(text, form, &seen)
    } else {
        Ok(0)
    }
}
