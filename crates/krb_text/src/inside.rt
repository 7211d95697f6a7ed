//! What is inside of messages: their parts, after the fields of a record.

ghost use Rattle.std.specs.Prelude.{◌≡◌, ◌++◌, Bool, Some, codes, decimal, length, map, IfOk, List, OnOk};
ghost use Rattle.std.specs.List.{flat_map};
ghost use Rattle.std.specs.Option.{option_map};
ghost use Rattle.krb_msg.specs.Grammar.{pa_data, ticket};
ghost use Rattle.krb_msg.specs.Types.{IsValidKdcRep, IsValidKdcReq, IsValidKrbCred, IsValidKrbError, kdc_rep_of_view, kdc_req_of_view, krb_cred_of_view, krb_error_of_view, pa_data_of, ticket_of};
ghost use Rattle.krb_msg.specs.Term.{IfPresent};
ghost use Rattle.krb_msg.specs.Viewed.{AreViewed, items_of};
ghost use Rattle.krb_record.specs.Forms.{inside_text, part_text, parts_text};
ghost use Rattle.krb_record.specs.Text.{list_text};
ghost use Rattle.krb_text.specs.Inside.{each_if, kdc_req_parts, krb_error_parts, padata_parts, ticket_part};
ghost use Rattle.krb_record.specs.Values.{Part};
ghost use Rattle.krb_text.specs.declared.clear_type.Carrier.TheVariants as carriers;
ghost use Rattle.krb_text.specs.inner.Parts.{AreBetweenCommas, Tells, separator};

use crate::clear_type::Carrier;
use crate::error::asks_for_preauth;
use crate::error_data::put_data;
use crate::padata::put_padata;
use crate::part::{PartPlace, put_each};
use krb_msg::{ItemsView, KdcRepView, KdcReqView, KrbCredView, KrbErrorView, Ticket};
use krb_record::{Form, TextBuffer, Wanted};
use std::alloc::AllocError;

/// A message that may have parts.
pub(crate) trait HasParts {
    /// The parts.
    ghost parts: { Self → List Part };

    /// What is known of a view.
    ghost IsValid: { Self → Type 0 };

    /// Appends the parts, and returns how many there are.
    fn put_parts(&self, text: &mut TextBuffer, form: Form) -> Result<u64, AllocError>
        requires { IsValid self.now }
        ensures { IfOk result (λ told. Tells form (parts self.now) 0 text.old told text.new) };
}

/// Appends the parts of pre-authentication data, if they are there, and returns how many were
/// told.
fn put_optional_padata(
    text: &mut TextBuffer,
    form: Form,
    carrier: Carrier,
    items: Option<ItemsView<'_>>,
) -> Result<u64, AllocError>
    requires { IfPresent (λ items. AreViewed pa_data items.octets.now) items }
    ensures { IfOk result (λ told. Tells form (padata_parts carrier (option_map (map pa_data_of) (option_map (λ items. items_of pa_data items.octets.now) items.entry))) 0 text.old told text.new) }
{
    match items {
        None => Ok(0),
        Some(items) => put_padata(text, form, 0, carrier, items),
    }
}

/// Appends the parts of Tickets, and returns how many were told by now.
fn put_tickets(
    text: &mut TextBuffer,
    at: PartPlace,
    items: ItemsView<'_>,
) -> Result<u64, AllocError>
    requires { AreViewed ticket items.octets.now }
    ensures { IfOk result (λ by_now. Tells at.form (map ticket_part (map ticket_of (items_of ticket items.entry.octets.now))) at.told text.old by_now text.new) }
{
    put_each::<Ticket>(text, at, items)
}

/// Appends the parts of Tickets, if there are any, and returns how many were told by now.
fn put_optional_tickets(
    text: &mut TextBuffer,
    at: PartPlace,
    items: Option<ItemsView<'_>>,
) -> Result<u64, AllocError>
    requires { IfPresent (λ items. AreViewed ticket items.octets.now) items }
    ensures { IfOk result (λ by_now. Tells at.form (each_if ticket_part (option_map (map ticket_of) (option_map (λ items. items_of ticket items.octets.now) items.entry))) at.told text.old by_now text.new) }
{
    match items {
        None => Ok(at.told),
        Some(items) => put_tickets(text, at, items),
    }
}

impl<'a> HasParts for KdcReqView<'a> {
    ghost parts = { λ m. kdc_req_parts (kdc_req_of_view m) };

    ghost IsValid = { IsValidKdcReq };

    fn put_parts(&self, text: &mut TextBuffer, form: Form) -> Result<u64, AllocError> {
        let told = put_optional_padata(text, form, Carrier::Request, self.padata)?;
        put_optional_tickets(text, PartPlace { form, told }, self.body.additional_tickets)
    }
}

impl<'a> HasParts for KdcRepView<'a> {
    ghost parts = { λ m. padata_parts carriers.Reply (kdc_rep_of_view m).padata };

    ghost IsValid = { IsValidKdcRep };

    fn put_parts(&self, text: &mut TextBuffer, form: Form) -> Result<u64, AllocError> {
        put_optional_padata(text, form, Carrier::Reply, self.padata)
    }
}

impl<'a> HasParts for KrbCredView<'a> {
    ghost parts = { λ m. map ticket_part (krb_cred_of_view m).tickets };

    ghost IsValid = { IsValidKrbCred };

    fn put_parts(&self, text: &mut TextBuffer, form: Form) -> Result<u64, AllocError> {
        put_tickets(text, PartPlace { form, told: 0 }, self.tickets)
    }
}

impl<'a> HasParts for KrbErrorView<'a> {
    ghost parts = { λ m. krb_error_parts (krb_error_of_view m) };

    ghost IsValid = { IsValidKrbError };

    fn put_parts(&self, text: &mut TextBuffer, form: Form) -> Result<u64, AllocError> {
        match self.e_data {
            None => Ok(0),
            Some(octets) => put_data(text, form, asks_for_preauth(self.error_code), octets),
        }
    }
}

/// Appends the parts of a message, after their number and a blank before each.
fn put_counted<M: HasParts>(
    text: &mut TextBuffer,
    form: Form,
    message: &M,
) -> Result<(), AllocError>
    requires valid { M.IsValid message.now }
    requires blanks { (told : Bool) → separator form told ≡ codes " " }
    ensures { OnOk result (text.new ≡ text.old ++ (codes " inside=" ++ decimal (length (M.parts message.now)) ++ flat_map (λ p. codes " " ++ part_text form p) (M.parts message.now))) }
{
    text.push_str(" inside=")?;
    let place = text.size();
    let count = message.put_parts(text, form)?;
    text.insert_number(place, count)
}

/// Appends the member of the parts of a message.
fn put_array<M: HasParts>(text: &mut TextBuffer, form: Form, message: &M) -> Result<(), AllocError>
    requires valid { M.IsValid message.now }
    requires commas { AreBetweenCommas form }
    ensures { OnOk result (text.new ≡ text.old ++ (codes ",\"inside\":" ++ list_text (part_text form) (M.parts message.now))) }
{
    text.push_str(",\"inside\":[")?;
    message.put_parts(text, form)?;
    text.push_str("]")
}

/// Appends the parts of a message with marks, those of rows.
fn put_marked<M: HasParts>(
    text: &mut TextBuffer,
    wanted: Wanted,
    message: &M,
) -> Result<(), AllocError>
    requires { M.IsValid message.now }
    ensures { OnOk result (text.new ≡ text.old ++ inside_text (Form.Rows wanted) (M.parts message.now)) }
{
    if !wanted.has_inside() {
        return Ok(());
    }
    text.push_str("\x04")?;
    message.put_parts(text, Form::Rows(wanted))?;
    text.push_str("\x07")
}

/// Appends the kinds of the parts of a message with marks, and nothing else of them.
fn put_kinds<M: HasParts>(text: &mut TextBuffer, message: &M) -> Result<(), AllocError>
    requires { M.IsValid message.now }
    ensures { OnOk result (text.new ≡ text.old ++ inside_text Form.KeptLines (M.parts message.now)) }
{
    message.put_parts(text, Form::Rows(Wanted::NOTHING))?;
    Ok(())
}

/// Appends the parts of a message that may have some. A line without names has none.
#[inline(always)]
#[tactic(auto, unfolding(krb_record::specs::Forms::inside_text, crate::specs::inner::Parts::separator))]
pub(crate) fn put_list<M: HasParts>(
    text: &mut TextBuffer,
    form: Form,
    message: &M,
) -> Result<(), AllocError>
    requires { M.IsValid message.now }
    ensures { OnOk result (text.new ≡ text.old ++ parts_text form (Some (M.parts message.now))) }
{
    match form {
        Form::Lines => Ok(()),
        Form::NamedLines => put_counted(text, Form::NamedLines, message),
        Form::Json => put_array(text, Form::Json, message),
        Form::KeptLines => put_kinds(text, message),
        Form::KeptNamedLines => put_counted(text, Form::KeptNamedLines, message),
        Form::KeptJson => put_array(text, Form::KeptJson, message),
        Form::Rows(wanted) => put_marked(text, wanted, message),
    }
}
