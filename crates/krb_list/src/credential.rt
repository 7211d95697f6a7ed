//! What is printed of credentials.

ghost use Rattle.std.specs.Prelude.{◌≡◌, ◌++◌, false, IfOk, OnOk, codes, decimal, length, pos, string_bytes};
ghost use Rattle.krb_der.specs.Reasons.{reason_name, reason_number};
ghost use Rattle.krb_msg.specs.Types.{IsValidTicket, ticket_of_view};
ghost use Rattle.krb_ccache.specs.Tickets.{StateLists, state_viewed};
ghost use Rattle.krb_registry.specs.declared.registry.Registry.TheVariants.{EncryptionTypes};
ghost use Rattle.krb_list.specs.Ccaches.{config_record, counts_fields, credential_record, flags_fields, key_fields, state, state_record, ticket_server, ticketed_record, tickets_fields, times_fields, who_fields};
ghost use Rattle.krb_record.specs.Forms.{fields_text, json_string, record_line, record_text, refused_object, refused_ticket_text};
ghost use Rattle.krb_record.specs.Values.{Absent, Named, NoTicket, Principal as IsPrincipal, RefusedTicket, Word, if_there};

use crate::ccache::principal_of;
use crate::config::put_value;
use krb_ccache::{Credential, TicketStateView, ticket_view_of};
use krb_der::{Memory, Refusal, Why, why_number, why_text};
use krb_msg::TicketView;
use krb_record::{
    FileTime, Form, Numbered, Path, Plain, Principal, Shown, TextBuffer, TicketFlags, put_begin,
    put_closing, put_field, put_no_cell, put_opening, put_string,
};
use krb_registry::Registry;
use krb_text::{ViewedStrings, encrypted_of};
use std::alloc::{AllocError, Global};

/// Appends the fields of the client and the server.
fn put_who(text: &mut TextBuffer, form: Form, credential: &Credential) -> Result<(), AllocError>
    ensures { OnOk result (text.new ≡ text.old ++ fields_text form (who_fields credential.now)) }
{
    put_field!(text, form, "client": &principal_of(&credential.client))?;
    put_field!(text, form, "server": &principal_of(&credential.server))
}

/// Returns the encryption type of the session key.
fn enctype_of(credential: &Credential) -> Numbered
    ensures { Named result.registry result.number ≡ Named EncryptionTypes (pos credential.now.enctype) }
{
    Numbered {
        registry: Registry::EncryptionTypes,
        number: i64::from(credential.enctype),
    }
}

/// Appends the type and the length of the session key.
fn put_key(text: &mut TextBuffer, form: Form, credential: &Credential) -> Result<(), AllocError>
    ensures { OnOk result (text.new ≡ text.old ++ fields_text form (key_fields credential.now)) }
{
    let key = credential.key.as_slice().len() as u64;
    put_field!(text, form, "enctype": &enctype_of(credential))?;
    put_field!(text, form, "key": &key)
}

/// Appends the fields of the times.
fn put_times(text: &mut TextBuffer, form: Form, credential: &Credential) -> Result<(), AllocError>
    ensures { OnOk result (text.new ≡ text.old ++ fields_text form (times_fields credential.now)) }
{
    put_field!(text, form, "auth": &FileTime(credential.authtime))?;
    put_field!(text, form, "start": &FileTime(credential.starttime))?;
    put_field!(text, form, "end": &FileTime(credential.endtime))?;
    put_field!(text, form, "renew": &FileTime(credential.renew_till))
}

/// Returns `live` or `expired`, by a credential's end time, if there is a time to compare with.
fn state_of(now: Option<u32>, endtime: u32) -> Option<Plain<'static>>
    ensures { if_there Word result ≡ state now endtime }
{
    match now {
        None => None,
        Some(now) if now < endtime => Some(Plain::new("live".as_bytes())),
        Some(_) => Some(Plain::new("expired".as_bytes())),
    }
}

/// Appends the fields of the flags, and of the state.
fn put_flags(
    text: &mut TextBuffer,
    form: Form,
    now: Option<u32>,
    credential: &Credential,
) -> Result<(), AllocError>
    ensures { OnOk result (text.new ≡ text.old ++ fields_text form (flags_fields now credential.now)) }
{
    put_field!(text, form, "skey": &u64::from(credential.is_skey))?;
    put_field!(text, form, "flags": &TicketFlags(credential.flags))?;
    put_field!(text, form, "state": &state_of(now, credential.endtime))
}

/// Returns how many addresses a credential has.
fn address_count(credential: &Credential) -> u64
    ensures { result ≡ length credential.now.addresses }
{
    credential.addresses.as_slice().len() as u64
}

/// Returns how many pieces of authorization data a credential has.
fn authdata_count(credential: &Credential) -> u64
    ensures { result ≡ length credential.now.authdata }
{
    credential.authdata.as_slice().len() as u64
}

/// Appends the fields of how many addresses and how much authorization data there are.
fn put_counts(text: &mut TextBuffer, form: Form, credential: &Credential) -> Result<(), AllocError>
    ensures { OnOk result (text.new ≡ text.old ++ fields_text form (counts_fields credential.now)) }
{
    put_field!(text, form, "addresses": &address_count(credential))?;
    put_field!(text, form, "authdata": &authdata_count(credential))
}

/// Appends the fields of the ticket, of its server, and of the second ticket.
fn put_tickets<T: Shown, S: Shown>(
    text: &mut TextBuffer,
    form: Form,
    credential: &Credential,
    ticket: &T,
    server: &S,
) -> Result<(), AllocError>
    ensures { OnOk result (text.new ≡ text.old ++ fields_text form (tickets_fields credential.now (T.shown ticket.now) (S.shown server.now))) }
{
    let second = credential.second_ticket.as_slice().len() as u64;
    put_field!(text, form, "ticket": ticket)?;
    put_field!(text, form, "tserver": server)?;
    put_field!(text, form, "second": &second)
}

/// Appends the fields up to the flags.
fn put_first_fields(
    text: &mut TextBuffer,
    form: Form,
    credential: &Credential,
) -> Result<(), AllocError>
    ensures { OnOk result (text.new ≡ text.old ++ fields_text form (who_fields credential.now ++ key_fields credential.now ++ times_fields credential.now)) }
{
    put_who(text, form, credential)?;
    put_key(text, form, credential)?;
    put_times(text, form, credential)
}

#[tactic(auto, unfolding(krb_record::specs::Forms::record_text, crate::specs::Ccaches::ticketed_record))]
fn put_ticketed<T: Shown, S: Shown>(
    text: &mut TextBuffer,
    form: Form,
    now: Option<u32>,
    credential: &Credential,
    ticket: &T,
    server: &S,
) -> Result<(), AllocError>
    ensures { OnOk result (text.new ≡ text.old ++ record_text form (ticketed_record now credential.now (T.shown ticket.now) (S.shown server.now))) }
{
    put_opening(text, form, "cred")?;
    put_first_fields(text, form, credential)?;
    put_flags(text, form, now, credential)?;
    put_counts(text, form, credential)?;
    put_tickets(text, form, credential, ticket, server)?;
    put_closing(text, form)
}

#[tactic(auto, unfolding(krb_record::specs::Forms::record_text, crate::specs::Ccaches::config_record))]
fn put_config(text: &mut TextBuffer, form: Form, credential: &Credential) -> Result<(), AllocError>
    ensures { OnOk result (text.new ≡ text.old ++ record_text form (config_record form credential.now)) }
{
    let size = credential.ticket.as_slice().len() as u64;
    put_opening(text, form, "config")?;
    put_who(text, form, credential)?;
    put_field!(text, form, "size": &size)?;
    put_value(text, form, credential)?;
    put_closing(text, form)
}

/// A credential without a ticket.
struct WithoutTicket;

/// `absent` in a line, and null in an object.
impl Shown for WithoutTicket {
    ghost shown = { λ without. NoTicket };

    #[tactic(auto, unfolding(krb_record::specs::Forms::value_text))]
    fn put_text(&self, line: &mut TextBuffer, _names: bool) -> Result<(), AllocError> {
        line.push_str("absent")
    }

    #[tactic(auto, unfolding(krb_record::specs::Forms::members, krb_record::specs::Forms::json_value, krb_record::specs::Forms::names_member))]
    fn put_members(&self, object: &mut TextBuffer, begin: &str) -> Result<(), AllocError> {
        put_begin(object, begin)?;
        object.push_str("null")
    }

    #[tactic(auto, unfolding(krb_record::specs::Forms::cell))]
    fn put_cell(&self, text: &mut TextBuffer, _path: Path) -> Result<(), AllocError> {
        put_no_cell(text)
    }
}

/// Appends `refused`, the place and the number of the reason, with `:` between.
fn put_refused(line: &mut TextBuffer, refusal: Refusal) -> Result<(), AllocError>
    ensures { OnOk result (line.new ≡ line.old ++ refused_ticket_text false refusal) }
{
    line.push_str("refused:")?;
    line.push_integer(refusal.place)?;
    line.push_str(":")?;
    line.push_integer(why_number(refusal.why))
}

/// Appends the place and the number of the reason in an object.
fn put_refused_numbers(object: &mut TextBuffer, refusal: Refusal) -> Result<(), AllocError>
    ensures { OnOk result (object.new ≡ object.old ++ decimal refusal.place ++ codes ",\"why\":" ++ decimal (reason_number refusal.why)) }
{
    object.push_integer(refusal.place)?;
    object.push_str(",\"why\":")?;
    object.push_integer(why_number(refusal.why))
}

/// Appends what precedes the name of the reason in an object.
fn put_refused_start(object: &mut TextBuffer, refusal: Refusal) -> Result<(), AllocError>
    ensures { OnOk result (object.new ≡ object.old ++ codes "{\"refused\":{\"place\":" ++ decimal refusal.place ++ codes ",\"why\":" ++ decimal (reason_number refusal.why) ++ codes ",\"why_name\":") }
{
    object.push_str("{\"refused\":{\"place\":")?;
    put_refused_numbers(object, refusal)?;
    object.push_str(",\"why_name\":")
}

/// Appends what an object has of a ticket that is refused.
fn put_refused_object(object: &mut TextBuffer, refusal: Refusal) -> Result<(), AllocError>
    ensures { OnOk result (object.new ≡ object.old ++ refused_object refusal) }
{
    put_refused_start(object, refusal)?;
    put_reason_name(object, refusal.why)?;
    object.push_str("}}")
}

/// Appends the name of a reason as a string.
#[tactic(auto, using(krb_record::proofs::Reasons::reason_is_ascii))]
fn put_reason_name(object: &mut TextBuffer, why: Why) -> Result<(), AllocError>
    ensures { OnOk result (object.new ≡ object.old ++ json_string (reason_name why)) }
{
    put_string(object, why_text(why).as_bytes())
}

/// A ticket that is refused: `refused`, the place and the number of the reason, and with names its
/// name, with `:` between.
#[derive(Clone, Copy)]
struct RefusedOctets(Refusal);

impl Shown for RefusedOctets {
    ghost shown = { λ ticket. RefusedTicket ticket.0 };

    #[tactic(auto, unfolding(krb_record::specs::Forms::value_text))]
    fn put_text(&self, line: &mut TextBuffer, names: bool) -> Result<(), AllocError> {
        put_refused(line, self.0)?;
        if names {
            line.push_str(":")?;
            line.push_str(why_text(self.0.why))
        } else {
            Ok(())
        }
    }

    #[tactic(auto, unfolding(krb_record::specs::Forms::members, krb_record::specs::Forms::json_value, krb_record::specs::Forms::names_member))]
    fn put_members(&self, object: &mut TextBuffer, begin: &str) -> Result<(), AllocError> {
        put_begin(object, begin)?;
        put_refused_object(object, self.0)
    }

    #[tactic(auto, unfolding(krb_record::specs::Forms::cell, krb_record::specs::Forms::value_text))]
    fn put_cell(&self, text: &mut TextBuffer, path: Path) -> Result<(), AllocError> {
        match path {
            Path::Whole => self.put_text(text, true),
            Path::Place => text.push_integer(self.0.place),
            Path::Why => text.push_integer(why_number(self.0.why)),
            Path::WhyName => text.push_str(why_text(self.0.why)),
            _ => put_no_cell(text),
        }
    }
}

/// Returns the server of a ticket.
fn server_of<'a>(view: &TicketView<'a>) -> Principal<'a, ViewedStrings<'a>>
    requires { IsValidTicket view.now }
    ensures { IsPrincipal result.name_type result.components result.realm.now ≡ ticket_server (ticket_of_view view.now) }
{
    Principal {
        name_type: view.sname.name_type,
        components: ViewedStrings::new(view.sname.name),
        realm: view.realm,
    }
}

/// No server.
const NONE: Option<Plain<'static>> = None;

/// Appends the line of a credential whose ticket field holds this, without its line feed.
fn put_with_state(
    text: &mut TextBuffer,
    form: Form,
    now: Option<u32>,
    credential: &Credential,
    state: &TicketStateView<'_>,
) -> Result<(), AllocError>
    requires { StateLists state.now }
    ensures { OnOk result (text.new ≡ text.old ++ record_text form (state_record form now credential.now (state_viewed state.now))) }
{
    match state {
        TicketStateView::Config => put_config(text, form, credential),
        TicketStateView::Absent => {
            put_ticketed(text, form, now, credential, &WithoutTicket, &NONE)
        }
        TicketStateView::Ticket(ticket) => {
            let encrypted = encrypted_of(&ticket.enc_part);
            put_ticketed(text, form, now, credential, &encrypted, &server_of(ticket))
        }
        TicketStateView::Refused(refusal) => {
            put_ticketed(text, form, now, credential, &RefusedOctets(*refusal), &NONE)
        }
    }
}

/// Appends the line of a credential without its line feed.
#[tactic(auto, unfolding(crate::specs::Ccaches::credential_record))]
fn put_credential_text(
    text: &mut TextBuffer,
    form: Form,
    credential: &Credential,
    now: Option<u32>,
) -> Result<(), AllocError>
    ensures { OnOk result (text.new ≡ text.old ++ record_text form (credential_record form now credential.now)) }
{
    put_with_state(text, form, now, credential, &ticket_view_of(credential))
}

/// Appends the line of a credential, which is [`credential_line`]'s.
pub fn put_credential(
    text: &mut TextBuffer,
    form: Form,
    credential: &Credential,
    now: Option<u32>,
) -> Result<(), AllocError>
    ensures { OnOk result (text.new ≡ text.old ++ record_line form (credential_record form now credential.now)) }
{
    put_credential_text(text, form, credential, now)?;
    text.push_str("\n")
}

/// Returns the line of a credential, without its line feed. If a now is given, in seconds since
/// 1970, the credential is `live` if it ends later, and else `expired`. The line shows no octet of
/// a key, which is a law: `session_keys_are_not_shown` of `krb_text_laws`.
pub fn credential_line(
    alloc: Global,
    form: Form,
    credential: &Credential,
    now: Option<u32>,
) -> Result<String, Memory>
    ensures { IfOk result (λ line. string_bytes line ≡ record_text form (credential_record form now credential.now)) }
{
    let mut line = TextBuffer::new(alloc);
    put_credential_text(&mut line, form, credential, now)?;
    Ok(line.into_string())
}
