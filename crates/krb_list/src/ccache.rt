//! What is printed of credential caches.

ghost use Rattle.std.specs.Prelude.{◌≡◌, ◌++◌, [], ◌∷◌, IfOk, OnOk, codes, string_bytes};
ghost use Rattle.std.specs.Fmt.{signed_decimal};
ghost use Rattle.krb_registry.specs.declared.registry.Registry.TheVariants.{NameTypes};
ghost use Rattle.krb_ccache.specs.Spelling.{offset};
ghost use Rattle.krb_list.specs.Ccaches.{file_principal, offset_value, cache_record, cache_end};
ghost use Rattle.krb_record.specs.Forms.{fields_text, offset_object, record_line, record_text};
ghost use Rattle.krb_record.specs.Values.{Named, count, if_there, the};

use krb_ccache::{FilePrincipal, Header};
use krb_der::Memory;
use krb_record::{
    Form, Numbered, Path, Principal, Shown, Strings, TextBuffer, put_begin, put_closing, put_field,
    put_no_cell, put_opening,
};
use krb_registry::Registry;
use std::alloc::{AllocError, Global};

/// Returns what is shown of a principal.
#[inline(always)]
pub(crate) fn principal_of(principal: &FilePrincipal) -> Principal<'_, Strings<'_>>
    ensures name_type { result.name_type ≡ principal.now.name_type }
    ensures components { result.components.0.now ≡ principal.now.components }
    ensures realm { result.realm.now ≡ principal.now.realm }
{
    Principal {
        name_type: i64::from(principal.name_type),
        components: Strings(principal.components.as_slice()),
        realm: principal.realm.octets(),
    }
}

/// Returns how the name of a principal is meant.
fn name_type_of(principal: &FilePrincipal) -> Numbered
    ensures registry { result.registry ≡ NameTypes }
    ensures number { result.number ≡ principal.now.name_type }
{
    Numbered {
        registry: Registry::NameTypes,
        number: i64::from(principal.name_type),
    }
}

/// Appends what precedes the microseconds in an object.
fn put_seconds(object: &mut TextBuffer, seconds: i32) -> Result<(), AllocError>
    ensures { OnOk result (object.new ≡ object.old ++ codes "{\"seconds\":" ++ signed_decimal seconds ++ codes ",\"microseconds\":") }
{
    object.push_str("{\"seconds\":")?;
    object.push_integer(seconds)?;
    object.push_str(",\"microseconds\":")
}

/// Appends what an object has of the offset of a clock.
fn put_offset_object(object: &mut TextBuffer, offset: (i32, i32)) -> Result<(), AllocError>
    ensures { OnOk result (object.new ≡ object.old ++ offset_object offset.0 offset.1) }
{
    put_seconds(object, offset.0)?;
    object.push_integer(offset.1)?;
    object.push_str("}")
}

/// The offset of a clock, in seconds and microseconds, with `:` between.
#[derive(Clone, Copy)]
struct Offset((i32, i32));

impl Shown for Offset {
    ghost shown = { λ offset. offset_value offset.0 };

    #[tactic(auto, unfolding(krb_record::specs::Forms::value_text))]
    fn put_text(&self, line: &mut TextBuffer, _names: bool) -> Result<(), AllocError> {
        let (seconds, microseconds) = self.0;
        line.push_integer(seconds)?;
        line.push_str(":")?;
        line.push_integer(microseconds)
    }

    #[tactic(auto, unfolding(krb_record::specs::Forms::members, krb_record::specs::Forms::json_value, krb_record::specs::Forms::names_member))]
    fn put_members(&self, object: &mut TextBuffer, begin: &str) -> Result<(), AllocError> {
        put_begin(object, begin)?;
        put_offset_object(object, self.0)
    }

    #[tactic(auto, unfolding(krb_record::specs::Forms::cell))]
    fn put_cell(&self, text: &mut TextBuffer, path: Path) -> Result<(), AllocError> {
        match path {
            Path::Whole => self.put_text(text, true),
            Path::Seconds => text.push_integer(self.0.0),
            Path::Microseconds => text.push_integer(self.0.1),
            _ => put_no_cell(text),
        }
    }
}

/// Appends the fields of the default principal.
fn put_who(text: &mut TextBuffer, form: Form, principal: &FilePrincipal) -> Result<(), AllocError>
    ensures { OnOk result (text.new ≡ text.old ++ fields_text form (
        the (codes "principal") (file_principal principal.now)
        ∷ the (codes "type") (Named NameTypes principal.now.name_type)
        ∷ [])) }
{
    put_field!(text, form, "principal": &principal_of(principal))?;
    put_field!(text, form, "type": &name_type_of(principal))
}

/// Appends the fields of a header: the offset of the clock, and how many fields it has.
fn put_header(text: &mut TextBuffer, form: Form, header: &Header) -> Result<(), AllocError>
    ensures { OnOk result (text.new ≡ text.old ++ fields_text form (
        the (codes "offset") (if_there offset_value (offset header.now))
        ∷ the (codes "fields") (count header.now.fields)
        ∷ [])) }
{
    let fields = header.fields.as_slice().len() as u64;
    put_field!(text, form, "offset": &header.offset().map(Offset))?;
    put_field!(text, form, "fields": &fields)
}

/// Appends the line of a cache without its line feed.
#[tactic(auto, unfolding(krb_record::specs::Forms::record_text, crate::specs::Ccaches::cache_record))]
fn put_cache_text(
    text: &mut TextBuffer,
    form: Form,
    header: &Header,
    principal: &FilePrincipal,
) -> Result<(), AllocError>
    ensures { OnOk result (text.new ≡ text.old ++ record_text form (cache_record header.now principal.now)) }
{
    put_opening(text, form, "cache")?;
    put_who(text, form, principal)?;
    put_header(text, form, header)?;
    put_closing(text, form)
}

/// Appends the line of a cache, which is [`cache_line`]'s.
pub fn put_cache(
    text: &mut TextBuffer,
    form: Form,
    header: &Header,
    principal: &FilePrincipal,
) -> Result<(), AllocError>
    ensures { OnOk result (text.new ≡ text.old ++ record_line form (cache_record header.now principal.now)) }
{
    put_cache_text(text, form, header, principal)?;
    text.push_str("\n")
}

/// Returns the line of a cache with this header and this default principal, without its line feed.
pub fn cache_line(
    alloc: Global,
    form: Form,
    header: &Header,
    principal: &FilePrincipal,
) -> Result<String, Memory>
    ensures { IfOk result (λ line. string_bytes line ≡ record_text form (cache_record header.now principal.now)) }
{
    let mut line = TextBuffer::new(alloc);
    put_cache_text(&mut line, form, header, principal)?;
    Ok(line.into_string())
}

/// Appends the line of the end of a cache without its line feed.
#[tactic(auto, unfolding(krb_record::specs::Forms::record_text, crate::specs::Ccaches::cache_end))]
fn put_end_text(text: &mut TextBuffer, form: Form, credentials: u64) -> Result<(), AllocError>
    ensures { OnOk result (text.new ≡ text.old ++ record_text form (cache_end credentials)) }
{
    put_opening(text, form, "end")?;
    put_field!(text, form, "credentials": &credentials)?;
    put_closing(text, form)
}

/// Appends the line of the end of a cache, which is [`cache_end_line`]'s.
pub fn put_cache_end(text: &mut TextBuffer, form: Form, credentials: u64) -> Result<(), AllocError>
    ensures { OnOk result (text.new ≡ text.old ++ record_line form (cache_end credentials)) }
{
    put_end_text(text, form, credentials)?;
    text.push_str("\n")
}

/// Returns the line of the end of a cache of this many credentials, without its line feed.
pub fn cache_end_line(alloc: Global, form: Form, credentials: u64) -> Result<String, Memory>
    ensures { IfOk result (λ line. string_bytes line ≡ record_text form (cache_end credentials)) }
{
    let mut line = TextBuffer::new(alloc);
    put_end_text(&mut line, form, credentials)?;
    Ok(line.into_string())
}
