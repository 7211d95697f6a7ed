//! Names of principals.

ghost use Rattle.std.specs.Prelude.{◌≡◌, ◌++◌, ◌∷◌, [], IfOk, List, MatchOption, OnOk, codes, length, ℕ, string_bytes};
ghost use Rattle.std.specs.Fmt.{signed_decimal};
ghost use Rattle.std.specs.List.{flat_map};
ghost use Rattle.krb_registry.specs.declared.registry.Registry.TheVariants.{NameTypes};
ghost use Rattle.krb_record.specs.Forms.{json_character, json_string, name_string, octets_string, principal_object};
ghost use Rattle.krb_record.specs.Text.{joined, list_text, principal_text};
ghost use Rattle.krb_record.specs.Values.{Principal as IsPrincipal};
ghost use Rattle.krb_record.specs.declared.json.Escape.TheVariants.{Line};
ghost use Rattle.krb_record.specs.inner.Strings.{quoted};

use crate::cell::{InList, put_no_cell, put_number_name, put_string_cell};
use crate::escape::put_escaped;
use crate::item::{InLine, InObject, InString, OctetsForm};
use crate::json::put_octets_string;
use crate::number::put_number_and_name;
use crate::path::Path;
use crate::shown::{Shown, put_begin};
use crate::text_buffer::TextBuffer;
use krb_der::{KString, Memory};
use krb_registry::Registry;
use std::alloc::{AllocError, Global};

/// The components of a name, each of which is octets.
pub trait Components: Drop {
    ghost components: { Self → List (List ℕ) };

    /// Returns the first component and the others, or nothing if there are none.
    fn next(&self) -> Option<(&[u8], Self)>
        ensures { MatchOption result (components self.now ≡ []) (λ (first, others). components self.now ≡ first.now ∷ components others) };
}

/// Appends the separator, of one octet, and a component, for each of the components.
#[inline(always)]
fn put_others<F: OctetsForm, C: Components>(
    text: &mut TextBuffer,
    separator: &str,
    components: C,
) -> Result<(), AllocError>
    requires { length separator.now ≡ 1 }
    ensures { OnOk result (text.new ≡ text.old ++ flat_map (λ c. separator.now ++ F.text c) (C.components components)) }
{
    let mut others = components;
    'others: while let Some((component, rest)) = others.next() {
        text.push_sign(separator)?;
        F::put(text, component)?;
        others = rest;
    }
    Ok(())
}

/// Appends the components, with a separator of one octet between two, or another text if there are
/// none.
#[inline(always)]
fn put_components<F: OctetsForm, C: Components>(
    text: &mut TextBuffer,
    components: &C,
    none: &str,
    separator: &str,
) -> Result<(), AllocError>
    requires { length separator.now ≡ 1 }
    ensures { OnOk result (text.new ≡ text.old ++ joined none.now separator.now F.text (C.components components.now)) }
{
    match components.next() {
        None => text.push_str(none),
        Some((first, others)) => {
            F::put(text, first)?;
            put_others::<F, C>(text, separator, others)
        }
    }
}

/// Components that are strings.
#[derive(Clone, Copy)]
pub struct Strings<'a>(pub &'a [KString]);

impl<'a> Components for Strings<'a> {
    ghost components = { λ strings. strings.0.now };

    #[inline(always)]
    fn next(&self) -> Option<(&[u8], Strings<'a>)> {
        match self.0.split_first() {
            None => None,
            Some((first, others)) => Some((first.octets(), Strings(others))),
        }
    }
}

/// A principal: how its name is meant, its components and its realm.
#[derive(Drop)]
pub struct Principal<'a, C> {
    /// The name type (RFC 4120, 6.2).
    pub name_type: i64,
    /// The components of the name.
    pub components: C,
    /// The octets of the realm.
    pub realm: &'a [u8],
}

/// Appends the parts of the text of a principal, each as it is in a string.
fn put_text_parts<C: Components>(
    object: &mut TextBuffer,
    components: &C,
    realm: &[u8],
) -> Result<(), AllocError>
    ensures { OnOk result (object.new ≡ object.old ++ (joined (codes "\\\\-") (codes "/") (quoted Line) (C.components components.now) ++ codes "@" ++ quoted Line realm.now)) }
{
    put_components::<InString, C>(object, components, "\\\\-", "/")?;
    object.push_sign("@")?;
    InString::put(object, realm)
}

/// Appends the text of a principal as it is in a string.
fn put_principal_part<C: Components>(
    object: &mut TextBuffer,
    components: &C,
    realm: &[u8],
) -> Result<(), AllocError>
    ensures { OnOk result (object.new ≡ object.old ++ flat_map json_character (principal_text (C.components components.now) realm.now)) }
{
    put_text_parts(object, components, realm)
}

/// Appends what an object has of a principal, up to its components.
#[inline(always)]
fn put_text_and_type<'a, C: Components>(
    object: &mut TextBuffer,
    principal: &Principal<'a, C>,
) -> Result<(), AllocError>
    ensures { OnOk result (object.new ≡ object.old ++ codes "{\"text\":" ++ json_string (principal_text (C.components principal.now.components) principal.now.realm.now) ++ codes ",\"type\":" ++ signed_decimal principal.now.name_type ++ codes ",\"type_name\":" ++ name_string NameTypes principal.now.name_type) }
{
    object.push_str("{\"text\":\"")?;
    put_principal_part(object, &principal.components, principal.realm)?;
    put_number_and_name(
        object,
        "\",\"type\":",
        ",\"type_name\":",
        Registry::NameTypes,
        principal.name_type,
    )
}

/// Appends the members of the parts of a principal, the last of its object.
#[inline(always)]
fn put_parts<C: Components>(
    object: &mut TextBuffer,
    components: &C,
    realm: &[u8],
) -> Result<(), AllocError>
    ensures { OnOk result (object.new ≡ object.old ++ codes ",\"components\":" ++ list_text octets_string (C.components components.now) ++ codes ",\"realm\":" ++ octets_string realm.now ++ codes "}") }
{
    object.push_str(",\"components\":[")?;
    put_components::<InObject, C>(object, components, "", ",")?;
    object.push_str("],\"realm\":")?;
    put_octets_string(object, realm)?;
    object.push_str("}")
}

/// Appends what an object has of a principal.
#[inline(never)]
fn put_principal_object<'a, C: Components>(
    object: &mut TextBuffer,
    principal: &Principal<'a, C>,
) -> Result<(), AllocError>
    ensures { OnOk result (object.new ≡ object.old ++ principal_object principal.now.name_type (C.components principal.now.components) principal.now.realm.now) }
{
    put_text_and_type(object, principal)?;
    put_parts(object, &principal.components, principal.realm)
}

/// The components with `/` between them, `@` and the realm.
impl<'a, C: Components> Shown for Principal<'a, C> {
    ghost shown = { λ p. IsPrincipal p.name_type (C.components p.components) p.realm.now };

    #[inline(never)]
    #[tactic(auto, unfolding(crate::specs::Forms::value_text, crate::specs::Text::principal_text))]
    fn put_text(&self, line: &mut TextBuffer, _names: bool) -> Result<(), AllocError> {
        put_components::<InLine, C>(line, &self.components, "\\-", "/")?;
        line.push_sign("@")?;
        put_escaped(line, self.realm)
    }

    #[inline(always)]
    #[tactic(auto, unfolding(crate::specs::Forms::members, crate::specs::Forms::json_value, crate::specs::Forms::names_member))]
    fn put_members(&self, object: &mut TextBuffer, begin: &str) -> Result<(), AllocError> {
        put_begin(object, begin)?;
        put_principal_object(object, self)
    }

    #[tactic(auto, unfolding(crate::specs::Forms::cell, crate::specs::Forms::value_text))]
    fn put_cell(&self, text: &mut TextBuffer, path: Path) -> Result<(), AllocError> {
        match path {
            Path::Whole | Path::Text => self.put_text(text, true),
            Path::Type => text.push_signed(self.name_type),
            Path::TypeName => put_number_name(text, Registry::NameTypes, self.name_type),
            Path::Components => put_components::<InList, C>(text, &self.components, "[]", ","),
            Path::Realm => put_string_cell(text, self.realm),
            _ => put_no_cell(text),
        }
    }
}

/// Appends the text of a principal, which is [`principal_text`]'s.
#[tactic(auto, unfolding(crate::specs::Text::principal_text))]
pub fn put_principal(
    line: &mut TextBuffer,
    components: &[KString],
    realm: &KString,
) -> Result<(), AllocError>
    ensures { OnOk result (line.new ≡ line.old ++ principal_text components.now realm.now) }
{
    put_components::<InLine, Strings<'_>>(line, &Strings(components), "\\-", "/")?;
    line.push_sign("@")?;
    put_escaped(line, realm.octets())
}

/// Returns the text of a principal: its components with `/` between them, `@`, and the realm, each
/// escaped. With no components, `\-` precedes the `@`. No two principals have the same text.
pub fn principal_text(
    alloc: Global,
    components: &[KString],
    realm: &KString,
) -> Result<String, Memory>
    ensures { IfOk result (λ text. string_bytes text ≡ principal_text components.now realm.now) }
{
    let mut text = TextBuffer::new(alloc);
    put_principal(&mut text, components, realm)?;
    Ok(text.into_string())
}
