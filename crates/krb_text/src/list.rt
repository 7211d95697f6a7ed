//! Lists that are viewed in octets, as records show them.

ghost use Rattle.std.specs.Prelude.{◌≡◌, ◌≤◌, ◌++◌, [], true, length, map, MatchOption, OnOk, codes};
ghost use Rattle.std.specs.List.{flat_map};
ghost use Rattle.krb_msg.specs.Grammar.{int32, pa_data};
ghost use Rattle.krb_registry.specs.declared.registry.Registry.TheVariants.{EncryptionTypes, PreAuthenticationData};
ghost use Rattle.krb_msg.specs.Shape.{is_unambiguous, has_octet_tags};
ghost use Rattle.krb_msg.specs.Viewed.{AreViewed, items_of};
ghost use Rattle.krb_msg.specs.Types.{pa_data_of};
ghost use Rattle.std.specs.Fmt.{signed_decimal};
ghost use Rattle.krb_record.specs.Forms.{cell, members, name_string, value_text};
ghost use Rattle.krb_text.specs.Messages.{padata};
ghost use Rattle.krb_record.specs.Text.{joined, list_text};
ghost use Rattle.krb_record.specs.Values.{Numbers};
ghost use Rattle.krb_record.specs.Items.{number_item};
ghost use Rattle.krb_padata.specs.Grammar.{typed_data_item};
ghost use Rattle.krb_padata.specs.Types.{typed_data_item_of};
ghost use Rattle.krb_text.specs.inner.Items.{IsFirstNumber, is_nameless, item_number};

use krb_der::Int32;
use krb_msg::{ItemsView, PaData, View, next_item, next_type};
use krb_padata::TypedDataItem;
use krb_record::{
    NumberForm, Path, Shown, TextBuffer, put_begin, put_names_begin, put_no_cell, put_number_item,
};
use krb_registry::{Registry, name_of};
use std::alloc::AllocError;
use std::marker::Model;

/// A type of items that are numbers of a registry, or begin with one.
pub(crate) trait Listed<'a>: View<'a> {
    /// Returns the number of the first of items that were viewed, and the items after it.
    fn next_number(items: ItemsView<'a>) -> Option<(i64, ItemsView<'a>)>
        requires { AreViewed Self.View.term items.octets.now }
        ensures { MatchOption result (items_of Self.View.term items.entry.octets.now ≡ []) (λ (number, rest). IsFirstNumber Self.View.term items.entry.octets.now number rest.octets.now) };
}

impl<'a> Listed<'a> for Int32 {
    #[inline(always)]
    fn next_number(items: ItemsView<'a>) -> Option<(i64, ItemsView<'a>)> {
        next_item::<Int32>(items)
    }
}

/// Its type alone.
impl<'a> Listed<'a> for PaData {
    #[inline(always)]
    fn next_number(items: ItemsView<'a>) -> Option<(i64, ItemsView<'a>)> {
        next_type(items)
    }
}

/// Its type alone.
impl<'a> Listed<'a> for TypedDataItem {
    #[inline(always)]
    fn next_number(items: ItemsView<'a>) -> Option<(i64, ItemsView<'a>)> {
        match next_item::<TypedDataItem>(items) {
            None => None,
            Some((item, rest)) => Some((item.data_type, rest)),
        }
    }
}

/// Appends a comma and the number of an item, for each of the items.
#[inline(always)]
fn put_other_numbers<'a, T: Listed<'a>>(
    text: &mut TextBuffer,
    form: NumberForm,
    items: ItemsView<'a>,
) -> Result<(), AllocError>
    requires { AreViewed T.View.term items.octets.now }
    ensures { OnOk result (text.new ≡ text.old ++ flat_map (λ item. codes "," ++ number_item form (item_number T.View.term item)) (items_of T.View.term items.entry.octets.now)) }
{
    let mut others = items;
    'others: while let Some((number, rest)) = T::next_number(others) {
        text.push_sign(",")?;
        put_number_item(text, form, number)?;
        others = rest;
    }
    Ok(())
}

/// Appends the numbers of items with commas between them.
#[inline(always)]
fn put_numbers<'a, T: Listed<'a>>(
    text: &mut TextBuffer,
    form: NumberForm,
    items: ItemsView<'a>,
) -> Result<(), AllocError>
    requires { AreViewed T.View.term items.octets.now }
    ensures { OnOk result (text.new ≡ text.old ++ joined [] (codes ",") (λ item. number_item form (item_number T.View.term item)) (items_of T.View.term items.entry.octets.now)) }
{
    match T::next_number(items) {
        None => Ok(()),
        Some((first, others)) => {
            put_number_item(text, form, first)?;
            put_other_numbers::<T>(text, form, others)
        }
    }
}

/// Appends the numbers of items in brackets, with commas between them.
#[inline(always)]
fn put_list<'a, T: Listed<'a>>(
    text: &mut TextBuffer,
    form: NumberForm,
    items: ItemsView<'a>,
) -> Result<(), AllocError>
    requires { AreViewed T.View.term items.octets.now }
    ensures { OnOk result (text.new ≡ text.old ++ list_text (number_item form) (map (item_number T.View.term) (items_of T.View.term items.entry.octets.now))) }
{
    text.push_sign("[")?;
    put_numbers::<T>(text, form, items)?;
    text.push_sign("]")
}

/// Appends the numbers of items in brackets, as they are.
#[inline(never)]
fn put_plain_list<'a, T: Listed<'a>>(
    text: &mut TextBuffer,
    items: ItemsView<'a>,
) -> Result<(), AllocError>
    requires { AreViewed T.View.term items.octets.now }
    ensures { OnOk result (text.new ≡ text.old ++ list_text signed_decimal (map (item_number T.View.term) (items_of T.View.term items.entry.octets.now))) }
{
    put_list::<T>(text, NumberForm::Line, items)
}

/// Appends the names of items in brackets.
#[inline(never)]
fn put_name_list<'a, T: Listed<'a>>(
    object: &mut TextBuffer,
    registry: Registry,
    items: ItemsView<'a>,
) -> Result<(), AllocError>
    requires { AreViewed T.View.term items.octets.now }
    ensures { OnOk result (object.new ≡ object.old ++ list_text (name_string registry) (map (item_number T.View.term) (items_of T.View.term items.entry.octets.now))) }
{
    put_list::<T>(object, NumberForm::Name(registry), items)
}

/// Appends what a line shows of numbers of a registry.
#[inline(always)]
#[tactic(auto, unfolding(krb_record::specs::Forms::value_text))]
fn put_numbers_text<'a, T: Listed<'a>>(
    line: &mut TextBuffer,
    names: bool,
    registry: Registry,
    items: ItemsView<'a>,
) -> Result<(), AllocError>
    requires { AreViewed T.View.term items.octets.now }
    ensures { OnOk result (line.new ≡ line.old ++ value_text names (Numbers registry (map (item_number T.View.term) (items_of T.View.term items.entry.octets.now)))) }
{
    if names {
        put_list::<T>(line, NumberForm::Named(registry), items)
    } else {
        put_list::<T>(line, NumberForm::Line, items)
    }
}

/// Appends the members of numbers of a registry.
#[inline(always)]
#[tactic(auto, unfolding(krb_record::specs::Forms::members, krb_record::specs::Forms::json_value, krb_record::specs::Forms::names_member))]
fn put_numbers_members<'a, T: Listed<'a>>(
    object: &mut TextBuffer,
    begin: &str,
    registry: Registry,
    items: ItemsView<'a>,
) -> Result<(), AllocError>
    requires { AreViewed T.View.term items.octets.now }
    ensures { OnOk result (object.new ≡ object.old ++ members begin.now (Numbers registry (map (item_number T.View.term) (items_of T.View.term items.entry.octets.now)))) }
{
    put_begin(object, begin)?;
    put_plain_list::<T>(object, items)?;
    put_names_begin(object, begin)?;
    put_name_list::<T>(object, registry, items)
}

/// Returns whether there is one item alone, and its number has no name.
fn is_nameless<'a, T: Listed<'a>>(registry: Registry, items: ItemsView<'a>) -> bool
    requires { AreViewed T.View.term items.octets.now }
    ensures { result ≡ is_nameless registry (map (item_number T.View.term) (items_of T.View.term items.entry.octets.now)) }
{
    match T::next_number(items) {
        None => false,
        Some((first, others)) => {
            name_of(registry, first).is_none() && T::next_number(others).is_none()
        }
    }
}

/// Appends the numbers of items with commas between them, or `[]` if there are none.
#[inline(always)]
fn put_items_cell<'a, T: Listed<'a>>(
    text: &mut TextBuffer,
    form: NumberForm,
    items: ItemsView<'a>,
) -> Result<(), AllocError>
    requires { AreViewed T.View.term items.octets.now }
    ensures { OnOk result (text.new ≡ text.old ++ joined (codes "[]") (codes ",") (λ item. number_item form (item_number T.View.term item)) (items_of T.View.term items.entry.octets.now)) }
{
    match T::next_number(items) {
        None => text.push_str("[]"),
        Some((first, others)) => {
            put_number_item(text, form, first)?;
            put_other_numbers::<T>(text, form, others)
        }
    }
}

/// Appends the cell of numbers of a registry, or of their names.
#[inline(never)]
#[tactic(auto, unfolding(krb_record::specs::Forms::cell))]
fn put_numbers_cell<'a, T: Listed<'a>>(
    text: &mut TextBuffer,
    path: Path,
    registry: Registry,
    items: ItemsView<'a>,
) -> Result<(), AllocError>
    requires { AreViewed T.View.term items.octets.now }
    ensures { OnOk result (text.new ≡ text.old ++ cell path (Numbers registry (map (item_number T.View.term) (items_of T.View.term items.entry.octets.now)))) }
{
    match path {
        Path::Whole => put_items_cell::<T>(text, NumberForm::Line, items),
        Path::Names if is_nameless::<T>(registry, items) => text.push_str("[-]"),
        Path::Names => put_items_cell::<T>(text, NumberForm::NameInCell(registry), items),
        _ => put_no_cell(text),
    }
}

/// Returns how many items there are.
pub(crate) fn count_items<'a, T: View<'a>>(items: ItemsView<'a>) -> usize
    requires tags { has_octet_tags T.term ≡ true }
    requires unambiguous { is_unambiguous T.term ≡ true }
    requires viewed { AreViewed T.term items.octets.now }
    ensures many { result ≡ length (items_of T.term items.entry.octets.now) }
    ensures few { result ≤ length items.entry.octets.now }
{
    let mut count = 0;
    let mut others = items;
    'others: while let Some((_seen, rest)) = next_item::<T>(others) {
        count += 1;
        others = rest;
    }
    count
}

/// Encryption types that are viewed in octets. Contracts see the numbers.
#[derive(Drop)]
pub(crate) struct EncryptionTypes<'a>(ItemsView<'a>);

impl<'a> Model for EncryptionTypes<'a> {
    ghost use Rattle.std.specs.Prelude.{List, ℤ, map};
    ghost use Rattle.krb_msg.specs.Grammar.{int32};
    ghost use Rattle.krb_msg.specs.Viewed.{AreViewed, items_of};
    ghost use Rattle.krb_text.specs.inner.Items.{item_number};

    ghost Value = { List ℤ };

    ghost view = { λ seen. map (item_number int32) (items_of int32 seen.0.octets.now) };

    ghost invariant = { λ seen. AreViewed int32 seen.0.octets.now };
}

impl<'a> EncryptionTypes<'a> {
    /// Takes the items of a list.
    #[inline(always)]
    pub(crate) fn new(items: ItemsView<'a>) -> EncryptionTypes<'a>
        requires { AreViewed int32 items.octets.now }
        ensures { result ≡ items_of int32 items.entry.octets.now }
    {
        EncryptionTypes(items)
    }
}

/// The numbers in brackets, with commas between them.
impl<'a> Shown for EncryptionTypes<'a> {
    ghost shown = { λ numbers. Numbers EncryptionTypes numbers };

    #[inline(never)]
    fn put_text(&self, line: &mut TextBuffer, names: bool) -> Result<(), AllocError> {
        put_numbers_text::<Int32>(line, names, Registry::EncryptionTypes, self.0)
    }

    #[inline(always)]
    fn put_members(&self, object: &mut TextBuffer, begin: &str) -> Result<(), AllocError> {
        put_numbers_members::<Int32>(object, begin, Registry::EncryptionTypes, self.0)
    }

    fn put_cell(&self, text: &mut TextBuffer, path: Path) -> Result<(), AllocError> {
        put_numbers_cell::<Int32>(text, path, Registry::EncryptionTypes, self.0)
    }
}

/// The types of pre-authentication data that are viewed in octets. Contracts see the numbers.
#[derive(Drop)]
pub(crate) struct PaDataTypes<'a>(ItemsView<'a>);

impl<'a> Model for PaDataTypes<'a> {
    ghost use Rattle.std.specs.Prelude.{List, ℤ, map};
    ghost use Rattle.krb_msg.specs.Grammar.{pa_data};
    ghost use Rattle.krb_msg.specs.Viewed.{AreViewed, items_of};
    ghost use Rattle.krb_text.specs.inner.Items.{item_number};

    ghost Value = { List ℤ };

    ghost view = { λ seen. map (item_number pa_data) (items_of pa_data seen.0.octets.now) };

    ghost invariant = { λ seen. AreViewed pa_data seen.0.octets.now };
}

impl<'a> PaDataTypes<'a> {
    /// Takes the items of a list.
    #[inline(always)]
    pub(crate) fn new(items: ItemsView<'a>) -> PaDataTypes<'a>
        requires { AreViewed pa_data items.octets.now }
        ensures { Numbers PreAuthenticationData result ≡ padata (map pa_data_of (items_of pa_data items.entry.octets.now)) }
    {
        PaDataTypes(items)
    }
}

/// The numbers in brackets, with commas between them.
impl<'a> Shown for PaDataTypes<'a> {
    ghost shown = { λ numbers. Numbers PreAuthenticationData numbers };

    #[inline(never)]
    fn put_text(&self, line: &mut TextBuffer, names: bool) -> Result<(), AllocError> {
        put_numbers_text::<PaData>(line, names, Registry::PreAuthenticationData, self.0)
    }

    #[inline(always)]
    fn put_members(&self, object: &mut TextBuffer, begin: &str) -> Result<(), AllocError> {
        put_numbers_members::<PaData>(object, begin, Registry::PreAuthenticationData, self.0)
    }

    fn put_cell(&self, text: &mut TextBuffer, path: Path) -> Result<(), AllocError> {
        put_numbers_cell::<PaData>(text, path, Registry::PreAuthenticationData, self.0)
    }
}

/// The types of TYPED-DATA that is viewed in octets. Contracts see the numbers.
#[derive(Drop)]
pub(crate) struct TypedDataTypes<'a>(ItemsView<'a>);

impl<'a> Model for TypedDataTypes<'a> {
    ghost use Rattle.std.specs.Prelude.{List, ℤ, map};
    ghost use Rattle.krb_msg.specs.Viewed.{AreViewed, items_of};
    ghost use Rattle.krb_padata.specs.Grammar.{typed_data_item};
    ghost use Rattle.krb_text.specs.inner.Items.{item_number};

    ghost Value = { List ℤ };

    ghost view = { λ seen. map (item_number typed_data_item) (items_of typed_data_item seen.0.octets.now) };

    ghost invariant = { λ seen. AreViewed typed_data_item seen.0.octets.now };
}

impl<'a> TypedDataTypes<'a> {
    /// Takes the items of a list.
    #[inline(always)]
    pub(crate) fn new(items: ItemsView<'a>) -> TypedDataTypes<'a>
        requires { AreViewed typed_data_item items.octets.now }
        ensures { Numbers PreAuthenticationData result ≡ Numbers PreAuthenticationData (map (λ item. item.data_type) (map typed_data_item_of (items_of typed_data_item items.entry.octets.now))) }
    {
        TypedDataTypes(items)
    }
}

/// The numbers in brackets, with commas between them.
impl<'a> Shown for TypedDataTypes<'a> {
    ghost shown = { λ numbers. Numbers PreAuthenticationData numbers };

    #[inline(never)]
    fn put_text(&self, line: &mut TextBuffer, names: bool) -> Result<(), AllocError> {
        put_numbers_text::<TypedDataItem>(line, names, Registry::PreAuthenticationData, self.0)
    }

    #[inline(always)]
    fn put_members(&self, object: &mut TextBuffer, begin: &str) -> Result<(), AllocError> {
        put_numbers_members::<TypedDataItem>(object, begin, Registry::PreAuthenticationData, self.0)
    }

    fn put_cell(&self, text: &mut TextBuffer, path: Path) -> Result<(), AllocError> {
        put_numbers_cell::<TypedDataItem>(text, path, Registry::PreAuthenticationData, self.0)
    }
}
