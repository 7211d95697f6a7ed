//! The records of items and of what is at fault.

ghost use Rattle.std.specs.Prelude.{◌≡◌, ◌++◌, ◌+◌, ◌≤◌, ◌<◌, ◌^◌, length, codes, OnOk};
ghost use Rattle.std.specs.List.{flat_map};
ghost use Rattle.std.specs.Option.{option_map, option_copied};
ghost use Rattle.krb_der.specs.Octets.{integer_value as value_of_octets};
ghost use Rattle.krb_source.specs.Layers.{layer_name};
ghost use Rattle.krb_record.specs.Forms.{field, labelled};
ghost use Rattle.krb_record.specs.Text.{hex};
ghost use Rattle.krb_record.specs.Values.{String as Escaped, if_there};
ghost use Rattle.krb_items.specs.Items.{is_counted};
ghost use Rattle.krb_items.specs.Records.{after_place, before_place, contents_text, ending, fault_line, heads_text, hex_if, hide, hide_if, identifier_in, is_hidden, item_line, item_value, leaf_value, listed_fault, listed_item, number_value, octet_at_fault, octets_before, origin_text, tag_word, via_text, words_field};
ghost use Rattle.krb_items.specs.Seen.{IsNear, begun_of, context_of, item_of, part_of};

use crate::begun::Begun;
use crate::head::{from, front};
use crate::identifier::{dotted, numbers_in};
use crate::shape::Leaf;
use crate::words::put_words;
use krb_der::{Refusal, integer_value};
use krb_record::{
    ABSENT, Base, ErrorCode, FlagBits, Form, HexText, MessageOrigin, Numbered, QuotedText, Reason,
    Text, TextBuffer, put_end, put_field, put_message_opening,
};
use krb_source::Layer;
use std::alloc::{AllocError, Global};

/// What is listed, and how.
#[derive(Clone, Copy)]
pub struct Source<'a> {
    pub alloc: Global,
    /// The form of the records.
    pub form: Form,
    /// What a line has before its record.
    pub begin: &'a str,
    /// What an object has last.
    pub last: &'a str,
    /// All octets, up to and with one that is refused.
    pub octets: &'a [u8],
    /// How many of them are right.
    pub limit: u64,
    /// What is refused of them, if anything is.
    pub fault: Option<Refusal>,
}

/// How items of octets end.
#[derive(Clone, Copy, PartialEq, Eq, Debug)]
pub enum End {
    /// Those that were looked for are whole.
    Whole,
    /// The octets end in one, or one is at fault.
    Cut,
}

/// Which octets are shown of a fault.
#[derive(Clone, Copy)]
pub struct Shown {
    /// The place from which octets before the one at fault are shown.
    pub from: u64,
    /// Whether the octet at fault is not shown.
    pub hides: bool,
}

/// What is listed so far.
#[derive(Drop)]
pub struct Listed {
    /// The records.
    pub text: TextBuffer,
    /// How many items they are.
    pub count: u64,
    /// Which octets are shown of a fault.
    pub shown: Shown,
}

impl Shown {
    /// Hides octets from a place on.
    fn hide(self, fault: Option<Refusal>, start: u64, size: u64) -> Shown
        requires small { start + size < 2 ^ 41 }
        ensures { result ≡ hide fault start size self }
    {
        let Some(refusal) = fault else {
            return self;
        };
        let place = u64::from(refusal.place);
        let end = start + size;
        let from = if start < place && size > 0 {
            end.min(place)
        } else {
            self.from
        };
        Shown {
            from,
            hides: self.hides || start <= place && place < end,
        }
    }
}

/// Appends what a line of an item lies in, and a blank.
fn put_via(text: &mut TextBuffer, layers: &[Layer]) -> Result<(), AllocError>
    ensures { OnOk result (text.new ≡ text.old ++ via_text layers.now) }
{
    let Some((first, others)) = layers.split_first() else {
        return Ok(());
    };
    text.push_str("via=")?;
    text.push_str(first.name())?;
    put_other_names(text, others)?;
    text.push_str(" ")
}

/// Appends a comma and the name of a layer, for each of the layers.
fn put_other_names(text: &mut TextBuffer, layers: &[Layer]) -> Result<(), AllocError>
    ensures { OnOk result (text.new ≡ text.old ++ flat_map (λ layer. codes "," ++ layer_name layer) layers.now) }
{
    for layer in layers {
        text.push_str(",")?;
        text.push_str(layer.name())?;
    }
    Ok(())
}

/// Appends what precedes the place of an item.
#[tactic(auto, unfolding(crate::specs::Records::before_place))]
fn put_before_place(
    text: &mut TextBuffer,
    form: Form,
    layers: &[Layer],
    kind: &str,
) -> Result<(), AllocError>
    ensures { OnOk result (text.new ≡ text.old ++ before_place form layers.now kind.now) }
{
    match form.base() {
        Some(Base::Lines | Base::NamedLines) => put_via(text, layers),
        Some(Base::Json) | None => {
            let origin = MessageOrigin { line: None, layers };
            put_message_opening(text, form, &origin, kind)
        }
    }
}

/// Appends what follows the place of an item.
#[tactic(auto, unfolding(crate::specs::Records::after_place))]
fn put_after_place(text: &mut TextBuffer, form: Form, kind: &str) -> Result<(), AllocError>
    ensures { OnOk result (text.new ≡ text.old ++ after_place form kind.now) }
{
    match form.base() {
        Some(Base::Lines | Base::NamedLines) => {
            text.push_str(" ")?;
            text.push_str(kind)
        }
        Some(Base::Json) | None => Ok(()),
    }
}

/// Appends where an item is, and its heads.
#[tactic(auto, unfolding(crate::specs::Records::heads_text))]
fn put_heads(text: &mut TextBuffer, form: Form, begun: &Begun<'_>) -> Result<(), AllocError>
    ensures { OnOk result (text.new ≡ text.old ++ heads_text form (begun_of begun.now)) }
{
    put_field!(text, form, first "at": &begun.at)?;
    put_field!(text, form, "depth": &begun.depth)?;
    put_head_octets(text, form, begun)
}

/// Appends the octets of each head of an item.
fn put_head_octets(text: &mut TextBuffer, form: Form, begun: &Begun<'_>) -> Result<(), AllocError>
    ensures { OnOk result (text.new ≡ text.old ++ words_field form (codes "heads") hex (begun_of begun.now).heads) }
{
    put_words(text, form, " heads=", ",\"heads", begun.heads.as_slice())
}

/// Appends where the contents of an item are.
#[tactic(auto, unfolding(crate::specs::Records::contents_text))]
fn put_contents(text: &mut TextBuffer, form: Form, begun: &Begun<'_>) -> Result<(), AllocError>
    ensures { OnOk result (text.new ≡ text.old ++ contents_text form (begun_of begun.now)) }
{
    let contents = begun.contents_place();
    put_field!(text, form, "contents": &contents)?;
    put_field!(text, form, "length": &begun.size)
}

/// Appends the types of an item.
fn put_types(text: &mut TextBuffer, form: Form, begun: &Begun<'_>) -> Result<(), AllocError>
    ensures { OnOk result (text.new ≡ text.old ++ words_field form (codes "type") tag_word (begun_of begun.now).tags) }
{
    put_words(text, form, " type=", ",\"type", begun.tags.as_slice())
}

/// Appends the value of an INTEGER, if it has five octets at most.
fn put_number(
    text: &mut TextBuffer,
    form: Form,
    leaf: Leaf,
    contents: &[u8],
) -> Result<(), AllocError>
    requires { length contents.now ≤ 5 }
    ensures { OnOk result (text.new ≡ text.old ++ field form (codes "value") (number_value leaf (value_of_octets contents.now))) }
{
    let number = integer_value(contents);
    match leaf {
        Leaf::Numbered(registry) => {
            put_field!(text, form, "value": &Numbered { registry, number })
        }
        Leaf::ErrorCode => put_field!(text, form, "value": &ErrorCode(number)),
        _ => put_field!(text, form, "value": &number),
    }
}

/// Appends the value of an OBJECT IDENTIFIER: its numbers, or its contents if one has more than 64
/// bits.
fn put_identifier(
    alloc: Global,
    text: &mut TextBuffer,
    form: Form,
    contents: &[u8],
) -> Result<(), AllocError>
    ensures { OnOk result (text.new ≡ text.old ++ field form (codes "value") (identifier_in contents.now)) }
{
    match numbers_in(alloc, contents)? {
        None => put_field!(text, form, "value": &HexText(contents)),
        Some(numbers) => {
            let shown = dotted(alloc, numbers.as_slice())?;
            put_field!(text, form, "value": &Text(shown.as_bytes()))
        }
    }
}

/// Appends the value of an item that holds none.
fn put_value(
    alloc: Global,
    text: &mut TextBuffer,
    form: Form,
    leaf: Leaf,
    contents: &[u8],
) -> Result<(), AllocError>
    ensures { OnOk result (text.new ≡ text.old ++ field form (codes "value") (leaf_value leaf contents.now)) }
{
    match leaf {
        Leaf::Number | Leaf::Numbered(_) | Leaf::ErrorCode => if contents.len() > 5 {
            put_field!(text, form, "value": &ABSENT)
        } else {
            put_number(text, form, leaf, contents)
        },
        Leaf::Flags(registry) => {
            let [unused, octets @ ..] = contents else {
                return put_field!(text, form, "value": &ABSENT);
            };
            let unused = *unused;
            put_field!(text, form, "value": &FlagBits { registry, unused, octets })
        }
        Leaf::Text => put_field!(text, form, "value": &QuotedText(contents)),
        Leaf::Time => put_field!(text, form, "value": &Text(contents)),
        Leaf::Octets => put_field!(text, form, "value": &HexText(contents)),
        Leaf::Truth => {
            let [octet, ..] = contents else {
                return put_field!(text, form, "value": &ABSENT);
            };
            put_field!(text, form, "value": &(*octet > 0))
        }
        Leaf::Identifier => put_identifier(alloc, text, form, contents),
        Leaf::Counted(size) => put_field!(text, form, "value": &size),
        Leaf::Hidden | Leaf::Opened | Leaf::Holder(_) =>
            put_field!(text, form, "value": &(contents.len() as u64)),
    }
}

/// An item that is whole.
#[derive(Clone, Copy)]
pub struct Item<'n, 'a> {
    pub name: &'n str,
    pub begun: &'n Begun<'a>,
    /// What holds no items, and its contents octets.
    pub shown: Option<(Leaf, &'a [u8])>,
}

/// Appends the value of an item.
fn put_item_value(
    alloc: Global,
    text: &mut TextBuffer,
    form: Form,
    shown: Option<(Leaf, &[u8])>,
) -> Result<(), AllocError>
    ensures { OnOk result (text.new ≡ text.old ++ field form (codes "value") (item_value (option_map (λ leaf. (leaf.0, leaf.1.now)) shown.entry))) }
{
    match shown {
        None => put_field!(text, form, "value": &ABSENT),
        Some((leaf, contents)) => put_value(alloc, text, form, leaf, contents),
    }
}

/// Returns whether contents are counted and not shown.
fn is_hidden(shown: Option<(Leaf, &[u8])>) -> bool
    ensures { result ≡ is_hidden (option_map (λ leaf. (leaf.0, leaf.1.now)) shown.entry) }
{
    match shown {
        None => false,
        Some((leaf, _)) => leaf.is_counted(),
    }
}

impl Leaf {
    /// Returns whether octets of it are counted and not shown.
    pub(crate) fn is_counted(self) -> bool
        ensures { result ≡ is_counted self }
    {
        matches!(self, Leaf::Hidden)
    }
}

impl<'a> Source<'a> {
    /// Appends what precedes the name of an item.
    fn put_origin(
        self,
        text: &mut TextBuffer,
        kind: &str,
        begun: &Begun<'_>,
    ) -> Result<(), AllocError>
        ensures { OnOk result (text.new ≡ text.old ++ origin_text (context_of self.entry) kind.now (begun_of begun.now)) }
    {
        text.push_str(self.begin)?;
        put_before_place(text, self.form, begun.layers, kind)?;
        put_heads(text, self.form, begun)?;
        put_contents(text, self.form, begun)?;
        put_after_place(text, self.form, kind)
    }

    /// Appends what follows the fields of a record.
    fn put_last(self, text: &mut TextBuffer) -> Result<(), AllocError>
        ensures { OnOk result (text.new ≡ text.old ++ ending (context_of self.entry)) }
    {
        text.push_str(self.last)?;
        put_end(text, self.form)
    }

    /// Appends the record of an item.
    #[tactic(auto, unfolding(crate::specs::Records::item_line))]
    fn put_item(self, text: &mut TextBuffer, item: Item<'_, '_>) -> Result<(), AllocError>
        ensures { OnOk result (text.new ≡ text.old ++ item_line (context_of self.entry) (item_of item.entry)) }
    {
        self.put_origin(text, "item", item.begun)?;
        put_field!(text, self.form, "name": &Text(item.name.as_bytes()))?;
        put_types(text, self.form, item.begun)?;
        put_item_value(self.alloc, text, self.form, item.shown)?;
        self.put_last(text)
    }

    /// Returns what is shown of a fault, where contents of an item may be counted.
    fn hidden_if(self, counted: bool, begun: &Begun<'_>, shown: Shown) -> Shown
        requires { IsNear begun.now }
        ensures { result ≡ hide_if counted self.entry.fault (begun_of begun.now) shown }
    {
        if counted {
            shown.hide(self.fault, begun.next, begun.count())
        } else {
            shown
        }
    }

    /// Lists an item.
    pub(crate) fn list(self, out: &mut Listed, item: Item<'_, '_>) -> Result<(), AllocError>
        requires { IsNear item.begun.now }
        ensures { OnOk result (out.new ≡ listed_item (context_of self.entry) (item_of item.entry) out.old) }
    {
        self.put_item(&mut out.text, item)?;
        out.count = out.count.saturating_add(1);
        out.shown = self.hidden_if(is_hidden(item.shown), item.begun, out.shown);
        Ok(())
    }

    /// Lists what is at fault, if anything is.
    pub(crate) fn list_fault(
        self,
        out: &mut Listed,
        name: Option<&str>,
        begun: &Begun<'_>,
        counted: bool,
    ) -> Result<(), AllocError>
        requires { IsNear begun.now }
        ensures { OnOk result (out.new ≡ listed_fault (context_of self.entry) self.entry.fault (part_of (option_copied name.entry) begun.now counted) out.old) }
    {
        let Some(refusal) = self.fault else {
            return Ok(());
        };
        let shown = self.hidden_if(counted, begun, out.shown);
        self.put_fault(&mut out.text, refusal, shown, name, begun)
    }

    /// Appends the record of what is at fault.
    #[tactic(auto, unfolding(crate::specs::Records::fault_line))]
    fn put_fault(
        self,
        text: &mut TextBuffer,
        refusal: Refusal,
        shown: Shown,
        name: Option<&str>,
        begun: &Begun<'_>,
    ) -> Result<(), AllocError>
        ensures { OnOk result (text.new ≡ text.old ++ fault_line (context_of self.entry) refusal shown (option_copied name.entry) (begun_of begun.now)) }
    {
        let form = self.form;
        let place = u64::from(refusal.place);
        self.put_origin(text, "fault", begun)?;
        put_name(text, form, name)?;
        put_types(text, form, begun)?;
        put_field!(text, form, "place": &place)?;
        put_field!(text, form, "why": &Reason::of(refusal.why))?;
        put_octets(
            text,
            form,
            " octet=",
            ",\"octet",
            octet_at(self.octets, place, shown),
        )?;
        put_octets(
            text,
            form,
            " before=",
            ",\"before",
            before(self.octets, place, shown),
        )?;
        self.put_last(text)
    }
}

/// Appends the path of what is at fault, if it has one.
fn put_name(text: &mut TextBuffer, form: Form, name: Option<&str>) -> Result<(), AllocError>
    ensures { OnOk result (text.new ≡ text.old ++ field form (codes "name") (if_there Escaped (option_copied name.entry))) }
{
    let shown = match name {
        None => None,
        Some(name) => Some(Text(name.as_bytes())),
    };
    put_field!(text, form, "name": &shown)
}

/// Appends a field of octets, if there are any.
fn put_octets(
    text: &mut TextBuffer,
    form: Form,
    label: &str,
    begin: &str,
    octets: &[u8],
) -> Result<(), AllocError>
    ensures { OnOk result (text.new ≡ text.old ++ labelled form label.now begin.now (hex_if octets.now)) }
{
    if octets.is_empty() {
        krb_record::put_field(text, form, label, begin, &ABSENT)
    } else {
        krb_record::put_field(text, form, label, begin, &HexText(octets))
    }
}

/// Returns the octet at fault, if it is shown.
fn octet_at(octets: &[u8], place: u64, shown: Shown) -> &[u8]
    ensures { result.now ≡ octet_at_fault octets.now place shown }
{
    if shown.hides {
        &[]
    } else {
        front(from(octets, place), 1)
    }
}

/// Returns the octets right before the one at fault, as far as they are shown.
fn before(octets: &[u8], place: u64, shown: Shown) -> &[u8]
    ensures { result.now ≡ octets_before octets.now place shown }
{
    let start = shown.from.max(place.saturating_sub(16));
    front(from(octets, start), place.saturating_sub(start))
}
