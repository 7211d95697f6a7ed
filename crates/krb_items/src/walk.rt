//! The items of octets, listed in order.

ghost use Rattle.std.specs.Prelude.{◌≡◌, ◌+◌, ◌-◌, ◌*◌, ◌^◌, ◌<◌, ◌≤◌, Some, drop, length, map, IfOk, OnOk, string_bytes};
ghost use Rattle.std.specs.Option.{option_copied};
ghost use Rattle.krb_items.specs.Heads.{count_in};
ghost use Rattle.krb_items.specs.Items.{all_items, begins_as, container, contents_items, element_items, ended, field_items, held_items, hints_items, here_at, item_items, leaf_items, message_items, missing, named, passed, sequence_items, ticket_items, unknown};
ghost use Rattle.krb_items.specs.Names.{element_path, field_path};
ghost use Rattle.krb_items.specs.Records.{Lists, listed_item};
ghost use Rattle.krb_items.specs.Seen.{IsNear, begun_of, context_of, cut_of, here_of, limits_of};
ghost use Rattle.krb_items.specs.Shapes.{field_of, type_of};

use crate::begun::Begun;
use crate::head::{begins, count_of, from};
use crate::held::number_after;
use crate::listing::{End, Item, Listed, Source};
use crate::shape::{Field, Held, ItemType, Leaf, Sequence, Shape, message_type, ticket_type};
use crate::tag::Tag;
use itoa::Buffer;
use krb_msg::Kind;
use krb_source::Layer;
use std::alloc::{AllocError, Global};

/// How deep the items of a message nest at most.
pub(crate) const LEVELS: u8 = 16;

/// What the items that are left of a container have in common.
#[derive(Clone, Copy)]
pub struct Here<'n> {
    /// What they lie in.
    pub layers: &'static [Layer],
    /// Its path.
    pub name: &'n str,
    /// Where they begin.
    pub place: u64,
    /// In how many items they are.
    pub depth: u64,
    /// The last number before them in the container.
    pub number: Option<i64>,
}

/// What is left of a container.
#[derive(Clone, Copy)]
pub(crate) struct Rest<'a> {
    /// How many octets it may have.
    pub(crate) room: u64,
    /// Those that are there.
    pub(crate) octets: &'a [u8],
}

impl<'a> Source<'a> {
    /// Lists what is at fault.
    pub(crate) fn cut(
        self,
        out: &mut Listed,
        name: Option<&str>,
        begun: &Begun<'a>,
        counted: bool,
    ) -> Result<End, AllocError>
        requires { IsNear begun.now }
        ensures { IfOk result (Lists (context_of self.entry) (cut_of (option_copied name.entry) begun.now counted) out.old out.new) }
    {
        self.list_fault(out, name, begun, counted)?;
        Ok(End::Cut)
    }

    /// Lists that octets begin none of the items that may be there.
    pub(crate) fn unknown(
        self,
        out: &mut Listed,
        name: Option<&str>,
        here: Here<'_>,
        octets: &'a [u8],
    ) -> Result<End, AllocError>
        requires { here.place < 2 ^ 40 }
        ensures { IfOk result (Lists (context_of self.entry) (unknown (option_copied name.entry) (here_of here.entry) octets.now) out.old out.new) }
    {
        let mut begun = Begun::new(self.alloc, here);
        begun.add_unknown(octets)?;
        self.cut(out, name, &begun, false)
    }

    /// Ends a container: if it has room for more, what is there is no item of it.
    fn ended(self, out: &mut Listed, here: Here<'_>, rest: Rest<'a>) -> Result<End, AllocError>
        requires { here.place < 2 ^ 40 }
        ensures { IfOk result (Lists (context_of self.entry) (ended (here_of here.entry) rest.entry.room rest.entry.octets.now) out.old out.new) }
    {
        if rest.room == 0 {
            return Ok(End::Whole);
        }
        self.unknown(out, Some(here.name), here, rest.octets)
    }

    /// Lists that a field is missing.
    pub(crate) fn missing(
        self,
        out: &mut Listed,
        here: Here<'_>,
        name: &str,
    ) -> Result<End, AllocError>
        requires { here.place < 2 ^ 40 }
        ensures { IfOk result (Lists (context_of self.entry) (missing (here_of here.entry) name.now) out.old out.new) }
    {
        let path = field_name(self.alloc, here.name, name)?;
        let begun = Begun::new(self.alloc, here);
        self.cut(out, Some(path.as_str()), &begun, false)
    }

    /// Lists an item of a type that holds none, and what its octets are all of.
    #[cycle(items)]
    pub(crate) fn leaf(
        self,
        out: &mut Listed,
        levels: u8,
        here: Here<'_>,
        begun: &Begun<'a>,
        leaf: Leaf,
        octets: &'a [u8],
    ) -> Result<End, AllocError>
        requires begun { IsNear begun.now }
        requires near { begun.now.next + length octets.now < 2 ^ 40 }
        requires shallow { begun.now.depth + 3 * levels + 3 < 2 ^ 32 }
        ensures { IfOk result (Lists (context_of self.entry) (leaf_items (item_items levels (limits_of self.entry)) (limits_of self.entry) (here_of here.entry) (begun_of begun.now) leaf octets.now) out.old out.new) }
    {
        let seen = leaf.after(here.number);
        if begun.next + begun.count() > self.limit {
            return self.cut(out, Some(here.name), begun, seen.is_counted());
        }
        match leaf.opened(here.number, octets) {
            None => {
                let name = here.name;
                let shown = Some((seen, octets));
                self.list(out, Item { name, begun, shown })?;
                Ok(End::Whole)
            }
            Some(held) => self.opened(out, levels, here.name, begun, held, octets),
        }
    }

    /// Lists an OCTET STRING, and what it holds.
    #[cycle(items)]
    fn opened(
        self,
        out: &mut Listed,
        levels: u8,
        name: &str,
        begun: &Begun<'a>,
        held: Held,
        octets: &'a [u8],
    ) -> Result<End, AllocError>
        requires begun { IsNear begun.now }
        requires near { begun.now.next + length octets.now < 2 ^ 40 }
        requires shallow { begun.now.depth + 3 * levels + 3 < 2 ^ 32 }
        ensures { IfOk result (Lists (context_of self.entry) (held_items (item_items levels (limits_of self.entry)) name.now (begun_of begun.now) octets.now held) out.old out.new) }
    {
        let path = field_name(self.alloc, name, held.name())?;
        let shown = Some((Leaf::Opened, octets));
        self.list(out, Item { name, begun, shown })?;
        self.item(
            out,
            levels,
            begun.inside(path.as_str()),
            held.item(),
            octets,
        )
    }

    /// Lists an item of a type and what is in it.
    #[cycle(items)]
    pub(crate) fn item(
        self,
        out: &mut Listed,
        levels: u8,
        here: Here<'_>,
        of: ItemType,
        octets: &'a [u8],
    ) -> Result<End, AllocError>
        requires near { here.place + length octets.now < 2 ^ 40 }
        requires shallow { here.depth + 3 * levels < 2 ^ 32 }
        ensures { IfOk result (Lists (context_of self.entry) (item_items levels (limits_of self.entry) (here_of here.entry) (type_of of) octets.now) out.old out.new) }
    {
        if levels == 0 {
            return Ok(End::Whole);
        }
        let mut begun = Begun::new(self.alloc, here);
        match begun.read(self.limit, of.tags, octets)? {
            None => self.cut(out, Some(here.name), &begun, false),
            Some(contents) => self.contents(out, levels - 1, here, of.shape, begun, contents),
        }
    }

    /// Lists an item whose heads are right, and what is in it.
    #[cycle(items)]
    fn contents(
        self,
        out: &mut Listed,
        levels: u8,
        own: Here<'_>,
        shape: Shape,
        begun: Begun<'a>,
        octets: &'a [u8],
    ) -> Result<End, AllocError>
        requires begun { IsNear begun }
        requires near { begun.next + length octets.now < 2 ^ 40 }
        requires shallow { begun.depth + 3 * levels + 3 < 2 ^ 32 }
        ensures { IfOk result (Lists (context_of self.entry) (contents_items (item_items levels (limits_of self.entry)) (limits_of self.entry) (here_of own.entry) shape (begun_of begun.entry) octets.now) out.old out.new) }
    {
        match shape {
            Shape::Leaf(leaf) => self.leaf(out, levels, own, &begun, leaf, octets),
            Shape::Token => self.token(out, levels, own, &begun, octets),
            Shape::Hints => self.hints(out, levels, own, begun, octets),
            Shape::Sequence(sequence) => self.sequence(out, levels, own, sequence, &begun, octets),
            Shape::List(list) => {
                self.list_container(out, own.name, &begun)?;
                let rest = begun.rest(octets);
                self.elements(out, levels, begun.inside(own.name), list.item(), rest)
            }
        }
    }

    /// Lists an item that holds others.
    pub(crate) fn list_container(
        self,
        out: &mut Listed,
        name: &str,
        begun: &Begun<'a>,
    ) -> Result<(), AllocError>
        requires { IsNear begun.now }
        ensures { OnOk result (out.new ≡ listed_item (context_of self.entry) (container name.now (begun_of begun.now)) out.old) }
    {
        let shown = None;
        self.list(out, Item { name, begun, shown })
    }

    /// Lists a SEQUENCE whose heads are right, and what is in it.
    #[cycle(items)]
    fn sequence(
        self,
        out: &mut Listed,
        levels: u8,
        own: Here<'_>,
        sequence: Sequence,
        begun: &Begun<'a>,
        octets: &'a [u8],
    ) -> Result<End, AllocError>
        requires begun { IsNear begun.now }
        requires near { begun.now.next + length octets.now < 2 ^ 40 }
        requires shallow { begun.now.depth + 3 * levels + 3 < 2 ^ 32 }
        ensures { IfOk result (Lists (context_of self.entry) (sequence_items (item_items levels (limits_of self.entry)) (here_of own.entry) sequence (begun_of begun.now) octets.now) out.old out.new) }
    {
        self.list_container(out, own.name, begun)?;
        let rest = begun.rest(octets);
        self.fields(out, levels, begun.inside(own.name), sequence.fields(), rest)
    }

    /// Lists a NegHints, or else an OCTET STRING.
    #[cycle(items)]
    fn hints(
        self,
        out: &mut Listed,
        levels: u8,
        own: Here<'_>,
        begun: Begun<'a>,
        octets: &'a [u8],
    ) -> Result<End, AllocError>
        requires begun { IsNear begun }
        requires near { begun.next + length octets.now < 2 ^ 40 }
        requires shallow { begun.depth + 3 * levels + 3 < 2 ^ 32 }
        ensures { IfOk result (Lists (context_of self.entry) (hints_items (item_items levels (limits_of self.entry)) (limits_of self.entry) (here_of own.entry) (begun_of begun.entry) octets.now) out.old out.new) }
    {
        let mut begun = begun;
        let is_sequence = begins(octets, Tag::Sequence.octet());
        let tag = if is_sequence {
            Tag::Sequence
        } else {
            Tag::OctetString
        };
        let Some(contents) = begun.read(self.limit, &[tag], octets)? else {
            return self.cut(out, Some(own.name), &begun, false);
        };
        if is_sequence {
            self.sequence(out, levels, own, Sequence::NegHints, &begun, contents)
        } else {
            self.leaf(out, levels, own, &begun, Leaf::Hidden, contents)
        }
    }

    /// Lists the fields that are left of a SEQUENCE.
    #[cycle(items)]
    fn fields(
        self,
        out: &mut Listed,
        levels: u8,
        here: Here<'_>,
        fields: &[Field],
        rest: Rest<'a>,
    ) -> Result<End, AllocError>
        requires near { here.place + length rest.octets.now < 2 ^ 40 }
        requires shallow { here.depth + 3 * levels < 2 ^ 32 }
        ensures { IfOk result (Lists (context_of self.entry) (field_items (item_items levels (limits_of self.entry)) (here_of here.entry) (map field_of fields.now) rest.entry.room rest.entry.octets.now) out.old out.new) }
    {
        let [field, others @ ..] = fields else {
            return self.ended(out, here, rest);
        };
        if begin_as(field.of.tags, rest.octets) {
            let name = field_name(self.alloc, here.name, field.name)?;
            let own = here.named(name.as_str());
            return match self.item(out, levels, own, field.of, rest.octets)? {
                End::Cut => Ok(End::Cut),
                End::Whole => {
                    let count = count_of(rest.octets);
                    let number = number_after(field.of, rest.octets, here.number);
                    let next = here.after(count, number);
                    self.fields(out, levels, next, others, rest.after(count))
                }
            };
        }
        if rest.room == 0 {
            if field.required {
                return self.missing(out, here, field.name);
            }
            return self.fields(out, levels, here, others, rest);
        }
        if field.required {
            return self.ended(out, here, rest);
        }
        if rest.octets.is_empty() {
            return self.ended(out, here, rest);
        }
        self.fields(out, levels, here, others, rest)
    }

    /// Lists the items of a SEQUENCE OF.
    #[cycle(items)]
    fn elements(
        self,
        out: &mut Listed,
        levels: u8,
        here: Here<'_>,
        of: ItemType,
        contents: Rest<'a>,
    ) -> Result<End, AllocError>
        requires near { here.place + length contents.octets.now < 2 ^ 40 }
        requires shallow { here.depth + 3 * levels < 2 ^ 32 }
        ensures { IfOk result (Lists (context_of self.entry) (element_items (item_items levels (limits_of self.entry)) (type_of of) (length contents.entry.octets.now) 0 (here_of here.entry) contents.entry.room contents.entry.octets.now) out.old out.new) }
    {
        let mut next = here;
        let mut rest = contents;
        let mut index = 0;
        'elements: while index < contents.octets.len() && begin_as(of.tags, rest.octets) {
            let name = element_name(self.alloc, here.name, index)?;
            let own = next.named(name.as_str());
            let End::Whole = self.item(out, levels, own, of, rest.octets)? else {
                return Ok(End::Cut);
            };
            let count = count_of(rest.octets);
            next = next.after(count, next.number);
            rest = rest.after(count);
            index += 1;
        }
        self.ended(out, next, rest)
    }

    /// Lists a message.
    #[cycle(items)]
    pub(crate) fn message(
        self,
        out: &mut Listed,
        levels: u8,
        here: Here<'_>,
        octets: &'a [u8],
    ) -> Result<End, AllocError>
        requires near { here.place + length octets.now < 2 ^ 40 }
        requires shallow { here.depth + 3 * levels < 2 ^ 32 }
        ensures { IfOk result (Lists (context_of self.entry) (message_items (item_items levels (limits_of self.entry)) (here_of here.entry) octets.now) out.old out.new) }
    {
        let Some(first) = octets.first() else {
            return self.unknown(out, None, here, octets);
        };
        let Some(kind) = Kind::of_tag(*first) else {
            return self.unknown(out, None, here, octets);
        };
        let own = Here::new(here.layers, kind.name(), here.place, here.depth);
        self.item(out, levels, own, message_type(kind), octets)
    }

    /// Lists a message by itself or in a frame.
    pub(crate) fn list_message(
        self,
        out: &mut Listed,
        here: Here<'_>,
        octets: &'a [u8],
    ) -> Result<End, AllocError>
        requires near { here.place + length octets.now < 2 ^ 40 }
        requires shallow { here.depth < 2 ^ 31 }
        ensures { IfOk result (Lists (context_of self.entry) (message_items (all_items (limits_of self.entry)) (here_of here.entry) octets.now) out.old out.new) }
    {
        self.message(out, LEVELS, here, octets)
    }

    /// Lists a Ticket, of which the first octet is at place 0.
    pub(crate) fn list_ticket(self, out: &mut Listed, octets: &'a [u8]) -> Result<End, AllocError>
        requires { length octets.now < 2 ^ 40 }
        ensures { IfOk result (Lists (context_of self.entry) (ticket_items (limits_of self.entry) octets.now) out.old out.new) }
    {
        let here = Here::new(&[], "Ticket", 0, 0);
        self.item(out, LEVELS, here, ticket_type(), octets)
    }
}

impl<'n> Here<'n> {
    /// Returns where items begin of which none is before.
    pub(crate) fn new(layers: &'static [Layer], name: &'n str, place: u64, depth: u64) -> Here<'n>
        ensures { here_of result ≡ here_at layers.now name.now place depth }
    {
        Here {
            layers,
            name,
            place,
            depth,
            number: None,
        }
    }

    /// Returns the same with the path of an item.
    pub(crate) fn named<'p>(self, name: &'p str) -> Here<'p>
        ensures { here_of result ≡ named (here_of self.entry) name.entry.now }
    {
        Here {
            layers: self.layers,
            name,
            place: self.place,
            depth: self.depth,
            number: self.number,
        }
    }

    /// Returns what follows so many octets, after a number.
    pub(crate) fn after(self, count: u64, number: Option<i64>) -> Here<'n>
        requires { self.place + count < 2 ^ 40 }
        ensures { here_of result ≡ passed (here_of self.entry) count number }
    {
        Here {
            layers: self.layers,
            name: self.name,
            place: self.place + count,
            depth: self.depth,
            number,
        }
    }
}

impl<'a> Rest<'a> {
    /// Returns what follows so many octets.
    pub(crate) fn after(self, count: u64) -> Rest<'a>
        ensures room { result.room ≡ self.entry.room - count }
        ensures octets { result.octets.now ≡ drop count self.entry.octets.now }
    {
        Rest {
            room: self.room.saturating_sub(count),
            octets: from(self.octets, count),
        }
    }
}

/// Returns whether octets begin with the first of tags.
pub(crate) fn begin_as(tags: &[Tag], octets: &[u8]) -> bool
    ensures { result ≡ begins_as tags.now octets.now }
{
    match tags.first() {
        None => false,
        Some(tag) => begins(octets, tag.octet()),
    }
}

/// Returns the path of a field.
pub(crate) fn field_name(alloc: Global, path: &str, name: &str) -> Result<String, AllocError>
    ensures { IfOk result (λ text. string_bytes text ≡ field_path path.now name.now) }
{
    let mut text = String::new(alloc);
    text.push_str(path)?;
    text.push('.')?;
    text.push_str(name)?;
    Ok(text)
}

/// Returns the path of an item of a SEQUENCE OF.
fn element_name(alloc: Global, path: &str, index: usize) -> Result<String, AllocError>
    ensures { IfOk result (λ text. string_bytes text ≡ element_path path.now index) }
{
    let mut text = String::new(alloc);
    let mut buffer = Buffer::new();
    text.push_str(path)?;
    text.push('[')?;
    text.push_str(buffer.format(index))?;
    text.push(']')?;
    Ok(text)
}
