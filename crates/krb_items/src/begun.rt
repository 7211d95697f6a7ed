//! An item as far as its heads are read.

ghost use Rattle.std.specs.Prelude.{◌≡◌, ◌+◌, ◌≤◌, ◌<◌, ◌^◌, length, None, OnOk, IfOk, IfSome};
ghost use Rattle.std.specs.Option.{option_map};
ghost use Rattle.krb_items.specs.Heads.{headed, size_of, with_head, with_octets, with_unknown};
ghost use Rattle.krb_items.specs.Items.{begun_here, here_in};
ghost use Rattle.krb_items.specs.Records.{contents_place};
ghost use Rattle.krb_items.specs.Seen.{IsNear, begun_of, headed_of, here_of};

use crate::head::{begins, front, part, read_head};
use crate::tag::Tag;
use crate::walk::{Here, Rest};
use krb_source::Layer;
use std::alloc::{AllocError, Global};

/// An item as far as its heads are read.
#[derive(Drop)]
pub struct Begun<'a> {
    /// What it lies in.
    pub layers: &'static [Layer],
    /// The place of its first octet.
    pub at: u64,
    /// In how many items it is.
    pub depth: u64,
    /// The place of the octet after the heads.
    pub next: u64,
    /// The octets of each head.
    pub heads: Vec<&'a [u8]>,
    /// The tag of each head, of those whose tag is right.
    pub tags: Vec<Tag>,
    /// How many octets the last head says its contents are, if it is all there.
    pub size: Option<u64>,
}

impl<'a> Begun<'a> {
    /// Returns an item of which no head is read.
    pub(crate) fn new(alloc: Global, here: Here<'_>) -> Begun<'a>
        ensures begun { begun_of result ≡ begun_here (here_of here.entry) }
        ensures next { result.next ≡ here.entry.place }
        ensures size { result.size ≡ None }
        ensures depth { result.depth ≡ here.entry.depth }
    {
        Begun {
            layers: here.layers,
            at: here.place,
            depth: here.depth,
            next: here.place,
            heads: Vec::new(alloc),
            tags: Vec::new(alloc),
            size: None,
        }
    }

    /// Adds a head whose tag is right.
    pub(crate) fn add(
        &mut self,
        tag: Tag,
        octets: &'a [u8],
        size: Option<u64>,
    ) -> Result<(), AllocError>
        requires near { self.old.next + length octets.now < 2 ^ 40 }
        requires small { IfSome size (λ size. size < 2 ^ 40) }
        ensures head { OnOk result (begun_of self.new ≡ with_head (begun_of self.old) tag octets.now size) }
        ensures near { OnOk result (IsNear self.new) }
        ensures next { OnOk result (self.new.next ≡ self.old.next + length octets.now) }
        ensures depth { OnOk result (self.new.depth ≡ self.old.depth) }
    {
        self.heads.push(octets)?;
        self.tags.push(tag)?;
        self.next += octets.len() as u64;
        self.size = size;
        Ok(())
    }

    /// Adds the octet that is there in place of a tag, if one is.
    pub(crate) fn add_unknown(&mut self, octets: &'a [u8]) -> Result<(), AllocError>
        requires { IsNear self.old }
        ensures unknown { OnOk result (begun_of self.new ≡ with_unknown (begun_of self.old) octets.now) }
        ensures near { OnOk result (IsNear self.new) }
        ensures depth { OnOk result (self.new.depth ≡ self.old.depth) }
    {
        if octets.is_empty() {
            return Ok(());
        }
        self.heads.push(front(octets, 1))?;
        self.size = None;
        Ok(())
    }

    /// Adds a tag of octets that have no head.
    pub(crate) fn add_octets(&mut self, tag: Tag, size: u64) -> Result<(), AllocError>
        requires near { self.old.next < 2 ^ 40 }
        requires small { size < 2 ^ 40 }
        ensures octets { OnOk result (begun_of self.new ≡ with_octets (begun_of self.old) tag size) }
        ensures near { OnOk result (IsNear self.new) }
        ensures depth { OnOk result (self.new.depth ≡ self.old.depth) }
    {
        self.tags.push(tag)?;
        self.size = Some(size);
        Ok(())
    }

    /// Reads heads with these tags, of which the first octets up to a place are right, and returns the
    /// contents that are there, if all of the heads are right.
    pub(crate) fn read(
        &mut self,
        limit: u64,
        tags: &[Tag],
        octets: &'a [u8],
    ) -> Result<Option<&'a [u8]>, AllocError>
        requires near { self.old.next + length octets.now < 2 ^ 40 }
        requires small { IfSome self.old.size (λ size. size < 2 ^ 40) }
        ensures headed { IfOk result (λ contents. headed limit (begun_of self.old) tags.now octets.now ≡ headed_of self.new (option_map (λ contents. contents.now) contents)) }
        ensures near { OnOk result (IsNear self.new) }
        ensures within { IfOk result (λ contents. IfSome contents (λ contents. self.new.next + length contents.now ≤ self.old.next + length octets.now)) }
        ensures depth { OnOk result (self.new.depth ≡ self.old.depth) }
    {
        let [tag, others @ ..] = tags else {
            return Ok(Some(octets));
        };
        if !begins(octets, tag.octet()) {
            self.add_unknown(octets)?;
            return Ok(None);
        }
        let Some(head) = read_head(octets) else {
            self.add(*tag, octets, None)?;
            return Ok(None);
        };
        self.add(*tag, front(octets, head.header), Some(head.size))?;
        if self.next > limit {
            return Ok(None);
        }
        self.read(limit, others, part(octets, head.header, head.size))
    }

    /// Returns where what is in it begins, with its path.
    pub(crate) fn inside<'n>(&self, name: &'n str) -> Here<'n>
        requires { self.now.depth < 2 ^ 32 }
        ensures { here_of result ≡ here_in name.now (begun_of self.now) }
    {
        Here::new(self.layers, name, self.next, self.depth + 1)
    }

    /// Returns what is in it, of which these octets are there.
    pub(crate) fn rest(&self, octets: &'a [u8]) -> Rest<'a>
        ensures room { result.room ≡ size_of self.now.size }
        ensures octets { result.octets.now ≡ octets.now }
    {
        Rest {
            room: self.count(),
            octets,
        }
    }

    /// Returns the place of the contents, if the last length is known.
    pub(crate) fn contents_place(&self) -> Option<u64>
        ensures { result ≡ contents_place (begun_of self.now) self.now.size }
    {
        match self.size {
            None => None,
            Some(_) => Some(self.next),
        }
    }

    /// Returns how many octets the last head says its contents are.
    pub(crate) fn count(&self) -> u64
        ensures { result ≡ size_of self.now.size }
    {
        match self.size {
            None => 0,
            Some(size) => size,
        }
    }
}
