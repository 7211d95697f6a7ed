//! The items of a token, all octets of which are there.

ghost use Rattle.std.specs.Prelude.{◌≡◌, ◌+◌, ◌<◌, ◌≤◌, length, IfOk, MatchResult, Ok, Err};
ghost use Rattle.krb_der.specs.Octets.{begins_with};
ghost use Rattle.krb_token.specs.Items.{entered, expected, item_after};
ghost use Rattle.krb_token.specs.Seen.{IsItemOf, IsShort, fault_of, item_of, part_of, path_text};

use crate::length::{Head, read_length};
use crate::path::{TokenFault, TokenPath};
use krb_der::Why;

/// Octets of a token, and the place of the first of them.
#[derive(Clone, Copy)]
pub(crate) struct Part<'a> {
    pub place: u32,
    pub octets: &'a [u8],
}

/// An item that was read: its contents, and what follows it.
#[derive(Clone, Copy)]
pub(crate) struct Item<'a> {
    pub contents: Part<'a>,
    pub rest: Part<'a>,
}

impl<'a> Part<'a> {
    /// Returns the item of a tag with which the octets begin, or what is at fault in it. The sole
    /// item fills them.
    pub(crate) fn enter(self, path: TokenPath, tag: u8, sole: bool) -> Result<Item<'a>, TokenFault>
        requires { IsShort self }
        ensures item { MatchResult result (λ item. entered (path_text path) tag sole (part_of self.entry) ≡ Ok (item_of item)) (λ fault. entered (path_text path) tag sole (part_of self.entry) ≡ Err (fault_of fault)) }
        ensures within { IfOk result (λ item. IsItemOf self.entry item) }
    {
        let [first, lengths @ ..] = self.octets else {
            return Err(path.fault(self.place.saturating_sub(1), Why::Missing));
        };
        if *first != tag {
            return Err(path.fault(self.place, Why::Tag));
        }
        let [octet, others @ ..] = lengths else {
            return Err(path.fault(self.place, Why::Overrun));
        };
        let room = self.octets.len() as u32;
        match read_length(room, *octet, others) {
            Ok(head) if sole && head.header + head.size < room => {
                Err(path.fault(self.place + (head.header - 1), Why::Loose))
            }
            Ok(head) => Ok(self.item_after(head)),
            Err(refusal) => Err(path.fault(self.place + refusal.place, refusal.why)),
        }
    }

    /// Returns the item of a head with which the octets begin.
    fn item_after(self, head: Head) -> Item<'a>
        requires short { IsShort self }
        requires fits { head.header + head.size ≤ length self.octets.now }
        requires some { 2 ≤ head.header }
        ensures item { item_of result ≡ item_after head.header head.size (part_of self.entry) }
        ensures within { IsItemOf self.entry result }
    {
        let (header_and_contents, rest) = self.octets.split_at((head.header + head.size) as usize);
        let (_, contents) = header_and_contents.split_at(head.header as usize);
        Item {
            contents: Part {
                place: self.place + head.header,
                octets: contents,
            },
            rest: Part {
                place: self.place + head.header + head.size,
                octets: rest,
            },
        }
    }

    /// Returns that something is at fault if the octets begin with another tag.
    pub(crate) fn expect(self, path: TokenPath, tag: u8) -> Result<(), TokenFault>
        ensures { MatchResult result (λ _. expected (path_text path) tag self.entry.place self.entry.octets.now ≡ Ok tt) (λ fault. expected (path_text path) tag self.entry.place self.entry.octets.now ≡ Err (fault_of fault)) }
    {
        let Some(first) = self.octets.first() else {
            return Ok(());
        };
        if *first != tag {
            return Err(path.fault(self.place, Why::Tag));
        }
        Ok(())
    }

    /// Returns whether the octets begin with a tag.
    pub(crate) fn begins(self, tag: u8) -> bool
        ensures { result ≡ begins_with tag self.entry.octets.now }
    {
        match self.octets {
            [first, ..] => *first == tag,
            [] => false,
        }
    }
}
