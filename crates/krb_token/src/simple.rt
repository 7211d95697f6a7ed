//! The types of SPNEGO's fields that hold no others.

ghost use Rattle.std.specs.Prelude.{◌≡◌, ◌+◌, ◌^◌, ◌<◌, true, pos, length, IfOk, IfSome, MatchResult, Ok, Err};
ghost use Rattle.krb_msg.specs.Judgement.{bits_contents, integer_contents};
ghost use Rattle.krb_token.specs.Items.{identifier_contents, refusal_in, simple_contents, simple_has_size, simple_item, simple_tag};
ghost use Rattle.krb_token.specs.Seen.{IsItemOf, IsShort, fault_of, item_of, part_of, path_text};

use crate::item::{Item, Part};
use crate::path::{TokenFault, TokenPath};
use krb_der::{Refusal, Why, last_or_zero};

/// A type that holds no other.
#[derive(Clone, Copy)]
pub enum Simple {
    /// An OBJECT IDENTIFIER.
    Identifier,
    /// A GeneralString.
    Text,
    /// A BIT STRING.
    Flags,
    /// An ENUMERATED from 0 to 3.
    State,
    /// An OCTET STRING.
    Octets,
}

impl Simple {
    /// Returns its identifier octet.
    pub(crate) fn tag(self) -> u8
        ensures { result ≡ simple_tag self }
    {
        match self {
            Simple::Identifier => 0x06,
            Simple::Text => 0x1B,
            Simple::Flags => 0x03,
            Simple::State => 0x0A,
            Simple::Octets => 0x04,
        }
    }

    /// Returns whether it has values of so many octets.
    fn has_size(self, size: usize) -> bool
        ensures { result ≡ simple_has_size self size }
    {
        match self {
            Simple::Identifier | Simple::Flags => size > 0,
            Simple::State => size == 1,
            Simple::Text | Simple::Octets => true,
        }
    }

    /// Returns which octet of contents is at fault, if one is.
    fn refusal(self, contents: &[u8]) -> Option<Refusal>
        requires size { simple_has_size self (length contents.now) ≡ true }
        requires short { length contents.now < 2 ^ 31 }
        ensures refusal { result ≡ refusal_in (simple_contents self contents.now) }
        ensures within { IfSome result (λ refusal. refusal.place < length contents.now) }
    {
        match self {
            Simple::Identifier => identifier_refusal(contents),
            Simple::Flags => flags_refusal(contents),
            Simple::State => state_refusal(contents),
            Simple::Text | Simple::Octets => None,
        }
    }

    /// Returns the item of this type with which a part begins, or what is at fault in it. The sole
    /// item fills the part.
    pub(crate) fn read<'a>(
        self,
        path: TokenPath,
        sole: bool,
        part: Part<'a>,
    ) -> Result<Item<'a>, TokenFault>
        requires { IsShort part }
        ensures item { MatchResult result (λ item. simple_item self (path_text path) sole (part_of part.entry) ≡ Ok (item_of item)) (λ fault. simple_item self (path_text path) sole (part_of part.entry) ≡ Err (fault_of fault)) }
        ensures within { IfOk result (λ item. IsItemOf part.entry item) }
    {
        let item = part.enter(path, self.tag(), sole)?;
        let contents = item.contents;
        if !self.has_size(contents.octets.len()) {
            return Err(path.fault(contents.place - 1, Why::Size));
        }
        match self.refusal(contents.octets) {
            Some(refusal) => Err(path.fault(contents.place + refusal.place, refusal.why)),
            None => Ok(item),
        }
    }
}

/// Returns which octet of an OBJECT IDENTIFIER's contents is at fault, if one is (X.690, 8.19.2).
fn identifier_refusal(contents: &[u8]) -> Option<Refusal>
    requires some { 0 < length contents.now }
    requires short { length contents.now < 2 ^ 31 }
    ensures refusal { result ≡ refusal_in (identifier_contents true 0 contents.now) }
    ensures within { IfSome result (λ refusal. refusal.place < length contents.now) }
{
    let mut begins = true;
    let mut place = 0;
    for octet in contents {
        if begins && *octet == 0x80 {
            return Some(refusal(place, Why::IntegerNotMinimal));
        }
        begins = *octet < 0x80;
        place += 1;
    }
    if begins {
        None
    } else {
        Some(refusal(place - 1, Why::Range))
    }
}

/// Returns which octet of a BIT STRING's contents is at fault, if one is (X.690, 8.6.2 and 11.2).
fn flags_refusal(contents: &[u8]) -> Option<Refusal>
    requires some { 0 < length contents.now }
    requires short { length contents.now < 2 ^ 31 }
    ensures refusal { result ≡ refusal_in (bits_contents 0 (length contents.now) contents.now) }
    ensures within { IfSome result (λ refusal. refusal.place < length contents.now) }
{
    let [unused, bits @ ..] = contents else {
        return None;
    };
    if *unused > 7 || bits.is_empty() && *unused > 0 {
        return Some(refusal(0, Why::Bits));
    }
    if last_or_zero(contents) % (1 << *unused) == 0 {
        None
    } else {
        Some(refusal(contents.len() as u32 - 1, Why::Bits))
    }
}

/// Returns which octet of the contents of an ENUMERATED from 0 to 3 is at fault, if one is (X.690,
/// 8.3 and 8.4).
fn state_refusal(contents: &[u8]) -> Option<Refusal>
    requires { length contents.now ≡ 1 }
    ensures refusal { result ≡ refusal_in (integer_contents (pos 0) (pos 3) (length contents.now) contents.now) }
    ensures within { IfSome result (λ refusal. refusal.place < length contents.now) }
{
    if contents[0] <= 3 {
        None
    } else {
        Some(refusal(0, Why::Range))
    }
}

/// Returns that an octet is at fault.
fn refusal(place: u32, why: Why) -> Refusal
    ensures place { result.place ≡ place }
    ensures why { result.why ≡ why }
{
    Refusal { place, why }
}
