//! The layers of tokens, as items: GSS-API (RFC 2743, 3.1; RFC 4121, 4.1) and SPNEGO (RFC 4178, 4.2).

ghost use Rattle.std.specs.Prelude.{◌≡◌, ◌+◌, ◌*◌, ◌^◌, ◌<◌, length, IfOk};
ghost use Rattle.std.specs.Option.{option_copied};
ghost use Rattle.krb_items.specs.Items.{gss_in, gss_items, identified_items, identified_message, is_gone_into, item_items, kerberos_items, kerberos_message, left_out, may_be_ntlm, mechanism_items, not_identified, spnego_in_gss, spnego_items, token_in, token_items, token_message};
ghost use Rattle.krb_items.specs.Records.{Lists};
ghost use Rattle.krb_items.specs.Seen.{IsNear, begun_of, context_of, here_of, limits_of};

use crate::begun::Begun;
use crate::head::{begins, count_of, front};
use crate::held::contents_in;
use crate::listing::{End, Item, Listed, Source};
use crate::shape::{Leaf, NegToken, identifier_type};
use crate::tag::Tag;
use crate::walk::{Here, Rest, field_name};
use krb_der::{Refusal, Why};
use krb_source::Layer;
use std::alloc::AllocError;

/// The identifier of SPNEGO (RFC 4178, 4).
pub(crate) const NEGOTIATION: [u8; 6] = [0x2B, 0x06, 0x01, 0x05, 0x05, 0x02];

/// What each message of NTLM begins with (MS-NLMP, 2.2.1).
const NTLM: [u8; 8] = [0x4E, 0x54, 0x4C, 0x4D, 0x53, 0x53, 0x50, 0x00];

/// What a GSS-API token lies in that is in a token of SPNEGO in these layers.
fn gss_in(layers: &[Layer]) -> &'static [Layer]
    ensures { result.now ≡ gss_in layers.now }
{
    match layers.first() {
        Some(Layer::Gss) => &[Layer::Gss, Layer::Spnego, Layer::Gss],
        _ => &[Layer::Spnego, Layer::Gss],
    }
}

/// Returns whether octets of so many are of a message of NTLM, or may yet be.
pub(crate) fn may_be_ntlm(size: u64, octets: &[u8]) -> bool
    ensures { result ≡ may_be_ntlm size octets.now }
{
    octets.starts_with(&NTLM) || (octets.len() as u64) < size && NTLM.starts_with(octets)
}

/// Returns whether a token of so many octets, from a place on, is gone into: if it was cut unless it may
/// be one of NTLM, and if an octet is refused unless that is after it.
fn is_gone_into(fault: Option<Refusal>, next: u64, size: u64, octets: &[u8]) -> bool
    requires { next + size < 2 ^ 64 }
    ensures { result ≡ is_gone_into fault next size octets.now }
{
    match fault {
        None => true,
        Some(refusal) => match refusal.why {
            Why::Truncated => !may_be_ntlm(size, octets),
            _ => u64::from(refusal.place) < next + size,
        },
    }
}

impl<'a> Source<'a> {
    /// Lists a message in a token, of which the first octet may not be allowed there.
    #[cycle(items)]
    fn token_message(
        self,
        out: &mut Listed,
        levels: u8,
        name: Option<&str>,
        here: Here<'_>,
        octets: &'a [u8],
    ) -> Result<End, AllocError>
        requires near { here.place + length octets.now < 2 ^ 40 }
        requires shallow { here.depth + 3 * levels < 2 ^ 32 }
        ensures { IfOk result (Lists (context_of self.entry) (token_message (item_items levels (limits_of self.entry)) (limits_of self.entry) (option_copied name.entry) (here_of here.entry) octets.now) out.old out.new) }
    {
        if here.place < self.limit {
            self.message(out, levels, here, octets)
        } else {
            self.unknown(out, name, here, octets)
        }
    }

    /// Lists the message of a token of Kerberos. Where the room ends it is missing.
    #[cycle(items)]
    fn kerberos_message(
        self,
        out: &mut Listed,
        levels: u8,
        here: Here<'_>,
        rest: Rest<'a>,
    ) -> Result<End, AllocError>
        requires near { here.place + length rest.octets.now < 2 ^ 40 }
        requires shallow { here.depth + 3 * levels < 2 ^ 32 }
        ensures { IfOk result (Lists (context_of self.entry) (kerberos_message (item_items levels (limits_of self.entry)) (limits_of self.entry) (here_of here.entry) rest.entry.room rest.entry.octets.now) out.old out.new) }
    {
        if rest.room == 0 {
            return self.missing(out, here, "message");
        }
        if rest.octets.is_empty() {
            return self.unknown(out, Some(here.name), here, rest.octets);
        }
        self.token_message(out, levels, None, here, rest.octets)
    }

    /// Lists two octets that say which message follows, and that message.
    #[cycle(items)]
    fn identified_message(
        self,
        out: &mut Listed,
        levels: u8,
        here: Here<'_>,
        rest: Rest<'a>,
    ) -> Result<End, AllocError>
        requires near { here.place + length rest.octets.now < 2 ^ 40 }
        requires shallow { here.depth + 3 * levels < 2 ^ 32 }
        ensures { IfOk result (Lists (context_of self.entry) (identified_message (item_items levels (limits_of self.entry)) (limits_of self.entry) (here_of here.entry) rest.entry.room rest.entry.octets.now) out.old out.new) }
    {
        let octets = rest.octets;
        if front(octets, self.limit.saturating_sub(here.place)).len() < 2 {
            return self.missing(out, here, "token-id");
        }
        let name = field_name(self.alloc, here.name, "token-id")?;
        let mut begun = Begun::new(self.alloc, here);
        begun.add_octets(Tag::Octets, 2)?;
        let item = Item {
            name: name.as_str(),
            begun: &begun,
            shown: Some((Leaf::Octets, front(octets, 2))),
        };
        self.list(out, item)?;
        self.kerberos_message(out, levels, here.after(2, None), rest.after(2))
    }

    /// Lists what follows the identifier of Kerberos.
    #[cycle(items)]
    fn kerberos(
        self,
        out: &mut Listed,
        levels: u8,
        here: Here<'_>,
        rest: Rest<'a>,
    ) -> Result<End, AllocError>
        requires near { here.place + length rest.octets.now < 2 ^ 40 }
        requires shallow { here.depth + 3 * levels < 2 ^ 32 }
        ensures { IfOk result (Lists (context_of self.entry) (kerberos_items (item_items levels (limits_of self.entry)) (limits_of self.entry) (here_of here.entry) rest.entry.room rest.entry.octets.now) out.old out.new) }
    {
        if rest.room > 0 && rest.octets.is_empty() {
            self.unknown(out, Some(here.name), here, rest.octets)
        } else {
            self.identified_message(out, levels, here, rest)
        }
    }

    /// Lists a token of SPNEGO. All of it is right, but something is refused, if its token is left out.
    #[cycle(items)]
    pub(crate) fn spnego(
        self,
        out: &mut Listed,
        levels: u8,
        neg: NegToken,
        here: Here<'_>,
        octets: &'a [u8],
    ) -> Result<End, AllocError>
        requires near { here.place + length octets.now < 2 ^ 40 }
        requires shallow { here.depth + 3 * levels < 2 ^ 32 }
        ensures { IfOk result (Lists (context_of self.entry) (spnego_items (item_items levels (limits_of self.entry)) (limits_of self.entry) neg (here_of here.entry) octets.now) out.old out.new) }
    {
        let End::Whole = self.item(out, levels, here, neg.item(), octets)? else {
            return Ok(End::Cut);
        };
        let end = Here::new(
            here.layers,
            here.name,
            here.place + count_of(octets),
            here.depth + 1,
        );
        self.left_out(out, neg, end)
    }

    /// Lists that the token of a token of SPNEGO is left out, if something is refused.
    fn left_out(self, out: &mut Listed, neg: NegToken, here: Here<'_>) -> Result<End, AllocError>
        requires { here.place < 2 ^ 40 }
        ensures { IfOk result (Lists (context_of self.entry) (left_out self.entry.fault neg (here_of here.entry)) out.old out.new) }
    {
        match self.fault {
            None => Ok(End::Whole),
            Some(_) => self.missing(out, here, neg.field()),
        }
    }

    /// Lists a first token of SPNEGO in one of GSS-API. Where the room ends it is missing.
    #[cycle(items)]
    fn spnego_in_gss(
        self,
        out: &mut Listed,
        levels: u8,
        here: Here<'_>,
        rest: Rest<'a>,
    ) -> Result<End, AllocError>
        requires near { here.place + length rest.octets.now < 2 ^ 40 }
        requires shallow { here.depth + 3 * levels < 2 ^ 32 }
        ensures { IfOk result (Lists (context_of self.entry) (spnego_in_gss (item_items levels (limits_of self.entry)) (limits_of self.entry) (here_of here.entry) rest.entry.room rest.entry.octets.now) out.old out.new) }
    {
        if rest.room == 0 {
            let begun = Begun::new(self.alloc, here);
            return self.cut(out, Some("SPNEGO"), &begun, false);
        }
        if rest.octets.is_empty() {
            return self.unknown(out, Some(here.name), here, rest.octets);
        }
        let layers = &[Layer::Gss, Layer::Spnego];
        let own = Here::new(layers, "SPNEGO", here.place, here.depth);
        if here.place < self.limit {
            self.spnego(out, levels, NegToken::Init, own, rest.octets)
        } else {
            self.unknown(out, None, own, rest.octets)
        }
    }

    /// Lists what follows the identifier of a mechanism.
    #[cycle(items)]
    fn mechanism(
        self,
        out: &mut Listed,
        levels: u8,
        here: Here<'_>,
        identifier: &'a [u8],
        rest: Rest<'a>,
    ) -> Result<End, AllocError>
        requires near { here.place + length rest.octets.now < 2 ^ 40 }
        requires shallow { here.depth + 3 * levels < 2 ^ 32 }
        ensures { IfOk result (Lists (context_of self.entry) (mechanism_items (item_items levels (limits_of self.entry)) (limits_of self.entry) (here_of here.entry) identifier.now rest.entry.room rest.entry.octets.now) out.old out.new) }
    {
        if identifier == NEGOTIATION.as_slice() {
            self.spnego_in_gss(out, levels, here, rest)
        } else {
            self.kerberos(out, levels, here, rest)
        }
    }

    /// Lists that no identifier of a mechanism is there. Where the room ends it is missing.
    fn not_identified(
        self,
        out: &mut Listed,
        here: Here<'_>,
        rest: Rest<'a>,
    ) -> Result<End, AllocError>
        requires { here.place < 2 ^ 40 }
        ensures { IfOk result (Lists (context_of self.entry) (not_identified (here_of here.entry) rest.entry.room rest.entry.octets.now) out.old out.new) }
    {
        if rest.room == 0 {
            self.missing(out, here, "oid")
        } else {
            self.unknown(out, Some(here.name), here, rest.octets)
        }
    }

    /// Lists the identifier of a mechanism, and what follows it.
    #[cycle(items)]
    fn identified(
        self,
        out: &mut Listed,
        levels: u8,
        here: Here<'_>,
        rest: Rest<'a>,
    ) -> Result<End, AllocError>
        requires near { here.place + length rest.octets.now < 2 ^ 40 }
        requires shallow { here.depth + 3 * levels < 2 ^ 32 }
        ensures { IfOk result (Lists (context_of self.entry) (identified_items (item_items levels (limits_of self.entry)) (limits_of self.entry) (here_of here.entry) rest.entry.room rest.entry.octets.now) out.old out.new) }
    {
        let octets = rest.octets;
        if !begins(octets, Tag::ObjectIdentifier.octet()) {
            return self.not_identified(out, here, rest);
        }
        let of = identifier_type();
        let name = field_name(self.alloc, here.name, "oid")?;
        let own = here.named(name.as_str());
        let End::Whole = self.item(out, levels, own, of, octets)? else {
            return Ok(End::Cut);
        };
        let count = count_of(octets);
        let identifier = contents_in(of.tags, octets);
        let next = here.after(count, None);
        self.mechanism(out, levels, next, identifier, rest.after(count))
    }

    /// Lists a GSS-API token.
    #[cycle(items)]
    pub(crate) fn gss(
        self,
        out: &mut Listed,
        levels: u8,
        here: Here<'_>,
        octets: &'a [u8],
    ) -> Result<End, AllocError>
        requires near { here.place + length octets.now < 2 ^ 40 }
        requires shallow { here.depth + 3 * levels + 2 < 2 ^ 32 }
        ensures { IfOk result (Lists (context_of self.entry) (gss_items (item_items levels (limits_of self.entry)) (limits_of self.entry) (here_of here.entry) octets.now) out.old out.new) }
    {
        let mut begun = Begun::new(self.alloc, here);
        let Some(contents) = begun.read(self.limit, &[Tag::Application(0)], octets)? else {
            return self.cut(out, Some(here.name), &begun, false);
        };
        self.list_container(out, here.name, &begun)?;
        let rest = begun.rest(contents);
        self.identified(out, levels, begun.inside(here.name), rest)
    }

    /// Lists the token in one of SPNEGO: one of GSS-API, or a message by itself.
    #[cycle(items)]
    fn token_in(
        self,
        out: &mut Listed,
        levels: u8,
        here: Here<'_>,
        octets: &'a [u8],
    ) -> Result<End, AllocError>
        requires near { here.place + length octets.now < 2 ^ 40 }
        requires shallow { here.depth + 3 * levels + 2 < 2 ^ 32 }
        ensures { IfOk result (Lists (context_of self.entry) (token_in (item_items levels (limits_of self.entry)) (limits_of self.entry) (here_of here.entry) octets.now) out.old out.new) }
    {
        if octets.is_empty() {
            return self.unknown(out, Some(here.name), here, octets);
        }
        if begins(octets, 0x60) {
            let own = Here::new(gss_in(here.layers), "GSS", here.place, here.depth);
            return self.gss(out, levels, own, octets);
        }
        self.token_message(out, levels, Some(here.name), here, octets)
    }

    /// Lists an OCTET STRING with a token, and the token, if it is gone into.
    #[cycle(items)]
    pub(crate) fn token(
        self,
        out: &mut Listed,
        levels: u8,
        here: Here<'_>,
        begun: &Begun<'a>,
        octets: &'a [u8],
    ) -> Result<End, AllocError>
        requires begun { IsNear begun.now }
        requires near { begun.now.next + length octets.now < 2 ^ 40 }
        requires shallow { begun.now.depth + 3 * levels + 3 < 2 ^ 32 }
        ensures { IfOk result (Lists (context_of self.entry) (token_items (item_items levels (limits_of self.entry)) (limits_of self.entry) (here_of here.entry) (begun_of begun.now) octets.now) out.old out.new) }
    {
        if !is_gone_into(self.fault, begun.next, begun.count(), octets) {
            return self.leaf(out, levels, here, begun, Leaf::Hidden, octets);
        }
        let none: &[u8] = &[];
        let item = Item {
            name: here.name,
            begun,
            shown: Some((Leaf::Counted(begun.count()), none)),
        };
        self.list(out, item)?;
        self.token_in(out, levels, begun.inside(here.name), octets)
    }
}
