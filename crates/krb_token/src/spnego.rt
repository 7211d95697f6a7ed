//! The tokens of SPNEGO, read up to the token of a mechanism in them (RFC 4178, 4.2).

ghost use Rattle.std.specs.Prelude.{◌≡◌, ◌+◌, ◌<◌, length, IfOk, IfSome, MatchResult, Ok, Err};
ghost use Rattle.krb_token.specs.Items.{simple_items};
ghost use Rattle.krb_token.specs.Seen.{IsShort, fault_of, fields_of, holds_of, part_of, token_of};
ghost use Rattle.krb_token.specs.Spnego.{fields_read, held, neg_read};

use crate::fields::{Field, Holds, NegToken, neg_hints};
use crate::item::Part;
use crate::path::{TokenFault, TokenPath};
use crate::simple::Simple;
use krb_der::Why;

/// The identifier octet of a SEQUENCE.
const SEQUENCE: u8 = 0x30;

/// Returns the token in a token of SPNEGO that a part is, or what is at fault in it. The token may
/// be left out.
pub(crate) fn read_token(neg: NegToken, part: Part<'_>) -> Result<Option<Part<'_>>, TokenFault>
    requires { IsShort part }
    ensures token { MatchResult result (λ token. neg_read neg (part_of part.entry) ≡ Ok (token_of token)) (λ fault. neg_read neg (part_of part.entry) ≡ Err (fault_of fault)) }
    ensures short { IfOk result (λ token. IfSome token IsShort) }
{
    let path = TokenPath::of("SPNEGO");
    let choice = part.enter(path, neg.tag(), true)?;
    let sequence = choice.contents.enter(path, SEQUENCE, true)?;
    read_fields(neg.fields(), "SPNEGO", None, sequence.contents)
}

/// Returns the token among the fields that a part is, or what is at fault in them. If none of them
/// is the token, it is the one that was read before.
#[cycle(fields)]
fn read_fields<'a>(
    fields: &[Field],
    path: &'static str,
    token: Option<Part<'a>>,
    part: Part<'a>,
) -> Result<Option<Part<'a>>, TokenFault>
    requires short { IsShort part }
    requires token { IfSome token IsShort }
    ensures token { MatchResult result (λ found. fields_read (fields_of fields.now) path.now (token_of token.entry) (part_of part.entry) ≡ Ok (token_of found)) (λ fault. fields_read (fields_of fields.now) path.now (token_of token.entry) (part_of part.entry) ≡ Err (fault_of fault)) }
    ensures short { IfOk result (λ found. IfSome found IsShort) }
{
    let mut found = token;
    let mut rest = part;
    for field in fields {
        if !rest.begins(field.tag) {
            continue;
        }
        let own = TokenPath::of(field.path);
        let item = rest.enter(own, field.tag, false)?;
        found = read_held(field.holds, field.path, found, item.contents)?;
        rest = item.rest;
    }
    if rest.octets.is_empty() {
        Ok(found)
    } else {
        Err(TokenPath::of(path).fault(rest.place, Why::Tag))
    }
}

/// Returns the token that a field holds, if it is the field's, or what is at fault in it.
#[cycle(fields)]
fn read_held<'a>(
    holds: Holds,
    path: &'static str,
    token: Option<Part<'a>>,
    part: Part<'a>,
) -> Result<Option<Part<'a>>, TokenFault>
    requires short { IsShort part }
    requires token { IfSome token IsShort }
    ensures token { MatchResult result (λ found. held (holds_of holds) path.now (token_of token.entry) (part_of part.entry) ≡ Ok (token_of found)) (λ fault. held (holds_of holds) path.now (token_of token.entry) (part_of part.entry) ≡ Err (fault_of fault)) }
    ensures short { IfOk result (λ found. IfSome found IsShort) }
{
    let own = TokenPath::of(path);
    match holds {
        Holds::One(simple) => {
            let _item = simple.read(own, true, part)?;
            Ok(token)
        }
        Holds::Many(simple) => {
            let list = part.enter(own, SEQUENCE, true)?;
            read_items(simple, path, list.contents)?;
            Ok(token)
        }
        Holds::Token => Ok(Some(Simple::Octets.read(own, true, part)?.contents)),
        Holds::OctetsOrHints if part.begins(SEQUENCE) => {
            let hints = part.enter(own, SEQUENCE, true)?;
            read_fields(neg_hints(), path, token, hints.contents)
        }
        Holds::OctetsOrHints => {
            let _item = Simple::Octets.read(own, true, part)?;
            Ok(token)
        }
    }
}

/// Reads the items of a type that a part is, or returns what is at fault in them.
fn read_items(simple: Simple, path: &'static str, part: Part<'_>) -> Result<(), TokenFault>
    requires { IsShort part }
    ensures { MatchResult result (λ _. simple_items simple path.now (length part.entry.octets.now) 0 (part_of part.entry) part.entry.octets.now ≡ Ok tt) (λ fault. simple_items simple path.now (length part.entry.octets.now) 0 (part_of part.entry) part.entry.octets.now ≡ Err (fault_of fault)) }
{
    let mut rest = part;
    let mut index = 0;
    'items: while !rest.octets.is_empty() {
        if !rest.begins(simple.tag()) {
            return Err(TokenPath::of(path).fault(rest.place, Why::Tag));
        }
        rest = simple.read(TokenPath::item(path, index), false, rest)?.rest;
        index += 1;
    }
    Ok(())
}
