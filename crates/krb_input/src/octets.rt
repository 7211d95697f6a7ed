//! Octets that are no text.

ghost use Rattle.std.specs.Prelude.{◌≡◌};
ghost use Rattle.std.specs.List.{list_all};
ghost use Rattle.krb_input.specs.Characters.{is_text};
ghost use Rattle.krb_input.specs.Octets.{begin_message, begins_with_all, first_no_text, is_marked, is_tag, ntlm, without_mark};

use crate::characters::is_text;

/// Returns whether EF BB BF is at the beginning of a text, as some editors write there (RFC 3629,
/// section 6).
pub(crate) fn is_marked(input: &[u8]) -> bool
    ensures { result ≡ is_marked input.now }
{
    match input {
        [first, second, third, ..] => *first == 0xEF && *second == 0xBB && *third == 0xBF,
        _ => false,
    }
}

/// Returns what follows EF BB BF at the beginning of a text, or all of it.
pub(crate) fn without_mark(input: &[u8]) -> &[u8]
    ensures { result.now ≡ without_mark input.now }
{
    if is_marked(input) { &input[3..] } else { input }
}

/// Returns whether all octets may stand in a text.
fn are_text(octets: &[u8]) -> bool
    ensures { result ≡ list_all is_text octets.now }
{
    let mut are = true;
    for octet in octets {
        are &= is_text(*octet);
    }
    are
}

/// Returns how many octets there are from the first on that is no text, if there is one.
#[tactic(auto, using(crate::proofs::Passes::no_other))]
pub(crate) fn first_no_text(text: &[u8]) -> Option<usize>
    ensures { result ≡ first_no_text text.now }
{
    if are_text(text) {
        return None;
    }
    let mut rest = text;
    while let [octet, others @ ..] = rest {
        if !is_text(*octet) {
            return Some(rest.len());
        }
        rest = others;
    }
    None
}

/// Returns whether an octet is the tag of a message, a Ticket or a token of GSS-API.
pub(crate) fn is_tag(octet: u8) -> bool
    ensures { result ≡ is_tag octet }
{
    octet == 0x60
        || octet == 0x61
        || 0x6A <= octet && octet <= 0x6F
        || 0x74 <= octet && octet <= 0x76
        || octet == 0x7E
}

/// Returns whether octets begin with those of NTLM.
fn is_ntlm(octets: &[u8]) -> bool
    ensures { result ≡ begins_with_all ntlm octets.now }
{
    matches!(octets, [0x4E, 0x54, 0x4C, 0x4D, 0x53, 0x53, 0x50, 0x00, ..])
}

/// Returns whether octets begin with one that is no text, or as a message or what one is in, or NTLM.
pub(crate) fn begin_message(octets: &[u8]) -> bool
    ensures { result ≡ begin_message octets.now }
{
    match octets {
        [first, ..] => !is_text(*first) || is_tag(*first) || is_ntlm(octets),
        [] => false,
    }
}
