//! The pieces of a marked text.

ghost use Rattle.std.specs.Prelude.{◌≡◌, ◌+◌, ◌++◌, ◌≤◌, [], OnOk, drop, length, take};
ghost use Rattle.std.specs.List.{prefix_len};
ghost use Rattle.krb_choice.specs.Lanes.{first_set, is_text};
ghost use Rattle.krb_choice.specs.Marked.{pieces, unmarked, whole_text};

use std::alloc::AllocError;
use std::marker::Model;
use std::simd::Simd;

/// The marks, as octets.
pub(crate) const KIND: u8 = 0x01;

pub(crate) const FIELD: u8 = 0x02;

pub(crate) const CELL: u8 = 0x03;

pub(crate) const INSIDE: u8 = 0x04;

pub(crate) const ASIDE: u8 = 0x05;

pub(crate) const END: u8 = 0x06;

pub(crate) const OUTSIDE: u8 = 0x07;

/// A mark, and the text that follows it, up to the next mark.
#[derive(Drop)]
pub struct Piece<'a> {
    /// The mark, an octet below 20.
    pub mark: u8,
    /// The text that follows it.
    pub text: &'a [u8],
}

impl<'a> Model for Piece<'a> {
    ghost use Rattle.krb_choice.specs.Marked.{Piece};

    ghost Value = { Piece };

    ghost view = { λ piece. record { mark = piece.mark; text = piece.text.now } };
}

/// How many octets are looked at at once.
const MANY: usize = 16;

/// Returns the place of the lowest bit that is set, or how many octets are looked at.
#[inline(always)]
fn first_set(mask: u64) -> usize
    ensures { result ≡ first_set mask 16 }
{
    if mask == 0 {
        MANY
    } else {
        mask.trailing_zeros() as usize
    }
}

/// Returns how many octets from a place on come before a mark, of those that are looked at.
#[inline(always)]
fn count_text(text: &[u8], place: usize) -> usize
    requires { place + 16 ≤ length text.now }
    ensures { result ≡ prefix_len is_text (take 16 (drop place text.now)) }
{
    let marks = Simd::<u8, MANY>::from_slice(&text[place..]).simd_lt(Simd::splat(0x20));
    first_set(marks.to_bitmask())
}

/// Returns the place of the first mark of a text, or its end.
pub(crate) fn first_mark(text: &[u8]) -> usize
    ensures { result ≡ length (unmarked text.now) }
{
    let mut at = 0;
    'pieces: while MANY <= text.len() - at {
        let count = count_text(text, at);
        if count < MANY {
            return at + count;
        }
        at += MANY;
    }
    'octets: while at < text.len() && 0x20 <= text[at] {
        at += 1;
    }
    at
}

/// Splits a text before its first mark.
#[inline(always)]
fn split_mark(text: &[u8]) -> (&[u8], &[u8])
    ensures text { result.0.now ≡ unmarked text.now }
    ensures at_mark { unmarked result.1.now ≡ [] }
    ensures pieces { pieces result.1.now ≡ pieces text.now }
    ensures shorter { length result.1.now ≤ length text.now }
{
    text.split_at(first_mark(text))
}

/// Appends the pieces of a text.
pub(crate) fn put_pieces<'a>(text: &'a [u8], found: &mut Vec<Piece<'a>>) -> Result<(), AllocError>
    ensures { OnOk result (found.new.items ≡ found.old.items ++ pieces text.now) }
{
    let (_, mut others) = split_mark(text);
    'pieces: while let Some((mark, after)) = others.split_first() {
        let (piece, rest) = split_mark(after);
        found.push(Piece {
            mark: *mark,
            text: piece,
        })?;
        others = rest;
    }
    Ok(())
}

/// Appends a marked record without its marks.
pub fn put_whole(text: &[u8], out: &mut Vec<u8>) -> Result<(), AllocError>
    ensures { OnOk result (out.new.items ≡ out.old.items ++ whole_text text.now) }
{
    let (first, mut others) = split_mark(text);
    out.extend_from_slice(first)?;
    'pieces: while let Some((mark, after)) = others.split_first() {
        let (piece, rest) = split_mark(after);
        if *mark == END {
            out.extend_from_slice(piece)?;
        }
        others = rest;
    }
    out.extend_from_slice(b"\n")
}
