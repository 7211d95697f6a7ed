//! Values as records show them, appended to the text so far.

ghost use Rattle.std.specs.Prelude.{◌≡◌, ◌++◌, ℕ, pos, codes, OnOk};
ghost use Rattle.std.specs.Str.{IsAscii};
ghost use Rattle.krb_record.specs.Forms.{cell};
ghost use Rattle.krb_record.specs.Forms.{members, value_text};
ghost use Rattle.krb_record.specs.Values.{Value, Hex, Number, Quoted, String as Escaped, Word, YesNo, if_there};

use crate::cell::{put_hex_cell, put_no_cell, put_string_cell};
use crate::escape::{put_escaped, put_hex};
use crate::json::{put_octets_string, put_string};
use crate::path::Path;
use crate::text_buffer::TextBuffer;
use std::alloc::AllocError;
use std::marker::Model;

/// What records show of a value.
pub trait Shown {
    ghost shown: { Self → Value };

    /// Appends what a line shows of the value, with the names of numbers or without, or a part of
    /// it when out of memory.
    fn put_text(&self, line: &mut TextBuffer, names: bool) -> Result<(), AllocError>
        ensures { OnOk result (line.new ≡ line.old ++ value_text names (shown self.now)) };

    /// Appends the members of an object for the value: first that which `begin` and `":` begin, and
    /// then, if the value has names, that of the names. `begin` is `,"` and the name of the field.
    fn put_members(&self, object: &mut TextBuffer, begin: &str) -> Result<(), AllocError>
        ensures { OnOk result (object.new ≡ object.old ++ members begin.now (shown self.now)) };

    /// Appends the cell of the value, or of one of its members: `-` if it has no such member.
    fn put_cell(&self, text: &mut TextBuffer, path: Path) -> Result<(), AllocError>
        ensures { OnOk result (text.new ≡ text.old ++ cell path (shown self.now)) };
}

/// What is not there.
pub const ABSENT: Option<u64> = None;

/// Appends what precedes a value in an object.
#[inline(always)]
pub fn put_begin(object: &mut TextBuffer, begin: &str) -> Result<(), AllocError>
    ensures { OnOk result (object.new ≡ object.old ++ begin.now ++ codes "\":") }
{
    object.push_pair(begin, "\":")
}

/// Appends what precedes the names of a list in an object.
#[inline(always)]
pub fn put_names_begin(object: &mut TextBuffer, begin: &str) -> Result<(), AllocError>
    ensures { OnOk result (object.new ≡ object.old ++ begin.now ++ codes "_names\":") }
{
    object.push_pair(begin, "_names\":")
}

/// A number of no registry.
impl Shown for i64 {
    ghost shown = { λ number. Number number };

    #[tactic(auto, unfolding(crate::specs::Forms::value_text))]
    fn put_text(&self, line: &mut TextBuffer, _names: bool) -> Result<(), AllocError> {
        line.push_signed(*self)
    }

    #[inline(always)]
    #[tactic(auto, unfolding(crate::specs::Forms::members, crate::specs::Forms::json_value, crate::specs::Forms::names_member))]
    fn put_members(&self, object: &mut TextBuffer, begin: &str) -> Result<(), AllocError> {
        put_begin(object, begin)?;
        object.push_signed(*self)
    }

    #[tactic(auto, unfolding(crate::specs::Forms::cell))]
    fn put_cell(&self, text: &mut TextBuffer, path: Path) -> Result<(), AllocError> {
        match path {
            Path::Whole => text.push_signed(*self),
            _ => put_no_cell(text),
        }
    }
}

/// A number that is not negative, or how many there are.
impl Shown for u64 {
    ghost shown = { λ number. Number (pos number) };

    #[tactic(auto, unfolding(crate::specs::Forms::value_text))]
    fn put_text(&self, line: &mut TextBuffer, _names: bool) -> Result<(), AllocError> {
        line.push_number(*self)
    }

    #[inline(always)]
    #[tactic(auto, unfolding(crate::specs::Forms::members, crate::specs::Forms::json_value, crate::specs::Forms::names_member))]
    fn put_members(&self, object: &mut TextBuffer, begin: &str) -> Result<(), AllocError> {
        put_begin(object, begin)?;
        object.push_number(*self)
    }

    #[tactic(auto, unfolding(crate::specs::Forms::cell))]
    fn put_cell(&self, text: &mut TextBuffer, path: Path) -> Result<(), AllocError> {
        match path {
            Path::Whole => text.push_number(*self),
            _ => put_no_cell(text),
        }
    }
}

/// `yes` or `no` in a line.
impl Shown for bool {
    ghost shown = { λ holds. YesNo holds };

    #[tactic(auto, unfolding(crate::specs::Forms::value_text))]
    fn put_text(&self, line: &mut TextBuffer, _names: bool) -> Result<(), AllocError> {
        line.push_str(if *self { "yes" } else { "no" })
    }

    #[inline(always)]
    #[tactic(auto, unfolding(crate::specs::Forms::members, crate::specs::Forms::json_value, crate::specs::Forms::names_member))]
    fn put_members(&self, object: &mut TextBuffer, begin: &str) -> Result<(), AllocError> {
        put_begin(object, begin)?;
        object.push_str(if *self { "true" } else { "false" })
    }

    #[tactic(auto, unfolding(crate::specs::Forms::cell))]
    fn put_cell(&self, text: &mut TextBuffer, path: Path) -> Result<(), AllocError> {
        match path {
            Path::Whole => text.push_str(if *self { "true" } else { "false" }),
            _ => put_no_cell(text),
        }
    }
}

/// Octets, escaped.
#[derive(Clone, Copy)]
pub struct Text<'a>(pub &'a [u8]);

impl<'a> Shown for Text<'a> {
    ghost shown = { λ text. Escaped text.0.now };

    #[tactic(auto, unfolding(crate::specs::Forms::value_text))]
    fn put_text(&self, line: &mut TextBuffer, _names: bool) -> Result<(), AllocError> {
        put_escaped(line, self.0)
    }

    #[inline(always)]
    #[tactic(auto, unfolding(crate::specs::Forms::members, crate::specs::Forms::json_value, crate::specs::Forms::names_member))]
    fn put_members(&self, object: &mut TextBuffer, begin: &str) -> Result<(), AllocError> {
        put_begin(object, begin)?;
        put_octets_string(object, self.0)
    }

    #[tactic(auto, unfolding(crate::specs::Forms::cell))]
    fn put_cell(&self, text: &mut TextBuffer, path: Path) -> Result<(), AllocError> {
        match path {
            Path::Whole => put_string_cell(text, self.0),
            _ => put_no_cell(text),
        }
    }
}

/// Octets, escaped, which a line has between quotes.
#[derive(Clone, Copy)]
pub struct QuotedText<'a>(pub &'a [u8]);

impl<'a> Shown for QuotedText<'a> {
    ghost shown = { λ text. Quoted text.0.now };

    #[tactic(auto, unfolding(crate::specs::Forms::value_text))]
    fn put_text(&self, line: &mut TextBuffer, _names: bool) -> Result<(), AllocError> {
        line.push_sign("\"")?;
        put_escaped(line, self.0)?;
        line.push_sign("\"")
    }

    #[inline(always)]
    #[tactic(auto, unfolding(crate::specs::Forms::members, crate::specs::Forms::json_value, crate::specs::Forms::names_member))]
    fn put_members(&self, object: &mut TextBuffer, begin: &str) -> Result<(), AllocError> {
        put_begin(object, begin)?;
        put_octets_string(object, self.0)
    }

    #[tactic(auto, unfolding(crate::specs::Forms::cell))]
    fn put_cell(&self, text: &mut TextBuffer, path: Path) -> Result<(), AllocError> {
        match path {
            Path::Whole => put_string_cell(text, self.0),
            _ => put_no_cell(text),
        }
    }
}

/// Octets in hexadecimal, which an object has as a string.
#[derive(Clone, Copy)]
pub struct HexText<'a>(pub &'a [u8]);

impl<'a> Shown for HexText<'a> {
    ghost shown = { λ text. Hex text.0.now };

    #[tactic(auto, unfolding(crate::specs::Forms::value_text))]
    fn put_text(&self, line: &mut TextBuffer, _names: bool) -> Result<(), AllocError> {
        put_hex(line, self.0)
    }

    #[inline(always)]
    #[tactic(auto, unfolding(crate::specs::Forms::members, crate::specs::Forms::json_value, crate::specs::Forms::names_member))]
    fn put_members(&self, object: &mut TextBuffer, begin: &str) -> Result<(), AllocError> {
        put_begin(object, begin)?;
        object.push_str("\"")?;
        put_hex(object, self.0)?;
        object.push_str("\"")
    }

    #[tactic(auto, unfolding(crate::specs::Forms::cell))]
    fn put_cell(&self, text: &mut TextBuffer, path: Path) -> Result<(), AllocError> {
        match path {
            Path::Whole => put_hex_cell(text, self.0),
            _ => put_no_cell(text),
        }
    }
}

/// Words and times, which are ASCII and need no escape. Contracts see the octets.
#[derive(Drop)]
pub struct Plain<'a>(&'a [u8]);

impl<'a> Model for Plain<'a> {
    ghost use Rattle.std.specs.Prelude.{List, ℕ};
    ghost use Rattle.std.specs.Str.{IsAscii};

    ghost Value = { List ℕ };

    ghost view = { λ plain. plain.0.now };

    ghost invariant = { λ plain. IsAscii plain.0.now };
}

impl<'a> Plain<'a> {
    /// Takes octets of ASCII.
    #[inline(always)]
    pub fn new(octets: &'a [u8]) -> Plain<'a>
        requires { IsAscii octets.now }
        ensures { result ≡ octets.now }
    {
        Plain(octets)
    }
}

impl<'a> Shown for Plain<'a> {
    ghost shown = { λ octets. Word octets };

    #[tactic(auto, unfolding(crate::specs::Forms::value_text))]
    fn put_text(&self, line: &mut TextBuffer, _names: bool) -> Result<(), AllocError> {
        line.push_ascii(self.0)
    }

    #[inline(always)]
    #[tactic(auto, unfolding(crate::specs::Forms::members, crate::specs::Forms::json_value, crate::specs::Forms::names_member))]
    fn put_members(&self, object: &mut TextBuffer, begin: &str) -> Result<(), AllocError> {
        put_begin(object, begin)?;
        put_string(object, self.0)
    }

    #[tactic(auto, unfolding(crate::specs::Forms::cell))]
    fn put_cell(&self, text: &mut TextBuffer, path: Path) -> Result<(), AllocError> {
        match path {
            Path::Whole => put_string_cell(text, self.0),
            _ => put_no_cell(text),
        }
    }
}

/// `-` in a line if there is none, and null in an object.
impl<T: Shown> Shown for Option<T> {
    ghost shown = { if_there T.shown };

    #[inline(always)]
    #[tactic(auto, unfolding(crate::specs::Forms::value_text))]
    fn put_text(&self, line: &mut TextBuffer, names: bool) -> Result<(), AllocError> {
        match self {
            None => line.push_sign("-"),
            Some(value) => value.put_text(line, names),
        }
    }

    #[inline(always)]
    #[tactic(auto, unfolding(crate::specs::Forms::members, crate::specs::Forms::json_value, crate::specs::Forms::names_member))]
    fn put_members(&self, object: &mut TextBuffer, begin: &str) -> Result<(), AllocError> {
        match self {
            None => object.push_pair(begin, "\":null"),
            Some(value) => value.put_members(object, begin),
        }
    }

    #[tactic(auto, unfolding(crate::specs::Forms::cell))]
    fn put_cell(&self, text: &mut TextBuffer, path: Path) -> Result<(), AllocError> {
        match self {
            None => put_no_cell(text),
            Some(value) => value.put_cell(text, path),
        }
    }
}
