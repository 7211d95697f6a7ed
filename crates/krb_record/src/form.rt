//! The forms in which records are printed.

ghost use Rattle.std.specs.Prelude.{◌≡◌, ◌+◌, ◌*◌, ◌/◌, ◌%◌, ◌^◌, ◌==◌, ◌++◌, codes, IfSome, if◌then◌else◌, not};
ghost use Rattle.std.specs.Int.RustNames.{bit_and, bit_or};
ghost use Rattle.krb_record.specs.Forms.{base_of, has_inside, has_kind, is_marked, is_plain_form, is_unmarked_plain, kept_form, kind_bit, name_bit, path_number, shows_kind};

use crate::flags::octet_at;
use crate::path::Path;

/// How a record is printed that a choice keeps whole.
#[derive(Clone, Copy, PartialEq, Eq, Debug)]
pub enum Base {
    /// A line, in which numbers have no names.
    Lines,
    /// A line, in which each number of a registry has its name after it.
    NamedLines,
    /// An object of JSON (RFC 8259), with the names of numbers in members of their own.
    Json,
}

/// What rows may show, of which records and fields. Of 64 bits the lowest 16 are for names of fields, the
/// next 16 for kinds of messages, the next 26 for paths, and the highest is for what is inside; names, and
/// kinds, may share one. As one number it is passed in a register.
#[derive(Clone, Copy, PartialEq, Eq, Debug)]
pub struct Wanted {
    bits: u64,
}

/// The bit of what is inside.
const INSIDE: u64 = 1 << 63;

/// Returns the place of the bit for a name, from 0.
fn place_of_name(length: usize, first: u8) -> usize
    ensures { result ≡ (5 * length + first) % 16 }
{
    (5 * (length % 16) + usize::from(first)) % 16
}

/// Returns one of 16 bits, by the length of what begins the member of a field in an object, `,"NAME`, and
/// the first letter of its name.
fn bit_of_name(length: usize, first: u8) -> u64
    ensures { result ≡ 2 ^ ((5 * length + first) % 16) }
{
    1 << place_of_name(length, first)
}

/// Returns the bit of what begins so.
fn name_bit(begin: &str) -> u64
    ensures { result ≡ name_bit begin.now }
{
    let octets = begin.as_bytes();
    bit_of_name(octets.len(), octet_at(octets, 2))
}

/// Returns the place of the bit for a kind, from 16.
fn place_of_kind(length: usize, last: u8) -> usize
    ensures { result ≡ 16 + (3 * length + last) % 16 }
{
    16 + (3 * (length % 16) + usize::from(last)) % 16
}

/// Returns one of 16 bits, by the length of a kind and its last letter.
fn bit_of_kind(length: usize, last: u8) -> u64
    ensures { result ≡ 2 ^ (16 + (3 * length + last) % 16) }
{
    1 << place_of_kind(length, last)
}

/// Returns the bit of a kind.
fn kind_bit(kind: &str) -> u64
    ensures { result ≡ kind_bit kind.now }
{
    let octets = kind.as_bytes();
    let length = octets.len();
    bit_of_kind(length, octet_at(octets, length.saturating_sub(1) as u64))
}

impl Wanted {
    /// Nothing of any record.
    pub const NOTHING: Wanted = Wanted { bits: 0 };

    /// Returns whether a field may be shown that begins so in an object.
    pub(crate) fn has_name(self, begin: &str) -> bool
        ensures { result ≡ not (bit_and self.bits (name_bit begin.now) == 0) }
    {
        self.bits & name_bit(begin) != 0
    }

    /// Returns the bits of the paths, the lowest for the first path.
    pub(crate) fn paths(self) -> u64
        ensures { result ≡ self.bits / 2 ^ 32 % 2 ^ 26 }
    {
        (self.bits >> 32) % (1 << 26)
    }

    /// Returns whether what is inside of records is shown.
    pub fn has_inside(self) -> bool
        ensures { result ≡ has_inside self }
    {
        self.bits & INSIDE != 0
    }

    /// Returns whether messages of a kind may be shown.
    pub fn has_kind(self, kind: &str) -> bool
        ensures { result ≡ has_kind self kind.now }
    {
        self.bits & kind_bit(kind) != 0
    }

    /// Adds a path of the field of a name.
    pub fn with(self, name: &str, path: Path) -> Wanted
        ensures { result.bits ≡ bit_or (bit_or self.bits (name_bit (codes ",\"" ++ name.now))) (2 ^ (32 + path_number path)) }
    {
        let octets = name.as_bytes();
        let bit = bit_of_name(octets.len() + 2, octet_at(octets, 0));
        Wanted {
            bits: self.bits | bit | 1 << (32 + path.number()),
        }
    }

    /// Adds what is inside of records.
    pub fn with_inside(self) -> Wanted
        ensures { result.bits ≡ bit_or self.bits (2 ^ 63) }
    {
        Wanted {
            bits: self.bits | INSIDE,
        }
    }

    /// Adds the messages of a kind.
    pub fn with_kind(self, kind: &str) -> Wanted
        ensures { result.bits ≡ bit_or self.bits (kind_bit kind.now) }
    {
        Wanted {
            bits: self.bits | kind_bit(kind),
        }
    }

    /// Adds all messages.
    pub fn with_all_kinds(self) -> Wanted
        ensures { result.bits ≡ bit_or self.bits (0xFFFF * 2 ^ 16) }
    {
        Wanted {
            bits: self.bits | 0xFFFF_0000,
        }
    }
}

/// How a record is printed.
#[derive(Clone, Copy, PartialEq, Eq, Debug)]
pub enum Form {
    /// A line, in which numbers have no names.
    Lines,
    /// A line, in which each number of a registry has its name after it.
    NamedLines,
    /// An object of JSON (RFC 8259), with the names of numbers in members of their own.
    Json,
    /// A line without names, with marks by which a choice keeps it or not.
    KeptLines,
    /// A line with names, with such marks.
    KeptNamedLines,
    /// An object with such marks.
    KeptJson,
    /// Marked cells, of which a choice makes rows.
    Rows(Wanted),
}

impl Form {
    /// Returns whether records of the form show the path of a field at fault: of lines those with
    /// names alone. A choice tells it of the last record.
    pub fn shows_paths(self) -> bool
        ensures { result ≡ not (is_unmarked_plain self) }
    {
        !matches!(self, Form::Lines)
    }

    /// Returns the form of records of which some are kept whole, as they are without marks.
    pub fn kept(base: Base) -> Form
        ensures { result ≡ kept_form base }
    {
        match base {
            Base::Lines => Form::KeptLines,
            Base::NamedLines => Form::KeptNamedLines,
            Base::Json => Form::KeptJson,
        }
    }

    /// Returns the text that a record has, or nothing for rows.
    #[inline(always)]
    pub fn base(self) -> Option<Base>
        ensures { result ≡ base_of self }
    {
        match self {
            Form::Lines | Form::KeptLines => Some(Base::Lines),
            Form::NamedLines | Form::KeptNamedLines => Some(Base::NamedLines),
            Form::Json | Form::KeptJson => Some(Base::Json),
            Form::Rows(_) => None,
        }
    }

    /// Returns whether a line that is not marked has names, or nothing for all else.
    #[inline(always)]
    pub(crate) fn names(self) -> Option<bool>
        ensures { IfSome result (λ names. self ≡ if names then Form.NamedLines else Form.Lines) }
    {
        match self {
            Form::Lines => Some(false),
            Form::NamedLines => Some(true),
            Form::Json | Form::KeptLines | Form::KeptNamedLines | Form::KeptJson | Form::Rows(_) =>
                None,
        }
    }

    /// Returns whether a record is a line without names, which has nothing of what is told.
    pub fn is_plain(self) -> bool
        ensures { result ≡ is_plain_form self }
    {
        matches!(self, Form::Lines | Form::KeptLines)
    }

    /// Returns whether messages of a kind are shown: rows have nothing of those that they do not want.
    #[inline(always)]
    #[tactic(auto, unfolding(crate::specs::Forms::shows_kind))]
    pub fn shows_kind(self, kind: &str) -> bool
        ensures { result ≡ shows_kind self kind.now }
    {
        match self {
            Form::Rows(wanted) => wanted.has_kind(kind),
            Form::Lines
            | Form::NamedLines
            | Form::Json
            | Form::KeptLines
            | Form::KeptNamedLines
            | Form::KeptJson => true,
        }
    }

    /// Returns whether records of the form are marked for a choice.
    pub fn is_marked(self) -> bool
        ensures { result ≡ is_marked self }
    {
        !matches!(self, Form::Lines | Form::NamedLines | Form::Json)
    }
}
