//! Texts of lines of which some are written, and each other one is told.

ghost use Rattle.std.specs.Prelude.{◌≡◌, ◌≤◌, ◌++◌, ℕ, true, false, List, [], Option, Some, All, length, take};
ghost use Rattle.std.specs.Io.{WritesAtMost};
ghost use Rattle.std.specs.Io.KnownBytes.{Appends};
ghost use Rattle.krb_decode.specs.Sorted.{is_any, message_lines, told_lines};
ghost use Rattle.krb_decode.specs.Sorters.{key};
ghost use Rattle.krb_decode.specs.inner.Sorter.{IsLine, Sorts, Sorts-prop, are_of_messages, goes_to_message, taken, within_after};

use crate::given::{Before, Given, Octets};
use memchr::memchr;
use std::alloc::Global;
use std::io;
use std::io::{ErrorKind, Write};

/// What lines are told to.
pub trait Tell {
    /// A line was told to it.
    ghost IsTold: { Self → List ℕ → Type 0 };

    /// Tells a line, which ends with a line feed.
    fn tell(&self, line: &[u8])
        ensures { IsTold self.now line.now };
}

/// Returns how many octets a text has up to the end of its first line, and whether that is there.
fn line_size(text: &[u8]) -> (usize, bool)
    ensures within { result.0 ≤ length text.now }
    ensures some { 1 ≤ length text.now → 1 ≤ result.0 }
    ensures line { IsLine result.1 (take result.0 text.now) }
{
    match memchr(b'\n', text) {
        Some(end) => (end + 1, true),
        None => (text.len(), false),
    }
}

/// Returns how many octets a text has up to the end of its first line, which is of a message, and of
/// those after it that begin with a brace.
fn lines_size(text: &[u8]) -> usize
    ensures within { result ≤ length text.now }
    ensures of_messages { are_of_messages true (take result text.now) ≡ true }
{
    let (mut size, mut has_ended) = line_size(text);
    'lines: while has_ended && size < text.len() && text[size] == b'{' {
        let (next, ended) = line_size(&text[size..]);
        size += next;
        has_ended = ended;
    }
    size
}

/// Returns whether a line has begun after octets, and not ended.
fn within_after(is_within: bool, octets: &[u8]) -> bool
    ensures { result ≡ within_after is_within octets.now }
{
    match octets.last() {
        Some(last) => *last != b'\n',
        None => is_within,
    }
}

/// What sorts the lines of a text that comes in pieces.
#[derive(Drop)]
pub struct Sorter {
    /// Whether a line that is written has begun, and not ended.
    is_within: bool,
    /// A line that is to be told and has not ended.
    begun: Vec<u8>,
    /// Whether a line was told.
    has_told: bool,
}

impl Sorter {
    /// Returns what sorts a text of which nothing has come.
    fn new(alloc: Global) -> Sorter
        ensures none { (result.is_within ≡ false) × (result.begun.items ≡ []) × (result.has_told ≡ false) }
    {
        Sorter {
            is_within: false,
            begun: Vec::new(alloc),
            has_told: false,
        }
    }

    /// Returns whether the first octets of what comes are of a line of a message.
    fn goes_to_message(&self, text: &[u8]) -> bool
        ensures { result ≡ goes_to_message self.now.is_within self.now.begun.items text.now }
    {
        self.is_within || (self.begun.is_empty() && matches!(text, [b'{', ..]))
    }

    /// Takes the first octets of a text up to the end of a line that is told, or all of it.
    fn take_told<T: Tell>(&mut self, text: &[u8], teller: &T) -> io::Result<usize>
        requires { goes_to_message self.old.is_within self.old.begun.items text.now ≡ false }
        ensures bound { WritesAtMost result text.now }
        ensures sorts { (before now : Option (List ℕ)) (given : List ℕ) → Sorts (T.IsTold teller.now) before now given self.old.is_within self.old.begun.items self.old.has_told → Sorts (T.IsTold teller.now) before now (given ++ taken result text.now) self.new.is_within self.new.begun.items self.new.has_told }
    {
        let (size, has_ended) = line_size(text);
        if self.begun.extend_from_slice(&text[..size]).is_err() {
            return Err(ErrorKind::OutOfMemory.into());
        }
        if has_ended {
            teller.tell(self.begun.as_slice());
            self.begun.clear();
            self.has_told = true;
        }
        Ok(size)
    }

    /// Writes the first octets of a text up to a line that is told, or some of these.
    fn write_lines<W: Write>(&mut self, text: &[u8], writer: &mut W) -> io::Result<usize>
        requires { goes_to_message self.old.is_within self.old.begun.items text.now ≡ true }
        ensures bound { WritesAtMost result text.now }
        ensures written { Appends (W.contents writer.old) (W.contents writer.new) (taken result text.now) }
        ensures of_messages { are_of_messages self.old.is_within (taken result text.now) ≡ true }
        ensures within { self.new.is_within ≡ within_after self.old.is_within (taken result text.now) }
        ensures same { (self.new.begun ≡ self.old.begun) × (self.new.has_told ≡ self.old.has_told) }
    {
        let count = writer.write(&text[..lines_size(text)])?;
        self.is_within = within_after(self.is_within, &text[..count]);
        Ok(count)
    }

    /// Takes the first octets of a text: writes those of messages, or tells a line that they end.
    fn take<W: Write, T: Tell>(
        &mut self,
        text: &[u8],
        writer: &mut W,
        teller: &T,
    ) -> io::Result<usize>
        ensures bound { WritesAtMost result text.now }
        ensures sorts { (before : Option (List ℕ)) (given : List ℕ) → Sorts (T.IsTold teller.now) before (W.contents writer.old) given self.old.is_within self.old.begun.items self.old.has_told → Sorts (T.IsTold teller.now) before (W.contents writer.new) (given ++ taken result text.now) self.new.is_within self.new.begun.items self.new.has_told }
    {
        if self.goes_to_message(text) {
            self.write_lines(text, writer)
        } else {
            self.take_told(text, teller)
        }
    }
}

/// A writer that takes a text of lines, in any pieces. Those that begin with a brace, as the lines of
/// messages do, it writes to another writer; each other one it tells once its end has come, after all
/// that comes before it is written.
#[derive(Drop)]
pub struct Sorting<'a, W: Write, T: Tell> {
    writer: &'a mut W,
    teller: &'a T,
    sorter: Sorter,
    before: Before<W>,
    given: Given,
    pub ghost sorts: { Sorts (T.IsTold teller.now) (W.contents before.value) (W.contents writer.now) given.octets sorter.is_within sorter.begun.items sorter.has_told } by { Sorts-prop (T.IsTold teller.now) (W.contents before.value) (W.contents writer.now) given.octets sorter.is_within sorter.begun.items sorter.has_told },
}

impl<'a, W: Write, T: Tell> Sorting<'a, W, T> {
    /// Returns a writer to which nothing was given yet.
    pub fn new(alloc: Global, writer: &'a mut W, teller: &'a T) -> Sorting<'a, W, T>
        ensures same_writer { result.writer.ghost_name ≡ writer.entry.ghost_name }
        ensures same_teller { result.teller.now ≡ teller.now }
        ensures before { W.contents result.before.value ≡ W.contents writer.old }
        ensures none { result.given.octets ≡ [] }
    {
        let before = Before::of(writer);
        Sorting {
            writer,
            teller,
            sorter: Sorter::new(alloc),
            before,
            given: Given::none(),
        }
    }

    /// Returns whether a line was told.
    pub fn has_told(&self) -> bool
        ensures { result ≡ is_any (told_lines self.now.given.octets) }
    {
        self.sorter.has_told
    }

    /// Gives the other writer back. The lines of messages of all that was given are written to it, and
    /// each other line that has ended was told.
    pub fn finish(self) -> &'a mut W
        ensures same_writer { result.ghost_name ≡ self.entry.writer.ghost_name }
        ensures written { Appends (W.contents self.entry.before.value) (W.contents result.now) (message_lines self.entry.given.octets) }
        ensures told { ∥ All (T.IsTold self.entry.teller.now) (told_lines self.entry.given.octets) ∥₁ }
    {
        let Sorting { writer, .. } = self;
        writer
    }
}

impl<'a, W: Write, T: Tell> Write for Sorting<'a, W, T> {
    // What was given, after numbers that tell whose writer it is, what that had, and what lines are told to.
    ghost contents = { λ s. Some (key T.row.coded s.writer.ghost_name (W.contents s.before.value) s.teller.now ++ s.given.octets) };

    fn write(&mut self, buffer: &[u8]) -> io::Result<usize> {
        let count = self.sorter.take(buffer, self.writer, self.teller)?;
        self.given = self.given.and(&Octets {
            octets: &buffer[..count],
        });
        Ok(count)
    }

    fn flush(&mut self) -> io::Result<()> {
        self.writer.flush()
    }
}
