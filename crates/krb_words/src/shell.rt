//! Names as words of a shell.

ghost use Rattle.std.specs.Prelude.{◌≡◌, ◌<◌, false, Some};
ghost use Rattle.std.specs.Fmt.{digit_glyph};
ghost use Rattle.krb_words.specs.Shell.{are_bare, are_printable, between, closing, is_bare, is_itself, is_printable, is_single, opening, quoting_of, shell_word, word_octet};

use std::fmt;

/// How a word of a shell is written.
#[derive(Clone, Copy)]
enum Quoting {
    /// As it is.
    Bare,
    /// Between single quotes, where a shell reads each octet as itself.
    Single,
    /// After `$` between single quotes, where `\x` and two digits are an octet.
    Escaped,
}

/// Returns whether an octet is from the least to the greatest one.
fn between(least: u8, greatest: u8, octet: u8) -> bool
    ensures { result ≡ between least greatest octet }
{
    least <= octet && octet <= greatest
}

/// Returns whether an octet has no other meaning to a shell, wherever it stands in a word.
fn is_bare(octet: u8) -> bool
    ensures { result ≡ is_bare octet }
{
    let is_letter = between(b'A', b'Z', octet) | between(b'a', b'z', octet);
    // The octets from `-` to `9` are `-`, `.`, `/` and the digits.
    is_letter | between(b'-', b'9', octet) | (octet == b'_') | (octet == b'+')
}

/// Returns whether an octet is a character that is printed, or a blank.
fn is_printable(octet: u8) -> bool
    ensures { result ≡ is_printable octet }
{
    between(b' ', b'~', octet)
}

/// Returns whether a shell takes all octets of a name as they are.
fn are_bare(name: &[u8]) -> bool
    ensures { result ≡ are_bare name.now }
{
    let mut are_bare = 0 < name.len();
    for octet in name {
        are_bare = are_bare && is_bare(*octet);
    }
    are_bare
}

/// Returns whether all octets of a name are printed.
fn are_printable(name: &[u8]) -> bool
    ensures { result ≡ are_printable name.now }
{
    let mut are_printable = true;
    for octet in name {
        are_printable = are_printable && is_printable(*octet);
    }
    are_printable
}

impl Quoting {
    /// Returns how a name is written.
    fn of(name: &[u8]) -> Quoting
        ensures { result ≡ quoting_of name.now }
    {
        if are_bare(name) {
            Quoting::Bare
        } else if are_printable(name) {
            Quoting::Single
        } else {
            Quoting::Escaped
        }
    }

    /// Returns what comes before the octets of a word.
    fn opening(self) -> &'static str
        ensures { result.now ≡ opening self }
    {
        match self {
            Quoting::Bare => "",
            Quoting::Single => "'",
            Quoting::Escaped => "$'",
        }
    }

    /// Returns what comes after them.
    fn closing(self) -> &'static str
        ensures { result.now ≡ closing self }
    {
        match self {
            Quoting::Bare => "",
            Quoting::Single | Quoting::Escaped => "'",
        }
    }

    /// Returns whether a word is between single quotes.
    fn is_single(self) -> bool
        ensures { result ≡ is_single self }
    {
        matches!(self, Quoting::Single)
    }

    /// Returns whether an octet stands for itself in a word.
    fn is_itself(self, octet: u8) -> bool
        ensures { result ≡ is_itself self octet }
    {
        match self {
            Quoting::Bare => is_bare(octet),
            Quoting::Single => is_printable(octet) && octet != b'\'',
            Quoting::Escaped => is_printable(octet) && octet != b'\'' && octet != b'\\',
        }
    }
}

/// Returns the hexadecimal digit of a number below 16, in lower case.
fn hex_digit(number: u8) -> char
    requires { number < 16 }
    ensures { result ≡ digit_glyph false number }
{
    char::from(if number < 10 {
        b'0' + number
    } else {
        b'a' - 10 + number
    })
}

/// An octet of a word.
#[derive(Clone, Copy)]
struct WordOctet {
    quoting: Quoting,
    octet: u8,
}

impl fmt::Display for WordOctet {
    ghost output = { λ word. Some (word_octet word.quoting word.octet) };

    fn fmt<W: fmt::Write>(&self, f: &mut fmt::Formatter<W>) -> fmt::Result {
        if self.quoting.is_itself(self.octet) {
            f.write_char(char::from(self.octet))
        } else if self.quoting.is_single() {
            // Between single quotes nothing stands for one, so these end before it and go on after it.
            f.write_str("'\\''")
        } else {
            f.write_str("\\x")?;
            f.write_char(hex_digit(self.octet / 16))?;
            f.write_char(hex_digit(self.octet % 16))
        }
    }
}

/// A name as a word that a shell (POSIX; of what is not printed bash, ksh or zsh) reads as that name
/// and nothing else: as it is if it has letters, digits and `.`, `_`, `/`, `+`, `-` alone, or else
/// between single quotes; what is not printed is shown by `\x` and two digits.
#[derive(Clone, Copy)]
pub struct ShellWord<'a>(pub &'a [u8]);

impl fmt::Display for ShellWord<'_> {
    ghost output = { λ word. Some (shell_word word.0.now) };

    fn fmt<W: fmt::Write>(&self, f: &mut fmt::Formatter<W>) -> fmt::Result {
        let quoting = Quoting::of(self.0);
        f.write_str(quoting.opening())?;
        for octet in self.0 {
            write!(
                f,
                "{}",
                WordOctet {
                    quoting,
                    octet: *octet
                }
            )?;
        }
        f.write_str(quoting.closing())
    }
}
