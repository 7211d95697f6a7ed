//! Lines of a text.

ghost use Rattle.std.specs.Prelude.{◌≡◌, ◌+◌, ◌<◌, ◌≤◌, ◌^◌, length, IfErr, IfOk, OnOk};
ghost use Rattle.krb_run.specs.TextLines.{is_blank, is_blank_line};
ghost use Rattle.krb_run.specs.declared.run.RunFault.TheVariants as fault;
ghost use Rattle.krb_run.specs.LineReaders.{Adds, EndsLine, EndsText, HasLine, LineKind, reader_kind};
ghost use Rattle.krb_run.specs.Pieces.{TakesPiece, listing_of};
ghost use Rattle.krb_run.specs.Streams.{AcceptsPiece, MayFinish};

use crate::line::line_length;
use crate::run::RunFault;

/// What reads the lines of a text, each as its octets come: what [`feed_lines`] and [`end_lines`] ask
/// of it. The one error of each call is running out of memory.
pub trait ReadLines {
    /// What contracts see of it.
    ghost kind: { LineKind Self };

    /// Adds octets to the line that has not ended, and returns whether it may go on: not if it is too
    /// long.
    fn add(&mut self, octets: &[u8]) -> Result<bool, RunFault>
        requires open { kind.IsOpen self.old }
        requires few { kind.count self.old + length octets.now < 2 ^ 64 }
        ensures added { IfOk result (Adds kind self.old octets.now self.new) }
        ensures fault { IfErr result (λ e. e ≡ RunFault.Memory) };

    /// Ends the line, and returns whether others may follow.
    fn end_line(&mut self) -> Result<bool, RunFault>
        requires open { kind.IsOpen self.old }
        requires few { kind.count self.old + 1 < 2 ^ 64 }
        ensures ended { IfOk result (EndsLine kind self.old self.new) }
        ensures fault { IfErr result (λ e. e ≡ RunFault.Memory) };

    /// Returns whether there are octets of a line that has not ended, and it may end.
    fn has_line(&self) -> bool
        ensures { HasLine kind self.now result };
}

/// Takes the next piece of a text, at most 65536 octets, whose lines end at line feeds, and returns
/// whether others may follow. After a line that lets none follow, and in one that is too long, no
/// octet more is looked at. The one error is running out of memory.
pub fn feed_lines<L: ReadLines>(lines: &mut L, piece: &[u8]) -> Result<bool, RunFault>
    requires waits { AcceptsPiece (listing_of (reader_kind L.kind) lines.old) }
    requires short { length piece.now ≤ 65536 }
    ensures taken { IfOk result (TakesPiece (reader_kind L.kind) lines.old piece.now lines.new) }
    ensures fault { IfErr result (λ e. e ≡ fault.Memory) }
{
    let mut rest = piece;
    'lines: while let Some(end) = line_length(rest) {
        if !lines.add(&rest[..end])? {
            return Ok(false);
        }
        rest = &rest[end + 1..];
        if !lines.end_line()? {
            return Ok(false);
        }
    }
    lines.add(rest)
}

/// Ends the last line of a text, unless it is empty. The one error is running out of memory.
pub fn end_lines<L: ReadLines>(lines: &mut L) -> Result<(), RunFault>
    requires { MayFinish (listing_of (reader_kind L.kind) lines.old) }
    ensures ended { OnOk result (EndsText L.kind lines.old lines.new) }
    ensures fault { IfErr result (λ e. e ≡ fault.Memory) }
{
    if !lines.has_line() {
        return Ok(());
    }
    lines.end_line()?;
    Ok(())
}

/// Returns whether an octet is a blank of a line: a space, a tab or CR.
fn is_blank(octet: u8) -> bool
    ensures { result ≡ is_blank octet }
{
    matches!(octet, b' ' | b'\t' | b'\r')
}

/// Returns whether a line has blanks alone: spaces, tabs and CR. An empty one has.
pub fn is_blank_line(line: &[u8]) -> bool
    ensures { result ≡ is_blank_line line.now }
{
    line.iter().all(|octet| is_blank(*octet))
}
