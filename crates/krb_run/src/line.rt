//! The first line of a text.

ghost use Rattle.memchr.specs.Find.{IsFirstByte, is_byte};

use memchr::memchr;

/// Returns how many octets come before the first line feed, if there is one.
pub fn line_length(octets: &[u8]) -> Option<usize>
    ensures { IsFirstByte (is_byte 10) octets.now result }
{
    memchr(b'\n', octets)
}
