//! The laws of inputs, each the contract of a function that does nothing.

ghost use Rattle.krb_input.specs.Laws.{DecodedLinesAreSpelled};

/// A line that is hexadecimal, with blanks anywhere, spells the octets that are decoded of it.
pub fn decoded_lines_are_spelled()
    ensures { DecodedLinesAreSpelled }
{}
