//! What an input spells, or where it is misspelled.

ghost use Rattle.std.specs.Prelude.{◌≡◌};
ghost use Rattle.krb_input.specs.declared.spelled.InputFault.TheVariants.{Memory};

use krb_source::Spelling;
use std::alloc::AllocError;

/// The octets that an input spells.
#[derive(Debug, Drop)]
pub struct Spelled {
    /// How they are spelled.
    pub form: Spelling,
    /// The octets.
    pub octets: Vec<u8>,
}

/// Where a text does not spell octets.
#[derive(Clone, Copy, PartialEq, Eq, Debug)]
pub struct Misspelling {
    /// What the text was read as: hexadecimal, a dump or base64.
    pub form: Spelling,
    /// The offset in the input of the octet at fault, or the input's length if something is missing
    /// at its end.
    pub place: u64,
}

/// Why an input was not read.
#[derive(Clone, Copy, PartialEq, Eq, Debug)]
pub enum InputFault {
    /// It is a text that spells no octets.
    Misspelled(Misspelling),
    /// There is not enough memory.
    Memory,
}

impl From<AllocError> for InputFault {
    ghost from_gives = { λ from to. to ≡ Memory };

    fn from(_: AllocError) -> Self {
        InputFault::Memory
    }
}
