//! Why a text was not read by a rule.

ghost use Rattle.std.specs.Prelude.{◌≡◌, length};
ghost use Rattle.krb_input.specs.Braces.{before};
ghost use Rattle.krb_input.specs.declared.text_fault.TextFault.TheVariants.{Memory};
ghost use Rattle.krb_input.specs.Readings.{Reading};
ghost use Rattle.krb_input.specs.inner.Results.{IsFault};

use std::alloc::{AllocError, AllocFailed};

/// Why a text was not read.
#[derive(Clone, Copy, Debug)]
pub(crate) enum TextFault {
    /// It does not fit, at the octet with which so many are left of the text.
    Left(usize),
    /// There is not enough memory.
    Memory,
}

impl TextFault {
    /// Returns the fault of a text that others follow. If they are more than are counted, which no
    /// memory holds, that is a lack of memory.
    pub(crate) fn before(self, following: &[u8]) -> TextFault
        ensures { (reading : Reading) → IsFault reading self → IsFault (before (length following.now) reading) result }
    {
        match self {
            TextFault::Left(left) => match left.checked_add(following.len()) {
                Some(left) => TextFault::Left(left),
                None => TextFault::Memory,
            },
            TextFault::Memory => TextFault::Memory,
        }
    }
}

impl From<AllocError> for TextFault {
    ghost from_gives = { λ from to. to ≡ Memory };

    fn from(_: AllocError) -> Self {
        TextFault::Memory
    }
}

impl From<AllocFailed<u8>> for TextFault {
    ghost from_gives = { λ from to. to ≡ Memory };

    fn from(_: AllocFailed<u8>) -> Self {
        TextFault::Memory
    }
}
