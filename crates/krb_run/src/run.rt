//! How runs end.

ghost use Rattle.std.specs.Prelude.{◌≡◌, length, IfOk};
ghost use Rattle.krb_run.specs.Statuses.{status_of};
ghost use Rattle.krb_run.specs.declared.run.RunFault.TheVariants as fault;

use krb_der::Memory;
use std::alloc::{AllocError, AllocFailed, Global};
use std::io;
use thiserror::Error;

/// The number of octets that a run asks its reader for at once: 64 KiB.
pub const PIECE_OCTETS: usize = 1 << 16;

/// The octets that a buffer has before the first read: zeros.
const UNREAD: [u8; PIECE_OCTETS] = [0; PIECE_OCTETS];

/// Returns a buffer for what a run asks its reader for at once. It is filled by one copy: `vec!` puts
/// octet by octet, which takes longer than all else that is done for a small file.
pub fn piece_buffer(alloc: Global) -> Result<Vec<u8>, AllocError>
    ensures { IfOk result (λ buffer. length buffer.items ≡ 65536) }
{
    Vec::from_slice(alloc, &UNREAD)
}

/// How a run without faults ended.
#[derive(Clone, Copy, PartialEq, Eq, Debug)]
pub enum RunEnd {
    /// All was read, and nothing was refused.
    Clean,
    /// Something was refused, and a line says what.
    Refused,
    /// The same, and that line is the first: it may be that the file is one of another kind.
    RefusedAtOnce,
}

/// Why a run could not go on.
#[derive(Clone, Copy, Debug, Error)]
pub enum RunFault {
    /// A read failed with this error. The error is `too many reads` if the reader was asked 2^40
    /// times and has not ended.
    #[error("{0}")]
    Read(io::Error),
    /// A write failed with this error. The error is `write zero` if the write took nothing.
    #[error("{0}")]
    Write(io::Error),
    /// Out of memory.
    #[error("out of memory")]
    Memory,
}

/// Returns the exit status of a run: 0 if it was clean, 1 if something was refused, 3 if it failed.
pub fn status(outcome: &Result<RunEnd, RunFault>) -> u8
    ensures { result ≡ status_of outcome.now }
{
    match outcome {
        Ok(RunEnd::Clean) => 0,
        Ok(RunEnd::Refused | RunEnd::RefusedAtOnce) => 1,
        Err(_) => 3,
    }
}

impl From<Memory> for RunFault {
    ghost from_gives = { λ _ e. e ≡ fault.Memory };

    fn from(_memory: Memory) -> RunFault {
        RunFault::Memory
    }
}

impl From<AllocError> for RunFault {
    ghost from_gives = { λ _ e. e ≡ fault.Memory };

    fn from(_error: AllocError) -> RunFault {
        RunFault::Memory
    }
}

impl<T: Drop> From<AllocFailed<T>> for RunFault {
    ghost from_gives = { λ _ e. e ≡ fault.Memory };

    fn from(_error: AllocFailed<T>) -> RunFault {
        RunFault::Memory
    }
}
