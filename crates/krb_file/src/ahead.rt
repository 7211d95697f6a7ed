//! Octets of a file that were read ahead of their fields.

use crate::fault::ReadFailed;
use crate::stream_reader::ask;
use std::alloc::AllocError;
use std::io::Read;
use std::marker::Model;

/// The greatest number of octets that are read ahead.
const MOST: usize = 512;

/// The octets that were read ahead and are in no field yet. Contracts see the list of them.
#[derive(Drop)]
pub(crate) struct Ahead {
    octets: [u8; MOST],
    /// How many of the octets are in fields already.
    passed: usize,
    /// How many octets were read ahead in all.
    filled: usize,
}

impl Model for Ahead {
    ghost use Rattle.std.specs.Prelude.{◌≤◌, List, ℕ};
    ghost use Rattle.std.specs.List.{between};

    ghost Value = { List ℕ };

    ghost view = { λ ahead. between ahead.passed ahead.filled ahead.octets };

    ghost invariant = { λ ahead. (ahead.passed ≤ ahead.filled) × (ahead.filled ≤ 512) };
}

ghost use Rattle.std.specs.Prelude.{◌≡◌, ◌+◌, ◌++◌, ◌^◌, ◌<◌, ◌≤◌, [], length, OnErr, OnOk};
ghost use Rattle.std.specs.Io.KnownBytes.{Consumes, IsAtEnd};

impl Ahead {
    /// Returns no octets.
    pub(crate) fn new() -> Ahead
        ensures { result ≡ [] }
    {
        Ahead {
            octets: [0; MOST],
            passed: 0,
            filled: 0,
        }
    }

    /// Returns the number of octets.
    #[inline(always)]
    pub(crate) fn count(&self) -> usize
        ensures count { result ≡ length self.now }
        ensures few { result ≤ 512 }
    {
        self.filled - self.passed
    }

    /// Moves the first octets into `octets`, which they fill; there are enough of them.
    #[inline(always)]
    pub(crate) fn fill(&mut self, octets: &mut [u8])
        requires { length octets.old ≤ length self.old }
        ensures { self.old ≡ octets.new ++ self.new }
    {
        let end = self.passed + octets.len();
        octets.copy_from_slice(&self.octets[self.passed..end]);
        self.passed = end;
    }

    /// Moves the first `count` octets into `copied`, in place of its octets. It allocates if they
    /// need more than the capacity that is there.
    #[inline(always)]
    pub(crate) fn copy(&mut self, count: usize, copied: &mut Vec<u8>) -> Result<(), AllocError>
        requires { count ≤ length self.old }
        ensures given { OnOk result (self.old ≡ copied.new.items ++ self.new) }
        ensures count { OnOk result (length copied.new.items ≡ count) }
        ensures kept { OnErr result (self.new ≡ self.old) }
    {
        let end = self.passed + count;
        copied.clear();
        copied.reserve_exact(count)?;
        copied.extend_from_slice(&self.octets[self.passed..end])?;
        self.passed = end;
        Ok(())
    }

    /// Reads ahead if no octets are left: what the reader returns at once, at most `most` octets.
    /// At the end of the reader that is nothing.
    pub(crate) fn refill<R: Read>(
        &mut self,
        reader: &mut R,
        asks: &mut u64,
        most: u64,
    ) -> Result<(), ReadFailed>
        requires some { 0 < most }
        requires few { asks.old ≤ 2 ^ 40 }
        ensures taken { OnOk result (Consumes (R.remaining reader.old) (R.remaining reader.new) self.new) }
        ensures end { OnOk result (self.new ≡ [] → IsAtEnd (R.remaining reader.new)) }
        ensures few { length self.new ≤ 512 }
        ensures most { length self.new ≤ most }
        ensures none { OnErr result (self.new ≡ []) }
        ensures counted { OnOk result (asks.new ≡ asks.old + 1) }
        ensures asked { asks.old ≤ asks.new }
        ensures still_few { asks.new ≤ 2 ^ 40 }
    {
        let size = most.min(MOST as u64) as usize;
        self.passed = 0;
        self.filled = 0;
        self.filled = ask(reader, asks, &mut self.octets[..size])?;
        Ok(())
    }
}
