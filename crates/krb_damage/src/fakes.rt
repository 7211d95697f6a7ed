//! Readers and writers that are slow or fail.

use std::io;
use std::io::{ErrorKind, Read, Write};

/// A reader of at most `at_most` octets at once that fails after `asks` reads.
#[derive(Drop)]
pub(crate) struct Slow<'a> {
    pub(crate) octets: &'a [u8],
    pub(crate) at_most: usize,
    pub(crate) asks: usize,
}

impl Read for Slow<'_> {
    fn read(&mut self, buf: &mut [u8]) -> io::Result<usize> {
        if self.asks == 0 {
            return Err(io::Error::from(ErrorKind::Interrupted));
        }
        self.asks = self.asks.saturating_sub(1);
        let count = self.at_most.min(buf.len()).min(self.octets.len());
        buf[..count].copy_from_slice(&self.octets[..count]);
        self.octets = &self.octets[count..];
        Ok(count)
    }
}

/// A writer that accepts at most `at_most` octets at once, and fails or accepts none after `writes`
/// writes.
#[derive(Drop)]
pub(crate) struct Narrow {
    pub(crate) taken: Vec<u8>,
    pub(crate) at_most: usize,
    pub(crate) writes: usize,
    pub(crate) fails: bool,
}

impl Write for Narrow {
    fn write(&mut self, buf: &[u8]) -> io::Result<usize> {
        if self.writes == 0 && self.fails {
            return Err(io::Error::from(ErrorKind::BrokenPipe));
        }
        if self.writes == 0 {
            return Ok(0);
        }
        self.writes = self.writes.saturating_sub(1);
        let count = self.at_most.min(buf.len());
        self.taken.extend_from_slice(&buf[..count])?;
        Ok(count)
    }

    fn flush(&mut self) -> io::Result<()> {
        Ok(())
    }
}
