//! A reader and a writer that fail, and count what is asked of them.

use std::cell::Cell;
use std::io;
use std::io::{ErrorKind, Read, Write};

/// The reads of a reader.
#[derive(Drop)]
pub(crate) struct Asked {
    /// The number of octets that were read.
    pub(crate) given: Cell<usize>,
    /// The number of reads.
    pub(crate) asks: Cell<usize>,
    /// The number of reads of no octets, and of those after the end or an error.
    pub(crate) wrong_asks: Cell<usize>,
}

impl Asked {
    /// Returns no reads.
    pub(crate) fn new() -> Asked {
        Asked {
            given: Cell::new(0),
            asks: Cell::new(0),
            wrong_asks: Cell::new(0),
        }
    }
}

/// A reader of some octets, at most `at_most` at once, that then ends or fails.
#[derive(Drop)]
pub(crate) struct Watched<'a> {
    pub(crate) octets: &'a [u8],
    pub(crate) at_most: usize,
    pub(crate) fails: bool,
    pub(crate) is_over: bool,
    pub(crate) asked: &'a Asked,
}

impl Read for Watched<'_> {
    fn read(&mut self, buf: &mut [u8]) -> io::Result<usize> {
        let asked = self.asked;
        asked.asks.set(asked.asks.get().saturating_add(1));
        if self.is_over || buf.is_empty() {
            asked
                .wrong_asks
                .set(asked.wrong_asks.get().saturating_add(1));
            return Ok(0);
        }
        let count = self.at_most.min(buf.len()).min(self.octets.len());
        if count == 0 {
            self.is_over = true;
            if self.fails {
                return Err(io::Error::from(ErrorKind::Interrupted));
            }
        }
        buf[..count].copy_from_slice(&self.octets[..count]);
        self.octets = &self.octets[count..];
        asked.given.set(asked.given.get().saturating_add(count));
        Ok(count)
    }
}

/// A writer that accepts the first `room` octets of a text that it knows, and then fails once or
/// accepts none once. After that it accepts all.
#[derive(Drop)]
pub(crate) struct Full<'a> {
    pub(crate) text: &'a [u8],
    pub(crate) room: usize,
    pub(crate) fails: bool,
    pub(crate) is_over: bool,
    /// The number of writes.
    pub(crate) writes: usize,
    /// The number of writes after it was full, and of those of another text.
    pub(crate) wrong_writes: usize,
}

impl Full<'_> {
    /// Accepts octets of its text.
    fn take(&mut self, octets: &[u8]) {
        match self.text.strip_prefix(octets) {
            Some(rest) => self.text = rest,
            None => self.wrong_writes = self.wrong_writes.saturating_add(1),
        }
    }
}

impl Write for Full<'_> {
    fn write(&mut self, buf: &[u8]) -> io::Result<usize> {
        self.writes = self.writes.saturating_add(1);
        if self.is_over {
            self.wrong_writes = self.wrong_writes.saturating_add(1);
            return Ok(buf.len());
        }
        let count = self.room.min(buf.len());
        self.room -= count;
        if count == 0 {
            self.is_over = true;
            if self.fails {
                return Err(io::Error::from(ErrorKind::Interrupted));
            }
        }
        self.take(&buf[..count]);
        Ok(count)
    }

    fn flush(&mut self) -> io::Result<()> {
        Ok(())
    }
}
