//! Octets that were read and are given again.

ghost use Rattle.std.specs.Prelude.{◌≡◌, ◌+◌, ◌++◌, ◌<◌, ◌≤◌, [], ℕ, List, Option, length, min, take, vec_len, IfOk, OnErr};
ghost use Rattle.std.specs.Io.KnownBytes.{Consumes, IsAtEnd, Keeps, ReadConsumes, prepend_known};

use crate::run::PIECE_OCTETS;
use std::alloc::{AllocError, Global};
use std::io;
use std::io::Read;

/// Octets of a reader that were read and are not given yet, in a room for a piece.
#[derive(Drop)]
pub(crate) struct Piece {
    room: Vec<u8>,
    /// How many octets are in the room, from its beginning.
    filled: usize,
    /// How many of them are given.
    given: usize,
    pub ghost in_order: { given ≤ filled },
    pub ghost inside: { filled ≤ vec_len room },
    pub ghost some_room: { 0 < vec_len room },
}

impl Piece {
    ghost use Rattle.krb_run.specs.Begun.{octets_of};

    /// Returns room for so many octets, with none in it.
    pub(crate) fn new(alloc: Global, size: usize) -> Result<Piece, AllocError>
        requires { 0 < size }
        ensures none { IfOk result (λ piece. octets_of piece ≡ []) }
        ensures given { IfOk result (λ piece. piece.given ≡ 0) }
        ensures room { IfOk result (λ piece. vec_len piece.room ≡ size) }
    {
        let mut room = Vec::new(alloc);
        room.resize(size, 0)?;
        Ok(Piece {
            room,
            filled: 0,
            given: 0,
        })
    }

    /// Returns the octets.
    pub(crate) fn octets(&self) -> &[u8]
        ensures { result.now ≡ octets_of self.now }
    {
        let octets = &self.room[..self.filled];
        &octets[self.given..]
    }

    /// Reads after the octets that are there, and returns how many came: the reader is asked for as
    /// many as there is room for.
    pub(crate) fn read_more<R: Read>(&mut self, reader: &mut R) -> io::Result<usize>
        requires { self.old.given ≡ 0 }
        ensures given { self.new.given ≡ 0 }
        ensures room { vec_len self.new.room ≡ vec_len self.old.room }
        ensures count { IfOk result (λ count. self.new.filled ≡ self.old.filled + count) }
        ensures read { IfOk result (λ count. (had : Option (List ℕ)) → Consumes had (R.remaining reader.old) (octets_of self.old) → Consumes had (R.remaining reader.new) (octets_of self.new)) }
        ensures end { IfOk result (λ count. count ≡ 0 → self.old.filled < vec_len self.old.room → IsAtEnd (R.remaining reader.new)) }
        ensures kept { OnErr result (Keeps (R.remaining reader.old) (R.remaining reader.new)) }
        ensures same { OnErr result (octets_of self.new ≡ octets_of self.old) }
    {
        let count = reader.read(&mut self.room.as_mut_slice()[self.filled..])?;
        self.filled += count;
        Ok(count)
    }

    /// Moves as many of the octets as there is room for, and returns how many.
    pub(crate) fn give(&mut self, buffer: &mut [u8]) -> usize
        ensures count { result ≡ min (length (octets_of self.old)) (length buffer.new) }
        ensures given { octets_of self.old ≡ take result buffer.new ++ octets_of self.new }
    {
        let octets = &self.room[..self.filled];
        let count = (self.filled - self.given).min(buffer.len());
        buffer[..count].copy_from_slice(&octets[self.given..self.given + count]);
        self.given += count;
        count
    }

    /// Forgets the octets. If they filled the room, the reader has many, and it grows to that of a
    /// piece, unless memory runs out.
    fn clear(&mut self)
        ensures none { octets_of self.new ≡ [] }
        ensures given { self.new.given ≡ 0 }
        ensures filled { self.new.filled ≡ 0 }
    {
        if self.filled == self.room.len() && self.filled < PIECE_OCTETS {
            let _ = self.room.resize(PIECE_OCTETS, 0);
        }
        self.filled = 0;
        self.given = 0;
    }

    /// Reads what is there, or, if nothing is, what the reader returns at once. The reader is asked
    /// for as many octets as there is room for, or as the caller asks for if those are a piece.
    pub(crate) fn read<R: Read>(&mut self, reader: &mut R, buffer: &mut [u8]) -> io::Result<usize>
        ensures bound { IfOk result (λ count. count ≤ length buffer.new) }
        ensures bytes { ReadConsumes (prepend_known (octets_of self.old) (R.remaining reader.old)) (prepend_known (octets_of self.new) (R.remaining reader.new)) result buffer.new }
    {
        if self.given < self.filled {
            return Ok(self.give(buffer));
        }
        if buffer.len() >= PIECE_OCTETS {
            return reader.read(buffer);
        }
        self.clear();
        self.read_more(reader)?;
        Ok(self.give(buffer))
    }
}
