//! Readers that were begun.

ghost use Rattle.std.specs.Prelude.{◌≡◌, length, IfOk, Some};
ghost use Rattle.std.specs.Io.KnownBytes.{Keeps};

use crate::piece::Piece;
use crate::run::PIECE_OCTETS;
use std::alloc::{AllocError, Global};
use std::io;
use std::io::{Error, Read};

/// How many octets of a source tell what it is: no more are looked at.
const FIRST_OCTETS: usize = 16;

/// What follows the first octets of a reader.
#[derive(Clone, Copy)]
enum Then {
    /// What the reader has.
    Others,
    /// The end, which was seen.
    End,
    /// A read that failed, and then what the reader has.
    Fault(Error),
}

/// A reader of which the first pieces were read, one if that has enough octets. The first 16 of them
/// are lent, and all are read again before what follows them. A read that failed fails when it is
/// come to.
#[derive(Drop)]
pub struct Begun<R> {
    reader: R,
    piece: Piece,
    then: Then,
}

impl<R> Begun<R> {
    ghost use Rattle.krb_run.specs.Begun.{first_of};

    /// Returns the first of the octets that were read, at most 16.
    pub fn first(&self) -> &[u8]
        ensures { result.now ≡ first_of self.now }
    {
        let octets = self.piece.octets();
        &octets[..octets.len().min(FIRST_OCTETS)]
    }
}

impl<R: Read + Drop> Begun<R> {
    ghost use Rattle.krb_run.specs.Begun.{BeginsWith, IsEnough, begun_remaining, first_of};

    /// Reads the first pieces of a reader, until there are at least `least` octets, or 16, or it ends
    /// or a read fails. It is asked for 64 KiB at once, now and later: what keeps records, as a socket
    /// of messages does, gives one at each read, and loses what is not asked for. The error is
    /// running out of memory.
    pub fn begin(alloc: Global, reader: R, least: usize) -> Result<Begun<R>, AllocError>
        ensures keeps { IfOk result (λ begun. Keeps (R.remaining reader) (begun_remaining R.remaining begun)) }
        ensures begins { IfOk result (λ begun. BeginsWith (first_of begun) (begun_remaining R.remaining begun)) }
        ensures enough { IfOk result (λ begun. IsEnough begun.then least (length (first_of begun))) }
        ensures whole { IfOk result (λ begun. begun.then ≡ Then.End → begun_remaining R.remaining begun ≡ Some (first_of begun)) }
    {
        let least = least.min(FIRST_OCTETS);
        let mut reader = reader;
        let mut piece = Piece::new(alloc, PIECE_OCTETS)?;
        'reads: while piece.octets().len() < least {
            match piece.read_more(&mut reader) {
                Ok(0) => return Ok(begun_reader(reader, piece, Then::End)),
                Ok(_) => {}
                Err(error) => return Ok(begun_reader(reader, piece, Then::Fault(error))),
            }
        }
        Ok(begun_reader(reader, piece, Then::Others))
    }
}

/// Returns a reader whose first octets were read.
fn begun_reader<R>(reader: R, piece: Piece, then: Then) -> Begun<R>
    ensures reader { result.reader ≡ reader }
    ensures piece { result.piece ≡ piece }
    ensures then { result.then ≡ then }
{
    Begun {
        reader,
        piece,
        then,
    }
}

impl<R: Read> Read for Begun<R> {
    ghost use Rattle.krb_run.specs.Begun.{begun_remaining};

    ghost remaining = { begun_remaining R.remaining };

    fn read(&mut self, buffer: &mut [u8]) -> io::Result<usize> {
        if !self.piece.octets().is_empty() {
            return Ok(self.piece.give(buffer));
        }
        match self.then {
            Then::Others => self.piece.read(&mut self.reader, buffer),
            Then::End => Ok(0),
            Then::Fault(error) => {
                self.then = Then::Others;
                Err(error)
            }
        }
    }
}
