//! A reader of files as they come.

use crate::ahead::Ahead;
use crate::fault::{FileFault, ReadFailed};
use crate::field_reader::FieldReader;
use crate::slice_reader::are_zero;
use krb_der::{GiveBack, KString, Limit, SpareVectors};
use krb_source::FileWhy;
use std::alloc::Global;
use std::io::Read;
use std::marker::Model;

/// The greatest number of reads.
const MOST_ASKS: u64 = 1 << 40;

/// The greatest number of octets of a field that are read first. After that at most the number of
/// octets that came before is read at once.
const LEAST_PIECE: u64 = 4096;

/// The greatest number of octets that are read at once, 4 MiB.
const GREATEST_PIECE: u64 = 1 << 22;

/// A reader of the fields of anything that can be read. It reads when a field needs octets, when
/// [`is_empty`](FieldReader::is_empty) asks whether any are left, and when
/// [`look_ahead`](FieldReader::look_ahead) announces how many follow, and never more than these.
/// It reads at most 2^40 times, and not after the end.
#[derive(Drop)]
pub struct StreamReader<R: Read> {
    reader: R,
    limit: Limit,
    place: u64,
    end: Option<u64>,
    /// The octets that were read ahead.
    ahead: Ahead,
    /// A field of fewer octets than this was read ahead, is inside the end and is under the limit.
    near: usize,
    /// Whether the end was read.
    ended: bool,
    asks: u64,
    /// Vectors for fields of octets.
    spare: SpareVectors,
}

impl<R: Read> Model for StreamReader<R> {
    ghost use Rattle.std.specs.Prelude.{◌+◌, ◌*◌, ◌^◌, ◌≤◌, Some, length};
    ghost use Rattle.krb_file.specs.FieldReaders.{Cursor, left_of};
    ghost use Rattle.krb_file.specs.inner.Takes.{AreNear};

    ghost Value = { Cursor };

    ghost view = { λ s. record { ahead = s.ahead; left = left_of s.ended (R.remaining s.reader); place = s.place; bounds = record { end = s.end; limit = Some s.limit } } };

    ghost invariant = { λ s. (s.place + length s.ahead ≤ s.asks * 2 ^ 22) × (s.asks ≤ 2 ^ 40) × AreNear s.near (length s.ahead) s.place s.end s.limit };
}

ghost use Rattle.std.specs.Prelude.{◌≡◌, ◌+◌, ◌^◌, ◌<◌, ◌≤◌, false, [], length, take, None, Some, IfOk, IfErr, OnOk};
ghost use Rattle.std.specs.Io.KnownBytes.{Consumes, IsAtEnd};
ghost use Rattle.krb_file.specs.Fields.{exceeds, next_octets_at, octets_at};
ghost use Rattle.krb_file.specs.FieldReaders.{MayRemain, FailsBy, Follows, Stays, Keeps, FetchesTo, LooksAheadTo};
ghost use Rattle.krb_file.specs.inner.Takes.{Takes, Within, FailsTaking, AreNear};

/// Reads from a reader, and returns how many octets came: 0 at its end.
pub(crate) fn ask<R: Read>(
    reader: &mut R,
    asks: &mut u64,
    octets: &mut [u8],
) -> Result<usize, ReadFailed>
    requires some { 0 < length octets.old }
    requires few { asks.old ≤ 2 ^ 40 }
    ensures count { IfOk result (λ count. count ≤ length octets.new) }
    ensures taken { IfOk result (λ count. Consumes (R.remaining reader.old) (R.remaining reader.new) (take count octets.new)) }
    ensures end { IfOk result (λ count. count ≡ 0 → IsAtEnd (R.remaining reader.new)) }
    ensures counted { OnOk result (asks.new ≡ asks.old + 1) }
    ensures asked { asks.old ≤ asks.new }
    ensures still_few { asks.new ≤ 2 ^ 40 }
{
    if *asks == MOST_ASKS {
        return Err(ReadFailed);
    }
    *asks += 1;
    match reader.read(octets) {
        Ok(count) => Ok(count),
        Err(_) => Err(ReadFailed),
    }
}

impl<R: Read> StreamReader<R> {
    /// Returns a reader of the fields of `reader`, from place 0 on. A field of octets may not be
    /// longer than the limit.
    pub fn new(reader: R, limit: Limit) -> StreamReader<R>
        ensures { result ≡ record { ahead = []; left = R.remaining reader; place = 0; bounds = record { end = None; limit = Some limit } } }
    {
        StreamReader {
            reader,
            limit,
            place: 0,
            end: None,
            ahead: Ahead::new(),
            near: 0,
            ended: false,
            asks: 0,
            spare: SpareVectors::new(),
        }
    }

    /// Gives back a value that was read, whose vectors are used for the next fields of octets.
    pub fn give_back<T: GiveBack>(&mut self, value: T)
        ensures { self.new ≡ self.old }
    {
        value.give_back(&mut self.spare);
    }

    /// Reads ahead unless octets are left of those read before: what comes at once, at most `most`
    /// octets.
    fn read_ahead(&mut self, most: u64) -> Result<(), ReadFailed>
        requires { 0 < most }
        ensures same { OnOk result (Takes self.old self.new []) }
        ensures looks { LooksAheadTo most self.old self.new }
        ensures end { OnOk result (self.new.ahead ≡ [] → self.new.left ≡ Some []) }
    {
        if self.ahead.count() == 0 && !self.ended {
            self.near = 0;
            self.ahead.refill(&mut self.reader, &mut self.asks, most)?;
            let count = self.ahead.count();
            self.ended = count == 0;
            self.near = near(count, self.place, self.end, self.limit);
        }
        Ok(())
    }

    /// Moves the octets that come at once into `octets`, and returns their number: 0 if none is
    /// left.
    #[inline(always)]
    fn take(&mut self, octets: &mut [u8]) -> Result<usize, ReadFailed>
        requires some { 0 < length octets.old }
        requires few { length octets.old ≤ 2 ^ 22 }
        ensures count { IfOk result (λ count. count ≤ length octets.new) }
        ensures taken { IfOk result (λ count. Takes self.old self.new (take count octets.new)) }
        ensures stays { Stays self.old self.new }
        ensures within { Within (length octets.old) self.old self.new }
        ensures end { IfOk result (λ count. count ≡ 0 → MayRemain self.new []) }
    {
        let count = octets.len().min(self.ahead.count());
        if count > 0 {
            self.take_ahead(&mut octets[..count]);
            return Ok(count);
        }
        if self.ended {
            return Ok(0);
        }
        self.near = 0;
        let count = ask(&mut self.reader, &mut self.asks, octets)?;
        self.place += count as u64;
        self.ended = count == 0;
        Ok(count)
    }

    /// Moves octets that were read ahead, until they end or `octets` is full. It clears `near`.
    fn take_ahead(&mut self, octets: &mut [u8])
        requires { length octets.old ≤ length self.old.ahead }
        ensures taken { Takes self.old self.new octets.new }
        ensures stays { Stays self.old self.new }
    {
        self.near = 0;
        self.ahead.fill(octets);
        self.place += octets.len() as u64;
    }

    /// Fills `octets`. If there are too few left, the field that begins at `start` is Truncated.
    #[inline(always)]
    fn take_all(&mut self, start: u64, octets: &mut [u8]) -> Result<(), FileFault>
        requires { length octets.old ≤ 2 ^ 22 }
        ensures taken { OnOk result (Takes self.old self.new octets.new) }
        ensures stays { Stays self.old self.new }
        ensures within { Within (length octets.old) self.old self.new }
        ensures fault { IfErr result (λ e. FailsTaking e start self.old self.new (length octets.old)) }
    {
        let mut filled = 0;
        'pieces: while filled < octets.len() {
            let count = self.take(&mut octets[filled..])?;
            if count == 0 {
                return Err(FileFault::refused(start, FileWhy::Truncated));
            }
            filled += count;
        }
        Ok(())
    }

    /// Reads `count` octets into `piece`, in place of its octets, as
    /// [`take_all`](StreamReader::take_all) does.
    #[inline(always)]
    fn take_piece(&mut self, start: u64, count: usize, piece: &mut Vec<u8>) -> Result<(), FileFault>
        requires { count ≤ 2 ^ 22 }
        ensures taken { OnOk result (Takes self.old self.new piece.new.items) }
        ensures stays { Stays self.old self.new }
        ensures within { Within count self.old self.new }
        ensures size { OnOk result (length piece.new.items ≡ count) }
        ensures fault { IfErr result (λ e. FailsTaking e start self.old self.new count) }
    {
        piece.clear();
        piece.reserve_exact(count)?;
        piece.resize(count, 0)?;
        self.take_all(start, piece.as_mut_slice())
    }

    /// Reads a field of octets, piece by piece.
    #[inline(never)]
    fn take_octets(
        &mut self,
        alloc: Global,
        size: u64,
        octets: &mut Vec<u8>,
    ) -> Result<(), FileFault>
        requires inside { exceeds (self.old.place + size) self.old.bounds.end ≡ false }
        requires under { exceeds size self.old.bounds.limit ≡ false }
        ensures read { Follows (λ _. octets.new.items) result (octets_at size) (Unit {0}) self.old self.new }
        ensures stays { Stays self.old self.new }
        ensures within { Within size self.old self.new }
    {
        let place = self.place;
        self.take_piece(place, size.min(LEAST_PIECE) as usize, octets)?;
        let mut piece = Vec::new(alloc);
        'pieces: while (octets.len() as u64) < size {
            let came = octets.len() as u64;
            let count = (size - came).min(came).min(GREATEST_PIECE);
            self.take_piece(place, count as usize, &mut piece)?;
            octets.extend_from_slice(piece.as_slice())?;
        }
        Ok(())
    }

    /// Returns the place of the next octet.
    fn at(&self) -> u64
        ensures { result ≡ self.now.place }
    {
        self.place
    }

    /// Returns whether `size` octets pass the end of the entry or of the header that they are in.
    fn exceeds_end(&self, size: u64) -> bool
        ensures { result ≡ exceeds (self.now.place + size) self.now.bounds.end }
    {
        match self.end {
            Some(end) => end < self.place || end - self.place < size,
            None => false,
        }
    }

    /// Refuses a field that passes the end of what it is in, or is longer than `most`.
    #[inline(always)]
    fn check(&self, size: u64, most: Option<u64>) -> Result<(), FileFault>
        ensures inside { OnOk result (exceeds (self.now.place + size) self.now.bounds.end ≡ false) }
        ensures under { OnOk result (exceeds size most ≡ false) }
        ensures fault { IfErr result (λ e. FailsBy e (next_octets_at most size) (Unit {0}) self.now) }
    {
        let place = self.at();
        if self.exceeds_end(size) {
            return Err(FileFault::refused(place, FileWhy::Overrun));
        }
        if is_longer(size, most) {
            return Err(FileFault::refused(place, FileWhy::TooLong(size)));
        }
        Ok(())
    }

    /// Refuses a field of octets that passes the end of what it is in, or is longer than the limit.
    fn check_octets(&self, size: u64) -> Result<(), FileFault>
        ensures inside { OnOk result (exceeds (self.now.place + size) self.now.bounds.end ≡ false) }
        ensures under { OnOk result (exceeds size self.now.bounds.limit ≡ false) }
        ensures fault { IfErr result (λ e. FailsBy e (octets_at size) (Unit {0}) self.now) }
    {
        let most = self.limit.get() as u64;
        self.check(size, Some(most))
    }

    /// Reads the next octets of a field that is not a field of octets, whether they were read ahead
    /// or not.
    #[inline(never)]
    fn fill_slowly(&mut self, octets: &mut [u8]) -> Result<(), FileFault>
        requires { length octets.old ≤ 2 ^ 16 }
        ensures read { Follows (λ _. octets.new) result (next_octets_at None (length octets.old)) (Unit {0}) self.old self.new }
        ensures keeps { Keeps self.old self.new }
        ensures within { FetchesTo (self.old.place + length octets.old) self.old self.new }
    {
        let place = self.place;
        self.check(octets.len() as u64, None)?;
        self.take_all(place, octets)
    }

    /// Reads a field of octets, whether they were read ahead or not.
    #[inline(never)]
    fn octets_slowly(
        &mut self,
        alloc: Global,
        size: u64,
        octets: &mut Vec<u8>,
    ) -> Result<(), FileFault>
        ensures read { Follows (λ _. octets.new.items) result (octets_at size) (Unit {0}) self.old self.new }
        ensures keeps { Keeps self.old self.new }
        ensures within { FetchesTo (self.old.place + size) self.old self.new }
    {
        self.check_octets(size)?;
        if size > LEAST_PIECE {
            return self.take_octets(alloc, size, octets);
        }
        self.take_piece(self.place, size as usize, octets)
    }
}

impl<R: Read> FieldReader for StreamReader<R> {
    ghost cursor = { λ reader. reader };

    ghost MayFail = { Unit {0} };

    fn place(&self) -> u64 {
        self.place
    }

    fn end(&self) -> Option<u64> {
        self.end
    }

    fn set_end(&mut self, end: Option<u64>) {
        self.end = end;
        self.near = near(self.ahead.count(), self.place, end, self.limit);
    }

    fn is_empty(&mut self) -> Result<bool, FileFault> {
        self.read_ahead(1)?;
        Ok(self.ahead.count() == 0)
    }

    fn look_ahead(&mut self, size: u64) -> Result<(), FileFault> {
        if size > 0 {
            self.read_ahead(size)?;
        }
        Ok(())
    }

    #[inline(always)]
    fn fill_near(&mut self, octets: &mut [u8]) -> bool {
        if octets.len() >= self.near {
            return false;
        }
        self.near -= octets.len();
        self.ahead.fill(octets);
        self.place += octets.len() as u64;
        true
    }

    #[inline(always)]
    fn fill(&mut self, octets: &mut [u8]) -> Result<(), FileFault> {
        if self.fill_near(octets) {
            Ok(())
        } else {
            self.fill_slowly(octets)
        }
    }

    #[inline(always)]
    fn spare_octets(&mut self, alloc: Global) -> Vec<u8> {
        self.spare.take(alloc)
    }

    fn spare_list(&mut self, alloc: Global) -> Vec<KString> {
        self.spare.take_list(alloc)
    }

    #[inline(always)]
    fn octets(&mut self, alloc: Global, size: u64, octets: &mut Vec<u8>) -> Result<(), FileFault> {
        if size >= self.near as u64 {
            return self.octets_slowly(alloc, size, octets);
        }
        self.ahead.copy(size as usize, octets)?;
        self.near -= size as usize;
        self.place += size;
        Ok(())
    }

    fn skip(&mut self, size: u64) -> Result<bool, FileFault> {
        let place = self.place;
        self.check(size, None)?;
        let mut buffer = [0; LEAST_PIECE as usize];
        let mut zeros = true;
        let mut left = size;
        'pieces: while left > 0 {
            let count = left.min(LEAST_PIECE);
            let piece = &mut buffer[..count as usize];
            self.take_all(place, piece)?;
            let more = are_zero(piece);
            zeros &= more;
            left -= count;
        }
        Ok(zeros)
    }
}

/// Returns the least number of octets of a field at `place` that was not read ahead or that passes
/// the end or the limit, if `ahead` octets were read ahead.
fn near(ahead: usize, place: u64, end: Option<u64>, limit: Limit) -> usize
    requires { ahead ≤ 512 }
    ensures { AreNear result ahead place end limit }
{
    let most = (ahead as u64).min(limit.get() as u64);
    let count = match end {
        Some(end) if end < place => return 0,
        Some(end) => most.min(end - place),
        None => most,
    };
    count as usize + 1
}

/// Returns whether a number of octets is greater than `most`, if there is such a limit.
fn is_longer(size: u64, most: Option<u64>) -> bool
    ensures { result ≡ exceeds size most }
{
    match most {
        Some(most) => most < size,
        None => false,
    }
}
