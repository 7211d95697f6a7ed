//! A reader of files that are in memory.

use crate::fault::FileFault;
use crate::field_reader::FieldReader;
use krb_der::KString;
use krb_source::FileWhy;
use std::alloc::Global;
use std::marker::Model;

/// A reader of the fields of a slice. No limit applies to them. Contracts see the octets that are
/// left, the place of the first of them, and the end of the entry or of the header that they are
/// in.
#[derive(Drop)]
pub struct SliceReader<'a> {
    place: u64,
    end: Option<u64>,
    octets: &'a [u8],
}

impl<'a> Model for SliceReader<'a> {
    ghost use Rattle.std.specs.Prelude.{◌+◌, ◌^◌, ◌<◌, length};
    ghost use Rattle.krb_file.specs.FieldReaders.{Slice};

    ghost Value = { Slice };

    ghost view = { λ reader. record { place = reader.place; end = reader.end; octets = reader.octets.now } };

    ghost invariant = { λ reader. reader.place + length reader.octets.now < 2 ^ 63 };
}

ghost use Rattle.std.specs.Prelude.{◌≡◌, ◌+◌, None, length, IfOk};
ghost use Rattle.krb_file.specs.Fields.{next_octets_at, are_zero};
ghost use Rattle.krb_file.specs.FieldReaders.{Follows, Keeps, FetchesTo, of_slice};

impl<'a> SliceReader<'a> {
    /// Returns a reader of a whole file.
    pub fn new(octets: &'a [u8]) -> SliceReader<'a>
        ensures { result ≡ record { place = 0; end = None; octets = octets.now } }
    {
        SliceReader {
            place: 0,
            end: None,
            octets,
        }
    }

    /// Reads the next `size` octets, borrowed.
    fn take(&mut self, size: u64) -> Result<&'a [u8], FileFault>
        ensures size { IfOk result (λ taken. length taken.now ≡ size) }
        ensures read { Follows (λ taken. taken.now) result (next_octets_at None size) ⊥ (of_slice self.old) (of_slice self.new) }
        ensures keeps { Keeps (of_slice self.old) (of_slice self.new) }
        ensures within { FetchesTo (self.old.place + size) (of_slice self.old) (of_slice self.new) }
    {
        let place = self.place;
        if self
            .end
            .is_some_and(|end| end < place || end - place < size)
        {
            return Err(FileFault::refused(place, FileWhy::Overrun));
        }
        if (self.octets.len() as u64) < size {
            return Err(FileFault::refused(place, FileWhy::Truncated));
        }
        let (taken, left) = self.octets.split_at(size as usize);
        self.octets = left;
        self.place = place + size;
        Ok(taken)
    }
}

impl<'a> FieldReader for SliceReader<'a> {
    ghost cursor = { λ reader. of_slice reader };

    ghost MayFail = { ⊥ };

    fn place(&self) -> u64 {
        self.place
    }

    fn end(&self) -> Option<u64> {
        self.end
    }

    fn set_end(&mut self, end: Option<u64>) {
        self.end = end;
    }

    fn is_empty(&mut self) -> Result<bool, FileFault> {
        Ok(self.octets.is_empty())
    }

    fn look_ahead(&mut self, _size: u64) -> Result<(), FileFault> {
        Ok(())
    }

    fn fill_near(&mut self, _octets: &mut [u8]) -> bool {
        false
    }

    fn fill(&mut self, octets: &mut [u8]) -> Result<(), FileFault> {
        let taken = self.take(octets.len() as u64)?;
        octets.copy_from_slice(taken);
        Ok(())
    }

    fn spare_octets(&mut self, alloc: Global) -> Vec<u8> {
        Vec::new(alloc)
    }

    fn spare_list(&mut self, alloc: Global) -> Vec<KString> {
        Vec::new(alloc)
    }

    fn octets(&mut self, _alloc: Global, size: u64, octets: &mut Vec<u8>) -> Result<(), FileFault> {
        let taken = self.take(size)?;
        octets.clear();
        octets.reserve_exact(taken.len())?;
        octets.extend_from_slice(taken)?;
        Ok(())
    }

    fn skip(&mut self, size: u64) -> Result<bool, FileFault> {
        let taken = self.take(size)?;
        Ok(are_zero(taken))
    }
}

/// Returns whether all of the octets are 00.
pub(crate) fn are_zero(octets: &[u8]) -> bool
    ensures { result ≡ are_zero octets.now }
{
    octets.iter().all(|octet| *octet == 0)
}
