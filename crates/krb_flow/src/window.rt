//! The last octets that a direction took, which are kept so that copies of them are compared.

ghost use Rattle.std.specs.Prelude.{◌≡◌, ◌++◌, [], IfOk, OnOk};
ghost use Rattle.krb_flow.specs.Window.{kept_in, last};

use krb_der::Memory;
use std::alloc::Global;

/// How many octets of a direction are kept: 64 KiB.
const MOST_KEPT: usize = 1 << 16;

/// How many octets of a direction that ended are kept: 4 KiB.
const MOST_KEPT_AFTER: usize = 1 << 12;

/// The last octets that a direction took. It allocates for these, and for as many that came before
/// them.
#[derive(Drop)]
pub(crate) struct Window {
    /// The last octets that were taken, of which the last `most` are kept.
    octets: Vec<u8>,
    most: usize,
}

impl Window {
    /// Creates the window of a direction that took nothing yet.
    pub(crate) fn new(alloc: Global) -> Window
        ensures most { result.most ≡ 65536 }
        ensures octets { result.octets.items ≡ [] }
    {
        Window {
            octets: Vec::new(alloc),
            most: MOST_KEPT,
        }
    }

    /// Returns the octets that are kept.
    pub(crate) fn as_slice(&self) -> &[u8]
        ensures { result.now ≡ kept_in self.now }
    {
        let octets = self.octets.as_slice();
        &octets[octets.len().saturating_sub(self.most)..]
    }

    /// Keeps octets that were taken. Those that are no longer kept are let go once they are as many
    /// as those that are.
    #[inline(always)]
    pub(crate) fn push(&mut self, alloc: Global, octets: &[u8]) -> Result<(), Memory>
        ensures most { self.new.most ≡ self.old.most }
        ensures octets { OnOk result (kept_in self.new ≡ last self.old.most (kept_in self.old ++ octets.now)) }
    {
        if octets.is_empty() {
            return Ok(());
        }
        let octets = &octets[octets.len().saturating_sub(self.most)..];
        if self.octets.len().saturating_add(octets.len()) > 2 * MOST_KEPT {
            self.trim(alloc)?;
            self.octets.extend_from_slice(octets)?;
            return Ok(());
        }
        self.octets.extend_from_slice(octets)?;
        Ok(())
    }

    /// Lets go of the octets that are no longer kept.
    #[inline(never)]
    fn trim(&mut self, alloc: Global) -> Result<(), Memory>
        ensures most { self.new.most ≡ self.old.most }
        ensures octets { OnOk result (self.new.octets.items ≡ kept_in self.old) }
    {
        self.octets = Vec::from_slice(alloc, self.as_slice())?;
        Ok(())
    }

    /// Keeps as many as those of a direction that ended.
    pub(crate) fn end(&mut self)
        ensures most { self.new.most ≡ 4096 }
        ensures octets { self.new.octets ≡ self.old.octets }
    {
        self.most = MOST_KEPT_AFTER;
    }

    /// Returns the octets that are kept, and lets go of all others.
    pub(crate) fn into_octets(self, alloc: Global) -> Result<Vec<u8>, Memory>
        ensures { IfOk result (λ octets. octets.items ≡ kept_in self) }
    {
        if self.octets.capacity() > self.most {
            return Ok(Vec::from_slice(alloc, self.as_slice())?);
        }
        Ok(self.octets)
    }
}
