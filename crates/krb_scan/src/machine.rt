//! The machine that judges octets as they come.

ghost use Rattle.std.specs.Prelude.{ℕ, List};
ghost use Rattle.krb_msg.specs.Term.{Term};
ghost use Rattle.krb_scan.specs.Scanned.{IsScanOf};

use crate::event::Event;
use crate::expected::Expected;
use crate::ledger::Ledger;
use crate::path::Path;
use crate::tip::Tip;
use krb_der::{Profile, Verdict};

/// It scans the octets of one message, one after another, and looks at each once: whether they are
/// a message, and which one is refused and why. It holds none of them, only which containers are
/// open and what is partly read, and allocates nothing.
#[derive(Drop)]
pub struct Machine {
    profile: Profile,
    path: Path,
    verdict: Verdict,
    ledger: Ledger,
    ghost reached: { ∥ ((octets : List ℕ) × (terms : List Term) × IsScanOf terms path verdict path.size octets) ∥₁ },
}

impl Machine {
    ghost use Rattle.std.specs.Prelude.{◌≡◌, ◌<◌, ◌≤◌, ◌+◌, ◌^◌, [], ◌∷◌, ◌++◌, length, min, take};
    ghost use Rattle.krb_msg.specs.Grammar.{messages};
    ghost use Rattle.krb_msg.specs.Judgement.{judgement};
    ghost use Rattle.krb_scan.specs.Scanned.{open_count};
    ghost use Rattle.krb_scan.specs.Runs.{string_left};
    ghost use Rattle.krb_scan.specs.Machine.{HasScanned, profile_of, verdict_of, ledger_of};

    /// Creates a machine for a message of `n` octets, none of them scanned yet, by a profile.
    #[inline(always)]
    pub fn new(profile: Profile, n: u32) -> Machine
        requires some { 0 < n }
        requires short { n < 2 ^ 31 }
        ensures at { HasScanned profile result n [] }
        ensures profile { profile_of result ≡ profile }
    {
        Machine {
            profile,
            path: Path::new(Expected::Message { profile }, n),
            verdict: Verdict::Open,
            ledger: Ledger::new(),
        }
    }

    /// Returns the profile that it judges by.
    pub fn profile(&self) -> Profile
        ensures { result ≡ profile_of self.now }
    {
        self.profile
    }

    /// Returns what the octets scanned so far decide.
    pub fn verdict(&self) -> Verdict
        ensures { result ≡ verdict_of self.now }
    {
        self.verdict
    }

    /// Scans an octet and returns what all so far decide.
    #[inline(always)]
    pub fn step(&mut self, octet: u8) -> Verdict
        requires { verdict_of self.old ≡ Verdict.Open }
        ensures at { (profile : Profile) (n : ℕ) (octets : List ℕ) → HasScanned profile self.old n octets → HasScanned profile self.new n (octets ++ octet ∷ []) }
        ensures answer { result ≡ verdict_of self.new }
        ensures ledger { ledger_of self.new ≡ ledger_of self.old + 1 }
        ensures profile { profile_of self.new ≡ profile_of self.old }
    {
        let decided = self.path.step(octet);
        self.verdict = decided;
        self.ledger = self.ledger.raised(&1);
        decided
    }

    /// Scans octets as `run` and `step` would, one after another, until something is decided or
    /// none is left, and returns how many.
    pub fn take(&mut self, octets: &[u8]) -> usize
        requires { verdict_of self.old ≡ Verdict.Open }
        ensures at { (profile : Profile) (n : ℕ) (before : List ℕ) → HasScanned profile self.old n before → HasScanned profile self.new n (before ++ take result octets.now) }
        ensures within { result ≤ length octets.now }
        ensures all { verdict_of self.new ≡ Verdict.Open → result ≡ length octets.now }
        ensures sooner { (profile : Profile) (n : ℕ) (before : List ℕ) (k : ℕ) → HasScanned profile self.old n before → k < result → judgement profile n (before ++ take k octets.now) ≡ Verdict.Open }
        ensures ledger { ledger_of self.new ≡ ledger_of self.old + result }
        ensures profile { profile_of self.new ≡ profile_of self.old }
    {
        let (used, verdict) = self.path.scan(octets);
        self.verdict = verdict;
        self.ledger = self.ledger.raised(&used);
        used
    }

    /// Returns the number of octets scanned.
    pub fn looked(&self) -> u32
        ensures { (profile : Profile) (n : ℕ) (octets : List ℕ) → HasScanned profile self.now n octets → result ≡ length octets }
    {
        self.path.looked
    }

    /// Returns the number of lengths that are whole and whose contents are not complete.
    pub fn open_lengths(&self) -> usize
        ensures count { (profile : Profile) (n : ℕ) (octets : List ℕ) → HasScanned profile self.now n octets → result ≡ open_count profile n octets }
        ensures few { result ≤ 13 }
    {
        match self.path.tip {
            Tip::Leaf { .. } => self.path.outer.len() + 1,
            _ => self.path.outer.len(),
        }
    }

    /// As a new machine for a message of `n` octets; but the ledger stays.
    pub fn clear(&mut self, n: u32)
        requires some { 0 < n }
        requires short { n < 2 ^ 31 }
        ensures at { HasScanned (profile_of self.old) self.new n [] }
        ensures profile { profile_of self.new ≡ profile_of self.old }
        ensures ledger { ledger_of self.new ≡ ledger_of self.old }
    {
        self.path.clear(
            Expected::Message {
                profile: self.profile,
            },
            n,
        );
        self.verdict = Verdict::Open;
    }

    /// Scans the longest prefix of octets that lies inside an open OCTET STRING, or a GeneralString
    /// that may have any octets, and stops short of its last octet, and says how many these are.
    /// The verdict stays.
    pub fn run(&mut self, octets: &[u8]) -> usize
        ensures at { (profile : Profile) (n : ℕ) (before : List ℕ) → HasScanned profile self.old n before → HasScanned profile self.new n (before ++ take result octets.now) }
        ensures longest { (profile : Profile) (n : ℕ) (before : List ℕ) → HasScanned profile self.old n before → result ≡ min (length octets.now) (string_left (messages profile) n before) }
        ensures verdict { verdict_of self.new ≡ verdict_of self.old }
        ensures ledger { ledger_of self.new ≡ ledger_of self.old + result }
        ensures profile { profile_of self.new ≡ profile_of self.old }
    {
        let Verdict::Open = self.verdict else {
            return 0;
        };
        let count = self.path.run(octets);
        let count = count as usize;
        self.ledger = self.ledger.raised(&count);
        count
    }
}

impl Machine {
    ghost use Rattle.std.specs.Prelude.{◌≡◌, [], ◌∷◌, ◌++◌};
    ghost use Rattle.krb_msg.specs.Grammar.{messages};
    ghost use Rattle.krb_msg.specs.Judgement.{judgement};
    ghost use Rattle.krb_scan.specs.Scan.{scan};
    ghost use Rattle.krb_scan.specs.Scanned.{Marks};
    ghost use Rattle.krb_scan.specs.Machine.{HasScanned, verdict_of};
    ghost use Rattle.krb_scan.specs.inner.Paths.{ChangesTo};

    /// Returns what one octet more decides.
    pub(crate) fn peek(&self, octet: u8) -> Verdict
        requires { verdict_of self.now ≡ Verdict.Open }
        ensures { (profile : Profile) (n : ℕ) (octets : List ℕ) → HasScanned profile self.now n octets → result ≡ judgement profile n (octets ++ octet ∷ []) }
    {
        self.path.copy().step(octet)
    }

    /// Returns what an octet more does to the marks, if it is not refused.
    pub(crate) fn event(&self, octet: u8) -> Event
        requires { verdict_of self.now ≡ Verdict.Open }
        ensures { (profile : Profile) (n : ℕ) (octets : List ℕ) → HasScanned profile self.now n octets → ChangesTo result (Marks profile n octets) (scan (messages profile) n (octets ++ octet ∷ [])) }
    {
        self.path.event(octet)
    }
}
