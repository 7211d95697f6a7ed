//! The scanner: a machine with a mark for each item.

ghost use Rattle.std.specs.Prelude.{ℕ, List};
ghost use Rattle.krb_der.specs.declared.profile.Profile.{Profile};
ghost use Rattle.krb_scan.specs.Machine.{HasMarked};

use crate::event::Event;
use crate::machine::Machine;
use crate::mark::Mark;
use crate::scanned::Scanned;
use krb_der::{Memory, Profile, Verdict};
use std::alloc::Global;

/// It scans the octets of one message, one after another, and looks at each once. It holds none of
/// them: only which containers are open, what is partly read, and a mark for each item.
#[derive(Drop)]
pub struct Scanner {
    machine: Machine,
    /// A mark for each length that is whole, in the order of the lengths.
    marks: Vec<Mark>,
    ghost reached: { ∥ ((octets : List ℕ) × (profile : Profile) × HasMarked profile machine marks.items machine.path.size octets) ∥₁ },
}

impl Scanner {
    ghost use Rattle.std.specs.Prelude.{◌≡◌, ◌<◌, ◌≤◌, ◌*◌, ◌+◌, ◌/◌, ◌^◌, [], ◌∷◌, ◌++◌, length, min, take, Ok, None, IsOk, OnOk, OnErr, IfOk, IfSome};
    ghost use Rattle.krb_msg.specs.Grammar.{messages};
    ghost use Rattle.krb_msg.specs.Judgement.{judgement};
    ghost use Rattle.krb_scan.specs.Scanned.{Marks, open_count};
    ghost use Rattle.krb_scan.specs.Runs.{string_left};
    ghost use Rattle.krb_scan.specs.Scanner.{HasScanned, profile_of, verdict_of, ledger_of, looked_of, marks_of, capacity_of};

    /// Creates a scanner of a message of `n` octets, none of them scanned yet, by the lenient
    /// profile.
    pub fn new(alloc: Global, n: u32) -> Scanner
        requires some { 0 < n }
        requires short { n < 2 ^ 31 }
        ensures at { HasScanned Profile.Lenient result n [] }
        ensures profile { profile_of result ≡ Profile.Lenient }
    {
        Scanner::with_profile(alloc, Profile::Lenient, n)
    }

    /// Creates a scanner of a message of `n` octets, none of them scanned yet, by a profile. It
    /// allocates nothing.
    #[inline(always)]
    pub fn with_profile(alloc: Global, profile: Profile, n: u32) -> Scanner
        requires some { 0 < n }
        requires short { n < 2 ^ 31 }
        ensures at { HasScanned profile result n [] }
        ensures profile { profile_of result ≡ profile }
    {
        Scanner {
            machine: Machine::new(profile, n),
            marks: Vec::new(alloc),
        }
    }

    /// Returns the profile that it judges by.
    pub fn profile(&self) -> Profile
        ensures { result ≡ profile_of self.now }
    {
        self.machine.profile()
    }

    /// Returns what the octets scanned so far decide.
    pub fn verdict(&self) -> Verdict
        ensures { result ≡ verdict_of self.now }
    {
        self.machine.verdict()
    }

    /// Scans an octet. If out of memory, it stays as it was and the octet may be scanned again.
    /// It allocates nothing if there is capacity for half as many marks as the message has octets.
    pub fn step(&mut self, octet: u8) -> Result<Verdict, Memory>
        requires { verdict_of self.old ≡ Verdict.Open }
        ensures at { (profile : Profile) (n : ℕ) (octets : List ℕ) → HasScanned profile self.old n octets → OnOk result (HasScanned profile self.new n (octets ++ octet ∷ [])) }
        ensures answer { IfOk result (λ decided. decided ≡ verdict_of self.new) }
        ensures ledger { OnOk result (ledger_of self.new ≡ ledger_of self.old + 1) }
        ensures memory { (profile : Profile) (n : ℕ) (octets : List ℕ) → HasScanned profile self.old n octets → OnErr result (HasScanned profile self.new n octets) }
        ensures full { OnErr result (capacity_of self.old ≤ length (marks_of self.old)) }
        ensures ends { (profile : Profile) (n : ℕ) (octets : List ℕ) → HasScanned profile self.old n octets → OnErr result (length (Marks profile n (octets ++ octet ∷ [])) ≡ length (Marks profile n octets) + 1) }
        ensures enough { (profile : Profile) (n : ℕ) (octets : List ℕ) → HasScanned profile self.old n octets → n / 2 ≤ capacity_of self.old → IsOk result }
        ensures capacity { capacity_of self.old ≤ capacity_of self.new }
        ensures profile { profile_of self.new ≡ profile_of self.old }
        ensures same { OnErr result ((ledger_of self.new ≡ ledger_of self.old) × (verdict_of self.new ≡ verdict_of self.old) × (marks_of self.new ≡ marks_of self.old)) }
    {
        mark(&self.machine, &mut self.marks, octet)?;
        Ok(self.machine.step(octet))
    }

    /// Scans octets one after another, as `run` and `step` do, until something is decided or none is
    /// left. If out of memory, the scanner stays as it was before the octet that was not scanned.
    pub fn take(&mut self, octets: &[u8]) -> Scanned
        requires { verdict_of self.old ≡ Verdict.Open }
        ensures at { (profile : Profile) (n : ℕ) (before : List ℕ) → HasScanned profile self.old n before → HasScanned profile self.new n (before ++ take result.used octets.now) }
        ensures within { result.used ≤ length octets.now }
        ensures answer { IfOk result.verdict (λ decided. decided ≡ verdict_of self.new) }
        ensures all { result.verdict ≡ Ok Verdict.Open → result.used ≡ length octets.now }
        ensures sooner { (profile : Profile) (n : ℕ) (before : List ℕ) (k : ℕ) → HasScanned profile self.old n before → k < result.used → judgement profile n (before ++ take k octets.now) ≡ Verdict.Open }
        ensures ledger { ledger_of self.new ≡ ledger_of self.old + result.used }
        ensures memory { OnErr result.verdict (verdict_of self.new ≡ Verdict.Open) }
        ensures full { OnErr result.verdict (capacity_of self.old ≤ length (marks_of self.new)) }
        ensures ends { (profile : Profile) (n : ℕ) (before : List ℕ) → HasScanned profile self.old n before → OnErr result.verdict (length (Marks profile n (before ++ take (result.used + 1) octets.now)) ≡ length (Marks profile n (before ++ take result.used octets.now)) + 1) }
        ensures enough { (profile : Profile) (n : ℕ) (before : List ℕ) → HasScanned profile self.old n before → n / 2 ≤ capacity_of self.old → IsOk result.verdict }
        ensures capacity { capacity_of self.old ≤ capacity_of self.new }
        ensures profile { profile_of self.new ≡ profile_of self.old }
    {
        let mut used = 0;
        'octets: while used < octets.len() {
            let scanned = self.take_some(&octets[used..]);
            used += scanned.used;
            let Ok(Verdict::Open) = scanned.verdict else {
                return Scanned {
                    used,
                    verdict: scanned.verdict,
                };
            };
        }
        Scanned {
            used,
            verdict: Ok(Verdict::Open),
        }
    }

    /// Scans some octets at once, of which there is at least one: what `run` scans, or else an
    /// octet.
    fn take_some(&mut self, octets: &[u8]) -> Scanned
        requires open { verdict_of self.old ≡ Verdict.Open }
        requires some { 0 < length octets.now }
        ensures at { (profile : Profile) (n : ℕ) (before : List ℕ) → HasScanned profile self.old n before → HasScanned profile self.new n (before ++ take result.used octets.now) }
        ensures within { result.used ≤ length octets.now }
        ensures answer { IfOk result.verdict (λ decided. decided ≡ verdict_of self.new) }
        ensures some { result.verdict ≡ Ok Verdict.Open → 0 < result.used }
        ensures sooner { (profile : Profile) (n : ℕ) (before : List ℕ) (k : ℕ) → HasScanned profile self.old n before → k < result.used → judgement profile n (before ++ take k octets.now) ≡ Verdict.Open }
        ensures ledger { ledger_of self.new ≡ ledger_of self.old + result.used }
        ensures memory { OnErr result.verdict (verdict_of self.new ≡ Verdict.Open) }
        ensures full { OnErr result.verdict (capacity_of self.old ≤ length (marks_of self.new)) }
        ensures ends { (profile : Profile) (n : ℕ) (before : List ℕ) → HasScanned profile self.old n before → OnErr result.verdict (length (Marks profile n (before ++ take (result.used + 1) octets.now)) ≡ length (Marks profile n (before ++ take result.used octets.now)) + 1) }
        ensures capacity { capacity_of self.old ≤ capacity_of self.new }
        ensures profile { profile_of self.new ≡ profile_of self.old }
    {
        let count = self.run(octets);
        if count > 0 {
            return Scanned {
                used: count,
                verdict: Ok(Verdict::Open),
            };
        }
        match self.step(octets[0]) {
            Ok(verdict) => Scanned {
                used: 1,
                verdict: Ok(verdict),
            },
            Err(memory) => Scanned {
                used: 0,
                verdict: Err(memory),
            },
        }
    }

    /// Returns the number of octets scanned.
    pub fn looked(&self) -> u32
        ensures { (profile : Profile) (n : ℕ) (octets : List ℕ) → HasScanned profile self.now n octets → result ≡ length octets }
    {
        self.machine.looked()
    }

    /// Returns the number of lengths that are whole and whose contents are not complete.
    pub fn open_lengths(&self) -> usize
        ensures count { (profile : Profile) (n : ℕ) (octets : List ℕ) → HasScanned profile self.now n octets → result ≡ open_count profile n octets }
        ensures few { result ≤ 13 }
    {
        self.machine.open_lengths()
    }

    /// Returns a mark for each length that is whole, in the order of the lengths.
    pub fn marks(&self) -> &[Mark]
        ensures marks { result.now ≡ marks_of self.now }
        ensures few { 2 * length result.now ≤ looked_of self.now }
    {
        self.marks.as_slice()
    }

    /// Returns the number of marks for which memory is allocated, with those that are there.
    pub fn capacity(&self) -> usize
        ensures { result ≡ capacity_of self.now }
    {
        self.marks.capacity()
    }

    /// Resets the scanner for a message of `n` octets. The capacity for marks stays, and so does the
    /// ledger.
    pub fn clear(&mut self, n: u32)
        requires some { 0 < n }
        requires short { n < 2 ^ 31 }
        ensures at { HasScanned (profile_of self.old) self.new n [] }
        ensures profile { profile_of self.new ≡ profile_of self.old }
        ensures ledger { ledger_of self.new ≡ ledger_of self.old }
        ensures capacity { capacity_of self.old ≤ capacity_of self.new }
    {
        self.machine.clear(n);
        self.marks.clear();
    }

    /// Resets the scanner as [`Scanner::clear`] does, and frees the memory for marks.
    pub fn restart(&mut self, alloc: Global, n: u32)
        requires some { 0 < n }
        requires short { n < 2 ^ 31 }
        ensures at { HasScanned (profile_of self.old) self.new n [] }
        ensures profile { profile_of self.new ≡ profile_of self.old }
        ensures ledger { ledger_of self.new ≡ ledger_of self.old }
    {
        self.machine.clear(n);
        self.marks = Vec::new(alloc);
    }

    /// Allocates memory for a number of marks in all.
    pub fn reserve(&mut self, marks: usize) -> Result<(), Memory>
        ensures ok { OnOk result (marks ≤ capacity_of self.new) }
        ensures at { (profile : Profile) (n : ℕ) (octets : List ℕ) → HasScanned profile self.old n octets → HasScanned profile self.new n octets }
        ensures same { (verdict_of self.new ≡ verdict_of self.old) × (ledger_of self.new ≡ ledger_of self.old) × (marks_of self.new ≡ marks_of self.old) }
        ensures capacity { capacity_of self.old ≤ capacity_of self.new }
        ensures profile { profile_of self.new ≡ profile_of self.old }
    {
        let there = self.marks.len();
        if marks > there {
            self.marks.reserve(marks - there)?;
        }
        Ok(())
    }

    /// Scans the longest prefix of octets that lies inside an open OCTET STRING, or a GeneralString
    /// that may have any octets, and stops short of its last octet, and says how many these are.
    /// The verdict stays.
    pub fn run(&mut self, octets: &[u8]) -> usize
        ensures at { (profile : Profile) (n : ℕ) (before : List ℕ) → HasScanned profile self.old n before → HasScanned profile self.new n (before ++ take result octets.now) }
        ensures longest { (profile : Profile) (n : ℕ) (before : List ℕ) → HasScanned profile self.old n before → result ≡ min (length octets.now) (string_left (messages profile) n before) }
        ensures verdict { verdict_of self.new ≡ verdict_of self.old }
        ensures ledger { ledger_of self.new ≡ ledger_of self.old + result }
        ensures marks { marks_of self.new ≡ marks_of self.old }
        ensures capacity { capacity_of self.new ≡ capacity_of self.old }
        ensures profile { profile_of self.new ≡ profile_of self.old }
    {
        self.machine.run(octets)
    }
}

ghost use Rattle.std.specs.Prelude.{◌≡◌, ◌≤◌, ◌+◌, [], ◌∷◌, ◌++◌, length, OnOk, OnErr, vec_capacity, vec_len};
ghost use Rattle.krb_scan.specs.Scan.{Mark as Marked};
ghost use Rattle.krb_scan.specs.Scanned.{Marks};
ghost use Rattle.krb_scan.specs.State.{AreMarks};
ghost use Rattle.krb_scan.specs.Machine.{verdict_of as decided_by};
ghost use Rattle.krb_scan.specs.inner.Paths.{Changes, IsLength};

/// Changes the marks beside a machine as an octet does that comes next.
fn mark(machine: &Machine, marks: &mut Vec<Mark>, octet: u8) -> Result<(), Memory>
    requires { decided_by machine.now ≡ Verdict.Open }
    ensures ok { (profile : Profile) (n : ℕ) (octets : List ℕ) → HasMarked profile machine.now marks.old.items n octets → OnOk result (AreMarks marks.new.items (Marks profile n (octets ++ octet ∷ []))) }
    ensures ends { (profile : Profile) (n : ℕ) (octets : List ℕ) → HasMarked profile machine.now marks.old.items n octets → OnErr result (length (Marks profile n (octets ++ octet ∷ [])) ≡ length (Marks profile n octets) + 1) }
    ensures same { OnErr result (marks.new.items ≡ marks.old.items) }
    ensures full { OnErr result (vec_capacity marks.old ≤ vec_len marks.old) }
    ensures capacity { vec_capacity marks.old ≤ vec_capacity marks.new }
{
    if let Verdict::Refused(_) = machine.peek(octet) {
        return Ok(());
    }
    change(marks, machine.event(octet))
}

/// Changes marks.
fn change(marks: &mut Vec<Mark>, event: Event) -> Result<(), Memory>
    ensures ok { (before after : List Marked) → AreMarks marks.old.items before → Changes event before after → OnOk result (AreMarks marks.new.items after) }
    ensures err { OnErr result (IsLength event) }
    ensures same { OnErr result (marks.new.items ≡ marks.old.items) }
    ensures full { OnErr result (vec_capacity marks.old ≤ vec_len marks.old) }
    ensures capacity { vec_capacity marks.old ≤ vec_capacity marks.new }
{
    match event {
        Event::None => {}
        Event::Length(mark) => marks.push(mark)?,
        Event::Number(value) => if let Some(last) = marks.last_mut() {
            last.value = value;
        },
    }
    Ok(())
}
