//! The path of a machine from the message down to what is partly read, and its steps.

ghost use Rattle.std.specs.Prelude.{pos, negsuc, ◌≤ℤ◌, ◌<ℤ◌, ◌≡◌, ◌<◌, ◌≤◌, ◌+◌, ◌-◌, ◌^◌, ℕ, [], ◌∷◌, ◌++◌, true, List, length, min, take};
ghost use Rattle.arrayvec.specs.ArrayVec.{array_vec_len};
ghost use Rattle.krb_msg.specs.Term.{Term};
ghost use Rattle.krb_msg.specs.Judgement.{Head as HeadOf, Outcome, Partial, Open as OpenOutcome, has_size, judgement_by};
ghost use Rattle.krb_msg.specs.Shape.{greatest_depth};
ghost use Rattle.krb_scan.specs.Scan.{Container, Mark as Marked, InHead, InLeaf, OneOf, limit, scan, sole_in};
ghost use Rattle.krb_scan.specs.Runs.{is_string as string_term, string_left};
ghost use Rattle.krb_msg.specs.Nodes.{nodes, term_at};
ghost use Rattle.krb_msg.specs.Table.{IsFormOf, IsNode};
ghost use Rattle.krb_scan.specs.Expectations.{IsKnown, expected_of};
ghost use Rattle.krb_scan.specs.State.{AreOpen, TipIs};
ghost use Rattle.krb_scan.specs.inner.Machine.{settle, sized, enter as enters, headed as head_decides, leafed as leaf_decides, step_between, in_leaf};
ghost use Rattle.krb_scan.specs.Scanned.{marks_by, IsScanOf};
ghost use Rattle.krb_scan.specs.inner.Outcomes.{HasContainers, HeadIs, LeafIs, IsSized, IsLeaf, BeginsWith, HeadEnds, IsShort, LeafEnds, LeafReads};
ghost use Rattle.krb_scan.specs.inner.Paths.{ChangesTo, IsLengthOf, IsStep, IsReached, IsUnchanged, IsPathOf, number_with};

use crate::closing::{Closed, closing};
use crate::event::Event;
use crate::expected::{Expected, Picked};
use crate::head::{Head, first_head, next_head};
use crate::leaf::{
    Leaf, any_next, bits_next, extend, first_octet, integer_next, is_within, text_next, time_next,
};
use crate::mark::Mark;
use crate::open::Open;
use crate::tip::Tip;
use arrayvec::ArrayVec;
use krb_der::{Refusal, Verdict, Why};
use krb_msg::grammar::{Form, form_of};
use krb_msg::has_bits;

/// The items that are not complete.
#[derive(Drop)]
pub(crate) struct Path {
    /// The number of octets of the message.
    pub(crate) size: u32,
    /// The number of octets that were scanned.
    pub(crate) looked: u32,
    /// What is partly read.
    pub(crate) tip: Tip,
    /// The innermost container that is open, or the message.
    pub(crate) inner: Open,
    /// The message and the containers round the innermost, from the outer to the inner.
    pub(crate) outer: ArrayVec<Open, 13>,
}

/// What the contents of an item are to become.
#[derive(Clone, Copy)]
pub(crate) enum Sized {
    /// Items of this node have no contents of this length.
    Wrong,
    /// Octets.
    Leaf,
    /// Items, the first of which is given.
    Items { first: Expected },
}

/// Returns what contents of `len` octets of the item of a node's term are.
fn sized_contents(node: u16, len: u32) -> Sized
    requires { IsNode node }
    ensures { IsSized (term_at node) len result }
{
    match form_of(node) {
        Form::Integer { widest, .. } => if 0 < len && len <= widest {
            Sized::Leaf
        } else {
            Sized::Wrong
        },
        Form::Time => if len == 15 { Sized::Leaf } else { Sized::Wrong },
        Form::Bits { least } => if has_bits(least, len) {
            Sized::Leaf
        } else {
            Sized::Wrong
        },
        Form::Text { .. } | Form::Octets => Sized::Leaf,
        Form::Items { node, empty } => if empty || 0 < len {
            Sized::Items {
                first: Expected::Each { node },
            }
        } else {
            Sized::Wrong
        },
        Form::Item { node } => Sized::Items {
            first: Expected::Only { node },
        },
        Form::Fields { .. } => Sized::Items {
            first: Expected::Fields {
                from: 0,
                sequence: node,
            },
        },
    }
}

impl Path {
    /// Creates the path of an item of `size` octets, none of them scanned yet, where this is expected.
    #[inline(always)]
    pub(crate) fn new(expected: Expected, size: u32) -> Path
        requires known { IsKnown expected }
        requires some { 0 < size }
        requires short { size < 2 ^ 31 }
        ensures { (terms : List Term) → greatest_depth terms ≤ 13 → expected_of expected ≡ OneOf terms → IsScanOf terms result Verdict.Open size [] }
    {
        Path {
            size,
            looked: 0,
            tip: Tip::Between,
            inner: Open {
                end: size,
                expected,
            },
            outer: ArrayVec::new(),
        }
    }

    /// Returns whether the next item fills its container.
    fn is_sole(&self) -> bool
        ensures { (stack : List Container) → AreOpen self.now.inner self.now.outer.items stack → result ≡ sole_in stack }
    {
        self.inner.expected.is_sole()
    }

    /// Refuses the next octet.
    fn refused(&self, why: Why) -> Verdict
        ensures { result ≡ Verdict.Refused (record { place = self.now.looked; why = why }) }
    {
        Verdict::Refused(Refusal {
            place: self.looked,
            why,
        })
    }

    /// Leaves this container open within a number of others, and no item partly read.
    fn close_to(&mut self, inner: Open, outer: usize)
        ensures { self.new ≡ record self.old { inner = inner; outer = record { items = take outer self.old.outer.items }; tip = Tip.Between } }
    {
        self.inner = inner;
        self.outer.truncate(outer);
        self.tip = Tip::Between;
    }

    /// Leaves nothing open.
    fn close_all(&mut self)
        ensures { self.new ≡ record self.old { outer = record { items = [] }; tip = Tip.Between } }
    {
        self.outer.clear();
        self.tip = Tip::Between;
    }

    /// Scans the last octet of an item.
    fn close(&mut self) -> Verdict
        requires short { self.old.looked + 1 < 2 ^ 31 }
        requires containers { HasContainers self.old.inner self.old.outer.items }
        ensures step { (stack : List Container) (marks : List Marked) → AreOpen self.old.inner self.old.outer.items stack → IsStep self.old self.new result (settle stack marks (self.old.looked + 1)) }
        ensures same { (self.new.size ≡ self.old.size) × (self.new.looked ≡ self.old.looked) }
    {
        match closing(self.inner, self.outer.as_slice(), self.looked + 1) {
            Closed::Missing => self.refused(Why::Missing),
            Closed::Stays { inner, outer } => {
                self.close_to(inner, outer);
                Verdict::Open
            }
            Closed::Whole => {
                self.close_all();
                Verdict::Whole
            }
        }
    }

    /// Scans the last length octet of an item without items in it.
    #[inline(always)]
    fn enter_leaf(&mut self, node: u16, len: u32) -> Verdict
        requires known { IsNode node }
        requires leaf { IsLeaf (term_at node) }
        requires fits { has_size (term_at node) len ≡ true }
        requires short { self.old.looked + 1 + len < 2 ^ 31 }
        requires containers { HasContainers self.old.inner self.old.outer.items }
        ensures step { (stack : List Container) (marks : List Marked) → AreOpen self.old.inner self.old.outer.items stack → IsStep self.old self.new result (enters (term_at node) (self.old.looked + 1) len stack marks) }
        ensures same { (self.new.size ≡ self.old.size) × (self.new.looked ≡ self.old.looked) }
    {
        if len == 0 {
            return self.close();
        }
        self.tip = Tip::Leaf {
            node,
            start: self.looked + 1,
            end: self.looked + 1 + len,
            value: 0,
            unused: 0,
        };
        Verdict::Open
    }

    /// Scans the last length octet of an item with items in it.
    #[inline(always)]
    fn enter_items(&mut self, node: u16, len: u32, first: Expected) -> Verdict
        requires known { IsNode node }
        requires listed { IsKnown first }
        requires items { BeginsWith (term_at node) (expected_of first) }
        requires short { self.old.looked + 1 + len < 2 ^ 31 }
        requires containers { HasContainers self.old.inner self.old.outer.items }
        requires levels { array_vec_len self.old.outer < 13 }
        ensures step { (stack : List Container) (marks : List Marked) → AreOpen self.old.inner self.old.outer.items stack → IsStep self.old self.new result (enters (term_at node) (self.old.looked + 1) len stack marks) }
        ensures same { (self.new.size ≡ self.old.size) × (self.new.looked ≡ self.old.looked) }
    {
        if len == 0 {
            if first.requires_item() {
                return self.refused(Why::Missing);
            }
            return self.close();
        }
        self.outer.push(self.inner);
        self.inner = Open {
            end: self.looked + 1 + len,
            expected: first,
        };
        self.tip = Tip::Between;
        Verdict::Open
    }

    /// Scans the last length octet of an item.
    #[inline(always)]
    fn enter(&mut self, node: u16, len: u32) -> Verdict
        requires known { IsNode node }
        requires short { self.old.looked + 1 + len < 2 ^ 31 }
        requires containers { HasContainers self.old.inner self.old.outer.items }
        requires levels { array_vec_len self.old.outer < 13 }
        ensures step { (stack : List Container) (marks : List Marked) → AreOpen self.old.inner self.old.outer.items stack → IsStep self.old self.new result (sized (term_at node) (self.old.looked + 1) len stack marks) }
        ensures same { (self.new.size ≡ self.old.size) × (self.new.looked ≡ self.old.looked) }
    {
        match sized_contents(node, len) {
            Sized::Wrong => self.refused(Why::Size),
            Sized::Leaf => self.enter_leaf(node, len),
            Sized::Items { first } => self.enter_items(node, len, first),
        }
    }

    /// Scans a length octet of an item, by the head after it.
    #[inline(always)]
    fn headed(&mut self, head: Head, partial: Tip, node: u16) -> Verdict
        requires known { IsNode node }
        requires near { self.old.looked + 1 < 2 ^ 31 }
        requires short { IsShort (self.old.looked + 1) head }
        requires containers { HasContainers self.old.inner self.old.outer.items }
        requires levels { array_vec_len self.old.outer < 13 }
        ensures step { (stack : List Container) (marks : List Marked) (got : HeadOf) (from : ℕ) (octets : List ℕ) → AreOpen self.old.inner self.old.outer.items stack → HeadIs head got → HeadEnds from (self.old.looked + 1) (limit stack) got → (got ≡ Partial → TipIs (self.old.looked + 1) partial (InHead (term_at node) from octets)) → IsStep self.old self.new result (head_decides got (term_at node) stack marks from octets) }
        ensures same { (self.new.size ≡ self.old.size) × (self.new.looked ≡ self.old.looked) }
    {
        match head {
            Head::Partial => {
                self.tip = partial;
                Verdict::Open
            }
            Head::Refused(why) => self.refused(why),
            Head::Got { size } => if self.is_sole() && self.looked + 1 + size < self.inner.end {
                self.refused(Why::Loose)
            } else {
                self.enter(node, size)
            },
        }
    }

    /// Scans the identifier octet of an item.
    #[inline(always)]
    fn begin(&mut self, octet: u8) -> Verdict
        requires short { self.old.looked + 1 < 2 ^ 31 }
        requires containers { HasContainers self.old.inner self.old.outer.items }
        ensures step { (stack : List Container) (marks : List Marked) → AreOpen self.old.inner self.old.outer.items stack → IsStep self.old self.new result (step_between stack marks self.old.looked octet) }
        ensures same { (self.new.size ≡ self.old.size) × (self.new.looked ≡ self.old.looked) }
    {
        match self.inner.expected.pick(octet) {
            None => self.refused(Why::Tag),
            Some(_) if self.looked + 1 == self.inner.end => self.refused(Why::Overrun),
            Some(Picked { node, left }) => {
                self.inner = Open {
                    end: self.inner.end,
                    expected: left,
                };
                self.tip = Tip::Tagged { node };
                Verdict::Open
            }
        }
    }

    /// Scans a contents octet of a leaf, by what it decides of the leaf.
    #[inline(always)]
    fn leafed(&mut self, next: Leaf, partial: Tip) -> Verdict
        requires short { self.old.looked + 1 < 2 ^ 31 }
        requires containers { HasContainers self.old.inner self.old.outer.items }
        ensures step { (stack : List Container) (marks : List Marked) (outcome : Outcome) (term : Term) (start count : ℕ) (octets : List ℕ) → AreOpen self.old.inner self.old.outer.items stack → LeafIs next outcome → LeafEnds start count (self.old.looked + 1) outcome → (outcome ≡ OpenOutcome → TipIs (self.old.looked + 1) partial (InLeaf term start count octets)) → IsStep self.old self.new result (leaf_decides outcome term start count stack marks octets) }
        ensures same { (self.new.size ≡ self.old.size) × (self.new.looked ≡ self.old.looked) }
    {
        match next {
            Leaf::Open => {
                self.tip = partial;
                Verdict::Open
            }
            Leaf::Bad(why) => self.refused(why),
            Leaf::Done => self.close(),
        }
    }

    /// Scans a contents octet of an item without items in it.
    #[inline(always)]
    fn content(
        &mut self,
        form: Form,
        node: u16,
        start: u32,
        end: u32,
        value: i64,
        unused: u8,
        octet: u8,
    ) -> Verdict
        requires known { IsNode node }
        requires form { IsFormOf nodes form (term_at node) }
        requires begun { start ≤ self.old.looked }
        requires some { self.old.looked < end }
        requires near { end < 2 ^ 31 }
        requires fits { has_size (term_at node) (end - start) ≡ true }
        requires above { negsuc 549755813887 ≤ℤ value }
        requires below { value <ℤ pos 549755813888 }
        requires few { unused < 8 }
        requires containers { HasContainers self.old.inner self.old.outer.items }
        ensures step { (stack : List Container) (marks : List Marked) (octets : List ℕ) → AreOpen self.old.inner self.old.outer.items stack → LeafReads (term_at node) (end - start) value unused octets → self.old.looked ≡ start + length octets → IsStep self.old self.new result (in_leaf (term_at node) start (end - start) stack marks (octets ++ octet ∷ [])) }
        ensures same { (self.new.size ≡ self.old.size) × (self.new.looked ≡ self.old.looked) }
    {
        let size = end - start;
        let seen = self.looked - start;
        let partial = Tip::Leaf {
            node,
            start,
            end,
            value,
            unused,
        };
        match form {
            Form::Integer { .. } => {
                let with = extend(seen, value, octet);
                let partial = Tip::Leaf {
                    node,
                    start,
                    end,
                    value: with,
                    unused,
                };
                let next = integer_next(is_within(form, with), size, seen, value, octet);
                self.leafed(next, partial)
            }
            Form::Time => self.leafed(time_next(seen, octet), partial),
            Form::Bits { least } => {
                let first = first_octet(seen, unused, octet);
                let partial = Tip::Leaf {
                    node,
                    start,
                    end,
                    value,
                    unused: first,
                };
                self.leafed(bits_next(least, size, seen, unused, octet), partial)
            }
            Form::Text { greatest } => {
                self.leafed(text_next(greatest, size, seen, octet), partial)
            }
            Form::Octets => self.leafed(any_next(size, seen), partial),
            Form::Items { .. } => self.leafed(any_next(size, seen), partial),
            Form::Item { .. } => self.leafed(any_next(size, seen), partial),
            Form::Fields { .. } => self.leafed(any_next(size, seen), partial),
        }
    }

    /// Scans an octet.
    #[inline(always)]
    pub(crate) fn take(&mut self, octet: u8) -> Verdict
        requires { IsReached self.old }
        ensures step { (terms : List Term) (octets : List ℕ) → IsPathOf terms self.old octets → IsStep self.old self.new result (scan terms self.old.size (octets ++ octet ∷ [])) }
        ensures same { (self.new.size ≡ self.old.size) × (self.new.looked ≡ self.old.looked) }
    {
        match self.tip {
            Tip::Between => self.begin(octet),
            Tip::Tagged { node } => {
                let room = self.inner.end - self.looked + 1;
                let long = Tip::Long {
                    node,
                    digits: u32::from(octet.saturating_sub(0x80)),
                    seen: 0,
                    value: 0,
                };
                self.headed(first_head(room, octet), long, node)
            }
            Tip::Long {
                node,
                digits,
                seen,
                value,
            } => {
                let room = self.inner.end - self.looked + (2 + seen);
                let long = Tip::Long {
                    node,
                    digits,
                    seen: seen + 1,
                    value: value * 256 + u32::from(octet),
                };
                self.headed(next_head(room, digits, seen, value, octet), long, node)
            }
            Tip::Leaf {
                node,
                start,
                end,
                value,
                unused,
            } => {
                let form = form_of(node);
                self.content(form, node, start, end, value, unused, octet)
            }
        }
    }

    /// As [`Path::take`], and counts the octet.
    #[inline(always)]
    pub(crate) fn step(&mut self, octet: u8) -> Verdict
        requires { IsReached self.old }
        ensures { (terms : List Term) (n : ℕ) (octets : List ℕ) → IsScanOf terms self.old Verdict.Open n octets → IsScanOf terms self.new result n (octets ++ octet ∷ []) }
    {
        let decided = self.take(octet);
        self.looked += 1;
        decided
    }

    /// Scans octets, one after another or those of a string at once, until something is decided or
    /// none is left, and returns how many, and what is decided.
    pub(crate) fn scan(&mut self, octets: &[u8]) -> (usize, Verdict)
        requires { IsReached self.old }
        ensures at { (terms : List Term) (n : ℕ) (before : List ℕ) → IsScanOf terms self.old Verdict.Open n before → IsScanOf terms self.new result.1 n (before ++ take result.0 octets.now) }
        ensures within { result.0 ≤ length octets.now }
        ensures all { result.1 ≡ Verdict.Open → result.0 ≡ length octets.now }
        ensures sooner { (terms : List Term) (n : ℕ) (before : List ℕ) (k : ℕ) → IsScanOf terms self.old Verdict.Open n before → k < result.0 → judgement_by terms n (before ++ take k octets.now) ≡ Verdict.Open }
    {
        let mut used = 0;
        'octets: while used < octets.len() {
            let (count, decided) = self.scan_some(&octets[used..]);
            used += count;
            let Verdict::Open = decided else {
                return (used, decided);
            };
        }
        (used, Verdict::Open)
    }

    /// Scans some octets at once, of which there is at least one: what `run` scans, or else an
    /// octet.
    fn scan_some(&mut self, octets: &[u8]) -> (usize, Verdict)
        requires reached { IsReached self.old }
        requires some { 0 < length octets.now }
        ensures at { (terms : List Term) (n : ℕ) (before : List ℕ) → IsScanOf terms self.old Verdict.Open n before → IsScanOf terms self.new result.1 n (before ++ take result.0 octets.now) }
        ensures within { result.0 ≤ length octets.now }
        ensures some { 0 < result.0 }
        ensures sooner { (terms : List Term) (n : ℕ) (before : List ℕ) (k : ℕ) → IsScanOf terms self.old Verdict.Open n before → k < result.0 → judgement_by terms n (before ++ take k octets.now) ≡ Verdict.Open }
    {
        let count = self.run(octets);
        if count > 0 {
            return (count as usize, Verdict::Open);
        }
        (1, self.step(octets[0]))
    }

    /// Returns what an octet does to the marks, if it is not refused.
    pub(crate) fn event(&self, octet: u8) -> Event
        requires { IsReached self.now }
        ensures { (terms : List Term) (octets : List ℕ) → IsPathOf terms self.now octets → ChangesTo result (marks_by terms self.now.size octets) (scan terms self.now.size (octets ++ octet ∷ [])) }
    {
        match self.tip {
            Tip::Between => Event::None,
            Tip::Tagged { node } => if octet < 0x80 {
                self.length(node, u32::from(octet))
            } else {
                Event::None
            },
            Tip::Long {
                node,
                digits,
                seen,
                value,
            } => if seen + 1 < digits {
                Event::None
            } else {
                self.length(node, value * 256 + u32::from(octet))
            },
            Tip::Leaf {
                node,
                start,
                end,
                value,
                ..
            } => {
                let form = form_of(node);
                if self.looked + 1 < end {
                    return Event::None;
                }
                Event::Number(number_of(form, self.looked - start, value, octet))
            }
        }
    }

    /// Returns that a length of the item of a node ends with the next octet.
    fn length(&self, node: u16, len: u32) -> Event
        requires known { IsNode node }
        requires short { self.now.looked + 1 < 2 ^ 31 }
        ensures { IsLengthOf result (term_at node) (self.now.looked + 1) len }
    {
        Event::Length(Mark {
            node,
            start: self.looked + 1,
            len,
            value: 0,
        })
    }

    /// Returns a path that is as this one.
    pub(crate) fn copy(&self) -> Path
        ensures unchanged { IsUnchanged self.now result }
        ensures same { (result.size ≡ self.now.size) × (result.looked ≡ self.now.looked) }
    {
        let mut outer = ArrayVec::new();
        let _ = outer.try_extend_from_slice(self.outer.as_slice());
        Path {
            size: self.size,
            looked: self.looked,
            tip: self.tip,
            inner: self.inner,
            outer,
        }
    }

    /// As [`Path::new`] returns it.
    pub(crate) fn clear(&mut self, expected: Expected, size: u32)
        requires known { IsKnown expected }
        requires some { 0 < size }
        requires short { size < 2 ^ 31 }
        ensures { (terms : List Term) → greatest_depth terms ≤ 13 → expected_of expected ≡ OneOf terms → IsScanOf terms self.new Verdict.Open size [] }
    {
        self.size = size;
        self.looked = 0;
        self.tip = Tip::Between;
        self.inner = Open {
            end: size,
            expected,
        };
        self.outer.clear();
    }

    /// Scans the longest prefix of octets that lies inside an open string that may have any octets,
    /// and stops short of its last octet. So none of them is looked at.
    pub(crate) fn run(&mut self, octets: &[u8]) -> u32
        requires { IsReached self.old }
        ensures goes { (terms : List Term) (before : List ℕ) → IsPathOf terms self.old before → IsPathOf terms self.new (before ++ take result octets.now) }
        ensures longest { (terms : List Term) (before : List ℕ) → IsPathOf terms self.old before → result ≡ min (length octets.now) (string_left terms self.old.size before) }
        ensures size { self.new.size ≡ self.old.size }
    {
        match self.tip {
            Tip::Leaf { node, end, .. } if is_string(node) => {
                let count = shorter(octets, end - 1 - self.looked);
                self.looked += count;
                count
            }
            _ => 0,
        }
    }
}

/// Returns the number of contents whose last octet comes after `seen` of them, if they are those of
/// an INTEGER, else 0.
fn number_of(form: Form, seen: u32, value: i64, octet: u8) -> i64
    requires above { negsuc 549755813887 ≤ℤ value }
    requires below { value <ℤ pos 549755813888 }
    ensures { (term : Term) → IsFormOf nodes form term → result ≡ number_with term seen value octet }
{
    match form {
        Form::Integer { .. } => extend(seen, value, octet),
        _ => 0,
    }
}

/// Returns the number of octets, if it is not more than this.
fn shorter(octets: &[u8], most: u32) -> u32
    ensures { result ≡ min (length octets.now) most }
{
    if octets.len() < most as usize {
        octets.len() as u32
    } else {
        most
    }
}

/// Returns whether the item of a node is an OCTET STRING, or a GeneralString that may have any
/// octets.
fn is_string(node: u16) -> bool
    requires { IsNode node }
    ensures { result ≡ string_term (term_at node) }
{
    match form_of(node) {
        Form::Text { greatest } => 0xFF <= greatest,
        Form::Octets => true,
        _ => false,
    }
}
