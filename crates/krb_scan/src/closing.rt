//! Which containers an octet completes.

ghost use Rattle.std.specs.Prelude.{List};
ghost use Rattle.krb_scan.specs.Scan.{Container, Mark as Marked};
ghost use Rattle.krb_scan.specs.State.{AreOpen};
ghost use Rattle.krb_scan.specs.inner.Machine.{settle};
ghost use Rattle.krb_scan.specs.inner.Outcomes.{HasContainers, ClosedIs};

use crate::open::Open;

/// The containers that are still not complete at a place.
#[derive(Clone, Copy)]
pub(crate) enum Closed {
    /// This is the innermost that stays open, and it is in a number of others.
    Stays { inner: Open, outer: usize },
    /// One of them ends without a required item.
    Missing,
    /// All of them are complete.
    Whole,
}

/// Completes the containers that end at a place, from the inner to the outer.
#[inline(always)]
pub(crate) fn closing(inner: Open, outer: &[Open], place: u32) -> Closed
    requires { HasContainers inner outer.now }
    ensures { (stack : List Container) (marks : List Marked) → AreOpen inner outer.now stack → ClosedIs outer.now marks place result (settle stack marks place) }
{
    let mut left = outer.len();
    let mut inner = inner;
    'closing: while inner.end <= place {
        if inner.expected.requires_item() {
            return Closed::Missing;
        }
        if left == 0 {
            return Closed::Whole;
        }
        left -= 1;
        inner = outer[left];
    }
    Closed::Stays { inner, outer: left }
}
