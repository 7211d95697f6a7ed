//! Octets that come again, compared with those that were taken or wait.

ghost use Rattle.std.specs.Prelude.{◌≡◌, ◌+◌, ◌<◌, ◌≤◌, ◌^◌, ◌-◌, ◌==◌, if◌then◌else◌, ℕ, List, [], ◌∷◌, ◌++◌, length};
ghost use Rattle.krb_flow.specs.Copies.{differing, differs_taken, old_of, summary};
ghost use Rattle.krb_flow.specs.inner.Unequal.{unequal};

/// The places at which octets differ from others.
#[derive(Clone, Copy)]
pub(crate) struct Differing {
    /// The first of them.
    pub(crate) first: Option<u64>,
    /// How many they are.
    pub(crate) count: u64,
}

impl Differing {
    /// Returns that there are none.
    pub(crate) fn none() -> Differing
        ensures { result ≡ summary [] }
    {
        Differing {
            first: None,
            count: 0,
        }
    }

    /// Returns one place.
    pub(crate) fn at(place: u64) -> Differing
        ensures { result ≡ summary (place ∷ []) }
    {
        Differing {
            first: Some(place),
            count: 1,
        }
    }

    /// Returns these places, and one after them if an octet there differs from another one.
    fn with(self, place: u64, octet: u8, other: u8) -> Differing
        requires few { self.count < 2 ^ 64 - 1 }
        ensures places { (first : List ℕ) → self ≡ summary first → result ≡ summary (first ++ (if octet == other then [] else place ∷ [])) }
        ensures few { result.count ≤ self.count + 1 }
    {
        if octet == other {
            self
        } else {
            self.and(Differing::at(place))
        }
    }

    /// Returns these places, and others after them.
    pub(crate) fn and(self, more: Differing) -> Differing
        requires few { self.count + more.count < 2 ^ 64 }
        ensures places { (first last : List ℕ) → self ≡ summary first → more ≡ summary last → result ≡ summary (first ++ last) }
        ensures count { result.count ≡ self.count + more.count }
    {
        Differing {
            first: self.first.or(more.first),
            count: self.count + more.count,
        }
    }
}

/// Returns the places, from that of the first octet on, at which octets and as many others differ.
pub(crate) fn compare(place: u64, octets: &[u8], others: &[u8]) -> Differing
    requires same { length octets.now ≡ length others.now }
    requires fits { place + length octets.now < 2 ^ 64 }
    ensures places { result ≡ summary (unequal place octets.now others.now) }
    ensures few { result.count ≤ length octets.now }
{
    let mut differing = Differing::none();
    if octets == others {
        return differing;
    }
    for i in 0..octets.len() {
        differing = differing.with(place + i as u64, octets[i], others[i]);
    }
    differing
}

/// Copies of octets: how many are of octets that are no longer kept, and those of the others that
/// differ.
#[derive(Clone, Copy)]
pub(crate) struct Compared {
    pub(crate) old: u64,
    pub(crate) differing: Differing,
}

/// Compares octets from a place on, if there are any all before the one that is due, with the last
/// ones that were taken, which are kept.
pub(crate) fn compare_taken(kept: &[u8], expected: u64, place: u64, octets: &[u8]) -> Compared
    requires before { 0 < length octets.now → place + length octets.now ≤ expected }
    ensures old { result.old ≡ old_of kept.now expected place octets.now }
    ensures differing { result.differing ≡ summary (differing (differs_taken kept.now expected) place octets.now) }
    ensures few { result.differing.count ≤ length octets.now }
{
    let first = expected.saturating_sub(kept.len() as u64);
    let old = first.saturating_sub(place).min(octets.len() as u64);
    let octets = &octets[old as usize..];
    if octets.is_empty() {
        return Compared {
            old,
            differing: Differing::none(),
        };
    }
    let place = place + old;
    let others = &kept[kept.len() - (expected - place) as usize..];
    let differing = compare(place, octets, &others[..octets.len()]);
    Compared { old, differing }
}
