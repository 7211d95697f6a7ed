//! Keytabs and what they hold.

use krb_der::{KString, Many, Octets};
use std::marker::Model;

/// A keytab: its records in order, and how it ends.
#[derive(Drop)]
pub struct Keytab {
    /// The records: entries, and holes between them.
    pub records: Many<Record>,
    /// How the records end.
    pub stop: Stop,
}

/// A record of a keytab.
#[derive(Drop)]
pub enum Record {
    /// A key of a principal.
    Entry(Entry),
    /// Octets that no key uses.
    Hole(Hole),
}

/// The end of the records of a keytab.
#[derive(Clone, Copy, PartialEq, Eq, Debug)]
pub enum Stop {
    /// With the end of the file.
    File,
    /// With a record of length 0, after which nothing is read.
    Zero,
}

/// An entry: a key of a principal. It has no `Debug`, so that no text shows an octet of the key.
#[derive(Drop)]
pub struct Entry {
    /// The realm of the principal.
    pub realm: KString,
    /// The components of the principal's name, in order.
    pub components: Many<KString>,
    /// The type of the name (RFC 4120, 6.2).
    pub name_type: i32,
    /// When the key was written, in seconds since 1970-01-01T00:00:00Z.
    pub time: u32,
    /// The version of the key, modulo 256. [`Entry::kvno`] returns the whole version.
    pub vno8: u8,
    /// The encryption type of the key (RFC 3961). No number is refused.
    pub enctype: u16,
    /// The key.
    pub key: Octets,
    /// The octets after the key. If there are at least four, the first four are the version of the
    /// key in 32 bits. The others are kept as they are.
    pub rest: Octets,
}

/// A hole: octets that no key uses, 1 to 2147483648 of them, and whether all of them are 00.
#[derive(Clone, Copy, PartialEq, Eq, Debug)]
pub struct Hole {
    size: u32,
    clean: bool,
}

impl Model for Hole {
    ghost use Rattle.krb_keytab.specs.Holes.{HoleModel, IsHoleSize};

    ghost Value = { HoleModel };

    ghost view = { λ hole. record { size = hole.size; clean = hole.clean } };

    ghost invariant = { λ hole. IsHoleSize hole.size };

    ghost inverse = { λ hole. record { size = hole.size; clean = hole.clean } };
}

ghost use Rattle.std.specs.Prelude.{◌≡◌, ◌↔◌, IsSome, IfSome};
ghost use Rattle.krb_keytab.specs.Holes.{IsHoleSize};
ghost use Rattle.krb_keytab.specs.Spelling.{kvno};

impl Entry {
    /// Returns the version of the key: the first four octets of `rest`, the most significant first,
    /// if there are four and their number is not 0, or else `vno8`.
    pub fn kvno(&self) -> u32
        ensures { result ≡ kvno self.now }
    {
        if let [first, second, third, fourth, ..] = self.rest.as_slice() {
            let wide = u32::from_be_bytes([*first, *second, *third, *fourth]);
            if wide != 0 {
                return wide;
            }
        }
        u32::from(self.vno8)
    }
}

impl Hole {
    /// Returns the hole of `size` octets, or `None` if they are none or more than 2147483648. It is
    /// clean if all of them are 00.
    pub fn new(size: u32, clean: bool) -> Option<Hole>
        ensures range { IsSome result ↔ IsHoleSize size }
        ensures value { IfSome result (λ hole. hole ≡ record { size = size; clean = clean }) }
    {
        if (1..=1 << 31).contains(&size) {
            Some(Hole::of(size, clean))
        } else {
            None
        }
    }

    /// Returns the hole of `size` octets, at most 2147483648.
    pub(crate) fn of(size: u32, clean: bool) -> Hole
        requires { IsHoleSize size }
        ensures { result ≡ record { size = size; clean = clean } }
    {
        Hole { size, clean }
    }

    /// Returns the number of octets, 1 to 2147483648.
    pub fn size(self) -> u32
        ensures value { result ≡ self.size }
        ensures range { IsHoleSize result }
    {
        self.size
    }

    /// Returns whether all the octets are 00.
    pub fn clean(self) -> bool
        ensures { result ≡ self.clean }
    {
        self.clean
    }
}
