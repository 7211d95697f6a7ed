//! Paths of members: what of a value a cell shows.

ghost use Rattle.std.specs.Prelude.{◌≡◌, ◌∷◌, []};
ghost use Rattle.krb_record.specs.Forms.{path_letter, path_number};

/// What of a value a cell shows: the member itself, or one of its members.
#[derive(Clone, Copy, PartialEq, Eq, Debug)]
pub enum Path {
    /// The member of the field.
    Whole,
    /// The name of a number.
    Name,
    /// The names of numbers, or of flags.
    Names,
    /// The text of a principal.
    Text,
    /// The type of a name, of an address or of a checksum.
    Type,
    /// Its name.
    TypeName,
    /// The components of a principal.
    Components,
    /// Its realm.
    Realm,
    /// The encryption type of what is encrypted.
    Etype,
    /// Its name.
    EtypeName,
    /// The version of the key.
    Kvno,
    /// The number of octets of what is encrypted, or of a checksum.
    Size,
    /// How many flags there are.
    Bits,
    /// The octets of flags, or of an address.
    Hex,
    /// The seconds of an offset.
    Seconds,
    /// Its microseconds.
    Microseconds,
    /// The place of the octet by which a ticket is refused.
    Place,
    /// Why it is.
    Why,
    /// The name of that.
    WhyName,
    /// The protocol of a flow.
    Over,
    /// Where a flow comes from.
    Source,
    /// The address of that.
    SourceAddress,
    /// Its port.
    SourcePort,
    /// Where a flow goes to.
    Target,
    /// The address of that.
    TargetAddress,
    /// Its port.
    TargetPort,
}

/// All paths, in order of their numbers.
pub(crate) const PATHS: [Path; 26] = [
    Path::Whole,
    Path::Name,
    Path::Names,
    Path::Text,
    Path::Type,
    Path::TypeName,
    Path::Components,
    Path::Realm,
    Path::Etype,
    Path::EtypeName,
    Path::Kvno,
    Path::Size,
    Path::Bits,
    Path::Hex,
    Path::Seconds,
    Path::Microseconds,
    Path::Place,
    Path::Why,
    Path::WhyName,
    Path::Over,
    Path::Source,
    Path::SourceAddress,
    Path::SourcePort,
    Path::Target,
    Path::TargetAddress,
    Path::TargetPort,
];

impl Path {
    /// Returns its number, from 0.
    pub fn number(self) -> u32
        ensures { result ≡ path_number self }
    {
        match self {
            Path::Whole => 0,
            Path::Name => 1,
            Path::Names => 2,
            Path::Text => 3,
            Path::Type => 4,
            Path::TypeName => 5,
            Path::Components => 6,
            Path::Realm => 7,
            Path::Etype => 8,
            Path::EtypeName => 9,
            Path::Kvno => 10,
            Path::Size => 11,
            Path::Bits => 12,
            Path::Hex => 13,
            Path::Seconds => 14,
            Path::Microseconds => 15,
            Path::Place => 16,
            Path::Why => 17,
            Path::WhyName => 18,
            Path::Over => 19,
            Path::Source => 20,
            Path::SourceAddress => 21,
            Path::SourcePort => 22,
            Path::Target => 23,
            Path::TargetAddress => 24,
            Path::TargetPort => 25,
        }
    }

    /// Returns the letter that stands for it in a marked text.
    pub fn letter(self) -> &'static str
        ensures { result.now ≡ path_letter self ∷ [] }
    {
        match self {
            Path::Whole => "A",
            Path::Name => "B",
            Path::Names => "C",
            Path::Text => "D",
            Path::Type => "E",
            Path::TypeName => "F",
            Path::Components => "G",
            Path::Realm => "H",
            Path::Etype => "I",
            Path::EtypeName => "J",
            Path::Kvno => "K",
            Path::Size => "L",
            Path::Bits => "M",
            Path::Hex => "N",
            Path::Seconds => "O",
            Path::Microseconds => "P",
            Path::Place => "Q",
            Path::Why => "R",
            Path::WhyName => "S",
            Path::Over => "T",
            Path::Source => "U",
            Path::SourceAddress => "V",
            Path::SourcePort => "W",
            Path::Target => "X",
            Path::TargetAddress => "Y",
            Path::TargetPort => "Z",
        }
    }
}
