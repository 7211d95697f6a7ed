//! Reasons for which files are refused.

ghost use Rattle.std.specs.Prelude.{◌≡◌, Some};
ghost use Rattle.krb_source.specs.FileReasons.{file_reason_number, file_reason_name, file_reason_length};

use std::fmt;

/// A reason for which a keytab, a credential cache or a capture is refused. Each has a number
/// ([`file_why_number`]) and a name ([`file_why_text`]), and some a length ([`file_why_length`]).
#[derive(Clone, Copy, PartialEq, Eq, Debug)]
pub enum FileWhy {
    /// The first octet is not 05.
    Magic,
    /// The second octet is not a version of the format.
    Version,
    /// A field passes the end of the file.
    Truncated,
    /// A field passes the end of the entry or of the header that it is in.
    Overrun,
    /// A block cannot have this length. It is called Overrun, too, and has the same number.
    WrongLength(u64),
    /// A field of octets has this length, which is greater than the limit.
    TooLong(u64),
}

/// Returns the number of a reason: 1 (`Magic`), 2 (`Version`), 3 (`Truncated`), 4 (`Overrun` and
/// `WrongLength`) or 5 (`TooLong`).
pub fn file_why_number(why: FileWhy) -> u8
    ensures { result ≡ file_reason_number why }
{
    match why {
        FileWhy::Magic => 1,
        FileWhy::Version => 2,
        FileWhy::Truncated => 3,
        FileWhy::Overrun | FileWhy::WrongLength(_) => 4,
        FileWhy::TooLong(_) => 5,
    }
}

/// Returns the length that was read, if it is what is wrong.
pub fn file_why_length(why: FileWhy) -> Option<u64>
    ensures { result ≡ file_reason_length why }
{
    match why {
        FileWhy::WrongLength(length) | FileWhy::TooLong(length) => Some(length),
        FileWhy::Magic | FileWhy::Version | FileWhy::Truncated | FileWhy::Overrun => None,
    }
}

/// Returns the name of a reason, as the enum spells it, but Overrun of a WrongLength.
pub fn file_why_text(why: FileWhy) -> &'static str
    ensures { result.now ≡ file_reason_name why }
{
    match why {
        FileWhy::Magic => "Magic",
        FileWhy::Version => "Version",
        FileWhy::Truncated => "Truncated",
        FileWhy::Overrun | FileWhy::WrongLength(_) => "Overrun",
        FileWhy::TooLong(_) => "TooLong",
    }
}

/// Shows the name.
impl fmt::Display for FileWhy {
    ghost output = { λ why. Some (file_reason_name why) };

    fn fmt<W: fmt::Write>(&self, f: &mut fmt::Formatter<W>) -> fmt::Result {
        f.write_str(file_why_text(*self))
    }
}
