//! Why a line spells no message.

ghost use Rattle.std.specs.Prelude.{Some};
ghost use Rattle.krb_json.specs.Reading.{found_fault_text, read_fault_text};

use crate::wrong::Wrong;
use std::fmt;

/// What is wrong with a value in a line, and where.
#[derive(PartialEq, Eq, Debug, Drop)]
pub struct Fault {
    /// The path of the value, such as `AP-REP.enc-part.etype`.
    pub path: String,
    /// What is wrong with it.
    pub wrong: Wrong,
}

/// Why a line spells no message.
#[derive(PartialEq, Eq, Debug, Drop)]
pub enum LineFault {
    /// The line is not UTF-8, or not one JSON value (RFC 8259).
    NotJson,
    /// The value is no object of just one member that has the name of a message.
    NotAMessage,
    /// A value in the line is at fault.
    At(Fault),
    /// Out of memory. Nothing is said of the line.
    Memory,
}

/// Shows the path, and in words what is wrong there.
impl fmt::Display for Fault {
    ghost output = { λ fault. Some (found_fault_text fault) };

    fn fmt<W: fmt::Write>(&self, f: &mut fmt::Formatter<W>) -> fmt::Result {
        write!(f, "{}: {}", self.path, self.wrong)
    }
}

/// Shows in words why the line spells no message.
impl fmt::Display for LineFault {
    ghost output = { λ fault. Some (read_fault_text fault) };

    fn fmt<W: fmt::Write>(&self, f: &mut fmt::Formatter<W>) -> fmt::Result {
        match self {
            LineFault::NotJson => f.write_str("not JSON; each line is a whole object"),
            LineFault::NotAMessage => f.write_str("not an object whose one member is a message"),
            LineFault::At(fault) => write!(f, "{fault}"),
            LineFault::Memory => f.write_str("out of memory"),
        }
    }
}
