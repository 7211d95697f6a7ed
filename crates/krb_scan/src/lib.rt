//! The octets of one message as they come: a machine judges them, looks at each octet once, has no
//! recursion and allocates nothing; a scanner does the same and marks each item.
//!
//! The main calls:
//!
//! - [`Machine::take`] takes a piece of the message, and [`Machine::step`] one octet;
//!   [`Machine::verdict`] is what `judge` of `krb_judge` would return of all octets so far.
//! - [`Scanner::take`] and [`Scanner::step`] do so, too; [`Scanner::marks`] returns a [`Mark`] for
//!   each item whose length is complete: its row in the grammar, where its contents begin, how many
//!   octets they are, and the number of an INTEGER.
//! - [`judge_item`] judges an item of a row alone, as a Ticket.
//!
//! Neither keeps the octets. Both know the length of their message beforehand, and find no frames:
//! `krb_frame` does. A scanner allocates for the marks alone.
//!
//! `specs/`, to be read in this order: `Scan` (the scan of the octets present), `ValueMarks` (the
//! marks of a value), `Expectations` and `State` (the fields of a machine, as a state of the scan),
//! `Scanned` (a machine that has scanned octets), `Laws` (that the verdict of a scan is the
//! judgement, and that the marks of a whole message are those of its value), `Runs` (how many
//! octets of an open string are to come), `Machine` and `Scanner` (what contracts see of them).
//! `specs/inner` has the scan as a machine that takes one octet at a time, and the contracts of the
//! parts of the code.
#![tactic(auto)]

mod closing;
mod event;
mod expected;
mod head;
mod judging;
mod leaf;
mod ledger;
mod machine;
mod mark;
mod open;
mod path;
mod scanned;
mod scanner;
mod tip;

pub use judging::judge_item;
pub use krb_der::{Memory, Refusal, Verdict, Why};
pub use machine::Machine;
pub use mark::Mark;
pub use scanned::Scanned;
pub use scanner::Scanner;
