//! Choices: which records of a listing are kept, and the rows that are made of them.
//!
//! A [`Choice`] keeps records by their kinds, and those of what is inside of them, or by what they
//! have. Its [`Form`](krb_record::Form) is that in which records are listed for it, with marks. A
//! [`Record`] is read of such a text: its pieces, and what each column of the choice shows of it.
#![tactic(auto)]

mod choice;
mod column;
mod found;
mod mark;
mod pieces;
mod record;

pub use choice::Choice;
pub use column::Column;
pub use found::Found;
pub use mark::{Piece, put_whole};
pub use record::Record;
