//! Directions of TCP connections: the octets that one end sends, put together from segments (RFC
//! 9293).
//!
//! The main calls:
//!
//! - [`Direction::take`] returns the outcome of a segment ([`Taken`]): how the direction begins or
//!   ends, the octets that are next in it, whether they were captured in order or not, and those
//!   that are not delivered, but for copies of the same octets ([`Untaken`]).
//! - [`Direction::end`] ends a direction, and returns what is known of its octets then.
//!
//! Octets that come before their turn wait, in runs of octets that follow each other, at most 1 MiB
//! of them. The last 64 KiB that were taken are kept, and 4 KiB of them after the end: copies are
//! compared with them. Nothing here reads packets or keeps a table of connections, and neither acknowledgments
//! nor times are looked at: `krb_packet` reads captures.
//!
//! `specs/Laws` says that sequence numbers are compared rightly, and that what is delivered is the
//! stream, however it is cut into segments; `krb_capture_laws` proves it.
#![tactic(auto)]

mod copies;
mod direction;
mod had;
mod serial;
mod stream;
mod unread;
mod waiting;
mod window;

pub use direction::{Beginning, Direction, State, Taken};
pub use had::Had;
pub use serial::Distance;
pub use stream::{End, Lost, Stream};
pub use unread::{Unread, Untaken};
