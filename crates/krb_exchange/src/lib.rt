//! What happened in a capture: which request a reply answers, what was sent again, what got no
//! answer, and who could not be reached.
//!
//! [`Sendings`] has the last 65536 requests and SYNs of a capture, the window. Each event of the
//! capture is one call, which changes the window and returns what is told of it:
//!
//! - [`Sendings::request`] adds a request, and says with which packet the same octets were sent
//!   first.
//! - [`Sendings::reply`] returns the request that a reply answers.
//! - [`Sendings::begun`] returns each open request of a direction of TCP that begins anew.
//! - [`Sendings::segment`] returns the SYN that a segment of TCP resets, and the one that nothing
//!   answered.
//! - [`Sendings::error`] returns what an ICMP error is about.
//! - [`Sendings::end`] returns each sending that is open at the end.
//!
//! [`Sendings::again_of`] and [`Sendings::answer_of`] say what a request or a reply will tell, and change
//! nothing.
//!
//! No octets are kept: a request is known by its [`Fingerprint`]. No call takes more steps than the
//! logarithm of how many sendings there are, but for those that it returns. Nothing here reads
//! packets or prints records: `krb_capture` does.
//!
//! `specs/Happened` says what each event does, as a fold.
#![tactic(auto)]

mod fingerprint;
mod flow_key;
mod index;
mod open;
mod parties;
mod sending;
mod sendings;
mod window;

pub use fingerprint::Fingerprint;
pub use krb_record::Request;
pub use parties::{Header, Reply};
pub use sending::{Moment, Sending, State, What};
pub use sendings::{RequestTold, SegmentTold, Sendings};
