//! Streams of framed Kerberos V5 messages (RFC 4120, 7.2.2), in pieces of any sizes.
//!
//! The main calls:
//!
//! - [`Decoder::feed`] uses the octets of a piece, up to the last one of a frame or a refused one.
//! - [`Decoder::ready`] returns the frame that is ready, borrowed ([`Framed`]), and
//!   [`Decoder::next`] goes on to the next one.
//! - [`SkippingDecoder::skip`] goes on with the next frame after one that is refused;
//!   [`SkippingDecoder`] has the calls above, too.
//! - [`SkippingDecoder::deliver`] delivers the frames of a piece to a [`Receiver`], one after
//!   another, with or without going on after a refusal, and copies none that lies in the piece.
//! - [`length_fault`] says why a length is refused, and [`first_frame`] returns the frame with which
//!   octets begin, whatever its contents are. `krb_values` returns a message as a frame.
//!
//! Nothing here reads or writes: the caller has the pieces. A decoder keeps at most the octets of
//! one frame, and no frame may be longer than its [`Limit`]. Why octets of a message are refused is
//! the judgement of `krb_msg`, found by `krb_scan`.
//!
//! Contracts see of a decoder its limit, the octets of the current frame that it used, and how many
//! octets of contents it looked at in all (`specs/Decoding`). `specs/Decoded` says which stream it
//! has decoded.
#![tactic(auto)]

mod contents;
mod decoder;
mod delivery;
mod framed;
pub mod law;
mod length;
mod receiver;
mod skipping;
mod whole;

pub use decoder::{Decoder, Fed, LENGTH_OCTETS, Partial, Status};
pub use delivery::Delivered;
pub use framed::Framed;
pub use krb_der::Limit;
pub use length::{HIGH_BIT, length_fault};
pub use receiver::Receiver;
pub use skipping::SkippingDecoder;
pub use whole::{WholeFrame, first_frame};
