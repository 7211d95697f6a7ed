//! What is found in captures: the messages that flows of UDP and TCP carry, and what is refused or
//! lost of them, each as a record with its packet, its time and its flow.
//!
//! The main calls:
//!
//! - [`Capture::new`] begins a listing, and [`Capture::decoding`] one in which messages are decoded
//!   ([`Decoding`]): they are lines of JSON, and records say what is left out.
//! - [`Capture::take`] takes the next packet of a capture, and lists what is found with it. If that
//!   is much, [`Capture::go_on`] lists what is left of it, step by step.
//! - [`Capture::finish`] lists what is found at the end of the file, and the totals.
//! - [`Capture::refuse`] lists the refusal of the file itself, and the totals.
//!
//! A flow is of Kerberos if one of its ports is 88 or another one that is given, and else of
//! changes of passwords (RFC 3244) if one of them is 464. A UDP datagram is a message; what one end
//! of a TCP connection sends is a stream of frames (RFC 4120, 7.2.2), in which one goes on after
//! refusals. Nothing here reads a file: `krb_packet` does, and `krb_capture_run` runs over
//! both.
//!
//! `specs/Laws` says that the records of a direction are those of its stream, whatever way that was
//! cut into segments and whatever else the capture has; `krb_capture_laws` proves it.
#![tactic(auto)]

mod capture;
mod datagram;
mod decoded;
mod directions;
mod ended;
mod flow;
mod frames;
mod happened;
mod labelled;
mod listing;
mod message;
mod message_frames;
mod numbers;
mod password;
mod password_frames;
mod recent;
mod sending;
mod style;

pub use capture::Capture;
pub use directions::Rest;
pub use style::Decoding;
