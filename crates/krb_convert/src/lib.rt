//! Messages to lines of JSON, and back, over any reader and writer: what the commands `decode` and
//! `encode` do with a source.
//!
//! - [`run_decode`] writes framed messages as lines of JSON, and [`run_encode`] the messages that
//!   such lines spell as frames; [`run_decode_unframed`] and [`run_encode_unframed`] do so for one
//!   message without its length.
//! - [`decode`] and [`encode`] do one or the other as a [`Framing`](krb_words::Framing) says, and
//!   [`put_decode_end`] and [`put_encode_end`] append the line that says why that ended before all
//!   was read.
//!
//! Nothing here opens a file or tells a line: the program does. `krb_json` says what a line of JSON
//! is, and `krb_run` how runs read and write.
#![tactic(auto)]

mod conversion;
mod decode_run;
mod encode_run;
mod ends;
mod json_lines;
mod json_reader;
mod whole_run;

pub use conversion::{decode, encode};
pub use decode_run::{DecodeEnd, run_decode};
pub use encode_run::{EncodeEnd, run_encode, run_encode_unframed};
pub use ends::{put_decode_end, put_encode_end};
pub use whole_run::{read_most, run_decode_unframed};
