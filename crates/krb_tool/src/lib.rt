//! What `krbls` does with messages, over any reader and writer: it lists them, a record for each,
//! and then the record of the end, or of what is refused and at which place.
//!
//! The main calls:
//!
//! - [`run_stream`] lists framed messages, [`run_message`] one message that an input spells, and
//!   [`run_lines_in`] messages that lines spell. [`run_stream_in`] and its like take the label of the
//!   records ([`Label`](krb_record::Label)), which has their form ([`Form`]), and the profile of messages ([`Profile`]), and a stream whether it is gone
//!   on with after refusals.
//! - [`list_octets`] returns the line of a message that is in memory, and [`list_input`] that of what
//!   an input in memory spells.
//! - [`start_stream`] begins the decoder of a stream, and [`frame_path`] and [`refused_path`] return
//!   the path of the field at fault in what is refused, for other runs over messages.
//!
//! `krb_run` has how runs end, and what lists several sources; `krb_convert` has the runs that turn
//! messages into JSON and back, `krb_file_run` those over keytabs and caches, and `krb_capture_run`
//! that over a capture.
//!
//! Nothing here opens a file or reads a command line: `krb_host` and `krb_words` do. `krb_text` says
//! what is in a record.
#![tactic(auto)]

mod fault_path;
mod labelled;
mod lines_run;
mod listing;
mod message_input;
mod message_run;
mod run;

pub use fault_path::{frame_path, refused_path};
pub use krb_der::Profile;
pub use krb_frame::Limit;
pub use krb_record::Form;
pub use krb_run::FileText;
pub use lines_run::run_lines_in;
pub use listing::start_stream;
pub use message_run::{list_input, list_octets, run_message, run_message_in};
pub use run::{run_stream, run_stream_in};
