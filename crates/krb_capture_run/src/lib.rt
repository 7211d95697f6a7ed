//! What `krbls` does with a capture, over any reader and writer: [`run_capture`] lists what is found
//! in its packets, a record for each message, and then the record of the end; [`run_decode_capture`]
//! decodes the messages, of all packets or of one, and says what is left out. It is a run of
//! `krb_run` as that over a keytab is, and a crate of its own so that `krb_tool` and `krb_capture`
//! need not wait for each other.
#![tactic(auto)]

mod capture_run;
mod decode_run;

pub use capture_run::run_capture;
pub use decode_run::run_decode_capture;
