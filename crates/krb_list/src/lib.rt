//! What is printed of keytabs and credential caches: records, each in one of three forms, as
//! [`krb_record`] has them.
//!
//! The main calls are [`put_record`] for keytabs and [`put_credential`] for caches. Each function
//! appends to one text, and its contract says what was appended; `krb_files` appends the lines of a
//! whole keytab or cache. Nothing here reads or writes a file, and no octet of a key is shown, as
//! `krb_text_laws` proves.
#![tactic(auto)]

mod ccache;
mod config;
mod credential;
mod keytab;

pub use ccache::{cache_end_line, cache_line, put_cache, put_cache_end};
pub use credential::{credential_line, put_credential};
pub use keytab::{keytab_end_line, put_keytab_end, put_record, record_line};
