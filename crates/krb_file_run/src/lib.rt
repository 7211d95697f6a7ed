//! What `krbls` does with keytabs and credential caches, over any reader and writer: [`run_keytab`]
//! and [`run_ccache`] list a record for each key or credential, and then the record of the end, or
//! of what is refused and at which place. [`run_keytab_in`] and [`run_ccache_in`] take the
//! label of the records ([`Label`](krb_record::Label)), which has their form.
//!
//! They are runs of `krb_run` as that over a capture is, and a crate of their own so that `krb_tool`
//! and `krb_list` need not wait for each other.
#![tactic(auto)]

mod file_run;
mod labelled;

pub use file_run::{run_ccache, run_ccache_in, run_keytab, run_keytab_in};
