//! The C library: octets that are judged and listed, for programs in C and whatever calls C.
//!
//! Each function that `krbls.h` declares is an export here, over calls of the libraries below,
//! whose definitions its contract cites. No export has a `requires` of its own: each number that C
//! can pass is a choice or is refused, as `specs/Numbers` says. Nothing is kept between two calls,
//! and what is returned is in memory of the caller. A slice is a pointer and a number of octets
//! that C promises to be there, as `krbls.h` says.
#![tactic(auto)]

mod capture_spans;
mod file_spans;
mod frame_spans;
mod judging;
mod listing;
mod numbers;
mod paths;
mod rows;
mod spans;
mod turning;
mod version;
mod writing;
