//! The tests of the libraries, each in the module named after its crate or after what it tests.
//! They test what no contract says: that definitions mean what the formats say, that calls succeed
//! if memory is there, texts, and readers and writers that fail. What the program shows of octets
//! is tested by `tests/run/compare` on the input in `tests/data`.
//!
//! The gate proves a crate that has tests twice, with them and without. So the tests are a crate of
//! their own, and no library is proved again for them. Each function costs its proof some seconds,
//! and each test two of these: so a test goes over rows, and a large value is owned by a function
//! that has one way out.
#![tactic(auto)]

#[cfg(test)]
mod capture;
#[cfg(test)]
mod ccache;
#[cfg(test)]
mod der;
#[cfg(test)]
mod error_data;
#[cfg(test)]
mod examples;
#[cfg(test)]
mod exchange;
#[cfg(test)]
mod fakes;
#[cfg(test)]
mod flow;
#[cfg(test)]
mod frame;
#[cfg(test)]
mod hint;
#[cfg(test)]
mod input;
#[cfg(test)]
mod json_lines;
#[cfg(test)]
mod judge;
#[cfg(test)]
mod keytab;
#[cfg(test)]
mod list;
#[cfg(test)]
mod locating;
#[cfg(test)]
mod offsets;
#[cfg(test)]
mod outputs;
#[cfg(test)]
mod packet;
#[cfg(test)]
mod packet_blocks;
#[cfg(test)]
mod packet_fragments;
#[cfg(test)]
mod padata;
#[cfg(test)]
mod places;
#[cfg(test)]
mod registry;
#[cfg(test)]
mod runs;
#[cfg(test)]
mod scan;
#[cfg(test)]
mod streaming;
#[cfg(test)]
mod text;
#[cfg(test)]
mod token;
#[cfg(test)]
mod values;
#[cfg(test)]
mod words;
