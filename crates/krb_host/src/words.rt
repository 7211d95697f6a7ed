//! The words of the command line.

use crate::system::System;
use std::alloc::AllocError;
use std::env::{Env, FillError};

/// How many octets are made room for at first.
const FIRST_SIZE: usize = 256;

impl System<'_> {
    /// Returns the words after the program's name. They are octets: what names a file may not be UTF-8.
    pub fn words(&self) -> Result<Vec<Vec<u8>>, AllocError> {
        let mut words = Vec::new(self.rt.alloc());
        for place in 1..usize::MAX {
            let Some(word) = word(self.rt, place)? else {
                return Ok(words);
            };
            words.push(word)?;
        }
        Ok(words)
    }
}

/// Returns the word at a place, if there is one. The program's name is at 0.
fn word(rt: &HostRuntime, place: usize) -> Result<Option<Vec<u8>>, AllocError> {
    let mut size = FIRST_SIZE;
    for _ in 0..64 {
        let mut octets = Vec::from_elem(rt.alloc(), 0, size)?;
        match rt.arg(place, octets.as_mut_slice()) {
            Ok(length) => {
                octets.truncate(length);
                return Ok(Some(octets));
            }
            Err(FillError::NotPresent) => return Ok(None),
            Err(FillError::TooLong) => size = size.saturating_mul(2),
        }
    }
    Err(AllocError)
}
