//! Texts that are written to memory of the caller.

ghost use Rattle.std.specs.Prelude.{◌≡◌, MatchResult};
ghost use Rattle.krb_c.specs.Written.{IsCopied, WroteNothing, answer_of};

use krb_run::{RunEnd, RunFault};

/// What C is told if memory ran out.
pub(crate) const MEMORY: u32 = 3;

/// A listing, and how it ends.
#[derive(Drop)]
pub(crate) struct Listing {
    pub text: Vec<u8>,
    pub end: RunEnd,
}

/// A text with what is said of it, and how it ends.
#[derive(Drop)]
pub(crate) struct Told {
    pub text: Vec<u8>,
    pub said: Vec<u8>,
    pub end: RunEnd,
}

/// Copies as much of a text, or of numbers, as there is room for, and writes how much it is in all.
pub(crate) fn copy_out<T: Copy>(made: &[T], text: &mut [T], size: &mut usize)
    ensures { IsCopied made.now text.old text.new size.new }
{
    let count = made.len().min(text.len());
    text[..count].copy_from_slice(&made[..count]);
    *size = made.len();
}

/// Returns the status of an end, as of its command.
pub(crate) fn answer_of(end: RunEnd) -> u32
    ensures { result ≡ answer_of end }
{
    match end {
        RunEnd::Clean => 0,
        RunEnd::Refused | RunEnd::RefusedAtOnce => 1,
    }
}

/// Copies a listing out, and returns its status.
pub(crate) fn answer(listing: Result<Listing, RunFault>, text: &mut [u8], size: &mut usize) -> u32
    ensures { MatchResult listing (λ made. IsCopied made.text.items text.old text.new size.new × (result ≡ answer_of made.end)) (λ _. WroteNothing text.old text.new size.old size.new result) }
{
    match listing {
        Ok(listing) => {
            copy_out(listing.text.as_slice(), text, size);
            answer_of(listing.end)
        }
        Err(_) => MEMORY,
    }
}

/// Copies a text and what is said of it out, and returns the status.
pub(crate) fn answer_told(
    made: Result<Told, RunFault>,
    text: &mut [u8],
    size: &mut usize,
    said: &mut [u8],
    said_size: &mut usize,
) -> u32
    ensures { MatchResult made (λ made. (IsCopied made.text.items text.old text.new size.new × IsCopied made.said.items said.old said.new said_size.new) × (result ≡ answer_of made.end)) (λ _. WroteNothing text.old text.new size.old size.new result × WroteNothing said.old said.new said_size.old said_size.new result) }
{
    match made {
        Ok(made) => {
            copy_out(made.text.as_slice(), text, size);
            copy_out(made.said.as_slice(), said, said_size);
            answer_of(made.end)
        }
        Err(_) => MEMORY,
    }
}
