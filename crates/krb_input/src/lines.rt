//! Lines.

ghost use Rattle.std.specs.Prelude.{◌≡◌, ◌∷◌, ◌≤◌, length};
ghost use Rattle.krb_input.specs.Dumps.{lines};
ghost use Rattle.krb_input.specs.inner.Results.{lines_after, lines_of, size_of};

use crate::characters::length_before;

/// Returns the first line of a text, and the text from its end on.
#[tactic(auto, using(crate::proofs::LineSplits::lines_split))]
pub(crate) fn split_line(text: &[u8]) -> (&[u8], &[u8])
    ensures lines { lines text.now ≡ (result.0.now, result.1.now) ∷ lines_after result.1.now }
    ensures shorter { length result.1.now ≤ length text.now }
{
    text.split_at(length_before(b'\n', text))
}

/// Returns the text after a line's end, if a text begins with one.
pub(crate) fn after_line(text: &[u8]) -> Option<&[u8]>
    ensures lines { lines_of result ≡ lines_after text.now }
    ensures shorter { size_of result ≤ length text.now }
{
    match text {
        [_, others @ ..] => Some(others),
        [] => None,
    }
}
