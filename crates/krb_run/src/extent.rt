//! Where a refusal of a file is.

ghost use Rattle.std.specs.Prelude.{◌≡◌};
ghost use Rattle.krb_run.specs.Extents.{extent_of};

use krb_file::{FileRefusal, file_why_length};
use krb_record::Extent;

/// Returns where the part of a file begins that a refusal is in, and the length that was read, if
/// that is wrong.
pub fn extent_of(refusal: FileRefusal) -> Extent
    ensures { result ≡ extent_of refusal }
{
    Extent {
        at: refusal.begin,
        length: file_why_length(refusal.why),
    }
}
