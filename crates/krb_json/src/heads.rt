//! The head of an item: its tag and its length (X.690, 8.1).

ghost use Rattle.std.specs.Prelude.{◌≡◌, ◌≤◌, ◌+◌, ◌-◌, ◌++◌, ◌∷◌, [], take, drop, length, OnOk, IfOk};
ghost use Rattle.std.specs.Vec.{vec_len};
ghost use Rattle.krb_der.specs.Octets.{length_octets, spelled};

use std::alloc::AllocError;

/// Appends the fewest octets that spell a number, the most significant first, and returns how many
/// they are.
fn push_number(out: &mut Vec<u8>, number: u64) -> Result<u8, AllocError>
    ensures octets { OnOk result (out.new.items ≡ out.old.items ++ spelled 256 number) }
    ensures count { IfOk result (λ count. count ≡ length (spelled 256 number)) }
    ensures small { IfOk result (λ count. count ≤ 8) }
{
    if number < 256 {
        out.push(number as u8)?;
        return Ok(1);
    }
    let count = push_number(out, number / 256)?;
    out.push((number % 256) as u8)?;
    Ok(count + 1)
}

/// Begins an item: appends its tag, and an octet for its length, which is not known yet.
pub(crate) fn begin_item(out: &mut Vec<u8>, tag: u8) -> Result<(), AllocError>
    ensures { OnOk result (out.new.items ≡ out.old.items ++ tag ∷ 0 ∷ []) }
{
    out.extend_from_slice(&[tag, 0])
}

/// Ends the item that begins at a place: its contents are the octets after its tag and the octet for
/// its length, and their number replaces that octet (X.690, 8.1.3 and 10.1). Most items have fewer
/// than 128 octets, and of these none is moved.
pub(crate) fn end_item(out: &mut Vec<u8>, start: usize) -> Result<(), AllocError>
    requires { start + 2 ≤ vec_len out.old }
    ensures { OnOk result (out.new.items ≡ take (start + 1) out.old.items ++ length_octets (vec_len out.old - (start + 2)) ++ drop (start + 2) out.old.items) }
{
    let size = out.len() - (start + 2);
    if size < 0x80 {
        out[start + 1] = size as u8;
        return Ok(());
    }
    let count = push_number(out, size as u64)?;
    out[start + 1] = 0x80 + count;
    out.as_mut_slice()[start + 2..].rotate_right(count as usize);
    Ok(())
}
