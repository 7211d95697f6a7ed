//! The numbers of an OBJECT IDENTIFIER (X.690, 8.19).

ghost use Rattle.std.specs.Prelude.{◌≡◌, ◌∷◌, ◌^◌, [], IfOk, MatchOption, codes, decimal, false, nat_lt, string_bytes, true};
ghost use Rattle.std.specs.List.{list_all};
ghost use Rattle.krb_record.specs.Text.{joined};
ghost use Rattle.krb_items.specs.Records.{first_two, identifier_numbers, numbers_in};

use itoa::Buffer;
use std::alloc::{AllocError, Global};

/// Returns the numbers, the first one that of two, or none if one has more than 64 bits.
pub(crate) fn numbers_in(alloc: Global, octets: &[u8]) -> Result<Option<Vec<u64>>, AllocError>
    ensures { IfOk result (λ numbers. MatchOption numbers (list_all (λ number. nat_lt number (2 ^ 64)) (numbers_in 0 octets.now) ≡ false) (λ numbers. (numbers.items ≡ numbers_in 0 octets.now) × (list_all (λ number. nat_lt number (2 ^ 64)) (numbers_in 0 octets.now) ≡ true))) }
{
    let mut numbers = Vec::new(alloc);
    let mut part: u64 = 0;
    'octets: for octet in octets {
        let Some(higher) = part.checked_mul(128) else {
            return Ok(None);
        };
        if *octet < 0x80 {
            let Some(number) = higher.checked_add(u64::from(*octet)) else {
                return Ok(None);
            };
            numbers.push(number)?;
            part = 0;
        } else {
            let Some(number) = higher.checked_add(u64::from(*octet - 0x80)) else {
                return Ok(None);
            };
            part = number;
        }
    }
    if part > 0 {
        numbers.push(part)?;
    }
    Ok(Some(numbers))
}

/// Returns the two numbers that a first one is of.
fn first_two(number: u64) -> (u64, u64)
    ensures { first_two number ≡ result.0 ∷ result.1 ∷ [] }
{
    if number < 40 {
        (0, number)
    } else if number < 80 {
        (1, number - 40)
    } else {
        (2, number - 80)
    }
}

/// Returns the numbers with dots between them.
pub(crate) fn dotted(alloc: Global, numbers: &[u64]) -> Result<String, AllocError>
    ensures { IfOk result (λ text. string_bytes text ≡ joined [] (codes ".") decimal (identifier_numbers numbers.now)) }
{
    let mut text = String::new(alloc);
    let Some((first, others)) = numbers.split_first() else {
        return Ok(text);
    };
    let (one, two) = first_two(*first);
    let mut buffer = Buffer::new();
    text.push_str(buffer.format(one))?;
    text.push('.')?;
    text.push_str(buffer.format(two))?;
    'others: for number in others {
        text.push('.')?;
        text.push_str(buffer.format(*number))?;
    }
    Ok(text)
}
