//! The notes on scalars (RFC 4120, 5.2) that are viewed. None can hold in one of another type.

ghost use Rattle.std.specs.Prelude.{◌≡◌, ◌+◌, ◌≤◌, length, nat_lt};
ghost use Rattle.std.specs.List.{list_any};

use crate::fields::NotedView;
use crate::notes::Notes;
use crate::view::scalars::FlagsView;
use krb_der::{Flags, KString, Wide32};
use std::simd::Simd;

/// Returns whether one of N octets is above 7F. All are looked at at once.
#[inline(always)]
fn is_one_high<const N: usize>(octets: Simd<u8, N>) -> bool
    requires few { N ≤ 64 }
    requires count { length octets ≡ N }
    ensures { result ≡ list_any (λ octet. nat_lt 0x7F octet) octets.entry }
{
    octets.simd_gt(Simd::splat(0x7F)).any()
}

/// Returns whether one of N to 2N octets is above 7F: of the first N, or of the last N, with no
/// branch between them.
#[inline(always)]
fn is_end_high<const N: usize>(octets: &[u8]) -> bool
    requires lanes { N ≤ 64 }
    requires many { N ≤ length octets.now }
    requires few { length octets.now ≤ N + N }
    ensures { result ≡ list_any (λ octet. nat_lt 0x7F octet) octets.now }
{
    let others = octets.len() - N;
    is_one_high(Simd::<u8, N>::from_slice(octets))
        | is_one_high(Simd::<u8, N>::from_slice(&octets[others..]))
}

/// Returns whether an octet is above 7F. The bits of all octets are put together: a loop with no
/// exit within it takes fewer instructions for each.
#[inline(never)]
fn is_any_high(octets: &[u8]) -> bool
    ensures { result ≡ list_any (λ octet. nat_lt 0x7F octet) octets.now }
{
    let mut bits = 0;
    'octets: for octet in octets {
        bits |= *octet;
    }
    bits > 0x7F
}

/// Returns whether an octet is above 7F. Most names have 4 to 32, which are looked at many at a time.
pub(crate) fn has_high_octet(octets: &[u8]) -> bool
    ensures { result ≡ list_any (λ octet. nat_lt 0x7F octet) octets.now }
{
    match octets.len() {
        4..8 => is_end_high::<4>(octets),
        8..16 => is_end_high::<8>(octets),
        16..=32 => is_end_high::<16>(octets),
        _ => is_any_high(octets),
    }
}

impl<'a> NotedView<'a> for KString {
    #[inline(always)]
    fn notes(seen: &&'a [u8]) -> Notes {
        Notes {
            high_octet: has_high_octet(seen),
            ..Notes::none()
        }
    }
}

impl<'a> NotedView<'a> for Flags {
    #[inline(always)]
    fn notes(seen: &FlagsView<'a>) -> Notes {
        let bits = (8 * seen.octets.len() as u128).saturating_sub(u128::from(seen.unused));
        Notes {
            few_flags: bits < 32,
            ..Notes::none()
        }
    }
}

/// A number of the type of kvno, nonce and seq-number.
impl<'a> NotedView<'a> for Wide32 {
    #[inline(always)]
    fn notes(seen: &i64) -> Notes {
        Notes {
            negative: *seen < 0,
            ..Notes::none()
        }
    }
}
