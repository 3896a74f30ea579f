//! Where strings end, looked for 64 bytes at a time: most end within a few such steps.

ghost use Rattle.std.specs.Prelude.{IfSome, IsNone, length, take, ℕ, ◌*◌, ◌+◌, ◌<◌, ◌≤◌};
ghost use Rattle.dwp_strings.specs.{Ends.IsFirstZero, Ends.IsNear, Strings.IsZeroFree};

use memchr::memchr;
use std::simd::prelude::*;

/// How many bytes are looked at together.
const LANES: usize = 64;

/// How many steps of 64 bytes are looked at before `memchr` is called on all bytes: it takes larger
/// ones.
pub const ROUNDS: usize = 4;

/// Where the string at the front of some bytes ends, looked for in so many whole steps of 64 bytes
/// at most; none where no zero stands in them.
#[inline(always)]
pub fn short_end(bytes: &[u8], rounds: usize) -> Option<usize>
    ensures some { IfSome result (IsFirstZero bytes.now) }
    ensures none { IsNone result → (steps : ℕ) → steps ≤ rounds → steps * 64 ≤ length bytes.now
        → IsZeroFree (take (steps * 64) bytes.now) }
    ensures near { IfSome result (IsNear bytes.now rounds) }
{
    for round in 0..rounds {
        let at = round * LANES;
        if bytes.len() - at < LANES {
            return None;
        }
        let next = u8x64::from_slice(&bytes[at..]);
        let some = next.simd_eq(u8x64::splat(0)).to_bitmask().trailing_zeros() as usize;
        if some < LANES {
            return Some(at + some);
        }
    }
    None
}

/// Where the string at the front of some bytes ends; none where it has no end.
#[inline(never)]
pub fn end_of(bytes: &[u8]) -> Option<usize>
    ensures some { IfSome result (IsFirstZero bytes.now) }
    ensures none { IsNone result → IsZeroFree bytes.now }
{
    memchr(0, bytes)
}
