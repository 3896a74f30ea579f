//! Looking a string up among positions in the order of their strings.

ghost use Rattle.std.specs.Prelude.{length, slice_index, take, ℕ, ◌+◌, ◌<◌, ◌^◌, ◌↔◌, ◌≡◌, ◌≤◌};
ghost use Rattle.std.specs.Prelude.{Contains, IfErr, IfOk, IsTrue};
ghost use Rattle.dwp_strings.specs.Strings.{IsWithinDigits, IsZeroFree, offset_of, strings_in};
ghost use Rattle.dwp_strings.specs.Strings.{BeginsAt, IsIndexed, StandsAt};
ghost use Rattle.std.specs.{Cmp.Lexicographic.slice_cmp, Ordering.nat_cmp};
ghost use Rattle.dwp_bytes.specs.StringOffsets.{string_from};

use crate::positions::Positions;
use memchr::arch::all::is_equal;
use std::cmp::Ordering;
use std::simd::prelude::*;

/// How many bytes of a string are looked at together.
const LANES: usize = 32;

/// How the string at a place, whose end isn't looked for, stands to one without zero bytes.
#[tactic(auto, using(crate::proofs::Named::compared_at, crate::proofs::Named::compared_short))]
pub(crate) fn compare_at(bytes: &[u8], at: usize, string: &[u8]) -> Ordering
    requires within { at ≤ length bytes.now }
    requires zero_free { IsZeroFree string.now }
    ensures { result ≡ slice_cmp nat_cmp (string_from bytes.now at) string.now }
{
    let rest = &bytes[at..];
    if rest.len() <= string.len() {
        return rest.cmp(&string);
    }
    rest[..string.len()]
        .cmp(&string)
        .then(rest[string.len()].cmp(&0))
}

/// Whether a string begins at a place of a section of ended strings.
pub(crate) fn begins_at(bytes: &[u8], at: usize) -> bool
    ensures { IsTrue result ↔ BeginsAt bytes.now at }
{
    at < bytes.len() && (at == 0 || bytes[at - 1] == 0)
}

/// Whether this string begins at a place of a section of ended strings.
#[tactic(auto, using(crate::proofs::Named::alike_at))]
#[inline(always)]
pub(crate) fn stands_at(bytes: &[u8], at: usize, string: &[u8]) -> bool
    requires { IsZeroFree string.now }
    ensures { IsTrue result ↔ (BeginsAt bytes.now at × (string_from bytes.now at ≡ string.now)) }
{
    if !begins_at(bytes, at) {
        return false;
    }
    let rest = &bytes[at..];
    if rest.len() <= string.len() {
        return compare_at(bytes, at, string).is_eq();
    }
    rest[string.len()] == 0 && is_equal(&rest[..string.len()], string)
}

/// Whether the next 32 bytes of both are the same.
#[inline(always)]
fn are_same(bytes: &[u8], other: &[u8], at: usize) -> bool
    requires first { at + 32 ≤ length bytes.now }
    requires second { at + 32 ≤ length other.now }
    ensures { IsTrue result → (k : ℕ) → at ≤ k → k < at + 32
        → slice_index bytes.now k ≡ slice_index other.now k }
{
    let first = u8x32::from_slice(&bytes[at..]);
    let second = u8x32::from_slice(&other[at..]);
    first.simd_ne(second).to_bitmask() == 0
}

/// Whether so many first bytes of both are the same.
#[inline(always)]
fn begins_same(bytes: &[u8], other: &[u8], count: usize) -> bool
    requires first { count ≤ length bytes.now }
    requires second { count ≤ length other.now }
    requires long { 32 ≤ length other.now }
    ensures { IsTrue result → take count bytes.now ≡ take count other.now }
{
    if count < LANES {
        if bytes.len() < LANES {
            return is_equal(&bytes[..count], &other[..count]);
        }
        let first = u8x32::from_slice(bytes);
        let second = u8x32::from_slice(other);
        return first.simd_ne(second).to_bitmask().trailing_zeros() as usize >= count;
    }
    let last = count - LANES;
    let mut at = 0;
    while at < last {
        if !are_same(bytes, other, at) {
            return false;
        }
        at += LANES;
    }
    // (some are looked at again where fewer are left)
    are_same(bytes, other, last)
}

/// Whether the string that some bytes begin with, of which one is zero, begins at a place; no where
/// they differ before that zero and behind an earlier one.
#[inline(always)]
pub(crate) fn begins_alike(bytes: &[u8], at: usize, other: &[u8], end: usize) -> bool
    requires at { at < 2 ^ 32 }
    requires within { end < length other.now }
    requires long { 32 ≤ length other.now }
    requires ended { slice_index other.now end ≡ 0 }
    ensures { IsTrue result
        → BeginsAt bytes.now at × (string_from bytes.now at ≡ string_from other.now 0) }
{
    // (most that differ are told by this byte)
    if at + end >= bytes.len() || bytes[at + end] != 0 {
        return false;
    }
    (at == 0 || bytes[at - 1] == 0) && begins_same(&bytes[at..], other, end)
}

/// Where a string begins, or the rank at which it would stand, and how many were compared.
#[derive(Drop)]
pub(crate) struct Found {
    pub place: Result<usize, usize>,
    pub compared: u32,
}

/// Looks for a string among those at positions by halving these, which are in the strings' order.
pub(crate) fn search(bytes: &[u8], positions: &Positions, string: &[u8]) -> Found
    requires table { IsIndexed bytes.now positions.now }
    requires zero_free { IsZeroFree string.now }
    ensures found { IfOk result.place (λ place. Contains (strings_in bytes.now) string.now
        × (place ≡ offset_of (strings_in bytes.now) string.now)) }
    ensures there { IfOk result.place (Contains positions.now) }
    ensures absent { IfErr result.place (StandsAt bytes.now positions.now string.now) }
    ensures count { IsWithinDigits result.compared (length positions.now) }
{
    let mut low = 0;
    let mut high = positions.len();
    let mut chunk = 0;
    let mut compared = 0;
    while low < high {
        let middle = low + (high - low) / 2;
        let (position, at) = positions.get_near(middle, chunk);
        let place = position as usize;
        chunk = at;
        compared += 1;
        match compare_at(bytes, place, string) {
            Ordering::Less => low = middle + 1,
            Ordering::Equal => {
                return Found {
                    place: Ok(place),
                    compared,
                };
            }
            Ordering::Greater => high = middle,
        }
    }
    Found {
        place: Err(low),
        compared,
    }
}
