//! The hash of a string, made of 32 bytes a step: nearly that of std's `FoldHasher`.
#![tactic(auto, using(crate::proofs::Hashed::mixed_first), unfolding(crate::specs::Places::wide))]

ghost use Rattle.std.specs.Prelude.{◌≡◌, ◌<◌, ◌≤◌, ◌+◌, length};
ghost use Rattle.std.specs.Hash.FoldHasher.{folded_multiply as folded, read_u32, read_u64, mix};
ghost use Rattle.dwp_strings.specs.Places.{hash as hash_of, wide, after_block};

use std::hash::{FoldHasher, Hasher};

/// What the hasher begins with.
const START: u64 = 0x243f_6a88_85a3_08d3;

/// What the last word is changed by.
const MULTIPLIER: u64 = 0x9e37_79b9_7f4a_7c15;

/// The two halves of a product, joined.
#[inline(always)]
fn folded_multiply(a: u64, b: u64) -> u64
    ensures { result ≡ folded a b }
{
    let product = a as u128 * b as u128;
    (product & 0xFFFF_FFFF_FFFF_FFFF) as u64 ^ (product >> 64) as u64
}

/// The four bytes at a place as a number, the lowest first.
#[inline(always)]
fn half_at(bytes: &[u8], at: usize) -> u64
    requires { at + 4 ≤ length bytes.now }
    ensures { result ≡ read_u32 bytes.now at }
{
    u32::from_le_bytes([bytes[at], bytes[at + 1], bytes[at + 2], bytes[at + 3]]) as u64
}

/// The eight bytes at a place as a number, the lowest first.
#[inline(always)]
fn word_at(bytes: &[u8], at: usize) -> u64
    requires { at + 8 ≤ length bytes.now }
    ensures { result ≡ read_u64 bytes.now at }
{
    let rest = &bytes[at..];
    half_at(rest, 0) | half_at(rest, 4) << 32
}

/// The state after a block of 16 bytes. (Its second word isn't 0, so needn't be changed first.)
#[inline(always)]
fn mixed(bytes: &[u8], state: u64, at: usize) -> u64
    requires { at + 16 ≤ length bytes.now }
    ensures { result ≡ after_block bytes.now state at }
{
    folded_multiply(word_at(bytes, at) ^ state, word_at(bytes, at + 8))
}

/// The state after the last words, at two places.
#[inline(always)]
fn mixed_last(bytes: &[u8], state: u64, at: usize, other: usize) -> u64
    requires first { at + 8 ≤ length bytes.now }
    requires second { other + 8 ≤ length bytes.now }
    ensures { result ≡ mix bytes.now state at other }
{
    folded_multiply(
        word_at(bytes, at) ^ state,
        word_at(bytes, other) ^ MULTIPLIER,
    )
}

/// The whole hash of a string that is longer than 32 bytes.
#[inline(always)]
fn long_hash(bytes: &[u8]) -> u64
    requires { 32 < length bytes.now }
    ensures { result ≡ wide bytes.now }
{
    let len = bytes.len();
    let mut state = START.wrapping_add(len as u64);
    let last = len - 32;
    let mut at = 0;
    while at < last {
        state = mixed(bytes, state, at);
        state = mixed(bytes, state, at + 16);
        at += 32;
    }
    if len - at > 16 {
        let next = mixed(bytes, state, at);
        return mixed_last(bytes, next, len - 16, len - 8);
    }
    mixed_last(bytes, state, len - 16, len - 8)
}

/// The whole hash of a string.
#[inline(always)]
fn wide_hash(string: &[u8]) -> u64
    ensures { result ≡ wide string.now }
{
    let len = string.len();
    if len > 32 {
        return long_hash(string);
    }
    let state = START.wrapping_add(len as u64);
    if len > 16 {
        let next = mixed(string, state, 0);
        return mixed_last(string, next, len - 16, len - 8);
    }
    if len > 8 {
        return mixed_last(string, state, 0, len - 8);
    }
    let mut hasher = FoldHasher::default();
    hasher.write(string);
    hasher.finish()
}

/// The hash of a string, where a call is to be saved.
#[inline(always)]
pub(crate) fn hash_here(string: &[u8]) -> u32
    ensures { result ≡ hash_of string.now }
{
    (wide_hash(string) % 0x1_0000_0000) as u32
}

/// The hash of a string, by which its place is kept.
#[inline(never)]
pub(crate) fn hash(string: &[u8]) -> u32
    ensures { result ≡ hash_of string.now }
{
    hash_here(string)
}
