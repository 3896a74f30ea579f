//! Strings one behind the other, each ended by a zero byte, and room for more.

ghost use Rattle.std.specs.Prelude.{drop, length, take, [], ℕ, ◌++◌, ◌+◌, ◌<◌, ◌^◌, ◌≡◌, ◌≢◌, ◌≤◌};
ghost use Rattle.std.specs.Prelude.{false, IsTrue, OnErr, OnOk, slice_index};
ghost use Rattle.dwp_strings.specs.{Ends.IsCopied, Ends.IsFirstZero, Strings.terminated};

use std::alloc::{AllocError, Global};
use std::marker::Model;
use std::simd::Simd;
use std::simd::prelude::*;

/// Half of the bytes that are copied together.
const HALF: usize = 32;

/// How many bytes are copied together.
const LANES: usize = 64;

/// Twice that.
const BOTH: usize = 128;

/// How many bytes of room are made together. (More are set one by one on some processors.)
const ROOM: usize = 1920;

/// How many bytes memory is asked for at first.
const FIRST: usize = 1 << 18;

/// Bytes, to which more are appended, and behind them room that is in memory already: so a short
/// string is copied while it is looked at, and nothing else is done for it.
#[derive(Drop)]
pub(crate) struct Buffer {
    items: Vec<u8>,
    used: usize,
}

impl Model for Buffer {
    ghost use Rattle.std.specs.Prelude.{◌≤◌, ℕ, List, length, take};

    ghost Value = { List ℕ };

    ghost view = { λ b. take b.used b.items.items };

    ghost invariant = { λ b. b.used ≤ length b.items.items };
}

/// Makes more room, for so many bytes; false where these are too many, and for want of memory.
#[inline(never)]
fn make_room(items: &mut Vec<u8>, count: usize) -> bool
    ensures kept { take (length items.old.items) items.new.items ≡ items.old.items }
    ensures room { IsTrue result → length items.old.items + count ≤ length items.new.items }
{
    if items.is_empty() {
        // (past what is moved byte by byte when it grows)
        let _reserved = items.reserve(FIRST);
    }
    count <= ROOM && items.resize(items.len() + ROOM, 0).is_ok()
}

/// Whether there is room for so many bytes behind those that are used; it is made where it can be.
#[inline(always)]
fn has_room(items: &mut Vec<u8>, used: usize, count: usize) -> bool
    requires { used ≤ length items.old.items }
    ensures kept { take used items.new.items ≡ take used items.old.items }
    ensures room { IsTrue result → used + count ≤ length items.new.items }
    ensures within { used ≤ length items.new.items }
{
    count <= items.len() - used || make_room(items, count)
}

/// Puts a string and a zero byte into room.
fn put_ended(room: &mut [u8], string: &[u8])
    requires { length string.now < length room.old }
    ensures put { take (length string.now + 1) room.new ≡ terminated string.now }
    ensures long { length room.new ≡ length room.old }
{
    let end = string.len();
    room[..end].copy_from_slice(string);
    room[end] = 0;
}

/// Copies so many bytes of a place, and gives them.
#[tactic(auto, using(crate::proofs::Lanes::stored))]
#[inline(always)]
fn copy_lanes<const N: usize>(room: &mut [u8], bytes: &[u8], at: usize) -> Simd<u8, N>
    requires within { at + N ≤ length bytes.now }
    requires fits { at + N ≤ length room.old }
    ensures lanes { result ≡ take N (drop at bytes.now) }
    ensures long { length room.new ≡ length room.old }
    ensures kept { (k : ℕ) → IsCopied bytes.now room.old k → IsCopied bytes.now room.new k }
    ensures copied { (k : ℕ) → at ≤ k → k < at + N → IsCopied bytes.now room.new k }
{
    let lanes = Simd::<u8, N>::from_slice(&bytes[at..]);
    lanes.copy_to_slice(&mut room[at..]);
    lanes
}

/// Copies so many bytes of two places; whether none of them is zero.
#[inline(always)]
fn copy_both<const N: usize>(room: &mut [u8], bytes: &[u8], at: usize, other: usize) -> bool
    requires few { N ≤ 64 }
    requires first { at + N ≤ length bytes.now }
    requires second { other + N ≤ length bytes.now }
    requires first_fits { at + N ≤ length room.old }
    requires second_fits { other + N ≤ length room.old }
    ensures some { IsTrue result → (k : ℕ) → at ≤ k → k < at + N → slice_index bytes.now k ≢ 0 }
    ensures others { IsTrue result → (k : ℕ) → other ≤ k → k < other + N
        → slice_index bytes.now k ≢ 0 }
    ensures long { length room.new ≡ length room.old }
    ensures kept { (k : ℕ) → IsCopied bytes.now room.old k → IsCopied bytes.now room.new k }
    ensures first { (k : ℕ) → at ≤ k → k < at + N → IsCopied bytes.now room.new k }
    ensures second { (k : ℕ) → other ≤ k → k < other + N → IsCopied bytes.now room.new k }
{
    let first = copy_lanes::<N>(room, bytes, at);
    let second = copy_lanes::<N>(room, bytes, other);
    first
        .simd_min(second)
        .simd_eq(Simd::<u8, N>::splat(0))
        .to_bitmask()
        == 0
}

/// Copies the string at the front of some bytes into room, if it ends at that zero.
#[inline(always)]
fn copy_ended(room: &mut [u8], bytes: &[u8], end: usize) -> bool
    requires within { end < length bytes.now }
    requires long { 32 ≤ length bytes.now }
    requires ended { slice_index bytes.now end ≡ 0 }
    requires fits { end + 32 ≤ length room.old }
    ensures first { IsTrue result → IsFirstZero bytes.now end }
    ensures copied { IsTrue result → (k : ℕ) → k ≤ end → IsCopied bytes.now room.new k }
    ensures long { length room.new ≡ length room.old }
{
    if end < HALF {
        let first = copy_lanes::<32>(room, bytes, 0);
        return first.simd_eq(u8x32::splat(0)).to_bitmask().trailing_zeros() as usize >= end;
    }
    room[end] = 0;
    if end <= LANES {
        return copy_both::<32>(room, bytes, 0, end - HALF);
    }
    if end <= BOTH {
        return copy_both::<64>(room, bytes, 0, end - LANES);
    }
    if !copy_both::<64>(room, bytes, 0, LANES) {
        return false;
    }
    // (some are copied again where fewer are left)
    if end <= BOTH + LANES {
        return copy_both::<32>(room, bytes, end - LANES, end - HALF);
    }
    let last = end - BOTH;
    let mut at = BOTH;
    while at < last {
        if !copy_both::<64>(room, bytes, at, at + LANES) {
            return false;
        }
        at += BOTH;
    }
    copy_both::<64>(room, bytes, last, last + LANES)
}

impl Buffer {
    /// No bytes, which take no memory.
    pub fn new(alloc: Global) -> Self
        ensures { result ≡ [] }
    {
        Buffer {
            items: Vec::new(alloc),
            used: 0,
        }
    }

    /// How many bytes there are.
    #[inline(always)]
    pub fn len(&self) -> usize
        ensures value { result ≡ length self.now }
        ensures small { length self.now < 2 ^ 63 }
    {
        self.used
    }

    /// The bytes.
    #[inline(always)]
    pub fn as_slice(&self) -> &[u8]
        ensures value { result.now ≡ self.now }
        ensures small { length self.now < 2 ^ 63 }
    {
        &self.items[..self.used]
    }

    /// Appends a string and a zero byte.
    pub fn append(&mut self, string: &[u8]) -> Result<(), AllocError>
        ensures ok { OnOk result (self.new ≡ self.old ++ terminated string.now) }
        ensures err { OnErr result (self.new ≡ self.old) }
    {
        if string.len() < self.items.len() - self.used {
            put_ended(&mut self.items[self.used..], string);
            self.used += string.len() + 1;
            return Ok(());
        }
        self.items.truncate(self.used);
        self.items.reserve(string.len() + 1)?;
        self.items.extend_from_slice(string).unwrap();
        self.items.push(0).unwrap();
        self.used = self.items.len();
        Ok(())
    }

    /// Appends the string that some bytes begin with, of which one is zero, and that zero; false
    /// where the string doesn't end there, where it is long, and for want of memory.
    #[inline(always)]
    pub fn append_guessed(&mut self, bytes: &[u8], end: usize) -> bool
        requires within { end < length bytes.now }
        requires long { 32 ≤ length bytes.now }
        requires ended { slice_index bytes.now end ≡ 0 }
        ensures first { IsTrue result → IsFirstZero bytes.now end }
        ensures appended { IsTrue result → self.new ≡ self.old ++ take (end + 1) bytes.now }
        ensures same { result ≡ false → self.new ≡ self.old }
    {
        if !has_room(&mut self.items, self.used, end + HALF) {
            return false;
        }
        if !copy_ended(&mut self.items[self.used..], bytes, end) {
            return false;
        }
        self.used += end + 1;
        true
    }

    /// Forgets the bytes from a place on.
    pub fn truncate(&mut self, len: usize)
        ensures { self.new ≡ take len self.old }
    {
        self.used = self.used.min(len);
    }

    /// The bytes, as they are owned.
    pub fn finish(self) -> Vec<u8>
        ensures { result.items ≡ self }
    {
        let Buffer { mut items, used } = self;
        items.truncate(used);
        items
    }
}
