//! Numbers that a seed determines, and damage to bytes by them.

ghost use Rattle.std.specs.Prelude.{◌<◌, length};

use std::alloc::Global;

/// A stream of numbers that its seed determines: SplitMix64.
#[derive(Drop)]
pub struct Generator {
    state: u64,
}

impl Generator {
    pub fn new(seed: u64) -> Generator {
        Generator { state: seed }
    }

    /// Any number.
    fn next(&mut self) -> u64 {
        self.state = self.state.wrapping_add(0x9e37_79b9_7f4a_7c15);
        let mixed = (self.state ^ (self.state >> 30)).wrapping_mul(0xbf58_476d_1ce4_e5b9);
        let mixed = (mixed ^ (mixed >> 27)).wrapping_mul(0x94d0_49bb_1331_11eb);
        mixed ^ (mixed >> 31)
    }

    /// A number below `n`.
    pub fn below(&mut self, n: usize) -> usize
        requires { 0 < n }
        ensures { result < n }
    {
        (self.next() % n as u64) as usize
    }

    /// One of these, as it is or damaged by half the chance; no bytes where there are none, or no
    /// memory.
    pub fn one_of(&mut self, alloc: Global, all: &[&[u8]], is_always_damaged: bool) -> Vec<u8> {
        if all.is_empty() {
            return Vec::new(alloc);
        }
        let chosen = all[self.below(all.len())];
        let mut bytes = chosen.to_vec(alloc).unwrap_or(Vec::new(alloc));
        if is_always_damaged || self.below(2) == 0 {
            damage(self, &mut bytes);
        }
        bytes
    }
}

/// Numbers at which formats have their limits.
const LIMITS: [u32; 8] = [
    0,
    1,
    0x7fff_ffff,
    0x8000_0000,
    0xffff_fff0,
    0xffff_fffe,
    0xffff_ffff,
    0xffff,
];

/// Damages bytes in one to four places.
fn damage(generator: &mut Generator, bytes: &mut Vec<u8>) {
    for _ in 0..generator.below(4) + 1 {
        if !bytes.is_empty() {
            damage_once(generator, bytes);
        }
    }
}

/// The end is cut off; four bytes become a number at a limit; up to 64 bytes are written over
/// others, as a section's header over another's; the bytes from a place on come again at the end,
/// where there is memory for them; two of the last section headers change places; or a byte becomes
/// another.
fn damage_once(generator: &mut Generator, bytes: &mut Vec<u8>)
    requires { 0 < length bytes.old.items }
{
    let kind = generator.below(8);
    let (at, other) = (generator.below(bytes.len()), generator.below(bytes.len()));
    match kind {
        0 => bytes.truncate(at),
        1 => raise(generator, bytes, at),
        2 => copy_over(generator, bytes, at, other),
        3 => {
            let _ = bytes.extend_from_within(at..);
        }
        4 => swap_headers(generator, bytes),
        kind => bytes[at] = changed(kind, bytes[at], generator.below(256) as u8),
    }
}

/// Another byte, or this one raised by one to four, as a count of entries, or with a bit turned.
fn changed(kind: usize, byte: u8, by: u8) -> u8 {
    match kind {
        5 => by,
        6 => byte.wrapping_add(by % 4 + 1),
        _ => byte ^ (1u8 << (by % 8)),
    }
}

/// Four bytes become a number at a limit, in either order, as far as they are there.
fn raise(generator: &mut Generator, bytes: &mut [u8], at: usize)
    requires { at < length bytes.old }
{
    let number = LIMITS[generator.below(8)];
    let parts = if generator.below(2) == 0 {
        number.to_le_bytes()
    } else {
        number.to_be_bytes()
    };
    for i in 0..4 {
        if at + i < bytes.len() {
            bytes[at + i] = parts[i];
        }
    }
}

/// Copies up to 64 bytes from one place to another, as far as both are there.
fn copy_over(generator: &mut Generator, bytes: &mut [u8], from: usize, to: usize)
    requires from { from < length bytes.old }
    requires to { to < length bytes.old }
{
    for i in 0..generator.below(64) + 1 {
        if from + i < bytes.len() && to + i < bytes.len() {
            bytes[to + i] = bytes[from + i];
        }
    }
}

/// Two of the last eight section headers change places, in a file that ends with them: of 40 bytes
/// each in a 32-bit ELF file (ELF gABI, e_ident), else of 64.
fn swap_headers(generator: &mut Generator, bytes: &mut [u8]) {
    let size: usize = if bytes.get(4) == Some(&1) { 40 } else { 64 };
    let one = bytes.len().saturating_sub(size * (generator.below(8) + 1));
    let other = bytes.len().saturating_sub(size * (generator.below(8) + 1));
    for i in 0..size {
        if one + i < bytes.len() && other + i < bytes.len() {
            bytes.swap(one + i, other + i);
        }
    }
}
