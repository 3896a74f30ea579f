//! The table of distinct strings (DWARF 5, 7.26).

ghost use Rattle.std.specs.Prelude.{IfOk, length, slice_index, take, [], ◌<◌, ◌^◌, ◌↔◌, ◌≡◌, ◌≤◌};
ghost use Rattle.std.specs.Prelude.{Contains, IfSome, IsNone, IsSome, IsTrue, OnErr};
ghost use Rattle.dwp_strings.specs.Strings.{IsPlaced, IsWithinDigits, IsZeroFree, offset_of};
ghost use Rattle.dwp_bytes.specs.StringOffsets.{string_from};
ghost use Rattle.dwp_strings.specs.{Marks.mark_of, Strings.data_of, Strings.IsTable};

use crate::entries::Entries;
use crate::hash::{hash, hash_here};
use crate::places::SHARED;
use crate::search::{begins_alike, search, stands_at};
use memchr::memchr;
use std::alloc::{AllocError, Global};
use std::marker::Model;

/// How much a table held at some time: how many strings, and how many bytes of data.
#[derive(Clone, Copy, Debug, PartialEq, Eq, Hash)]
pub struct TableMark {
    /// How many strings.
    pub strings: usize,
    /// How many bytes they and the zero bytes at their ends take.
    pub bytes: usize,
}

/// Distinct strings, in order of first use. In clauses the table is the list of these strings.
///
/// No string is copied but into the data. A string is found by its hash, which has the string's
/// place. Those that share a hash, and new ones where no more hashes get places, are kept by their
/// order too, and found by that. So one string at most is compared with another, or as many as
/// halving those in order takes.
///
/// The place behind the string that was found last is looked at first: inputs that share strings
/// often use them in the same order. In the loop over string offsets that is done while it is
/// right.
#[derive(Drop)]
pub struct StringTable {
    entries: Entries,
    /// The place behind the string that was found last, where four bytes hold it.
    next: u32,
    /// Whether strings were found there lately.
    is_next: bool,
}

/// The place behind a string, where four bytes hold it.
#[inline(always)]
fn behind(place: usize, length: usize) -> u32 {
    (place.wrapping_add(length).wrapping_add(1) % 0x1_0000_0000) as u32
}

impl Model for StringTable {
    ghost use Rattle.std.specs.Prelude.{List, ℕ};
    ghost use Rattle.dwp_strings.specs.Hashed.{held, IsHashed};

    ghost Value = { List (List ℕ) };

    ghost view = { λ t. held t.entries };

    ghost invariant = { λ t. IsHashed t.entries };
}

#[tactic(auto, using(std::proofs::lemmas::List::take_all))]
impl StringTable {
    /// A table without strings, which takes no memory.
    pub fn new(alloc: Global) -> Self
        ensures { result ≡ [] }
    {
        StringTable {
            entries: Entries::new(alloc),
            next: 0,
            is_next: false,
        }
    }

    /// How many strings there are.
    pub fn len(&self) -> usize
        ensures { result ≡ length self.now }
    {
        self.entries.count
    }

    /// Whether there are none.
    pub fn is_empty(&self) -> bool
        ensures { IsTrue result ↔ (self.now ≡ []) }
    {
        self.len() == 0
    }

    /// The content of `.debug_str.dwo`: each string and a zero byte.
    #[tactic(auto, using(crate::proofs::Hashed::hashed_table))]
    pub fn data(&self) -> &[u8]
        ensures whole { result.now ≡ data_of self.now }
        ensures table { IsTable self.now }
    {
        self.entries.bytes.as_slice()
    }

    /// The offset of a string, where the table has it, and how many strings were compared.
    #[tactic(auto, using(crate::proofs::Hashed::positions_few))]
    pub fn find_counted(&self, string: &[u8]) -> (Option<usize>, u32)
        ensures found { IsSome result.0 ↔ Contains self.now string.now }
        ensures offset { IfSome result.0 (λ offset. offset ≡ offset_of self.now string.now) }
        ensures count { IsWithinDigits result.1 (length self.now) }
    {
        if self.entries.count == 0 {
            return (None, 0);
        }
        if memchr(0, string).is_some() {
            return (None, 0);
        }
        let place = match self.entries.places.seek(hash(string)) {
            Ok(place) => place,
            Err(_) if self.entries.places.is_full => SHARED,
            Err(_) => return (None, 0),
        };
        if place == SHARED {
            let found = search(self.entries.bytes.as_slice(), &self.entries.ordered, string);
            return match found.place {
                Ok(place) => (Some(place), found.compared),
                Err(_) => (None, found.compared),
            };
        }
        if stands_at(self.entries.bytes.as_slice(), place, string) {
            (Some(place), 1)
        } else {
            (None, 1)
        }
    }

    /// The offset of a string, which goes last where it is new. Errors: want of memory, and then
    /// nothing changed.
    #[inline(always)]
    pub fn place(&mut self, string: &[u8]) -> Result<usize, AllocError>
        requires { IsZeroFree string.now }
        ensures placed { IfOk result (λ offset. IsPlaced self.old self.new string.now offset) }
        ensures kept { take (length self.old) self.new ≡ self.old }
        ensures err { OnErr result (self.new ≡ self.old) }
    {
        let next = self.next as usize;
        if stands_at(self.entries.bytes.as_slice(), next, string) {
            self.next = behind(next, string.len());
            return Ok(next);
        }
        let hash = hash(string);
        match self.entries.places.seek(hash) {
            Ok(place) if place == SHARED => {}
            Ok(place) => {
                if stands_at(self.entries.bytes.as_slice(), place, string) {
                    self.next = behind(place, string.len());
                    return Ok(place);
                }
                if let Some(place) = self.entries.add_over(string, hash, place)? {
                    return Ok(place);
                }
                self.entries.share(hash, place)?;
            }
            Err(_) if self.entries.places.is_full => {}
            Err(next) => {
                if let Some(place) = self.entries.add(string, hash, next)? {
                    return Ok(place);
                }
            }
        }
        let place = self.entries.place_ordered(string, hash)?;
        self.next = behind(place, string.len());
        Ok(place)
    }

    /// The offset of the string that some bytes begin with, of which one is zero, which is guessed
    /// to be its end. A new string goes last. None where it is new and its end isn't the guessed
    /// one, where its hash doesn't tell its place or four bytes don't hold it, and for want of
    /// memory; nothing changed then.
    #[inline(always)]
    pub fn place_guessed(&mut self, bytes: &[u8], end: usize) -> Option<usize>
        requires within { end < length bytes.now }
        requires long { 32 ≤ length bytes.now }
        requires ended { slice_index bytes.now end ≡ 0 }
        ensures placed { IfSome result (IsPlaced self.old self.new (string_from bytes.now 0)) }
        ensures fits { IfSome result (λ offset. offset < 2 ^ 32) }
        ensures kept { take (length self.old) self.new ≡ self.old }
        ensures none { IsNone result → self.new ≡ self.old }
    {
        if self.is_next {
            let next = self.next as usize;
            if begins_alike(self.entries.bytes.as_slice(), next, bytes, end) {
                self.next = behind(next, end);
                return Some(next);
            }
        }
        let hash = hash_here(&bytes[..end]);
        let next = match self.entries.places.seek(hash) {
            Ok(place) => {
                if begins_alike(self.entries.bytes.as_slice(), place, bytes, end) {
                    self.is_next = place == self.next as usize;
                    self.next = behind(place, end);
                    return Some(place);
                }
                return None;
            }
            Err(next) => next,
        };
        self.entries.add_guessed(bytes, end, hash, next)
    }

    /// How much the table holds now: hand it to `truncate` to come back to this.
    pub fn mark(&self) -> TableMark
        ensures { result ≡ mark_of self.now }
    {
        TableMark {
            strings: self.entries.count,
            bytes: self.entries.bytes.len(),
        }
    }

    /// Forgets every string that came after a mark. The place of its hash stays, until a string of
    /// that hash comes.
    pub fn truncate(&mut self, mark: TableMark)
        requires { mark ≡ mark_of (take mark.strings self.old) }
        ensures { self.new ≡ take mark.strings self.old }
    {
        self.entries.bytes.truncate(mark.bytes);
        self.entries.count = mark.strings;
        self.entries.ordered.keep_below(mark.bytes as u64);
    }

    /// The content of `.debug_str.dwo`.
    #[tactic(auto, using(crate::proofs::Hashed::hashed_table))]
    pub fn finish(self) -> Vec<u8>
        ensures whole { result.items ≡ data_of self }
        ensures table { IsTable self }
    {
        let StringTable { entries, .. } = self;
        let Entries { bytes, .. } = entries;
        bytes.finish()
    }
}
