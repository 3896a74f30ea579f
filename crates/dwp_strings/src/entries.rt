//! Strings behind one another, each of which is found by its hash, or else by its order.

ghost use Rattle.std.specs.Prelude.{◌≡◌, ◌≢◌, ◌<◌, ◌≤◌, ◌^◌, [], length, take, OnOk, OnErr, IfOk};
ghost use Rattle.std.specs.Prelude.{IfSome, IsNone, Contains, slice_index, None, Some, false};
ghost use Rattle.dwp_bytes.specs.StringOffsets.{string_from};
ghost use Rattle.dwp_strings.specs.Strings.{IsZeroFree, BeginsAt, IsPlaced};
ghost use Rattle.dwp_strings.specs.Hashed.{held, IsHashed};
ghost use Rattle.dwp_strings.specs.Places.{hash as hash_of, place_in, shared, IsNextIn, IsOrdered};

use crate::buffer::Buffer;
use crate::places::{HashedPlaces, behind};
use crate::positions::Positions;
use crate::search::{begins_at, search};
use dwp_bytes::string_at;
use std::alloc::{AllocError, Global};

/// Distinct strings, in order of first use.
///
/// The hash of a string has the string's place. Strings of one hash share a place at which none of
/// them is, and where the places are full no new hash gets one: such strings are kept by their
/// order too.
#[derive(Drop)]
pub(crate) struct Entries {
    /// Each string and a zero byte.
    pub bytes: Buffer,
    pub count: usize,
    pub places: HashedPlaces,
    /// Where those begin that are found by their order, in that order.
    pub ordered: Positions,
}

#[tactic(auto, using(crate::proofs::Hashed::entries_few))]
impl Entries {
    /// No strings, which take no memory.
    pub fn new(alloc: Global) -> Self
        ensures table { IsHashed result }
        ensures none { result.bytes ≡ [] }
    {
        Entries {
            bytes: Buffer::new(alloc),
            count: 0,
            places: HashedPlaces::new(alloc),
            ordered: Positions::new(alloc),
        }
    }

    /// Puts a new string behind all others, and gives its place, where its hash gets it.
    #[inline(never)]
    pub fn add(
        &mut self,
        string: &[u8],
        hash: u32,
        next: usize,
    ) -> Result<Option<usize>, AllocError>
        requires table { IsHashed self.old }
        requires open { self.old.places.is_full ≡ false }
        requires zero_free { IsZeroFree string.now }
        requires hashed { hash ≡ hash_of string.now }
        requires none { place_in self.old.places hash ≡ None }
        requires next { IsNextIn self.old.places hash next }
        ensures table { IsHashed self.new }
        ensures placed { IfOk result (λ some. IfSome some (IsPlaced (held self.old) (held self.new)
            string.now)) }
        ensures full { IfOk result (λ some. IsNone some → (held self.new ≡ held self.old)
            × IsOrdered self.new.places hash) }
        ensures kept { take (length (held self.old)) (held self.new) ≡ held self.old }
        ensures err { OnErr result (held self.new ≡ held self.old) }
    {
        let place = self.bytes.len();
        self.bytes.append(string)?;
        if !self.places.enter(hash, next, place) {
            self.bytes.truncate(place);
            return Ok(None);
        }
        self.count += 1;
        Ok(Some(place))
    }

    /// Adds a string whose hash has a place already at which no string begins: strings that were
    /// there were forgotten. None else, and where four bytes don't hold the new place; it has the
    /// old one then.
    pub fn add_over(
        &mut self,
        string: &[u8],
        hash: u32,
        place: usize,
    ) -> Result<Option<usize>, AllocError>
        requires table { IsHashed self.old }
        requires zero_free { IsZeroFree string.now }
        requires hashed { hash ≡ hash_of string.now }
        requires has { place_in self.old.places hash ≡ Some place }
        requires own { place ≢ shared }
        ensures table { IsHashed self.new }
        ensures placed { IfOk result (λ some. IfSome some (IsPlaced (held self.old) (held self.new)
            string.now)) }
        ensures none { IfOk result (λ some. IsNone some → (held self.new ≡ held self.old)
            × (place_in self.new.places hash ≡ Some place)) }
        ensures kept { take (length (held self.old)) (held self.new) ≡ held self.old }
        ensures err { OnErr result (held self.new ≡ held self.old) }
    {
        if begins_at(self.bytes.as_slice(), place) {
            return Ok(None);
        }
        let last = self.bytes.len();
        let Some(behind) = behind(last) else {
            return Ok(None);
        };
        self.bytes.append(string)?;
        self.places.give(hash, behind);
        self.count += 1;
        Ok(Some(last))
    }

    /// Adds the string that some bytes begin with, of which one is zero, which is guessed to be its
    /// end. None where it isn't, where its hash gets no place, and for want of memory.
    #[inline(always)]
    pub fn add_guessed(&mut self, rest: &[u8], end: usize, hash: u32, next: usize) -> Option<usize>
        requires table { IsHashed self.old }
        requires within { end < length rest.now }
        requires long { 32 ≤ length rest.now }
        requires ended { slice_index rest.now end ≡ 0 }
        requires hashed { hash ≡ hash_of (take end rest.now) }
        requires none { place_in self.old.places hash ≡ None }
        requires next { IsNextIn self.old.places hash next }
        ensures table { IsHashed self.new }
        ensures placed { IfSome result (IsPlaced (held self.old) (held self.new)
            (string_from rest.now 0)) }
        ensures fits { IfSome result (λ place. place < 2 ^ 32) }
        ensures kept { take (length (held self.old)) (held self.new) ≡ held self.old }
        ensures none { IsNone result → held self.new ≡ held self.old }
    {
        if self.places.is_full {
            return None;
        }
        let place = self.bytes.len();
        if !self.bytes.append_guessed(rest, end) {
            return None;
        }
        if !self.places.enter(hash, next, place) {
            self.bytes.truncate(place);
            return None;
        }
        self.count += 1;
        Some(place)
    }

    /// Keeps the string that begins at a place by its order too.
    fn keep_ordered(&mut self, place: usize) -> Result<(), AllocError>
        requires table { IsHashed self.old }
        ensures table { IsHashed self.new }
        ensures bytes { self.new.bytes ≡ self.old.bytes }
        ensures places { self.new.places ≡ self.old.places }
        ensures count { self.new.count ≡ self.old.count }
        ensures there { OnOk result (BeginsAt self.new.bytes place
            → Contains self.new.ordered place) }
    {
        let bytes = self.bytes.as_slice();
        if !begins_at(bytes, place) {
            return Ok(());
        }
        let Ok(string) = string_at(bytes, place as u64) else {
            return Err(AllocError);
        };
        match search(bytes, &self.ordered, string).place {
            Ok(_) => Ok(()),
            Err(rank) => self.ordered.insert(rank, place as u64),
        }
    }

    /// Lets strings share a hash that has a place: the one that begins there is kept by its order.
    pub fn share(&mut self, hash: u32, place: usize) -> Result<(), AllocError>
        requires table { IsHashed self.old }
        requires has { place_in self.old.places hash ≡ Some place }
        ensures table { IsHashed self.new }
        ensures same { held self.new ≡ held self.old }
        ensures shared { OnOk result (IsOrdered self.new.places hash) }
    {
        self.keep_ordered(place)?;
        self.places.give(hash, u32::MAX);
        Ok(())
    }

    /// The place of a string that isn't found by its hash; a new one goes behind all others.
    pub fn place_ordered(&mut self, string: &[u8], hash: u32) -> Result<usize, AllocError>
        requires table { IsHashed self.old }
        requires zero_free { IsZeroFree string.now }
        requires hashed { hash ≡ hash_of string.now }
        requires ordered { IsOrdered self.old.places hash }
        ensures table { IsHashed self.new }
        ensures placed { IfOk result (IsPlaced (held self.old) (held self.new) string.now) }
        ensures kept { take (length (held self.old)) (held self.new) ≡ held self.old }
        ensures err { OnErr result (held self.new ≡ held self.old) }
    {
        let rank = match search(self.bytes.as_slice(), &self.ordered, string).place {
            Ok(place) => return Ok(place),
            Err(rank) => rank,
        };
        let place = self.bytes.len();
        self.bytes.append(string)?;
        if self.ordered.insert(rank, place as u64).is_err() {
            self.bytes.truncate(place);
            return Err(AllocError);
        }
        self.count += 1;
        Ok(place)
    }
}
