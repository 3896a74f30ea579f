//! Tables of abbreviations that overlap (DWARF 5, 7.5.3).

ghost use Rattle.std.specs.Prelude.{IfSome, Ok, [], ◌≡◌};
ghost use Rattle.dwp_dwarf.specs.Chains.{FirstAt, RemembersChains, RemembersPlace, RemembersPlaces};
ghost use Rattle.std.specs.{BTreeMap.get, Ordering.nat_cmp};
ghost use Rattle.dwp_base.specs.Reading.{Answers};
ghost use Rattle.dwp_bytes.specs.Input.{Input};
ghost use Rattle.dwp_dwarf.specs.{Abbreviations.declaration, Declarations.found_of, Versions.Grows};
ghost use Rattle.dwp_dwarf.specs.{Chains.EndsBefore, Chains.from_end, Offsets.from_at};

use crate::abbrev::{
    Abbreviation, SPECIFICATION_SIZE, from_offset, known_declaration, next_declaration,
};
use crate::needed::NeededLists;
use crate::versions::{Versions, put};
use dwp_bytes::{ReadError, Reader};
use std::alloc::Global;
use std::collections::BTreeMap;

/// What tables say that go on at a place of a section.
#[derive(Clone, Copy)]
pub(crate) struct Place {
    // The version that has, by its code, the place of the first declaration from there on.
    pub(crate) version: u32,
    // The error at their end.
    pub(crate) error: Option<ReadError>,
    // How many bytes of the section are left behind the declaration there; 0 where there is none.
    pub(crate) behind: u32,
}

/// Once the versions have so many nodes for each byte of the section, none are added. A declaration
/// has 4 bytes and its code's, which has seven bits in a byte, and takes a node for each bit of the
/// code and one more.
const NODES_FOR_A_BYTE: usize = 5;

/// What tables say that go on at places of a section: where they meet they go on alike, so each
/// declaration is read for all of them.
#[derive(Drop)]
pub(crate) struct Chains {
    alloc: Global,
    // By how many bytes of the section are left there.
    pub(crate) places: BTreeMap<u64, Place>,
    // By codes.
    pub(crate) firsts: Versions,
    // Of the declarations at some places the attributes that are needed.
    pub(crate) lists: NeededLists,
}

impl Chains {
    /// Nothing is remembered, and no memory is taken.
    pub(crate) fn new(alloc: Global) -> Chains
        ensures places { result.places.entries ≡ [] }
        ensures lists { result.lists.by_key.entries ≡ [] }
    {
        Chains {
            alloc,
            places: BTreeMap::new(alloc),
            firsts: Versions::new(alloc),
            lists: NeededLists::new(alloc),
        }
    }

    /// What the table at an offset of the section says of a code. None where there is no memory, or
    /// as much was taken as may be.
    pub(crate) fn get<R: Reader>(
        &mut self,
        section: R,
        offset: u64,
        code: u64,
    ) -> Option<Result<Option<Abbreviation<R>>, ReadError>>
        ensures said { IfSome result (λ said. RemembersChains (R.input section) self.old
            → (table : Input) → from_at offset (R.input section) ≡ Ok table
            → Answers (found_of R.input) said (declaration code table)) }
        ensures kept { RemembersChains (R.input section) self.old
            → RemembersChains (R.input section) self.new }
    {
        let left = self.learn_table(section, offset)?;
        let place = self.place_of(left)?;
        match self.firsts.get(place.version, code) {
            Some(first) => {
                let at = from_end(section, u64::from(first))?;
                Some(Ok(Some(known_declaration(at).ok()?)))
            }
            None => match place.error {
                Some(error) => Some(Err(error)),
                None => Some(Ok(None)),
            },
        }
    }

    /// How many bytes of the section are left behind the declaration of a code that the table at an
    /// offset of it has. None where that isn't remembered, and where the table doesn't have the
    /// code.
    #[tactic(auto, using(crate::proofs::Places::end_is))]
    pub(crate) fn left_behind<R: Reader>(
        &mut self,
        section: R,
        offset: u64,
        code: u64,
    ) -> Option<u64>
        ensures ends { IfSome result (λ left. RemembersChains (R.input section) self.old
            → (table : Input) → from_at offset (R.input section) ≡ Ok table
            → EndsBefore table code left) }
        ensures kept { RemembersChains (R.input section) self.old
            → RemembersChains (R.input section) self.new }
    {
        let left = self.learn_table(section, offset)?;
        let place = self.place_of(left)?;
        let first = self.firsts.get(place.version, code)?;
        let declared = self.place_of(u64::from(first))?;
        Some(u64::from(declared.behind))
    }

    /// Remembers the table at an offset of the section, and says how many bytes are left there.
    /// None where there is none, or as much was taken as may be.
    fn learn_table<R: Reader>(&mut self, section: R, offset: u64) -> Option<u64>
        ensures left { IfSome result (λ left. (table : Input) → from_at offset (R.input section)
            ≡ Ok table → from_end left (R.input section) ≡ Ok table) }
        ensures places { RemembersPlaces (R.input section) self.old
            → RemembersPlaces (R.input section) self.new }
        ensures lists { self.new.lists ≡ self.old.lists }
    {
        let left = (section.len() as u64).checked_sub(offset)?;
        if self.is_full(section) && !self.places.contains_key(&left) {
            return None;
        }
        let mut lefts = self.lefts(section, left);
        while let Some(next) = lefts.pop() {
            self.learn(section, next)?;
        }
        Some(left)
    }

    /// The place of the declaration of a code that the table at an offset of the section has, where
    /// its attributes are listed or may be. None where the table isn't remembered.
    #[tactic(auto, using(crate::proofs::Places::first_is))]
    pub(crate) fn first_of<R: Reader>(&self, section: R, offset: u64, code: u64) -> Option<u64>
        ensures { IfSome result (λ first. RemembersChains (R.input section) self.now
            → FirstAt (R.input section) offset code first) }
    {
        let left = (section.len() as u64).checked_sub(offset)?;
        let place = self.place_of(left)?;
        let first = u64::from(self.firsts.get(place.version, code)?);
        let lists = &self.lists.by_key;
        let listed = self.lists.listed.saturating_add(lists.len());
        if listed >= section.len() / SPECIFICATION_SIZE && !lists.contains_key(&first) {
            return None;
        }
        Some(first)
    }

    /// Whether no more nodes may be added. Tables that begin inside declarations of others may take
    /// more.
    fn is_full<R: Reader>(&self, section: R) -> bool {
        self.firsts.nodes.len() >= section.len().saturating_mul(NODES_FOR_A_BYTE)
    }

    /// What is remembered of a place.
    fn place_of(&self, left: u64) -> Option<Place>
        ensures { result ≡ get nat_cmp self.now.places left }
    {
        self.places.get(&left).copied()
    }

    /// How many bytes are left at the places of the table that begins where so many are, up to one
    /// that is remembered.
    fn lefts<R: Reader>(&self, section: R, left: u64) -> Vec<u64> {
        let mut lefts = Vec::new(self.alloc);
        let Some(mut at) = from_end(section, left) else {
            return lefts;
        };
        while !self.places.contains_key(&(at.len() as u64)) && lefts.push(at.len() as u64).is_ok() {
            match next_declaration(at) {
                Ok(Some((_, _, behind))) => at = behind,
                _ => return lefts,
            }
        }
        lefts
    }

    /// Remembers a place, where so many bytes are left. None where there is no memory, or as much
    /// was taken as may be: then it isn't remembered.
    fn learn<R: Reader>(&mut self, section: R, left: u64) -> Option<()>
        ensures places { RemembersPlaces (R.input section) self.old
            → RemembersPlaces (R.input section) self.new }
        ensures lists { self.new.lists ≡ self.old.lists }
    {
        if self.is_full(section) {
            return None;
        }
        let at = from_end(section, left)?;
        let place = self.place_at(at, left)?;
        put(&mut self.places, left, place).then_some(())
    }

    /// What is to be remembered of a place, where so many bytes are left. None where there is no
    /// memory, or the next place isn't remembered.
    fn place_at<R: Reader>(&mut self, at: R, left: u64) -> Option<Place>
        ensures grows { Grows self.old.firsts.nodes.items self.new.firsts.nodes.items }
        ensures places { self.new.places ≡ self.old.places }
        ensures lists { self.new.lists ≡ self.old.lists }
        ensures place { IfSome result (λ place. (section : Input)
            → RemembersPlaces section self.old → from_end left section ≡ Ok (R.input at)
            → RemembersPlace section self.new.firsts.nodes.items left place) }
    {
        match next_declaration(at) {
            Ok(Some((code, _, behind))) => {
                let rest = behind.len() as u64;
                let next = self.place_of(rest)?;
                let first = in_32_bits(left)?;
                let behind = in_32_bits(rest)?;
                let version = self.firsts.insert(next.version, code, first)?;
                Some(Place {
                    version,
                    error: next.error,
                    behind,
                })
            }
            Ok(None) => Some(Place {
                version: 0,
                error: None,
                behind: 0,
            }),
            Err(error) => Some(Place {
                version: 0,
                error: Some(error),
                behind: 0,
            }),
        }
    }
}

/// A number in 32 bits, where these are enough for it.
fn in_32_bits(number: u64) -> Option<u32>
    ensures { IfSome result (λ same. same ≡ number) }
{
    u32::try_from(number).ok()
}

/// What stands where so many bytes of a section are left.
fn from_end<R: Reader>(section: R, left: u64) -> Option<R>
    ensures { IfSome result (λ at. from_end left (R.input section) ≡ Ok (R.input at)) }
{
    let start = (section.len() as u64).saturating_sub(left);
    from_offset(section, start).ok()
}
