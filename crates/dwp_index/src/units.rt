//! The units that the indexes of a package name, one after the other.

ghost use Rattle.std.specs.Prelude.{◌≡◌, ◌∷◌, [], MatchOption};
ghost use Rattle.dwp_index.specs.Used.{used_in};

use crate::unit_index::UnitIndex;
use dwp_table::{DebugTypeSignature, DwarfObject, DwoId};

/// A unit that an index names: its identifier, and its row counted from 1.
#[derive(Clone, Copy, Debug, PartialEq, Eq, Hash)]
pub struct UnitEntry {
    /// Which unit it is.
    pub object: DwarfObject,
    /// Its row.
    pub row: u32,
}

/// The units that the slots of a package's indexes name, in order, compilation units first.
#[derive(Drop)]
pub struct Units<'a> {
    compilations: Option<&'a UnitIndex<'a>>,
    types: Option<&'a UnitIndex<'a>>,
    compilation: u32,
    type_unit: u32,
}

impl<'a> Units<'a> {
    ghost use Rattle.std.specs.Option.{option_copied};
    ghost use Rattle.dwp_index.specs.Entries.{units_left, entries_from};

    /// The units that these indexes name: the one of compilation units and the one of type units.
    pub fn new(
        compilations: Option<&'a UnitIndex<'a>>,
        types: Option<&'a UnitIndex<'a>>,
    ) -> Units<'a>
        ensures { units_left result
            ≡ entries_from (option_copied compilations.entry) (option_copied types.entry) 0 0 }
    {
        Units {
            compilations,
            types,
            compilation: 0,
            type_unit: 0,
        }
    }
}

impl Iterator for Units<'_> {
    ghost use Rattle.std.specs.Iterator.{YieldsFirst, item_count};
    ghost use Rattle.dwp_index.specs.Entries.{units_left};

    type Item = UnitEntry;

    ghost next_gives = { YieldsFirst units_left };

    ghost remaining = { item_count units_left };

    fn next(&mut self) -> Option<UnitEntry> {
        if let Some(index) = self.compilations {
            if let Some((signature, row, next)) = used_slot(index, self.compilation) {
                self.compilation = next;
                return Some(UnitEntry {
                    object: DwarfObject::Compilation(DwoId(signature)),
                    row,
                });
            }
            self.compilations = None;
        }
        if let Some(index) = self.types {
            if let Some((signature, row, next)) = used_slot(index, self.type_unit) {
                self.type_unit = next;
                return Some(UnitEntry {
                    object: DwarfObject::TypeUnit(DebugTypeSignature(signature)),
                    row,
                });
            }
            self.types = None;
        }
        None
    }
}

/// The identifier and the row of the first used slot from a place on, and the place after it.
#[tactic(auto, using(crate::proofs::Indexes::used_slots))]
fn used_slot(index: &UnitIndex<'_>, start: u32) -> Option<(u64, u32, u32)>
    ensures { MatchOption result (used_in index.now start ≡ []) (λ s.
        used_in index.now start ≡ (s.0, s.1) ∷ used_in index.now s.2) }
{
    for slot in start..index.slot_count() {
        let (signature, row) = index.slot(slot);
        if row != 0 {
            return Some((signature, row, slot + 1));
        }
    }
    None
}
