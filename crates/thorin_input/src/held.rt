//! What a package has, each unit found by its name with its bytes, and what an input adds to it.

ghost use Rattle.std.specs.Prelude.{◌≡◌, ◌<◌, All, length, map, option_map};
ghost use Rattle.std.specs.Map.{lookup};
ghost use Rattle.thorin_input.specs.Held as spec;
ghost use Rattle.thorin_input.specs.Names.{same_name};

use dwp_dwarf::UnitSection;
use dwp_elf::WritableObject;
use dwp_index::{kind_of, part_of, place_of};
use dwp_table::{DebugTypeSignature, DwarfObject};
use indexmap::{IndexMap, IndexSet};
use thorin_index::{IndexEntry, IndexRows};

/// What a package has: its sections, and the name and row of each unit, in one order. A row whose
/// range lies outside its section has no bytes.
#[derive(Clone, Copy)]
pub struct Held<'p> {
    /// The sections so far.
    pub object: &'p WritableObject,
    /// The names of the units.
    pub names: &'p IndexSet<DwarfObject>,
    /// Their rows.
    pub rows: &'p IndexRows,
    ghost named: { names.now.keys ≡ map (λ row. row.id) rows.now },
}

impl<'p> Held<'p> {
    /// The bytes of the unit of a name; none where the package has no such unit.
    pub fn bytes_of(&self, name: DwarfObject) -> Option<&'p [u8]>
        ensures { option_map (λ bytes. bytes.now) result ≡ lookup
            (same_name name) (spec.held_units self.now.object.now.contents self.now.rows.now) }
    {
        let Some(position) = self.names.get_index_of(&name) else {
            return None;
        };
        let row = self.rows.entry(position);
        let kind = kind_of(place_of(row.id, row.debug_types));
        Some(part_of(self.object.content(kind), row.contribution(kind)))
    }
}

/// A unit that is added: whether it goes to info or to types, its bytes, and the number of its row
/// without the range of these bytes.
#[derive(Clone, Copy)]
pub struct NewUnit<'a> {
    /// Whether it goes to info or to types.
    pub place: UnitSection,
    /// Its bytes.
    pub bytes: &'a [u8],
    /// The number of its row among those of what is added.
    pub row_number: usize,
}

/// What an input adds to the package: its units that aren't contained yet, in file order.
#[derive(Drop)]
pub struct NewUnits<'a> {
    /// The units by their names.
    pub units: IndexMap<DwarfObject, NewUnit<'a>>,
    /// The rows of these units, but for their names: neighbouring units share one, where they can.
    pub rows: Vec<IndexEntry>,
    /// The signatures of type units that were passed over and differ from those that are kept.
    pub differing: Vec<DebugTypeSignature>,
    /// Whether each unit of the input, one that was passed over too, has the input's encoding.
    pub alike: bool,
    ghost numbered: { All (λ e. e.1.row_number < length rows.items) units.entries },
}
