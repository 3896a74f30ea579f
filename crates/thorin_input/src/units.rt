//! The units that an input adds to a package, each with its row.

ghost use Rattle.std.specs.Prelude.{◌≡◌, ◌&&◌, option_map, IfOk, OnOk};
ghost use Rattle.dwp_units.specs.Units.{unit_of, unit_seen};
ghost use Rattle.thorin_errors.specs.Answers.{Gives};
ghost use Rattle.thorin_input.specs.Encodings.{has_encoding, section_has, are_alike};
ghost use Rattle.thorin_input.specs.NewUnits as spec;
ghost use Rattle.thorin_input.specs.UnitView.{ArePlacedIn, adding_of, held_in, met_of, new_of};
ghost use Rattle.thorin_input.specs.View.{tables_in};
ghost use Rattle.thorin_input.specs.View as view;

use crate::held::{Held, NewUnit, NewUnits};
use crate::object::UsedSection;
use crate::rows::{PlacedRows, Whole, abbreviations_for, test_row, unit_row};
use crate::source::Source;
use dwp_base::SectionKind;
use dwp_dwarf::{ReadError, Reader, SliceReader, UnitHeader, UnitHeaders, UnitSection};
use dwp_table::{Bucketable, DebugTypeSignature, DwarfObject};
use indexmap::IndexMap;
use std::alloc::Global;
use thorin_errors::Error;
use thorin_identity::RangeTables;
use thorin_index::share;
use thorin_package_input::RowPlaces;

/// What the units that an input adds depend on: the input, where the whole of each of its sections
/// comes to lie, and what the package has.
#[derive(Clone, Copy)]
pub struct Adding<'i, 'a, 'p> {
    /// The input.
    pub source: &'i Source<'a>,
    /// Where the whole of each of its sections comes to lie.
    pub whole: Whole,
    /// What the package has.
    pub held: Held<'p>,
}

/// Which sections of units came before, and what was read of abbreviations.
#[derive(Drop)]
struct SeenSections<'a> {
    info: bool,
    types: bool,
    tables: RangeTables<'a>,
}

/// Type units go where they stand, every other unit to info.
fn place_for(name: DwarfObject, kind: SectionKind) -> UnitSection
    ensures { result ≡ spec.place_for name kind }
{
    match (name, kind) {
        (DwarfObject::TypeUnit(_), SectionKind::Types) => UnitSection::Types,
        _ => UnitSection::Info,
    }
}

/// `MultipleDebugInfoSection` or `MultipleDebugTypesSection` where a package has a second section
/// of info or of types.
#[tactic(auto, unfolding(crate::specs::NewUnits::once_test))]
fn test_once(
    adding: &Adding<'_, '_, '_>,
    place: UnitSection,
    met: &SeenSections<'_>,
) -> Result<(), Error>
    ensures { Gives (λ _. tt) result
        (spec.once_test (adding_of adding.now) place (met_of met.now)) }
{
    if !adding.source.indexes.is_package() {
        return Ok(());
    }
    match place {
        UnitSection::Info if met.info => Err(Error::MultipleDebugInfoSection),
        UnitSection::Types if met.types => Err(Error::MultipleDebugTypesSection),
        _ => Ok(()),
    }
}

impl<'a> NewUnits<'a> {
    /// The units that an input adds to what is there, or its first error: of a package a second
    /// section of units (`MultipleDebugInfoSection`, `MultipleDebugTypesSection`); unit by unit
    /// `ParseUnitHeader`, of a package `UnitNotInIndex` and `BadContribution` of a compile unit's
    /// row, what `dwo_identifier_of_unit` answers, `NotSplitUnit`, `DuplicateUnit`, `EmptyUnit`,
    /// `UnitNotInIndex`, and what the adjustor of contributions answers.
    #[tactic(auto, unfolding(crate::specs::NewUnits::new_units, crate::specs::NewUnits::with_each_section))]
    pub fn read(alloc: Global, adding: &Adding<'_, 'a, '_>) -> Result<NewUnits<'a>, Error>
        ensures meaning { Gives new_of result (spec.new_units (adding_of adding.now)) }
        ensures alike { IfOk result (λ new.
            new.alike ≡ are_alike (view.source adding.now.source.now)) }
    {
        let mut new = NewUnits {
            units: IndexMap::new(alloc),
            rows: Vec::new(alloc),
            differing: Vec::new(alloc),
            alike: true,
        };
        let object = &adding.source.object;
        let mut met = SeenSections {
            info: false,
            types: false,
            tables: RangeTables::new(alloc, object.first(SectionKind::Abbrev), object.order),
        };
        for section in &object.sections {
            new.add_section(alloc, adding, &mut met, *section)?;
        }
        Ok(new)
    }

    /// Adds the units of a section, where units stand in it.
    #[tactic(auto, unfolding(crate::specs::NewUnits::with_section, crate::specs::NewUnits::with_section_at, crate::specs::NewUnits::with_each_read))]
    fn add_section(
        &mut self,
        alloc: Global,
        adding: &Adding<'_, 'a, '_>,
        met: &mut SeenSections<'a>,
        section: UsedSection<'a>,
    ) -> Result<(), Error>
        requires tables { met.old.tables ≡ tables_in (view.source adding.now.source.now).object }
        ensures meaning { Gives (λ _. (met_of met.new, new_of self.new)) result (spec.with_section
            (adding_of adding.now) (met_of met.old, new_of self.old) (view.used section.entry)) }
        ensures tables { met.new.tables ≡ met.old.tables }
        ensures alike { OnOk result (self.new.alike
            ≡ (self.old.alike && section_has adding.now.source.now.encoding
            adding.now.source.now.object.order (view.used section.entry))) }
    {
        let place = match section.kind {
            SectionKind::Info => UnitSection::Info,
            SectionKind::Types => UnitSection::Types,
            _ => return Ok(()),
        };
        test_once(adding, place, met)?;
        let indexes = &adding.source.indexes;
        let compilations = RowPlaces::new(alloc, indexes.compilations.as_ref(), section.kind)?;
        let types = RowPlaces::new(alloc, indexes.types.as_ref(), section.kind)?;
        let placed = PlacedRows {
            compilations,
            types,
        };
        let reader = SliceReader::new(section.bytes, adding.source.object.order);
        for read in UnitHeaders::new(reader, place) {
            self.add_read(adding, &placed, &mut met.tables, section, read)?;
        }
        match place {
            UnitSection::Info => met.info = true,
            UnitSection::Types => met.types = true,
        }
        Ok(())
    }

    /// Adds the unit that was read next.
    #[tactic(auto, unfolding(crate::specs::NewUnits::with_read, crate::specs::NewUnits::name_for))]
    fn add_read(
        &mut self,
        adding: &Adding<'_, 'a, '_>,
        placed: &PlacedRows<'_, '_>,
        tables: &mut RangeTables<'a>,
        section: UsedSection<'a>,
        read: Result<UnitHeader<SliceReader<'a>>, ReadError>,
    ) -> Result<(), Error>
        requires placed { ArePlacedIn (view.source adding.now.source.now) section.kind placed.now }
        requires tables { tables.old ≡ tables_in (view.source adding.now.source.now).object }
        ensures meaning { Gives (λ _. new_of self.new) result
            (spec.with_read (adding_of adding.now) (view.used section.entry) (new_of self.old)
            (unit_seen ⟦<SliceReader<'a> as Reader>⟧.input read.entry)) }
        ensures tables { tables.new ≡ tables.old }
        ensures alike { OnOk result (self.new.alike
            ≡ (self.old.alike && has_encoding adding.now.source.now.encoding
            (unit_seen ⟦<SliceReader<'a> as Reader>⟧.input read.entry))) }
    {
        let header = read.map_err(Error::ParseUnitHeader)?;
        let alike = self.alike & (header.encoding() == adding.source.encoding);
        let bytes = tables.bytes();
        let (start, end) = abbreviations_for(adding.source, bytes, placed, section.kind, &header)?;
        let name = tables
            .identifier(start, end, &header)?
            .ok_or(Error::NotSplitUnit)?;
        self.add_unit(adding, placed, section, name, &header)?;
        self.alike = alike;
        Ok(())
    }

    /// The bytes that are kept for a name: those of a unit that is added, else those that the
    /// package has.
    fn kept_bytes<'x>(&'x self, held: Held<'x>, name: DwarfObject) -> Option<&'x [u8]>
        ensures { option_map (λ bytes. bytes.now) result
            ≡ spec.kept_bytes (held_in held.entry) (new_of self.now).units name }
    {
        match self.units.get(&name) {
            Some(unit) => Some(unit.bytes),
            None => held.bytes_of(name),
        }
    }

    /// Adds the first unit of its name. Passes over a type unit that is kept already.
    #[tactic(auto, unfolding(crate::specs::NewUnits::with_unit, crate::specs::NewUnits::with_first))]
    fn add_unit(
        &mut self,
        adding: &Adding<'_, 'a, '_>,
        placed: &PlacedRows<'_, '_>,
        section: UsedSection<'a>,
        name: DwarfObject,
        header: &UnitHeader<SliceReader<'a>>,
    ) -> Result<(), Error>
        requires placed { ArePlacedIn (view.source adding.now.source.now) section.kind placed.now }
        ensures { Gives (λ _. new_of self.new) result (spec.with_unit
            (spec.kept_bytes (adding_of adding.now).held (new_of self.old).units name)
            (adding_of adding.now) (view.used section.entry) name
            (unit_of ⟦<SliceReader<'a> as Reader>⟧.input header.now) (new_of self.old)) }
    {
        let kept = self.kept_bytes(adding.held, name);
        match (kept, name) {
            (Some(_), DwarfObject::Compilation(id)) => return Err(Error::DuplicateUnit(id.0)),
            (Some(kept), DwarfObject::TypeUnit(signature)) => {
                if kept != header.bytes().slice() {
                    self.differing.push(signature)?;
                }
                return Ok(());
            }
            (None, _) => {}
        }
        if section.address != 0 {
            return Err(Error::EmptyUnit(name.index()));
        }
        let number = test_row(&adding.source.indexes, placed, section.kind, name, header)?;
        let mut row = unit_row(&adding.source.indexes, &adding.whole, name, number)?;
        row.id = DwarfObject::TypeUnit(DebugTypeSignature(0));
        let row_number = share(&mut self.rows, &row)?;
        let place = place_for(name, section.kind);
        let bytes = header.bytes().slice();
        self.units.insert(
            name,
            NewUnit {
                place,
                bytes,
                row_number,
            },
        )?;
        Ok(())
    }
}
