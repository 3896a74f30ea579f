//! A package while it is made: adding a source's units, taking them back, and finishing with
//! strings and indexes.

ghost use Rattle.thorin_join.specs.State as spec;
ghost use Rattle.std.specs.Prelude.{IfErr, IfOk, List, map, OnOk, Some, take, ℕ, ◌<◌, ◌^◌, ◌≡◌};
ghost use Rattle.std.specs.Prelude.{OnErr, true};
ghost use Rattle.dwp_table.specs.Objects.{identifier_of};
ghost use Rattle.thorin_errors.specs.Answers.{Gives};
ghost use Rattle.thorin_index.specs.{EntryTests.index_tests, IndexText.IsIndexOf};
ghost use Rattle.dwp_strings.specs.Marks.{mark_of};
ghost use Rattle.dwp_elf_read.specs.View.{elf};
ghost use Rattle.thorin_join.specs.Builder.{begun_by, IdentifiersFit, indexes_test, IsFinished};
ghost use Rattle.thorin_input.specs.{Encodings.are_alike, Names.is_compilation, NewUnits.new_units};
ghost use Rattle.thorin_again.specs.Own.{has_sections};
ghost use Rattle.thorin_builder.specs.RowsByIndex.{is_of_compilations, rows_in};
ghost use Rattle.thorin_builder.specs.StateView.{amount_in, in_progress_of};
ghost use Rattle.thorin_input.specs.UnitView.{new_of};
ghost use Rattle.thorin_input.specs.View as view;

use crate::in_progress::InProgressDwarfPackage;
use dwp_base::{Endianness, SectionKind};
use dwp_dwarf::UnitSection;
use dwp_elf::WritableObject;
use dwp_elf_read::ElfFile;
use dwp_index::kind_of;
use dwp_table::{DebugTypeSignature, DwarfObject};
use indexmap::IndexSet;
use std::alloc::Global;
use thorin_errors::Error;
use thorin_index::{IndexEntry, IndexRows, write_rows};
use thorin_input::{Adding, Held, NewUnits, Part, Source, Whole, parts_of, put_parts};
use thorin_strings::{PackageStringTable, TableMark};

/// How much of a package there was, to go back to.
#[derive(Drop)]
pub(crate) struct Mark {
    /// The length of each section, in their order.
    lengths: Vec<usize>,
    strings: TableMark,
    rows: usize,
    differing: usize,
}

impl InProgressDwarfPackage {
    /// A package with nothing in it, of the class, machine and byte order of its first input.
    pub(crate) fn begun_by(alloc: Global, file: &ElfFile<'_>) -> InProgressDwarfPackage
        ensures { in_progress_of result ≡ begun_by (elf file.now) }
    {
        let (class, machine, order) = (file.class(), file.machine(), file.endianness());
        InProgressDwarfPackage {
            alloc,
            object: WritableObject::new(alloc, class, machine, order),
            strings: PackageStringTable::new(alloc),
            names: IndexSet::new(alloc),
            rows: IndexRows::new(alloc),
            differing: Vec::new(alloc),
        }
    }

    /// Whether there are abbreviations and, where there are string offsets, strings.
    pub(crate) fn has_sections(&self) -> bool
        ensures { result ≡ has_sections (Some (in_progress_of self.now)) }
    {
        let has_offsets = !self.object.content(SectionKind::StrOffsets).is_empty();
        !self.object.content(SectionKind::Abbrev).is_empty()
            && (!has_offsets || self.strings.len() > 0)
    }

    /// The units that an input of these parts adds, or the first error of the parts' places and of
    /// the units. The package stays as it is.
    pub(crate) fn new_units<'a>(
        &self,
        source: &Source<'a>,
        parts: &[Part<'_>],
    ) -> Result<NewUnits<'a>, Error>
        ensures meaning { Gives new_of result (new_units (spec.adding (view.source source.now)
            (in_progress_of self.now) (map view.part parts.now))) }
        ensures alike { IfOk result (λ new. new.alike ≡ are_alike (view.source source.now)) }
    {
        let whole = Whole::of(source.encoding, &self.object, parts)?;
        let held = Held {
            object: &self.object,
            names: &self.names,
            rows: &self.rows,
        };
        let adding = Adding {
            source,
            whole,
            held,
        };
        NewUnits::read(self.alloc, &adding)
    }

    /// Adds the units of an input with all that belongs to them. Gives whether each of its units,
    /// one that was passed over too, has the input's encoding. An `Err` leaves the package as it
    /// was.
    pub(crate) fn add(&mut self, source: &Source<'_>) -> Result<bool, Error>
        ensures alike { IfOk result (λ alike. alike ≡ are_alike (view.source source.now)) }
        ensures meaning { Gives (λ _. in_progress_of self.new) result
            (spec.with_source (view.source source.now) (in_progress_of self.old)) }
        ensures err { OnErr result (in_progress_of self.new ≡ in_progress_of self.old) }
        ensures extends { OnOk result
            (spec.Extends (in_progress_of self.old) (in_progress_of self.new)) }
    {
        let mark = self.mark()?;
        match self.try_add(source) {
            Ok(alike) => Ok(alike),
            Err(error) => {
                self.restore(&mark);
                Err(error)
            }
        }
    }

    /// Adds the units of an input, but an `Err` may leave more than there was.
    #[tactic(auto, unfolding(thorin_join::specs::State::with_source, thorin_join::specs::State::with_all, thorin_join::specs::State::abbreviations_test))]
    fn try_add(&mut self, source: &Source<'_>) -> Result<bool, Error>
        ensures alike { IfOk result (λ alike. alike ≡ are_alike (view.source source.now)) }
        ensures meaning { Gives (λ _. in_progress_of self.new) result
            (spec.with_source (view.source source.now) (in_progress_of self.old)) }
        ensures extends { spec.Extends (in_progress_of self.old) (in_progress_of self.new) }
    {
        let parts = parts_of(self.alloc, source, &mut self.strings)?;
        if !source.object.has_abbreviations {
            return Err(Error::MissingRequiredSection(SectionKind::Abbrev.name()));
        }
        let new = self.new_units(source, &parts)?;
        let alike = new.alike;
        let added = self.add_all(parts, &new);
        drop(new);
        match added {
            Ok(()) => Ok(alike),
            Err(error) => Err(error),
        }
    }

    /// Adds parts and units, over strings that are there. It refuses for memory alone, and may then
    /// leave more than there was.
    fn add_all(&mut self, parts: Vec<Part<'_>>, new: &NewUnits<'_>) -> Result<(), Error>
        ensures meaning { OnOk result (in_progress_of self.new
            ≡ spec.with_all (in_progress_of self.old)
            (map view.part parts.entry.items, (in_progress_of self.old).strings) (new_of new.now)) }
        ensures refused { IfErr result (λ e. e ≡ Error.Memory) }
        ensures extends { (before : spec.InProgress) → spec.Extends before (in_progress_of self.old)
            → spec.Extends before (in_progress_of self.new) }
    {
        put_parts(&mut self.object, parts)?;
        self.differing.extend_from_slice(&new.differing)?;
        self.append_units(new)
    }

    /// Adds units. It refuses for memory alone.
    #[tactic(auto, unfolding(thorin_join::specs::State::with_new_units))]
    fn append_units(&mut self, new: &NewUnits<'_>) -> Result<(), Error>
        ensures meaning { OnOk result (in_progress_of self.new
            ≡ spec.with_new_units (in_progress_of self.old) (new_of new.now).units) }
        ensures refused { IfErr result (λ e. e ≡ Error.Memory) }
        ensures extends { (before : spec.InProgress) → spec.Extends before (in_progress_of self.old)
            → spec.Extends before (in_progress_of self.new) }
    {
        for (name, unit) in new.units.iter() {
            let mut row = new.rows[unit.row_number];
            row.id = *name;
            self.append_unit(row, unit.place, unit.bytes)?;
        }
        Ok(())
    }

    /// Adds a unit, or nothing where its name is there already. It refuses for memory alone.
    #[tactic(auto, unfolding(thorin_join::specs::State::with_new_unit))]
    fn append_unit(
        &mut self,
        mut row: IndexEntry,
        place: UnitSection,
        bytes: &[u8],
    ) -> Result<(), Error>
        ensures meaning { OnOk result (in_progress_of self.new ≡ spec.with_new_unit (in_progress_of
            self.old) (row.id, record { place = place; bytes = bytes.now; row = row })) }
        ensures refused { IfErr result (λ e. e ≡ Error.Memory) }
        ensures extends { (before : spec.InProgress) → spec.Extends before (in_progress_of self.old)
            → spec.Extends before (in_progress_of self.new) }
    {
        if self.names.contains(&row.id) {
            return Ok(());
        }
        let range = self.object.append(kind_of(place), bytes)?;
        match place {
            UnitSection::Info => row.debug_info = range,
            UnitSection::Types => row.debug_types = range,
        }
        let count = self.rows.len();
        self.rows.push(&row)?;
        match self.names.insert(row.id) {
            Ok(_) => Ok(()),
            Err(_) => {
                self.rows.truncate(count);
                Err(Error::Memory)
            }
        }
    }

    /// How much of the package there is. It refuses for memory alone.
    pub(crate) fn mark(&self) -> Result<Mark, Error>
        ensures mark { IfOk result (λ mark.
            amount_in mark ≡ spec.amount_of (in_progress_of self.now)) }
        ensures strings { IfOk result (λ mark. mark.strings ≡ mark_of self.now.strings) }
        ensures refused { IfErr result (λ e. e ≡ Error.Memory) }
    {
        Ok(Mark {
            lengths: self.object.lengths()?,
            strings: self.strings.mark(),
            rows: self.rows.len(),
            differing: self.differing.len(),
        })
    }

    /// Takes back what was added since the mark.
    pub(crate) fn restore(&mut self, mark: &Mark)
        requires { mark.now.strings ≡ mark_of (take mark.now.strings.strings self.old.strings) }
        ensures { (before : spec.InProgress) → spec.Extends before (in_progress_of self.old)
            → amount_in mark.now ≡ spec.amount_of before → in_progress_of self.new ≡ before }
    {
        self.object.truncate(&mark.lengths);
        self.strings.truncate(mark.strings);
        self.rows.truncate(mark.rows);
        self.differing.truncate(mark.differing);
        self.names.truncate(mark.rows);
    }
}

/// One of a package's two indexes (DWARF 5, 7.3.5.3).
#[derive(Clone, Copy, PartialEq, Eq)]
enum Index {
    Compilations,
    TypeUnits,
}

/// The bytes of the given index. Refused where `write_rows` refuses the rows.
fn index_of(
    alloc: Global,
    order: Endianness,
    rows: &IndexRows,
    index: Index,
) -> Result<Vec<u8>, Error>
    ensures refusal { Gives (λ _. tt) result (index_tests (rows_in index rows.now)) }
    ensures written { IfOk result (λ bytes. IsIndexOf order (rows_in index rows.now) bytes.items) }
    ensures identifiers { OnOk result (IdentifiersFit rows.now) }
{
    // (mostly all units are of one kind: their rows aren't copied then)
    if are_all(rows, index) {
        return write_rows(alloc, order, rows);
    }
    let chosen = rows_in(alloc, rows, index)?;
    write_rows(alloc, order, &chosen)
}

/// The sections with the strings and both indexes, each where it isn't empty. Refused where
/// `write_rows` refuses rows.
#[tactic(auto, unfolding(thorin_join::specs::Builder::indexes_test))]
pub(crate) fn finished(
    alloc: Global,
    mut object: WritableObject,
    strings: PackageStringTable,
    rows: &IndexRows,
) -> Result<WritableObject, Error>
    ensures refusal { (differing : List ℕ) → Gives (λ _. tt) result (indexes_test
        (record { file = object; strings = strings; rows = rows.now; differing = differing })) }
    ensures finished { (differing : List ℕ) → IfOk result (IsFinished
        (record { file = object; strings = strings; rows = rows.now; differing = differing })) }
    ensures identifiers { OnOk result (IdentifiersFit rows.now) }
{
    let order = object.endianness();
    let compilations = index_of(alloc, order, rows, Index::Compilations)?;
    let types = index_of(alloc, order, rows, Index::TypeUnits)?;
    object.append_moved(SectionKind::Str, strings.finish())?;
    object.append_moved(SectionKind::CuIndex, compilations)?;
    object.append_moved(SectionKind::TuIndex, types)?;
    Ok(object)
}

/// The index in which a unit's row stands.
fn index_with(name: DwarfObject) -> Index
    ensures index { is_of_compilations result ≡ is_compilation name }
    ensures identifier { identifier_of name < 2 ^ 64 }
{
    match name {
        DwarfObject::Compilation(_) => Index::Compilations,
        DwarfObject::TypeUnit(_) => Index::TypeUnits,
    }
}

/// Whether all rows stand in the given index.
fn are_all(rows: &IndexRows, index: Index) -> bool
    ensures all { result ≡ true → rows_in index rows.now ≡ rows.now }
    ensures identifiers { result ≡ true → IdentifiersFit rows.now }
{
    for position in 0..rows.len() {
        if index_with(rows.unit(position)) != index {
            return false;
        }
    }
    true
}

fn rows_in(alloc: Global, rows: &IndexRows, index: Index) -> Result<IndexRows, Error>
    ensures rows { IfOk result (λ chosen. chosen ≡ rows_in index rows.now) }
    ensures identifiers { OnOk result (IdentifiersFit rows.now) }
    ensures refused { IfErr result (λ e. e ≡ Error.Memory) }
{
    let mut chosen = IndexRows::new(alloc);
    for position in 0..rows.len() {
        if index_with(rows.unit(position)) == index {
            chosen.push(&rows.entry(position))?;
        }
    }
    Ok(chosen)
}
