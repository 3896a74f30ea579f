//! The identifiers that units' own bytes give. What was read is remembered: the abbreviations from
//! unit to unit, and what units that share their bytes have.

ghost use Rattle.std.specs.Prelude.{drop, false, IfErr, IfOk, length, None, Some, take, true, ◌+◌};
ghost use Rattle.thorin_check.specs.Remembered.{bytes_at, Knows, numbers_of, place_in, said_of};
ghost use Rattle.{dwp_units.specs.Units.unit_of, thorin_identity.specs.Identity.identity};
ghost use Rattle.dwp_index.specs.{Contents.content, Index.range_in, Package.found};
ghost use Rattle.thorin_check.specs.{Faults.TellsOwn, Own.own_of, Texts.IsTextOf};
ghost use Rattle.dwp_base.specs.declared.section.Contribution.{Contribution};
ghost use Rattle.{dwp_bytes.specs.Input.section, std.specs.Result.result_ok};
ghost use Rattle.std.specs.Prelude.{Ok, ◌≡◌, ◌≢◌, ◌≤◌};
ghost use Rattle.thorin_errors.specs.Answers.{Gives};

use crate::faults::some;
use dwp_base::{Contribution, Endianness, SectionKind};
use dwp_dwarf::{Reader, SliceReader, UnitHeader, UnitSection, UnitType};
use dwp_index::{PackageFile, PackagedUnit, place_of};
use dwp_table::{Bucketable, DwarfObject};
use std::alloc::{AllocError, Global};
use std::collections::BTreeMap;
use std::marker::Model;
use thorin_errors::Error;
use thorin_find::{header_of, short_kind};
use thorin_identity::RangeTables;

/// The identifier that a unit's own bytes give, where it has one; or why it can't be read.
type OwnIdentifier = Result<Option<DwarfObject>, String>;

/// The places of a unit's own bytes and its abbreviations: what they say depends on nothing else.
#[derive(Clone, Copy, PartialEq)]
pub(crate) struct UnitPlace {
    /// Whether its own bytes are in types.
    is_in_types: bool,
    /// Where these begin, and their size.
    own: (u64, u64),
    /// Where its abbreviations begin, and their size.
    abbreviations: (u64, u64),
}

impl UnitPlace {
    /// That of a unit.
    fn of(unit: &PackagedUnit<'_>, object: DwarfObject) -> UnitPlace
        ensures { result ≡ place_in object unit.now }
    {
        let (is_in_types, kind) = match place_of(object, unit.range(SectionKind::Types)) {
            UnitSection::Info => (false, SectionKind::Info),
            UnitSection::Types => (true, SectionKind::Types),
        };
        UnitPlace {
            is_in_types,
            own: numbers_of(unit.range(kind)),
            abbreviations: numbers_of(unit.range(SectionKind::Abbrev)),
        }
    }

    /// The numbers of the unit's own bytes, by which it is found.
    fn key(self) -> [u64; 3] {
        [u64::from(self.is_in_types), self.own.0, self.own.1]
    }
}

/// What was read at a place, of the first unit there.
#[derive(Drop)]
pub(crate) struct PlaceRead {
    place: UnitPlace,
    own: OwnIdentifier,
}

/// What was read of the abbreviations of the units before. And what units say that share their
/// bytes: these are read once.
#[derive(Drop)]
pub(crate) struct Remembered<'a> {
    alloc: Global,
    tables: TablesByTurns<'a>,
    shared: BTreeMap<[u64; 3], PlaceRead>,
}

impl<'a> Remembered<'a> {
    /// Of a package. Nothing is read yet, and no memory is taken.
    pub(crate) fn new(alloc: Global, pack: &PackageFile<'a>) -> Remembered<'a>
        ensures { Knows pack.now result }
    {
        let order = pack.order();
        Remembered {
            alloc,
            tables: TablesByTurns {
                alloc,
                order,
                first: RangeTables::new(alloc, pack.content(SectionKind::Abbrev), order),
                again: Vec::new(alloc),
                places: BTreeMap::new(alloc),
                last: [0, 0],
                place: None,
            },
            shared: BTreeMap::new(alloc),
        }
    }

    /// What is told of a unit by the identifier that its own bytes give. Where another unit has the
    /// same ones that is read once.
    pub(crate) fn text_of(
        &mut self,
        pack: &PackageFile<'a>,
        object: DwarfObject,
        unit: &PackagedUnit<'a>,
        has_twin: bool,
    ) -> Result<Option<String>, AllocError>
        requires knows { Knows pack.now self.old }
        requires is_found { found pack.now object ≡ Ok (Some unit.now) }
        ensures text { IsTextOf (TellsOwn object (own_of object unit.now)) object result }
        ensures knows { Knows pack.now self.new }
    {
        if has_twin {
            let place = UnitPlace::of(unit, object);
            if let Some(read) = self.shared.get(&place.key()) {
                if read.place == place {
                    return own_fault(self.alloc, &read.own, object);
                }
            }
            let own = read(self.alloc, &mut self.tables, pack, object, unit)?;
            let text = own_fault(self.alloc, &own, object)?;
            self.shared.insert(place.key(), PlaceRead { place, own })?;
            return Ok(text);
        }
        let own = read(self.alloc, &mut self.tables, pack, object, unit)?;
        own_fault(self.alloc, &own, object)
    }
}

/// Reads what a unit's own bytes say of its identifier.
fn read<'a>(
    alloc: Global,
    tables: &mut TablesByTurns<'a>,
    pack: &PackageFile<'a>,
    object: DwarfObject,
    unit: &PackagedUnit<'a>,
) -> Result<OwnIdentifier, AllocError>
    requires tables { tables.old ≡ (pack.now.order, content pack.now.contents SectionKind.Abbrev) }
    requires is_found { found pack.now object ≡ Ok (Some unit.now) }
    ensures own { IfOk result (λ own. said_of own ≡ own_of object unit.now) }
    ensures kept { tables.new ≡ tables.old }
{
    match header_of(unit, object, pack.order()) {
        Ok(header) => read_behind(alloc, tables, unit, &header),
        Err(error) => Ok(Err(format!(in alloc; "{error}")?)),
    }
}

/// The identifier that a unit with this header says itself, by its abbreviations.
fn read_behind<'a>(
    alloc: Global,
    tables: &mut TablesByTurns<'a>,
    unit: &PackagedUnit<'a>,
    header: &UnitHeader<SliceReader<'a>>,
) -> Result<OwnIdentifier, AllocError>
    requires inside { (range : Contribution) → range_in unit.now.row SectionKind.Abbrev ≡ Some range
        → range.offset.0 + range.size ≤ length tables.old.1 }
    ensures own { IfOk result (λ own. said_of own ≡ result_ok (identity (section tables.old.0
        (bytes_at tables.old.1 (numbers_of (range_in unit.now.row SectionKind.Abbrev))))
        (unit_of ⟦<SliceReader<'a> as Reader>⟧.input header.now))) }
    ensures kept { tables.new ≡ tables.old }
{
    let (start, size) = numbers_of(unit.range(SectionKind::Abbrev));
    let end = start
        .saturating_add(size)
        .min(tables.first.bytes().len() as u64);
    match tables.identifier(start as usize, end as usize, header) {
        Ok(own) => Ok(Ok(own)),
        Err(error) => Ok(Err(format!(in alloc; "{error}")?)),
    }
}

/// Where a range begins, and its size; an absent one has no bytes.
fn numbers_of(range: Option<Contribution>) -> (u64, u64)
    ensures { result ≡ numbers_of range }
{
    range.map_or((0, 0), |range| (range.offset.0, range.size))
}

/// What is told of a unit whose own bytes say this of its identifier, if anything.
#[tactic(auto, using(thorin_print::proofs::Hex::hex16_written))]
fn own_fault(
    alloc: Global,
    own: &OwnIdentifier,
    object: DwarfObject,
) -> Result<Option<String>, AllocError>
    ensures { IsTextOf (TellsOwn object (said_of own.now)) object result }
{
    match own {
        Ok(Some(own)) => {
            if *own == object {
                return Ok(None);
            }
            let kind = short_kind(*own);
            let id = own.index();
            some(format!(in alloc; "its own identifier is {kind} 0x{id:016x}"))
        }
        Ok(None) => some(format!(in alloc; "it has no identifier of its own")),
        Err(cause) => {
            let cause = cause.as_str();
            some(format!(in alloc; "its own identifier can't be read: {cause}"))
        }
    }
}

/// Where a range of the section starts and ends.
type TableRange = [usize; 2];

/// A section of abbreviations whose units have ranges of it, and what was read of tables in it. A
/// range that is used again after another has tables of its own from then on. So of ranges that
/// don't overlap each is read twice at most, however they are used by turns, and all that is
/// remembered of them has no more bytes than the section.
#[derive(Drop)]
pub(crate) struct TablesByTurns<'a> {
    alloc: Global,
    order: Endianness,
    // The tables of ranges that are used for the first time.
    first: RangeTables<'a>,
    // Those of each range that was used again.
    again: Vec<RangeTables<'a>>,
    // For each range that was used its place among these, where it was used again.
    places: BTreeMap<TableRange, Option<usize>>,
    // The range before, and its place.
    last: TableRange,
    place: Option<usize>,
}

impl<'a> Model for TablesByTurns<'a> {
    ghost use Rattle.std.specs.Prelude.{◌≡◌, ℕ, List};
    ghost use Rattle.std.specs.List.{All};
    ghost use Rattle.dwp_base.specs.declared.endian.Endianness.{Endianness as Order};

    // Contracts see the byte order and the section.
    ghost Value = { Order × List ℕ };

    ghost view = { λ t. t.first };

    ghost invariant = { λ t. (t.first.0 ≡ t.order)
        × All (λ tables. tables ≡ t.first) t.again.items };
}

impl<'a> TablesByTurns<'a> {
    /// What `RangeTables` says of a unit whose abbreviations stand in the section from the byte
    /// `start` up to the byte `end`. Where a unit's identifier stands behind them it goes on with
    /// the tables of this range, or for want of memory with those of the ranges used first.
    pub(crate) fn identifier(
        &mut self,
        start: usize,
        end: usize,
        header: &UnitHeader<SliceReader<'a>>,
    ) -> Result<Option<DwarfObject>, Error>
        ensures meaning { Gives (λ name. name) result (identity
            (section self.old.0 (drop start (take end self.old.1)))
            (unit_of ⟦<SliceReader<'a> as Reader>⟧.input header.now)) }
        ensures memory { IfErr result (λ e. e ≢ Error.Memory) }
        ensures kept { self.new ≡ self.old }
    {
        let range = [start, end];
        if range != self.last && matches!(header.unit_type(), UnitType::Compilation) {
            self.last = range;
            self.place = self.place_of(range).unwrap_or(None);
        }
        match self.place {
            Some(place) if place < self.again.len() => {
                self.again[place].identifier(start, end, header)
            }
            _ => self.first.identifier(start, end, header),
        }
    }

    /// The place of a range that is used after another, if it was used before: tables of its own
    /// begin there where it is used again.
    fn place_of(&mut self, range: TableRange) -> Result<Option<usize>, AllocError>
        ensures { self.new ≡ self.old }
    {
        match self.places.get(&range).copied() {
            Some(Some(place)) => Ok(Some(place)),
            Some(None) => {
                let tables = RangeTables::new(self.alloc, self.first.bytes(), self.order);
                let place = self.again.len();
                self.again.push(tables)?;
                self.places.insert(range, Some(place))?;
                Ok(Some(place))
            }
            None => {
                self.places.insert(range, None)?;
                Ok(None)
            }
        }
    }
}
