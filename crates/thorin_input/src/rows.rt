//! The rows that units get: each unit's contribution to each section of its input, tested, and put
//! where the section comes to lie in the package.

ghost use Rattle.thorin_input.specs.Rows as spec;
ghost use Rattle.std.specs.Prelude.{drop, IfErr, IfOk, map, None, take, if◌then◌else◌, ◌≡◌};
ghost use Rattle.dwp_base.specs.declared.section.SectionKind.TheVariants.{Abbrev};
ghost use Rattle.dwp_units.specs.Units.{unit_of};
ghost use Rattle.dwp_elf.specs.Growing.{contribution_put};
ghost use Rattle.dwp_table.specs.Objects.{identifier_of};
ghost use Rattle.thorin_errors.specs.Answers.{Gives};
ghost use Rattle.thorin_input.specs.{Adjusting.GivesExactly, Indexes.index_for, Parts.joined_parts};
ghost use Rattle.thorin_input.specs.{Format.is_shared, Indexes.looked_up, Used.first};
ghost use Rattle.thorin_index.specs.Entries.{contribution_to};
ghost use Rattle.thorin_input.specs.Rows.{EndFits, EndsFit};
ghost use Rattle.thorin_input.specs.View as view;

use crate::parts::{Part, is_shared};
use crate::source::{ContributionAdjustor, Indexes, Source};
use dwp_base::{ByKind, Contribution, ContributionOffset, Endianness, SectionKind};
use dwp_dwarf::{Encoding, Reader, SliceReader, UnitHeader, UnitType};
use dwp_elf::WritableObject;
use dwp_index::lies_inside;
use dwp_table::{Bucketable, DwarfObject, DwoId};
use thorin_errors::Error;
use thorin_index::IndexEntry;
use thorin_package_input::RowPlaces;

/// Where the whole of each section that units share comes to lie, as the row of a unit that has all
/// of it.
#[derive(Clone, Copy)]
pub struct Whole {
    /// The row; its identifier says nothing, and it has no range of info or types.
    pub row: IndexEntry,
    ghost fits: { EndsFit row },
    ghost no_info: { row.debug_info ≡ None },
    ghost no_types: { row.debug_types ≡ None },
}

/// Where the whole of a section that units share comes to lie once parts are put; None for any
/// other section. `Memory` where no memory could hold it.
fn whole_contribution(
    file: &WritableObject,
    parts: &[Part<'_>],
    kind: SectionKind,
) -> Result<Option<Contribution>, Error>
    ensures range { IfOk result (λ range. range ≡ (if is_shared kind then contribution_put kind
        (joined_parts kind (map view.part parts.now)) file.now.contents else None)) }
    ensures fits { IfOk result EndFits }
    ensures refused { IfErr result (λ e. e ≡ Error.Memory) }
{
    if !is_shared(kind) {
        return Ok(None);
    }
    let mut size = 0_usize;
    for part in parts {
        if part.kind.is(kind) {
            size = size.checked_add(part.bytes().len()).ok_or(Error::Memory)?;
        }
    }
    if size == 0 {
        return Ok(None);
    }
    let offset = file.content(kind).len();
    if size > usize::MAX - offset {
        return Err(Error::Memory);
    }
    Ok(Some(Contribution {
        offset: ContributionOffset(offset as u64),
        size: size as u64,
    }))
}

impl Whole {
    /// Where the whole of each section comes to lie once parts are put behind the contents of a
    /// file. Errors: `Memory` alone.
    pub fn of(encoding: Encoding, file: &WritableObject, parts: &[Part<'_>]) -> Result<Whole, Error>
        ensures row { IfOk result (λ whole.
            whole.row ≡ spec.whole_row encoding file.now.contents (map view.part parts.now)) }
        ensures refused { IfErr result (λ e. e ≡ Error.Memory) }
    {
        let ranges = ByKind::read(None, |kind| whole_contribution(file, parts, kind))?;
        let row = IndexEntry::by_kind(encoding, DwarfObject::Compilation(DwoId(0)), &ranges);
        Ok(Whole { row })
    }
}

/// A unit's contribution to a section: adjusted where units share the section, else that of the
/// whole row as it is.
fn unit_contribution(
    indexes: &Indexes<'_>,
    whole: &Whole,
    name: DwarfObject,
    number: Option<u32>,
    kind: SectionKind,
) -> Result<Option<Contribution>, Error>
    requires number { number
        ≡ looked_up (index_for (view.indexes indexes.now) name) (identifier_of name) }
    ensures { GivesExactly result (spec.unit_contribution (view.indexes indexes.now) name kind
        (contribution_to kind whole.now.row)) }
{
    let all = whole.row.contribution(kind);
    if !is_shared(kind) {
        return Ok(all);
    }
    let (compilations, types) = (indexes.compilations.as_ref(), indexes.types.as_ref());
    ContributionAdjustor::new(compilations, types, kind).adjust_row(name, number, all)
}

/// The row of a unit but for its own bytes: its contribution to each section that units share, or
/// the first error of `ContributionAdjustor::adjust` in the order of a row. `number` is what
/// looking the unit up gave (`test_row`).
pub fn unit_row(
    indexes: &Indexes<'_>,
    whole: &Whole,
    name: DwarfObject,
    number: Option<u32>,
) -> Result<IndexEntry, Error>
    requires number { number
        ≡ looked_up (index_for (view.indexes indexes.now) name) (identifier_of name) }
    ensures meaning { Gives (λ row. row) result
        (spec.unit_row (view.indexes indexes.now) whole.now.row name) }
    ensures name { IfOk result (λ row. row.id ≡ name) }
{
    if let (None, None) = (&indexes.compilations, &indexes.types) {
        let mut row = whole.row;
        row.id = name;
        return Ok(row);
    }
    let contributions = ByKind::read(
        None,
        |kind| unit_contribution(indexes, whole, name, number, kind),
    )?;
    Ok(IndexEntry::by_kind(whole.row.encoding, name, &contributions))
}

/// A unit's contribution to the section that it stands in.
fn own_contribution<'a>(header: &UnitHeader<SliceReader<'a>>) -> Contribution
    ensures { result
        ≡ spec.own_contribution (unit_of ⟦<SliceReader<'a> as Reader>⟧.input header.now) }
{
    let start = SliceReader::new(&[], Endianness::Little);
    let bytes = header.bytes();
    Contribution {
        offset: ContributionOffset(bytes.offset_from(&start) as u64),
        size: bytes.slice().len() as u64,
    }
}

/// The rows by place of both indexes of an input, in a section of a kind.
#[derive(Drop)]
pub struct PlacedRows<'i, 'a> {
    /// Those of the compilation index.
    pub compilations: RowPlaces<'i, 'a>,
    /// Those of the type index.
    pub types: RowPlaces<'i, 'a>,
}

/// The row number that looking a unit up gives, in a package that of the unit's row by place:
/// `UnitNotInIndex` where these aren't the same or one isn't there. None in an input without an
/// index.
#[tactic(auto, unfolding(crate::specs::Rows::row_test))]
pub fn test_row<'a>(
    indexes: &Indexes<'_>,
    placed: &PlacedRows<'_, '_>,
    kind: SectionKind,
    name: DwarfObject,
    header: &UnitHeader<SliceReader<'a>>,
) -> Result<Option<u32>, Error>
    requires compilations { placed.now.compilations
        ≡ record { index = (view.indexes indexes.now).compilations; section = kind } }
    requires types { placed.now.types ≡
        record { index = (view.indexes indexes.now).types; section = kind } }
    ensures meaning { Gives (λ _. tt) result (spec.row_test (view.indexes indexes.now) kind name
        (unit_of ⟦<SliceReader<'a> as Reader>⟧.input header.now)) }
    ensures number { IfOk result (λ number.
        number ≡ looked_up (index_for (view.indexes indexes.now) name) (identifier_of name)) }
{
    let number = indexes.looked_up(name);
    if !indexes.is_package() {
        return Ok(number);
    }
    let range = own_contribution(header);
    let here = match name {
        DwarfObject::Compilation(_) => placed.compilations.find(range),
        DwarfObject::TypeUnit(_) => placed.types.find(range),
    };
    match (here, number) {
        (Some(here), Some(there)) if here == there => Ok(number),
        _ => Err(Error::UnitNotInIndex(name.index())),
    }
}

/// Where the part of the first section of abbreviations begins and ends that a unit's identity is
/// read with: all of it, or for a compile unit of a package the range of its row by place.
/// `UnitNotInIndex` where there is no such row, `RowNotInIndex` where its number is past the rows,
/// `BadContribution` where they are outside the section.
#[tactic(auto, using(crate::proofs::Ends::part_of_range), unfolding(crate::specs::Rows::abbreviations_for, crate::specs::Rows::numbered_abbreviations, crate::specs::Rows::row_abbreviations))]
pub fn abbreviations_for<'a>(
    source: &Source<'a>,
    bytes: &[u8],
    placed: &PlacedRows<'_, '_>,
    kind: SectionKind,
    header: &UnitHeader<SliceReader<'a>>,
) -> Result<(usize, usize), Error>
    requires placed { placed.now.compilations
        ≡ record { index = (view.source source.now).indexes.compilations; section = kind } }
    requires bytes { bytes.now ≡ first Abbrev (view.source source.now).object.sections }
    ensures { Gives (λ range. drop range.0 (take range.1 bytes.now)) result (spec.abbreviations_for
        (view.source source.now) kind (unit_of ⟦<SliceReader<'a> as Reader>⟧.input header.now)) }
{
    if source.indexes.is_package() && matches!(header.unit_type(), UnitType::Compilation) {
        let number = placed.compilations.find(own_contribution(header));
        let (Some(index), Some(number)) = (&source.indexes.compilations, number) else {
            return Err(Error::UnitNotInIndex(0));
        };
        let row = match index.row(number) {
            Ok(row) => row,
            Err(e) => return Err(Error::RowNotInIndex(e, number)),
        };
        let Some(range) = row.range(SectionKind::Abbrev) else {
            return Ok((0, 0));
        };
        if !lies_inside(bytes, range) {
            return Err(Error::BadContribution(SectionKind::Abbrev.name(), 0));
        }
        let start = range.offset.0 as usize;
        Ok((start, start + range.size as usize))
    } else {
        Ok((0, bytes.len()))
    }
}
