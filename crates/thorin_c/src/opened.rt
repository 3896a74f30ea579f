//! A package that is open: its sections, rows, units and names, and what is lent of them.

ghost use Rattle.std.specs.{Option.option_copied, Prelude.Ok};
ghost use Rattle.std.specs.Prelude.{◌≡◌};
ghost use Rattle.dwp_index.specs.Package.{first_outside, found_counted, index_for, row_counted};
ghost use Rattle.dwp_base.specs.Reading.{Answers};
ghost use Rattle.dwp_index.specs.{Contents.content, Package.row_bytes};
ghost use Rattle.thorin_c.specs.{ByIndex.row_listed, Finding.lent_in, Finding.of_object};
ghost use Rattle.dwp_index.specs.Entries.{entries_from, units_left};
ghost use Rattle.thorin_c.specs.OpenedFields.{row_held, unit_held};
ghost use Rattle.thorin_c.specs.Opening.{package_in, sections_at};

use crate::finding::object_of;
use crate::status::{
    ABSENT, MALFORMED_INDEX, MALFORMED_STRING, MALFORMED_UNIT, NO_SUCH_SECTION, NO_SUCH_STRING,
    RANGE_OUTSIDE,
};
use crate::types::ThorinPackage;
use dwp_base::{Contribution, ContributionOffset, Endianness, SectionKind};
use dwp_bytes::{Encoding, StringOffsets};
use dwp_index::{
    PackageError, Row, UnitIndex, Units, encoding_in, kind_of, lies_inside, part_of, place_of,
    read_index,
};
use dwp_table::{Bucketable, CONTRIBUTION_KINDS, DwarfObject};
use std::marker::Model;

/// A package's bytes, and where its sections lie among them.
#[derive(Clone, Copy)]
struct PlacedSections<'p, 'a> {
    places: &'p ThorinPackage,
    bytes: &'a [u8],
}

impl<'p, 'a> PlacedSections<'p, 'a> {
    /// The content of a kind; no bytes where its place isn't inside.
    #[tactic(auto, using(crate::proofs::Files::content_placed))]
    #[inline(always)]
    fn of(&self, kind: SectionKind) -> &'a [u8]
        ensures { result.now ≡ content (sections_at self.now.places.now self.now.bytes.now) kind }
    {
        let place = self.places.sections[kind.rank() as usize];
        let part = Contribution {
            offset: ContributionOffset(place.offset),
            size: place.size,
        };
        part_of(self.bytes, Some(part))
    }

    /// The bytes of a row's range in a section; none where it has no such range.
    #[tactic(auto, unfolding(dwp_index::specs::Package::row_bytes))]
    #[inline(always)]
    fn row_bytes(&self, row: &Row<'_>, kind: SectionKind) -> &'a [u8]
        ensures { result.now
            ≡ row_bytes (sections_at self.now.places.now self.now.bytes.now) row.now kind }
    {
        part_of(self.of(kind), row.range(kind))
    }

    /// The first section, in the order of columns, that a range of the row isn't inside of.
    #[tactic(auto, unfolding(dwp_index::specs::Package::first_outside))]
    #[inline(always)]
    fn first_outside(&self, row: &Row<'_>) -> Option<SectionKind>
        ensures { result
            ≡ first_outside (sections_at self.now.places.now self.now.bytes.now) row.now }
    {
        CONTRIBUTION_KINDS
            .iter()
            .copied()
            .find(|kind| match row.range(*kind) {
                None => false,
                Some(range) => !lies_inside(self.of(*kind), range),
            })
    }
}

/// A package by the places of its sections: its indexes are read, and nothing else of it.
#[derive(Drop)]
pub(crate) struct OpenPackage<'p, 'a> {
    order: Endianness,
    sections: PlacedSections<'p, 'a>,
    compilations: Option<UnitIndex<'a>>,
    types: Option<UnitIndex<'a>>,
}

impl<'p, 'a> Model for OpenPackage<'p, 'a> {
    ghost use Rattle.dwp_index.specs.Package.{Package};

    ghost Value = { Package };

    ghost use Rattle.thorin_c.specs.OpenedFields.{package_held};

    ghost view = { package_held };
}

/// The row of a unit with its number, and how many slots were looked at.
#[derive(Drop)]
pub(crate) struct ListedRow<'a> {
    pub(crate) number: u32,
    pub(crate) ranges: Row<'a>,
    pub(crate) slots: u32,
}

/// What is lent of a unit.
#[derive(Clone, Copy)]
pub(crate) enum Lent {
    /// Its bytes in the section of a number.
    Section(u8),
    /// Its string of a number.
    String(u64),
}

impl<'p, 'a> OpenPackage<'p, 'a> {
    /// The package whose sections are at these places.
    #[tactic(auto, unfolding(crate::specs::Opening::package_in))]
    #[inline(always)]
    pub(crate) fn at(
        places: &'p ThorinPackage,
        bytes: &'a [u8],
    ) -> Result<OpenPackage<'p, 'a>, PackageError>
        ensures { Answers (λ x. x) result (package_in places.now bytes.now) }
    {
        let sections = PlacedSections { places, bytes };
        let order = if places.big_endian == 0 {
            Endianness::Little
        } else {
            Endianness::Big
        };
        let compilations = read_index(sections.of(SectionKind::CuIndex), order)?;
        let types = read_index(sections.of(SectionKind::TuIndex), order)?;
        Ok(OpenPackage {
            order,
            sections,
            compilations,
            types,
        })
    }

    /// The units that the slots of both indexes name, in order of slot, those of the compilation
    /// index first.
    pub(crate) fn units(&self) -> Units<'_>
        ensures { units_left result ≡ entries_from self.now.compilations self.now.types 0 0 }
    {
        Units::new(self.compilations.as_ref(), self.types.as_ref())
    }

    /// The row of an object in the index of its kind.
    #[inline(always)]
    fn listed(&self, object: DwarfObject) -> Result<ListedRow<'a>, i32>
        ensures { Answers row_held result (row_listed object (index_for self.now object)) }
    {
        match object {
            DwarfObject::Compilation(_) => listed_by(object, self.compilations.as_ref()),
            DwarfObject::TypeUnit(_) => listed_by(object, self.types.as_ref()),
        }
    }

    /// The row of an object, whose ranges lie inside their sections.
    #[tactic(auto, using(crate::proofs::Files::row_is))]
    #[inline(always)]
    pub(crate) fn row(&self, object: DwarfObject) -> Result<ListedRow<'a>, i32>
        ensures { Answers row_held result (of_object row_counted self.now object) }
    {
        let row = self.listed(object)?;
        if self.sections.first_outside(&row.ranges).is_some() {
            return Err(RANGE_OUTSIDE);
        }
        Ok(row)
    }

    /// The row of an object's unit, and the encoding in its header.
    #[tactic(auto, using(crate::proofs::Files::unit_is))]
    #[inline(always)]
    pub(crate) fn unit(&self, object: DwarfObject) -> Result<(ListedRow<'a>, Encoding), i32>
        ensures { Answers (unit_held self.now object) result
            (of_object found_counted self.now object) }
    {
        let row = self.row(object)?;
        let place = place_of(object, row.ranges.range(SectionKind::Types));
        let bytes = self.sections.row_bytes(&row.ranges, kind_of(place));
        let encoding = encoding_in(bytes, self.order, place).map_err(|_| MALFORMED_UNIT)?;
        Ok((row, encoding))
    }

    /// What is lent of the unit of a name.
    #[tactic(auto, unfolding(crate::specs::Finding::of_name))]
    pub(crate) fn lent(&self, lent: Lent, kind: u8, id: u64) -> Result<&'a [u8], i32>
        ensures { Answers (λ bytes. bytes.now) result (lent_in lent (Ok self.now) kind id) }
    {
        let (row, encoding) = self.unit(object_of(kind, id)?)?;
        let ranges = &row.ranges;
        match lent {
            Lent::Section(number) => match CONTRIBUTION_KINDS.get(number as usize) {
                Some(kind) => Ok(self.sections.row_bytes(ranges, *kind)),
                None => Err(NO_SUCH_SECTION),
            },
            Lent::String(number) => {
                let offsets = StringOffsets {
                    strings: self.sections.of(SectionKind::Str),
                    offsets: self.sections.row_bytes(ranges, SectionKind::StrOffsets),
                    order: self.order,
                    encoding,
                };
                let string = offsets.string(number).map_err(|_| MALFORMED_STRING)?;
                string.ok_or(NO_SUCH_STRING)
            }
        }
    }
}

/// The row of an object in an index. (Each index has its own copy of this code, in which the
/// index stays in registers.)
#[inline(always)]
fn listed_by<'a>(object: DwarfObject, index: Option<&UnitIndex<'a>>) -> Result<ListedRow<'a>, i32>
    ensures { Answers row_held result (row_listed object (option_copied index.entry)) }
{
    let index = index.ok_or(ABSENT)?;
    let (found, slots) = index.find_counted(object.index());
    let number = found.ok_or(ABSENT)?;
    match index.row(number) {
        Ok(ranges) => Ok(ListedRow {
            number,
            ranges,
            slots,
        }),
        Err(_) => Err(MALFORMED_INDEX),
    }
}
