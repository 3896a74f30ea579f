//! Calls of `dwp_index`.

use dwp_base::{Contribution, ContributionOffset, SectionKind};
use dwp_bytes::ReadError;
use dwp_elf_read::{ElfFile, ReadError as ElfReadError};
use dwp_index::*;
use test_rows::{Hex, Row, Said};

/// Makes the call of a row.
pub fn call(row: Row<'_>, said: &mut Said) {
    match row.word(0) {
        "package" | "packaged" | "units" | "first_byte" | "content" => of_package(row, said),
        "of_kind" => of_kind(row, said),
        "part" => part(row, said),
        "texts_of_index" => texts_of_index(said),
        "archive" => crate::archived::archived(row, said),
        "inflate" => crate::inflated::inflated(row, said),
        "zstd" => crate::inflated::decoded(row, said),
        "decompressed" | "asked" | "plain_length" | "overlaps" => crate::decompressed::call(
            row, said,
        ),
        "index" | "column" | "look_up" | "range" => of_index(row, said),
        _ => crate::elf_read::call(row, said),
    }
}

/// A byte order and an index.
fn of_index(row: Row<'_>, said: &mut Said) {
    match UnitIndex::parse(row.bytes(2), row.order(1)) {
        Ok(index) => in_index(&index, row, said),
        Err(error) => said.err(&error),
    }
}

/// An index's version, and its numbers of units and of slots; whether it has a column; the row of
/// an identifier; or what a row has of a section.
fn in_index(index: &UnitIndex<'_>, row: Row<'_>, said: &mut Said) {
    match row.word(0) {
        "index" => said.ok(&(index.version(), index.unit_count(), index.slot_count())),
        "column" => said.ok(&index.has_column(row.kind(3))),
        "look_up" => look_up(index, row.number(3), said),
        _ => range(index, row, said),
    }
}

/// The row of a unit, alone and with how many slots are read for it.
fn look_up(index: &UnitIndex<'_>, id: u64, said: &mut Said) {
    said.ok(&index.find(id));
    said.ok(&index.find_counted(id));
}

fn range(index: &UnitIndex<'_>, row: Row<'_>, said: &mut Said) {
    match index.row(row.small(3)) {
        Ok(found) => said.ok(&found.range(row.kind(4))),
        Err(error) => said.err(&error),
    }
}

/// A package, and a unit of it.
fn of_package(row: Row<'_>, said: &mut Said) {
    match PackageFile::parse(row.bytes(1)) {
        Ok(package) => in_package(&package, row, said),
        Err(error) => said.err(&error),
    }
}

/// Whether a contribution of an offset and a size is inside a section's bytes, and its bytes.
fn part(row: Row<'_>, said: &mut Said) {
    let range = Contribution {
        offset: ContributionOffset(row.number(2)),
        size: row.number(3),
    };
    said.put(&lies_inside(row.bytes(1), range));
    said.put(&Hex(part_of(row.bytes(1), Some(range))));
}

/// The first section of a kind: its number and size.
fn of_kind(row: Row<'_>, said: &mut Said) {
    let Ok(file) = ElfFile::parse(row.bytes(1)) else {
        return said.word("no ELF file");
    };
    let found = first_sections(&file).get(row.kind(2));
    said.put(&found.map(|(number, section)| (number, section.size())));
}

fn in_package(package: &PackageFile<'_>, row: Row<'_>, said: &mut Said) {
    match row.word(0) {
        "package" => look_up_unit(package, unit(row), said),
        "packaged" => packaged(package, row, said),
        "units" => units(package, said),
        "content" => content(package, row.kind(2), said),
        _ => said.ok(&package.first_byte(unit(row))),
    }
}

/// The byte order, the numbers of units of the two indexes, and the content of a kind.
fn content(package: &PackageFile<'_>, kind: SectionKind, said: &mut Said) {
    said.ok(&(
        package.order(),
        count_of(package.compilation_index()),
        count_of(package.type_index()),
    ));
    said.put(&Hex(package.content(kind)));
}

fn count_of(index: Option<&UnitIndex<'_>>) -> Option<u32> {
    match index {
        Some(index) => Some(index.unit_count()),
        None => None,
    }
}

/// The unit of words 2 and 3, `cu` or `tu` and an identifier.
fn unit(row: Row<'_>) -> DwarfObject {
    match row.word(2) {
        "tu" => DwarfObject::TypeUnit(DebugTypeSignature(row.number(3))),
        _ => DwarfObject::Compilation(DwoId(row.number(3))),
    }
}

/// How many slots are read for a unit, and its row where the package has it.
fn look_up_unit(package: &PackageFile<'_>, object: DwarfObject, said: &mut Said) {
    match package.find_counted(object) {
        Ok(found) => put_counted(found, said),
        Err(error) => said.err(&error),
    }
}

fn put_counted((unit, slots): (Option<PackagedUnit<'_>>, u32), said: &mut Said) {
    match unit {
        Some(unit) => said.ok(&(Some(unit.row()), slots)),
        None => said.ok(&(None::<u32>, slots)),
    }
}

/// A unit and a kind: its encoding, its first string, its bytes, its contribution to the section
/// and the bytes of that.
fn packaged(package: &PackageFile<'_>, row: Row<'_>, said: &mut Said) {
    match package.find(unit(row)) {
        Ok(Some(unit)) => put_unit(&unit, row.kind(4), said),
        Ok(None) => said.word("no unit"),
        Err(error) => said.err(&error),
    }
}

fn put_unit(unit: &PackagedUnit<'_>, kind: SectionKind, said: &mut Said) {
    said.put(&(unit.encoding(), unit.string(0), Hex(unit.bytes())));
    said.put(&(unit.range(kind), Hex(unit.section(kind))));
}

/// The first units that the indexes name.
fn units(package: &PackageFile<'_>, said: &mut Said) {
    let mut units = package.units();
    said.ok(&[told(units.next()), told(units.next())]);
}

fn told(entry: Option<UnitEntry>) -> Option<(DwarfObject, u32)> {
    match entry {
        Some(entry) => Some((entry.object, entry.row)),
        None => None,
    }
}

fn texts_of_index(said: &mut Said) {
    for error in [
        PackageError::Elf(ElfReadError::TooShort),
        PackageError::Index(ReadError::SlotCount),
        PackageError::Range(SectionKind::Info),
        PackageError::Unit(ReadError::UnknownVersion),
    ] {
        said.error(&error);
    }
}
