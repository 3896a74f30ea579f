//! Calls of `thorin_package_input`: rows by place, and string offsets of packages that are
//! rewritten.

use crate::parts::{contribution, indexed};
use dwp_base::{Contribution, Endianness, SectionKind};
use dwp_bytes::ReadError;
use dwp_index::UnitIndex;
use test_rows::{Hex, Row, Said, Text, encoding};
use thorin_errors::Error;
use thorin_package_input::{RowPlaces, remap_packaged_offsets};
use thorin_strings::{PackageStringTable, StringOffsets};

/// Makes the call of a row.
pub fn call(row: Row<'_>, said: &mut Said) {
    match row.word(0) {
        "rewritten" => rewritten(row, said),
        "without_indexes" => without_indexes(row, said),
        "row_at" => row_at(row, said),
        "row_nowhere" => row_nowhere(row, said),
        _ => crate::parts::call(row, said),
    }
}

fn parsed(index: &[u8]) -> Result<UnitIndex<'_>, ReadError> {
    UnitIndex::parse(index, Endianness::Little)
}

/// An encoding, string offsets, and the ranges that compilation units and type units have of them:
/// the offsets rewritten into a table that gets `b` first, and the strings behind that.
fn rewritten(row: Row<'_>, said: &mut Said) {
    let compilations = indexed(row.alloc, encoding(row.word(1)), row.word(3), said);
    let types = indexed(row.alloc, encoding(row.word(1)), row.word(4), said);
    match (parsed(&compilations), parsed(&types)) {
        (Ok(compilations), Ok(types)) => put_rewritten(row, &compilations, &types, said),
        (Err(error), _) => said.err(&error),
        (_, Err(error)) => said.err(&error),
    }
}

fn put_rewritten(
    row: Row<'_>,
    compilations: &UnitIndex<'_>,
    types: &UnitIndex<'_>,
    said: &mut Said,
) {
    let mut strings = PackageStringTable::new(row.alloc);
    add_string(&mut strings, said);
    let range = remapped(row, &mut strings, compilations, types);
    put_range(&range, &strings.finish(), said);
}

fn add_string(strings: &mut PackageStringTable, said: &mut Said) {
    said.note_that(strings.get_or_insert(b"b").is_ok());
}

fn remapped(
    row: Row<'_>,
    strings: &mut PackageStringTable,
    compilations: &UnitIndex<'_>,
    types: &UnitIndex<'_>,
) -> Result<Vec<u8>, Error> {
    remap_packaged_offsets(
        row.alloc,
        strings,
        Some(compilations),
        Some(types),
        &StringOffsets {
            strings: b"a\0b\0",
            offsets: row.bytes(2),
            order: Endianness::Little,
            encoding: encoding(row.word(1)),
        },
    )
}

fn put_range(range: &Result<Vec<u8>, Error>, data: &[u8], said: &mut Said) {
    match range {
        Ok(range) => said.put(&(Hex(range), Text(data))),
        Err(error) => said.put(error),
    }
}

/// String offsets of a package without indexes, and whether there is no string then.
fn without_indexes(row: Row<'_>, said: &mut Said) {
    let mut strings = PackageStringTable::new(row.alloc);
    put_without_indexes(row, &mut strings, said);
}

fn put_without_indexes(row: Row<'_>, strings: &mut PackageStringTable, said: &mut Said) {
    said.bytes(&remap_packaged_offsets(
        row.alloc,
        strings,
        None,
        None,
        &StringOffsets {
            strings: b"",
            offsets: row.bytes(1),
            order: Endianness::Big,
            encoding: encoding("dwarf5"),
        },
    ));
    said.put(&strings.is_empty());
}

/// The row of an index that has a range in a section.
fn put_row(
    row: Row<'_>,
    index: Option<&UnitIndex<'_>>,
    section: SectionKind,
    range: Contribution,
    said: &mut Said,
) {
    match RowPlaces::new(row.alloc, index, section) {
        Ok(places) => said.ok(&places.find(range)),
        Err(error) => said.err(&error),
    }
}

/// Ranges of abbreviations and of string offsets, a section, and a range of it: the row that has
/// it.
fn row_at(row: Row<'_>, said: &mut Said) {
    let index = indexed(row.alloc, encoding("gnu"), row.word(1), said);
    match parsed(&index) {
        Ok(index) => {
            let range = contribution(row.word(3));
            put_row(row, Some(&index), row.kind(2), range, said);
        }
        Err(error) => said.err(&error),
    }
}

/// A section and a range of it, where there is no index.
fn row_nowhere(row: Row<'_>, said: &mut Said) {
    put_row(row, None, row.kind(1), contribution(row.word(2)), said);
}
