//! Calls of what a package is made of: hash tables, entries, written indexes and relocations.

use dwp_base::{ByKind, Contribution, ContributionOffset, Endianness, SectionKind};
use dwp_bytes::{Encoding, RelocationEntry};
use dwp_elf_read::{ElfFile, Section};
use dwp_index::{DwarfObject, DwoId, UnitIndex};
use std::alloc::{AllocError, Global};
use test_rows::{Row, Said, encoding, number, place, split};
use thorin_errors::Error;
use thorin_executable::add_relocations;
use thorin_index::{Buckets, IndexEntry, bucket, write_index};
use thorin_input::ContributionAdjustor;

/// Makes the call of a row.
pub fn call(row: Row<'_>, said: &mut Said) {
    match row.word(0) {
        "slots" => slots(row, said),
        "slots_of" => slots_of(row, said),
        "index_of" => index_of(row, said),
        "moved" => moved(row, said),
        "moved_by" => moved_by(row, said),
        "moved_row" => moved_row(row, said),
        "relocations_of" | "relocations_in" => relocations_of(row, said),
        _ => crate::errors::call(row, said),
    }
}

/// The contribution of a word: a place, `+` and a size; none without them.
fn part(word: &str) -> Option<Contribution> {
    let (offset, size) = split(word, "+");
    if size.is_empty() {
        return None;
    }
    Some(Contribution {
        offset: ContributionOffset(number(offset)),
        size: number(size),
    })
}

/// The entry of a compilation unit, with these contributions.
fn entry(
    encoding: Encoding,
    id: u64,
    info: Option<Contribution>,
    abbrev: Option<Contribution>,
    str_offsets: Option<Contribution>,
) -> IndexEntry {
    let mut parts = ByKind::same(None);
    parts.set(SectionKind::Info, info);
    parts.set(SectionKind::Abbrev, abbrev);
    parts.set(SectionKind::StrOffsets, str_offsets);
    IndexEntry::by_kind(encoding, DwarfObject::Compilation(DwoId(id)), &parts)
}

pub fn contribution(word: &str) -> Contribution {
    part(word).unwrap_or(Contribution {
        offset: ContributionOffset(0),
        size: 0x10,
    })
}

/// The entry of a unit that has the ranges of a word: one of string offsets, or one of
/// abbreviations and, behind `/`, one of string offsets.
fn ranged(encoding: Encoding, id: u64, word: &str) -> IndexEntry {
    let (abbrev, offsets) = match word.split_once('/') {
        Some(ranges) => ranges,
        None => ("", word),
    };
    entry(
        encoding,
        id,
        None,
        Some(contribution(abbrev)),
        Some(contribution(offsets)),
    )
}

/// An index whose rows have the ranges of a word, with a comma between.
pub fn indexed(alloc: Global, encoding: Encoding, word: &str, said: &mut Said) -> Vec<u8> {
    let mut entries = Vec::new(alloc);
    add_ranged(&mut entries, encoding, word, said);
    written(alloc, &entries, said)
}

fn add_ranged(entries: &mut Vec<IndexEntry>, encoding: Encoding, word: &str, said: &mut Said) {
    for range in word.split(',') {
        let entry = ranged(encoding, entries.len() as u64, range);
        said.note_that(entries.push(entry).is_ok());
    }
}

/// The index of entries, or no bytes where it is refused, which is said.
fn written(alloc: Global, entries: &[IndexEntry], said: &mut Said) -> Vec<u8> {
    match write_index(alloc, Endianness::Little, entries) {
        Ok(index) => index,
        Err(error) => {
            said.err(&error);
            Vec::new(alloc)
        }
    }
}

/// The entry of a word: an encoding, an identifier, and contributions to abbreviations and to info,
/// with a colon between.
fn entry_of(word: &str) -> IndexEntry {
    let (format, rest) = split(word, ":");
    let (id, rest) = split(rest, ":");
    let (abbrev, info) = split(rest, ":");
    entry(encoding(format), number(id), part(info), part(abbrev), None)
}

/// The entries of the words 2 on.
fn entries(row: Row<'_>, said: &mut Said) -> Vec<IndexEntry> {
    let mut entries = Vec::new(row.alloc);
    for word in row.rest(2) {
        said.note_that(entries.push(entry_of(word)).is_ok());
    }
    entries
}

/// A byte order, and entries: the bytes of their index.
fn index_of(row: Row<'_>, said: &mut Said) {
    let entries = entries(row, said);
    said.sized(&write_index(row.alloc, row.order(1), &entries));
}

/// Identifiers: the slots of their hash table, and how many were looked at for each.
fn slots(row: Row<'_>, said: &mut Said) {
    let mut units = Vec::new(row.alloc);
    for word in row.rest(1) {
        said.note_that(units.push(DwoId(number(word))).is_ok());
    }
    put_table(bucket(row.alloc, &units), said);
}

fn put_table(table: Result<Buckets, Error>, said: &mut Said) {
    match table {
        Ok(Buckets { slots, looked }) => {
            said.put(&slots);
            said.put(&looked);
        }
        Err(error) => said.put(&error),
    }
}

/// How many slots the table of so many units has.
fn slots_of(row: Row<'_>, said: &mut Said) {
    let mut units = Vec::new(row.alloc);
    for id in 0..row.number(1) {
        said.note_that(units.push(DwoId(id)).is_ok());
    }
    match bucket(row.alloc, &units) {
        Ok(table) => said.ok(&table.slots.len()),
        Err(error) => said.err(&error),
    }
}

/// An identifier, and the entries of an index, if there is one: the unit's abbreviations in an
/// output that has the section's 0x18 bytes from 0x20 on.
fn moved(row: Row<'_>, said: &mut Said) {
    if row.rest(2).is_empty() {
        put_abbreviations(None, row.number(1), said);
        return;
    }
    let entries = entries(row, said);
    let index = written(row.alloc, &entries, said);
    put_indexed(&index, row.number(1), said);
}

/// An index and an identifier: the same.
fn moved_by(row: Row<'_>, said: &mut Said) {
    put_indexed(row.bytes(1), row.number(2), said);
}

fn put_indexed(index: &[u8], id: u64, said: &mut Said) {
    match UnitIndex::parse(index, Endianness::Little) {
        Ok(index) => put_abbreviations(Some(&index), id, said),
        Err(error) => said.err(&error),
    }
}

/// The section's bytes in the output.
const WHOLE: Contribution = Contribution {
    offset: ContributionOffset(0x20),
    size: 0x18,
};

/// Where a unit's abbreviations lie in an output that has the section from 0x20 on.
fn put_abbreviations(index: Option<&UnitIndex<'_>>, id: u64, said: &mut Said) {
    let adjustor = ContributionAdjustor::new(index, None, SectionKind::Abbrev);
    said.put(&adjustor.adjust(DwarfObject::Compilation(DwoId(id)), Some(WHOLE)));
}

/// An index and an identifier: the same of a unit that was looked up before.
fn moved_row(row: Row<'_>, said: &mut Said) {
    match UnitIndex::parse(row.bytes(1), Endianness::Little) {
        Ok(index) => put_looked_up(&index, row.number(2), said),
        Err(error) => said.err(&error),
    }
}

fn put_looked_up(index: &UnitIndex<'_>, id: u64, said: &mut Said) {
    let adjustor = ContributionAdjustor::new(Some(index), None, SectionKind::Abbrev);
    let unit = DwarfObject::Compilation(DwoId(id));
    said.put(&adjustor.adjust_row(unit, index.find(id), Some(WHOLE)));
}

/// An executable: the places that are relocated in `.debug_info`, or in the section of a number,
/// and what they read as where 0x10 is stored.
fn relocations_of(row: Row<'_>, said: &mut Said) {
    match ElfFile::parse(row.bytes(1)) {
        Ok(file) => put_section(&file, row, said),
        Err(error) => said.put(&error),
    }
}

fn put_section(file: &ElfFile<'_>, row: Row<'_>, said: &mut Said) {
    match asked(file, row.word(2)) {
        Some(section) => put_relocations(&add_relocations(row.alloc, file, &section), said),
        None => said.word("no section"),
    }
}

fn asked<'a>(file: &ElfFile<'a>, word: &str) -> Option<Section<'a>> {
    if word.is_empty() {
        file.section_by_name(".debug_info")
    } else {
        file.section(place(word))
    }
}

fn put_relocations(found: &Result<Vec<RelocationEntry>, Error>, said: &mut Said) {
    match found {
        Ok(found) => {
            for entry in found {
                said.put(&(entry.offset, entry.relocation.value(0x10)));
            }
        }
        Err(error) => said.error(error),
    }
}
