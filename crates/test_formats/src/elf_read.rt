//! Calls of `dwp_elf_read`: files of both classes and orders, and damaged ones.

use dwp_base::SectionKind;
use dwp_elf_read::{ElfFile, FileKind, ReadError, Section, WriteError};
use std::io;
use test_rows::{Hex, Row, Said, place};

/// Makes the call of a row.
pub fn call(row: Row<'_>, said: &mut Said) {
    match row.word(0) {
        "file_kind" => said.put(&FileKind::parse(row.bytes(1))),
        "cuts" => cuts(row.bytes(1), said),
        "texts_of_elf" => texts(said),
        _ => of_file(row, said),
    }
}

/// Bytes, and what is asked of their file.
fn of_file(row: Row<'_>, said: &mut Said) {
    match ElfFile::parse(row.bytes(1)) {
        Ok(file) => in_file(&file, row, said),
        Err(error) => put_refused(row, error, said),
    }
}

/// Why a file is none, to each of the two questions that `file` is.
fn put_refused(row: Row<'_>, error: ReadError, said: &mut Said) {
    said.err(&error);
    if row.word(0) == "file" {
        said.err(&error);
    }
}

/// By the number of a table and that of a symbol its value, or by a name the number of a section.
fn in_file(file: &ElfFile<'_>, row: Row<'_>, said: &mut Said) {
    match row.word(0) {
        "file" => put_file(file, said),
        "symbol" => said.put(&file.symbol_value(row.small(2), row.small(3))),
        "section_named" => said.ok(&number_of(file.section_by_name(row.word(2)))),
        _ => of_section(file.section(place(row.word(2))), row, said),
    }
}

fn number_of(section: Option<Section<'_>>) -> Option<usize> {
    match section {
        Some(section) => Some(section.number()),
        None => None,
    }
}

/// Class, byte order, machine and number of sections; and of the sections that the iterator gives
/// the type of the first and the number of the others.
fn put_file(file: &ElfFile<'_>, said: &mut Said) {
    said.ok(&(
        file.class(),
        file.endianness(),
        file.machine(),
        file.section_count(),
    ));
    let mut sections = file.sections();
    let first = type_of(sections.next());
    said.ok(&(first, sections.count()));
}

fn type_of(section: Option<Section<'_>>) -> Option<u32> {
    match section {
        Some(section) => Some(section.kind()),
        None => None,
    }
}

/// What is asked of a section.
fn of_section(section: Option<Section<'_>>, row: Row<'_>, said: &mut Said) {
    match section {
        Some(section) => in_section(section, row, said),
        None => said.word("no section"),
    }
}

/// All that a section says, whether it has a name, or its relocations.
fn in_section(section: Section<'_>, row: Row<'_>, said: &mut Said) {
    match row.word(0) {
        "section" => put_section(section, said),
        "is_called" => said.ok(&Some(section.is_called(row.word(3)))),
        "is_of" => said.put(&is_of(section, row.kind(3))),
        _ => put_relocations(section, said),
    }
}

fn put_section(section: Section<'_>, said: &mut Said) {
    said.put(&names(section));
    said.put(&numbers(section));
    said.put(&content(section));
}

/// Whether a section has one of a kind's names, whether that is the older one, and whether it also
/// has bytes.
fn is_of(section: Section<'_>, kind: SectionKind) -> (bool, bool, bool) {
    (
        section.is_of(kind),
        section.has_older_name(kind),
        section.holds(kind),
    )
}

/// A section's number, name, and kind in a package.
fn names(section: Section<'_>) -> (usize, Result<&str, ReadError>, Option<SectionKind>) {
    (section.number(), section.name(), section.section_kind())
}

/// A section's type, flags, address, size, link and info.
fn numbers(section: Section<'_>) -> (u32, u64, u64, u64, u32, u32) {
    (
        section.kind(),
        section.flags(),
        section.address(),
        section.size(),
        section.link(),
        section.info(),
    )
}

/// Whether a section is empty, whether it is compressed, and its content.
fn content(section: Section<'_>) -> (bool, bool, Result<Hex<'_>, ReadError>) {
    (section.is_empty(), section.is_compressed(), data(section))
}

fn data(section: Section<'_>) -> Result<Hex<'_>, ReadError> {
    match section.data() {
        Ok(data) => Ok(Hex(data)),
        Err(error) => Err(error),
    }
}

/// What the iterator of a section's relocations gives at first, or None at its end.
fn put_relocations(section: Section<'_>, said: &mut Said) {
    let mut found = section.relocations();
    for _ in 0..4 {
        said.put(&found.next());
    }
}

/// Why bytes are no file that can be read, and whether their kind can be.
fn errors(bytes: &[u8]) -> (Option<ReadError>, bool) {
    (ElfFile::parse(bytes).err(), FileKind::parse(bytes).is_ok())
}

/// Each beginning of a file whose answer is not that of the one before: how many bytes it has, why
/// it can't be read, and whether its kind can be.
fn cuts(bytes: &[u8], said: &mut Said) {
    let mut before = None;
    for size in 0..=bytes.len() {
        let (error, is_known) = errors(&bytes[..size]);
        if before != Some((error, is_known)) {
            said.put(&(size, error, is_known));
        }
        before = Some((error, is_known));
    }
}

fn texts(said: &mut Said) {
    for error in [
        ReadError::TooShort,
        ReadError::NotElf,
        ReadError::ByteOrder,
        ReadError::Version,
        ReadError::SectionTable,
        ReadError::SectionEntrySize,
        ReadError::NameTable,
        ReadError::NameRange,
        ReadError::SectionRange,
        ReadError::SymbolTable,
        ReadError::SymbolIndex,
        ReadError::RelocationTable,
        ReadError::Compressed,
    ] {
        said.error(&error);
    }
    said.error(&WriteError::NumberTooLarge);
    said.error(&WriteError::Memory);
    said.error(&WriteError::Io(io::Error::from(io::ErrorKind::Other)));
}
