//! Calls of `thorin_errors`: the texts of errors.

use dwp_bytes::{ReadError as DwarfReadError, WriteError as DwarfWriteError};
use dwp_elf_read::{ReadError as ElfReadError, WriteError as ElfWriteError};
use std::alloc::AllocError;
use std::io;
use test_rows::{Row, Said};
use thorin_errors::{Error, InputError, MissingReferencedObjectBehaviour};

/// Makes the call of a row.
pub fn call(row: Row<'_>, said: &mut Said) {
    match row.word(0) {
        "text" => text(row, said),
        "behaviours" => behaviours(said),
        _ => crate::sessions::call(row, said),
    }
}

/// Errors of inputs and of their sections.
fn of_inputs(name: &str) -> Option<Error> {
    Some(match name {
        "ReadInput" => Error::ReadInput(io::Error::from(io::ErrorKind::NotFound)),
        "ParseFileKind" => Error::ParseFileKind(ElfReadError::TooShort),
        "ParseObjectFile" => Error::ParseObjectFile(ElfReadError::Version),
        "InvalidInputKind" => Error::InvalidInputKind,
        "DecompressData" => Error::DecompressData(ElfReadError::Compressed),
        "NamelessSection" => Error::NamelessSection(ElfReadError::NameRange, 64),
        "MissingRequiredSection" => Error::MissingRequiredSection(".debug_str.dwo"),
        "MultipleDebugInfoSection" => Error::MultipleDebugInfoSection,
        "MultipleDebugTypesSection" => Error::MultipleDebugTypesSection,
        "NoOutputObjectCreated" => Error::NoOutputObjectCreated,
        "MixedInputEncodings" => Error::MixedInputEncodings,
        "SectionOutsideFormat" => Error::SectionOutsideFormat(".debug_loc.dwo"),
        "RepeatedSection" => Error::RepeatedSection(".debug_abbrev.dwo"),
        _ => return of_units(name),
    })
}

/// Errors of relocations, each with the name of a section.
fn of_relocations(name: &str, section: String) -> Option<Error> {
    match name {
        "RelocationWithInvalidSymbol" => Some(Error::RelocationWithInvalidSymbol(section, 8)),
        "MultipleRelocations" => Some(Error::MultipleRelocations(section, 12)),
        "UnsupportedRelocation" => Some(Error::UnsupportedRelocation(section, 6)),
        _ => None,
    }
}

/// Errors of units and of their identifiers.
fn of_units(name: &str) -> Option<Error> {
    let cut = DwarfReadError::UnexpectedEof;
    Some(match name {
        "MissingDwoName" => Error::MissingDwoName(0x1_2345_6789),
        "NoCompilationUnits" => Error::NoCompilationUnits,
        "NoDie" => Error::NoDie,
        "TopLevelDieNotUnit" => Error::TopLevelDieNotUnit,
        "ParseUnitAbbreviations" => Error::ParseUnitAbbreviations(cut),
        "ParseUnitHeader" => Error::ParseUnitHeader(cut),
        "ParseUnit" => Error::ParseUnit(cut),
        "EmptyUnit" => Error::EmptyUnit(5),
        "NotSplitUnit" => Error::NotSplitUnit,
        "DuplicateUnit" => Error::DuplicateUnit(0x2a),
        "MissingReferencedUnit" => Error::MissingReferencedUnit(1),
        _ => return of_indexes(name),
    })
}

/// Errors of indexes, strings, rows and ranges.
fn of_indexes(name: &str) -> Option<Error> {
    let cut = DwarfReadError::UnexpectedEof;
    Some(match name {
        "IncompatibleIndexVersion" => Error::IncompatibleIndexVersion(".debug_cu_index", 2, 5),
        "OffsetAtIndex" => Error::OffsetAtIndex(cut, 7),
        "StrAtOffset" => Error::StrAtOffset(cut, 255),
        "ParseIndex" => Error::ParseIndex(cut, ".debug_tu_index"),
        "UnitNotInIndex" => Error::UnitNotInIndex(5),
        "RowNotInIndex" => Error::RowNotInIndex(cut, 3),
        "SectionNotInRow" => Error::SectionNotInRow,
        "BadContribution" => Error::BadContribution(".debug_line.dwo", 5),
        "BadStringOffsets" => Error::BadStringOffsets(0),
        "OverlappingStringOffsets" => Error::OverlappingStringOffsets(8),
        "NumberTooLarge" => Error::NumberTooLarge("string offset", 0x1_0000_0000),
        _ => return of_causes(name),
    })
}

/// Errors that are made of others.
fn of_causes(name: &str) -> Option<Error> {
    Some(match name {
        "io" => Error::from(io::Error::from(io::ErrorKind::NotFound)),
        "elf_read" => Error::from(ElfReadError::TooShort),
        "elf_write" => Error::from(ElfWriteError::NumberTooLarge),
        "elf_write_memory" => Error::from(ElfWriteError::Memory),
        "dwarf_read" => Error::from(DwarfReadError::BigLeb),
        "dwarf_write" => Error::from(DwarfWriteError::ValueTooLarge),
        "memory" => Error::from(AllocError),
        "input" => Error::from(InputError::Io(io::Error::from(io::ErrorKind::NotFound))),
        "input_memory" => Error::from(InputError::Memory),
        _ => return None,
    })
}

/// The name of an error: how it is printed by `{:?}`, and its text.
fn text(row: Row<'_>, said: &mut Said) {
    match of_inputs(row.word(1)) {
        Some(error) => said.error(&error),
        None => text_of_relocation(row, said),
    }
}

fn text_of_relocation(row: Row<'_>, said: &mut Said) {
    let section = said.made(
        String::from_str(row.alloc, ".debug_info"),
        String::new(row.alloc),
    );
    match of_relocations(row.word(1), section) {
        Some(error) => said.error(&error),
        None => said.word("no such error"),
    }
}

/// What is done about objects that are missing, whether these are skipped, and want of memory.
fn behaviours(said: &mut Said) {
    for behaviour in [
        MissingReferencedObjectBehaviour::Skip,
        MissingReferencedObjectBehaviour::Error,
    ] {
        said.put(&(behaviour, behaviour.skip_missing()));
    }
    said.put(&InputError::Memory);
}
