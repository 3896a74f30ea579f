//! Reading bytes by each reader.

use crate::tally::{self, Tally};
use dwp_dwarf::{
    Abbreviation, AbbreviationCache, Abbreviations, Attribute, Format, ReadError, Reader,
    SliceReader, StringSections, UnitHeader, UnitHeaders, UnitSection, attr_string, root,
};
use dwp_elf_read::{ElfFile, FileKind, Section};
use dwp_index::CONTRIBUTION_KINDS;
use std::alloc::Global;
use thorin::{DwarfObject, Endianness, PackageFile, SectionKind, UnitIndex};

/// Reads bytes by each reader.
pub fn read_all(alloc: Global, bytes: &[u8], tally: &mut Tally) {
    tally.note(tally::KIND, FileKind::parse(bytes).is_ok());
    let file = ElfFile::parse(bytes);
    tally.note(tally::FILE, file.is_ok());
    if let Ok(file) = file {
        read_sections(&file, tally);
        read_dwarf(alloc, &file, tally);
    }
    read_package(bytes, tally);
}

fn read_sections(file: &ElfFile<'_>, tally: &mut Tally) {
    for section in file.sections() {
        read_name(&section, tally);
        read_content(&section, file.endianness(), tally);
        read_relocations(file, &section, tally);
    }
}

fn read_name(section: &Section<'_>, tally: &mut Tally) {
    let name = section.name();
    tally.note(tally::NAME, name.is_ok());
    let kind = match name {
        Ok(name) => SectionKind::of_name(name),
        Err(_error) => None,
    };
    tally.expect(kind == section.section_kind());
}

fn read_content(section: &Section<'_>, order: Endianness, tally: &mut Tally) {
    let content = section.data();
    tally.note(tally::CONTENT, content.is_ok());
    if let Ok(content) = content {
        read_index(content, order, tally);
    }
}

fn read_relocations(file: &ElfFile<'_>, section: &Section<'_>, tally: &mut Tally) {
    for relocation in section.relocations() {
        tally.note(tally::RELOCATION, relocation.is_ok());
        if let Ok(relocation) = relocation {
            let value = file.symbol_value(relocation.table, relocation.symbol);
            tally.note(tally::SYMBOL, value.is_ok());
        }
    }
}

/// A reader of the first section of a name; of no bytes where there is none.
fn reader_of<'a>(file: &ElfFile<'a>, name: &str) -> SliceReader<'a> {
    let mut content: &[u8] = &[];
    if let Some(section) = file.section_by_name(name) {
        if let Ok(bytes) = section.data() {
            content = bytes;
        }
    }
    SliceReader::new(content, file.endianness())
}

fn read_dwarf(alloc: Global, file: &ElfFile<'_>, tally: &mut Tally) {
    for (name, section, abbreviations) in [
        (".debug_info.dwo", UnitSection::Info, ".debug_abbrev.dwo"),
        (".debug_types.dwo", UnitSection::Types, ".debug_abbrev.dwo"),
        (".debug_info", UnitSection::Info, ".debug_abbrev"),
    ] {
        read_named(alloc, file, name, section, abbreviations, tally);
    }
}

/// Reads the units of the first section of a name, with abbreviations of another. All readers are
/// made here, since one place that makes them costs least.
fn read_named(
    alloc: Global,
    file: &ElfFile<'_>,
    name: &str,
    section: UnitSection,
    abbreviations: &str,
    tally: &mut Tally,
) {
    let strings = [
        reader_of(file, ".debug_str.dwo"),
        reader_of(file, ".debug_line_str"),
        reader_of(file, ".debug_str_offsets.dwo"),
    ];
    let units = reader_of(file, name);
    read_units(
        alloc,
        units,
        section,
        reader_of(file, abbreviations),
        strings,
        tally,
    );
}

fn read_units<R: Reader>(
    alloc: Global,
    units: R,
    section: UnitSection,
    abbreviations: R,
    [debug_str, debug_line_str, debug_str_offsets]: [R; 3],
    tally: &mut Tally,
) {
    let mut cache = AbbreviationCache::new(alloc, abbreviations);
    let strings = StringSections {
        debug_str,
        debug_line_str,
        debug_str_offsets,
    };
    for header in UnitHeaders::new(units, section) {
        tally.note(tally::UNIT, header.is_ok());
        if let Ok(header) = header {
            read_root(&header, &mut cache, &strings, tally);
        }
    }
}

fn tag_of<R: Reader>(
    found: Result<Option<Abbreviation<R>>, ReadError>,
) -> Result<Option<u64>, ReadError> {
    match found {
        Ok(Some(abbreviation)) => Ok(Some(abbreviation.tag())),
        Ok(None) => Ok(None),
        Err(error) => Err(error),
    }
}

fn read_root<R: Reader>(
    header: &UnitHeader<R>,
    cache: &mut AbbreviationCache<R>,
    strings: &StringSections<R>,
    tally: &mut Tally,
) {
    let offset = header.abbrev_offset();
    let table = Abbreviations::new(cache.section(), offset);
    tally.note(tally::TABLE, table.is_ok());
    let Ok(table) = table else { return };
    if let Ok(Some((code, _))) = header.root_code() {
        tally.expect(tag_of(table.get(code)) == tag_of(cache.get(offset, code)));
    }
    read_entry(header, &table, strings, tally);
}

fn read_entry<R: Reader>(
    header: &UnitHeader<R>,
    table: &Abbreviations<R>,
    strings: &StringSections<R>,
    tally: &mut Tally,
) {
    let entry = root(header, table);
    tally.note(tally::ROOT, entry.is_ok());
    let Ok(Some(entry)) = entry else { return };
    let format = header.encoding().format;
    for attribute in entry.attributes {
        tally.note(tally::ATTRIBUTE, attribute.is_ok());
        if let Ok(attribute) = attribute {
            read_attribute(&attribute, format, strings, tally);
        }
    }
}

fn read_attribute<R: Reader>(
    attribute: &Attribute<R>,
    format: Format,
    strings: &StringSections<R>,
    tally: &mut Tally,
) {
    let _ = attribute.number();
    let _ = attribute.section_offset(format);
    let text = attr_string(strings, format, 8, attribute);
    tally.note(tally::TEXT, text.is_ok());
}

fn read_index(content: &[u8], order: Endianness, tally: &mut Tally) {
    let index = UnitIndex::parse(content, order);
    tally.note(tally::INDEX, index.is_ok());
    let Ok(index) = index else { return };
    for identifier in &[0, 5, u64::MAX] {
        let _ = index.find_counted(*identifier);
    }
    for number in 0..8 {
        read_row(&index, number, tally);
    }
}

fn read_row(index: &UnitIndex<'_>, number: u32, tally: &mut Tally) {
    let row = index.row(number);
    tally.note(tally::ROW, row.is_ok());
    let Ok(row) = row else { return };
    for kind in &CONTRIBUTION_KINDS {
        let has_range = row.range(*kind).is_some();
        tally.expect(!has_range || index.has_column(*kind));
    }
}

fn read_package(bytes: &[u8], tally: &mut Tally) {
    let package = PackageFile::parse(bytes);
    tally.note(tally::PACKAGE, package.is_ok());
    let Ok(package) = package else { return };
    for entry in package.units() {
        let _ = read_packaged(&package, entry.object, tally);
    }
}

/// Reads what a package has of a unit, and tells whether the unit is there and its first strings
/// are.
pub fn read_packaged(package: &PackageFile<'_>, object: DwarfObject, tally: &mut Tally) -> bool {
    let found = package.find_counted(object);
    tally.note(tally::FOUND, found.is_ok());
    let Ok((Some(unit), _)) = found else {
        return false;
    };
    let mut is_whole = true;
    for i in 0..8 {
        let is_read = unit.string(i).is_ok();
        tally.note(tally::STRING, is_read);
        is_whole = is_whole && is_read;
    }
    let _ = unit.section(SectionKind::Line);
    let _ = unit.encoding();
    is_whole
}
