//! Calls of `dwp_dwarf`: units and their root entries, read from bytes.

use crate::reading::{relocated, slice};
use dwp_dwarf::*;
use test_rows::{Row, Said, Text, number, place, split};

/// Makes the call of a row, with readers of its words 1 to 5 and of strings.
pub fn call<R: Reader>(words: &[R; 5], strings: &[R; 3], row: Row<'_>, said: &mut Said) {
    match row.word(0) {
        "unit" => unit(words[2], words[3], row, said),
        "relocated_unit" => relocated(&ROOT, words[0], words[1], row, said),
        "relocated_type_unit" => relocated(&TYPE_UNIT, words[0], words[1], row, said),
        "attribute" => put_text(strings, row.number(1), words[1], said),
        _ => call_of_tables(words, row, said),
    }
}

fn call_of_tables<R: Reader>(words: &[R; 5], row: Row<'_>, said: &mut Said) {
    match row.word(0) {
        "remembered" | "declares_within" => remembered(row, words[0], said),
        "sizes" => sizes(row.bytes(1), row.rest(2), said),
        "object" => object(words, row, said),
        _ => crate::formats::call(row, said),
    }
}

/// A section of units by its name, or by that of the row.
pub fn section(row: Row<'_>) -> UnitSection {
    if row.word(1) == "types" || row.word(0) == "relocated_type_unit" {
        UnitSection::Types
    } else {
        UnitSection::Info
    }
}

/// The header of the first unit of a section.
fn first<R: Reader>(units: R, section: UnitSection) -> Option<Result<UnitHeader<R>, ReadError>> {
    UnitHeaders::new(units, section).next()
}

/// The root of a unit.
fn root_of<R: Reader>(
    header: &UnitHeader<R>,
    abbreviations: R,
) -> Result<Option<RootEntry<R>>, ReadError> {
    root(
        header,
        &Abbreviations::new(abbreviations, header.abbrev_offset())?,
    )
}

/// The tag of a root, and its first number of `DW_AT_GNU_dwo_id`.
type Root = Result<Option<(u64, Option<u64>)>, ReadError>;

fn identified<R: Reader>(root: Result<Option<RootEntry<R>>, ReadError>) -> Root {
    match root {
        Ok(Some(entry)) => numbered(entry),
        Ok(None) => Ok(None),
        Err(error) => Err(error),
    }
}

fn numbered<R: Reader>(entry: RootEntry<R>) -> Root {
    let mut identifier = None;
    for attribute in entry.attributes {
        match attribute {
            Ok(attribute) => identifier = identifier.or(identifier_of(&attribute)),
            Err(error) => return Err(error),
        }
    }
    Ok(Some((entry.tag, identifier)))
}

fn identifier_of<R: Reader>(attribute: &Attribute<R>) -> Option<u64> {
    if attribute.name == 0x2131 {
        attribute.number()
    } else {
        None
    }
}

/// The type of a unit, how many bytes it has, where its abbreviations stand, its version, and
/// whether it has no entry.
type Header = (UnitType, usize, u64, u16, bool);

fn told<R: Reader>(header: &UnitHeader<R>) -> Header {
    (
        header.unit_type(),
        header.bytes().len(),
        header.abbrev_offset(),
        header.encoding().version,
        header.entries().is_empty(),
    )
}

/// What the first unit of a section is, and its root.
pub fn first_told<R: Reader>(
    units: R,
    abbreviations: R,
    section: UnitSection,
) -> Option<Result<(Header, Root), ReadError>> {
    match first(units, section) {
        Some(Ok(header)) => Some(Ok((told(&header), identified(root_of(&header, abbreviations))))),
        Some(Err(error)) => Some(Err(error)),
        None => None,
    }
}

/// `info` or `types`, a byte order, units and abbreviations: the first unit, and its root. Then the
/// same, read by a reader with relocations, of which there are none.
fn unit<R: Reader>(units: R, abbreviations: R, row: Row<'_>, said: &mut Said) {
    said.put(&first_told(units, abbreviations, section(row)));
    relocated(&[], units, abbreviations, row, said);
}

/// What is relocated at the place of a unit's abbreviation offset.
static ROOT: [RelocationEntry; 1] = [RelocationEntry {
    offset: 6,
    relocation: Relocation {
        addend: 2,
        implicit_addend: false,
    },
}];

/// What is relocated at the places of a type unit's length, abbreviation offset, signature and type
/// offset.
static TYPE_UNIT: [RelocationEntry; 4] = [
    RelocationEntry {
        offset: 0,
        relocation: Relocation {
            addend: 1,
            implicit_addend: false,
        },
    },
    RelocationEntry {
        offset: 6,
        relocation: Relocation {
            addend: 0x20,
            implicit_addend: false,
        },
    },
    RelocationEntry {
        offset: 11,
        relocation: Relocation {
            addend: 0x30,
            implicit_addend: false,
        },
    },
    RelocationEntry {
        offset: 19,
        relocation: Relocation {
            addend: 0x40,
            implicit_addend: true,
        },
    },
];

/// Sections of strings.
fn strings<R: Reader>(debug_str: R, debug_line_str: R, debug_str_offsets: R) -> StringSections<R> {
    StringSections {
        debug_str,
        debug_line_str,
        debug_str_offsets,
    }
}

/// The string of a form and a value, by sections of strings that are always the same.
fn put_text<R: Reader>(
    [debug_str, debug_line_str, debug_str_offsets]: &[R; 3],
    form: u64,
    value: R,
    said: &mut Said,
) {
    let sections = strings(*debug_str, *debug_line_str, *debug_str_offsets);
    let attribute = Attribute {
        name: 0x03,
        form,
        value,
    };
    match attr_string(&sections, Format::Dwarf32, 4, &attribute) {
        Ok(text) => said.ok(&Text(text.to_slice())),
        Err(error) => said.err(&error),
    }
}

/// The tag of an abbreviation, and whether its entries have children.
type Told = Result<Option<(u64, bool)>, ReadError>;

fn told_of<R: Reader>(found: Result<Option<Abbreviation<R>>, ReadError>) -> Told {
    match found {
        Ok(Some(abbreviation)) => Ok(Some((abbreviation.tag(), abbreviation.has_children()))),
        Ok(None) => Ok(None),
        Err(error) => Err(error),
    }
}

/// That of a code in the table at a place, as it is read.
fn as_read<R: Reader>(section: R, offset: u64, code: u64) -> Told {
    match Abbreviations::new(section, offset) {
        Ok(table) => told_of(table.get(code)),
        Err(error) => Err(error),
    }
}

/// Tables of abbreviations, and places and codes with a colon between: what is remembered of each
/// in turn, and what is read; and how far the section of the cache stands behind the tables. Or
/// behind each code an end: whether the declaration of the code in the table at the place is known
/// to end within the first so many bytes.
fn remembered<R: Reader>(row: Row<'_>, section: R, said: &mut Said) {
    let mut cache = AbbreviationCache::new(row.alloc, section);
    put_remembered(&mut cache, section, row, said);
}

fn put_remembered<R: Reader>(
    cache: &mut AbbreviationCache<R>,
    section: R,
    row: Row<'_>,
    said: &mut Said,
) {
    for word in row.rest(2) {
        put_word(cache, section, word, said);
    }
    if row.word(0) == "remembered" {
        said.put(&cache.section().offset_from(&section));
    }
}

fn put_word<R: Reader>(cache: &mut AbbreviationCache<R>, section: R, word: &str, said: &mut Said) {
    let (offset, rest) = split(word, ":");
    let (code, end) = split(rest, ":");
    let (offset, code) = (number(offset), number(code));
    match end {
        "" => put_tags(cache, section, (offset, code), said),
        _ => said.put(&cache.declares_within(offset, code, place(end))),
    }
}

/// What is remembered of a code in the table at a place, and what is read.
fn put_tags<R: Reader>(
    cache: &mut AbbreviationCache<R>,
    section: R,
    (offset, code): (u64, u64),
    said: &mut Said,
) {
    let remembered = told_of(cache.get(offset, code));
    said.put(&[remembered, as_read(section, offset, code)]);
}

/// A unit, and forms: how many bytes a value of each takes.
fn sizes(unit: &[u8], forms: &[&str], said: &mut Said) {
    for form in forms {
        let form = number(form);
        // The form stands in two bytes. Behind implicit_const the next zero is its number.
        let (low, high) = ((form % 128) as u8 | 0x80, (form / 128 % 128) as u8);
        let table = [1, 0x11, 0, 3, low, high, 0, 0, 0, 0];
        said.put(&size_of(slice(unit), slice(&table)));
    }
}

/// How many bytes the value of a root's first attribute takes.
fn size_of<R: Reader>(unit: R, table: R) -> Result<Option<usize>, ReadError> {
    match entry_of(unit, UnitSection::Info, table) {
        Ok(Some(entry)) => size_of_first(entry.attributes),
        Ok(None) => Ok(None),
        Err(error) => Err(error),
    }
}

fn size_of_first<R: Reader>(mut attributes: Attributes<R>) -> Result<Option<usize>, ReadError> {
    match attributes.next() {
        Some(Ok(attribute)) => Ok(Some(attribute.value.len())),
        Some(Err(error)) => Err(error),
        None => Ok(None),
    }
}

/// The root of the first unit of a section.
fn entry_of<R: Reader>(
    units: R,
    section: UnitSection,
    abbreviations: R,
) -> Result<Option<RootEntry<R>>, ReadError> {
    match first(units, section) {
        Some(Ok(header)) => root_of(&header, abbreviations),
        Some(Err(error)) => Err(error),
        None => Ok(None),
    }
}

/// How many bytes the first unit of a section has, its encoding and its type.
fn header_of<R: Reader>(
    units: R,
    section: UnitSection,
) -> Option<Result<(usize, Encoding, UnitType), ReadError>> {
    match first(units, section) {
        Some(Ok(header)) => Some(Ok((header.bytes().len(), header.encoding(), header.unit_type()))),
        Some(Err(error)) => Some(Err(error)),
        None => None,
    }
}

/// `info` or `types`, units, abbreviations, strings, string offsets, where these begin and the
/// format of their offsets: the first unit of an object that a compiler wrote, and its root.
fn object<R: Reader>(words: &[R; 5], row: Row<'_>, said: &mut Said) {
    let mut empty = words[0];
    empty.empty();
    let sections = strings(words[3], empty, words[4]);
    put_object(words[1], words[2], &sections, row, said);
}

fn put_object<R: Reader>(
    units: R,
    abbreviations: R,
    sections: &StringSections<R>,
    row: Row<'_>,
    said: &mut Said,
) {
    said.put(&header_of(units, section(row)));
    match entry_of(units, section(row), abbreviations) {
        Ok(Some(entry)) => put_entry(entry, sections, row, said),
        Ok(None) => said.word("no root"),
        Err(error) => said.put(&error),
    }
}

/// The tag of a root, and each attribute's name, form and string, if it has one.
fn put_entry<R: Reader>(
    entry: RootEntry<R>,
    sections: &StringSections<R>,
    row: Row<'_>,
    said: &mut Said,
) {
    let mut attributes = entry.attributes;
    said.put(&entry.tag);
    // More than any compiler writes.
    for _ in 0..100 {
        put_next(&mut attributes, sections, row, said);
    }
}

fn put_next<R: Reader>(
    attributes: &mut Attributes<R>,
    sections: &StringSections<R>,
    row: Row<'_>,
    said: &mut Said,
) {
    match attributes.next() {
        Some(Ok(attribute)) => put_string(&attribute, sections, row, said),
        Some(Err(error)) => said.err(&error),
        None => {}
    }
}

/// An attribute's name, form and string.
fn put_string<R: Reader>(
    attribute: &Attribute<R>,
    sections: &StringSections<R>,
    row: Row<'_>,
    said: &mut Said,
) {
    match attr_string(sections, row.format(7), row.number(6), attribute) {
        Ok(text) => said.ok(&(
            attribute.name,
            attribute.form,
            Ok::<_, ReadError>(Text(text.to_slice())),
        )),
        Err(error) => said.ok(&(attribute.name, attribute.form, Err::<(), ReadError>(error))),
    }
}
