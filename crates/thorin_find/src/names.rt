//! The names that a unit's own bytes give: of its source, and of its object.

ghost use Rattle.thorin_find.specs.Names as spec;
ghost use Rattle.thorin_find.specs.Names.{object_name, short_string_at, source_name, string_number};
ghost use Rattle.dwp_dwarf.specs.Attributes.{attribute_of, attributes_left, entry_of, root_of};
ghost use Rattle.std.specs.{Option.option_and_then, Option.option_copied, Result.result_ok};
ghost use Rattle.thorin_find.specs.Names.{die_of, header_in, named, object_in, string_of};
ghost use Rattle.{dwp_bytes.specs.Input.front, dwp_index.specs.Contents.content};
ghost use Rattle.std.specs.Prelude.{option_map, ◌≡◌};
ghost use Rattle.dwp_units.specs.Units.{unit_of};

use dwp_base::{Endianness, SectionKind};
use dwp_bytes::{ReadError, Reader, SliceReader, StringOffsets, string_at};
use dwp_dwarf::{Abbreviations, Attribute, Attributes, RootEntry, UnitHeader, UnitHeaders};
use dwp_index::{PackageFile, PackagedUnit, place_of};
use dwp_table::DwarfObject;

const DW_AT_NAME: u64 = 0x03;

const DW_AT_DWO_NAME: u64 = 0x76;

const DW_AT_GNU_DWO_NAME: u64 = 0x2130;

const DW_FORM_STRING: u64 = 0x08;

const DW_FORM_STRX: u64 = 0x1a;

const DW_FORM_STRX1: u64 = 0x25;

const DW_FORM_STRX2: u64 = 0x26;

const DW_FORM_STRX3: u64 = 0x27;

const DW_FORM_STRX4: u64 = 0x28;

const DW_FORM_GNU_STR_INDEX: u64 = 0x1f02;

/// How many bytes are read at most of a unit's abbreviations, and of the values of its unit DIE.
const MOST_READ: usize = 16384;

/// How many bytes a name is sought in.
const MOST_NAMED: u64 = 4096;

/// The names of a unit's source, `DW_AT_name` of its unit DIE, and of its object, `DW_AT_dwo_name`
/// or `DW_AT_GNU_dwo_name` there.
#[tactic(auto, unfolding(crate::specs::Names::source_name, crate::specs::Names::object_name))]
pub(crate) fn names_of<'a>(
    pack: &PackageFile<'a>,
    object: DwarfObject,
    unit: &PackagedUnit<'a>,
) -> (Option<&'a [u8]>, Option<&'a [u8]>)
    ensures source { option_copied result.0 ≡ source_name pack.now.order
        (content pack.now.contents SectionKind.Str) object unit.now }
    ensures name { option_copied result.1 ≡ object_name pack.now.order
        (content pack.now.contents SectionKind.Str) object unit.now }
{
    match die_of(pack.order(), object, unit) {
        Some(die) => (
            string_of(pack, unit, attribute_named(die.attributes, DW_AT_NAME)),
            string_of(pack, unit, object_in(&die)),
        ),
        None => (None, None),
    }
}

/// The string of an attribute of a unit, where there is one.
#[tactic(auto, unfolding(crate::specs::Names::string_of, crate::specs::Names::numbered_string))]
fn string_of<'a>(
    pack: &PackageFile<'a>,
    unit: &PackagedUnit<'a>,
    attribute: Option<Attribute<SliceReader<'a>>>,
) -> Option<&'a [u8]>
    ensures { option_copied result ≡ option_and_then
        (string_of pack.now.order (content pack.now.contents SectionKind.Str) unit.now)
        (option_map (attribute_of ⟦<SliceReader<'a> as Reader>⟧.input) attribute.entry) }
{
    let attribute = attribute?;
    if attribute.form == DW_FORM_STRING {
        return short_string_at(attribute.value.slice(), 0);
    }
    let i = string_number(&attribute)?;
    let strings = pack.content(SectionKind::Str);
    let offsets = StringOffsets {
        strings,
        offsets: unit.section(SectionKind::StrOffsets),
        order: pack.order(),
        encoding: unit.encoding(),
    };
    let offset = offsets.entry(i)?;
    short_string_at(strings, offset)
}

/// The attribute that names the object.
fn object_in<R: Reader>(die: &RootEntry<R>) -> Option<Attribute<R>>
    ensures { option_map (attribute_of R.input) result ≡ object_in (entry_of R.input die.now) }
{
    match attribute_named(die.attributes, DW_AT_DWO_NAME) {
        Some(attribute) => Some(attribute),
        None => attribute_named(die.attributes, DW_AT_GNU_DWO_NAME),
    }
}

/// The first attribute of a name, before the first error.
fn attribute_named<R: Reader>(attributes: Attributes<R>, name: u64) -> Option<Attribute<R>>
    ensures { option_map (attribute_of R.input) result
        ≡ named name (attributes_left R.input attributes) }
{
    for attribute in attributes {
        let attribute = attribute.ok()?;
        if attribute.name == name {
            return Some(attribute);
        }
    }
    None
}

/// The header of a unit, as its own bytes have it.
pub fn header_of<'a>(
    unit: &PackagedUnit<'a>,
    object: DwarfObject,
    order: Endianness,
) -> Result<UnitHeader<SliceReader<'a>>, ReadError>
    ensures { option_map (unit_of ⟦<SliceReader<'a> as Reader>⟧.input) (result_ok result)
        ≡ header_in order object unit.now }
{
    let reader = SliceReader::new(unit.bytes(), order);
    let place = place_of(object, unit.range(SectionKind::Types));
    UnitHeaders::new(reader, place)
        .next()
        .ok_or(ReadError::UnexpectedEof)?
}

/// The unit DIE of a unit, where it can be read.
#[tactic(auto, unfolding(crate::specs::Names::die_of, crate::specs::Names::unit_die, crate::specs::Names::table_at))]
fn die_of<'a>(
    order: Endianness,
    object: DwarfObject,
    unit: &PackagedUnit<'a>,
) -> Option<RootEntry<SliceReader<'a>>>
    ensures { root_of ⟦<SliceReader<'a> as Reader>⟧.input result ≡ die_of order object unit.now }
{
    let header = header_of(unit, object, order).ok()?;
    let (code, values) = header.root_code().ok()??;
    let mut abbreviations = SliceReader::new(unit.section(SectionKind::Abbrev), order);
    abbreviations.skip(header.abbrev_offset() as usize).ok()?;
    let table = Abbreviations::new(beginning(abbreviations), 0).ok()?;
    let abbreviation = table.get(code).ok()??;
    Some(abbreviation.entry(header.encoding(), beginning(values)))
}

/// What is read at most.
#[tactic(auto, unfolding(dwp_bytes::specs::Input::truncate_at))]
fn beginning<R: Reader>(mut reader: R) -> R
    ensures { R.input result ≡ front spec.most_read (R.input reader) }
{
    match reader.truncate(MOST_READ) {
        Ok(()) => reader,
        Err(_) => reader,
    }
}

/// The number of an attribute's string among those of its unit.
#[tactic(auto, unfolding(crate::specs::Names::string_number))]
fn string_number<R: Reader>(attribute: &Attribute<R>) -> Option<u64>
    ensures { result ≡ string_number (attribute_of R.input attribute.now) }
{
    let mut value = attribute.value;
    let number = match attribute.form {
        DW_FORM_STRX | DW_FORM_GNU_STR_INDEX => value.read_uleb128().ok()?,
        DW_FORM_STRX1 => u64::from(value.read_u8().ok()?),
        DW_FORM_STRX2 => u64::from(value.read_u16().ok()?),
        DW_FORM_STRX3 => u64::from(value.read_u24().ok()?),
        DW_FORM_STRX4 => u64::from(value.read_u32().ok()?),
        _ => return None,
    };
    Some(number)
}

/// The string at an offset, where it is short enough for a name.
#[tactic(auto, unfolding(crate::specs::Names::short_string_at))]
fn short_string_at(strings: &[u8], offset: u64) -> Option<&[u8]>
    ensures { option_copied result ≡ short_string_at strings.now offset }
{
    let end = offset.saturating_add(MOST_NAMED).min(strings.len() as u64);
    string_at(&strings[..end as usize], offset).ok()
}
