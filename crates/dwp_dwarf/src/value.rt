//! The values of attributes, by their forms (DWARF 5, 7.5.5 and 7.5.6), and their strings (7.26).

ghost use Rattle.std.specs.Prelude.{◌*◌, ◌+◌, ◌≡◌};
ghost use Rattle.dwp_dwarf.specs.Forms.{block_length_at, layout_of, named_form_at, past_value};
ghost use Rattle.dwp_dwarf.specs.Forms.{text_at, value_at};
ghost use Rattle.dwp_base.specs.Reading.{Answers, Reads};
ghost use Rattle.dwp_bytes.specs.Encoding.{offset_size};
ghost use Rattle.dwp_dwarf.specs.{Attributes.attribute_of, Offsets.from_at, Sections.strings_of};
ghost use Rattle.dwp_dwarf.specs.Strings.{indexed_at, string_at, string_of};

use crate::abbrev::from_offset;
use crate::entry::Attribute;
use dwp_bytes::{Encoding, Format, ReadError, Reader};

/// How the value of a form is laid out.
#[derive(Clone, Copy)]
pub(crate) enum FormLayout {
    /// So many bytes.
    Fixed(u8),
    /// A length, and as many bytes.
    Block(BlockLength),
    /// Bytes up to a zero byte, and that.
    Text,
    /// An unsigned LEB128 number.
    Unsigned,
    /// A signed LEB128 number.
    Signed,
}

/// How the length of a block is written.
#[derive(Clone, Copy)]
pub(crate) enum BlockLength {
    One,
    Two,
    Four,
    /// As an unsigned LEB128 number.
    Leb,
}

/// Forms whose values are read (DWARF 5, 7.5.6; a GNU form of split DWARF).
pub(crate) const DATA2: u64 = 0x05;

pub(crate) const DATA4: u64 = 0x06;

pub(crate) const DATA8: u64 = 0x07;

pub(crate) const STRING: u64 = 0x08;

pub(crate) const DATA1: u64 = 0x0b;

pub const STRP: u64 = 0x0e;

pub(crate) const UDATA: u64 = 0x0f;

pub(crate) const INDIRECT: u64 = 0x16;

pub(crate) const SEC_OFFSET: u64 = 0x17;

pub(crate) const FLAG_PRESENT: u64 = 0x19;

pub const STRX: u64 = 0x1a;

pub const LINE_STRP: u64 = 0x1f;

pub(crate) const IMPLICIT_CONST: u64 = 0x21;

pub const STRX1: u64 = 0x25;

pub const STRX2: u64 = 0x26;

pub const STRX3: u64 = 0x27;

pub const STRX4: u64 = 0x28;

pub const GNU_STR_INDEX: u64 = 0x1f02;

/// How the value of a form is laid out (DWARF 5, 7.5.6; the GNU forms of split DWARF and of
/// supplementary files).
fn layout_of(form: u64, encoding: Encoding) -> Option<FormLayout>
    ensures { result ≡ layout_of encoding form }
{
    let offset = FormLayout::Fixed(encoding.format.offset_size() as u8);
    let address = FormLayout::Fixed(encoding.address_size);
    Some(match form {
        // flag_present, implicit_const
        0x19 | 0x21 => FormLayout::Fixed(0),
        // data1, flag, ref1, strx1, addrx1
        0x0b | 0x0c | 0x11 | 0x25 | 0x29 => FormLayout::Fixed(1),
        // data2, ref2, strx2, addrx2
        0x05 | 0x12 | 0x26 | 0x2a => FormLayout::Fixed(2),
        // strx3, addrx3
        0x27 | 0x2b => FormLayout::Fixed(3),
        // data4, ref4, ref_sup4, strx4, addrx4
        0x06 | 0x13 | 0x1c | 0x28 | 0x2c => FormLayout::Fixed(4),
        // data8, ref8, ref_sig8, ref_sup8
        0x07 | 0x14 | 0x20 | 0x24 => FormLayout::Fixed(8),
        // data16
        0x1e => FormLayout::Fixed(16),
        // addr, and ref_addr in version 2
        0x01 => address,
        0x10 if encoding.version == 2 => address,
        // ref_addr, strp, sec_offset, strp_sup, line_strp, GNU_ref_alt, GNU_strp_alt
        0x10 | 0x0e | 0x17 | 0x1d | 0x1f | 0x1f20 | 0x1f21 => offset,
        // block1, block2, block4
        0x0a => FormLayout::Block(BlockLength::One),
        0x03 => FormLayout::Block(BlockLength::Two),
        0x04 => FormLayout::Block(BlockLength::Four),
        // block, exprloc
        0x09 | 0x18 => FormLayout::Block(BlockLength::Leb),
        // string
        0x08 => FormLayout::Text,
        // sdata
        0x0d => FormLayout::Signed,
        // udata, ref_udata, strx, addrx, loclistx, rnglistx, GNU_addr_index, GNU_str_index
        0x0f | 0x15 | 0x1a | 0x1b | 0x22 | 0x23 | 0x1f01 | 0x1f02 => FormLayout::Unsigned,
        _ => return None,
    })
}

#[tactic(auto, unfolding(crate::specs::Forms::block_length_at))]
fn read_block_length<R: Reader>(reader: &mut R, length: BlockLength) -> Result<u64, ReadError>
    ensures { Reads (λ x. x) result (R.input reader.old) (R.input reader.new)
        (block_length_at length) }
{
    match length {
        BlockLength::One => Ok(u64::from(reader.read_u8()?)),
        BlockLength::Two => Ok(u64::from(reader.read_u16()?)),
        BlockLength::Four => Ok(u64::from(reader.read_u32()?)),
        BlockLength::Leb => reader.read_uleb128(),
    }
}

/// The bytes before the first zero byte; passes over that too.
#[tactic(auto, unfolding(crate::specs::Forms::text_at))]
pub(crate) fn read_text<R: Reader>(reader: &mut R) -> Result<R, ReadError>
    ensures { Reads R.input result (R.input reader.old) (R.input reader.new) text_at }
{
    let mut at = *reader;
    let length = at.find(0)?;
    let text = at.split(length)?;
    at.skip(1)?;
    *reader = at;
    Ok(text)
}

#[tactic(auto, unfolding(crate::specs::Forms::past_value))]
fn after_value<R: Reader>(mut at: R, layout: FormLayout) -> Result<R, ReadError>
    ensures { Answers R.input result (past_value layout (R.input at)) }
{
    match layout {
        FormLayout::Fixed(size) => at.skip(usize::from(size))?,
        FormLayout::Block(length) => {
            let size = read_block_length(&mut at, length)?;
            at.skip(size as usize)?;
        }
        FormLayout::Text => {
            read_text(&mut at)?;
        }
        FormLayout::Unsigned => {
            at.read_uleb128()?;
        }
        FormLayout::Signed => {
            at.read_sleb128()?;
        }
    }
    Ok(at)
}

#[tactic(auto, unfolding(crate::specs::Forms::value_at))]
pub(crate) fn read_value<R: Reader>(
    reader: &mut R,
    form: u64,
    encoding: Encoding,
) -> Result<R, ReadError>
    ensures { Reads R.input result (R.input reader.old) (R.input reader.new)
        (value_at encoding form) }
{
    let layout = layout_of(form, encoding).ok_or(ReadError::UnknownForm)?;
    let rest = after_value(*reader, layout)?;
    let mut start = *reader;
    let value = start.split(rest.offset_from(reader))?;
    *reader = rest;
    Ok(value)
}

/// The form that a value really has, and what comes behind its names.
#[tactic(auto, using(crate::proofs::Values::named_form_cases))]
pub(crate) fn named_form<R: Reader>(mut at: R, form: u64) -> Result<(u64, R), ReadError>
    ensures { Answers (λ x. (x.0, R.input x.1)) result (named_form_at form (R.input at)) }
{
    let mut named = form;
    while named == INDIRECT {
        named = at.read_uleb128()?;
        if named == IMPLICIT_CONST {
            return Err(ReadError::UnknownForm);
        }
    }
    Ok((named, at))
}

/// The sections that strings stand in, each from its start.
#[derive(Clone, Copy, Debug)]
pub struct StringSections<R> {
    /// `.debug_str` or `.debug_str.dwo`.
    pub debug_str: R,
    /// `.debug_line_str`.
    pub debug_line_str: R,
    /// `.debug_str_offsets` or `.debug_str_offsets.dwo`.
    pub debug_str_offsets: R,
}

/// The string at an offset, without the zero byte at its end.
#[tactic(auto, unfolding(crate::specs::Strings::string_at))]
fn string_at<R: Reader>(section: R, offset: u64) -> Result<R, ReadError>
    ensures { Answers R.input result (string_at (R.input section) offset) }
{
    let mut rest = from_offset(section, offset)?;
    read_text(&mut rest)
}

/// What stands from an entry of a table on. OffsetOutOfRange past the end.
#[tactic(auto, using(crate::proofs::Tables::past_end))]
fn from_entry<R: Reader>(table: R, format: Format, base: u64, index: u64) -> Result<R, ReadError>
    ensures { Answers R.input result (from_at (base + index * offset_size format) (R.input table)) }
{
    let len = table.len() as u64;
    let size = format.offset_size() as u64;
    let Some(distance) = index.checked_mul(size) else {
        return Err(ReadError::OffsetOutOfRange);
    };
    match base.checked_add(distance) {
        Some(place) if place <= len => from_offset(table, place),
        _ => Err(ReadError::OffsetOutOfRange),
    }
}

#[tactic(auto, unfolding(crate::specs::Strings::indexed_at))]
fn indexed_string<R: Reader>(
    sections: &StringSections<R>,
    format: Format,
    base: u64,
    index: u64,
) -> Result<R, ReadError>
    ensures { Answers R.input result
        (indexed_at (strings_of R.input sections.now) format base index) }
{
    let mut entry = from_entry(sections.debug_str_offsets, format, base, index)?;
    let offset = entry.read_offset(format)?;
    string_at(sections.debug_str, offset)
}

/// The string of an attribute, without a zero byte at its end. `base` is where the unit's entries
/// of `.debug_str_offsets` begin. Errors: `NotAString` for a form that is no string,
/// `OffsetOutOfRange` for an offset past its section, `NoTerminator` for a string without a zero
/// byte, `UnexpectedEof` for an entry past the end of its section.
#[tactic(auto, unfolding(crate::specs::Strings::string_of))]
pub fn attr_string<R: Reader>(
    sections: &StringSections<R>,
    format: Format,
    base: u64,
    attribute: &Attribute<R>,
) -> Result<R, ReadError>
    ensures { Answers R.input result (string_of (strings_of R.input sections.now) format base
        (attribute_of R.input attribute.now)) }
{
    let mut value = attribute.value;
    match attribute.form {
        STRING => read_text(&mut value),
        STRP => string_at(sections.debug_str, value.read_offset(format)?),
        LINE_STRP => string_at(sections.debug_line_str, value.read_offset(format)?),
        STRX | GNU_STR_INDEX => indexed_string(sections, format, base, value.read_uleb128()?),
        STRX1 => indexed_string(sections, format, base, u64::from(value.read_u8()?)),
        STRX2 => indexed_string(sections, format, base, u64::from(value.read_u16()?)),
        STRX3 => indexed_string(sections, format, base, u64::from(value.read_u24()?)),
        STRX4 => indexed_string(sections, format, base, u64::from(value.read_u32()?)),
        _ => Err(ReadError::NotAString),
    }
}
