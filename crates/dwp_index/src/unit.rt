//! Units of a package, with all that belongs to each (DWARF 5, 7.3.5).

ghost use Rattle.dwp_index.specs.Package.{encoding_in, lies_inside, part_of, place_of, row_bytes};
ghost use Rattle.std.specs.{Option.option_copied, Prelude.◌≡◌};
ghost use Rattle.dwp_base.specs.Reading.{Answers};
ghost use Rattle.dwp_bytes.specs.StringOffsets.{string_in};
ghost use Rattle.dwp_index.specs.{Contents.content, Index.range_in, Package.kind_of};

use crate::contents::Contents;
use crate::unit_index::Row;
use dwp_base::{Contribution, Endianness, SectionKind};
use dwp_bytes::{Encoding, Format, ReadError, SliceReader, StringOffsets};
use dwp_table::DwarfObject;
use dwp_units::{UnitHeaders, UnitSection};
use std::marker::Model;

/// A unit of a package, with its ranges.
#[derive(Drop)]
pub struct PackagedUnit<'a> {
    pub(crate) order: Endianness,
    pub(crate) contents: Contents<'a>,
    pub(crate) number: u32,
    pub(crate) row: Row<'a>,
    pub(crate) bytes: &'a [u8],
    pub(crate) encoding: Encoding,
}

impl<'a> Model for PackagedUnit<'a> {
    ghost use Rattle.dwp_index.specs.Package.{FoundUnit};

    ghost Value = { FoundUnit };

    ghost use Rattle.dwp_index.specs.UnitFields.{unit_in_fields};

    ghost view = { unit_in_fields };
}

impl<'a> PackagedUnit<'a> {
    /// The unit's own bytes: its range in types for a type unit that has one there, else in info.
    pub fn bytes(&self) -> &'a [u8]
        ensures { result.now ≡ self.now.bytes }
    {
        self.bytes
    }

    /// The unit's row in the index of its kind, counted from 1.
    pub fn row(&self) -> u32
        ensures { result ≡ self.now.number }
    {
        self.number
    }

    /// The encoding in the unit's header.
    pub fn encoding(&self) -> Encoding
        ensures { result ≡ self.now.encoding }
    {
        self.encoding
    }

    /// The unit's row, which has its ranges.
    pub fn ranges(&self) -> &Row<'a>
        ensures { result.now ≡ self.now.row }
    {
        &self.row
    }

    /// The unit's range in a section; None where it has none, or one of no bytes.
    pub fn range(&self, kind: SectionKind) -> Option<Contribution>
        ensures { result ≡ range_in self.now.row kind }
    {
        self.row.range(kind)
    }

    /// The bytes of the unit's range in a section; none where it has no range.
    #[tactic(auto, unfolding(crate::specs::Package::row_bytes))]
    pub fn section(&self, kind: SectionKind) -> &'a [u8]
        ensures { result.now ≡ row_bytes self.now.contents self.now.row kind }
    {
        part_of(self.contents.of(kind), self.row.range(kind))
    }

    /// The string of a number, by the unit's own encoding; None past the last whole entry of its
    /// string offsets. Errors: `OffsetOutOfRange` for an offset past the strings, `NoTerminator`
    /// where no zero byte ends the string.
    pub fn string(&self, i: u64) -> Result<Option<&'a [u8]>, ReadError>
        ensures { Answers option_copied result
            (string_in self.now.order self.now.encoding (content self.now.contents SectionKind.Str)
            (row_bytes self.now.contents self.now.row SectionKind.StrOffsets) i) }
    {
        StringOffsets {
            strings: self.contents.of(SectionKind::Str),
            offsets: self.section(SectionKind::StrOffsets),
            order: self.order,
            encoding: self.encoding,
        }
        .string(i)
    }
}

/// The bytes of a contribution to a section; none where it is absent, or isn't inside the section.
#[inline(always)]
pub fn part_of<'a>(bytes: &'a [u8], range: Option<Contribution>) -> &'a [u8]
    ensures { result.now ≡ part_of bytes.now range }
{
    match range {
        Some(range) if lies_inside(bytes, range) => {
            let start = range.offset.0 as usize;
            &bytes[start..start + range.size as usize]
        }
        _ => &[],
    }
}

/// Whether a contribution lies inside a section of these bytes.
#[inline(always)]
pub fn lies_inside(bytes: &[u8], range: Contribution) -> bool
    ensures { result ≡ lies_inside bytes.now range }
{
    let len = bytes.len() as u64;
    range.offset.0 <= len && range.size <= len - range.offset.0
}

/// The section that a unit's own bytes stand in: types for a type unit that has a range there.
#[inline(always)]
pub fn place_of(object: DwarfObject, range: Option<Contribution>) -> UnitSection
    ensures { result ≡ place_of object range }
{
    match (object, range) {
        (DwarfObject::TypeUnit(_), Some(_)) => UnitSection::Types,
        _ => UnitSection::Info,
    }
}

/// The kind of section that units of a place stand in.
#[inline(always)]
pub fn kind_of(place: UnitSection) -> SectionKind
    ensures { result ≡ kind_of place }
{
    match place {
        UnitSection::Info => SectionKind::Info,
        UnitSection::Types => SectionKind::Types,
    }
}

/// The encoding in the header of the unit that the bytes begin with (DWARF 5, 7.5.1). Errors: that
/// of the header where it can't be read, `UnexpectedEof` where there are no bytes.
#[inline(always)]
pub fn encoding_in(
    bytes: &[u8],
    order: Endianness,
    place: UnitSection,
) -> Result<Encoding, ReadError>
    ensures { Answers (λ x. x) result (encoding_in order place bytes.now) }
{
    if bytes.len() >= 20 {
        let length = order.read_u32(bytes);
        if length >= 16 && length < 0xfffffff0 && bytes.len() as u64 - 4 >= u64::from(length) {
            let body = &bytes[4..4 + length as usize];
            // A split compilation unit of version 5, in the 32-bit format, whose addresses have 8
            // bytes: look-ups find these most often.
            if order.read_u16(body) == 5 && body[2] == 5 && body[3] == 8 {
                return Ok(Encoding {
                    version: 5,
                    format: Format::Dwarf32,
                    address_size: 8,
                });
            }
        }
    }
    any_encoding(bytes, order, place)
}

/// The encoding of a unit of any form.
#[tactic(auto, using(crate::proofs::UnitBytes::encoding_first))]
#[inline(never)]
fn any_encoding(bytes: &[u8], order: Endianness, place: UnitSection) -> Result<Encoding, ReadError>
    ensures { Answers (λ x. x) result (encoding_in order place bytes.now) }
{
    match UnitHeaders::new(SliceReader::new(bytes, order), place).next() {
        None => Err(ReadError::UnexpectedEof),
        Some(Err(e)) => Err(e),
        Some(Ok(header)) => Ok(header.encoding()),
    }
}
