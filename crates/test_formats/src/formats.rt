//! Calls of `dwp_base`, `dwp_bytes` and `dwp_table`.

use dwp_base::{ByKind, Contribution, ContributionOffset, Endianness, SectionKind};
use dwp_bytes::{Encoding, Format, ReadError, StringOffsets, WriteError, string_at};
use dwp_index::{Bucketable, DebugTypeSignature, DwarfObject, DwoId};
use dwp_table::{column_of, kind_of_column, slot_count};
use test_rows::{Row, Said, Text};

/// Makes the call of a row.
pub fn call(row: Row<'_>, said: &mut Said) {
    match row.word(0) {
        "contribution" => contribution(row, said),
        "stored" => stored(row.order(1), said),
        "bytes_of" => bytes_of(row.order(1), row.number(2), said),
        "of_name" => said.put(&SectionKind::of_name(row.word(1))),
        "short" => said.put(&short(row.word(1))),
        "by_kind" => by_kind(row.kind(1), row.number(2), said),
        "read_by_kind" => said.put(&read_by_kind(row.kind(1), row.kind(2))),
        "kind" => kind(row.kind(1), row, said),
        _ => call_of_bytes(row, said),
    }
}

fn call_of_bytes(row: Row<'_>, said: &mut Said) {
    match row.word(0) {
        "string_offsets" => string_offsets(row, said),
        "string_at" => said.put(&text_at(row.bytes(1), row.number(2))),
        "offsets" => offsets(row, said),
        "texts_of_bytes" => texts_of_bytes(said),
        _ => call_of_tables(row, said),
    }
}

fn call_of_tables(row: Row<'_>, said: &mut Said) {
    match row.word(0) {
        "identifier" => identifier(row.number(1), said),
        "columns" => said.put(&columns(row.kind(1))),
        "kind_of_column" => said.put(&kind_of_column(row.half(1), row.small(2))),
        "slot_count" => said.put(&slot_count(u32::from(row.half(1)))),
        _ => crate::index::call(row, said),
    }
}

/// A contribution of an offset and a size, behind its offset.
fn contribution(row: Row<'_>, said: &mut Said) {
    let offset = ContributionOffset(row.number(1));
    let size = row.number(2);
    said.put(&(offset, Contribution { offset, size }));
}

/// The numbers of 2, 4 and 8 bytes that begin the bytes 1 to 8.
fn stored(order: Endianness, said: &mut Said) {
    let bytes = [1, 2, 3, 4, 5, 6, 7, 8];
    said.put(&(
        order.read_u16(&bytes),
        order.read_u32(&bytes),
        order.read_u64(&bytes),
    ));
}

/// The 2, 4 and 8 bytes of a number's low end.
fn bytes_of(order: Endianness, number: u64, said: &mut Said) {
    said.put(&(
        order.bytes_of_u16((number & 0xffff) as u16),
        order.bytes_of_u32((number & 0xffff_ffff) as u32),
        order.bytes_of_u64(number),
    ));
}

/// A kind's rank and its two names, whether it is called so, and whether it is another kind.
fn kind(kind: SectionKind, row: Row<'_>, said: &mut Said) {
    said.put(&(
        kind.rank(),
        kind.name(),
        kind.compressed_name(),
        kind.is_named(row.word(2)),
        kind.is(row.kind(3)),
    ));
}

/// The kind of a short name, and that name again.
fn short(name: &str) -> Option<(SectionKind, &'static str)> {
    let kind = SectionKind::of_short_name(name)?;
    Some((kind, kind.short_name()))
}

/// Where a kind's value is put in the place of 1: that value, and the last kind's.
fn by_kind(kind: SectionKind, value: u64, said: &mut Said) {
    let mut values = ByKind::same(1);
    values.set(kind, value);
    said.put(&(values.get(kind), values.get(SectionKind::TuIndex)));
}

/// Where ranks are read, but none from one kind on unless it is the wanted one: the rank that was
/// read for the wanted kind.
fn read_by_kind(unread: SectionKind, wanted: SectionKind) -> Result<u8, SectionKind> {
    let end = if unread.is(wanted) {
        255
    } else {
        unread.rank()
    };
    let read = |kind: SectionKind| {
        if kind.rank() < end {
            Ok(kind.rank())
        } else {
            Err(kind)
        }
    };
    match ByKind::read(0, read) {
        Ok(ranks) => Ok(ranks.get(wanted)),
        Err(kind) => Err(kind),
    }
}

/// Of an encoding, its version and `narrow` or `wide`: whether it is GNU's, and of string offsets
/// of so many bytes the size of the header, and how many there are.
fn string_offsets(row: Row<'_>, said: &mut Said) {
    let encoding = Encoding {
        version: row.half(1),
        format: row.format(2),
        address_size: 8,
    };
    said.put(&(
        encoding.is_gnu_extension_dwarf_package_format(),
        encoding.string_offsets_header_size(),
        encoding.string_offsets_count(row.number(3)),
    ));
}

fn text_at(section: &[u8], offset: u64) -> Result<Text<'_>, ReadError> {
    Ok(Text(string_at(section, offset)?))
}

/// By a byte order, a version and `narrow` or `wide`, of strings and string offsets: how many
/// offsets there are, and the one of a number with its string.
fn offsets(row: Row<'_>, said: &mut Said) {
    let offsets = StringOffsets {
        strings: row.bytes(4),
        offsets: row.bytes(5),
        order: row.order(1),
        encoding: Encoding {
            version: row.half(2),
            format: row.format(3),
            address_size: 8,
        },
    };
    said.put(&(offsets.count(), offsets.entry(row.number(6))));
    match offsets.string(row.number(6)) {
        Ok(string) => said.ok(&string.map(Text)),
        Err(error) => said.err(&error),
    }
}

fn texts_of_bytes(said: &mut Said) {
    for error in [
        ReadError::UnexpectedEof,
        ReadError::ReservedLength,
        ReadError::UnknownVersion,
        ReadError::UnknownUnitType,
        ReadError::AddressSize,
        ReadError::BigLeb,
        ReadError::UnknownForm,
        ReadError::ZeroTag,
        ReadError::BadChildren,
        ReadError::UnknownCode,
        ReadError::OffsetOutOfRange,
        ReadError::NoTerminator,
        ReadError::BadUtf8,
        ReadError::IndexVersion,
        ReadError::SlotCount,
        ReadError::UnknownColumn,
        ReadError::RepeatedColumn,
        ReadError::RowOutOfRange,
        ReadError::NotAString,
    ] {
        said.error(&error);
    }
    said.error(&WriteError::ValueTooLarge);
}

/// The two names that a number may be, what of each is sought in an index, and whether they are the
/// same unit.
fn identifier(number: u64, said: &mut Said) {
    let (id, signature) = (DwoId(number), DebugTypeSignature(number));
    let unit = DwarfObject::Compilation(id);
    let is_same = unit == DwarfObject::TypeUnit(signature);
    said.put(&(
        id,
        id.index(),
        signature,
        signature.index(),
        unit.index(),
        is_same,
    ));
}

/// A kind's column in GNU's indexes and in those of DWARF 5.
fn columns(kind: SectionKind) -> [(Option<u32>, Option<SectionKind>); 2] {
    [column(2, kind), column(5, kind)]
}

/// A kind's column in a version, and the kind that has that column.
fn column(version: u16, kind: SectionKind) -> (Option<u32>, Option<SectionKind>) {
    match column_of(version, kind) {
        Some(column) => (Some(column), kind_of_column(version, column)),
        None => (None, None),
    }
}
