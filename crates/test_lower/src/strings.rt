//! Calls of `thorin_strings`: tables of strings, and string offsets that are rewritten.

ghost use Rattle.thorin_strings.specs.Known.{AreKnown};

use Endianness::Little;
use dwp_base::Endianness;
use dwp_bytes::{Encoding, string_at};
use test_rows::{Row, Said, Text, encoding, number, order, split};
use thorin_errors::Error;
use thorin_strings::{PackageStringOffset, PackageStringTable, Repeats, StringOffsets};

/// Makes the call of a row.
pub fn call(row: Row<'_>, said: &mut Said) {
    match row.word(0) {
        "table" | "short_strings" | "crowded" | "in_order" => with_table(row, said),
        "remapped_thrice" => remapped_thrice(row, said),
        "refused_range" => refused_range(row, said),
        _ => crate::packaged::call(row, said),
    }
}

/// Makes the call of a row with a new table, and says the table's data at the end where the call
/// tells that they are asked for.
fn with_table(row: Row<'_>, said: &mut Said) {
    let mut table = PackageStringTable::new(row.alloc);
    let is_asked = of_table(&mut table, row, said);
    let data = table.finish();
    if is_asked {
        said.put(&Text(&data));
    }
}

/// What is done to a new table; whether its data are asked for then.
fn of_table(table: &mut PackageStringTable, row: Row<'_>, said: &mut Said) -> bool {
    match row.word(0) {
        "table" => steps(table, row, said),
        "short_strings" => short_strings(table, row, said),
        "crowded" => crowded(table, row, said),
        "in_order" => in_order(table, row, said),
        _ => put_alone(table, row.bytes(1), row.bytes(2), said),
    }
}

/// Steps, which the table takes; and its data at the end.
fn steps(table: &mut PackageStringTable, row: Row<'_>, said: &mut Said) -> bool {
    for word in row.rest(1) {
        step(table, row, word, said);
    }
    true
}

/// What is done to a table, and what it answers.
fn step(table: &mut PackageStringTable, row: Row<'_>, word: &str, said: &mut Said) {
    let (call, argument) = split(word, ":");
    if call == "remap" {
        remap(table, row, argument, said);
    } else {
        let bytes = said.bytes_of(row.alloc, argument);
        ask(table, call, &bytes, said);
    }
}

fn ask(table: &mut PackageStringTable, call: &str, bytes: &[u8], said: &mut Said) {
    match call {
        "insert" => put_offset(inserted(table, bytes), said),
        "find" => put_found(table, bytes, said),
        "data" => said.put(&Text(table.data())),
        _ => said.put(&(table.len(), table.is_empty())),
    }
}

/// Rewrites the range of a word: an encoding, a byte order, their size, strings and offsets, with a
/// colon between.
fn remap(table: &mut PackageStringTable, row: Row<'_>, argument: &str, said: &mut Said) {
    let (format, rest) = split(argument, ":");
    let (endian, rest) = split(rest, ":");
    let (size, rest) = split(rest, ":");
    let (strings, offsets) = split(rest, ":");
    let as_written = (number(size), order(endian), encoding(format));
    let strings = said.bytes_of(row.alloc, strings);
    let offsets = said.bytes_of(row.alloc, offsets);
    put_remapped(table, &strings, &offsets, as_written, said);
}

fn put_remapped(
    table: &mut PackageStringTable,
    strings: &[u8],
    offsets: &[u8],
    (size, endian, encoding): (u64, Endianness, Encoding),
    said: &mut Said,
) {
    said.bytes(&table.remap_str_offsets_section(strings, offsets, size, endian, encoding));
}

/// The offset of the string before a zero byte.
fn inserted(table: &mut PackageStringTable, bytes: &[u8]) -> Result<PackageStringOffset, Error> {
    match string_at(bytes, 0) {
        Ok(string) => table.get_or_insert(string),
        Err(error) => Err(Error::from(error)),
    }
}

fn put_offset(offset: Result<PackageStringOffset, Error>, said: &mut Said) {
    match offset {
        Ok(offset) => said.ok(&offset.0),
        Err(error) => said.err(&error),
    }
}

/// Where a string is, and whether no more strings were looked at than their number has binary
/// digits.
fn put_found(table: &PackageStringTable, string: &[u8], said: &mut Said) {
    let (found, count) = table.find_counted(string);
    let zeros = (table.len() as u64).leading_zeros();
    said.put(&(found, count <= 64u32.saturating_sub(zeros)));
}

/// Rewrites one of several ranges of GNU that name strings of one section.
fn again(
    table: &mut PackageStringTable,
    repeats: &mut Repeats,
    section: &[u8],
    offsets: &[u8],
) -> Result<Vec<u8>, Error>
    requires { AreKnown section.now table.old repeats.old }
    ensures { AreKnown section.now table.new repeats.new }
{
    let range = StringOffsets {
        strings: section,
        offsets,
        order: Little,
        encoding: encoding("gnu"),
    };
    table.remap_repeating(repeats, &range, offsets.len() as u64)
}

/// Rewrites a range by what is remembered, and says what comes of it.
fn put_again(
    table: &mut PackageStringTable,
    repeats: &mut Repeats,
    section: &[u8],
    offsets: &[u8],
    said: &mut Said,
)
    requires { AreKnown section.now table.old repeats.old }
    ensures { AreKnown section.now table.new repeats.new }
{
    let range = again(table, repeats, section, offsets);
    said.bytes(&range);
}

/// Such a range alone.
fn alone(table: &mut PackageStringTable, section: &[u8], offsets: &[u8]) -> Result<Vec<u8>, Error> {
    let size = offsets.len() as u64;
    table.remap_str_offsets_section(section, offsets, size, Little, encoding("gnu"))
}

/// How many bytes there are, and the sum of them that FNV-1a gives , of 64 bits.
fn sum_of(bytes: &[u8]) -> (usize, u64) {
    let mut sum: u64 = 0xcbf2_9ce4_8422_2325;
    for byte in bytes {
        sum = (sum ^ u64::from(*byte)).wrapping_mul(0x100_0000_01b3);
    }
    (bytes.len(), sum)
}

fn put_sum(range: &Result<Vec<u8>, Error>, said: &mut Said) {
    match range {
        Ok(range) => said.put(&sum_of(range)),
        Err(error) => said.put(error),
    }
}

/// How many strings a table has, and the sum of its data.
fn put_data(table: &PackageStringTable, said: &mut Said) {
    said.put(&(table.len(), sum_of(table.data())));
}

/// A section and offsets: the sums of the offsets and of the strings, in a table of its own, and of
/// another table twice with what is remembered of the section.
fn remapped_thrice(row: Row<'_>, said: &mut Said) {
    with_table(row, said);
    with_repeats(row, row.bytes(1), said);
}

fn put_alone(
    table: &mut PackageStringTable,
    section: &[u8],
    offsets: &[u8],
    said: &mut Said,
) -> bool {
    put_sum(&alone(table, section, offsets), said);
    put_data(table, said);
    false
}

/// Rewrites the ranges of a row, by a section, with a new table and with what is remembered of the
/// section.
fn with_repeats(row: Row<'_>, section: &[u8], said: &mut Said) {
    let mut repeats = Repeats::new(row.alloc);
    let mut table = PackageStringTable::new(row.alloc);
    put_ranges(&mut table, &mut repeats, section, row, said);
}

fn put_ranges(
    table: &mut PackageStringTable,
    repeats: &mut Repeats,
    section: &[u8],
    row: Row<'_>,
    said: &mut Said,
)
    requires { AreKnown section.now table.old repeats.old }
{
    match row.word(0) {
        "refused_range" => put_both(table, repeats, section, row, said),
        _ => put_twice(table, repeats, section, row.bytes(2), said),
    }
}

fn put_twice(
    table: &mut PackageStringTable,
    repeats: &mut Repeats,
    section: &[u8],
    offsets: &[u8],
    said: &mut Said,
)
    requires { AreKnown section.now table.old repeats.old }
{
    put_sum_again(table, repeats, section, offsets, said);
    put_sum_again(table, repeats, section, offsets, said);
    put_data(table, said);
}

fn put_sum_again(
    table: &mut PackageStringTable,
    repeats: &mut Repeats,
    section: &[u8],
    offsets: &[u8],
    said: &mut Said,
)
    requires { AreKnown section.now table.old repeats.old }
    ensures { AreKnown section.now table.new repeats.new }
{
    let range = again(table, repeats, section, offsets);
    put_sum(&range, said);
}

/// A string that is there, a section, and four ranges of offsets, which are rewritten one after the
/// other, with what is remembered of the section's short strings; and the data behind them.
fn short_strings(table: &mut PackageStringTable, row: Row<'_>, said: &mut Said) -> bool {
    said.note_that(inserted(table, row.bytes(1)).is_ok());
    put_short(table, row, said);
    true
}

fn put_short(table: &mut PackageStringTable, row: Row<'_>, said: &mut Said) {
    let section = row.bytes(2);
    let mut repeats = Repeats::of_ranges(row.alloc, section);
    put_again(table, &mut repeats, section, row.bytes(3), said);
    put_again(table, &mut repeats, section, row.bytes(4), said);
    put_again(table, &mut repeats, section, row.bytes(5), said);
    put_again(table, &mut repeats, section, row.bytes(6), said);
}

/// How many bytes `x` the section's one string has, a range that is refused, and a good one once
/// the table has another string: both, whether the table is empty after the first, and how many
/// strings it has.
fn refused_range(row: Row<'_>, said: &mut Said) {
    let size = usize::from(row.half(1));
    let mut section = said.made(Vec::from_elem(row.alloc, b'x', size), Vec::new(row.alloc));
    said.extend(&mut section, b"\0");
    with_repeats(row, &section, said);
}

fn put_both(
    table: &mut PackageStringTable,
    repeats: &mut Repeats,
    section: &[u8],
    row: Row<'_>,
    said: &mut Said,
)
    requires { AreKnown section.now table.old repeats.old }
{
    put_again(table, repeats, section, row.bytes(2), said);
    let is_empty = table.is_empty();
    repeats.clear();
    said.note_that(table.get_or_insert(b"kept").is_ok());
    put_again(table, repeats, section, row.bytes(3), said);
    said.put(&(is_empty, table.len()));
}

/// Whether a range comes out as it went in, and the data are the section.
fn is_kept(table: &mut PackageStringTable, section: &[u8], offsets: &[u8]) -> bool {
    match alone(table, section, offsets) {
        Ok(range) => range.as_slice() == offsets && table.data() == section,
        Err(_) => false,
    }
}

/// A section of strings, the offsets of each, twice, one of the strings, another, and that with a
/// zero byte: used again in another range, they are found all the same, and the other is not.
fn crowded(table: &mut PackageStringTable, row: Row<'_>, said: &mut Said) -> bool {
    let section = row.bytes(1);
    let first = is_kept(table, section, row.bytes(2));
    let second = is_kept(table, section, row.bytes(2));
    said.put(&(section.len(), first, second, table.len()));
    put_found(table, row.bytes(3), said);
    put_found(table, row.bytes(4), said);
    put_offset(inserted(table, row.bytes(5)), said);
    false
}

/// Strings, their offsets, and another string: whether more than one of the strings is compared
/// with that, as where they are looked for in their order, and no more than eight.
fn in_order(table: &mut PackageStringTable, row: Row<'_>, said: &mut Said) -> bool {
    said.note_that(alone(table, row.bytes(1), row.bytes(2)).is_ok());
    let (_found, count) = table.find_counted(row.bytes(3));
    said.put(&(count > 1, count <= 8));
    false
}
