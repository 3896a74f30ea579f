//! Calls of the readers of `dwp_bytes`: numbers of each size and order, relocated or not.

ghost use Rattle.dwp_bytes.specs.Relocation.{ascends};
ghost use Rattle.std.specs.Prelude.{IsTrue};

use crate::dwarf::{first_told, section};
use Endianness::Little;
use dwp_base::Endianness;
use dwp_bytes::{Format, ReadError, Reader, Relocate, Relocation, RelocationEntry, SliceReader};
use test_rows::{Row, Said, Text, number, split};

/// String offsets, which begin at 4; half of one at the end.
const OFFSETS: &[u8] = b"\xff\xff\xff\xff\x02\0\0\0\0\0\0\0\x06\0\0\0\x07\0\0\0\x05\0";

/// Makes the call of a row. All readers are made here, since one place that makes them costs least.
pub fn call(row: Row<'_>, said: &mut Said) {
    let words = [
        reader(row, 1),
        reader(row, 2),
        reader(row, 3),
        reader(row, 4),
        reader(row, 5),
    ];
    let strings = [slice(b"a\0bc\0d"), slice(b"x\0"), slice(OFFSETS)];
    of_readers(&words, &strings, row, said);
}

/// A reader of bytes, with the lowest byte of a number first.
pub fn slice(bytes: &[u8]) -> SliceReader<'_> {
    SliceReader::new(bytes, Little)
}

/// A reader of the bytes of a word, in the byte order that word 1 or word 2 names.
fn reader(row: Row<'_>, place: usize) -> SliceReader<'_> {
    let order = match row.order(1) {
        Endianness::Big => Endianness::Big,
        Endianness::Little => row.order(2),
    };
    SliceReader::new(row.bytes(place), order)
}

/// Takes the steps of a row with a reader of the words 1 to 5, or reads units of them; the strings
/// are always the same.
fn of_readers<R: Reader>(words: &[R; 5], strings: &[R; 3], row: Row<'_>, said: &mut Said) {
    match row.word(0) {
        "read" => steps(words[1], 0, row.rest(3), said),
        "relocated" => relocated(&TWO, words[0], words[1], row, said),
        "relocated_twice" => twice(words[0], row, said),
        _ => crate::dwarf::call(words, strings, row, said),
    }
}

/// Takes steps with a reader one after the other, behind the next so many bytes.
fn steps<R: Reader>(mut at: R, skipped: usize, calls: &[&str], said: &mut Said) {
    let _done = at.skip(skipped);
    let base = at;
    for call in calls {
        take_step(&mut at, &base, call, said);
    }
}

/// Takes a step: a call and behind a colon its argument.
fn take_step<R: Reader>(at: &mut R, base: &R, call: &str, said: &mut Said) {
    let (call, argument) = split(call, ":");
    let argument = (number(argument) & 0xff) as u8;
    match number_read(at, call, argument) {
        Some(number) => said.put(&number),
        None => step(at, base, call, argument, said),
    }
}

/// A number that is read, by its kind and its size.
fn number_read<R: Reader>(at: &mut R, call: &str, size: u8) -> Option<Result<u64, ReadError>> {
    match call {
        "u64" => Some(at.read_u64()),
        "uleb" => Some(at.read_uleb128()),
        "address" => Some(at.read_address(size)),
        "sized_offset" => Some(at.read_sized_offset(size)),
        "length" => Some(at.read_length(Format::Dwarf32)),
        "offset" => Some(at.read_offset(Format::Dwarf32)),
        "wide_offset" => Some(at.read_offset(Format::Dwarf64)),
        _ => None,
    }
}

/// What else is done to a reader, and what it answers; `base` stands at the section's beginning.
fn step<R: Reader>(at: &mut R, base: &R, call: &str, argument: u8, said: &mut Said) {
    match call {
        "u8" => said.put(&at.read_u8()),
        "u16" => said.put(&at.read_u16()),
        "u24" => said.put(&at.read_u24()),
        "u32" => said.put(&at.read_u32()),
        "sleb" => said.put(&at.read_sleb128()),
        "piece" => said.put(&take_piece(at, usize::from(argument))),
        "skip" => said.put(&at.skip(usize::from(argument))),
        "truncate" => said.put(&at.truncate(usize::from(argument))),
        _ => ask(at, base, call, argument, said),
    }
}

/// What a reader has left.
fn ask<R: Reader>(at: &mut R, base: &R, call: &str, byte: u8, said: &mut Said) {
    match call {
        "find" => said.put(&at.find(byte)),
        "from_start" => said.put(&at.offset_from(base)),
        "endian" => said.put(&at.endian()),
        "fill" => said.put(&filled(at)),
        "text" => said.put(&at.to_string()),
        "bytes" => said.put(&Text(at.to_slice())),
        "len" => said.put(&(at.len(), at.is_empty())),
        _ => {
            at.empty();
            said.word("empty");
        }
    }
}

/// Goes on in the next so many bytes.
fn take_piece<R: Reader>(at: &mut R, size: usize) -> Result<(), ReadError> {
    *at = at.split(size)?;
    Ok(())
}

/// Two bytes.
fn filled<R: Reader>(at: &mut R) -> Result<[u8; 2], ReadError> {
    let mut buffer = [0, 0];
    at.read_slice(&mut buffer)?;
    Ok(buffer)
}

/// To 0x1100 itself at 0, and by 0x1000 beside what is stored at 8.
static TWO: [RelocationEntry; 2] = [
    RelocationEntry {
        offset: 0,
        relocation: Relocation {
            addend: 0x1100,
            implicit_addend: false,
        },
    },
    RelocationEntry {
        offset: 8,
        relocation: Relocation {
            addend: 0x1000,
            implicit_addend: true,
        },
    },
];

/// By 1 beside what is stored at 8.
static AGAIN: [RelocationEntry; 1] = [RelocationEntry {
    offset: 8,
    relocation: Relocation {
        addend: 1,
        implicit_addend: true,
    },
}];

/// Takes the steps of a row with a reader of relocations, or tells its first unit and the root of
/// that.
pub fn relocated<R: Reader>(
    relocations: &[RelocationEntry],
    section: R,
    abbreviations: R,
    row: Row<'_>,
    said: &mut Said,
)
    requires { IsTrue (ascends relocations.now) }
{
    of_relocated(
        Relocate::new(relocations, section),
        Relocate::new(&[], abbreviations),
        row,
        said,
    );
}

fn of_relocated<R: Reader>(at: R, abbreviations: R, row: Row<'_>, said: &mut Said) {
    match row.word(0) {
        "relocated" => steps(at, 0, row.rest(2), said),
        "relocated_twice" => steps(at, 8, row.rest(2), said),
        _ => said.put(&first_told(at, abbreviations, section(row))),
    }
}

/// Relocated twice: to 0x1100 itself at 0, and by 0x1000 beside what is stored at 8, and by 1
/// beside what was read so at 8. The reader stands there.
fn twice<R: Reader>(section: R, row: Row<'_>, said: &mut Said) {
    relocated(
        &AGAIN,
        Relocate::new(&TWO, section),
        Relocate::new(&[], section),
        row,
        said,
    );
}
