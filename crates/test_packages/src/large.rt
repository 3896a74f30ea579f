//! Packages of many objects and of many strings.

use crate::packing::{Job, Made, make};
use crate::reading::found;
use std::alloc::Global;
use test_rows::{Said, Table, part, place};
use thorin::{DwarfObject, DwoId, Endianness, Input};

/// `many FILE OBJECT FROM TO COUNT`: packs that many objects, at once and each in a group of its
/// own. They are copies of one whose unit stands at a place and ends with its identifier of 8
/// bytes, which are 1, 2 and so on.
pub fn many<'n>(alloc: Global, table: &mut Table<'n>, words: &[&'n str], said: &mut Said) {
    if let [file, object, from, to, count] = words {
        let unit = (place(from), place(to));
        let bytes = packed_often(alloc, table.get(object, said), unit, place(count), said);
        table.keep(file, bytes, said);
    }
}

/// The package of so many copies of an object whose unit stands between two places.
fn packed_often(
    alloc: Global,
    object: &[u8],
    unit: (usize, usize),
    count: usize,
    said: &mut Said,
) -> Vec<u8> {
    let copies = copies(alloc, object, unit.1, count, said);
    let mut inputs = Vec::new(alloc);
    let mut starts = Vec::new(alloc);
    for number in 0..count {
        let from = number.saturating_mul(object.len());
        let copy = part(&copies, from, from.saturating_add(object.len()));
        said.note_that(inputs.push(Input::Bytes(copy)).is_ok() && starts.push(number).is_ok());
    }
    let files = Table::new(alloc);
    tell_packed(alloc, &files, unit, &inputs, &starts, said)
}

/// The package of inputs, which are also packed each in a group of its own.
fn tell_packed(
    alloc: Global,
    files: &Table<'_>,
    unit: (usize, usize),
    inputs: &[Input<'_>],
    starts: &[usize],
    said: &mut Said,
) -> Vec<u8> {
    let job = Job::new(alloc, files, "pack", inputs, starts);
    let made = make(job, said);
    said.number("", made.taken.len() as u64);
    said.number(" accepted, ", made.file.len() as u64);
    said.add(" bytes\n");
    tell_found(&made.file, inputs, unit, said);
    tell_grouped(job, &made, said);
    made.file
}

/// Tells whether packing each copy in a group of its own gives the file.
fn tell_grouped(mut job: Job<'_>, made: &Made, said: &mut Said) {
    job.how = "groups";
    let grouped = make(job, said);
    said.add("groups ");
    said.debug(&grouped.is_file_of(made));
    said.add("\n");
}

/// The copies of an object whose identifiers, from 1 on, end at a place, one behind another.
fn copies(alloc: Global, object: &[u8], behind: usize, count: usize, said: &mut Said) -> Vec<u8> {
    let mut copies = Vec::new(alloc);
    for number in 1..count.saturating_add(1) {
        let id = Endianness::Little.bytes_of_u64(number as u64);
        said.extend(&mut copies, part(object, 0, behind.saturating_sub(8)));
        said.extend(&mut copies, &id);
        said.extend(&mut copies, part(object, behind, object.len()));
    }
    copies
}

/// Tells how many of these objects have their units in the file, each of its own bytes and in the
/// slot that is looked at first.
fn tell_found(file: &[u8], inputs: &[Input<'_>], unit: (usize, usize), said: &mut Said) {
    let mut count: u64 = 0;
    for i in 0..inputs.len() {
        let Input::Bytes(copy) = inputs[i] else {
            return
        };
        let name = DwarfObject::Compilation(DwoId((i as u64).saturating_add(1)));
        if let Ok((Some(found), 1)) = found(file, name) {
            if found.bytes() == part(copy, unit.0, unit.1) {
                count = count.saturating_add(1);
            }
        }
    }
    said.number("", count);
    said.add(" found in the first slot\n");
}

/// `numbers STRINGS OFFSETS COUNT`: names the strings `0`, `1` and so on, and their offsets.
pub fn numbers<'n>(alloc: Global, table: &mut Table<'n>, words: &[&'n str], said: &mut Said) {
    if let [strings_name, offsets_name, count] = words {
        let mut strings = Said::new(alloc);
        let mut offsets = Vec::new(alloc);
        for number in 0..place(count) {
            let offset = strings.as_str().len() as u64;
            let offset = Endianness::Little.bytes_of_u64(offset);
            said.extend(&mut offsets, part(&offset, 0, 4));
            strings.number("", number as u64);
            strings.add("\0");
        }
        table.keep(offsets_name, offsets, said);
        table.keep_copy(strings_name, strings.as_str().as_bytes(), said);
    }
}
