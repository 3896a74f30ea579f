//! Files that are cut off, or in which bytes are others.

use crate::packing::make_alone;
use crate::reading::found;
use std::alloc::Global;
use test_rows::{Said, Table, part};
use thorin::{DwarfObject, DwoId};

/// Adds what a builder answers of a file, and whether the reader finds its unit 5.
fn tell_answers(alloc: Global, file: &[u8], said: &mut Said) {
    said.add("builder ");
    let made = make_alone(alloc, "damage", file, said);
    said.add_said(&made.steps);
    said.add(", reader ");
    match &found(file, DwarfObject::Compilation(DwoId(5))) {
        Ok((Some(_unit), _slots)) => said.add("Ok(true)"),
        Ok((None, _slots)) => said.add("Ok(false)"),
        Err(error) => {
            said.add("Err(");
            said.debug(error);
            said.add(")");
        }
    }
    said.add("\n");
}

/// `damage FILE PLACE WORD..`: what is answered of a file with other bytes from a place on.
pub fn damage(alloc: Global, table: &Table<'_>, words: &[&str], said: &mut Said) {
    let bytes = table.damaged(words, said);
    tell_answers(alloc, &bytes, said);
}

/// `every_cut FILE`: what is answered of each beginning of a file, and of the whole, with the first
/// length and the last of each run of the same answers.
pub fn every_cut(alloc: Global, table: &Table<'_>, words: &[&str], said: &mut Said) {
    let file = table.joined(words, said);
    cut_each(alloc, &file, said);
}

fn cut_each(alloc: Global, file: &[u8], said: &mut Said) {
    let mut first: usize = 0;
    let mut last = Said::new(alloc);
    tell_answers(alloc, &[], &mut last);
    for length in 1..file.len() {
        let mut next = Said::new(alloc);
        tell_answers(alloc, part(file, 0, length), &mut next);
        if next.as_str() != last.as_str() {
            tell_run(said, first, length - 1, &last);
            first = length;
            last = next;
        }
    }
    tell_run(said, first, file.len().saturating_sub(1), &last);
    said.number("", file.len() as u64);
    said.add(" bytes: ");
    tell_answers(alloc, file, said);
}

fn tell_run(said: &mut Said, first: usize, last: usize, answers: &Said) {
    said.number("", first as u64);
    said.number(" to ", last as u64);
    said.add(" bytes: ");
    said.add(answers.as_str());
}
