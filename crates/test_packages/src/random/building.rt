//! Damaged inputs for the builder: objects and packages.

use crate::packing::{Job, Made, make};
use crate::random::reading::read_packaged;
use crate::tally::{self, Tally};
use std::alloc::Global;
use test_rows::{Generator, Said, Table};
use thorin::{DwarfObject, Input, PackageFile};

/// Gives a few samples, some of them damaged, to the builder, to `pack` and to `pack_groups`, and
/// holds what they answer against one another.
pub fn build(
    alloc: Global,
    generator: &mut Generator,
    samples: &[&[u8]],
    tally: &mut Tally,
    said: &mut Said,
) {
    let mut few = Vec::new(alloc);
    for _ in 0..generator.below(5) + 1 {
        let input = generator.one_of(alloc, samples, false);
        tally.expect(few.push(input).is_ok());
    }
    let mut inputs = Vec::new(alloc);
    for i in 0..few.len() {
        tally.expect(inputs.push(Input::Bytes(few[i].as_slice())).is_ok());
    }
    let files = Table::new(alloc);
    compare(alloc, &files, &inputs, tally, said);
}

fn compare(
    alloc: Global,
    files: &Table<'_>,
    inputs: &[Input<'_>],
    tally: &mut Tally,
    said: &mut Said,
) {
    let job = Job::new(alloc, files, "builder", inputs, &[]);
    let built = build_noted(job, tally, said);
    hold_packed(job, &built, tally, said);
    let taken = job.taken(&built, said);
    let halves = [0, taken.len() / 2];
    let again = Job::new(alloc, files, "groups", &taken, &halves);
    hold_packed(again, &built, tally, said);
    if built.has_file() && built.packs_again {
        pack_again(alloc, files, &built.file, &built.units, tally, said);
    }
    pack_in_groups(again, &built.units, tally, said);
}

/// What a builder makes, and notes what it answers; a file has its units.
pub fn build_noted(job: Job<'_>, tally: &mut Tally, said: &mut Said) -> Made {
    let built = make(job, said);
    note_outcomes(job, &built, tally);
    tally.note(tally::FINISH, built.has_file());
    tally.expect(!built.contradicts);
    if built.has_file() {
        read_back(&built.file, &built.units, tally);
    }
    built
}

/// Notes what was answered of each input.
fn note_outcomes(job: Job<'_>, made: &Made, tally: &mut Tally) {
    for number in 0..job.inputs.len() {
        let input = job.inputs[number];
        let call = if job.how == "pack" {
            tally::PACKED
        } else if matches!(input, Input::Bytes(_)) {
            tally::OBJECT
        } else {
            tally::EXECUTABLE
        };
        tally.note(call, made.taken.contains(&number));
    }
}

/// Packs at once: as many inputs are accepted as the builder accepts, with the same answers where
/// the inputs are the same, and the file is that of the builder.
fn hold_packed(mut job: Job<'_>, built: &Made, tally: &mut Tally, said: &mut Said) {
    job.how = "pack";
    let packed = make(job, said);
    note_outcomes(job, &packed, tally);
    tally.expect(packed.taken.len() == built.taken.len() && packed.is_file_of(built));
    let is_part = packed.taken.len() == job.inputs.len();
    tally.expect(is_part || packed.answers.as_str() == built.answers.as_str());
}

/// Reads a written package: it has these units and no others.
fn read_back(file: &[u8], units: &[DwarfObject], tally: &mut Tally) {
    match PackageFile::parse(file) {
        Ok(package) => {
            for unit in units {
                let is_whole = read_packaged(&package, *unit, tally);
                tally.expect(is_whole);
            }
            for entry in package.units() {
                tally.expect(units.contains(&entry.object));
            }
        }
        Err(_error) => tally.expect(false),
    }
}

/// Packs a file alone that may be an input again: it is taken, and has the same units, unless a
/// section is in no row of it.
fn pack_again(
    alloc: Global,
    files: &Table<'_>,
    file: &[u8],
    units: &[DwarfObject],
    tally: &mut Tally,
    said: &mut Said,
) {
    let inputs = [Input::Bytes(file)];
    let job = Job::new(alloc, files, "builder", &inputs, &[]);
    let again = build_noted(job, tally, said);
    let is_outside = again.answers.as_str() == "?: SectionNotInRow\n";
    tally.expect(is_outside || !again.taken.is_empty() && again.has_file());
    tally.expect(is_outside || again.units.as_slice() == units);
}

/// Packs the accepted inputs in two groups, half of them each: where there is a file, it has these
/// units.
fn pack_in_groups(job: Job<'_>, units: &[DwarfObject], tally: &mut Tally, said: &mut Said) {
    let grouped = make(job, said);
    tally.note(tally::GROUPS, grouped.has_file());
    if grouped.has_file() {
        read_back(&grouped.file, units, tally);
    }
    tally.expect(grouped.error.as_str() != "Memory");
}
