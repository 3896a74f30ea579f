//! What a builder makes of inputs, step by step. Its calls are met here alone.

use crate::packing::{Job, Made};
use crate::reading::tell_name;
use test_rows::Said;
use thorin::{
    DebugTypeSignature, DwarfObject, DwarfPackage, Error, Input, MissingTargets, RelocationEntry,
    Session, WritableObject,
};

/// Adds inputs in order, and finishes. What is refused for memory is given a second time, where
/// that is asked for.
pub fn build<'s, S: Session<RelocationEntry>>(session: &'s S, job: Job<'_>, made: &mut Made) {
    let mut builder = DwarfPackage::new(job.alloc, session);
    show(job, &builder, made);
    for number in 0..job.inputs.len() {
        let input = job.inputs[number];
        give(&mut builder, job, number, input, made);
        if made.lacks_memory && job.how == "retried" {
            give(&mut builder, job, number, input, made);
        }
    }
    if job.how == "session" {
        made.steps.add_said(&made.shown);
    }
    made.keep(written(builder.finish()));
}

fn written(object: Result<WritableObject, Error>) -> Result<Vec<u8>, Error> {
    match object {
        Ok(object) => Ok(object.write()?),
        Err(error) => Err(error),
    }
}

fn add<'o, 's: 'o, S: Session<RelocationEntry>>(
    builder: &mut DwarfPackage<'o, 's, S>,
    input: Input<'_>,
) -> Result<(), Error> {
    match input {
        Input::Bytes(bytes) => builder.add_object_bytes(bytes),
        Input::Object(path) => builder.add_input_object(path),
        Input::Executable(path, missing) => builder.add_executable(path, missing),
        Input::ExecutableSkippingNameless(path, missing) => {
            builder.add_executable_skipping_nameless(path, missing)
        }
    }
}

/// Adds an input, and notes what is answered and shown. A refusal of an object leaves all that the
/// builder shows.
fn give<'o, 's: 'o, S: Session<RelocationEntry>>(
    builder: &mut DwarfPackage<'o, 's, S>,
    job: Job<'_>,
    number: usize,
    input: Input<'_>,
    made: &mut Made,
) {
    let taken = made.taken.len();
    made.note(job, number, &add(builder, input));
    let is_same = show(job, builder, made);
    let is_object = matches!(input, Input::Bytes(_) | Input::Object(_));
    if made.taken.len() == taken && is_object && !is_same {
        made.contradicts = true;
    }
}

/// Notes what a builder shows of itself; whether that is what it showed before.
fn show<'o, 's: 'o, S: Session<RelocationEntry>>(
    job: Job<'_>,
    builder: &DwarfPackage<'o, 's, S>,
    made: &mut Made,
) -> bool {
    let mut text = Said::new(job.alloc);
    text.add("  ");
    text.debug(builder);
    made.packs_again = builder.packs_again();
    tell_types(made.packs_again, builder.differing_types(), &mut text);
    let units = builder.contained_units().iter().copied().collect(job.alloc);
    let units: Vec<DwarfObject> = text.made(units, Vec::new(job.alloc));
    tell_units(units, made, &mut text);
    tell_missing(builder.missing_targets(), made, &mut text);
    keep_shown(job, text, made)
}

fn tell_types(packs_again: bool, differing: &[DebugTypeSignature], text: &mut Said) {
    text.add("\n  packs again: ");
    text.debug(&packs_again);
    text.add(", differing: [");
    for signature in differing {
        text.in_hexadecimal(signature.0);
    }
    text.add(" ], units: [");
}

/// Says the units, which are those that were there before and others.
fn tell_units(units: Vec<DwarfObject>, made: &mut Made, text: &mut Said) {
    for unit in &units {
        tell_name(text, *unit);
    }
    if !units.starts_with(&made.units) {
        made.contradicts = true;
    }
    made.units = units;
}

fn tell_missing(missing: MissingTargets<'_>, made: &mut Made, text: &mut Said) {
    made.lacks_units = false;
    for unit in missing {
        text.add(if made.lacks_units { "" } else { " ], lacks: [" });
        made.lacks_units = true;
        tell_name(text, unit);
    }
    text.add(" ]\n");
}

fn keep_shown(job: Job<'_>, text: Said, made: &mut Made) -> bool {
    if job.how == "builder" {
        made.steps.add(text.as_str());
    }
    made.steps.note_said(&text);
    let is_same = text.as_str() == made.shown.as_str();
    made.shown = text;
    is_same
}
