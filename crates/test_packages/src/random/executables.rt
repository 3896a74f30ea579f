//! Damaged inputs for the builder: executables, and the objects that they name.

use crate::packing::{EXECUTABLE, Job};
use crate::random::building::build_noted;
use crate::tally::{self, Tally};
use std::alloc::Global;
use std::path::{AsPath, Path};
use test_rows::{Generator, Said, Table};
use thorin::{
    Bump, BytesSession, Input, MissingReferencedObjectBehaviour, SkeletonList, skeletons,
};

/// Gives an executable to a builder, as it is or damaged, behind an object and with samples at the
/// paths that it names, some of them damaged too.
pub fn refer(
    alloc: Global,
    generator: &mut Generator,
    executable: &[u8],
    samples: &[&[u8]],
    tally: &mut Tally,
    said: &mut Said,
) {
    let missing = if generator.below(2) == 0 {
        MissingReferencedObjectBehaviour::Skip
    } else {
        MissingReferencedObjectBehaviour::Error
    };
    let first = generator.one_of(alloc, samples, false);
    let executable = generator.one_of(alloc, &[executable], false);
    let list = listed(alloc, &executable, tally);
    let mut files = Table::new(alloc);
    for i in 0..list.units.len() {
        let object = generator.one_of(alloc, samples, false);
        let path = list.units[i].path.as_str();
        files.keep(path, object, said);
    }
    files.keep(EXECUTABLE, executable, said);
    give(alloc, &files, &first, missing, tally, said);
}

/// What an executable names, up to its first error.
fn listed(alloc: Global, bytes: &[u8], tally: &mut Tally) -> SkeletonList {
    let arena = Bump::new(alloc);
    let session = BytesSession::new(&arena);
    let list = skeletons(alloc, &session, bytes);
    tally.note(tally::SKELETONS, list.fault.is_none());
    list
}

/// Adds an object and the executable, and finishes: a builder that lacks units says that the first
/// is missing.
fn give(
    alloc: Global,
    files: &Table<'_>,
    first: &[u8],
    missing: MissingReferencedObjectBehaviour,
    tally: &mut Tally,
    said: &mut Said,
) {
    let executable = Input::Executable(Path::new(EXECUTABLE), missing);
    let inputs = [Input::Bytes(first), executable];
    let job = Job::new(alloc, files, "builder", &inputs, &[]);
    let built = build_noted(job, tally, said);
    let is_missing = built.error.as_str().starts_with("MissingReferencedUnit");
    tally.expect(is_missing == built.lacks_units);
}
