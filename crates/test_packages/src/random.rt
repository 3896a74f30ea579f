//! What a seed damages: reads damaged objects and packages, and packs damaged inputs. A seed
//! determines all damage, so that a run can be made again.

mod building;
mod executables;
mod reading;

use crate::tally::Tally;
use std::alloc::Global;
use test_rows::{Generator, Said, Table, number, place};

/// `random SEED ROUNDS EXECUTABLE SAMPLE..`: so many samples are damaged and read; a quarter as
/// many packages are made of a few each, and as many of the executable. Tells of each call whether
/// it both answered and named errors, and how often two calls contradicted each other, or memory
/// ran out. `random_counted SEED ROUNDS EXECUTABLE SAMPLE..`: the same, and how many calls there
/// were.
pub fn random(alloc: Global, table: &Table<'_>, counts: bool, words: &[&str], said: &mut Said) {
    if let [seed, rounds, executable, names @ ..] = words {
        let mut generator = Generator::new(number(seed));
        let samples = table.all(names, said);
        let executable = table.get(executable, said);
        let mut tally = Tally::new();
        tally_all(
            alloc,
            &mut generator,
            place(rounds),
            executable,
            &samples,
            &mut tally,
            said,
        );
        tally.tell(counts, said);
    }
}

/// Damages and reads so many samples, and packs a quarter as often.
fn tally_all(
    alloc: Global,
    generator: &mut Generator,
    rounds: usize,
    executable: &[u8],
    samples: &[&[u8]],
    tally: &mut Tally,
    said: &mut Said,
) {
    for _ in 0..rounds {
        let bytes = generator.one_of(alloc, samples, true);
        reading::read_all(alloc, &bytes, tally);
    }
    for _ in 0..rounds / 4 {
        building::build(alloc, generator, samples, tally, said);
        executables::refer(alloc, generator, executable, samples, tally, said);
    }
}
