//! `thorin check`.

ghost use Rattle.thorin_check.specs.Checking.{Checks, Finishes, IsOfChecking, TellsPackage};
ghost use Rattle.thorin_check.specs.{Apart.AreApartOr, Telling.so_far, Telling.TellsOr};
ghost use Rattle.{std.specs.Prelude.string_bytes, thorin_find.specs.Listing.AreByRow};

use crate::executables::{Reading, check_executable};
use crate::faults::{Faults, put_totals};
use crate::overlaps::Overlaps;
use crate::tables::check_tables;
use crate::units::check_units;
use dwp_index::{PackageFile, UnitEntry};
use std::alloc::Global;
use std::io::Write;
use thorin_find::{FileReader, entries_by_row, has_no_index, read_named};
use thorin_print::{Failure, flush, print};

/// Goes over a package: each unit that a slot of an index names is found under its identifier, its
/// ranges are inside their sections, its header and all its strings can be read, and the identifier
/// is its own; a slot names each row; there are abbreviations for the units and strings for the
/// string offsets; and the package has each split unit that the executables name. Compressed
/// sections of these may be decompressed. Prints each fault, and how many units and faults there
/// are, in lines or as JSON objects. Answers the status, 1 where there are faults. Errors: `Input`
/// where a file can't be read, `Malformed` where it is no package, `NoIndex` where it has no index,
/// `Line` or `Memory`.
#[tactic(auto, unfolding(crate::specs::Checking::Checks))]
pub fn check_by<F: FileReader, O: Write>(
    alloc: Global,
    files: &F,
    file: &str,
    executables: &[&str],
    reading: Reading,
    out: &mut O,
) -> Result<u8, Failure>
    ensures { Checks (F.offer files.now) file.now
        (record { paths = executables.now; reading = reading }) (O.contents out.old)
        (O.contents out.new) result }
{
    let bytes = read_named(files, file)?;
    let Ok(pack) = PackageFile::parse(bytes.as_slice()) else {
        return Err(Failure::Malformed);
    };
    if has_no_index(&pack) {
        return Err(Failure::NoIndex);
    }
    let entries = entries_by_row(alloc, &pack)?;
    let entries = entries.as_slice();
    let overlaps = Overlaps::find(alloc, &pack, entries)?;
    let indexed = IndexedPackage {
        pack: &pack,
        entries,
        overlaps: &overlaps,
    };
    let mut faults = Faults {
        form: reading.form,
        waiting: String::new(alloc),
        count: 0,
    };
    match check_all(files, indexed, executables, reading, &mut faults, out) {
        Ok(()) => finish(entries.len(), &mut faults, out),
        // What waits is printed, as far as the writer takes it.
        Err(failure) => {
            let _ = print(faults.waiting.as_str(), out);
            Err(failure)
        }
    }
}

/// A package that is checked.
#[derive(Clone, Copy)]
pub(crate) struct IndexedPackage<'m, 'a> {
    pub pack: &'m PackageFile<'a>,
    /// The units that its slots name, by row.
    pub entries: &'m [UnitEntry],
    /// What their ranges have in common.
    pub overlaps: &'m Overlaps,
}

/// Checks the units, the sections that units need and the rows, and that each split unit which the
/// executables name is in the package.
#[tactic(auto, using(crate::proofs::Told::exits))]
fn check_all<F: FileReader, O: Write>(
    files: &F,
    indexed: IndexedPackage<'_, '_>,
    executables: &[&str],
    reading: Reading,
    faults: &mut Faults,
    out: &mut O,
) -> Result<(), Failure>
    requires by_row { AreByRow indexed.pack.now indexed.entries.now }
    requires apart { AreApartOr indexed.overlaps.now.clash indexed.pack.now indexed.entries.now }
    ensures { TellsOr (IsOfChecking (F.offer files.now) executables.now)
        (TellsPackage (F.offer files.now) (record { paths = executables.now; reading = reading })
        indexed.entry.pack.now indexed.entry.entries.now)
        (so_far (O.contents out.old) faults.old) (so_far (O.contents out.new) faults.new) result }
{
    check_units(indexed, faults, out)?;
    check_tables(indexed, faults, out)?;
    for i in 0..executables.len() {
        check_executable(files, indexed.pack, executables[i], reading, faults, out)?;
    }
    Ok(())
}

/// Prints what waits and how many units and faults there are. Answers the status.
#[tactic(auto, using(thorin_print::proofs::Printed::none_grown, thorin_print::proofs::Printed::flushed, std::proofs::lemmas::Bool::Decides::nat_tests))]
fn finish<O: Write>(units: usize, faults: &mut Faults, out: &mut O) -> Result<u8, Failure>
    ensures { Finishes faults.old.form units faults.old.count (O.contents out.old)
        (string_bytes faults.old.waiting) (O.contents out.new) result }
{
    let count = faults.count;
    put_totals(faults.form, units as u64, count, &mut faults.waiting)?;
    print(faults.waiting.as_str(), out)?;
    flush(out)?;
    Ok(u8::from(count != 0))
}
