//! The objects that an executable names.

ghost use Rattle.std.specs.Prelude.{◌≡◌, ◌⊎◌, pos, None};
ghost use Rattle.thorin_executable.specs.Skeletons.{skeletons_of};
ghost use Rattle.thorin_c.specs.Skeletons.{ListsUnits, TellsEnd, TellsOfEnd, TellsOfList};

use crate::error::tell;
use crate::listing::write_over;
use crate::status::{DONE, NO_MEMORY, REFUSED};
use crate::types::{ThorinReport, ThorinSkeleton};
use crate::units::{FirstUnits, Room};
use std::alloc::Global;
use thorin::{Bump, BytesSession};

/// Lists the split units that an executable names, and the paths of their objects, each with a zero
/// byte behind it, as far as there is room: 0, how many units there are in `count`, and how many
/// bytes all paths have in `report.size`. 11 where an error ends the list: the same of the units
/// before it, and the error in `report`. 13 where memory ran out, and then all is left as it is.
#[tactic(auto, using(crate::proofs::Lists::end_alone))]
#[unsafe(no_mangle)]
pub extern "C" fn thorin_skeletons(
    alloc: Global,
    bytes: &[u8],
    names: &mut [ThorinSkeleton],
    paths: &mut [u8],
    count: &mut u64,
    report: &mut ThorinReport,
) -> i32
    ensures whole { result ≡ pos 0 → (skeletons_of bytes.now).1 ≡ None }
    ensures ended { result ≡ pos 11 → TellsEnd (skeletons_of bytes.now).1 report.new }
    ensures listed { (result ≡ pos 0) ⊎ (result ≡ pos 11) → ListsUnits (skeletons_of bytes.now).0
        names.old names.new paths.old paths.new count.new report.new }
    ensures whole_alone { result ≡ pos 0 → TellsOfList report.old report.new }
    ensures ended_alone { result ≡ pos 11 → TellsOfEnd report.old report.new }
    ensures memory { result ≡ pos 13 → (names.new ≡ names.old) × ((paths.new ≡ paths.old)
        × ((count.new ≡ count.old) × (report.new ≡ report.old))) }
    ensures status { (result ≡ pos 0) ⊎ ((result ≡ pos 11) ⊎ (result ≡ pos 13)) }
{
    let arena = Bump::new(alloc);
    let session = BytesSession::new(&arena);
    let room = Room {
        names: names.len(),
        paths: paths.len(),
    };
    match FirstUnits::read(alloc, &session, bytes, room) {
        Ok((units, error)) => {
            write_over(&units.names, names);
            write_over(&units.paths, paths);
            *count = units.count;
            report.size = units.size;
            match error {
                None => DONE,
                Some(error) => {
                    tell(error, report);
                    REFUSED
                }
            }
        }
        Err(_) => NO_MEMORY,
    }
}
