//! Listing the units of a package.

ghost use Rattle.std.specs.Prelude.{map, ◌≡◌};
ghost use Rattle.thorin_c.specs.Listing.{count_in, counted, kind_number, name_of, written_over};
ghost use Rattle.dwp_index.specs.{Entries.units_left, Package.package_of};
ghost use Rattle.thorin_c.specs.{Finding.as_status, Finding.Fills, Listing.Lists};

use crate::inside::thorin_list_in;
use crate::opening::placed;
use crate::status::status_of;
use crate::types::ThorinName;
use dwp_index::Units;
use dwp_table::{Bucketable, DwarfObject};

/// How many units the indexes of a package name, written to `count`: 0; or 3 or 4 where the package
/// can't be read.
#[unsafe(no_mangle)]
pub extern "C" fn thorin_unit_count(bytes: &[u8], count: &mut u64) -> i32
    ensures { Fills (λ count. count) (count_in (as_status (package_of bytes.now))) count.old
        count.new result }
{
    thorin_list(bytes, &mut [], count)
}

/// Lists the units that the indexes of a package name, those of the index of compilation units
/// first, in order of slot: 0, as many as there is room for from the first on in `names`, and how
/// many there are in `count`; or 3 or 4 where the package can't be read, and nothing is written.
#[unsafe(no_mangle)]
pub extern "C" fn thorin_list(bytes: &[u8], names: &mut [ThorinName], count: &mut u64) -> i32
    ensures count { Fills (λ count. count) (count_in (as_status (package_of bytes.now))) count.old
        count.new result }
    ensures names { Lists (as_status (package_of bytes.now)) names.old names.new }
{
    match placed(bytes) {
        Ok(places) => thorin_list_in(&places, bytes, names, count),
        Err(error) => status_of(error),
    }
}

/// Writes as many names as there is room for, and answers how many there are.
pub(crate) fn list(units: Units<'_>, names: &mut [ThorinName]) -> u64
    ensures count { result ≡ counted (map name_of (units_left units.entry)) }
    ensures names { names.new ≡ written_over names.old (map name_of (units_left units.entry)) }
{
    let mut count = 0u64;
    for entry in units {
        let place = count as usize;
        if place < names.len() {
            names[place] = ThorinName {
                id: entry.object.index(),
                row: entry.row,
                kind: kind_number(entry.object),
            };
        }
        count = count.saturating_add(1);
    }
    count
}

pub(crate) fn kind_number(object: DwarfObject) -> u8
    ensures { result ≡ kind_number object }
{
    match object {
        DwarfObject::Compilation(_) => 1,
        DwarfObject::TypeUnit(_) => 2,
    }
}

/// Writes a list over another, as far as there is room.
#[tactic(auto, using(crate::proofs::Lists::over_is))]
pub(crate) fn write_over<T: Copy>(list: &[T], over: &mut [T])
    ensures { over.new ≡ written_over over.old list.now }
{
    let len = list.len().min(over.len());
    over[..len].copy_from_slice(&list[..len]);
}
