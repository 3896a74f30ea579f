//! The exports over a package that is open: they check their arguments and fill what the caller
//! gave.

ghost use Rattle.thorin_c.specs.Finding.{as_status, Fills, lent_in, row_found, unit_found};
ghost use Rattle.thorin_c.specs.{Listing.count_in, Listing.Lists, Opening.package_in};
ghost use Rattle.thorin_c.specs.declared.opened.Lent.TheVariants.{Section, String};

use crate::finding::{object_of, write};
use crate::listing::list;
use crate::opened::{Lent, OpenPackage};
use crate::status::{DONE, status_of};
use crate::types::{ThorinBytes, ThorinName, ThorinPackage, ThorinUnit};

/// `thorin_find` in a package that is open: its sections are where `places` says, whatever that
/// says. So after `thorin_open` of the same bytes the answer is that of `thorin_find`; any other
/// `places` gives an answer or a status too.
#[tactic(auto, unfolding(crate::specs::Finding::of_name))]
#[unsafe(no_mangle)]
pub extern "C" fn thorin_find_in(
    places: &ThorinPackage,
    bytes: &[u8],
    kind: u8,
    id: u64,
    found: &mut ThorinUnit,
) -> i32
    ensures { Fills (λ unit. unit) (unit_found (as_status (package_in places.now bytes.now)) kind
        id) found.old found.new result }
{
    let pack = match OpenPackage::at(places, bytes) {
        Ok(pack) => pack,
        Err(error) => return status_of(error),
    };
    let object = match object_of(kind, id) {
        Ok(object) => object,
        Err(status) => return status,
    };
    match pack.unit(object) {
        Ok((row, encoding)) => {
            write(&row.ranges, row.number, row.slots, Some(encoding), found);
            DONE
        }
        Err(status) => status,
    }
}

/// The row of a unit alone, as `thorin_find_rows` looks it up, in a package that is open.
#[tactic(auto, unfolding(crate::specs::Finding::of_name))]
#[unsafe(no_mangle)]
pub extern "C" fn thorin_find_row_in(
    places: &ThorinPackage,
    bytes: &[u8],
    kind: u8,
    id: u64,
    found: &mut ThorinUnit,
) -> i32
    ensures { Fills (λ unit. unit) (row_found (as_status (package_in places.now bytes.now)) kind
        id) found.old found.new result }
{
    let pack = match OpenPackage::at(places, bytes) {
        Ok(pack) => pack,
        Err(error) => return status_of(error),
    };
    let object = match object_of(kind, id) {
        Ok(object) => object,
        Err(status) => return status,
    };
    match pack.row(object) {
        Ok(row) => {
            write(&row.ranges, row.number, row.slots, None, found);
            DONE
        }
        Err(status) => status,
    }
}

/// `thorin_content` in a package that is open.
#[unsafe(no_mangle)]
pub extern "C" fn thorin_content_in<'a>(
    places: &ThorinPackage,
    bytes: &'a [u8],
    kind: u8,
    id: u64,
    section: u8,
    found: &mut ThorinBytes<'a>,
) -> i32
    ensures { Fills (λ lent. lent.bytes.now) (lent_in (Section section)
        (as_status (package_in places.now bytes.now)) kind id) found.old found.new result }
{
    lend(places, bytes, Lent::Section(section), kind, id, found)
}

/// `thorin_string` in a package that is open.
#[unsafe(no_mangle)]
pub extern "C" fn thorin_string_in<'a>(
    places: &ThorinPackage,
    bytes: &'a [u8],
    kind: u8,
    id: u64,
    index: u64,
    found: &mut ThorinBytes<'a>,
) -> i32
    ensures { Fills (λ lent. lent.bytes.now) (lent_in (String index)
        (as_status (package_in places.now bytes.now)) kind id) found.old found.new result }
{
    lend(places, bytes, Lent::String(index), kind, id, found)
}

/// `thorin_list` of a package that is open.
#[unsafe(no_mangle)]
pub extern "C" fn thorin_list_in(
    places: &ThorinPackage,
    bytes: &[u8],
    names: &mut [ThorinName],
    count: &mut u64,
) -> i32
    ensures count { Fills (λ count. count)
        (count_in (as_status (package_in places.now bytes.now))) count.old count.new result }
    ensures names { Lists (as_status (package_in places.now bytes.now)) names.old names.new }
{
    match OpenPackage::at(places, bytes) {
        Ok(pack) => {
            *count = list(pack.units(), names);
            DONE
        }
        Err(error) => status_of(error),
    }
}

/// Lends what is asked for of the unit of a name.
fn lend<'a>(
    places: &ThorinPackage,
    bytes: &'a [u8],
    lent: Lent,
    kind: u8,
    id: u64,
    found: &mut ThorinBytes<'a>,
) -> i32
    ensures { Fills (λ lent. lent.bytes.now) (lent_in lent
        (as_status (package_in places.now bytes.now)) kind id) found.old found.new result }
{
    let pack = match OpenPackage::at(places, bytes) {
        Ok(pack) => pack,
        Err(error) => return status_of(error),
    };
    match pack.lent(lent, kind, id) {
        Ok(bytes) => {
            found.bytes = bytes;
            DONE
        }
        Err(status) => status,
    }
}
