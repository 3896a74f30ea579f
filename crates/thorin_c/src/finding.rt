//! Looking up the units of a package that is read anew, and what is told of one.

ghost use Rattle.std.specs.Prelude.{◌≡◌, Ok, map, take};
ghost use Rattle.dwp_index.specs.Package.{package_of};
ghost use Rattle.thorin_c.specs.Finding.{as_status, unit_found, row_found, lent_in, Fills};
ghost use Rattle.thorin_c.specs.Finding.{FillsEach, object_of, range_of, ranges_of, unit_of};
ghost use Rattle.thorin_c.specs.Finding.{found_as, looked};
ghost use Rattle.thorin_c.specs.declared.opened.Lent.TheVariants.{Section, String};

use crate::inside::{thorin_content_in, thorin_find_in, thorin_string_in};
use crate::opening::placed;
use crate::status::{ABSENT, DONE, NO_SUCH_KIND, status_of};
use crate::types::{ThorinBytes, ThorinLookup, ThorinRange, ThorinUnit};
use dwp_base::Contribution;
use dwp_bytes::Encoding;
use dwp_index::{PackageFile, Row};
use dwp_table::{CONTRIBUTION_KINDS, DebugTypeSignature, DwarfObject, DwoId};

/// How many look-ups are read ahead of: so many waits for memory go on at once.
const AHEAD: usize = 32;

/// What is looked up of a name.
#[derive(Clone, Copy)]
enum Wanted {
    Unit,
    /// Its row alone: nothing of the unit is read.
    Row,
}

/// Looks a unit up: `kind` is 1 for a compilation unit and 2 for a type unit. Answers 0 and fills
/// `found`; or leaves it as it is: 1 where the package has no such unit, 2 for another kind, 3
/// where the file, 4 where an index, 5 where a range of the unit and 6 where its header is
/// malformed.
#[unsafe(no_mangle)]
pub extern "C" fn thorin_find(bytes: &[u8], kind: u8, id: u64, found: &mut ThorinUnit) -> i32
    ensures { Fills (λ unit. unit) (unit_found (as_status (package_of bytes.now)) kind id) found.old
        found.new result }
{
    match placed(bytes) {
        Ok(places) => thorin_find_in(&places, bytes, kind, id, found),
        Err(error) => status_of(error),
    }
}

/// Looks many units up, the package being read once: fills each status, and each unit whose status
/// is 0. Answers 0; or 3 or 4 where the package can't be read, and then leaves all as it is.
#[unsafe(no_mangle)]
pub extern "C" fn thorin_find_each(bytes: &[u8], lookups: &mut [ThorinLookup]) -> i32
    ensures { FillsEach unit_found (as_status (package_of bytes.now)) lookups.old lookups.new
        result }
{
    find_each(bytes, Wanted::Unit, lookups)
}

/// Looks the rows of many units up, the package being read once: fills each status, and of each
/// unit whose status is 0 its ranges, row and slots; its version and sizes are 0, since nothing of
/// the unit is read. Answers 0; or 3 or 4 where the package can't be read, and then leaves all as
/// it is.
#[unsafe(no_mangle)]
pub extern "C" fn thorin_find_rows(bytes: &[u8], lookups: &mut [ThorinLookup]) -> i32
    ensures { FillsEach row_found (as_status (package_of bytes.now)) lookups.old lookups.new
        result }
{
    find_each(bytes, Wanted::Row, lookups)
}

/// Lends a unit's bytes in a section: `section` is 0 for `.debug_info.dwo` and so on in the order
/// of `ThorinUnit`. Answers as `thorin_find`; or 7 for another section.
#[unsafe(no_mangle)]
pub extern "C" fn thorin_content<'a>(
    bytes: &'a [u8],
    kind: u8,
    id: u64,
    section: u8,
    found: &mut ThorinBytes<'a>,
) -> i32
    ensures { Fills (λ lent. lent.bytes.now)
        (lent_in (Section section) (as_status (package_of bytes.now)) kind id) found.old found.new
        result }
{
    match placed(bytes) {
        Ok(places) => thorin_content_in(&places, bytes, kind, id, section, found),
        Err(error) => status_of(error),
    }
}

/// Lends the string of a number of a unit, by the unit's own encoding. Answers as `thorin_find`; or
/// 8 past the last string, 9 where the string is malformed.
#[unsafe(no_mangle)]
pub extern "C" fn thorin_string<'a>(
    bytes: &'a [u8],
    kind: u8,
    id: u64,
    index: u64,
    found: &mut ThorinBytes<'a>,
) -> i32
    ensures { Fills (λ lent. lent.bytes.now)
        (lent_in (String index) (as_status (package_of bytes.now)) kind id) found.old found.new
        result }
{
    match placed(bytes) {
        Ok(places) => thorin_string_in(&places, bytes, kind, id, index, found),
        Err(error) => status_of(error),
    }
}

/// Looks up what is wanted of each of many names.
#[inline(always)]
fn find_each(bytes: &[u8], wanted: Wanted, lookups: &mut [ThorinLookup]) -> i32
    ensures { FillsEach (found_as wanted) (as_status (package_of bytes.now)) lookups.old lookups.new
        result }
{
    let file = match PackageFile::parse(bytes) {
        Ok(file) => file,
        Err(error) => return status_of(error),
    };
    for i in 0..lookups.len() {
        read_ahead(&file, wanted, lookups, i);
        complete(&file, wanted, &mut lookups[i]);
    }
    DONE
}

/// Where so many were looked up, reads the first byte of the units that are looked up next, and
/// leaves it in their statuses, which are told once they are looked up.
#[inline(always)]
fn read_ahead(file: &PackageFile<'_>, wanted: Wanted, lookups: &mut [ThorinLookup], start: usize)
    ensures front { take start lookups.new ≡ take start lookups.old }
    ensures same { map (looked (found_as wanted) file.now) lookups.new
        ≡ map (looked (found_as wanted) file.now) lookups.old }
{
    if start % AHEAD != 0 || matches!(wanted, Wanted::Row) {
        return;
    }
    let end = lookups.len().min(start.saturating_add(AHEAD));
    for i in start..end {
        lookups[i].status = match object_of(lookups[i].kind, lookups[i].id) {
            Ok(object) => i32::from(file.first_byte(object).unwrap_or(0)),
            Err(status) => status,
        };
    }
}

/// Fills in what came of a look-up.
#[inline(always)]
fn complete(file: &PackageFile<'_>, wanted: Wanted, lookup: &mut ThorinLookup)
    ensures { lookup.new ≡ looked (found_as wanted) file.now lookup.old }
{
    lookup.status = fill(file, wanted, lookup.kind, lookup.id, &mut lookup.unit);
}

/// Fills in what is wanted of a name.
#[tactic(auto, unfolding(crate::specs::Finding::of_name))]
#[inline(always)]
fn fill(file: &PackageFile<'_>, wanted: Wanted, kind: u8, id: u64, found: &mut ThorinUnit) -> i32
    ensures { Fills (λ unit. unit) (found_as wanted (Ok file.now) kind id) found.old found.new
        result }
{
    let object = match object_of(kind, id) {
        Ok(object) => object,
        Err(status) => return status,
    };
    match wanted {
        Wanted::Unit => match &file.find_counted(object) {
            Ok((Some(unit), slots)) => {
                let encoding = Some(unit.encoding());
                write(unit.ranges(), unit.row(), *slots, encoding, found);
                DONE
            }
            Ok((None, _)) => ABSENT,
            Err(error) => status_of(*error),
        },
        Wanted::Row => match &file.find_row(object) {
            Ok((Some((number, row)), slots)) => {
                write(row, *number, *slots, None, found);
                DONE
            }
            Ok((None, _)) => ABSENT,
            Err(error) => status_of(*error),
        },
    }
}

/// The name of a unit.
pub(crate) fn object_of(kind: u8, id: u64) -> Result<DwarfObject, i32>
    ensures { result ≡ object_of kind id }
{
    if kind == 1 {
        Ok(DwarfObject::Compilation(DwoId(id)))
    } else if kind == 2 {
        Ok(DwarfObject::TypeUnit(DebugTypeSignature(id)))
    } else {
        Err(NO_SUCH_KIND)
    }
}

/// Writes a row with its ranges, and the encoding in its unit's header, where that was read.
#[inline(always)]
pub(crate) fn write(
    row: &Row<'_>,
    number: u32,
    slots: u32,
    encoding: Option<Encoding>,
    found: &mut ThorinUnit,
)
    ensures { found.new ≡ unit_of ((number, row.now), slots) encoding }
{
    write_ranges(row, &mut found.ranges);
    found.row = number;
    found.slots = slots;
    match encoding {
        None => {
            found.version = 0;
            found.offset_size = 0;
            found.address_size = 0;
        }
        Some(encoding) => {
            found.version = encoding.version;
            found.offset_size = encoding.format.offset_size() as u8;
            found.address_size = encoding.address_size;
        }
    }
}

#[inline(always)]
fn write_ranges(row: &Row<'_>, ranges: &mut [ThorinRange; 10])
    ensures { ranges.new ≡ ranges_of row.now }
{
    for i in 0..10 {
        ranges[i] = range_of(row.range(CONTRIBUTION_KINDS[i]));
    }
}

/// A range; of no bytes where it is absent.
#[inline(always)]
fn range_of(range: Option<Contribution>) -> ThorinRange
    ensures { result ≡ range_of range }
{
    match range {
        None => ThorinRange { offset: 0, size: 0 },
        Some(range) => ThorinRange {
            offset: range.offset.0,
            size: range.size,
        },
    }
}
