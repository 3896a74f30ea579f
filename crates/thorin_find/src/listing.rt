//! `thorin list`.

ghost use Rattle.thorin_find.specs.Listing.{AddsLine, AreByRow, range_size, unit_line, unit_names};
ghost use Rattle.thorin_find.specs.Listing.{Begins, front_of, lines_of, Lists, place_by, view_of};
ghost use Rattle.thorin_find.specs.Listing.{IsListedIn, PrintsFront, PrintsLines, range_sizes};
ghost use Rattle.std.specs.Prelude.{IfErr, IfOk, OnOk, string_bytes, [], ◌++◌, ◌≡◌};
ghost use Rattle.dwp_index.specs.{Entries.entries_from, Package.found};

use crate::files::{FileReader, read_named};
use crate::finding::{put_json_unit, put_object};
use crate::names::names_of;
use crate::sizes::{UnitRanges, put_total_rows, put_totals, put_unit_rows};
use dwp_base::{Contribution, SectionKind};
use dwp_index::{PackageFile, PackagedUnit, UnitEntry};
use dwp_table::{CONTRIBUTION_KINDS, DwarfObject};
use std::alloc::{AllocError, Global};
use std::io::Write;
use thorin_print::{Failure, Form, answer, put_spelled_or};

/// How many bytes of lines wait at most before they are printed.
const MUCH: usize = 8192;

/// What the lines of a list are to have.
#[derive(Clone, Copy)]
pub struct ListForm {
    /// The size of each of a unit's ranges; totals then follow the lines.
    pub sizes: bool,
    /// The names of a unit's source and of its object.
    pub names: bool,
    /// Columns, which have the sizes and no names, in the place of lines.
    pub columns: bool,
    /// In which form each line is.
    pub form: Form,
}

/// Prints a line for each unit of a package: compilation units by row, then type units by row. A
/// line goes on with sizes and names where these are asked for; totals follow then. In columns it
/// is a row, under the names of the sections, and each total has its share of the file. Answers the
/// status 0. Lines are printed as soon as there are 8 KB of them; where a unit can't be looked up,
/// that is up to the line before it. Columns are printed once they are whole. Errors: `Input` where
/// the file can't be read, `Malformed` where it is no package or a unit can't be looked up, `Line`
/// or `Memory`.
#[tactic(auto, using(crate::proofs::Listed::not_listed))]
pub fn list_by<F: FileReader, O: Write>(
    alloc: Global,
    files: &F,
    file: &str,
    form: ListForm,
    out: &mut O,
) -> Result<u8, Failure>
    ensures { Lists (F.offer files.now) file.now form (O.contents out.old)
        (O.contents out.new) result }
{
    let bytes = read_named(files, file)?;
    let Ok(package) = PackageFile::parse(bytes.as_slice()) else {
        return Err(Failure::Malformed);
    };
    let entries = entries_by_row(alloc, &package)?;
    let entries = entries.as_slice();
    let listed = Listed {
        pack: &package,
        file_size: bytes.len(),
        form,
    };
    let mut waiting = String::new(alloc);
    let mut ranges = UnitRanges::new(alloc);
    let is_all = print_lines(listed, entries, &mut ranges, &mut waiting, out)?;
    let given = put_rest(listed, is_all, &mut ranges, &mut waiting)?;
    answer(waiting.as_bytes(), given, out)
}

/// A package that is listed.
#[derive(Clone, Copy)]
struct Listed<'m, 'a> {
    pack: &'m PackageFile<'a>,
    /// How many bytes its file has.
    file_size: usize,
    form: ListForm,
}

/// Adds what stands behind the lines: totals where sizes are asked for, or columns. Answers what is
/// to be answered.
#[tactic(auto, using(crate::proofs::Listed::listed_plain, crate::proofs::Listed::listed_sized))]
fn put_rest(
    listed: Listed<'_, '_>,
    is_all: bool,
    ranges: &mut UnitRanges,
    text: &mut String,
) -> Result<Result<u8, Failure>, AllocError>
    ensures { IfOk result (λ given. IsListedIn listed.entry.form.columns listed.entry.form
        (record { printed = string_bytes text.old; is_all = is_all })
        (record { printed = string_bytes text.new; answer = given })) }
{
    let given = if is_all {
        Ok(0)
    } else {
        Err(Failure::Malformed)
    };
    if listed.form.columns {
        put_unit_rows(ranges, text)?;
        if is_all {
            if !ranges.units.is_empty() {
                text.push_str("\n")?;
            }
            let totals = ranges.totals(listed.pack, listed.file_size)?;
            put_total_rows(totals.as_slice(), text)?;
        }
        return Ok(given);
    }
    if is_all && listed.form.sizes {
        let totals = ranges.totals(listed.pack, listed.file_size)?;
        put_totals(totals.as_slice(), listed.form.form, text)?;
    }
    Ok(given)
}

/// Prints the lines of units, up to one that can't be looked up: then it answers false. The last
/// of them are left to be printed.
#[tactic(auto, using(crate::proofs::Listed::printed_next, crate::proofs::Listed::not_found, crate::proofs::Listed::all_found, crate::proofs::Listed::begun, crate::proofs::Listed::begun_next, thorin_print::proofs::Lines::drop_next))]
fn print_lines<O: Write>(
    listed: Listed<'_, '_>,
    entries: &[UnitEntry],
    ranges: &mut UnitRanges,
    waiting: &mut String,
    out: &mut O,
) -> Result<bool, Failure>
    requires { string_bytes waiting.old ≡ [] }
    ensures lines { IfOk result (λ is_all. PrintsLines (lines_of
        (view_of listed.entry.form listed.entry.pack.now) listed.entry.pack.now entries.now)
        is_all (O.contents out.old) (O.contents out.new) (string_bytes waiting.new)) }
    ensures part { IfErr result (λ failure. Begins failure (lines_of
        (view_of listed.entry.form listed.entry.pack.now) listed.entry.pack.now
        entries.now).printed (O.contents out.old) (O.contents out.new)) }
{
    for entry in entries {
        if !put_slot(listed, *entry, ranges, waiting)? {
            return Ok(false);
        }
        print_much(waiting, out)?;
    }
    Ok(true)
}

/// Prints what waits in a text, where it is much: then nothing waits.
#[tactic(auto, using(crate::proofs::Listed::all_waits, crate::proofs::Listed::none_waits))]
fn print_much<O: Write>(waiting: &mut String, out: &mut O) -> Result<(), Failure>
    ensures whole { OnOk result (PrintsFront (O.contents out.old) (O.contents out.new)
        (string_bytes waiting.old) (string_bytes waiting.new)) }
    ensures part { IfErr result (λ failure. Begins failure (string_bytes waiting.old)
        (O.contents out.old) (O.contents out.new)) }
{
    if waiting.len() < MUCH {
        return Ok(());
    }
    answer(waiting.as_bytes(), Ok(0), out)?;
    waiting.clear();
    Ok(())
}

/// Adds the line of the unit that is found for a slot, where it is that of the slot's row. Answers
/// whether it could be looked up.
fn put_slot(
    listed: Listed<'_, '_>,
    entry: UnitEntry,
    ranges: &mut UnitRanges,
    text: &mut String,
) -> Result<bool, AllocError>
    ensures { IfOk result (AddsLine (view_of listed.entry.form listed.entry.pack.now) entry
        (found listed.entry.pack.now entry.object) (string_bytes text.old)
        (string_bytes text.new)) }
{
    match listed.pack.find(entry.object) {
        Ok(Some(unit)) => {
            if unit.row() == entry.row {
                put_unit(listed, entry.object, &unit, ranges, text)?;
            }
            Ok(true)
        }
        Ok(None) => Ok(true),
        Err(_) => Ok(false),
    }
}

/// The units that the slots of a package name: compilation units by row, then type units by row.
pub fn entries_by_row(alloc: Global, pack: &PackageFile<'_>) -> Result<Vec<UnitEntry>, AllocError>
    ensures { IfOk result (λ entries. AreByRow pack.now entries.items) }
{
    let mut entries = entries_by_slot(alloc, pack)?;
    entries.sort_by_key(|entry| place_of_line(entry.object, entry.row))?;
    Ok(entries)
}

/// The units that the slots of a package name, in order of slot.
fn entries_by_slot(alloc: Global, pack: &PackageFile<'_>) -> Result<Vec<UnitEntry>, AllocError>
    ensures { IfOk result (λ entries. entries.items
        ≡ entries_from pack.now.compilations pack.now.types 0 0) }
{
    pack.units().collect(alloc)
}

/// Where the line of a unit stands among the others.
fn place_of_line(object: DwarfObject, row: u32) -> u64
    ensures { result ≡ place_by object row }
{
    match object {
        DwarfObject::Compilation(_) => u64::from(row),
        DwarfObject::TypeUnit(_) => (1 << 32) + u64::from(row),
    }
}

/// Adds the line of a unit, with its sizes and names where these are asked for.
#[tactic(auto, unfolding(crate::specs::Listing::unit_line))]
fn put_unit<'a>(
    listed: Listed<'_, 'a>,
    object: DwarfObject,
    unit: &PackagedUnit<'a>,
    ranges: &mut UnitRanges,
    text: &mut String,
) -> Result<(), AllocError>
    ensures { OnOk result (string_bytes text.new ≡ string_bytes text.old
        ++ unit_line (view_of listed.entry.form listed.entry.pack.now) object unit.now) }
{
    let form = listed.form;
    if form.columns {
        return ranges.add_unit(object, unit);
    }
    put_front(object, unit, form.form, text)?;
    if form.sizes {
        put_sizes(unit, form.form, ranges, text)?;
    }
    if form.names {
        put_names(listed, object, unit, text)?;
    }
    match form.form {
        Form::Lines => text.push_str("\n"),
        Form::Json => text.push_str("}\n"),
    }
}

/// Adds what a line begins with: a unit's kind, its identifier and its size.
#[tactic(auto, unfolding(crate::specs::Listing::unit_front, crate::specs::Listing::json_front, crate::specs::Lines::json_unit))]
fn put_front(
    object: DwarfObject,
    unit: &PackagedUnit<'_>,
    form: Form,
    text: &mut String,
) -> Result<(), AllocError>
    ensures { OnOk result (string_bytes text.new
        ≡ string_bytes text.old ++ front_of form object unit.now) }
{
    let size = unit.bytes().len();
    match form {
        Form::Lines => {
            put_object(object, text)?;
            write!(text, " {size}")
        }
        Form::Json => {
            put_json_unit(object, text)?;
            write!(text, "\",\"size\":{size}")
        }
    }
}

/// Adds the names of a unit's source and of its object.
#[tactic(auto, unfolding(crate::specs::Listing::unit_names))]
fn put_names<'a>(
    listed: Listed<'_, 'a>,
    object: DwarfObject,
    unit: &PackagedUnit<'a>,
    text: &mut String,
) -> Result<(), AllocError>
    ensures { OnOk result (string_bytes text.new ≡ string_bytes text.old
        ++ unit_names (view_of listed.entry.form listed.entry.pack.now) object unit.now) }
{
    let (source, name) = names_of(listed.pack, object, unit);
    let form = listed.form.form;
    let (before_source, before_name) = match form {
        Form::Lines => ("\t", "\t"),
        Form::Json => (",\"name\":", ",\"dwo_name\":"),
    };
    text.push_str(before_source)?;
    put_spelled_or(source, form, text)?;
    text.push_str(before_name)?;
    put_spelled_or(name, form, text)
}

/// Adds the sizes on the line of a unit, and gathers its ranges.
#[tactic(auto, unfolding(crate::specs::Listing::range_sizes))]
fn put_sizes(
    unit: &PackagedUnit<'_>,
    form: Form,
    ranges: &mut UnitRanges,
    text: &mut String,
) -> Result<(), AllocError>
    ensures { OnOk result (string_bytes text.new
        ≡ string_bytes text.old ++ range_sizes form unit.now) }
{
    for kind in &CONTRIBUTION_KINDS {
        put_size(*kind, unit.range(*kind), form, ranges, text)?;
    }
    Ok(())
}

/// Adds one of these sizes, where there is a range.
fn put_size(
    kind: SectionKind,
    range: Option<Contribution>,
    form: Form,
    ranges: &mut UnitRanges,
    text: &mut String,
) -> Result<(), AllocError>
    ensures { OnOk result (string_bytes text.new
        ≡ string_bytes text.old ++ range_size form kind range) }
{
    let Some(range) = range else {
        return Ok(());
    };
    ranges.add(kind, range)?;
    let name = kind.short_name();
    let size = range.size;
    match form {
        Form::Lines => write!(text, " {name} {size}"),
        Form::Json => write!(text, ",\"{name}\":{size}"),
    }
}
