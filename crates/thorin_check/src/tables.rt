//! The sections of abbreviations and of strings, the indexes and their rows, in `thorin check`.
#![tactic(auto, using(crate::proofs::Told::exits), unfolding(crate::specs::Indexes::versions_text, crate::specs::Faults::row_text))]

ghost use Rattle.std.specs.Prelude.{false, option_copied, true, ◌<◌, ◌≡◌};
ghost use Rattle.thorin_check.specs.Indexes.{mixed_versions, section_faults, versions_faults};
ghost use Rattle.thorin_check.specs.{Checking.TellsTables, Indexes.lacks_column, Telling.so_far};
ghost use Rattle.thorin_check.specs.{Indexes.has_column, Telling.Is, Telling.Tells};
ghost use Rattle.thorin_check.specs.Faults.{ArePast, is_from, IsNamed, row_end, row_fault};
ghost use Rattle.thorin_check.specs.{Faults.TellsRowsOf, Telling.IsFault};
ghost use Rattle.thorin_find.specs.Listing.{AreByRow, place_of_line};
ghost use Rattle.std.specs.{List.Sorted.IsSortedByKey, Ordering.nat_cmp};

use crate::checking::IndexedPackage;
use crate::faults::{Faults, tell_of_package};
use dwp_base::SectionKind;
use dwp_index::{PackageFile, UnitEntry, UnitIndex};
use dwp_table::{CONTRIBUTION_KINDS, DwarfObject};
use std::io::Write;
use thorin_print::Failure;

/// The sections of abbreviations and of strings aren't lacking, both indexes have one version and a
/// column for each section that has bytes, and a slot names each row of both.
pub(crate) fn check_tables<O: Write>(
    indexed: IndexedPackage<'_, '_>,
    faults: &mut Faults,
    out: &mut O,
) -> Result<(), Failure>
    requires { AreByRow indexed.pack.now indexed.entries.now }
    ensures { Tells (TellsTables indexed.entry.pack.now indexed.entry.entries.now)
        (so_far (O.contents out.old) faults.old) (so_far (O.contents out.new) faults.new) result }
{
    let pack = indexed.pack;
    let no_abbreviations = pack.content(SectionKind::Abbrev).is_empty();
    let no_strings = pack.content(SectionKind::Str).is_empty();
    let lacks_abbreviations = !indexed.entries.is_empty() & no_abbreviations;
    let lacks_strings = !pack.content(SectionKind::StrOffsets).is_empty() & no_strings;
    let empty = " is empty or absent";
    check_section(SectionKind::Abbrev, lacks_abbreviations, empty, faults, out)?;
    check_section(SectionKind::Str, lacks_strings, empty, faults, out)?;
    check_versions(pack, faults, out)?;
    for kind in &CONTRIBUTION_KINDS {
        let lacks = lacks_column(pack, *kind);
        check_section(*kind, lacks, ": no index has a column for it", faults, out)?;
    }
    let end = end_of(pack.compilation_index());
    check_rows("cu", false, end, indexed.entries, faults, out)?;
    let end = end_of(pack.type_index());
    check_rows("tu", true, end, indexed.entries, faults, out)
}

/// Tells what is wrong with a section, where something is.
fn check_section<O: Write>(
    kind: SectionKind,
    is_wrong: bool,
    what: &str,
    faults: &mut Faults,
    out: &mut O,
) -> Result<(), Failure>
    ensures { Tells (Is (section_faults kind is_wrong what.now))
        (so_far (O.contents out.old) faults.old) (so_far (O.contents out.new) faults.new) result }
{
    if !is_wrong {
        return Ok(());
    }
    let name = kind.name();
    let text = format!(in *faults.waiting.allocator(); "{name}{what}");
    tell_of_package(text, faults, out)
}

/// Both indexes have one version.
fn check_versions<O: Write>(
    pack: &PackageFile<'_>,
    faults: &mut Faults,
    out: &mut O,
) -> Result<(), Failure>
    ensures { Tells (Is (versions_faults (mixed_versions pack.now)))
        (so_far (O.contents out.old) faults.old) (so_far (O.contents out.new) faults.new) result }
{
    let (Some(compilations), Some(types)) = (pack.compilation_index(), pack.type_index()) else {
        return Ok(());
    };
    let compilations = compilations.version();
    let types = types.version();
    if compilations == types {
        return Ok(());
    }
    let text = format!(in *faults.waiting.allocator();
        ".debug_cu_index has version {compilations}, .debug_tu_index version {types}"
    );
    tell_of_package(text, faults, out)
}

/// Whether a section has bytes, and no index has a column for it.
fn lacks_column(pack: &PackageFile<'_>, kind: SectionKind) -> bool
    ensures { result ≡ lacks_column pack.now kind }
{
    !pack.content(kind).is_empty()
        && !(has_column(pack.compilation_index(), kind) || has_column(pack.type_index(), kind))
}

/// Whether an index has a column for a section.
fn has_column(index: Option<&UnitIndex<'_>>, kind: SectionKind) -> bool
    ensures { result ≡ has_column kind (option_copied index.entry) }
{
    index.is_some_and(|index| index.has_column(kind))
}

/// Whether a slot names a row of an index, from one on.
fn is_from(is_types: bool, row: u64, slot: UnitEntry) -> bool
    ensures { result ≡ is_from is_types row slot }
{
    let is_type = matches!(slot.object, DwarfObject::TypeUnit(_));
    is_type == is_types && row <= u64::from(slot.row)
}

/// The number behind that of the last row of an index; 1 where there is no index.
fn end_of(index: Option<&UnitIndex<'_>>) -> u64
    ensures end { result ≡ row_end (option_copied index.entry) }
    ensures some { 0 < result }
{
    index.map_or(1, |index| u64::from(index.unit_count()) + 1)
}

/// A slot names each row of an index up to its end: tells each row that none does.
fn check_rows<O: Write>(
    kind: &str,
    is_types: bool,
    end: u64,
    entries: &[UnitEntry],
    faults: &mut Faults,
    out: &mut O,
) -> Result<(), Failure>
    requires sorted { IsSortedByKey place_of_line nat_cmp entries.now }
    requires some { 0 < end }
    ensures { Tells (TellsRowsOf kind.now is_types end entries.now)
        (so_far (O.contents out.old) faults.old) (so_far (O.contents out.new) faults.new) result }
{
    let mut from = 0usize;
    for row in 1..end {
        if is_named(is_types, row, entries, &mut from) {
            continue;
        }
        tell_row(kind, row, faults, out)?;
    }
    Ok(())
}

/// Whether a slot names a row of an index, where none before a place names it or one behind it.
/// Goes on to the first that does.
fn is_named(is_types: bool, row: u64, entries: &[UnitEntry], from: &mut usize) -> bool
    requires sorted { IsSortedByKey place_of_line nat_cmp entries.now }
    requires past { ArePast is_types row entries.now from.old }
    ensures past { ArePast is_types row entries.now from.new }
    ensures named { result ≡ true → IsNamed entries.now is_types row }
    ensures unnamed { result ≡ false → IsNamed entries.now is_types row → ⊥ }
{
    for i in *from..entries.len() {
        if is_from(is_types, row, entries[i]) {
            *from = i;
            return u64::from(entries[i].row) == row;
        }
    }
    *from = entries.len();
    false
}

/// Tells that no slot names a row of an index.
fn tell_row<O: Write>(kind: &str, row: u64, faults: &mut Faults, out: &mut O) -> Result<(), Failure>
    ensures { Tells (IsFault (row_fault kind.now row)) (so_far (O.contents out.old) faults.old)
        (so_far (O.contents out.new) faults.new) result }
{
    let text = format!(in *faults.waiting.allocator(); "{kind} row {row}: no slot names it");
    tell_of_package(text, faults, out)
}
