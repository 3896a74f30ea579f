//! Ranges of units that clash with those of others, in `thorin check`: they overlap, or are the
//! same bytes of units, and their rows have other abbreviations.

ghost use Rattle.thorin_check.specs.Apart.{AreApartOr, HasRanges, IsApart};
ghost use Rattle.{std.specs.List.AllPairs, thorin_check.specs.Overlaps.slot_range};
ghost use Rattle.std.specs.Prelude.{false, IfOk, true, ◌≡◌};

use crate::units::{has_units, is_same as is_same_range};
use dwp_base::{Contribution, SectionKind};
use dwp_index::{PackageFile, UnitEntry};
use dwp_table::{CONTRIBUTION_KINDS, DwarfObject};
use std::alloc::{AllocError, Global};

/// A section, and another unit whose range of it seems to clash.
pub(crate) type Clash = (SectionKind, DwarfObject);

/// A range that a unit has of a section; the unit is the one of an entry.
#[derive(Clone, Copy)]
struct Placed {
    offset: u64,
    size: u64,
    /// The unit's abbreviations, where the section has the bytes of units.
    tables: Option<Contribution>,
    entry: usize,
}

/// What the ranges of a unit have in common with those of others.
#[derive(Clone, Copy)]
pub(crate) struct Shares {
    /// A range that seems to clash with that of another.
    pub clash: Option<Clash>,
    /// Whether another unit has the same bytes.
    pub has_twin: bool,
}

/// What the ranges of each unit that a slot names have in common with those of others.
#[derive(Drop)]
pub(crate) struct Overlaps {
    // For each entry whether another row has the range of its own bytes.
    twins: Vec<bool>,
    // For each entry a range that seems to clash with that of another; nothing where none does.
    clashes: Vec<Option<Clash>>,
    /// Whether ranges of rows clash.
    pub clash: bool,
}

impl Overlaps {
    /// Goes over the ranges of the rows that these entries name, of each section in turn: these are
    /// read without a look-up, and each entry is marked whose row has the range of its own bytes in
    /// common with another's. Where some clash, it looks each entry's unit up, and goes over the
    /// ranges of those that are found in the row of their entry: no others count as clashing.
    pub(crate) fn find(
        alloc: Global,
        pack: &PackageFile<'_>,
        entries: &[UnitEntry],
    ) -> Result<Overlaps, AllocError>
        ensures { IfOk result (λ overlaps. AreApartOr overlaps.clash pack.now entries.now) }
    {
        let mut overlaps = Overlaps {
            twins: Vec::from_elem(alloc, false, entries.len())?,
            clashes: Vec::new(alloc),
            clash: false,
        };
        let mut clash = false;
        for kind in &CONTRIBUTION_KINDS {
            let ranges = sorted_ranges(alloc, pack, entries, *kind)?;
            clash |= !are_apart(ranges.as_slice());
            overlaps.mark_twins(*kind, ranges.as_slice());
        }
        if clash {
            overlaps.find_clashes(alloc, pack, entries)?;
        }
        overlaps.clash = clash;
        Ok(overlaps)
    }

    /// What the ranges of the unit of an entry have in common with those of others.
    pub(crate) fn of(&self, entry: usize) -> Shares {
        Shares {
            clash: self.clashes.get(entry).copied().flatten(),
            has_twin: self.twins.get(entry).copied().unwrap_or(false),
        }
    }

    /// Marks the entries whose rows share a range of one section, where it has the bytes of units:
    /// the ranges are sorted by their places.
    fn mark_twins(&mut self, kind: SectionKind, ranges: &[Placed]) {
        let mut before: Option<Placed> = None;
        for range in ranges {
            if let Some(first) = before {
                if has_units(kind) && is_same(first, *range) {
                    for entry in &[first.entry, range.entry] {
                        if let Some(has_twin) = self.twins.get_mut(*entry) {
                            *has_twin = true;
                        }
                    }
                }
            }
            before = Some(*range);
        }
    }

    /// Marks each range of the units that are found in the row of their entry that another of these
    /// seems to overlap, and then those that are the same as one before, with other abbreviations.
    /// Sorted by their places, a range overlaps one before it where the farthest end before is past
    /// its place, and one behind it where the next place is before its end.
    fn find_clashes(
        &mut self,
        alloc: Global,
        pack: &PackageFile<'_>,
        entries: &[UnitEntry],
    ) -> Result<(), AllocError> {
        self.clashes.resize(entries.len(), None)?;
        let mut found = Vec::new(alloc);
        for entry in entries {
            found.push(match pack.find(entry.object) {
                Ok(Some(unit)) => unit.row() == entry.row,
                _ => false,
            })?;
        }
        let mut columns = Vec::new(alloc);
        for kind in &CONTRIBUTION_KINDS {
            let mut ranges = sorted_ranges(alloc, pack, entries, *kind)?;
            ranges.retain(|range| found.get(range.entry).copied().unwrap_or(false));
            self.mark_overlaps(*kind, ranges.as_slice(), entries);
            columns.push((*kind, ranges))?;
        }
        for (kind, ranges) in &columns {
            let mut first: Option<Placed> = None;
            for range in ranges.as_slice() {
                match first {
                    Some(other) if is_same(other, *range) => {
                        if !is_same_range(other.tables, range.tables) {
                            self.mark(*kind, *range, other, entries);
                        }
                    }
                    _ => first = Some(*range),
                }
            }
        }
        Ok(())
    }

    /// Marks each range that one before it overlaps, and each that the next one behind it overlaps.
    fn mark_overlaps(&mut self, kind: SectionKind, ranges: &[Placed], entries: &[UnitEntry]) {
        let mut farthest: Option<Placed> = None;
        let mut before: Option<Placed> = None;
        // The first of those that are the same as the one before.
        let mut first = 0usize;
        for i in 0..ranges.len() {
            let range = ranges[i];
            if let Some(last) = before {
                if !is_same(last, range) {
                    if farthest.is_none_or(|other| end(last) > end(other)) {
                        farthest = Some(last);
                    }
                    if range.offset < end(last) {
                        for earlier in ranges.get(first..i).unwrap_or(&[]) {
                            self.mark(kind, *earlier, range, entries);
                        }
                    }
                    first = i;
                }
            }
            if let Some(other) = farthest {
                if range.offset < end(other) {
                    self.mark(kind, range, other, entries);
                }
            }
            before = Some(range);
        }
    }

    /// Marks a range that seems to clash with another; the first mark of a unit stays.
    fn mark(&mut self, kind: SectionKind, range: Placed, other: Placed, entries: &[UnitEntry]) {
        if let Some(clash) = self.clashes.get_mut(range.entry) {
            if let Some(other) = entries.get(other.entry) {
                clash.get_or_insert((kind, other.object));
            }
        }
    }
}

/// The ranges that the rows which these entries name have of a section, sorted by their places, as
/// they mostly are in the order of rows.
fn sorted_ranges(
    alloc: Global,
    pack: &PackageFile<'_>,
    entries: &[UnitEntry],
    kind: SectionKind,
) -> Result<Vec<Placed>, AllocError>
    ensures { IfOk result (λ ranges. HasRanges pack.now entries.now kind ranges.items) }
{
    let mut ranges = Vec::new(alloc);
    for entry in 0..entries.len() {
        if let Some(range) = slot_range(pack, entries[entry], kind) {
            ranges.push(Placed {
                offset: range.offset.0,
                size: range.size,
                tables: if has_units(kind) {
                    slot_range(pack, entries[entry], SectionKind::Abbrev)
                } else {
                    None
                },
                entry,
            })?;
        }
    }
    let is_sorted = ranges.as_slice().is_sorted_by(|first, second| {
        first.offset < second.offset || (first.offset == second.offset && first.size <= second.size)
    });
    if is_sorted {
        return Ok(ranges);
    }
    ranges.sort_by_key(|range| (range.offset, range.size))?;
    Ok(ranges)
}

/// The range that the row which a slot names has of a section.
fn slot_range(pack: &PackageFile<'_>, slot: UnitEntry, kind: SectionKind) -> Option<Contribution>
    ensures { result ≡ slot_range pack.now slot kind }
{
    let index = match slot.object {
        DwarfObject::Compilation(_) => pack.compilation_index()?,
        DwarfObject::TypeUnit(_) => pack.type_index()?,
    };
    index.row(slot.row).ok()?.range(kind)
}

/// Whether two ranges are the same.
fn is_same(a: Placed, b: Placed) -> bool
    ensures { result ≡ true → (a.offset ≡ b.offset) × (a.size ≡ b.size) }
{
    a.offset == b.offset && a.size == b.size
}

/// Whether each range is the same as the one before, or begins behind it: so no two of them clash.
fn are_apart(ranges: &[Placed]) -> bool
    ensures { result ≡ true → AllPairs IsApart ranges.now }
{
    for i in 1..ranges.len() {
        if !is_apart(ranges[i - 1], ranges[i]) {
            return false;
        }
    }
    true
}

/// Whether a range is the same as the one before and has its abbreviations, or begins behind it.
fn is_apart(last: Placed, range: Placed) -> bool
    ensures { result ≡ true → IsApart last range }
{
    (is_same(last, range) && is_same_range(last.tables, range.tables))
        || (last.offset <= range.offset && last.size <= range.offset - last.offset)
}

/// Where a range ends, as far as 64 bits go.
fn end(range: Placed) -> u64 {
    range.offset.saturating_add(range.size)
}
