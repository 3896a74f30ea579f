//! Where the bytes of a package go, in lines and in columns, and its units in columns.

ghost use Rattle.std.specs.Prelude.{◌≡◌, ◌++◌, OnOk, List, ℕ, string_bytes};

use crate::finding::short_kind;
use dwp_base::{Contribution, SectionKind};
use dwp_index::{PackageFile, PackagedUnit};
use dwp_table::{Bucketable, CONTRIBUTION_KINDS, DwarfObject};
use std::alloc::{AllocError, Global};
use std::fmt;
use thorin_print::Form;

/// A range of a section that a unit has.
#[derive(Clone, Copy, PartialEq, Eq, PartialOrd, Ord)]
struct SectionRange {
    section: u8,
    offset: u64,
    size: u64,
}

/// The sizes of a unit that is listed in columns.
#[derive(Clone, Copy)]
pub(crate) struct UnitSizes {
    object: DwarfObject,
    size: u64,
    // Which of the ranges are its own: the number of the first, and that behind the last.
    first: usize,
    end: usize,
}

/// How many bytes a section of a package has, or its file.
#[derive(Clone, Copy)]
pub(crate) struct Total {
    /// The short name of the section, or `file`.
    name: &'static str,
    size: u64,
    /// Where units can have ranges of it, how many bytes the distinct ones of these have, and how
    /// many more all of them have.
    ranges: Option<(u64, u64)>,
}

/// The ranges that units have of the sections of a package.
#[derive(Drop)]
pub(crate) struct UnitRanges {
    ranges: Vec<SectionRange>,
    /// The units that were added with all their ranges.
    pub units: Vec<UnitSizes>,
}

impl UnitRanges {
    /// No range.
    pub(crate) fn new(alloc: Global) -> UnitRanges {
        UnitRanges {
            ranges: Vec::new(alloc),
            units: Vec::new(alloc),
        }
    }

    /// Adds a range of a section that a unit has.
    pub(crate) fn add(
        &mut self,
        section: SectionKind,
        range: Contribution,
    ) -> Result<(), AllocError> {
        self.ranges.push(SectionRange {
            section: section.rank(),
            offset: range.offset.0,
            size: range.size,
        })?;
        Ok(())
    }

    /// Adds a unit with all its ranges.
    pub(crate) fn add_unit(
        &mut self,
        object: DwarfObject,
        unit: &PackagedUnit<'_>,
    ) -> Result<(), AllocError> {
        let first = self.ranges.len();
        for kind in &CONTRIBUTION_KINDS {
            if let Some(range) = unit.range(*kind) {
                self.add(*kind, range)?;
            }
        }
        self.units.push(UnitSizes {
            object,
            size: unit.bytes().len() as u64,
            first,
            end: self.ranges.len(),
        })?;
        Ok(())
    }

    /// The totals of a package: of each section that isn't empty its bytes in the file; for a
    /// section that units have ranges of, also the bytes of its distinct ranges, and how many more
    /// all ranges have together. Then how many bytes the file has.
    pub(crate) fn totals(
        &mut self,
        pack: &PackageFile<'_>,
        file_size: usize,
    ) -> Result<Vec<Total>, AllocError> {
        self.ranges.sort_unstable();
        let mut totals = Vec::new(*self.ranges.allocator());
        let others = [SectionKind::Str, SectionKind::CuIndex, SectionKind::TuIndex];
        for kind in CONTRIBUTION_KINDS.iter().chain(&others) {
            let size = pack.content(*kind).len() as u64;
            if size != 0 {
                let name = kind.short_name();
                let ranges = (!others.contains(kind)).then_some(self.range_total(kind.rank()));
                totals.push(Total { name, size, ranges })?;
            }
        }
        totals.push(Total {
            name: "file",
            size: file_size as u64,
            ranges: None,
        })?;
        Ok(totals)
    }

    /// The bytes of the distinct ranges of a section, and how many more all of them have: the
    /// ranges are sorted.
    fn range_total(&self, section: u8) -> (u64, u64) {
        let mut once = 0u64;
        let mut shared = 0u64;
        let mut before: Option<SectionRange> = None;
        for range in &self.ranges {
            if range.section != section {
                continue;
            }
            if before == Some(*range) {
                shared = shared.saturating_add(range.size);
            } else {
                once = once.saturating_add(range.size);
            }
            before = Some(*range);
        }
        (once, shared)
    }
}

/// Adds totals.
pub(crate) fn put_totals(totals: &[Total], form: Form, text: &mut String) -> Result<(), AllocError>
    ensures { OnOk result ((totals : List ℕ)
        × (string_bytes text.new ≡ string_bytes text.old ++ totals)) }
{
    let mut added = String::new(*text.allocator());
    for total in totals {
        let name = total.name;
        let size = total.size;
        match (form, total.ranges) {
            (Form::Lines, None) => writeln!(added, "total {name} {size}")?,
            (Form::Lines, Some((once, shared))) => {
                writeln!(added, "total {name} {size} units {once} shared {shared}")?;
            }
            (Form::Json, None) => writeln!(added, "{{\"total\":\"{name}\",\"size\":{size}}}")?,
            (Form::Json, Some((once, shared))) => {
                writeln!(
                    added,
                    "{{\"total\":\"{name}\",\"size\":{size},\"units\":{once},\"shared\":{shared}}}"
                )?;
            }
        }
    }
    text.push_str(added.as_str())
}

/// Adds the rows of units, before totals are made: their sizes in each section that one of them has
/// a range of.
pub(crate) fn put_unit_rows(ranges: &UnitRanges, text: &mut String) -> Result<(), AllocError> {
    let alloc = *text.allocator();
    if ranges.units.is_empty() {
        return Ok(());
    }
    let mut kinds = Vec::new(alloc);
    let mut cells = Vec::new(alloc);
    for name in &["unit", "identifier", "size"] {
        push(name, &mut cells)?;
    }
    for kind in &CONTRIBUTION_KINDS {
        let section = kind.rank();
        if ranges.ranges.iter().any(|range| range.section == section) {
            push(&kind.short_name(), &mut cells)?;
            kinds.push(*kind)?;
        }
    }
    for unit in &ranges.units {
        let id = unit.object.index();
        push(&short_kind(unit.object), &mut cells)?;
        cells.push(format!(in alloc; "0x{id:016x}")?)?;
        push(&unit.size, &mut cells)?;
        let own = ranges.ranges.get(unit.first..unit.end).unwrap_or(&[]);
        for kind in &kinds {
            let section = kind.rank();
            match own.iter().find(|range| range.section == section) {
                Some(range) => push(&range.size, &mut cells)?,
                None => push(&"-", &mut cells)?,
            }
        }
    }
    put_rows(cells.as_slice(), kinds.len().saturating_add(3), text)
}

/// Adds the rows of totals, each with its share of the file, which is the last of them: tenths of a
/// per cent, rounded down.
pub(crate) fn put_total_rows(totals: &[Total], text: &mut String) -> Result<(), AllocError> {
    let alloc = *text.allocator();
    let Some(file) = totals.last() else {
        return Ok(());
    };
    let mut cells = Vec::new(alloc);
    for name in &["section", "size", "per cent", "units", "shared"] {
        push(name, &mut cells)?;
    }
    for total in totals {
        let share = total.size.saturating_mul(1000).checked_div(file.size);
        let tenths = share.unwrap_or(0);
        let ones = tenths / 10;
        let rest = tenths % 10;
        push(&total.name, &mut cells)?;
        push(&total.size, &mut cells)?;
        cells.push(format!(in alloc; "{ones}.{rest}")?)?;
        match total.ranges {
            Some((once, shared)) => {
                push(&once, &mut cells)?;
                push(&shared, &mut cells)?;
            }
            None => {
                push(&"", &mut cells)?;
                push(&"", &mut cells)?;
            }
        }
    }
    put_rows(cells.as_slice(), 5, text)
}

/// Adds a cell.
fn push<D: fmt::Display>(cell: &D, cells: &mut Vec<String>) -> Result<(), AllocError> {
    let cell = format!(in *cells.allocator(); "{cell}")?;
    cells.push(cell)?;
    Ok(())
}

/// Adds rows of this many cells: each column as wide as its widest cell, the first one's cells at
/// its left end, the others' at the right end, with two blanks before them.
fn put_rows(cells: &[String], columns: usize, text: &mut String) -> Result<(), AllocError> {
    let alloc = *text.allocator();
    let mut widths = Vec::from_elem(alloc, 0usize, columns)?;
    for i in 0..cells.len() {
        if let Some(width) = widths.get_mut(i.checked_rem(columns).unwrap_or(0)) {
            *width = cells[i].len().max(*width);
        }
    }
    let mut line = String::new(alloc);
    for i in 0..cells.len() {
        let cell = cells[i].as_str();
        let column = i.checked_rem(columns).unwrap_or(0);
        let width = widths.get(column).copied().unwrap_or(0);
        let blanks = width.saturating_sub(cell.len());
        let blanks = blanks.saturating_add(if column == 0 { 0 } else { 2 });
        if column == 0 {
            line.push_str(cell)?;
        }
        for _blank in 0..blanks {
            line.push_str(" ")?;
        }
        if column != 0 {
            line.push_str(cell)?;
        }
        if column.saturating_add(1) >= columns {
            text.push_str(line.trim_end())?;
            text.push_str("\n")?;
            line.clear();
        }
    }
    Ok(())
}
