//! Indexes of a package, and their rows (DWARF 5, 7.3.5.3).
#![tactic(auto, using(crate::proofs::Indexes::read_numbers), unfolding(crate::specs::Index::range_in))]

ghost use Rattle.std.specs.Prelude.{◌≡◌, ◌<◌, ◌≤◌, ◌+◌, ℕ, List, length, slice_index, is_some};
ghost use Rattle.dwp_table.specs.Probing.{found_row, look_count};
ghost use Rattle.dwp_table.specs.Table.{IsIndex, FindsExactly};
ghost use Rattle.dwp_index.specs.Index.{row_in, column_place, range_in};
ghost use Rattle.{dwp_base.specs.Reading.Answers, dwp_index.specs.IndexBytes.index_of};

use crate::parsing::{after, after_rows, read_columns, read_u32_at, tail, version_of};
use dwp_base::{ByKind, Contribution, ContributionOffset, Endianness, SectionKind};
use dwp_bytes::ReadError;
use dwp_table::{first_place, place_after};
use std::marker::Model;

/// Stands for no column. An index has fewer columns than this, so no place is so large.
pub(crate) const NO_COLUMN: u32 = u32::MAX;

/// An index of a package: a hash table from identifiers to rows, and for each row its ranges in the
/// package's sections (DWARF 5, 7.3.5.3).
#[derive(Drop)]
pub struct UnitIndex<'a> {
    order: Endianness,
    version: u16,
    column_count: u32,
    unit_count: u32,
    slot_count: u32,
    // Each of these begins at its table, and goes on to the end of the index.
    signatures: &'a [u8],
    rows: &'a [u8],
    columns: &'a [u8],
    offsets: &'a [u8],
    sizes: &'a [u8],
    // The place of each section's column among the columns; `NO_COLUMN` where it has none.
    places: ByKind<u32>,
}

impl<'a> Model for UnitIndex<'a> {
    ghost use Rattle.dwp_index.specs.Index.{Index};

    ghost Value = { Index };

    ghost use Rattle.dwp_index.specs.Fields.{index_in, IsUnitIndex};

    ghost view = { index_in };

    ghost invariant = { IsUnitIndex };
}

/// One row of an index: its ranges.
#[derive(Drop)]
pub struct Row<'a> {
    order: Endianness,
    version: u16,
    column_count: u32,
    // The first begins at the columns, the others at the row's numbers.
    columns: &'a [u8],
    offsets: &'a [u8],
    sizes: &'a [u8],
    // The place of each section's column among the columns; `NO_COLUMN` where it has none.
    places: ByKind<u32>,
}

impl<'a> Model for Row<'a> {
    ghost use Rattle.dwp_index.specs.Index.{Ranges};

    ghost Value = { Ranges };

    ghost use Rattle.dwp_index.specs.RowFields.{ranges_in, IsRow};

    ghost view = { ranges_in };

    ghost invariant = { IsRow };
}

impl<'a> UnitIndex<'a> {
    /// Reads an index. Bytes after the index are passed over. Errors: the first error in order of
    /// place: `UnexpectedEof`, `IndexVersion`, `SlotCount`, `UnknownColumn` or `RepeatedColumn`.
    #[tactic(auto, unfolding(crate::specs::IndexBytes::index_of, crate::specs::IndexBytes::counts_of))]
    #[inline(always)]
    pub fn parse(bytes: &'a [u8], order: Endianness) -> Result<UnitIndex<'a>, ReadError>
        ensures { Answers (λ x. x) result (index_of order bytes.now) }
    {
        let version = version_of(bytes, order)?;
        if bytes.len() < 16 {
            return Err(ReadError::UnexpectedEof);
        }
        let column_count = read_u32_at(bytes, order, 4);
        let unit_count = read_u32_at(bytes, order, 8);
        let slot_count = read_u32_at(bytes, order, 12);
        if !((slot_count.is_power_of_two() && unit_count < slot_count)
            || (slot_count == 0 && unit_count == 0))
        {
            return Err(ReadError::SlotCount);
        }
        let signatures = tail(bytes, 16);
        let rows = after(signatures, 8 * slot_count as u64)?;
        let columns = after(rows, 4 * slot_count as u64)?;
        let (places, offsets) = read_columns(columns, order, version, column_count)?;
        let sizes = after_rows(offsets, column_count, unit_count)?;
        after_rows(sizes, column_count, unit_count)?;
        Ok(UnitIndex {
            order,
            version,
            column_count,
            unit_count,
            slot_count,
            signatures,
            rows,
            columns,
            offsets,
            sizes,
            places,
        })
    }

    /// The version: 2 of the GNU form, 5 of DWARF 5.
    pub fn version(&self) -> u16
        ensures { result ≡ self.now.version }
    {
        self.version
    }

    /// How many rows there are.
    pub fn unit_count(&self) -> u32
        ensures { result ≡ length self.now.offsets }
    {
        self.unit_count
    }

    /// How many slots the hash table has.
    pub fn slot_count(&self) -> u32
        ensures { result ≡ length self.now.rows }
    {
        self.slot_count
    }

    /// The row of an identifier, counted from 1.
    pub fn find(&self, identifier: u64) -> Option<u32>
        ensures { result ≡ found_row self.now.signatures self.now.rows identifier }
    {
        self.find_counted(identifier).0
    }

    /// The row of an identifier, counted from 1, and how many slots were looked at.
    #[inline(always)]
    pub fn find_counted(&self, identifier: u64) -> (Option<u32>, u32)
        ensures row { result.0 ≡ found_row self.now.signatures self.now.rows identifier }
        ensures count { result.1 ≡ look_count self.now.signatures self.now.rows identifier }

        // No slot is looked at twice.
        ensures bound { result.1 ≤ length self.now.rows }

        // In a table of distinct identifiers: each one's row, and none for any other.
        ensures exact { (ids : List ℕ) → IsIndex ids self.now.signatures self.now.rows
            → FindsExactly ids identifier result.0 result.1 }
        ensures few { (ids : List ℕ) → IsIndex ids self.now.signatures self.now.rows
            → result.1 ≤ length ids + 1 }
    {
        if self.slot_count == 0 {
            return (None, 0);
        }
        let mut at = first_place(self.slot_count, identifier);
        for looked in 0..self.slot_count {
            let (signature, row) = self.slot(at);
            if row == 0 {
                return (None, looked + 1);
            }
            if signature == identifier {
                return (Some(row), looked + 1);
            }
            at = place_after(self.slot_count, identifier, at);
        }
        (None, self.slot_count)
    }

    /// The ranges of a row, counted from 1. Errors: `RowOutOfRange` past the rows.
    #[tactic(auto, using(crate::proofs::Indexes::read_numbers), unfolding(crate::specs::Index::row_in))]
    #[inline(always)]
    pub fn row(&self, row: u32) -> Result<Row<'a>, ReadError>
        ensures { result ≡ row_in self.now row }
    {
        if row == 0 || row > self.unit_count {
            return Err(ReadError::RowOutOfRange);
        }
        let start = 4 * self.column_count as usize * (row as usize - 1);
        Ok(Row {
            order: self.order,
            version: self.version,
            column_count: self.column_count,
            columns: self.columns,
            offsets: tail(self.offsets, start),
            sizes: tail(self.sizes, start),
            places: self.places,
        })
    }

    /// Whether the index has a column for a section.
    pub fn has_column(&self, kind: SectionKind) -> bool
        ensures { result ≡ is_some (column_place self.now.version self.now.columns kind) }
    {
        self.places.get(kind) != NO_COLUMN
    }

    /// The signature and the row number of a slot.
    #[inline(always)]
    pub(crate) fn slot(&self, slot: u32) -> (u64, u32)
        requires { slot < length self.now.rows }
        ensures signature { result.0 ≡ slice_index self.now.signatures slot }
        ensures row { result.1 ≡ slice_index self.now.rows slot }
    {
        let slot = slot as usize;
        (
            self.order.read_u64(tail(self.signatures, 8 * slot)),
            read_u32_at(self.rows, self.order, 4 * slot),
        )
    }
}

impl<'a> Row<'a> {
    /// The row's range in a section; None where it has none, or one of no bytes.
    #[inline(always)]
    pub fn range(&self, kind: SectionKind) -> Option<Contribution>
        ensures { result ≡ range_in self.now kind }
    {
        let place = self.places.get(kind);
        if place == NO_COLUMN {
            return None;
        }
        let at = 4 * place as usize;
        let size = read_u32_at(self.sizes, self.order, at);
        if size == 0 {
            return None;
        }
        Some(Contribution {
            offset: ContributionOffset(read_u32_at(self.offsets, self.order, at) as u64),
            size: size as u64,
        })
    }
}
