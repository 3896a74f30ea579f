//! Units whose abbreviations are ranges of one section (DWARF 5, 7.3.5).

ghost use Rattle.std.specs.Prelude.{◌≡◌, ◌≢◌, ◌≤◌, IfErr, length, take, drop};
ghost use Rattle.dwp_bytes.specs.Input.{section};
ghost use Rattle.dwp_units.specs.Units.{unit_of};
ghost use Rattle.thorin_errors.specs.Answers.{Gives};
ghost use Rattle.thorin_identity.specs.Identity.{identity};

use crate::identity::{dwo_identifier_in_range, dwo_identifier_remembering, header_identifier};
use dwp_base::Endianness;
use dwp_dwarf::{AbbreviationCache, Reader, SliceReader, UnitHeader, UnitType};
use dwp_table::DwarfObject;
use std::alloc::Global;
use std::marker::Model;
use thorin_errors::Error;

/// A section of abbreviations whose units have ranges of it (DWARF 5, 7.3.5), and what was read of
/// tables in it. Compile units of one range, one after the other, share what was read of that
/// range. Where ranges overlap or are used by turns, those that were begun with come to have more
/// bytes than the section: once they have more than twice as many, all units share what is read of
/// the whole section.
#[derive(Drop)]
pub struct RangeTables<'a> {
    alloc: Global,
    order: Endianness,
    bytes: &'a [u8],
    // The range of the section whose tables are remembered.
    held: Part,
    // The abbreviations of that range.
    cache: AbbreviationCache<SliceReader<'a>>,
    // How many bytes the units' ranges have together that were begun with.
    begun: usize,
}

/// A range of a section: where it begins and ends.
#[derive(Clone, Copy, PartialEq)]
struct Part {
    begin: usize,
    end: usize,
}

impl<'a> Model for RangeTables<'a> {
    ghost use Rattle.std.specs.Prelude.{◌≡◌, ◌≤◌, ℕ, List, length, take, drop};
    ghost use Rattle.dwp_base.specs.declared.endian.Endianness.{Endianness as Order};
    ghost use Rattle.dwp_bytes.specs.Input.{section};

    // Contracts see the byte order and the section.
    ghost Value = { Order × List ℕ };

    ghost view = { λ t. (t.order, t.bytes.now) };

    ghost invariant = { λ t. ⟦<SliceReader<'static> as Reader>⟧.input t.cache
        ≡ section t.order (drop t.held.begin (take t.held.end t.bytes.now)) };
}

impl Part {
    /// What stands in a section from `start` up to `end`. Nothing stands past its end.
    fn within(start: usize, end: usize, bytes: &[u8]) -> Part
        ensures same { drop result.begin (take result.end bytes.now)
            ≡ drop start (take end bytes.now) }
        ensures order { result.begin ≤ result.end }
        ensures inside { result.end ≤ length bytes.now }
    {
        let end = end.min(bytes.len());
        let begin = start.min(end);
        Part { begin, end }
    }

    /// It, or all of a section of so many bytes once ranges of too many were begun with.
    fn or_all(self, begun: usize, length: usize) -> Part
        requires order { self.begin ≤ self.end }
        requires inside { self.end ≤ length }
        ensures begin { result.begin ≤ self.begin }
        ensures end { self.end ≤ result.end }
        ensures inside { result.end ≤ length }
    {
        if begun > length.saturating_mul(2) {
            return Part {
                begin: 0,
                end: length,
            };
        }
        self
    }

    /// Its bytes in the section.
    fn of(self, bytes: &[u8]) -> &[u8]
        requires order { self.begin ≤ self.end }
        requires end { self.end ≤ length bytes.now }
        ensures { result.now ≡ drop self.begin (take self.end bytes.now) }
    {
        let until = &bytes[..self.end];
        &until[self.begin..]
    }
}

impl<'a> RangeTables<'a> {
    /// Those of a section. Nothing is read yet, and no memory is taken.
    pub fn new(alloc: Global, bytes: &'a [u8], order: Endianness) -> RangeTables<'a>
        ensures { result ≡ (order, bytes.now) }
    {
        RangeTables {
            alloc,
            order,
            bytes,
            held: Part { begin: 0, end: 0 },
            cache: AbbreviationCache::new(alloc, SliceReader::new(&[], order)),
            begun: 0,
        }
    }

    /// The section.
    pub fn bytes(&self) -> &'a [u8]
        ensures { result.now ≡ self.now.1 }
    {
        self.bytes
    }

    /// What `dwo_identifier_of_unit` says of a unit whose abbreviations stand in the section from
    /// the byte `start` up to the byte `end`. Nothing stands past the section's end, nor where
    /// `end` is before `start`. What was read before is remembered as `RangeTables` says; a unit
    /// that is named by its header changes nothing of that. Errors: those of
    /// `dwo_identifier_of_unit`, of the range.
    #[tactic(auto, unfolding(crate::specs::Identity::identity))]
    pub fn identifier(
        &mut self,
        start: usize,
        end: usize,
        header: &UnitHeader<SliceReader<'a>>,
    ) -> Result<Option<DwarfObject>, Error>
        ensures meaning { Gives (λ name. name) result (identity
            (section self.old.0 (drop start (take end self.old.1)))
            (unit_of ⟦<SliceReader<'a> as Reader>⟧.input header.now)) }
        ensures memory { IfErr result (λ e. e ≢ Error.Memory) }
        ensures kept { self.new ≡ self.old }
    {
        match header.unit_type() {
            UnitType::Compilation => {}
            unit_type => return Ok(header_identifier(unit_type)),
        }
        let range = Part::within(start, end, self.bytes);
        let begun = if range == self.held {
            self.begun
        } else {
            self.begun.saturating_add(range.end - range.begin)
        };
        let part = range.or_all(begun, self.bytes.len());
        if part != self.held {
            self.held = part;
            let reader = SliceReader::new(part.of(self.bytes), self.order);
            self.cache = AbbreviationCache::new(self.alloc, reader);
        }
        self.begun = begun;
        if part == range {
            dwo_identifier_remembering(&mut self.cache, header)
        } else {
            let (from, to) = (range.begin - part.begin, range.end - part.begin);
            dwo_identifier_in_range(&mut self.cache, from, to, header)
        }
    }
}
