//! String offsets of four bytes, the lowest first, each rewritten in its place: most are such, and
//! the strings of nearly all are told by their hashes, one after the other.

ghost use Rattle.std.specs.Prelude.{List, Ok, OnOk, ℕ, ◌*◌, ◌++◌, ◌+◌, ◌<◌, ◌^◌, ◌≡◌, ◌≢◌, ◌≤◌};
ghost use Rattle.std.specs.Prelude.{IfSome, IsNone, length, take};
ghost use Rattle.dwp_base.specs.declared.endian.Endianness.TheVariants.{Little};
ghost use Rattle.dwp_base.specs.Numbers.{number_bytes};
ghost use Rattle.dwp_bytes.specs.declared.encoding.Format.TheVariants.{Dwarf32};
ghost use Rattle.thorin_errors.specs.Answers.{Gives};
ghost use Rattle.dwp_bytes.specs.StringOffsets.{header_size};
ghost use Rattle.thorin_strings.specs.StringOffsets.{entry_at, remapped};
ghost use Rattle.thorin_strings.specs.{Known.AreKnown, Known.offset_read, Written.AreWritten};

use crate::offsets::{dwarf32, header};
use crate::repeats::Repeats;
use crate::table::PackageStringTable;
use dwp_base::Endianness;
use dwp_bytes::{Encoding, Format, StringOffsets};
use std::alloc::AllocError;
use thorin_errors::Error;

/// The offset that the entry of a number has.
#[inline(always)]
#[tactic(auto, unfolding(crate::specs::StringOffsets::offset_at), using(std::proofs::lemmas::List::take_rest))]
fn word_at(debug_str_offsets: &[u8], encoding: Encoding, index: usize) -> u64
    requires form { encoding.format ≡ Dwarf32 }
    requires within { header_size encoding + index * 4 + 4 ≤ length debug_str_offsets.now }
    ensures { entry_at Little encoding debug_str_offsets.now index ≡ Ok result }
{
    let at = encoding.string_offsets_header_size() + index * 4;
    Endianness::Little.read_u32(&debug_str_offsets[at..]) as u64
}

/// Writes an offset of four bytes, the lowest first.
#[inline(always)]
#[tactic(auto, using(std::proofs::lemmas::Grind::elements))]
fn write_word(out: &mut [u8], at: usize, offset: u64)
    requires within { at + 4 ≤ length out.old }
    requires fits { offset < 2 ^ 32 }
    ensures long { length out.new ≡ length out.old }
    ensures written { take (at + 4) out.new ≡ take at out.old ++ number_bytes Little 4 offset }
{
    // (each byte is set: so it is one store, where a copy would look whether the two overlap)
    let bytes = (offset as u32).to_le_bytes();
    out[at] = bytes[0];
    out[at + 1] = bytes[1];
    out[at + 2] = bytes[2];
    out[at + 3] = bytes[3];
}

/// How many bytes are copied together.
const PIECE: usize = 1024;

/// Appends bytes, some at a time: longer pieces are copied byte by byte on some processors.
fn append_by_pieces(out: &mut Vec<u8>, bytes: &[u8]) -> Result<(), AllocError>
    ensures { OnOk result (out.new.items ≡ out.old.items ++ bytes.now) }
{
    out.reserve(bytes.len())?;
    for piece in bytes.chunks(PIECE) {
        out.extend_from_slice(piece)?;
    }
    Ok(())
}

/// How many entries are rewritten one by one where the first of them isn't told by a hash.
const APART: usize = 16;

/// How many bytes a string has at most, with the zero at its end, whose end is guessed: longer ones
/// are looked for among those that are remembered.
const SHORT: u64 = 512;

#[tactic(auto, using(std::proofs::lemmas::List::take_all))]
impl PackageStringTable {
    /// The offset of a short string that ends before the next one, where its hash tells its place;
    /// behind `last` fewer bytes are left than a short string may have.
    #[inline(always)]
    fn guessed_offset(&mut self, debug_str: &[u8], last: u64, named: u64, after: u64) -> Option<u64>
        requires { last + 512 ≤ length debug_str.now }
        ensures meaning { IfSome result (λ offset.
            offset_read debug_str.now named self.old ≡ Ok (offset, self.new)) }
        ensures fits { IfSome result (λ offset. offset < 2 ^ 32) }
        ensures kept { take (length self.old) self.new ≡ self.old }
        ensures none { IsNone result → self.new ≡ self.old }
    {
        let end = after.wrapping_sub(named).wrapping_sub(1);
        if end >= SHORT || named > last {
            return None;
        }
        let rest = &debug_str[named as usize..];
        let end = end as usize;
        if rest[end] != 0 {
            return None;
        }
        let offset = self.strings.place_guessed(rest, end)?;
        Some(offset as u64)
    }

    /// Rewrites entries in their places from a number on, as far as each is told so and isn't the
    /// last; the number of the next. (Offsets that compilers make are in order, so `after` is where
    /// the next string begins.)
    #[inline(never)]
    fn write_told(
        &mut self,
        range: &StringOffsets<'_>,
        out: &mut [u8],
        from: usize,
        tried_from: usize,
    ) -> usize
        requires form { range.now.encoding.format ≡ Dwarf32 }
        requires here { header_size range.now.encoding + from * 4 + 4 ≤ length out.old }
        requires within { length out.old ≤ length range.now.offsets.now }
        ensures further { from ≤ result }
        ensures here { header_size range.now.encoding + result * 4 + 4 ≤ length out.old }
        ensures long { length out.new ≡ length out.old }
        ensures told { (old : List (List ℕ)) (front : List ℕ)
            → AreWritten range.now.encoding range.now.strings.now range.now.offsets.now from front
            old self.old out.old
            → AreWritten range.now.encoding range.now.strings.now range.now.offsets.now result front
            old self.new out.new }
        ensures kept { take (length self.old) self.new ≡ self.old }
    {
        let strings = range.strings;
        let offsets = range.offsets;
        let encoding = range.encoding;
        let first = encoding.string_offsets_header_size();
        let last = (out.len() - first) / 4 - 1;
        if from < tried_from || (strings.len() as u64) < SHORT {
            return from;
        }
        let last_named = strings.len() as u64 - SHORT;
        let mut index = from;
        let mut named = word_at(offsets, encoding, from);
        while index < last {
            let after = word_at(offsets, encoding, index + 1);
            let Some(offset) = self.guessed_offset(strings, last_named, named, after) else {
                return index;
            };
            write_word(out, first + index * 4, offset);
            named = after;
            index += 1;
        }
        index
    }

    /// `remapped` of a whole range, with offsets of four bytes, the lowest first.
    #[inline(always)]
    #[tactic(auto, unfolding(crate::specs::StringOffsets::remapped), using(crate::proofs::Remapping::are_known_later, std::proofs::lemmas::List::take_all))]
    pub(crate) fn remapped_words(
        &mut self,
        repeats: &mut Repeats,
        range: &StringOffsets<'_>,
        section_size: u64,
    ) -> Result<Vec<u8>, Error>
        requires little { range.now.order ≡ Little }
        requires form { range.now.encoding.format ≡ Dwarf32 }
        requires whole { section_size ≤ length range.now.offsets.now }
        requires some { section_size ≢ 0 }
        requires headed { header_size range.now.encoding ≤ section_size }
        requires known { AreKnown range.now.strings.now self.old repeats.old }
        ensures meaning { Gives (λ bytes. (bytes.items, self.new)) result
            (remapped Little range.now.encoding range.now.strings.now range.now.offsets.now
            section_size self.old) }
        ensures kept { take (length self.old) self.new ≡ self.old }
        ensures known { AreKnown range.now.strings.now self.new repeats.new }
    {
        // (copies, of which the compiler knows that no call changes them)
        let offsets = range.offsets;
        let encoding = dwarf32(range.encoding);
        let count = encoding.string_offsets_count(section_size) as usize;
        let mut out = header(self.alloc, Endianness::Little, encoding, count as u64 * 4)?;
        let first = out.len();
        // (room for each entry: the old ones)
        append_by_pieces(&mut out, &offsets[first..first + count * 4])?;
        let mut again = 0;
        let mut index = 0;
        while index < count {
            // (nearly every entry is told here, without room for an error)
            let from = index;
            index = self.write_told(range, &mut out, from, again);
            if from >= again && index == from {
                again = index.saturating_add(APART);
            }
            let named = word_at(offsets, encoding, index);
            let offset = match self.other_offset(repeats, range.strings, named, u32::MAX as u64) {
                Some(offset) => offset,
                None => self.fitting_offset(repeats, range.strings, named, Format::Dwarf32)?,
            };
            write_word(&mut out, first + index * 4, offset);
            index += 1;
        }
        Ok(out)
    }
}
