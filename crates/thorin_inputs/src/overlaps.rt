//! Files whose sections overlap (ELF gABI, "Sections"), or strings: of these a few bytes of string
//! offsets could ask for as many copies of one long string.

ghost use Rattle.dwp_decompress.specs.Sizes as decompressing;
ghost use Rattle.dwp_elf_read.specs.View as view;
ghost use Rattle.std.specs.Prelude.{if◌then◌else◌, ◌&&◌, ◌*◌, ◌+◌, ◌-◌, ◌<◌, ◌==◌, ◌||◌, ◌≡◌, ◌≤◌};
ghost use Rattle.std.specs.Prelude.{find, IfOk, length, min, nat_lt, OnOk, option_map, sum_by, ℕ};
ghost use Rattle.std.specs.{Option.option_copied, Prelude.◌^◌};
ghost use Rattle.dwp_base.specs.declared.section.SectionKind.TheVariants.{CuIndex, Str, StrOffsets};
ghost use Rattle.dwp_base.specs.declared.section.SectionKind.TheVariants.{Info, TuIndex};
ghost use Rattle.thorin_inputs.specs.InnerStrings.{has_inner_strings, has_row_between, string_size};
ghost use Rattle.thorin_inputs.specs.InnerStrings.{has_word, most_inner, or_nothing, plain_content};
ghost use Rattle.thorin_inputs.specs.InnerStrings.{begins_inside, first_content, is_row_between};
ghost use Rattle.thorin_inputs.specs.InnerStrings.{is_inner, sizes_at, step_by, word_count};
ghost use Rattle.dwp_decompress.specs.declared.asked.Asked.TheVariants.{OfUnits};
ghost use Rattle.dwp_elf_read.specs.{Elf.elf_of, Elf.holds, Elf.is_of, View.elf};
ghost use Rattle.dwp_index.specs.{Index.row_in, IndexBytes.index_of};
ghost use Rattle.thorin_inputs.specs.InnerPlaces.{Counts, is_counted, IsSummed, IsWithin};
ghost use Rattle.thorin_inputs.specs.Overlaps.{each_size, first_size, overlaps, used_size};
ghost use Rattle.thorin_inputs.specs.UsedSections.{AreBetween, met};

use crate::growth::LEAST_ROOM;
use dwp_base::SectionKind;
use dwp_bytes::string_at;
use dwp_decompress::Asked;
use dwp_elf::{ElfFile, Endianness, Section};
use dwp_index::UnitIndex;
use std::alloc::{AllocError, Global};
use std::collections::BTreeSet;

/// How many bytes an offset of a string has at least. A longer one is a word with its lower half,
/// and another that is zero.
const WORD: usize = 4;

/// How many times as many bytes as their file such strings may have.
const FILES: u128 = 16;

/// Whether the sections of an object or a package that are used have more bytes than its file.
pub fn has_overlap(bytes: &[u8]) -> bool
    ensures exact { result ≡ overlaps bytes.now (elf_of bytes.now) }
{
    match ElfFile::parse(bytes) {
        Ok(file) => used_size(&file) > bytes.len() as u64,
        Err(_) => false,
    }
}

/// Whether the compressed sections that `decompress` makes plain have more bytes than their file.
pub fn has_compressed_overlap(bytes: &[u8]) -> bool
    ensures exact { result ≡ decompressing.overlaps OfUnits bytes.now (elf_of bytes.now) }
{
    dwp_decompress::overlaps(bytes, Asked::OfUnits)
}

/// How many bytes the used sections of an object or a package have, at most what a `u64` can say.
#[tactic(auto, unfolding(crate::specs::Overlaps::used_size))]
fn used_size(file: &ElfFile<'_>) -> u64
    ensures { result ≡ min (used_size (elf file.now).sections) (2 ^ 64 - 1) }
{
    match units(file) {
        Some(_units) => each_sizes(file)
            .saturating_add(first_size(file, SectionKind::Str))
            .saturating_add(first_size(file, SectionKind::CuIndex))
            .saturating_add(first_size(file, SectionKind::TuIndex)),
        None => 0,
    }
}

/// The first section of units.
#[tactic(auto, using(dwp_base::proofs::Finds::find_hit, dwp_base::proofs::Finds::find_miss, dwp_base::proofs::Finds::slice_get_none))]
fn units<'a>(file: &ElfFile<'a>) -> Option<Section<'a>>
    ensures { option_map view.section result ≡ find (is_of Info) (elf file.now).sections }
{
    for i in 0..file.section_count() {
        if let Some(section) = file.section(i) {
            if section.is_of(SectionKind::Info) {
                return Some(section);
            }
        }
    }
    None
}

/// The size of the first section of a kind that has bytes; 0 where there is none.
#[tactic(auto, using(dwp_base::proofs::Finds::find_hit, dwp_base::proofs::Finds::find_miss, dwp_base::proofs::Finds::slice_get_none))]
fn first_size(file: &ElfFile<'_>, kind: SectionKind) -> u64
    ensures { result ≡ first_size kind (elf file.now).sections }
{
    for i in 0..file.section_count() {
        if let Some(section) = file.section(i) {
            if section.holds(kind) {
                return section.size();
            }
        }
    }
    0
}

/// How many bytes of a section are used if each of its kind is.
fn each_size(section: &Section<'_>) -> u64
    ensures { result ≡ each_size (view.section section.now) }
{
    if section.is_empty() {
        return 0;
    }
    match section.section_kind() {
        None | Some(SectionKind::Str | SectionKind::CuIndex | SectionKind::TuIndex) => 0,
        Some(_kind) => section.size(),
    }
}

/// What those have together.
#[tactic(auto, using(crate::proofs::Counted::each_step, crate::proofs::Counted::each_end, dwp_base::proofs::Finds::slice_get_none))]
fn each_sizes(file: &ElfFile<'_>) -> u64
    ensures { result ≡ min (sum_by each_size (elf file.now).sections) (2 ^ 64 - 1) }
{
    let mut size = 0u64;
    for i in 0..file.section_count() {
        if let Some(section) = file.section(i) {
            size = size.saturating_add(each_size(&section));
        }
    }
    size
}

/// The strings of a file that begin inside others.
#[derive(Drop)]
struct InnerStrings<'a> {
    /// The section of strings.
    strings: &'a [u8],
    /// How many bytes the file has.
    file_size: usize,
    /// Where those begin that are counted, and how many bytes they have.
    places: BTreeSet<u32>,
    size: u128,
}

/// Whether an object's or a package's strings that begin inside others have more than 16 times the
/// bytes of the file, and more than `LEAST_ROOM`. All words of its string offsets are looked at,
/// those of headers too. Errors: want of memory.
pub fn has_inner_strings(alloc: Global, bytes: &[u8]) -> Result<bool, AllocError>
    ensures exact { IfOk result (λ has. has ≡ has_inner_strings bytes.now (elf_of bytes.now)) }
{
    match ElfFile::parse(bytes) {
        Ok(file) if units(&file).is_some() => has_inner_beside(alloc, &file, bytes.len()),
        _ => Ok(false),
    }
}

/// What `has_inner_strings` says of a file of so many bytes that has units.
fn has_inner_beside(alloc: Global, file: &ElfFile<'_>, size: usize) -> Result<bool, AllocError>
    ensures { IfOk result (λ has. let strings = or_nothing (first_content Str (elf file.now).sections) in
        has ≡ nat_lt (most_inner size) (sizes_at strings (is_inner (elf file.now) strings))) }
{
    let order = file.endianness();
    let used = UsedSections::of(file);
    let step = step_of(used, order);
    let mut inner = InnerStrings {
        strings: or_nothing(used.strings),
        file_size: size,
        places: BTreeSet::new(alloc),
        size: 0,
    };
    for i in used.first_offsets..used.behind_offsets {
        if let Some(section) = file.section(i) {
            if section.holds(SectionKind::StrOffsets)
                && inner.count(content(&section), order, step)?
            {
                return Ok(true);
            }
        }
    }
    Ok(false)
}

/// At each how many bytes a word of string offsets may begin.
fn step_of(used: UsedSections<'_>, order: Endianness) -> usize
    ensures step { result ≡ step_by order (or_nothing (option_copied used.entry.compilations))
        (or_nothing (option_copied used.entry.types)) }
    ensures least { 1 ≤ result }
    ensures most { result ≤ 4 }
{
    if has_row_between(or_nothing(used.compilations), order)
        || has_row_between(or_nothing(used.types), order)
    {
        return 1;
    }
    WORD
}

/// Whether the string offsets of some row of an index, if it is one, begin between words.
#[tactic(auto, using(crate::proofs::Counted::row_passed))]
fn has_row_between(index: &[u8], order: Endianness) -> bool
    ensures { result ≡ has_row_between (index_of order index.now) }
{
    let Ok(index) = UnitIndex::parse(index, order) else {
        return false;
    };
    for number in 0..index.unit_count() {
        if is_row_between(&index, number + 1) {
            return true;
        }
    }
    false
}

/// Whether those of a row do.
fn is_row_between(index: &UnitIndex<'_>, number: u32) -> bool
    ensures { result ≡ is_row_between (row_in index.now number) }
{
    let Ok(row) = index.row(number) else {
        return false;
    };
    matches!(row.range(SectionKind::StrOffsets), Some(range) if range.offset.0 % 4 != 0)
}

impl InnerStrings<'_> {
    /// Counts those that words of string offsets name, of which one begins at each so many bytes;
    /// up to the one with which they are too large. Answers whether they are.
    fn count(&mut self, offsets: &[u8], order: Endianness, step: usize) -> Result<bool, AllocError>
        requires within { IsWithin self.old }
        requires least { 1 ≤ step }
        requires most { step ≤ 4 }
        ensures { IfOk result (Counts self.old self.new (λ at.
            has_word order step offsets.now at && begins_inside self.old.strings.now at)) }
    {
        match (order, step) {
            // (nearly all files have these)
            (Endianness::Little, WORD) => self.count_by(offsets, Endianness::Little, WORD),
            _ => self.count_by(offsets, order, step),
        }
    }

    /// The loop of `count`, which is compiled for an order and a step.
    #[inline(always)]
    fn count_by(
        &mut self,
        offsets: &[u8],
        order: Endianness,
        step: usize,
    ) -> Result<bool, AllocError>
        requires within { IsWithin self.old }
        requires least { 1 ≤ step }
        requires most { step ≤ 4 }
        ensures { IfOk result (Counts self.old self.new (λ at.
            has_word order step offsets.now at && begins_inside self.old.strings.now at)) }
    {
        let strings = self.strings;
        for number in 0..word_count(offsets.len(), step) {
            let place = order.read_u32(&offsets[number * step..]);
            if begins_inside(strings, place) && self.add(place)? {
                return Ok(true);
            }
        }
        Ok(false)
    }

    /// Counts the one that begins at a place, once. Answers whether they are too large then.
    #[inline(never)]
    fn add(&mut self, place: u32) -> Result<bool, AllocError>
        requires { IsWithin self.old }
        ensures strings { OnOk result (self.new.strings.now ≡ self.old.strings.now) }
        ensures file { OnOk result (self.new.file_size ≡ self.old.file_size) }
        ensures summed { OnOk result (IsSummed self.new) }
        ensures past { IfOk result (λ past.
            past ≡ nat_lt (most_inner self.old.file_size) self.new.size) }
        ensures all { OnOk result ((at : ℕ) → is_counted self.new at
            ≡ (is_counted self.old at || place == at)) }
    {
        if self.places.insert(place)? {
            self.size += size_at(self.strings, place as usize) as u128;
        }
        Ok(self.size > (self.file_size as u128 * FILES).max(LEAST_ROOM as u128))
    }
}

/// How many words so many bytes have, of which one begins at each so many bytes.
#[inline(always)]
fn word_count(size: usize, step: usize) -> usize
    requires least { 1 ≤ step }
    requires most { step ≤ 4 }
    ensures { result ≡ word_count step size }
{
    if size < WORD {
        return 0;
    }
    (size - WORD) / step + 1
}

/// Whether the byte before a place is one of a string.
#[inline(always)]
fn begins_inside(strings: &[u8], place: u32) -> bool
    ensures { result ≡ begins_inside strings.now place }
{
    matches!(strings.get((place as usize).wrapping_sub(1)), Some(before) if *before != 0)
}

/// How many bytes a string has that begins at a place, with the zero byte at its end; those to the
/// end of the section where there is none.
fn size_at(strings: &[u8], place: usize) -> usize
    ensures { result ≡ string_size strings.now place }
{
    match string_at(strings, place as u64) {
        Ok(string) => string.len() + 1,
        Err(_) => strings.len().saturating_sub(place),
    }
}

/// The sections of a file that its strings are named by. Of strings and of each index that is the
/// first that has bytes: its content, or nothing where it is compressed, or can't be read.
#[derive(Clone, Copy)]
struct UsedSections<'a> {
    strings: Option<&'a [u8]>,
    compilations: Option<&'a [u8]>,
    types: Option<&'a [u8]>,
    /// The number of the first section of string offsets that has bytes, and one more than that of
    /// the last; the same where there is none.
    first_offsets: usize,
    behind_offsets: usize,
}

impl<'a> UsedSections<'a> {
    /// Those of a file.
    fn of(file: &ElfFile<'a>) -> UsedSections<'a>
        ensures strings { option_copied result.strings ≡ first_content Str (elf file.now).sections }
        ensures compilations { option_copied result.compilations
            ≡ first_content CuIndex (elf file.now).sections }
        ensures types { option_copied result.types ≡ first_content TuIndex (elf file.now).sections }
        ensures offsets { AreBetween (elf file.now) result.first_offsets result.behind_offsets
            (length (elf file.now).sections) }
    {
        let mut used = UsedSections {
            strings: None,
            compilations: None,
            types: None,
            first_offsets: 0,
            behind_offsets: 0,
        };
        for i in 0..file.section_count() {
            if let Some(section) = file.section(i) {
                used.add(i, &section);
            }
        }
        used
    }

    /// Adds a section that has a number, behind those that were added.
    fn add(&mut self, number: usize, section: &Section<'a>)
        requires { number < usize.MAX }
        ensures strings { option_copied self.new.strings
            ≡ met Str (option_copied self.old.strings) (view.section section.now) }
        ensures compilations { option_copied self.new.compilations
            ≡ met CuIndex (option_copied self.old.compilations) (view.section section.now) }
        ensures types { option_copied self.new.types
            ≡ met TuIndex (option_copied self.old.types) (view.section section.now) }
        ensures first { self.new.first_offsets ≡ (if holds StrOffsets (view.section section.now)
            && self.old.behind_offsets == 0 then number else self.old.first_offsets) }
        ensures behind { self.new.behind_offsets ≡ (if holds StrOffsets (view.section section.now)
            then number + 1 else self.old.behind_offsets) }
    {
        // (an object has one of these for each type unit)
        if section.is_of(SectionKind::Info) || section.is_of(SectionKind::Types) {
            return;
        }
        self.strings = first_of(self.strings, SectionKind::Str, section);
        self.compilations = first_of(self.compilations, SectionKind::CuIndex, section);
        self.types = first_of(self.types, SectionKind::TuIndex, section);
        if section.holds(SectionKind::StrOffsets) {
            if self.behind_offsets == 0 {
                self.first_offsets = number;
            }
            self.behind_offsets = number + 1;
        }
    }
}

/// The content of the first section of a kind that has bytes, once one more section is met.
fn first_of<'a>(
    before: Option<&'a [u8]>,
    kind: SectionKind,
    section: &Section<'a>,
) -> Option<&'a [u8]>
    ensures { option_copied result ≡ met kind (option_copied before.entry) (view.section section.now) }
{
    if before.is_none() && section.holds(kind) {
        return Some(content(section));
    }
    before
}

/// What was met, or nothing.
fn or_nothing(content: Option<&[u8]>) -> &[u8]
    ensures { result.now ≡ or_nothing (option_copied content.entry) }
{
    content.unwrap_or(&[])
}

/// The plain content of a section; nothing where it is compressed, or can't be read.
pub(crate) fn content<'a>(section: &Section<'a>) -> &'a [u8]
    ensures { result.now ≡ plain_content (view.section section.now) }
{
    if section.is_compressed() {
        return &[];
    }
    section.data().unwrap_or(&[])
}
