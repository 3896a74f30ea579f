//! String offsets, rewritten into a table of strings (DWARF 5, 7.26).

ghost use Rattle.std.specs.Prelude.{length, take, [], ◌*◌, ◌++◌, ◌+◌, ◌<◌, ◌^◌, ◌≡◌, ◌≢◌, ◌≤◌};
ghost use Rattle.std.specs.Prelude.{IfOk, OnErr, OnOk};
ghost use Rattle.thorin_strings.specs.StringOffsets.{header_of, offset_limit, string_read};
ghost use Rattle.thorin_strings.specs.StringOffsets.{remapped};
ghost use Rattle.dwp_base.specs.Numbers.{number_bytes};
ghost use Rattle.dwp_bytes.specs.declared.encoding.Format.TheVariants.{Dwarf32};
ghost use Rattle.dwp_bytes.specs.{Encoding.offset_size, StringOffsets.header_size};
ghost use Rattle.thorin_errors.specs.Answers.{Gives};
ghost use Rattle.dwp_strings.specs.Strings.{IsZeroFree};
ghost use Rattle.thorin_strings.specs.Known.{AreKnown, fitting_read, offset_read};

use crate::repeats::Repeats;
use crate::table::PackageStringTable;
use dwp_base::Endianness;
use dwp_bytes::{Encoding, Format, ReadError, StringOffsets, string_at};
use std::alloc::{AllocError, Global};
use thorin_errors::Error;

/// The largest length of the 32-bit format (DWARF 5, 7.4).
const LENGTH_LIMIT: u64 = 0xffff_ffef;

/// The largest offset of the format.
pub(crate) fn offset_limit(format: Format) -> u64
    ensures { result ≡ offset_limit format }
{
    match format {
        Format::Dwarf32 => 0xffff_ffff,
        Format::Dwarf64 => u64::MAX,
    }
}

/// Appends a number that fits the format's offset size.
#[inline(always)]
pub(crate) fn push_offset(
    out: &mut Vec<u8>,
    endian: Endianness,
    format: Format,
    value: u64,
) -> Result<(), AllocError>
    requires { value ≤ offset_limit format }
    ensures { OnOk result (out.new.items
        ≡ out.old.items ++ number_bytes endian (offset_size format) value) }
{
    // (each order has its own call: so each is one store)
    match (format, endian) {
        (Format::Dwarf32, Endianness::Little) => {
            out.extend_from_slice(&(value as u32).to_le_bytes())
        }
        (Format::Dwarf32, Endianness::Big) => out.extend_from_slice(&(value as u32).to_be_bytes()),
        (Format::Dwarf64, _) => out.extend_from_slice(&endian.bytes_of_u64(value)),
    }
}

/// The header of a contribution whose entries have so many bytes; before DWARF 5 nothing.
#[tactic(auto, unfolding(crate::specs::StringOffsets::header_of))]
pub(crate) fn header(
    alloc: Global,
    endian: Endianness,
    encoding: Encoding,
    entry_bytes: u64,
) -> Result<Vec<u8>, Error>
    requires { header_size encoding + entry_bytes < 2 ^ 64 }
    ensures { Gives (λ bytes. bytes.items) result (header_of endian encoding entry_bytes) }
{
    let mut bytes = Vec::new(alloc);
    if !encoding.is_std_dwarf_package_format() {
        return Ok(bytes);
    }
    let length = entry_bytes + 4;
    match encoding.format {
        Format::Dwarf32 if length > LENGTH_LIMIT => {
            return Err(Error::NumberTooLarge("string offsets length", length));
        }
        Format::Dwarf32 => {}
        Format::Dwarf64 => bytes.extend_from_slice(&endian.bytes_of_u32(u32::MAX))?,
    }
    push_offset(&mut bytes, endian, encoding.format, length)?;
    bytes.extend_from_slice(&endian.bytes_of_u16(5))?;
    bytes.extend_from_slice(&endian.bytes_of_u16(0))?;
    Ok(bytes)
}

/// The string at an offset.
fn string_read(debug_str: &[u8], offset: u64) -> Result<&[u8], Error>
    ensures meaning { Gives (λ string. string.now) result (string_read debug_str.now offset) }
    ensures zero_free { IfOk result (λ string. IsZeroFree string.now) }
{
    match string_at(debug_str, offset) {
        Ok(string) => Ok(string),
        Err(e) => Err(Error::StrAtOffset(e, offset as usize)),
    }
}

/// An encoding, of which the compiler knows the format then.
#[inline(always)]
pub(crate) fn dwarf32(encoding: Encoding) -> Encoding
    requires { encoding.format ≡ Dwarf32 }
    ensures { result ≡ encoding }
{
    Encoding {
        format: Format::Dwarf32,
        ..encoding
    }
}

#[tactic(auto, using(std::proofs::lemmas::List::take_all))]
impl PackageStringTable {
    /// A range of string offsets, rewritten so that each entry names the same string in this table,
    /// under the same encoding. New strings are appended. A refusal leaves the table as it was.
    ///
    /// `section_size` is how many bytes the range has; in a file that is whole it isn't past
    /// `debug_str_offsets`. A range of no bytes gives none. Errors: in this order: a range shorter
    /// than its header (`BadStringOffsets(0)`), a length past the format's limit
    /// (`NumberTooLarge`), and entry by entry one that can't be read (`OffsetAtIndex`), a string
    /// that can't be read (`StrAtOffset`), an offset past the format's limit (`NumberTooLarge`);
    /// `Memory`.
    pub fn remap_str_offsets_section(
        &mut self,
        debug_str: &[u8],
        debug_str_offsets: &[u8],
        section_size: u64,
        endian: Endianness,
        encoding: Encoding,
    ) -> Result<Vec<u8>, Error>
        ensures meaning { Gives (λ bytes. (bytes.items, self.new)) result
            (remapped endian encoding debug_str.now debug_str_offsets.now section_size self.old) }
        ensures kept { take (length self.old) self.new ≡ self.old }
        ensures err { OnErr result (self.new ≡ self.old) }
    {
        let mut repeats = Repeats::new(self.alloc);
        let range = StringOffsets {
            strings: debug_str,
            offsets: debug_str_offsets,
            order: endian,
            encoding,
        };
        self.remap_repeating(&mut repeats, &range, section_size)
    }

    /// As `remap_str_offsets_section`, for one of many ranges that name strings of the same
    /// section: a long string is read once for all of them. `repeats` remembers strings of that
    /// section alone, and where they are in this table. Errors: those of
    /// `remap_str_offsets_section`; then nothing is remembered.
    pub fn remap_repeating(
        &mut self,
        repeats: &mut Repeats,
        range: &StringOffsets<'_>,
        section_size: u64,
    ) -> Result<Vec<u8>, Error>
        requires { AreKnown range.now.strings.now self.old repeats.old }
        ensures meaning { Gives (λ bytes. (bytes.items, self.new)) result
            (remapped range.now.order range.now.encoding range.now.strings.now range.now.offsets.now
            section_size self.old) }
        ensures kept { take (length self.old) self.new ≡ self.old }
        ensures err { OnErr result ((self.new ≡ self.old) × (repeats.new ≡ [])) }
        ensures known { AreKnown range.now.strings.now self.new repeats.new }
    {
        let mark = self.mark();
        let result = self.remapped_by_form(repeats, range, section_size);
        if result.is_err() {
            self.truncate(mark);
            repeats.clear();
        }
        result
    }

    /// As `remap_repeating`, but that a refusal leaves what was added before it. (What nearly all
    /// ranges have is known to the compiler in a loop of its own.)
    #[inline(never)]
    #[tactic(auto, unfolding(crate::specs::StringOffsets::remapped), using(std::proofs::lemmas::List::take_all))]
    fn remapped_by_form(
        &mut self,
        repeats: &mut Repeats,
        range: &StringOffsets<'_>,
        section_size: u64,
    ) -> Result<Vec<u8>, Error>
        requires known { AreKnown range.now.strings.now self.old repeats.old }
        ensures meaning { Gives (λ bytes. (bytes.items, self.new)) result
            (remapped range.now.order range.now.encoding range.now.strings.now range.now.offsets.now
            section_size self.old) }
        ensures kept { take (length self.old) self.new ≡ self.old }
        ensures known { AreKnown range.now.strings.now self.new repeats.new }
    {
        let order = range.order;
        let encoding = range.encoding;
        if section_size == 0 {
            return Ok(Vec::new(self.alloc));
        }
        if section_size < encoding.string_offsets_header_size() as u64 {
            return Err(Error::BadStringOffsets(0));
        }
        let is_whole = section_size <= range.offsets.len() as u64;
        // (without cells short strings aren't remembered)
        let is_plain = is_whole && repeats.cells.is_empty();
        match (order, encoding.format) {
            (Endianness::Little, Format::Dwarf32) if is_plain => {
                self.remapped_words(repeats, range, section_size)
            }
            (Endianness::Little, Format::Dwarf32) => {
                let encoding = dwarf32(encoding);
                self.remapped(repeats, range, section_size, Endianness::Little, encoding)
            }
            _ => self.remapped(repeats, range, section_size, order, encoding),
        }
    }

    /// As `remapped_by_form`, of one order and encoding, which the compiler knows where they are
    /// constants.
    #[inline(always)]
    #[tactic(auto, unfolding(crate::specs::StringOffsets::remapped), using(std::proofs::lemmas::List::take_all))]
    fn remapped(
        &mut self,
        repeats: &mut Repeats,
        range: &StringOffsets<'_>,
        section_size: u64,
        order: Endianness,
        encoding: Encoding,
    ) -> Result<Vec<u8>, Error>
        requires some { section_size ≢ 0 }
        requires headed { header_size encoding ≤ section_size }
        requires known { AreKnown range.now.strings.now self.old repeats.old }
        ensures meaning { Gives (λ bytes. (bytes.items, self.new)) result
            (remapped order encoding range.now.strings.now range.now.offsets.now section_size
            self.old) }
        ensures kept { take (length self.old) self.new ≡ self.old }
        ensures known { AreKnown range.now.strings.now self.new repeats.new }
    {
        let strings = range.strings;
        let of_form = StringOffsets {
            order,
            encoding,
            ..*range
        };
        let entry_size = encoding.format.offset_size() as u64;
        let count = encoding.string_offsets_count(section_size);
        let limit = offset_limit(encoding.format);
        let mut out = header(self.alloc, order, encoding, count * entry_size)?;
        out.reserve(range.offsets.len())?;
        for index in 0..count {
            let named = match of_form.entry(index) {
                Some(named) => named,
                None => return Err(Error::OffsetAtIndex(ReadError::UnexpectedEof, index)),
            };
            // (nearly every one is told without room for an error)
            let offset = match self.offset_told(repeats, strings, named, limit) {
                Some(offset) => offset,
                None => self.fitting_offset(repeats, strings, named, encoding.format)?,
            };
            push_offset(&mut out, order, encoding.format, offset)?;
        }
        Ok(out)
    }

    /// The offset of a string, which is read where it isn't remembered, and is to fit the format.
    #[inline(never)]
    #[tactic(auto, using(crate::proofs::Remapping::read_fitting, crate::proofs::Remapping::read_large, std::proofs::lemmas::List::take_all))]
    pub(crate) fn fitting_offset(
        &mut self,
        repeats: &mut Repeats,
        debug_str: &[u8],
        named: u64,
        format: Format,
    ) -> Result<u64, Error>
        requires { AreKnown debug_str.now self.old repeats.old }
        ensures meaning { Gives (λ offset. (offset, self.new)) result
            (fitting_read format debug_str.now named self.old) }
        ensures fits { IfOk result (λ offset. offset ≤ offset_limit format) }
        ensures kept { take (length self.old) self.new ≡ self.old }
        ensures known { AreKnown debug_str.now self.new repeats.new }
    {
        let offset = self.offset_read(repeats, debug_str, named)?;
        if offset_limit(format) < offset {
            return Err(Error::NumberTooLarge("string offset", offset));
        }
        Ok(offset)
    }

    /// The offset of a string, which is read where it isn't remembered.
    #[tactic(auto, unfolding(crate::specs::Known::offset_read), using(std::proofs::lemmas::List::take_all))]
    fn offset_read(
        &mut self,
        repeats: &mut Repeats,
        debug_str: &[u8],
        named: u64,
    ) -> Result<u64, Error>
        requires known { AreKnown debug_str.now self.old repeats.old }
        ensures meaning { Gives (λ offset. (offset, self.new)) result
            (offset_read debug_str.now named self.old) }
        ensures kept { take (length self.old) self.new ≡ self.old }
        ensures known { AreKnown debug_str.now self.new repeats.new }
    {
        if let Some(known) = repeats.find(named) {
            return Ok(known);
        }
        let string = string_read(debug_str, named)?;
        let offset = self.get_or_insert(string)?.0 as u64;
        let _remembered = repeats.enter(string.len(), named, offset);
        Ok(offset)
    }
}
