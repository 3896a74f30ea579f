//! The numbers in the bytes of a file, its headers and those of its sections (ELF gABI, "Data
//! Representation", "ELF Header" and "Section Header").

ghost use Rattle.std.specs.Prelude.{length, option_map, slice_range, ◌*◌, ◌+◌, ◌<◌, ◌^◌, ◌≡◌, ◌≤◌};
ghost use Rattle.dwp_elf_read.specs.Layout.{entry_size, number_at, section_header_of, word_size};
ghost use Rattle.dwp_elf_read.specs.Elf.{section_content, section_count, section_header_at};
ghost use Rattle.std.specs.{Option.option_copied, Prelude.IfOk, Prelude.IfSome, Prelude.OnOk};
ghost use Rattle.dwp_base.specs.Reading.{Answers};
ghost use Rattle.dwp_elf_read.specs.{Elf.name_table, Layout.is_inside};

use crate::error::ReadError;
use dwp_base::{Class, Endianness};

/// Bytes of an ELF file, and how numbers stand in them.
#[derive(Clone, Copy)]
pub(crate) struct Image<'a> {
    pub class: Class,
    pub order: Endianness,
    pub bytes: &'a [u8],
}

/// The type of a section that has no bytes in the file (`SHT_NOBITS`).
pub(crate) const SHT_NOBITS: u32 = 8;

/// What is read of a file's header.
#[derive(Clone, Copy)]
pub(crate) struct FileHeader {
    pub machine: u16,
    /// Where the section headers begin; 0 where there are none.
    pub table: u64,
    /// The bytes of a section header.
    pub entry_size: u16,
    /// How many section headers there are; 0 where section 0's size says it.
    pub count: u16,
    /// The number of the section with the sections' names.
    pub names: u16,
}

/// A section header as it stands in a file (ELF gABI, "Section Header").
#[derive(Clone, Copy)]
pub(crate) struct SectionHeader {
    /// Where the name stands in the name table.
    pub name: u32,
    pub kind: u32,
    pub flags: u64,
    /// Where the section lies in the memory of a process; 0 where it doesn't.
    pub address: u64,
    /// Where the content begins in the file.
    pub offset: u64,
    /// How many bytes the content has.
    pub size: u64,
    /// The number of a section that goes with this one.
    pub link: u32,
    /// More on the section, as its type says.
    pub info: u32,
}

/// The bytes of an address, an offset or a size.
#[inline(always)]
pub(crate) fn word_size_of(class: Class) -> usize
    ensures { result ≡ word_size class }
{
    match class {
        Class::Elf32 => 4,
        Class::Elf64 => 8,
    }
}

#[inline(always)]
pub(crate) fn entry_size_of(class: Class) -> usize
    ensures { result ≡ entry_size class }
{
    match class {
        Class::Elf32 => 40,
        Class::Elf64 => 64,
    }
}

impl<'a> Image<'a> {
    /// An image of other bytes of the file, of its class and byte order.
    pub fn with_bytes<'b>(&self, bytes: &'b [u8]) -> Image<'b>
        ensures { result ≡ record {
          class = self.now.class;
          order = self.now.order;
          bytes =
              bytes.entry;
        } }
    {
        Image {
            class: self.class,
            order: self.order,
            bytes,
        }
    }

    /// The number in the two bytes at a place.
    pub fn u16_at(&self, place: usize) -> u16
        requires { place + 2 ≤ length self.now.bytes.now }
        ensures { result ≡ number_at self.now.order 2 self.now.bytes.now place }
    {
        self.order.read_u16(self.bytes.split_at(place).1)
    }

    /// The number in the four bytes at a place.
    #[inline(always)]
    pub fn u32_at(&self, place: usize) -> u32
        requires { place + 4 ≤ length self.now.bytes.now }
        ensures { result ≡ number_at self.now.order 4 self.now.bytes.now place }
    {
        self.order.read_u32(self.bytes.split_at(place).1)
    }

    /// The number in the word at a place: an address, an offset or a size.
    #[inline(always)]
    pub fn word_at(&self, place: usize) -> u64
        requires { place + word_size self.now.class ≤ length self.now.bytes.now }
        ensures value { result
            ≡ number_at self.now.order (word_size self.now.class) self.now.bytes.now place }
        ensures fits { result < 2 ^ (8 * word_size self.now.class) }
    {
        let rest = self.bytes.split_at(place).1;
        match self.class {
            Class::Elf32 => u64::from(self.order.read_u32(rest)),
            Class::Elf64 => self.order.read_u64(rest),
        }
    }

    /// Whether `size` bytes from a place on lie in the bytes.
    pub fn contains(&self, place: u64, size: u64) -> bool
        ensures { result ≡ is_inside self.now.bytes.now place size }
    {
        let end = self.bytes.len() as u64;
        place <= end && size <= end - place
    }

    /// The section header that the bytes begin with.
    #[inline(always)]
    #[tactic(auto, unfolding(crate::specs::Layout::section_header_of))]
    fn section_header(&self) -> SectionHeader
        requires { entry_size self.now.class ≤ length self.now.bytes.now }
        ensures { result
            ≡ section_header_of (word_size self.now.class) self.now.order self.now.bytes.now }
    {
        let word = word_size_of(self.class);
        SectionHeader {
            name: self.u32_at(0),
            kind: self.u32_at(4),
            flags: self.word_at(8),
            address: self.word_at(8 + word),
            offset: self.word_at(8 + 2 * word),
            size: self.word_at(8 + 3 * word),
            link: self.u32_at(8 + 4 * word),
            info: self.u32_at(12 + 4 * word),
        }
    }

    /// The header of the i-th section, where the section headers begin at `table`.
    pub fn header_of(&self, table: usize, i: usize) -> SectionHeader
        requires { table + (i * entry_size self.now.class + entry_size self.now.class)
            ≤ length self.now.bytes.now }
        ensures { result
            ≡ section_header_at self.now.class self.now.order self.now.bytes.now table i }
    {
        let bytes = self.bytes.split_at(table + i * entry_size_of(self.class)).1;
        // (what nearly all files have is known to the compiler: each number is one load)
        match (self.class, self.order) {
            (Class::Elf64, Endianness::Little) => Image {
                class: Class::Elf64,
                order: Endianness::Little,
                bytes,
            }
            .section_header(),
            _ => self.with_bytes(bytes).section_header(),
        }
    }

    /// Where the content of a section begins and how many bytes it has, if it lies in the file.
    #[tactic(auto, unfolding(crate::specs::Elf::section_content))]
    pub fn range(&self, header: &SectionHeader) -> Option<(u64, u64)>
        ensures content { option_map (λ range. slice_range self.now.bytes.now range.0
            (range.0 + range.1)) result ≡ section_content self.now.bytes.now header.now }
        ensures inside { IfSome result (λ range. range.0 + range.1 ≤ length self.now.bytes.now) }
    {
        if header.kind == SHT_NOBITS {
            return Some((0, 0));
        }
        self.contains(header.offset, header.size)
            .then_some((header.offset, header.size))
    }

    /// The content of a section, if it lies in the file.
    pub fn content(&self, header: &SectionHeader) -> Option<&'a [u8]>
        ensures { option_copied result ≡ section_content self.now.bytes.now header.now }
    {
        let (start, size) = self.range(header)?;
        let bytes = self.bytes;
        Some(&bytes[start as usize..start as usize + size as usize])
    }

    /// How many sections there are, all of whose headers lie in the file.
    #[tactic(auto, unfolding(crate::specs::Elf::section_count, crate::specs::Elf::named_count))]
    pub fn count_sections(&self, header: &FileHeader) -> Result<usize, ReadError>
        ensures value { Answers (λ count. count) result
            (section_count self.now.class self.now.order self.now.bytes.now header.now) }
        ensures headers { IfOk result (λ count.
            header.now.table + count * entry_size self.now.class ≤ length self.now.bytes.now) }
        ensures first { OnOk result (0 < header.now.table
            → header.now.table + entry_size self.now.class ≤ length self.now.bytes.now) }
    {
        if header.table == 0 {
            return Ok(0);
        }
        let size = entry_size_of(self.class);
        if header.entry_size as usize != size {
            return Err(ReadError::SectionEntrySize);
        }
        let count = if header.count != 0 {
            u64::from(header.count)
        } else if self.contains(header.table, size as u64) {
            self.header_of(header.table as usize, 0).size
        } else {
            return Err(ReadError::SectionTable);
        };
        let Some(size) = count.checked_mul(size as u64) else {
            return Err(ReadError::SectionTable);
        };
        if !self.contains(header.table, size) {
            return Err(ReadError::SectionTable);
        }
        Ok(count as usize)
    }

    /// The bytes of the sections' names; none where the file has no name table.
    #[tactic(auto, unfolding(crate::specs::Elf::name_table, crate::specs::Elf::name_table_number, crate::specs::Elf::name_table_numbered))]
    pub fn names(&self, header: &FileHeader, count: usize) -> Result<&'a [u8], ReadError>
        requires headers { header.now.table + count * entry_size self.now.class
            ≤ length self.now.bytes.now }
        requires first { 0 < header.now.table
            → header.now.table + entry_size self.now.class ≤ length self.now.bytes.now }
        ensures { Answers (λ names. names.now) result
            (name_table self.now.class self.now.order self.now.bytes.now header.now count) }
    {
        let number = if header.names != 0xffff {
            usize::from(header.names)
        } else if header.table == 0 {
            return Err(ReadError::NameTable);
        } else {
            self.header_of(header.table as usize, 0).link as usize
        };
        if number == 0 {
            return Ok(&[]);
        }
        if number >= count {
            return Err(ReadError::NameTable);
        }
        self.content(&self.header_of(header.table as usize, number))
            .ok_or(ReadError::NameTable)
    }
}
