//! The bytes of the decompressed file: the old ones, behind them the plain contents, the table of
//! names, if some are added, and the section headers (ELF gABI, "Section Header"). They are read
//! again and compared, so what doesn't fit the file's class may be written in any way.

use crate::agree::Expected;
use crate::asked::is_older;
use crate::sizes::size_of;
use crate::stream::{word_at, word_size_of};
use dwp_base::Class;
use dwp_elf_read::{ElfFile, Section};
use std::alloc::AllocError;

/// Where the next plain content begins in the file, and the next new name in the table of names.
#[derive(Clone, Copy)]
struct Next {
    content: u64,
    name: u64,
}

/// Writes bytes over those at a place, if these lie there.
fn set_bytes(out: &mut [u8], place: usize, bytes: &[u8]) {
    for (old, new) in out.iter_mut().skip(place).zip(bytes) {
        *old = *new;
    }
}

/// A file, and what it is to become.
#[derive(Clone, Copy)]
pub struct Change<'a> {
    pub bytes: &'a [u8],
    pub file: ElfFile<'a>,
    pub expected: Expected<'a>,
}

impl<'a> Change<'a> {
    /// Writes an address, an offset or a size at a place.
    fn set_word(&self, out: &mut [u8], place: usize, x: u64) {
        let order = self.file.endianness();
        match self.file.class() {
            Class::Elf32 => set_bytes(out, place, &order.bytes_of_u32(x.min(0xffff_ffff) as u32)),
            Class::Elf64 => set_bytes(out, place, &order.bytes_of_u64(x)),
        }
    }

    /// The bytes of the i-th section header, if they lie in the file.
    fn header(&self, i: usize) -> Option<&'a [u8]> {
        let class = self.file.class();
        let word = word_size_of(class);
        if self.bytes.len() < 32 + 2 * word {
            return None;
        }
        let table = word_at(class, self.file.endianness(), self.bytes, 24 + 2 * word);
        let size = 16 + 6 * word;
        let place = (table as usize).checked_add(i.checked_mul(size)?)?;
        self.bytes.get(place..place.checked_add(size)?)
    }

    /// Changes the header of a section that gets its plain content. Its alignment is the one that
    /// the content's own header says, if it has one.
    fn set_plain(&self, section: &Section<'_>, size: u64, next: &mut Next, header: &mut [u8]) {
        let word = word_size_of(self.file.class());
        self.set_word(header, 8, section.flags() & 0xffff_ffff_ffff_f7ff);
        self.set_word(header, 8 + 2 * word, next.content);
        self.set_word(header, 8 + 3 * word, size);
        next.content = next.content.saturating_add(size);
        if let Ok(name) = section.name() {
            if is_older(name) {
                let place = next.name.min(0xffff_ffff) as u32;
                set_bytes(header, 0, &self.file.endianness().bytes_of_u32(place));
                next.name = next.name.saturating_add(name.len() as u64);
            }
        }
        if section.is_compressed() {
            let content = section.data().unwrap_or(&[]);
            let alignment = content.get(2 * word..3 * word).unwrap_or(&[]);
            set_bytes(header, 16 + 4 * word, alignment);
        }
    }

    /// Changes the header of a section that stays: what couldn't be read can't be read in the longer
    /// file either, and the table of names is where it is written again, if names are added.
    fn set_kept(&self, section: &Section<'_>, names: u64, header: &mut [u8]) {
        let word = word_size_of(self.file.class());
        if section.data().is_err() {
            self.set_word(header, 8 + 2 * word, u64::MAX);
        }
        let added = self.expected.added.len() as u64;
        if added > 0 && section.name().is_err() {
            set_bytes(header, 0, &[0xff; 4]);
        }
        if added > 0 && section.number() == self.expected.names {
            self.set_word(header, 8 + 2 * word, names);
            self.set_word(header, 8 + 3 * word, section.size().saturating_add(added));
        }
    }

    /// Writes the headers of all sections; the table of names begins at `names`.
    fn add_headers(&self, names: u64, out: &mut Vec<u8>) -> Result<(), AllocError> {
        let mut next = Next {
            content: self.bytes.len() as u64,
            name: size_of(&self.file, self.expected.names),
        };
        for section in self.file.sections() {
            let place = out.len();
            out.extend_from_slice(self.header(section.number()).unwrap_or(&[]))?;
            let header = out.split_at_mut(place).1;
            match self.expected.contents.get(section.number()) {
                Some(Some(plain)) => {
                    self.set_plain(&section, plain.len() as u64, &mut next, header);
                }
                _ => self.set_kept(&section, names, header),
            }
        }
        Ok(())
    }

    /// Writes the file. Its section headers begin at a multiple of 8.
    pub fn write(&self, out: &mut Vec<u8>) -> Result<(), AllocError> {
        out.extend_from_slice(self.bytes)?;
        for content in self.expected.contents.iter() {
            if let Some(plain) = content {
                out.extend_from_slice(plain.as_slice())?;
            }
        }
        let names = out.len() as u64;
        if !self.expected.added.is_empty() {
            if let Some(table) = self.file.section(self.expected.names) {
                out.extend_from_slice(table.data().unwrap_or(&[]))?;
            }
            out.extend_from_slice(self.expected.added)?;
        }
        let fill = (8 - out.len() % 8) % 8;
        out.extend_from_slice([0; 8].split_at(fill).0)?;
        let table = out.len() as u64;
        self.set_word(out, 24 + 2 * word_size_of(self.file.class()), table);
        self.add_headers(names, out)
    }
}
