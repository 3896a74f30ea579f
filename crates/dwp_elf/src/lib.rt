//! ELF files: reading them, and writing the sections of a DWARF package (ELF gABI).
#![tactic(auto)]

mod headers;
pub mod laws;
mod object;
mod output;
mod writer;

pub use dwp_base::{Class, Contribution, ContributionOffset, Endianness, SectionKind};
pub use dwp_elf_read::{
    ElfFile, FileKind, RawRelocation, ReadError, Relocations, Section, Sections, WriteError,
};
pub use object::WritableObject;
pub use writer::{Output, Watched};
