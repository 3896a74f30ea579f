//! What is wrong with a package.

use dwp_base::SectionKind;
use dwp_bytes::ReadError;
use dwp_elf_read::ReadError as ElfReadError;
use thiserror::Error;

/// What is wrong with a package, or with what it says of a unit.
#[derive(Clone, Copy, Debug, PartialEq, Eq, Hash, Error)]
pub enum PackageError {
    /// The file is no ELF file that can be read, or a section that is used can't be.
    #[error("Malformed ELF file: {0}")]
    Elf(ElfReadError),
    /// An index can't be read, or a row number is past its rows.
    #[error("Malformed index: {0}")]
    Index(ReadError),
    /// A range of a unit is outside its section.
    #[error("Range of a unit is outside its section")]
    Range(SectionKind),
    /// A unit's header can't be read.
    #[error("Malformed unit: {0}")]
    Unit(ReadError),
}
