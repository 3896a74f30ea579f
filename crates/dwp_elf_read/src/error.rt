//! What is wrong with an ELF file.

use std::io;
use thiserror::Error;

/// What is wrong with an ELF file, or with the part of it that was asked for.
#[derive(Clone, Copy, Debug, PartialEq, Eq, Hash, Error)]
pub enum ReadError {
    /// Fewer bytes than the identification or the class's header has.
    #[error("File is too short")]
    TooShort,
    /// The identification isn't that of an ELF file of 32 or 64 bits.
    #[error("File is not ELF")]
    NotElf,
    /// A byte order that is neither little nor big endian.
    #[error("Unknown byte order")]
    ByteOrder,
    /// A version of the identification other than 1.
    #[error("Unknown ELF version")]
    Version,
    /// Section headers outside the file.
    #[error("Section headers are outside the file")]
    SectionTable,
    /// Section headers of another size than the class's.
    #[error("Section headers have a wrong size")]
    SectionEntrySize,
    /// No section has the name table's number, or the table is outside the file.
    #[error("Section name table is outside the file")]
    NameTable,
    /// A section's name is outside the name table, has no end or is no UTF-8.
    #[error("Section name can't be read")]
    NameRange,
    /// A section's content is outside the file.
    #[error("Section content is outside the file")]
    SectionRange,
    /// A relocation's symbol table isn't one, or is outside the file.
    #[error("Symbol table can't be read")]
    SymbolTable,
    /// A symbol's number is past its table.
    #[error("Symbol number is past the symbol table")]
    SymbolIndex,
    /// A relocation table is outside the file, or isn't of whole entries.
    #[error("Relocation table can't be read")]
    RelocationTable,
    /// A section is compressed.
    #[error("Section is compressed")]
    Compressed,
}

/// Why an ELF file could not be written.
#[derive(Debug, Drop, Error)]
pub enum WriteError {
    /// An offset or a size doesn't fit the file's class.
    #[error("Number is too large for the class of the file")]
    NumberTooLarge,
    /// Memory ran out.
    #[error("Out of memory")]
    Memory,
    /// The writer failed, or took no bytes.
    #[error("Writer failed")]
    Io(io::Error),
}
